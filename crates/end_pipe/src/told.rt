//! What one end does at a start or at an input.

ghost use Rattle.std.specs.Prelude.{◌≡◌, [], None, true, false};

use eap_method::{Report, Step, Tags};
use eap_packet::{Cause, Path};
use octet_lists::Packet;
use std::marker::Model;

/// What an end does at its start or at an input. The packet that it sends and the records of its tags are in the
/// buffers passed to the call.
#[derive(Drop, Debug)]
pub struct EndStep {
    /// What its machine does; nothing if the input was skipped.
    pub step: Step,
    /// Whether the input was skipped: the end of a timer or a report of the lower layer came after the end.
    pub skipped: bool,
    /// The report that the end first has after it, None if it has none or had it before.
    pub named: Option<Report>,
}

/// What an end does at its start or at an input, with the packet that it sends and the records of its tags. Contracts see
/// the machine's step as one value.
#[derive(Drop)]
pub struct EndTold {
    /// The states that its machine enters, in order.
    pub path: Path,
    /// Why it discards what came, None if it doesn't.
    pub cause: Option<Cause>,
    /// Whether the input was skipped.
    pub skipped: bool,
    /// The packet that it sends.
    pub sent: Option<Packet>,
    /// The report that the end first has after it.
    pub named: Option<Report>,
    /// Of the tags accepted and made.
    pub tags: Tags,
}

impl Model for EndTold {
    ghost use Rattle.end_pipe.specs.EndRun.{EndTold};

    ghost Value = { EndTold };

    ghost view = { λ t. record {
      step = record { path = t.path; cause = t.cause; sent = t.sent; tags = t.tags };
      skipped = t.skipped;
      named = t.named;
    } };
}

impl EndStep {
    ghost use Rattle.end_pipe.specs.EndRun.{result_with};

    /// The step with the packet and the records that its call wrote.
    pub fn with(self, packet: Packet, tags: Tags) -> EndTold
        ensures { result ≡ result_with self packet tags }
    {
        let step = self.step.with(packet, tags);
        EndTold {
            path: step.path,
            cause: step.cause,
            skipped: self.skipped,
            sent: step.sent,
            named: self.named,
            tags: step.tags,
        }
    }

    /// The input was skipped.
    pub fn skipping() -> EndStep
        ensures { result ≡ record {
          step = record { path = []; cause = None; sends = false };
          skipped = true;
          named = None;
        } }
    {
        EndStep {
            step: Step::entering(&[]),
            skipped: true,
            named: None,
        }
    }
}
