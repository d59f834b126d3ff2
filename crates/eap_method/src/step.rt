//! What one call of a machine of RFC 4137 does. The packet that it sends and the records of its tags
//! are in the buffers passed to the call.

ghost use Rattle.std.specs.Prelude.{◌≡◌, ◌≤◌, ◌+◌, ◌++◌, length, None, Some, true, false};
ghost use Rattle.eap_method.specs.Steps.{is_end};

use crate::records::TwoRecords;
use crate::tags::Tags;
use eap_packet::{Cause, Path, State};
use octet_lists::Packet;
use std::marker::Model;

/// What one call of a machine does, seen from outside.
#[derive(Drop, Debug)]
pub struct Step {
    /// The states that it enters, in order; none if the party had ended.
    pub path: Path,
    /// Why it discards what came, None if it doesn't.
    pub cause: Option<Cause>,
    /// Whether it sends a packet.
    pub sends: bool,
}

/// What one call of a machine does, with the packet that it sends and the records of its tags.
#[derive(Drop)]
#[derive_where(Debug)]
pub struct WholeStep {
    /// The states that it enters, in order; none if the party had ended.
    pub path: Path,
    /// Why it discards what came, None if it doesn't.
    pub cause: Option<Cause>,
    /// The packet that it sends.
    pub sent: Option<Packet>,
    /// Of the tags accepted and made. `Debug` leaves them out, since each has the shared key.
    #[derive_where(skip)]
    pub tags: Tags,
}

impl Model for WholeStep {
    ghost use Rattle.eap_method.specs.Steps.{Step};

    ghost Value = { Step };

    ghost view = { λ s. record { path = s.path; cause = s.cause; sent = s.sent; tags = s.tags } };
}

impl Step {
    ghost use Rattle.eap_method.specs.Steps.{step_with};
    ghost use Rattle.eap_method.specs.Tags.{no_tags};
    ghost use Rattle.std.specs.Prelude.{[]};

    /// The step with the packet and the records that its call wrote.
    pub fn with(self, packet: Packet, tags: Tags<TwoRecords>) -> WholeStep
        ensures { result ≡ step_with self packet tags }
    {
        WholeStep {
            path: self.path,
            cause: self.cause,
            sent: if self.sends { Some(packet) } else { None },
            tags,
        }
    }

    /// The step of a call that writes no packet and no record.
    pub fn alone(self) -> WholeStep
        ensures { result ≡ step_with self [] no_tags }
    {
        self.with(Packet::new(), Tags::new())
    }

    /// These states are entered, at most 8, and a packet is sent.
    pub fn sending(states: &[State]) -> Step
        requires { length states.now ≤ 8 }
        ensures { result ≡ record { path = states.now; cause = None; sends = true } }
    {
        Step::of(states, None, true)
    }

    /// These states are entered, at most 8, and nothing is sent.
    pub fn entering(states: &[State]) -> Step
        requires { length states.now ≤ 8 }
        ensures { result ≡ record { path = states.now; cause = None; sends = false } }
    {
        Step::of(states, None, false)
    }

    /// These states are entered, at most 8, and what came is discarded for this cause.
    pub fn discarding(states: &[State], cause: Cause) -> Step
        requires { length states.now ≤ 8 }
        ensures { result ≡ record { path = states.now; cause = Some cause; sends = false } }
    {
        Step::of(states, Some(cause), false)
    }

    /// These states are entered, at most 8.
    fn of(states: &[State], cause: Option<Cause>, sends: bool) -> Step
        requires { length states.now ≤ 8 }
        ensures { result ≡ record { path = states.now; cause = cause; sends = sends } }
    {
        let mut path = Path::new();
        append_each(&mut path, states);
        Step { path, cause, sends }
    }

    /// The same after these states; together at most 8 are entered.
    pub fn after(self, states: &[State]) -> Step
        requires { length states.now + length self.path ≤ 8 }
        ensures { result ≡ record self { path = states.now ++ self.path } }
    {
        let mut step = Step::of(states, self.cause, self.sends);
        append_each(&mut step.path, self.path.as_slice());
        step
    }
}

/// Appends the states, which fit.
fn append_each(path: &mut Path, states: &[State])
    requires { length path.old + length states.now ≤ 8 }
    ensures { path.new ≡ path.old ++ states.now }
{
    for state in states {
        path.push(*state);
    }
}

/// True in the states after which a party does nothing more: SUCCESS, FAILURE, TIMEOUT_FAILURE.
pub fn has_ended(state: State) -> bool
    ensures { result ≡ is_end state }
{
    matches!(
        state,
        State::Success | State::Failure | State::TimeoutFailure
    )
}
