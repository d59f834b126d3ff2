//! The command `check`: judges the tags of a capture.

ghost use Rattle.std.specs.Prelude.{◌≡◌, ◌<◌, ◌^◌, false};
ghost use Rattle.command_driver.specs.Responding.{Responds, reading, never};
ghost use Rattle.capture_commands.specs.Check.{check_answer, is_counted};

use answer_text::{write_finding, write_finding_counts};
use capture_check::{Finding, Judge};
use command_driver::{Close, Command, Next, Status, Trouble, drive};
use octet_io::{Failed, Sink, Source};
use request_text::{CaptureItemKind, CaptureReader};

/// A capture that is being read: what has been read of it, what counts of its packets, how many there were, and
/// how many of them are malformed or have a bad tag.
#[derive(Drop)]
pub struct Check {
    reader: CaptureReader,
    checker: Judge,
    packets: u32,
    findings: u32,
}

/// Whether something is wrong with a packet.
pub fn is_counted(finding: &Finding) -> bool
    ensures { result ≡ is_counted finding.now }
{
    matches!(finding, Finding::Malformed(_) | Finding::TagBad)
}

impl Check {
    ghost use Rattle.command_driver.specs.Commands.{AnswersLine, AnswersEnd};
    ghost use Rattle.capture_commands.specs.Check.{check_end};
    ghost use Rattle.capture_commands.specs.CheckSteps.{first_check, packet_step};
    ghost use Rattle.std.specs.Prelude.{Ok};

    /// Nothing has been read yet.
    pub fn new() -> Check
        ensures { result ≡ first_check }
    {
        Check {
            reader: CaptureReader::new(),
            checker: Judge::new(),
            packets: 0,
            findings: 0,
        }
    }

    /// One more packet.
    #[tactic(auto, unfolding(answer_text::specs::Writes::Appends))]
    fn packet<W: Sink>(
        &mut self,
        sink: &mut W,
        to_peer: bool,
        octets: &[u8],
    ) -> Result<Next, Trouble>
        requires packets { self.old.packets < 2 ^ 31 }
        requires findings { self.old.findings < 2 ^ 31 }
        ensures answers { AnswersLine W.shown result sink.old sink.new
            (packet_step self.old self.old.reader to_peer octets.now) false self.new }
        ensures after { self.new ≡ (packet_step self.old self.old.reader to_peer octets.now).after }
    {
        let finding = self.checker.packet(self.reader.users(), to_peer, octets);
        self.packets += 1;
        self.findings += u32::from(is_counted(&finding));
        write_finding(sink, self.packets, &finding)?;
        Ok(Next::Proceed)
    }

    /// The end of the input, after the line `end`.
    #[tactic(auto, unfolding(answer_text::specs::Writes::Appends))]
    fn end<W: Sink>(&self, sink: &mut W) -> Result<Close, Failed>
        ensures { AnswersEnd W.shown result sink.old sink.new
            (check_end self.now.packets self.now.findings (Ok tt)) }
    {
        write_finding_counts(sink, self.packets, self.findings)?;
        if self.findings == 0 {
            Ok(Close::Ends(Status::Done))
        } else {
            Ok(Close::Ends(Status::Findings))
        }
    }
}

impl Command for Check {
    ghost use Rattle.capture_commands.specs.declared.check.Check.{Check};
    ghost use Rattle.capture_commands.specs.CheckSteps.{check_step, step_closing, step_lacks};
    ghost use Rattle.capture_commands.specs.CheckSteps.{HasJudged};

    ghost Seen = { Check };

    ghost seen = { λ c. c };

    ghost line_result = { check_step };

    ghost closing = { step_closing };

    ghost lacks = { step_lacks };

    ghost is_valid_after = { HasJudged };

    #[tactic(auto, unfolding(crate::specs::CheckSteps::check_step))]
    fn handle_line<W: Sink>(&mut self, sink: &mut W, line: &[u8]) -> Result<Next, Trouble> {
        match self.reader.line_into(line) {
            Ok(CaptureItemKind::Packet { to_peer, octets }) => self.packet(
                sink,
                to_peer,
                octets.as_slice(),
            ),
            Ok(_) => Ok(Next::Proceed),
            Err(fault) => Ok(Next::Refuses(fault.word(), Status::Refused)),
        }
    }

    #[tactic(auto, unfolding(crate::specs::CheckSteps::step_closing))]
    fn close<W: Sink>(&self, sink: &mut W) -> Result<Close, Failed> {
        match self.reader.finish() {
            Ok(()) => self.end(sink),
            Err(fault) => Ok(Close::Misses(fault.word())),
        }
    }
}

/// Reads a capture and writes the finding of each packet. The status is `Findings` if the capture was read to its
/// end and a packet is malformed or has a bad tag. It allocates no memory.
pub fn check_capture<S: Source, W: Sink>(source: &mut S, sink: &mut W) -> Status
    ensures { Responds S.shown W.shown (reading check_answer never)
        result source.old source.new sink.old sink.new }
{
    drive(&mut Check::new(), source, sink)
}
