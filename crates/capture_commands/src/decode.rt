//! The command `decode`: says what each packet of a list is.

ghost use Rattle.std.specs.Prelude.{◌≡◌, ◌<◌, ◌^◌, false};
ghost use Rattle.command_driver.specs.Responding.{Responds, reading, never};
ghost use Rattle.capture_commands.specs.Decode.{is_malformed, decode_answer};

use answer_text::{write_packet, write_packet_counts};
use command_driver::{Close, Command, Next, Status, Trouble, drive};
use eap_packet::decode;
use octet_io::{Failed, Sink, Source};
use request_text::read_packet_line;

/// How many packets there were so far, and how many of them were malformed.
#[derive(Clone, Copy, PartialEq, Eq, Debug)]
pub struct Decode {
    packets: u32,
    malformed: u32,
}

/// True if the octets begin with no packet.
#[tactic(auto, unfolding(crate::specs::Decode::is_malformed))]
fn starts_with_none(octets: &[u8]) -> bool
    ensures { result ≡ is_malformed octets.now }
{
    decode(octets).is_err()
}

impl Decode {
    ghost use Rattle.capture_commands.specs.Decode.{packet_result, with_packet, nothing_decoded};
    ghost use Rattle.command_driver.specs.Commands.{AnswersLine};
    ghost use Rattle.std.specs.Prelude.{Some, Ok};

    /// No packet so far.
    pub fn new() -> Decode
        ensures { result ≡ nothing_decoded }
    {
        Decode {
            packets: 0,
            malformed: 0,
        }
    }

    /// One more packet.
    #[tactic(auto, unfolding(answer_text::specs::Writes::Appends))]
    fn packet<W: Sink>(&mut self, sink: &mut W, octets: &[u8]) -> Result<Next, Trouble>
        requires packets { self.old.packets < 2 ^ 31 }
        requires malformed { self.old.malformed < 2 ^ 31 }
        ensures answers { AnswersLine W.shown result sink.old sink.new
            (packet_result self.old (Ok (Some octets.now))) false self.new }
        ensures after { self.new ≡ with_packet self.old octets.now }
    {
        self.packets += 1;
        self.malformed += u32::from(starts_with_none(octets));
        write_packet(sink, self.packets, octets)?;
        Ok(Next::Proceed)
    }
}

impl Command for Decode {
    ghost use Rattle.capture_commands.specs.declared.decode.Decode.{Decode};
    ghost use Rattle.capture_commands.specs.Decode.{decode_step, decode_closing, decode_lacks};
    ghost use Rattle.capture_commands.specs.Decode.{HasCounted};

    ghost Seen = { Decode };

    ghost seen = { λ c. c };

    ghost line_result = { decode_step };

    ghost closing = { decode_closing };

    ghost lacks = { decode_lacks };

    ghost is_valid_after = { HasCounted };

    #[tactic(auto, unfolding(crate::specs::Decode::decode_step))]
    fn handle_line<W: Sink>(&mut self, sink: &mut W, line: &[u8]) -> Result<Next, Trouble> {
        match read_packet_line(line) {
            Ok(None) => Ok(Next::Proceed),
            Ok(Some(octets)) => self.packet(sink, octets.as_slice()),
            Err(fault) => Ok(Next::Refuses(fault.word(), Status::Refused)),
        }
    }

    #[tactic(auto, unfolding(crate::specs::Decode::decode_closing, answer_text::specs::Writes::Appends))]
    fn close<W: Sink>(&self, sink: &mut W) -> Result<Close, Failed> {
        write_packet_counts(sink, self.packets, self.malformed)?;
        Ok(Close::Ends(Status::Done))
    }
}

/// Reads packets in hex and writes what they are. It allocates no memory.
#[tactic(auto, using(command_driver::proofs::Responding::never_lacks))]
pub fn decode_packets<S: Source, W: Sink>(source: &mut S, sink: &mut W) -> Status
    ensures { Responds S.shown W.shown (reading decode_answer never)
        result source.old source.new sink.old sink.new }
{
    drive(&mut Decode::new(), source, sink)
}
