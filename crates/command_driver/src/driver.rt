//! Passing the lines of an input, one after the other, to a command.

ghost use Rattle.std.specs.Prelude.{◌≡◌, ◌≤◌, ◌+◌, ℕ, List, Option};
ghost use Rattle.command_driver.specs.Answers.{Finishes, IsRefusal, Drains, refusal};
ghost use Rattle.command_driver.specs.Commands.{closing_answer, SomeLacks};
ghost use Rattle.command_driver.specs.Driving.{driven};
ghost use Rattle.command_driver.specs.Responding.{Responds};

use crate::command::{Close, Command, Next, Trouble};
use crate::status::Status;
use answer_text::write_refused;
use octet_io::{LineReader, NextLine, Sink, Source};

/// Writes the last line of a refused input, and ends with the status.
#[tactic(auto, unfolding(answer_text::specs::Writes::Appends))]
fn refuse<W: Sink>(sink: &mut W, line: u32, word: &str, status: Status) -> Status
    requires { IsRefusal status }
    ensures finishes { Finishes W.shown result sink.old sink.new (refusal line word.now status) }
    ensures drains { (left : Option (List ℕ)) → Drains result left }
{
    match write_refused(sink, line, word) {
        Ok(()) => status,
        Err(_) => Status::WriteFault,
    }
}

/// Handles the end of the input, if the next line would have the number `line`.
fn close<C: Command, W: Sink>(command: &C, sink: &mut W, line: u32) -> Status
    ensures { Finishes W.shown result sink.old sink.new
        (closing_answer line (C.closing (C.seen command.now))) }
{
    match command.close(sink) {
        Ok(Close::Ends(status)) => status,
        Ok(Close::Misses(word)) => refuse(sink, line, word, Status::Refused),
        Err(_) => Status::WriteFault,
    }
}

/// Reads the lines of the source one after the other, passes each to the command, and ends at the end of the input,
/// at a refused line, at a limit or at a fault. No failed read or write that is counted is ignored.
pub fn drive<C: Command, S: Source, W: Sink>(
    command: &mut C,
    source: &mut S,
    sink: &mut W,
) -> Status
    requires { C.is_valid_after command.old 0 }
    ensures responds { Responds S.shown W.shown
        (driven C.line_result C.closing C.lacks (C.seen command.old))
        result source.old source.new sink.old sink.new }
    ensures wanting { result ≡ Status.Memory → SomeLacks C.lacks }
    ensures read_never_falls { S.shown.faults source.old ≤ S.shown.faults source.new }
    ensures write_never_falls { W.shown.faults sink.old ≤ W.shown.faults sink.new }
{
    let mut reader = LineReader::new();
    loop {
        match reader.next_line(source) {
            NextLine::Line => match command.handle_line(sink, reader.line()) {
                Ok(Next::Proceed) => {}
                Ok(Next::Refuses(word, status)) => return refuse(
                    sink,
                    reader.number(),
                    word,
                    status,
                ),
                Err(Trouble::Write) => return Status::WriteFault,
                Err(Trouble::Memory) => return Status::Memory,
            },
            NextLine::End => return close(command, sink, reader.number() + 1),
            NextLine::TooLong => return refuse(sink, reader.number(), "TooMuch", Status::TooMuch),
            NextLine::TooMuch => return refuse(sink, reader.number(), "TooMuch", Status::TooMuch),
            NextLine::Read => return Status::ReadFault,
        }
    }
}
