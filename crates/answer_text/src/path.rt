//! The states that an end entered, and the cause of a discard. States have their names of RFC 4137.

ghost use Rattle.answer_text.specs.Writes.{Appends, Puts};
ghost use Rattle.answer_text.specs.Paths.{state_text, states_text, path_text, states_line};
ghost use Rattle.answer_text.specs.Paths.{cause_text};

use crate::line_buffer::LineBuffer;
use crate::pieces::Piece::{Leading, Text};
use crate::pieces::{put_number, put_pieces, send, write_nothing, write_pieces};
use eap_packet::{Cause, State};
use octet_io::{Failed, Sink};

/// Puts a state of a path, after a space.
fn put_state<W: Sink>(sink: &mut W, line: &mut LineBuffer, state: State) -> Result<(), Failed>
    ensures { Puts W.shown result sink.old sink.new line.old line.new (state_text state) }
{
    put_pieces(sink, line, &[Text(b" "), Text(state.word().as_bytes())])
}

/// Puts the states of a path, each after a space, and the end of the line.
fn put_states<W: Sink>(sink: &mut W, line: &mut LineBuffer, states: &[State]) -> Result<(), Failed>
    ensures { Puts W.shown result sink.old sink.new line.old line.new (states_text states.now) }
{
    for state in states {
        put_state(sink, line, *state)?;
    }
    put_pieces(sink, line, &[Text(b"\n")])
}

/// Puts the states of a path and the end of the line, `-` for no states.
pub fn put_path<W: Sink>(
    sink: &mut W,
    line: &mut LineBuffer,
    states: &[State],
) -> Result<(), Failed>
    ensures { Puts W.shown result sink.old sink.new line.old line.new (path_text states.now) }
{
    if states.is_empty() {
        put_pieces(sink, line, &[Text(b" -\n")])
    } else {
        put_states(sink, line, states)
    }
}

/// Puts a number and the states of a path, and the end of the line.
#[tactic(auto, using(crate::proofs::Putting::puts_both, crate::proofs::Putting::puts_front))]
fn put_states_line<W: Sink>(
    sink: &mut W,
    line: &mut LineBuffer,
    number: u32,
    path: &[State],
) -> Result<(), Failed>
    ensures { Puts W.shown result sink.old sink.new line.old line.new
        (states_line number path.now) }
{
    put_number(sink, line, u64::from(number))?;
    put_path(sink, line, path)
}

/// Writes a number and the states of a path in one line, `-` for no states. `Failed`: a write failed, and a prefix of
/// the line was appended.
#[tactic(auto, using(crate::proofs::Putting::appends_sent, crate::proofs::Putting::appends_cut))]
pub fn write_states<W: Sink>(sink: &mut W, number: u32, path: &[State]) -> Result<(), Failed>
    ensures { Appends W.shown result sink.old sink.new (states_line number path.now) }
{
    let mut line = LineBuffer::new();
    put_states_line(sink, &mut line, number, path)?;
    send(sink, &mut line)
}

/// Writes the line of a discard, if there was one. `Failed`: a write failed, and a prefix of the line was appended.
pub fn write_cause<W: Sink>(sink: &mut W, event: u32, cause: Option<Cause>) -> Result<(), Failed>
    ensures { Appends W.shown result sink.old sink.new (cause_text event cause) }
{
    match cause {
        None => write_nothing(sink),
        Some(cause) => write_pieces(
            sink,
            &[
                Leading(u64::from(event), b" cause "),
                Text(cause.word().as_bytes()),
                Text(b"\n"),
            ],
        ),
    }
}
