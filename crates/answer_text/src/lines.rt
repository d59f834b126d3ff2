//! Lines that every command writes.

ghost use Rattle.answer_text.specs.Writes.{Appends};
ghost use Rattle.answer_text.specs.Lines.{hex_line, line_text, refused_text};

use crate::pieces::Piece::{Hex, Number, Text};
use crate::pieces::write_pieces;
use octet_io::{Failed, Sink};

/// Writes the octets and LF. `Failed`: a write failed, and a prefix of the line was appended.
pub fn write_line<W: Sink>(sink: &mut W, line: &[u8]) -> Result<(), Failed>
    ensures { Appends W.shown result sink.old sink.new (line_text line.now) }
{
    write_pieces(sink, &[Text(line), Text(b"\n")])
}

/// Writes a name and octets in hex, `-` if there are none, in one line. `Failed`: a write failed, and a prefix of the
/// line was appended.
#[tactic(auto, unfolding(crate::specs::Lines::hex_line))]
pub fn write_hex<'a, W: Sink>(sink: &mut W, name: &'a str, octets: &'a [u8]) -> Result<(), Failed>
    ensures { Appends W.shown result sink.old sink.new (hex_line name.now octets.now) }
{
    write_pieces(
        sink,
        &[Text(name.as_bytes()), Hex(b" ", octets), Text(b"\n")],
    )
}

/// Writes the last line of a refused input, `refused line N WORD`: the number of the refused line, from
/// 1, and why. `Failed`: a write failed, and a prefix of the line was appended.
pub fn write_refused<W: Sink>(sink: &mut W, line: u32, word: &str) -> Result<(), Failed>
    ensures { Appends W.shown result sink.old sink.new (refused_text line word.now) }
{
    write_pieces(
        sink,
        &[
            Number(b"refused line ", u64::from(line)),
            Text(b" "),
            Text(word.as_bytes()),
            Text(b"\n"),
        ],
    )
}
