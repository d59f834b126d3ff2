//! Pieces of a text to a sink: each line of them is one write, and a longer one takes a write for each
//! 1,024 octets.

ghost use Rattle.std.specs.Prelude.{◌≡◌, ◌≤◌, ◌+◌, ◌++◌, List, ℕ, [], length, codes, decimal, OnOk};
ghost use Rattle.hex.specs.Hex.{encode_lower};
ghost use Rattle.answer_text.specs.Writes.{Appends, Puts};
ghost use Rattle.answer_text.specs.Pieces.{text_of, text_of_pieces, hex_text};

use crate::line_buffer::LineBuffer;
use itoa::Buffer;
use octet_io::{Failed, LF, Sink};

/// A piece of a line.
#[derive(Clone, Copy)]
pub enum Piece<'a> {
    /// These octets.
    Text(&'a [u8]),
    /// The first octets, and the others in hex, `-` if there are none.
    Hex(&'a [u8], &'a [u8]),
    /// These octets, and a decimal number.
    Number(&'a [u8], u64),
    /// A decimal number, and these octets.
    Leading(u64, &'a [u8]),
    /// These octets, a decimal number, and the end of the line.
    Line(&'a [u8], u64),
}

/// How many octets are spelled in hex at a time.
const STRETCH: usize = 32;

/// Writes octets whole, in as many writes as the sink asks for.
fn write_whole<W: Sink>(sink: &mut W, octets: &[u8]) -> Result<(), Failed>
    ensures { Appends W.shown result sink.old sink.new octets.now }
{
    let mut rest = octets;
    while !rest.is_empty() {
        let count = sink.write(rest)?;
        rest = &rest[count..];
    }
    Ok(())
}

/// Writes what is buffered of a line.
#[tactic(auto, using(crate::proofs::Putting::puts_written, crate::proofs::Putting::puts_unwritten))]
pub fn send<W: Sink>(sink: &mut W, line: &mut LineBuffer) -> Result<(), Failed>
    ensures puts { Puts W.shown result sink.old sink.new line.old line.new [] }
    ensures sent { OnOk result (line.new ≡ []) }
{
    write_whole(sink, line.as_slice())?;
    line.clear();
    Ok(())
}

/// Writes what is buffered of a line, and octets for which there is room.
#[tactic(auto, using(crate::proofs::Putting::puts_with))]
fn send_with<W: Sink>(sink: &mut W, line: &mut LineBuffer, octets: &[u8]) -> Result<(), Failed>
    requires { length line.old + length octets.now ≤ 1024 }
    ensures puts { Puts W.shown result sink.old sink.new line.old line.new octets.now }
    ensures sent { OnOk result (line.new ≡ []) }
{
    line.append(octets);
    send(sink, line)
}

/// Appends octets to a line, and writes it whenever it is full.
fn put_octets<W: Sink>(sink: &mut W, line: &mut LineBuffer, octets: &[u8]) -> Result<(), Failed>
    ensures { Puts W.shown result sink.old sink.new line.old line.new octets.now }
{
    let mut rest = octets;
    while rest.len() > line.remaining() {
        let count = line.remaining();
        send_with(sink, line, &rest[..count])?;
        rest = &rest[count..];
    }
    line.append(rest);
    Ok(())
}

/// Appends octets to a line, which mostly has room for them. This is short, so that it is compiled into its callers.
#[tactic(auto, using(crate::proofs::Putting::puts_stored))]
fn put_short<W: Sink>(sink: &mut W, line: &mut LineBuffer, octets: &[u8]) -> Result<(), Failed>
    ensures { Puts W.shown result sink.old sink.new line.old line.new octets.now }
{
    if octets.len() <= line.remaining() {
        line.append(octets);
        Ok(())
    } else {
        put_octets(sink, line, octets)
    }
}

/// Appends octets to a line, and writes it if they end it.
#[tactic(auto, using(crate::proofs::Putting::puts_sent, crate::proofs::Putting::puts_front))]
fn put_text<W: Sink>(sink: &mut W, line: &mut LineBuffer, octets: &[u8]) -> Result<(), Failed>
    ensures { Puts W.shown result sink.old sink.new line.old line.new octets.now }
{
    put_short(sink, line, octets)?;
    if octets.ends_with(&[LF]) {
        send(sink, line)
    } else {
        Ok(())
    }
}

/// The hex digits of a stretch of octets. They are written into the buffer that is given.
fn digits_of<'a>(octets: &[u8], room: &'a mut [u8; 2 * STRETCH]) -> &'a [u8]
    requires { length octets.now ≤ 32 }
    ensures { result.now ≡ encode_lower octets.now }
{
    let digits = &mut room[..2 * octets.len()];
    let _ = hex::encode_to_slice(octets, digits);
    digits
}

/// Appends octets in hex to a line.
fn put_digits<W: Sink>(sink: &mut W, line: &mut LineBuffer, octets: &[u8]) -> Result<(), Failed>
    ensures { Puts W.shown result sink.old sink.new line.old line.new (encode_lower octets.now) }
{
    let mut room = [0; 2 * STRETCH];
    let mut rest = octets;
    while rest.len() > 0 {
        let count = rest.len().min(STRETCH);
        put_octets(sink, line, digits_of(&rest[..count], &mut room))?;
        rest = &rest[count..];
    }
    Ok(())
}

/// Appends octets to a line, and others in hex, `-` if there are none.
#[tactic(auto, using(crate::proofs::Putting::puts_both, crate::proofs::Putting::puts_front))]
fn put_hex<W: Sink>(
    sink: &mut W,
    line: &mut LineBuffer,
    front: &[u8],
    octets: &[u8],
) -> Result<(), Failed>
    ensures { Puts W.shown result sink.old sink.new line.old line.new
        (front.now ++ hex_text octets.now) }
{
    put_short(sink, line, front)?;
    put_hex_text(sink, line, octets)
}

/// Appends octets in hex to a line, `-` if there are none.
fn put_hex_text<W: Sink>(sink: &mut W, line: &mut LineBuffer, octets: &[u8]) -> Result<(), Failed>
    ensures { Puts W.shown result sink.old sink.new line.old line.new (hex_text octets.now) }
{
    if octets.is_empty() {
        put_octets(sink, line, b"-")
    } else {
        put_digits(sink, line, octets)
    }
}

/// Appends a decimal number to a line.
pub fn put_number<W: Sink>(sink: &mut W, line: &mut LineBuffer, number: u64) -> Result<(), Failed>
    ensures { Puts W.shown result sink.old sink.new line.old line.new (decimal number) }
{
    let mut buffer = Buffer::new();
    put_short(sink, line, buffer.format(number).as_bytes())
}

/// Appends octets to a line, and a decimal number.
#[tactic(auto, using(crate::proofs::Putting::puts_both, crate::proofs::Putting::puts_front))]
fn put_numbered<W: Sink>(
    sink: &mut W,
    line: &mut LineBuffer,
    front: &[u8],
    number: u64,
) -> Result<(), Failed>
    ensures { Puts W.shown result sink.old sink.new line.old line.new
        (front.now ++ decimal number) }
{
    put_short(sink, line, front)?;
    put_number(sink, line, number)
}

/// Appends a decimal number to a line, and octets, and writes it if they end it.
#[tactic(auto, using(crate::proofs::Putting::puts_both, crate::proofs::Putting::puts_front))]
fn put_leading<W: Sink>(
    sink: &mut W,
    line: &mut LineBuffer,
    number: u64,
    octets: &[u8],
) -> Result<(), Failed>
    ensures { Puts W.shown result sink.old sink.new line.old line.new
        (decimal number ++ octets.now) }
{
    put_number(sink, line, number)?;
    put_text(sink, line, octets)
}

/// Appends octets to a line, and a decimal number that ends it.
#[tactic(auto, using(crate::proofs::Putting::puts_both, crate::proofs::Putting::puts_front))]
fn put_last<W: Sink>(
    sink: &mut W,
    line: &mut LineBuffer,
    front: &[u8],
    number: u64,
) -> Result<(), Failed>
    ensures { Puts W.shown result sink.old sink.new line.old line.new
        ((front.now ++ decimal number) ++ codes "\n") }
{
    put_numbered(sink, line, front, number)?;
    put_text(sink, line, b"\n")
}

/// Appends a piece to a line, and writes it if the piece ends it.
fn put_piece<W: Sink>(sink: &mut W, line: &mut LineBuffer, piece: Piece) -> Result<(), Failed>
    ensures { Puts W.shown result sink.old sink.new line.old line.new (text_of piece.entry) }
{
    match piece {
        Piece::Text(octets) => put_text(sink, line, octets),
        Piece::Hex(front, octets) => put_hex(sink, line, front, octets),
        Piece::Number(front, number) => put_numbered(sink, line, front, number),
        Piece::Leading(number, octets) => put_leading(sink, line, number, octets),
        Piece::Line(front, number) => put_last(sink, line, front, number),
    }
}

/// Appends pieces to a line one after the other: the text that they make joined.
pub fn put_pieces<W: Sink>(
    sink: &mut W,
    line: &mut LineBuffer,
    pieces: &[Piece],
) -> Result<(), Failed>
    ensures { (text : List ℕ) → text ≡ text_of_pieces pieces.now
        → Puts W.shown result sink.old sink.new line.old line.new text }
{
    for piece in pieces {
        put_piece(sink, line, *piece)?;
    }
    Ok(())
}

/// Writes pieces one after the other: the text that they make joined. `Failed`: a write failed, and a
/// prefix of that text was appended.
pub fn write_pieces<W: Sink>(sink: &mut W, pieces: &[Piece]) -> Result<(), Failed>
    ensures { (text : List ℕ) → text ≡ text_of_pieces pieces.now
        → Appends W.shown result sink.old sink.new text }
{
    let mut line = LineBuffer::new();
    put_pieces(sink, &mut line, pieces)?;
    send(sink, &mut line)
}

/// Writes nothing.
#[tactic(auto, using(crate::proofs::Fronts::appends_none))]
pub fn write_nothing<W: Sink>(sink: &mut W) -> Result<(), Failed>
    ensures { Appends W.shown result sink.old sink.new [] }
{
    Ok(())
}
