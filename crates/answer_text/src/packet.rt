//! Writing what a packet is, in one line.

ghost use Rattle.std.specs.Prelude.{◌≡◌, ◌≤◌, ◌-◌, length, [], ◌∷◌, ◌++◌, codes};
ghost use Rattle.std.specs.List.{concat};
ghost use Rattle.octet_lists.specs.Sizes.{max_packet};
ghost use Rattle.octet_lists.specs.Among.{expanded_kind};
ghost use Rattle.answer_text.specs.Writes.{Appends, Puts};
ghost use Rattle.answer_text.specs.Pieces.{hex_text};
ghost use Rattle.eap_packet.specs.Packet.{value_of};
ghost use Rattle.eap_packet.specs.Expanded.{expanded_of};
ghost use Rattle.answer_text.specs.Packets.{numbers_text, expanded_note, note_text, typed_text};
ghost use Rattle.answer_text.specs.Packets.{end_line_text};
ghost use Rattle.answer_text.specs.Packets.{malformed_text, value_text, packet_text, packets_text};
ghost use Rattle.answer_text.specs.PacketParts.{nak_word, number_text, head_text, line_end};

use crate::answers::put_message;
use crate::line_buffer::LineBuffer;
use crate::pieces::Piece::{Hex, Leading, Line, Number, Text};
use crate::pieces::{put_pieces, send, write_pieces};
use eap_packet::{Cause, Code, PacketView, decode, read_expanded};
use octet_io::{Failed, Sink};
use octet_lists::{EXPANDED, IDENTITY, NAK};

/// Puts the identity of an Identity Request or Response.
fn put_identity<W: Sink>(sink: &mut W, line: &mut LineBuffer, name: &[u8]) -> Result<(), Failed>
    ensures { Puts W.shown result sink.old sink.new line.old line.new
        (concat (codes "identity " ∷ hex_text name.now ∷ [])) }
{
    put_pieces(sink, line, &[Hex(b"identity ", name)])
}

/// Puts an octet as a decimal number, after a space.
#[tactic(auto, unfolding(crate::specs::PacketParts::number_text))]
fn put_octet<W: Sink>(sink: &mut W, line: &mut LineBuffer, octet: u8) -> Result<(), Failed>
    ensures { Puts W.shown result sink.old sink.new line.old line.new (number_text octet) }
{
    put_pieces(sink, line, &[Number(b" ", u64::from(octet))])
}

/// Puts octets as decimal numbers, each after a space.
fn put_numbers<W: Sink>(sink: &mut W, line: &mut LineBuffer, octets: &[u8]) -> Result<(), Failed>
    ensures { Puts W.shown result sink.old sink.new line.old line.new (numbers_text octets.now) }
{
    for octet in octets {
        put_octet(sink, line, *octet)?;
    }
    Ok(())
}

/// Puts the methods that a Nak desires.
#[tactic(auto, using(crate::proofs::Putting::puts_both, crate::proofs::Putting::puts_front))]
fn put_nak<W: Sink>(sink: &mut W, line: &mut LineBuffer, desired: &[u8]) -> Result<(), Failed>
    ensures { Puts W.shown result sink.old sink.new line.old line.new
        (nak_word ++ numbers_text desired.now) }
{
    put_nak_word(sink, line)?;
    put_numbers(sink, line, desired)
}

#[tactic(auto, unfolding(crate::specs::PacketParts::nak_word))]
fn put_nak_word<W: Sink>(sink: &mut W, line: &mut LineBuffer) -> Result<(), Failed>
    ensures { Puts W.shown result sink.old sink.new line.old line.new nak_word }
{
    put_pieces(sink, line, &[Text(b"nak")])
}

/// Puts the fields of an Expanded Type, or that it is too short for them.
fn put_expanded<W: Sink>(
    sink: &mut W,
    line: &mut LineBuffer,
    view: &PacketView,
) -> Result<(), Failed>
    requires { view.now.kind ≡ expanded_kind }
    ensures { Puts W.shown result sink.old sink.new line.old line.new
        (expanded_note (expanded_of view.now.body.now)) }
{
    match read_expanded(view) {
        None => put_pieces(sink, line, &[Text(Cause::BadExpanded.word().as_bytes())]),
        Some(fields) => put_pieces(
            sink,
            line,
            &[
                Number(b"expanded ", u64::from(fields.vendor)),
                Number(b" ", u64::from(fields.vendor_type)),
                Hex(b" ", fields.rest),
            ],
        ),
    }
}

/// Puts what the Type-Data of a Type says.
#[tactic(auto, unfolding(crate::specs::Packets::note_text, crate::specs::PacketParts::nak_word))]
fn put_note<W: Sink>(sink: &mut W, line: &mut LineBuffer, view: &PacketView) -> Result<(), Failed>
    requires { length view.now.body.now ≤ max_packet }
    ensures { Puts W.shown result sink.old sink.new line.old line.new
        (note_text view.now.kind view.now.body.now) }
{
    match view.kind {
        IDENTITY => put_identity(sink, line, view.body),
        NAK => put_nak(sink, line, view.body),
        EXPANDED => put_expanded(sink, line, view),
        _ => put_message(sink, line, view.kind, view.body),
    }
}

/// Puts the line of a packet up to what its Type-Data says.
#[tactic(auto, unfolding(crate::specs::PacketParts::head_text))]
fn put_head<W: Sink>(
    sink: &mut W,
    line: &mut LineBuffer,
    number: u32,
    code: &str,
    view: &PacketView,
    octets: usize,
) -> Result<(), Failed>
    requires { length view.now.whole.now ≤ octets }
    ensures { Puts W.shown result sink.old sink.new line.old line.new
        (head_text number code.now view.now.id view.now.kind (length view.now.whole.now) octets) }
{
    put_pieces(
        sink,
        line,
        &[
            Leading(u64::from(number), b" "),
            Text(code.as_bytes()),
            Number(b" ", u64::from(view.id)),
            Number(b" type ", u64::from(view.kind)),
            Number(b" length ", view.whole.len() as u64),
            Number(b" padding ", (octets - view.whole.len()) as u64),
            Text(b" "),
        ],
    )
}

#[tactic(auto, unfolding(crate::specs::PacketParts::line_end))]
fn put_line_end<W: Sink>(sink: &mut W, line: &mut LineBuffer) -> Result<(), Failed>
    ensures { Puts W.shown result sink.old sink.new line.old line.new line_end }
{
    put_pieces(sink, line, &[Text(b"\n")])
}

/// Puts the line of a Request or a Response, part by part.
#[tactic(auto, using(crate::proofs::Putting::puts_both, crate::proofs::Putting::puts_front))]
fn put_parts<W: Sink>(
    sink: &mut W,
    line: &mut LineBuffer,
    number: u32,
    code: &str,
    view: &PacketView,
    octets: usize,
) -> Result<(), Failed>
    requires whole { length view.now.whole.now ≤ octets }
    requires body { length view.now.body.now ≤ max_packet }
    ensures { Puts W.shown result sink.old sink.new line.old line.new
        (head_text number code.now view.now.id view.now.kind (length view.now.whole.now) octets
        ++ (note_text view.now.kind view.now.body.now ++ line_end)) }
{
    put_head(sink, line, number, code, view, octets)?;
    put_note(sink, line, view)?;
    put_line_end(sink, line)
}

/// Puts the line of a Request or a Response.
fn put_typed<W: Sink>(
    sink: &mut W,
    line: &mut LineBuffer,
    number: u32,
    code: &str,
    view: &PacketView,
    octets: usize,
) -> Result<(), Failed>
    requires whole { length view.now.whole.now ≤ octets }
    requires body { length view.now.body.now ≤ max_packet }
    ensures { Puts W.shown result sink.old sink.new line.old line.new
        (typed_text number code.now view.now.id view.now.kind view.now.body.now
        (length view.now.whole.now) octets) }
{
    put_parts(sink, line, number, code, view, octets)
}

/// Puts the line of a Success or a Failure.
fn put_end_line<W: Sink>(
    sink: &mut W,
    line: &mut LineBuffer,
    number: u32,
    code: &str,
    view: &PacketView,
    octets: usize,
) -> Result<(), Failed>
    requires { length view.now.whole.now ≤ octets }
    ensures { Puts W.shown result sink.old sink.new line.old line.new
        (end_line_text number code.now view.now.id (length view.now.whole.now) octets) }
{
    put_pieces(
        sink,
        line,
        &[
            Leading(u64::from(number), b" "),
            Text(code.as_bytes()),
            Number(b" ", u64::from(view.id)),
            Number(b" length ", view.whole.len() as u64),
            Line(b" padding ", (octets - view.whole.len()) as u64),
        ],
    )
}

/// Puts the line of octets that begin with no packet.
fn put_malformed<W: Sink>(
    sink: &mut W,
    line: &mut LineBuffer,
    number: u32,
    cause: Cause,
) -> Result<(), Failed>
    ensures { Puts W.shown result sink.old sink.new line.old line.new
        (malformed_text number cause) }
{
    put_pieces(
        sink,
        line,
        &[
            Leading(u64::from(number), b" malformed "),
            Text(cause.word().as_bytes()),
            Text(b"\n"),
        ],
    )
}

fn put_view<W: Sink>(
    sink: &mut W,
    line: &mut LineBuffer,
    number: u32,
    view: &PacketView,
    octets: usize,
) -> Result<(), Failed>
    requires whole { length view.now.whole.now ≤ octets }
    requires body { length view.now.body.now ≤ max_packet }
    ensures { Puts W.shown result sink.old sink.new line.old line.new
        (value_text number (value_of view.now) (length view.now.whole.now) octets) }
{
    match view.code {
        Code::Request => put_typed(sink, line, number, "request", view, octets),
        Code::Response => put_typed(sink, line, number, "response", view, octets),
        Code::Success => put_end_line(sink, line, number, "success", view, octets),
        Code::Failure => put_end_line(sink, line, number, "failure", view, octets),
    }
}

#[tactic(auto, unfolding(crate::specs::Packets::packet_text))]
fn put_packet<W: Sink>(
    sink: &mut W,
    line: &mut LineBuffer,
    number: u32,
    octets: &[u8],
) -> Result<(), Failed>
    ensures { Puts W.shown result sink.old sink.new line.old line.new
        (packet_text number octets.now) }
{
    match decode(octets) {
        Ok(view) => put_view(sink, line, number, &view, octets.len()),
        Err(cause) => put_malformed(sink, line, number, cause),
    }
}

/// Writes what a packet is, in one line: its number, its fields, its padding and what its Type-Data
/// says; or why it is malformed. `Failed`: a write failed, and a prefix of the line was appended.
#[tactic(auto, using(crate::proofs::Putting::appends_sent, crate::proofs::Putting::appends_cut))]
pub fn write_packet<W: Sink>(sink: &mut W, number: u32, octets: &[u8]) -> Result<(), Failed>
    ensures { Appends W.shown result sink.old sink.new (packet_text number octets.now) }
{
    let mut line = LineBuffer::new();
    put_packet(sink, &mut line, number, octets)?;
    send(sink, &mut line)
}

/// Writes how many packets there were, and how many of them are malformed. `Failed`: a write failed,
/// and a prefix of the line was appended.
#[tactic(auto, unfolding(crate::specs::Packets::packets_text))]
pub fn write_packet_counts<W: Sink>(
    sink: &mut W,
    packets: u32,
    malformed: u32,
) -> Result<(), Failed>
    ensures { Appends W.shown result sink.old sink.new (packets_text packets malformed) }
{
    write_pieces(
        sink,
        &[
            Number(b"packets ", u64::from(packets)),
            Line(b" malformed ", u64::from(malformed)),
        ],
    )
}
