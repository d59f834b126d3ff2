//! The texts of EAP-GPSK: what a message is, and the keys of a login.

ghost use Rattle.std.specs.Prelude.{None, [], ◌∷◌, decimal};
ghost use Rattle.std.specs.List.{concat};
ghost use Rattle.gpsk_messages.specs.Reading.{read_of};
ghost use Rattle.answer_text.specs.Writes.{Appends, Puts};
ghost use Rattle.answer_text.specs.Gpsk.{gpsk_note, gpsk_text};

use crate::keys::write_exported;
use crate::line_buffer::LineBuffer;
use crate::lines::write_hex;
use crate::pieces::Piece::{Number, Text};
use crate::pieces::put_pieces;
use gpsk_messages::{GpskMessage, read_gpsk_message};
use login_keys::GpskKeys;
use octet_io::{Failed, Sink};

/// Puts a name and a number after it.
fn put_code<W: Sink>(
    sink: &mut W,
    line: &mut LineBuffer,
    name: &str,
    code: u32,
) -> Result<(), Failed>
    ensures { Puts W.shown result sink.old sink.new line.old line.new
        (concat (name.now ∷ decimal code ∷ [])) }
{
    put_pieces(sink, line, &[Number(name.as_bytes(), u64::from(code))])
}

/// Puts the name of a message, or why it is none.
pub fn put_note<W: Sink>(sink: &mut W, line: &mut LineBuffer, body: &[u8]) -> Result<(), Failed>
    ensures { Puts W.shown result sink.old sink.new line.old line.new
        (gpsk_note (read_of None body.now)) }
{
    match read_gpsk_message(body, None) {
        Ok(GpskMessage::M1(_)) => put_pieces(sink, line, &[Text(b"gpsk-1")]),
        Ok(GpskMessage::M2(_)) => put_pieces(sink, line, &[Text(b"gpsk-2")]),
        Ok(GpskMessage::M3(_)) => put_pieces(sink, line, &[Text(b"gpsk-3")]),
        Ok(GpskMessage::M4(_)) => put_pieces(sink, line, &[Text(b"gpsk-4")]),
        Ok(GpskMessage::Fail { code }) => put_code(sink, line, "gpsk-fail ", code),
        Ok(GpskMessage::ProtectedFail { code, .. }) => put_code(
            sink,
            line,
            "gpsk-protected-fail ",
            code,
        ),
        Err(cause) => put_pieces(sink, line, &[Text(cause.word().as_bytes())]),
    }
}

/// Writes the keys of a login (RFC 5433 section 4).
#[tactic(auto, using(crate::proofs::Fronts::appends_both, crate::proofs::Fronts::appends_front))]
pub fn write_keys<W: Sink>(sink: &mut W, keys: &GpskKeys) -> Result<(), Failed>
    ensures { Appends W.shown result sink.old sink.new (gpsk_text keys.now) }
{
    write_hex(sink, "mk", keys.mk.as_slice())?;
    write_exported(sink, &keys.msk, &keys.emsk)?;
    write_hex(sink, "sk", keys.sk.as_slice())?;
    write_hex(sink, "pk", keys.pk.as_slice())
}
