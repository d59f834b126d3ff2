//! The texts of EAP-PSK: what a message is, and the keys of a login.

ghost use Rattle.std.specs.Prelude.{◌≡◌};
ghost use Rattle.psk_messages.specs.Reading.{read_of};
ghost use Rattle.answer_text.specs.Writes.{Appends, Puts};
ghost use Rattle.answer_text.specs.Psk.{long_text, psk_note, psk_text, session_text};

use crate::keys::write_exported;
use crate::line_buffer::LineBuffer;
use crate::lines::write_hex;
use crate::pieces::Piece::Text;
use crate::pieces::put_pieces;
use login_keys::{PskKeys, PskLong, psk_long, psk_session};
use octet_io::{Failed, Sink};
use psk_messages::{PskMessage, read_psk_message};

/// The name of a message, or why it is none.
fn name_of(body: &[u8]) -> &'static str
    ensures { result.now ≡ psk_note (read_of body.now) }
{
    match read_psk_message(body) {
        Ok(PskMessage::P1(_)) => "psk-1",
        Ok(PskMessage::P2(_)) => "psk-2",
        Ok(PskMessage::P3(_)) => "psk-3",
        Ok(PskMessage::P4(_)) => "psk-4",
        Err(cause) => cause.word(),
    }
}

/// Puts the name of a message, or why it is none.
pub fn put_note<W: Sink>(sink: &mut W, line: &mut LineBuffer, body: &[u8]) -> Result<(), Failed>
    ensures { Puts W.shown result sink.old sink.new line.old line.new
        (psk_note (read_of body.now)) }
{
    put_pieces(sink, line, &[Text(name_of(body).as_bytes())])
}

/// Writes the long-lived keys (RFC 4764 section 3.1).
#[tactic(auto, using(crate::proofs::Fronts::appends_both, crate::proofs::Fronts::appends_front))]
fn write_long<W: Sink>(sink: &mut W, long: &PskLong) -> Result<(), Failed>
    ensures { Appends W.shown result sink.old sink.new (long_text long.now) }
{
    write_hex(sink, "ak", &long.ak)?;
    write_hex(sink, "kdk", &long.kdk)
}

/// Writes the keys of a login (RFC 4764 section 3.2).
#[tactic(auto, using(crate::proofs::Fronts::appends_both, crate::proofs::Fronts::appends_front))]
fn write_session<W: Sink>(sink: &mut W, keys: &PskKeys) -> Result<(), Failed>
    ensures { Appends W.shown result sink.old sink.new (session_text keys.now) }
{
    write_hex(sink, "tek", &keys.tek)?;
    write_exported(sink, &keys.msk, &keys.emsk)
}

/// Writes the keys under a shared key and a peer's random number.
#[tactic(auto, using(crate::proofs::Fronts::appends_both, crate::proofs::Fronts::appends_front))]
pub fn write_keys<W: Sink>(sink: &mut W, psk: &[u8; 16], rand_p: &[u8; 16]) -> Result<(), Failed>
    ensures { Appends W.shown result sink.old sink.new (psk_text psk.now rand_p.now) }
{
    let long = psk_long(psk);
    write_long(sink, &long)?;
    write_session(sink, &psk_session(&long.kdk, rand_p))
}
