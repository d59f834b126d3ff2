//! What a text is sealed to, and the keys that every method exports, each in a line with its name.

ghost use Rattle.eax_mode.specs.Eax.{eax_sealed};
ghost use Rattle.answer_text.specs.Writes.{Appends};
ghost use Rattle.answer_text.specs.Keys.{exported_text, sealed_text};

use crate::lines::write_hex;
use crate::pieces::Piece::{Hex, Text};
use crate::pieces::write_pieces;
use eax_mode::eax_seal;
use octet_io::{Failed, Sink};
use octet_lists::Injected;

/// Writes a ciphertext and its tag.
#[tactic(auto, unfolding(crate::specs::Keys::sealed_text))]
fn write_tagged<'a, W: Sink>(
    sink: &mut W,
    ciphertext: &'a [u8],
    tag: &'a [u8],
) -> Result<(), Failed>
    ensures { Appends W.shown result sink.old sink.new
        (sealed_text (record { ciphertext = ciphertext.now; tag = tag.now })) }
{
    write_pieces(
        sink,
        &[Hex(b"eax ", ciphertext), Hex(b" ", tag), Text(b"\n")],
    )
}

/// Seals a text in place, and writes the ciphertext and the tag.
fn write_sealed<W: Sink>(
    sink: &mut W,
    key: &[u8; 16],
    nonce: &[u8],
    header: &[u8],
    text: &mut [u8],
) -> Result<(), Failed>
    ensures { Appends W.shown result sink.old sink.new
        (sealed_text (eax_sealed key.now nonce.now header.now text.old)) }
{
    let tag = eax_seal(key, nonce, header, text);
    write_tagged(sink, text, &tag)
}

/// Writes what a text is sealed to by EAX.
pub fn write_eax<W: Sink>(
    sink: &mut W,
    key: &[u8; 16],
    nonce: &Injected,
    header: &Injected,
    text: &Injected,
) -> Result<(), Failed>
    ensures { Appends W.shown result sink.old sink.new
        (sealed_text (eax_sealed key.now nonce.now header.now text.now)) }
{
    let mut room = [0; 2000];
    let copy = &mut room[..text.len()];
    copy.copy_from_slice(text.as_slice());
    write_sealed(sink, key, nonce.as_slice(), header.as_slice(), copy)
}

/// Writes the keys that every method exports (RFC 3748 section 7.10).
#[tactic(auto, using(crate::proofs::Fronts::appends_both, crate::proofs::Fronts::appends_front))]
pub fn write_exported<W: Sink>(sink: &mut W, msk: &[u8; 64], emsk: &[u8; 64]) -> Result<(), Failed>
    ensures { Appends W.shown result sink.old sink.new (exported_text msk.now emsk.now) }
{
    write_hex(sink, "msk", msk)?;
    write_hex(sink, "emsk", emsk)
}
