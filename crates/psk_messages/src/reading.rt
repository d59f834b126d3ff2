//! Reading Type-Data as a message (RFC 4764 section 5).

ghost use Rattle.std.specs.Prelude.{◌≡◌, ◌+◌, ◌≤◌, length, IfOk, IfErr, IsTrue};
ghost use Rattle.eap_packet.specs.declared.cause.Cause.TheVariants.{PskShape};
ghost use Rattle.psk_messages.specs.Message.{AreFields, IsPsk, EncodesNone, read_value, message_of};
ghost use Rattle.psk_messages.specs.Reading.{front, behind, is_size, message_at, nonce_at, tag_at};
ghost use Rattle.psk_messages.specs.Reading.{sealed_at, psk1_at, psk2_at, psk3_at, psk4_at};
ghost use Rattle.psk_messages.specs.Reading.{read_of};

use crate::view::{Channel, Psk1, Psk2, Psk3, Psk4, PskMessage};
use byteorder::{BigEndian, ByteOrder};
use eap_packet::Cause;
use octet_lists::{MAX_NAME, array_of};

/// The octets of a nonce, a MAC or a tag.
const FIELD: usize = 16;

/// The octets of PCHANNEL without its extension.
const CHANNEL: usize = 21;

/// A field of 16 octets, and the octets behind it.
fn split_field<'a>(octets: &'a [u8]) -> ([u8; 16], &'a [u8])
    requires { 16 ≤ length octets.now }
    ensures field { result.0 ≡ front octets.now }
    ensures rest { result.1.now ≡ behind octets.now }
    ensures size { length result.1.now + 16 ≡ length octets.now }
{
    let (start, rest) = octets.split_at(FIELD);
    (array_of(start), rest)
}

/// The number in the first four octets, the most significant octet first.
fn nonce_field(octets: &[u8]) -> u32
    requires { 4 ≤ length octets.now }
    ensures { result ≡ nonce_at octets.now }
{
    BigEndian::read_u32(octets)
}

/// The parts of PCHANNEL.
fn split_channel(octets: &[u8]) -> Channel
    requires { length octets.now ≡ 21 }
    ensures nonce { result.nonce ≡ nonce_at octets.now }
    ensures tag { result.tag ≡ tag_at octets.now }
    ensures sealed { result.sealed ≡ sealed_at octets.now }
{
    let (tag, _sealed) = split_field(&octets[4..]);
    Channel {
        nonce: nonce_field(octets),
        tag,
        sealed: octets[20],
    }
}

/// Whether a message with this T may have so many octets after Flags.
fn has_size(t: u8, size: usize) -> bool
    ensures { result ≡ is_size t size }
{
    match t {
        0 => FIELD <= size && size <= FIELD + MAX_NAME,
        1 => 3 * FIELD <= size && size <= 3 * FIELD + MAX_NAME,
        2 => size == 2 * FIELD + CHANNEL,
        _ => size == FIELD + CHANNEL,
    }
}

/// The first message: RAND_S, ID_S.
fn read_first<'a>(octets: &'a [u8]) -> PskMessage<'a>
    requires least { 16 ≤ length octets.now }
    requires most { length octets.now ≤ 269 }
    ensures message { message_of result ≡ psk1_at octets.now }
    ensures fields { AreFields (message_of result) }
{
    let (rand_s, id_s) = split_field(octets);
    PskMessage::P1(Psk1 { rand_s, id_s })
}

/// The second message: RAND_S, RAND_P, MAC_P, ID_P.
fn read_second<'a>(octets: &'a [u8]) -> PskMessage<'a>
    requires least { 48 ≤ length octets.now }
    requires most { length octets.now ≤ 301 }
    ensures message { message_of result ≡ psk2_at octets.now }
    ensures fields { AreFields (message_of result) }
{
    let (rand_s, rest) = split_field(octets);
    let (rand_p, rest) = split_field(rest);
    let (mac, id_p) = split_field(rest);
    PskMessage::P2(Psk2 {
        rand_s,
        rand_p,
        mac,
        id_p,
    })
}

/// The third message: RAND_S, MAC_S, PCHANNEL.
fn read_third<'a>(octets: &'a [u8]) -> PskMessage<'a>
    requires { length octets.now ≡ 53 }
    ensures message { message_of result ≡ psk3_at octets.now }
    ensures fields { AreFields (message_of result) }
{
    let (rand_s, rest) = split_field(octets);
    let (mac, rest) = split_field(rest);
    let channel = split_channel(rest);
    PskMessage::P3(Psk3 {
        rand_s,
        mac,
        channel,
    })
}

/// The fourth message: RAND_S, PCHANNEL.
fn read_fourth<'a>(octets: &'a [u8]) -> PskMessage<'a>
    requires { length octets.now ≡ 37 }
    ensures message { message_of result ≡ psk4_at octets.now }
    ensures fields { AreFields (message_of result) }
{
    let (rand_s, rest) = split_field(octets);
    let channel = split_channel(rest);
    PskMessage::P4(Psk4 { rand_s, channel })
}

/// The message with this T, whose size fits.
fn read_fields<'a>(t: u8, octets: &'a [u8]) -> PskMessage<'a>
    requires { IsTrue (is_size t (length octets.now)) }
    ensures message { message_of result ≡ message_at t octets.now }
    ensures fields { AreFields (message_of result) }
{
    match t {
        0 => read_first(octets),
        1 => read_second(octets),
        2 => read_third(octets),
        _ => read_fourth(octets),
    }
}

/// The message that the Type-Data is: T is the two high bits of Flags, and the six low bits are
/// ignored. `PskShape`: it is none, also if PCHANNEL has more than 21 octets (RFC 4764 section 5).
pub fn read_psk_message<'a>(body: &'a [u8]) -> Result<PskMessage<'a>, Cause>
    ensures message { read_value result ≡ read_of body.now }
    ensures spelled { IfOk result (λ view. IsPsk (message_of view) body.now) }
    ensures fields { IfOk result (λ view. AreFields (message_of view)) }
    ensures refused { IfErr result (λ cause. (cause ≡ PskShape) × EncodesNone body.now) }
{
    read_shape(body)
}

/// The message that the Type-Data is, or `PskShape`.
#[tactic(auto, unfolding(crate::specs::Reading::read_of))]
fn read_shape<'a>(body: &'a [u8]) -> Result<PskMessage<'a>, Cause>
    ensures message { read_value result ≡ read_of body.now }
    ensures fields { IfOk result (λ view. AreFields (message_of view)) }
{
    match body {
        [flags, octets @ ..] if has_size(flags / 64, octets.len()) => {
            Ok(read_fields(flags / 64, octets))
        }
        _ => Err(Cause::PskShape),
    }
}
