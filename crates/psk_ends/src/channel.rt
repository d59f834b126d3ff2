//! PCHANNEL, the protected channel (RFC 4764 section 3.3), with the one octet that it hides.

ghost use Rattle.std.specs.Prelude.{◌≡◌, ◌≤◌, ◌<◌, ◌-◌, [], ◌∷◌, ◌++◌, length, take, slice_index};
ghost use Rattle.std.specs.Prelude.{Some, None, if◌then◌else◌};
ghost use Rattle.eap_method.specs.PskTags.{channel_nonce, header_of, sealed_result, is_sealed};
ghost use Rattle.eap_method.specs.PskTags.{hidden_octet, result_fault, tek_record};
ghost use Rattle.psk_ends.specs.Checks.{value_unless};

use crate::octets::header_of;
use crate::records::add_channel;
use cmac_mac::CmacKey;
use eap_method::{Records, TagList};
use eap_packet::Cause;
use eax_mode::{eax_seal_with, eax_unseal_with};
use octet_lists::{Packet, Secret};
use psk_messages::Channel;

/// R of a side for which the login succeeds.
pub const DONE_SUCCESS: u8 = 2;

/// R of a side for which the login fails.
pub const DONE_FAILURE: u8 = 3;

/// The octets of PCHANNEL behind its Nonce: the tag, and the one that is sealed.
const HIDDEN: usize = 17;

/// The nonce for EAX: the Nonce field behind twelve octets of 0.
#[tactic(auto, unfolding(eap_method::specs::PskTags::channel_nonce))]
pub fn channel_nonce(number: u32) -> [u8; 16]
    ensures { result ≡ channel_nonce number }
{
    let [a, b, c, d] = number.to_be_bytes();
    [0, 0, 0, 0, 0, 0, 0, 0, 0, 0, 0, 0, a, b, c, d]
}

/// PCHANNEL with R, without E, sealed under this Nonce and header.
#[tactic(auto, unfolding(eap_method::specs::PskTags::sealed_result))]
fn seal(tek: &CmacKey, number: u32, header: &[u8], r: u8) -> Channel
    requires { r < 4 }
    ensures nonce { result.nonce ≡ number }
    ensures tag { result.tag ≡ (sealed_result tek.now number header.now r).tag }
    ensures sealed { result.sealed
        ≡ slice_index (sealed_result tek.now number header.now r).ciphertext 0 }
{
    let mut text = [64 * r];
    let tag = eax_seal_with(tek, &channel_nonce(number), header, &mut text);
    Channel {
        nonce: number,
        tag,
        sealed: text[0],
    }
}

/// Puts PCHANNEL's tag and its sealed octet in the place of the packet's last 17 octets.
fn put_last(packet: &mut Packet, channel: &Channel)
    requires { 17 ≤ length packet.old }
    ensures { packet.new ≡ take (length packet.old - 17) packet.old
        ++ (channel.now.tag ++ channel.now.sealed ∷ []) }
{
    packet.truncate(packet.len() - HIDDEN);
    packet.append(&channel.tag);
    packet.push(channel.sealed);
}

/// Seals R, without E, into the packet, whose PCHANNEL is at its end and is still blank, and adds
/// the record of its tag.
pub fn seal_in<R: Records>(
    packet: &mut Packet,
    tek: &CmacKey,
    psk: &Secret,
    number: u32,
    r: u8,
    made: &mut TagList<R>,
)
    requires blank { 17 ≤ length packet.old }
    requires two_bits { r < 4 }
    requires capacity { length made.old < 2 }
    ensures packet { packet.new ≡ take (length packet.old - 17) packet.old
        ++ ((sealed_result tek.now number (header_of packet.old) r).tag
        ++ slice_index (sealed_result tek.now number (header_of packet.old) r).ciphertext 0 ∷ []) }
    ensures records { made.new ≡ made.old ++ tek_record psk.now number (header_of packet.old)
        (slice_index (sealed_result tek.now number (header_of packet.old) r).ciphertext 0)
        (sealed_result tek.now number (header_of packet.old) r).tag ∷ [] }
    ensures size { length (sealed_result tek.now number (header_of packet.old) r).tag ≡ 16 }
{
    let header = header_of(packet.as_slice());
    let channel = seal(tek, number, header, r);
    add_channel(made, psk, header, &channel);
    put_last(packet, &channel);
}

/// The octet that was sealed in PCHANNEL under this header, or None if the tag is wrong.
pub fn open(tek: &CmacKey, header: &[u8], channel: &Channel) -> Option<u8>
    ensures { result
        ≡ (if is_sealed tek.now channel.now.nonce header.now channel.now.sealed channel.now.tag
        then Some (hidden_octet tek.now channel.now.nonce channel.now.sealed) else None) }
{
    let mut text = [channel.sealed];
    let nonce = channel_nonce(channel.nonce);
    if eax_unseal_with(tek, &nonce, header, &mut text, &channel.tag) {
        Some(text[0])
    } else {
        None
    }
}

/// The octet, if it has a result and no extension. `BadResult`: R is 0. `Extended`: E is set, or R
/// is 1.
pub fn check_result(octet: u8) -> Result<u8, Cause>
    ensures { result ≡ value_unless (result_fault octet) octet }
{
    let r = octet / 64;
    if r == 0 {
        Err(Cause::BadResult)
    } else if octet / 32 % 2 == 1 || r == 1 {
        Err(Cause::Extended)
    } else {
        Ok(octet)
    }
}
