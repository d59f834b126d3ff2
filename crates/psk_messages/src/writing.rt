//! Writing a message as a packet (RFC 4764 section 5).

ghost use Rattle.std.specs.Prelude.{◌≡◌, ◌+◌, ◌*◌, ◌≤◌, ◌++◌, length, IsTrue};
ghost use Rattle.octet_lists.specs.Sizes.{max_name, max_packet};
ghost use Rattle.eap_packet.specs.Packet.{value_with, has_type};
ghost use Rattle.eap_packet.specs.Packet as packets;
ghost use Rattle.psk_messages.specs.Message.{message_of, t_of, channel, fields_of, identity_of};
ghost use Rattle.psk_messages.specs.Message.{size_of, spelled};

use crate::view::{Channel, PskMessage};
use byteorder::{BigEndian, ByteOrder};
use eap_packet::{Code, init_into};
use octet_lists::{PSK_KIND, Packet};

/// Appends PCHANNEL, for which there is room.
fn put_channel(packet: &mut Packet, parts: &Channel)
    requires { length packet.old + 21 ≤ max_packet }
    ensures { packet.new ≡ packet.old ++ channel parts.now.nonce parts.now.tag parts.now.sealed }
{
    let mut number = [0; 4];
    BigEndian::write_u32(&mut number, parts.nonce);
    packet.put(&number);
    packet.put(&parts.tag);
    packet.put(&[parts.sealed]);
}

/// Flags, whose six low bits are 0.
fn flags_of(view: &PskMessage) -> u8
    ensures { result ≡ 64 * t_of (message_of view.now) }
{
    let t = match view {
        PskMessage::P1(_) => 0,
        PskMessage::P2(_) => 1,
        PskMessage::P3(_) => 2,
        PskMessage::P4(_) => 3,
    };
    64 * t
}

/// Appends the fields after Flags, for which there is room.
fn put_fields(packet: &mut Packet, view: &PskMessage)
    requires capacity { length packet.old ≤ 6 }
    requires identity { length (identity_of (message_of view.now)) ≤ max_name }
    ensures { packet.new ≡ packet.old ++ fields_of (message_of view.now) }
{
    match view {
        PskMessage::P1(psk1) => {
            packet.put(&psk1.rand_s);
            packet.put(psk1.id_s);
        }
        PskMessage::P2(psk2) => {
            packet.put(&psk2.rand_s);
            packet.put(&psk2.rand_p);
            packet.put(&psk2.mac);
            packet.put(psk2.id_p);
        }
        PskMessage::P3(psk3) => {
            packet.put(&psk3.rand_s);
            packet.put(&psk3.mac);
            put_channel(packet, &psk3.channel);
        }
        PskMessage::P4(psk4) => {
            packet.put(&psk4.rand_s);
            put_channel(packet, &psk4.channel);
        }
    }
}

/// The octets of a field.
fn count(field: &[u8]) -> usize
    ensures { result ≡ length field.now }
{
    field.len()
}

/// The octets of the message's Type-Data.
fn size_of(view: &PskMessage) -> usize
    requires { length (identity_of (message_of view.now)) ≤ max_name }
    ensures size { result ≡ size_of (message_of view.now) }
    ensures bounded { result ≤ 302 }
{
    match view {
        PskMessage::P1(psk1) => 1 + count(&psk1.rand_s) + psk1.id_s.len(),
        PskMessage::P2(psk2) => {
            1 + count(&psk2.rand_s) + count(&psk2.rand_p) + count(&psk2.mac) + psk2.id_p.len()
        }
        PskMessage::P3(psk3) => {
            6 + count(&psk3.rand_s) + count(&psk3.mac) + count(&psk3.channel.tag)
        }
        PskMessage::P4(psk4) => 6 + count(&psk4.rand_s) + count(&psk4.channel.tag),
    }
}

/// Writes the Request or the Response of Type 47 with this Identifier whose Type-Data is the message,
/// in place of what the packet had; the six low bits of Flags are 0.
#[tactic(auto, unfolding(crate::specs::Message::spelled), using(crate::proofs::Grammar::encodings_are_sized))]
pub fn write_psk_into(packet: &mut Packet, view: &PskMessage, code: Code, id: u8)
    requires typed { IsTrue (has_type code) }
    requires identity { length (identity_of (message_of view.now)) ≤ max_name }
    ensures { packet.new ≡ packets.spelled (value_with code id 47 (spelled (message_of view.now))) }
{
    init_into(packet, code, id, PSK_KIND, size_of(view));
    packet.put(&[flags_of(view)]);
    put_fields(packet, view);
}
