//! The packets of PAX_STD (RFC 4746 sections 2.1 and 3).

ghost use Rattle.std.specs.Prelude.{◌≡◌, ◌≤◌, ◌++◌, length, IsTrue};
ghost use Rattle.eap_packet.specs.Packet.{has_type};
ghost use Rattle.eap_method.specs.Capacity.{HasCapacity};
ghost use Rattle.pax_method.specs.Keys as keys;
ghost use Rattle.pax_method.specs.Packets as packets;
ghost use Rattle.pax_method.specs.Packets.{covered, pax_kind};

use crate::keys::mac;
use crate::login::Fields;
use eap_packet::{Code, encode};
use octet_lists::{Octets, Packet, array_of, equal_in_full};

/// The Type of EAP-PAX.
pub const PAX_KIND: u8 = 46;

/// Type-Data up to the ICV.
pub type Message = Octets<312>;

/// PAX_STD-1.
#[tactic(auto, unfolding(crate::specs::Packets::std_1))]
pub fn std_1(a: &[u8; 32]) -> Message
    ensures { result ≡ packets.std_1 a.now }
{
    let mut octets = Octets::of(&[1, 0, 2, 0, 0, 0, 32]);
    octets.put(a);
    octets
}

/// PAX_STD-2.
#[tactic(auto, unfolding(crate::specs::Packets::std_2), using(std::proofs::Common::append_assoc))]
pub fn std_2(b: &[u8; 32], cid: &[u8], mac_ck: &[u8; 16]) -> Message
    requires { length cid.now ≤ 253 }
    ensures { result ≡ packets.std_2 b.now cid.now mac_ck.now }
{
    let mut octets = Octets::of(&[2, 0, 2, 0, 0, 0, 32]);
    octets.put(b);
    octets.put(&[0, cid.len() as u8]);
    octets.put(cid);
    octets.put(&[0, 16]);
    octets.put(mac_ck);
    octets
}

/// PAX_STD-3.
#[tactic(auto, unfolding(crate::specs::Packets::std_3))]
pub fn std_3(mac_ck: &[u8; 16]) -> Message
    ensures { result ≡ packets.std_3 mac_ck.now }
{
    let mut octets = Octets::of(&[3, 0, 2, 0, 0, 0, 16]);
    octets.put(mac_ck);
    octets
}

/// PAX-ACK.
#[tactic(auto, unfolding(crate::specs::Packets::ack))]
pub fn ack() -> Message
    ensures { result ≡ packets.ack }
{
    Octets::of(&[0x21, 0, 2, 0, 0])
}

/// The ICV of a packet under this key.
fn icv(key: &[u8], packet: &[u8]) -> [u8; 16]
    ensures { result ≡ keys.mac key.now (covered packet.now) }
{
    mac(key, &packet[..packet.len().saturating_sub(16)])
}

/// Whether a packet has the ICV under this key.
pub fn has_icv(key: &[u8], packet: &[u8]) -> bool
    ensures { result ≡ packets.has_icv key.now packet.now }
{
    equal_in_full(
        &icv(key, packet),
        &packet[packet.len().saturating_sub(16)..],
    )
}

/// Type-Data with this ICV.
fn with_icv(message: &Message, icv: &[u8; 16]) -> Octets<328>
    ensures { result ≡ message.now ++ icv.now }
{
    let mut octets = Octets::of(message.as_slice());
    octets.put(icv);
    octets
}

/// A Request or a Response of this message, with the ICV under this key.
#[tactic(auto, unfolding(crate::specs::Packets::packet_with), using(eap_method::proofs::Capacities::typed_has_capacity))]
pub fn packet_with(code: Code, key: &[u8], id: u8, message: &Message) -> Packet
    requires typed { IsTrue (has_type code) }
    ensures packet { result ≡ packets.packet_with code key.now id message.now }
    ensures capacity { HasCapacity result }
{
    let blank = with_icv(message, &[0; 16]);
    let packet = encode(code, id, PAX_KIND, blank.as_slice());
    let body = with_icv(message, &icv(key, packet.as_slice()));
    encode(code, id, PAX_KIND, body.as_slice())
}

/// A of PAX_STD-1, if the Type-Data is that.
#[tactic(auto, unfolding(crate::specs::Packets::read_1))]
pub fn read_1(body: &[u8]) -> Option<[u8; 32]>
    ensures { result ≡ packets.read_1 body.now }
{
    if body.len() != 55 {
        return None;
    }
    let a = array_of(&body[7..39]);
    if equal_in_full(&body[..39], std_1(&a).as_slice()) {
        Some(a)
    } else {
        None
    }
}

/// The fields of PAX_STD-2, if the Type-Data is that.
#[tactic(auto, unfolding(crate::specs::Packets::read_2))]
pub fn read_2(body: &[u8]) -> Option<Fields>
    ensures { result ≡ packets.read_2 body.now }
{
    let size = body.len();
    if size < 75 || size > 328 {
        return None;
    }
    let found = Fields {
        b: array_of(&body[7..39]),
        cid: Octets::of(&body[41..size - 34]),
        mac_ck: array_of(&body[size - 32..size - 16]),
    };
    let message = std_2(&found.b, found.cid.as_slice(), &found.mac_ck);
    if equal_in_full(&body[..size - 16], message.as_slice()) {
        Some(found)
    } else {
        None
    }
}

/// MAC_CK (B, CID) of PAX_STD-3, if the Type-Data is that.
#[tactic(auto, unfolding(crate::specs::Packets::read_3))]
pub fn read_3(body: &[u8]) -> Option<[u8; 16]>
    ensures { result ≡ packets.read_3 body.now }
{
    if body.len() != 39 {
        return None;
    }
    let mac_ck = array_of(&body[7..23]);
    if equal_in_full(&body[..23], std_3(&mac_ck).as_slice()) {
        Some(mac_ck)
    } else {
        None
    }
}

/// Whether the Type-Data is PAX-ACK.
#[tactic(auto, unfolding(crate::specs::Packets::is_ack))]
pub fn is_ack(body: &[u8]) -> bool
    ensures { result ≡ packets.is_ack body.now }
{
    body.len() == 21 && equal_in_full(&body[..5], ack().as_slice())
}
