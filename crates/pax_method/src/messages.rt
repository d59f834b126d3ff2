//! The messages of a login by PAX_STD (RFC 4746 section 2.1).

ghost use Rattle.std.specs.Prelude.{◌≡◌, ◌≤◌, length};
ghost use Rattle.eap_method.specs.Capacity.{HasCapacity};
ghost use Rattle.pax_method.specs.Messages as messages;

use crate::keys::{ck, ick, mac};
use crate::login::Login;
use crate::packets::{ack, packet_with, std_1, std_2, std_3};
use eap_packet::Code;
use octet_lists::{Octets, Packet, Secret};

/// What the MAC of PAX_STD-2 covers: A, B and CID.
pub fn joined(login: &Login) -> Octets<317>
    ensures { result ≡ messages.joined login.now }
{
    let mut octets = Octets::of(&login.a);
    octets.put(&login.b);
    octets.put(login.cid.as_slice());
    octets
}

/// What the MAC of PAX_STD-3 covers: B and CID.
pub fn peer_joined(login: &Login) -> Octets<285>
    ensures { result ≡ messages.peer_joined login.now }
{
    let mut octets = Octets::of(&login.b);
    octets.put(login.cid.as_slice());
    octets
}

/// MAC_CK (A, B, CID).
#[tactic(auto, unfolding(crate::specs::Messages::mac_2))]
pub fn mac_2(ak: &Secret, login: &Login) -> [u8; 16]
    ensures { result ≡ messages.mac_2 ak.now login.now }
{
    mac(&ck(ak, login), joined(login).as_slice())
}

/// MAC_CK (B, CID).
#[tactic(auto, unfolding(crate::specs::Messages::mac_3))]
pub fn mac_3(ak: &Secret, login: &Login) -> [u8; 16]
    ensures { result ≡ messages.mac_3 ak.now login.now }
{
    mac(&ck(ak, login), peer_joined(login).as_slice())
}

/// PAX_STD-1.
#[tactic(auto, unfolding(crate::specs::Messages::std_1_of))]
pub fn std_1_of(a: &[u8; 32], id: u8) -> Packet
    ensures packet { result ≡ messages.std_1_of a.now id }
    ensures capacity { HasCapacity result }
{
    packet_with(Code::Request, &[], id, &std_1(a))
}

/// PAX_STD-2.
#[tactic(auto, unfolding(crate::specs::Messages::std_2_of))]
pub fn std_2_of(ak: &Secret, login: &Login, id: u8) -> Packet
    ensures packet { result ≡ messages.std_2_of ak.now login.now id }
    ensures capacity { HasCapacity result }
{
    let message = std_2(&login.b, login.cid.as_slice(), &mac_2(ak, login));
    packet_with(Code::Response, &ick(ak, login), id, &message)
}

/// PAX_STD-3.
#[tactic(auto, unfolding(crate::specs::Messages::std_3_of))]
pub fn std_3_of(ak: &Secret, login: &Login, id: u8) -> Packet
    ensures packet { result ≡ messages.std_3_of ak.now login.now id }
    ensures capacity { HasCapacity result }
{
    let message = std_3(&mac_3(ak, login));
    packet_with(Code::Request, &ick(ak, login), id, &message)
}

/// PAX-ACK.
#[tactic(auto, unfolding(crate::specs::Messages::ack_of))]
pub fn ack_of(ak: &Secret, login: &Login, id: u8) -> Packet
    ensures packet { result ≡ messages.ack_of ak.now login.now id }
    ensures capacity { HasCapacity result }
{
    packet_with(Code::Response, &ick(ak, login), id, &ack())
}
