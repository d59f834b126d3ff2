//! Expanded Types (RFC 3748 section 5.7): Type 254, in which a vendor's Types and those of the IETF
//! are encoded.

ghost use Rattle.std.specs.Prelude.{◌≡◌, ◌≤◌, ◌∷◌, ◌++◌, ◌↔◌, length, IsTrue, IsSome, IfSome};
ghost use Rattle.octet_lists.specs.Sizes.{max_packet};
ghost use Rattle.octet_lists.specs.Among.{expanded_kind, ietf};
ghost use Rattle.eap_packet.specs.Packet.{spelled, value_of, two_octets, max_type_data};
ghost use Rattle.eap_packet.specs.Fault.{length_of};
ghost use Rattle.eap_packet.specs.Expanded.{max_wrapped, expanded_value, expanded_of, is_ietf};
ghost use Rattle.eap_packet.specs.Expanded.{has_plain, is_wrapped, has_plain_form, plain};
ghost use Rattle.eap_packet.specs.Expanded.{expanded_form, are_expanded, are_entries, is_bad_body};
ghost use Rattle.eap_packet.specs.Expanded.{is_bad_expanded};

use crate::packet::{Code, PacketView, init_into, length_field};
use byteorder::{BigEndian, ByteOrder};
use octet_lists::{EXPANDED, IETF, NAK, NAK_ENTRY_SIZE, Packet, VENDOR_SIZE};

/// The fields of an Expanded Type.
#[derive(Clone, Copy, Debug)]
pub struct Expanded<'a> {
    /// The Vendor-Id, of 24 bits; 0 is the IETF's.
    pub vendor: u32,
    pub vendor_type: u32,
    /// The Vendor data.
    pub rest: &'a [u8],
}

/// The fields of a packet of Type 254; None exactly if its Type-Data has under 7 octets (RFC 3748
/// section 5.7).
pub fn read_expanded<'a>(view: &PacketView<'a>) -> Option<Expanded<'a>>
    requires { view.now.kind ≡ expanded_kind }
    ensures { expanded_value result ≡ expanded_of view.now.body.now }
{
    if view.body.len() < VENDOR_SIZE {
        return None;
    }
    Some(Expanded {
        vendor: BigEndian::read_u24(view.body),
        vendor_type: BigEndian::read_u32(&view.body[3..]),
        rest: &view.body[VENDOR_SIZE..],
    })
}

/// Whether Type-Data has Vendor-Id 0 and a Vendor-Type under 256.
fn is_ietf(body: &[u8]) -> bool
    ensures { result ≡ is_ietf body.now }
{
    body.len() >= VENDOR_SIZE && body[..6] == IETF[..]
}

/// Whether a Type has a plain form.
fn has_plain(kind: u8) -> bool
    ensures { result ≡ has_plain kind }
{
    kind != 0 && kind != NAK && kind != EXPANDED
}

/// Whether a Type and its Type-Data are those of a Type of the IETF that has a plain form.
fn is_wrapped(kind: u8, body: &[u8]) -> bool
    ensures { result ≡ is_wrapped kind body.now }
{
    kind == EXPANDED && is_ietf(body) && has_plain(body[6])
}

/// Whether these octets are entries of eight octets that each begin with 254.
#[tactic(auto, using(crate::proofs::Entries::entry_is, crate::proofs::Entries::entry_is_not, crate::proofs::Entries::no_part, crate::proofs::Entries::none_left))]
fn are_expanded(list: &[u8]) -> bool
    ensures { result ≡ are_expanded list.now }
{
    if list.len() % NAK_ENTRY_SIZE != 0 {
        return false;
    }
    for entry in list.chunks_exact(NAK_ENTRY_SIZE) {
        if entry[0] != EXPANDED {
            return false;
        }
    }
    true
}

/// Whether Type-Data of Type 254 is one that no party accepts: it has under 7 octets, or is an
/// Expanded Nak that is asked, or one whose list isn't one or more entries of eight octets that each
/// begin with 254 (RFC 3748 section 5.3.2).
fn is_bad_body(is_asked: bool, body: &[u8]) -> bool
    ensures { result ≡ is_bad_body is_asked body.now }
{
    body.len() < VENDOR_SIZE
        || (is_ietf(body) && body[6] == NAK && (is_asked || !has_entries(&body[VENDOR_SIZE..])))
}

/// Whether these octets are one entry or more of an Expanded Nak (RFC 3748 section 5.3.2).
fn has_entries(list: &[u8]) -> bool
    ensures { result ≡ are_entries list.now }
{
    !list.is_empty() && are_expanded(list)
}

/// Whether a packet of Type 254 is one that no party accepts: its Type-Data has under 7 octets; or it
/// is an Expanded Nak, and is a Request, or its list isn't one or more entries of eight octets that
/// each begin with 254 (RFC 3748 sections 5.3.2 and 5.7). Of every other Type it is false.
pub fn is_bad_expanded(view: &PacketView) -> bool
    ensures { result ≡ is_bad_expanded (value_of view.now) }
{
    match view.code {
        Code::Request => view.kind == EXPANDED && is_bad_body(true, view.body),
        Code::Response => view.kind == EXPANDED && is_bad_body(false, view.body),
        Code::Success => false,
        Code::Failure => false,
    }
}

/// Whether a packet isn't its own plain form.
fn has_plain_form(view: &PacketView) -> bool
    ensures { result ≡ has_plain_form (value_of view.now) }
{
    match view.code {
        Code::Request => is_wrapped(view.kind, view.body),
        Code::Response => is_wrapped(view.kind, view.body),
        Code::Success => false,
        Code::Failure => false,
    }
}

/// Writes the plain form of a packet, in place of what `packet` had, and answers true: of Type 254
/// with Vendor-Id 0 and a Vendor-Type of 1 to 255 other than 3 and 254, the packet of that Type (RFC
/// 3748 section 5.7). Of any other packet the plain form is itself; the answer is then false, and
/// what `packet` then has is unspecified.
pub fn write_plain(view: &PacketView, packet: &mut Packet) -> bool
    requires { length view.now.body.now ≤ max_type_data }
    ensures differs { result ≡ has_plain_form (value_of view.now) }
    ensures plain { IsTrue result → packet.new ≡ spelled (plain (value_of view.now)) }
{
    if !has_plain_form(view) {
        return false;
    }
    init_into(
        packet,
        view.code,
        view.id,
        view.body[6],
        view.body.len() - VENDOR_SIZE,
    );
    packet.put(&view.body[VENDOR_SIZE..]);
    true
}

/// The plain form of a packet of Type 254, as [`write_plain`] says; None exactly if the packet is its own plain form.
pub fn plain(view: &PacketView) -> Option<Packet>
    requires { length view.now.body.now ≤ max_type_data }
    ensures differs { IsSome result ↔ IsTrue (has_plain_form (value_of view.now)) }
    ensures plain { IfSome result (λ packet. packet ≡ spelled (plain (value_of view.now))) }
{
    let mut packet = Packet::new();
    if write_plain(view, &mut packet) {
        Some(packet)
    } else {
        None
    }
}

/// Wraps a Request or a Response in place: its Type becomes the Vendor-Type of Vendor-Id 0, its
/// Type-Data the Vendor data (RFC 3748 section 5.7). Padding is left out. Its Length is at most
/// 1,493.
pub fn wrap_in_place(packet: &mut Packet)
    requires typed { 5 ≤ length_of packet.old }
    requires whole { length_of packet.old ≤ length packet.old }
    requires bounded { length_of packet.old ≤ max_wrapped }
    ensures { packet.new ≡ expanded_form packet.old }
{
    let plain = packet.copy();
    let octets = plain.as_slice();
    let length = length_field(octets);
    packet.set(&front(octets[0], octets[1], length + VENDOR_SIZE));
    packet.put(&octets[4..length]);
}

/// A Request or a Response, wrapped, as [`wrap_in_place`] says.
pub fn wrap(packet: &Packet) -> Packet
    requires typed { 5 ≤ length_of packet.now }
    requires whole { length_of packet.now ≤ length packet.now }
    requires bounded { length_of packet.now ≤ max_wrapped }
    ensures { result ≡ expanded_form packet.now }
{
    let mut wrapped = packet.copy();
    wrap_in_place(&mut wrapped);
    wrapped
}

/// The fields before the Type of a packet that is wrapped: Code, Identifier, Length, Type 254 and the
/// vendor.
fn front(code: u8, id: u8, length: usize) -> [u8; 11]
    requires { length ≤ max_packet }
    ensures { result ≡ code ∷ id ∷ two_octets length ++ expanded_kind ∷ ietf }
{
    let mut front = [code, id, 0, 0, EXPANDED, 0, 0, 0, 0, 0, 0];
    BigEndian::write_u16(&mut front[2..], length as u16);
    front
}
