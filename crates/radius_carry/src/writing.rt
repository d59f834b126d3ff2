//! Writing RADIUS packets that carry EAP (RFC 2865 sections 3 and 5, RFC 3579 section 3).

ghost use Rattle.std.specs.Prelude.{◌≡◌, ◌≢◌, ◌≤◌, ◌+◌, ◌++◌, [], List, length};
ghost use Rattle.octet_lists.specs.Sizes.{max_packet};
ghost use Rattle.md5.specs.Md5.{md5};
ghost use Rattle.radius_carry.specs.Packet.{Attribute, attribute_octets, head_of, number_of};
ghost use Rattle.radius_carry.specs.Packet.{octets_of, spelled, max_value};
ghost use Rattle.radius_carry.specs.Written.{blank_of, attributes_before_tag, field, pieces};
ghost use Rattle.radius_carry.specs.Written.{packet_with_tag, sealed_packet, request_of, reply_of};
ghost use Rattle.radius_carry.specs.Tags.{hmac_md5};

use crate::attributes::{EAP_MESSAGE, MESSAGE_AUTHENTICATOR};
use crate::mac::Mac;
use crate::view::RadiusKind;
use byteorder::{BigEndian, ByteOrder};
use md5::{Digest, Md5};
use octet_lists::{Injected, Octets};

/// The Type of an attribute User-Name.
const USER_NAME: u8 = 1;

/// The Type of an attribute State.
const STATE: u8 = 24;

/// The most octets of the value of an attribute (RFC 2865 section 5).
const MAX_VALUE: usize = 253;

/// Appends an attribute, for which there is room.
fn put_attribute(packet: &mut Injected, kind: u8, value: &[u8])
    requires value { length value.now ≤ max_value }
    requires capacity { length packet.old + length value.now + 2 ≤ 2000 }
    ensures { packet.new ≡ packet.old ++ attribute_octets (kind, value.now) }
{
    packet.put(&[kind, value.len() as u8 + 2]);
    packet.put(value);
}

/// Appends a name or a state: no attribute if it is empty.
#[tactic(auto, unfolding(crate::specs::Packet::octets_of))]
fn put_field(packet: &mut Injected, kind: u8, value: &[u8])
    requires value { length value.now ≤ max_value }
    requires capacity { length packet.old + length value.now + 2 ≤ 2000 }
    ensures octets { packet.new ≡ packet.old ++ octets_of (field kind value.now) }
    ensures size { length packet.new ≤ length packet.old + length value.now + 2 }
{
    if !value.is_empty() {
        put_attribute(packet, kind, value);
    }
}

/// Appends an EAP packet in attributes EAP-Message.
#[tactic(auto, using(crate::proofs::Pieced::octets_of_none))]
fn put_eap(packet: &mut Injected, eap: &[u8])
    requires eap { length eap.now ≤ max_packet }
    requires capacity { length packet.old ≤ 400 }
    ensures octets { packet.new ≡ packet.old ++ octets_of (pieces eap.now) }
    ensures size { length packet.new ≤ length packet.old + 1513 }
{
    let mut rest = eap;
    while !rest.is_empty() {
        let (piece, later) = rest.split_at(MAX_VALUE.min(rest.len()));
        put_attribute(packet, EAP_MESSAGE, piece);
        rest = later;
    }
}

/// The attributes before the tag.
#[tactic(auto, using(crate::proofs::Pieced::carried_encoded))]
fn carried_octets(user: &[u8], state: &[u8], eap: &[u8]) -> Injected
    requires user { length user.now ≤ max_value }
    requires state { length state.now ≤ 64 }
    requires eap { length eap.now ≤ max_packet }
    ensures octets { result ≡ octets_of (attributes_before_tag user.now state.now eap.now) }
    ensures size { length result ≤ 1834 }
{
    let mut octets = Octets::new();
    put_field(&mut octets, USER_NAME, user);
    put_field(&mut octets, STATE, state);
    put_eap(&mut octets, eap);
    octets
}

/// Code, Identifier and Length before so many octets of attributes.
fn head(code: u8, id: u8, size: usize) -> [u8; 4]
    requires { size ≤ 2000 }
    ensures { result ≡ head_of code id size }
{
    let mut head = [code, id, 0, 0];
    BigEndian::write_u16(&mut head[2..], (20 + size) as u16);
    head
}

/// The packet with these attributes and this tag behind them.
#[tactic(auto, using(crate::proofs::Pieced::tagged_encoded))]
fn framed(code: u8, id: u8, authenticator: &[u8; 16], attributes: &[u8], tag: &[u8; 16]) -> Injected
    requires { length attributes.now ≤ 1834 }
    ensures { (list : List Attribute) → attributes.now ≡ octets_of list
        → result ≡ spelled (packet_with_tag code id authenticator.now list tag.now) }
{
    let mut packet = Octets::new();
    packet.put(&head(code, id, attributes.len() + 18));
    packet.put(authenticator);
    packet.put(attributes);
    put_attribute(&mut packet, MESSAGE_AUTHENTICATOR, tag);
    packet
}

/// The Code of a packet.
fn code_of(kind: RadiusKind) -> u8
    ensures { result ≡ number_of kind }
{
    kind as u8
}

/// The Response Authenticator over a reply that has the Request Authenticator.
fn response_over(asked: &[u8], secret: &[u8]) -> [u8; 16]
    ensures { result ≡ md5 (asked.now ++ secret.now) }
{
    let mut hash = Md5::new_with_prefix(asked);
    hash.update(secret);
    hash.finalize()
}

/// The tag of the packet with these attributes.
fn tag_over(
    secret: &[u8],
    code: u8,
    id: u8,
    authenticator: &[u8; 16],
    attributes: &[u8],
) -> [u8; 16]
    requires secret { length secret.now ≤ 64 }
    requires bounded { length attributes.now ≤ 1834 }
    ensures { (list : List Attribute) → attributes.now ≡ octets_of list
        → result ≡ hmac_md5 secret.now (spelled (blank_of code id authenticator.now list)) }
{
    let blank = framed(code, id, authenticator, attributes, &[0; 16]);
    let mut mac = Mac::new(secret);
    mac.update(blank.as_slice());
    mac.finish()
}

/// An Access-Request that carries an EAP packet, with its Message-Authenticator under the secret (RFC
/// 3579 section 3.2). The EAP packet is carried in attributes of 253 octets, the last with what is left;
/// an empty name or state has no attribute.
#[tactic(auto, unfolding(crate::specs::Written::sealed_packet))]
pub fn write_request(
    secret: &[u8],
    id: u8,
    authenticator: &[u8; 16],
    user: &[u8],
    state: &[u8],
    eap: &[u8],
) -> Injected
    requires secret { length secret.now ≤ 64 }
    requires user { length user.now ≤ max_value }
    requires state { length state.now ≤ 64 }
    requires eap { length eap.now ≤ max_packet }
    ensures { result
        ≡ spelled (request_of secret.now id authenticator.now user.now state.now eap.now) }
{
    let attributes = carried_octets(user, state, eap);
    let code = RadiusKind::Request as u8;
    let tag = tag_over(secret, code, id, authenticator, attributes.as_slice());
    framed(code, id, authenticator, attributes.as_slice(), &tag)
}

/// A reply to the request with this Authenticator, which carries an EAP packet, with its
/// Message-Authenticator and its Response Authenticator under the secret (RFC 3579 section 3.2, RFC 2865
/// section 3). The EAP packet and the state are written as in a request.
#[tactic(auto, unfolding(crate::specs::Written::sealed_packet))]
pub fn write_reply(
    secret: &[u8],
    kind: RadiusKind,
    id: u8,
    request_authenticator: &[u8; 16],
    state: &[u8],
    eap: &[u8],
) -> Injected
    requires secret { length secret.now ≤ 64 }
    requires reply { kind ≢ RadiusKind.Request }
    requires state { length state.now ≤ 64 }
    requires eap { length eap.now ≤ max_packet }
    ensures { result ≡ spelled (reply_of secret.now (number_of kind)
        id request_authenticator.now state.now eap.now) }
{
    let attributes = carried_octets(&[], state, eap);
    let code = code_of(kind);
    let tag = tag_over(
        secret,
        code,
        id,
        request_authenticator,
        attributes.as_slice(),
    );
    let asked = framed(code, id, request_authenticator, attributes.as_slice(), &tag);
    let response = response_over(asked.as_slice(), secret);
    framed(code, id, &response, attributes.as_slice(), &tag)
}
