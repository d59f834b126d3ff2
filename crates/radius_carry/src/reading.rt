//! Reading RADIUS packets that carry EAP (RFC 2865 section 3, RFC 3579 section 3).

ghost use Rattle.std.specs.Prelude.{◌≡◌, ◌≤◌, take, drop, length, IfOk, None, IsTrue, slice_index};
ghost use Rattle.std.specs.Prelude.{option_copied};
ghost use Rattle.radius_carry.specs.Packet as spec;
ghost use Rattle.radius_carry.specs.Packet.{IsRadius, number_of};
ghost use Rattle.radius_carry.specs.Fault.{fault, first_cause, head_table, body_table, body_of};
ghost use Rattle.radius_carry.specs.Fault.{code_of, length_of, packet_at, packet_of, value_of};
ghost use Rattle.radius_carry.specs.Fault.{read_value};

use crate::attributes::{
    EAP_MESSAGE, HEAD, MESSAGE_AUTHENTICATOR, TAG, are_attributes, first_value, join_values,
    tally_of,
};
use crate::cause::RadiusCause;
use crate::view::{RadiusKind, RadiusView};
use byteorder::{BigEndian, ByteOrder};
use octet_lists::{MAX_PACKET, Octets, Packet, array_of};

/// The most octets of a packet (RFC 2865 section 3).
const MAX_RADIUS: usize = 4096;

/// The Length field.
fn length_field(octets: &[u8]) -> usize
    requires { 20 ≤ length octets.now }
    ensures { result ≡ length_of octets.now }
{
    usize::from(BigEndian::read_u16(&octets[2..]))
}

/// The first cause that the fields before the attributes give.
fn head_fault(octets: &[u8]) -> Option<RadiusCause>
    ensures { result ≡ first_cause (head_table octets.now) }
{
    if octets.len() < HEAD {
        return Some(RadiusCause::RadiusShort);
    }
    let length = length_field(octets);
    if !matches!(octets[0], 1 | 2 | 3 | 11) {
        Some(RadiusCause::RadiusCode)
    } else if length < HEAD || length > MAX_RADIUS {
        Some(RadiusCause::RadiusLength)
    } else if octets.len() < length {
        Some(RadiusCause::RadiusTruncated)
    } else {
        None
    }
}

/// The first cause that the attributes give.
fn body_fault(body: &[u8]) -> Option<RadiusCause>
    ensures { result ≡ first_cause (body_table body.now) }
{
    let eap = tally_of(EAP_MESSAGE, body);
    let tag = tally_of(MESSAGE_AUTHENTICATOR, body);
    if !are_attributes(body) {
        Some(RadiusCause::RadiusAttribute)
    } else if eap.count == 0 {
        Some(RadiusCause::NoEap)
    } else if eap.size > MAX_PACKET {
        Some(RadiusCause::EapTooLong)
    } else if tag.count != 1 || tag.size != TAG {
        Some(RadiusCause::NoAuthenticator)
    } else {
        None
    }
}

/// The octets of the attributes.
fn body_octets<'a>(octets: &'a [u8]) -> &'a [u8]
    requires head { 20 ≤ length_of octets.now }
    requires whole { length_of octets.now ≤ length octets.now }
    ensures { result.now ≡ body_of octets.now }
{
    let whole = &octets[..length_field(octets)];
    &whole[HEAD..]
}

/// The first cause for which the octets begin with no packet that carries EAP.
#[tactic(auto, unfolding(crate::specs::Fault::fault), using(crate::proofs::Causes::first_of_both, crate::proofs::Causes::first_of_head))]
fn first_fault(octets: &[u8]) -> Option<RadiusCause>
    ensures { result ≡ fault octets.now }
{
    match head_fault(octets) {
        Some(cause) => Some(cause),
        None => body_fault(body_octets(octets)),
    }
}

/// The kind of packet with this Code.
fn kind_of(code: u8) -> RadiusKind
    requires { IsTrue (spec.is_code code) }
    ensures { number_of result ≡ code }
{
    match code {
        1 => RadiusKind::Request,
        2 => RadiusKind::Accept,
        3 => RadiusKind::Reject,
        _ => RadiusKind::Challenge,
    }
}

/// The packet that the octets begin with.
fn view_of<'a>(octets: &'a [u8]) -> RadiusView<'a>
    requires known { IsTrue (spec.is_code (code_of octets.now)) }
    requires head { 20 ≤ length_of octets.now }
    requires whole { length_of octets.now ≤ length octets.now }
    ensures kind { number_of result.kind ≡ code_of octets.now }
    ensures id { result.id ≡ slice_index octets.now 1 }
    ensures authenticator { result.authenticator ≡ take 16 (drop 4 octets.now) }
    ensures attributes { result.attributes.now ≡ body_of octets.now }
    ensures whole { result.whole.now ≡ take (length_of octets.now) octets.now }
{
    RadiusView {
        kind: kind_of(octets[0]),
        id: octets[1],
        authenticator: array_of(&octets[4..HEAD]),
        attributes: body_octets(octets),
        whole: &octets[..length_field(octets)],
    }
}

/// The RADIUS packet that the octets begin with and that carries EAP; the octets past its Length are
/// ignored (RFC 2865 section 3). Else the first cause, in the order of `RadiusCause`, that keeps them
/// from beginning with one.
#[tactic(auto, unfolding(crate::specs::Fault::packet_of, crate::specs::Fault::packet_at, crate::specs::Fault::value_of))]
pub fn read_radius<'a>(octets: &'a [u8]) -> Result<RadiusView<'a>, RadiusCause>
    ensures packet { read_value result ≡ packet_of octets.now }
    ensures sound { IfOk result (λ view. IsRadius (value_of view) view.whole.now) }
    ensures prefix { IfOk result (λ view. view.whole.now ≡ take (length_of octets.now) octets.now) }
    ensures attributes { IfOk result (λ view. view.attributes.now ≡ drop 20 view.whole.now) }
{
    match first_fault(octets) {
        Some(cause) => Err(cause),
        None => Ok(view_of(octets)),
    }
}

/// The EAP packet that the packet carries: the values of its attributes EAP-Message, joined in their
/// order (RFC 3579 section 3.1).
#[tactic(auto, unfolding(crate::specs::Fault::value_of))]
pub fn eap_of(view: &RadiusView) -> Packet
    requires { IsRadius (value_of view.now) view.now.whole.now }
    ensures { result ≡ spec.eap_of (value_of view.now).attributes }
{
    let mut eap = Octets::new();
    join_values(&mut eap, EAP_MESSAGE, view.attributes);
    eap
}

/// The value of the packet's first attribute of this Type, or None if there is none: so State (24), which the next
/// Access-Request returns as it came (RFC 2865 section 5.24).
#[tactic(auto, unfolding(crate::specs::Fault::value_of))]
pub fn attribute<'a>(view: &RadiusView<'a>, kind: u8) -> Option<&'a [u8]>
    ensures { option_copied result ≡ spec.first_value kind (value_of view.now).attributes }
{
    first_value(kind, view.attributes)
}
