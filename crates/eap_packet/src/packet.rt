//! EAP packets (RFC 3748 section 4): their fields, decoding and encoding.

ghost use Rattle.std.specs.Prelude.{◌≡◌, ◌≢◌, ◌≤◌, [], ℕ, List, ◌++◌, length, take, IfOk, IsTrue};
ghost use Rattle.std.specs.Prelude.{not, ◌∷◌, ◌-◌, drop, slice_index};
ghost use Rattle.octet_lists.specs.Sizes.{max_packet};
ghost use Rattle.octet_lists.specs.Among.{nak_kind};
ghost use Rattle.eap_packet.specs.Packet.{spelled, value_of, value_with, has_type, IsPacket};
ghost use Rattle.eap_packet.specs.Packet.{IsPlain, decoded_value, number_of, two_octets};
ghost use Rattle.eap_packet.specs.Packet.{max_type_data};
ghost use Rattle.eap_packet.specs.Fault.{fault, fields_of, code_of, length_of, type_of, packet_of};

use crate::cause::Cause;
use byteorder::{BigEndian, ByteOrder};
use octet_lists::{MAX_PACKET, NAK, Packet};

/// The Code field: what kind of packet it is.
#[derive(Clone, Copy, PartialEq, Eq, Debug)]
pub enum Code {
    Request = 1,
    Response = 2,
    Success = 3,
    Failure = 4,
}

/// A packet, as its octets show it.
#[derive(Clone, Copy, Debug)]
pub struct PacketView<'a> {
    pub code: Code,
    /// The Identifier.
    pub id: u8,
    /// The Type, 0 for a Success or a Failure.
    pub kind: u8,
    /// The Type-Data, empty for a Success or a Failure.
    pub body: &'a [u8],
    /// The first Length octets, without padding.
    pub whole: &'a [u8],
}

/// The same by a shorter name.
pub type View<'a> = PacketView<'a>;

/// The Length field of at least four octets.
pub fn length_field(octets: &[u8]) -> usize
    requires { 4 ≤ length octets.now }
    ensures { result ≡ length_of octets.now }
{
    usize::from(BigEndian::read_u16(&octets[2..]))
}

/// The first cause, in the order of `Cause`, for which the octets begin with no packet.
#[tactic(auto, unfolding(crate::specs::Fault::fault))]
fn first_fault(octets: &[u8]) -> Option<Cause>
    ensures { result ≡ fault octets.now }
{
    if octets.len() < 4 {
        return Some(Cause::Short);
    }
    let code = octets[0];
    let length = length_field(octets);
    let has_type = code <= 2;
    if code == 0 || code > 4 {
        Some(Cause::BadCode)
    } else if (has_type && length < 5) || (!has_type && length != 4) {
        Some(Cause::BadLength)
    } else if octets.len() < length {
        Some(Cause::Truncated)
    } else if length > MAX_PACKET {
        Some(Cause::TooLong)
    } else if code == Code::Request as u8 && octets[4] == NAK {
        Some(Cause::NakRequest)
    } else if code == Code::Response as u8 && octets[4] == NAK && length == 5 {
        Some(Cause::BadNak)
    } else {
        None
    }
}

/// The Request or the Response that the octets begin with.
fn typed_view<'a>(code: Code, octets: &'a [u8]) -> PacketView<'a>
    requires typed { 5 ≤ length_of octets.now }
    requires whole { length_of octets.now ≤ length octets.now }
    requires bounded { length_of octets.now ≤ max_packet }
    ensures same_code { result.code ≡ code }
    ensures id { result.id ≡ slice_index octets.now 1 }
    ensures kind { result.kind ≡ type_of octets.now }
    ensures body { result.body.now ≡ take (length_of octets.now - 5) (drop 5 octets.now) }
    ensures whole { result.whole.now ≡ take (length_of octets.now) octets.now }
    ensures size { length result.whole.now ≤ max_packet }
    ensures body_size { length result.body.now ≤ max_type_data }
{
    let length = length_field(octets);
    PacketView {
        code,
        id: octets[1],
        kind: octets[4],
        body: &octets[5..length],
        whole: &octets[..length],
    }
}

/// The Success or the Failure that the octets begin with.
fn end_view<'a>(code: Code, octets: &'a [u8]) -> PacketView<'a>
    requires { 4 ≤ length octets.now }
    ensures same_code { result.code ≡ code }
    ensures id { result.id ≡ slice_index octets.now 1 }
    ensures kind { result.kind ≡ 0 }
    ensures body { result.body.now ≡ [] }
    ensures whole { result.whole.now ≡ take 4 octets.now }
    ensures size { length result.whole.now ≤ max_packet }
{
    PacketView {
        code,
        id: octets[1],
        kind: 0,
        body: &[],
        whole: &octets[..4],
    }
}

/// The packet that the octets begin with.
#[tactic(auto, using(crate::proofs::Faults::starts_if_none))]
fn view_of<'a>(octets: &'a [u8]) -> PacketView<'a>
    requires { fault octets.now ≡ None }
    ensures value { value_of result ≡ fields_of (code_of octets.now) octets.now }
    ensures whole { result.whole.now ≡ take (length_of octets.now) octets.now }
    ensures plain { IsPlain result.code result.kind result.body.now }
    ensures size { length result.whole.now ≤ max_packet }
    ensures body_size { length result.body.now ≤ max_type_data }
{
    match octets[0] {
        1 => typed_view(Code::Request, octets),
        2 => typed_view(Code::Response, octets),
        3 => end_view(Code::Success, octets),
        _ => end_view(Code::Failure, octets),
    }
}

/// The packet that the octets begin with; the octets past its Length are padding. Else the first
/// cause, in the order of `Cause`, that keeps them from beginning with one (RFC 3748 section 4).
#[tactic(auto, unfolding(crate::specs::Fault::packet_of))]
pub fn decode<'a>(octets: &'a [u8]) -> Result<PacketView<'a>, Cause>
    ensures packet { decoded_value result ≡ packet_of octets.now }
    ensures sound { IfOk result (λ view. IsPacket (value_of view)) }
    ensures whole { IfOk result (λ view. view.whole.now ≡ spelled (value_of view)) }
    ensures prefix { IfOk result (λ view. view.whole.now ≡ take (length_of octets.now) octets.now) }
    ensures plain { IfOk result (λ view. IsPlain view.code view.kind view.body.now) }
    ensures size { IfOk result (λ view. length view.whole.now ≤ max_packet) }
    ensures body_size { IfOk result (λ view. length view.body.now ≤ max_type_data) }
{
    match first_fault(octets) {
        Some(cause) => Err(cause),
        None => Ok(view_of(octets)),
    }
}

/// The Code, the Identifier and the Length of a packet with this many octets.
fn header(code: Code, id: u8, length: usize) -> [u8; 4]
    requires { length ≤ max_packet }
    ensures { result ≡ number_of code ∷ id ∷ two_octets length }
{
    let mut header = [code as u8, id, 0, 0];
    BigEndian::write_u16(&mut header[2..], length as u16);
    header
}

/// Writes the fields before the Type-Data of a Request or a Response of this Type (RFC 3748 section
/// 4.1), in place of what the packet had. Its Length counts `size` octets of Type-Data, which are yet
/// to be appended.
pub fn init_into(packet: &mut Packet, code: Code, id: u8, kind: u8, size: usize)
    requires typed { IsTrue (has_type code) }
    requires bounded { size ≤ max_type_data }
    requires no_nak_request { code ≡ Code.Request → kind ≢ nak_kind }
    requires nak_desires { code ≡ Code.Response → kind ≡ nak_kind → size ≢ 0 }
    ensures spells { (body : List ℕ) → length body ≡ size
        → packet.new ++ body ≡ spelled (value_with code id kind body) }
    ensures size { length packet.new ≡ 5 }
{
    packet.set(&header(code, id, 5 + size));
    packet.put(&[kind]);
}

/// Writes a Request or a Response of this Type and Type-Data (RFC 3748 section 4.1), in place of what
/// the packet had.
pub fn encode_into(packet: &mut Packet, code: Code, id: u8, kind: u8, body: &[u8])
    requires typed { IsTrue (has_type code) }
    requires bounded { length body.now ≤ max_type_data }
    requires no_nak_request { code ≡ Code.Request → kind ≢ nak_kind }
    requires nak_desires { code ≡ Code.Response → kind ≡ nak_kind → body.now ≢ [] }
    ensures { packet.new ≡ spelled (value_with code id kind body.now) }
{
    init_into(packet, code, id, kind, body.len());
    packet.put(body);
}

/// A Request or a Response of this Type and Type-Data (RFC 3748 section 4.1).
pub fn encode(code: Code, id: u8, kind: u8, body: &[u8]) -> Packet
    requires typed { IsTrue (has_type code) }
    requires bounded { length body.now ≤ max_type_data }
    requires no_nak_request { code ≡ Code.Request → kind ≢ nak_kind }
    requires nak_desires { code ≡ Code.Response → kind ≡ nak_kind → body.now ≢ [] }
    ensures { result ≡ spelled (value_with code id kind body.now) }
{
    let mut packet = Packet::new();
    encode_into(&mut packet, code, id, kind, body);
    packet
}

/// Writes a Success or a Failure (RFC 3748 section 4.2), in place of what the packet had.
#[tactic(auto, unfolding(crate::specs::Packet::spelled))]
pub fn encode_end_into(packet: &mut Packet, code: Code, id: u8)
    requires { IsTrue (not (has_type code)) }
    ensures { packet.new ≡ spelled (value_with code id 0 []) }
{
    packet.set(&header(code, id, 4));
}

/// A Success or a Failure (RFC 3748 section 4.2).
pub fn encode_end(code: Code, id: u8) -> Packet
    requires { IsTrue (not (has_type code)) }
    ensures { result ≡ spelled (value_with code id 0 []) }
{
    let mut packet = Packet::new();
    encode_end_into(&mut packet, code, id);
    packet
}
