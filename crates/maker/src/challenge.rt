//! The Type-Data of MD5-Challenge (RFC 3748 section 5.4), whose fields are those of CHAP (RFC 1994 section 4.1).

ghost use Rattle.std.specs.Prelude.{◌≡◌, ◌≤◌, ◌∷◌, ◌++◌, length, IsTrue, option_copied};
ghost use Rattle.md5.specs.Md5.{md5};
ghost use Rattle.eap_packet.specs.Packet.{spelled, value_with, has_type};
ghost use Rattle.eap_method.specs.Capacity.{HasCapacity};
ghost use Rattle.maker.specs.Challenge as challenges;
ghost use Rattle.maker.specs.Challenge.{md5_kind, type_data};

use eap_packet::{Code, encode};
use md5::{Digest, Md5};
use octet_lists::{Octets, Packet, Secret};

/// The Type of MD5-Challenge.
pub const MD5_KIND: u8 = 4;

/// The Value in the Type-Data of a Challenge or a Response; None unless Value-Size is at least 1 and so many octets follow.
/// What follows these is the Name, of any size.
pub fn value_of<'a>(body: &'a [u8]) -> Option<&'a [u8]>
    ensures { option_copied result ≡ challenges.value_of body.now }
{
    let (size, rest) = body.split_first()?;
    let size = *size as usize;
    if size == 0 || rest.len() < size {
        None
    } else {
        Some(&rest[..size])
    }
}

/// The Value of the Response to a Challenge: MD5 over the Identifier, the secret, and the Challenge's Value.
#[tactic(auto, unfolding(crate::specs::Challenge::response_value))]
pub fn response_value(secret: &Secret, id: u8, value: &[u8]) -> [u8; 16]
    ensures { result ≡ challenges.response_value secret.now id value.now }
{
    let mut hash = Md5::new();
    hash.update(&[id]);
    hash.update(secret.as_slice());
    hash.update(value);
    hash.finalize()
}

/// A Challenge or a Response with this Value and no Name.
#[tactic(auto, using(eap_method::proofs::Capacities::typed_has_capacity))]
pub fn packet_with(code: Code, id: u8, value: &[u8; 16]) -> Packet
    requires typed { IsTrue (has_type code) }
    ensures packet { result ≡ spelled (value_with code id md5_kind (type_data value.now)) }
    ensures capacity { HasCapacity result }
{
    let mut body: Octets<17> = Octets::of(&[16]);
    body.put(value);
    encode(code, id, MD5_KIND, body.as_slice())
}
