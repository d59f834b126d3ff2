//! The attributes of a RADIUS packet (RFC 2865 section 5).

ghost use Rattle.std.specs.Prelude.{◌≡◌, ◌≤◌, ◌+◌, ◌++◌, ◌∷◌, [], length, IsTrue, ◌↔◌, IfSome};
ghost use Rattle.std.specs.Prelude.{MatchOption, option_copied};
ghost use Rattle.octet_lists.specs.Sizes.{max_packet};
ghost use Rattle.radius_carry.specs.Packet.{count, first_value, value_of_kind};
ghost use Rattle.radius_carry.specs.Fault.{attributes_of, left_of};
ghost use Rattle.radius_carry.specs.Place.{tag_place};

use octet_lists::Packet;

/// The octets before the attributes.
pub const HEAD: usize = 20;

/// The octets of an Authenticator and of a tag.
pub const TAG: usize = 16;

/// The Type of an attribute EAP-Message.
pub const EAP_MESSAGE: u8 = 79;

/// The Type of an attribute Message-Authenticator.
pub const MESSAGE_AUTHENTICATOR: u8 = 80;

/// The first attribute of some octets, and the octets behind it.
#[derive(Clone, Copy)]
struct Attribute<'a> {
    kind: u8,
    value: &'a [u8],
    rest: &'a [u8],
}

/// The first attribute, or None if the octets begin with none: there are fewer than two, or its
/// length is under 2 or past their end.
#[tactic(auto, using(crate::proofs::ReadAttributes::first_steps))]
fn first_attribute<'a>(octets: &'a [u8]) -> Option<Attribute<'a>>
    ensures attributes { MatchOption result (attributes_of octets.now ≡ [])
        (λ a. attributes_of octets.now ≡ (a.kind, a.value.now) ∷ attributes_of a.rest.now) }
    ensures left { MatchOption result (left_of octets.now ≡ octets.now)
        (λ a. left_of octets.now ≡ left_of a.rest.now) }
    ensures size { IfSome result
        (λ a. length a.value.now + 2 + length a.rest.now ≡ length octets.now) }
{
    if octets.len() < 2 {
        return None;
    }
    let size = usize::from(octets[1]);
    if size < 2 || octets.len() < size {
        return None;
    }
    Some(Attribute {
        kind: octets[0],
        value: &octets[2..size],
        rest: &octets[size..],
    })
}

/// Whether the octets are attributes up to their end.
pub fn are_attributes(octets: &[u8]) -> bool
    ensures { IsTrue result ↔ (length (left_of octets.now) ≡ 0) }
{
    let mut rest = octets;
    while let Some(attribute) = first_attribute(rest) {
        rest = attribute.rest;
    }
    rest.is_empty()
}

/// How many attributes of one Type there are, and how many octets their values have together.
#[derive(Clone, Copy)]
pub struct Tally {
    pub count: usize,
    pub size: usize,
}

/// The attributes of this Type, counted.
#[tactic(auto, unfolding(crate::specs::Packet::count, crate::specs::Packet::value_of_kind))]
pub fn tally_of(kind: u8, octets: &[u8]) -> Tally
    ensures count { result.count ≡ count kind (attributes_of octets.now) }
    ensures size { result.size ≡ length (value_of_kind kind (attributes_of octets.now)) }
{
    let mut tally = Tally { count: 0, size: 0 };
    let mut rest = octets;
    while let Some(attribute) = first_attribute(rest) {
        if attribute.kind == kind {
            tally.count += 1;
            tally.size += attribute.value.len();
        }
        rest = attribute.rest;
    }
    tally
}

/// Appends the values of this Type, joined in their order.
#[tactic(auto, unfolding(crate::specs::Packet::value_of_kind))]
pub fn join_values(values: &mut Packet, kind: u8, octets: &[u8])
    requires { length values.old + length (value_of_kind kind (attributes_of octets.now))
        ≤ max_packet }
    ensures { values.new ≡ values.old ++ value_of_kind kind (attributes_of octets.now) }
{
    let mut rest = octets;
    while let Some(attribute) = first_attribute(rest) {
        if attribute.kind == kind {
            values.put(attribute.value);
        }
        rest = attribute.rest;
    }
}

/// The value of the first attribute of this Type, or None if there is none.
#[tactic(auto, unfolding(crate::specs::Packet::first_value))]
pub fn first_value<'a>(kind: u8, octets: &'a [u8]) -> Option<&'a [u8]>
    ensures { option_copied result ≡ first_value kind (attributes_of octets.now) }
{
    let mut rest = octets;
    while let Some(attribute) = first_attribute(rest) {
        if attribute.kind == kind {
            return Some(attribute.value);
        }
        rest = attribute.rest;
    }
    None
}

/// The octets before the value of the first attribute Message-Authenticator; all octets if there is none.
#[tactic(auto, unfolding(crate::specs::Place::tag_place))]
pub fn place_of_tag(octets: &[u8]) -> usize
    ensures { result ≡ tag_place (attributes_of octets.now) }
{
    let mut place = 0;
    let mut rest = octets;
    while let Some(attribute) = first_attribute(rest) {
        if attribute.kind == MESSAGE_AUTHENTICATOR {
            return place + 2;
        }
        place += 2 + attribute.value.len();
        rest = attribute.rest;
    }
    place
}
