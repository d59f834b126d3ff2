//! The kinds of fields (RFC 5433 section 9): each is split off the octets, with those after it.

ghost use Rattle.std.specs.Prelude.{◌≡◌, IfSome, length, option_map};
ghost use Rattle.gpsk_messages.specs.Reading.{exact_at, sized_at, identity_at, suites_at, suite_at};
ghost use Rattle.gpsk_messages.specs.Reading.{code_at};

use byteorder::{BigEndian, ByteOrder};
use octet_lists::{MAX_NAME, SUITE_SIZE, Suite, array_of};

/// A field of `count` octets.
#[tactic(auto, unfolding(crate::specs::Reading::exact_at))]
fn exact_field<'a>(count: usize, octets: &'a [u8]) -> Option<(&'a [u8], &'a [u8])>
    ensures size { IfSome result (λ x. length x.0.now ≡ count) }
    ensures field { option_map (λ x. (x.0.now, x.1.now)) result ≡ exact_at count octets.now }
{
    if count <= octets.len() {
        Some(octets.split_at(count))
    } else {
        None
    }
}

/// A field behind its length in two octets.
#[tactic(auto, unfolding(crate::specs::Reading::sized_at))]
pub(crate) fn sized_field<'a>(octets: &'a [u8]) -> Option<(&'a [u8], &'a [u8])>
    ensures { option_map (λ x. (x.0.now, x.1.now)) result ≡ sized_at octets.now }
{
    match octets {
        [_, _, rest @ ..] => exact_field(usize::from(BigEndian::read_u16(octets)), rest),
        _ => None,
    }
}

/// An identity, of at most 253 octets.
#[tactic(auto, unfolding(crate::specs::Reading::identity_at, crate::specs::Reading::and_then))]
pub(crate) fn identity_field<'a>(octets: &'a [u8]) -> Option<(&'a [u8], &'a [u8])>
    ensures { option_map (λ x. (x.0.now, x.1.now)) result ≡ identity_at octets.now }
{
    let (name, rest) = sized_field(octets)?;
    if name.len() <= MAX_NAME {
        Some((name, rest))
    } else {
        None
    }
}

/// A list of one suite or more.
#[tactic(auto, unfolding(crate::specs::Reading::suites_at, crate::specs::Reading::and_then))]
pub(crate) fn suites_field<'a>(octets: &'a [u8]) -> Option<(&'a [u8], &'a [u8])>
    ensures { option_map (λ x. (x.0.now, x.1.now)) result ≡ suites_at octets.now }
{
    let (list, rest) = sized_field(octets)?;
    if list.len() > 0 && list.len() % SUITE_SIZE == 0 {
        Some((list, rest))
    } else {
        None
    }
}

/// A CSuite_Sel that is one of the two suites of the standard.
#[tactic(auto, unfolding(crate::specs::Reading::suite_at))]
pub(crate) fn suite_field<'a>(octets: &'a [u8]) -> Option<(Suite, &'a [u8])>
    ensures { option_map (λ x. (x.0, x.1.now)) result ≡ suite_at octets.now }
{
    match octets {
        [0, 0, 0, 0, 0, number, rest @ ..] => Some((Suite::numbered(*number)?, rest)),
        _ => None,
    }
}

/// A nonce of 32 octets.
#[tactic(auto, unfolding(crate::specs::Reading::exact_at))]
pub(crate) fn rand_field<'a>(octets: &'a [u8]) -> Option<([u8; 32], &'a [u8])>
    ensures { option_map (λ x. (x.0, x.1.now)) result ≡ exact_at 32 octets.now }
{
    let (front, rest) = exact_field(32, octets)?;
    Some((array_of(front), rest))
}

/// A Failure-Code, in four octets.
#[tactic(auto, unfolding(crate::specs::Reading::code_at, crate::specs::Reading::and_then, crate::specs::Reading::exact_at))]
pub(crate) fn code_field<'a>(octets: &'a [u8]) -> Option<(u32, &'a [u8])>
    ensures { option_map (λ x. (x.0, x.1.now)) result ≡ code_at octets.now }
{
    let (front, rest) = exact_field(4, octets)?;
    Some((BigEndian::read_u32(front), rest))
}
