//! What a peer allows and desires, which suite it picks, and which method the server proposes next.

ghost use Rattle.std.specs.Prelude.{◌≡◌, ◌<◌, ◌&&◌, not, true, None, option_copied, length, IsSome};
ghost use Rattle.std.specs.List.{list_all};
ghost use Rattle.octet_lists.specs.Among.{is_among, are_distinct};
ghost use Rattle.login_policy.specs.Policy.{nak_of, picked_suite, is_allowed, suite_or, is_desired};
ghost use Rattle.login_policy.specs.Policy.{next_kind};

use login_setup::PeerSetup;
use octet_lists::{Kinds, SUITE_SIZE, Suite, Suites, is_among};

/// Whether the peer allows the method of this Type.
pub fn peer_allows(setup: &PeerSetup, kind: u8) -> bool
    ensures { result ≡ is_among setup.now.methods kind }
{
    is_among(setup.methods.as_slice(), kind)
}

/// The Types that the peer's Nak lists (RFC 3748 section 5.3.1): the methods that it allows in their
/// order, or 0 alone if it allows none.
#[tactic(auto, unfolding(crate::specs::Policy::nak_of))]
pub fn nak_list(setup: &PeerSetup) -> Kinds
    ensures { result ≡ nak_of setup.now.methods }
{
    if setup.methods.is_empty() {
        Kinds::of(&[0])
    } else {
        setup.methods.copy()
    }
}

/// The first suite of a CSuite_List (RFC 5433 section 9.2) that is allowed, or None if there is none.
/// The list has entries of six octets; octets behind its last whole entry are ignored.
#[tactic(auto, using(crate::proofs::Entries::picked_here, crate::proofs::Entries::picked_after, crate::proofs::Entries::picked_from_part))]
pub fn pick_suite(allowed: &Suites, list: &[u8]) -> Option<Suite>
    ensures { result ≡ picked_suite allowed.now list.now }
{
    for entry in list.chunks_exact(SUITE_SIZE) {
        if let Some(suite) = allowed_suite(allowed, entry) {
            return Some(suite);
        }
    }
    None
}

/// The suite that an entry names, if it is allowed.
fn allowed_suite(allowed: &Suites, entry: &[u8]) -> Option<Suite>
    ensures { result ≡ suite_or allowed.now entry.now None }
{
    if is_allowed(allowed, entry, Suite::Cmac) {
        Some(Suite::Cmac)
    } else if is_allowed(allowed, entry, Suite::Hmac) {
        Some(Suite::Hmac)
    } else {
        None
    }
}

/// Whether an entry is this suite, and the suite is allowed.
fn is_allowed(allowed: &Suites, entry: &[u8], suite: Suite) -> bool
    ensures { result ≡ is_allowed allowed.now entry.now suite }
{
    entry == suite.octets().as_slice() && is_among(allowed.as_slice(), suite.number())
}

/// The first Type of the server's order that is not yet proposed and that the peer's Nak, if one has
/// come, desires (RFC 3748 section 5.3.1); None if there is none. It finds room among those proposed, if these are of
/// the order, each once.
#[tactic(auto, using(crate::proofs::Proposed::next_has_capacity))]
pub fn next_method(order: &Kinds, proposed: &Kinds, nak: Option<&[u8]>) -> Option<u8>
    ensures next { result ≡ next_kind order.now proposed.now (option_copied nak.entry) }
    ensures capacity { IsSome result → are_distinct proposed.now ≡ true
        → list_all (is_among order.now) proposed.now ≡ true → length proposed.now < 2 }
{
    first_open(order.as_slice(), proposed, nak)
}

/// The first Type of these that is not yet proposed and that a Nak, if one has come, desires.
#[tactic(auto, unfolding(crate::specs::Policy::next_kind))]
fn first_open(order: &[u8], proposed: &Kinds, nak: Option<&[u8]>) -> Option<u8>
    ensures { result ≡ next_kind order.now proposed.now (option_copied nak.entry) }
{
    order
        .iter()
        .copied()
        .find(|kind| is_open(proposed, nak, *kind))
}

/// Whether a Type is not yet proposed, and a Nak, if one has come, desires it.
fn is_open(proposed: &Kinds, nak: Option<&[u8]>, kind: u8) -> bool
    ensures { result
        ≡ (not (is_among proposed.now kind) && is_desired (option_copied nak.entry) kind) }
{
    !is_among(proposed.as_slice(), kind) && is_desired(nak, kind)
}

/// Whether a Nak, if one has come, desires this Type.
fn is_desired(nak: Option<&[u8]>, kind: u8) -> bool
    ensures { result ≡ is_desired (option_copied nak.entry) kind }
{
    match nak {
        None => true,
        Some(kinds) => is_among(kinds, kind),
    }
}
