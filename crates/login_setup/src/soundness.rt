//! The tests of settings that a caller made by hand, before a machine or a world is made with them.

ghost use Rattle.std.specs.Prelude.{◌≡◌, ◌↔◌, IsTrue};
ghost use Rattle.std.specs.List.{list_all};
ghost use Rattle.octet_lists.specs.Among.{is_kind, are_distinct};
ghost use Rattle.login_setup.specs.Setup.{are_kinds, are_suites, is_valid_for};
ghost use Rattle.login_setup.specs.Setup.{is_method_kind, are_method_kinds};
ghost use Rattle.login_setup.specs.Setup.{IsSoundPeer, HasKeys, IsSoundServer};
ghost use Rattle.login_setup.specs.Soundness.{is_suite, is_sound_key, is_sound_user};

use crate::setup::{PeerSetup, ServerSetup};
use crate::users::{User, UserList};
use octet_lists::{EXPANDED, GPSK_KIND, PSK_KIND, Secret, is_among};

/// Whether a peer's machine and world accept these settings, as `PeerMachine::new` and `World::new` ask. Its methods
/// are Types of methods (RFC 3748 section 5: 4 to 253, or 255), each at most once; its suites of 1 and 2, at least
/// one and each at most once; a key for 47 (EAP-PSK) has 16 octets, one for 51 (EAP-GPSK) has 32 to 64, also if the
/// method isn't allowed; and it has a key for each of these two that it allows. A method of any other Type brings its
/// own key.
pub fn is_sound_peer(setup: &PeerSetup) -> bool
    ensures { IsTrue result ↔ (IsSoundPeer setup.now × HasKeys setup.now) }
{
    are_method_kinds(setup.methods.as_slice())
        && are_suites(setup.suites.as_slice())
        && is_sound_key(PSK_KIND, &setup.psk47)
        && is_sound_key(GPSK_KIND, &setup.psk51)
        && setup.has_keys()
}

/// Whether a server's machine and world accept these settings, as `ServerMachine::new`, `ServerMachine::in_role`,
/// `Backend::new` and `World::new` ask. Its methods are Types of methods (RFC 3748 section 5: 4 to 253, or 255), each
/// at most once; its suites of 1 and 2, at least one and each at most once; and each user is of the Type of a method,
/// which the server needn't propose, and has a key of 16 octets for 47 (EAP-PSK), or of 32 to 64 for 51 (EAP-GPSK).
#[tactic(auto, using(crate::proofs::Sound::have_keys, crate::proofs::Sound::have_kinds, crate::proofs::Sound::passes))]
pub fn is_sound_server<const N: usize>(setup: &ServerSetup<UserList<N>>) -> bool
    ensures { IsTrue result ↔ IsSoundServer setup.now }
{
    are_method_kinds(setup.methods.as_slice())
        && are_suites(setup.suites.as_slice())
        && are_sound(setup.users.as_slice())
}

/// Whether this is the Type of one of the two methods.
fn is_kind(kind: u8) -> bool
    ensures { result ≡ is_kind kind }
{
    kind == PSK_KIND || kind == GPSK_KIND
}

/// Whether this may be the Type of a method: 4 or more, and not 254 (RFC 3748 section 5).
fn is_method_kind(kind: u8) -> bool
    ensures { result ≡ is_method_kind kind }
{
    kind >= 4 && kind != EXPANDED
}

/// Whether the key has the size that the method of this Type requires: 16 octets for 47 (EAP-PSK), 32 to 64 for 51
/// (EAP-GPSK), at most 64 for any other.
pub fn has_key_size(kind: u8, psk: &[u8]) -> bool
    ensures { result ≡ is_valid_for kind psk.now }
{
    if kind == PSK_KIND {
        psk.len() == 16
    } else if kind == GPSK_KIND {
        psk.len() >= 32 && psk.len() <= 64
    } else {
        psk.len() <= 64
    }
}

/// Whether these are Types of the two methods, each at most once.
pub fn are_kinds(kinds: &[u8]) -> bool
    ensures { result ≡ are_kinds kinds.now }
{
    all_kinds(kinds) && are_distinct(kinds)
}

fn all_kinds(kinds: &[u8]) -> bool
    ensures { result ≡ list_all is_kind kinds.now }
{
    kinds.iter().all(|kind| is_kind(*kind))
}

/// Whether these are Types of methods, of a maker's too, each at most once.
fn are_method_kinds(kinds: &[u8]) -> bool
    ensures { result ≡ are_method_kinds kinds.now }
{
    all_method_kinds(kinds) && are_distinct(kinds)
}

fn all_method_kinds(kinds: &[u8]) -> bool
    ensures { result ≡ list_all is_method_kind kinds.now }
{
    kinds.iter().all(|kind| is_method_kind(*kind))
}

/// Whether these are suites, at least one, and each at most once.
pub fn are_suites(suites: &[u8]) -> bool
    ensures { result ≡ are_suites suites.now }
{
    !suites.is_empty() && all_suites(suites) && are_distinct(suites)
}

fn all_suites(suites: &[u8]) -> bool
    ensures { result ≡ list_all is_suite suites.now }
{
    suites.iter().all(|suite| *suite == 1 || *suite == 2)
}

/// Whether no number occurs twice.
fn are_distinct(numbers: &[u8]) -> bool
    ensures { result ≡ are_distinct numbers.now }
{
    match numbers {
        [] => true,
        [number, rest @ ..] => !is_among(rest, *number) && are_distinct(rest),
    }
}

/// Whether the key for this method, if there is one, fits it.
fn is_sound_key(kind: u8, key: &Option<Secret>) -> bool
    ensures { result ≡ is_sound_key kind key.now }
{
    match key {
        None => true,
        Some(psk) => has_key_size(kind, psk.as_slice()),
    }
}

/// Whether each user is of a method and has a key that fits it.
fn are_sound(users: &[User]) -> bool
    ensures { result ≡ list_all is_sound_user users.now }
{
    users.iter().all(|user| is_method_kind(user.kind)
        && has_key_size(user.kind, user.psk.as_slice()))
}
