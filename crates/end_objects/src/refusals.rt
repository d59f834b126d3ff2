//! Why the settings of an end are refused.

ghost use Rattle.std.specs.Prelude.{◌≡◌, ◌≤◌, None, IsTrue};
ghost use Rattle.std.specs.List.{list_all};
ghost use Rattle.login_setup.specs.Setup.{are_kinds, is_valid_for};
ghost use Rattle.eap_method.specs.Peer.{have_each};
ghost use Rattle.end_objects.specs.Settings.{settings_of, kinds_of, key_for};
ghost use Rattle.end_objects.specs.Refusals.{has_bad_size, has_gap, has_bad_methods};
ghost use Rattle.end_objects.specs.Refusals.{has_bad_suites, is_name, has_keys, has_key_of_user};
ghost use Rattle.end_objects.specs.Refusals.{end_refusal, peer_refusal, server_refusal};
ghost use Rattle.end_objects.specs.Refusals.{retry_refusal, stand_alone_refusal, user_refusal};
ghost use Rattle.end_objects.specs.Refusals.{IsSoundOther};

use crate::settings::{
    SETTINGS_SIZE, Settings, key_for, keyed_kinds, kinds_of, named_kinds, suites_of,
};
use login_setup::{are_kinds, are_suites, has_key_size};
use octet_lists::{MAX_NAME, is_among};

/// Why settings are refused. If several reasons apply, the first of them is the answer.
#[derive(Clone, Copy, PartialEq, Eq, Debug)]
pub enum Refusal {
    /// The struct has another size than [`SETTINGS_SIZE`].
    BadSize,
    /// A method is neither 47 nor 51, one occurs twice, or a 0 precedes one; or a peer has neither a key nor a method.
    NoMethod,
    /// A suite is neither 1 nor 2, one occurs twice, or a 0 precedes one.
    NoSuite,
    /// The end's own name has no octet, or over 253.
    BadName,
    /// The other end's name has over 253 octets; or a user has none.
    BadOther,
    /// A key has another size than its method requires; a peer has none for one of its methods; a user has none at all,
    /// or a server has one without a user.
    BadKey,
    /// A Request would be sent again over 10 times.
    ManyRetries,
}

/// Whether the struct has another size.
fn has_bad_size(settings: &Settings) -> bool
    ensures { result ≡ has_bad_size (settings_of settings.now) }
{
    settings.size != SETTINGS_SIZE
}

/// Whether a 0 precedes another number.
fn has_gap(field: &[u8; 2]) -> bool
    ensures { result ≡ has_gap field.now }
{
    let [first, second] = *field;
    first == 0 && second != 0
}

/// Whether the methods are others than the two, one occurs twice, or a 0 precedes one.
#[tactic(auto, unfolding(crate::specs::Refusals::has_bad_methods))]
fn has_bad_methods(settings: &Settings) -> bool
    ensures { result ≡ has_bad_methods (settings_of settings.now) }
{
    has_gap(&settings.methods) || !are_kinds(kinds_of(settings).as_slice())
}

/// Whether the suites are others than 1 and 2, one occurs twice, or a 0 precedes one.
#[tactic(auto, unfolding(crate::specs::Refusals::has_bad_suites))]
fn has_bad_suites(settings: &Settings) -> bool
    ensures { result ≡ has_bad_suites (settings_of settings.now) }
{
    has_gap(&settings.suites) || !are_suites(suites_of(settings).as_slice())
}

/// Whether a name has octets, and at most 253.
fn is_name(name: &[u8]) -> bool
    ensures { result ≡ is_name name.now }
{
    match name {
        [] => false,
        [_, ..] => name.len() <= MAX_NAME,
    }
}

/// Whether the keys for these methods fit them.
fn are_valid(kinds: &[u8], settings: &Settings) -> bool
    ensures { result
        ≡ list_all (λ kind. is_valid_for kind (key_for (settings_of settings.now) kind)) kinds.now }
{
    kinds
        .iter()
        .all(|kind| has_key_size(*kind, key_for(settings, *kind)))
}

/// Whether each of these methods is among others.
fn have_each(kinds: &[u8], wanted: &[u8]) -> bool
    ensures { result ≡ have_each kinds.now wanted.now }
{
    wanted.iter().all(|kind| is_among(kinds, *kind))
}

/// Whether each key fits its method, and there is one for each of these methods.
#[tactic(auto, unfolding(crate::specs::Refusals::has_keys))]
fn has_keys(wanted: &[u8], settings: &Settings) -> bool
    ensures { result ≡ has_keys wanted.now (settings_of settings.now) }
{
    let keyed = keyed_kinds(settings);
    are_valid(keyed.as_slice(), settings) && have_each(keyed.as_slice(), wanted)
}

/// Whether there is a key exactly if there is a user.
#[tactic(auto, unfolding(crate::specs::Refusals::has_key_of_user))]
fn has_key_of_user(settings: &Settings) -> bool
    ensures { result ≡ has_key_of_user (settings_of settings.now) }
{
    settings.other.is_empty() == keyed_kinds(settings).is_empty()
}

/// The first reason, in the order of [`Refusal`], for which an end refuses these settings, the methods or keys of which may
/// be bad for it.
fn end_refusal(settings: &Settings, bad_methods: bool, bad_keys: bool) -> Option<Refusal>
    ensures { result ≡ end_refusal (settings_of settings.now) bad_methods bad_keys }
{
    if has_bad_size(settings) {
        Some(Refusal::BadSize)
    } else if bad_methods {
        Some(Refusal::NoMethod)
    } else if has_bad_suites(settings) {
        Some(Refusal::NoSuite)
    } else if !is_name(settings.name) {
        Some(Refusal::BadName)
    } else if settings.other.len() > MAX_NAME {
        Some(Refusal::BadOther)
    } else if bad_keys {
        Some(Refusal::BadKey)
    } else {
        None
    }
}

/// The first reason, in the order of [`Refusal`], for which a peer refuses these settings.
#[tactic(auto, using(crate::proofs::Taken::peer_kinds), unfolding(crate::specs::Refusals::peer_refusal))]
pub fn peer_refusal(settings: &Settings) -> Option<Refusal>
    ensures refused { result ≡ peer_refusal (settings_of settings.now) }
    ensures kinds { result ≡ None → IsTrue (are_kinds (kinds_of (settings_of settings.now))) }
{
    let bad_methods = has_bad_methods(settings) || named_kinds(settings).is_empty();
    let bad_keys = !has_keys(kinds_of(settings).as_slice(), settings);
    end_refusal(settings, bad_methods, bad_keys)
}

/// The first reason, in the order of [`Refusal`], for which a server refuses these settings. It needs no user, and no
/// key for each of its methods.
#[tactic(auto, using(crate::proofs::Taken::server_kinds, crate::proofs::Taken::server_other), unfolding(crate::specs::Refusals::server_refusal))]
pub fn server_refusal(settings: &Settings) -> Option<Refusal>
    ensures refused { result ≡ server_refusal (settings_of settings.now) }
    ensures kinds { result ≡ None → IsTrue (are_kinds (kinds_of (settings_of settings.now))) }
    ensures other { result ≡ None → IsSoundOther (settings_of settings.now) }
{
    let bad_keys = !(has_keys(&[], settings) && has_key_of_user(settings));
    end_refusal(settings, has_bad_methods(settings), bad_keys)
}

/// Why MaxRetrans of RFC 4137 is refused: it is over 10.
pub fn retry_refusal(max_retrans: u8) -> Option<Refusal>
    ensures refused { result ≡ retry_refusal max_retrans }
    ensures few { result ≡ None → max_retrans ≤ 10 }
{
    if max_retrans > 10 {
        Some(Refusal::ManyRetries)
    } else {
        None
    }
}

/// The first reason, in the order of [`Refusal`], for which a stand-alone server refuses these settings with this
/// MaxRetrans of RFC 4137.
#[tactic(auto, unfolding(crate::specs::Refusals::stand_alone_refusal))]
pub fn stand_alone_refusal(settings: &Settings, max_retrans: u8) -> Option<Refusal>
    ensures refused { result ≡ stand_alone_refusal (settings_of settings.now) max_retrans }
    ensures accepted { result ≡ None → server_refusal (settings_of settings.now) ≡ None }
    ensures other { result ≡ None → IsSoundOther (settings_of settings.now) }
    ensures kinds { result ≡ None → IsTrue (are_kinds (kinds_of (settings_of settings.now))) }
    ensures few { result ≡ None → max_retrans ≤ 10 }
{
    match server_refusal(settings) {
        Some(refusal) => Some(refusal),
        None => retry_refusal(max_retrans),
    }
}

/// The first reason, in the order of [`Refusal`], for which these settings give a server no user: of them the size, the
/// other end's name and the keys are looked at.
#[tactic(auto, using(crate::proofs::Taken::user_other), unfolding(crate::specs::Refusals::user_refusal))]
pub fn user_refusal(settings: &Settings) -> Option<Refusal>
    ensures refused { result ≡ user_refusal (settings_of settings.now) }
    ensures other { result ≡ None → IsSoundOther (settings_of settings.now) }
{
    if has_bad_size(settings) {
        Some(Refusal::BadSize)
    } else if !is_name(settings.other) {
        Some(Refusal::BadOther)
    } else if !has_keys(&[], settings) || keyed_kinds(settings).is_empty() {
        Some(Refusal::BadKey)
    } else {
        None
    }
}
