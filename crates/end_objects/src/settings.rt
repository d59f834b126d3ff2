//! The settings of an end, as a program gives them: octets and numbers.

ghost use Rattle.std.specs.Prelude.{◌≡◌, ◌≤◌, [], length, map, true, None, All, IsTrue};
ghost use Rattle.octet_lists.specs.Among.{is_among, is_kind};
ghost use Rattle.octet_lists.specs.Sizes.{max_name};
ghost use Rattle.login_setup.specs.Setup.{are_kinds, has_valid_key, is_valid_for};
ghost use Rattle.login_setup.specs.Setup.{IsSoundPeer, HasKeys, IsSoundServer};
ghost use Rattle.end_objects.specs.Settings.{settings_of, or_else, numbers_of, keyed_kinds};
ghost use Rattle.end_objects.specs.Settings.{named_kinds, kinds_of, first_kind, suites_of, key_for};
ghost use Rattle.end_objects.specs.Settings.{key_or_none, accepts_of, peer_setup_of, user_with};
ghost use Rattle.end_objects.specs.Settings.{users_of, server_setup_of, credential_of, side_of};
ghost use Rattle.end_objects.specs.Refusals.{peer_refusal, server_refusal, IsSoundOther};

use eap_method::{Credential, ServerSide};
use login_setup::{Accepts, PeerSetup, ServerSetup, User, UserList};
use octet_lists::{GPSK_KIND, Identity, Kinds, Nonce, Octets, PSK_KIND, Secret, Suites};

/// The octets of [`Settings`] on 64 bits.
pub const SETTINGS_SIZE: usize = 80;

/// The most users that settings give a server: its other end, once for each of the two methods.
pub const MAX_OTHERS: usize = 2;

/// The users that settings give a server.
pub type OtherUsers = UserList<MAX_OTHERS>;

/// The methods that there are: those of an end whose settings name none and have no key.
const ALL_KINDS: [u8; 2] = [GPSK_KIND, PSK_KIND];

/// The configuration of an end: its own name, and of the other end the name and the keys that both share. A field
/// that is 0, or has no octets, has its default. Nothing is read from a slice without octets.
#[repr(C)]
pub struct Settings<'a> {
    /// [`SETTINGS_SIZE`]. A caller that knows another struct has another number here.
    pub size: usize,
    /// The end's own name, of 1 to 253 octets.
    pub name: &'a [u8],
    /// The other end's name, of at most 253 octets. At a peer the one server that it accepts, and any if there are
    /// none; at a server its one user, and no user if there are none.
    pub other: &'a [u8],
    /// The key for EAP-PSK, of 16 octets, or none.
    pub psk_key: &'a [u8],
    /// The key for EAP-GPSK, of 32 to 64 octets, or none.
    pub gpsk_key: &'a [u8],
    /// The methods in their order, 47 (EAP-PSK) or 51 (EAP-GPSK), each at most once, with zeros behind them. If
    /// there are none: those for which there is a key, EAP-GPSK first, or both if there is no key.
    pub methods: [u8; 2],
    /// The suites of EAP-GPSK in their order, 1 or 2, each at most once, with zeros behind them. If there are none:
    /// 1, then 2.
    pub suites: [u8; 2],
    /// 1 if the end reads Expanded Types (RFC 3748 section 5.7); any number but 0 is taken as 1.
    pub expanded: u8,
    /// 1 if a server refuses its user by a protected failure; any number but 0 is taken as 1.
    pub barred: u8,
}

/// The numbers of a field: those before its first 0.
fn listed(field: &[u8; 2]) -> Octets<2>
    ensures { result ≡ numbers_of field.now }
{
    let [first, second] = *field;
    if first == 0 {
        Octets::new()
    } else if second == 0 {
        Octets::of(&[first])
    } else {
        Octets::of(&[first, second])
    }
}

/// These numbers or, if there are none, others.
fn or_else(numbers: Octets<2>, others: &[u8]) -> Octets<2>
    requires { length others.now ≤ 2 }
    ensures { result ≡ or_else numbers others.now }
{
    if numbers.is_empty() {
        Octets::of(others)
    } else {
        numbers
    }
}

/// The methods for which there is a key, EAP-GPSK first.
#[tactic(auto, unfolding(crate::specs::Settings::keyed_kinds))]
pub fn keyed_kinds(settings: &Settings) -> Kinds
    ensures { result ≡ keyed_kinds (settings_of settings.now) }
{
    match (settings.gpsk_key, settings.psk_key) {
        ([], []) => Kinds::new(),
        ([], [_, ..]) => Kinds::of(&[PSK_KIND]),
        ([_, ..], []) => Kinds::of(&[GPSK_KIND]),
        ([_, ..], [_, ..]) => Kinds::of(&[GPSK_KIND, PSK_KIND]),
    }
}

/// The methods that the settings name or, if they name none, those for which there is a key.
#[tactic(auto, unfolding(crate::specs::Settings::named_kinds))]
pub(crate) fn named_kinds(settings: &Settings) -> Kinds
    ensures { result ≡ named_kinds (settings_of settings.now) }
{
    let keyed = keyed_kinds(settings);
    or_else(listed(&settings.methods), keyed.as_slice())
}

/// The methods of an end, in their order: those that its settings name, else those for which there is a key,
/// EAP-GPSK first, else both.
#[tactic(auto, unfolding(crate::specs::Settings::kinds_of))]
pub fn kinds_of(settings: &Settings) -> Kinds
    ensures { result ≡ kinds_of (settings_of settings.now) }
{
    or_else(named_kinds(settings), &ALL_KINDS)
}

/// The method of an end that has one alone: the first.
#[tactic(auto, using(crate::proofs::Taken::kinds_are_some, crate::proofs::Taken::first_is_kind))]
pub fn first_kind(settings: &Settings) -> u8
    requires kinds { IsTrue (are_kinds (kinds_of (settings_of settings.now))) }
    ensures first { result ≡ first_kind (settings_of settings.now) }
    ensures kind { is_kind result ≡ true }
{
    let kinds = kinds_of(settings);
    kinds.as_slice()[0]
}

/// The suites of EAP-GPSK, in their order: those that the settings name, else 1 and 2.
#[tactic(auto, unfolding(crate::specs::Settings::suites_of))]
pub fn suites_of(settings: &Settings) -> Suites
    ensures { result ≡ suites_of (settings_of settings.now) }
{
    or_else(listed(&settings.suites), &[1, 2])
}

/// The octets of the key for this method.
pub fn key_for<'a>(settings: &Settings<'a>, kind: u8) -> &'a [u8]
    ensures { result.now ≡ key_for (settings_of settings.now) kind }
{
    if kind == PSK_KIND {
        settings.psk_key
    } else {
        settings.gpsk_key
    }
}

/// A key of these octets, or none if there are none.
fn key_or_none(octets: &[u8]) -> Option<Secret>
    requires { length octets.now ≤ 64 }
    ensures { result ≡ key_or_none octets.now }
{
    match octets {
        [] => None,
        [_, ..] => Some(Secret::of(octets)),
    }
}

/// A server of this name alone, or any if it is empty.
fn accepts(server: &[u8]) -> Accepts
    requires { length server.now ≤ max_name }
    ensures { result ≡ accepts_of server.now }
{
    match server {
        [] => Accepts::Any,
        [_, ..] => Accepts::One(Identity::of(server)),
    }
}

/// The settings of a peer.
pub fn peer_setup(settings: &Settings, nonce: &Nonce) -> PeerSetup
    requires accepted { peer_refusal (settings_of settings.now) ≡ None }
    ensures computed { result ≡ peer_setup_of (settings_of settings.now) nonce.now }
    ensures sound { IsSoundPeer result }
    ensures keys { HasKeys result }
{
    peer_setup_from(settings, nonce)
}

/// The settings of a peer, whose octets have the sizes that they may have.
#[tactic(auto, unfolding(crate::specs::Settings::peer_setup_of))]
fn peer_setup_from(settings: &Settings, nonce: &Nonce) -> PeerSetup
    requires name { length settings.now.name.now ≤ max_name }
    requires other { length settings.now.other.now ≤ max_name }
    requires psk { length settings.now.psk_key.now ≤ 64 }
    requires gpsk { length settings.now.gpsk_key.now ≤ 64 }
    ensures { result ≡ peer_setup_of (settings_of settings.now) nonce.now }
{
    PeerSetup {
        name: Identity::of(settings.name),
        accepts: accepts(settings.other),
        methods: kinds_of(settings),
        suites: suites_of(settings),
        psk47: key_or_none(settings.psk_key),
        psk51: key_or_none(settings.gpsk_key),
        nonce: *nonce,
        expanded: settings.expanded != 0,
    }
}

/// The other end as a user of this method, for which there is a key.
#[tactic(auto, using(crate::proofs::Taken::user_is_known))]
#[inline(never)]
pub fn user_of(settings: &Settings, kind: u8) -> User
    requires other { IsSoundOther (settings_of settings.now) }
    requires keyed { is_among (keyed_kinds (settings_of settings.now)) kind ≡ true }
    ensures computed { result ≡ user_with (settings_of settings.now) kind }
    ensures kind { is_kind kind ≡ true }
    ensures key { is_valid_for kind (key_for (settings_of settings.now) kind) ≡ true }
{
    User {
        name: Identity::of(settings.other),
        kind,
        psk: Secret::of(key_for(settings, kind)),
        barred: settings.barred != 0,
    }
}

/// Adds the other end as a user of each method for which there is a key, if there are no users.
#[tactic(auto, unfolding(crate::specs::Settings::keyed_kinds))]
fn add_keyed(users: &mut OtherUsers, settings: &Settings)
    requires none { users.old ≡ [] }
    requires other { IsSoundOther (settings_of settings.now) }
    ensures { users.new
        ≡ map (user_with (settings_of settings.now)) (keyed_kinds (settings_of settings.now)) }
{
    match (settings.gpsk_key, settings.psk_key) {
        ([], []) => {}
        ([], [_, ..]) => {
            users.add(user_of(settings, PSK_KIND));
        }
        ([_, ..], []) => {
            users.add(user_of(settings, GPSK_KIND));
        }
        ([_, ..], [_, ..]) => {
            users.add(user_of(settings, GPSK_KIND));
            users.add(user_of(settings, PSK_KIND));
        }
    }
}

/// Adds the users that the settings give, if there are none.
#[tactic(auto, unfolding(crate::specs::Settings::users_of))]
fn add_other(users: &mut OtherUsers, settings: &Settings)
    requires none { users.old ≡ [] }
    requires other { IsSoundOther (settings_of settings.now) }
    ensures { users.new ≡ users_of (settings_of settings.now) }
{
    match settings.other {
        [] => {}
        [_, ..] => add_keyed(users, settings),
    }
}

/// Adds the users of a server to none: the other end, once for each method for which there is a key, that of EAP-GPSK
/// first; none if the settings name no other end.
#[tactic(auto, using(crate::proofs::Taken::users_have_kinds, crate::proofs::Taken::users_have_keys))]
pub fn add_users(users: &mut OtherUsers, settings: &Settings)
    requires none { users.old ≡ [] }
    requires other { IsSoundOther (settings_of settings.now) }
    ensures computed { users.new ≡ users_of (settings_of settings.now) }
    ensures kinds { All (λ user. IsTrue (is_kind user.kind)) users.new }
    ensures keys { All (λ user. IsTrue (has_valid_key user)) users.new }
{
    add_other(users, settings);
}

/// The settings of a server, but for its users: none.
#[inline(always)]
pub fn server_alone(settings: &Settings, nonce: &Nonce) -> ServerSetup<OtherUsers>
    requires accepted { server_refusal (settings_of settings.now) ≡ None }
    ensures computed { result
        ≡ record (server_setup_of (settings_of settings.now) nonce.now) { users = [] } }
    ensures sound { IsSoundServer result }
{
    ServerSetup {
        name: Identity::of(settings.name),
        methods: kinds_of(settings),
        suites: suites_of(settings),
        users: UserList::new(),
        nonce: *nonce,
        expanded: settings.expanded != 0,
    }
}

/// What a peer brings into its first method, for a method alone.
#[tactic(auto, using(crate::proofs::Taken::peer_kinds), unfolding(crate::specs::Settings::credential_of))]
pub fn credential(settings: &Settings) -> Credential
    requires accepted { peer_refusal (settings_of settings.now) ≡ None }
    ensures computed { result ≡ credential_of (settings_of settings.now) }
    ensures key { IsTrue (is_valid_for (first_kind (settings_of settings.now)) result.psk) }
{
    Credential {
        id_p: Identity::of(settings.name),
        accepts: accepts(settings.other),
        suites: suites_of(settings),
        psk: Secret::of(key_for(settings, first_kind(settings))),
    }
}

/// What a server brings into a method, its users apart.
#[tactic(auto, unfolding(crate::specs::Settings::side_of))]
pub fn server_side(settings: &Settings) -> ServerSide
    requires accepted { server_refusal (settings_of settings.now) ≡ None }
    ensures { result ≡ side_of (settings_of settings.now) }
{
    ServerSide {
        id_s: Identity::of(settings.name),
        suites: suites_of(settings),
    }
}
