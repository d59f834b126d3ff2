//! The settings of a scenario that have been read so far.

ghost use Rattle.std.specs.Prelude.{◌≡◌, ◌==◌, ◌∷◌, [], unwrap_or, is_err, is_some, if◌then◌else◌};
ghost use Rattle.std.specs.Prelude.{None, true};
ghost use Rattle.std.specs.List.{list_all};
ghost use Rattle.octet_lists.specs.Among.{psk_kind, gpsk_kind, is_kind};
ghost use Rattle.scenario_text.specs.Reading.{no_settings, is_full, with_later, with_nonce};
ghost use Rattle.scenario_text.specs.Reading.{has_setting, with_setting, both_suites};
ghost use Rattle.scenario_text.specs.Reading.{later_nonces, later_of, peer_setup_of};
ghost use Rattle.scenario_text.specs.Reading.{server_setup_of, setup_of, is_crowded};

use crate::entry::Setting;
use crate::keyword::Keyword;
use crate::version::Version;
use login_setup::{Accepts, Later, MAX_USERS, Mode, Nonces, PeerSetup, ServerSetup, Setup, Users};
use octet_lists::{GPSK_KIND, Identity, Kinds, Nonce, PSK_KIND, Secret, Suites};
use text_tables::{LineFault, add_user};

/// The nonces of an end that have come, at most 16.
#[derive(Drop)]
pub struct GivenNonces {
    /// The nonce of its first conversation.
    pub first: Nonce,
    /// Those of its later conversations, in their order.
    pub later: Nonces,
}

/// The settings so far; each is None until it has come.
#[derive(Drop)]
pub struct Settings {
    /// The version of the text.
    pub version: Version,
    pub mode: Option<Mode>,
    pub first_id: Option<u8>,
    pub max_retrans: Option<u8>,
    pub peer_name: Option<Identity>,
    pub peer_server: Option<Accepts>,
    pub peer_methods: Option<Kinds>,
    pub peer_suites: Option<Suites>,
    pub peer_psk47: Option<Secret>,
    pub peer_psk51: Option<Secret>,
    pub peer_nonces: Option<GivenNonces>,
    pub peer_expanded: Option<bool>,
    pub server_name: Option<Identity>,
    pub server_methods: Option<Kinds>,
    pub server_suites: Option<Suites>,
    pub server_nonces: Option<GivenNonces>,
    pub server_expanded: Option<bool>,
    pub users: Users,
}

impl Settings {
    /// No settings.
    pub fn new() -> Settings
        ensures { result ≡ no_settings }
    {
        Settings {
            version: Version::First,
            mode: None,
            first_id: None,
            max_retrans: None,
            peer_name: None,
            peer_server: None,
            peer_methods: None,
            peer_suites: None,
            peer_psk47: None,
            peer_psk51: None,
            peer_nonces: None,
            peer_expanded: None,
            server_name: None,
            server_methods: None,
            server_suites: None,
            server_nonces: None,
            server_expanded: None,
            users: Users::new(),
        }
    }

    /// True if the line gives a user and 16 are there, or in the second version a nonce of an end that has 16.
    pub fn is_crowded(&self, keyword: Keyword) -> bool
        ensures { result ≡ is_crowded self.now keyword }
    {
        match keyword {
            Keyword::User => self.users.as_slice().len() >= MAX_USERS,
            Keyword::PeerNonce => self.version.has_later() && is_full(&self.peer_nonces),
            Keyword::ServerNonce => self.version.has_later() && is_full(&self.server_nonces),
            _ => false,
        }
    }

    /// True if a needed setting has not come.
    #[tactic(auto, unfolding(crate::specs::Reading::setup_of))]
    pub fn lacks_some(&self) -> bool
        ensures { result ≡ is_err (setup_of self.now) }
    {
        self.mode.is_none() || self.lacks_of_peer() || self.lacks_of_server()
    }

    /// True if a setting that the peer needs has not come.
    #[tactic(auto, unfolding(crate::specs::Reading::peer_setup_of))]
    fn lacks_of_peer(&self) -> bool
        ensures { result ≡ is_err (peer_setup_of self.now) }
    {
        if self.peer_name.is_none() || self.peer_server.is_none() || self.peer_nonces.is_none() {
            return true;
        }
        match &self.peer_methods {
            None => true,
            Some(methods) => {
                if self.has_each(methods.as_slice()) {
                    false
                } else {
                    true
                }
            }
        }
    }

    /// True if the key for each of these methods has come.
    fn has_each(&self, kinds: &[u8]) -> bool
        ensures { result ≡ list_all (λ kind. if is_kind kind then is_some (if kind == psk_kind
            then self.now.peer_psk47 else if kind == gpsk_kind then self.now.peer_psk51 else None)
            else true) kinds.now }
    {
        kinds.iter().all(|kind| self.has_key(*kind))
    }

    /// True if the key for this method has come, or it is none of the two.
    fn has_key(&self, kind: u8) -> bool
        ensures { result ≡ (if is_kind kind then is_some (if kind == psk_kind
            then self.now.peer_psk47 else if kind == gpsk_kind then self.now.peer_psk51 else None)
            else true) }
    {
        match kind {
            PSK_KIND => self.peer_psk47.is_some(),
            GPSK_KIND => self.peer_psk51.is_some(),
            _ => true,
        }
    }

    /// True if a setting that the server needs has not come.
    #[tactic(auto, unfolding(crate::specs::Reading::server_setup_of))]
    fn lacks_of_server(&self) -> bool
        ensures { result ≡ is_err (server_setup_of self.now) }
    {
        self.server_name.is_none() || self.server_methods.is_none() || self.server_nonces.is_none()
    }

    /// True if the setting has come before.
    pub fn has(&self, setting: &Setting) -> bool
        ensures { result ≡ has_setting self.now setting.now }
    {
        match setting {
            Setting::Mode(_) => self.mode.is_some(),
            Setting::FirstId(_) => self.first_id.is_some(),
            Setting::MaxRetrans(_) => self.max_retrans.is_some(),
            Setting::PeerName(_) => self.peer_name.is_some(),
            Setting::PeerServer(_) => self.peer_server.is_some(),
            Setting::PeerMethods(_) => self.peer_methods.is_some(),
            Setting::PeerSuites(_) => self.peer_suites.is_some(),
            Setting::PeerPsk47(_) => self.peer_psk47.is_some(),
            Setting::PeerPsk51(_) => self.peer_psk51.is_some(),
            Setting::PeerNonce(_) => !self.version.has_later() && self.peer_nonces.is_some(),
            Setting::ServerName(_) => self.server_name.is_some(),
            Setting::ServerMethods(_) => self.server_methods.is_some(),
            Setting::ServerSuites(_) => self.server_suites.is_some(),
            Setting::ServerNonce(_) => { !self.version.has_later() && self.server_nonces.is_some() }
            Setting::User(user) => self.users.find(user.name.as_slice(), user.kind).is_some(),
            Setting::PeerExpanded(_) => self.peer_expanded.is_some(),
            Setting::ServerExpanded(_) => self.server_expanded.is_some(),
        }
    }

    /// Adds one more setting.
    pub fn set(&mut self, setting: Setting)
        ensures { self.new ≡ with_setting self.old setting }
    {
        match setting {
            Setting::Mode(mode) => self.mode = Some(mode),
            Setting::FirstId(id) => self.first_id = Some(id),
            Setting::MaxRetrans(count) => self.max_retrans = Some(count),
            Setting::PeerName(name) => self.peer_name = Some(name),
            Setting::PeerServer(accepts) => self.peer_server = Some(accepts),
            Setting::PeerMethods(kinds) => self.peer_methods = Some(kinds),
            Setting::PeerSuites(suites) => self.peer_suites = Some(suites),
            Setting::PeerPsk47(key) => self.peer_psk47 = Some(key),
            Setting::PeerPsk51(key) => self.peer_psk51 = Some(key),
            Setting::PeerNonce(nonce) => add_nonce(self.version, &mut self.peer_nonces, nonce),
            Setting::ServerName(name) => self.server_name = Some(name),
            Setting::ServerMethods(kinds) => self.server_methods = Some(kinds),
            Setting::ServerSuites(suites) => self.server_suites = Some(suites),
            Setting::ServerNonce(nonce) => add_nonce(self.version, &mut self.server_nonces, nonce),
            Setting::User(user) => add_user(&mut self.users, user),
            Setting::PeerExpanded(expanded) => self.peer_expanded = Some(expanded),
            Setting::ServerExpanded(expanded) => self.server_expanded = Some(expanded),
        }
    }

    /// The settings of the run, or `Missing` if a needed one has not come.
    #[tactic(auto, unfolding(crate::specs::Reading::setup_of))]
    pub fn setup(&self) -> Result<Setup, LineFault>
        ensures { result ≡ setup_of self.now }
    {
        Ok(Setup {
            mode: self.mode.ok_or(LineFault::Missing)?,
            first_id: self.first_id.unwrap_or(0),
            max_retrans: self.max_retrans.unwrap_or(4),
            peer: self.peer()?,
            server: self.server()?,
            later: self.later(),
        })
    }

    /// What is said of later conversations.
    fn later(&self) -> Later
        ensures { result ≡ later_of self.now }
    {
        Later {
            version: self.version.number(),
            peer: later_nonces(&self.peer_nonces),
            server: later_nonces(&self.server_nonces),
        }
    }

    /// The settings of the peer, or `Missing` if one that it needs has not come.
    #[tactic(auto, unfolding(crate::specs::Reading::peer_setup_of))]
    pub fn peer(&self) -> Result<PeerSetup, LineFault>
        ensures { result ≡ peer_setup_of self.now }
    {
        let peer = PeerSetup {
            name: self.peer_name.as_ref().ok_or(LineFault::Missing)?.copy(),
            accepts: self.peer_server.as_ref().ok_or(LineFault::Missing)?.copy(),
            methods: self.peer_methods.as_ref().ok_or(LineFault::Missing)?.copy(),
            suites: suites_or_both(&self.peer_suites),
            psk47: self.peer_psk47.as_ref().map(|key| key.copy()),
            psk51: self.peer_psk51.as_ref().map(|key| key.copy()),
            nonce: self.peer_nonces.as_ref().ok_or(LineFault::Missing)?.first,
            expanded: self.peer_expanded.unwrap_or(false),
        };
        if peer.has_keys() {
            Ok(peer)
        } else {
            Err(LineFault::Missing)
        }
    }

    /// The settings of the server, or `Missing` if one that it needs has not come.
    #[tactic(auto, unfolding(crate::specs::Reading::server_setup_of))]
    pub fn server(&self) -> Result<ServerSetup, LineFault>
        ensures { result ≡ server_setup_of self.now }
    {
        let methods = self.server_methods.as_ref().ok_or(LineFault::Missing)?;
        Ok(ServerSetup {
            name: self.server_name.as_ref().ok_or(LineFault::Missing)?.copy(),
            methods: methods.copy(),
            suites: suites_or_both(&self.server_suites),
            users: self.users.copy(),
            nonce: self.server_nonces.as_ref().ok_or(LineFault::Missing)?.first,
            expanded: self.server_expanded.unwrap_or(false),
        })
    }
}

/// True if 16 nonces have come.
fn is_full(slot: &Option<GivenNonces>) -> bool
    ensures { result ≡ is_full slot.now }
{
    match slot {
        None => false,
        Some(given) => given.later.as_slice().len() >= 15,
    }
}

/// Adds a nonce, the first or a later one, unless there are as many as the version has.
fn add_nonce(version: Version, slot: &mut Option<GivenNonces>, nonce: Nonce)
    ensures { slot.new ≡ with_nonce version slot.old nonce }
{
    match slot {
        None => *slot = Some(only(nonce)),
        Some(given) => add_later(version, &mut given.later, nonce),
    }
}

/// A first nonce alone.
fn only(nonce: Nonce) -> GivenNonces
    ensures first { result.first ≡ nonce }
    ensures later { result.later ≡ [] }
{
    GivenNonces {
        first: nonce,
        later: Nonces::new(),
    }
}

/// Adds a nonce of a later conversation, unless there are as many as the version has.
#[tactic(auto, unfolding(crate::specs::Reading::with_later))]
fn add_later(version: Version, later: &mut Nonces, nonce: Nonce)
    ensures { later.new ≡ with_later version later.old nonce }
{
    if later.as_slice().len() < version.most_later() {
        later.push(nonce);
    }
}

/// The nonces of later conversations.
fn later_nonces(slot: &Option<GivenNonces>) -> Nonces
    ensures { result ≡ later_nonces slot.now }
{
    match slot {
        None => Nonces::new(),
        Some(given) => given.later.copy(),
    }
}

/// The suites that were set, or else both.
fn suites_or_both(slot: &Option<Suites>) -> Suites
    ensures { result ≡ unwrap_or slot.now both_suites }
{
    match slot {
        Some(suites) => suites.copy(),
        None => both_suites(),
    }
}

/// Suites 1 and 2, the default.
fn both_suites() -> Suites
    ensures { result ≡ 1 ∷ 2 ∷ [] }
{
    let mut suites = Suites::new();
    suites.push(1);
    suites.push(2);
    suites
}
