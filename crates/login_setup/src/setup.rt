//! The settings of a run: what each end is configured with before it begins.

ghost use Rattle.std.specs.Prelude.{◌≡◌, option_copied};
ghost use Rattle.login_setup.specs.Setup.{accepts_name, key_of, has_key, has_keys, no_later};

use crate::nonces::Nonces;
use crate::users::{UserList, Users};
use octet_lists::{GPSK_KIND, Identity, Kinds, Nonce, PSK_KIND, Secret, Suites};

/// Whether the server answers by itself, or behind a pass-through authenticator.
#[derive(Clone, Copy, PartialEq, Eq, Debug)]
pub enum Mode {
    Alone,
    Through,
}

/// A machine of a run: the peer, the pass-through authenticator, the server (or backend).
#[derive(Clone, Copy, PartialEq, Eq, Debug)]
pub enum Party {
    Peer,
    Pass,
    Server,
}

/// The port at which a packet is delivered: the peer, the server (or backend), or one of the two
/// sides of the pass-through.
#[derive(Clone, Copy, PartialEq, Eq, Debug)]
pub enum Port {
    Peer,
    Server,
    PassPeer,
    PassServer,
}

/// Which server names a peer accepts.
#[derive(Drop, Debug)]
pub enum Accepts {
    /// Every name.
    Any,
    /// This name alone.
    One(Identity),
}

impl Accepts {
    /// Whether the peer accepts a server of this name.
    pub fn allows(&self, name: &[u8]) -> bool
        ensures { result ≡ accepts_name self.now name.now }
    {
        match self {
            Accepts::Any => true,
            Accepts::One(accepted) => accepted.as_slice() == name,
        }
    }

    /// An equal value.
    pub fn copy(&self) -> Accepts
        ensures { result ≡ self.now }
    {
        match self {
            Accepts::Any => Accepts::Any,
            Accepts::One(name) => Accepts::One(name.copy()),
        }
    }
}

/// The settings of a peer.
#[derive(Drop)]
pub struct PeerSetup {
    /// The peer's name, of 1 to 253 octets.
    pub name: Identity,
    /// The server names that it accepts.
    pub accepts: Accepts,
    /// The methods that it allows, each at most once: 47 (EAP-PSK), 51 (EAP-GPSK), or the Type of a maker's (RFC 3748
    /// section 5: 4 to 253, or 255).
    pub methods: Kinds,
    /// The EAP-GPSK suites that it allows, 1 or 2, each at most once.
    pub suites: Suites,
    /// Its key for EAP-PSK, of 16 octets.
    pub psk47: Option<Secret>,
    /// Its key for EAP-GPSK, of 32 to 64 octets.
    pub psk51: Option<Secret>,
    /// The octets from which its nonce is taken.
    pub nonce: Nonce,
    /// Whether it reads Expanded Types (RFC 3748 section 5.7).
    pub expanded: bool,
}

impl PeerSetup {
    /// The key for this method, or None if there is none.
    pub fn key(&self, kind: u8) -> Option<&Secret>
        ensures { option_copied result ≡ key_of self.now kind }
    {
        if kind == PSK_KIND {
            self.psk47.as_ref()
        } else if kind == GPSK_KIND {
            self.psk51.as_ref()
        } else {
            None
        }
    }

    /// True if it has a key for each of the two methods that it allows.
    pub fn has_keys(&self) -> bool
        ensures { result ≡ has_keys self.now }
    {
        self.methods
            .as_slice()
            .iter()
            .all(|kind| self.has_key(*kind))
    }

    /// True if it has the key that the method takes of its settings; one of a maker brings its own.
    fn has_key(&self, kind: u8) -> bool
        ensures { result ≡ has_key self.now kind }
    {
        (kind != PSK_KIND && kind != GPSK_KIND) || self.key(kind).is_some()
    }

    /// An equal value.
    pub fn copy(&self) -> PeerSetup
        ensures { result ≡ self.now }
    {
        PeerSetup {
            name: self.name.copy(),
            accepts: self.accepts.copy(),
            methods: self.methods.copy(),
            suites: self.suites.copy(),
            psk47: self.psk47.as_ref().map(|key| key.copy()),
            psk51: self.psk51.as_ref().map(|key| key.copy()),
            nonce: self.nonce,
            expanded: self.expanded,
        }
    }
}

/// The settings of a server. Its users are [`Users`], or a [`UserList`] with room for fewer.
#[derive(Drop)]
pub struct ServerSetup<U = Users> {
    /// The server's name, of 1 to 253 octets.
    pub name: Identity,
    /// The methods that it proposes, in this order, each at most once: 47 (EAP-PSK), 51 (EAP-GPSK), or the Type of a
    /// maker's.
    pub methods: Kinds,
    /// The EAP-GPSK suites that it offers, in this order: 1 or 2, each at most once.
    pub suites: Suites,
    /// The octets from which its nonce is taken.
    pub nonce: Nonce,
    /// Whether it reads Expanded Types (RFC 3748 section 5.7).
    pub expanded: bool,
    // (what has no fixed size is last: the places of the others are then numbers)
    /// The users that it knows.
    pub users: U,
}

impl<const N: usize> ServerSetup<UserList<N>> {
    /// An equal value.
    pub fn copy(&self) -> ServerSetup<UserList<N>>
        ensures { result ≡ self.now }
    {
        ServerSetup {
            name: self.name.copy(),
            methods: self.methods.copy(),
            suites: self.suites.copy(),
            users: self.users.copy(),
            nonce: self.nonce,
            expanded: self.expanded,
        }
    }
}

/// What a scenario says of later conversations.
#[derive(Drop)]
pub struct Later {
    /// The version of the scenario's text, from 1 on.
    pub version: u8,
    /// The nonces with which the peer begins its conversations after the first.
    pub peer: Nonces,
    /// The same of the server.
    pub server: Nonces,
}

impl Later {
    /// No later conversations, as a scenario of version 1 has them.
    pub fn none() -> Later
        ensures { result ≡ no_later }
    {
        Later {
            version: 1,
            peer: Nonces::new(),
            server: Nonces::new(),
        }
    }

    /// An equal value.
    pub fn copy(&self) -> Later
        ensures { result ≡ self.now }
    {
        Later {
            version: self.version,
            peer: self.peer.copy(),
            server: self.server.copy(),
        }
    }
}

/// The settings of a run.
#[derive(Drop)]
pub struct Setup {
    pub mode: Mode,
    /// The Identifier of the first Request.
    pub first_id: u8,
    /// MaxRetrans of RFC 4137: how often a Request is sent again, 0 to 10.
    pub max_retrans: u8,
    pub peer: PeerSetup,
    pub server: ServerSetup,
    pub later: Later,
}

impl Setup {
    /// An equal value.
    pub fn copy(&self) -> Setup
        ensures { result ≡ self.now }
    {
        Setup {
            mode: self.mode,
            first_id: self.first_id,
            max_retrans: self.max_retrans,
            peer: self.peer.copy(),
            server: self.server.copy(),
            later: self.later.copy(),
        }
    }
}
