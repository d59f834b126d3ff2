//! What a peer brings into a method, with its server's name.

ghost use Rattle.std.specs.Prelude.{◌≡◌, ◌≤◌, length, true};
ghost use Rattle.octet_lists.specs.Sizes.{max_name};
ghost use Rattle.login_setup.specs.Setup.{accepts_name};
ghost use Rattle.eap_method.specs.PeerSide.{before_login, no_credential};

use crate::values::Credential;
use login_setup::Accepts;
use octet_lists::{Identity, Secret, Suites};
use std::marker::Model;

/// What a peer brings into a method, written where it stays, and the name of its server. The one name that it accepts is its
/// server's, so each is stored once.
#[derive(Drop)]
pub struct PeerSide {
    id_p: Identity,
    /// The server's name; before a login the one that the peer accepts, if it is `named`.
    id_s: Identity,
    /// Whether the peer accepts this name alone.
    named: bool,
    suites: Suites,
    psk: Secret,
}

impl Model for PeerSide {
    ghost use Rattle.eap_method.specs.PeerSide.{Side, accepts_of};

    ghost Value = { Side };

    ghost view = { λ s. record {
      cred = record { id_p = s.id_p; accepts = accepts_of s.named s.id_s; suites = s.suites; psk = s.psk };
      id_s = s.id_s;
    } };
}

impl PeerSide {
    /// No name, no suite and no key.
    pub fn new() -> PeerSide
        ensures { result ≡ before_login no_credential }
    {
        PeerSide {
            id_p: Identity::new(),
            id_s: Identity::new(),
            named: false,
            suites: Suites::new(),
            psk: Secret::new(),
        }
    }

    /// Replaces what was there by a credential; there is no server yet.
    #[inline(never)]
    pub fn set(&mut self, cred: &Credential)
        ensures { self.new ≡ before_login cred.now }
    {
        self.id_p.set(cred.id_p.as_slice());
        self.suites.set(cred.suites.as_slice());
        self.psk.set(cred.psk.as_slice());
        match &cred.accepts {
            Accepts::Any => {
                self.named = false;
                self.id_s.clear();
            }
            Accepts::One(name) => {
                self.named = true;
                self.id_s.set(name.as_slice());
            }
        }
    }

    /// Whether the peer accepts a server of this name.
    pub fn allows(&self, name: &[u8]) -> bool
        ensures { result ≡ accepts_name self.now.cred.accepts name.now }
    {
        !self.named || self.id_s.as_slice() == name
    }

    /// A login with the server of this name, which the peer accepts.
    #[tactic(auto, using(crate::proofs::PeerSides::is_named))]
    pub fn set_server(&mut self, name: &[u8])
        requires size { length name.now ≤ max_name }
        requires accepted { accepts_name self.old.cred.accepts name.now ≡ true }
        ensures { self.new ≡ record { cred = self.old.cred; id_s = name.now } }
    {
        if !self.named {
            self.id_s.set(name);
        }
    }

    /// The peer's name, ID_P or ID_Peer.
    pub fn id_p(&self) -> &Identity
        ensures { result.now ≡ self.now.cred.id_p }
    {
        &self.id_p
    }

    /// The server's name, ID_S or ID_Server, in a login.
    pub fn id_s(&self) -> &Identity
        ensures { result.now ≡ self.now.id_s }
    {
        &self.id_s
    }

    /// The EAP-GPSK suites that the peer allows.
    pub fn suites(&self) -> &Suites
        ensures { result.now ≡ self.now.cred.suites }
    {
        &self.suites
    }

    /// The shared key.
    pub fn psk(&self) -> &Secret
        ensures { result.now ≡ self.now.cred.psk }
    {
        &self.psk
    }
}
