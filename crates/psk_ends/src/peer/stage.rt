//! The state of a peer of EAP-PSK.

ghost use Rattle.std.specs.Prelude.{◌≡◌, length};
ghost use Rattle.eap_method.specs.PskPeer.{unset, fresh};
ghost use Rattle.psk_ends.specs.PeerStage.{successful};

use crate::peer::login::{Keys, Login};
use eap_method::{Credential, PeerSide};
use octet_lists::Nonce;
use std::marker::Model;

/// How far a peer with a login is.
#[derive(Drop)]
pub enum Phase {
    /// It has sent PSK-2, and awaits PSK-3.
    Wait,
    /// It has sent PSK-4, and accepts nothing more.
    Over { good: bool },
}

/// What a login adds to what a peer brings into it, its server's name apart.
#[derive(Drop)]
pub struct Added {
    /// RAND_S.
    pub rand_s: [u8; 16],
    pub keys: Keys,
}

/// How far a peer is.
#[derive(Drop)]
pub enum Progress {
    /// It hasn't begun.
    Unset,
    /// It has begun, and awaits PSK-1.
    Fresh,
    /// It has accepted PSK-1.
    Known { added: Added, phase: Phase },
}

/// The state of a peer of EAP-PSK. A login adds to it what is new, so that nothing of it is moved. Contracts see it as its
/// definition says it.
#[derive(Drop)]
pub struct Stage {
    pub(crate) side: PeerSide,
    /// Its first 16 octets are RAND_P.
    pub(crate) nonce: Nonce,
    pub(crate) progress: Progress,
}

impl Model for Stage {
    ghost use Rattle.eap_method.specs.PskPeer.{View};
    ghost use Rattle.psk_ends.specs.PeerStage.{view_in, IsReady};

    ghost Value = { View };

    ghost view = { λ s. view_in s.side s.nonce s.progress };

    ghost invariant = { λ s. IsReady s.side s.nonce s.progress };
}

impl Stage {
    /// That of a peer that hasn't begun.
    pub fn new() -> Stage
        ensures { result ≡ unset }
    {
        Stage {
            side: PeerSide::new(),
            nonce: [0; 32],
            progress: Progress::Unset,
        }
    }

    /// The login, if it has succeeded.
    pub fn successful(&self) -> Option<Login<'_>>
        ensures { result ≡ successful self.now }
    {
        match &self.progress {
            Progress::Known {
                added,
                phase: Phase::Over { good: true },
            } => Some(Login {
                side: &self.side,
                nonce: &self.nonce,
                added,
            }),
            _ => None,
        }
    }

    /// The peer begins, whatever it was before.
    pub fn start(&mut self, cred: &Credential, nonce: &Nonce)
        requires { length cred.now.psk ≡ 16 }
        ensures { self.new ≡ fresh cred.now nonce.now }
    {
        self.side.set(cred);
        self.nonce = *nonce;
        self.progress = Progress::Fresh;
    }
}
