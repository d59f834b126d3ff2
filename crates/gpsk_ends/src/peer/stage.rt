//! The state of a peer of EAP-GPSK.

ghost use Rattle.std.specs.Prelude.{◌≡◌, ◌≤◌, length};
ghost use Rattle.eap_method.specs.GpskPeer.{unset, fresh};
ghost use Rattle.gpsk_ends.specs.PeerStage.{successful};

use crate::keys::Keys;
use crate::peer::login::Login;
use eap_method::{Credential, PeerSide};
use octet_lists::Nonce;
use std::marker::Model;

/// The state of a peer in a login.
#[derive(Drop)]
pub enum Phase {
    /// It has sent GPSK-2, and awaits GPSK-3.
    Wait,
    /// Its login is over, with success if `good`.
    Over { good: bool },
}

/// What a login adds to what a peer brings into it, its server's name apart.
#[derive(Drop)]
pub struct Added {
    /// RAND_Server.
    pub rand_s: Nonce,
    pub keys: Keys,
}

/// How far a peer is (RFC 5433 section 3).
#[derive(Drop)]
pub enum Progress {
    /// It has not begun.
    Unset,
    /// It has begun, and awaits GPSK-1.
    Fresh,
    /// It has accepted GPSK-1.
    Known { added: Added, phase: Phase },
}

/// The state of a peer. A login adds to it what is new, so that nothing of it is moved. Contracts see it as its definition
/// says it.
#[derive(Drop)]
pub struct Stage {
    pub(crate) side: PeerSide,
    /// RAND_Peer.
    pub(crate) nonce: Nonce,
    pub(crate) progress: Progress,
}

impl Model for Stage {
    ghost use Rattle.eap_method.specs.GpskPeer.{View};
    ghost use Rattle.gpsk_ends.specs.PeerStage.{view_of, IsReady};

    ghost Value = { View };

    ghost view = { λ s. view_of s.side s.nonce s.progress };

    ghost invariant = { λ s. IsReady s.side s.nonce s.progress };
}

impl Stage {
    /// That of a peer that has not begun.
    pub fn new() -> Stage
        ensures { result ≡ unset }
    {
        Stage {
            side: PeerSide::new(),
            nonce: [0; 32],
            progress: Progress::Unset,
        }
    }

    /// The login, if it has succeeded.
    pub fn successful(&self) -> Option<Login<'_>>
        ensures { result ≡ successful self.now }
    {
        match &self.progress {
            Progress::Known {
                added,
                phase: Phase::Over { good: true },
            } => Some(Login {
                side: &self.side,
                nonce: &self.nonce,
                added,
            }),
            _ => None,
        }
    }

    /// The peer begins, whatever it was before.
    pub fn start(&mut self, cred: &Credential, nonce: &Nonce)
        requires { 32 ≤ length cred.now.psk }
        ensures { self.new ≡ fresh cred.now nonce.now }
    {
        self.side.set(cred);
        self.nonce = *nonce;
        self.progress = Progress::Fresh;
    }
}
