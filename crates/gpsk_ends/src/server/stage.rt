//! The state of a server of EAP-GPSK.

ghost use Rattle.std.specs.Prelude.{◌≡◌};
ghost use Rattle.eap_method.specs.GpskServer.{unset, begun};
ghost use Rattle.gpsk_ends.specs.ServerStage.{successful};

use crate::keys::Keys;
use crate::server::login::{Initial, Login};
use eap_method::ServerSide;
use octet_lists::{Identity, Nonce, Secret};
use std::marker::Model;

/// The state of a server that has no login.
#[derive(Drop)]
pub enum Alone {
    /// It has begun, and made no Request.
    Initial,
    /// It has sent GPSK-1, and awaits GPSK-2.
    Asked,
    /// It has sent GPSK-Fail to a user that it doesn't know, and awaits it back.
    Refusing,
    /// It is over, without a user.
    Refused,
}

/// The state of a server in a login.
#[derive(Drop)]
pub enum Phase {
    /// It has sent GPSK-Protected-Fail to a barred user, and awaits it back.
    Barring,
    /// It has sent GPSK-3, and awaits GPSK-4.
    Checked,
    /// Its login is over, with success if `good`.
    Over { good: bool },
}

/// What a login adds to what a server brings into it.
#[derive(Drop)]
pub struct Added {
    /// ID_Peer.
    pub id_p: Identity,
    /// The user's key.
    pub psk: Secret,
    /// RAND_Peer.
    pub rand_p: Nonce,
    pub keys: Keys,
}

/// How far a server is (RFC 5433 section 3).
#[derive(Drop)]
pub enum Progress {
    /// It has not begun.
    Unset,
    /// It has begun.
    Alone { phase: Alone },
    /// It has accepted GPSK-2.
    Login { added: Added, phase: Phase },
}

/// The state of a server. A login adds to it what is new, so that nothing of it is moved. Contracts see it as its definition
/// says it.
#[derive(Drop)]
pub struct Stage {
    pub(crate) own: Initial,
    pub(crate) progress: Progress,
}

impl Model for Stage {
    ghost use Rattle.eap_method.specs.GpskServer.{View};
    ghost use Rattle.gpsk_ends.specs.ServerStage.{view_of, IsReady};

    ghost Value = { View };

    ghost view = { λ s. view_of s.own s.progress };

    ghost invariant = { λ s. IsReady s.own s.progress };
}

impl Stage {
    /// That of a server that has not begun.
    pub fn new() -> Stage
        ensures { result ≡ unset }
    {
        Stage {
            own: Initial::new(),
            progress: Progress::Unset,
        }
    }

    /// The login, if it has succeeded.
    pub fn successful(&self) -> Option<Login<'_>>
        ensures { result ≡ successful self.now }
    {
        match &self.progress {
            Progress::Login {
                added,
                phase: Phase::Over { good: true },
            } => Some(Login {
                own: &self.own,
                added,
            }),
            _ => None,
        }
    }

    /// The server begins, whatever it was before.
    pub fn start(&mut self, own: &ServerSide, nonce: &Nonce)
        ensures { self.new ≡ begun own.now nonce.now }
    {
        self.own.set(own, nonce);
        let phase = Alone::Initial;
        self.progress = Progress::Alone { phase };
    }
}
