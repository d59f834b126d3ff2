//! The state of a server of EAP-PSK.

use crate::server::login::{Initial, Login};

/// How far a server without a login is.
#[derive(Drop)]
pub enum EarlyPhase {
    /// It has made no Request.
    Initial,
    /// It has sent PSK-1, and awaits PSK-2.
    Asked,
    /// It doesn't know the user, and accepts nothing more.
    Refused,
}

/// How far a server with a login is.
#[derive(Drop)]
pub enum KnownPhase {
    /// It has sent PSK-3, and awaits PSK-4.
    Checked,
    /// It has accepted PSK-4, and accepts nothing more.
    Over { success: bool },
}

/// The state of a server of EAP-PSK.
#[derive(Drop)]
pub enum Stage {
    /// It hasn't begun.
    Unset,
    /// It has begun, and has accepted no PSK-2.
    Early { own: Initial, phase: EarlyPhase },
    /// It has accepted PSK-2.
    Known { login: Login, phase: KnownPhase },
}
