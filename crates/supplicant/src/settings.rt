//! What a supplicant is set to, and where it rests.

/// The timers and counts of the supplicant (IEEE 802.1X-2004 clauses 8.2.11.1 and 8.2.12.1). A timer of 0 ends with the first
/// second.
#[derive(Clone, Copy, PartialEq, Eq, Debug)]
pub struct Limits {
    /// startPeriod, in seconds: the standard's default is 30.
    pub start_period: u32,
    /// maxStart: how many EAPOL-Starts go unanswered; the standard's default is 3.
    pub max_start: u32,
    /// authPeriod, in seconds: how long the authenticator may be silent amid a login; the standard's default is 30.
    pub auth_period: u32,
    /// heldPeriod, in seconds: how long after a failure a new login begins; the standard's default is 60.
    pub held_period: u32,
    /// portValid where no authenticator answers: after maxStart EAPOL-Starts the port is AUTHENTICATED **without any login**, as
    /// the standard has it. False: it is HELD.
    pub port_valid: bool,
}

/// suppPortControl (clause 8.2.11.1).
#[derive(Clone, Copy, PartialEq, Eq, Debug)]
pub enum Control {
    Auto,
    ForceAuthorized,
    ForceUnauthorized,
}

/// The states of the Supplicant PAE (clause 8.2.11) in which it rests between two calls.
#[derive(Clone, Copy, PartialEq, Eq, Debug)]
pub enum PaeState {
    /// DISCONNECTED: there is no link.
    Disconnected,
    Logoff,
    Connecting,
    Authenticating,
    Authenticated,
    Held,
    /// S_FORCE_AUTH
    ForceAuth,
    /// S_FORCE_UNAUTH
    ForceUnauth,
}
