//! The settings of a port, and where it rests.

/// AuthControlledPortControl (IEEE 802.1X-2004 clause 8.2.2.2).
#[derive(Clone, Copy, PartialEq, Eq, Debug)]
pub enum PortControl {
    /// The port is open behind a station that has logged in.
    Auto,
    /// The port is open.
    ForceAuthorized,
    /// The port is shut.
    ForceUnauthorized,
}

/// The times and the bound of a port. The standard's defaults are in brackets.
#[derive(Clone, Copy, Debug)]
pub struct PortLimits {
    /// quietPeriod: the seconds in HELD (60).
    pub quiet_period: u32,
    /// serverTimeout: the seconds for which an answer of the server is waited for (30).
    pub server_timeout: u32,
    /// The seconds after which a Request is sent again (3; RFC 3748 section 4.3).
    pub retrans_period: u32,
    /// reAuthPeriod: the seconds after which a station logs in again (3,600); 0: never.
    pub re_auth_period: u32,
    /// reAuthMax: the rounds of a login that don't shut the port (2).
    pub re_auth_max: u8,
}

/// Where a port rests between two calls.
#[derive(Clone, Copy, PartialEq, Eq, Debug)]
pub enum Phase {
    /// There is no link: INITIALIZE.
    Down,
    /// AUTHENTICATING: the station or the server is waited for.
    Authenticating,
    /// AUTHENTICATED: the station has logged in.
    Authenticated,
    /// HELD: a login failed, and all that the station sends is discarded for quietPeriod.
    Held,
    /// FORCE_AUTH.
    ForceAuth,
    /// FORCE_UNAUTH.
    ForceUnauth,
}
