//! What an end brings into a method, and what it has after the method.

ghost use Rattle.std.specs.Prelude.{◌≡◌};
ghost use Rattle.eap_method.specs.Reports.{allows_suite};

use crate::peer::PeerMethod;
use crate::server::ServerMethod;
use login_setup::Accepts;
use octet_lists::{GPSK_KIND, Identity, Secret, Suites, is_among};

/// methodState of the peer (RFC 4137 section 4.2); `NotSet` is NONE.
#[derive(Clone, Copy, PartialEq, Eq, Debug)]
pub enum MethodState {
    NotSet,
    Init,
    Cont,
    MayCont,
    Done,
}

/// decision of the peer (RFC 4137 section 4.2).
#[derive(Clone, Copy, PartialEq, Eq, Debug)]
pub enum Decision {
    Fail,
    CondSucc,
    UncondSucc,
}

/// What a peer brings into a method.
#[derive(Drop, Debug)]
pub struct Credential {
    /// The peer's name, ID_P or ID_Peer.
    pub id_p: Identity,
    /// The server names that it accepts.
    pub accepts: Accepts,
    /// The EAP-GPSK suites that it allows, 1 or 2.
    pub suites: Suites,
    /// Its shared key: 16 octets for EAP-PSK, 32 to 64 for EAP-GPSK.
    pub psk: Secret,
}

impl Credential {
    /// An equal value.
    #[inline(never)]
    pub fn copy(&self) -> Credential
        ensures { result ≡ self.now }
    {
        Credential {
            id_p: self.id_p.copy(),
            accepts: self.accepts.copy(),
            suites: self.suites.copy(),
            psk: self.psk.copy(),
        }
    }
}

/// What a server brings into a method, its users apart.
#[derive(Drop, Debug)]
pub struct ServerSide {
    /// The server's name, ID_S or ID_Server.
    pub id_s: Identity,
    /// The EAP-GPSK suites that it offers, 1 or 2, in its order.
    pub suites: Suites,
}

impl ServerSide {
    /// An equal value.
    pub fn copy(&self) -> ServerSide
        ensures { result ≡ self.now }
    {
        ServerSide {
            id_s: self.id_s.copy(),
            suites: self.suites.copy(),
        }
    }
}

/// What an end has after a method that succeeded. `Debug` leaves the keys out.
#[derive(Drop)]
#[derive_where(Debug)]
pub struct Report {
    /// The method: 47 (EAP-PSK), 51 (EAP-GPSK), or the Type of a maker's.
    pub method: u8,
    /// The peer's name.
    pub id_p: Identity,
    /// The server's name.
    pub id_s: Identity,
    /// The suite of EAP-GPSK, 1 or 2; 0 for EAP-PSK.
    pub suite: u8,
    /// The Master Session Key (RFC 3748 section 7.10).
    #[derive_where(skip)]
    pub msk: [u8; 64],
    /// The Extended Master Session Key (RFC 3748 section 7.10).
    #[derive_where(skip)]
    pub emsk: [u8; 64],
}

impl Report {
    /// An equal report.
    pub fn copy(&self) -> Report
        ensures { result ≡ self.now }
    {
        Report {
            method: self.method,
            id_p: self.id_p.copy(),
            id_s: self.id_s.copy(),
            suite: self.suite,
            msk: self.msk,
            emsk: self.emsk,
        }
    }

    /// Whether the suite is among these, which are 1 or 2 (RFC 5433 section 6); true for a method
    /// other than EAP-GPSK, which has none.
    pub fn has_allowed_suite(&self, suites: &[u8]) -> bool
        ensures { result ≡ allows_suite suites.now self.now }
    {
        self.method != GPSK_KIND || is_among(suites, self.suite)
    }
}

/// The objects of both ends' methods.
#[derive(Drop)]
pub struct Methods<P = Box<dyn PeerMethod>, S = Box<dyn ServerMethod>> {
    pub peer: Vec<P>,
    pub server: Vec<S>,
}
