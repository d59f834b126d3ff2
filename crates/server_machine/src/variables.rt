//! The server's variables.

use eap_packet::State;
use login_setup::{ServerSetup, Users};
use octet_lists::{Kinds, Packet};

/// methodState of the server (RFC 4137 section 5.3.1).
#[derive(Clone, Copy, PartialEq, Eq, Debug)]
pub enum Progress {
    Proposed,
    Continue,
    End,
}

/// Which of RFC 4137's two servers a machine is.
#[derive(Clone, Copy, PartialEq, Eq, Debug)]
pub enum Role {
    /// The stand-alone authenticator of section 5: it asks for the identity, and sends again.
    StandAlone,
    /// The backend authenticator of section 6, behind a pass-through: it begins with the first Response,
    /// and sends nothing again.
    Backend,
}

/// The way to SELECT_ACTION (RFC 4137 sections 5.4 and 6.4).
#[derive(Clone, Copy, PartialEq, Eq, Debug)]
pub enum ProposalPath {
    /// After a Response of the Identity round or of a method: METHOD_RESPONSE.
    AfterResponse,
    /// After a Nak.
    AfterNak,
    /// After the backend's first Response, which is an identity: PICK_UP_METHOD, METHOD_RESPONSE.
    FirstIdentity,
    /// After the backend's first Response, which is a Nak: NAK.
    FirstNak,
    /// After the backend's first Response, which is neither: PICK_UP_METHOD.
    FirstOther,
}

/// The server's variables (RFC 4137 sections 5.3 and 6.3).
#[derive(Drop)]
pub struct ServerVariables<U = Users> {
    /// Which server this is.
    pub role: Role,
    /// The Identifier of the first Request of a stand-alone server; a backend goes on from that of the first
    /// Response.
    pub first_id: u8,
    /// MaxRetrans: how often a stand-alone server sends a Request again, at most 10.
    pub max_retrans: u8,
    /// Its state between two calls: INITIALIZE before the start, or a backend's first
    /// Response, then IDLE, SUCCESS, FAILURE or TIMEOUT_FAILURE.
    pub state: State,
    /// currentId: the Identifier of the Request that was sent last, or of a backend's first Response; None
    /// before.
    pub current_id: Option<u8>,
    /// currentMethod: the Type, 1 for Identity, None before the first.
    pub current: Option<u8>,
    /// methodState.
    pub progress: Progress,
    /// retransCount: how often the Request was sent again.
    pub retrans_count: u8,
    /// The methods already proposed.
    pub proposed: Kinds,
    /// lastReqData: the Request that was sent last, empty before the first.
    pub last_request: Packet,
    /// The server's settings, its policy among them.
    pub setup: ServerSetup<U>,
}
