//! The pass-through's variables.

use eap_packet::State;
use octet_lists::Packet;

/// The pass-through's variables (RFC 4137 sections 5.3 and 7.1).
#[derive(Drop)]
pub struct PassVariables {
    /// The Identifier of the Identity Request.
    pub first_id: u8,
    /// MaxRetrans: how often a packet is sent to the peer again, at most 10.
    pub max_retrans: u8,
    /// Its state between two calls: INITIALIZE before the start, then IDLE, AAA_IDLE,
    /// IDLE2, SUCCESS2, FAILURE2, TIMEOUT_FAILURE or TIMEOUT_FAILURE2.
    pub state: State,
    /// currentId: the Identifier of the Request that was sent to the peer last, None before the first.
    pub current_id: Option<u8>,
    /// retransCount: how often that Request was sent again.
    pub retrans_count: u8,
    /// lastReqData: that Request, empty before the first.
    pub last_request: Packet,
}
