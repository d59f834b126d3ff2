//! The peer's variables.

use eap_method::{Decision, MethodState};
use eap_packet::State;
use login_setup::PeerSetup;
use octet_lists::Packet;

/// The peer's variables (RFC 4137 section 4.3). allowNotifications is true exactly while no method is
/// selected.
#[derive(Drop)]
pub struct PeerVariables {
    /// The peer's settings, its policy among them.
    pub setup: PeerSetup,
    /// Its state between two calls: IDLE, SUCCESS or FAILURE.
    pub state: State,
    /// selectedMethod: the Type, None before a method is selected.
    pub selected: Option<u8>,
    pub method_state: MethodState,
    pub decision: Decision,
    /// lastId: the Identifier of the Request that was answered last, None before the first.
    pub last_id: Option<u8>,
    /// lastRespData: the Response that was sent last, empty before the first.
    pub last_response: Packet,
}
