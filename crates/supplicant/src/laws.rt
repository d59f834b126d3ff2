//! Laws of the supplicant. Each is the contract of a function that does nothing.

ghost use Rattle.supplicant.specs.Laws.{AuthenticatedReports, DiscardsChangeNothing, PeerIsAnEnd, SendsOwnFrames};

/// A supplicant that is AUTHENTICATED has a report, unless its settings open an unanswered port.
#[tactic(auto, using(crate::proofs::Reports::authenticated_reports))]
pub fn authenticated_reports()
    ensures { AuthenticatedReports }
{}

/// What is discarded, and took no nonce, changes nothing.
#[tactic(auto, using(crate::proofs::Discards::discards_change_nothing))]
pub fn discards_change_nothing()
    ensures { DiscardsChangeNothing }
{}

/// What is sent is an EAPOL-Start, an EAPOL-Logoff, or a Response with which the peer answers a packet.
#[tactic(auto, using(crate::proofs::Frames::sends_own_frames))]
pub fn sends_own_frames()
    ensures { SendsOwnFrames }
{}

/// The peer is an end alone: each call brings it nothing, a packet, or a new conversation with its first packet.
#[tactic(auto, using(crate::proofs::Feeding::peer_is_an_end))]
pub fn peer_is_an_end()
    ensures { PeerIsAnEnd }
{}
