//! What one call of a port does. The packet that it sends is in the buffer passed to the call.

use eap_packet::Cause;
use eapol_frame::FrameCause;

/// The Code of a server's answer whose authenticators are good (RFC 2865 section 3).
#[derive(Clone, Copy, PartialEq, Eq, Debug)]
pub enum ServerAnswer {
    Challenge,
    Accept,
    Reject,
}

/// Why a port discards what came.
#[derive(Clone, Copy, Debug)]
pub enum PortCause {
    /// The octets begin with no EAPOL frame.
    NoFrame(FrameCause),
    /// The frame is neither an EAP packet nor EAPOL-Start nor EAPOL-Logoff.
    OtherType,
    /// In this phase nothing of its kind is taken.
    OutOfPhase,
    /// The pass-through discards the station's EAP packet.
    NoPacket(Cause),
    /// The server's Challenge carries no Request.
    NoRequest,
}

/// What one call does: at most one packet is sent.
#[derive(Clone, Copy, Debug)]
pub enum PortStep {
    /// Nothing is sent.
    Rests,
    /// The EAP packet goes to the station, as the body of a frame.
    ToStation,
    /// The EAP packet goes to the server, in a request.
    ToServer,
    /// What came is discarded, and nothing has changed.
    Discards(PortCause),
}
