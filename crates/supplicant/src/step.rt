//! What one call of a supplicant does.

use eap_packet::Cause;
use eapol_frame::FrameCause;

/// Why a supplicant discards what came.
#[derive(Clone, Copy, PartialEq, Eq, Debug)]
pub enum Discard {
    /// The octets begin with no EAPOL frame.
    Frame(FrameCause),
    /// The frame has no EAP packet: an EAPOL-Start, an EAPOL-Logoff, a key, an alert.
    NotPacket,
    /// The supplicant takes no EAP packet: without a link, logged off, or under a forced control.
    Unheard,
    /// The EAP packet begins no login, and none goes on: it isn't a Request, or a method that the peer allows has no object.
    NotRequest,
    /// The peer discards the EAP packet.
    Packet(Cause),
}

/// What one call does, seen from outside. The frame that is sent is in the buffer passed to the call.
#[derive(Clone, Copy, PartialEq, Eq, Debug)]
pub struct SupplicantStep {
    /// Whether the frame goes to the authenticator.
    pub sends: bool,
    /// Whether the nonce was taken: the next call needs another.
    pub took: bool,
    /// Why what came is silently discarded, None if it isn't.
    pub cause: Option<Discard>,
}

ghost use Rattle.std.specs.Prelude.{◌≡◌, true, false, None, Some};

/// The frame goes out.
pub fn sent() -> SupplicantStep
    ensures { result ≡ record { sends = true; took = false; cause = None } }
{
    SupplicantStep {
        sends: true,
        took: false,
        cause: None,
    }
}

/// Nothing goes out.
pub fn silent() -> SupplicantStep
    ensures { result ≡ record { sends = false; took = false; cause = None } }
{
    SupplicantStep {
        sends: false,
        took: false,
        cause: None,
    }
}

/// What came is discarded.
pub fn discarded(cause: Discard) -> SupplicantStep
    ensures { result ≡ record { sends = false; took = false; cause = Some cause } }
{
    SupplicantStep {
        sends: false,
        took: false,
        cause: Some(cause),
    }
}
