//! The inputs of an end.

ghost use Rattle.std.specs.Prelude.{◌≡◌};
ghost use Rattle.end_pipe.specs.Inputs.{is_octets};

use octet_lists::{Injected, Octets};

/// The inputs of an end. Octets come to both, the end of the retransmission timer to the server (RFC 4137 section
/// 5.5), and reports of the lower layer to the peer (section 4.1.1).
#[derive(Drop, Debug)]
pub enum EndInput {
    /// Octets arrive from the other end.
    Octets(Injected),
    /// The server's retransmission timer ends.
    Timeout,
    /// The peer's lower layer is idle.
    Idle,
    /// The peer's lower layer reports success.
    AltAccept,
    /// The peer's lower layer reports failure.
    AltReject,
}

impl EndInput {
    /// True for octets.
    pub fn is_octets(&self) -> bool
        ensures { result ≡ is_octets self.now }
    {
        matches!(self, EndInput::Octets(_))
    }
}
