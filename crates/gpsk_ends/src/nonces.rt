//! The nonces of an EAP-GPSK login.

use octet_lists::Nonce;

/// The two nonces of a login (RFC 5433 section 3).
#[derive(Clone, Copy)]
pub struct Nonces {
    /// RAND_Peer.
    pub rand_p: Nonce,
    /// RAND_Server.
    pub rand_s: Nonce,
}
