//! The nonces of an EAP-PSK login.

/// The two nonces of a login (RFC 4764 sections 5.1 and 5.2).
#[derive(Clone, Copy)]
pub struct Nonces {
    /// RAND_P, the peer's.
    pub rand_p: [u8; 16],
    /// RAND_S, the server's.
    pub rand_s: [u8; 16],
}
