//! What both ends have of a login.

use octet_lists::Identity;

/// The values of a login by PAX_STD (RFC 4746 section 2.1); what an end doesn't have yet is blank.
#[derive(Drop, Debug)]
pub struct Login {
    /// A, of the server.
    pub a: [u8; 32],
    /// B, of the peer.
    pub b: [u8; 32],
    /// CID, the peer's name.
    pub cid: Identity,
}

/// The fields of PAX_STD-2 (RFC 4746 section 2.1).
#[derive(Drop)]
pub struct Fields {
    /// B, of the peer.
    pub b: [u8; 32],
    /// CID, the peer's name.
    pub cid: Identity,
    /// MAC_CK (A, B, CID).
    pub mac_ck: [u8; 16],
}
