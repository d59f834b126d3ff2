//! An EAP-GPSK message, as its octets show it.

use octet_lists::Suite;

/// GPSK-1, the server's first message.
#[derive(Clone, Copy, Debug)]
pub struct Gpsk1<'a> {
    /// ID_Server.
    pub id_s: &'a [u8],
    /// RAND_Server.
    pub rand_s: [u8; 32],
    /// CSuite_List.
    pub list: &'a [u8],
}

/// GPSK-2, the peer's answer; its MAC has KS octets of its suite.
#[derive(Clone, Copy, Debug)]
pub struct Gpsk2<'a> {
    /// ID_Peer.
    pub id_p: &'a [u8],
    /// ID_Server.
    pub id_s: &'a [u8],
    /// RAND_Peer.
    pub rand_p: [u8; 32],
    /// RAND_Server.
    pub rand_s: [u8; 32],
    /// CSuite_List.
    pub list: &'a [u8],
    /// CSuite_Sel.
    pub suite: Suite,
    /// The PD block.
    pub pd: &'a [u8],
    pub mac: &'a [u8],
}

/// GPSK-3, the server's second message; its MAC has KS octets of its suite.
#[derive(Clone, Copy, Debug)]
pub struct Gpsk3<'a> {
    /// RAND_Peer.
    pub rand_p: [u8; 32],
    /// RAND_Server.
    pub rand_s: [u8; 32],
    /// ID_Server.
    pub id_s: &'a [u8],
    /// CSuite_Sel.
    pub suite: Suite,
    /// The PD block.
    pub pd: &'a [u8],
    pub mac: &'a [u8],
}

/// GPSK-4, the peer's last message; its MAC has 16 or 32 octets.
#[derive(Clone, Copy, Debug)]
pub struct Gpsk4<'a> {
    /// The PD block.
    pub pd: &'a [u8],
    pub mac: &'a [u8],
}

/// A message of EAP-GPSK (RFC 5433 section 9), borrowed from its Type-Data.
///
/// Identities have at most 253 octets, lists of suites one to 20 entries of six octets.
#[derive(Clone, Copy, Debug)]
pub enum GpskMessage<'a> {
    M1(Gpsk1<'a>),
    M2(Gpsk2<'a>),
    M3(Gpsk3<'a>),
    M4(Gpsk4<'a>),
    /// GPSK-Fail.
    Fail { code: u32 },
    /// GPSK-Protected-Fail; its MAC has 16 or 32 octets.
    ProtectedFail { code: u32, mac: &'a [u8] },
}
