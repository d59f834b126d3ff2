//! An EAP-PSK message, as its octets show it.

/// The octets of the header that PCHANNEL's tag covers (RFC 4764 section 3.3).
pub const HEADER: usize = 22;

/// PCHANNEL without its extension (RFC 4764 section 5.3): the Nonce, the Tag and the one octet that is
/// sealed.
#[derive(Clone, Copy, Debug)]
pub struct Channel {
    pub nonce: u32,
    pub tag: [u8; 16],
    pub sealed: u8,
}

/// The first message, the server's: RAND_S and ID_S (RFC 4764 section 5.1).
#[derive(Clone, Copy, Debug)]
pub struct Psk1<'a> {
    pub rand_s: [u8; 16],
    pub id_s: &'a [u8],
}

/// The second message, the peer's: RAND_S, RAND_P, MAC_P and ID_P (RFC 4764 section 5.2).
#[derive(Clone, Copy, Debug)]
pub struct Psk2<'a> {
    pub rand_s: [u8; 16],
    pub rand_p: [u8; 16],
    pub mac: [u8; 16],
    pub id_p: &'a [u8],
}

/// The third message, the server's: RAND_S, MAC_S and PCHANNEL (RFC 4764 section 5.3).
#[derive(Clone, Copy, Debug)]
pub struct Psk3 {
    pub rand_s: [u8; 16],
    pub mac: [u8; 16],
    pub channel: Channel,
}

/// The fourth message, the peer's: RAND_S and PCHANNEL (RFC 4764 section 5.4).
#[derive(Clone, Copy, Debug)]
pub struct Psk4 {
    pub rand_s: [u8; 16],
    pub channel: Channel,
}

/// A message of EAP-PSK (RFC 4764 section 5), borrowed from its Type-Data. Identities have at most 253
/// octets.
#[derive(Clone, Copy, Debug)]
pub enum PskMessage<'a> {
    P1(Psk1<'a>),
    P2(Psk2<'a>),
    P3(Psk3),
    P4(Psk4),
}
