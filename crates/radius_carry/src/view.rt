//! RADIUS packets as their octets show them (RFC 2865 section 3).

/// What kind of packet it is (RFC 2865 section 4).
#[derive(Clone, Copy, PartialEq, Eq, Debug)]
pub enum RadiusKind {
    /// Access-Request, Code 1.
    Request = 1,
    /// Access-Accept, Code 2.
    Accept = 2,
    /// Access-Reject, Code 3.
    Reject = 3,
    /// Access-Challenge, Code 11.
    Challenge = 11,
}

/// A RADIUS packet, as its octets show it.
#[derive(Clone, Copy, Debug)]
pub struct RadiusView<'a> {
    pub kind: RadiusKind,
    /// The Identifier.
    pub id: u8,
    /// The Request Authenticator or the Response Authenticator.
    pub authenticator: [u8; 16],
    /// The octets of the attributes.
    pub attributes: &'a [u8],
    /// The first Length octets.
    pub whole: &'a [u8],
}
