//! The ciphersuites of EAP-GPSK.

ghost use Rattle.std.specs.Prelude.{◌≡◌};
ghost use Rattle.octet_lists.specs.Suite.{ks_of, suite_number, suite_numbered, suite_octets};

/// The octets of a suite in CSuite_Sel, and of an entry of a CSuite_List (RFC 5433 section 9.2).
pub const SUITE_SIZE: usize = 6;

/// A ciphersuite of EAP-GPSK (RFC 5433 section 6).
#[derive(Clone, Copy, PartialEq, Eq, Debug)]
pub enum Suite {
    /// Suite 1: AES-CMAC-128.
    Cmac,
    /// Suite 2: HMAC-SHA256.
    Hmac,
}

impl Suite {
    /// KS, the octets of a key and of a MAC: 16 or 32.
    pub fn ks(&self) -> usize
        ensures { result ≡ ks_of self.now }
    {
        match self {
            Suite::Cmac => 16,
            Suite::Hmac => 32,
        }
    }

    /// The suite's number, its specifier: 1 or 2.
    pub fn number(&self) -> u8
        ensures { result ≡ suite_number self.now }
    {
        match self {
            Suite::Cmac => 1,
            Suite::Hmac => 2,
        }
    }

    /// The suite of this number, or None if it is neither 1 nor 2.
    pub fn numbered(number: u8) -> Option<Suite>
        ensures { result ≡ suite_numbered number }
    {
        match number {
            1 => Some(Suite::Cmac),
            2 => Some(Suite::Hmac),
            _ => None,
        }
    }

    /// The suite as CSuite_Sel encodes it: four octets of vendor 0, then two of specifier 1 or 2.
    pub fn octets(&self) -> [u8; SUITE_SIZE]
        ensures { result ≡ suite_octets self.now }
    {
        [0, 0, 0, 0, 0, self.number()]
    }
}
