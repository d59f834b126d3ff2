//! Why octets are no RADIUS packet that carries EAP.

ghost use Rattle.std.specs.Prelude.{◌≡◌, Some};
ghost use Rattle.radius_carry.specs.Words.{cause_word};

use std::error::Error;
use std::fmt;

/// Why octets begin with no RADIUS packet that carries EAP. If several apply, the first in this order.
#[derive(Clone, Copy, PartialEq, Eq, Debug)]
pub enum RadiusCause {
    /// Fewer than 20 octets.
    RadiusShort,
    /// Code is not 1, 2, 3 or 11.
    RadiusCode,
    /// Length is under 20 or over 4,096.
    RadiusLength,
    /// Length is over the octets received.
    RadiusTruncated,
    /// An attribute's length is under 2 or past the end.
    RadiusAttribute,
    /// No attribute EAP-Message.
    NoEap,
    /// The values of the attributes EAP-Message have over 1,500 octets together.
    EapTooLong,
    /// Not exactly one attribute Message-Authenticator, or its value isn't 16 octets.
    NoAuthenticator,
}

impl RadiusCause {
    /// The cause's name.
    pub fn word(&self) -> &'static str
        ensures { result.now ≡ cause_word self.now }
    {
        match self {
            RadiusCause::RadiusShort => "RadiusShort",
            RadiusCause::RadiusCode => "RadiusCode",
            RadiusCause::RadiusLength => "RadiusLength",
            RadiusCause::RadiusTruncated => "RadiusTruncated",
            RadiusCause::RadiusAttribute => "RadiusAttribute",
            RadiusCause::NoEap => "NoEap",
            RadiusCause::EapTooLong => "EapTooLong",
            RadiusCause::NoAuthenticator => "NoAuthenticator",
        }
    }
}

/// The cause's name.
impl fmt::Display for RadiusCause {
    ghost output = { λ cause. Some (cause_word cause) };

    fn fmt<W: fmt::Write>(&self, f: &mut fmt::Formatter<W>) -> fmt::Result {
        f.write_str(self.word())
    }
}

impl Error for RadiusCause {}
