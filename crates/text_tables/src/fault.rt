//! Why a line of a text is refused.

ghost use Rattle.std.specs.Prelude.{◌≡◌};
ghost use Rattle.text_tables.specs.Words.{fault_word};
ghost use Rattle.text_tables.specs.Firsts.{rank_of};

use thiserror::Error;

/// Why a line is refused. If a line has several faults, the first in this order is answered.
#[derive(Clone, Copy, PartialEq, Eq, Debug, Error)]
pub enum LineFault {
    /// Line 1 is not the header.
    #[error("line 1 is not the header")]
    NoHeader,
    /// An octet outside 20 to 7e, or a first word that is no keyword of the text.
    #[error("no keyword of this text")]
    BadWord,
    /// A number of words that the keyword doesn't have, or one line too many of its kind.
    #[error("another number of words")]
    BadCount,
    /// A word that is none of its choices.
    #[error("none of the choices")]
    BadChoice,
    /// No decimal number without a leading zero, one out of range, or no method or suite that there is.
    #[error("no number in range")]
    BadNumber,
    /// An empty hex word, or one that is not an even number of hex digits.
    #[error("no hex")]
    BadHex,
    /// A name or a hex word of a wrong length.
    #[error("another length")]
    BadSize,
    /// A setting that came before, or the same method or suite twice in one line.
    #[error("it came before")]
    Repeated,
    /// A needed setting, or the line `end`, that is not there.
    #[error("a line is missing")]
    Missing,
    /// A line at a place where it may not be.
    #[error("a line at a wrong place")]
    Order,
}

impl LineFault {
    /// The fault's name.
    pub fn word(&self) -> &'static str
        ensures { result.now ≡ fault_word self.now }
    {
        match self {
            LineFault::NoHeader => "NoHeader",
            LineFault::BadWord => "BadWord",
            LineFault::BadCount => "BadCount",
            LineFault::BadChoice => "BadChoice",
            LineFault::BadNumber => "BadNumber",
            LineFault::BadHex => "BadHex",
            LineFault::BadSize => "BadSize",
            LineFault::Repeated => "Repeated",
            LineFault::Missing => "Missing",
            LineFault::Order => "Order",
        }
    }

    /// Its place in the order of the faults, from 0.
    pub(crate) fn rank(&self) -> u8
        ensures { result ≡ rank_of self.now }
    {
        match self {
            LineFault::NoHeader => 0,
            LineFault::BadWord => 1,
            LineFault::BadCount => 2,
            LineFault::BadChoice => 3,
            LineFault::BadNumber => 4,
            LineFault::BadHex => 5,
            LineFault::BadSize => 6,
            LineFault::Repeated => 7,
            LineFault::Missing => 8,
            LineFault::Order => 9,
        }
    }
}
