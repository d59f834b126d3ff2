//! The versions of a scenario's text.

ghost use Rattle.std.specs.Prelude.{◌≡◌, ◌≤◌};
ghost use Rattle.scenario_text.specs.Versions.{version_of, version_number, has_later, most_later};

/// A version of the text, by its line 1.
#[derive(Clone, Copy, PartialEq, Eq)]
pub enum Version {
    /// `eap-scenario 1`: each end has one conversation.
    First,
    /// `eap-scenario 2`: an end may begin a new conversation, each time with its next nonce.
    Second,
}

impl Version {
    /// The version whose header the line is, or None if it is neither.
    pub fn of_header(line: &[u8]) -> Option<Version>
        ensures { result ≡ version_of line.now }
    {
        if line == b"eap-scenario 1".as_slice() {
            Some(Version::First)
        } else if line == b"eap-scenario 2".as_slice() {
            Some(Version::Second)
        } else {
            None
        }
    }

    /// The version's number, 1 or 2.
    pub fn number(self) -> u8
        ensures { result ≡ version_number self }
    {
        match self {
            Version::First => 1,
            Version::Second => 2,
        }
    }

    /// True if an end may have nonces for later conversations.
    pub fn has_later(self) -> bool
        ensures { result ≡ has_later self }
    {
        match self {
            Version::First => false,
            Version::Second => true,
        }
    }
    /// The later nonces that an end may have: none, or 15.
    pub fn most_later(self) -> usize
        ensures value { result ≡ most_later self }
        ensures few { result ≤ 15 }
    {
        match self {
            Version::First => 0,
            Version::Second => 15,
        }
    }
}
