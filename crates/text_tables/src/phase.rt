//! The phases of a text, and the kinds of its lines.

ghost use Rattle.std.specs.Prelude.{◌≡◌};
ghost use Rattle.text_tables.specs.Phases.{finish_of, may_occur};

use crate::fault::LineFault;

/// How far a text has come.
#[derive(Clone, Copy, PartialEq, Eq)]
pub enum Phase {
    /// No line was read.
    Unread,
    /// The header was read: settings may come.
    Settings,
    /// The line after the last setting was read: events may come.
    Events,
    /// The line `end` was read.
    Ended,
}

/// What a line is to its text.
#[derive(Clone, Copy)]
pub enum Part {
    /// A setting.
    Setting,
    /// The line after which events may come.
    Opening,
    /// What happens next.
    Event,
    /// The line `end`.
    End,
}

impl Phase {
    /// What the end of the input means: `NoHeader` if no line was read, else `Missing` if the line `end` was not.
    pub fn finish(self) -> Result<(), LineFault>
        ensures { result ≡ finish_of self }
    {
        match self {
            Phase::Unread => Err(LineFault::NoHeader),
            Phase::Ended => Ok(()),
            _ => Err(LineFault::Missing),
        }
    }

    /// Whether a line may come here.
    pub(crate) fn may_have(self, part: Part) -> bool
        ensures { result ≡ may_occur self part }
    {
        match part {
            Part::Setting | Part::Opening => self == Phase::Settings,
            Part::Event | Part::End => self == Phase::Events,
        }
    }
}
