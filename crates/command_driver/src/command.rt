//! A command that reads lines.

ghost use Rattle.std.specs.Prelude.{◌+◌, ℕ, IfOk};
ghost use Rattle.command_driver.specs.Commands.{AnswersLine, AnswersEnd, AfterLines};

use crate::status::Status;
use octet_io::{Failed, Sink};

/// What follows a line.
#[derive(Clone, Copy)]
pub enum Next {
    /// The next line.
    Proceed,
    /// The line is refused with this word, and the run ends with this status.
    Refuses(&'static str, Status),
}

/// The result of the end of the input.
#[derive(Clone, Copy)]
pub enum Close {
    /// The run ends with this status.
    Ends(Status),
    /// Something is missing.
    Misses(&'static str),
}

/// Why a line could not be answered.
#[derive(Clone, Copy, PartialEq, Eq, Debug)]
pub enum Trouble {
    /// A write failed.
    Write,
    /// Memory was wanting.
    Memory,
}

impl From<Failed> for Trouble {
    ghost use Rattle.std.specs.Prelude.{◌≡◌};
    ghost use Rattle.command_driver.specs.declared.command.Trouble.TheVariants.{Write};

    ghost from_gives = { λ _ trouble. trouble ≡ Write };

    fn from(_failed: Failed) -> Trouble {
        Trouble::Write
    }
}

/// A command that reads lines, answers each, and ends with the input.
pub trait Command {
    ghost use Rattle.std.specs.Prelude.{ℕ, List, Bool};
    ghost use Rattle.command_driver.specs.Commands.{LineResult, Closing};

    /// The type of what decides the results of a command's lines.
    ghost Seen: { Type 0 };

    /// What of a command decides the results of its lines.
    ghost seen: { Self → Seen };

    /// The result of a line.
    ghost line_result: { Seen → List ℕ → LineResult Seen };

    /// The result of the end of the input.
    ghost closing: { Seen → Closing };

    /// Whether a line may fail for want of memory.
    ghost lacks: { Seen → List ℕ → Bool };

    /// What holds of the command after so many lines.
    ghost is_valid_after: { Self → ℕ → Type 0 };

    /// Takes a line and writes its answer.
    fn handle_line<W: Sink>(&mut self, sink: &mut W, line: &[u8]) -> Result<Next, Trouble>
        requires { AfterLines is_valid_after self.old }
        ensures valid_after { IfOk result (λ next. (lines : ℕ) → is_valid_after self.old lines
            → is_valid_after self.new (lines + 1)) }
        ensures answers { AnswersLine W.shown result sink.old sink.new
            (line_result (seen self.old) line.now) (lacks (seen self.old) line.now)
            (seen self.new) };

    /// Handles the end of the input and writes its answer.
    fn close<W: Sink>(&self, sink: &mut W) -> Result<Close, Failed>
        ensures { AnswersEnd W.shown result sink.old sink.new (closing (seen self.now)) };
}
