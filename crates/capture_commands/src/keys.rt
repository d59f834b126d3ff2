//! The command `keys`: answers requests for ciphers, MACs and keys.

ghost use Rattle.command_driver.specs.Responding.{Responds, reading, never};
ghost use Rattle.capture_commands.specs.Keys.{keys_answer};

use answer_text::write_key_line;
use command_driver::{Close, Command, Next, Status, Trouble, drive};
use octet_io::{Failed, Sink, Source};
use request_text::{KeyLine, read_key_line_into};

/// The requests, each of which is answered by itself, and the place into which they are read.
#[derive(Drop)]
pub struct Keys {
    asked: KeyLine,
}

impl Keys {
    /// No request so far.
    pub fn new() -> Keys {
        Keys {
            asked: KeyLine::new(),
        }
    }
}

impl Command for Keys {
    ghost use Rattle.capture_commands.specs.Keys.{Asking, all_asked, keys_step, keys_closing};
    ghost use Rattle.capture_commands.specs.Keys.{keys_lacks};

    ghost Seen = { Asking };

    ghost seen = { λ _. all_asked };

    ghost line_result = { keys_step };

    ghost closing = { keys_closing };

    ghost lacks = { keys_lacks };

    ghost is_valid_after = { λ _ _. Unit {0} };

    #[tactic(auto, unfolding(crate::specs::Keys::keys_step, answer_text::specs::Writes::Appends))]
    fn handle_line<W: Sink>(&mut self, sink: &mut W, line: &[u8]) -> Result<Next, Trouble> {
        match read_key_line_into(line, &mut self.asked) {
            Ok(false) => Ok(Next::Proceed),
            Ok(true) => {
                write_key_line(sink, &self.asked)?;
                Ok(Next::Proceed)
            }
            Err(fault) => Ok(Next::Refuses(fault.word(), Status::Refused)),
        }
    }

    #[tactic(auto, unfolding(crate::specs::Keys::keys_closing))]
    fn close<W: Sink>(&self, _sink: &mut W) -> Result<Close, Failed> {
        Ok(Close::Ends(Status::Done))
    }
}

/// Reads requests for ciphers, MACs and keys and writes the answers. It allocates no memory.
#[tactic(auto, using(command_driver::proofs::Responding::never_lacks))]
pub fn answer_keys<S: Source, W: Sink>(source: &mut S, sink: &mut W) -> Status
    ensures { Responds S.shown W.shown (reading keys_answer never)
        result source.old source.new sink.old sink.new }
{
    drive(&mut Keys::new(), source, sink)
}
