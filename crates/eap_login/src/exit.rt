//! The exit status of the program.

ghost use Rattle.std.specs.Prelude.{◌≡◌};
ghost use Rattle.eap_login.specs.Exit.{exit_number_of, failure_number_of};

use command_driver::Status;
use std::io;

/// The exit status if the words could not be read, for another cause than want of memory.
const NO_WORDS: u8 = 8;

/// The exit status if the words could not be read.
pub fn failure_number(kind: io::ErrorKind) -> u8
    ensures { result ≡ failure_number_of kind }
{
    match kind {
        io::ErrorKind::OutOfMemory => Status::Memory.number(),
        _ => NO_WORDS,
    }
}

/// The exit status if the words were read. An error is want of memory.
pub fn exit_number(answered: io::Result<Status>) -> u8
    ensures { result ≡ exit_number_of answered }
{
    match answered {
        Ok(status) => status.number(),
        Err(_) => Status::Memory.number(),
    }
}
