//! The words that the program was started with.

ghost use Rattle.std.specs.Prelude.{◌≡◌, IfOk};
ghost use Rattle.std.specs.Vec.Iter.{into_iter_items};
ghost use Rattle.eap_login.specs.Runs.{after_name};

use std::alloc::{AllocError, Global};
use std::env::Args;

/// All but the first of the arguments that a program was started with, which is its name. Answers
/// `AllocError` for want of memory.
pub fn words_after_name(alloc: Global, args: Args) -> Result<Vec<String>, AllocError>
    ensures { IfOk result (λ words. words.items ≡ after_name (into_iter_items args)) }
{
    let mut args = args;
    let mut words = Vec::new(alloc);
    let _name = args.next();
    for word in args {
        words.push(word)?;
    }
    Ok(words)
}
