//! The run of the program.

ghost use Rattle.std.specs.Prelude.{◌≡◌, map, string_bytes, IfOk, IfErr, OnErr};
ghost use Rattle.std.specs.IoError.{error_kind};
ghost use Rattle.std.specs.Vec.Iter.{into_iter_items};
ghost use Rattle.std.specs.declared.io.ErrorKind.TheVariants.{OutOfMemory};
ghost use Rattle.eap_login.specs.Exit.{failure_number_of};
ghost use Rattle.eap_login.specs.Runs.{after_name, Answers, Exits};
ghost use Rattle.world_commands.specs.Replay.{HasBoth};

use crate::exit::{exit_number, failure_number};
use crate::login::eap_login;
use crate::words::words_after_name;
use command_driver::Status;
use eap_method::{Methods, PeerMethod, ServerMethod};
use octet_io::{Sink, Source};
use std::alloc::Global;
use std::env::Args;
use std::io;

/// Answers to the arguments that the program was started with, of which the first is its name, over `source`
/// and `sink`, and gives the exit status: the number of the status that the words are answered with, 5 if
/// memory is wanting, or 8 if the arguments could not be read for another cause. Each of the two lists of `methods` has
/// an object of EAP-PSK and one of EAP-GPSK.
pub fn run<P: PeerMethod, M: ServerMethod, S: Source, W: Sink>(
    alloc: Global,
    args: io::Result<Args>,
    source: &mut S,
    sink: &mut W,
    methods: Methods<P, M>,
) -> u8
    requires { HasBoth P.peer_shown M.server_shown methods }
    ensures answers { IfOk args (λ args. Exits S.shown W.shown
        (map string_bytes (after_name (into_iter_items args)))
        source.old source.new sink.old sink.new result) }

    // If the arguments could not be read, nothing is read or written.
    ensures no_words { IfErr args (λ error. result ≡ failure_number_of (error_kind error)) }
    ensures unread { IfErr args (λ error. source.new ≡ source.old) }
    ensures unwritten { IfErr args (λ error. sink.new ≡ sink.old) }
{
    match args {
        Ok(args) => exit_number(answer(alloc, args, source, sink, methods)),
        Err(error) => failure_number(error.kind()),
    }
}

/// Answers to the words after the program's name. An error comes only for want of memory, before anything is read or
/// written.
fn answer<P: PeerMethod, M: ServerMethod, S: Source, W: Sink>(
    alloc: Global,
    args: Args,
    source: &mut S,
    sink: &mut W,
    methods: Methods<P, M>,
) -> io::Result<Status>
    requires { HasBoth P.peer_shown M.server_shown methods }
    ensures answers { IfOk result (λ status. Answers S.shown W.shown
        (map string_bytes (after_name (into_iter_items args)))
        source.old source.new sink.old sink.new status) }
    ensures memory { IfErr result (λ error. error_kind error ≡ OutOfMemory) }
    ensures unread { OnErr result (source.new ≡ source.old) }
    ensures unwritten { OnErr result (sink.new ≡ sink.old) }
{
    let words = words_after_name(alloc, args)?;
    Ok(eap_login(alloc, &words, source, sink, methods))
}
