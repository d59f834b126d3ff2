//! Replays EAP logins by shared keys from recorded schedules.
#![tactic(auto)]

ghost use Rattle.std.specs.Prelude.{◌≡◌, map, string_bytes, IfOk, IfErr, OnErr};
ghost use Rattle.std.specs.IoError.{error_kind};
ghost use Rattle.std.specs.Vec.Iter.{into_iter_items};
ghost use Rattle.eap_login.specs.Exit.{failure_number_of};
ghost use Rattle.eap_login.specs.Runs.{after_name, Exits};

use command_driver::Status;
use eap_login::{methods_of, run};
use eap_method::{PeerMethod, ServerMethod};
use gpsk_ends::{GpskPeer, GpskServer};
use octet_io::{Sink, Source, StdSink, StdSource};
use psk_ends::{PskPeer, PskServer};
use std::alloc::{AllocError, Global};
use std::env::Args;
use std::process::ExitCode;
use std::{env, io};

/// Answers to its words over standard input and output, neither of which is buffered: the source is read up
/// to 4,096 octets at a time, and a line is written before the next is read.
fn main(rt: HostRuntime) -> ExitCode {
    let mut source = StdSource::new(rt.stdin());
    let mut sink = StdSink::new(rt.stdout());
    match run_over_boxes(rt.alloc(), env::args(&rt), &mut source, &mut sink) {
        Ok(number) => ExitCode::from(number),
        Err(_) => ExitCode::from(Status::Memory.number()),
    }
}

/// Makes an object of each method for each end, in a box, hands them in, and gives the exit status. An `Err` is want of
/// memory, before anything is read or written.
fn run_over_boxes<S: Source, W: Sink>(
    alloc: Global,
    args: io::Result<Args>,
    source: &mut S,
    sink: &mut W,
) -> Result<u8, AllocError>
    // What `run` promises over any objects it promises over these boxes.
    ensures answers { IfOk result (λ number. IfOk args (λ args. Exits S.shown W.shown
        (map string_bytes (after_name (into_iter_items args)))
        source.old source.new sink.old sink.new number)) }
    ensures no_words { IfOk result
        (λ number. IfErr args (λ error. number ≡ failure_number_of (error_kind error))) }
    ensures unread { OnErr result (source.new ≡ source.old) }
    ensures unwritten { OnErr result (sink.new ≡ sink.old) }
{
    let gpsk_peer: Box<dyn PeerMethod> = Box::new(alloc, GpskPeer::new())?;
    let psk_peer: Box<dyn PeerMethod> = Box::new(alloc, PskPeer::new())?;
    let gpsk_server: Box<dyn ServerMethod> = Box::new(alloc, GpskServer::new())?;
    let psk_server: Box<dyn ServerMethod> = Box::new(alloc, PskServer::new())?;
    let methods = methods_of(alloc, gpsk_peer, psk_peer, gpsk_server, psk_server)?;
    Ok(run(alloc, args, source, sink, methods))
}
