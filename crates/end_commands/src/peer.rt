//! The command `peer`: the peer alone, over the lines of its text.

ghost use Rattle.std.specs.Prelude.{◌≡◌, map, true};
ghost use Rattle.login_setup.specs.Setup.{IsSoundPeer, HasKeys};
ghost use Rattle.eap_method.specs.BothPeers.{are_both, both_of};
ghost use Rattle.eap_method.specs.Peer.{have_each, peer_kinds};
ghost use Rattle.end_pipe.specs.EndRun.{peer_end, started_peer};
ghost use Rattle.command_driver.specs.Responding.{Responds, reading, never};
ghost use Rattle.end_commands.specs.PeerCommand.{HasBothPeers, peer_answer};

use crate::end::{CanStart, End};
use command_driver::{Status, drive};
use eap_method::PeerMethod;
use end_pipe::{EndStep, PeerPipe, Role};
use login_setup::PeerSetup;
use octet_io::{Sink, Source};
use peer_machine::PeerMachine;

impl<M: PeerMethod> CanStart<M> for PeerMachine<M> {
    ghost use Rattle.end_commands.specs.PeerCommand.{HasBothPeers};

    ghost has_both = { HasBothPeers M.peer_shown };

    fn begin(end: &mut End<M, PeerMachine<M>>) -> Option<EndStep> {
        if end.pipe.is_some() {
            return None;
        }
        let Ok(setup) = end.reader.peer_setup() else {
            return None;
        };
        let methods = end.methods.take()?;
        end.pipe = Some(pipe_of(setup, methods));
        None
    }
}

/// The peer of these settings: it has an object of each method that they allow, and none of another than the two.
#[tactic(auto, using(end_pipe::proofs::BothMethods::peer_starts))]
fn pipe_of<M: PeerMethod>(setup: PeerSetup, methods: Vec<M>) -> PeerPipe<M>
    requires sound { IsSoundPeer setup }
    requires keys { HasKeys setup }
    requires objects { have_each (peer_kinds (map M.peer_shown methods.items)) setup.methods
        ≡ true }
    requires both { are_both (map M.peer_shown methods.items) ≡ true }
    ensures { peer_end M.peer_shown result ≡ started_peer setup (both_of setup.methods) }
{
    PeerPipe::new(setup, methods)
}

/// Reads the settings of a peer and then its inputs, and writes what it does at each input, before the next line is
/// read. The objects are one of each method, and none of another. It allocates no memory.
pub fn answer_peer<M: PeerMethod, S: Source, W: Sink>(
    source: &mut S,
    sink: &mut W,
    methods: Vec<M>,
) -> Status
    requires { HasBothPeers M.peer_shown methods.items }
    ensures { Responds S.shown W.shown (reading peer_answer never)
        result source.old source.new sink.old sink.new }
{
    let mut end = End::<M, PeerMachine<M>>::new(Role::Peer, methods);
    drive(&mut end, source, sink)
}
