//! The peer of RFC 4137 section 4, alone.

ghost use Rattle.std.specs.Prelude.{◌≡◌, [], map, true};
ghost use Rattle.login_setup.specs.Setup.{IsSoundPeer, HasKeys};
ghost use Rattle.eap_method.specs.Peer.{have_each, peer_kinds, peer_views};
ghost use Rattle.end_pipe.specs.EndRun.{IsPeerAfter, started_peer, peer_end};

use crate::input::EndInput;
use crate::pipe::{EndPipe, Machine};
use eap_method::{PeerMethod, Report, Step, Tags, Turns};
use eap_packet::State;
use login_setup::PeerSetup;
use octet_lists::Packet;
use peer_machine::PeerMachine;

/// The peer of RFC 4137 section 4 alone.
pub type PeerPipe<M = Box<dyn PeerMethod>> = EndPipe<PeerMachine<M>>;

impl<M: PeerMethod> PeerPipe<M> {
    /// The peer of these settings, which has had no input. Each method that they allow has an object.
    #[tactic(auto, unfolding(crate::specs::EndRun::end_after))]
    pub fn new(setup: PeerSetup, methods: Vec<M>) -> PeerPipe<M>
        requires sound { IsSoundPeer setup }
        requires keys { HasKeys setup }
        requires objects { have_each (peer_kinds (map M.peer_shown methods.items)) setup.methods
            ≡ true }
        ensures started { peer_end M.peer_shown result
            ≡ started_peer setup (peer_views setup.methods (map M.peer_shown methods.items)) }
        ensures state { IsPeerAfter setup (peer_views setup.methods
            (map M.peer_shown methods.items)) [] (peer_end M.peer_shown result) }
    {
        EndPipe {
            machine: PeerMachine::new(setup, methods),
            held: false,
        }
    }
}

impl<M: PeerMethod> Machine for PeerMachine<M> {
    ghost use Rattle.peer_machine.specs.PeerTable.{PeerNow, now_of};
    ghost use Rattle.end_pipe.specs.EndRun.{peer_table};

    ghost Now = { PeerNow };

    ghost shown = { now_of M.peer_shown };

    ghost table = { peer_table };

    ghost is_running = { λ machine. Unit {0} };

    fn handle_input<R: Turns>(
        &mut self,
        input: &EndInput,
        packet: &mut Packet,
        tags: &mut Tags<R>,
    ) -> Step {
        packet.clear();
        tags.clear();
        match input {
            EndInput::Octets(octets) => self.deliver_step(octets.as_slice(), packet, tags),
            EndInput::Idle => self.idle_step(),
            EndInput::AltAccept => self.alt_accept_step(),
            EndInput::AltReject => self.alt_reject_step(),
            EndInput::Timeout => Step::entering(&[]),
        }
    }

    fn state(&self) -> State {
        self.state()
    }

    fn report(&self) -> Option<Report> {
        self.report()
    }
}
