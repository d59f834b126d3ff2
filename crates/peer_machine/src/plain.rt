//! The calls of a peer with the packet and the records in their answers.

ghost use Rattle.std.specs.Prelude.{◌≡◌, map, true, false};
ghost use Rattle.eap_method.specs.Peer.{have_each, peer_kinds};
ghost use Rattle.eap_method.specs.Steps.{is_end};
ghost use Rattle.eap_method.specs.Unnamed.{PreservesPeers};
ghost use Rattle.peer_machine.specs.Expanded.{peer_receives};
ghost use Rattle.peer_machine.specs.PeerTable.{Preserves, answer, now_of, setup_with_nonce};
ghost use Rattle.peer_machine.specs.PeerTable.{peer_restart, peer_idle, peer_alt_accept};
ghost use Rattle.peer_machine.specs.PeerTable.{peer_alt_reject};

use crate::PeerStep;
use crate::machine::PeerMachine;
use eap_method::{PeerMethod, Tags};
use octet_lists::{Nonce, Packet};

impl<M: PeerMethod> PeerMachine<M> {
    /// [`restart_step`](PeerMachine::restart_step), with all that it does in its answer.
    pub fn restart(&mut self, nonce: &Nonce) -> PeerStep
        requires objects { have_each (peer_kinds
            (map M.peer_shown self.old.methods)) self.old.vars.setup.methods ≡ true }
        ensures step { peer_restart (now_of M.peer_shown self.old) nonce.now
            ≡ answer result (now_of M.peer_shown self.new) }
        ensures preserves { PreservesPeers self.old.vars.setup.methods
            (map M.peer_shown self.old.methods) (map M.peer_shown self.new.methods) }
        ensures setup { self.new.vars.setup ≡ setup_with_nonce self.old.vars.setup nonce.now }
    {
        self.restart_step(nonce).alone()
    }

    /// [`deliver_step`](PeerMachine::deliver_step), with the packet and the records in its answer.
    pub fn deliver(&mut self, octets: &[u8]) -> PeerStep
        ensures step { peer_receives (now_of M.peer_shown self.old) octets.now
            ≡ answer result (now_of M.peer_shown self.new) }
        ensures preserves { Preserves M.peer_shown self.old self.new }
    {
        let mut packet = Packet::new();
        let mut tags = Tags::new();
        let step = self.deliver_step(octets, &mut packet, &mut tags);
        step.with(packet, tags)
    }

    /// [`idle_step`](PeerMachine::idle_step), with all that it does in its answer.
    pub fn idle(&mut self) -> PeerStep
        requires { is_end self.old.vars.state ≡ false }
        ensures step { peer_idle (now_of M.peer_shown self.old)
            ≡ answer result (now_of M.peer_shown self.new) }
        ensures preserves { Preserves M.peer_shown self.old self.new }
    {
        self.idle_step().alone()
    }

    /// [`alt_accept_step`](PeerMachine::alt_accept_step), with all that it does in its answer.
    pub fn alt_accept(&mut self) -> PeerStep
        requires { is_end self.old.vars.state ≡ false }
        ensures step { peer_alt_accept (now_of M.peer_shown self.old)
            ≡ answer result (now_of M.peer_shown self.new) }
        ensures preserves { Preserves M.peer_shown self.old self.new }
    {
        self.alt_accept_step().alone()
    }

    /// [`alt_reject_step`](PeerMachine::alt_reject_step), with all that it does in its answer.
    pub fn alt_reject(&mut self) -> PeerStep
        requires { is_end self.old.vars.state ≡ false }
        ensures step { peer_alt_reject (now_of M.peer_shown self.old)
            ≡ answer result (now_of M.peer_shown self.new) }
        ensures preserves { Preserves M.peer_shown self.old self.new }
    {
        self.alt_reject_step().alone()
    }
}
