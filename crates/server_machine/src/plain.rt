//! The calls of a server and of a backend with the packet and the records in their answers.

ghost use Rattle.std.specs.Prelude.{◌≡◌, map, true, false};
ghost use Rattle.eap_method.specs.Peer.{have_each};
ghost use Rattle.eap_method.specs.Server.{server_kinds};
ghost use Rattle.eap_method.specs.Unnamed.{PreservesServers};
ghost use Rattle.server_machine.specs.Expanded.{server_receives};
ghost use Rattle.server_machine.specs.ServerTable.{Preserves, answer, now_of, has_timer};
ghost use Rattle.server_machine.specs.ServerTable.{is_backend, is_ready, is_started};
ghost use Rattle.server_machine.specs.ServerTable.{server_restart, server_start, server_timeout};
ghost use Rattle.server_machine.specs.ServerTable.{setup_with_nonce};

use crate::ServerStep;
use crate::backend::SizedBackend;
use crate::machine::SizedServer;
use eap_method::{ServerMethod, Tags};
use octet_lists::{Nonce, Packet};

impl<M: ServerMethod, const N: usize> SizedServer<M, N> {
    /// [`start_step`](ServerMachine::start_step), with the packet in its answer.
    pub fn start(&mut self) -> ServerStep
        requires unstarted { is_started self.old.vars ≡ false }
        requires stand_alone { is_backend self.old.vars ≡ false }
        ensures step { server_start (now_of M.server_shown self.old)
            ≡ answer result (now_of M.server_shown self.new) }
        ensures preserves { Preserves M.server_shown self.old self.new }
    {
        let mut packet = Packet::new();
        self.start_step(&mut packet).with(packet, Tags::new())
    }

    /// [`restart_step`](ServerMachine::restart_step), with the packet in its answer.
    pub fn restart(&mut self, nonce: &Nonce) -> ServerStep
        requires objects { have_each (server_kinds
            (map M.server_shown self.old.methods)) self.old.vars.setup.methods ≡ true }
        ensures step { server_restart (now_of M.server_shown self.old) nonce.now
            ≡ answer result (now_of M.server_shown self.new) }
        ensures preserves { PreservesServers self.old.vars.setup.methods
            (map M.server_shown self.old.methods) (map M.server_shown self.new.methods) }
        ensures setup { self.new.vars.setup ≡ setup_with_nonce self.old.vars.setup nonce.now }
    {
        let mut packet = Packet::new();
        let step = self.restart_step(nonce, &mut packet);
        step.with(packet, Tags::new())
    }

    /// [`deliver_step`](ServerMachine::deliver_step), with the packet and the records in its answer.
    pub fn deliver(&mut self, octets: &[u8]) -> ServerStep
        requires ready { is_ready self.old.vars ≡ true }
        ensures step { server_receives (now_of M.server_shown self.old) octets.now
            ≡ answer result (now_of M.server_shown self.new) }
        ensures preserves { Preserves M.server_shown self.old self.new }
    {
        let mut packet = Packet::new();
        let mut tags = Tags::new();
        let step = self.deliver_step(octets, &mut packet, &mut tags);
        step.with(packet, tags)
    }

    /// [`timeout_step`](ServerMachine::timeout_step), with the packet in its answer.
    pub fn timeout(&mut self) -> ServerStep
        requires { has_timer self.old.vars ≡ true }
        ensures step { server_timeout (now_of M.server_shown self.old)
            ≡ answer result (now_of M.server_shown self.new) }
        ensures preserves { Preserves M.server_shown self.old self.new }
    {
        let mut packet = Packet::new();
        self.timeout_step(&mut packet).with(packet, Tags::new())
    }
}

impl<M: ServerMethod, const N: usize> SizedBackend<M, N> {
    /// [`deliver_step`](Backend::deliver_step), with the packet and the records in its answer.
    pub fn deliver(&mut self, octets: &[u8]) -> ServerStep
        ensures step { server_receives (now_of M.server_shown self.old) octets.now
            ≡ answer result (now_of M.server_shown self.new) }
        ensures preserves { Preserves M.server_shown self.old self.new }
    {
        let mut packet = Packet::new();
        let mut tags = Tags::new();
        let step = self.deliver_step(octets, &mut packet, &mut tags);
        step.with(packet, tags)
    }

    /// [`restart_step`](Backend::restart_step), with all that it does in its answer.
    pub fn restart(&mut self, nonce: &Nonce) -> ServerStep
        requires objects { have_each (server_kinds
            (map M.server_shown self.old.methods)) self.old.vars.setup.methods ≡ true }
        ensures step { server_restart (now_of M.server_shown self.old) nonce.now
            ≡ answer result (now_of M.server_shown self.new) }
        ensures preserves { PreservesServers self.old.vars.setup.methods
            (map M.server_shown self.old.methods) (map M.server_shown self.new.methods) }
        ensures setup { self.new.vars.setup ≡ setup_with_nonce self.old.vars.setup nonce.now }
    {
        self.restart_step(nonce).alone()
    }
}
