//! The stand-alone server of RFC 4137 section 5, alone.

ghost use Rattle.std.specs.Prelude.{◌≡◌, ◌≤◌, [], ℕ, map, true, false};
ghost use Rattle.login_setup.specs.Setup.{IsSoundServer};
ghost use Rattle.login_setup.specs.Setup as settings;
ghost use Rattle.eap_method.specs.Peer.{have_each};
ghost use Rattle.eap_method.specs.Server.{server_kinds, server_views, ServerViews};
ghost use Rattle.server_machine.specs.ServerTable.{is_started};
ghost use Rattle.end_pipe.specs.EndRun.{IsServerAfter, outcome, server_end, server_starts};
ghost use Rattle.end_pipe.specs.EndRun.{server_unstarted, result_with};

use crate::input::EndInput;
use crate::pipe::{EndPipe, Machine, first_report};
use crate::told::{EndStep, EndTold};
use eap_method::{Report, ServerMethod, Step, Tags, Turns};
use eap_packet::State;
use login_setup::ServerSetup;
use octet_lists::Packet;
use server_machine::ServerMachine;
use std::marker::Model;

/// The machine of a stand-alone server, and of no backend. Contracts see it.
#[derive(Drop)]
pub struct StandAloneServer<M> {
    machine: ServerMachine<M>,
}

impl<M> Model for StandAloneServer<M> {
    ghost use Rattle.std.specs.Prelude.{◌≡◌};
    ghost use Rattle.server_machine.specs.ServerTable.{ServerValue};
    ghost use Rattle.server_machine.specs.declared.variables.Role.TheVariants.{StandAlone};

    ghost Value = { ServerValue M };

    ghost view = { λ s. s.machine };

    ghost invariant = { λ s. s.machine.vars.role ≡ StandAlone };
}

/// The stand-alone server of RFC 4137 section 5 alone.
pub type ServerPipe<M = Box<dyn ServerMethod>> = EndPipe<StandAloneServer<M>>;

impl<M: ServerMethod> ServerPipe<M> {
    /// The server of these settings, which hasn't started. Each method that it proposes has an object; `max_retrans` is
    /// at most 10.
    pub fn new(setup: ServerSetup, first_id: u8, max_retrans: u8, methods: Vec<M>) -> ServerPipe<M>
        requires sound { IsSoundServer setup }
        requires few { max_retrans ≤ 10 }
        requires objects { have_each (server_kinds (map M.server_shown methods.items)) setup.methods
            ≡ true }
        ensures unstarted { server_end M.server_shown result
            ≡ server_unstarted setup (server_views setup.methods (map M.server_shown methods.items))
            first_id max_retrans }
    {
        EndPipe {
            machine: StandAloneServer {
                machine: ServerMachine::new(setup, first_id, max_retrans, methods),
            },
            held: false,
        }
    }

    /// The server, which hasn't started, starts: it asks for the peer's identity, in `packet`.
    pub fn start_into<R: Turns>(&mut self, packet: &mut Packet, tags: &mut Tags<R>) -> EndStep
        requires { is_started self.old.machine.vars ≡ false }
        ensures start { server_starts (server_end M.server_shown self.old)
            ≡ outcome (result_with result packet.new tags.new)
            (server_end M.server_shown self.new) }
        ensures started { is_started self.new.machine.vars ≡ true }
        ensures state { (setup : settings.ServerSetup) (views : ServerViews)
            (first_id max_retrans : ℕ)
            → server_end M.server_shown self.old ≡ server_unstarted setup views first_id max_retrans
            → IsServerAfter setup views first_id max_retrans []
            (server_end M.server_shown self.new) }
    {
        self.start_by_table(packet, tags)
    }

    /// The same, with the packet and the records in its answer.
    pub fn start(&mut self) -> EndTold
        requires { is_started self.old.machine.vars ≡ false }
        ensures start { server_starts (server_end M.server_shown self.old)
            ≡ outcome result (server_end M.server_shown self.new) }
        ensures started { is_started self.new.machine.vars ≡ true }
        ensures state { (setup : settings.ServerSetup) (views : ServerViews)
            (first_id max_retrans : ℕ)
            → server_end M.server_shown self.old ≡ server_unstarted setup views first_id max_retrans
            → IsServerAfter setup views first_id max_retrans []
            (server_end M.server_shown self.new) }
    {
        let mut packet = Packet::new();
        let mut tags = Tags::new();
        let step = self.start_into(&mut packet, &mut tags);
        step.with(packet, tags)
    }

    /// True once the server has started.
    pub fn started(&self) -> bool
        ensures { result ≡ is_started self.now.machine.vars }
    {
        let server = &self.machine;
        server.machine.started()
    }

    /// The same as `start`, without the clause that follows from the others.
    #[tactic(auto, unfolding(crate::specs::EndRun::server_starts))]
    fn start_by_table<R: Turns>(&mut self, packet: &mut Packet, tags: &mut Tags<R>) -> EndStep
        requires { is_started self.old.machine.vars ≡ false }
        ensures start { server_starts (server_end M.server_shown self.old)
            ≡ outcome (result_with result packet.new tags.new)
            (server_end M.server_shown self.new) }
        ensures started { is_started self.new.machine.vars ≡ true }
    {
        tags.clear();
        let server = &mut self.machine;
        let step = server.machine.start_step(packet);
        let named = first_report(&mut self.held, &self.machine);
        EndStep {
            step,
            skipped: false,
            named,
        }
    }
}

impl<M: ServerMethod> Machine for StandAloneServer<M> {
    ghost use Rattle.std.specs.Prelude.{◌≡◌, true};
    ghost use Rattle.server_machine.specs.ServerTable.{ServerNow, is_started, now_of};
    ghost use Rattle.end_pipe.specs.EndRun.{server_table};

    ghost Now = { ServerNow };

    ghost shown = { now_of M.server_shown };

    ghost table = { server_table };

    ghost is_running = { λ machine. is_started machine.vars ≡ true };

    fn handle_input<R: Turns>(
        &mut self,
        input: &EndInput,
        packet: &mut Packet,
        tags: &mut Tags<R>,
    ) -> Step {
        packet.clear();
        tags.clear();
        match input {
            EndInput::Octets(octets) => self.machine.deliver_step(octets.as_slice(), packet, tags),
            EndInput::Timeout => self.machine.timeout_step(packet),
            _ => Step::entering(&[]),
        }
    }

    fn state(&self) -> State {
        self.machine.state()
    }

    fn report(&self) -> Option<Report> {
        self.machine.report()
    }
}
