//! One end of a login alone, over its inputs: but for its machine the same for the peer and the server.

ghost use Rattle.std.specs.Prelude.{◌≡◌, ◌||◌, List, false, is_some};
ghost use Rattle.eap_method.specs.Steps.{step_with};
ghost use Rattle.end_pipe.specs.EndRun.{EndNow, HasContinued, IsStateAfter, end_now, end_step};
ghost use Rattle.end_pipe.specs.EndRun.{first_report, move_of, outcome, result_with};
ghost use Rattle.end_pipe.specs.Inputs.{is_skipped};
ghost use Rattle.end_pipe.specs.declared.input.EndInput.{EndInput};

use crate::input::EndInput;
use crate::told::{EndStep, EndTold};
use eap_method::{Report, Step, Tags, Turns, has_ended};
use eap_packet::State;
use octet_lists::Packet;
use std::marker::Model;

/// A machine of RFC 4137, as its end uses it: the peer's of section 4, or the stand-alone server's of section 5.
pub trait Machine: Drop {
    ghost use Rattle.end_pipe.specs.EndRun.{MachineTable};

    /// What a machine is: its variables, and the views of its methods.
    ghost Now: { Type 0 };

    /// What this machine is.
    ghost shown: { Self → Now };

    /// What settings begin with such a machine, what it does at each input, its state, and what it reports.
    ghost table: { MachineTable Now };

    /// Whether inputs may come: to the server once it has started, to the peer always.
    ghost is_running: { Self → Type 0 };

    /// Takes an input that isn't skipped. The packet that is sent is written into `packet`, the records of the tags into
    /// `tags`, in place of what was there.
    fn handle_input<R: Turns>(
        &mut self,
        input: &EndInput,
        packet: &mut Packet,
        tags: &mut Tags<R>,
    ) -> Step
        requires running { is_running self.old }
        requires unskipped { is_skipped (table.state (shown self.old)) input.now ≡ false }
        ensures step { table.moves (shown self.old) input.now
            ≡ move_of (step_with result packet.new tags.new) (shown self.new) }
        ensures running { is_running self.new };

    /// The machine's state.
    fn state(&self) -> State
        ensures { result ≡ table.state (shown self.now) };

    /// What the machine reports, if it does.
    fn report(&self) -> Option<Report>
        ensures { result ≡ table.reports (shown self.now) };
}

/// An end alone. Contracts see its machine, and whether it has had a report.
#[derive(Drop)]
pub struct EndPipe<E> {
    pub(crate) machine: E,
    pub(crate) held: bool,
}

impl<E> Model for EndPipe<E> {
    ghost use Rattle.end_pipe.specs.EndRun.{PipeValue};

    ghost Value = { PipeValue E };

    ghost view = { λ p. record { machine = p.machine; held = p.held } };
}

impl<E: Machine> EndPipe<E> {
    /// What comes next to the end, a server's once it has started. The packet that is sent is written into `packet`, the
    /// records of the tags into `tags`, in place of what was there; without a packet that is sent, `packet` is
    /// unspecified. The end of a timer and a report of the lower layer are skipped after the end. The end of a timer is
    /// none of the peer's inputs, a report of the lower layer none of the server's: it does nothing.
    pub fn step_into<R: Turns>(
        &mut self,
        input: &EndInput,
        packet: &mut Packet,
        tags: &mut Tags<R>,
    ) -> EndStep
        requires { E.is_running self.old.machine }
        ensures step { end_step E.table (end_now E.shown self.old) input.now
            ≡ outcome (result_with result packet.new tags.new) (end_now E.shown self.new) }
        ensures running { E.is_running self.new.machine }
        ensures continues { (begun : EndNow E.Now) (inputs : List EndInput)
            → IsStateAfter (end_step E.table) begun inputs (end_now E.shown self.old)
            → HasContinued (end_step E.table) begun inputs input.now
            (result_with result packet.new tags.new)
            (end_now E.shown self.new) }
    {
        self.step_by_table(input, packet, tags)
    }

    /// The same, with the packet and the records in its answer.
    pub fn step(&mut self, input: &EndInput) -> EndTold
        requires { E.is_running self.old.machine }
        ensures step { end_step E.table (end_now E.shown self.old) input.now
            ≡ outcome result (end_now E.shown self.new) }
        ensures running { E.is_running self.new.machine }
        ensures continues { (begun : EndNow E.Now) (inputs : List EndInput)
            → IsStateAfter (end_step E.table) begun inputs (end_now E.shown self.old)
            → HasContinued (end_step E.table) begun inputs input.now result
            (end_now E.shown self.new) }
    {
        let mut packet = Packet::new();
        let mut tags = Tags::new();
        let step = self.step_into(input, &mut packet, &mut tags);
        step.with(packet, tags)
    }

    /// The end's state: IDLE, SUCCESS or FAILURE; a server also in INITIALIZE, before its start, or in
    /// TIMEOUT_FAILURE.
    pub fn state(&self) -> State
        ensures { result ≡ E.table.state (E.shown self.now.machine) }
    {
        self.machine.state()
    }

    /// The same as `step`, without the clause that follows from the others.
    #[tactic(auto, unfolding(crate::specs::EndRun::end_step))]
    fn step_by_table<R: Turns>(
        &mut self,
        input: &EndInput,
        packet: &mut Packet,
        tags: &mut Tags<R>,
    ) -> EndStep
        requires { E.is_running self.old.machine }
        ensures step { end_step E.table (end_now E.shown self.old) input.now
            ≡ outcome (result_with result packet.new tags.new) (end_now E.shown self.new) }
        ensures running { E.is_running self.new.machine }
    {
        if !input.is_octets() && has_ended(self.machine.state()) {
            packet.clear();
            tags.clear();
            return EndStep::skipping();
        }
        let step = self.machine.handle_input(input, packet, tags);
        let named = first_report(&mut self.held, &self.machine);
        EndStep {
            step,
            skipped: false,
            named,
        }
    }
}

/// What the machine reports, if its end first has a report.
pub(crate) fn first_report<E: Machine>(held: &mut bool, machine: &E) -> Option<Report>
    ensures named { result ≡ first_report held.old (E.table.reports (E.shown machine.now)) }
    ensures reports { held.new ≡ (held.old || is_some (E.table.reports (E.shown machine.now))) }
{
    if *held {
        return None;
    }
    let report = machine.report();
    *held = report.is_some();
    report
}
