//! The result of a call, as numbers.

ghost use Rattle.std.specs.Prelude.{◌≡◌, ◌≤◌, length, if◌then◌else◌, false, Some, None};
ghost use Rattle.octet_lists.specs.Sizes.{max_packet};
ghost use Rattle.tuvaddri_c.specs.Sent.{sent_so, after_turn};
ghost use Rattle.tuvaddri_c.specs.Turns.{turn_of, no_turn, cause_number, state_number};

use crate::sent::store_sent;
use eap_method::Step;
use eap_packet::{Cause, State};
use octet_lists::Packet;

/// The result of a call.
#[repr(C)]
#[derive(Clone, Copy, PartialEq, Eq, Debug)]
pub struct TuvTurn {
    /// Whether a packet is to be sent.
    pub sends: bool,
    /// Whether what came is discarded.
    pub discards: bool,
    /// Whether the call has no place at this end, and changes nothing. The other fields are then 0.
    pub misplaced: bool,
    /// The number of the cause of a discard, in the order of `Cause`; else 0.
    pub cause: u8,
    /// The end's state, by its number, in the order of `State`.
    pub state: u8,
}

impl TuvTurn {
    /// A call that has no place; it sends nothing.
    pub fn none(fresh: &mut bool) -> TuvTurn
        ensures turn { result ≡ no_turn }
        ensures silent { fresh.new ≡ false }
    {
        *fresh = false;
        TuvTurn {
            sends: false,
            discards: false,
            misplaced: true,
            cause: 0,
            state: 0,
        }
    }

    /// The result of a step that leads to this state; it sends the packet of these octets, or nothing.
    pub fn of(
        step: &Step,
        octets: &[u8],
        state: State,
        last: &mut Packet,
        fresh: &mut bool,
    ) -> TuvTurn
        requires { length octets.now ≤ max_packet }
        ensures turn { result ≡ turn_of step.now state }
        ensures sent { sent_so last.new fresh.new
            ≡ after_turn (if step.now.sends then Some octets.now else None) (sent_so
            last.old fresh.old) }
    {
        store_sent(step.sends, octets, last, fresh);
        TuvTurn::of_step(step, state)
    }

    /// The result of a peer's step that leads to this state; what it sends is the machine's own.
    pub fn of_peer(step: &Step, state: State, fresh: &mut bool) -> TuvTurn
        ensures turn { result ≡ turn_of step.now state }
        ensures sent { fresh.new ≡ step.now.sends }
    {
        *fresh = step.sends;
        TuvTurn::of_step(step, state)
    }

    /// The result of a step that leads to this state.
    fn of_step(step: &Step, state: State) -> TuvTurn
        ensures { result ≡ turn_of step.now state }
    {
        match step.cause {
            None => TuvTurn {
                sends: step.sends,
                discards: false,
                misplaced: false,
                cause: 0,
                state: number_of_state(state),
            },
            Some(cause) => TuvTurn {
                sends: step.sends,
                discards: true,
                misplaced: false,
                cause: number_of_cause(cause),
                state: number_of_state(state),
            },
        }
    }
}

/// The cause's number.
#[tactic(auto, using(crate::proofs::Numbers::cause_tag))]
pub fn number_of_cause(cause: Cause) -> u8
    ensures { result ≡ cause_number cause }
{
    cause as u8
}

/// The state's number.
#[tactic(auto, using(crate::proofs::Numbers::state_tag))]
pub fn number_of_state(state: State) -> u8
    ensures { result ≡ state_number state }
{
    state as u8
}
