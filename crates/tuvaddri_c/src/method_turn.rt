//! The result of a call of a method alone, as numbers.

ghost use Rattle.std.specs.Prelude.{◌≡◌, false};
ghost use Rattle.tuvaddri_c.specs.Methods.{no_method_turn, discarding, taking, peer_brief};
ghost use Rattle.tuvaddri_c.specs.Methods.{server_brief, method_number, decision_number};

use crate::turn::number_of_cause;
use eap_method::{Decision, MethodState, PeerAnswer, ServerAnswer};
use eap_packet::Cause;

/// What a method answers.
#[repr(C)]
#[derive(Clone, Copy, PartialEq, Eq, Debug)]
pub struct TuvMethodTurn {
    /// Whether a packet is to be sent.
    pub sends: bool,
    /// Whether what came is discarded.
    pub discards: bool,
    /// Whether the call has no place at this end, and changes nothing. The other fields are then 0.
    pub misplaced: bool,
    /// The number of the cause of a discard, in the order of `Cause`; else 0.
    pub cause: u8,
    /// methodState (RFC 4137 section 4.2) by its number, 4 if the method is over; 0 at a discard.
    pub state: u8,
    /// decision (RFC 4137 section 4.2) by its number; of a server that is done, 2 for success. 0 at a discard.
    pub decision: u8,
}

impl TuvMethodTurn {
    /// A call that has no place; it sends nothing.
    pub fn none(fresh: &mut bool) -> TuvMethodTurn
        ensures turn { result ≡ no_method_turn }
        ensures silent { fresh.new ≡ false }
    {
        *fresh = false;
        TuvMethodTurn {
            sends: false,
            discards: false,
            misplaced: true,
            cause: 0,
            state: 0,
            decision: 0,
        }
    }

    /// What came is discarded, and nothing is sent.
    pub fn discard(cause: Cause, fresh: &mut bool) -> TuvMethodTurn
        ensures turn { result ≡ discarding cause }
        ensures silent { fresh.new ≡ false }
    {
        *fresh = false;
        TuvMethodTurn::discarding(cause)
    }

    /// What came is discarded.
    fn discarding(cause: Cause) -> TuvMethodTurn
        ensures { result ≡ discarding cause }
    {
        TuvMethodTurn {
            sends: false,
            discards: true,
            misplaced: false,
            cause: number_of_cause(cause),
            state: 0,
            decision: 0,
        }
    }

    /// The result of a peer's turn.
    pub fn of_peer(turn: PeerAnswer) -> TuvMethodTurn
        ensures { result ≡ peer_brief turn }
    {
        match turn {
            PeerAnswer::Discard(cause) => TuvMethodTurn::discarding(cause),
            PeerAnswer::Reply { state, decision } => {
                TuvMethodTurn::taking(true, number_of_method(state), number_of_decision(decision))
            }
        }
    }

    /// The result of a server's turn.
    pub fn of_server(turn: ServerAnswer) -> TuvMethodTurn
        ensures { result ≡ server_brief turn }
    {
        match turn {
            ServerAnswer::Discard(cause) => TuvMethodTurn::discarding(cause),
            ServerAnswer::Request => TuvMethodTurn::taking(true, 2, 0),
            ServerAnswer::Done { success } => {
                if success {
                    TuvMethodTurn::taking(false, 4, 2)
                } else {
                    TuvMethodTurn::taking(false, 4, 0)
                }
            }
        }
    }

    /// What came is taken, with this methodState and decision.
    fn taking(sends: bool, state: u8, decision: u8) -> TuvMethodTurn
        ensures { result ≡ taking sends state decision }
    {
        TuvMethodTurn {
            sends,
            discards: false,
            misplaced: false,
            cause: 0,
            state,
            decision,
        }
    }
}

#[tactic(auto, using(crate::proofs::Numbers::method_tag))]
fn number_of_method(state: MethodState) -> u8
    ensures { result ≡ method_number state }
{
    state as u8
}

#[tactic(auto, using(crate::proofs::Numbers::decision_tag))]
fn number_of_decision(decision: Decision) -> u8
    ensures { result ≡ decision_number decision }
{
    decision as u8
}
