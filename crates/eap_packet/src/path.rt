//! The states that a call enters.

ghost use Rattle.std.specs.Prelude.{◌≡◌, ◌≤◌, ◌<◌, ◌↔◌, [], ◌∷◌, ◌++◌, length, IsTrue};

use crate::state::State;
use arrayvec::ArrayVec;
use std::marker::Model;

/// At most 8 states, in the order in which a call enters them. Contracts see the list of the states.
#[derive(Drop, Debug)]
pub struct Path {
    states: ArrayVec<State, 8>,
}

impl Model for Path {
    ghost use Rattle.std.specs.Prelude.{List};
    ghost use Rattle.eap_packet.specs.declared.state.State.{State};

    ghost Value = { List State };

    ghost view = { λ p. p.states.items };
}

impl Path {
    /// No states.
    pub fn new() -> Path
        ensures { result ≡ [] }
    {
        Path {
            states: ArrayVec::new(),
        }
    }

    /// Appends a state and answers true. If 8 states are there it answers false and changes nothing.
    pub fn push(&mut self, state: State) -> bool
        ensures capacity { IsTrue result ↔ (length self.old < 8) }
        ensures pushed { length self.old < 8 → self.new ≡ self.old ++ state ∷ [] }
        ensures unchanged { 8 ≤ length self.old → self.new ≡ self.old }
    {
        self.states.try_push(state).is_ok()
    }

    /// The states in order.
    pub fn as_slice(&self) -> &[State]
        ensures same { result.now ≡ self.now }
        ensures bounded { length result.now ≤ 8 }
    {
        self.states.as_slice()
    }
}
