//! The peer of EAP (RFC 4137 section 4) over the objects of its methods.
#![tactic(auto)]

mod laws;
mod machine;
mod plain;
mod variables;

pub use laws::{answers_are_rows, discards_change_nothing, unconditional_success_stays};
pub use machine::PeerMachine;
pub use variables::PeerVariables;

/// What one call of the peer does.
pub type PeerStep = eap_method::WholeStep;
