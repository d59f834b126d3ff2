//! The servers of EAP over the objects of their methods: stand-alone (RFC 4137 section 5), and the backend
//! behind a pass-through (section 6).
#![tactic(auto)]

mod backend;
mod expanded;
mod laws;
mod machine;
mod outcome;
mod plain;
mod variables;

pub use backend::{Backend, SizedBackend};
pub use laws::{answers_are_rows, discards_change_nothing, stays_as_it_is};
pub use machine::{ServerMachine, SizedServer};
pub use variables::{Progress, ProposalPath, Role, ServerVariables};

/// What one call of the server does.
pub type ServerStep = eap_method::WholeStep;
