//! The pass-through authenticator of EAP (RFC 4137 section 7): it carries packets between a peer and a
//! login server. It reads no method and has no key.
#![tactic(auto)]

mod laws;
mod machine;
mod rows;
mod states;
mod step;
mod variables;

pub use laws::{
    answers_are_rows, carries_only_received, discards_change_nothing, sends_only_received,
};
pub use machine::PassThrough;
pub use step::PassStep;
pub use variables::PassVariables;
