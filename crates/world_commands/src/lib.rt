//! The commands over worlds: `replay` of a scenario and `bulk N K` of many conversations, with the laws of whole inputs
//! and of smooth traces.
#![tactic(auto)]

mod beginning;
mod bulk;
mod laws;
mod replay;

pub use beginning::world_of;
pub use bulk::{Bulk, bulk_of, run_bulk};
pub use laws::{inputs_are_scenarios, smooth_traces_agree};
pub use replay::replay_scenario;
