//! The commands over one end alone: `peer` and `server`, which read the end's inputs line by line and answer each line
//! before they read the next.
#![tactic(auto)]

mod end;
mod lines;
mod peer;
mod server;

pub use peer::answer_peer;
pub use server::answer_server;
