//! A command that reads lines, the driver that passes them to it, and how each call that answers ends.
#![tactic(auto)]

mod command;
mod driver;
mod status;

pub use command::{Close, Command, Next, Trouble};
pub use driver::drive;
pub use status::Status;
