//! One end of a login alone, over inputs: the text that gives its settings and its inputs, read line by line, and the
//! peer and the stand-alone server that take them one after the other.
#![tactic(auto)]

mod entry;
mod input;
mod laws;
mod peer_pipe;
mod pipe;
mod reader;
mod server_pipe;
mod table;
mod told;

pub use input::EndInput;
pub use laws::end_lines_are_judged;
pub use peer_pipe::PeerPipe;
pub use pipe::{EndPipe, Machine};
pub use reader::{EndItem, EndReader};
pub use server_pipe::{ServerPipe, StandAloneServer};
pub use table::Role;
pub use told::{EndStep, EndTold};
