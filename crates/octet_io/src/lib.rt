//! Input and output that count their faults, and the lines of an input.
#![tactic(auto)]

mod ahead;
mod calls;
mod laws;
mod lines;
mod memory;
mod sink;
mod source;
mod standard;
mod sure;
mod unread;

pub use ahead::ReadBuffer;
pub use laws::{lines_are_the_pieces, lines_end_at_a_limit, some_octet_is_past};
pub use lines::{LF, LineReader, MAX_INPUT, NextLine};
pub use memory::{MemSink, MemSource};
pub use sink::Sink;
pub use source::{Failed, Source};
pub use standard::{StdSink, StdSource};
pub use sure::{SureSink, SureSource};
