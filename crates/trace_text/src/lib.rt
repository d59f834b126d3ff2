//! The trace of a run, whose states and variables are those of RFC 4137. Each call appends its text to a
//! sink, a line in one write, and allocates no memory. It answers `Failed` exactly if a write of the
//! sink failed; a prefix of the text was then appended.
#![tactic(auto)]

mod run;

pub use run::{write_end, write_event_brief, write_start, write_start_brief, write_told};

// The texts that stand below the world.
pub use answer_text::{write_finding, write_key_line, write_line, write_packet, write_refused};
