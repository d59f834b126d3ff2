//! The texts that the program writes of packets, keys, findings and the states that an end entered, and the lines that
//! every command writes. Each call appends its text to a sink, a line in one write, and allocates no memory. It answers
//! `Failed` exactly if a write of the sink failed; a prefix of the text was then appended.
#![tactic(auto)]

mod answers;
mod finding;
mod gpsk;
mod keys;
mod line_buffer;
mod lines;
mod packet;
mod path;
mod pieces;
mod psk;

pub use answers::write_key_line;
pub use finding::{write_finding, write_finding_counts};
pub use line_buffer::LineBuffer;
pub use lines::{write_hex, write_line, write_refused};
pub use packet::{write_packet, write_packet_counts};
pub use path::{put_path, write_cause, write_states};
pub use pieces::{Piece, put_pieces, send, write_nothing, write_pieces};
