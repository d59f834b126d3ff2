//! The commands over packets that nobody sends: `decode` says what packets are, `keys` answers requests for ciphers, MACs
//! and key schedules, `check` judges a capture as text, `pcap` a file of frames, `radius` is for EAP over RADIUS. None
//! allocates memory.
#![tactic(auto)]

mod check;
mod decode;
mod keys;
mod pcap;
mod radius;

pub use check::check_capture;
pub use decode::decode_packets;
pub use keys::answer_keys;
pub use pcap::{judge_file, read_pcap};
pub use radius::answer_radius;
