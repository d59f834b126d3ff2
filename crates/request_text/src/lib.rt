//! The texts of the commands that read no scenario, line by line: captures, requests for keys, packets and
//! RADIUS packets.
#![tactic(auto)]

mod capture;
mod capture_line;
mod key_line;
mod laws;
mod packet_line;
mod radius;
mod radius_line;

pub use capture::{CaptureItem, CaptureItemKind, CaptureReader};
pub use key_line::{KeyLine, read_key_line, read_key_line_into};
pub use laws::{captures_are_judged, radius_lines_are_judged, requests_are_judged};
pub use packet_line::read_packet_line;
pub use radius::RadiusReader;
pub use radius_line::{RadiusItem, ReplyKind};
