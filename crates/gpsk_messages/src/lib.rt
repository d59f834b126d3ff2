//! EAP-GPSK messages (RFC 5433 section 9): their grammar, reading and writing.
#![tactic(auto)]

mod fields;
mod laws;
mod parts;
mod plain;
mod reading;
mod view;
mod writing;

pub use laws::{
    covered_is_the_middle, covered_octets_fix_fields, encodings_are_apart, encodings_are_read,
    encodings_are_sized, long_lists_are_named, reads_the_encoding, shapeless_encodes_nothing,
};
pub use parts::{covered_part, mac_part};
pub use plain::{GpskView, read_gpsk, write_gpsk};
pub use reading::{covered, read_gpsk_message};
pub use view::{Gpsk1, Gpsk2, Gpsk3, Gpsk4, GpskMessage};
pub use writing::write_gpsk_into;
