//! EAP-PSK messages (RFC 4764 section 5): their grammar, reading and writing.
#![tactic(auto)]

mod laws;
mod plain;
mod reading;
mod view;
mod writing;

pub use laws::{
    encodings_are_apart, encodings_are_sized, reads_the_encoding, refuses_the_rest, sent_is_read,
};
pub use plain::{PskView, read_psk, write_psk};
pub use reading::read_psk_message;
pub use view::{Channel, HEADER, Psk1, Psk2, Psk3, Psk4, PskMessage};
pub use writing::write_psk_into;
