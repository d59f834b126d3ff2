//! EAP packets (RFC 3748 section 4): their grammar, the causes of a discard, the states of the machines.
#![tactic(auto)]

mod cause;
mod expanded;
mod laws;
mod packet;
mod path;
mod state;

pub use cause::Cause;
pub use expanded::{
    Expanded, is_bad_expanded, plain, read_expanded, wrap, wrap_in_place, write_plain,
};
pub use laws::{
    encodings_are_apart, encodings_are_read, faultless_is_encoded, ietf_is_vendor_zero,
    nak_is_vendor_zero, only_wrapped_differ, plain_is_packet, plain_of_wrap, reads_the_encoding,
    wrap_is_packet, wraps_the_encoding,
};
pub use packet::{
    Code, PacketView, View, decode, encode, encode_end, encode_end_into, encode_into, init_into,
};
pub use path::Path;
pub use state::State;
