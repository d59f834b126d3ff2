//! Octets: lists of a fixed capacity, and their comparison.
#![tactic(auto)]

mod comparison;
mod kind;
mod octets;
mod suite;

pub use comparison::equal_in_full;
pub use kind::{
    EXPANDED, GPSK_KIND, IDENTITY, IETF, NAK, NAK_ENTRY_SIZE, NOTIFICATION, PSK_KIND, VENDOR_SIZE,
    is_among,
};
pub use octets::{
    Identity, Injected, Kinds, MAX_NAME, MAX_PACKET, Nonce, Octets, Packet, Secret, Suites,
    array_of,
};
pub use suite::{SUITE_SIZE, Suite};
