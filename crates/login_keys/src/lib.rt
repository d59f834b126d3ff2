//! The key schedules of EAP-GPSK (RFC 5433) and EAP-PSK (RFC 4764), the MAC of an EAP-GPSK
//! ciphersuite, and names of keys. Every field is fed to the MAC from where it is stored, and no
//! call allocates memory.
#![tactic(auto)]

mod gpsk;
mod laws;
mod naming;
mod psk;

pub use gpsk::{GpskKeys, MacKey, gkdf, gpsk_keys, gpsk_tag};
pub use laws::psk_keys_differ;
pub use naming::key_name;
pub use psk::{PskKeys, PskLong, psk_long, psk_session};
