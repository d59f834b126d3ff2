//! The two ends of EAP-PSK (RFC 4764): a peer and a server, each behind the trait of its side. No call
//! allocates memory.
#![tactic(auto)]

mod channel;
mod keys;
mod nonces;
mod octets;
mod peer;
mod records;
mod server;

pub use nonces::Nonces;
pub use peer::PskPeer;
pub use server::PskServer;
