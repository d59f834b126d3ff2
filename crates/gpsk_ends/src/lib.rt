//! The two ends of EAP-GPSK (RFC 5433): a peer and a server, each behind the trait of its side. No call
//! allocates memory.
#![tactic(auto)]

mod keys;
mod nonces;
mod peer;
mod receiving;
mod records;
mod sealing;
mod server;

pub use nonces::Nonces;
pub use peer::GpskPeer;
pub use server::GpskServer;
