//! An example for makers: a method of one's own that derives keys: EAP-PAX (RFC 4746), its exchange PAX_STD with a shared
//! key of 16 octets, HMAC_SHA256_128, and neither a Diffie-Hellman group nor a public key. It has no HMAC_SHA1_128 (MAC ID
//! 0x01), and so no login with an end that has no other MAC.
#![tactic(auto)]

mod keys;
mod laws;
mod login;
mod messages;
mod packets;
mod peer;
mod records;
mod server;

pub use laws::{pax_agrees, pax_runs_agree};
pub use packets::PAX_KIND;
pub use peer::PaxPeer;
pub use server::PaxServer;
