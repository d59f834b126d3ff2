//! An example for makers: a method of one's own that is stated, proved and logs in: EAP MD5-Challenge (RFC 3748 section 5.4).
//! It is by the required calls of the traits alone. The method authenticates the peer alone, protects nothing that is sent,
//! and derives no keys: never use it on a link that others can hear or change.
#![tactic(auto)]

mod challenge;
mod laws;
mod peer;
mod receive;
mod server;

pub use challenge::{MD5_KIND, response_value, value_of};
pub use laws::md5_logins_go_through;
pub use peer::Md5Peer;
pub use receive::{receive_request, receive_response};
pub use server::Md5Server;
