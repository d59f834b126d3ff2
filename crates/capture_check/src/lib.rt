//! The tags of captured packets: each is judged under the key of the user that it, or a packet before
//! it, names.
#![tactic(auto)]

mod checker;
mod finding;
mod gpsk;
mod psk;

pub use checker::{Checker, Judge};
pub use finding::Finding;
