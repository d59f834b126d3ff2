//! Many conversations from one number: each is a login by EAP-GPSK (RFC 5433) whose nonces and key, and for an
//! even number whose events, are drawn from it.
#![tactic(auto)]

mod conversation;
mod draws;
mod laws;
mod run;
mod summary;
mod turn;

pub use laws::apart_is_broken;
pub use run::run_all;
pub use summary::Summary;
