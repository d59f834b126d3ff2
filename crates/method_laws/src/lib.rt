//! Laws of the methods' turns (RFC 5433 section 3, RFC 4764 section 4): each turn is one of a few rows, those of an end
//! tell its tags, each the right MAC of its octets, two ends that have succeeded agree, and a login between ends that fit
//! goes through. Each is the contract of a function that does nothing.
#![tactic(auto)]

mod laws;

pub use laws::{
    both_agree, gpsk_logins_go_through, gpsk_peer_steps_are_rows, gpsk_server_steps_are_rows,
    peer_histories_imply, peer_tags_are_right, psk_logins_go_through, psk_peer_steps_are_rows,
    psk_server_steps_are_rows, server_histories_imply, server_tags_are_right,
};
