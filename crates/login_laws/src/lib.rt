//! The laws of logins by EAP-PSK and EAP-GPSK over runs: what honest tags and fresh nonces imply, what one end alone
//! knows, which conversations match, and what a broken tag is.
#![tactic(auto)]

mod laws;

pub use laws::{
    agree_or_forged, any_ends_match, any_server_matches, conversations_are_all,
    conversations_match, conversations_match_under_a_key, each_tag_is_right,
    ends_agree_under_a_key, gpsk_peers_accept_no_own_tags, gpsk_servers_confirmed,
    gpsk_servers_confirmed_or_collide, honest_ends_agree, honest_names_are_theirs,
    honest_under_a_key, keys_are_new, one_end_implies, one_end_implies_under_a_key,
    psk_success_is_unconditional, reflected_ends_agree, reflected_gpsk_ends_agree,
    servers_report_their_user, session_ids_match,
};
