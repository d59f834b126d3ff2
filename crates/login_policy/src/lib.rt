//! The choices that the ends' policies make (RFC 3748 section 5.3, RFC 5433 section 3): each is the
//! first choice that is allowed.
#![tactic(auto)]

mod expanded;
mod laws;
mod policy;

pub use expanded::{expanded_kinds, expanded_nak};
pub use laws::{
    allowed_is_listed, entries_are_read, nak_is_allowed, nak_lists_some, next_is_first,
    none_is_next, none_is_picked, picked_is_first,
};
pub use policy::{nak_list, next_method, peer_allows, pick_suite};
