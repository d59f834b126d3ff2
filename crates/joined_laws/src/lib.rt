//! Both ends, each alone over its own inputs, are the ends of a world over an interleaving of them; so they agree as those
//! of a world do.
#![tactic(auto)]

mod laws;

pub use laws::{
    book_is_determined, ends_alone_match, interleavings_are_runs, joined_ends_agree,
    servers_alone_match,
};
