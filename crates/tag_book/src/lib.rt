//! The book of tags: which tags the two ends of a login accepted and made, in their order, and whether each accepted tag
//! was made earlier.
#![tactic(auto)]

mod book;

pub use book::{
    End, Entry, RecordOwner, TagsVerdict, Use, book_tags, judge_tags, judge_tags_under,
};
