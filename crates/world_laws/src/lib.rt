//! The laws of both ends over runs: what a run keeps, what a step may do, what a pass-through learns; and, of ends with
//! objects of any methods, that their invariants hold and that they agree if their methods do.
#![tactic(auto)]

mod laws;

pub use laws::{
    any_end_invariants, discards_change_nothing, downgrades_need_naks, end_invariants, few_packets,
    few_tags, freshness_is_exact, honest_of_either, methods_agree, naks_refuse, pass_carries,
    pass_is_alone, pass_learns_nothing, reports_are_traced, skips_change_nothing, starts_once,
    steps_are_lawful,
};
