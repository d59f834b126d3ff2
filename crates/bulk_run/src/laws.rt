//! A law of the summary: the contract of a function that does nothing.

ghost use Rattle.bulk_run.specs.Summing.{BrokenWhereApart};

/// Each conversation ends in one of three ways, and if both ends succeed and don't agree, an end has accepted
/// a tag that the other hadn't made. So there are no more conversations that are apart than broken ones.
#[tactic(auto, using(crate::proofs::Broken::broken_where_apart))]
pub fn apart_is_broken()
    ensures { BrokenWhereApart }
{}
