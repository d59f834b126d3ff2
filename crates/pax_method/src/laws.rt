//! The laws of two ends of EAP-PAX. Each is the contract of a function that does nothing.

ghost use Rattle.pax_method.specs.Agreement.{PaxAgrees};
ghost use Rattle.pax_method.specs.Runs.{PaxRunsAgree};

/// Two ends of EAP-PAX that have both succeeded agree, where the first tag that each accepted is one that either end made,
/// if both objects have one name for the server. It doesn't ask that they have one AK.
#[tactic(auto, using(crate::proofs::Agrees::pax_agrees))]
pub fn pax_agrees()
    ensures { PaxAgrees }
{}

/// In every run of two ends whose only objects are of EAP-PAX, if each accepted tag was made earlier by either end and no end
/// has begun a second conversation, two ends that are both in SUCCESS agree: a corollary of `methods_agree` and
/// [`pax_agrees`].
pub fn pax_runs_agree()
    ensures { PaxRunsAgree }
{}
