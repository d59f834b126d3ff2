//! Laws of the choices: each is the first that is allowed. Each law is the contract of a function that
//! does nothing.

ghost use Rattle.login_policy.specs.Laws.{NextIsFirst, NoneIsNext, PickedIsFirst, NoneIsPicked};
ghost use Rattle.login_policy.specs.Laws.{NakIsAllowed, AllowedIsListed, NakListsSome};
ghost use Rattle.login_policy.specs.Laws.{EntriesAreRead};

/// The next Type is the first of the order that is desired and not yet proposed.
pub fn next_is_first()
    ensures { NextIsFirst }
{}

/// There is no next Type exactly if each one of the order that is desired is proposed already.
#[tactic(auto, using(crate::proofs::Firsts::none_is_next))]
pub fn none_is_next()
    ensures { NoneIsNext }
{}

/// The suite that is picked is the first of the list that is allowed.
pub fn picked_is_first()
    ensures { PickedIsFirst }
{}

/// No suite is picked exactly if the list names none that is allowed.
#[tactic(auto, using(crate::proofs::Firsts::none_is_picked))]
pub fn none_is_picked()
    ensures { NoneIsPicked }
{}

/// A Nak lists allowed Types alone, or 0.
#[tactic(auto, using(crate::proofs::Firsts::nak_is_allowed))]
pub fn nak_is_allowed()
    ensures { NakIsAllowed }
{}

/// A Nak lists each Type that is allowed.
#[tactic(auto, using(crate::proofs::Firsts::allowed_is_listed))]
pub fn allowed_is_listed()
    ensures { AllowedIsListed }
{}

/// A Nak lists some Type (RFC 3748 section 5.3.1).
#[tactic(auto, using(crate::proofs::Firsts::nak_lists_a_type))]
pub fn nak_lists_some()
    ensures { NakListsSome }
{}

/// The list of an Expanded Nak for Types of the two methods, each at most once, is read as these
/// Types in their order (RFC 3748 section 5.3.2).
#[tactic(auto, using(crate::proofs::Desiring::entries_are_read))]
pub fn entries_are_read()
    ensures { EntriesAreRead }
{}
