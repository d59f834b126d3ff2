//! Laws of the pass-through (RFC 4137 section 7). Each is the contract of a function that does nothing.

ghost use Rattle.pass_through.specs.Laws.{DiscardsChangeNothing, SendsOnlyReceived};
ghost use Rattle.pass_through.specs.Rows.{PassAnswersAreRows};
ghost use Rattle.pass_through.specs.Runs.{CarriesOnlyReceived};

/// An input that is discarded changes no variable and sends nothing.
#[tactic(auto, using(crate::proofs::Carrying::discards_change_nothing))]
pub fn discards_change_nothing()
    ensures { DiscardsChangeNothing }
{}

/// What is sent is the Identity Request, the last Request to the peer again, or the delivery that is
/// answered, without its padding, to the other side.
#[tactic(auto, using(crate::proofs::Carrying::sends_only_received))]
pub fn sends_only_received()
    ensures { SendsOnlyReceived }
{}

/// Over all that comes to it from its start on: each packet that it sends is its own Identity Request, or came to it,
/// from the other side and so far, and goes on without its padding. It makes no Success and no Failure of its own.
#[tactic(auto, using(crate::proofs::Running::carries_only_received))]
pub fn carries_only_received()
    ensures { CarriesOnlyReceived }
{}

/// What the pass-through does at every input is one transition of its table, with all that is then known.
#[tactic(auto, using(crate::proofs::PassRows::pass_answers_are_rows))]
pub fn answers_are_rows()
    ensures { PassAnswersAreRows }
{}
