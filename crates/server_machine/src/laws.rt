//! Laws of the server (RFC 4137 section 5). Each is the contract of a function that does nothing.

ghost use Rattle.server_machine.specs.Laws.{DiscardsChangeNothing, StaysAsItIs};
ghost use Rattle.server_machine.specs.Rows.{ServerAnswersAreRows};

/// An input that is discarded changes no variable and no method's view, sends nothing and makes no
/// record.
#[tactic(auto, using(crate::proofs::Discards::discards_change_nothing))]
pub fn discards_change_nothing()
    ensures { DiscardsChangeNothing }
{}

/// What the server does at every input is one transition of its table, with all that is then known.
#[tactic(auto, using(crate::proofs::ServerRows::server_answers_are_rows))]
pub fn answers_are_rows()
    ensures { ServerAnswersAreRows }
{}

/// No input changes the server's role, and a server to which octets may come, which has started or is a backend, stays
/// one: also if it begins a new conversation.
#[tactic(auto, using(crate::proofs::Starting::stays_as_it_is))]
pub fn stays_as_it_is()
    ensures { StaysAsItIs }
{}
