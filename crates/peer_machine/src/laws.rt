//! Laws of the peer (RFC 4137 section 4). Each is the contract of a function that does nothing.

ghost use Rattle.peer_machine.specs.Laws.{DiscardsChangeNothing, UnconditionalSuccessStays};
ghost use Rattle.peer_machine.specs.Rows.{PeerAnswersAreRows};

/// An input that is discarded changes no variable and no method's view, sends nothing and makes no
/// record.
#[tactic(auto, using(crate::proofs::Discards::discards_change_nothing))]
pub fn discards_change_nothing()
    ensures { DiscardsChangeNothing }
{}

/// What the peer does at every input is one transition of its table, with all that is then known.
#[tactic(auto, using(crate::proofs::PeerRows::peer_answers_are_rows))]
pub fn answers_are_rows()
    ensures { PeerAnswersAreRows }
{}

/// Once its method has decided for a success that nothing can undo, no octets, no timeout and no report of a success lead the peer to FAILURE.
#[tactic(auto, using(crate::proofs::UnconditionalSuccess::unconditional_success_stays))]
pub fn unconditional_success_stays()
    ensures { UnconditionalSuccessStays }
{}
