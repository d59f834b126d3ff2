//! Laws of the port. Each is the contract of a function that does nothing.

ghost use Rattle.switch_port.specs.Laws.{DiscardsChangeNothing, OpensOnlyByAccept};

/// A port in mode Auto is open only if an Access-Accept with an EAP-Success came while the server
/// was waited for, and it has been open ever since.
#[tactic(auto, using(crate::proofs::Opening::opens_only_by_accept))]
pub fn opens_only_by_accept()
    ensures { OpensOnlyByAccept }
{}

/// What is discarded changes no variable.
#[tactic(auto, using(crate::proofs::Discarding::discards_change_nothing))]
pub fn discards_change_nothing()
    ensures { DiscardsChangeNothing }
{}
