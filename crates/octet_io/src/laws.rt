//! Laws of the lines of an input. Each is the contract of a function that does nothing.

ghost use Rattle.octet_io.specs.Cutting.{LinesAreThePieces, LinesEndAtALimit, SomeOctetIsPast};

/// Within the limits the lines are the pieces of the input between its LFs, each without the CR directly
/// before its LF, and the last as it is, if it isn't empty.
#[tactic(auto, using(crate::proofs::Cut::lines_are_the_pieces))]
pub fn lines_are_the_pieces()
    ensures { LinesAreThePieces }
{}

/// Else they end at the first octet past a limit: as too long if it is a line's octet 4,097, as too
/// much if it is octet 16,777,217 of the input alone.
#[tactic(auto, using(crate::proofs::Cut::lines_end_at_a_limit))]
pub fn lines_end_at_a_limit()
    ensures { LinesEndAtALimit }
{}

/// An input that isn't within the limits has a first octet past one.
#[tactic(auto, using(crate::proofs::Cut::some_octet_is_past))]
pub fn some_octet_is_past()
    ensures { SomeOctetIsPast }
{}
