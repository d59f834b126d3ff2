//! Laws of the lines of a text, over its table. Each is the contract of a function that does nothing.

ghost use Rattle.request_text.specs.Laws.{CapturesAreJudged, RadiusLinesAreJudged};
ghost use Rattle.request_text.specs.Laws.{RequestsAreJudged};

/// A line of a capture is refused with exactly the first fault that it has at its place, and accepted exactly
/// if it has none; then it says what its keyword says with its words.
pub fn captures_are_judged()
    ensures { CapturesAreJudged }
{}

/// A request for a cipher, a MAC or keys is refused with exactly the first fault of its words, and accepted
/// exactly if it has none.
#[tactic(auto, using(crate::proofs::KeyJudging::requests_are_judged))]
pub fn requests_are_judged()
    ensures { RequestsAreJudged }
{}

/// A line of a text of RADIUS packets is refused with exactly the first fault that it has at its place, and
/// accepted exactly if it has none; then it says what its keyword says with its words.
pub fn radius_lines_are_judged()
    ensures { RadiusLinesAreJudged }
{}
