//! A law of an end's text. It is the contract of a function that does nothing.

ghost use Rattle.end_pipe.specs.EndLaws.{EndLinesAreJudged};

/// A line of an end's text is refused with exactly the first fault that it has at its place, and accepted exactly if it
/// has none; then it says what its keyword says with its words.
pub fn end_lines_are_judged()
    ensures { EndLinesAreJudged }
{}
