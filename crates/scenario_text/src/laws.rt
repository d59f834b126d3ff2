//! Laws of a scenario's lines, over their table. Each is the contract of a function that does nothing.

ghost use Rattle.scenario_text.specs.Laws.{LinesAreJudged};
ghost use Rattle.scenario_text.specs.Whole.{ScenariosAreRead, FirstScenariosAreAlone};

/// A line of a scenario is refused with exactly the first fault that it has at its place, and accepted exactly
/// if it has none; then it says what its keyword says with its words.
pub fn lines_are_judged()
    ensures { LinesAreJudged }
{}

/// All lines are read without a fault exactly if they are a scenario: the header of a version, settings,
/// the line `events`, events and the line `end`, each line without a fault of its own in that version, no
/// setting given twice, but for the nonces of the second version, which each end may have 16 times, and none
/// missing that is needed. Each setting then has the value of its line, else its default, the nonces are those
/// of their lines, in order, and so are the events.
#[tactic(auto, using(crate::proofs::Implying::scenarios_are_read))]
pub fn scenarios_are_read()
    ensures { ScenariosAreRead }
{}

/// In a scenario of the first version each end has one conversation: no later nonces, no end that reads
/// Expanded Types, and no event by which a party begins again.
pub fn first_scenarios_are_alone()
    ensures { FirstScenariosAreAlone }
{}
