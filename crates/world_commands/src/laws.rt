//! The laws of whole inputs and of smooth traces. Each is the contract of a function that does nothing.

ghost use Rattle.world_commands.specs.SmoothTraces.{SmoothTracesAgree};
ghost use Rattle.world_commands.specs.Whole.{InputsAreScenarios};

/// An input is read as a whole scenario exactly if it is one: no line and not the input is over its
/// limit, its lines are those of a scenario, and it has at most 10,000 events. What is run is then the
/// setup and the events of that scenario.
#[tactic(auto, using(crate::proofs::Inputs::inputs_are_scenarios))]
pub fn inputs_are_scenarios()
    ensures { InputsAreScenarios }
{}

/// The traces of smooth logins end with agreement: if an input is a scenario of two ends that fit, whose
/// events deliver packet 1, packet 2 and on, each once and in order, and at least as many as the login takes,
/// the answer of `replay` and of `replay names` has status 0 and ends with the lines `tags honest`,
/// `result agree` and `end`. So it is if the events go on: with the restarts of all parties, in any order, and
/// the deliveries of the last packet and those sent after it, at least as many again, and so on any number of
/// times. Before these lines a text of the second version says `fresh yes` exactly if the first two nonces
/// differ in their first 16 octets, and both nonces with which the ends began again are new each time.
pub fn smooth_traces_agree()
    ensures { SmoothTracesAgree }
{}
