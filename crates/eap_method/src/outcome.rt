//! What a call of a machine of RFC 4137 comes to, for the loop around it.

ghost use Rattle.std.specs.Prelude.{◌≡◌, is_some, if◌then◌else◌};
ghost use Rattle.eap_method.specs.Outcomes.{entered, outcome_in, outcome_of};
ghost use Rattle.eap_method.specs.declared.outcome.Outcome.TheVariants.{Send, Waiting};

use crate::step::{Step, WholeStep};
use crate::values::Report;
use eap_packet::{Cause, Path, State};

/// What a call of the peer, the server or the backend comes to. If a packet is sent, it is sent first, whatever this is.
#[derive(Drop, Debug)]
pub enum Outcome {
    /// A packet is sent, and the login goes on.
    Send,
    /// What came is silently discarded.
    Discarded(Cause),
    /// SUCCESS: the login has succeeded.
    Success(Report),
    /// FAILURE or TIMEOUT_FAILURE, or SUCCESS without a report: the login has failed.
    Failed,
    /// Nothing is sent, and the login goes on.
    Waiting,
}

impl Step {
    /// What the call comes to; `report` is what the machine reports after it.
    pub fn outcome(&self, report: Option<Report>) -> Outcome
        ensures { result ≡ outcome_of self.now.cause (entered self.now.path) self.now.sends report }
    {
        outcome_of(self.cause, entered(&self.path), self.sends, report)
    }
}

impl WholeStep {
    /// [`Step::outcome`], of the step with its packet.
    pub fn outcome(&self, report: Option<Report>) -> Outcome
        ensures { result
            ≡ outcome_of self.now.cause (entered self.now.path) (is_some self.now.sent) report }
    {
        outcome_of(self.cause, entered(&self.path), self.sent.is_some(), report)
    }
}

/// The state that was entered last.
fn entered(path: &Path) -> Option<State>
    ensures { result ≡ entered path.now }
{
    path.as_slice().last().copied()
}

/// A discard comes before all else.
fn outcome_of(
    cause: Option<Cause>,
    last: Option<State>,
    sends: bool,
    report: Option<Report>,
) -> Outcome
    ensures { result ≡ outcome_of cause last sends report }
{
    match (cause, last) {
        (Some(cause), _) => Outcome::Discarded(cause),
        (None, Some(state)) => outcome_in(state, sends, report),
        (None, None) => sending(sends),
    }
}

/// What the call comes to that has entered this state last.
fn outcome_in(state: State, sends: bool, report: Option<Report>) -> Outcome
    ensures { result ≡ outcome_in state sends report }
{
    match state {
        State::Success => match report {
            None => Outcome::Failed,
            Some(report) => Outcome::Success(report),
        },
        State::Failure | State::TimeoutFailure => Outcome::Failed,
        _ => sending(sends),
    }
}

/// The login goes on.
fn sending(sends: bool) -> Outcome
    ensures { result ≡ (if sends then Send else Waiting) }
{
    if sends {
        Outcome::Send
    } else {
        Outcome::Waiting
    }
}
