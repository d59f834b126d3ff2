//! The pass-through's states between two calls.

ghost use Rattle.std.specs.Prelude.{◌≡◌};
ghost use Rattle.pass_through.specs.PassTable.{is_over, is_idle, is_idle2, is_aaa_idle};

use eap_packet::State;

/// True in SUCCESS2, FAILURE2, TIMEOUT_FAILURE and TIMEOUT_FAILURE2, after which it does nothing more.
pub fn is_over(state: State) -> bool
    ensures { result ≡ is_over state }
{
    matches!(
        state,
        State::Success2 | State::Failure2 | State::TimeoutFailure | State::TimeoutFailure2
    )
}

/// True in IDLE, where it waits for the peer's identity.
pub fn is_idle(state: State) -> bool
    ensures { result ≡ is_idle state }
{
    matches!(state, State::Idle)
}

/// True in IDLE2, where it waits for the peer.
pub fn is_idle2(state: State) -> bool
    ensures { result ≡ is_idle2 state }
{
    matches!(state, State::Idle2)
}

/// True in AAA_IDLE, where it waits for the server.
pub fn is_aaa_idle(state: State) -> bool
    ensures { result ≡ is_aaa_idle state }
{
    matches!(state, State::AaaIdle)
}
