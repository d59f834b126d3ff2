//! The result of a call of a supplicant, as numbers.

ghost use Rattle.std.specs.Prelude.{◌≡◌, false, if◌then◌else◌, Some, None};
ghost use Rattle.tuvaddri_c.specs.Sent.{sent_so, after_turn};
ghost use Rattle.tuvaddri_c.specs.Supplicants.{no_supplicant_turn, turn_of_step};
ghost use Rattle.tuvaddri_c.specs.Supplicants.{discard_number, frame_cause_number};
ghost use Rattle.tuvaddri_c.specs.Supplicants.{supplicant_state_number};

use crate::turn::number_of_cause;
use eapol_frame::{EapolFrame, FrameCause};
use supplicant::{Discard, PaeState, SupplicantStep};

/// The result of a call of a supplicant.
#[repr(C)]
#[derive(Clone, Copy, PartialEq, Eq, Debug)]
pub struct TuvSupplicantTurn {
    /// Whether a frame is to be sent to the authenticator.
    pub sends: bool,
    /// Whether what came is discarded.
    pub discards: bool,
    /// Whether the call has no place at this end, and changes nothing. The other fields are then 0.
    pub misplaced: bool,
    /// Whether a login began with the nonce: the next call needs another.
    pub took_nonce: bool,
    /// Whether the port is authorized (suppPortStatus).
    pub authorized: bool,
    /// The number of the cause of a discard; else 0.
    pub cause: u8,
    /// The state of the Supplicant PAE, by its number in dot1xSuppPaeState.
    pub state: u8,
}

impl TuvSupplicantTurn {
    /// A call that has no place; it sends nothing.
    pub fn none(fresh: &mut bool) -> TuvSupplicantTurn
        ensures turn { result ≡ no_supplicant_turn }
        ensures silent { fresh.new ≡ false }
    {
        *fresh = false;
        TuvSupplicantTurn {
            sends: false,
            discards: false,
            misplaced: true,
            took_nonce: false,
            authorized: false,
            cause: 0,
            state: 0,
        }
    }

    /// The result of a step that leaves the port and the state so; it sends this frame, or nothing.
    pub fn of(
        step: &SupplicantStep,
        frame: &EapolFrame,
        authorized: bool,
        state: PaeState,
        last: &mut EapolFrame,
        fresh: &mut bool,
    ) -> TuvSupplicantTurn
        ensures turn { result ≡ turn_of_step step.now authorized state }
        ensures sent { sent_so last.new fresh.new
            ≡ after_turn (if step.now.sends then Some frame.now else None) (sent_so
            last.old fresh.old) }
    {
        store_frame(step.sends, frame, last, fresh);
        TuvSupplicantTurn::of_step(step, authorized, state)
    }

    /// The result of a step.
    fn of_step(step: &SupplicantStep, authorized: bool, state: PaeState) -> TuvSupplicantTurn
        ensures { result ≡ turn_of_step step.now authorized state }
    {
        match step.cause {
            None => TuvSupplicantTurn {
                sends: step.sends,
                discards: false,
                misplaced: false,
                took_nonce: step.took,
                authorized,
                cause: 0,
                state: number_of_supplicant_state(state),
            },
            Some(cause) => TuvSupplicantTurn {
                sends: step.sends,
                discards: true,
                misplaced: false,
                took_nonce: step.took,
                authorized,
                cause: number_of_discard(cause),
                state: number_of_supplicant_state(state),
            },
        }
    }
}

/// A turn sends this frame, or nothing.
fn store_frame(sends: bool, frame: &EapolFrame, last: &mut EapolFrame, fresh: &mut bool)
    ensures { sent_so last.new fresh.new
        ≡ after_turn (if sends then Some frame.now else None) (sent_so last.old fresh.old) }
{
    *fresh = sends;
    if sends {
        last.set(frame.as_slice());
    }
}

/// The number of a fault of a frame.
pub fn number_of_frame_cause(cause: FrameCause) -> u8
    ensures { result ≡ frame_cause_number cause }
{
    match cause {
        FrameCause::FrameShort => 64,
        FrameCause::FrameTruncated => 65,
    }
}

/// The number of a discard.
fn number_of_discard(discard: Discard) -> u8
    ensures { result ≡ discard_number discard }
{
    match discard {
        Discard::Frame(cause) => number_of_frame_cause(cause),
        Discard::NotPacket => 66,
        Discard::Unheard => 67,
        Discard::NotRequest => 68,
        Discard::Packet(cause) => number_of_cause(cause),
    }
}

/// The number of a state.
fn number_of_supplicant_state(state: PaeState) -> u8
    ensures { result ≡ supplicant_state_number state }
{
    match state {
        PaeState::Disconnected => 1,
        PaeState::Logoff => 2,
        PaeState::Connecting => 3,
        PaeState::Authenticating => 4,
        PaeState::Authenticated => 5,
        PaeState::Held => 7,
        PaeState::ForceAuth => 9,
        PaeState::ForceUnauth => 10,
    }
}
