//! The result of a call of a port, as numbers.

ghost use Rattle.std.specs.Prelude.{◌≡◌, ◌≤◌, false, length};
ghost use Rattle.octet_lists.specs.Sizes.{max_packet};
ghost use Rattle.switch_port.specs.Port.{step_with};
ghost use Rattle.tuvaddri_c.specs.Ports.{no_port_turn, rests_so, port_turn, sent_by};
ghost use Rattle.tuvaddri_c.specs.Ports.{phase_number, port_cause_number};
ghost use Rattle.tuvaddri_c.specs.Sent.{sent_so, after_turn};

use crate::supplicant_turn::number_of_frame_cause;
use crate::turn::number_of_cause;
use eapol_frame::{EAP_PACKET, EapolFrame, write_frame};
use switch_port::{Phase, PortCause, PortStep, SwitchPort};

/// The result of a call of a port.
#[repr(C)]
#[derive(Clone, Copy, PartialEq, Eq, Debug)]
pub struct TuvPortTurn {
    /// Whether a frame is to be sent to the station.
    pub to_station: bool,
    /// Whether an EAP packet is to be sent to the server, in an Access-Request.
    pub to_server: bool,
    /// Whether what came is discarded.
    pub discards: bool,
    /// Whether the call has no place at this end, and changes nothing. The other fields are then 0.
    pub misplaced: bool,
    /// Whether the port is authorized (authPortStatus).
    pub authorized: bool,
    /// Whether an answer of the server is awaited; else an outstanding request is given up.
    pub awaits_server: bool,
    /// The number of the cause of a discard; else 0.
    pub cause: u8,
    /// The state of the Authenticator PAE, by its number in dot1xAuthPaeState.
    pub state: u8,
}

impl TuvPortTurn {
    /// A call that has no place; it sends nothing.
    pub fn none(fresh: &mut bool) -> TuvPortTurn
        ensures turn { result ≡ no_port_turn }
        ensures silent { fresh.new ≡ false }
    {
        *fresh = false;
        TuvPortTurn {
            to_station: false,
            to_server: false,
            discards: false,
            misplaced: true,
            authorized: false,
            awaits_server: false,
            cause: 0,
            state: 0,
        }
    }

    /// The result of a step after which the port is this; it sends the packet of these octets, or nothing.
    pub fn of(
        step: PortStep,
        octets: &[u8],
        port: &SwitchPort,
        last: &mut EapolFrame,
        fresh: &mut bool,
    ) -> TuvPortTurn
        requires { length octets.now ≤ max_packet }
        ensures turn { result ≡ port_turn (step_with step octets.now) port.now }
        ensures sent { sent_so last.new fresh.new
            ≡ after_turn (sent_by (step_with step octets.now)) (sent_so last.old fresh.old) }
    {
        let rests = TuvPortTurn::rests(port);
        match step {
            PortStep::Rests => {
                *fresh = false;
                rests
            }
            PortStep::ToStation => {
                write_frame(last, EAP_PACKET, octets);
                *fresh = true;
                TuvPortTurn {
                    to_station: true,
                    ..rests
                }
            }
            PortStep::ToServer => {
                last.set(octets);
                *fresh = true;
                TuvPortTurn {
                    to_server: true,
                    ..rests
                }
            }
            PortStep::Discards(cause) => {
                *fresh = false;
                TuvPortTurn {
                    discards: true,
                    cause: number_of_port_cause(cause),
                    ..rests
                }
            }
        }
    }

    /// Nothing is sent, and the port is this.
    fn rests(port: &SwitchPort) -> TuvPortTurn
        ensures { result ≡ rests_so port.now }
    {
        TuvPortTurn {
            to_station: false,
            to_server: false,
            discards: false,
            misplaced: false,
            authorized: port.authorized(),
            awaits_server: port.waits_for_server(),
            cause: 0,
            state: number_of_phase(port.phase()),
        }
    }
}

/// The number of a state.
fn number_of_phase(phase: Phase) -> u8
    ensures { result ≡ phase_number phase }
{
    match phase {
        Phase::Down => 1,
        Phase::Authenticating => 4,
        Phase::Authenticated => 5,
        Phase::Held => 7,
        Phase::ForceAuth => 8,
        Phase::ForceUnauth => 9,
    }
}

/// The number of a discard.
fn number_of_port_cause(cause: PortCause) -> u8
    ensures { result ≡ port_cause_number cause }
{
    match cause {
        PortCause::NoFrame(cause) => number_of_frame_cause(cause),
        PortCause::OtherType => 66,
        PortCause::OutOfPhase => 67,
        PortCause::NoRequest => 68,
        PortCause::NoPacket(cause) => number_of_cause(cause),
    }
}
