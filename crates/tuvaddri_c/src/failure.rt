//! Why a login has failed, as far as its end can know.

ghost use Rattle.std.specs.Prelude.{◌≡◌, option_map};
ghost use Rattle.eap_packet.specs.Fault.{packet_of};
ghost use Rattle.end_objects.specs.Objects.{peer_object_shown, server_object_shown};
ghost use Rattle.tuvaddri_c.specs.Failures.{failing, code_in, sent_code, peer_failure, peer_ended};
ghost use Rattle.tuvaddri_c.specs.Failures.{shown_failure, server_failure, server_ended};
ghost use Rattle.tuvaddri_c.specs.Failures.{pass_ended, port_ended, machine_failure, end_failure};
ghost use Rattle.tuvaddri_c.specs.Sent.{sent_of};

use crate::by_method::{code_by, repeated_by};
use crate::handle::TuvEnd;
use crate::session::End;
use eap_method::ServerMethod;
use eap_packet::{Code, State, decode, write_plain};
use end_objects::{PeerObject, ServerObject};
use octet_lists::Packet;
use peer_machine::PeerMachine;
use switch_port::Phase;

/// Why a login has failed.
#[repr(C)]
#[derive(Clone, Copy, PartialEq, Eq, Debug)]
pub struct TuvFailure {
    /// 0: it has not failed. 1: the server has no such user. 2: its user is barred or, by EAP-PSK, the peer has answered
    /// that it fails. 3: a peer was refused within the method. 4: there is no method in common, or none has begun. 5: a
    /// Request was never answered. 6: a Failure came, or a report of the lower layer.
    pub reason: u8,
    /// The Failure-Code (RFC 5433 section 9.3) that EAP-GPSK sent, at a server, or that came, at a peer: 1, 2 or 3; else 0.
    pub code: u8,
}

/// A reason and a Failure-Code.
fn failing(reason: u8, code: u8) -> TuvFailure
    ensures { result ≡ failing reason code }
{
    TuvFailure { reason, code }
}

/// The Failure-Code in the Response that the octets begin with.
fn code_in(octets: &[u8]) -> u8
    ensures { result ≡ code_in (packet_of octets.now) }
{
    match decode(octets) {
        Err(_) => 0,
        Ok(view) => match view.code {
            Code::Response => repeated_by(view.kind, view.body),
            Code::Request | Code::Success | Code::Failure => 0,
        },
    }
}

/// The Failure-Code in the packet that a peer has sent last, also of Type 254.
fn sent_code(octets: &[u8]) -> u8
    ensures { result ≡ sent_code octets.now }
{
    match decode(octets) {
        Err(_) => 0,
        Ok(view) => {
            let mut plain = Packet::new();
            if write_plain(&view, &mut plain) {
                code_in(plain.as_slice())
            } else {
                code_in(octets)
            }
        }
    }
}

/// A peer with this object of its method: the server has refused it, else this.
fn peer_failure(object: Option<&PeerObject>, sent: &[u8], other: TuvFailure) -> TuvFailure
    ensures { result
        ≡ peer_failure (option_map (λ o. peer_object_shown o.now) object.entry) sent.now other }
{
    match object {
        None => other,
        Some(object) => {
            if object.has_failed() {
                failing(3, sent_code(sent))
            } else {
                other
            }
        }
    }
}

/// A peer in this state, with this object of its method.
fn peer_ended(state: State, object: Option<&PeerObject>) -> TuvFailure
    ensures { result ≡ peer_ended state (option_map (λ o. peer_object_shown o.now) object.entry) }
{
    match object {
        None => {
            if state == State::Failure {
                failing(4, 0)
            } else {
                failing(0, 0)
            }
        }
        Some(_) => {
            if state == State::Failure {
                failing(6, 0)
            } else {
                failing(0, 0)
            }
        }
    }
}

/// A server's method: its user is unknown, or barred; else this.
fn shown_failure(object: &ServerObject, other: TuvFailure) -> TuvFailure
    ensures { result ≡ shown_failure (server_object_shown object.now) other }
{
    if object.is_unknown() {
        failing(1, code_by(object.kind(), 1))
    } else if object.has_failed() {
        failing(2, code_by(object.kind(), 3))
    } else {
        other
    }
}

/// A server with this object of its current method.
fn server_failure(object: Option<&ServerObject>, other: TuvFailure) -> TuvFailure
    ensures { result
        ≡ server_failure (option_map (λ o. server_object_shown o.now) object.entry) other }
{
    match object {
        None => other,
        Some(object) => shown_failure(object, other),
    }
}

/// A server in this state.
fn server_ended(state: State) -> TuvFailure
    ensures { result ≡ server_ended state }
{
    match state {
        State::TimeoutFailure => failing(5, 0),
        State::Failure => failing(4, 0),
        _ => failing(0, 0),
    }
}

/// A pass-through in this state.
fn pass_ended(state: State) -> TuvFailure
    ensures { result ≡ pass_ended state }
{
    match state {
        State::TimeoutFailure => failing(5, 0),
        State::TimeoutFailure2 => failing(5, 0),
        State::Failure2 => failing(6, 0),
        _ => failing(0, 0),
    }
}

/// A port in this phase.
fn port_ended(phase: Phase) -> TuvFailure
    ensures { result ≡ port_ended phase }
{
    match phase {
        Phase::Held => failing(6, 0),
        _ => failing(0, 0),
    }
}

/// A peer of RFC 4137 section 4.
fn of_machine(machine: &PeerMachine<PeerObject>) -> TuvFailure
    ensures { result ≡ machine_failure machine.now }
{
    let selected = machine.selected();
    let other = peer_ended(machine.state(), selected);
    peer_failure(selected, machine.last_response(), other)
}

/// Why the login has failed, as far as the end can know.
#[unsafe(no_mangle)]
pub extern "C" fn tuv_end_failure(end: &mut TuvEnd) -> TuvFailure
    ensures same { end.new.value ≡ end.old.value }
    ensures failure { result ≡ end_failure end.old.value.end (sent_of end.old.value).packet }
{
    let end = &end.session().end;
    let sent = end.last_packet();
    match end {
        End::Closed => failing(0, 0),
        End::PeerMethod(object, _, _) => peer_failure(Some(object), sent, failing(0, 0)),
        End::ServerMethod(object, _, _) => shown_failure(object, failing(0, 0)),
        End::Peer(machine) => {
            let selected = machine.selected();
            peer_failure(selected, sent, peer_ended(machine.state(), selected))
        }
        End::Server(machine, _) => server_failure(machine.current(), server_ended(machine.state())),
        End::Backend(machine, _) => server_failure(
            machine.current(),
            server_ended(machine.state()),
        ),
        End::Pass(machine, _) => pass_ended(machine.state()),
        End::Supplicant(machine, _) => of_machine(machine.peer()),
        End::Port(machine, _) => port_ended(machine.phase()),
    }
}
