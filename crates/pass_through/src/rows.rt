//! The transitions of the pass-through (RFC 4137 section 7.2).

ghost use Rattle.std.specs.Prelude.{◌≡◌, ◌≤◌, ◌∷◌, [], true, false, Some};
ghost use Rattle.eap_packet.specs.Fault.{packet_of};
ghost use Rattle.eap_packet.specs.declared.state.State.TheVariants.{Received, Discard, Idle};
ghost use Rattle.eap_packet.specs.declared.state.State.TheVariants.{Received2, Discard2, Idle2};
ghost use Rattle.pass_through.specs.PassTable.{Peer, Server, answer, step_to, without_padding};
ghost use Rattle.pass_through.specs.PassTable.{identity_request, idle_row, idle2_row, aaa_row};
ghost use Rattle.pass_through.specs.PassTable.{is_over, resends};

use crate::variables::PassVariables;
use eap_method::Step;
use eap_packet::{Cause, Code, State, decode, encode_into};
use octet_lists::{IDENTITY, Packet};

/// The Identity Request.
pub fn write_identity_request(packet: &mut Packet, id: u8)
    ensures { packet.new ≡ identity_request id }
{
    encode_into(packet, Code::Request, id, IDENTITY, &[]);
}

/// IDLE: the Identity Response goes to the server as it came.
pub fn receive_in_idle(vars: &mut PassVariables, octets: &[u8], packet: &mut Packet) -> Step
    ensures step { idle_row vars.old octets.now (packet_of octets.now)
        ≡ answer (step_to Server result packet.new) vars.new }
    ensures order { vars.old.retrans_count ≤ vars.old.max_retrans
        → vars.new.retrans_count ≤ vars.new.max_retrans }
    ensures most { vars.new.max_retrans ≡ vars.old.max_retrans }
    ensures whole { result.sends ≡ true → packet.new ≡ without_padding octets.now }
{
    match decode(octets) {
        Err(cause) => discard(cause),
        Ok(view) => {
            if view.code != Code::Response {
                discard(Cause::WrongRole)
            } else if vars.current_id != Some(view.id) {
                discard(Cause::IdMismatch)
            } else if view.kind != IDENTITY {
                discard(Cause::WrongMethod)
            } else {
                packet.set(view.whole);
                vars.state = State::AaaIdle;
                let states = [
                    State::Received,
                    State::IntegrityCheck,
                    State::MethodResponse,
                    State::SelectAction,
                    State::InitializePassthrough,
                    State::AaaRequest,
                    State::AaaIdle,
                ];
                Step::sending(&states)
            }
        }
    }
}

/// DISCARD, after which it is in IDLE as before.
fn discard(cause: Cause) -> Step
    ensures { result
        ≡ record { path = Received ∷ Discard ∷ Idle ∷ []; cause = Some cause; sends = false } }
{
    Step::discarding(&[State::Received, State::Discard, State::Idle], cause)
}

/// IDLE2: a Response with currentId goes to the server as it came.
pub fn receive_in_idle2(vars: &mut PassVariables, octets: &[u8], packet: &mut Packet) -> Step
    ensures step { idle2_row vars.old octets.now (packet_of octets.now)
        ≡ answer (step_to Server result packet.new) vars.new }
    ensures order { vars.old.retrans_count ≤ vars.old.max_retrans
        → vars.new.retrans_count ≤ vars.new.max_retrans }
    ensures most { vars.new.max_retrans ≡ vars.old.max_retrans }
    ensures whole { result.sends ≡ true → packet.new ≡ without_padding octets.now }
{
    match decode(octets) {
        Err(cause) => discard2(cause),
        Ok(view) => {
            if view.code != Code::Response {
                discard2(Cause::WrongRole)
            } else if vars.current_id != Some(view.id) {
                discard2(Cause::IdMismatch)
            } else {
                packet.set(view.whole);
                vars.state = State::AaaIdle;
                Step::sending(&[State::Received2, State::AaaRequest, State::AaaIdle])
            }
        }
    }
}

/// DISCARD2, after which it is in IDLE2 as before.
fn discard2(cause: Cause) -> Step
    ensures { result
        ≡ record { path = Received2 ∷ Discard2 ∷ Idle2 ∷ []; cause = Some cause; sends = false } }
{
    Step::discarding(&[State::Received2, State::Discard2, State::Idle2], cause)
}

/// AAA_IDLE: a Request goes to the peer as it came, to be answered; a Success or a Failure too, and ends
/// the conversation.
pub fn receive_in_aaa_idle(vars: &mut PassVariables, octets: &[u8], packet: &mut Packet) -> Step
    ensures step { aaa_row vars.old octets.now (packet_of octets.now)
        ≡ answer (step_to Peer result packet.new) vars.new }
    ensures order { vars.old.retrans_count ≤ vars.old.max_retrans
        → vars.new.retrans_count ≤ vars.new.max_retrans }
    ensures most { vars.new.max_retrans ≡ vars.old.max_retrans }
    ensures whole { result.sends ≡ true → packet.new ≡ without_padding octets.now }
{
    match decode(octets) {
        Err(cause) => Step::discarding(&[], cause),
        Ok(view) => match view.code {
            Code::Response => Step::discarding(&[], Cause::WrongRole),
            Code::Request => {
                packet.set(view.whole);
                vars.state = State::Idle2;
                vars.current_id = Some(view.id);
                vars.retrans_count = 0;
                vars.last_request.set(view.whole);
                Step::sending(&[State::AaaResponse, State::SendRequest2, State::Idle2])
            }
            Code::Success => {
                packet.set(view.whole);
                vars.state = State::Success2;
                Step::sending(&[State::Success2])
            }
            Code::Failure => {
                packet.set(view.whole);
                vars.state = State::Failure2;
                Step::sending(&[State::Failure2])
            }
        },
    }
}

/// RETRANSMIT or RETRANSMIT2, the state `entered`: the last Request goes to the peer again, and the
/// pass-through is then in `back`; past MaxRetrans it ends in `over`.
pub fn resend(
    vars: &mut PassVariables,
    entered: State,
    back: State,
    over: State,
    packet: &mut Packet,
) -> Step
    requires count { vars.old.retrans_count ≤ 10 }
    requires over { is_over over ≡ true }
    ensures step { resends vars.old entered back over
        ≡ answer (step_to Peer result packet.new) vars.new }
    ensures order { is_over vars.new.state ≡ false → vars.new.retrans_count ≤ vars.new.max_retrans }
    ensures most { vars.new.max_retrans ≡ vars.old.max_retrans }
    ensures again { result.sends ≡ true → packet.new ≡ vars.old.last_request }
{
    vars.retrans_count += 1;
    if vars.retrans_count <= vars.max_retrans {
        packet.set(vars.last_request.as_slice());
        vars.state = back;
        Step::sending(&[entered, back])
    } else {
        vars.state = over;
        Step::entering(&[entered, over])
    }
}
