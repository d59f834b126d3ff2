//! What follows a proposal, and a method's turn (RFC 4137 section 5.4): the variables, the packet and the step.

ghost use Rattle.std.specs.Prelude.{◌≡◌, ◌≢◌, ◌≤◌, ◌<◌, [], ◌∷◌, ◌++◌, length, false, true, not, Some};
ghost use Rattle.std.specs.Prelude.{None, IsTrue, if◌then◌else◌};
ghost use Rattle.octet_lists.specs.Among.{is_among};
ghost use Rattle.eap_packet.specs.Fault.{code_of};
ghost use Rattle.eap_packet.specs.Packet.{spelled, value_with, has_type};
ghost use Rattle.eap_packet.specs.declared.state.State.TheVariants.{ProposeMethod, MethodRequest};
ghost use Rattle.eap_packet.specs.declared.state.State.TheVariants.{SendRequest, Idle};
ghost use Rattle.eap_method.specs.Capacity.{HasCapacity, requests};
ghost use Rattle.eap_method.specs.Server.{ServerViews};
ghost use Rattle.eap_method.specs.ServerTurn.{server_turn_with, server_tags};
ghost use Rattle.eap_method.specs.Steps.{step_with};
ghost use Rattle.eap_method.specs.Tags.{Tags, no_tags};
ghost use Rattle.server_machine.specs.Expanded.{MayWrap};
ghost use Rattle.server_machine.specs.ServerTable.{answer, before_proposal, next_id, with_request};
ghost use Rattle.server_machine.specs.ServerTable.{ends_well, ends_badly, offers, method_answers};
ghost use Rattle.server_machine.specs.ServerTable.{views_after, AreInOrder};
ghost use Rattle.server_machine.specs.declared.variables.ProposalPath.TheVariants.{AfterResponse};

use crate::variables::{Progress, ProposalPath, ServerVariables};
use eap_method::{ServerAnswer, Step};
use eap_packet::{Code, State, encode_end_into};
use login_setup::UserList;
use octet_lists::Packet;

/// The states before a proposal, or before the end in its place.
fn states_before(way: ProposalPath) -> &'static [State]
    ensures states { result.now ≡ before_proposal way }
    ensures few { length result.now ≤ 4 }
{
    match way {
        ProposalPath::AfterResponse => &[
            State::Received,
            State::IntegrityCheck,
            State::MethodResponse,
            State::SelectAction,
        ],
        ProposalPath::AfterNak => &[State::Received, State::Nak, State::SelectAction],
        ProposalPath::FirstIdentity => &[
            State::PickUpMethod,
            State::MethodResponse,
            State::SelectAction,
        ],
        ProposalPath::FirstNak => &[State::Nak, State::SelectAction],
        ProposalPath::FirstOther => &[State::PickUpMethod, State::SelectAction],
    }
}

/// The step of SUCCESS or of FAILURE in place of a proposal.
fn ending(way: ProposalPath, state: State) -> Step
    ensures { result
        ≡ record { path = before_proposal way ++ state ∷ []; cause = None; sends = true } }
{
    Step::sending(&[state]).after(states_before(way))
}

/// Writes a Success or a Failure in place of what was there.
#[tactic(auto, using(crate::proofs::Wrapping::ends_request_nothing))]
fn write_end(packet: &mut Packet, code: Code, id: u8)
    requires { IsTrue (not (has_type code)) }
    ensures spells { packet.new ≡ spelled (value_with code id 0 []) }
    ensures no_request { code_of packet.new ≢ 1 }
{
    encode_end_into(packet, code, id);
}

/// The Identifier of the next Request: the first one, or one more modulo 256.
pub fn next_id<const N: usize>(vars: &ServerVariables<UserList<N>>) -> u8
    ensures { result ≡ next_id vars.now }
{
    match vars.current_id {
        None => vars.first_id,
        Some(id) => id.wrapping_add(1),
    }
}

/// FAILURE, if a method was to be proposed: a Failure with currentId.
pub fn end_badly<const N: usize>(
    vars: &mut ServerVariables<UserList<N>>,
    way: ProposalPath,
    id: u8,
    packet: &mut Packet,
) -> Step
    ensures step { (views : ServerViews)
        → ends_badly (before_proposal way) vars.old views id no_tags
        ≡ answer (step_with result packet.new no_tags) (record { vars = vars.new; views = views }) }
    ensures capacity { MayWrap result.sends packet.new }
    ensures setup { vars.new.setup ≡ vars.old.setup }
    ensures order { AreInOrder vars.old → AreInOrder vars.new }
{
    vars.state = State::Failure;
    write_end(packet, Code::Failure, id);
    ending(way, State::Failure)
}

/// PROPOSE_METHOD, METHOD_REQUEST and SEND_REQUEST of a method that isn't yet proposed, whose first
/// Request is `packet`; without one, FAILURE.
#[tactic(auto, using(login_policy::proofs::Proposed::distinct_grow, login_policy::proofs::Proposed::ordered_grow))]
pub fn settle_offer<const N: usize>(
    vars: &mut ServerVariables<UserList<N>>,
    way: ProposalPath,
    id: u8,
    kind: u8,
    has_first: bool,
    packet: &mut Packet,
) -> Step
    requires ordered { is_among vars.old.setup.methods kind ≡ true }
    requires unproposed { is_among vars.old.proposed kind ≡ false }
    requires few { length vars.old.proposed < 2 }
    requires in_order { AreInOrder vars.old }
    requires capacity { has_first ≡ true → HasCapacity packet.old }
    ensures step { (views : ServerViews) → offers (before_proposal way) vars.old views id kind (if
        has_first then Some packet.old else None)
        ≡ answer (step_with result packet.new no_tags) (record { vars = vars.new; views = views }) }
    ensures capacity { MayWrap result.sends packet.new }
    ensures setup { vars.new.setup ≡ vars.old.setup }
    ensures order { AreInOrder vars.new }
{
    if has_first {
        send_request(vars, packet);
        vars.current = Some(kind);
        vars.progress = Progress::Proposed;
        vars.proposed.push(kind);
        proposing(way)
    } else {
        end_badly(vars, way, id, packet)
    }
}

/// The step of a proposal.
fn proposing(way: ProposalPath) -> Step
    ensures { result ≡ record {
      path = before_proposal way ++ ProposeMethod ∷ MethodRequest ∷ SendRequest ∷ Idle ∷ [];
      cause = None;
      sends = true;
    } }
{
    let states = [
        State::ProposeMethod,
        State::MethodRequest,
        State::SendRequest,
        State::Idle,
    ];
    Step::sending(&states).after(states_before(way))
}

/// SEND_REQUEST: a Request with the next Identifier, which is sent again from now on.
fn send_request<const N: usize>(vars: &mut ServerVariables<UserList<N>>, request: &Packet)
    ensures { vars.new ≡ with_request vars.old request.now }
{
    vars.current_id = Some(next_id(vars));
    vars.retrans_count = 0;
    vars.last_request.set(request.as_slice());
}

/// INTEGRITY_CHECK, of the turn of the method's object, whose Request is `packet`: a discard writes
/// nothing, and after the method's end a Success or a Failure takes the place of what was there.
pub fn settle<const N: usize>(
    vars: &mut ServerVariables<UserList<N>>,
    id: u8,
    turn: ServerAnswer,
    packet: &mut Packet,
) -> Step
    requires capacity { requests turn ≡ true → HasCapacity packet.old }
    ensures step { (before after : ServerViews) (tags : Tags)
        → let whole = server_turn_with turn packet.old tags in
        method_answers (record { vars = vars.old; views = before }) id after whole
        ≡ answer (step_with result packet.new (server_tags whole))
        (record { vars = vars.new; views = views_after before after whole }) }
    ensures capacity { MayWrap result.sends packet.new }
    ensures setup { vars.new.setup ≡ vars.old.setup }
    ensures order { AreInOrder vars.old → AreInOrder vars.new }
{
    match turn {
        ServerAnswer::Discard(cause) => {
            let states = [
                State::Received,
                State::IntegrityCheck,
                State::Discard,
                State::Idle,
            ];
            Step::discarding(&states, cause)
        }
        ServerAnswer::Request => {
            send_request(vars, packet);
            vars.progress = Progress::Continue;
            let states = [
                State::Received,
                State::IntegrityCheck,
                State::MethodResponse,
                State::MethodRequest,
                State::SendRequest,
                State::Idle,
            ];
            Step::sending(&states)
        }
        ServerAnswer::Done { success } => {
            vars.progress = Progress::End;
            end_method(vars, id, success, packet)
        }
    }
}

/// SUCCESS or FAILURE after the current method: a Success or a Failure with currentId.
fn end_method<const N: usize>(
    vars: &mut ServerVariables<UserList<N>>,
    id: u8,
    success: bool,
    packet: &mut Packet,
) -> Step
    ensures step { (views : ServerViews) (tags : Tags)
        → (if success then ends_well (before_proposal AfterResponse) vars.old views id tags
        else ends_badly (before_proposal AfterResponse) vars.old views id tags)
        ≡ answer (step_with result packet.new tags) (record { vars = vars.new; views = views }) }
    ensures capacity { MayWrap result.sends packet.new }
    ensures setup { vars.new.setup ≡ vars.old.setup }
    ensures order { AreInOrder vars.old → AreInOrder vars.new }
{
    if success {
        vars.state = State::Success;
        write_end(packet, Code::Success, id);
        ending(ProposalPath::AfterResponse, State::Success)
    } else {
        vars.state = State::Failure;
        write_end(packet, Code::Failure, id);
        ending(ProposalPath::AfterResponse, State::Failure)
    }
}
