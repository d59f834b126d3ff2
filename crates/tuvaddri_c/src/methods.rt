//! The methods alone, for a program with machines of its own.

ghost use Rattle.std.specs.Prelude.{◌≡◌, true, false, Ok, Err, None, IfSome, IfOk, IfErr};
ghost use Rattle.eap_packet.specs.Fault.{packet_of};
ghost use Rattle.eap_method.specs.Peer.{peer_kind, peer_step, IsRequest};
ghost use Rattle.eap_method.specs.Server.{server_kind, server_step, server_first_step, IsResponse};
ghost use Rattle.end_objects.specs.Objects.{peer_object_shown, server_object_shown};
ghost use Rattle.end_objects.specs.Refusals.{IsSoundOther, peer_refusal, server_refusal};
ghost use Rattle.end_objects.specs.Settings.{settings_of, first_kind, users_of, credential_of};
ghost use Rattle.end_objects.specs.Settings.{side_of};
ghost use Rattle.tuvaddri_c.specs.Answers.{ok, no_memory, refusal_number};
ghost use Rattle.tuvaddri_c.specs.ByMethod.{peer_fresh, server_fresh};
ghost use Rattle.tuvaddri_c.specs.Sent.{sent_of, sent_packet, none_sent};
ghost use Rattle.tuvaddri_c.specs.declared.session.End.TheVariants as ends;
ghost use Rattle.tuvaddri_c.specs.Methods.{IfPeerMethod, AsPeerMethod, IfServerMethod};
ghost use Rattle.tuvaddri_c.specs.Methods.{AsServerMethod, PeerTurns, ServerTurns, request_in};
ghost use Rattle.tuvaddri_c.specs.Methods.{response_in, is_peer_method, is_server_method};
ghost use Rattle.tuvaddri_c.specs.Methods.{IsMisplaced, IsDiscarded};

use crate::answers::{NO_MEMORY, STARTED, number_of_refusal};
use crate::handle::TuvEnd;
use crate::method_turn::TuvMethodTurn;
use crate::sent::{empty_packet, store_sent};
use crate::session::{CheckedUsers, End};
use crate::users::put;
use eap_method::{NoRecords, PeerMethod, ServerMethod, Tags};
use eap_packet::{Cause, Code, decode};
use end_objects::{
    PeerObject, ServerObject, Settings, credential, first_kind, peer_object, peer_refusal,
    server_object, server_refusal, server_side,
};
use login_setup::UserList;
use octet_lists::{Nonce, Packet, Secret};
use std::alloc::Global;

/// Makes the end this peer's method. (By itself, since the compiler then builds it where it stays.)
fn store_peer(end: &mut End, object: PeerObject, key: Secret, last: Box<Packet>)
    ensures { end.new ≡ ends.PeerMethod object key last }
{
    *end = End::PeerMethod(object, key, last);
}

/// Makes the end the first of the peer's methods, alone, which has begun, and answers 0. Else it answers the number of
/// the refusal, or 8 for want of memory, and the end stays as it was.
#[unsafe(no_mangle)]
#[tactic(auto, using(crate::proofs::Fresh::peer_is_fresh))]
pub extern "C" fn tuv_peer_method_begin(
    alloc: Global,
    end: &mut TuvEnd,
    settings: &Settings,
    nonce: &Nonce,
) -> u8
    ensures refused { IfSome (peer_refusal (settings_of settings.now))
        (λ reason. result ≡ refusal_number reason) }
    ensures started { peer_refusal (settings_of settings.now) ≡ None → (result ≡ no_memory → ⊥)
        → result ≡ ok }
    ensures initial { result ≡ ok → AsPeerMethod end.new.value.end (λ n key.
        (key ≡ (credential_of (settings_of settings.now)).psk)
        × (peer_object_shown n ≡ peer_fresh (first_kind (settings_of settings.now)) (credential_of
        (settings_of settings.now)) nonce.now)) }
    ensures sent { result ≡ ok → sent_of end.new.value ≡ none_sent }
    ensures unchanged { (result ≡ ok → ⊥) → end.new.value ≡ end.old.value }
{
    if let Some(refusal) = peer_refusal(settings) {
        return number_of_refusal(refusal);
    }
    let Some(last) = empty_packet(alloc) else {
        return NO_MEMORY;
    };
    let credential = credential(settings);
    let mut object = peer_object(first_kind(settings));
    object.begin(&credential, nonce);
    let session = end.session();
    store_peer(&mut session.end, object, credential.psk.copy(), last);
    session.fresh = false;
    STARTED
}

/// The Request of this Type with which the octets begin.
#[tactic(auto, using(peer_machine::proofs::Requests::is_request))]
fn request_of<'a>(octets: &'a [u8], kind: u8) -> Result<&'a [u8], Cause>
    ensures found { IfOk result (λ whole. request_in kind (packet_of octets.now) ≡ Ok whole.now) }
    ensures none { IfErr result (λ cause. request_in kind (packet_of octets.now) ≡ Err cause) }
    ensures request { IfOk result (λ whole. IsRequest kind whole.now) }
{
    match decode(octets) {
        Err(cause) => Err(cause),
        Ok(view) => match view.code {
            Code::Request if view.kind == kind => Ok(view.whole),
            Code::Request => Err(Cause::OtherMethod),
            Code::Response | Code::Success | Code::Failure => Err(Cause::WrongRole),
        },
    }
}

/// Octets arrive at a peer's method. Octets that begin with no Request of its Type are silently discarded, and change
/// nothing.
#[unsafe(no_mangle)]
#[tactic(auto, using(crate::proofs::Does::peer_turns))]
pub extern "C" fn tuv_peer_method_handle(end: &mut TuvEnd, octets: &[u8]) -> TuvMethodTurn
    ensures turn { IfPeerMethod end.old.value.end (λ o key.
        IfOk (request_in (peer_kind (peer_object_shown o)) (packet_of octets.now)) (λ whole.
        AsPeerMethod end.new.value.end (λ n after. (after ≡ key)
        × PeerTurns (peer_step (peer_object_shown o) whole)
        (sent_of end.old.value) result (sent_of end.new.value) n))) }
    ensures discarded { IfPeerMethod end.old.value.end (λ o key.
        IfErr (request_in (peer_kind (peer_object_shown o)) (packet_of octets.now)) (λ cause.
        IsDiscarded cause end.old.value result end.new.value)) }
    ensures misplaced { is_peer_method end.old.value.end ≡ false
        → IsMisplaced end.old.value result end.new.value }
{
    let session = end.session();
    match &mut session.end {
        End::PeerMethod(object, _, last) => match request_of(octets, object.kind()) {
            Err(cause) => TuvMethodTurn::discard(cause, &mut session.fresh),
            Ok(whole) => {
                let mut packet = Packet::new();
                let mut tags: Tags<NoRecords> = Tags::new();
                let turn = TuvMethodTurn::of_peer(object.handle_unrecorded(
                    whole,
                    &mut packet,
                    &mut tags,
                ));
                store_sent(turn.sends, packet.as_slice(), last, &mut session.fresh);
                turn
            }
        },
        _ => TuvMethodTurn::none(&mut session.fresh),
    }
}

/// Makes the end this server's method. (By itself, since the compiler then builds it where it stays.)
fn store_server(end: &mut End, object: ServerObject, settings: &Settings, last: Box<Packet>)
    requires { IsSoundOther (settings_of settings.now) }
    ensures method { AsServerMethod end.new
        (λ n known. (n ≡ object) × (known.users ≡ users_of (settings_of settings.now))) }
    ensures sent { sent_packet end.new ≡ last.value }
{
    let users = UserList::new();
    *end = End::ServerMethod(object, CheckedUsers { users }, last);
    match end {
        End::ServerMethod(_, known, _) => put(known, settings),
        _ => {}
    }
}

/// Makes the end the first of the server's methods, alone, which has begun and written its first Request, with this
/// Identifier, and answers 0. Else it answers as `tuv_peer_method_begin`.
#[unsafe(no_mangle)]
#[tactic(auto, using(crate::proofs::Sides::side_has_suites, crate::proofs::Fresh::server_is_fresh, eap_method::proofs::ServerViews::begun_initiates))]
pub extern "C" fn tuv_server_method_begin(
    alloc: Global,
    end: &mut TuvEnd,
    settings: &Settings,
    nonce: &Nonce,
    id: u8,
) -> u8
    ensures refused { IfSome (server_refusal (settings_of settings.now))
        (λ reason. result ≡ refusal_number reason) }
    ensures started { server_refusal (settings_of settings.now) ≡ None → (result ≡ no_memory → ⊥)
        → result ≡ ok }
    ensures initial { result ≡ ok → AsServerMethod end.new.value.end (λ n known.
        (known.users ≡ users_of (settings_of settings.now))
        × (server_first_step (server_fresh (first_kind (settings_of settings.now))
        (side_of (settings_of settings.now)) nonce.now) id
        ≡ record { packet = sent_packet end.new.value.end; after = server_object_shown n })) }
    ensures sent { result ≡ ok → end.new.value.fresh ≡ true }
    ensures unchanged { (result ≡ ok → ⊥) → end.new.value ≡ end.old.value }
{
    if let Some(refusal) = server_refusal(settings) {
        return number_of_refusal(refusal);
    }
    let Some(last) = empty_packet(alloc) else {
        return NO_MEMORY;
    };
    let mut last = last;
    let own = server_side(settings);
    let mut object = server_object(first_kind(settings));
    object.begin(&own, nonce);
    object.first_into(id, &mut last);
    let session = end.session();
    store_server(&mut session.end, object, settings, last);
    session.fresh = true;
    STARTED
}

/// The Response of this Type with which the octets begin.
#[tactic(auto, using(server_machine::proofs::Responses::is_response))]
fn response_of<'a>(octets: &'a [u8], kind: u8) -> Result<&'a [u8], Cause>
    ensures found { IfOk result (λ whole. response_in kind (packet_of octets.now) ≡ Ok whole.now) }
    ensures none { IfErr result (λ cause. response_in kind (packet_of octets.now) ≡ Err cause) }
    ensures response { IfOk result (λ whole. IsResponse kind whole.now) }
{
    match decode(octets) {
        Err(cause) => Err(cause),
        Ok(view) => match view.code {
            Code::Response if view.kind == kind => Ok(view.whole),
            Code::Response => Err(Cause::WrongMethod),
            Code::Request | Code::Success | Code::Failure => Err(Cause::WrongRole),
        },
    }
}

/// Octets arrive at a server's method; a Request that follows has the Identifier `next_id`. Octets that begin with
/// no Response of its Type are silently discarded, and change nothing.
#[unsafe(no_mangle)]
#[tactic(auto, using(crate::proofs::Does::server_turns))]
pub extern "C" fn tuv_server_method_handle(
    end: &mut TuvEnd,
    octets: &[u8],
    next_id: u8,
) -> TuvMethodTurn
    ensures turn { IfServerMethod end.old.value.end (λ o known.
        IfOk (response_in (server_kind (server_object_shown o)) (packet_of octets.now)) (λ whole.
        AsServerMethod end.new.value.end (λ n after. (after.users ≡ known.users)
        × ServerTurns (server_step known.users next_id (server_object_shown o) whole)
        (sent_of end.old.value) result (sent_of end.new.value) n))) }
    ensures discarded { IfServerMethod end.old.value.end (λ o known.
        IfErr (response_in (server_kind (server_object_shown o)) (packet_of octets.now)) (λ cause.
        IsDiscarded cause end.old.value result end.new.value)) }
    ensures misplaced { is_server_method end.old.value.end ≡ false
        → IsMisplaced end.old.value result end.new.value }
{
    let session = end.session();
    match &mut session.end {
        End::ServerMethod(object, known, last) => match response_of(octets, object.kind()) {
            Err(cause) => TuvMethodTurn::discard(cause, &mut session.fresh),
            Ok(whole) => {
                let mut packet = Packet::new();
                let mut tags: Tags<NoRecords> = Tags::new();
                let turn = object.handle_unrecorded(
                    whole,
                    next_id,
                    known.users.as_slice(),
                    &mut packet,
                    &mut tags,
                );
                let turn = TuvMethodTurn::of_server(turn);
                store_sent(turn.sends, packet.as_slice(), last, &mut session.fresh);
                turn
            }
        },
        _ => TuvMethodTurn::none(&mut session.fresh),
    }
}
