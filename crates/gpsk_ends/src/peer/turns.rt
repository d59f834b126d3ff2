//! A peer's turn for each Request (RFC 5433 section 10).

ghost use Rattle.std.specs.Prelude.{◌≡◌, ◌≤◌, length, true, not, None, Some};
ghost use Rattle.login_setup.specs.Setup.{accepts_name};
ghost use Rattle.octet_lists.specs.Suite.{ks_of};
ghost use Rattle.octet_lists.specs.Sizes.{max_packet};
ghost use Rattle.eap_packet.specs.declared.cause.Cause.TheVariants.{BadTag};
ghost use Rattle.eap_packet.specs.Packet.{max_type_data};
ghost use Rattle.gpsk_messages.specs.Message.{max_list, message_of};
ghost use Rattle.gpsk_messages.specs.Reading.{read_of};
ghost use Rattle.eap_method.specs.Turns.{fault_if, discarded};
ghost use Rattle.eap_method.specs.GpskPeer.{answers, fresh_reads, over, over_reads, step};
ghost use Rattle.eap_method.specs.GpskPeer.{confirms, repeats_fail, repeats_protected};
ghost use Rattle.eap_method.specs.GpskPeer.{is_tagged_by, wait_reads};
ghost use Rattle.eap_method.specs.Capacity.{HasCapacity, replies};
ghost use Rattle.login_keys.specs.GpskMacKey.{IsMacKey};
ghost use Rattle.gpsk_ends.specs.Classified.{IsReceived};
ghost use Rattle.gpsk_ends.specs.PeerStage.{view_in, view_of, outcome_with, keys_with, login_of};
ghost use Rattle.gpsk_ends.specs.PeerStage.{login_with, AreReady, IsReady};
ghost use Rattle.gpsk_ends.specs.declared.peer.stage.Phase.TheVariants.{Wait};
ghost use Rattle.gpsk_ends.specs.declared.peer.stage.Progress.TheVariants.{Fresh};
ghost use Rattle.eap_method.specs.declared.turn.PeerAnswer.TheVariants.{Reply};
ghost use Rattle.eap_method.specs.declared.values.MethodState.TheVariants.{Cont};
ghost use Rattle.eap_method.specs.declared.values.Decision.TheVariants.{Fail};

use crate::keys::Keys;
use crate::peer::gpsk1::fresh_reads;
use crate::peer::login::{Login, keys_for};
use crate::peer::offer::Offer;
use crate::peer::stage::{Added, Phase, Progress, Stage};
use crate::receiving::receive;
use eap_method::{Decision, MethodState, PeerAnswer, PeerSide, Records, Tags};
use eap_packet::{Cause, Code};
use gpsk_messages::{GpskMessage, write_gpsk_into};
use login_keys::{GpskKeys, MacKey};
use octet_lists::{Nonce, Packet};

/// The login's GPSK-1 is answered by GPSK-2. `list` is the CSuite_List of GPSK-1.
#[tactic(auto, unfolding(eap_method::specs::GpskPeer::answers))]
fn answer<R: Records>(
    login: &Login,
    id: u8,
    list: &[u8],
    packet: &mut Packet,
    tags: &mut Tags<R>,
) -> PeerAnswer
    requires { length list.now ≤ max_list }
    ensures turn { outcome_with result packet.new tags.new (view_in login.now Wait)
        ≡ answers login.now id list.now }
    ensures capacity { HasCapacity packet.new }
{
    tags.accepted.clear();
    login.gpsk2(id, list, packet, &mut tags.made);
    PeerAnswer::Reply {
        state: MethodState::Cont,
        decision: Decision::Fail,
    }
}

/// The offer that a peer accepts is answered by GPSK-2, and the login begins. It is never inlined, so that no SK is expanded above
/// the keys' place.
#[inline(never)]
fn log_in<R: Records>(
    side: &mut PeerSide,
    nonce: &Nonce,
    progress: &mut Progress,
    offer: &Offer,
    keys: GpskKeys,
    mac: MacKey,
    id: u8,
    packet: &mut Packet,
    tags: &mut Tags<R>,
) -> PeerAnswer
    requires accepted { accepts_name side.old.cred.accepts offer.now.id_s.now ≡ true }
    requires keys { keys ≡ (keys_with side.old.cred nonce.now offer.now).keys }
    requires mac { IsMacKey mac offer.now.suite keys.sk }
    ensures turn { outcome_with result packet.new tags.new (view_of side.new nonce.now progress.new)
        ≡ answers (login_with side.old.cred nonce.now offer.now) id offer.now.list.now }
    ensures ready { IsReady side.new nonce.now progress.new }
    ensures capacity { HasCapacity packet.new }
{
    side.set_server(offer.id_s);
    let added = Added {
        rand_s: offer.rand_s,
        keys: Keys::of(offer.suite, keys, mac),
    };
    let login = Login {
        side,
        nonce,
        added: &added,
    };
    let turn = answer(&login, id, offer.list, packet, tags);
    let phase = Phase::Wait;
    *progress = Progress::Known { added, phase };
    turn
}

/// The login begins with these keys. It is never inlined, so that no keys are derived above SK that is expanded on the stack.
#[inline(never)]
fn expand<R: Records>(
    side: &mut PeerSide,
    nonce: &Nonce,
    progress: &mut Progress,
    offer: &Offer,
    keys: GpskKeys,
    id: u8,
    packet: &mut Packet,
    tags: &mut Tags<R>,
) -> PeerAnswer
    requires accepted { accepts_name side.old.cred.accepts offer.now.id_s.now ≡ true }
    requires keys { keys ≡ (keys_with side.old.cred nonce.now offer.now).keys }
    requires size { length keys.sk ≡ ks_of offer.now.suite }
    ensures turn { outcome_with result packet.new tags.new (view_of side.new nonce.now progress.new)
        ≡ answers (login_with side.old.cred nonce.now offer.now) id offer.now.list.now }
    ensures ready { IsReady side.new nonce.now progress.new }
    ensures capacity { HasCapacity packet.new }
{
    let mac = MacKey::new(offer.suite, keys.sk.as_slice());
    log_in(side, nonce, progress, offer, keys, mac, id, packet, tags)
}

/// The Type-Data at a peer that has begun.
fn answer_first<R: Records>(
    side: &mut PeerSide,
    nonce: &Nonce,
    progress: &mut Progress,
    id: u8,
    body: &[u8],
    packet: &mut Packet,
    tags: &mut Tags<R>,
) -> PeerAnswer
    requires size { length body.now ≤ max_type_data }
    requires fresh { progress.old ≡ Fresh }
    requires key { 32 ≤ length side.old.cred.psk }
    ensures turn { outcome_with result packet.new tags.new (view_of side.new nonce.now progress.new)
        ≡ fresh_reads side.old.cred nonce.now id (read_of None body.now) }
    ensures ready { IsReady side.new nonce.now progress.new }
    ensures capacity { replies result ≡ true → HasCapacity packet.new }
{
    match fresh_reads(side, body) {
        Err(cause) => PeerAnswer::Discard(cause),
        Ok(offer) => {
            let keys = keys_for(side, nonce, &offer);
            expand(side, nonce, progress, &offer, keys, id, packet, tags)
        }
    }
}

/// GPSK-3 that repeats the fields of the login, whose MAC is checked again, is answered by GPSK-4, and the login has succeeded. It
/// is never inlined, so that the second check is one of its own. `BadTag`: its MAC is wrong.
#[tactic(auto, unfolding(eap_method::specs::GpskPeer::confirms))]
#[inline(never)]
fn confirm_again<R: Records>(
    login: &Login,
    phase: &mut Phase,
    id: u8,
    view: &GpskMessage,
    body: &[u8],
    packet: &mut Packet,
    tags: &mut Tags<R>,
) -> PeerAnswer
    requires received { IsReceived (message_of view.now) body.now }
    requires waits { phase.old ≡ Wait }
    ensures turn { outcome_with result packet.new tags.new (view_in login.now phase.new)
        ≡ confirms login.now id (message_of view.now)
        (fault_if (not (is_tagged_by login.now (message_of view.now))) BadTag None) }
    ensures capacity { replies result ≡ true → HasCapacity packet.new }
{
    if login.is_tagged(view, body) {
        login.accept(view, body, &mut tags.accepted);
        login.gpsk4(id, packet, &mut tags.made);
        *phase = Phase::Over { good: true };
        PeerAnswer::Reply {
            state: MethodState::Done,
            decision: Decision::CondSucc,
        }
    } else {
        PeerAnswer::Discard(Cause::BadTag)
    }
}

/// GPSK-3 that repeats the fields of the login is answered by GPSK-4, and the login has succeeded. Its MAC is checked twice, so that
/// one check is left where a processor skips an instruction of the other. `BadTag`: its MAC is wrong.
#[tactic(auto, unfolding(eap_method::specs::GpskPeer::confirms))]
fn confirm<R: Records>(
    login: &Login,
    phase: &mut Phase,
    id: u8,
    view: &GpskMessage,
    body: &[u8],
    packet: &mut Packet,
    tags: &mut Tags<R>,
) -> PeerAnswer
    requires received { IsReceived (message_of view.now) body.now }
    requires waits { phase.old ≡ Wait }
    ensures turn { outcome_with result packet.new tags.new (view_in login.now phase.new)
        ≡ confirms login.now id (message_of view.now)
        (fault_if (not (is_tagged_by login.now (message_of view.now))) BadTag None) }
    ensures capacity { replies result ≡ true → HasCapacity packet.new }
{
    if !login.is_tagged(view, body) {
        return PeerAnswer::Discard(Cause::BadTag);
    }
    confirm_again(login, phase, id, view, body, packet, tags)
}

/// GPSK-Fail is answered by itself, and the login is over.
fn repeat_fail<R: Records>(
    login: &Login,
    phase: &mut Phase,
    id: u8,
    code: u32,
    packet: &mut Packet,
    tags: &mut Tags<R>,
) -> PeerAnswer
    ensures turn { outcome_with result packet.new tags.new (view_in login.now phase.new)
        ≡ repeats_fail login.now id code }
    ensures capacity { HasCapacity packet.new }
{
    write_gpsk_into(packet, &GpskMessage::Fail { code }, Code::Response, id);
    tags.clear();
    *phase = Phase::Over { good: false };
    PeerAnswer::Reply {
        state: MethodState::MayCont,
        decision: Decision::Fail,
    }
}

/// GPSK-Protected-Fail is answered by one with the same code, and the login is over. `BadTag`: its MAC
/// is wrong.
#[tactic(auto, unfolding(eap_method::specs::GpskPeer::repeats_protected))]
fn repeat_protected<R: Records>(
    login: &Login,
    phase: &mut Phase,
    id: u8,
    code: u32,
    view: &GpskMessage,
    body: &[u8],
    packet: &mut Packet,
    tags: &mut Tags<R>,
) -> PeerAnswer
    requires received { IsReceived (message_of view.now) body.now }
    requires waits { phase.old ≡ Wait }
    ensures turn { outcome_with result packet.new tags.new (view_in login.now phase.new)
        ≡ repeats_protected login.now id code (message_of view.now)
        (fault_if (not (is_tagged_by login.now (message_of view.now))) BadTag None) }
    ensures capacity { replies result ≡ true → HasCapacity packet.new }
{
    if !login.is_tagged(view, body) {
        return PeerAnswer::Discard(Cause::BadTag);
    }
    login.accept(view, body, &mut tags.accepted);
    login.protected_fail(id, code, packet, &mut tags.made);
    *phase = Phase::Over { good: false };
    PeerAnswer::Reply {
        state: MethodState::MayCont,
        decision: Decision::Fail,
    }
}

/// The Type-Data at a peer that has sent GPSK-2. `FieldMismatch`: GPSK-3 does not repeat the fields of
/// the login.
#[tactic(auto, unfolding(eap_method::specs::GpskPeer::confirms))]
fn wait_reads<R: Records>(
    login: &Login,
    phase: &mut Phase,
    id: u8,
    body: &[u8],
    packet: &mut Packet,
    tags: &mut Tags<R>,
) -> PeerAnswer
    requires size { length body.now ≤ max_type_data }
    requires waits { phase.old ≡ Wait }
    ensures turn { outcome_with result packet.new tags.new (view_in login.now phase.new)
        ≡ wait_reads login.now id (read_of (Some (ks_of login.now.suite)) body.now) }
    ensures capacity { replies result ≡ true → HasCapacity packet.new }
{
    match receive(body, Some(login.suite())) {
        Err(cause) => PeerAnswer::Discard(cause),
        Ok(view) => match &view {
            GpskMessage::M3(gpsk3) => {
                if login.repeats(gpsk3) {
                    confirm(login, phase, id, &view, body, packet, tags)
                } else {
                    PeerAnswer::Discard(Cause::FieldMismatch)
                }
            }
            GpskMessage::Fail { code } => repeat_fail(login, phase, id, *code, packet, tags),
            GpskMessage::ProtectedFail { code, .. } => {
                repeat_protected(login, phase, id, *code, &view, body, packet, tags)
            }
            _ => PeerAnswer::Discard(Cause::WrongOp),
        },
    }
}

/// Why a peer whose login is over discards the Type-Data: it accepts nothing.
fn over_cause(login: &Login, good: bool, body: &[u8]) -> Cause
    requires { length body.now ≤ max_type_data }
    ensures { discarded (over login.now good) result
        ≡ over_reads login.now good (read_of (Some (ks_of login.now.suite)) body.now) }
{
    match receive(body, Some(login.suite())) {
        Err(cause) => cause,
        Ok(_) => Cause::WrongOp,
    }
}

/// A Request at a peer that has a login. It is never inlined, so that its message does not lie above keys that are derived.
#[tactic(auto, unfolding(eap_method::specs::GpskPeer::step))]
#[inline(never)]
fn known_reads<R: Records>(
    side: &PeerSide,
    nonce: &Nonce,
    added: &Added,
    phase: &mut Phase,
    request: &[u8],
    packet: &mut Packet,
    tags: &mut Tags<R>,
) -> PeerAnswer
    requires header { 5 ≤ length request.now }
    requires size { length request.now ≤ max_packet }
    requires ready { AreReady side.now nonce.now added.now.rand_s added.now.keys }
    ensures turn { let login = login_of side.now nonce.now added.now.rand_s added.now.keys in
        outcome_with result packet.new tags.new (view_in login phase.new)
        ≡ step (view_in login phase.old) request.now }
    ensures capacity { replies result ≡ true → HasCapacity packet.new }
{
    let id = request[1];
    let body = &request[5..];
    let login = Login { side, nonce, added };
    match phase {
        Phase::Wait => wait_reads(&login, phase, id, body, packet, tags),
        Phase::Over { good } => PeerAnswer::Discard(over_cause(&login, *good, body)),
    }
}

/// The turn for the octets of a Request of Type 51. After a discard `packet` and `tags` are unspecified.
#[tactic(auto, unfolding(eap_method::specs::GpskPeer::step))]
pub fn handle_request<R: Records>(
    stage: &mut Stage,
    request: &[u8],
    packet: &mut Packet,
    tags: &mut Tags<R>,
) -> PeerAnswer
    requires header { 5 ≤ length request.now }
    requires size { length request.now ≤ max_packet }
    ensures turn { outcome_with result packet.new tags.new stage.new ≡ step stage.old request.now }
    ensures capacity { replies result ≡ true → HasCapacity packet.new }
{
    let id = request[1];
    let body = &request[5..];
    match &mut stage.progress {
        Progress::Unset => PeerAnswer::Discard(Cause::WrongOp),
        Progress::Fresh => answer_first(
            &mut stage.side,
            &stage.nonce,
            &mut stage.progress,
            id,
            body,
            packet,
            tags,
        ),
        Progress::Known { added, phase } => {
            let (side, nonce) = (&stage.side, &stage.nonce);
            known_reads(side, nonce, added, phase, request, packet, tags)
        }
    }
}
