//! Checking and answering GPSK-2 (RFC 5433 section 10).

ghost use Rattle.std.specs.Prelude.{◌≡◌, ◌≤◌, ℕ, List, length, true, All, IsTrue, IfSome, None};
ghost use Rattle.std.specs.Prelude.{option_copied};
ghost use Rattle.octet_lists.specs.Among.{gpsk_kind};
ghost use Rattle.octet_lists.specs.Sizes.{max_name};
ghost use Rattle.octet_lists.specs.Suite.{ks_of};
ghost use Rattle.eap_packet.specs.Packet.{max_type_data};
ghost use Rattle.login_setup.specs.Setup.{has_valid_key};
ghost use Rattle.login_setup.specs.Users.{user_of};
ghost use Rattle.gpsk_messages.specs.Message.{message_of};
ghost use Rattle.gpsk_messages.specs.Reading.{read_of};
ghost use Rattle.eap_method.specs.GpskServer.{checks, refusing, refuses, answers, asked_receives};
ghost use Rattle.eap_method.specs.GpskServer.{asked_reads};
ghost use Rattle.eap_method.specs.declared.values.ServerSide.{ServerSide};
ghost use Rattle.eap_method.specs.Capacity.{HasCapacity, requests};
ghost use Rattle.login_keys.specs.GpskMacKey.{IsMacKey};
ghost use Rattle.gpsk_ends.specs.Classified.{IsReceived};
ghost use Rattle.gpsk_ends.specs.ServerStage.{outcome_with, view_in, view_of, login_of, added_with};
ghost use Rattle.gpsk_ends.specs.ServerStage.{keys_with, login_with, IsConsistent, IsReady};
ghost use Rattle.gpsk_ends.specs.declared.server.stage.Alone.TheVariants.{Asked};
ghost use Rattle.gpsk_ends.specs.declared.server.stage.Phase.TheVariants.{Checked};
ghost use Rattle.gpsk_ends.specs.declared.server.stage.Progress.TheVariants as stage;
ghost use Rattle.eap_method.specs.declared.turn.ServerAnswer.TheVariants.{Request};

use crate::keys::{Keys, is_tagged};
use crate::receiving::receive;
use crate::server::login::{Initial, Login};
use crate::server::stage::{Added, Alone, Phase, Progress};
use eap_method::{Records, ServerAnswer, Tags};
use eap_packet::{Cause, Code};
use gpsk_messages::{Gpsk2, GpskMessage, write_gpsk_into};
use login_keys::{GpskKeys, MacKey};
use login_setup::User;
use octet_lists::{GPSK_KIND, Octets, Packet};

/// Failure-Code PSK Not Found (RFC 5433 section 9.3).
pub const PSK_NOT_FOUND: u32 = 1;

/// GPSK-2 of a user that the server doesn't know is answered by GPSK-Fail.
#[tactic(auto, unfolding(eap_method::specs::GpskServer::refuses))]
fn refuse<R: Records>(next_id: u8, packet: &mut Packet, tags: &mut Tags<R>)
    ensures turn { (own : ServerSide) (nonce : List ℕ) →
        outcome_with Request packet.new tags.new (refusing own nonce) ≡ refuses own nonce next_id }
    ensures capacity { HasCapacity packet.new }
{
    let message = GpskMessage::Fail {
        code: PSK_NOT_FOUND,
    };
    write_gpsk_into(packet, &message, Code::Request, next_id);
    tags.clear();
}

/// GPSK-2 with its MAC is answered by GPSK-3, that of a barred user by GPSK-Protected-Fail.
#[tactic(auto, unfolding(eap_method::specs::GpskServer::answers))]
fn answer<R: Records>(
    own: &Initial,
    added: &Added,
    barred: bool,
    next_id: u8,
    view: &GpskMessage,
    body: &[u8],
    packet: &mut Packet,
    tags: &mut Tags<R>,
) -> Phase
    requires received { IsReceived (message_of view.now) body.now }
    requires ready { IsConsistent own.now added.now }
    ensures turn { let login = login_of own.now added.now in
        outcome_with Request packet.new tags.new (view_in login result)
        ≡ answers login barred next_id (message_of view.now) }
    ensures capacity { HasCapacity packet.new }
{
    let login = Login { own, added };
    login.accept(view, body, &mut tags.accepted);
    if barred {
        login.protected_fail(next_id, packet, &mut tags.made);
        Phase::Barring
    } else {
        login.gpsk3(next_id, packet, &mut tags.made);
        Phase::Checked
    }
}

/// The user of this name, with a key for EAP-GPSK.
#[tactic(auto, using(crate::proofs::UserKeys::key_is_long))]
fn find_user<'a>(users: &'a [User], id_p: &[u8]) -> Option<&'a User>
    requires { All (λ user. IsTrue (has_valid_key user)) users.now }
    ensures found { option_copied result ≡ user_of users.now id_p.now gpsk_kind }
    ensures key { IfSome result (λ user. 32 ≤ length user.now.psk) }
{
    login_setup::find_user(users, id_p, GPSK_KIND)
}

/// The login begins. It is never inlined, so that what the answer needs does not lie above what the login adds on the stack.
#[inline(never)]
fn settle(
    own: &Initial,
    progress: &mut Progress,
    gpsk2: &Gpsk2,
    user: &User,
    keys: GpskKeys,
    mac: MacKey,
)
    requires name { length gpsk2.now.id_p.now ≤ max_name }
    requires keys { keys ≡ (keys_with own.now.side own.now.nonce gpsk2.now user.now).keys }
    requires mac { IsMacKey mac gpsk2.now.suite keys.sk }
    ensures added { progress.new
        ≡ stage.Login (added_with own.now.side own.now.nonce gpsk2.now user.now) Checked }
    ensures ready { IsReady own.now progress.new }
{
    let added = Added {
        id_p: Octets::of(gpsk2.id_p),
        psk: user.psk.copy(),
        rand_p: gpsk2.rand_p,
        keys: Keys::of(gpsk2.suite, keys, mac),
    };
    let phase = Phase::Checked;
    *progress = Progress::Login { added, phase };
}

/// GPSK-2 without a fault is answered, and the login begins. It is never inlined, so that no SK is expanded above what the
/// answer needs on the stack.
#[inline(never)]
fn log_in<R: Records>(
    own: &Initial,
    progress: &mut Progress,
    gpsk2: &Gpsk2,
    user: &User,
    keys: GpskKeys,
    mac: MacKey,
    next_id: u8,
    view: &GpskMessage,
    body: &[u8],
    packet: &mut Packet,
    tags: &mut Tags<R>,
) -> ServerAnswer
    requires received { IsReceived (message_of view.now) body.now }
    requires name { length gpsk2.now.id_p.now ≤ max_name }
    requires keys { keys ≡ (keys_with own.now.side own.now.nonce gpsk2.now user.now).keys }
    requires mac { IsMacKey mac gpsk2.now.suite keys.sk }
    ensures turn { outcome_with result packet.new tags.new (view_of own.now progress.new)
        ≡ answers (login_with own.now.side own.now.nonce gpsk2.now user.now) user.now.barred next_id
        (message_of view.now) }
    ensures ready { IsReady own.now progress.new }
    ensures capacity { requests result ≡ true → HasCapacity packet.new }
{
    settle(own, progress, gpsk2, user, keys, mac);
    let Progress::Login { added, phase } = progress else {
        return ServerAnswer::Discard(Cause::WrongOp);
    };
    *phase = answer(own, added, user.barred, next_id, view, body, packet, tags);
    ServerAnswer::Request
}

/// GPSK-2 of a user under these keys. `BadTag`: its MAC is wrong. It is never inlined, so that no keys are derived above SK that
/// is expanded on the stack.
#[inline(never)]
fn check<R: Records>(
    own: &Initial,
    progress: &mut Progress,
    gpsk2: &Gpsk2,
    user: &User,
    keys: GpskKeys,
    next_id: u8,
    view: &GpskMessage,
    body: &[u8],
    packet: &mut Packet,
    tags: &mut Tags<R>,
) -> ServerAnswer
    requires received { IsReceived (message_of view.now) body.now }
    requires name { length gpsk2.now.id_p.now ≤ max_name }
    requires asked { progress.old ≡ stage.Alone Asked }
    requires keys { keys ≡ (keys_with own.now.side own.now.nonce gpsk2.now user.now).keys }
    requires size { length keys.sk ≡ ks_of gpsk2.now.suite }
    ensures turn { outcome_with result packet.new tags.new (view_of own.now progress.new)
        ≡ checks (login_with own.now.side own.now.nonce gpsk2.now user.now) user.now.barred next_id
        (message_of view.now) }
    ensures ready { IsReady own.now progress.new }
    ensures capacity { requests result ≡ true → HasCapacity packet.new }
{
    let mac = MacKey::new(gpsk2.suite, keys.sk.as_slice());
    if !is_tagged(&mac, view, body) {
        return ServerAnswer::Discard(Cause::BadTag);
    }
    log_in(
        own, progress, gpsk2, user, keys, mac, next_id, view, body, packet, tags,
    )
}

/// A message at a server that has sent GPSK-1. `FieldMismatch`: GPSK-2 does not repeat what GPSK-1 said.
/// `SuiteNotOffered`: it names a suite that was not offered. `BadTag`: its MAC is wrong; the keys that were
/// derived for it are dropped.
fn asked_receives<R: Records>(
    own: &Initial,
    progress: &mut Progress,
    next_id: u8,
    view: &GpskMessage,
    body: &[u8],
    users: &[User],
    packet: &mut Packet,
    tags: &mut Tags<R>,
) -> ServerAnswer
    requires received { IsReceived (message_of view.now) body.now }
    requires asked { progress.old ≡ stage.Alone Asked }
    requires keys { All (λ user. IsTrue (has_valid_key user)) users.now }
    ensures turn { outcome_with result packet.new tags.new (view_of own.now progress.new)
        ≡ asked_receives users.now own.now.side own.now.nonce next_id (message_of view.now) }
    ensures ready { IsReady own.now progress.new }
    ensures capacity { requests result ≡ true → HasCapacity packet.new }
{
    let GpskMessage::M2(gpsk2) = view else {
        return ServerAnswer::Discard(Cause::WrongOp);
    };
    if !own.repeats(gpsk2) {
        return ServerAnswer::Discard(Cause::FieldMismatch);
    }
    if !own.offers(gpsk2.suite) {
        return ServerAnswer::Discard(Cause::SuiteNotOffered);
    }
    let Some(user) = find_user(users, gpsk2.id_p) else {
        refuse(next_id, packet, tags);
        let phase = Alone::Refusing;
        *progress = Progress::Alone { phase };
        return ServerAnswer::Request;
    };
    let keys = own.keys(gpsk2, user);
    check(
        own, progress, gpsk2, user, keys, next_id, view, body, packet, tags,
    )
}

/// The Type-Data at a server that has sent GPSK-1.
pub fn asked_reads<R: Records>(
    own: &Initial,
    progress: &mut Progress,
    next_id: u8,
    body: &[u8],
    users: &[User],
    packet: &mut Packet,
    tags: &mut Tags<R>,
) -> ServerAnswer
    requires size { length body.now ≤ max_type_data }
    requires asked { progress.old ≡ stage.Alone Asked }
    requires keys { All (λ user. IsTrue (has_valid_key user)) users.now }
    ensures turn { outcome_with result packet.new tags.new (view_of own.now progress.new)
        ≡ asked_reads users.now own.now.side own.now.nonce next_id (read_of None body.now) }
    ensures ready { IsReady own.now progress.new }
    ensures capacity { requests result ≡ true → HasCapacity packet.new }
{
    match &receive(body, None) {
        Err(cause) => ServerAnswer::Discard(*cause),
        Ok(view) => asked_receives(own, progress, next_id, view, body, users, packet, tags),
    }
}
