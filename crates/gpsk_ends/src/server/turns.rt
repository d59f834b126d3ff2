//! A server's first Request, and its turn for each Response (RFC 5433 section 10).

ghost use Rattle.std.specs.Prelude.{◌≡◌, ◌≤◌, ℕ, List, ◌∷◌, [], length, true, All, IsTrue, None};
ghost use Rattle.std.specs.Prelude.{Some, option_map};
ghost use Rattle.login_setup.specs.Setup.{has_valid_key};
ghost use Rattle.octet_lists.specs.Suite.{ks_of};
ghost use Rattle.octet_lists.specs.Sizes.{max_packet};
ghost use Rattle.eap_packet.specs.Packet.{max_type_data};
ghost use Rattle.gpsk_messages.specs.Message.{message_of};
ghost use Rattle.gpsk_messages.specs.Reading.{read_of};
ghost use Rattle.eap_method.specs.declared.values.ServerSide.{ServerSide};
ghost use Rattle.eap_method.specs.GpskTags.{sk_record};
ghost use Rattle.eap_method.specs.GpskServer.{View, is_initiated, first_step, refusing_reads, over};
ghost use Rattle.eap_method.specs.GpskServer.{idle_reads, step};
ghost use Rattle.eap_method.specs.GpskServer.{barring_reads, checked_reads};
ghost use Rattle.eap_method.specs.Capacity.{HasCapacity, requests};
ghost use Rattle.eap_method.specs.Turns.{done, dropped};
ghost use Rattle.gpsk_ends.specs.Classified.{IsReceived};
ghost use Rattle.gpsk_ends.specs.ServerStage.{view_alone, view_in, outcome_with, reads_in};
ghost use Rattle.gpsk_ends.specs.ServerStage.{login_of, IsConsistent};
ghost use Rattle.gpsk_ends.specs.declared.server.stage.Alone.TheVariants.{Refusing};
ghost use Rattle.gpsk_ends.specs.declared.server.stage.Phase.TheVariants.{Barring, Checked};

use crate::receiving::receive;
use crate::server::gpsk2::{PSK_NOT_FOUND, asked_reads};
use crate::server::login::{AUTHORIZATION_FAILURE, Initial, Login};
use crate::server::stage::{Added, Alone, Phase, Progress, Stage};
use eap_method::{Records, ServerAnswer, Tags};
use eap_packet::Cause;
use gpsk_messages::GpskMessage;
use login_setup::User;
use octet_lists::{Packet, Suite};

/// The first Request of a server that has begun. Any other makes an empty packet, and stays as it is.
#[tactic(auto, unfolding(eap_method::specs::GpskServer::first_step))]
pub fn ask(stage: &mut Stage, id: u8, packet: &mut Packet)
    ensures first { first_step stage.old id ≡ record { packet = packet.new; after = stage.new } }
    ensures capacity { is_initiated stage.old ≡ true → HasCapacity packet.new }
{
    match &mut stage.progress {
        Progress::Alone { phase } => match phase {
            Alone::Initial => {
                stage.own.gpsk1(id, packet);
                *phase = Alone::Asked;
            }
            _ => packet.clear(),
        },
        _ => packet.clear(),
    }
}

/// The Type-Data at a server that has sent GPSK-Fail: the same failure ends the method. `FieldMismatch`:
/// it is another.
fn refusing_reads<R: Records>(body: &[u8], phase: &mut Alone, tags: &mut Tags<R>) -> ServerAnswer
    requires size { length body.now ≤ max_type_data }
    requires awaits { phase.old ≡ Refusing }
    ensures { (own : ServerSide) (nonce packet : List ℕ) →
        outcome_with result packet tags.new (view_alone own nonce phase.new)
        ≡ refusing_reads own nonce (read_of None body.now) }
{
    match receive(body, None) {
        Err(cause) => ServerAnswer::Discard(cause),
        Ok(GpskMessage::Fail { code }) => {
            if code == PSK_NOT_FOUND {
                tags.clear();
                *phase = Alone::Refused;
                ServerAnswer::Done { success: false }
            } else {
                ServerAnswer::Discard(Cause::FieldMismatch)
            }
        }
        Ok(_) => ServerAnswer::Discard(Cause::WrongOp),
    }
}

/// A message with the MAC of the login ends it.
fn end<R: Records>(
    login: &Login,
    phase: &mut Phase,
    success: bool,
    view: &GpskMessage,
    body: &[u8],
    tags: &mut Tags<R>,
) -> ServerAnswer
    requires { IsReceived (message_of view.now) body.now }
    ensures { (packet : List ℕ) →
        outcome_with result packet tags.new (view_in login.now phase.new)
        ≡ done (over login.now success) success
        (sk_record login.now.psk (message_of view.now) ∷ []) }
{
    login.accept(view, body, &mut tags.accepted);
    tags.made.clear();
    *phase = Phase::Over { good: success };
    ServerAnswer::Done { success }
}

/// The Type-Data at a server that has sent GPSK-Protected-Fail: the same failure ends the method.
/// `FieldMismatch`: it is another. `BadTag`: its MAC is wrong.
#[tactic(auto, unfolding(eap_method::specs::GpskServer::ends))]
fn barring_reads<R: Records>(
    login: &Login,
    phase: &mut Phase,
    body: &[u8],
    tags: &mut Tags<R>,
) -> ServerAnswer
    requires size { length body.now ≤ max_type_data }
    requires awaits { phase.old ≡ Barring }
    ensures { (packet : List ℕ) →
        outcome_with result packet tags.new (view_in login.now phase.new)
        ≡ barring_reads login.now (read_of (Some (ks_of login.now.suite)) body.now) }
{
    match receive(body, Some(login.suite())) {
        Err(cause) => ServerAnswer::Discard(cause),
        Ok(view) => match view {
            GpskMessage::ProtectedFail { code, .. } => {
                if code != AUTHORIZATION_FAILURE {
                    ServerAnswer::Discard(Cause::FieldMismatch)
                } else if login.is_tagged(&view, body) {
                    end(login, phase, false, &view, body, tags)
                } else {
                    ServerAnswer::Discard(Cause::BadTag)
                }
            }
            _ => ServerAnswer::Discard(Cause::WrongOp),
        },
    }
}

/// The Type-Data at a server that has sent GPSK-3: GPSK-4 ends the method with success. `BadTag`: its MAC
/// is wrong.
#[tactic(auto, unfolding(eap_method::specs::GpskServer::ends))]
fn checked_reads<R: Records>(
    login: &Login,
    phase: &mut Phase,
    body: &[u8],
    tags: &mut Tags<R>,
) -> ServerAnswer
    requires size { length body.now ≤ max_type_data }
    requires awaits { phase.old ≡ Checked }
    ensures { (packet : List ℕ) →
        outcome_with result packet tags.new (view_in login.now phase.new)
        ≡ checked_reads login.now (read_of (Some (ks_of login.now.suite)) body.now) }
{
    match receive(body, Some(login.suite())) {
        Err(cause) => ServerAnswer::Discard(cause),
        Ok(view) => match view {
            GpskMessage::M4(_) => {
                if login.is_tagged(&view, body) {
                    end(login, phase, true, &view, body, tags)
                } else {
                    ServerAnswer::Discard(Cause::BadTag)
                }
            }
            _ => ServerAnswer::Discard(Cause::WrongOp),
        },
    }
}

/// Why a server that awaits nothing discards the Type-Data.
fn idle_cause(suite: Option<Suite>, body: &[u8]) -> Cause
    requires { length body.now ≤ max_type_data }
    ensures { (view : View)
        → dropped view result ≡ idle_reads view (read_of (option_map ks_of suite) body.now) }
{
    match receive(body, suite) {
        Err(cause) => cause,
        Ok(_) => Cause::WrongOp,
    }
}

/// The Type-Data at a server in a login.
fn login_reads<R: Records>(
    own: &Initial,
    added: &Added,
    phase: &mut Phase,
    body: &[u8],
    tags: &mut Tags<R>,
) -> ServerAnswer
    requires size { length body.now ≤ max_type_data }
    requires ready { IsConsistent own.now added.now }
    ensures { (packet : List ℕ) → let login = login_of own.now added.now in
        outcome_with result packet tags.new (view_in login phase.new)
        ≡ reads_in login phase.old (read_of (Some (ks_of login.suite)) body.now) }
{
    let login = Login { own, added };
    match phase {
        Phase::Barring => barring_reads(&login, phase, body, tags),
        Phase::Checked => checked_reads(&login, phase, body, tags),
        Phase::Over { .. } => ServerAnswer::Discard(idle_cause(Some(login.suite()), body)),
    }
}

/// The turn for the octets of a Response of Type 51. After a discard `packet` and `tags` are unspecified.
#[tactic(auto, unfolding(eap_method::specs::GpskServer::step))]
pub fn handle_response<R: Records>(
    stage: &mut Stage,
    response: &[u8],
    next_id: u8,
    users: &[User],
    packet: &mut Packet,
    tags: &mut Tags<R>,
) -> ServerAnswer
    requires header { 5 ≤ length response.now }
    requires size { length response.now ≤ max_packet }
    requires keys { All (λ user. IsTrue (has_valid_key user)) users.now }
    ensures turn { outcome_with result packet.new tags.new stage.new
        ≡ step users.now next_id stage.old response.now }
    ensures capacity { requests result ≡ true → HasCapacity packet.new }
{
    let body = &response[5..];
    match &mut stage.progress {
        Progress::Unset => ServerAnswer::Discard(Cause::WrongOp),
        Progress::Alone { phase } => match phase {
            Alone::Asked => asked_reads(
                &stage.own,
                &mut stage.progress,
                next_id,
                body,
                users,
                packet,
                tags,
            ),
            Alone::Refusing => refusing_reads(body, phase, tags),
            Alone::Initial | Alone::Refused => ServerAnswer::Discard(idle_cause(None, body)),
        },
        Progress::Login { added, phase } => login_reads(&stage.own, added, phase, body, tags),
    }
}
