//! A server's first Request, and its turn for each Response (RFC 4764 section 4).

ghost use Rattle.std.specs.Prelude.{◌≡◌, ℕ, ◌≤◌, List, length, true, All, IsTrue};
ghost use Rattle.login_setup.specs.Setup.{has_valid_key};
ghost use Rattle.psk_messages.specs.Reading.{read_of};
ghost use Rattle.eap_method.specs.Capacity.{HasCapacity, requests};
ghost use Rattle.eap_method.specs.Turns.{body_of};
ghost use Rattle.eap_method.specs.PskTags.{header_of};
ghost use Rattle.eap_method.specs.PskServer.{answers, asked, checked, first, is_initiated};
ghost use Rattle.eap_method.specs.PskServer.{first_step, checked_reads, step};
ghost use Rattle.login_keys.specs.Psk.{psk_keys_of};
ghost use Rattle.psk_ends.specs.ServerStage.{in_known, login_with, view_of, outcome_with};
ghost use Rattle.psk_ends.specs.declared.server.login.Initial.{Initial};
ghost use Rattle.psk_ends.specs.declared.server.stage.KnownPhase.TheVariants.{Checked};

use crate::octets::{header_of, idle_cause, message_in, rand_of};
use crate::server::login::{Initial, Keys, Login, UserPsk2};
use crate::server::psk3::{answer, asked_reads};
use crate::server::psk4::handle_psk4;
use crate::server::stage::{EarlyPhase, KnownPhase, Stage};
use eap_method::{Records, ServerAnswer, Tags};
use eap_packet::{Cause, Code};
use login_setup::User;
use octet_lists::Packet;
use psk_messages::{Psk1, PskMessage, write_psk_into};

/// Writes PSK-1 (RFC 4764 section 5.1).
#[tactic(auto, unfolding(eap_method::specs::PskServer::first))]
fn write_psk1(own: &Initial, id: u8, packet: &mut Packet)
    ensures first { packet.new ≡ first own.now.side own.now.nonce id }
    ensures capacity { HasCapacity packet.new }
{
    let message = PskMessage::P1(Psk1 {
        rand_s: rand_of(&own.nonce),
        id_s: own.side.id_s.as_slice(),
    });
    write_psk_into(packet, &message, Code::Request, id);
}

/// The first Request of a server that has begun. Any other makes an empty packet, and stays as it
/// is.
#[tactic(auto, unfolding(eap_method::specs::PskServer::first_step))]
pub fn ask(stage: &mut Stage, id: u8, packet: &mut Packet)
    ensures first { record { packet = packet.new; after = view_of stage.new }
        ≡ first_step (view_of stage.old) id }
    ensures capacity { is_initiated (view_of stage.old) ≡ true → HasCapacity packet.new }
{
    match stage {
        Stage::Early { own, phase } => match phase {
            EarlyPhase::Initial => {
                write_psk1(own, id, packet);
                *phase = EarlyPhase::Asked;
            }
            _ => packet.clear(),
        },
        _ => packet.clear(),
    }
}

/// A Response at a server that has sent PSK-3.
fn checked_reads<R: Records>(
    login: &Login,
    phase: &mut KnownPhase,
    response: &[u8],
    tags: &mut Tags<R>,
) -> ServerAnswer
    requires size { 5 ≤ length response.now }
    requires awaits { phase.old ≡ Checked }
    ensures { (packet : List ℕ) → outcome_with result packet tags.new (in_known phase.new login.now)
        ≡ checked_reads login.now (header_of response.now) (read_of (body_of response.now)) }
{
    match message_in(response) {
        Err(cause) => ServerAnswer::Discard(cause),
        Ok(PskMessage::P4(psk4)) => handle_psk4(login, phase, header_of(response), &psk4, tags),
        Ok(_) => ServerAnswer::Discard(Cause::WrongOp),
    }
}

/// The PSK-2 of a user that a server knows is answered by PSK-3, and the login begins. It is never inlined, so that the keys are not
/// derived above what it needs on the stack.
#[inline(never)]
fn log_in<R: Records>(
    stage: &mut Stage,
    found: UserPsk2,
    keys: Keys,
    next_id: u8,
    packet: &mut Packet,
    tags: &mut Tags<R>,
) -> ServerAnswer
    requires { keys.keys ≡ psk_keys_of found.kdk found.psk2.rand_p }
    ensures turn { (own : Initial) → view_of stage.old ≡ asked own.side own.nonce
        → outcome_with result packet.new tags.new (view_of stage.new)
        ≡ answers (login_with own found.entry) next_id found.entry.psk2.mac }
    ensures capacity { requests result ≡ true → HasCapacity packet.new }
{
    let mac = found.psk2.mac;
    let Stage::Early {
        own,
        phase: EarlyPhase::Asked,
    } = stage
    else {
        return ServerAnswer::Discard(Cause::WrongOp);
    };
    let own = own.copy();
    settle(stage, own, found, keys);
    let Stage::Known { login, .. } = stage else {
        return ServerAnswer::Discard(Cause::WrongOp);
    };
    answer(login, &mac, next_id, packet, tags);
    ServerAnswer::Request
}

/// The login begins. It is never inlined, so that what the answer needs does not lie above a second login on the stack.
#[inline(never)]
fn settle(stage: &mut Stage, own: Initial, found: UserPsk2, keys: Keys)
    requires { keys.keys ≡ psk_keys_of found.kdk found.psk2.rand_p }
    ensures { view_of stage.new ≡ checked (login_with own found.entry) }
{
    store(stage, Login::new(own, found, keys));
}

/// The server awaits PSK-4. (By itself, since the compiler then builds the state where it stays.)
fn store(stage: &mut Stage, login: Login)
    ensures { view_of stage.new ≡ checked login }
{
    let phase = KnownPhase::Checked;
    *stage = Stage::Known { login, phase };
}

/// The turn for the octets of a Response of Type 47. After a discard `packet` and `tags` are unspecified.
#[tactic(auto, unfolding(eap_method::specs::PskServer::step))]
pub fn handle_response<R: Records>(
    stage: &mut Stage,
    response: &[u8],
    next_id: u8,
    users: &[User],
    packet: &mut Packet,
    tags: &mut Tags<R>,
) -> ServerAnswer
    requires size { 5 ≤ length response.now }
    requires keys { All (λ user. IsTrue (has_valid_key user)) users.now }
    ensures turn { outcome_with result packet.new tags.new (view_of stage.new)
        ≡ step users.now next_id (view_of stage.old) response.now }
    ensures capacity { requests result ≡ true → HasCapacity packet.new }
{
    match stage {
        Stage::Unset => ServerAnswer::Discard(Cause::WrongOp),
        Stage::Early { own, phase } => match phase {
            EarlyPhase::Asked => match asked_reads(own, response, users) {
                Err(cause) => ServerAnswer::Discard(cause),
                Ok(None) => {
                    tags.clear();
                    *phase = EarlyPhase::Refused;
                    ServerAnswer::Done { success: false }
                }
                Ok(Some(found)) => {
                    let keys = found.keys();
                    log_in(stage, found, keys, next_id, packet, tags)
                }
            },
            EarlyPhase::Initial => ServerAnswer::Discard(idle_cause(response)),
            EarlyPhase::Refused => ServerAnswer::Discard(idle_cause(response)),
        },
        Stage::Known { login, phase } => match phase {
            KnownPhase::Checked => checked_reads(login, phase, response, tags),
            KnownPhase::Over { .. } => ServerAnswer::Discard(idle_cause(response)),
        },
    }
}
