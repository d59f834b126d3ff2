//! A peer's turn for each Request (RFC 4764 section 4).

ghost use Rattle.std.specs.Prelude.{◌≡◌, ◌≤◌, ℕ, List, length, true, IfOk};
ghost use Rattle.octet_lists.specs.Sizes.{max_name};
ghost use Rattle.psk_messages.specs.Message.{psk2};
ghost use Rattle.psk_messages.specs.Reading.{read_of};
ghost use Rattle.eap_method.specs.Capacity.{HasCapacity, replies};
ghost use Rattle.login_setup.specs.Setup.{accepts_name};
ghost use Rattle.eap_method.specs.declared.turn.PeerAnswer.TheVariants.{Reply};
ghost use Rattle.eap_method.specs.declared.values.MethodState.TheVariants.{Cont};
ghost use Rattle.eap_method.specs.declared.values.Decision.TheVariants.{Fail};
ghost use Rattle.eap_method.specs.Turns.{id_of, body_of};
ghost use Rattle.eap_method.specs.PskTags.{psk_response, header_of};
ghost use Rattle.eap_method.specs.PskPeer.{wait, rand_p_of, answers, fresh_reads, wait_reads, step};
ghost use Rattle.psk_ends.specs.PeerStage.{in_phase, view_in, outcome_with, fresh_with, login_of};
ghost use Rattle.psk_ends.specs.PeerStage.{login_with, IsReady};
ghost use Rattle.psk_ends.specs.PeerKeys.{AreKeysOf};
ghost use Rattle.psk_ends.specs.declared.peer.stage.Phase.TheVariants.{Wait};

use crate::octets::{header_of, idle_cause, message_in};
use crate::peer::login::{Keys, Login};
use crate::peer::psk4::handle_psk3;
use crate::peer::stage::{Added, Phase, Progress, Stage};
use eap_method::{Decision, MethodState, PeerAnswer, PeerSide, Records, Tags};
use eap_packet::{Cause, Code};
use octet_lists::{Nonce, Packet};
use psk_messages::{Psk1, Psk2, PskMessage, write_psk_into};

/// A Request at a peer that has begun: PSK-1 of a server that it accepts. `UnknownServer`: it doesn't
/// accept the server's name.
fn fresh_reads<'a>(side: &PeerSide, request: &'a [u8]) -> Result<Psk1<'a>, Cause>
    requires { 5 ≤ length request.now }
    ensures reads { (nonce : List ℕ) → fresh_with side.now.cred nonce (id_of request.now) result
        ≡ fresh_reads side.now.cred nonce (id_of request.now) (read_of (body_of request.now)) }
    ensures accepted { IfOk result
        (λ psk1. accepts_name side.now.cred.accepts psk1.id_s.now ≡ true) }
    ensures name { IfOk result (λ psk1. length psk1.id_s.now ≤ max_name) }
{
    match message_in(request) {
        Err(cause) => Err(cause),
        Ok(PskMessage::P1(psk1)) => {
            if side.allows(psk1.id_s) {
                Ok(psk1)
            } else {
                Err(Cause::UnknownServer)
            }
        }
        Ok(_) => Err(Cause::WrongOp),
    }
}

/// Writes PSK-2 with this MAC_P (RFC 4764 section 5.2).
fn write_psk2(login: &Login, id: u8, mac: &[u8; 16], packet: &mut Packet)
    ensures packet { packet.new ≡ psk_response id (psk2 login.now.rand_s (rand_p_of login.now)
        mac.now login.now.cred.id_p) }
    ensures capacity { HasCapacity packet.new }
{
    let message = PskMessage::P2(Psk2 {
        rand_s: *login.rand_s(),
        rand_p: login.rand_p(),
        mac: *mac,
        id_p: login.id_p().as_slice(),
    });
    write_psk_into(packet, &message, Code::Response, id);
}

/// The login's PSK-1 is answered by PSK-2.
#[tactic(auto, unfolding(eap_method::specs::PskPeer::answers))]
fn answer<R: Records>(login: &Login, id: u8, packet: &mut Packet, tags: &mut Tags<R>) -> PeerAnswer
    ensures turn { outcome_with result packet.new tags.new (wait login.now) ≡ answers login.now id }
    ensures capacity { HasCapacity packet.new }
{
    let mac = login.mac_p();
    write_psk2(login, id, &mac, packet);
    tags.clear();
    login.add_mac_p(&mut tags.made, &mac);
    PeerAnswer::Reply {
        state: MethodState::Cont,
        decision: Decision::Fail,
    }
}

/// The PSK-1 that a peer accepts is answered by PSK-2, and the login begins. It is never inlined, so that no keys are derived above
/// their place on the stack.
#[inline(never)]
fn log_in<R: Records>(
    side: &mut PeerSide,
    nonce: &Nonce,
    progress: &mut Progress,
    psk1: &Psk1,
    keys: Keys,
    id: u8,
    packet: &mut Packet,
    tags: &mut Tags<R>,
) -> PeerAnswer
    requires name { length psk1.now.id_s.now ≤ max_name }
    requires accepted { accepts_name side.old.cred.accepts psk1.now.id_s.now ≡ true }
    requires keys { AreKeysOf side.old.cred.psk nonce.now keys }
    ensures turn { outcome_with result packet.new tags.new (view_in side.new nonce.now progress.new)
        ≡ answers (login_with side.old.cred nonce.now psk1.now) id }
    ensures ready { IsReady side.new nonce.now progress.new }
    ensures capacity { HasCapacity packet.new }
{
    side.set_server(psk1.id_s);
    let added = Added {
        rand_s: psk1.rand_s,
        keys,
    };
    let login = Login {
        side,
        nonce,
        added: &added,
    };
    let turn = answer(&login, id, packet, tags);
    let phase = Phase::Wait;
    *progress = Progress::Known { added, phase };
    turn
}

/// A Request at a peer that has sent PSK-2.
fn wait_reads<R: Records>(
    login: &Login,
    phase: &mut Phase,
    request: &[u8],
    packet: &mut Packet,
    tags: &mut Tags<R>,
) -> PeerAnswer
    requires size { 5 ≤ length request.now }
    requires waits { phase.old ≡ Wait }
    ensures turn { outcome_with result packet.new tags.new (in_phase phase.new login.now)
        ≡ wait_reads login.now (id_of request.now) (header_of request.now)
        (read_of (body_of request.now)) }
    ensures capacity { replies result ≡ true → HasCapacity packet.new }
{
    match message_in(request) {
        Err(cause) => PeerAnswer::Discard(cause),
        Ok(PskMessage::P3(psk3)) => {
            let header = header_of(request);
            handle_psk3(login, phase, request[1], header, &psk3, packet, tags)
        }
        Ok(_) => PeerAnswer::Discard(Cause::WrongOp),
    }
}

/// A Request at a peer that has a login.
#[tactic(auto, unfolding(eap_method::specs::PskPeer::step))]
fn known_reads<R: Records>(
    side: &PeerSide,
    nonce: &Nonce,
    added: &Added,
    phase: &mut Phase,
    request: &[u8],
    packet: &mut Packet,
    tags: &mut Tags<R>,
) -> PeerAnswer
    requires size { 5 ≤ length request.now }
    requires keys { AreKeysOf side.now.cred.psk nonce.now added.now.keys }
    requires rand_s { length added.now.rand_s ≡ 16 }
    ensures turn { let login = login_of side.now nonce.now added.now.rand_s in
        outcome_with result packet.new tags.new (in_phase phase.new login)
        ≡ step (in_phase phase.old login) request.now }
    ensures capacity { replies result ≡ true → HasCapacity packet.new }
{
    let login = Login { side, nonce, added };
    match phase {
        Phase::Wait => wait_reads(&login, phase, request, packet, tags),
        Phase::Over { .. } => PeerAnswer::Discard(idle_cause(request)),
    }
}

/// The turn for the octets of a Request of Type 47. After a discard `packet` and `tags` are unspecified.
#[tactic(auto, unfolding(eap_method::specs::PskPeer::step))]
pub fn handle_request<R: Records>(
    stage: &mut Stage,
    request: &[u8],
    packet: &mut Packet,
    tags: &mut Tags<R>,
) -> PeerAnswer
    requires { 5 ≤ length request.now }
    ensures turn { outcome_with result packet.new tags.new stage.new ≡ step stage.old request.now }
    ensures capacity { replies result ≡ true → HasCapacity packet.new }
{
    match &mut stage.progress {
        Progress::Unset => PeerAnswer::Discard(Cause::WrongOp),
        Progress::Fresh => match fresh_reads(&stage.side, request) {
            Err(cause) => PeerAnswer::Discard(cause),
            Ok(psk1) => {
                let keys = Keys::of(stage.side.psk(), &stage.nonce);
                let (side, progress) = (&mut stage.side, &mut stage.progress);
                let id = request[1];
                log_in(side, &stage.nonce, progress, &psk1, keys, id, packet, tags)
            }
        },
        Progress::Known { added, phase } => {
            let (side, nonce) = (&stage.side, &stage.nonce);
            known_reads(side, nonce, added, phase, request, packet, tags)
        }
    }
}
