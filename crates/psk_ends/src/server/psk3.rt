//! Checking PSK-2, and answering it by PSK-3 (RFC 4764 sections 5.2 and 5.3).

ghost use Rattle.std.specs.Prelude.{◌≡◌, ℕ, ◌≤◌, [], length, All, IsTrue, Some};
ghost use Rattle.octet_lists.specs.Among.{psk_kind};
ghost use Rattle.octet_lists.specs.Sizes.{max_name};
ghost use Rattle.login_setup.specs.Setup.{has_valid_key};
ghost use Rattle.login_setup.specs.Users.{user_of};
ghost use Rattle.psk_messages.specs.Message.{psk3};
ghost use Rattle.psk_messages.specs.Reading.{read_of};
ghost use Rattle.eap_method.specs.declared.turn.ServerAnswer.TheVariants.{Request};
ghost use Rattle.eap_method.specs.Capacity.{HasCapacity};
ghost use Rattle.eap_method.specs.Turns.{body_of};
ghost use Rattle.eap_method.specs.PskTags.{psk_request, blank_tag};
ghost use Rattle.eap_method.specs.PskServer.{checked, rand_s_of, psk3_of, psk3_records, answers};
ghost use Rattle.eap_method.specs.PskServer.{finds, asked_reads};
ghost use Rattle.psk_ends.specs.ServerStage.{outcome_with, asked_with};

use crate::channel::seal_in;
use crate::keys::long_keys;
use crate::octets::{message_in, rand_of};
use crate::server::login::{Initial, Login, UserPsk2};
use cmac_mac::CmacKey;
use eap_method::{Records, TagList, Tags};
use eap_packet::{Cause, Code};
use login_keys::PskLong;
use login_setup::{User, find_user};
use octet_lists::{PSK_KIND, Packet, equal_in_full};
use psk_messages::{Channel, Psk2, Psk3, PskMessage, write_psk_into};

/// Writes PSK-3 with this MAC_S, PCHANNEL still blank.
fn write_psk3(login: &Login, id: u8, mac: &[u8; 16], packet: &mut Packet)
    ensures packet { packet.new
        ≡ psk_request id (psk3 (rand_s_of login.now) mac.now 0 blank_tag 0) }
    ensures capacity { HasCapacity packet.new }
{
    let message = PskMessage::P3(Psk3 {
        rand_s: login.rand_s(),
        mac: *mac,
        channel: Channel {
            nonce: 0,
            tag: [0; 16],
            sealed: 0,
        },
    });
    write_psk_into(packet, &message, Code::Request, id);
}

/// PSK-3, and the records of its tags.
#[tactic(auto, using(crate::proofs::Filled::room3, crate::proofs::Filled::filled3), unfolding(eap_method::specs::PskServer::psk3_header, eap_method::specs::PskServer::psk3_sealed))]
fn psk3<R: Records>(login: &Login, id: u8, packet: &mut Packet, made: &mut TagList<R>)
    requires { made.old ≡ [] }
    ensures packet { packet.new ≡ psk_request id (psk3_of login.now id) }
    ensures records { made.new ≡ psk3_records login.now id }
    ensures capacity { HasCapacity packet.new }
{
    let mac = login.mac_s();
    write_psk3(login, id, &mac, packet);
    login.add_mac_s(made, &mac);
    seal_in(packet, login.tek(), login.psk(), 0, login.r(), made);
}

/// The login's PSK-2, with this MAC_P, is answered by PSK-3.
#[tactic(auto, unfolding(eap_method::specs::PskServer::answers))]
pub fn answer<R: Records>(
    login: &Login,
    mac: &[u8; 16],
    next_id: u8,
    packet: &mut Packet,
    tags: &mut Tags<R>,
)
    ensures turn { outcome_with Request packet.new tags.new (checked login.now)
        ≡ answers login.now next_id mac.now }
    ensures capacity { HasCapacity packet.new }
{
    tags.clear();
    login.add_mac_p(&mut tags.accepted, mac);
    psk3(login, next_id, packet, &mut tags.made);
}

/// A PSK-2 of this user. `BadTag`: MAC_P is wrong.
#[tactic(auto, unfolding(eap_method::specs::PskServer::mac_p_of, eap_method::specs::PskServer::mac_p_covers, eap_method::specs::PskServer::ak_of))]
fn check<'a>(own: &Initial, psk2: &Psk2<'a>, user: &'a User) -> Result<Option<UserPsk2<'a>>, Cause>
    requires key { length user.now.psk ≡ 16 }
    requires name { length psk2.now.id_p.now ≤ max_name }
    ensures { (next_id : ℕ) → asked_with own.now next_id result
        ≡ finds own.now.side own.now.nonce next_id
        psk2.now.rand_p psk2.now.mac psk2.now.id_p.now (Some user.now) }
{
    let PskLong { ak, kdk } = long_keys(&user.psk);
    let ak = CmacKey::new(&ak);
    if !equal_in_full(&own.mac_p(&ak, psk2), &psk2.mac) {
        return Err(Cause::BadTag);
    }
    Ok(Some(UserPsk2 {
        user,
        psk2: *psk2,
        ak,
        kdk,
    }))
}

/// A PSK-2 with the server's RAND_S; None if there is no user of its name.
fn find<'a>(
    own: &Initial,
    psk2: &Psk2<'a>,
    users: &'a [User],
) -> Result<Option<UserPsk2<'a>>, Cause>
    requires name { length psk2.now.id_p.now ≤ max_name }
    requires keys { All (λ user. IsTrue (has_valid_key user)) users.now }
    ensures { (next_id : ℕ) → asked_with own.now next_id result
        ≡ finds own.now.side own.now.nonce next_id
        psk2.now.rand_p psk2.now.mac psk2.now.id_p.now
        (user_of users.now psk2.now.id_p.now psk_kind) }
{
    match find_user(users, psk2.id_p, PSK_KIND) {
        None => Ok(None),
        Some(user) => check(own, psk2, user),
    }
}

/// A Response at a server that has sent PSK-1: PSK-2 with its MAC_P; None if its user isn't known.
/// `FieldMismatch`: its RAND_S is not the server's. It is never inlined, so that the keys are not derived above what it needs on
/// the stack.
#[inline(never)]
pub fn asked_reads<'a>(
    own: &Initial,
    response: &'a [u8],
    users: &'a [User],
) -> Result<Option<UserPsk2<'a>>, Cause>
    requires size { 5 ≤ length response.now }
    requires keys { All (λ user. IsTrue (has_valid_key user)) users.now }
    ensures { (next_id : ℕ) → asked_with own.now next_id result
        ≡ asked_reads users.now own.now.side own.now.nonce next_id
        (read_of (body_of response.now)) }
{
    match message_in(response) {
        Err(cause) => Err(cause),
        Ok(PskMessage::P2(psk2)) => {
            if psk2.rand_s.as_slice() == rand_of(&own.nonce).as_slice() {
                find(own, &psk2, users)
            } else {
                Err(Cause::FieldMismatch)
            }
        }
        Ok(_) => Err(Cause::WrongOp),
    }
}
