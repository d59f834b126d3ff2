//! The tags of EAP-PSK (RFC 4764 section 5).

ghost use Rattle.std.specs.Prelude.{◌≡◌, length, All, IsTrue, Some, Ok};
ghost use Rattle.std.specs.Option.{option_or};
ghost use Rattle.login_setup.specs.Setup.{has_valid_key};
ghost use Rattle.login_keys.specs.Psk.{psk_long_of};
ghost use Rattle.psk_messages.specs.Message.{message_of, AreFields};
ghost use Rattle.eap_method.specs.PskTags.{header_of, is_sealed};
ghost use Rattle.capture_check.specs.Psk.{follows_in, is_psk_astray, psk1_of, psk2_of};
ghost use Rattle.capture_check.specs.Psk.{psk3_follows, psk4_follows, psk_starts, psk_finding};
ghost use Rattle.capture_check.specs.Psk.{psk_login_of, psk_read, psk_tag_finding, user_starts};

use crate::finding::Finding;
use cmac_mac::CmacKey;
use eap_method::{mac_p, mac_s};
use eap_packet::Cause;
use eax_mode::eax_unseal;
use login_keys::{PskLong, psk_long, psk_session};
use login_setup::{User, Users};
use octet_lists::{Identity, Octets, PSK_KIND, array_of, equal_in_full};
use psk_messages::{Channel, HEADER, Psk2, Psk3, Psk4, PskMessage, read_psk_message};

/// What is kept of a PSK-1 (RFC 4764 section 5.1).
#[derive(Drop)]
pub struct StoredPsk1 {
    pub rand_s: [u8; 16],
    pub id_s: Identity,
}

/// What is kept of a PSK-2 whose tag is right (RFC 4764 section 5.2).
#[derive(Drop)]
pub struct PskLogin {
    /// The user's name.
    pub name: Identity,
    pub rand_s: [u8; 16],
    /// The MAC_S that belongs to it.
    pub mac_s: [u8; 16],
    pub tek: [u8; 16],
}

/// What is kept of the messages: of each kind the last one.
#[derive(Drop)]
pub struct PskContext {
    pub psk1: Option<StoredPsk1>,
    pub psk2: Option<PskLogin>,
}

/// Whether a message goes the wrong way: PSK-1 and PSK-3 go to the peer, PSK-2 and PSK-4 come from it.
fn is_astray(to_peer: bool, view: &PskMessage) -> bool
    ensures { result ≡ is_psk_astray to_peer (message_of view.now) }
{
    match view {
        PskMessage::P1(_) | PskMessage::P3(_) => !to_peer,
        PskMessage::P2(_) | PskMessage::P4(_) => to_peer,
    }
}

/// The login of a user with the fields of PSK-1 and PSK-2, from AK and KDK of the user's key.
#[tactic(auto, unfolding(crate::specs::Psk::psk_login_of))]
fn login_of(
    user: &User,
    ak: &CmacKey,
    kdk: &[u8; 16],
    psk1: &StoredPsk1,
    rand_p: &[u8; 16],
) -> PskLogin
    requires ak { ak.now ≡ (psk_long_of user.now.psk).ak }
    requires kdk { kdk.now ≡ (psk_long_of user.now.psk).kdk }
    ensures { result ≡ psk_login_of user.now psk1.now rand_p.now }
{
    let rand_s = psk1.rand_s;
    let mac_s = mac_s(ak, psk1.id_s.as_slice(), rand_p);
    let tek = psk_session(kdk, rand_p).tek;
    PskLogin {
        name: user.name.copy(),
        rand_s,
        mac_s,
        tek,
    }
}

/// The login that a PSK-2 of this user with the right MAC_P begins, else `TagBad`.
fn start_psk_login(user: &User, psk1: &StoredPsk1, psk2: &Psk2) -> Result<PskLogin, Finding>
    requires key { length user.now.psk ≡ 16 }
    ensures { result
        ≡ user_starts (Some user.now) psk1.now psk2.now.rand_p psk2.now.mac psk2.now.id_p.now }
{
    let PskLong { ak, kdk } = psk_long(&array_of(user.psk.as_slice()));
    let ak = CmacKey::new(&ak);
    let id_s = psk1.id_s.as_slice();
    let expected = mac_p(&ak, psk2.id_p, id_s, &psk1.rand_s, &psk2.rand_p);
    if equal_in_full(&expected, &psk2.mac) {
        Ok(login_of(user, &ak, &kdk, psk1, &psk2.rand_p))
    } else {
        Err(Finding::TagBad)
    }
}

/// The login that a PSK-2 with the right MAC_P begins, else its finding: `NoContext` if there was no
/// PSK-1 or its RAND_S is another, `NoKey` if there is no user of its ID_P, `TagBad` if MAC_P is
/// wrong.
#[tactic(auto, unfolding(crate::specs::Psk::psk_starts), using(crate::proofs::PskLaws::key_is_short))]
fn begin(users: &Users, psk1: &Option<StoredPsk1>, psk2: &Psk2) -> Result<PskLogin, Finding>
    requires keys { All (λ user. IsTrue (has_valid_key user)) users.now }
    ensures { result ≡ psk_starts users.now psk1.now
        psk2.now.rand_s psk2.now.rand_p psk2.now.mac psk2.now.id_p.now }
{
    match psk1 {
        Some(psk1) if psk2.rand_s.as_slice() == psk1.rand_s.as_slice() => {
            match users.find(psk2.id_p, PSK_KIND) {
                None => Err(Finding::NoKey),
                Some(user) => start_psk_login(user, psk1, psk2),
            }
        }
        _ => Err(Finding::NoContext),
    }
}

/// Whether PCHANNEL's tag is right under TEK.
#[tactic(auto, unfolding(eap_method::specs::PskTags::channel_nonce))]
fn is_sealed(tek: &[u8; 16], header: &[u8], channel: &Channel) -> bool
    ensures { result
        ≡ is_sealed tek.now channel.now.nonce header.now channel.now.sealed channel.now.tag }
{
    let [a, b, c, d] = channel.nonce.to_be_bytes();
    let nonce = [0, 0, 0, 0, 0, 0, 0, 0, 0, 0, 0, 0, a, b, c, d];
    eax_unseal(tek, &nonce, header, &mut [channel.sealed], &channel.tag)
}

/// The finding of a message with this RAND_S, whose tags are right or not in the last login.
fn follow(login: &PskLogin, rand_s: &[u8; 16], right: bool) -> Finding
    ensures { result ≡ follows_in login.now rand_s.now right }
{
    if rand_s.as_slice() != login.rand_s.as_slice() {
        Finding::NoContext
    } else if right {
        Finding::TagGood(login.name.copy())
    } else {
        Finding::TagBad
    }
}

/// The finding of PSK-3: MAC_S and PCHANNEL's tag are to be right in the last login.
#[tactic(auto, unfolding(crate::specs::Psk::psk3_follows))]
fn follow3(login: &Option<PskLogin>, header: &[u8], psk3: &Psk3) -> Finding
    ensures { result ≡ psk3_follows login.now header.now psk3.now.rand_s psk3.now.mac
        psk3.now.channel.nonce psk3.now.channel.tag psk3.now.channel.sealed }
{
    match login {
        None => Finding::NoContext,
        Some(login) => {
            let right = equal_in_full(&login.mac_s, &psk3.mac)
                && is_sealed(&login.tek, header, &psk3.channel);
            follow(login, &psk3.rand_s, right)
        }
    }
}

/// The finding of PSK-4: PCHANNEL's tag is to be right in the last login.
#[tactic(auto, unfolding(crate::specs::Psk::psk4_follows))]
fn follow4(login: &Option<PskLogin>, header: &[u8], psk4: &Psk4) -> Finding
    ensures { result ≡ psk4_follows login.now header.now psk4.now.rand_s
        psk4.now.channel.nonce psk4.now.channel.tag psk4.now.channel.sealed }
{
    match login {
        None => Finding::NoContext,
        Some(login) => {
            let right = is_sealed(&login.tek, header, &psk4.channel);
            follow(login, &psk4.rand_s, right)
        }
    }
}

/// The finding of a message in a packet with this header. A PSK-1, and a login that PSK-2 begins, are
/// kept.
fn judge(kept: &mut PskContext, users: &Users, header: &[u8], view: &PskMessage) -> Finding
    requires keys { All (λ user. IsTrue (has_valid_key user)) users.now }
    requires fields { AreFields (message_of view.now) }
    ensures finding { result ≡ psk_tag_finding users.now kept.old header.now (message_of view.now) }
    ensures first { kept.new.psk1 ≡ option_or (psk1_of (Ok (message_of view.now))) kept.old.psk1 }
    ensures login { kept.new.psk2
        ≡ option_or (psk2_of users.now kept.old.psk1 (Ok (message_of view.now))) kept.old.psk2 }
{
    match view {
        PskMessage::P1(psk1) => {
            let first = StoredPsk1 {
                rand_s: psk1.rand_s,
                id_s: Octets::of(psk1.id_s),
            };
            kept.psk1 = Some(first);
            Finding::Good
        }
        PskMessage::P2(psk2) => match begin(users, &kept.psk1, psk2) {
            Ok(begun) => {
                let name = begun.name.copy();
                kept.psk2 = Some(begun);
                Finding::TagGood(name)
            }
            Err(finding) => finding,
        },
        PskMessage::P3(psk3) => follow3(&kept.psk2, header, psk3),
        PskMessage::P4(psk4) => follow4(&kept.psk2, header, psk4),
    }
}

/// The header of a packet for PCHANNEL: its first 22 octets (RFC 4764 section 3.3).
fn header_of<'a>(octets: &'a [u8]) -> &'a [u8]
    ensures { result.now ≡ header_of octets.now }
{
    &octets[..octets.len().min(HEADER)]
}

/// The finding of Type-Data of a packet with these octets, and what counts of it is kept.
pub fn judge_body(
    kept: &mut PskContext,
    users: &Users,
    to_peer: bool,
    octets: &[u8],
    body: &[u8],
) -> Finding
    requires keys { All (λ user. IsTrue (has_valid_key user)) users.now }
    ensures finding { result
        ≡ psk_finding users.now kept.old octets.now (psk_read to_peer body.now) }
    ensures first { kept.new.psk1 ≡ option_or (psk1_of (psk_read to_peer body.now)) kept.old.psk1 }
    ensures login { kept.new.psk2
        ≡ option_or (psk2_of users.now kept.old.psk1 (psk_read to_peer body.now)) kept.old.psk2 }
{
    match read_psk_message(body) {
        Err(cause) => Finding::Malformed(cause),
        Ok(view) if is_astray(to_peer, &view) => Finding::Malformed(Cause::WrongOp),
        Ok(view) => judge(kept, users, header_of(octets), &view),
    }
}
