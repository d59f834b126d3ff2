//! The tags of EAP-GPSK (RFC 5433 sections 8 and 9).

ghost use Rattle.std.specs.Prelude.{◌≡◌, ◌≤◌, length, All, IsTrue, None, Some, Ok};
ghost use Rattle.std.specs.Option.{option_or};
ghost use Rattle.std.specs.Result.{result_ok};
ghost use Rattle.login_setup.specs.Setup.{has_valid_key};
ghost use Rattle.octet_lists.specs.Suite.{ks_of};
ghost use Rattle.octet_lists.specs.Sizes.{max_name};
ghost use Rattle.gpsk_messages.specs.Message.{message_of, spelled, IsGpsk};
ghost use Rattle.capture_check.specs.Gpsk.{gpsk2_of, gpsk_finding, gpsk_follows, gpsk_login_in};
ghost use Rattle.capture_check.specs.Gpsk.{gpsk_read, gpsk_tag_finding, gpsk_verdict};
ghost use Rattle.capture_check.specs.Gpsk.{is_gpsk_astray, is_tagged_in, login_starts, HasKey};

use crate::finding::Finding;
use eap_packet::Cause;
use gpsk_messages::{Gpsk2, GpskMessage, covered_part, mac_part, read_gpsk_message};
use login_keys::{gpsk_keys, gpsk_tag};
use login_setup::Users;
use octet_lists::{GPSK_KIND, Identity, Octets, Suite, equal_in_full};

/// What is kept of a GPSK-2 whose tag is right (RFC 5433 section 9).
#[derive(Drop)]
pub struct GpskLogin {
    /// The user's name.
    pub name: Identity,
    /// CSuite_Sel.
    pub suite: Suite,
    /// SK, of KS octets.
    pub sk: Octets<32>,
}

/// Whether a message goes the wrong way: GPSK-1 and GPSK-3 go to the peer, GPSK-2 and GPSK-4 come from
/// it, and the failures go both ways.
fn is_astray(to_peer: bool, view: &GpskMessage) -> bool
    ensures { result ≡ is_gpsk_astray to_peer (message_of view.now) }
{
    match view {
        GpskMessage::M1(_) | GpskMessage::M3(_) => !to_peer,
        GpskMessage::M2(_) | GpskMessage::M4(_) => to_peer,
        GpskMessage::Fail { .. } | GpskMessage::ProtectedFail { .. } => false,
    }
}

/// Whether the message, which the Type-Data encodes, has the MAC of its covered octets under the SK of
/// the login. All octets of the MAC are compared.
fn is_tagged(login: &GpskLogin, view: &GpskMessage, body: &[u8]) -> bool
    requires key { length login.now.sk ≡ ks_of login.now.suite }
    requires spelled { body.now ≡ spelled (message_of view.now) }
    ensures { result ≡ is_tagged_in login.now (message_of view.now) }
{
    let tag = gpsk_tag(login.suite, login.sk.as_slice(), covered_part(view, body));
    equal_in_full(tag.as_slice(), mac_part(view))
}

/// The login of the user whom GPSK-2 names, or None if there is no such user.
#[tactic(auto, unfolding(crate::specs::Gpsk::gpsk_login_in, crate::specs::Gpsk::gpsk_login_of), using(crate::proofs::GpskLaws::key_is_long))]
fn login_in(users: &Users, gpsk2: &Gpsk2) -> Option<GpskLogin>
    requires keys { All (λ user. IsTrue (has_valid_key user)) users.now }
    requires peer_name { length gpsk2.now.id_p.now ≤ max_name }
    requires server_name { length gpsk2.now.id_s.now ≤ max_name }
    ensures login { result ≡ gpsk_login_in users.now gpsk2.now.id_p.now gpsk2.now.id_s.now
        gpsk2.now.rand_p gpsk2.now.rand_s gpsk2.now.suite }
    ensures key { HasKey result }
{
    let Gpsk2 {
        id_p,
        id_s,
        rand_p,
        rand_s,
        suite,
        ..
    } = gpsk2;
    let user = users.find(id_p, GPSK_KIND)?;
    let keys = gpsk_keys(*suite, user.psk.as_slice(), rand_p, id_p, rand_s, id_s);
    Some(GpskLogin {
        name: user.name.copy(),
        suite: *suite,
        sk: keys.sk,
    })
}

/// The finding of a GPSK-2 of this login, which is kept if the MAC is right.
fn begin(kept: &mut Option<GpskLogin>, login: GpskLogin, view: &GpskMessage, body: &[u8]) -> Finding
    requires key { length login.sk ≡ ks_of login.suite }
    requires key_before { HasKey kept.old }
    requires spelled { body.now ≡ spelled (message_of view.now) }
    ensures finding { result ≡ gpsk_verdict (login_starts (Some login) (message_of view.now)) }
    ensures stored { kept.new
        ≡ option_or (result_ok (login_starts (Some login) (message_of view.now))) kept.old }
    ensures key_after { HasKey kept.new }
{
    if !is_tagged(&login, view, body) {
        return Finding::TagBad;
    }
    let name = login.name.copy();
    *kept = Some(login);
    Finding::TagGood(name)
}

/// The finding of a message that belongs to the last login: `NoContext` if there is none.
#[tactic(auto, unfolding(crate::specs::Gpsk::gpsk_follows))]
fn follow(login: &Option<GpskLogin>, view: &GpskMessage, body: &[u8]) -> Finding
    requires key { HasKey login.now }
    requires spelled { body.now ≡ spelled (message_of view.now) }
    ensures { result ≡ gpsk_follows login.now (message_of view.now) }
{
    match login {
        None => Finding::NoContext,
        Some(login) if is_tagged(login, view, body) => Finding::TagGood(login.name.copy()),
        Some(_) => Finding::TagBad,
    }
}

/// The finding of a message, which the Type-Data encodes. A login that it begins is kept.
#[tactic(auto, unfolding(crate::specs::Gpsk::gpsk_starts))]
fn judge(login: &mut Option<GpskLogin>, users: &Users, view: &GpskMessage, body: &[u8]) -> Finding
    requires keys { All (λ user. IsTrue (has_valid_key user)) users.now }
    requires key { HasKey login.old }
    requires read { IsGpsk None (message_of view.now) body.now }
    ensures finding { result ≡ gpsk_tag_finding users.now login.old (message_of view.now) }
    ensures stored { login.new
        ≡ option_or (gpsk2_of users.now (Ok (message_of view.now))) login.old }
    ensures key_after { HasKey login.new }
{
    match view {
        GpskMessage::M1(_) => Finding::Good,
        GpskMessage::M2(gpsk2) => match login_in(users, gpsk2) {
            None => Finding::NoKey,
            Some(begun) => begin(login, begun, view, body),
        },
        GpskMessage::M3(_) => follow(login, view, body),
        GpskMessage::M4(_) => follow(login, view, body),
        GpskMessage::Fail { .. } => Finding::Good,
        GpskMessage::ProtectedFail { .. } => follow(login, view, body),
    }
}

/// The finding of Type-Data, and the login that it begins is kept.
pub fn judge_body(
    login: &mut Option<GpskLogin>,
    users: &Users,
    to_peer: bool,
    body: &[u8],
) -> Finding
    requires keys { All (λ user. IsTrue (has_valid_key user)) users.now }
    requires key { HasKey login.old }
    ensures finding { result ≡ gpsk_finding users.now login.old (gpsk_read to_peer body.now) }
    ensures stored { login.new
        ≡ option_or (gpsk2_of users.now (gpsk_read to_peer body.now)) login.old }
    ensures key_after { HasKey login.new }
{
    match read_gpsk_message(body, None) {
        Err(cause) => Finding::Malformed(cause),
        Ok(view) if is_astray(to_peer, &view) => Finding::Malformed(Cause::WrongOp),
        Ok(view) => judge(login, users, &view, body),
    }
}
