//! What is of EAP-GPSK alone: the peer's name and the Failure-Code in a Response, the server's name in a Request, the shared
//! key, and the Session-Id of a login.

ghost use Rattle.std.specs.Prelude.{◌≡◌, ◌≤◌, length, Some, None, IfSome};
ghost use Rattle.octet_lists.specs.Sizes.{max_name};
ghost use Rattle.octet_lists.specs.Suite.{ks_of};
ghost use Rattle.gpsk_messages.specs.Reading.{read_of};
ghost use Rattle.tuvaddri_c.specs.Gpsk.{gpsk_name, gpsk_server, known_code, repeated_code, key_in};
ghost use Rattle.tuvaddri_c.specs.Gpsk.{end_key, front_of, gpsk_session_id, keyed_id};

use crate::session::End;
use crate::session_id::SessionId;
use eap_method::Report;
use end_objects::{Nonces, OtherUsers};
use gpsk_messages::{GpskMessage, read_gpsk_message};
use login_keys::gkdf;
use octet_lists::{GPSK_KIND, Secret, Suite};

/// ID_Peer of GPSK-2.
pub fn gpsk_name<'a>(body: &'a [u8]) -> Option<&'a [u8]>
    ensures found { IfSome result (λ name. gpsk_name (read_of None body.now) ≡ Some name.now) }
    ensures none { result ≡ None → gpsk_name (read_of None body.now) ≡ None }
    ensures size { IfSome result (λ name. length name.now ≤ max_name) }
{
    match read_gpsk_message(body, None) {
        Ok(GpskMessage::M1(_)) => None,
        Ok(GpskMessage::M2(gpsk2)) => Some(gpsk2.id_p),
        Ok(GpskMessage::M3(_)) => None,
        Ok(GpskMessage::M4(_)) => None,
        Ok(GpskMessage::Fail { .. }) => None,
        Ok(GpskMessage::ProtectedFail { .. }) => None,
        Err(_) => None,
    }
}

/// ID_Server of GPSK-1.
pub fn gpsk_server<'a>(body: &'a [u8]) -> Option<&'a [u8]>
    ensures found { IfSome result (λ name. gpsk_server (read_of None body.now) ≡ Some name.now) }
    ensures none { result ≡ None → gpsk_server (read_of None body.now) ≡ None }
    ensures size { IfSome result (λ name. length name.now ≤ max_name) }
{
    match read_gpsk_message(body, None) {
        Ok(GpskMessage::M1(gpsk1)) => Some(gpsk1.id_s),
        Ok(GpskMessage::M2(_)) => None,
        Ok(GpskMessage::M3(_)) => None,
        Ok(GpskMessage::M4(_)) => None,
        Ok(GpskMessage::Fail { .. }) => None,
        Ok(GpskMessage::ProtectedFail { .. }) => None,
        Err(_) => None,
    }
}

/// A Failure-Code of the standard, 1 to 3; 0 for any other.
fn known_code(code: u32) -> u8
    ensures { result ≡ known_code code }
{
    if code <= 3 { code as u8 } else { 0 }
}

/// The Failure-Code of GPSK-Fail or GPSK-Protected-Fail; 0 of any other Type-Data.
pub fn repeated_code(body: &[u8]) -> u8
    ensures { result ≡ repeated_code (read_of None body.now) }
{
    match read_gpsk_message(body, None) {
        Ok(GpskMessage::M1(_)) => 0,
        Ok(GpskMessage::M2(_)) => 0,
        Ok(GpskMessage::M3(_)) => 0,
        Ok(GpskMessage::M4(_)) => 0,
        Ok(GpskMessage::Fail { code }) => known_code(code),
        Ok(GpskMessage::ProtectedFail { code, .. }) => known_code(code),
        Err(_) => 0,
    }
}

/// The key of the user of this name.
fn key_in(users: &OtherUsers, name: &[u8]) -> Option<Secret>
    ensures { result ≡ key_in users.now name.now }
{
    users.find(name, GPSK_KIND).map(|user| user.psk.copy())
}

/// The shared key, a server's for the peer of this name.
pub fn key_of(end: &End, name: &[u8]) -> Option<Secret>
    ensures { result ≡ end_key end.now name.now }
{
    match end {
        End::Closed => None,
        End::PeerMethod(_, key, _) => Some(key.copy()),
        End::ServerMethod(_, known, _) => key_in(&known.users, name),
        End::Peer(machine) => machine.setup().psk51.as_ref().map(|key| key.copy()),
        End::Server(machine, _) => key_in(&machine.setup().users, name),
        End::Backend(machine, _) => key_in(&machine.setup().users, name),
        End::Pass(_, _) => None,
        End::Supplicant(machine, _) => {
            machine.peer().setup().psk51.as_ref().map(|key| key.copy())
        }
        End::Port(_, _) => None,
    }
}

/// The Session-Id (RFC 5433 section 4): the Type and the Method-ID.
pub fn gpsk_id(suite: Suite, key: &[u8], held: &Report, nonces: &Nonces) -> SessionId
    requires { length key.now ≡ ks_of suite }
    ensures { result
        ≡ gpsk_session_id suite key.now (record { report = held.now; nonces = nonces.now }) }
{
    let selected = suite.octets();
    let method_id = gkdf(
        suite,
        16,
        key,
        &[
            b"Method ID",
            &[GPSK_KIND],
            &selected,
            nonces.peer.as_slice(),
            held.id_p.as_slice(),
            nonces.server.as_slice(),
            held.id_s.as_slice(),
        ],
    );
    let mut id = SessionId::of(&[GPSK_KIND]);
    id.put(method_id.as_slice());
    id
}

/// The same by the first KS octets of a shared key.
pub fn front_id(suite: Suite, psk: &[u8], held: &Report, nonces: &Nonces) -> Option<SessionId>
    ensures { result ≡ keyed_id suite (record { report = held.now; nonces = nonces.now }) (front_of
        (Some psk.now) suite) }
{
    if psk.len() < suite.ks() {
        None
    } else {
        Some(gpsk_id(suite, &psk[..suite.ks()], held, nonces))
    }
}
