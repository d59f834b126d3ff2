//! What is of EAP-PSK alone: the peer's name in a Response, the server's name in a Request, and the Session-Id of a login.

ghost use Rattle.std.specs.Prelude.{◌≡◌, ◌≤◌, length, Some, None, IfSome};
ghost use Rattle.octet_lists.specs.Sizes.{max_name};
ghost use Rattle.psk_messages.specs.Reading.{read_of};
ghost use Rattle.tuvaddri_c.specs.Psk.{psk_name, psk_server, psk_session_id, fitting};

use crate::session_id::{MAX_ID, SessionId};
use end_objects::Nonces;
use octet_lists::PSK_KIND;
use psk_messages::{PskMessage, read_psk_message};

/// ID_P of PSK-2.
pub fn psk_name<'a>(body: &'a [u8]) -> Option<&'a [u8]>
    ensures found { IfSome result (λ name. psk_name (read_of body.now) ≡ Some name.now) }
    ensures none { result ≡ None → psk_name (read_of body.now) ≡ None }
    ensures size { IfSome result (λ name. length name.now ≤ max_name) }
{
    match read_psk_message(body) {
        Ok(PskMessage::P1(_)) => None,
        Ok(PskMessage::P2(psk2)) => Some(psk2.id_p),
        Ok(PskMessage::P3(_)) => None,
        Ok(PskMessage::P4(_)) => None,
        Err(_) => None,
    }
}

/// ID_S of PSK-1.
pub fn psk_server<'a>(body: &'a [u8]) -> Option<&'a [u8]>
    ensures found { IfSome result (λ name. psk_server (read_of body.now) ≡ Some name.now) }
    ensures none { result ≡ None → psk_server (read_of body.now) ≡ None }
    ensures size { IfSome result (λ name. length name.now ≤ max_name) }
{
    match read_psk_message(body) {
        Ok(PskMessage::P1(psk1)) => Some(psk1.id_s),
        Ok(PskMessage::P2(_)) => None,
        Ok(PskMessage::P3(_)) => None,
        Ok(PskMessage::P4(_)) => None,
        Err(_) => None,
    }
}

/// The Session-Id: the Type, RAND_P and RAND_S.
pub fn psk_id(nonces: &Nonces) -> Option<SessionId>
    ensures { result ≡ fitting (psk_session_id nonces.now) }
{
    let peer = nonces.peer.as_slice();
    let server = nonces.server.as_slice();
    if peer.len() + server.len() < MAX_ID {
        let mut id = SessionId::of(&[PSK_KIND]);
        id.put(peer);
        id.put(server);
        Some(id)
    } else {
        None
    }
}
