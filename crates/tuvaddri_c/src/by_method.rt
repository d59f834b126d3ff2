//! What each method has its own of: the peer's name and the Failure-Code in a Response, the server's name in a Request, the
//! Failure-Code that a server sends, the user of a server, and the Session-Id of a login.

ghost use Rattle.std.specs.Prelude.{◌≡◌, ◌≤◌, [], length, Some, None, IfSome};
ghost use Rattle.octet_lists.specs.Sizes.{max_name};
ghost use Rattle.server_machine.specs.ServerTable.{with_users};
ghost use Rattle.end_objects.specs.Refusals.{IsSoundOther};
ghost use Rattle.end_objects.specs.Settings.{settings_of, users_of};
ghost use Rattle.tuvaddri_c.specs.ByMethod.{name_by, server_by, repeated_by, code_by};
ghost use Rattle.tuvaddri_c.specs.ByMethod.{session_id_of_report};
ghost use Rattle.tuvaddri_c.specs.Gpsk.{zeros, front_of};

use crate::gpsk::{front_id, gpsk_id, gpsk_name, gpsk_server, repeated_code};
use crate::psk::{psk_id, psk_name, psk_server};
use crate::session_id::SessionId;
use crate::users::HasUsers;
use eap_method::Report;
use end_objects::{Nonces, Settings, user_of};
use octet_lists::{GPSK_KIND, PSK_KIND, Secret, Suite};

/// The peer's name in a Response of this Type.
pub fn name_by<'a>(kind: u8, body: &'a [u8]) -> Option<&'a [u8]>
    ensures found { IfSome result (λ name. name_by kind body.now ≡ Some name.now) }
    ensures none { result ≡ None → name_by kind body.now ≡ None }
    ensures size { IfSome result (λ name. length name.now ≤ max_name) }
{
    if kind == PSK_KIND {
        psk_name(body)
    } else if kind == GPSK_KIND {
        gpsk_name(body)
    } else {
        None
    }
}

/// The server's name in a Request of this Type.
pub fn server_by<'a>(kind: u8, body: &'a [u8]) -> Option<&'a [u8]>
    ensures found { IfSome result (λ name. server_by kind body.now ≡ Some name.now) }
    ensures none { result ≡ None → server_by kind body.now ≡ None }
    ensures size { IfSome result (λ name. length name.now ≤ max_name) }
{
    if kind == PSK_KIND {
        psk_server(body)
    } else if kind == GPSK_KIND {
        gpsk_server(body)
    } else {
        None
    }
}

/// The Failure-Code in a Response of this Type.
pub fn repeated_by(kind: u8, body: &[u8]) -> u8
    ensures { result ≡ repeated_by kind body.now }
{
    if kind == GPSK_KIND {
        repeated_code(body)
    } else {
        0
    }
}

/// This Failure-Code, if a server sends it by the method; else 0.
pub fn code_by(kind: u8, code: u8) -> u8
    ensures { result ≡ code_by kind code }
{
    if kind == PSK_KIND { 0 } else { code }
}

/// Adds the users of its settings to a server without users.
#[tactic(auto, unfolding(end_objects::specs::Settings::users_of, end_objects::specs::Settings::keyed_kinds))]
pub fn add_users<M: HasUsers>(machine: &mut M, settings: &Settings)
    requires none { (M.seen machine.old).vars.setup.users ≡ [] }
    requires other { IsSoundOther (settings_of settings.now) }
    ensures { M.seen machine.new
        ≡ with_users (M.seen machine.old) (users_of (settings_of settings.now)) }
{
    match (settings.other, settings.gpsk_key, settings.psk_key) {
        ([], _, _) => {}
        ([_, ..], [], []) => {}
        ([_, ..], [], [_, ..]) => machine.add(user_of(settings, PSK_KIND)),
        ([_, ..], [_, ..], []) => machine.add(user_of(settings, GPSK_KIND)),
        ([_, ..], [_, ..], [_, ..]) => {
            machine.add(user_of(settings, GPSK_KIND));
            machine.add(user_of(settings, PSK_KIND));
        }
    }
}

/// As the standard defines it: EAP-GPSK's key is KS octets of zero.
pub fn standard_id(held: &Report, nonces: &Nonces) -> Option<SessionId>
    ensures { result
        ≡ session_id_of_report zeros (record { report = held.now; nonces = nonces.now }) }
{
    if held.method == PSK_KIND {
        psk_id(nonces)
    } else {
        match Suite::numbered(held.suite) {
            None => None,
            Some(suite) => Some(gpsk_id(suite, &[0; 32][..suite.ks()], held, nonces)),
        }
    }
}

/// As wpa_supplicant and hostapd derive it: EAP-GPSK's key is the first KS octets of the shared key.
pub fn keyed_id(held: &Report, nonces: &Nonces, key: &Option<Secret>) -> Option<SessionId>
    ensures { result ≡ session_id_of_report (front_of
        key.now) (record { report = held.now; nonces = nonces.now }) }
{
    if held.method == PSK_KIND {
        psk_id(nonces)
    } else {
        match Suite::numbered(held.suite) {
            None => None,
            Some(suite) => match key {
                None => None,
                Some(key) => front_id(suite, key.as_slice(), held, nonces),
            },
        }
    }
}
