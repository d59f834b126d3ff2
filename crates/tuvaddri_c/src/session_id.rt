//! The Session-Id of a login (RFC 5247 section 1.4).

ghost use Rattle.std.specs.Prelude.{◌≡◌};
ghost use Rattle.tuvaddri_c.specs.ByMethod.{session_id_of_report};
ghost use Rattle.tuvaddri_c.specs.Gpsk.{zeros, front_of, end_key};
ghost use Rattle.tuvaddri_c.specs.Reports.{both};
ghost use Rattle.tuvaddri_c.specs.Capacities.{IsWritten, octets_of};
ghost use Rattle.tuvaddri_c.specs.SessionId.{if_stored, session_id, session_id_wpa};

use crate::by_method::{keyed_id, standard_id};
use crate::gpsk::key_of;
use crate::handle::TuvEnd;
use crate::held::object_of;
use crate::rooms::write_octets;
use crate::session::End;
use eap_method::Report;
use end_objects::Nonces;
use octet_lists::Octets;

/// The most octets of a Session-Id: those of EAP-PSK's.
pub const MAX_ID: usize = 33;

/// The octets of a Session-Id.
pub type SessionId = Octets<MAX_ID>;

/// The Session-Id of what an end has.
fn id_of(held: &Option<Report>, nonces: &Option<Nonces>) -> Option<SessionId>
    ensures { result ≡ if_stored (both held.now nonces.now) (session_id_of_report zeros) }
{
    match held {
        None => None,
        Some(held) => match nonces {
            None => None,
            Some(nonces) => standard_id(held, nonces),
        },
    }
}

/// The same, as wpa_supplicant and hostapd derive it.
fn id_of_wpa(end: &End, held: &Option<Report>, nonces: &Option<Nonces>) -> Option<SessionId>
    ensures { result ≡ if_stored (both held.now nonces.now) (λ held. session_id_of_report
        (front_of (end_key end.now held.report.id_p)) held) }
{
    match held {
        None => None,
        Some(held) => match nonces {
            None => None,
            Some(nonces) => keyed_id(held, nonces, &key_of(end, held.id_p.as_slice())),
        },
    }
}

/// Writes a Session-Id to the start of the buffer, if there is one, and answers its length.
fn write(id: &Option<SessionId>, room: &mut [u8; MAX_ID]) -> usize
    ensures { IsWritten (octets_of id.now) room.old result room.new }
{
    match id {
        None => 0,
        Some(id) => write_octets(id.as_slice(), room),
    }
}

/// Writes the Session-Id of a method that succeeded to the start of `room`, and answers its length. If the end has
/// nothing it answers 0 and writes nothing.
#[unsafe(no_mangle)]
pub extern "C" fn tuv_end_session_id(end: &mut TuvEnd, room: &mut [u8; MAX_ID]) -> usize
    ensures same { end.new.value ≡ end.old.value }
    ensures id { IsWritten (octets_of (session_id end.old.value.end)) room.old result room.new }
{
    let object = object_of(&end.session().end);
    write(&id_of(&object.report(), &object.nonces()), room)
}

/// The same, as wpa_supplicant and hostapd 2.10 derive it: for EAP-GPSK they use a prefix of the shared key, not
/// octets of zero.
#[unsafe(no_mangle)]
pub extern "C" fn tuv_end_session_id_wpa(end: &mut TuvEnd, room: &mut [u8; MAX_ID]) -> usize
    ensures same { end.new.value ≡ end.old.value }
    ensures id { IsWritten (octets_of (session_id_wpa end.old.value.end)) room.old result room.new }
{
    let end = &end.session().end;
    let object = object_of(end);
    write(&id_of_wpa(end, &object.report(), &object.nonces()), room)
}
