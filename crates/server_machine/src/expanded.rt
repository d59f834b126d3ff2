//! How a server that reads Expanded Types (RFC 3748 section 5.7) handles a Response and sends a Request.

ghost use Rattle.std.specs.Prelude.{◌≡◌, ◌≤◌, ℕ, List, ◌==◌, false, if◌then◌else◌, length};
ghost use Rattle.std.specs.Prelude.{slice_index};
ghost use Rattle.octet_lists.specs.Among.{nak_kind};
ghost use Rattle.eap_packet.specs.Packet.{response, spelled, max_type_data};
ghost use Rattle.eap_packet.specs.Expanded.{is_nak_body};
ghost use Rattle.login_policy.specs.Policy.{nak_of};
ghost use Rattle.login_policy.specs.Expanded.{expanded_kinds};
ghost use Rattle.eap_method.specs.Server.{ServerViews};
ghost use Rattle.eap_method.specs.Steps.{step_with};
ghost use Rattle.eap_method.specs.declared.step.Step as brief;
ghost use Rattle.eap_method.specs.Tags as records;
ghost use Rattle.server_machine.specs.Expanded.{MayWrap, response_octets, accepts_nak, wraps};
ghost use Rattle.server_machine.specs.ServerTable.{AreInOrder, answer, awaits_first};

use crate::variables::{Role, ServerVariables};
use eap_packet::{Code, PacketView, State, encode_into, wrap_in_place, write_plain};
use login_policy::expanded_kinds;
use login_setup::UserList;
use octet_lists::{EXPANDED, IETF, NAK, Packet, VENDOR_SIZE};

/// True for a backend that still waits for its first Response.
pub fn awaits_first<const N: usize>(vars: &ServerVariables<UserList<N>>) -> bool
    ensures { result ≡ awaits_first vars.now }
{
    matches!(vars.role, Role::Backend) && matches!(vars.state, State::Initialize)
}

/// Writes what a Response is handled as, in place of what `packet` had, and answers true: an Expanded Nak that
/// is accepted as the Nak that it says, any other of Vendor-Id 0 in its plain form. Of any other Response it is
/// the octets that came; the answer is then false, and what `packet` then has is unspecified.
pub fn write_if_accepted<const N: usize>(
    vars: &ServerVariables<UserList<N>>,
    view: &PacketView,
    packet: &mut Packet,
) -> bool
    requires response { view.now.code ≡ Code.Response }
    requires bounded { length view.now.body.now ≤ max_type_data }
    ensures { (octets : List ℕ)
        → response_octets vars.now octets view.now.id view.now.kind view.now.body.now
        ≡ (if result then packet.new else octets) }
{
    if view.kind == EXPANDED && is_nak_body(view.body) && accepts_nak(vars) {
        write_nak(packet, view.id, &view.body[VENDOR_SIZE..]);
        true
    } else {
        write_plain(view, packet)
    }
}

/// Whether Type-Data is that of an Expanded Nak (RFC 3748 section 5.3.2).
fn is_nak_body(body: &[u8]) -> bool
    ensures { result ≡ is_nak_body body.now }
{
    body.len() >= VENDOR_SIZE && body[..6] == IETF[..] && body[6] == NAK
}

/// Whether an Expanded Nak is accepted: as a backend's first Response, and if the Request that was sent last
/// is of Type 254.
fn accepts_nak<const N: usize>(vars: &ServerVariables<UserList<N>>) -> bool
    ensures { result ≡ accepts_nak vars.now }
{
    awaits_first(vars) || octet_is(vars.last_request.as_slice(), 4, EXPANDED)
}

/// Whether this octet, which isn't 0, is at this place.
fn octet_is(octets: &[u8], place: usize, octet: u8) -> bool
    requires { (octet == 0) ≡ false }
    ensures { result ≡ (slice_index octets.now place == octet) }
{
    place < octets.len() && octets[place] == octet
}

/// Writes the Nak that an Expanded Nak with this list says: the Types of the two methods that it names, or 0 if
/// it names neither.
#[tactic(auto, unfolding(login_policy::specs::Policy::nak_of))]
fn write_nak(packet: &mut Packet, id: u8, list: &[u8])
    ensures { packet.new ≡ spelled (response id nak_kind (nak_of (expanded_kinds list.now))) }
{
    let kinds = expanded_kinds(list);
    if kinds.is_empty() {
        encode_into(packet, Code::Response, id, NAK, &[0]);
    } else {
        encode_into(packet, Code::Response, id, NAK, kinds.as_slice());
    }
}

/// Wraps a Request that is sent, in place, and stores it so for the timer. A Success and a Failure stay as they
/// are. It isn't inlined, so that the copy of the packet isn't on the stack in a method's turn.
#[inline(never)]
pub fn wrap_sent<const N: usize>(
    vars: &mut ServerVariables<UserList<N>>,
    sends: bool,
    packet: &mut Packet,
)
    requires capacity { MayWrap sends packet.old }
    ensures step { (step : brief.Step) (tags : records.Tags) (views : ServerViews)
        → step.sends ≡ sends
        → wraps (answer (step_with step packet.old tags)
        (record { vars = vars.old; views = views }))
        ≡ answer (step_with step packet.new tags) (record { vars = vars.new; views = views }) }
    ensures setup { vars.new.setup ≡ vars.old.setup }
    ensures order { AreInOrder vars.old → AreInOrder vars.new }
{
    if sends && octet_is(packet.as_slice(), 0, Code::Request as u8) {
        wrap_in_place(packet);
        vars.last_request.set(packet.as_slice());
    }
}
