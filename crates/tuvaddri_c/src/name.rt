//! The peer's name in a Response, for a program that looks its user up, and the server's in a Request, for one that says which
//! name came.

ghost use Rattle.std.specs.Prelude.{◌≡◌, ◌≤◌, length, Some, None, IfSome};
ghost use Rattle.octet_lists.specs.Sizes.{max_name};
ghost use Rattle.eap_packet.specs.Fault.{packet_of};
ghost use Rattle.tuvaddri_c.specs.PeerName.{name_in, response_name, server_in, request_name};
ghost use Rattle.tuvaddri_c.specs.Capacities.{IsWritten, octets_of};

use crate::by_method::{name_by, server_by};
use crate::rooms::write_octets;
use eap_packet::{Code, decode, write_plain};
use octet_lists::{MAX_NAME, Packet};

/// The name in the packet that the octets begin with.
fn name_in<'a>(octets: &'a [u8]) -> Option<&'a [u8]>
    ensures found { IfSome result (λ name. name_in (packet_of octets.now) ≡ Some name.now) }
    ensures none { result ≡ None → name_in (packet_of octets.now) ≡ None }
    ensures size { IfSome result (λ name. length name.now ≤ max_name) }
{
    match decode(octets) {
        Err(_) => None,
        Ok(view) => match view.code {
            Code::Response => name_by(view.kind, view.body),
            Code::Request | Code::Success | Code::Failure => None,
        },
    }
}

/// Writes the name in the packet that the octets begin with, and answers its length; 0 if there is none.
fn write_name_in(octets: &[u8], room: &mut [u8; MAX_NAME]) -> usize
    ensures { IsWritten (octets_of (name_in (packet_of octets.now))) room.old result room.new }
{
    match name_in(octets) {
        None => 0,
        Some(name) => write_octets(name, room),
    }
}

/// Writes the peer's name to the start of `room`, and answers its length: ID_P of PSK-2 or ID_Peer of GPSK-2, of a
/// Response with which the octets begin, also of one of Type 254. Of any other octets it answers 0 and writes nothing.
#[unsafe(no_mangle)]
pub extern "C" fn tuv_response_name(octets: &[u8], room: &mut [u8; MAX_NAME]) -> usize
    ensures { IsWritten (octets_of (response_name octets.now)) room.old result room.new }
{
    match decode(octets) {
        Err(_) => 0,
        Ok(view) => {
            let mut plain = Packet::new();
            if write_plain(&view, &mut plain) {
                write_name_in(plain.as_slice(), room)
            } else {
                write_name_in(octets, room)
            }
        }
    }
}

/// The server's name in the packet that the octets begin with.
fn server_in<'a>(octets: &'a [u8]) -> Option<&'a [u8]>
    ensures found { IfSome result (λ name. server_in (packet_of octets.now) ≡ Some name.now) }
    ensures none { result ≡ None → server_in (packet_of octets.now) ≡ None }
    ensures size { IfSome result (λ name. length name.now ≤ max_name) }
{
    match decode(octets) {
        Err(_) => None,
        Ok(view) => match view.code {
            Code::Request => server_by(view.kind, view.body),
            Code::Response | Code::Success | Code::Failure => None,
        },
    }
}

/// Writes the server's name in the packet that the octets begin with, and answers its length; 0 if there is none.
fn write_server_in(octets: &[u8], room: &mut [u8; MAX_NAME]) -> usize
    ensures { IsWritten (octets_of (server_in (packet_of octets.now))) room.old result room.new }
{
    match server_in(octets) {
        None => 0,
        Some(name) => write_octets(name, room),
    }
}

/// Writes the server's name to the start of `room`, and answers its length: ID_S of PSK-1 or ID_Server of GPSK-1, of a
/// Request with which the octets begin, also of one of Type 254. Of any other octets it answers 0 and writes nothing.
#[unsafe(no_mangle)]
pub extern "C" fn tuv_request_name(octets: &[u8], room: &mut [u8; MAX_NAME]) -> usize
    ensures { IsWritten (octets_of (request_name octets.now)) room.old result room.new }
{
    match decode(octets) {
        Err(_) => 0,
        Ok(view) => {
            let mut plain = Packet::new();
            if write_plain(&view, &mut plain) {
                write_server_in(plain.as_slice(), room)
            } else {
                write_server_in(octets, room)
            }
        }
    }
}
