//! Packets, the messages of both methods and a captured frame, each by the plain calls, there and back.

ghost use Rattle.std.specs.Prelude.{IsTrue};
ghost use Rattle.eap_packet.specs.Packet.{has_type};

use crate::row::Row;
use eap_packet::{Code, decode, encode, encode_end, plain, read_expanded};
use eapol_capture::{FrameFinding, eap_of_frame};
use gpsk_messages::{GpskView, read_gpsk, write_gpsk};
use octet_lists::Packet;
use psk_messages::{read_psk, write_psk};

/// True if the octets are a packet that has these octets again once it was read, its message too if it is one of
/// EAP-PSK's, and written; a message of EAP-GPSK is read alone.
fn is_written_again(octets: &[u8]) -> bool {
    let Ok(view) = decode(octets) else {
        return false;
    };
    let written = match view.code {
        Code::Success => Some(encode_end(Code::Success, view.id)),
        Code::Failure => Some(encode_end(Code::Failure, view.id)),
        Code::Request => typed_again(Code::Request, view.id, view.kind, view.body),
        Code::Response => typed_again(Code::Response, view.id, view.kind, view.body),
    };
    match written {
        None => view.kind == 51 && read_gpsk(view.body, None).is_ok(),
        Some(packet) => packet.as_slice() == octets,
    }
}

fn typed_again(code: Code, id: u8, kind: u8, body: &[u8]) -> Option<Packet>
    requires { IsTrue (has_type code) }
{
    if kind == 3 || kind == 51 || body.len() > 1495 {
        return None;
    }
    if kind != 47 {
        return Some(encode(code, id, kind, body));
    }
    match read_psk(body) {
        Err(_) => None,
        Ok(view) => Some(write_psk(&view, code, id)),
    }
}

// The packets of a login by EAP-PSK, and of EAP-GPSK the first and the last message, as `cases/psk.cases` and `cases/gpsk.cases` have
// them from Python.
const PACKETS: &str = "\
0100000501
0200000a01616c696365
010700222f00a0a1a2a3a4a5a6a7a8a9aaabacadaeaf676174652e6578616d706c65
020700412f40a0a1a2a3a4a5a6a7a8a9aaabacadaeaf303132333435363738393a3b3c3d3e3f8abbf6f91dc09acbca996f02cbefb588616e6e406578616d706c65
0108003b2f80a0a1a2a3a4a5a6a7a8a9aaabacadaeaf8744ed0fcdedf2de35e0ce89ea3f2ba000000000f36f3729c4a1bf7edcc96ccc98b60455ce
0208002b2fc0a0a1a2a3a4a5a6a7a8a9aaabacadaeaf000000017143cc3d82ee529ccea178f5152d5ae677
03080004
04080004
010700453301000f6161612e6578616d706c652e6e657405162738495a6b7c8d9eafc0d1e2f30415263748596a7b8c9daebfd0e1f20314000c000000000001000000000002
02080018330400009a15d11e92c3472e2f4155e2d9506df1";

/// True if the packet of a row is written again as it was.
fn row_is_written_again(row: &str) -> bool {
    let mut row = Row::new(row);
    let packet = row.octets();
    row.is_read() && is_written_again(packet.as_slice())
}

#[test]
fn packets_are_written_again(rt: HostRuntime) {
    for row in PACKETS.lines() {
        assert!(rt; row_is_written_again(row), "{row}");
    }
}

/// True if a Failure of EAP-GPSK is written by the layout of RFC 5433 section 9.3, and its Expanded Type holds it.
fn is_wrapped_and_plain() -> bool {
    let packet = write_gpsk(&GpskView::Fail { code: 1 }, Code::Response, 3);
    let Ok(view) = decode(b"\x02\x03\0\x11\xfe\0\0\0\0\0\0\x33\x05\0\0\0\x01") else {
        return false;
    };
    if view.kind != 254 {
        return false;
    }
    let Some(expanded) = read_expanded(&view) else {
        return false;
    };
    let is_held = match plain(&view) {
        None => false,
        Some(inner) => inner.as_slice() == packet.as_slice(),
    };
    (expanded.vendor == 0)
        & is_held
        & (packet.as_slice() == b"\x02\x03\0\x0a\x33\x05\0\0\0\x01".as_slice())
}

#[test]
fn an_expanded_type_holds_its_packet(rt: HostRuntime) {
    assert!(rt; is_wrapped_and_plain());
}

/// A frame that carries an Identity Request.
const FRAME: &[u8] = b"\x01\x80\xc2\0\0\x03\x02\0\0\0\0\x01\x88\x8e\x01\0\0\x05\x01\0\0\x05\x01";

#[test]
fn a_frame_carries_its_packet(rt: HostRuntime) {
    let has_packet = match eap_of_frame(FRAME) {
        FrameFinding::Eap(octets) => octets.as_slice() == b"\x01\0\0\x05\x01".as_slice(),
        _ => false,
    };
    assert!(rt; has_packet);
}
