//! A capture and lines, read and judged by the plain calls.

use capture_check::{Checker, Finding};
use eap_packet::Cause;
use octet_lists::Octets;
use scenario_text::{CaptureItem, CaptureReader, read_key_line, read_packet_line};

/// A capture whose findings are one of each kind but a tag's.
const CAPTURE: &str = "\
eap-capture 1
user alice 47 000102030405060708090a0b0c0d0e0f
packets
> 0100000501
< 010203
< 0100000501
< 0201002b2fc022222222222222222222222222222222000000000000000000000000000000000000000000
end
";

/// True if the finding of the packet of this number is the one that it must be.
fn is_found(number: u32, finding: &Finding) -> bool {
    match (number, finding) {
        (1, Finding::Good) => true,
        (2, Finding::Malformed(Cause::Short)) => true,
        (3, Finding::Malformed(Cause::WrongRole)) => true,
        (4, Finding::NoContext) => true,
        _ => false,
    }
}

/// True if each packet of the capture has its finding, and the capture is whole.
fn is_judged() -> bool {
    let mut reader = CaptureReader::new();
    let mut checker = None;
    let mut number: u32 = 0;
    let mut are_found = true;
    for line in CAPTURE.lines() {
        match reader.line(line.as_bytes()) {
            Err(_) => return false,
            Ok(CaptureItem::Ready(users)) => checker = Some(Checker::new(users)),
            Ok(CaptureItem::Packet { to_peer, octets }) => {
                number = number.saturating_add(1);
                are_found &= match &mut checker {
                    None => false,
                    Some(checker) => is_found(number, &checker.packet(to_peer, octets.as_slice())),
                };
            }
            Ok(_) => {}
        }
    }
    are_found && number == 4 && reader.finish().is_ok()
}

#[test]
fn a_capture_is_judged(rt: HostRuntime) {
    assert!(rt; is_judged());
}

#[test]
fn lines_are_read_whole(rt: HostRuntime) {
    let packet: Result<Option<Octets<2000>>, _> = read_packet_line(b"03020004");
    assert!(rt;
        matches!(&packet, Ok(Some(octets)) if octets.as_slice() == b"\x03\x02\0\x04".as_slice())
    );
    assert!(rt; matches!(&read_packet_line(b"# none"), Ok(None)));
    assert!(rt; matches!(&read_key_line(b"name 00"), Ok(Some(_))));
}
