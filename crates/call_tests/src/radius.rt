//! RADIUS packets longer than a line of a text can spell, and what a RADIUS packet carries beside EAP.

use crate::row::Row;
use radius_carry::{attribute, read_radius, write_request};

/// The Type of the attribute State (RFC 2865 section 5.24).
const STATE: u8 = 24;

/// A packet of 4,097 octets that begins as an Access-Request of this Length, with a Message-Authenticator,
/// an EAP packet of this even number of octets in attributes EAP-Message, and attributes of two octets.
fn long_packet(length: usize, eap: usize) -> [u8; 4097] {
    let mut packet = [2; 4097];
    packet[0] = 1;
    packet[2] = (length / 256 % 256) as u8;
    packet[3] = (length % 256) as u8;
    packet[20] = 80;
    packet[21] = 18;
    for i in 0..eap.min(2000) {
        if i % 250 == 0 {
            packet[38 + i + 2 * (i / 250)] = 79;
            packet[39 + i + 2 * (i / 250)] = (2 + (eap - i).min(250)) as u8;
        }
    }
    packet
}

/// What is read from the first octets of a long packet: the cause, or `request`.
fn word_of_long(received: usize, length: usize, eap: usize) -> &'static str {
    let packet = long_packet(length, eap);
    match read_radius(&packet[..received.min(4097)]) {
        Ok(_) => "request",
        Err(cause) => cause.word(),
    }
}

// How many octets are received, the Length, the octets of EAP, and what is read (RFC 2865 section 3, RFC 3579
// section 3.1).
const LONG: &str = "\
4096 4096 4 request
4097 4096 4 request
4097 4097 4 RadiusLength
4095 4096 4 RadiusTruncated
4096 4096 1500 request
4096 4096 1502 EapTooLong";

/// Whether the row's name is that of what is read.
fn reads_long(row: &str) -> bool {
    let mut row = Row::new(row);
    let (received, length, eap) = (row.number(), row.number(), row.number());
    word_of_long(received, length, eap) == row.word() && row.is_read()
}

#[test]
fn long_radius_packets_are_read(rt: HostRuntime) {
    for row in LONG.lines() {
        assert!(rt; reads_long(row), "{row}");
    }
}

#[test]
fn state_is_read(rt: HostRuntime) {
    let eap = [2, 1, 0, 4];
    let packet = write_request(b"secret", 7, &[9; 16], b"alice", b"session", &eap);
    match read_radius(packet.as_slice()) {
        Err(cause) => assert!(rt; false, "{cause}"),
        Ok(view) => {
            assert!(rt; attribute(&view, STATE) == Some(b"session"));
            assert!(rt; attribute(&view, 1) == Some(b"alice"));
            assert!(rt; attribute(&view, 25).is_none());
        }
    }
}
