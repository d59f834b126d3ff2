//! MACs in pieces, whose contracts say what each cutting gives.

use crate::row::Row;
use cmac_mac::Cmac;
use hmac_mac::Hmac;
use octet_lists::Packet;

/// The vector of 40 octets of RFC 4493.
const CMAC: &str = "\
2b7e151628aed2a6abf7158809cf4f3c \
6bc1bee22e409f96e93d7e117393172aae2d8a571e03ac9c9eb76fac45af8e5130c81c46a35ce411 \
dfa66747de9ae63030ca32611497c827";

/// Case 2 of RFC 4231.
const HMAC: &str = "\
4a656665 7768617420646f2079612077616e7420666f72206e6f7468696e673f \
5bdcc146bf60754e6a042426089575c75a003f089d2739839dec58b964ec3843";

/// The CMAC of a text that is cut in two at a place.
fn cmac_cut(key: &[u8; 16], text: &Packet, place: usize) -> [u8; 16] {
    let (first, second) = text.as_slice().split_at(place.min(text.len()));
    let mut mac = Cmac::new(key);
    mac.update(first);
    mac.update(second);
    mac.finish()
}

/// The HMAC of a text that is cut in two at a place.
fn hmac_cut(key: &Packet, text: &Packet, place: usize) -> [u8; 32] {
    let (first, second) = text.as_slice().split_at(place.min(text.len()));
    let mut mac = Hmac::new(key.as_slice());
    mac.update(first);
    mac.update(second);
    mac.finish()
}

#[test]
fn a_mac_is_the_same_in_every_cutting(rt: HostRuntime) {
    let mut row = Row::new(CMAC);
    let (key, text, tag) = (row.array(), row.octets(), row.array());
    assert!(rt; row.is_read() && text.len() == 40);
    for place in 0..41 {
        assert!(rt; cmac_cut(&key, &text, place) == tag);
    }
    let mut row = Row::new(HMAC);
    let (key, text, tag) = (row.octets(), row.octets(), row.array());
    assert!(rt; row.is_read() && text.len() == 28);
    for place in 0..29 {
        assert!(rt; hmac_cut(&key, &text, place) == tag);
    }
}
