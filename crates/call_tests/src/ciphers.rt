//! Both bodies of the block cipher beside each other.

use crate::row::Row;
use aes_block::{Aes128, TableAes128};

// The key and the block of FIPS 197's example vector, and the last of 1,000 blocks of which each is the
// one before it, encrypted. Computed with the package cryptography of Python, and again by 1,000 calls of
// openssl enc -aes-128-ecb -nopad.
const CHAIN: &str = "\
000102030405060708090a0b0c0d0e0f 00112233445566778899aabbccddeeff b7449c8da15defeb78dbc57ea81db8ee";

/// The block after it was encrypted 1,000 times, if both bodies of the cipher give each block alike.
fn end_of_chain(key: &[u8; 16], block: &[u8; 16]) -> Option<[u8; 16]> {
    let (shuffles, tables) = (Aes128::new(key), TableAes128::new(key));
    let mut block = *block;
    for _ in 0..1000 {
        let next = shuffles.encrypt(&block);
        if next != tables.encrypt(&block) {
            return None;
        }
        block = next;
    }
    Some(block)
}

/// Whether the row's chain ends in its last block.
fn ends_chain(row: &str) -> bool {
    let mut row = Row::new(row);
    let end = end_of_chain(&row.array(), &row.array());
    end == Some(row.array()) && row.is_read()
}

#[test]
fn a_chain_of_a_thousand_blocks(rt: HostRuntime) {
    assert!(rt; ends_chain(CHAIN));
}
