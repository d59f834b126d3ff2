//! Rows of a text: words by spaces, octets in hex.

use hex::decode_to_slice;
use octet_lists::{MAX_PACKET, Octets, Packet};
use std::str::SplitWhitespace;

/// A row whose words are read one after the other.
#[derive(Drop)]
pub(crate) struct Row<'a> {
    words: SplitWhitespace<'a>,
    is_sound: bool,
}

impl<'a> Row<'a> {
    /// The row before its first word.
    pub(crate) fn new(row: &'a str) -> Row<'a> {
        Row {
            words: row.split_whitespace(),
            is_sound: true,
        }
    }

    /// The next word.
    pub(crate) fn word(&mut self) -> &'a str {
        match self.words.next() {
            Some(word) => word,
            None => {
                self.is_sound = false;
                ""
            }
        }
    }

    /// The octets that the next word spells, at most 1,500; a dash stands for none.
    pub(crate) fn octets(&mut self) -> Packet {
        let word = self.word();
        let digits = if word == "-" { "" } else { word };
        let mut room = [0; MAX_PACKET];
        let octets = &mut room[..(digits.len() / 2).min(MAX_PACKET)];
        let is_hex = decode_to_slice(digits, octets).is_ok();
        let mut list = Octets::new();
        let fits = list.append(octets);
        self.is_sound &= is_hex & fits;
        list
    }

    /// The octets that the next word spells, exactly `N`.
    pub(crate) fn array<const N: usize>(&mut self) -> [u8; N] {
        let mut array = [0; N];
        self.is_sound &= decode_to_slice(self.word(), &mut array).is_ok();
        array
    }

    /// The number that the next word spells in decimal digits.
    pub(crate) fn number(&mut self) -> usize {
        let mut number: usize = 0;
        for digit in self.word().bytes() {
            self.is_sound &= digit.is_ascii_digit();
            let value = usize::from(digit.wrapping_sub(b'0'));
            number = number.wrapping_mul(10).wrapping_add(value);
        }
        number
    }

    /// True if each word was what was asked for, and none is left.
    pub(crate) fn is_read(&mut self) -> bool {
        self.is_sound && self.words.next().is_none()
    }
}
