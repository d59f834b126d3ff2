// The cipher by four round tables.

ghost use Rattle.std.specs.Prelude.{◌≡◌};
ghost use Rattle.aes_block.specs.Cipher.{add_round_key, full_round_of, last_round_of, aes128};
ghost use Rattle.aes_block.specs.Words.{state_of_words};

use crate::tables::{full_column, last_column, word};
use crate::word_schedule::next_word_key;
use std::marker::Model;

/// A key of 16 octets, expanded into its eleven round keys (FIPS 197, section 5.2), for a cipher by tables.
///
/// A contract sees it as the key's octets. It is an AES for processors without shuffles of octets. **It
/// looks tables up at addresses that depend on the key and the block**, so who shares the processor may
/// learn of them from the time that it takes. [`Aes128`](crate::Aes128) doesn't, takes fewer instructions,
/// and is what the crates above use.
#[derive(Drop)]
pub struct TableAes128 {
    round_keys: [[u32; 4]; 11],
}

impl Model for TableAes128 {
    ghost use Rattle.std.specs.Prelude.{List, ℕ, [], slice_index_or};
    ghost use Rattle.aes_block.specs.Words.{state_of_words, AreWordKeys};

    ghost Value = { List ℕ };

    ghost view = { λ a. state_of_words (slice_index_or a.round_keys 0 []) };

    ghost invariant = { λ a. AreWordKeys (state_of_words (slice_index_or a.round_keys 0 [])) a.round_keys 11 };
}

impl TableAes128 {
    /// Expands a key.
    pub fn new(key: &[u8; 16]) -> TableAes128
        ensures { result ≡ key.now }
    {
        let first = words_of(key);
        let mut round_keys = [first; 11];
        for round in 0..10 {
            let next = next_word_key(round, round_keys[round]);
            round_keys[round + 1] = next;
        }
        TableAes128 { round_keys }
    }

    /// Encrypts a block (FIPS 197, section 5.1).
    pub fn encrypt(&self, block: &[u8; 16]) -> [u8; 16]
        ensures { result ≡ aes128 self.now block.now }
    {
        let mut state = add(words_of(block), self.round_keys[0]);
        for round in 0..9 {
            let next = full_round(state, self.round_keys[round + 1]);
            state = next;
        }
        octets_of(last_round(state, self.round_keys[10]))
    }
}

// The columns of a block.
#[inline(always)]
fn words_of(block: &[u8; 16]) -> [u32; 4]
    ensures { state_of_words result ≡ block.now }
{
    [
        word([block[0], block[1], block[2], block[3]]),
        word([block[4], block[5], block[6], block[7]]),
        word([block[8], block[9], block[10], block[11]]),
        word([block[12], block[13], block[14], block[15]]),
    ]
}

// The block with these columns.
#[inline(always)]
fn octets_of(words: [u32; 4]) -> [u8; 16]
    ensures { result ≡ state_of_words words }
{
    let [a, b, c, d] = words[0].to_be_bytes();
    let [e, f, g, h] = words[1].to_be_bytes();
    let [i, j, k, l] = words[2].to_be_bytes();
    let [m, n, o, p] = words[3].to_be_bytes();
    [a, b, c, d, e, f, g, h, i, j, k, l, m, n, o, p]
}

// ADDROUNDKEY.
#[inline(always)]
fn add(state: [u32; 4], key: [u32; 4]) -> [u32; 4]
    ensures { state_of_words result ≡ add_round_key (state_of_words state) (state_of_words key) }
{
    [
        state[0] ^ key[0],
        state[1] ^ key[1],
        state[2] ^ key[2],
        state[3] ^ key[3],
    ]
}

// One of the nine rounds that mix the columns.
#[inline(always)]
fn full_round(state: [u32; 4], key: [u32; 4]) -> [u32; 4]
    ensures { state_of_words result ≡ full_round_of (state_of_words state) (state_of_words key) }
{
    let [a, b, c, d] = state;
    [
        full_column(a, b, c, d, key[0]),
        full_column(b, c, d, a, key[1]),
        full_column(c, d, a, b, key[2]),
        full_column(d, a, b, c, key[3]),
    ]
}

// The tenth round, which doesn't.
#[inline(always)]
fn last_round(state: [u32; 4], key: [u32; 4]) -> [u32; 4]
    ensures { state_of_words result ≡ last_round_of (state_of_words state) (state_of_words key) }
{
    let [a, b, c, d] = state;
    [
        last_column(a, b, c, d, key[0]),
        last_column(b, c, d, a, key[1]),
        last_column(c, d, a, b, key[2]),
        last_column(d, a, b, c, key[3]),
    ]
}
