// The rounds of the cipher on two states by slices (FIPS 197, section 5.1).

ghost use Rattle.std.specs.Prelude.{◌≡◌, ℕ, ◌+◌, ◌*◌, ◌%◌, ◌<◌, List};
ghost use Rattle.std.specs.Int.{bit_at};
ghost use Rattle.aes_block.specs.Field.{times};
ghost use Rattle.aes_block.specs.Cipher as cipher;
ghost use Rattle.aes_block.specs.Cipher.{full_round_of, last_round_of, aes128};
ghost use Rattle.aes_block.specs.Kept.{ArePlain};
ghost use Rattle.aes_block.specs.Slices.{octet_at, octet_in, state_in};

use crate::key_schedule::TurnedKey;
use crate::sliced_box::substitute;
use crate::slices::{add, first_state, from_octets, load};
use std::simd::prelude::*;

// SUBBYTES.
#[inline(always)]
fn sub_bytes(words: [u32; 8]) -> [u32; 8]
    ensures { (lane : ℕ) → lane < 2
        → state_in lane result ≡ cipher.sub_bytes (state_in lane words) }
{
    substitute(words)
}

// Each row of a slice is an octet, two bits a column: that of row r rotated by r columns.
#[inline(never)]
fn shift_slice(word: u32) -> u32
    ensures { (row k : ℕ) → row < 4 → k < 8
        → bit_at result (8 * row + k) ≡ bit_at word (8 * row + (k + 2 * row) % 8) }
{
    let [first, second, third, fourth] = word.to_le_bytes();
    from_octets([
        first,
        second.rotate_right(2),
        third.rotate_right(4),
        fourth.rotate_right(6),
    ])
}

// SHIFTROWS.
#[inline(never)]
fn shift_rows(words: [u32; 8]) -> [u32; 8]
    ensures { (lane : ℕ) → lane < 2
        → state_in lane result ≡ cipher.shift_rows (state_in lane words) }
{
    [
        shift_slice(words[0]),
        shift_slice(words[1]),
        shift_slice(words[2]),
        shift_slice(words[3]),
        shift_slice(words[4]),
        shift_slice(words[5]),
        shift_slice(words[6]),
        shift_slice(words[7]),
    ]
}

// A slice, some rows below, round about.
#[inline(always)]
fn slice_below(word: u32, rows: u32) -> u32
    requires some { 0 < rows }
    requires few { rows < 4 }
    ensures { (row k : ℕ) → row < 4 → k < 8
        → bit_at result (8 * row + k) ≡ bit_at word (8 * ((row + rows) % 4) + k) }
{
    word.rotate_right(8 * rows)
}

// At each place the octet that is some rows below it, round about.
#[inline(always)]
fn below(words: [u32; 8], rows: u32) -> [u32; 8]
    requires some { 0 < rows }
    requires few { rows < 4 }
    ensures { (row j : ℕ) → row < 4 → j < 8
        → octet_at result (8 * row + j) ≡ octet_at words (8 * ((row + rows) % 4) + j) }
{
    [
        slice_below(words[0], rows),
        slice_below(words[1], rows),
        slice_below(words[2], rows),
        slice_below(words[3], rows),
        slice_below(words[4], rows),
        slice_below(words[5], rows),
        slice_below(words[6], rows),
        slice_below(words[7], rows),
    ]
}

// The octets times x.
#[inline(always)]
fn times_x(words: [u32; 8]) -> [u32; 8]
    ensures { (place : ℕ) → octet_at result place ≡ times 2 (octet_at words place) }
{
    let carry = words[7];
    [
        carry,
        words[0] ^ carry,
        words[1],
        words[2] ^ carry,
        words[3] ^ carry,
        words[4],
        words[5],
        words[6],
    ]
}

// MIXCOLUMNS: twice an octet and the one below it, that one, and the next two.
#[inline(always)]
fn mix_columns(words: [u32; 8]) -> [u32; 8]
    ensures { (lane : ℕ) → lane < 2
        → state_in lane result ≡ cipher.mix_columns (state_in lane words) }
{
    let next = below(words, 1);
    let sums = add(words, next);
    add(add(times_x(sums), next), below(sums, 2))
}

// ADDROUNDKEY, of one key to both states.
#[inline(never)]
fn add_round_key(words: [u32; 8], key: u8x16) -> [u32; 8]
    ensures { (lane : ℕ) → lane < 2
        → state_in lane result ≡ cipher.add_round_key (state_in lane words) key }
{
    add(words, load(key, key))
}

// One of the nine rounds that mix the columns.
#[inline(always)]
fn full_round(words: [u32; 8], key: u8x16) -> [u32; 8]
    ensures { (lane : ℕ) → lane < 2
        → state_in lane result ≡ full_round_of (state_in lane words) key }
{
    add_round_key(mix_columns(shift_rows(sub_bytes(words))), key)
}

// The tenth round, which doesn't.
#[inline(always)]
fn last_round(words: [u32; 8], key: u8x16) -> [u32; 8]
    ensures { (lane : ℕ) → lane < 2
        → state_in lane result ≡ last_round_of (state_in lane words) key }
{
    add_round_key(shift_rows(sub_bytes(words)), key)
}

// A block's encryption, with round keys as they are. (It stands in both lanes.)
#[inline(always)]
pub(crate) fn encrypt_slices(key: u8x16, full: &[TurnedKey; 9], last: u8x16, block: u8x16) -> u8x16
    ensures { ArePlain key full.now last → result ≡ aes128 key block }
{
    let mut words = add_round_key(load(block, block), key);
    for round in 0..9 {
        let next = full_round(words, full[round].lanes);
        words = next;
    }
    first_state(last_round(words, last))
}
