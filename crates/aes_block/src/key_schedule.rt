// The key expansion on sixteen lanes (FIPS 197, section 5.2).

ghost use Rattle.std.specs.Prelude.{◌≡◌, ℕ, ◌+◌, ◌*◌, ◌%◌, ◌<◌, ◌==◌, if◌then◌else◌, List};
ghost use Rattle.std.specs.Prelude.{slice_index};
ghost use Rattle.aes_block.specs.Field.{sub_byte};
ghost use Rattle.aes_block.specs.KeySchedule.{word_of, change_at, round_key};
ghost use Rattle.aes_block.specs.Cipher.{entry};
ghost use Rattle.aes_block.specs.Turned.{all, of_turned, of_last, columns_on, sums_of_four};
ghost use Rattle.aes_block.specs.Turned.{each_column, AreTurned};

use crate::lanes::{invert, turn};
use std::simd::prelude::*;

// The constant of the S-box's affine map (FIPS 197, section 5.1.1).
const AFFINE_CONSTANT: u8 = 0x63;

// The round constants, for the rounds from 1 on: each is the first octet of its word.
pub(crate) static ROUND_CONSTANTS: [u8; 10] = [
    0x01, 0x02, 0x04, 0x08, 0x10, 0x20, 0x40, 0x80, 0x1b, 0x36,
];

// The S-box of each octet.
#[inline(always)]
fn substitute(octets: u8x16) -> u8x16
    ensures { result ≡ all sub_byte octets }
{
    invert(turn(octets)).plain() ^ u8x16::splat(AFFINE_CONSTANT)
}

// The last word of a round key, rotated, in each column.
#[inline(always)]
fn rotated_word(key: u8x16) -> u8x16
    ensures { result ≡ each_column (λ i. entry key ((i + 1) % 4) 3) }
{
    key.swizzle([
        13, 14, 15, 12, 13, 14, 15, 12, 13, 14, 15, 12, 13, 14, 15, 12,
    ])
}

// A round constant in the first row.
#[inline(always)]
fn in_first_row(constant: u8) -> u8x16
    ensures { result ≡ each_column (λ i. if i == 0 then constant else 0) }
{
    let first_row = [255, 0, 0, 0, 255, 0, 0, 0, 255, 0, 0, 0, 255, 0, 0, 0];
    u8x16::splat(constant) & u8x16::from_array(first_row)
}

// What the first word of the round key before a round's is changed by, in each column.
#[inline(always)]
fn change(round: usize, key: u8x16) -> u8x16
    requires { round < 10 }
    ensures { result
        ≡ each_column (slice_index (change_at (4 * round + 4) (word_of (λ i. entry key i 3)))) }
{
    substitute(rotated_word(key)) ^ in_first_row(ROUND_CONSTANTS[round])
}

// The state one column on, with zeros in the first.
#[inline(always)]
fn one_column_on(state: u8x16) -> u8x16
    ensures { result ≡ columns_on 1 state }
{
    u8x16::splat(0).shuffle(
        state,
        [0, 0, 0, 0, 16, 17, 18, 19, 20, 21, 22, 23, 24, 25, 26, 27],
    )
}

// The state two columns on, with zeros in the first two.
#[inline(always)]
fn two_columns_on(state: u8x16) -> u8x16
    ensures { result ≡ columns_on 2 state }
{
    u8x16::splat(0).shuffle(
        state,
        [0, 0, 0, 0, 0, 0, 0, 0, 16, 17, 18, 19, 20, 21, 22, 23],
    )
}

// Each column added to all before it.
#[inline(always)]
fn add_columns(state: u8x16) -> u8x16
    ensures { result ≡ sums_of_four state }
{
    let sums_of_two = state ^ one_column_on(state);
    sums_of_two ^ two_columns_on(sums_of_two)
}

// The round key after `key`, which is that of `round`.
#[inline(always)]
pub(crate) fn next_round_key(round: usize, key: u8x16) -> u8x16
    requires { round < 10 }
    ensures { (initial : List ℕ) → key ≡ round_key initial round
        → result ≡ round_key initial (round + 1) }
{
    add_columns(key) ^ change(round, key)
}

// A round key as the full rounds take it: in the turned basis, with the constant of the affine map added.
#[derive(Clone, Copy, Drop)]
pub(crate) struct TurnedKey {
    pub(crate) lanes: u8x16,
}

// A round key, to be kept for a full round.
#[inline(always)]
pub(crate) fn turned_full(key: u8x16) -> TurnedKey
    ensures { all of_turned result.lanes ≡ key }
{
    TurnedKey {
        lanes: turn(key ^ u8x16::splat(AFFINE_CONSTANT)),
    }
}

// A round key, to be kept for the last round: with the constant of the affine map added.
#[inline(always)]
pub(crate) fn turned_last(key: u8x16) -> u8x16
    ensures { all of_last result ≡ key }
{
    key ^ u8x16::splat(AFFINE_CONSTANT)
}

// The round keys after the first, as `Aes128` keeps them.
#[derive(Drop)]
pub(crate) struct RoundKeys {
    pub(crate) full: [TurnedKey; 9],
    pub(crate) last: u8x16,
}

// The round keys after this one, for rounds on sixteen lanes.
#[inline(always)]
pub(crate) fn turned_keys(first: u8x16) -> RoundKeys
    ensures { AreTurned first result.full result.last }
{
    let mut full = [TurnedKey { lanes: first }; 9];
    let mut round_key = first;
    for round in 0..9 {
        let next = next_round_key(round, round_key);
        full[round] = turned_full(next);
        round_key = next;
    }
    RoundKeys {
        full,
        last: turned_last(next_round_key(9, round_key)),
    }
}
