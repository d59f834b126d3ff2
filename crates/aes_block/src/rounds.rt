// The rounds of the cipher on sixteen lanes (FIPS 197, section 5.1). Between the rounds the state is in
// the turned basis.

ghost use Rattle.std.specs.Prelude.{◌≡◌};
ghost use Rattle.aes_block.specs.Cipher as cipher;
ghost use Rattle.aes_block.specs.Cipher.{state_of, add_round_key, full_round_of, last_round_of};
ghost use Rattle.aes_block.specs.Cipher.{aes128};
ghost use Rattle.aes_block.specs.Turned.{all, plain, of_turned, of_last, mixed_lanes, AreTurned};
ghost use Rattle.aes_block.specs.Turned as turned;

use crate::key_schedule::TurnedKey;
use crate::lanes::{invert, turn};
use std::simd::prelude::*;

// SHIFTROWS.
#[inline(always)]
fn shift_rows(state: u8x16) -> u8x16
    ensures { result ≡ cipher.shift_rows state }
{
    state.swizzle([0, 5, 10, 15, 4, 9, 14, 3, 8, 13, 2, 7, 12, 1, 6, 11])
}

// For each octet the one a row below it in its column, round about.
#[inline(always)]
fn one_below(state: u8x16) -> u8x16
    ensures { result ≡ state_of (turned.below state 1) }
{
    state.swizzle([1, 2, 3, 0, 5, 6, 7, 4, 9, 10, 11, 8, 13, 14, 15, 12])
}

// For each octet the one three rows below it in its column, round about.
#[inline(always)]
fn three_below(state: u8x16) -> u8x16
    ensures { result ≡ state_of (turned.below state 3) }
{
    state.swizzle([3, 0, 1, 2, 7, 4, 5, 6, 11, 8, 9, 10, 15, 12, 13, 14])
}

// MIXCOLUMNS, from the octets and the octets times x.
#[inline(always)]
fn mix_columns(once: u8x16, twice: u8x16) -> u8x16
    ensures { result ≡ mixed_lanes once twice }
{
    let partial = twice ^ one_below(once);
    partial ^ three_below(once) ^ one_below(partial)
}

// The block with the key of round 0, in the turned basis.
#[inline(always)]
pub(crate) fn initial_round(block: u8x16, key: u8x16) -> u8x16
    ensures { all plain result ≡ add_round_key block key }
{
    turn(block ^ key)
}

// One of the nine rounds that mix the columns. SHIFTROWS and SUBBYTES commute, and the constant of the
// affine map is in the kept key, since MIXCOLUMNS leaves a state of equal octets as it is.
#[inline(always)]
pub(crate) fn full_round(state: u8x16, kept: u8x16) -> u8x16
    ensures { all plain result ≡ full_round_of (all plain state) (all of_turned kept) }
{
    let halves = invert(shift_rows(state));
    mix_columns(halves.once(), halves.twice()) ^ kept
}

// The tenth round, which doesn't.
#[inline(always)]
pub(crate) fn last_round(state: u8x16, kept: u8x16) -> u8x16
    ensures { result ≡ last_round_of (all plain state) (all of_last kept) }
{
    invert(shift_rows(state)).plain() ^ kept
}

// A block's encryption, with round keys that are kept for these rounds.
#[inline(always)]
pub(crate) fn encrypt_lanes(key: u8x16, full: &[TurnedKey; 9], last: u8x16, block: u8x16) -> u8x16
    ensures { AreTurned key full.now last → result ≡ aes128 key block }
{
    let mut state = initial_round(block, key);
    for round in 0..9 {
        let next = full_round(state, full[round].lanes);
        state = next;
    }
    last_round(state, last)
}
