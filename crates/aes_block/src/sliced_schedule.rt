// The key expansion by slices (FIPS 197, section 5.2), on columns as words.

ghost use Rattle.std.specs.Prelude.{◌≡◌, ℕ, ◌+◌, ◌*◌, ◌<◌, List};
ghost use Rattle.std.specs.Int.{to_le_bytes, w32};
ghost use Rattle.aes_block.specs.KeySchedule.{sub_word, change_at, round_key};
ghost use Rattle.aes_block.specs.Kept.{ArePlain};
ghost use Rattle.aes_block.specs.Slices.{state_of_columns};

use crate::key_schedule::{ROUND_CONSTANTS, RoundKeys, TurnedKey};
use crate::sliced_box::substitute;
use crate::slices::{columns_of, from_octets, state_of_words, transpose};
use std::simd::prelude::*;

// SUBWORD.
#[inline(always)]
fn substitute_word(word: u32) -> u32
    ensures { to_le_bytes w32 result ≡ sub_word (to_le_bytes w32 word) }
{
    transpose(substitute(transpose([word, 0, 0, 0, 0, 0, 0, 0])))[0]
}

// What is added to the first word of the round key before a round's, from its last word.
#[inline(always)]
fn change(round: usize, last: u32) -> u32
    requires { round < 10 }
    ensures { to_le_bytes w32 result ≡ change_at (4 * round + 4) (to_le_bytes w32 last) }
{
    let [first, second, third, fourth] = substitute_word(last).to_le_bytes();
    from_octets([second ^ ROUND_CONSTANTS[round], third, fourth, first])
}

// The round key after `key`, which is that of `round`.
#[inline(never)]
fn next_columns(round: usize, key: [u32; 4]) -> [u32; 4]
    requires { round < 10 }
    ensures { (initial : List ℕ) → state_of_columns key ≡ round_key initial round
        → state_of_columns result ≡ round_key initial (round + 1) }
{
    let first = key[0] ^ change(round, key[3]);
    let second = key[1] ^ first;
    let third = key[2] ^ second;
    let fourth = key[3] ^ third;
    [first, second, third, fourth]
}

// The round keys after this one, as they are.
#[inline(always)]
pub(crate) fn plain_keys(first: u8x16) -> RoundKeys
    ensures { ArePlain first result.full result.last }
{
    let mut full = [TurnedKey {
        lanes: u8x16::splat(0),
    }; 9];
    let mut columns = columns_of(first);
    for round in 0..9 {
        let next = next_columns(round, columns);
        full[round] = TurnedKey {
            lanes: state_of_words(next),
        };
        columns = next;
    }
    RoundKeys {
        full,
        last: state_of_words(next_columns(9, columns)),
    }
}
