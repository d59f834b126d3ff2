// Two states by slices of bits: eight words, of which word k has bit k of every octet. For processors that
// don't shuffle octets in a register.

ghost use Rattle.std.specs.Prelude.{◌≡◌, ℕ, ◌+◌, ◌-◌, ◌*◌, ◌<◌, ◌==◌, if◌then◌else◌, List};
ghost use Rattle.std.specs.Prelude.{slice_index, nat_lt, bit_xor};
ghost use Rattle.std.specs.Int.{bit_at, to_le_bytes, w32};
ghost use Rattle.aes_block.specs.Slices.{at_place, exchanged, octet_at, octet_in, state_in};
ghost use Rattle.aes_block.specs.Slices.{state_of_columns};
ghost use Rattle.aes_block.specs.Slices as slices;

use std::simd::prelude::*;

// The bits of x at the places of `low`, each `by` places up, exchanged with those of y there.
#[inline(always)]
fn exchange(x: u32, y: u32, low: u32, by: u32) -> [u32; 2]
    requires { by < 32 }
    ensures first { (place : ℕ) → place < 32 → bit_at (slice_index result 0) place
        ≡ slices.bit_from_y x y low by place }
    ensures second { (place : ℕ) → place < 32 → bit_at (slice_index result 1) place
        ≡ slices.bit_from_x x y low by place }
{
    let differing = (x >> by ^ y) & low;
    [x ^ differing << by, y ^ differing]
}

#[inline(always)]
fn exchange_ones(words: [u32; 8]) -> [u32; 8]
    ensures { (place : ℕ) → place < 32 → at_place result place ≡ exchanged 1 words place }
{
    let a = exchange(words[0], words[1], 0x55555555, 1);
    let b = exchange(words[2], words[3], 0x55555555, 1);
    let c = exchange(words[4], words[5], 0x55555555, 1);
    let d = exchange(words[6], words[7], 0x55555555, 1);
    [a[0], a[1], b[0], b[1], c[0], c[1], d[0], d[1]]
}

#[inline(always)]
fn exchange_twos(words: [u32; 8]) -> [u32; 8]
    ensures { (place : ℕ) → place < 32 → at_place result place ≡ exchanged 2 words place }
{
    let a = exchange(words[0], words[2], 0x33333333, 2);
    let b = exchange(words[1], words[3], 0x33333333, 2);
    let c = exchange(words[4], words[6], 0x33333333, 2);
    let d = exchange(words[5], words[7], 0x33333333, 2);
    [a[0], b[0], a[1], b[1], c[0], d[0], c[1], d[1]]
}

#[inline(always)]
fn exchange_fours(words: [u32; 8]) -> [u32; 8]
    ensures { (place : ℕ) → place < 32 → at_place result place ≡ exchanged 4 words place }
{
    let a = exchange(words[0], words[4], 0x0f0f0f0f, 4);
    let b = exchange(words[1], words[5], 0x0f0f0f0f, 4);
    let c = exchange(words[2], words[6], 0x0f0f0f0f, 4);
    let d = exchange(words[3], words[7], 0x0f0f0f0f, 4);
    [a[0], b[0], c[0], d[0], a[1], b[1], c[1], d[1]]
}

// Octet j of a row, which has its bits at a place in all words, becomes the octet of word j in that row,
// and the other way round.
#[inline(never)]
pub(crate) fn transpose(words: [u32; 8]) -> [u32; 8]
    ensures loaded { (row j : ℕ) → row < 4 → j < 8
        → octet_at result (8 * row + j) ≡ octet_in (slice_index words j) row }
    ensures stored { (row j : ℕ) → row < 4 → j < 8 → octet_in (slice_index result j) row
        ≡ octet_at words (8 * row + j) }
{
    exchange_fours(exchange_twos(exchange_ones(words)))
}

// The columns of a state as words, the first row's octet the lowest.
#[inline(always)]
pub(crate) fn columns_of(state: u8x16) -> [u32; 4]
    ensures { state_of_columns result ≡ state }
{
    let [a, b, c, d, e, f, g, h, i, j, k, l, m, n, o, p] = state.to_array();
    [
        from_octets([a, b, c, d]),
        from_octets([e, f, g, h]),
        from_octets([i, j, k, l]),
        from_octets([m, n, o, p]),
    ]
}

// The state with these columns.
#[inline(always)]
pub(crate) fn state_of_words(columns: [u32; 4]) -> u8x16
    ensures { result ≡ state_of_columns columns }
{
    let [a, b, c, d] = columns[0].to_le_bytes();
    let [e, f, g, h] = columns[1].to_le_bytes();
    let [i, j, k, l] = columns[2].to_le_bytes();
    let [m, n, o, p] = columns[3].to_le_bytes();
    u8x16::from_array([a, b, c, d, e, f, g, h, i, j, k, l, m, n, o, p])
}

// The word with these octets.
#[inline(always)]
pub(crate) fn from_octets(octets: [u8; 4]) -> u32
    ensures { to_le_bytes w32 result ≡ octets }
{
    u32::from_le_bytes(octets)
}

// Two states, by slices.
#[inline(always)]
pub(crate) fn load(first: u8x16, second: u8x16) -> [u32; 8]
    ensures first_lane { state_in 0 result ≡ first }
    ensures second_lane { state_in 1 result ≡ second }
{
    let [a, b, c, d] = columns_of(first);
    let [e, f, g, h] = columns_of(second);
    transpose([a, e, b, f, c, g, d, h])
}

// The state in lane 0.
#[inline(always)]
pub(crate) fn first_state(words: [u32; 8]) -> u8x16
    ensures { result ≡ state_in 0 words }
{
    let columns = transpose(words);
    state_of_words([columns[0], columns[2], columns[4], columns[6]])
}

// The sums of the octets at each place.
#[inline(always)]
pub(crate) fn add(words: [u32; 8], others: [u32; 8]) -> [u32; 8]
    ensures { (place : ℕ)
        → octet_at result place ≡ bit_xor (octet_at words place) (octet_at others place) }
{
    [
        words[0] ^ others[0],
        words[1] ^ others[1],
        words[2] ^ others[2],
        words[3] ^ others[3],
        words[4] ^ others[4],
        words[5] ^ others[5],
        words[6] ^ others[6],
        words[7] ^ others[7],
    ]
}
