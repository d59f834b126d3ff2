// Sixteen octets at once, and the S-box of each of them by shuffles of registers.
//
// In a turned basis of the field of 256 elements an octet is a pair of elements of the field of 16, and
// its inverse comes from look-ups in tables of sixteen entries, each of which fits in one register (M.
// Hamburg, Accelerating AES with Vector Permute Instructions, 2009). If the processor shuffles octets,
// as at the default level, no address in memory depends on one.

ghost use Rattle.std.specs.Prelude.{◌≡◌, ℕ, List};
ghost use Rattle.aes_block.specs.Turned as spec;
ghost use Rattle.aes_block.specs.Turned.{all, ArePlaces, AreHalves};

use std::simd::prelude::*;

// An octet in the turned basis is the sum of two entries, at its lower and at its upper half.
#[rattlefmt::skip]
const TURN_LOWER: [u8; 16] =
    [0x00, 0x70, 0x2a, 0x5a, 0x98, 0xe8, 0xb2, 0xc2, 0x08, 0x78, 0x22, 0x52, 0x90, 0xe0, 0xba, 0xca];

#[rattlefmt::skip]
const TURN_UPPER: [u8; 16] =
    [0x00, 0x4d, 0x7c, 0x31, 0x7d, 0x30, 0x01, 0x4c, 0x81, 0xcc, 0xfd, 0xb0, 0xfc, 0xb1, 0x80, 0xcd];

// The inverses of the field of 16 elements, and its quotients of one constant. Instead of the inverse of
// 0 they have 0x80, whose sum with any half is no place.
#[rattlefmt::skip]
const INVERSES: [u8; 16] =
    [0x80, 0x01, 0x08, 0x0d, 0x0f, 0x06, 0x05, 0x0e, 0x02, 0x0c, 0x0b, 0x0a, 0x09, 0x03, 0x07, 0x04];

#[rattlefmt::skip]
const QUOTIENTS: [u8; 16] =
    [0x80, 0x07, 0x0b, 0x0f, 0x06, 0x0a, 0x04, 0x01, 0x09, 0x08, 0x05, 0x02, 0x0c, 0x0e, 0x0d, 0x03];

// The affine map without its constant, of the inverse with these halves: in the turned basis, in that
// basis and times x, and in the standard's basis.
#[rattlefmt::skip]
const ONCE_FIRST: [u8; 16] =
    [0x00, 0x3e, 0x50, 0xcb, 0x8f, 0xe1, 0x9b, 0xb1, 0x44, 0xf5, 0x2a, 0x14, 0x6e, 0x7a, 0xdf, 0xa5];

#[rattlefmt::skip]
const ONCE_SECOND: [u8; 16] =
    [0x00, 0x23, 0xe2, 0xfa, 0x15, 0xd4, 0x18, 0x36, 0xef, 0xd9, 0x2e, 0x0d, 0xc1, 0xcc, 0xf7, 0x3b];

#[rattlefmt::skip]
const TWICE_FIRST: [u8; 16] =
    [0x00, 0x24, 0x71, 0x0b, 0xc6, 0x93, 0x7a, 0xe2, 0xcd, 0x2f, 0x98, 0xbc, 0x55, 0xe9, 0xb7, 0x5e];

#[rattlefmt::skip]
const TWICE_SECOND: [u8; 16] =
    [0x00, 0x29, 0xe1, 0x0a, 0x40, 0x88, 0xeb, 0x69, 0x4a, 0x23, 0x82, 0xab, 0xc8, 0x63, 0xa1, 0xc2];

#[rattlefmt::skip]
const PLAIN_FIRST: [u8; 16] =
    [0x00, 0xc7, 0xbd, 0x6f, 0x17, 0x6d, 0xd2, 0xd0, 0x78, 0xa8, 0x02, 0xc5, 0x7a, 0xbf, 0xaa, 0x15];

#[rattlefmt::skip]
const PLAIN_SECOND: [u8; 16] =
    [0x00, 0x6a, 0xbb, 0x5f, 0xa5, 0x74, 0xe4, 0xcf, 0xfa, 0x35, 0x2b, 0x41, 0xd1, 0x90, 0x1e, 0x8e];

// The halves of the inverse of each octet, as places in the last six tables.
#[derive(Clone, Copy, Drop)]
pub(crate) struct Halves {
    first: u8x16,
    second: u8x16,
    ghost first_places: { ArePlaces first },
    ghost second_places: { ArePlaces second },
}

// The table's entry at each place, and 0 at no place.
#[inline(always)]
fn look(table: [u8; 16], places: u8x16) -> u8x16
    requires { ArePlaces places }
    ensures { result ≡ all (spec.look table) places }
{
    u8x16::from_array(table).swizzle_dyn_within::<16>(places)
}

// The lower half of each octet.
#[inline(always)]
fn lower(octets: u8x16) -> u8x16
    ensures { result ≡ all spec.lower octets }
{
    octets & u8x16::splat(15)
}

// The upper half of each octet.
#[inline(always)]
fn upper(octets: u8x16) -> u8x16
    ensures { result ≡ all spec.upper octets }
{
    octets >> u8x16::splat(4)
}

// Each octet in the turned basis.
#[inline(always)]
pub(crate) fn turn(octets: u8x16) -> u8x16
    ensures { result ≡ all spec.turned octets }
{
    look(TURN_LOWER, lower(octets)) ^ look(TURN_UPPER, upper(octets))
}

// The halves of the inverse of each octet, which is in the turned basis.
#[inline(always)]
pub(crate) fn invert(octets: u8x16) -> Halves
    ensures { AreHalves octets result.first result.second }
{
    let lower = lower(octets);
    let upper = upper(octets);
    let sum = lower ^ upper;
    let quotient = look(QUOTIENTS, lower);
    let first_sum = look(INVERSES, upper) ^ quotient;
    let second_sum = look(INVERSES, sum) ^ quotient;
    Halves {
        first: look(INVERSES, first_sum) ^ sum,
        second: look(INVERSES, second_sum) ^ upper,
    }
}

impl Halves {
    // The sums of what two tables have at the halves.
    #[inline(always)]
    fn look_both(self, first: [u8; 16], second: [u8; 16]) -> u8x16
        ensures { (octets : List ℕ) → AreHalves octets self.first self.second
            → result ≡ all (spec.looked first second) octets }
    {
        look(first, self.first) ^ look(second, self.second)
    }

    // The S-box without its constant, in the turned basis.
    #[inline(always)]
    pub(crate) fn once(self) -> u8x16
        ensures { (octets : List ℕ) → AreHalves octets self.first self.second
            → result ≡ all spec.once octets }
    {
        self.look_both(ONCE_FIRST, ONCE_SECOND)
    }

    // The same times x.
    #[inline(always)]
    pub(crate) fn twice(self) -> u8x16
        ensures { (octets : List ℕ) → AreHalves octets self.first self.second
            → result ≡ all spec.twice octets }
    {
        self.look_both(TWICE_FIRST, TWICE_SECOND)
    }

    // The S-box without its constant, in the standard's basis.
    #[inline(always)]
    pub(crate) fn plain(self) -> u8x16
        ensures { (octets : List ℕ) → AreHalves octets self.first self.second
            → result ≡ all spec.plain_box octets }
    {
        self.look_both(PLAIN_FIRST, PLAIN_SECOND)
    }
}
