// Blocks of sixteen octets: their sums and their doubles (RFC 4493, section 2).

ghost use Rattle.std.specs.Prelude.{◌≡◌, ◌≤◌, ◌-◌, ◌++◌, length, replicate};
ghost use Rattle.cmac_mac.specs.Cmac as spec;

use std::simd::prelude::*;

// The octets with zeros at their end, up to a whole block.
pub(crate) fn filled(octets: &[u8]) -> [u8; 16]
    requires { length octets.now ≤ 16 }
    ensures { result ≡ octets.now ++ replicate (16 - length octets.now) 0 }
{
    let mut block = [0; 16];
    block[..octets.len()].copy_from_slice(octets);
    block
}

// The sum of two blocks.
pub(crate) fn xor_blocks(left: &[u8; 16], right: &[u8; 16]) -> [u8; 16]
    ensures { result ≡ spec.xor_blocks left.now right.now }
{
    (u8x16::from_array(*left) ^ u8x16::from_array(*right)).to_array()
}

// A block times x, as an element of the field of 2^128 elements (section 2.3).
pub(crate) fn double(block: [u8; 16]) -> [u8; 16]
    ensures { result ≡ spec.doubled block }
{
    let number = u128::from_be_bytes(block);
    double_number(number).to_be_bytes()
}

// The same of the block's number.
fn double_number(number: u128) -> u128
    ensures { result ≡ spec.doubled_number number }
{
    number << 1 ^ (number >> 127) * 0x87
}
