//! AES-128, the block cipher of FIPS 197.
//!
//! [`Aes128`] is an expanded key, and [`Aes128::encrypt`] encrypts one block with it.
#![tactic(auto)]

ghost use Rattle.std.specs.Prelude.{◌≡◌};
ghost use Rattle.aes_block.specs.Cipher.{aes128};
ghost use Rattle.aes_block.specs.Kept.{AreKept};

use crate::key_schedule::{RoundKeys, TurnedKey, turned_keys};
use crate::processor::shuffles;
use crate::rounds::encrypt_lanes;
use crate::sliced_rounds::encrypt_slices;
use crate::sliced_schedule::plain_keys;
use std::marker::Model;
use std::simd::prelude::*;

mod by_tables;
mod inverses;
mod key_schedule;
mod lanes;
mod processor;
mod rounds;
mod sliced_box;
mod sliced_rounds;
mod sliced_schedule;
mod slices;
mod tables;
mod word_schedule;

pub use by_tables::TableAes128;
pub use inverses::{encryptions_are_blocks, encryptions_differ, inverses_are_unique};

/// The octets of a block (FIPS 197, section 3.4).
pub const BLOCK_LEN: usize = 16;

/// A key of 16 octets, expanded into its eleven round keys (FIPS 197, section 5.2).
///
/// A contract sees it as the key's octets. At the processor level that programs are built for by default,
/// no address in memory depends on the key or on a block.
#[derive(Drop)]
pub struct Aes128 {
    key: u8x16,
    full_keys: [TurnedKey; 9],
    last_key: u8x16,
}

impl Model for Aes128 {
    ghost use Rattle.std.specs.Prelude.{List, ℕ};
    ghost use Rattle.aes_block.specs.Kept.{AreKept};

    ghost Value = { List ℕ };

    ghost view = { λ a. a.key };

    ghost invariant = { λ a. AreKept a.key a.full_keys a.last_key };
}

impl Aes128 {
    /// Expands a key.
    #[inline(never)]
    pub fn new(key: &[u8; 16]) -> Aes128
        ensures { result ≡ key.now }
    {
        let first = u8x16::from_array(*key);
        let kept = round_keys(first);
        let full_keys = kept.full;
        Aes128 {
            key: first,
            full_keys,
            last_key: kept.last,
        }
    }

    /// The same key, once more.
    pub fn copy(&self) -> Aes128
        ensures { result ≡ self.now }
    {
        Aes128 {
            key: self.key,
            full_keys: self.full_keys,
            last_key: self.last_key,
        }
    }

    /// Encrypts a block (FIPS 197, section 5.1).
    #[inline(always)]
    pub fn encrypt(&self, block: &[u8; 16]) -> [u8; 16]
        ensures { result ≡ aes128 self.now block.now }
    {
        self.encrypt_block(u8x16::from_array(*block)).to_array()
    }

    // The same in a register. (The ten rounds are two kilobytes of code, so they stand once.)
    #[inline(never)]
    fn encrypt_block(&self, block: u8x16) -> u8x16
        ensures { result ≡ aes128 self.now block }
    {
        if shuffles() {
            encrypt_lanes(self.key, &self.full_keys, self.last_key, block)
        } else {
            encrypt_slices(self.key, &self.full_keys, self.last_key, block)
        }
    }
}

// The round keys after this one, as the code for this processor keeps them.
#[inline(always)]
fn round_keys(first: u8x16) -> RoundKeys
    ensures { AreKept first result.full result.last }
{
    if shuffles() {
        turned_keys(first)
    } else {
        plain_keys(first)
    }
}
