//! A key of AES-CMAC, made once for many texts.

ghost use Rattle.std.specs.Prelude.{◌≡◌, List, ℕ, ◌++◌, map};
ghost use Rattle.std.specs.List.{concat};
ghost use Rattle.cmac_mac.specs.Cmac.{aes_cmac};
ghost use Rattle.cmac_mac.specs.Cmac as spec;
ghost use Rattle.cmac_mac.specs.Chained.{IsPending};

use crate::blocks::{double, filled, xor_blocks};
use crate::taken::{ChainState, chain_blocks};
use aes_block::{Aes128, BLOCK_LEN};
use std::marker::Model;

/// A key of 16 octets, expanded, with its subkeys K1 and K2 (RFC 4493, section 2.3).
///
/// A contract sees it as the key's octets.
#[derive(Drop)]
pub struct CmacKey {
    cipher: Aes128,
    // K1, for a last block that is whole.
    first: [u8; 16],
    // K2, for any other.
    second: [u8; 16],
}

impl Model for CmacKey {
    ghost use Rattle.std.specs.Prelude.{◌≡◌, List, ℕ};
    ghost use Rattle.cmac_mac.specs.Cmac.{first_subkey, second_subkey};

    ghost Value = { List ℕ };

    ghost view = { λ k. k.cipher };

    ghost invariant = { λ k. (k.first ≡ first_subkey k.cipher) × (k.second ≡ second_subkey k.cipher) };
}

impl CmacKey {
    ghost use Rattle.cmac_mac.specs.Represents.{HasChained};

    /// Expands the key and makes its subkeys.
    pub fn new(key: &[u8; 16]) -> CmacKey
        ensures { result ≡ key.now }
    {
        let cipher = Aes128::new(key);
        let first = double(cipher.encrypt(&[0; 16]));
        CmacKey {
            cipher,
            first,
            second: double(first),
        }
    }

    /// The cipher under this key.
    pub fn cipher(&self) -> &Aes128
        ensures { result.now ≡ self.now }
    {
        &self.cipher
    }

    /// An equal key.
    pub fn copy(&self) -> CmacKey
        ensures { result ≡ self.now }
    {
        CmacKey {
            cipher: self.cipher.copy(),
            first: self.first,
            second: self.second,
        }
    }

    /// The tag of the text that begins with `front` and goes on with the pieces (RFC 4493, section 2.4).
    pub fn tag(&self, front: &[u8], pieces: &[&[u8]]) -> [u8; 16]
        ensures { result ≡ aes_cmac self.now (front.now ++ concat (map (λ p. p.now) pieces.now)) }
    {
        let mut taken = ChainState::new();
        taken.update(self, front);
        for piece in pieces {
            taken.update(self, piece);
        }
        self.finish(&taken)
    }

    /// The tag of a text in one piece (RFC 4493, section 2.4).
    pub fn tag_whole(&self, text: &[u8]) -> [u8; 16]
        ensures { result ≡ aes_cmac self.now text.now }
    {
        let inner = text.len().saturating_sub(1) / BLOCK_LEN;
        let (front, end) = text.split_at(BLOCK_LEN * inner);
        let (blocks, _) = front.as_chunks::<16>();
        let chain = chain_blocks(&self.cipher, [0; 16], blocks);
        let last = self.last_block(&filled(end), end.len());
        self.cipher.encrypt(&xor_blocks(&chain, &last))
    }

    // The tag of what is taken in.
    pub(crate) fn finish(&self, taken: &ChainState) -> [u8; 16]
        ensures { (text : List ℕ) → HasChained taken.now self.now text
            → result ≡ aes_cmac self.now text }
    {
        let last = self.last_block(&taken.held, taken.count);
        self.cipher.encrypt(&xor_blocks(&taken.chain, &last))
    }

    // The last block (section 2.4), made of the first `count` octets of what is held; zeros follow them.
    fn last_block(&self, held: &[u8; 16], count: usize) -> [u8; 16]
        ensures { (end : List ℕ) → IsPending held.now count end
            → result ≡ spec.last_block self.now end }
    {
        if count < 16 {
            let mut padded = *held;
            padded[count] = 0x80;
            xor_blocks(&padded, &self.second)
        } else {
            xor_blocks(held, &self.first)
        }
    }
}
