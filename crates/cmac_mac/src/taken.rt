//! The chain over a text so far, and the octets that are held back.

ghost use Rattle.std.specs.Prelude.{◌≡◌, List, ℕ, ◌+◌, ◌≤◌, ◌++◌, [], length};
ghost use Rattle.std.specs.List.{concat};
ghost use Rattle.aes_block.specs.Cipher.{aes128};
ghost use Rattle.cmac_mac.specs.Cmac as spec;
ghost use Rattle.cmac_mac.specs.Chained.{IsChained, IsInChain};

use crate::blocks::xor_blocks;
use crate::key::CmacKey;
use aes_block::{Aes128, BLOCK_LEN};

// The text so far: all its blocks before the last one are in the chain, and the last one is held back.
#[derive(Drop)]
pub(crate) struct ChainState {
    pub(crate) chain: [u8; 16],
    // `count` octets of the text, then zeros.
    pub(crate) held: [u8; 16],
    pub(crate) count: usize,
    ghost within: { count ≤ 16 },
}

impl ChainState {
    ghost use Rattle.cmac_mac.specs.Represents.{HasChained};

    // Nothing of a text.
    #[tactic(auto, using(crate::proofs::Growing::accepted_none), unfolding(crate::specs::Represents::HasChained))]
    pub(crate) fn new() -> ChainState
        ensures { (key : List ℕ) → HasChained result key [] }
    {
        ChainState {
            chain: [0; 16],
            held: [0; 16],
            count: 0,
        }
    }

    // Appends a piece to the text.
    pub(crate) fn update(&mut self, key: &CmacKey, piece: &[u8])
        ensures { (text : List ℕ) → HasChained self.old key.now text
            → HasChained self.new key.now (text ++ piece.now) }
    {
        let room = BLOCK_LEN - self.count;
        if piece.len() <= room {
            self.append(piece);
        } else {
            let (front, rest) = piece.split_at(room);
            self.append(front);
            self.chain_in(key.cipher(), rest);
        }
    }

    // Appends octets for which the block has room.
    fn append(&mut self, octets: &[u8])
        requires { self.old.count + length octets.now ≤ 16 }
        ensures chained { (key text : List ℕ) (n : ℕ)
            → IsInChain self.old.chain self.old.held self.old.count key text n
            → IsInChain self.new.chain self.new.held self.new.count key (text ++ octets.now) n }
        ensures count { self.new.count ≡ self.old.count + length octets.now }
    {
        let end = self.count + octets.len();
        self.held[self.count..end].copy_from_slice(octets);
        self.count = end;
    }

    // Appends octets when the block is full, so that it isn't the last one.
    fn chain_in(&mut self, cipher: &Aes128, octets: &[u8])
        requires full { self.old.count ≡ 16 }
        requires more { 1 ≤ length octets.now }
        ensures { (text : List ℕ) (n : ℕ)
            → IsInChain self.old.chain self.old.held self.old.count cipher.now text n
            → HasChained self.new cipher.now (text ++ octets.now) }
    {
        let inner = (octets.len() - 1) / BLOCK_LEN;
        let (front, end) = octets.split_at(BLOCK_LEN * inner);
        let (blocks, _) = front.as_chunks::<16>();
        let chain = chain_block(cipher, &self.chain, &self.held);
        self.chain = chain_blocks(cipher, chain, blocks);
        self.held = [0; 16];
        self.count = 0;
        self.append(end);
    }
}

// The chain, a block on (RFC 4493, section 2.4, step 6).
#[inline(always)]
fn chain_block(cipher: &Aes128, chain: &[u8; 16], block: &[u8; 16]) -> [u8; 16]
    ensures { result ≡ aes128 cipher.now (spec.xor_blocks chain.now block.now) }
{
    cipher.encrypt(&xor_blocks(chain, block))
}

// The chain, these blocks on.
pub(crate) fn chain_blocks(cipher: &Aes128, before: [u8; 16], blocks: &[[u8; 16]]) -> [u8; 16]
    ensures { (text : List ℕ) (n : ℕ) → IsChained before cipher.now text n
        → IsChained result cipher.now (text ++ concat blocks.now) (n + length blocks.now) }
{
    let mut chain = before;
    for block in blocks {
        let next = chain_block(cipher, &chain, block);
        chain = next;
    }
    chain
}
