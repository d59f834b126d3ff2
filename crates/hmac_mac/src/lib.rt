//! HMAC with SHA-256 (RFC 2104), over the SHA-256 of the crate `sha2`. A text is fed in pieces and
//! never stored, and no call allocates memory.
#![tactic(auto)]

ghost use Rattle.std.specs.Prelude.{◌≡◌, ℕ, ◌≤◌, List, [], ◌++◌, length};
ghost use Rattle.hmac_mac.specs.Hmac.{block_key, filled, hmac_sha256, padded};
ghost use Rattle.hmac_mac.specs.Represents.{Represents};
ghost use Rattle.sha2.specs.Hashers.{Holds256};
ghost use Rattle.sha2.specs.Sha256.{sha256};

use sha2::{Digest, Sha256};
use std::simd::prelude::*;

/// The octets of a block of SHA-256, and of MD5 (RFC 2104, section 2).
pub const BLOCK_LEN: usize = 64;

/// The octet that the inner hash's key is combined with (RFC 2104, section 2, ipad).
pub const INNER_PAD: u8 = 0x36;

/// The octet that the outer hash's key is combined with (RFC 2104, section 2, opad).
pub const OUTER_PAD: u8 = 0x5c;

/// The octets with zeros at their end, up to a whole block.
fn fill(octets: &[u8]) -> [u8; BLOCK_LEN]
    requires { length octets.now ≤ 64 }
    ensures { result ≡ filled octets.now }
{
    let mut block = [0; BLOCK_LEN];
    block[..octets.len()].copy_from_slice(octets);
    block
}

/// The key as one block (RFC 2104, sections 2 and 3): a key that is longer than a block is hashed. It is never inlined, so that
/// no hash of a key lies above those that begin with the block.
#[tactic(auto, unfolding(crate::specs::Hmac::block_key_of))]
#[inline(never)]
fn key_block(key: &[u8]) -> [u8; BLOCK_LEN]
    ensures { result ≡ block_key key.now }
{
    if key.len() <= BLOCK_LEN {
        fill(key)
    } else {
        let digest = Sha256::digest(key);
        fill(&digest)
    }
}

/// Each octet of the block combined with the pad.
fn combine(block: &[u8; BLOCK_LEN], pad: u8) -> [u8; BLOCK_LEN]
    ensures { result ≡ padded block.now pad }
{
    (u8x64::from_array(*block) ^ u8x64::splat(pad)).to_array()
}

/// A hash that has been fed the key's block combined with the pad.
fn keyed_hash(block: &[u8; BLOCK_LEN], pad: u8) -> Sha256
    ensures { Holds256 result (padded block.now pad) }
{
    let key = combine(block, pad);
    Sha256::new_with_prefix(key.as_slice())
}

// An equal state of the hash.
fn copy_of(hash: &Sha256) -> Sha256
    ensures { result ≡ hash.now }
{
    match hash.clone() {
        Ok(copy) => copy,
        Err(_) => unreachable!(),
    }
}

// The digest of what the hash was fed, and then the text.
#[inline(never)]
fn digest_after(hash: &Sha256, text: &[u8]) -> [u8; 32]
    ensures { (fed : List ℕ) → Holds256 hash.now fed → result ≡ sha256 (fed ++ text.now) }
{
    match hash.clone() {
        Ok(mut copy) => {
            copy.update(text);
            copy.finalize()
        }
        Err(_) => unreachable!(),
    }
}

/// A key that is made once for many texts (RFC 2104, section 4): the states of the inner and of the
/// outer hash after the key. The key itself isn't kept.
///
/// A contract says by `IsKeyOf key octets` which octets a value represents.
#[derive(Drop)]
pub struct HmacKey {
    inner: Sha256,
    outer: Sha256,
}

impl HmacKey {
    ghost use Rattle.hmac_mac.specs.Represents.{IsKeyOf};

    /// The key of these octets, of any number: if they are over 64, they are replaced by their SHA-256.
    #[tactic(auto, unfolding(crate::specs::Represents::IsKeyOf))]
    pub fn new(key: &[u8]) -> HmacKey
        ensures { IsKeyOf result key.now }
    {
        let block = key_block(key);
        HmacKey {
            inner: keyed_hash(&block, INNER_PAD),
            outer: keyed_hash(&block, OUTER_PAD),
        }
    }

    /// HMAC-SHA256 of a text in one piece.
    #[tactic(auto, unfolding(crate::specs::Represents::IsKeyOf, crate::specs::Hmac::hmac, crate::specs::Hmac::hmac_sha256))]
    pub fn tag_whole(&self, text: &[u8]) -> [u8; 32]
        ensures { (key : List ℕ) → IsKeyOf self.now key → result ≡ hmac_sha256 key text.now }
    {
        digest_after(&self.outer, &digest_after(&self.inner, text))
    }

    /// An authenticator of the empty text under this key.
    #[tactic(auto, unfolding(crate::specs::Represents::Represents, crate::specs::Represents::IsKeyOf))]
    pub fn start(&self) -> Hmac
        ensures { (key : List ℕ) → IsKeyOf self.now key → Represents result key [] }
    {
        Hmac {
            inner: copy_of(&self.inner),
            outer: copy_of(&self.outer),
        }
    }
}

/// An authenticator under one key that is fed its text in pieces (RFC 2104). It keeps two states of
/// the hash, and neither the key nor the text.
#[derive(Drop)]
pub struct Hmac {
    inner: Sha256,
    outer: Sha256,
}

impl Hmac {
    /// An authenticator of the empty text under `key`, of any length: a key over 64 octets is
    /// replaced by its SHA-256.
    #[tactic(auto, unfolding(crate::specs::Represents::Represents, crate::specs::Represents::IsKeyOf))]
    pub fn new(key: &[u8]) -> Hmac
        ensures { Represents result key.now [] }
    {
        let HmacKey { inner, outer } = HmacKey::new(key);
        Hmac { inner, outer }
    }

    /// Adds `piece` at the end of the text.
    #[tactic(auto, unfolding(crate::specs::Represents::Represents))]
    pub fn update(&mut self, piece: &[u8])
        ensures { (key text : List ℕ) → Represents self.old key text
            → Represents self.new key (text ++ piece.now) }
    {
        self.inner.update(piece);
    }

    /// The 32 octets of HMAC-SHA256 over all pieces joined.
    #[tactic(auto, unfolding(crate::specs::Represents::Represents, crate::specs::Hmac::hmac, crate::specs::Hmac::hmac_sha256))]
    pub fn finish(self) -> [u8; 32]
        ensures { (key text : List ℕ) → Represents self key text → result ≡ hmac_sha256 key text }
    {
        let Hmac { inner, mut outer } = self;
        let digest = inner.finalize();
        outer.update(digest.as_slice());
        outer.finalize()
    }
}

/// HMAC-SHA256 of a text in one piece (RFC 2104).
pub fn hmac_whole(key: &[u8], text: &[u8]) -> [u8; 32]
    ensures { result ≡ hmac_sha256 key.now text.now }
{
    HmacKey::new(key).tag_whole(text)
}
