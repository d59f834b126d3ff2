//! HMAC with MD5 (RFC 2104, RFC 1321), over the MD5 of the crate `md5`.

ghost use Rattle.std.specs.Prelude.{◌≡◌, ℕ, ◌≤◌, List, [], ◌++◌, length};
ghost use Rattle.hmac_mac.specs.Hmac.{filled, padded};
ghost use Rattle.radius_carry.specs.Tags.{hmac_md5};
ghost use Rattle.radius_carry.specs.Holds.{Holds};

use hmac_mac::{BLOCK_LEN, INNER_PAD, OUTER_PAD};
use md5::{Digest, Md5};

/// The secret filled with zeros to a whole block, each octet combined with the pad.
#[tactic(auto, using(crate::proofs::Blocks::padded_more, crate::proofs::Blocks::padded_whole))]
fn padded_block(secret: &[u8], pad: u8) -> [u8; BLOCK_LEN]
    requires { length secret.now ≤ 64 }
    ensures { result ≡ padded (filled secret.now) pad }
{
    let mut block = [pad; BLOCK_LEN];
    'octets: for i in 0..secret.len() {
        block[i] = secret[i] ^ pad;
    }
    block
}

/// An HMAC under one secret that is fed its text in pieces.
#[derive(Drop)]
pub struct Mac {
    inner: Md5,
    outer: Md5,
}

impl Mac {
    /// The HMAC of the empty text under a secret of at most 64 octets.
    #[tactic(auto, unfolding(crate::specs::Holds::Holds))]
    pub fn new(secret: &[u8]) -> Mac
        requires { length secret.now ≤ 64 }
        ensures { Holds result secret.now [] }
    {
        let inner = padded_block(secret, INNER_PAD);
        let outer = padded_block(secret, OUTER_PAD);
        Mac {
            inner: Md5::new_with_prefix(inner.as_slice()),
            outer: Md5::new_with_prefix(outer.as_slice()),
        }
    }

    /// Adds `piece` at the end of the text.
    #[tactic(auto, unfolding(crate::specs::Holds::Holds))]
    pub fn update(&mut self, piece: &[u8])
        ensures { (secret text : List ℕ) → Holds self.old secret text
            → Holds self.new secret (text ++ piece.now) }
    {
        self.inner.update(piece);
    }

    /// The 16 octets of HMAC-MD5 over all pieces joined.
    #[tactic(auto, unfolding(crate::specs::Holds::Holds, hmac_mac::specs::Hmac::hmac, hmac_mac::specs::Hmac::block_key_of))]
    pub fn finish(self) -> [u8; 16]
        ensures { (secret text : List ℕ) → Holds self secret text → result ≡ hmac_md5 secret text }
    {
        let Mac { inner, mut outer } = self;
        let digest = inner.finalize();
        outer.update(digest.as_slice());
        outer.finalize()
    }
}
