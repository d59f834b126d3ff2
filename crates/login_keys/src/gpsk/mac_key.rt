//! A key of an EAP-GPSK ciphersuite's MAC, made once for many texts.

ghost use Rattle.std.specs.Prelude.{◌≡◌, ℕ, List, ◌++◌, length, map};
ghost use Rattle.std.specs.List.{concat};
ghost use Rattle.cmac_mac.specs.Cmac.{aes_cmac};
ghost use Rattle.hmac_mac.specs.Hmac.{hmac_sha256};
ghost use Rattle.hmac_mac.specs.Represents.{IsKeyOf};
ghost use Rattle.octet_lists.specs.Suite.{ks_of};
ghost use Rattle.octet_lists.specs.declared.suite.Suite.{Suite};
ghost use Rattle.login_keys.specs.Gpsk.{gpsk_tag_of};
ghost use Rattle.login_keys.specs.GpskMacKey.{IsMacKey};

use cmac_mac::CmacKey;
use hmac_mac::HmacKey;
use octet_lists::{Octets, Suite, array_of};

/// A key of the MAC of suite 1 or of suite 2 (RFC 5433, sections 8.1.2 and 8.2.2), made once for many
/// texts.
///
/// A contract says by `IsMacKey made suite key` which suite and which octets a value represents.
#[derive(Drop)]
pub enum MacKey {
    Cmac(CmacKey),
    Hmac(HmacKey),
}

impl MacKey {
    /// The key of these octets, KS of the suite.
    #[tactic(auto, unfolding(crate::specs::GpskMacKey::IsMacKey))]
    pub fn new(suite: Suite, key: &[u8]) -> MacKey
        requires { length key.now ≡ ks_of suite }
        ensures { IsMacKey result suite key.now }
    {
        match suite {
            Suite::Cmac => MacKey::Cmac(CmacKey::new(&array_of(key))),
            Suite::Hmac => MacKey::Hmac(HmacKey::new(key)),
        }
    }

    /// The MAC of the text that begins with `front` and goes on with the pieces.
    #[tactic(auto, unfolding(crate::specs::GpskMacKey::IsMacKey, crate::specs::Gpsk::gpsk_tag_of))]
    pub fn tag(&self, front: &[u8], pieces: &[&[u8]]) -> Octets<32>
        ensures { (suite : Suite) (key : List ℕ) → IsMacKey self.now suite key
            → result ≡ gpsk_tag_of suite key (front.now ++ concat (map (λ p. p.now) pieces.now)) }
    {
        if pieces.is_empty() {
            return self.tag_whole(front);
        }
        match self {
            MacKey::Cmac(key) => Octets::of(&cmac_tag(key, front, pieces)),
            MacKey::Hmac(key) => Octets::of(&hmac_tag(key, front, pieces)),
        }
    }

    /// The MAC of a text in one piece. It has KS octets.
    #[tactic(auto, unfolding(crate::specs::GpskMacKey::IsMacKey, crate::specs::Gpsk::gpsk_tag_of))]
    pub fn tag_whole(&self, text: &[u8]) -> Octets<32>
        ensures tag { (suite : Suite) (key : List ℕ) → IsMacKey self.now suite key
            → result ≡ gpsk_tag_of suite key text.now }
        ensures size { (suite : Suite) (key : List ℕ) → IsMacKey self.now suite key
            → length result ≡ ks_of suite }
    {
        match self {
            MacKey::Cmac(key) => Octets::of(&key.tag_whole(text)),
            MacKey::Hmac(key) => Octets::of(&key.tag_whole(text)),
        }
    }
}

// AES-CMAC of the text that begins with `front` and goes on with the pieces. It is never inlined, so that a text of one piece
// has no room for it on the stack.
#[inline(never)]
fn cmac_tag(key: &CmacKey, front: &[u8], pieces: &[&[u8]]) -> [u8; 16]
    ensures { result ≡ aes_cmac key.now (front.now ++ concat (map (λ p. p.now) pieces.now)) }
{
    key.tag(front, pieces)
}

// HMAC-SHA256 of the same, never inlined for the same reason.
#[inline(never)]
fn hmac_tag(key: &HmacKey, front: &[u8], pieces: &[&[u8]]) -> [u8; 32]
    ensures { (octets : List ℕ) → IsKeyOf key.now octets
        → result ≡ hmac_sha256 octets (front.now ++ concat (map (λ p. p.now) pieces.now)) }
{
    let mut mac = key.start();
    mac.update(front);
    for piece in pieces {
        mac.update(piece);
    }
    mac.finish()
}
