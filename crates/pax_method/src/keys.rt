//! The MAC and the key schedule of EAP-PAX (RFC 4746 sections 2.4, 2.6 and 3.1.3).

ghost use Rattle.std.specs.Prelude.{◌≡◌, ◌≤◌, length, codes};
ghost use Rattle.pax_method.specs.Keys as keys;

use crate::login::Login;
use hmac_mac::hmac_whole;
use octet_lists::{Octets, Secret, array_of};

/// HMAC_SHA256_128: the first 16 octets of HMAC-SHA-256.
#[tactic(auto, using(hmac_mac::proofs::Laws::length_hmac_sha256), unfolding(crate::specs::Keys::mac))]
pub fn mac(key: &[u8], octets: &[u8]) -> [u8; 16]
    ensures { result ≡ keys.mac key.now octets.now }
{
    array_of(&hmac_whole(key, octets)[..16])
}

/// A block of PAX-KDF. The label has at most 27 octets.
fn kdf_block(key: &[u8], label: &[u8], entropy: &[u8; 64], number: u8) -> [u8; 16]
    requires { length label.now ≤ 27 }
    ensures { result ≡ keys.kdf_block key.now label.now entropy.now number }
{
    let mut text: Octets<92> = Octets::of(label);
    text.put(entropy);
    text.put(&[number]);
    mac(key, text.as_slice())
}

/// PAX-KDF-16.
#[tactic(auto, using(crate::proofs::Blocks::first_block))]
fn kdf_16(key: &[u8], label: &[u8], entropy: &[u8; 64]) -> [u8; 16]
    requires { length label.now ≤ 27 }
    ensures { result ≡ keys.kdf 16 key.now label.now entropy.now }
{
    kdf_block(key, label, entropy, 1)
}

/// PAX-KDF-64.
#[tactic(auto, using(crate::proofs::Blocks::four_blocks))]
fn kdf_64(key: &[u8], label: &[u8], entropy: &[u8; 64]) -> [u8; 64]
    requires { length label.now ≤ 27 }
    ensures { result ≡ keys.kdf 64 key.now label.now entropy.now }
{
    let mut out: Octets<64> = Octets::of(&kdf_block(key, label, entropy, 1));
    out.put(&kdf_block(key, label, entropy, 2));
    out.put(&kdf_block(key, label, entropy, 3));
    out.put(&kdf_block(key, label, entropy, 4));
    array_of(out.as_slice())
}

/// E: A and B.
fn entropy(login: &Login) -> [u8; 64]
    ensures { result ≡ keys.entropy login.now }
{
    let mut octets: Octets<64> = Octets::of(&login.a);
    octets.put(&login.b);
    array_of(octets.as_slice())
}

/// MK.
#[tactic(auto, unfolding(crate::specs::Keys::mk_of))]
fn mk(ak: &Secret, login: &Login) -> [u8; 16]
    ensures { result ≡ keys.mk_of ak.now login.now }
{
    kdf_16(ak.as_slice(), b"Master Key", &entropy(login))
}

/// CK, the key of the MACs in PAX_STD-2 and PAX_STD-3.
#[tactic(auto, unfolding(crate::specs::Keys::ck_of))]
pub fn ck(ak: &Secret, login: &Login) -> [u8; 16]
    ensures { result ≡ keys.ck_of ak.now login.now }
{
    kdf_16(&mk(ak, login), b"Confirmation Key", &entropy(login))
}

/// ICK, the key of the ICVs behind PAX_STD-1.
#[tactic(auto, unfolding(crate::specs::Keys::ick_of))]
pub fn ick(ak: &Secret, login: &Login) -> [u8; 16]
    ensures { result ≡ keys.ick_of ak.now login.now }
{
    kdf_16(&mk(ak, login), b"Integrity Check Key", &entropy(login))
}

/// MSK.
#[tactic(auto, unfolding(crate::specs::Keys::msk_of))]
pub fn msk(ak: &Secret, login: &Login) -> [u8; 64]
    ensures { result ≡ keys.msk_of ak.now login.now }
{
    kdf_64(&mk(ak, login), b"Master Session Key", &entropy(login))
}

/// EMSK.
#[tactic(auto, unfolding(crate::specs::Keys::emsk_of))]
pub fn emsk(ak: &Secret, login: &Login) -> [u8; 64]
    ensures { result ≡ keys.emsk_of ak.now login.now }
{
    kdf_64(
        &mk(ak, login),
        b"Extended Master Session Key",
        &entropy(login),
    )
}
