//! EAX with AES-128 (Bellare, Rogaway and Wagner; RFC 4764, section 3.3): a text is sealed and
//! unsealed in place, a block at a time, and no call allocates memory.
#![tactic(auto)]

ghost use Rattle.std.specs.Prelude.{◌≡◌, ◌≤◌, ◌↔◌, IsTrue, length};
ghost use Rattle.std.specs.Bool.{OnTrue, OnFalse};
ghost use Rattle.eax_mode.specs.Eax.{IsOnlyTextOf, combined, counter_mode, eax_accepts};
ghost use Rattle.eax_mode.specs.Eax.{eax_plaintext, eax_sealed, eax_tag};
ghost use Rattle.eax_mode.specs.Eax as spec;

use aes_block::{Aes128, BLOCK_LEN};
use cmac_mac::CmacKey;
use octet_lists::equal_in_full;

/// Combines each octet with the one at its place in a block.
fn combine(octets: &mut [u8], block: &[u8; BLOCK_LEN])
    requires { length octets.old ≤ 16 }
    ensures { octets.new ≡ combined octets.old block.now }
{
    'octets: for i in 0..octets.len() {
        octets[i] ^= block[i];
    }
}

/// Block `index` of the key stream whose counters begin at `start` and go on modulo 2^128.
#[tactic(auto, unfolding(crate::specs::Eax::stream_block))]
fn stream_block(cipher: &Aes128, start: u128, index: usize) -> [u8; BLOCK_LEN]
    ensures { result ≡ spec.stream_block cipher.now start index }
{
    let counter = start.wrapping_add(index as u128);
    cipher.encrypt(&counter.to_be_bytes())
}

/// Combines a text with the key stream whose counters begin at `start`.
fn apply_key_stream(cipher: &Aes128, start: u128, text: &mut [u8])
    ensures { text.new ≡ counter_mode cipher.now start text.old }
{
    'counters: for index in 0..text.len().div_ceil(BLOCK_LEN) {
        let block = stream_block(cipher, start, index);
        let from = BLOCK_LEN * index;
        let end = text.len().min(from + BLOCK_LEN);
        combine(&mut text[from..end], &block);
    }
}

/// The CMAC of a number, as one block, and a text.
#[tactic(auto, unfolding(crate::specs::Eax::omac))]
fn omac(key: &CmacKey, number: u128, text: &[u8]) -> [u8; BLOCK_LEN]
    ensures { result ≡ spec.omac key.now number text.now }
{
    key.tag(&number.to_be_bytes(), &[text])
}

/// The tag over a nonce, whose OMAC is given, a header and a ciphertext.
fn tag_over(
    key: &CmacKey,
    nonce_mac: &[u8; BLOCK_LEN],
    header: &[u8],
    ciphertext: &[u8],
) -> [u8; BLOCK_LEN]
    ensures { result ≡ combined (combined nonce_mac.now
        (spec.omac key.now 1 header.now)) (spec.omac key.now 2 ciphertext.now) }
{
    let mut tag = *nonce_mac;
    combine(&mut tag, &omac(key, 1, header));
    combine(&mut tag, &omac(key, 2, ciphertext));
    tag
}

/// Seals `text` in place under a nonce and with a header, all of any length: it becomes the
/// ciphertext, and the tag of sixteen octets is returned. Under one key no nonce may be used twice,
/// or the two ciphertexts reveal how their texts differ.
#[tactic(auto, using(crate::proofs::Stream::counter_mode_twice), unfolding(crate::specs::Eax::eax_ciphertext, crate::specs::Eax::eax_plaintext, crate::specs::Eax::eax_tag))]
pub fn eax_seal_with(key: &CmacKey, nonce: &[u8], header: &[u8], text: &mut [u8]) -> [u8; 16]
    ensures ciphertext { text.new ≡ (eax_sealed key.now nonce.now header.now text.old).ciphertext }
    ensures tag { result ≡ (eax_sealed key.now nonce.now header.now text.old).tag }
    ensures decrypts { eax_plaintext key.now nonce.now text.new ≡ text.old }
{
    let nonce_mac = omac(key, 0, nonce);
    apply_key_stream(key.cipher(), u128::from_be_bytes(nonce_mac), text);
    tag_over(key, &nonce_mac, header, text)
}

/// The same under a key that is used once.
pub fn eax_seal(key: &[u8; 16], nonce: &[u8], header: &[u8], text: &mut [u8]) -> [u8; 16]
    ensures ciphertext { text.new ≡ (eax_sealed key.now nonce.now header.now text.old).ciphertext }
    ensures tag { result ≡ (eax_sealed key.now nonce.now header.now text.old).tag }
    ensures decrypts { eax_plaintext key.now nonce.now text.new ≡ text.old }
{
    eax_seal_with(&CmacKey::new(key), nonce, header, text)
}

/// Unseals the ciphertext `text` in place. If `tag` is the tag over nonce, header and ciphertext,
/// the answer is true and `text` becomes the plaintext; else it is false and `text` stays as it was.
#[tactic(auto, unfolding(crate::specs::Eax::eax_accepts, crate::specs::Eax::eax_plaintext, crate::specs::Eax::eax_tag))]
pub fn eax_unseal_with(
    key: &CmacKey,
    nonce: &[u8],
    header: &[u8],
    text: &mut [u8],
    tag: &[u8; 16],
) -> bool
    // The answer, as a fact and as a test that computes.
    ensures accepted { IsTrue result ↔ (tag.now ≡ eax_tag key.now nonce.now header.now text.old) }
    ensures answer { result ≡ eax_accepts key.now nonce.now header.now text.old tag.now }

    // The text that is left.
    ensures opened { OnTrue result (text.new ≡ eax_plaintext key.now nonce.now text.old) }
    ensures only { OnTrue result
        (IsOnlyTextOf key.now nonce.now header.now text.old tag.now text.new) }
    ensures unchanged { OnFalse result (text.new ≡ text.old) }
{
    let nonce_mac = omac(key, 0, nonce);
    let expected = tag_over(key, &nonce_mac, header, text);
    if !equal_in_full(&expected, tag) {
        return false;
    }
    let first_counter = u128::from_be_bytes(nonce_mac);
    apply_key_stream(key.cipher(), first_counter, text);
    true
}

/// The same under a key that is used once.
pub fn eax_unseal(
    key: &[u8; 16],
    nonce: &[u8],
    header: &[u8],
    text: &mut [u8],
    tag: &[u8; 16],
) -> bool
    // The answer, as a fact and as a test that computes.
    ensures accepted { IsTrue result ↔ (tag.now ≡ eax_tag key.now nonce.now header.now text.old) }
    ensures answer { result ≡ eax_accepts key.now nonce.now header.now text.old tag.now }

    // The text that is left.
    ensures opened { OnTrue result (text.new ≡ eax_plaintext key.now nonce.now text.old) }
    ensures only { OnTrue result
        (IsOnlyTextOf key.now nonce.now header.now text.old tag.now text.new) }
    ensures unchanged { OnFalse result (text.new ≡ text.old) }
{
    eax_unseal_with(&CmacKey::new(key), nonce, header, text, tag)
}
