//! The key schedule of EAP-PSK.

ghost use Rattle.std.specs.Prelude.{◌≡◌, ◌≤◌};
ghost use Rattle.std.specs.List.{flat_map, range_with_len};
ghost use Rattle.aes_block.specs.Cipher.{aes128};
ghost use Rattle.login_keys.specs.Psk.{combined_with, psk_keys_of, psk_long_of};

use aes_block::Aes128;
use octet_lists::{Octets, array_of};

/// The long-lived keys of a shared key (RFC 4764, section 3.1).
#[derive(Drop)]
pub struct PskLong {
    /// The Authentication Key.
    pub ak: [u8; 16],
    /// The Key-Derivation Key.
    pub kdk: [u8; 16],
}

/// The keys of an EAP-PSK login (RFC 4764, section 3.2).
#[derive(Drop)]
pub struct PskKeys {
    /// The Transient EAP Key, which protects the channel.
    pub tek: [u8; 16],
    /// The Master Session Key.
    pub msk: [u8; 64],
    /// The Extended Master Session Key.
    pub emsk: [u8; 64],
}

// The output block for a counter; the input block is encrypted already.
fn counter_block(cipher: &Aes128, mixed: &[u8; 16], counter: u8) -> [u8; 16]
    ensures { result ≡ aes128 cipher.now (combined_with mixed.now counter) }
{
    let combined = u128::from_be_bytes(*mixed) ^ u128::from(counter);
    cipher.encrypt(&combined.to_be_bytes())
}

// The output blocks for four counters in a row, joined.
fn four_blocks(cipher: &Aes128, mixed: &[u8; 16], first: u8) -> [u8; 64]
    requires { first ≤ 6 }
    ensures { result
        ≡ flat_map (λ c. aes128 cipher.now (combined_with mixed.now c)) (range_with_len first 4) }
{
    let mut blocks: Octets<64> = Octets::new();
    'counters: for i in 0..4 {
        blocks.put(&counter_block(cipher, mixed, first + i));
    }
    array_of(blocks.as_slice())
}

/// The long-lived keys AK and KDK of a shared key (RFC 4764, section 3.1).
#[tactic(auto, unfolding(crate::specs::Psk::psk_long_of, crate::specs::Psk::counter_block))]
pub fn psk_long(psk: &[u8; 16]) -> PskLong
    ensures { result ≡ psk_long_of psk.now }
{
    let cipher = Aes128::new(psk);
    let mixed = cipher.encrypt(&[0; 16]);
    PskLong {
        ak: counter_block(&cipher, &mixed, 1),
        kdk: counter_block(&cipher, &mixed, 2),
    }
}

/// The keys of a login from KDK and the peer's random number RAND_P (RFC 4764, section 3.2).
#[tactic(auto, unfolding(crate::specs::Psk::psk_keys_of, crate::specs::Psk::counter_block))]
pub fn psk_session(kdk: &[u8; 16], rand_p: &[u8; 16]) -> PskKeys
    ensures { result ≡ psk_keys_of kdk.now rand_p.now }
{
    let cipher = Aes128::new(kdk);
    let mixed = cipher.encrypt(rand_p);
    PskKeys {
        tek: counter_block(&cipher, &mixed, 1),
        msk: four_blocks(&cipher, &mixed, 2),
        emsk: four_blocks(&cipher, &mixed, 6),
    }
}
