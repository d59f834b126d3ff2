//! The key schedule and the MAC of EAP-GPSK.

ghost use Rattle.std.specs.Prelude.{◌≡◌, ℕ, ◌+◌, List, ◌++◌, ◌≤◌, length, take, drop};
ghost use Rattle.octet_lists.specs.Suite.{ks_of, suite_octets};
ghost use Rattle.octet_lists.specs.Sizes.{max_name};
ghost use Rattle.login_keys.specs.Gpsk.{gpsk_keys_of, gpsk_tag_of, input_string, keys_from};
ghost use Rattle.login_keys.specs.Gpsk.{pk_size};
ghost use Rattle.login_keys.specs.Gpsk as spec;
ghost use Rattle.login_keys.specs.GpskMacKey.{IsMacKey};

mod derivation;
mod mac_key;

use crate::gpsk::derivation::{derive, two_octets};
use cmac_mac::cmac_whole;
pub use derivation::gkdf;
use hmac_mac::hmac_whole;
pub use mac_key::MacKey;
use octet_lists::{MAX_NAME, Octets, Suite, array_of};

// The most octets from which MK is made: a block's number, PL, PSK, CSuite_Sel, and inputString of two nonces and two names.
const TEXT_SIZE: usize = 2 + 2 + 64 + 6 + 2 * (32 + MAX_NAME);

/// The keys of an EAP-GPSK login (RFC 5433, section 4). KS is 16 for suite 1 and 32 for suite 2.
#[derive(Drop)]
pub struct GpskKeys {
    /// The master key, of KS octets, from which the others are derived.
    pub mk: Octets<32>,
    /// The Master Session Key.
    pub msk: [u8; 64],
    /// The Extended Master Session Key.
    pub emsk: [u8; 64],
    /// The session key, of KS octets, under which the messages are authenticated.
    pub sk: Octets<32>,
    /// The key of protected data: 16 octets for suite 1, none for suite 2.
    pub pk: Octets<16>,
}

/// The keys that a peer and a server with the shared key `psk` derive from their nonces and names
/// (RFC 5433, section 4). The shared key has 32 to 64 octets, a name at most 253.
#[inline(never)]
pub fn gpsk_keys(
    suite: Suite,
    psk: &[u8],
    rand_p: &[u8; 32],
    id_p: &[u8],
    rand_s: &[u8; 32],
    id_s: &[u8],
) -> GpskKeys
    requires long_enough { 32 ≤ length psk.now }
    requires short_enough { length psk.now ≤ 64 }
    requires peer_name { length id_p.now ≤ max_name }
    requires server_name { length id_s.now ≤ max_name }
    ensures keys { result ≡ gpsk_keys_of suite psk.now rand_p.now id_p.now rand_s.now id_s.now }

    // The sizes of the keys that depend on the suite.
    ensures mk_size { length result.mk ≡ ks_of suite }
    ensures sk_size { length result.sk ≡ ks_of suite }
    ensures pk_size { length result.pk ≡ pk_size suite }
{
    let mut room = [0; TEXT_SIZE];
    let input = put_front(&mut room, suite, psk);
    let end = put_input(&mut room, input, rand_p, id_p, rand_s, id_s);
    let mk = master_key(suite, psk, &room[..end]);
    let mac = MacKey::new(suite, mk.as_slice());
    derive_keys(suite, mk, &mac, &mut room[input - 2..end])
}

// The keys that are derived by the master key from inputString, behind the place of a block's number. It is never inlined, so
// that the master key isn't expanded above them on the stack.
#[inline(never)]
fn derive_keys(suite: Suite, mk: Octets<32>, mac: &MacKey, front: &mut [u8]) -> GpskKeys
    requires mac { IsMacKey mac.now suite mk }
    requires number { 2 ≤ length front.old }
    ensures keys { (input : List ℕ) → drop 2 front.old ≡ input
        → result ≡ keys_from suite mk (spec.gkdf suite 160 mk input) }
    ensures mk { result.mk ≡ mk }
    ensures sk_size { length result.sk ≡ ks_of suite }
    ensures pk_size { length result.pk ≡ pk_size suite }
{
    let mut derived = Octets::new();
    derive(suite, 160, mac, mk.as_slice(), front, &[], &mut derived);
    cut_keys(suite, mk, derived.as_slice())
}

// Writes octets behind the first `used` ones, and answers where they end.
fn put(room: &mut [u8; TEXT_SIZE], used: usize, octets: &[u8]) -> usize
    requires { used + length octets.now ≤ 644 }
    ensures written { take result room.new ≡ take used room.old ++ octets.now }
    ensures end { result ≡ used + length octets.now }
{
    let end = used + octets.len();
    room[used..end].copy_from_slice(octets);
    end
}

// Writes what MK is made from before inputString: a block's number 1, PL, PSK and CSuite_Sel. Answers where they end.
fn put_front(room: &mut [u8; TEXT_SIZE], suite: Suite, psk: &[u8]) -> usize
    requires { length psk.now ≤ 64 }
    ensures written { take result room.new
        ≡ spec.two_octets 1
        ++ (spec.two_octets (length psk.now) ++ (psk.now ++ suite_octets suite)) }
    ensures end { result ≡ 10 + length psk.now }
{
    let number_end = put(room, 0, &two_octets(1));
    let size_end = put(room, number_end, &two_octets(psk.len() as u16));
    let psk_end = put(room, size_end, psk);
    put(room, psk_end, &suite.octets())
}

// Writes inputString behind the first `used` octets, and answers where it ends.
fn put_input(
    room: &mut [u8; TEXT_SIZE],
    used: usize,
    rand_p: &[u8; 32],
    id_p: &[u8],
    rand_s: &[u8; 32],
    id_s: &[u8],
) -> usize
    requires front { used ≤ 74 }
    requires peer_name { length id_p.now ≤ max_name }
    requires server_name { length id_s.now ≤ max_name }
    ensures written { take result room.new
        ≡ take used room.old ++ input_string rand_p.now id_p.now rand_s.now id_s.now }
    ensures end { result ≡ used + (64 + length id_p.now + length id_s.now) }
{
    let rand_end = put(room, used, rand_p);
    let name_end = put(room, rand_end, id_p);
    let both_end = put(room, name_end, rand_s);
    put(room, both_end, id_s)
}

// The master key MK: the first block of its derivation, of this text, is all of it.
#[inline(never)]
fn master_key(suite: Suite, psk: &[u8], text: &[u8]) -> Octets<32>
    requires long_enough { 32 ≤ length psk.now }
    ensures key { (input : List ℕ)
        → text.now ≡ (spec.two_octets 1
        ++ (spec.two_octets (length psk.now) ++ (psk.now ++ suite_octets suite))) ++ input
        → result ≡ spec.master_key suite psk.now input }
    ensures size { length result ≡ ks_of suite }
{
    gpsk_tag(suite, &psk[..suite.ks()], text)
}

// The keys that are cut from the octets derived from the master key.
#[inline(never)]
fn cut_keys(suite: Suite, mk: Octets<32>, derived: &[u8]) -> GpskKeys
    requires { length derived.now ≡ 160 }
    ensures keys { result ≡ keys_from suite mk derived.now }
    ensures sk_size { length result.sk ≡ ks_of suite }
    ensures pk_size { length result.pk ≡ pk_size suite }
{
    let ks = suite.ks();
    GpskKeys {
        mk,
        msk: array_of(&derived[0..64]),
        emsk: array_of(&derived[64..128]),
        sk: Octets::of(&derived[128..128 + ks]),
        pk: Octets::of(&derived[128 + ks..]),
    }
}

/// The MAC of a suite over the octets that a message covers (RFC 5433, sections 8.1.2 and 8.2.2). It has
/// KS octets, as the session key `sk` has.
#[tactic(auto, unfolding(crate::specs::Gpsk::gpsk_tag_of))]
pub fn gpsk_tag(suite: Suite, sk: &[u8], octets: &[u8]) -> Octets<32>
    requires { length sk.now ≡ ks_of suite }
    ensures tag { result ≡ gpsk_tag_of suite sk.now octets.now }
    ensures size { length result ≡ ks_of suite }
{
    match suite {
        Suite::Cmac => Octets::of(&cmac_whole(&array_of(sk), octets)),
        Suite::Hmac => Octets::of(&hmac_whole(sk, octets)),
    }
}
