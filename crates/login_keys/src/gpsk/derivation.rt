//! The key derivation function of EAP-GPSK.

ghost use Rattle.std.specs.Prelude.{◌≡◌, ℕ, ◌≤◌, List, [], ◌++◌, length, map, drop};
ghost use Rattle.std.specs.List.{concat};
ghost use Rattle.octet_lists.specs.Suite.{ks_of};
ghost use Rattle.login_keys.specs.Gpsk as spec;
ghost use Rattle.login_keys.specs.GpskMacKey.{IsMacKey};

use crate::gpsk::mac_key::MacKey;
use byteorder::{BigEndian, ByteOrder};
use octet_lists::{Octets, Suite};

/// A number in two octets.
pub fn two_octets(number: u16) -> [u8; 2]
    ensures { result ≡ spec.two_octets number }
{
    let mut octets = [0; 2];
    BigEndian::write_u16(&mut octets, number);
    octets
}

// Appends GKDF, as below, by its key `mac`, which contracts see by the octets that it was made of. Z is what stands behind the
// first two octets of `front`, the place of a block's number, and then the pieces.
pub fn derive(
    suite: Suite,
    size: usize,
    mac: &MacKey,
    _key: &[u8],
    front: &mut [u8],
    pieces: &[&[u8]],
    out: &mut Octets<192>,
)
    requires limit { size ≤ 160 }
    requires none { out.old ≡ [] }
    requires key { IsMacKey mac.now suite _key.now }
    requires number { 2 ≤ length front.old }
    ensures derived { (z : List ℕ) → z ≡ drop 2 front.old ++ concat (map (λ p. p.now) pieces.now)
        → out.new ≡ spec.gkdf suite size _key.now z }
    ensures size { length out.new ≡ size }
{
    'numbers: for done in 0..size.div_ceil(suite.ks()) {
        BigEndian::write_u16(front, done as u16 + 1);
        let block = mac.tag(front, pieces);
        out.put(block.as_slice());
    }
    out.truncate(size);
}

/// GKDF-X (Y, Z) of at most 160 octets (RFC 5433, section 7). X is `size`, Y is `key`, of KS octets,
/// and the pieces joined are Z.
pub fn gkdf(suite: Suite, size: usize, key: &[u8], pieces: &[&[u8]]) -> Octets<192>
    requires limit { size ≤ 160 }
    requires key { length key.now ≡ ks_of suite }
    ensures derived { (z : List ℕ) → z ≡ concat (map (λ p. p.now) pieces.now)
        → result ≡ spec.gkdf suite size key.now z }
    ensures size { length result ≡ size }
{
    let mac = MacKey::new(suite, key);
    let mut out = Octets::new();
    derive(suite, size, &mac, key, &mut [0; 2], pieces, &mut out);
    out
}
