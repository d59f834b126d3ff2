//! Names of keys.

ghost use Rattle.std.specs.Prelude.{◌≡◌};
ghost use Rattle.login_keys.specs.KeyName.{key_name_of};

use octet_lists::array_of;
use sha2::{Digest, Sha256};

/// The name of a key: the first 8 octets of SHA-256 over `eap-key-name`, one zero octet and the key.
/// Two ends can compare it without showing the key.
#[tactic(auto, unfolding(crate::specs::KeyName::key_name_of))]
pub fn key_name(key: &[u8]) -> [u8; 8]
    ensures { result ≡ key_name_of key.now }
{
    let mut hasher = Sha256::new_with_prefix(b"eap-key-name\0");
    hasher.update(key);
    let digest = hasher.finalize();
    array_of(&digest[..8])
}
