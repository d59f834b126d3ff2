//! AK and KDK, from the shared key of 16 octets.

ghost use Rattle.std.specs.Prelude.{◌≡◌, length};
ghost use Rattle.login_keys.specs.Psk.{psk_long_of};

use login_keys::{PskLong, psk_long};
use octet_lists::{Secret, array_of};

/// AK and KDK (RFC 4764 section 3.1).
pub fn long_keys(psk: &Secret) -> PskLong
    requires { length psk.now ≡ 16 }
    ensures { result ≡ psk_long_of psk.now }
{
    psk_long(&array_of(psk.as_slice()))
}
