//! Types, those of the two methods among them, and the fields of an Expanded Type.

ghost use Rattle.std.specs.Prelude.{◌≡◌};
ghost use Rattle.octet_lists.specs.Among.{is_among};

/// The Type Identity (RFC 3748 section 5.1).
pub const IDENTITY: u8 = 1;

/// The Type Notification (RFC 3748 section 5.2).
pub const NOTIFICATION: u8 = 2;

/// The Type Nak (RFC 3748 section 5.3.1).
pub const NAK: u8 = 3;

/// The Type Expanded, of a packet with an Expanded Type (RFC 3748 section 5.7).
pub const EXPANDED: u8 = 254;

/// Vendor-Id 0, that of the IETF, and the first three of the four octets of a Vendor-Type under 256 (RFC
/// 3748 section 5.7).
pub const IETF: [u8; 6] = [0; 6];

/// The octets of the Vendor-Id and the Vendor-Type.
pub const VENDOR_SIZE: usize = 7;

/// The octets of an entry of an Expanded Nak: 254, the Vendor-Id and the Vendor-Type (RFC 3748
/// section 5.3.2).
pub const NAK_ENTRY_SIZE: usize = 8;

/// The Type of EAP-PSK (RFC 4764 section 5).
pub const PSK_KIND: u8 = 47;

/// The Type of EAP-GPSK (RFC 5433 section 9.1).
pub const GPSK_KIND: u8 = 51;

/// Whether a number, the Type of a method or the specifier of a suite, is among these.
pub fn is_among(numbers: &[u8], number: u8) -> bool
    ensures { result ≡ is_among numbers.now number }
{
    numbers.iter().any(|other| *other == number)
}
