//! The numbers of a pcap file, in the octet order of the machine that wrote it.

ghost use Rattle.std.specs.Prelude.{◌≡◌, length};
ghost use Rattle.eapol_capture.specs.Files.{number, short_number};

use octet_lists::array_of;

/// The order of the octets of all numbers in a file, which its magic number gives (the pcap file format,
/// draft-ietf-opsawg-pcap section 4).
#[derive(Clone, Copy)]
pub enum OctetOrder {
    /// The most significant octet comes first.
    Big,
    /// The least significant octet comes first.
    Little,
}

impl OctetOrder {
    /// The number that these four octets are.
    pub fn number(self, octets: &[u8]) -> u32
        requires { length octets.now ≡ 4 }
        ensures { result ≡ number self octets.now }
    {
        match self {
            OctetOrder::Big => u32::from_be_bytes(array_of(octets)),
            OctetOrder::Little => u32::from_le_bytes(array_of(octets)),
        }
    }

    /// The number that these two octets are.
    pub fn short_number(self, octets: &[u8]) -> u16
        requires { length octets.now ≡ 2 }
        ensures { result ≡ short_number self octets.now }
    {
        match self {
            OctetOrder::Big => u16::from_be_bytes(array_of(octets)),
            OctetOrder::Little => u16::from_le_bytes(array_of(octets)),
        }
    }
}
