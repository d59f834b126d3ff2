//! The header of a pcap file.

ghost use Rattle.std.specs.Prelude.{◌≡◌, length};
ghost use Rattle.eapol_capture.specs.Files.{order_of, is_version, order_or_fault};

use crate::order::OctetOrder;
use crate::reader::NextRecord;

/// The magic number of a file whose times have microseconds.
const MAGIC: u32 = 0xa1b2_c3d4;

/// The link type of Ethernet.
const ETHERNET: u32 = 1;

/// The octet order in which these four octets are the magic number, if one is.
fn order_of(magic: &[u8]) -> Option<OctetOrder>
    requires { length magic.now ≡ 4 }
    ensures { result ≡ order_of magic.now }
{
    if OctetOrder::Big.number(magic) == MAGIC {
        Some(OctetOrder::Big)
    } else if OctetOrder::Little.number(magic) == MAGIC {
        Some(OctetOrder::Little)
    } else {
        None
    }
}

/// Whether these four octets are version 2.4.
fn is_version(order: OctetOrder, version: &[u8]) -> bool
    requires { length version.now ≡ 4 }
    ensures { result ≡ is_version order version.now }
{
    order.short_number(&version[..2]) == 2 && order.short_number(&version[2..]) == 4
}

/// The octet order of the file that has this header, or else its first fault: `BadMagic`, `BadVersion` or
/// `BadLink`.
pub fn judge_header(header: &[u8]) -> Result<OctetOrder, NextRecord>
    requires { length header.now ≡ 24 }
    ensures { result ≡ order_or_fault header.now }
{
    match order_of(&header[..4]) {
        None => Err(NextRecord::BadMagic),
        Some(order) => {
            if !is_version(order, &header[4..8]) {
                Err(NextRecord::BadVersion)
            } else if order.number(&header[20..]) != ETHERNET {
                Err(NextRecord::BadLink)
            } else {
                Ok(order)
            }
        }
    }
}
