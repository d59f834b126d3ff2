//! The records of the MACs of EAP-PAX, with the octets that they cover.

ghost use Rattle.std.specs.Prelude.{◌≡◌, ◌≤◌, ◌<◌, [], ◌∷◌, ◌++◌, length};
ghost use Rattle.octet_lists.specs.Sizes.{max_packet};
ghost use Rattle.pax_method.specs.Messages.{ck_record, ick_record};

use crate::packets::PAX_KIND;
use eap_method::{Label, TagList};
use octet_lists::Secret;

/// Adds the record of a MAC under CK.
pub fn add_ck(list: &mut TagList, ak: &Secret, octets: &[u8], tag: &[u8; 16])
    requires capacity { length list.old < 2 }
    requires octets { length octets.now ≤ max_packet }
    ensures { list.new ≡ list.old ++ ck_record ak.now octets.now tag.now ∷ [] }
{
    list.add(PAX_KIND, Label::Ak, ak, &[octets], tag);
}

/// Adds the record of a packet's ICV under ICK.
pub fn add_ick(list: &mut TagList, ak: &Secret, packet: &[u8])
    requires capacity { length list.old < 2 }
    requires octets { length packet.now ≤ max_packet }
    ensures { list.new ≡ list.old ++ ick_record ak.now packet.now ∷ [] }
{
    let end = packet.len().saturating_sub(16);
    list.add(PAX_KIND, Label::Tek, ak, &[&packet[..end]], &packet[end..]);
}
