//! Writing the packet of a message that is sent, up to its MAC.

ghost use Rattle.std.specs.Prelude.{◌≡◌, ◌≤◌, ◌+◌, ◌++◌, ℕ, List, length, IsTrue, drop};
ghost use Rattle.octet_lists.specs.Suite.{ks_of};
ghost use Rattle.octet_lists.specs.Sizes.{max_packet};
ghost use Rattle.eap_packet.specs.Packet.{has_type, value_with};
ghost use Rattle.eap_packet.specs.Packet as packets;
ghost use Rattle.gpsk_messages.specs.Message.{message_of, mac_of, spelled, size_of, covered_of};
ghost use Rattle.gpsk_messages.specs.Reading.{with_mac};

use eap_packet::Code;
use gpsk_messages::{GpskMessage, write_gpsk_into};
use octet_lists::{Packet, Suite};

/// The octets of a packet before those that the MAC covers: its header of five, and the OP-Code (RFC
/// 5433 section 9.1).
pub(crate) const BEFORE_COVERED: usize = 6;

/// The place of a MAC of KS octets that is yet to come.
pub(crate) fn mac_place(suite: Suite) -> &'static [u8]
    ensures { length result.now ≡ ks_of suite }
{
    match suite {
        Suite::Cmac => &[0; 16],
        Suite::Hmac => &[0; 32],
    }
}

/// Writes the packet of a message up to its MAC of KS octets, which its Length counts.
pub(crate) fn write_front(view: &GpskMessage, code: Code, id: u8, suite: Suite, packet: &mut Packet)
    requires typed { IsTrue (has_type code) }
    requires bounded { size_of (message_of view.now) + 5 ≤ max_packet }
    requires mac { length (mac_of (message_of view.now)) ≡ ks_of suite }
    ensures prefix { 6 ≤ length packet.new }
    ensures capacity { length packet.new + ks_of suite ≤ max_packet }
    ensures covered { drop 6 packet.new ≡ covered_of (message_of view.now) }
    ensures sealed { (tag : List ℕ) → length tag ≡ ks_of suite
        → packet.new ++ tag
        ≡ packets.spelled (value_with code id 51 (spelled (with_mac (message_of view.now) tag))) }
{
    write_gpsk_into(packet, view, code, id);
    packet.truncate(packet.len() - suite.ks());
}
