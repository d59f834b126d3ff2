//! The packet that an end sent last, where no machine stores it.

ghost use Rattle.std.specs.Prelude.{◌≡◌, ◌≤◌, [], length, if◌then◌else◌, IfSome, Some, None};
ghost use Rattle.octet_lists.specs.Sizes.{max_packet};
ghost use Rattle.tuvaddri_c.specs.Sent.{sent_so, after_turn};

use eapol_frame::EapolFrame;
use octet_lists::Packet;
use std::alloc::Global;

/// A packet of no octets, in a block of its own; None for want of memory.
#[inline(never)]
pub fn empty_packet(alloc: Global) -> Option<Box<Packet>>
    ensures { IfSome result (λ last. last.value ≡ []) }
{
    match Box::new(alloc, Packet::new()) {
        Err(_) => None,
        Ok(last) => Some(last),
    }
}

/// A frame of no octets, in a block of its own; None for want of memory.
#[inline(never)]
pub fn empty_frame(alloc: Global) -> Option<Box<EapolFrame>>
    ensures { IfSome result (λ last. last.value ≡ []) }
{
    match Box::new(alloc, EapolFrame::new()) {
        Err(_) => None,
        Ok(last) => Some(last),
    }
}

/// A turn sends the packet of these octets, or nothing.
pub fn store_sent(sends: bool, octets: &[u8], last: &mut Packet, fresh: &mut bool)
    requires { length octets.now ≤ max_packet }
    ensures { sent_so last.new fresh.new
        ≡ after_turn (if sends then Some octets.now else None) (sent_so last.old fresh.old) }
{
    *fresh = sends;
    if sends {
        last.set(octets);
    }
}
