//! The finding of a captured packet.

use eap_packet::Cause;
use octet_lists::Identity;

/// The finding of a captured packet.
#[derive(Drop, Debug)]
pub enum Finding {
    /// There is no tag to judge, or none that a shared key makes: the packet is well formed.
    Good,
    /// The octets are no packet, no message of their method, or one that goes the wrong way.
    Malformed(Cause),
    /// The tag is wrong under the key that the packet, or one before it, names.
    TagBad,
    /// The tag is right under the key of the user of this name.
    TagGood(Identity),
    /// No user of the method has the name that the packet gives.
    NoKey,
    /// The packet before, without which the tag can't be judged, isn't there.
    NoContext,
}
