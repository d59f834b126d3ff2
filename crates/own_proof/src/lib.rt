//! Examples for makers: proofs about one's own program, by what the crates below promise.
#![tactic(auto)]

mod ends;

ghost use Rattle.std.specs.Prelude.{◌≡◌, None, IsSome};
ghost use Rattle.peer_machine.specs.Expanded.{peer_receives};
ghost use Rattle.peer_machine.specs.PeerTable.{answer, now_of};

use eap_method::PeerMethod;
pub use ends::{first_unmade, two_match};
use peer_machine::{PeerMachine, PeerStep};

/// Delivers a packet. If it is discarded, no variable and no method of the peer has changed, and nothing is sent.
pub fn receive<M: PeerMethod>(peer: &mut PeerMachine<M>, packet: &[u8]) -> PeerStep
    ensures step { peer_receives (now_of M.peer_shown peer.old) packet.now
        ≡ answer result (now_of M.peer_shown peer.new) }
    ensures unchanged { IsSome result.cause
        → now_of M.peer_shown peer.new ≡ now_of M.peer_shown peer.old }
    ensures silent { IsSome result.cause → result.sent ≡ None }
{
    peer.deliver(packet)
}
