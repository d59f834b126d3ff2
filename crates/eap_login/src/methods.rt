//! The objects of both methods at both ends, as the program's call takes them.

ghost use Rattle.std.specs.Prelude.{◌≡◌, IfOk};
ghost use Rattle.eap_method.specs.Peer as peers;
ghost use Rattle.eap_method.specs.Server as servers;
ghost use Rattle.world_commands.specs.Replay.{HasBoth};

use eap_method::{Methods, PeerMethod, ServerMethod, peer_pair, server_pair};
use std::alloc::{AllocError, Global};

/// An object of EAP-GPSK and one of EAP-PSK for each end. An `Err` is want of memory.
pub fn methods_of<P: PeerMethod, S: ServerMethod>(
    alloc: Global,
    gpsk_peer: P,
    psk_peer: P,
    gpsk_server: S,
    psk_server: S,
) -> Result<Methods<P, S>, AllocError>
    requires gpsk_peer { peers.method_of (P.peer_shown gpsk_peer) ≡ peers.by_gpsk }
    requires psk_peer { peers.method_of (P.peer_shown psk_peer) ≡ peers.by_psk }
    requires gpsk_server { servers.method_of (S.server_shown gpsk_server) ≡ servers.by_gpsk }
    requires psk_server { servers.method_of (S.server_shown psk_server) ≡ servers.by_psk }
    ensures { IfOk result (HasBoth P.peer_shown S.server_shown) }
{
    Ok(Methods {
        peer: peer_pair(alloc, gpsk_peer, psk_peer)?,
        server: server_pair(alloc, gpsk_server, psk_server)?,
    })
}
