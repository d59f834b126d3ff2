//! What holds of the method in a machine, by what the machines' crates promise: each call is one step of their table (RFC 4137),
//! and a discard changes nothing.

ghost use Rattle.std.specs.Prelude.{◌≡◌, None, IsSome, true};
ghost use Rattle.maker.specs.Md5Peer as peers;
ghost use Rattle.maker.specs.Md5Server as servers;
ghost use Rattle.peer_machine.specs.Expanded.{peer_receives};
ghost use Rattle.peer_machine.specs.PeerTable as peer_table;
ghost use Rattle.server_machine.specs.Expanded.{server_receives};
ghost use Rattle.server_machine.specs.ServerTable as server_table;
ghost use Rattle.server_machine.specs.ServerTable.{is_ready};

use crate::peer::Md5Peer;
use crate::server::Md5Server;
use peer_machine::{PeerMachine, PeerStep};
use server_machine::{ServerMachine, ServerStep};

/// Delivers a packet to a peer of this method. If it is discarded, no variable and no method of the peer has changed, and nothing
/// is sent.
pub fn receive_request(peer: &mut PeerMachine<Md5Peer>, packet: &[u8]) -> PeerStep
    ensures step { peer_receives (peer_table.now_of peers.shown peer.old) packet.now
        ≡ peer_table.answer result (peer_table.now_of peers.shown peer.new) }
    ensures unchanged { IsSome result.cause
        → peer_table.now_of peers.shown peer.new
        ≡ peer_table.now_of peers.shown peer.old }
    ensures silent { IsSome result.cause → result.sent ≡ None }
{
    own_proof::receive(peer, packet)
}

/// Delivers a packet to a server of this method that is ready. If it is discarded, no variable and no method of the server has
/// changed, and nothing is sent.
pub fn receive_response(server: &mut ServerMachine<Md5Server>, packet: &[u8]) -> ServerStep
    requires ready { is_ready server.old.vars ≡ true }
    ensures step { server_receives (server_table.now_of servers.shown server.old)
        packet.now
        ≡ server_table.answer result
        (server_table.now_of servers.shown server.new) }
    ensures unchanged { IsSome result.cause
        → server_table.now_of servers.shown server.new
        ≡ server_table.now_of servers.shown server.old }
    ensures silent { IsSome result.cause → result.sent ≡ None }
{
    server.deliver(packet)
}
