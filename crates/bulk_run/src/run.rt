//! All conversations of a number.

ghost use Rattle.std.specs.Prelude.{◌≡◌, ◌≤◌, map, true, IfOk};
ghost use Rattle.eap_method.specs.BothPeers as both_peers;
ghost use Rattle.eap_method.specs.BothServers as both_servers;
ghost use Rattle.eap_method.specs.Peer.{peer_kinds, have_each};
ghost use Rattle.eap_method.specs.Server.{server_kinds};
ghost use Rattle.bulk_run.specs.Conversation.{login_methods};
ghost use Rattle.bulk_run.specs.Summing.{summary_of};

use crate::conversation::converse;
use crate::draws::Draws;
use crate::summary::Summary;
use eap_method::{PeerMethod, ServerMethod};
use eap_world::{Memory, Methods};
use std::alloc::Global;

/// Runs `count` conversations, 1 to 1,000, of `number`, and returns their summary. Each is a login by
/// EAP-GPSK in mode alone (RFC 4137, RFC 5433), with the nonces and the key drawn from the number: if it is
/// odd, the first seven packets are delivered in order; if it is even, octets drawn from it choose 40 times
/// what is delivered, altered or timed out. Each end has an object of EAP-GPSK, and none of another
/// method than EAP-GPSK and EAP-PSK. `Memory` comes only for want of
/// memory.
pub fn run_all<P: PeerMethod, S: ServerMethod>(
    alloc: Global,
    number: u32,
    count: u32,
    methods: Methods<P, S>,
) -> Result<Summary, Memory>
    requires few { count ≤ 1000 }
    requires peer_objects { have_each (peer_kinds
        (map P.peer_shown methods.peer.items)) login_methods ≡ true }
    requires server_objects { have_each (server_kinds
        (map S.server_shown methods.server.items)) login_methods ≡ true }
    requires both_peers { both_peers.are_both (map P.peer_shown methods.peer.items) ≡ true }
    requires both_servers { both_servers.are_both (map S.server_shown methods.server.items) ≡ true }
    ensures { IfOk result (λ summary. summary ≡ summary_of number count) }
{
    let mut draws = Draws::new(number);
    let mut summary = Summary::new();
    let mut methods = methods;
    for _ in 0..count {
        let mut counts = Summary::new();
        methods = converse(alloc, number, &mut draws, methods, &mut counts)?;
        summary = summary.plus(counts);
    }
    Ok(summary)
}
