//! The objects of both methods at one end.

ghost use Rattle.std.specs.Prelude.{◌≡◌, ◌∷◌, [], ℕ, List, true, map, IfOk, IsTrue};
ghost use Rattle.octet_lists.specs.Among.{psk_kind, gpsk_kind};
ghost use Rattle.login_setup.specs.Setup.{are_kinds};
ghost use Rattle.eap_method.specs.BothPeers as both_peers;
ghost use Rattle.eap_method.specs.BothServers as both_servers;
ghost use Rattle.eap_method.specs.Peer as peers;
ghost use Rattle.eap_method.specs.Peer.{peer_kind, peer_kinds, have_each};
ghost use Rattle.eap_method.specs.Server as servers;
ghost use Rattle.eap_method.specs.Server.{server_kind, server_kinds};

use crate::peer::PeerMethod;
use crate::server::ServerMethod;
use std::alloc::{AllocError, Global};

/// An object of Type 51 (EAP-GPSK) and one of Type 47 (EAP-PSK), in this order, for a peer: each method that its
/// settings can allow has one. An `Err` is want of memory.
#[tactic(auto, using(crate::proofs::BothMethods::all_have))]
pub fn peer_pair<M: PeerMethod>(alloc: Global, gpsk: M, psk: M) -> Result<Vec<M>, AllocError>
    requires gpsk { peer_kind (M.peer_shown gpsk) ≡ gpsk_kind }
    requires psk { peer_kind (M.peer_shown psk) ≡ psk_kind }
    ensures both { IfOk result (λ both. both.items ≡ gpsk ∷ psk ∷ []) }
    ensures each { IfOk result (λ both. (kinds : List ℕ) → IsTrue (are_kinds kinds)
        → have_each (peer_kinds (map M.peer_shown both.items)) kinds ≡ true) }
    ensures of_both { IfOk result (λ both. peers.method_of (M.peer_shown gpsk) ≡ peers.by_gpsk
        → peers.method_of (M.peer_shown psk) ≡ peers.by_psk
        → both_peers.are_both (map M.peer_shown both.items) ≡ true) }
{
    pair(alloc, gpsk, psk)
}

/// The same for a server.
#[tactic(auto, using(crate::proofs::BothMethods::all_have))]
pub fn server_pair<M: ServerMethod>(alloc: Global, gpsk: M, psk: M) -> Result<Vec<M>, AllocError>
    requires gpsk { server_kind (M.server_shown gpsk) ≡ gpsk_kind }
    requires psk { server_kind (M.server_shown psk) ≡ psk_kind }
    ensures both { IfOk result (λ both. both.items ≡ gpsk ∷ psk ∷ []) }
    ensures each { IfOk result (λ both. (kinds : List ℕ) → IsTrue (are_kinds kinds)
        → have_each (server_kinds (map M.server_shown both.items)) kinds ≡ true) }
    ensures of_both { IfOk result (λ both. servers.method_of (M.server_shown gpsk) ≡ servers.by_gpsk
        → servers.method_of (M.server_shown psk) ≡ servers.by_psk
        → both_servers.are_both (map M.server_shown both.items) ≡ true) }
{
    pair(alloc, gpsk, psk)
}

/// A list of these two.
fn pair<T: Drop>(alloc: Global, first: T, second: T) -> Result<Vec<T>, AllocError>
    ensures { IfOk result (λ both. both.items ≡ first ∷ second ∷ []) }
{
    let mut both = Vec::with_capacity(alloc, 2)?;
    both.push(first)?;
    both.push(second)?;
    Ok(both)
}
