//! Making the objects of methods, as a machine takes them.

ghost use Rattle.std.specs.Prelude.{◌≡◌, ◌++◌, true, map, IfOk, OnOk, IsTrue};
ghost use Rattle.std.specs.List.{list_all};
ghost use Rattle.octet_lists.specs.Among.{is_kind};
ghost use Rattle.login_setup.specs.Setup.{are_kinds};
ghost use Rattle.eap_method.specs.Peer.{peer_kinds, have_each};
ghost use Rattle.eap_method.specs.Server.{server_kinds};
ghost use Rattle.end_objects.specs.Objects.{peer_object_shown, server_object_shown};

use crate::objects::{PeerObject, ServerObject, peer_object, server_object};
use std::alloc::{AllocError, Global};

/// The objects of a peer with these methods, one for each, in their order. An `Err` is want of memory.
#[tactic(auto, using(crate::proofs::Constructed::each_of_its_own))]
pub fn peer_objects(alloc: Global, kinds: &[u8]) -> Result<Vec<PeerObject>, AllocError>
    requires { IsTrue (are_kinds kinds.now) }
    ensures kinds { IfOk result
        (λ objects. peer_kinds (map peer_object_shown objects.items) ≡ kinds.now) }
    ensures each { IfOk result
        (λ objects. have_each (peer_kinds (map peer_object_shown objects.items)) kinds.now ≡ true) }
{
    let mut objects = Vec::with_capacity(alloc, kinds.len())?;
    add_peers(&mut objects, kinds)?;
    Ok(objects)
}

/// Appends an object of each of these methods.
#[tactic(auto, using(crate::proofs::Constructed::one_more_peer))]
fn add_peers(objects: &mut Vec<PeerObject>, kinds: &[u8]) -> Result<(), AllocError>
    requires { list_all is_kind kinds.now ≡ true }
    ensures { OnOk result (peer_kinds (map peer_object_shown objects.new.items)
        ≡ peer_kinds (map peer_object_shown objects.old.items) ++ kinds.now) }
{
    match kinds {
        [] => Ok(()),
        [kind, rest @ ..] => {
            objects.push(peer_object(*kind))?;
            add_peers(objects, rest)
        }
    }
}

/// The objects of a server with these methods, one for each, in their order. An `Err` is want of memory.
#[tactic(auto, using(crate::proofs::Constructed::each_of_its_own))]
pub fn server_objects(alloc: Global, kinds: &[u8]) -> Result<Vec<ServerObject>, AllocError>
    requires { IsTrue (are_kinds kinds.now) }
    ensures kinds { IfOk result
        (λ objects. server_kinds (map server_object_shown objects.items) ≡ kinds.now) }
    ensures each { IfOk result (λ objects.
        have_each (server_kinds (map server_object_shown objects.items)) kinds.now ≡ true) }
{
    let mut objects = Vec::with_capacity(alloc, kinds.len())?;
    add_servers(&mut objects, kinds)?;
    Ok(objects)
}

/// Appends an object of each of these methods.
#[tactic(auto, using(crate::proofs::Constructed::one_more_server))]
fn add_servers(objects: &mut Vec<ServerObject>, kinds: &[u8]) -> Result<(), AllocError>
    requires { list_all is_kind kinds.now ≡ true }
    ensures { OnOk result (server_kinds (map server_object_shown objects.new.items)
        ≡ server_kinds (map server_object_shown objects.old.items) ++ kinds.now) }
{
    match kinds {
        [] => Ok(()),
        [kind, rest @ ..] => {
            objects.push(server_object(*kind))?;
            add_servers(objects, rest)
        }
    }
}
