//! The objects of a peer: beginning them, finding the one of a method, and calling it.

ghost use Rattle.std.specs.Prelude.{◌≡◌, ◌==◌, ℕ, List, true, map, find, option_copied, option_map};
ghost use Rattle.octet_lists.specs.Among.{is_among};
ghost use Rattle.login_setup.specs.Setup.{IsSoundPeer, HasKeys};
ghost use Rattle.eap_method.specs.Peer.{peer_kind, peer_kinds, peer_methods, first_of, have_each};
ghost use Rattle.eap_method.specs.Peer.{peer_views, peer_turn, IsRequest, peer_report_of};
ghost use Rattle.eap_method.specs.Peer.{views_started, key_for, credential_for, peer_started_in};
ghost use Rattle.eap_method.specs.Unnamed.{peers_unnamed};
ghost use Rattle.eap_method.specs.PeerTurn.{peer_turn_with, peer_tags};
ghost use Rattle.eap_method.specs.Capacity.{HasCapacity, replies};

use crate::peer::PeerMethod;
use crate::tags::Tags;
use crate::turn::PeerAnswer;
use crate::turns::Turns;
use crate::values::{Credential, Report};
use eap_packet::Cause;
use login_policy::peer_allows;
use login_setup::PeerSetup;
use octet_lists::{Packet, Secret};

/// Begins each object whose method the settings allow, with the key for it, whatever its state before;
/// the others stay as they are.
pub fn start_peers<M: PeerMethod>(methods: &mut [M], setup: &PeerSetup)
    requires sound { IsSoundPeer setup.now }
    requires keys { HasKeys setup.now }
    ensures views { peer_views setup.now.methods (map M.peer_shown methods.new)
        ≡ views_started setup.now (peer_views setup.now.methods (map M.peer_shown methods.old)) }
    ensures methods { peer_methods (map M.peer_shown methods.new)
        ≡ peer_methods (map M.peer_shown methods.old) }
    ensures unnamed { peers_unnamed setup.now.methods (map M.peer_shown methods.new)
        ≡ peers_unnamed setup.now.methods (map M.peer_shown methods.old) }
{
    start_each(methods, setup);
}

/// The turn of the object of this Type, which is allowed, for a Request of this Type with nothing past
/// its Length: its Response is written into `packet`, with room for an Expanded Type, the records of its
/// tags into `tags`. If there is no such object, the Request is discarded as one that no method
/// awaits. The objects of other methods stay as they are.
pub fn call_peer_method<M: PeerMethod, R: Turns>(
    methods: &mut [M],
    kind: u8,
    request: &[u8],
    packet: &mut Packet,
    tags: &mut Tags<R>,
) -> PeerAnswer
    requires { IsRequest kind request.now }
    ensures turn { (allowed : List ℕ) → is_among allowed kind ≡ true
        → peer_turn kind (peer_views allowed (map M.peer_shown methods.old)) request.now
        ≡ record {
          turn = peer_turn_with result packet.new tags.new;
          after = peer_views allowed (map M.peer_shown methods.new);
        } }
    ensures tags { tags.new ≡ peer_tags (peer_turn_with result packet.new tags.new) }
    ensures capacity { replies result ≡ true → HasCapacity packet.new }
    ensures methods { peer_methods (map M.peer_shown methods.new)
        ≡ peer_methods (map M.peer_shown methods.old) }
    ensures unnamed { (allowed : List ℕ) → is_among allowed kind ≡ true
        → peers_unnamed allowed (map M.peer_shown methods.new)
        ≡ peers_unnamed allowed (map M.peer_shown methods.old) }
{
    match methods.split_first_mut() {
        None => {
            tags.clear();
            PeerAnswer::Discard(Cause::WrongOp)
        }
        Some((first, rest)) => {
            if first.kind() == kind {
                R::peer_turn(first, request, packet, tags)
            } else {
                call_peer_method(rest, kind, request, packet, tags)
            }
        }
    }
}

/// What the object of this Type, which is allowed, has after a login that succeeded; None after any
/// other, and if there is no such object.
pub fn peer_report<M: PeerMethod>(methods: &[M], kind: u8) -> Option<Report>
    ensures { (allowed : List ℕ) → is_among allowed kind ≡ true
        → result ≡ peer_report_of kind (peer_views allowed (map M.peer_shown methods.now)) }
{
    object_of(methods, kind)?.report()
}

/// The first object of this Type; None if there is none.
pub fn find_peer<M: PeerMethod>(methods: &[M], kind: u8) -> Option<&M>
    ensures { option_map (λ o. M.peer_shown o.now) result
        ≡ first_of kind (map M.peer_shown methods.now) }
{
    object_of(methods, kind)
}

fn object_of<M: PeerMethod>(methods: &[M], kind: u8) -> Option<&M>
    ensures { option_copied result ≡ find (λ m. peer_kind (M.peer_shown m) == kind) methods.now }
{
    methods.iter().find(|method| method.kind() == kind)
}

/// Whether there is an object of each of these Types.
pub fn has_peers<M: PeerMethod>(methods: &[M], kinds: &[u8]) -> bool
    ensures { result ≡ have_each (peer_kinds (map M.peer_shown methods.now)) kinds.now }
{
    kinds.iter().all(|kind| has_peer(methods, *kind))
}

/// Whether there is an object of this Type.
fn has_peer<M: PeerMethod>(methods: &[M], kind: u8) -> bool
    ensures { result ≡ is_among (peer_kinds (map M.peer_shown methods.now)) kind }
{
    find_peer(methods, kind).is_some()
}

fn start_each<M: PeerMethod>(methods: &mut [M], setup: &PeerSetup)
    requires sound { IsSoundPeer setup.now }
    requires keys { HasKeys setup.now }
    ensures { map M.peer_shown methods.new
        ≡ map (peer_started_in setup.now) (map M.peer_shown methods.old) }
{
    if let Some((first, rest)) = methods.split_first_mut() {
        start_one(first, setup);
        start_each(rest, setup);
    }
}

/// Begins one object. It is never inlined, nor is what makes its credential, so that these lie in no frame of a caller.
#[inline(never)]
fn start_one<M: PeerMethod>(method: &mut M, setup: &PeerSetup)
    requires sound { IsSoundPeer setup.now }
    requires keys { HasKeys setup.now }
    ensures { M.peer_shown method.new ≡ peer_started_in setup.now (M.peer_shown method.old) }
{
    let kind = method.kind();
    if peer_allows(setup, kind) {
        method.begin(&credential_for(setup, kind), &setup.nonce);
    }
}

#[tactic(auto, unfolding(crate::specs::Peer::credential_for))]
#[inline(never)]
fn credential_for(setup: &PeerSetup, kind: u8) -> Credential
    ensures { result ≡ credential_for setup.now kind }
{
    Credential {
        id_p: setup.name.copy(),
        accepts: setup.accepts.copy(),
        suites: setup.suites.copy(),
        psk: key_for(setup, kind),
    }
}

/// The key for the method of this Type; no octets if there is none.
fn key_for(setup: &PeerSetup, kind: u8) -> Secret
    ensures { result ≡ key_for setup.now kind }
{
    match setup.key(kind) {
        None => Secret::new(),
        Some(key) => key.copy(),
    }
}
