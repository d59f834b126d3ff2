//! One conversation, from octets that are drawn.

ghost use Rattle.std.specs.Prelude.{◌≡◌, ◌+◌, ℕ, [], length, map, true, false, IfOk};
ghost use Rattle.login_setup.specs.declared.setup.Setup.{Setup};
ghost use Rattle.eap_method.specs.BothPeers as both_peers;
ghost use Rattle.eap_method.specs.BothServers as both_servers;
ghost use Rattle.eap_method.specs.Peer.{peer_kinds, have_each};
ghost use Rattle.eap_method.specs.Server.{server_kinds};
ghost use Rattle.eap_world.specs.World.{HasObjects, now_of};
ghost use Rattle.bulk_run.specs.ObjectMethods.{PreservesMethods, HaveSameMethods};
ghost use Rattle.bulk_run.specs.Conversation.{login_methods, alice, known_with, deliveries};
ghost use Rattle.bulk_run.specs.Conversation.{chances};
ghost use Rattle.bulk_run.specs.Draws.{state_at};
ghost use Rattle.bulk_run.specs.RunningEnd.{AreFew};
ghost use Rattle.bulk_run.specs.Summing.{counts_of, drawn_each, drawn_for_events, ended_at};
ghost use Rattle.bulk_run.specs.Summing.{events_of, IsAtMost};
ghost use Rattle.world_laws.specs.Runs.{initial_world, run_of};

use crate::draws::Draws;
use crate::summary::Summary;
use crate::turn::{start_run, step_chosen, step_event};
use eap_method::{PeerMethod, ServerMethod};
use eap_world::{Memory, Methods, World};
use login_setup::{Accepts, Event, Later, Mode, PeerSetup, ServerSetup, Setup, User, Users};
use octet_lists::{GPSK_KIND, Identity, Kinds, Nonce, Secret, Suites};
use std::alloc::Global;

/// The name of the peer, who is the server's one user.
const PEER: &[u8] = b"alice";

/// The name of the server.
const SERVER: &[u8] = b"srv";

/// The conversation that begins at the present place of the draws. It takes the objects, which begin
/// again, and returns them; `counts` is its result. `Memory` comes only for want of memory.
#[tactic(auto, using(crate::proofs::TwoRecords::same_methods))]
pub fn converse<P: PeerMethod, S: ServerMethod>(
    alloc: Global,
    number: u32,
    draws: &mut Draws,
    methods: Methods<P, S>,
    counts: &mut Summary,
) -> Result<Methods<P, S>, Memory>
    requires peer_objects { have_each (peer_kinds
        (map P.peer_shown methods.peer.items)) login_methods ≡ true }
    requires server_objects { have_each (server_kinds
        (map S.server_shown methods.server.items)) login_methods ≡ true }
    requires both_peers { both_peers.are_both (map P.peer_shown methods.peer.items) ≡ true }
    requires both_servers { both_servers.are_both (map S.server_shown methods.server.items) ≡ true }
    ensures counts { IfOk result (λ after. (place : ℕ) → draws.old.state ≡ state_at number place
        → counts.new ≡ counts_of (ended_at number place)) }
    ensures small { IfOk result (λ after. IsAtMost counts.new 40) }
    ensures state { IfOk result (λ after. (place : ℕ) → draws.old.state ≡ state_at number place
        → draws.new.state ≡ state_at number (place + drawn_each number)) }
    ensures methods { IfOk result (λ after. HaveSameMethods P.peer_shown S.server_shown
        methods.peer.items methods.server.items after.peer.items after.server.items) }
{
    let peer_nonce = draws.octets();
    let server_nonce = draws.octets();
    let key = draws.octets();
    let mut users = Users::new();
    users.add(user(&key));
    let setup = Setup {
        mode: Mode::Alone,
        first_id: 0,
        max_retrans: 4,
        peer: alice(peer_nonce, &key),
        server: ServerSetup {
            name: Identity::of(SERVER),
            methods: Kinds::of(&[GPSK_KIND]),
            suites: Suites::of(&[1, 2]),
            users,
            nonce: server_nonce,
            expanded: false,
        },
        later: Later::none(),
    };
    let mut world = World::new(alloc, setup, methods);
    talk(&mut world, number, draws)?;
    *counts = Summary::of(&world);
    Ok(world.into_methods())
}

/// The settings of the peer, with this nonce and this key.
fn alice(nonce: Nonce, key: &Nonce) -> PeerSetup
    ensures { result ≡ alice nonce key.now }
{
    PeerSetup {
        name: Identity::of(PEER),
        accepts: Accepts::One(Identity::of(SERVER)),
        methods: Kinds::of(&[GPSK_KIND]),
        suites: Suites::of(&[1, 2]),
        psk47: None,
        psk51: Some(Secret::of(key)),
        nonce,
        expanded: false,
    }
}

/// The peer as the server knows her, with this key.
fn user(key: &Nonce) -> User
    ensures { result ≡ known_with key.now }
{
    User {
        name: Identity::of(PEER),
        kind: GPSK_KIND,
        psk: Secret::of(key),
        barred: false,
    }
}

/// The start of a world that has just been made, and its events.
fn talk<P: PeerMethod, S: ServerMethod>(
    world: &mut World<P, S>,
    number: u32,
    draws: &mut Draws,
) -> Result<(), Memory>
    requires unstarted { world.old.started ≡ false }
    requires unsent { world.old.sent ≡ [] }
    requires few { AreFew world.old.counts 0 }
    requires objects { HasObjects P.peer_shown S.server_shown world.old }
    ensures run { IfOk result (λ done. (setup : Setup) (place : ℕ)
        → now_of P.peer_shown S.server_shown world.old ≡ initial_world setup
        → draws.old.state ≡ state_at number place
        → now_of P.peer_shown S.server_shown world.new
        ≡ run_of setup (events_of setup number place)) }
    ensures state { IfOk result (λ done. (place : ℕ) → draws.old.state ≡ state_at number place
        → draws.new.state ≡ state_at number (place + drawn_for_events number)) }
    ensures few { IfOk result (λ done. AreFew world.new.counts 40) }
    ensures methods { IfOk result
        (λ done. PreservesMethods P.peer_shown S.server_shown world.old world.new) }
{
    let mut packets = start_run(world)?;
    if number % 2 == 0 {
        step_by_chance(world, &mut packets, draws)
    } else {
        deliver_all(world, &mut packets)
    }
}

/// Delivers packets 1 to 7.
fn deliver_all<P: PeerMethod, S: ServerMethod>(
    world: &mut World<P, S>,
    packets: &mut u32,
) -> Result<(), Memory>
    requires started { world.old.started ≡ true }
    requires few { AreFew world.old.counts 0 }
    requires objects { HasObjects P.peer_shown S.server_shown world.old }
    requires packets { packets.old ≡ length world.old.sent }
    ensures run { IfOk result
        (λ done. (setup : Setup) → now_of P.peer_shown S.server_shown world.old ≡ run_of setup []
        → now_of P.peer_shown S.server_shown world.new ≡ run_of setup (deliveries 7)) }
    ensures few { IfOk result (λ done. AreFew world.new.counts 7) }
    ensures methods { IfOk result
        (λ done. PreservesMethods P.peer_shown S.server_shown world.old world.new) }
{
    for passed in 0..7_u32 {
        step_event(world, packets, &Event::Deliver { number: passed + 1 })?;
    }
    Ok(())
}

/// Takes 40 turns, of which each draws two octets, and the events that they choose.
fn step_by_chance<P: PeerMethod, S: ServerMethod>(
    world: &mut World<P, S>,
    packets: &mut u32,
    draws: &mut Draws,
) -> Result<(), Memory>
    requires started { world.old.started ≡ true }
    requires few { AreFew world.old.counts 0 }
    requires objects { HasObjects P.peer_shown S.server_shown world.old }
    requires packets { packets.old ≡ length world.old.sent }
    ensures run { IfOk result (λ done. (setup : Setup) (number place : ℕ)
        → now_of P.peer_shown S.server_shown world.old ≡ run_of setup []
        → draws.old.state ≡ state_at number place
        → now_of P.peer_shown S.server_shown world.new
        ≡ run_of setup (chances setup number place 40)) }
    ensures state { IfOk result
        (λ done. (number place : ℕ) → draws.old.state ≡ state_at number place
        → draws.new.state ≡ state_at number (place + 80)) }
    ensures few { IfOk result (λ done. AreFew world.new.counts 40) }
    ensures methods { IfOk result
        (λ done. PreservesMethods P.peer_shown S.server_shown world.old world.new) }
{
    for _ in 0..40_u32 {
        let v = draws.octet();
        let u = draws.octet();
        step_chosen(world, packets, v, u)?;
    }
    Ok(())
}
