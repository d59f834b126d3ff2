//! A peer's own tag comes back to it, by EAP-GPSK, after a login by EAP-PSK: either end made each tag, each nonce is fresh, both ends are
//! in SUCCESS, and they are apart.

use crate::ways::no_methods;
use eap_base::{Event, Octets, Party, Port, Setup, User, Users};
use eap_method::{Methods, PeerMethod, ServerMethod};
use eap_packet::State;
use eap_world::{TagsVerdict, Verdict, World};
use gpsk_ends::GpskPeer;
use psk_ends::{PskPeer, PskServer};
use scenario_text::{Item, ScenarioReader};
use std::alloc::{AllocError, Global};
use std::test::Fail;

/// The settings of both ends but for the peer's name: its second nonce begins with the size of that in two octets, and its first
/// 30 octets.
const SETTINGS: &str = "\
eap-scenario 2
mode alone
peer-name alice
peer-server srv
peer-methods 51 47
peer-psk 51 000102030405060708090a0b0c0d0e0f101112131415161718191a1b1c1d1e1f
peer-psk 47 000102030405060708090a0b0c0d0e0f
peer-nonce 1111111111111111111111111111111111111111111111111111111111111111
peer-nonce 004b616c6963652d6f662d7468652d6c6f6e672d6e616d652d61742d686f6d65
server-name srv
server-methods 47
server-nonce 2222222222222222222222222222222222222222222222222222222222222222
events
";

/// The peer's name, of 75 octets, which ends as a GPSK-3 goes on behind RAND_Peer: RAND_Server, ID_Server, CSuite_Sel and the size of
/// PD_Payload_Block.
const NAME: &[u8] =
    b"alice-of-the-long-name-at-homeUUUUUUUUUUUUUUUUUUUUUUUUUUUUUUUU\x00\x03srv\x00\x00\x00\x00\x00\x01\
    \x00\x55";

/// The key that both ends share by EAP-PSK.
const KEY: [u8; 16] = [0, 1, 2, 3, 4, 5, 6, 7, 8, 9, 10, 11, 12, 13, 14, 15];

/// What is injected: a Request for the Identity, GPSK-1, a GPSK-3 which has the octets and the MAC of the peer's own GPSK-2, and a
/// Success. The MAC was computed by the AES-CMAC of Python's cryptography, by RFC 5433 sections 4, 7 and 9.
const INJECTED: [&[u8]; 4] = [
    b"\x01\x00\x00\x05\x01",
    b"\x01\x01\x00\x33\x33\x01\x00\x03srvUUUUUUUUUUUUUUUUUUUUUUUUUUUUUUUU\x00\x06\x00\x00\x00\x00\x00\x01",
    b"\x01\x02\x00\xb8\x33\x03\x00\x4balice-of-the-long-name-at-homeUUUUUUUUUUUUUUUUUUUUUUUUUUUUUUUU\x00\x03srv\
    \x00\x00\x00\x00\x00\x01\x00\x55\x00\x03srv\x00\x4balice-of-the-long-name-at-homeUUUUUUUUUUUUUUUUUUUUUUUUUUUUUUUU\
    \x00\x06\x00\x00\x00\x00\x00\x01\x00\x00\x00\x00\x00\x01\x00\x00\
    \x90\x78\x46\xc7\xf2\x12\x90\x7e\xdf\x69\x67\x27\x4d\x44\x56\x66",
    b"\x03\x02\x00\x04",
];

/// What a world says at the end.
#[derive(Clone, Copy, PartialEq, Eq, Debug)]
struct Judged {
    peer: Option<State>,
    server: Option<State>,
    tags: TagsVerdict,
    either: TagsVerdict,
    fresh: bool,
    result: Verdict,
}

/// The settings with the peer's name.
fn settings() -> Option<Setup> {
    let mut reader = ScenarioReader::new();
    for line in SETTINGS.lines() {
        if let Item::Ready(setup) = reader.line(line.as_bytes()).ok()? {
            let mut setup = setup;
            setup.peer.name = Octets::from_slice(NAME)?;
            setup.server.users = Users::new();
            let user = User {
                name: Octets::from_slice(NAME)?,
                kind: 47,
                psk: Octets::from_slice(&KEY)?,
                barred: false,
            };
            return if setup.server.users.add(user) {
                Some(setup)
            } else {
                None
            };
        }
    }
    None
}

/// The objects: of both methods at the peer, of EAP-PSK at the server.
fn methods(alloc: Global) -> Result<Methods, AllocError> {
    let mut methods: Methods = no_methods(alloc);
    let gpsk: Box<dyn PeerMethod> = Box::new(alloc, GpskPeer::new())?;
    methods.peer.push(gpsk)?;
    let psk: Box<dyn PeerMethod> = Box::new(alloc, PskPeer::new())?;
    methods.peer.push(psk)?;
    let psk: Box<dyn ServerMethod> = Box::new(alloc, PskServer::new())?;
    methods.server.push(psk)?;
    Ok(methods)
}

/// The next event; None if it can't come.
fn step(world: &mut World, event: &Event) -> Option<()> {
    if !world.started() || !world.has_objects() || world.counts().events >= 16 {
        return None;
    }
    world.step_brief(event).ok()?;
    Some(())
}

/// The login by EAP-PSK, the peer's restart, and what is injected.
fn run(world: &mut World) -> Option<()> {
    if world.started() || !world.has_objects() {
        return None;
    }
    world.start_brief().ok()?;
    for number in 1..8 {
        step(world, &Event::Deliver { number })?;
    }
    step(world, &Event::Restart { party: Party::Peer })?;
    for octets in INJECTED {
        let octets = Octets::from_slice(octets)?;
        step(
            world,
            &Event::Inject {
                port: Port::Peer,
                octets,
            },
        )?;
    }
    Some(())
}

/// What a world of this run says at its end.
fn verdicts(alloc: Global, setup: Setup, methods: Methods) -> Option<Judged> {
    if !World::takes(&setup, &methods) {
        return None;
    }
    let mut world = World::new(alloc, setup, methods);
    run(&mut world)?;
    Some(Judged {
        peer: world.state(Party::Peer),
        server: world.state(Party::Server),
        tags: world.tags(),
        either: world.tags_either(),
        fresh: world.fresh(),
        result: world.result(),
    })
}

// The peer accepts its own tag in event 11, the third that is injected.
#[test]
fn a_peer_by_gpsk_takes_its_own_tag(rt: HostRuntime) -> Result<(), Fail> {
    let methods = methods(rt.alloc())?;
    let Some(setup) = settings() else {
        panic!(rt; "no settings");
    };
    let wanted = Judged {
        peer: Some(State::Success),
        server: Some(State::Success),
        tags: TagsVerdict::Broken(11),
        either: TagsVerdict::Honest,
        fresh: true,
        result: Verdict::Apart,
    };
    assert!(rt; verdicts(rt.alloc(), setup, methods) == Some(wanted));
    Ok(())
}
