//! The ways in which the packets of two ends are carried, whatever their methods, by the plain calls: in one world, which has the
//! machines of both, and between two pipes. Through a pass-through the `examples` go.

use eap_base::{Event, Mode, Octets, Packet, Party, Setup};
use eap_method::{Methods, PeerMethod, Report, ServerMethod};
use eap_packet::State;
use eap_world::{TagsVerdict, Verdict, World};
use end_pipe::{EndInput, PeerPipe, ServerPipe};
use peer_machine::PeerMachine;
use server_machine::ServerMachine;
use std::alloc::Global;

/// A way in which the packets of both ends are carried.
#[derive(Clone, Copy, PartialEq, Eq, Debug)]
pub(crate) enum Way {
    World,
    Pipes,
}

/// Each of them.
pub(crate) const WAYS: [Way; 2] = [Way::World, Way::Pipes];

/// Both ends without an object.
pub(crate) fn no_methods<P: PeerMethod, S: ServerMethod>(alloc: Global) -> Methods<P, S> {
    Methods {
        peer: Vec::new(alloc),
        server: Vec::new(alloc),
    }
}

/// True if both reports are equal.
pub(crate) fn are_equal(one: &Report, other: &Report) -> bool {
    (one.method == other.method)
        & (one.suite == other.suite)
        & (one.id_p.as_slice() == other.id_p.as_slice())
        & (one.id_s.as_slice() == other.id_s.as_slice())
        & (one.msk == other.msk)
        & (one.emsk == other.emsk)
}

/// How a login ended: the states of the peer and of the server, and whether both have the same keys, or neither has any.
#[derive(Clone, Copy, PartialEq, Eq, Debug)]
pub(crate) struct End {
    peer: State,
    server: State,
    with_keys: Option<bool>,
}

/// An end of both in this state, with keys or without.
pub(crate) fn both_in(state: State, with_keys: bool) -> End {
    End {
        peer: state,
        server: state,
        with_keys: Some(with_keys),
    }
}

/// How a login goes: its end, what a world says of it, the reports of both ends, and the lengths of the packets that were sent, in
/// their order.
#[derive(Drop)]
pub(crate) struct Course {
    end: Option<End>,
    verdict: Option<Verdict>,
    peer: Option<Report>,
    server: Option<Report>,
    lengths: Octets<32>,
}

impl Course {
    fn new() -> Course {
        Course {
            end: None,
            verdict: None,
            peer: None,
            server: None,
            lengths: Octets::new(),
        }
    }

    /// Takes up the packet that was sent, and gives it on.
    fn send(&mut self, packet: Option<Packet>) -> Option<Packet> {
        let packet = packet?;
        self.lengths.push(packet.len().min(255) as u8);
        Some(packet)
    }

    /// Takes up the report that an end first has.
    fn report(&mut self, party: Party, named: Option<Report>) {
        match (named, party) {
            (None, _) => {}
            (Some(report), Party::Peer) => self.peer = Some(report),
            (Some(report), _) => self.server = Some(report),
        }
    }

    /// Takes up the states in which both ends are at the end.
    fn end(&mut self, peer: State, server: State) {
        let with_keys = match (&self.peer, &self.server) {
            (None, None) => Some(false),
            (Some(one), Some(other)) if are_equal(one, other) => Some(true),
            _ => None,
        };
        self.end = Some(End {
            peer,
            server,
            with_keys,
        });
    }

    /// True if the login ended so, and a world that carried it says this of it.
    pub(crate) fn ends_so(&self, end: End, verdict: Verdict) -> bool {
        self.end == Some(end) && (self.verdict.is_none() || self.verdict == Some(verdict))
    }

    /// True if packets of these lengths were sent.
    pub(crate) fn has_sent(&self, lengths: &[u8]) -> bool {
        self.lengths.as_slice() == lengths
    }
}

/// Whether a packet was sent as the packet of this number was delivered; None if it can't be.
fn deliver<P: PeerMethod, S: ServerMethod>(
    world: &mut World<P, S>,
    number: u32,
    course: &mut Course,
) -> Option<bool> {
    if !world.started() || !world.has_objects() || world.counts().events >= 16 {
        return None;
    }
    let told = world.step(&Event::Deliver { number }).ok()?;
    let packet = course.send(told.sent.map(|sent| sent.packet));
    if let Some(named) = told.named {
        course.report(named.party, Some(named.report));
    }
    Some(packet.is_some())
}

/// Delivers each packet once; None if one can't be, or if the world doesn't count them.
fn deliver_each<P: PeerMethod, S: ServerMethod>(
    world: &mut World<P, S>,
    course: &mut Course,
) -> Option<()> {
    if world.started() || !world.has_objects() {
        return None;
    }
    let start = world.start().ok()?;
    let mut is_sent = course.send(start.sent.map(|sent| sent.packet)).is_some();
    let mut delivered = 0;
    for number in 1..16 {
        if !is_sent {
            break;
        }
        is_sent = deliver(world, number, course)?;
        delivered = number;
    }
    let counts = world.counts();
    if counts.events == delivered && counts.deliveries == delivered {
        Some(())
    } else {
        None
    }
}

/// Takes up what a world says at the end; None if it doesn't run alone or over honest tags.
fn judge<P: PeerMethod, S: ServerMethod>(world: &World<P, S>, course: &mut Course) -> Option<()> {
    let is_alone = world.state(Party::Pass).is_none() && world.mode() == Mode::Alone;
    if !is_alone || world.tags() != TagsVerdict::Honest {
        return None;
    }
    course.end(world.state(Party::Peer)?, world.state(Party::Server)?);
    course.verdict = Some(world.result());
    Some(())
}

/// In one world, in which each packet is delivered once.
fn in_world<P: PeerMethod, S: ServerMethod>(
    alloc: Global,
    setup: Setup,
    methods: Methods<P, S>,
    course: &mut Course,
) -> Option<()> {
    if !World::takes(&setup, &methods) {
        return None;
    }
    let count = methods.peer.len();
    let mut world = World::new(alloc, setup, methods);
    let is_carried = deliver_each(&mut world, course).and(judge(&world, course));
    if world.into_methods().peer.len() == count {
        is_carried
    } else {
        None
    }
}

/// The octets of a packet, as an input of an end.
fn input_of(packet: &Packet) -> EndInput {
    let mut octets = Octets::new();
    octets.append(packet.as_slice());
    EndInput::Octets(octets)
}

/// Carries the packets between both pipes; None if one was discarded.
fn carry_by_pipes<P: PeerMethod, S: ServerMethod>(
    peer: &mut PeerPipe<P>,
    server: &mut ServerPipe<S>,
    course: &mut Course,
) -> Option<()> {
    if server.started() {
        return None;
    }
    let mut request = course.send(server.start().sent)?;
    for _ in 0..8 {
        let told = peer.step(&input_of(&request));
        course.report(Party::Peer, told.named);
        let Some(response) = course.send(told.sent) else {
            break;
        };
        if !server.started() {
            return None;
        }
        let told = server.step(&input_of(&response));
        course.report(Party::Server, told.named);
        request = course.send(told.sent)?;
    }
    course.end(peer.state(), server.state());
    Some(())
}

/// Between the pipes of both ends.
fn between_pipes<P: PeerMethod, S: ServerMethod>(
    setup: Setup,
    methods: Methods<P, S>,
    course: &mut Course,
) -> Option<()> {
    let takes = PeerMachine::takes(&setup.peer, methods.peer.as_slice())
        && ServerMachine::takes(&setup.server, setup.max_retrans, methods.server.as_slice());
    if !takes {
        return None;
    }
    let mut peer = PeerPipe::new(setup.peer, methods.peer);
    let mut server = ServerPipe::new(
        setup.server,
        setup.first_id,
        setup.max_retrans,
        methods.server,
    );
    carry_by_pipes(&mut peer, &mut server, course)
}

/// How a login goes by this way, with these settings and over these objects; None if an end takes them not, or, but in a world, if
/// a packet that it was to answer was discarded.
pub(crate) fn by_way<P: PeerMethod, S: ServerMethod>(
    alloc: Global,
    way: Way,
    setup: Setup,
    methods: Methods<P, S>,
) -> Option<Course> {
    let mut course = Course::new();
    let is_carried = match way {
        Way::World => in_world(alloc, setup, methods, &mut course),
        Way::Pipes => between_pipes(setup, methods, &mut course),
    };
    match is_carried {
        None => None,
        Some(()) => Some(course),
    }
}
