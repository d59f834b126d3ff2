//! A server with three sessions open at once, of users of two keys. The tags that all ends hand out decide what `any_ends_match` and
//! `any_server_matches` ask of them.

use crate::settings::settings_of_scenario;
use crate::ways::{are_equal, no_methods};
use eap_base::{Nonce, Octets, Packet, Setup, User};
use eap_method::{Methods, TagList, TagRecord};
use eap_packet::State;
use own_proof::{first_unmade, two_match};
use peer_machine::PeerMachine;
use psk_ends::{PskPeer, PskServer};
use server_machine::ServerMachine;
use std::alloc::{AllocError, Global};
use std::test::Fail;

/// The keys of alice and of bob.
const ALICE: [u8; 16] = [0, 1, 2, 3, 4, 5, 6, 7, 8, 9, 10, 11, 12, 13, 14, 15];

const BOB: [u8; 16] = [9; 16];

/// Who logs in at each session: the name, the key, the other user's key, and the octet of both nonces.
const USERS: [(&[u8], [u8; 16], [u8; 16], u8); 3] = [
    (b"alice", ALICE, BOB, 1),
    (b"alice", ALICE, BOB, 2),
    (b"bob", BOB, ALICE, 3),
];

/// The tags that an end accepted and made.
#[derive(Drop)]
struct Handed {
    accepted: Vec<TagRecord>,
    made: Vec<TagRecord>,
}

/// A peer and its session of the server, the packets that each sent last, and the tags of both.
#[derive(Drop)]
struct Login {
    peer: PeerMachine<PskPeer>,
    server: ServerMachine<PskServer>,
    request: Packet,
    response: Packet,
    at_peer: Handed,
    at_server: Handed,
}

/// The lists of three ends, in the order of the sessions.
type Three = [Vec<TagRecord>; 3];

/// A nonce of this octet alone.
fn set_nonce(nonce: &mut Nonce, octet: u8) {
    *nonce = [octet; 32];
}

/// The settings of a peer and of a session, with these nonces.
fn settings(name: &[u8], key: &[u8], nonce: u8) -> Option<Setup> {
    let mut setup = settings_of_scenario()?;
    setup.peer.name = Octets::from_slice(name)?;
    setup.peer.psk47 = Octets::from_slice(key);
    set_nonce(&mut setup.peer.nonce, nonce);
    set_nonce(&mut setup.server.nonce, nonce | 128);
    let bob = User {
        name: Octets::from_slice(b"bob")?,
        kind: 47,
        psk: Octets::from_slice(&BOB)?,
        barred: false,
    };
    if setup.server.users.add(bob) {
        Some(setup)
    } else {
        None
    }
}

/// No tags.
fn none_handed(alloc: Global) -> Handed {
    Handed {
        accepted: Vec::new(alloc),
        made: Vec::new(alloc),
    }
}

/// Takes up the tags of a turn.
fn take_up(list: &mut Vec<TagRecord>, tags: &TagList) -> Result<(), AllocError> {
    for tag in tags.as_slice() {
        list.push(tag.copy())?;
    }
    Ok(())
}

/// The machines of both ends; None if one doesn't take these.
fn machines_of(
    setup: Setup,
    methods: Methods<PskPeer, PskServer>,
) -> Option<(PeerMachine<PskPeer>, ServerMachine<PskServer>)> {
    let takes = PeerMachine::takes(&setup.peer, methods.peer.as_slice())
        && ServerMachine::takes(&setup.server, setup.max_retrans, methods.server.as_slice());
    if !takes {
        return None;
    }
    let server = ServerMachine::new(
        setup.server,
        setup.first_id,
        setup.max_retrans,
        methods.server,
    );
    Some((PeerMachine::new(setup.peer, methods.peer), server))
}

/// A login whose server has sent its Identity Request; None if an end doesn't take the settings.
fn begin(alloc: Global, setup: Setup) -> Result<Option<Login>, AllocError> {
    let mut methods = no_methods(alloc);
    methods.peer.push(PskPeer::new())?;
    methods.server.push(PskServer::new())?;
    let Some((peer, mut server)) = machines_of(setup, methods) else {
        return Ok(None);
    };
    if server.started() || server.is_backend() {
        return Ok(None);
    }
    let Some(request) = server.start().sent else {
        return Ok(None);
    };
    Ok(Some(Login {
        peer,
        server,
        request,
        response: Packet::new(),
        at_peer: none_handed(alloc),
        at_server: none_handed(alloc),
    }))
}

impl Login {
    /// The peer receives what the server sent last.
    fn answer(&mut self) -> Result<(), AllocError> {
        let step = self.peer.deliver(self.request.as_slice());
        take_up(&mut self.at_peer.accepted, &step.tags.accepted)?;
        take_up(&mut self.at_peer.made, &step.tags.made)?;
        self.response = step.sent.unwrap_or(Packet::new());
        Ok(())
    }

    /// The server receives what the peer sent last, if that sent anything.
    fn ask(&mut self) -> Result<(), AllocError> {
        if self.response.is_empty() || !self.server.ready() {
            return Ok(());
        }
        let step = self.server.deliver(self.response.as_slice());
        take_up(&mut self.at_server.accepted, &step.tags.accepted)?;
        take_up(&mut self.at_server.made, &step.tags.made)?;
        self.request = step.sent.unwrap_or(Packet::new());
        Ok(())
    }

    /// True if both are in SUCCESS with the same keys.
    fn has_succeeded(&self) -> bool {
        let are_alike = match (self.peer.report(), self.server.report()) {
            (Some(one), Some(other)) => are_equal(&one, &other),
            _ => false,
        };
        are_alike && self.peer.state() == State::Success && self.server.state() == State::Success
    }
}

/// The three logins, whose packets came in turn: of each all the peers' first, then all the server's.
fn logins(alloc: Global) -> Result<Vec<Login>, AllocError> {
    let mut logins = Vec::new(alloc);
    for (name, key, _, nonce) in USERS {
        if let Some(setup) = settings(name, &key, nonce) {
            if let Some(login) = begin(alloc, setup)? {
                logins.push(login)?;
            }
        }
    }
    for _ in 0..4 {
        for login in logins.iter_mut() {
            login.answer()?;
        }
        for login in logins.iter_mut() {
            login.ask()?;
        }
    }
    Ok(logins)
}

/// Of each of three ends the place of the first tag under this key that it accepted and that is in none of these lists.
fn unmade(key: &[u8], accepted: &Three, made: &Three) -> [Option<usize>; 3] {
    let made = [made[0].as_slice(), made[1].as_slice(), made[2].as_slice()];
    [
        first_unmade(key, accepted[0].as_slice(), &made),
        first_unmade(key, accepted[1].as_slice(), &made),
        first_unmade(key, accepted[2].as_slice(), &made),
    ]
}

/// Whether the two sessions of alice accepted no tags under her key but these.
fn match_those(accepted: &Three, made: &Three) -> bool {
    let made = [made[0].as_slice(), made[1].as_slice(), made[2].as_slice()];
    two_match(
        &ALICE,
        accepted[0].as_slice(),
        accepted[1].as_slice(),
        &made,
    )
}

/// A copy of these tags, of which the one at this place has another octet in its tag, and of one more.
fn copied(
    alloc: Global,
    tags: &[TagRecord],
    altered: Option<usize>,
    more: &[TagRecord],
) -> Result<Vec<TagRecord>, AllocError> {
    let mut copy = Vec::new(alloc);
    for (at, tag) in tags.iter().enumerate() {
        let mut tag = tag.copy();
        if altered == Some(at) {
            let last = tag.tag.as_slice().last().copied().unwrap_or(0);
            tag.tag.truncate(15);
            tag.tag.push(last ^ 1);
        }
        copy.push(tag)?;
    }
    for tag in more {
        copy.push(tag.copy())?;
    }
    Ok(copy)
}

/// Copies of three lists; that of the end at this place is altered so, or has one tag more.
fn three(
    alloc: Global,
    lists: [&[TagRecord]; 3],
    place: usize,
    altered: Option<usize>,
    more: &[TagRecord],
) -> Result<Three, AllocError> {
    let first = copied(
        alloc,
        lists[0],
        at_place(place == 0, altered),
        if_place(place == 0, more),
    )?;
    let second = copied(
        alloc,
        lists[1],
        at_place(place == 1, altered),
        if_place(place == 1, more),
    )?;
    let third = copied(
        alloc,
        lists[2],
        at_place(place == 2, altered),
        if_place(place == 2, more),
    )?;
    Ok([first, second, third])
}

fn at_place(is_here: bool, altered: Option<usize>) -> Option<usize> {
    if is_here { altered } else { None }
}

fn if_place(is_here: bool, more: &[TagRecord]) -> &[TagRecord] {
    if is_here { more } else { &more[..0] }
}

/// The same of lists that are owned.
fn changed(
    alloc: Global,
    lists: &Three,
    place: usize,
    altered: Option<usize>,
    more: &[TagRecord],
) -> Result<Three, AllocError> {
    let lists = [
        lists[0].as_slice(),
        lists[1].as_slice(),
        lists[2].as_slice(),
    ];
    three(alloc, lists, place, altered, more)
}

/// Only the end at this place accepted an unmade tag, and that at this place of its list.
fn only(place: usize, tag: usize) -> [Option<usize>; 3] {
    let mut found = [None; 3];
    if place < 3 {
        found[place] = Some(tag);
    }
    found
}

/// True if each end at its place accepted just two tags, all of which these made, and if one that is altered, or that an end of the
/// same role made, is found at the one end that accepted it, and not under the other user's key.
fn are_told(
    alloc: Global,
    accepted: &Three,
    made: &Three,
    own: &Three,
) -> Result<bool, AllocError> {
    let mut are_told = true;
    for place in 0..3 {
        let (_, key, other, _) = USERS[place];
        are_told &= accepted[place].len() == 2 && unmade(&key, accepted, made) == [None; 3];
        for tag in 0..2 {
            let lists = changed(alloc, made, place, Some(tag), &[])?;
            are_told &= unmade(&key, accepted, &lists) == only(place, tag);
            are_told &= unmade(&other, accepted, &lists) == [None; 3];
        }
        let lists = changed(alloc, accepted, place, None, own[place].as_slice())?;
        are_told &= unmade(&key, &lists, made) == only(place, 2);
        are_told &= unmade(&other, &lists, made) == [None; 3];
    }
    Ok(are_told)
}

/// True if the two sessions of alice are judged so by the one call, in which nothing of bob's counts.
fn are_judged(alloc: Global, accepted: &Three, made: &Three) -> Result<bool, AllocError> {
    let mut are_judged = match_those(accepted, made);
    for place in 0..3 {
        let lists = changed(alloc, made, place, Some(0), &[])?;
        are_judged &= match_those(accepted, &lists) == (place == 2);
    }
    Ok(are_judged)
}

#[test]
fn three_sessions_are_open(rt: HostRuntime) -> Result<(), Fail> {
    let alloc = rt.alloc();
    let logins = logins(alloc)?;
    let [one, two, last] = logins.as_slice() else {
        panic!(rt; "no logins");
    };
    assert!(rt; one.has_succeeded() && two.has_succeeded() && last.has_succeeded());
    let lists = [
        one.at_peer.made.as_slice(),
        two.at_peer.made.as_slice(),
        last.at_peer.made.as_slice(),
    ];
    let peers = three(alloc, lists, 0, None, &[])?;
    let lists = [
        one.at_peer.accepted.as_slice(),
        two.at_peer.accepted.as_slice(),
        last.at_peer.accepted.as_slice(),
    ];
    let at_peers = three(alloc, lists, 0, None, &[])?;
    let lists = [
        one.at_server.made.as_slice(),
        two.at_server.made.as_slice(),
        last.at_server.made.as_slice(),
    ];
    let servers = three(alloc, lists, 0, None, &[])?;
    let lists = [
        one.at_server.accepted.as_slice(),
        two.at_server.accepted.as_slice(),
        last.at_server.accepted.as_slice(),
    ];
    let at_servers = three(alloc, lists, 0, None, &[])?;
    assert!(rt; are_told(alloc, &at_servers, &peers, &servers)?, "servers");
    assert!(rt; are_told(alloc, &at_peers, &servers, &peers)?, "peers");
    assert!(rt;
        are_judged(alloc, &at_servers, &peers)?,
        "both sessions of alice"
    );
    Ok(())
}
