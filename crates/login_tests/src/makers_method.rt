//! A maker's own method logs in like the others: EAP MD5-Challenge, which has no calls but those that a method must have, by its
//! own objects, and in boxes beside those of EAP-PSK. They go by every one of the `ways`.

use crate::settings::{settings_of_ends, settings_of_scenario};
use crate::ways::{WAYS, Way, both_in, by_way, no_methods};
use eap_base::{Octets, Setup};
use eap_method::{Methods, Outcome, PeerMethod, ServerMethod};
use eap_packet::{Cause, State};
use eap_world::Verdict;
use maker::{Md5Peer, Md5Server, receive_request, receive_response, response_value, value_of};
use peer_machine::PeerMachine;
use psk_ends::{PskPeer, PskServer};
use server_machine::ServerMachine;
use std::alloc::{AllocError, Global};
use std::test::Fail;

/// The secret of both ends, another one, and none.
const SECRET: &[u8] = b"a secret of both";

const OTHER: &[u8] = b"a secret of none";

const NO_SECRET: &[u8] = b"";

/// The Challenge of the server whose nonce is 32 octets 0x22, with Identifier 2, and the Response to it under the secret. Its Value is
/// what `printf '\x02a secret of both""""""""""""""""' | openssl md5` prints.
const CHALLENGE: &[u8] = b"\x01\x02\x00\x16\x04\x10\"\"\"\"\"\"\"\"\"\"\"\"\"\"\"\"";

const RESPONSE: &[u8] =
    b"\x02\x02\x00\x16\x04\x10\x72\x76\x36\x1b\x53\x35\x77\xac\x3c\x4e\x7e\x53\xfc\x7f\xe0\xa6";

/// The settings of two ends that allow and propose these Types; between pipes, each end has the settings of its own text.
pub(crate) fn settings(way: Way, allowed: &[u8], order: &[u8]) -> Option<Setup> {
    let mut setup = if way == Way::Pipes {
        settings_of_ends()?
    } else {
        settings_of_scenario()?
    };
    setup.first_id = 1;
    setup.peer.methods = Octets::from_slice(allowed)?;
    setup.server.methods = Octets::from_slice(order)?;
    Some(setup)
}

/// The objects of both ends, with these secrets.
fn md5_methods(
    alloc: Global,
    peer: &[u8],
    server: &[u8],
) -> Result<Methods<Md5Peer, Md5Server>, AllocError> {
    let mut methods = no_methods(alloc);
    let peer = Octets::from_slice(peer).unwrap_or(Octets::new());
    let server = Octets::from_slice(server).unwrap_or(Octets::new());
    methods.peer.push(Md5Peer::new(peer))?;
    methods.server.push(Md5Server::new(server))?;
    Ok(methods)
}

/// Adds boxes of MD5-Challenge and of EAP-PSK at both ends.
fn add_boxes(alloc: Global, methods: &mut Methods) -> Result<(), AllocError> {
    let secret = Octets::from_slice(SECRET).unwrap_or(Octets::new());
    let md5: Box<dyn PeerMethod> = Box::new(alloc, Md5Peer::new(secret.copy()))?;
    methods.peer.push(md5)?;
    let psk: Box<dyn PeerMethod> = Box::new(alloc, PskPeer::new())?;
    methods.peer.push(psk)?;
    let psk: Box<dyn ServerMethod> = Box::new(alloc, PskServer::new())?;
    methods.server.push(psk)?;
    let md5: Box<dyn ServerMethod> = Box::new(alloc, Md5Server::new(secret))?;
    methods.server.push(md5)?;
    Ok(())
}

/// True if a login with these secrets ends so by this way: both ends in this state, without keys, of which a world says this.
fn ends_so(
    alloc: Global,
    way: Way,
    secrets: (&[u8], &[u8]),
    state: State,
    verdict: Verdict,
) -> Result<bool, AllocError> {
    let methods = md5_methods(alloc, secrets.0, secrets.1)?;
    let Some(setup) = settings(way, &[4], &[4]) else {
        return Ok(false);
    };
    Ok(match by_way(alloc, way, setup, methods) {
        None => false,
        Some(course) => course.ends_so(both_in(state, false), verdict),
    })
}

// A method without keys has no report, so a world can't say that both have the same.
#[test]
fn a_makers_method_logs_in(rt: HostRuntime) -> Result<(), Fail> {
    let alloc = rt.alloc();
    for way in WAYS {
        let both = ends_so(alloc, way, (SECRET, SECRET), State::Success, Verdict::Apart)?;
        let none = ends_so(
            alloc,
            way,
            (NO_SECRET, NO_SECRET),
            State::Success,
            Verdict::Apart,
        )?;
        let other = ends_so(
            alloc,
            way,
            (OTHER, SECRET),
            State::Failure,
            Verdict::Unfinished,
        )?;
        assert!(rt; both && none && other, "{way:?} {both} {none} {other}");
    }
    Ok(())
}

/// A choice of methods: what the peer allows, the server's order, the lengths of the packets that are sent, and the end, with keys or
/// without, of which a world says this.
#[derive(Clone, Copy)]
struct Choice {
    allowed: &'static [u8],
    order: &'static [u8],
    lengths: &'static [u8],
    state: State,
    with_keys: bool,
    verdict: Verdict,
}

/// By MD5-Challenge, which gives no keys, or by EAP-PSK: at once, or after a Nak; and by none.
const CHOICES: [Choice; 6] = [
    Choice {
        allowed: &[47, 4],
        order: &[4, 47],
        lengths: &[5, 10, 22, 22, 4],
        state: State::Success,
        with_keys: false,
        verdict: Verdict::Apart,
    },
    Choice {
        allowed: &[47, 4],
        order: &[47, 4],
        lengths: &[5, 10, 25, 59, 59, 43, 4],
        state: State::Success,
        with_keys: true,
        verdict: Verdict::Agree,
    },
    Choice {
        allowed: &[47],
        order: &[4, 47],
        lengths: &[5, 10, 22, 6, 25, 59, 59, 43, 4],
        state: State::Success,
        with_keys: true,
        verdict: Verdict::Agree,
    },
    Choice {
        allowed: &[4],
        order: &[47, 4],
        lengths: &[5, 10, 25, 6, 22, 22, 4],
        state: State::Success,
        with_keys: false,
        verdict: Verdict::Apart,
    },
    Choice {
        allowed: &[4],
        order: &[47],
        lengths: &[5, 10, 25, 6, 4],
        state: State::Failure,
        with_keys: false,
        verdict: Verdict::Unfinished,
    },
    Choice {
        allowed: &[47],
        order: &[4],
        lengths: &[5, 10, 22, 6, 4],
        state: State::Failure,
        with_keys: false,
        verdict: Verdict::Unfinished,
    },
];

/// True if a login over boxes of both methods ends so by this way.
fn chooses_so(alloc: Global, way: Way, choice: Choice) -> Result<bool, AllocError> {
    let mut methods = no_methods(alloc);
    add_boxes(alloc, &mut methods)?;
    let Some(setup) = settings(way, choice.allowed, choice.order) else {
        return Ok(false);
    };
    Ok(match by_way(alloc, way, setup, methods) {
        None => false,
        Some(course) => {
            course.ends_so(both_in(choice.state, choice.with_keys), choice.verdict)
                && course.has_sent(choice.lengths)
        }
    })
}

// The first of the server's order that the peer allows is taken (RFC 3748 section 5.3.1).
#[test]
fn a_makers_method_is_refused_and_desired(rt: HostRuntime) -> Result<(), Fail> {
    for choice in CHOICES {
        for way in WAYS {
            assert!(rt;
                chooses_so(rt.alloc(), way, choice)?,
                "{way:?} {:?}",
                choice.order
            );
        }
    }
    Ok(())
}

/// True if the peer discards the Request as one that its method doesn't await, and selects nothing.
fn peer_discards(peer: &mut PeerMachine<Md5Peer>, request: &[u8]) -> bool {
    let step = receive_request(peer, request);
    step.cause == Some(Cause::WrongOp) && step.sent.is_none() && peer.selected().is_none()
}

/// True if the peer discards Requests whose Type-Data has no Value: none, Value-Size 0, and less than Value-Size says.
fn peer_discards_each(peer: &mut PeerMachine<Md5Peer>) -> bool {
    let none = peer_discards(peer, b"\x01\x02\x00\x05\x04");
    let zero = peer_discards(peer, b"\x01\x02\x00\x07\x04\x00\x09");
    let short = peer_discards(peer, b"\x01\x02\x00\x08\x04\x03\x09\x09");
    none && zero && short
}

/// True if the peer, which is over, refuses a packet.
fn refuses(peer: &mut PeerMachine<Md5Peer>) -> bool {
    match peer.deliver(b"\x03\x02\x00\x04").outcome(peer.report()) {
        Outcome::Discarded(cause) => cause == Cause::Ended,
        _ => false,
    }
}

/// True if the peer discards what is malformed and stays as it was, then answers the Challenge, to which a Name may be added, and no
/// other one; None if something else was discarded.
fn peer_takes_one(
    peer: &mut PeerMachine<Md5Peer>,
    challenge: &[u8],
    response: &[u8],
) -> Option<bool> {
    peer.deliver(b"\x01\x01\x00\x05\x01").sent?;
    if !peer_discards_each(peer) {
        return Some(false);
    }
    let sent = receive_request(peer, challenge).sent?;
    let again = receive_request(peer, b"\x01\x03\x00\x07\x04\x01\x09");
    let is_over = (again.cause == Some(Cause::MethodDone)) & again.sent.is_none();
    let end = receive_request(peer, b"\x03\x02\x00\x04");
    let has_ended = end.cause.is_none() && peer.ended() && refuses(peer);
    Some(sent.as_slice() == response && is_over && has_ended)
}

/// True if the server is ready, and discards the Response as one that its method doesn't await.
fn server_discards(server: &mut ServerMachine<Md5Server>, response: &[u8]) -> bool {
    if !server.ready() {
        return false;
    }
    let step = receive_response(server, response);
    step.cause == Some(Cause::WrongOp) && step.sent.is_none()
}

/// The same of a server and Responses.
fn server_discards_each(server: &mut ServerMachine<Md5Server>) -> bool {
    let none = server_discards(server, b"\x02\x02\x00\x05\x04");
    let zero = server_discards(server, b"\x02\x02\x00\x07\x04\x00\x09");
    let short = server_discards(server, b"\x02\x02\x00\x08\x04\x03\x09\x09");
    none && zero && short
}

/// True if the server discards what is malformed and stays as it was, then takes the Response; None if something else was discarded.
fn server_takes_one(server: &mut ServerMachine<Md5Server>) -> Option<bool> {
    if server.started() || server.is_backend() {
        return None;
    }
    server.start();
    if !server.ready() {
        return None;
    }
    let sent = receive_response(server, b"\x02\x01\x00\x06\x01a").sent?;
    if sent.as_slice() != CHALLENGE {
        return Some(false);
    }
    if !server_discards_each(server) || !server.ready() {
        return Some(false);
    }
    let success = receive_response(server, RESPONSE).sent?;
    let has_ended = server.state() == State::Success && !server.wants_timer();
    Some(success.as_slice() == b"\x03\x02\x00\x04".as_slice() && has_ended)
}

// The ends of both machines send what was computed outside, and what is malformed changes nothing.
#[test]
fn malformed_packets_change_nothing(rt: HostRuntime) -> Result<(), Fail> {
    let Some(setup) = settings(Way::World, &[4], &[4]) else {
        panic!(rt; "no settings");
    };
    let named = b"\x01\x02\x00\x19\x04\x10\"\"\"\"\"\"\"\"\"\"\"\"\"\"\"\"srv";
    for challenge in [CHALLENGE, named] {
        let methods = md5_methods(rt.alloc(), SECRET, SECRET)?;
        assert!(rt; PeerMachine::takes(&setup.peer, methods.peer.as_slice()));
        let mut peer = PeerMachine::new(setup.peer.copy(), methods.peer);
        assert!(rt; peer_takes_one(&mut peer, challenge, RESPONSE) == Some(true));
    }
    let methods = md5_methods(rt.alloc(), SECRET, SECRET)?;
    assert!(rt; ServerMachine::takes(&setup.server, 3, methods.server.as_slice()));
    let mut server = ServerMachine::new(setup.server, 1, 3, methods.server);
    assert!(rt; server_takes_one(&mut server) == Some(true));
    Ok(())
}

/// True if the Value of a Response is this, of an Identifier, a secret and a Challenge that are a message of RFC 1321 appendix A.5.
fn is_value(id: u8, secret: &[u8], challenge: &[u8], value: &[u8; 16]) -> bool {
    match Octets::from_slice(secret) {
        None => false,
        Some(secret) => response_value(&secret, id, challenge) == *value,
    }
}

// The messages "abc" and "message digest" of RFC 1321 appendix A.5, parted in three.
#[test]
fn values_are_those_of_md5(rt: HostRuntime) -> Result<(), Fail> {
    let abc = b"\x90\x01\x50\x98\x3c\xd2\x4f\xb0\xd6\x96\x3f\x7d\x28\xe1\x7f\x72";
    let digest = b"\xf9\x6b\x69\x7d\x7c\xb7\x93\x8d\x52\x5a\x2f\x31\xaa\xf1\x61\xd0";
    assert!(rt; is_value(b'a', b"b", b"c", abc));
    assert!(rt; is_value(b'm', b"essage ", b"digest", digest));
    assert!(rt; value_of(b"\x02abc") == Some(b"ab") && value_of(b"\x02a").is_none());
    Ok(())
}
