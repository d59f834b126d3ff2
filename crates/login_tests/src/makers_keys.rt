//! A maker's own method that derives keys logs in like the others: EAP-PAX, by every one of the `ways`.

use crate::makers_method::settings;
use crate::ways::{Course, WAYS, Way, both_in, by_way, no_methods};
use eap_base::{Octets, Setup};
use eap_method::Methods;
use eap_packet::State;
use eap_world::Verdict;
use login_setup::User;
use pax_method::{PAX_KIND, PaxPeer, PaxServer};
use peer_machine::PeerMachine;
use std::alloc::{AllocError, Global};
use std::test::Fail;

/// AK of both ends, and another one.
const AK: [u8; 16] = [0, 1, 2, 3, 4, 5, 6, 7, 8, 9, 10, 11, 12, 13, 14, 15];

const OTHER: [u8; 16] = [9; 16];

/// PAX_STD-1 of the server whose nonce is 32 octets 0x22, with Identifier 2, PAX_STD-2 of the peer alice whose nonce is 32 octets
/// 0x11, PAX_STD-3, PAX-ACK and MSK under AK, as Python's hmac and hashlib compute them by RFC 4746 sections 2.1 to 2.6.
const STD_1: &[u8] =
    b"\x01\x02\x00\x3c\x2e\x01\x00\x02\x00\x00\x00\x20\x22\x22\x22\x22\x22\x22\x22\x22\x22\x22\x22\x22\
    \x22\x22\x22\x22\x22\x22\x22\x22\x22\x22\x22\x22\x22\x22\x22\x22\x22\x22\x22\x22\xba\x28\xa3\xe8\
    \x14\x07\xe8\xb2\x83\xb3\x0f\xf5\x13\x24\x20\xbf";

const STD_2: &[u8] =
    b"\x02\x02\x00\x55\x2e\x02\x00\x02\x00\x00\x00\x20\x11\x11\x11\x11\x11\x11\x11\x11\x11\x11\x11\x11\
    \x11\x11\x11\x11\x11\x11\x11\x11\x11\x11\x11\x11\x11\x11\x11\x11\x11\x11\x11\x11\x00\x05\x61\x6c\
    \x69\x63\x65\x00\x10\x75\x33\x44\x42\x23\x08\x42\xf6\x54\x97\x8d\x89\x42\x36\x85\x97\x16\xef\xec\
    \x43\x75\x4b\xda\x33\x6e\x05\x44\xbf\xbf\x8c\xe3\x9b";

const STD_3: &[u8] =
    b"\x01\x03\x00\x2c\x2e\x03\x00\x02\x00\x00\x00\x10\xc2\xb9\x1c\x78\x10\x8f\x40\xe3\xed\x00\xbb\x3d\
    \x18\x43\x24\x93\x1c\xb8\x6b\x83\xe5\x9f\x57\x34\xb2\x66\x8f\x2d\xf8\xaf\xb2\x24";

const ACK: &[u8] =
    b"\x02\x03\x00\x1a\x2e\x21\x00\x02\x00\x00\xd2\x1d\x3a\x29\x13\xe8\x80\x5c\xb0\xba\x96\xc9\xaf\x2f\
    \x5d\xa8";

const MSK: &[u8] =
    b"\xf4\x3a\x6e\xb5\x9e\xee\x4b\x10\x6b\xe9\x61\x0a\x8a\x5c\x0e\x52\xb4\x3e\xd3\x76\x13\x4d\x1a\x48\
    \x70\xc7\x95\x4f\x12\x4b\x31\x6e\x1e\x09\xa0\xf1\xb6\x69\xa5\x19\xfb\x07\x0e\x47\x83\xdb\x6e\xfe\
    \xfd\x9b\x7c\x7b\xee\x00\x71\x0a\xe8\x0c\x7b\x68\x08\xe4\x93\x9d";

/// Settings of two ends that allow and propose EAP-PAX alone, with the user alice.
fn pax_settings(way: Way) -> Option<Setup> {
    let mut setup = settings(way, &[PAX_KIND], &[PAX_KIND])?;
    let user = User {
        name: Octets::from_slice(b"alice")?,
        kind: PAX_KIND,
        psk: Octets::new(),
        barred: false,
    };
    if setup.server.users.add(user) {
        Some(setup)
    } else {
        None
    }
}

/// The objects of both ends, with these keys.
fn pax_methods(
    alloc: Global,
    peer: [u8; 16],
    server: [u8; 16],
) -> Result<Methods<PaxPeer, PaxServer>, AllocError> {
    let mut methods = no_methods(alloc);
    let name = Octets::from_slice(b"srv").unwrap_or(Octets::new());
    methods.peer.push(PaxPeer::new(peer, name.copy()))?;
    methods.server.push(PaxServer::new(server, name))?;
    Ok(methods)
}

/// How a login with these keys goes by this way.
fn course_of(
    alloc: Global,
    way: Way,
    peer: [u8; 16],
    server: [u8; 16],
) -> Result<Option<Course>, AllocError> {
    let methods = pax_methods(alloc, peer, server)?;
    let Some(setup) = pax_settings(way) else {
        return Ok(None);
    };
    Ok(by_way(alloc, way, setup, methods))
}

// Under another AK the server discards PAX_STD-2, and nothing more is sent: of the ways a world alone has an end.
#[test]
fn a_makers_method_with_keys_logs_in(rt: HostRuntime) -> Result<(), Fail> {
    for way in WAYS {
        let is_alike = match course_of(rt.alloc(), way, AK, AK)? {
            None => false,
            Some(course) => course.ends_so(both_in(State::Success, true), Verdict::Agree),
        };
        let waits = match course_of(rt.alloc(), way, OTHER, AK)? {
            None => way != Way::World,
            Some(course) => course.ends_so(both_in(State::Idle, false), Verdict::Unfinished),
        };
        assert!(rt; is_alike && waits, "{way:?} {is_alike} {waits}");
    }
    Ok(())
}

/// True if the peer answers PAX_STD-1 and PAX_STD-3 by these packets, and reports this MSK; None if something was discarded.
fn answers_so(peer: &mut PeerMachine<PaxPeer>) -> Option<bool> {
    peer.deliver(b"\x01\x01\x00\x05\x01").sent?;
    let std_2 = peer.deliver(STD_1).sent?;
    let ack = peer.deliver(STD_3).sent?;
    let report = peer.report()?;
    Some(std_2.as_slice() == STD_2 && ack.as_slice() == ACK && report.msk.as_slice() == MSK)
}

#[test]
fn packets_and_keys_are_those_computed_outside(rt: HostRuntime) -> Result<(), Fail> {
    let Some(setup) = pax_settings(Way::World) else {
        panic!(rt; "no settings");
    };
    let methods = pax_methods(rt.alloc(), AK, AK)?;
    assert!(rt; PeerMachine::takes(&setup.peer, methods.peer.as_slice()));
    let mut peer = PeerMachine::new(setup.peer, methods.peer);
    assert!(rt; answers_so(&mut peer) == Some(true));
    Ok(())
}
