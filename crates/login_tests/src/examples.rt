//! The crates that makers begin with log in: a supplicant whose method counts, an access point, a login server, by datagrams of
//! RADIUS.

ghost use Rattle.std.specs.Prelude.{◌≢◌};
ghost use Rattle.radius_carry.specs.declared.view.RadiusKind.TheVariants as RadiusKind;

use crate::settings::settings_of_scenario;
use crate::ways::{are_equal, no_methods};
use access_point::AccessPoint;
use eap_base::{Octets, Packet, Secret};
use eap_method::{Methods, PeerMethod, ServerMethod};
use eap_packet::State;
use eapol_frame::{EAP_PACKET, EapolFrame, read_frame, write_frame};
use login_server::Session;
use login_setup::Setup;
use own_method::Counted;
use psk_ends::{PskPeer, PskServer};
use radius_carry::{RadiusKind, write_reply};
use std::alloc::{AllocError, Global};
use std::test::Fail;
use supplicant::{Control, Discard, Limits, Supplicant};

/// What the access point brings the station for its Response, by a request to the server and the reply; None if one is discarded.
fn pass_on<S: ServerMethod>(
    point: &mut AccessPoint,
    server: &mut Session<S>,
    secret: &Secret,
    response: &[u8],
    round: u8,
) -> Option<Packet> {
    let request = point.from_station(response, [round; 16])?;
    let reply = server.answer(secret, request.as_slice())?;
    point.from_server(reply.as_slice())
}

/// True if the station logs in and both ends have the same keys, and what a stranger sends behind it is discarded; None if
/// something was discarded before.
fn carry<P: PeerMethod, S: ServerMethod>(
    station: &mut Supplicant<P>,
    server: &mut Session<S>,
) -> Option<bool> {
    let secret = Octets::from_slice(b"a secret of both")?;
    let mut point = AccessPoint::new(secret.copy());
    let mut packet = point.begin()?;
    let mut frame = EapolFrame::new();
    let starts = station.link_up_step(&mut frame).sends
        & (frame.as_slice() == b"\x02\x01\x00\x00".as_slice());
    for round in 0..5 {
        let mut from_point = EapolFrame::new();
        write_frame(&mut from_point, EAP_PACKET, packet.as_slice());
        let step = station.frame_step(from_point.as_slice(), &[3; 32], &mut frame);
        if !step.sends {
            let is_open = station.authorized() & (point.pass.state() == State::Success2);
            let are_alike = are_equal(&station.report()?, &server.report()?);
            let stranger = station.frame_step(
                b"\x02\x00\x00\x04\x03\x00\x00\x04",
                &[3; 32],
                &mut frame,
            );
            let is_discarded = stranger.cause == Some(Discard::NotRequest);
            return Some(starts & is_open & are_alike & is_discarded);
        }
        let response = read_frame(frame.as_slice()).ok()?.body;
        packet = pass_on(&mut point, server, &secret, response, round)?;
    }
    Some(false)
}

/// The same of ends with these settings and objects; None if one doesn't take them.
fn logs_in<P: PeerMethod, S: ServerMethod>(setup: Setup, methods: Methods<P, S>) -> Option<bool> {
    let limits = Limits {
        start_period: 30,
        max_start: 3,
        auth_period: 30,
        held_period: 60,
        port_valid: false,
    };
    let mut station = Supplicant::new(setup.peer, methods.peer, limits, Control::Auto)?;
    let mut server = Session::new(setup.server, methods.server, Octets::from_slice(b"1")?)?;
    carry(&mut station, &mut server)
}

/// Which state an access point comes to by a good reply of this kind, which carries a Success; None if it discards the reply.
fn state_after(kind: RadiusKind) -> Option<State>
    requires { kind ≢ RadiusKind.Request }
{
    let secret: Secret = Octets::from_slice(b"a secret of both")?;
    let mut point = AccessPoint::new(secret.copy());
    point.begin()?;
    point.from_station(b"\x02\x00\x00\x06\x01a", [7; 16])?;
    let reply = write_reply(
        secret.as_slice(),
        kind,
        point.id,
        &[7; 16],
        b"1",
        b"\x03\x07\x00\x04",
    );
    point.from_server(reply.as_slice())?;
    Some(point.pass.state())
}

/// Whether an access point that has had a Challenge asks a station from the start again, and its server without State.
fn asks_again() -> Option<bool> {
    let secret: Secret = Octets::from_slice(b"a secret of both")?;
    let mut point = AccessPoint::new(secret.copy());
    let first = point.begin()?;
    point.from_station(b"\x02\x00\x00\x06\x01a", [7; 16])?;
    let asks = b"\x01\x01\x00\x05\x04";
    let reply = write_reply(
        secret.as_slice(),
        RadiusKind::Challenge,
        point.id,
        &[7; 16],
        b"1",
        asks,
    );
    point.from_server(reply.as_slice())?;
    let again = point.restart();
    Some((again == first) & point.state.is_empty() & (point.pass.state() == State::Idle))
}

/// A peer's method that counts.
fn counted<M: PeerMethod>(method: M) -> Counted<M> {
    Counted {
        method,
        discards: 0,
    }
}

/// Adds a box of EAP-PSK at both ends, of which the peer's counts.
fn add_boxes(alloc: Global, methods: &mut Methods) -> Result<(), AllocError> {
    let psk: Box<dyn PeerMethod> = Box::new(alloc, counted(PskPeer::new()))?;
    methods.peer.push(psk)?;
    let psk: Box<dyn ServerMethod> = Box::new(alloc, PskServer::new())?;
    methods.server.push(psk)?;
    Ok(())
}

#[test]
fn examples_log_in(rt: HostRuntime) -> Result<(), Fail> {
    let mut methods = no_methods(rt.alloc());
    add_boxes(rt.alloc(), &mut methods)?;
    let Some(setup) = settings_of_scenario() else {
        panic!(rt; "no settings");
    };
    assert!(rt; logs_in(setup, methods) == Some(true));
    Ok(())
}

#[test]
fn the_code_decides(rt: HostRuntime) {
    assert!(rt; state_after(RadiusKind::Accept) == Some(State::Success2));
    assert!(rt; state_after(RadiusKind::Reject) == None);
    assert!(rt; state_after(RadiusKind::Challenge) == None);
}

#[test]
fn an_access_point_asks_again(rt: HostRuntime) {
    assert!(rt; asks_again() == Some(true));
}
