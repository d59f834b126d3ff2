//! Lists of octets, and copies of settings.

use login_setup::{Accepts, Later, Mode, PeerSetup, ServerSetup, Setup, Users};
use octet_lists::Octets;

/// Whether a list of two octets, which has room for four, answers each call so and has the octets that fit.
fn takes_what_fits() -> bool {
    let mut list: Octets<4> = Octets::of(b"ab");
    let is_pushed = list.push(b'c');
    let is_refused = !list.append(b"de");
    let is_kept = list.as_slice() == b"abc".as_slice();
    let is_appended = list.append(b"d");
    let is_full = !list.push(b'e');
    let copied = list.copy();
    list.truncate(1);
    let is_cut = list.as_slice() == b"a".as_slice();
    list.set(b"abcd");
    let is_set = list.as_slice() == copied.as_slice();
    list.clear();
    let is_cleared = list.is_empty();
    is_pushed & is_refused & is_kept & is_appended & is_full & is_cut & is_set & is_cleared
}

/// Whether a list is made of octets that fit, and of no others.
fn is_made_of_what_fits() -> bool {
    let made: Option<Octets<4>> = Octets::from_slice(b"ab");
    let refused: Option<Octets<4>> = Octets::from_slice(b"abcde");
    made.is_some() & refused.is_none() & Octets::<4>::default().is_empty()
}

#[test]
fn lists_have_what_fits(rt: HostRuntime) {
    assert!(rt; takes_what_fits() && is_made_of_what_fits());
}

/// The settings of anna, who allows EAP-GPSK and then EAP-PSK, and of a server.
fn settings() -> Setup {
    let peer = PeerSetup {
        name: Octets::of(b"anna"),
        accepts: Accepts::One(Octets::of(b"server")),
        methods: Octets::of(&[51, 47]),
        suites: Octets::of(&[2]),
        psk47: None,
        psk51: Octets::from_slice(&[7; 32]),
        nonce: [1; 32],
        expanded: false,
    };
    let server = ServerSetup {
        name: Octets::of(b"server"),
        methods: Octets::of(&[51]),
        suites: Octets::of(&[1, 2]),
        users: Users::new(),
        nonce: [2; 32],
        expanded: false,
    };
    Setup {
        mode: Mode::Alone,
        first_id: 9,
        max_retrans: 4,
        peer,
        server,
        later: Later::none(),
    }
}

/// Whether a copy of the settings has what they have.
fn is_copied() -> bool {
    let copied = settings().copy();
    (copied.first_id == 9)
        & (copied.peer.methods.as_slice() == [51, 47].as_slice())
        & copied.peer.key(51).is_some()
        & (copied.server.name.as_slice() == b"server".as_slice())
}

#[test]
fn settings_are_copied(rt: HostRuntime) {
    assert!(rt; is_copied());
}
