//! The peer of EAP-PAX.

ghost use Rattle.std.specs.Prelude.{◌≡◌, ◌≤◌, [], length};
ghost use Rattle.eap_method.specs.Capacity.{HasCapacity, PeerTurnHasCapacity};
ghost use Rattle.eap_method.specs.PeerTurn.{peer_turn_of};
ghost use Rattle.eap_method.specs.Turns.{body_of};
ghost use Rattle.pax_method.specs.Packets as packets;
ghost use Rattle.pax_method.specs.PaxPeer as peers;
ghost use Rattle.pax_method.specs.PaxPeer.{step, state_of};
ghost use Rattle.pax_method.specs.declared.peer.Phase.TheVariants as phases;

use crate::keys::{emsk, ick, msk};
use crate::login::Login;
use crate::messages::{ack_of, joined, mac_2, mac_3, peer_joined, std_2_of};
use crate::packets::{PAX_KIND, has_icv, read_1, read_3};
use crate::records::{add_ck, add_ick};
use eap_method::{Credential, Decision, MethodState, PeerMethod, PeerTurn, Report, Tags};
use eap_packet::Cause;
use octet_lists::{Identity, Nonce, Octets, Secret, equal_in_full};
use std::marker::Model;

/// How far a peer is.
#[derive(Clone, Copy, PartialEq, Eq, Debug)]
pub enum Phase {
    /// It hasn't begun, or doesn't accept its server.
    Unset,
    /// It has begun, and awaits PAX_STD-1.
    Initial,
    /// It has sent PAX_STD-2, and awaits PAX_STD-3.
    Waiting,
    /// It has sent PAX-ACK, and awaits nothing.
    Over,
}

/// A peer of EAP-PAX. It reads none of the settings' keys: AK is its own, with the name of the server that has it too.
/// Contracts see both, and the state.
#[derive(Drop, Debug)]
pub struct PaxPeer {
    ak: Secret,
    server: Identity,
    phase: Phase,
    login: Login,
}

impl Model for PaxPeer {
    ghost use Rattle.pax_method.specs.PaxPeer.{PeerValue, state_of};
    ghost use Rattle.std.specs.Prelude.{◌≡◌, length};

    ghost Value = { PeerValue };

    ghost view = { λ p. record { ak = p.ak; server = p.server; state = state_of p.phase p.login } };

    ghost invariant = { λ p. (length p.login.a ≡ 32) × (length p.login.b ≡ 32) };
}

/// PAX_STD-2, which answers PAX_STD-1.
#[tactic(auto, unfolding(crate::specs::PaxPeer::answers))]
fn answer(ak: &Secret, login: &Login, id: u8) -> PeerTurn
    ensures turn { record { turn = peer_turn_of result; after = state_of phases.Waiting login.now }
        ≡ peers.answers ak.now login.now id }
    ensures capacity { PeerTurnHasCapacity result }
{
    let packet = std_2_of(ak, login, id);
    let mut tags = Tags::new();
    add_ck(
        &mut tags.made,
        ak,
        joined(login).as_slice(),
        &mac_2(ak, login),
    );
    add_ick(&mut tags.made, ak, packet.as_slice());
    PeerTurn::Reply {
        packet,
        state: MethodState::Cont,
        decision: Decision::Fail,
        tags,
    }
}

/// A Request at a peer that awaits PAX_STD-1.
fn receive_std_1(ak: &Secret, phase: &mut Phase, login: &mut Login, request: &[u8]) -> PeerTurn
    requires size { 5 ≤ length request.now }
    requires a { length login.old.a ≡ 32 }
    ensures turn { peers.asked ak.now (state_of phase.old login.old) login.old request.now
        (packets.read_1 (body_of request.now))
        ≡ record { turn = peer_turn_of result; after = state_of phase.new login.new } }
    ensures a { length login.new.a ≡ 32 }
    ensures b { login.new.b ≡ login.old.b }
    ensures capacity { PeerTurnHasCapacity result }
{
    match read_1(&request[5..]) {
        None => PeerTurn::Discard(Cause::WrongOp),
        Some(a) => {
            if has_icv(&[], request) {
                login.a = a;
                *phase = Phase::Waiting;
                answer(ak, login, request[1])
            } else {
                PeerTurn::Discard(Cause::BadTag)
            }
        }
    }
}

/// PAX-ACK, which answers PAX_STD-3.
#[tactic(auto, unfolding(crate::specs::PaxPeer::confirms))]
fn confirm(ak: &Secret, login: &Login, request: &[u8], mac_ck: &[u8; 16]) -> PeerTurn
    requires size { 5 ≤ length request.now }
    requires bounded { length request.now ≤ 1500 }
    ensures turn { record { turn = peer_turn_of result; after = state_of phases.Over login.now }
        ≡ peers.confirms ak.now login.now request.now mac_ck.now }
    ensures capacity { PeerTurnHasCapacity result }
{
    let packet = ack_of(ak, login, request[1]);
    let mut tags = Tags::new();
    add_ck(
        &mut tags.accepted,
        ak,
        peer_joined(login).as_slice(),
        mac_ck,
    );
    add_ick(&mut tags.accepted, ak, request);
    add_ick(&mut tags.made, ak, packet.as_slice());
    PeerTurn::Reply {
        packet,
        state: MethodState::Done,
        decision: Decision::UncondSucc,
        tags,
    }
}

/// A Request at a peer that awaits PAX_STD-3.
fn receive_std_3(ak: &Secret, phase: &mut Phase, login: &Login, request: &[u8]) -> PeerTurn
    requires size { 5 ≤ length request.now }
    requires bounded { length request.now ≤ 1500 }
    ensures turn { peers.confirmed ak.now (state_of phase.old login.now) login.now request.now
        (packets.read_3 (body_of request.now))
        ≡ record { turn = peer_turn_of result; after = state_of phase.new login.now } }
    ensures capacity { PeerTurnHasCapacity result }
{
    match read_3(&request[5..]) {
        None => PeerTurn::Discard(Cause::WrongOp),
        Some(mac_ck) => {
            if equal_in_full(&mac_3(ak, login), &mac_ck) && has_icv(&ick(ak, login), request) {
                *phase = Phase::Over;
                confirm(ak, login, request, &mac_ck)
            } else {
                PeerTurn::Discard(Cause::BadTag)
            }
        }
    }
}

impl PaxPeer {
    /// A peer that hasn't begun, with this AK, which it shares with the server of this name.
    pub fn new(ak: [u8; 16], server: Identity) -> PaxPeer
        ensures { result ≡ record { ak = ak; server = server; state = [] } }
    {
        PaxPeer {
            ak: Octets::of(&ak),
            server,
            phase: Phase::Unset,
            login: Login {
                a: [0; 32],
                b: [0; 32],
                cid: Octets::new(),
            },
        }
    }

    /// The turn for a Request.
    #[tactic(auto, unfolding(crate::specs::PaxPeer::step, crate::specs::PaxPeer::turn_in))]
    fn receive(&mut self, request: &[u8]) -> PeerTurn
        requires size { 5 ≤ length request.now }
        requires bounded { length request.now ≤ 1500 }
        ensures turn { step self.old.ak self.old.state request.now
            ≡ record { turn = peer_turn_of result; after = self.new.state } }
        ensures ak { self.new.ak ≡ self.old.ak }
        ensures server { self.new.server ≡ self.old.server }
        ensures capacity { PeerTurnHasCapacity result }
    {
        match self.phase {
            Phase::Unset | Phase::Over => PeerTurn::Discard(Cause::WrongOp),
            Phase::Initial => receive_std_1(&self.ak, &mut self.phase, &mut self.login, request),
            Phase::Waiting => receive_std_3(&self.ak, &mut self.phase, &self.login, request),
        }
    }
}

impl PeerMethod for PaxPeer {
    ghost use Rattle.pax_method.specs.PaxPeer.{shown};

    ghost peer_shown = { λ p. shown p };

    fn kind(&self) -> u8 {
        PAX_KIND
    }

    fn begin(&mut self, cred: &Credential, nonce: &Nonce) {
        if cred.accepts.allows(self.server.as_slice()) {
            self.phase = Phase::Initial;
            self.login = Login {
                a: [0; 32],
                b: *nonce,
                cid: cred.id_p.copy(),
            };
        } else {
            self.phase = Phase::Unset;
        }
    }

    #[tactic(auto, unfolding(eap_method::specs::Peer::peer_step))]
    fn handle(&mut self, request: &[u8]) -> PeerTurn {
        self.receive(request)
    }

    #[tactic(auto, unfolding(eap_method::specs::Peer::peer_report, crate::specs::PaxPeer::report))]
    fn report(&self) -> Option<Report> {
        match self.phase {
            Phase::Over => Some(Report {
                method: PAX_KIND,
                id_p: self.login.cid.copy(),
                id_s: self.server.copy(),
                suite: 0,
                msk: msk(&self.ak, &self.login),
                emsk: emsk(&self.ak, &self.login),
            }),
            Phase::Unset | Phase::Initial | Phase::Waiting => None,
        }
    }
}
