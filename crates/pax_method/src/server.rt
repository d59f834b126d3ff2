//! The server of EAP-PAX.

ghost use Rattle.std.specs.Prelude.{◌≡◌, ◌≤◌, [], length};
ghost use Rattle.login_setup.specs.Users.{user_of};
ghost use Rattle.eap_method.specs.Capacity.{ServerTurnHasCapacity};
ghost use Rattle.eap_method.specs.ServerTurn.{server_turn_of};
ghost use Rattle.eap_method.specs.Turns.{body_of};
ghost use Rattle.pax_method.specs.Packets as packets;
ghost use Rattle.pax_method.specs.Packets.{pax_kind};
ghost use Rattle.pax_method.specs.PaxServer as servers;
ghost use Rattle.pax_method.specs.PaxServer.{step, state_of};
ghost use Rattle.pax_method.specs.declared.server.Phase.TheVariants as phases;

use crate::keys::{emsk, ick, msk};
use crate::login::{Fields, Login};
use crate::messages::{joined, mac_2, mac_3, peer_joined, std_1_of, std_3_of};
use crate::packets::{PAX_KIND, has_icv, is_ack, read_2};
use crate::records::{add_ck, add_ick};
use eap_method::{Report, ServerMethod, ServerSide, ServerTurn, Tags};
use eap_packet::Cause;
use login_setup::Users;
use octet_lists::{Identity, Nonce, Octets, Packet, Secret, equal_in_full};
use std::marker::Model;

/// How far a server is.
#[derive(Clone, Copy, PartialEq, Eq, Debug)]
pub enum Phase {
    /// It has begun, and makes PAX_STD-1.
    Initial,
    /// So has this one, but under another name than its own: it lets none in.
    Misnamed,
    /// It has made PAX_STD-1, and awaits PAX_STD-2.
    Asked,
    /// It has made PAX_STD-3, and awaits PAX-ACK.
    Checked,
    /// It has accepted PAX-ACK, and awaits nothing.
    Over,
    /// It hasn't begun, or awaits nothing.
    Unset,
}

/// A server of EAP-PAX. AK is that of all its peers; of the users it reads who is let in, and no key. Contracts see AK, its
/// name, and the state.
#[derive(Drop, Debug)]
pub struct PaxServer {
    ak: Secret,
    server: Identity,
    phase: Phase,
    login: Login,
}

impl Model for PaxServer {
    ghost use Rattle.pax_method.specs.PaxServer.{ServerValue, state_of};
    ghost use Rattle.std.specs.Prelude.{◌≡◌, length};

    ghost Value = { ServerValue };

    ghost view = { λ s. record { ak = s.ak; server = s.server; state = state_of s.phase s.login } };

    ghost invariant = { λ s. (length s.login.a ≡ 32) × (length s.login.b ≡ 32) };
}

/// How far a server is after its first Request.
fn after_first(phase: Phase) -> Phase
    ensures { result ≡ servers.after_first phase }
{
    match phase {
        Phase::Initial => Phase::Asked,
        Phase::Misnamed => Phase::Unset,
        Phase::Asked | Phase::Checked | Phase::Over | Phase::Unset => Phase::Unset,
    }
}

/// Whether the user of this name is let in.
fn welcomes(users: &Users, cid: &[u8]) -> bool
    ensures { result ≡ servers.welcomes (user_of users.now cid.now pax_kind) }
{
    match users.find(cid, PAX_KIND) {
        None => false,
        Some(user) => !user.barred && user.psk.len() == 0,
    }
}

/// PAX_STD-3, which answers PAX_STD-2.
#[tactic(auto, unfolding(crate::specs::PaxServer::answers))]
fn answer(ak: &Secret, login: &Login, response: &[u8], next_id: u8, mac_ck: &[u8; 16]) -> ServerTurn
    requires { length response.now ≤ 1500 }
    ensures turn { record {
      turn = server_turn_of result;
      after = state_of phases.Checked login.now;
    } ≡ servers.answers ak.now next_id login.now response.now mac_ck.now }
    ensures capacity { ServerTurnHasCapacity result }
{
    let packet = std_3_of(ak, login, next_id);
    let mut tags = Tags::new();
    add_ck(&mut tags.accepted, ak, joined(login).as_slice(), mac_ck);
    add_ick(&mut tags.accepted, ak, response);
    add_ck(
        &mut tags.made,
        ak,
        peer_joined(login).as_slice(),
        &mac_3(ak, login),
    );
    add_ick(&mut tags.made, ak, packet.as_slice());
    ServerTurn::Request { packet, tags }
}

/// PAX_STD-2 of a user that is let in.
fn check(
    ak: &Secret,
    phase: &mut Phase,
    login: &mut Login,
    fields: Fields,
    response: &[u8],
    next_id: u8,
) -> ServerTurn
    requires bounded { length response.now ≤ 1500 }
    requires b { length login.old.b ≡ 32 }
    ensures turn { servers.checks ak.now (state_of phase.old login.old) next_id
        (record { a = login.old.a; b = fields.b; cid = fields.cid }) response.now fields.mac_ck
        ≡ record { turn = server_turn_of result; after = state_of phase.new login.new } }
    ensures a { login.new.a ≡ login.old.a }
    ensures b { length login.new.b ≡ 32 }
    ensures capacity { ServerTurnHasCapacity result }
{
    let Fields { b, cid, mac_ck } = fields;
    let found = Login { a: login.a, b, cid };
    if equal_in_full(&mac_2(ak, &found), &mac_ck) && has_icv(&ick(ak, &found), response) {
        let turn = answer(ak, &found, response, next_id, &mac_ck);
        *login = found;
        *phase = Phase::Checked;
        turn
    } else {
        ServerTurn::Discard(Cause::BadTag)
    }
}

/// A Response at a server that awaits PAX_STD-2.
fn receive_std_2(
    ak: &Secret,
    phase: &mut Phase,
    login: &mut Login,
    response: &[u8],
    next_id: u8,
    users: &Users,
) -> ServerTurn
    requires size { 5 ≤ length response.now }
    requires bounded { length response.now ≤ 1500 }
    requires b { length login.old.b ≡ 32 }
    ensures turn { servers.asked ak.now (state_of phase.old login.old) users.now next_id login.old
        response.now (packets.read_2 (body_of response.now))
        ≡ record { turn = server_turn_of result; after = state_of phase.new login.new } }
    ensures a { login.new.a ≡ login.old.a }
    ensures b { length login.new.b ≡ 32 }
    ensures capacity { ServerTurnHasCapacity result }
{
    match read_2(&response[5..]) {
        None => ServerTurn::Discard(Cause::WrongOp),
        Some(fields) => {
            if welcomes(users, fields.cid.as_slice()) {
                check(ak, phase, login, fields, response, next_id)
            } else {
                *phase = Phase::Unset;
                ServerTurn::Done {
                    success: false,
                    tags: Tags::new(),
                }
            }
        }
    }
}

/// A Response at a server that awaits PAX-ACK.
#[tactic(auto, unfolding(crate::specs::PaxServer::ends))]
fn receive_ack(ak: &Secret, phase: &mut Phase, login: &Login, response: &[u8]) -> ServerTurn
    requires size { 5 ≤ length response.now }
    requires bounded { length response.now ≤ 1500 }
    ensures turn { servers.acked ak.now (state_of phase.old login.now) login.now response.now
        (packets.is_ack (body_of response.now))
        ≡ record { turn = server_turn_of result; after = state_of phase.new login.now } }
    ensures capacity { ServerTurnHasCapacity result }
{
    if !is_ack(&response[5..]) {
        return ServerTurn::Discard(Cause::WrongOp);
    }
    if has_icv(&ick(ak, login), response) {
        *phase = Phase::Over;
        let mut tags = Tags::new();
        add_ick(&mut tags.accepted, ak, response);
        ServerTurn::Done {
            success: true,
            tags,
        }
    } else {
        ServerTurn::Discard(Cause::BadTag)
    }
}

impl PaxServer {
    /// A server that hasn't begun, with this AK and this name, under which it shares AK with its peers.
    pub fn new(ak: [u8; 16], server: Identity) -> PaxServer
        ensures { result ≡ record { ak = ak; server = server; state = [] } }
    {
        PaxServer {
            ak: Octets::of(&ak),
            server,
            phase: Phase::Unset,
            login: Login {
                a: [0; 32],
                b: [0; 32],
                cid: Octets::new(),
            },
        }
    }

    /// The turn for a Response.
    #[tactic(auto, unfolding(crate::specs::PaxServer::step, crate::specs::PaxServer::turn_in))]
    fn receive(&mut self, response: &[u8], next_id: u8, users: &Users) -> ServerTurn
        requires size { 5 ≤ length response.now }
        requires bounded { length response.now ≤ 1500 }
        ensures turn { step self.old.ak users.now next_id self.old.state response.now
            ≡ record { turn = server_turn_of result; after = self.new.state } }
        ensures ak { self.new.ak ≡ self.old.ak }
        ensures server { self.new.server ≡ self.old.server }
        ensures capacity { ServerTurnHasCapacity result }
    {
        match self.phase {
            Phase::Asked => receive_std_2(
                &self.ak,
                &mut self.phase,
                &mut self.login,
                response,
                next_id,
                users,
            ),
            Phase::Checked => receive_ack(&self.ak, &mut self.phase, &self.login, response),
            Phase::Initial | Phase::Misnamed | Phase::Over | Phase::Unset => {
                ServerTurn::Discard(Cause::WrongOp)
            }
        }
    }
}

impl ServerMethod for PaxServer {
    ghost use Rattle.pax_method.specs.PaxServer.{shown};

    ghost server_shown = { λ s. shown s };

    fn kind(&self) -> u8 {
        PAX_KIND
    }

    fn begin(&mut self, own: &ServerSide, nonce: &Nonce) {
        self.phase = if own.id_s == self.server {
            Phase::Initial
        } else {
            Phase::Misnamed
        };
        self.login = Login {
            a: *nonce,
            b: [0; 32],
            cid: Octets::new(),
        };
    }

    fn first(&mut self, id: u8) -> Packet {
        let packet = std_1_of(&self.login.a, id);
        self.phase = after_first(self.phase);
        packet
    }

    #[tactic(auto, unfolding(eap_method::specs::Server::server_step))]
    fn handle(&mut self, response: &[u8], next_id: u8, users: &Users) -> ServerTurn {
        self.receive(response, next_id, users)
    }

    #[tactic(auto, unfolding(eap_method::specs::Server::server_report, crate::specs::PaxServer::report))]
    fn report(&self) -> Option<Report> {
        match self.phase {
            Phase::Over => Some(Report {
                method: PAX_KIND,
                id_p: self.login.cid.copy(),
                id_s: self.server.copy(),
                suite: 0,
                msk: msk(&self.ak, &self.login),
                emsk: emsk(&self.ak, &self.login),
            }),
            Phase::Initial | Phase::Misnamed | Phase::Asked | Phase::Checked | Phase::Unset => None,
        }
    }
}
