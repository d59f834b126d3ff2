//! The server of MD5-Challenge.

ghost use Rattle.std.specs.Prelude.{◌≡◌, ◌≤◌, [], length};
ghost use Rattle.eap_method.specs.Capacity.{ServerTurnHasCapacity};
ghost use Rattle.eap_method.specs.ServerTurn.{server_turn_of};
ghost use Rattle.maker.specs.Md5Server.{step};

use crate::challenge::{MD5_KIND, packet_with, response_value, value_of};
use eap_method::{Report, ServerMethod, ServerSide, ServerTurn, Tags};
use eap_packet::{Cause, Code};
use login_setup::Users;
use octet_lists::{Nonce, Packet, Secret, array_of, equal_in_full};
use std::marker::Model;

/// How far a server is.
#[derive(Clone, Copy, PartialEq, Eq, Debug)]
pub enum Phase {
    /// It has begun, and makes its Challenge.
    Unasked,
    /// It has made its Challenge, and awaits the Response.
    Asked,
    /// It awaits nothing.
    Over,
}

/// A server of MD5-Challenge. Its secret is that of all its peers, since a method isn't told the Identity; of the users it
/// reads none. Contracts see the secret and the state.
#[derive(Drop, Debug)]
pub struct Md5Server {
    secret: Secret,
    phase: Phase,
    /// The Value of the Challenge: the first 16 octets of the nonce.
    challenge: [u8; 16],
}

impl Model for Md5Server {
    ghost use Rattle.maker.specs.Md5Server.{ServerValue, state_of};

    ghost Value = { ServerValue };

    ghost view = { λ s. record { secret = s.secret; state = state_of s.phase s.challenge } };
}

impl Md5Server {
    /// A server that hasn't begun, with this secret of at most 64 octets.
    pub fn new(secret: Secret) -> Md5Server
        ensures { result ≡ record { secret = secret; state = [] } }
    {
        Md5Server {
            secret,
            phase: Phase::Over,
            challenge: [0; 16],
        }
    }

    /// The turn for a Response.
    #[tactic(auto, unfolding(crate::specs::Md5Server::step))]
    fn check(&mut self, response: &[u8]) -> ServerTurn
        requires { 5 ≤ length response.now }
        ensures turn { step self.old.secret self.old.state response.now
            ≡ record { turn = server_turn_of result; after = self.new.state } }
        ensures secret { self.new.secret ≡ self.old.secret }
        ensures capacity { ServerTurnHasCapacity result }
    {
        match self.phase {
            Phase::Unasked | Phase::Over => ServerTurn::Discard(Cause::WrongOp),
            Phase::Asked => match value_of(&response[5..]) {
                None => ServerTurn::Discard(Cause::WrongOp),
                Some(value) => {
                    self.phase = Phase::Over;
                    let right = response_value(&self.secret, response[1], &self.challenge);
                    ServerTurn::Done {
                        success: equal_in_full(value, &right),
                        tags: Tags::new(),
                    }
                }
            },
        }
    }
}

impl ServerMethod for Md5Server {
    ghost use Rattle.maker.specs.Md5Server.{shown};

    ghost server_shown = { λ s. shown s };

    fn kind(&self) -> u8 {
        MD5_KIND
    }

    fn begin(&mut self, own: &ServerSide, nonce: &Nonce) {
        self.phase = Phase::Unasked;
        self.challenge = array_of(&nonce[..16]);
    }

    #[tactic(auto, unfolding(eap_method::specs::Server::server_first_step, crate::specs::Md5Server::first_step, crate::specs::Md5Server::is_unasked))]
    fn first(&mut self, id: u8) -> Packet {
        self.phase = Phase::Asked;
        packet_with(Code::Request, id, &self.challenge)
    }

    #[tactic(auto, unfolding(eap_method::specs::Server::server_step))]
    fn handle(&mut self, response: &[u8], next_id: u8, users: &Users) -> ServerTurn {
        self.check(response)
    }

    #[tactic(auto, unfolding(eap_method::specs::Server::server_report))]
    fn report(&self) -> Option<Report> {
        None
    }
}
