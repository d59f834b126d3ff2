//! The peer of MD5-Challenge.

ghost use Rattle.std.specs.Prelude.{◌≡◌, ◌≤◌, [], length};
ghost use Rattle.eap_method.specs.Capacity.{PeerTurnHasCapacity};
ghost use Rattle.eap_method.specs.PeerTurn.{peer_turn_of};
ghost use Rattle.maker.specs.Md5Peer.{step};

use crate::challenge::{MD5_KIND, packet_with, response_value, value_of};
use eap_method::{Credential, Decision, MethodState, PeerMethod, PeerTurn, Report, Tags};
use eap_packet::{Cause, Code};
use octet_lists::{Nonce, Secret};
use std::marker::Model;

/// A peer of MD5-Challenge. It reads none of the settings' keys: the secret is its own. Contracts see the secret and the state.
#[derive(Drop, Debug)]
pub struct Md5Peer {
    secret: Secret,
    awaits: bool,
}

impl Model for Md5Peer {
    ghost use Rattle.maker.specs.Md5Peer.{PeerValue, state_of};

    ghost Value = { PeerValue };

    ghost view = { λ p. record { secret = p.secret; state = state_of p.awaits } };
}

impl Md5Peer {
    /// A peer that hasn't begun, with this secret of at most 64 octets.
    pub fn new(secret: Secret) -> Md5Peer
        ensures { result ≡ record { secret = secret; state = [] } }
    {
        Md5Peer {
            secret,
            awaits: false,
        }
    }

    /// The turn for a Request.
    #[tactic(auto, unfolding(crate::specs::Md5Peer::step))]
    fn answer(&mut self, request: &[u8]) -> PeerTurn
        requires { 5 ≤ length request.now }
        ensures turn { step self.old.secret self.old.state request.now
            ≡ record { turn = peer_turn_of result; after = self.new.state } }
        ensures secret { self.new.secret ≡ self.old.secret }
        ensures capacity { PeerTurnHasCapacity result }
    {
        if !self.awaits {
            return PeerTurn::Discard(Cause::WrongOp);
        }
        match value_of(&request[5..]) {
            None => PeerTurn::Discard(Cause::WrongOp),
            Some(challenge) => {
                self.awaits = false;
                let value = response_value(&self.secret, request[1], challenge);
                PeerTurn::Reply {
                    packet: packet_with(Code::Response, request[1], &value),
                    state: MethodState::Done,
                    decision: Decision::CondSucc,
                    tags: Tags::new(),
                }
            }
        }
    }
}

impl PeerMethod for Md5Peer {
    ghost use Rattle.maker.specs.Md5Peer.{shown};

    ghost peer_shown = { λ p. shown p };

    fn kind(&self) -> u8 {
        MD5_KIND
    }

    fn begin(&mut self, cred: &Credential, nonce: &Nonce) {
        self.awaits = true;
    }

    #[tactic(auto, unfolding(eap_method::specs::Peer::peer_step))]
    fn handle(&mut self, request: &[u8]) -> PeerTurn {
        self.answer(request)
    }

    #[tactic(auto, unfolding(eap_method::specs::Peer::peer_report))]
    fn report(&self) -> Option<Report> {
        None
    }
}
