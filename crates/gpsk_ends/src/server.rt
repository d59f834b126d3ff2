//! The server of EAP-GPSK (RFC 5433 section 3).

ghost use Rattle.std.specs.Prelude.{◌≡◌};
ghost use Rattle.eap_method.specs.GpskServer.{unset};

mod gpsk2;
mod login;
mod stage;
mod turns;

use crate::nonces::Nonces;
use crate::server::stage::{Alone, Phase, Progress, Stage};
use crate::server::turns::{ask, handle_response};
use eap_method::{
    NoRecords, Records, Report, ServerAnswer, ServerMethod, ServerSide, ServerTurn, Tags,
};
use login_setup::{User, Users};
use octet_lists::{GPSK_KIND, Nonce, Packet};
use std::marker::Model;

/// A server of EAP-GPSK. Contracts see its state. It derives its keys once for each GPSK-2 of a
/// known user, and allocates no memory.
#[derive(Drop)]
pub struct GpskServer {
    stage: Stage,
}

impl Model for GpskServer {
    ghost use Rattle.eap_method.specs.GpskServer.{View};

    ghost Value = { View };

    ghost view = { λ s. s.stage };
}

impl GpskServer {
    ghost use Rattle.gpsk_ends.specs.Failures.{is_unknown, server_has_failed};
    ghost use Rattle.gpsk_ends.specs.Nonces.{server_nonces};

    /// A server that has not begun: it answers no Response, and has no report.
    pub fn new() -> GpskServer
        ensures { result ≡ unset }
    {
        GpskServer {
            stage: Stage::new(),
        }
    }

    /// The nonces of a login that succeeded; None before and after any other.
    pub fn nonces(&self) -> Option<Nonces>
        ensures { result ≡ server_nonces self.now }
    {
        Some(self.stage.successful()?.nonces())
    }

    /// Whether it has sent GPSK-Fail to a user that it doesn't know (RFC 5433 section 10).
    pub fn is_unknown(&self) -> bool
        ensures { result ≡ is_unknown self.now }
    {
        matches!(
            &self.stage.progress,
            Progress::Alone {
                phase: Alone::Refusing | Alone::Refused,
            }
        )
    }

    /// Whether it has sent GPSK-Protected-Fail to a user that it knows, who is barred.
    pub fn has_failed(&self) -> bool
        ensures { result ≡ server_has_failed self.now }
    {
        matches!(
            &self.stage.progress,
            Progress::Login {
                phase: Phase::Barring | Phase::Over { good: false },
                ..
            }
        )
    }
}

impl GpskServer {
    ghost use Rattle.std.specs.Prelude.{true, IsTrue, All};
    ghost use Rattle.octet_lists.specs.Among.{gpsk_kind};
    ghost use Rattle.login_setup.specs.Setup.{has_valid_key};
    ghost use Rattle.eap_method.specs.Capacity.{HasCapacity, requests};
    ghost use Rattle.eap_method.specs.Server.{gpsk, server_step, IsResponse};
    ghost use Rattle.eap_method.specs.ServerTurn.{server_turn_with, server_tags};

    /// The turn of the method, with room for the records or none.
    #[tactic(auto, unfolding(eap_method::specs::Server::server_step))]
    #[inline(never)]
    fn handle_step<R: Records>(
        &mut self,
        response: &[u8],
        next_id: u8,
        users: &[User],
        packet: &mut Packet,
        tags: &mut Tags<R>,
    ) -> ServerAnswer
        requires response { IsResponse gpsk_kind response.now }
        requires keys { All (λ user. IsTrue (has_valid_key user)) users.now }
        ensures turn { server_step users.now next_id (gpsk self.old) response.now
            ≡ record { turn = server_turn_with result packet.new tags.new; after = gpsk self.new } }
        ensures tags { tags.new ≡ server_tags (server_turn_with result packet.new tags.new) }
        ensures capacity { requests result ≡ true → HasCapacity packet.new }
    {
        match handle_response(&mut self.stage, response, next_id, users, packet, tags) {
            ServerAnswer::Discard(cause) => {
                tags.clear();
                ServerAnswer::Discard(cause)
            }
            ServerAnswer::Request => ServerAnswer::Request,
            ServerAnswer::Done { success } => ServerAnswer::Done { success },
        }
    }
}

impl ServerMethod for GpskServer {
    ghost use Rattle.eap_method.specs.Server.{gpsk};

    ghost server_shown = { λ o. gpsk o };

    fn kind(&self) -> u8 {
        GPSK_KIND
    }

    fn begin(&mut self, own: &ServerSide, nonce: &Nonce) {
        self.stage.start(own, nonce);
    }

    fn first(&mut self, id: u8) -> Packet {
        let mut packet = Packet::new();
        self.first_into(id, &mut packet);
        packet
    }

    fn handle(&mut self, response: &[u8], next_id: u8, users: &Users) -> ServerTurn {
        let mut packet = Packet::new();
        let mut tags = Tags::new();
        let answer = self.handle_into(response, next_id, users.as_slice(), &mut packet, &mut tags);
        answer.with(packet, tags)
    }

    #[tactic(auto, unfolding(eap_method::specs::Server::server_first_step))]
    fn first_into(&mut self, id: u8, packet: &mut Packet) {
        ask(&mut self.stage, id, packet);
    }

    fn handle_into(
        &mut self,
        response: &[u8],
        next_id: u8,
        users: &[User],
        packet: &mut Packet,
        tags: &mut Tags,
    ) -> ServerAnswer {
        self.handle_step(response, next_id, users, packet, tags)
    }

    fn handle_unrecorded(
        &mut self,
        response: &[u8],
        next_id: u8,
        users: &[User],
        packet: &mut Packet,
        tags: &mut Tags<NoRecords>,
    ) -> ServerAnswer {
        self.handle_step(response, next_id, users, packet, tags)
    }

    #[tactic(auto, unfolding(eap_method::specs::Server::server_report))]
    fn report(&self) -> Option<Report> {
        Some(self.stage.successful()?.report())
    }
}
