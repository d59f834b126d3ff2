//! The server of EAP-PSK (RFC 4764 section 4).

ghost use Rattle.std.specs.Prelude.{◌≡◌};
ghost use Rattle.eap_method.specs.PskServer.{unset};

mod login;
mod psk3;
mod psk4;
mod stage;
mod turns;

use crate::nonces::Nonces;
use crate::server::login::Initial;
use crate::server::stage::{EarlyPhase, KnownPhase, Stage};
use crate::server::turns::{ask, handle_response};
use eap_method::{
    NoRecords, Records, Report, ServerAnswer, ServerMethod, ServerSide, ServerTurn, Tags,
};
use login_setup::{User, Users};
use octet_lists::{Nonce, PSK_KIND, Packet};
use std::marker::Model;

/// A server of EAP-PSK. Contracts see its state.
#[derive(Drop)]
pub struct PskServer {
    stage: Stage,
}

impl Model for PskServer {
    ghost use Rattle.eap_method.specs.PskServer.{View};

    ghost Value = { View };

    ghost use Rattle.psk_ends.specs.ServerStage.{view_of};

    ghost view = { λ s. view_of s.stage };
}

impl PskServer {
    ghost use Rattle.psk_ends.specs.Failures.{is_unknown, server_has_failed};
    ghost use Rattle.psk_ends.specs.Nonces.{server_nonces};

    /// A server that hasn't begun.
    pub fn new() -> PskServer
        ensures { result ≡ unset }
    {
        PskServer {
            stage: Stage::Unset,
        }
    }

    /// The nonces of a login that succeeded; None before and after any other.
    pub fn nonces(&self) -> Option<Nonces>
        ensures { result ≡ server_nonces self.now }
    {
        match &self.stage {
            Stage::Known {
                login,
                phase: KnownPhase::Over { success: true },
            } => Some(login.nonces()),
            _ => None,
        }
    }

    /// Whether it has refused a user that it doesn't know.
    pub fn is_unknown(&self) -> bool
        ensures { result ≡ is_unknown self.now }
    {
        matches!(
            &self.stage,
            Stage::Early {
                phase: EarlyPhase::Refused,
                ..
            }
        )
    }

    /// Whether the login of a user that it knows has failed: PSK-3 or PSK-4 carried DONE_FAILURE (RFC 4764
    /// sections 5.3 and 5.4).
    pub fn has_failed(&self) -> bool
        ensures { result ≡ server_has_failed self.now }
    {
        matches!(
            &self.stage,
            Stage::Known {
                phase: KnownPhase::Over { success: false },
                ..
            }
        )
    }
}

impl PskServer {
    ghost use Rattle.std.specs.Prelude.{true, IsTrue, All};
    ghost use Rattle.octet_lists.specs.Among.{psk_kind};
    ghost use Rattle.login_setup.specs.Setup.{has_valid_key};
    ghost use Rattle.eap_method.specs.Capacity.{HasCapacity, requests};
    ghost use Rattle.eap_method.specs.Server.{psk, server_step, IsResponse};
    ghost use Rattle.eap_method.specs.ServerTurn.{server_turn_with, server_tags};

    /// The turn of the method, with room for the records or none.
    #[tactic(auto, unfolding(eap_method::specs::Server::server_step))]
    #[inline(never)]
    fn handle_step<R: Records>(
        &mut self,
        response: &[u8],
        next_id: u8,
        users: &[User],
        packet: &mut Packet,
        tags: &mut Tags<R>,
    ) -> ServerAnswer
        requires response { IsResponse psk_kind response.now }
        requires keys { All (λ user. IsTrue (has_valid_key user)) users.now }
        ensures turn { server_step users.now next_id (psk self.old) response.now
            ≡ record { turn = server_turn_with result packet.new tags.new; after = psk self.new } }
        ensures tags { tags.new ≡ server_tags (server_turn_with result packet.new tags.new) }
        ensures capacity { requests result ≡ true → HasCapacity packet.new }
    {
        match handle_response(&mut self.stage, response, next_id, users, packet, tags) {
            ServerAnswer::Discard(cause) => {
                tags.clear();
                ServerAnswer::Discard(cause)
            }
            ServerAnswer::Request => ServerAnswer::Request,
            ServerAnswer::Done { success } => ServerAnswer::Done { success },
        }
    }
}

impl ServerMethod for PskServer {
    ghost use Rattle.eap_method.specs.Server.{psk};

    ghost server_shown = { λ o. psk o };

    fn kind(&self) -> u8 {
        PSK_KIND
    }

    fn begin(&mut self, own: &ServerSide, nonce: &Nonce) {
        self.stage = Stage::Early {
            own: Initial {
                side: own.copy(),
                nonce: *nonce,
            },
            phase: EarlyPhase::Initial,
        };
    }

    fn first(&mut self, id: u8) -> Packet {
        let mut packet = Packet::new();
        self.first_into(id, &mut packet);
        packet
    }

    fn handle(&mut self, response: &[u8], next_id: u8, users: &Users) -> ServerTurn {
        let mut packet = Packet::new();
        let mut tags = Tags::new();
        let answer = self.handle_into(response, next_id, users.as_slice(), &mut packet, &mut tags);
        answer.with(packet, tags)
    }

    #[tactic(auto, unfolding(eap_method::specs::Server::server_first_step))]
    fn first_into(&mut self, id: u8, packet: &mut Packet) {
        ask(&mut self.stage, id, packet);
    }

    fn handle_into(
        &mut self,
        response: &[u8],
        next_id: u8,
        users: &[User],
        packet: &mut Packet,
        tags: &mut Tags,
    ) -> ServerAnswer {
        self.handle_step(response, next_id, users, packet, tags)
    }

    fn handle_unrecorded(
        &mut self,
        response: &[u8],
        next_id: u8,
        users: &[User],
        packet: &mut Packet,
        tags: &mut Tags<NoRecords>,
    ) -> ServerAnswer {
        self.handle_step(response, next_id, users, packet, tags)
    }

    #[tactic(auto, unfolding(eap_method::specs::Server::server_report))]
    fn report(&self) -> Option<Report> {
        let Stage::Known {
            login,
            phase: KnownPhase::Over { success: true },
        } = &self.stage
        else {
            return None;
        };
        Some(login.report())
    }
}
