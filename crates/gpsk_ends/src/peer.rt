//! The peer of EAP-GPSK (RFC 5433 section 3).

ghost use Rattle.std.specs.Prelude.{◌≡◌};
ghost use Rattle.eap_method.specs.GpskPeer.{unset};

mod gpsk1;
mod login;
mod offer;
mod stage;
mod turns;

use crate::nonces::Nonces;
use crate::peer::stage::{Phase, Progress, Stage};
use crate::peer::turns::handle_request;
use eap_method::{Credential, NoRecords, PeerAnswer, PeerMethod, PeerTurn, Records, Report, Tags};
use octet_lists::{GPSK_KIND, Nonce, Packet};
use std::marker::Model;

/// A peer of EAP-GPSK. Contracts see its state. It derives its keys once a login, and allocates no
/// memory.
#[derive(Drop)]
pub struct GpskPeer {
    stage: Stage,
}

impl Model for GpskPeer {
    ghost use Rattle.eap_method.specs.GpskPeer.{View};

    ghost Value = { View };

    ghost view = { λ p. p.stage };
}

impl GpskPeer {
    ghost use Rattle.gpsk_ends.specs.Failures.{peer_has_failed};
    ghost use Rattle.gpsk_ends.specs.Nonces.{peer_nonces};

    /// A peer that has not begun: it answers no Request, and has no report.
    pub fn new() -> GpskPeer
        ensures { result ≡ unset }
    {
        GpskPeer {
            stage: Stage::new(),
        }
    }

    /// The nonces of a login that succeeded; None before and after any other.
    pub fn nonces(&self) -> Option<Nonces>
        ensures { result ≡ peer_nonces self.now }
    {
        Some(self.stage.successful()?.nonces())
    }

    /// Whether the login has failed: GPSK-Fail or GPSK-Protected-Fail came (RFC 5433 section 10).
    pub fn has_failed(&self) -> bool
        ensures { result ≡ peer_has_failed self.now }
    {
        matches!(
            &self.stage.progress,
            Progress::Known {
                phase: Phase::Over { good: false },
                ..
            }
        )
    }
}

impl GpskPeer {
    ghost use Rattle.std.specs.Prelude.{true};
    ghost use Rattle.octet_lists.specs.Among.{gpsk_kind};
    ghost use Rattle.eap_method.specs.Capacity.{HasCapacity, replies};
    ghost use Rattle.eap_method.specs.Peer.{gpsk, peer_step, IsRequest};
    ghost use Rattle.eap_method.specs.PeerTurn.{peer_turn_with, peer_tags};

    /// The turn of the method, with room for the records or none.
    #[tactic(auto, unfolding(eap_method::specs::Peer::peer_step))]
    #[inline(never)]
    fn handle_step<R: Records>(
        &mut self,
        request: &[u8],
        packet: &mut Packet,
        tags: &mut Tags<R>,
    ) -> PeerAnswer
        requires { IsRequest gpsk_kind request.now }
        ensures turn { peer_step (gpsk self.old) request.now
            ≡ record { turn = peer_turn_with result packet.new tags.new; after = gpsk self.new } }
        ensures tags { tags.new ≡ peer_tags (peer_turn_with result packet.new tags.new) }
        ensures capacity { replies result ≡ true → HasCapacity packet.new }
    {
        match handle_request(&mut self.stage, request, packet, tags) {
            PeerAnswer::Discard(cause) => {
                tags.clear();
                PeerAnswer::Discard(cause)
            }
            PeerAnswer::Reply { state, decision } => PeerAnswer::Reply { state, decision },
        }
    }
}

impl PeerMethod for GpskPeer {
    ghost use Rattle.eap_method.specs.Peer.{gpsk};

    ghost peer_shown = { λ o. gpsk o };

    fn kind(&self) -> u8 {
        GPSK_KIND
    }

    fn begin(&mut self, cred: &Credential, nonce: &Nonce) {
        self.stage.start(cred, nonce);
    }

    fn handle(&mut self, request: &[u8]) -> PeerTurn {
        let mut packet = Packet::new();
        let mut tags = Tags::new();
        let answer = self.handle_into(request, &mut packet, &mut tags);
        answer.with(packet, tags)
    }

    fn handle_into(&mut self, request: &[u8], packet: &mut Packet, tags: &mut Tags) -> PeerAnswer {
        self.handle_step(request, packet, tags)
    }

    fn handle_unrecorded(
        &mut self,
        request: &[u8],
        packet: &mut Packet,
        tags: &mut Tags<NoRecords>,
    ) -> PeerAnswer {
        self.handle_step(request, packet, tags)
    }

    #[tactic(auto, unfolding(eap_method::specs::Peer::peer_report))]
    fn report(&self) -> Option<Report> {
        Some(self.stage.successful()?.report())
    }
}
