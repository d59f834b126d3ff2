//! A checker, which judges the packets of a capture in their order.

ghost use Rattle.std.specs.Prelude.{◌≡◌, ◌≤◌, List, [], ◌∷◌, ◌++◌, length, All, IsTrue};
ghost use Rattle.login_setup.specs.Setup.{has_valid_key};
ghost use Rattle.login_setup.specs.declared.users.User.{User};
ghost use Rattle.eap_packet.specs.Packet.{IsPlain, value_of, max_type_data};
ghost use Rattle.capture_check.specs.Captured.{Captured};
ghost use Rattle.capture_check.specs.Classified.{classified_of, packet_class};
ghost use Rattle.capture_check.specs.Gpsk.{HasKey};
ghost use Rattle.capture_check.specs.CaptureContext.{context_after, no_context_yet};
ghost use Rattle.capture_check.specs.Finding.{finding_in, finding_of, classified_finding};
ghost use Rattle.capture_check.specs.Finding.{kept_next, IsStateAfter};

use crate::finding::Finding;
use crate::gpsk::GpskLogin;
use crate::psk::PskContext;
use crate::{gpsk, psk};
use eap_packet::{Cause, Code, PacketView, decode};
use login_setup::Users;
use octet_lists::{GPSK_KIND, PSK_KIND};
use std::marker::Model;

/// What is kept of the packets of a capture, a part a method.
#[derive(Drop)]
pub struct CaptureContext {
    pub gpsk: Option<GpskLogin>,
    pub psk: PskContext,
}

/// Judges the packets of a capture, one after the other, under the keys of the users that are known. It
/// keeps the last PSK-1, and of GPSK-2 and PSK-2 the last whose tag is good.
///
/// A contract says by `IsStateAfter checker users packets` which packets it has seen.
#[derive(Drop)]
pub struct Judge {
    kept: CaptureContext,
}

impl Model for Judge {
    ghost use Rattle.capture_check.specs.declared.checker.CaptureContext.{CaptureContext};
    ghost use Rattle.capture_check.specs.Gpsk.{HasKey};

    ghost Value = { CaptureContext };

    ghost view = { λ c. c.kept };

    ghost invariant = { λ c. HasKey c.kept.gpsk };
}

impl Judge {
    /// A checker that has seen no packet.
    #[tactic(auto, unfolding(crate::specs::Finding::IsStateAfter), using(crate::proofs::Preserving::preserved_of_none))]
    pub fn new() -> Judge
        ensures state { (users : List User) → IsStateAfter result users [] }
        ensures stored { result ≡ no_context_yet }
    {
        Judge {
            kept: CaptureContext {
                gpsk: None,
                psk: PskContext {
                    psk1: None,
                    psk2: None,
                },
            },
        }
    }

    /// The finding of the next packet, which goes to the peer or comes from it. The users are the same for
    /// all packets, and have keys of 16 octets for EAP-PSK, of 32 to 64 for EAP-GPSK.
    #[tactic(auto, unfolding(crate::specs::Finding::IsStateAfter, crate::specs::Finding::finding_of, crate::specs::Finding::finding_in, crate::specs::Finding::kept_next), using(crate::proofs::Preserving::preserved_of_next))]
    pub fn packet(&mut self, users: &Users, to_peer: bool, octets: &[u8]) -> Finding
        requires { All (λ user. IsTrue (has_valid_key user)) users.now }

        // If it has seen a list of packets, the answer is the finding of the packet after these, and then
        // it has seen the list with the packet.
        ensures finding { (packets : List Captured) → IsStateAfter self.old users.now packets
            → result ≡ finding_of users.now packets to_peer octets.now }
        ensures state { (packets : List Captured) → IsStateAfter self.old users.now packets
            → IsStateAfter self.new users.now
            (packets ++ (record { to_peer = to_peer; octets = octets.now }) ∷ []) }

        // The same by what it keeps.
        ensures judged { result ≡ finding_in users.now self.old to_peer octets.now }
        ensures stored { self.new ≡ kept_next users.now self.old to_peer octets.now }
    {
        judge_octets(&mut self.kept, users, to_peer, octets)
    }
}

/// Judges the packets of a capture as [`Judge`] does, under the keys of the users that it was made with.
#[derive(Drop)]
pub struct Checker {
    users: Users,
    judge: Judge,
}

impl Model for Checker {
    ghost use Rattle.std.specs.Prelude.{All, IsTrue};
    ghost use Rattle.login_setup.specs.Setup.{has_valid_key};
    ghost use Rattle.capture_check.specs.Finding.{Checking};

    ghost Value = { Checking };

    ghost view = { λ c. record { users = c.users; kept = c.judge } };

    ghost invariant = { λ c. All (λ user. IsTrue (has_valid_key user)) c.users };
}

impl Checker {
    /// A checker that has seen no packet. The users have keys of 16 octets for EAP-PSK, of 32 to 64 for EAP-GPSK.
    pub fn new(users: Users) -> Checker
        requires { All (λ user. IsTrue (has_valid_key user)) users }
        ensures users { result.users ≡ users }
        ensures state { IsStateAfter result.kept users [] }
    {
        Checker {
            users,
            judge: Judge::new(),
        }
    }

    /// The finding of the next packet, which goes to the peer or comes from it.
    pub fn packet(&mut self, to_peer: bool, octets: &[u8]) -> Finding
        // If it has seen a list of packets, the answer is the finding of the packet after these, and then
        // it has seen the list with the packet.
        ensures finding { (packets : List Captured)
            → IsStateAfter self.old.kept self.old.users packets
            → result ≡ finding_of self.old.users packets to_peer octets.now }
        ensures state { (packets : List Captured)
            → IsStateAfter self.old.kept self.old.users packets
            → IsStateAfter self.new.kept self.old.users
            (packets ++ (record { to_peer = to_peer; octets = octets.now }) ∷ []) }
        ensures users { self.new.users ≡ self.old.users }
    {
        self.judge.packet(&self.users, to_peer, octets)
    }
}

/// The finding of a packet, and what is kept after it.
#[tactic(auto, unfolding(crate::specs::Classified::classified_of))]
fn judge_octets(kept: &mut CaptureContext, users: &Users, to_peer: bool, octets: &[u8]) -> Finding
    requires keys { All (λ user. IsTrue (has_valid_key user)) users.now }
    requires key { HasKey kept.old.gpsk }
    ensures finding { result
        ≡ classified_finding users.now kept.old octets.now (classified_of to_peer octets.now) }
    ensures stored { kept.new
        ≡ context_after users.now kept.old (classified_of to_peer octets.now) }
    ensures key_after { HasKey kept.new.gpsk }
{
    match decode(octets) {
        Err(cause) => Finding::Malformed(cause),
        Ok(packet) => judge_packet(kept, users, to_peer, octets, &packet),
    }
}

/// The finding of a packet with these octets, and what is kept after it.
fn judge_packet(
    kept: &mut CaptureContext,
    users: &Users,
    to_peer: bool,
    octets: &[u8],
    packet: &PacketView,
) -> Finding
    requires keys { All (λ user. IsTrue (has_valid_key user)) users.now }
    requires key { HasKey kept.old.gpsk }
    requires plain { IsPlain packet.now.code packet.now.kind packet.now.body.now }
    requires size { length packet.now.body.now ≤ max_type_data }
    ensures finding { result ≡ classified_finding users.now kept.old octets.now (packet_class
        to_peer (value_of packet.now)) }
    ensures stored { kept.new
        ≡ context_after users.now kept.old (packet_class to_peer (value_of packet.now)) }
    ensures key_after { HasKey kept.new.gpsk }
{
    // Only Responses come from a peer, and none goes to it (RFC 3748 section 4).
    if (packet.code == Code::Response) == to_peer {
        return Finding::Malformed(Cause::WrongRole);
    }
    match packet.kind {
        GPSK_KIND => gpsk::judge_body(&mut kept.gpsk, users, to_peer, packet.body),
        PSK_KIND => psk::judge_body(&mut kept.psk, users, to_peer, octets, packet.body),
        _ => Finding::Good,
    }
}
