//! An example for makers: a login server, the backend of RFC 4137 section 6 behind access points that reach it by RADIUS (RFC
//! 3579). A server has one session a login, and finds it by the attribute State of the request.
#![tactic(auto)]

ghost use Rattle.std.specs.Prelude.{◌≡◌, ◌≢◌, ◌↔◌, true, map, IfSome, IfNone, IsSome, option_map};
ghost use Rattle.login_setup.specs.Setup.{IsSoundServer};
ghost use Rattle.eap_method.specs.Peer.{have_each};
ghost use Rattle.eap_method.specs.Server.{server_kinds, server_views};
ghost use Rattle.radius_carry.specs.Packet.{RadiusPacket, eap_of};
ghost use Rattle.server_machine.specs.Expanded.{server_receives};
ghost use Rattle.server_machine.specs.ServerTable.{now_of, initial_backend, server_reports};
ghost use Rattle.login_server.specs.Answering.{IsRequestUnder, answer_to, reply_kind, report_in};
ghost use Rattle.radius_carry.specs.declared.view.RadiusKind.TheVariants as RadiusKind;

use eap_method::{Report, ServerMethod};
use eap_packet::State;
use login_setup::ServerSetup;
use octet_lists::{Injected, Octets, Secret};
use radius_carry::{RadiusKind, eap_of, read_radius, request_good, write_reply};
use server_machine::Backend;

/// One login.
#[derive(Drop)]
pub struct Session<M = Box<dyn ServerMethod>> {
    pub backend: Backend<M>,
    /// The value of State by which it is found.
    pub state: Octets<64>,
}

impl<M: ServerMethod> Session<M> {
    /// A session with these settings, an object of each method that they propose, and this value of State; None if the backend
    /// doesn't take them.
    pub fn new(setup: ServerSetup, methods: Vec<M>, state: Octets<64>) -> Option<Session<M>>
        ensures accepted { IsSome result ↔ (IsSoundServer setup
            × (have_each (server_kinds (map M.server_shown methods.items)) setup.methods ≡ true)) }
        ensures initial { IfSome result (λ session. now_of M.server_shown session.backend
            ≡ initial_backend setup
            (server_views setup.methods (map M.server_shown methods.items))) }
        ensures state { IfSome result (λ session. session.state ≡ state) }
    {
        if Backend::takes(&setup, methods.as_slice()) {
            Some(Session {
                backend: Backend::new(setup, methods),
                state,
            })
        } else {
            None
        }
    }

    /// A datagram has come: the reply to it; None if it is no request of one who knows the secret, or what it carries is silently
    /// discarded.
    #[tactic(auto, unfolding(radius_carry::specs::Fault::value_of))]
    pub fn answer(&mut self, secret: &Secret, datagram: &[u8]) -> Option<Injected>
        ensures good { IsSome result → (request : RadiusPacket)
            × IsRequestUnder secret.now datagram.now request }
        ensures backend { (request : RadiusPacket) → IsRequestUnder secret.now datagram.now request
            → now_of M.server_shown self.new.backend
            ≡ (server_receives (now_of M.server_shown self.old.backend)
            (eap_of request.attributes)).after }
        ensures sent { (request : RadiusPacket) → IsRequestUnder secret.now datagram.now request
            → result
            ≡ option_map (answer_to secret.now request self.new.backend.vars.state self.old.state)
            (server_receives (now_of M.server_shown self.old.backend)
            (eap_of request.attributes)).step.sent }
        ensures unchanged { IfNone result
            (now_of M.server_shown self.new.backend ≡ now_of M.server_shown self.old.backend) }
        ensures state { self.new.state ≡ self.old.state }
    {
        let request = read_radius(datagram).ok()?;
        if !request_good(secret.as_slice(), &request) {
            return None;
        }
        let packet = self.backend.deliver(eap_of(&request).as_slice()).sent?;
        Some(write_reply(
            secret.as_slice(),
            self.reply(),
            request.id,
            &request.authenticator,
            self.state.as_slice(),
            packet.as_slice(),
        ))
    }

    /// Which reply the backend's state calls for (RFC 3579 section 2.1).
    fn reply(&self) -> RadiusKind
        ensures kind { result ≡ reply_kind self.now.backend.vars.state }
        ensures no_request { result ≢ RadiusKind.Request }
    {
        match self.backend.state() {
            State::Success => RadiusKind::Accept,
            State::Failure => RadiusKind::Reject,
            _ => RadiusKind::Challenge,
        }
    }

    /// What a login that succeeded gives, its keys among it.
    pub fn report(&self) -> Option<Report>
        ensures { result ≡ report_in self.now.backend.vars.state (server_reports
            (now_of M.server_shown self.now.backend)) }
    {
        if self.backend.state() == State::Success {
            self.backend.report()
        } else {
            None
        }
    }
}
