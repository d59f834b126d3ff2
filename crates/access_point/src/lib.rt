//! An example for makers: an access point, the pass-through of RFC 4137 section 7 between a station and a login server that is
//! reached by RADIUS (RFC 3579).
#![tactic(auto)]

ghost use Rattle.std.specs.Prelude.{◌≡◌, ◌↔◌, [], replicate, if◌then◌else◌, IfSome, IfNone, IsSome};
ghost use Rattle.eap_packet.specs.Fault.{packet_of};
ghost use Rattle.pass_through.specs.Inputs.{pass_accepts, start};
ghost use Rattle.pass_through.specs.PassTable.{identity_request, initial_pass, is_started};
ghost use Rattle.pass_through.specs.PassTable.{pass_from_backend, pass_from_peer, pass_restart};
ghost use Rattle.pass_through.specs.PassTable.{without_padding};
ghost use Rattle.radius_carry.specs.Packet.{RadiusPacket, eap_of, number_of, spelled};
ghost use Rattle.radius_carry.specs.Written.{request_of};
ghost use Rattle.access_point.specs.Naming.{name_in};
ghost use Rattle.access_point.specs.Codes.{code_matches};

use eap_packet::{Code, decode};
use octet_lists::{IDENTITY, Identity, Injected, Octets, Packet, Secret};
use pass_through::PassThrough;
use radius_carry::{RadiusKind, attribute, eap_of, read_radius, reply_good, write_request};

/// The attribute State (RFC 2865 section 5.24).
const STATE: u8 = 24;

/// An access point, for one station.
#[derive(Drop)]
pub struct AccessPoint {
    pub pass: PassThrough,
    /// The secret that it shares with its server.
    pub secret: Secret,
    /// The station's name, for User-Name.
    pub user: Identity,
    /// State of the last reply; empty before the first.
    pub state: Octets<64>,
    /// The Identifier of the last request.
    pub id: u8,
    /// The Authenticator of the last request.
    pub authenticator: [u8; 16],
}

impl AccessPoint {
    ghost use Rattle.access_point.specs.Carrying.{IsReplyTo, answered, asks};

    /// An access point that shares this secret with its server, without a station.
    pub fn new(secret: Secret) -> AccessPoint
        ensures { result ≡ record {
          pass = initial_pass 0 4;
          secret = secret;
          user = [];
          state = [];
          id = 0;
          authenticator = replicate 16 0;
        } }
    {
        AccessPoint {
            pass: PassThrough::new(0, 4),
            secret,
            user: Identity::new(),
            state: Octets::new(),
            id: 0,
            authenticator: [0; 16],
        }
    }

    /// A station is there: the Identity Request for it, or None if one was there before.
    #[tactic(auto, unfolding(pass_through::specs::PassTable::pass_start))]
    pub fn begin(&mut self) -> Option<Packet>
        ensures once { result ≡ (if is_started self.old.pass.state then None
            else Some (identity_request self.old.pass.first_id)) }
        ensures after { self.new
            ≡ record self.old { pass = (pass_accepts self.old.pass start).after } }
    {
        if self.pass.started() {
            None
        } else {
            self.pass.start().to_peer
        }
    }

    /// The station is to log in again, in any state (reauthentication): the Identity Request for it. State is forgotten, since the
    /// server begins another session for it.
    #[tactic(auto, unfolding(pass_through::specs::PassTable::pass_restart))]
    pub fn restart(&mut self) -> Packet
        ensures sent { result ≡ identity_request self.old.pass.first_id }
        ensures after { self.new
            ≡ record self.old { pass = (pass_restart self.old.pass).after; state = [] } }
    {
        let mut packet = Packet::new();
        self.pass.restart_step(&mut packet);
        self.state = Octets::new();
        packet
    }

    /// A packet has come from the station: the Access-Request for the server, with this Authenticator, which is random; None if
    /// the packet is silently discarded.
    #[tactic(auto, using(crate::proofs::Forwarding::from_peer_forwards))]
    pub fn from_station(&mut self, packet: &[u8], authenticator: [u8; 16]) -> Option<Injected>
        ensures passes { IsSome result
            ↔ IsSome (pass_from_peer self.old.pass packet.now).step.sent }
        ensures sent { IfSome result
            (λ datagram. datagram ≡ spelled (request_of self.new.secret self.new.id authenticator
            self.new.user self.new.state (without_padding packet.now))) }
        ensures after { IfSome result
            (λ datagram. self.new ≡ asks self.old packet.now authenticator) }
        ensures unchanged { IfNone result (self.new ≡ self.old) }
    {
        let response = self.pass.from_peer(packet).to_server?;
        if let Some(name) = name_in(packet) {
            self.user = name;
        }
        self.id = self.id.wrapping_add(1);
        self.authenticator = authenticator;
        Some(write_request(
            self.secret.as_slice(),
            self.id,
            &self.authenticator,
            self.user.as_slice(),
            self.state.as_slice(),
            response.as_slice(),
        ))
    }

    /// A datagram has come from the server: the packet for the station; None if it isn't the reply to the last request, of one
    /// who knows the secret, with the Code of its packet and a State of at most 64 octets, or if what it carries is
    /// silently discarded. So the Code decides the port's state (RFC 3579 section 2.6.3).
    #[tactic(auto, unfolding(radius_carry::specs::Fault::value_of), using(crate::proofs::Forwarding::from_backend_forwards))]
    pub fn from_server(&mut self, datagram: &[u8]) -> Option<Packet>
        ensures good { IsSome result → (reply : RadiusPacket)
            × IsReplyTo self.old datagram.now reply }
        ensures sent { (reply : RadiusPacket) → IsReplyTo self.old datagram.now reply
            → result ≡ (pass_from_backend self.old.pass (eap_of reply.attributes)).step.sent }
        ensures after { (reply : RadiusPacket) → IsReplyTo self.old datagram.now reply
            → IsSome result → self.new ≡ answered self.old reply }
        ensures unchanged { IfNone result (self.new ≡ self.old) }
    {
        let reply = read_radius(datagram).ok()?;
        if reply.id != self.id || !reply_good(self.secret.as_slice(), &self.authenticator, &reply) {
            return None;
        }
        let state = attribute(&reply, STATE).unwrap_or(self.state.as_slice());
        let state = Octets::from_slice(state)?;
        let eap = eap_of(&reply);
        if !code_matches(reply.kind, eap.as_slice()) {
            return None;
        }
        let packet = self.pass.from_backend(eap.as_slice()).to_peer?;
        self.state = state;
        Some(packet)
    }
}

/// Whether a reply of this kind says what its packet says.
fn code_matches(kind: RadiusKind, packet: &[u8]) -> bool
    ensures { result ≡ code_matches (number_of kind) (packet_of packet.now) }
{
    match decode(packet) {
        Ok(view) => match view.code {
            Code::Request => kind == RadiusKind::Challenge,
            Code::Success => kind == RadiusKind::Accept,
            Code::Failure => kind == RadiusKind::Reject,
            Code::Response => false,
        },
        Err(_) => false,
    }
}

/// The name in a Response of Type Identity.
fn name_in(packet: &[u8]) -> Option<Identity>
    ensures { result ≡ name_in (packet_of packet.now) }
{
    let view = decode(packet).ok()?;
    if view.code == Code::Response && view.kind == IDENTITY {
        Identity::from_slice(view.body)
    } else {
        None
    }
}
