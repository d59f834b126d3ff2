//! An object of either method, for each side.

ghost use Rattle.std.specs.Prelude.{◌≡◌, ◌==◌, true, if◌then◌else◌};
ghost use Rattle.octet_lists.specs.Among.{is_kind, psk_kind};
ghost use Rattle.eap_method.specs.Peer as peers;
ghost use Rattle.eap_method.specs.Peer.{peer_kind};
ghost use Rattle.eap_method.specs.Server as servers;
ghost use Rattle.eap_method.specs.Server.{server_kind};
ghost use Rattle.end_objects.specs.Objects.{peer_object_shown, server_object_shown};

use eap_method::{
    Credential, NoRecords, PeerAnswer, PeerMethod, PeerTurn, Report, ServerAnswer, ServerMethod,
    ServerSide, ServerTurn, Tags,
};
use gpsk_ends::{GpskPeer, GpskServer};
use login_setup::{User, Users};
use octet_lists::{Nonce, Octets, PSK_KIND, Packet};
use psk_ends::{PskPeer, PskServer};

/// The two nonces of a login: RAND_P and RAND_S of EAP-PSK, of 16 octets (RFC 4764 sections 5.1 and 5.2), or RAND_Peer
/// and RAND_Server of EAP-GPSK, of 32 (RFC 5433 section 3).
#[derive(Drop)]
pub struct Nonces {
    pub peer: Octets<32>,
    pub server: Octets<32>,
}

impl Nonces {
    ghost use Rattle.end_objects.specs.Objects.{of_psk, of_gpsk};

    fn of_psk(psk: psk_ends::Nonces) -> Nonces
        ensures { result ≡ of_psk psk }
    {
        Nonces {
            peer: Octets::of(&psk.rand_p),
            server: Octets::of(&psk.rand_s),
        }
    }

    fn of_gpsk(gpsk: gpsk_ends::Nonces) -> Nonces
        ensures { result ≡ of_gpsk gpsk }
    {
        Nonces {
            peer: Octets::of(&gpsk.rand_p),
            server: Octets::of(&gpsk.rand_s),
        }
    }
}

/// A peer of EAP-PSK or of EAP-GPSK.
#[derive(Drop)]
pub enum PeerObject {
    Psk(PskPeer),
    Gpsk(GpskPeer),
}

/// The peer's object of the method, 47 or 51.
pub fn peer_object(kind: u8) -> PeerObject
    requires { is_kind kind ≡ true }
    ensures kind { peer_kind (peer_object_shown result) ≡ kind }
    ensures method { peers.method_of (peer_object_shown result)
        ≡ (if kind == psk_kind then peers.by_psk else peers.by_gpsk) }
{
    if kind == PSK_KIND {
        PeerObject::Psk(PskPeer::new())
    } else {
        PeerObject::Gpsk(GpskPeer::new())
    }
}

impl PeerObject {
    ghost use Rattle.end_objects.specs.Objects.{peer_object_shown, peer_nonces, peer_has_failed};

    /// The nonces of a login that has succeeded; None before and after any other.
    pub fn nonces(&self) -> Option<Nonces>
        ensures { result ≡ peer_nonces (peer_object_shown self.now) }
    {
        match self {
            PeerObject::Psk(peer) => peer.nonces().map(Nonces::of_psk),
            PeerObject::Gpsk(peer) => peer.nonces().map(Nonces::of_gpsk),
        }
    }

    /// Whether the login has failed within the method: the server has refused the peer.
    pub fn has_failed(&self) -> bool
        ensures { result ≡ peer_has_failed (peer_object_shown self.now) }
    {
        match self {
            PeerObject::Psk(peer) => peer.has_failed(),
            PeerObject::Gpsk(peer) => peer.has_failed(),
        }
    }
}

impl PeerMethod for PeerObject {
    ghost use Rattle.end_objects.specs.Objects.{peer_object_shown};

    ghost peer_shown = { peer_object_shown };

    fn kind(&self) -> u8 {
        match self {
            PeerObject::Psk(peer) => peer.kind(),
            PeerObject::Gpsk(peer) => peer.kind(),
        }
    }

    fn begin(&mut self, cred: &Credential, nonce: &Nonce) {
        match self {
            PeerObject::Psk(peer) => peer.begin(cred, nonce),
            PeerObject::Gpsk(peer) => peer.begin(cred, nonce),
        }
    }

    fn handle(&mut self, request: &[u8]) -> PeerTurn {
        let mut packet = Packet::new();
        let mut tags = Tags::new();
        let answer = self.handle_into(request, &mut packet, &mut tags);
        answer.with(packet, tags)
    }

    fn handle_into(&mut self, request: &[u8], packet: &mut Packet, tags: &mut Tags) -> PeerAnswer {
        match self {
            PeerObject::Psk(peer) => peer.handle_into(request, packet, tags),
            PeerObject::Gpsk(peer) => peer.handle_into(request, packet, tags),
        }
    }

    fn handle_unrecorded(
        &mut self,
        request: &[u8],
        packet: &mut Packet,
        tags: &mut Tags<NoRecords>,
    ) -> PeerAnswer {
        match self {
            PeerObject::Psk(peer) => peer.handle_unrecorded(request, packet, tags),
            PeerObject::Gpsk(peer) => peer.handle_unrecorded(request, packet, tags),
        }
    }

    fn report(&self) -> Option<Report> {
        match self {
            PeerObject::Psk(peer) => peer.report(),
            PeerObject::Gpsk(peer) => peer.report(),
        }
    }
}

/// A server of EAP-PSK or of EAP-GPSK.
#[derive(Drop)]
pub enum ServerObject {
    Psk(PskServer),
    Gpsk(GpskServer),
}

/// The server's object of the method, 47 or 51.
pub fn server_object(kind: u8) -> ServerObject
    requires { is_kind kind ≡ true }
    ensures kind { server_kind (server_object_shown result) ≡ kind }
    ensures method { servers.method_of (server_object_shown result)
        ≡ (if kind == psk_kind then servers.by_psk else servers.by_gpsk) }
{
    if kind == PSK_KIND {
        ServerObject::Psk(PskServer::new())
    } else {
        ServerObject::Gpsk(GpskServer::new())
    }
}

impl ServerObject {
    ghost use Rattle.end_objects.specs.Objects.{server_object_shown, server_nonces, is_unknown};
    ghost use Rattle.end_objects.specs.Objects.{server_has_failed};

    /// The nonces of a login that has succeeded; None before and after any other.
    pub fn nonces(&self) -> Option<Nonces>
        ensures { result ≡ server_nonces (server_object_shown self.now) }
    {
        match self {
            ServerObject::Psk(server) => server.nonces().map(Nonces::of_psk),
            ServerObject::Gpsk(server) => server.nonces().map(Nonces::of_gpsk),
        }
    }

    /// Whether the server has refused a user that it doesn't know.
    pub fn is_unknown(&self) -> bool
        ensures { result ≡ is_unknown (server_object_shown self.now) }
    {
        match self {
            ServerObject::Psk(server) => server.is_unknown(),
            ServerObject::Gpsk(server) => server.is_unknown(),
        }
    }

    /// Whether the login of a user that the server knows has failed within the method.
    pub fn has_failed(&self) -> bool
        ensures { result ≡ server_has_failed (server_object_shown self.now) }
    {
        match self {
            ServerObject::Psk(server) => server.has_failed(),
            ServerObject::Gpsk(server) => server.has_failed(),
        }
    }
}

impl ServerMethod for ServerObject {
    ghost use Rattle.end_objects.specs.Objects.{server_object_shown};

    ghost server_shown = { server_object_shown };

    fn kind(&self) -> u8 {
        match self {
            ServerObject::Psk(server) => server.kind(),
            ServerObject::Gpsk(server) => server.kind(),
        }
    }

    fn begin(&mut self, own: &ServerSide, nonce: &Nonce) {
        match self {
            ServerObject::Psk(server) => server.begin(own, nonce),
            ServerObject::Gpsk(server) => server.begin(own, nonce),
        }
    }

    fn first(&mut self, id: u8) -> Packet {
        let mut packet = Packet::new();
        self.first_into(id, &mut packet);
        packet
    }

    fn handle(&mut self, response: &[u8], next_id: u8, users: &Users) -> ServerTurn {
        let mut packet = Packet::new();
        let mut tags = Tags::new();
        let answer = self.handle_into(response, next_id, users.as_slice(), &mut packet, &mut tags);
        answer.with(packet, tags)
    }

    fn first_into(&mut self, id: u8, packet: &mut Packet) {
        match self {
            ServerObject::Psk(server) => server.first_into(id, packet),
            ServerObject::Gpsk(server) => server.first_into(id, packet),
        }
    }

    fn handle_into(
        &mut self,
        response: &[u8],
        next_id: u8,
        users: &[User],
        packet: &mut Packet,
        tags: &mut Tags,
    ) -> ServerAnswer {
        match self {
            ServerObject::Psk(server) => server.handle_into(response, next_id, users, packet, tags),
            ServerObject::Gpsk(server) => server.handle_into(
                response, next_id, users, packet, tags,
            ),
        }
    }

    fn handle_unrecorded(
        &mut self,
        response: &[u8],
        next_id: u8,
        users: &[User],
        packet: &mut Packet,
        tags: &mut Tags<NoRecords>,
    ) -> ServerAnswer {
        match self {
            ServerObject::Psk(server) => server.handle_unrecorded(
                response, next_id, users, packet, tags,
            ),
            ServerObject::Gpsk(server) => server.handle_unrecorded(
                response, next_id, users, packet, tags,
            ),
        }
    }

    fn report(&self) -> Option<Report> {
        match self {
            ServerObject::Psk(server) => server.report(),
            ServerObject::Gpsk(server) => server.report(),
        }
    }
}
