//! The session of a handle: an end, and what it has sent.

ghost use Rattle.std.specs.Prelude.{All, IsTrue};
ghost use Rattle.login_setup.specs.Setup.{has_valid_key};

use eapol_frame::EapolFrame;
use end_objects::{MAX_OTHERS, OtherUsers, PeerObject, ServerObject};
use octet_lists::{Packet, Secret};
use pass_through::PassThrough;
use peer_machine::PeerMachine;
use server_machine::{SizedBackend, SizedServer};
use supplicant::Supplicant;
use switch_port::SwitchPort;

/// A stand-alone server with room for the users that settings give.
pub type Server = SizedServer<ServerObject, MAX_OTHERS>;

/// A backend with room for the users that settings give.
pub type Backend = SizedBackend<ServerObject, MAX_OTHERS>;

/// Which end a session is. But for a peer it has the packet that it sent last since its begin or restart, of no octets
/// before the first; a peer's is its lastRespData. A supplicant has the frame, a port the frame or the server's packet.
#[derive(Drop)]
pub enum End {
    /// None.
    Closed,
    /// A peer's method alone, with its key.
    PeerMethod(PeerObject, Secret, Box<Packet>),
    /// A server's method alone, with its users.
    ServerMethod(ServerObject, CheckedUsers, Box<Packet>),
    /// A peer.
    Peer(PeerMachine<PeerObject>),
    /// A stand-alone server.
    Server(Server, Box<Packet>),
    /// A backend behind a pass-through.
    Backend(Backend, Box<Packet>),
    /// A pass-through.
    Pass(PassThrough, Box<Packet>),
    /// A supplicant of IEEE 802.1X.
    Supplicant(Supplicant<PeerObject>, Box<EapolFrame>),
    /// The port of an authenticator of IEEE 802.1X.
    Port(SwitchPort, Box<EapolFrame>),
}

impl End {
    ghost use Rattle.std.specs.Prelude.{◌≡◌};
    ghost use Rattle.tuvaddri_c.specs.Ends.{is_peer, is_at_peer};
    ghost use Rattle.tuvaddri_c.specs.Sent.{sent_packet};

    /// Whether it is a peer's machine.
    pub fn is_peer(&self) -> bool
        ensures { result ≡ is_peer self.now }
    {
        match self {
            End::Peer(_) => true,
            _ => false,
        }
    }

    /// Whether it is a peer's machine, a peer's method or a supplicant.
    pub fn is_at_peer(&self) -> bool
        ensures { result ≡ is_at_peer self.now }
    {
        match self {
            End::Peer(_) | End::PeerMethod(_, _, _) | End::Supplicant(_, _) => true,
            _ => false,
        }
    }

    /// The packet that it sent last; no octets before the first.
    pub fn last_packet(&self) -> &[u8]
        ensures { result.now ≡ sent_packet self.now }
    {
        match self {
            End::Closed => &[],
            End::PeerMethod(_, _, last) => last.as_slice(),
            End::ServerMethod(_, _, last) => last.as_slice(),
            End::Peer(machine) => machine.last_response(),
            End::Server(_, last) => last.as_slice(),
            End::Backend(_, last) => last.as_slice(),
            End::Pass(_, last) => last.as_slice(),
            End::Supplicant(_, last) => last.as_slice(),
            End::Port(_, last) => last.as_slice(),
        }
    }
}

/// Users whose keys fit their methods.
#[derive(Drop)]
pub struct CheckedUsers {
    pub users: OtherUsers,
    pub ghost fit: { All (λ user. IsTrue (has_valid_key user)) users },
}

/// An end, and whether its last turn sent a packet.
#[derive(Drop)]
pub struct Session {
    pub end: End,
    pub fresh: bool,
}

impl Session {
    ghost use Rattle.std.specs.Prelude.{◌≡◌};
    ghost use Rattle.tuvaddri_c.specs.Sent.{no_end};

    /// No end.
    pub fn closed() -> Session
        ensures { result ≡ no_end }
    {
        Session {
            end: End::Closed,
            fresh: false,
        }
    }
}
