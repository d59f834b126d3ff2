//! The call of an object of a method, with room for the records of its tags or none.

ghost use Rattle.std.specs.Prelude.{◌≡◌, ◌≤◌, length, true, IsTrue, All};
ghost use Rattle.login_setup.specs.Setup.{has_valid_key};
ghost use Rattle.login_setup.specs.Users.{AreDistinct, max_users};
ghost use Rattle.eap_method.specs.Capacity.{HasCapacity, replies, requests};
ghost use Rattle.eap_method.specs.Peer.{peer_kind, peer_step, IsRequest};
ghost use Rattle.eap_method.specs.PeerTurn.{peer_turn_with, peer_tags};
ghost use Rattle.eap_method.specs.Server.{server_kind, server_step, IsResponse};
ghost use Rattle.eap_method.specs.ServerTurn.{server_turn_with, server_tags};

use crate::peer::PeerMethod;
use crate::records::{NoRecords, Records, TwoRecords};
use crate::server::ServerMethod;
use crate::tags::Tags;
use crate::turn::{PeerAnswer, ServerAnswer};
use login_setup::User;
use octet_lists::Packet;

/// Room for the records of a turn's tags, or none: it chooses the call of the object, so that no turn makes room of its
/// own beside it.
pub trait Turns: Records {
    /// The turn of a peer's object, as `PeerMethod::handle_into`.
    fn peer_turn<M: PeerMethod>(
        method: &mut M,
        request: &[u8],
        packet: &mut Packet,
        tags: &mut Tags<Self>,
    ) -> PeerAnswer
    where
        Self: Sized,
        requires { IsRequest (peer_kind (M.peer_shown method.old)) request.now }
        ensures turn { peer_step (M.peer_shown method.old) request.now
            ≡ record {
              turn = peer_turn_with result packet.new tags.new;
              after = M.peer_shown method.new;
            } }
        ensures tags { tags.new ≡ peer_tags (peer_turn_with result packet.new tags.new) }
        ensures capacity { replies result ≡ true → HasCapacity packet.new };

    /// The turn of a server's object, as `ServerMethod::handle_into`.
    fn server_turn<M: ServerMethod>(
        method: &mut M,
        response: &[u8],
        next_id: u8,
        users: &[User],
        packet: &mut Packet,
        tags: &mut Tags<Self>,
    ) -> ServerAnswer
    where
        Self: Sized,
        requires response { IsResponse (server_kind (M.server_shown method.old)) response.now }
        requires keys { All (λ user. IsTrue (has_valid_key user)) users.now }
        requires distinct { AreDistinct users.now }
        requires few { length users.now ≤ max_users }
        ensures turn { server_step users.now next_id (M.server_shown method.old) response.now
            ≡ record {
              turn = server_turn_with result packet.new tags.new;
              after = M.server_shown method.new;
            } }
        ensures tags { tags.new ≡ server_tags (server_turn_with result packet.new tags.new) }
        ensures capacity { requests result ≡ true → HasCapacity packet.new };
}

impl Turns for TwoRecords {
    fn peer_turn<M: PeerMethod>(
        method: &mut M,
        request: &[u8],
        packet: &mut Packet,
        tags: &mut Tags,
    ) -> PeerAnswer {
        method.handle_into(request, packet, tags)
    }

    fn server_turn<M: ServerMethod>(
        method: &mut M,
        response: &[u8],
        next_id: u8,
        users: &[User],
        packet: &mut Packet,
        tags: &mut Tags,
    ) -> ServerAnswer {
        method.handle_into(response, next_id, users, packet, tags)
    }
}

impl Turns for NoRecords {
    fn peer_turn<M: PeerMethod>(
        method: &mut M,
        request: &[u8],
        packet: &mut Packet,
        tags: &mut Tags<NoRecords>,
    ) -> PeerAnswer {
        method.handle_unrecorded(request, packet, tags)
    }

    fn server_turn<M: ServerMethod>(
        method: &mut M,
        response: &[u8],
        next_id: u8,
        users: &[User],
        packet: &mut Packet,
        tags: &mut Tags<NoRecords>,
    ) -> ServerAnswer {
        method.handle_unrecorded(response, next_id, users, packet, tags)
    }
}
