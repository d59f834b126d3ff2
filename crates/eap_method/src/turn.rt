//! What a method's object answers to a packet. The packet that it sends and the records of its tags
//! are in the buffers passed to the call.

ghost use Rattle.std.specs.Prelude.{◌≡◌, true};
ghost use Rattle.eap_method.specs.Capacity.{HasCapacity, replies, requests, PeerTurnHasCapacity};
ghost use Rattle.eap_method.specs.Capacity.{ServerTurnHasCapacity};
ghost use Rattle.eap_method.specs.PeerTurn.{peer_turn_with, peer_turn_of, peer_tags};
ghost use Rattle.eap_method.specs.ServerTurn.{server_turn_with, server_turn_of, server_tags};

use crate::tags::Tags;
use crate::values::{Decision, MethodState};
use eap_packet::Cause;
use octet_lists::Packet;

/// A peer's answer to a Request of its method.
#[derive(Clone, Copy, PartialEq, Eq, Debug)]
pub enum PeerAnswer {
    /// The Request is discarded, and nothing changes.
    Discard(Cause),
    /// A Response, and the methodState and decision after it (RFC 4137 section 4.2).
    Reply {
        state: MethodState,
        decision: Decision,
    },
}

/// A server's answer to a Response of its method.
#[derive(Clone, Copy, PartialEq, Eq, Debug)]
pub enum ServerAnswer {
    /// The Response is discarded, and nothing changes.
    Discard(Cause),
    /// The next Request.
    Request,
    /// The method is over, with success or with failure.
    Done { success: bool },
}

/// A peer's whole answer to a Request of its method.
#[derive(Drop)]
pub enum PeerTurn {
    /// The Request is discarded, and nothing changes.
    Discard(Cause),
    /// A Response, the methodState and decision after it (RFC 4137 section 4.2), and the records of the tags accepted
    /// and made.
    Reply {
        packet: Packet,
        state: MethodState,
        decision: Decision,
        tags: Tags,
    },
}

/// A server's whole answer to a Response of its method.
#[derive(Drop)]
pub enum ServerTurn {
    /// The Response is discarded, and nothing changes.
    Discard(Cause),
    /// The next Request, and the records of the tags accepted and made.
    Request { packet: Packet, tags: Tags },
    /// The method is over, with success or with failure.
    Done { success: bool, tags: Tags },
}

impl PeerAnswer {
    /// The turn with the packet and the records that its call wrote.
    pub fn with(self, packet: Packet, tags: Tags) -> PeerTurn
        ensures turn { peer_turn_of result ≡ peer_turn_with self packet tags }
        ensures capacity { (replies self ≡ true → HasCapacity packet) → PeerTurnHasCapacity result }
    {
        match self {
            PeerAnswer::Discard(cause) => PeerTurn::Discard(cause),
            PeerAnswer::Reply { state, decision } => PeerTurn::Reply {
                packet,
                state,
                decision,
                tags,
            },
        }
    }
}

impl ServerAnswer {
    /// The turn with the packet and the records that its call wrote.
    pub fn with(self, packet: Packet, tags: Tags) -> ServerTurn
        ensures turn { server_turn_of result ≡ server_turn_with self packet tags }
        ensures capacity { (requests self ≡ true → HasCapacity packet)
            → ServerTurnHasCapacity result }
    {
        match self {
            ServerAnswer::Discard(cause) => ServerTurn::Discard(cause),
            ServerAnswer::Request => ServerTurn::Request { packet, tags },
            ServerAnswer::Done { success } => ServerTurn::Done { success, tags },
        }
    }
}

impl PeerTurn {
    /// Writes the Response and the records in place of what was there; a discard leaves no record.
    pub fn put(self, packet: &mut Packet, tags: &mut Tags) -> PeerAnswer
        ensures turn { peer_turn_with result packet.new tags.new ≡ peer_turn_of self }
        ensures tags { tags.new ≡ peer_tags (peer_turn_of self) }
        ensures capacity { PeerTurnHasCapacity self → replies result ≡ true
            → HasCapacity packet.new }
    {
        match self {
            PeerTurn::Discard(cause) => {
                tags.clear();
                PeerAnswer::Discard(cause)
            }
            PeerTurn::Reply {
                packet: sent,
                state,
                decision,
                tags: records,
            } => {
                *packet = sent;
                *tags = records;
                PeerAnswer::Reply { state, decision }
            }
        }
    }
}

impl ServerTurn {
    /// Writes the Request and the records in place of what was there; a discard leaves no record.
    pub fn put(self, packet: &mut Packet, tags: &mut Tags) -> ServerAnswer
        ensures turn { server_turn_with result packet.new tags.new ≡ server_turn_of self }
        ensures tags { tags.new ≡ server_tags (server_turn_of self) }
        ensures capacity { ServerTurnHasCapacity self → requests result ≡ true
            → HasCapacity packet.new }
    {
        match self {
            ServerTurn::Discard(cause) => {
                tags.clear();
                ServerAnswer::Discard(cause)
            }
            ServerTurn::Request {
                packet: sent,
                tags: records,
            } => {
                *packet = sent;
                *tags = records;
                ServerAnswer::Request
            }
            ServerTurn::Done {
                success,
                tags: records,
            } => {
                *tags = records;
                ServerAnswer::Done { success }
            }
        }
    }
}
