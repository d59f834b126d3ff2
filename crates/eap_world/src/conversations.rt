//! The conversations of both ends: the nonces that are still to be used, those with which a conversation has begun, and
//! whether each was fresh.

ghost use Rattle.std.specs.Prelude.{◌≡◌, ◌≤◌, ◌<◌, ◌+◌, ◌∷◌, ◌++◌, [], ◌&&◌, length, not};
ghost use Rattle.arrayvec.specs.ArrayVec.{array_vec_len};
ghost use Rattle.std.specs.Str.{bytes_eq};
ghost use Rattle.eap_world.specs.Conversations.{front, is_new, is_used};
ghost use Rattle.eap_world.specs.TwoRecords.{fronts_differ};

use crate::nonces_left::NoncesLeft;
use arrayvec::ArrayVec;
use login_setup::Later;
use octet_lists::Nonce;
use std::marker::Model;
use tag_book::End;

/// The most conversations of both ends.
const MAX_CONVERSATIONS: usize = 32;

/// The octets of a nonce's prefix that are compared.
pub const FRONT: usize = 16;

/// A nonce with which an end may still begin a conversation.
#[derive(Clone, Copy)]
pub struct Waiting {
    pub nonce: Nonce,
    /// Whether its first 16 octets have occurred, one after the other, in octets that were delivered to some party.
    pub heard: bool,
}

/// A conversation that has begun.
#[derive(Clone, Copy, Default)]
pub struct ConversationStart {
    /// The event in which it began, 0 for the first of each end.
    pub event: u32,
    pub end: End,
    pub nonce: Nonce,
}

/// The conversations of both ends: the nonces that each end still has, in their order, which conversations have begun, and
/// whether each of these began with a fresh nonce. A nonce is fresh if no conversation of either end has begun with one
/// of the same first 16 octets, and these have not occurred, one after the other, in octets that were delivered to some
/// party. Each end has at most 16 conversations, and no memory is allocated.
#[derive(Drop)]
pub struct Conversations {
    peer_left: NoncesLeft,
    server_left: NoncesLeft,
    begun: ArrayVec<ConversationStart, MAX_CONVERSATIONS>,
    /// Whether each conversation after the first of each end began with a fresh nonce. The first two nonces are
    /// compared when that is asked for, so that a world is made without a branch: with one it would be moved once more.
    later_fresh: bool,
}

impl Model for Conversations {
    ghost use Rattle.std.specs.Prelude.{◌≤◌, ◌+◌, ◌&&◌, length};
    ghost use Rattle.arrayvec.specs.ArrayVec.{array_vec_len};
    ghost use Rattle.eap_world.specs.Conversations.{Conversations as ConversationsValue};
    ghost use Rattle.eap_world.specs.TwoRecords.{fronts_differ};

    ghost Value = { ConversationsValue };

    ghost view = { λ c. record {
      peer_left = c.peer_left;
      server_left = c.server_left;
      begun = c.begun.items;
      fresh = c.later_fresh && fronts_differ c.begun.items;
    } };

    // Both ends have begun one, and there is room for a conversation with each nonce that is left.
    ghost invariant = { λ c. (2 ≤ array_vec_len c.begun)
        × (array_vec_len c.begun + (length c.peer_left + length c.server_left) ≤ 32) };
}

impl Conversations {
    ghost use Rattle.eap_world.specs.Conversations.{conversations_from, delivered_by, next_nonce};
    ghost use Rattle.eap_world.specs.Conversations.{peer_initiates, server_initiates};
    ghost use Rattle.eap_world.specs.World.{has_none};

    /// Both ends have begun their first conversation, with these nonces, in event 0; the later nonces are left.
    pub fn new(peer: Nonce, server: Nonce, later: Later) -> Conversations
        ensures { result ≡ conversations_from peer server later }
    {
        let mut begun = ArrayVec::new();
        begun.push(ConversationStart {
            event: 0,
            end: End::Peer,
            nonce: peer,
        });
        begun.push(ConversationStart {
            event: 0,
            end: End::Server,
            nonce: server,
        });
        Conversations {
            peer_left: NoncesLeft::new(later.peer),
            server_left: NoncesLeft::new(later.server),
            begun,
            later_fresh: true,
        }
    }

    /// Octets are delivered to some party: it is recorded of each nonce left whether its first 16 octets occur in them.
    pub fn receive(&mut self, octets: &[u8])
        ensures { self.new ≡ delivered_by octets.now self.old }
    {
        self.peer_left.receive(octets);
        self.server_left.receive(octets);
    }

    /// The peer begins a conversation in this event, with the next of its nonces, which is returned. None exactly if it
    /// has none left; nothing changes then.
    pub fn start_peer(&mut self, event: u32) -> Option<Nonce>
        ensures next { result ≡ next_nonce self.old.peer_left }
        ensures initiated { self.new ≡ peer_initiates event self.old self.old.peer_left }
    {
        match self.peer_left.next_unused() {
            None => None,
            Some(one) => {
                begin(
                    &mut self.begun,
                    &mut self.later_fresh,
                    event,
                    End::Peer,
                    &one,
                );
                Some(one.nonce)
            }
        }
    }

    /// The same of the server.
    pub fn start_server(&mut self, event: u32) -> Option<Nonce>
        ensures next { result ≡ next_nonce self.old.server_left }
        ensures initiated { self.new ≡ server_initiates event self.old self.old.server_left }
    {
        match self.server_left.next_unused() {
            None => None,
            Some(one) => {
                begin(
                    &mut self.begun,
                    &mut self.later_fresh,
                    event,
                    End::Server,
                    &one,
                );
                Some(one.nonce)
            }
        }
    }

    /// Whether the peer has a nonce left.
    pub fn has_peer_nonce(&self) -> bool
        ensures { result ≡ not (has_none self.now.peer_left) }
    {
        !self.peer_left.is_empty()
    }

    /// Whether the server has a nonce left.
    pub fn has_server_nonce(&self) -> bool
        ensures { result ≡ not (has_none self.now.server_left) }
    {
        !self.server_left.is_empty()
    }

    /// Whether each conversation that has begun did so with a fresh nonce.
    pub fn fresh(&self) -> bool
        ensures { result ≡ self.now.fresh }
    {
        self.later_fresh && !has_front(&self.begun[0].nonce, &self.begun[1].nonce)
    }
}

/// A conversation begins with the nonce, and there is room for it.
#[tactic(auto, using(crate::proofs::TwoRecords::fresh_still))]
fn begin(
    begun: &mut ArrayVec<ConversationStart, MAX_CONVERSATIONS>,
    later_fresh: &mut bool,
    event: u32,
    end: End,
    one: &Waiting,
)
    requires two { 2 ≤ length begun.old.items }
    requires capacity { array_vec_len begun.old < 32 }
    ensures started { begun.new.items
        ≡ begun.old.items ++ record { event = event; end = end; nonce = one.now.nonce } ∷ [] }
    ensures count { array_vec_len begun.new ≡ array_vec_len begun.old + 1 }
    ensures fresh { (later_fresh.new && fronts_differ begun.new.items)
        ≡ ((later_fresh.old && fronts_differ begun.old.items) && is_new begun.old.items one.now) }
{
    *later_fresh = stays_fresh(*later_fresh, begun.as_slice(), one);
    begun.push(ConversationStart {
        event,
        end,
        nonce: one.nonce,
    });
}

/// Whether two nonces have the same first 16 octets.
fn has_front(nonce: &Nonce, other: &Nonce) -> bool
    ensures { result ≡ bytes_eq (front nonce.now) (front other.now) }
{
    nonce[..FRONT] == other[..FRONT]
}

/// Whether a conversation has begun with a nonce of the same first 16 octets.
fn is_used(begun: &[ConversationStart], nonce: &Nonce) -> bool
    ensures { result ≡ is_used begun.now nonce.now }
{
    begun.iter().any(|one| has_front(&one.nonce, nonce))
}

/// Whether a conversation that begins with this nonce begins with a fresh one.
fn is_new(begun: &[ConversationStart], one: &Waiting) -> bool
    ensures { result ≡ is_new begun.now one.now }
{
    !one.heard && !is_used(begun, &one.nonce)
}

/// Whether all that have begun did so with a fresh nonce, one with this nonce among them.
fn stays_fresh(fresh: bool, begun: &[ConversationStart], one: &Waiting) -> bool
    ensures { result ≡ (fresh && is_new begun.now one.now) }
{
    fresh && is_new(begun, one)
}
