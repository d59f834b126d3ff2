//! The summary of conversations.

ghost use Rattle.std.specs.Prelude.{◌≡◌, ◌+◌, ℕ};
ghost use Rattle.eap_world.specs.World.{now_of};
ghost use Rattle.bulk_run.specs.RunningEnd.{AreFew};
ghost use Rattle.bulk_run.specs.Summing.{counts_of, nothing_counted, plus, IsAtMost};

use eap_method::{PeerMethod, ServerMethod};
use eap_world::{Verdict, World};
use tag_book::TagsVerdict;

/// How many conversations there were, and their results, added up.
#[derive(Clone, Copy, PartialEq, Eq, Debug)]
pub struct Summary {
    pub conversations: u32,
    /// Those in which both ends succeeded and agree.
    pub agree: u32,
    /// Those in which not both ends succeeded.
    pub unfinished: u32,
    /// Those in which both ends succeeded and don't agree.
    pub apart: u32,
    /// Those in which an end accepted a tag that the other hadn't made.
    pub broken: u32,
    /// The events that delivered octets to a party.
    pub deliveries: u32,
    /// The events whose octets the party discarded.
    pub discards: u32,
}

impl Summary {
    /// No conversation.
    pub fn new() -> Summary
        ensures { result ≡ nothing_counted }
    {
        Summary {
            conversations: 0,
            agree: 0,
            unfinished: 0,
            apart: 0,
            broken: 0,
            deliveries: 0,
            discards: 0,
        }
    }

    /// This conversation, at its end.
    #[tactic(auto, unfolding(crate::specs::Summing::counts_of))]
    pub fn of<P: PeerMethod, S: ServerMethod>(world: &World<P, S>) -> Summary
        requires { AreFew world.now.counts 40 }
        ensures value { result ≡ counts_of (now_of P.peer_shown S.server_shown world.now) }
        ensures small { IsAtMost result 40 }
    {
        let verdict = world.result();
        let counts = world.counts();
        Summary {
            conversations: 1,
            agree: u32::from(verdict == Verdict::Agree),
            unfinished: u32::from(verdict == Verdict::Unfinished),
            apart: u32::from(verdict == Verdict::Apart),
            broken: u32::from(world.tags() != TagsVerdict::Honest),
            deliveries: counts.deliveries,
            discards: counts.discards,
        }
    }

    /// Both added up.
    pub fn plus(self, other: Summary) -> Summary
        requires capacity { IsAtMost self 100000 }
        requires other { IsAtMost other 40 }
        ensures value { result ≡ plus self other }
        ensures small { (most : ℕ) → IsAtMost self most → IsAtMost result (most + 40) }
    {
        Summary {
            conversations: self.conversations + other.conversations,
            agree: self.agree + other.agree,
            unfinished: self.unfinished + other.unfinished,
            apart: self.apart + other.apart,
            broken: self.broken + other.broken,
            deliveries: self.deliveries + other.deliveries,
            discards: self.discards + other.discards,
        }
    }
}
