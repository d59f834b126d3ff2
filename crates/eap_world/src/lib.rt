//! Both ends of a login over events: the peer of RFC 4137 section 4 and the server of section 5, or of section
//! 6 behind the pass-through of section 7; what they have sent, the book of the ends' tags, the conversations that they
//! have begun, what each event does, and whether the ends agree.
#![tactic(auto)]

mod act;
mod conversations;
mod nonces_left;
mod store;
mod told;
mod verdict;
mod world;

pub use act::{Action, CallResult, Machines};
pub use conversations::{ConversationStart, Conversations, Waiting};
pub use eap_method::Methods;
pub use store::{Slot, Store, Stored};
pub use tag_book::TagsVerdict;
pub use told::{Brief, Counts, Named, SentNumber, SentPacket, Skip, Told};
pub use verdict::Verdict;
pub use world::{HasReported, MAX_EVENTS, Memory, World};
