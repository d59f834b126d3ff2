//! The configuration of both ends before a run, and the events of a run.
#![tactic(auto)]

mod event;
mod nonces;
mod setup;
mod soundness;
mod users;

pub use event::Event;
pub use nonces::Nonces;
pub use setup::{Accepts, Later, Mode, Party, PeerSetup, Port, ServerSetup, Setup};
pub use soundness::{are_kinds, are_suites, has_key_size, is_sound_peer, is_sound_server};
pub use users::{MAX_USERS, User, UserList, Users, find_user};
