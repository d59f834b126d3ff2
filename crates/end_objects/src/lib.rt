//! An object of either method for each end, and the settings of an end from octets and numbers.
#![tactic(auto)]

mod constructors;
mod objects;
mod refusals;
mod settings;

pub use constructors::{peer_objects, server_objects};
pub use login_setup::{is_sound_peer, is_sound_server};
pub use objects::{Nonces, PeerObject, ServerObject, peer_object, server_object};
pub use refusals::{
    Refusal, peer_refusal, retry_refusal, server_refusal, stand_alone_refusal, user_refusal,
};
pub use settings::{
    MAX_OTHERS, OtherUsers, SETTINGS_SIZE, Settings, add_users, credential, first_kind, key_for,
    keyed_kinds, kinds_of, peer_setup, server_alone, server_side, suites_of, user_of,
};
