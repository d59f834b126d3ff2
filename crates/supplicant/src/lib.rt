//! A supplicant, from EAPOL frame to EAPOL frame: the machines of IEEE 802.1X-2004 clauses 8.2.11 and 8.2.12 over the peer of
//! RFC 4137 section 4.
#![tactic(auto)]

mod laws;
mod machine;
mod settings;
mod step;

pub use laws::{authenticated_reports, discards_change_nothing, peer_is_an_end, sends_own_frames};
pub use machine::Supplicant;
pub use settings::{Control, Limits, PaeState};
pub use step::{Discard, SupplicantStep};
