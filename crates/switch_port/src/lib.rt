//! The port of an authenticator (IEEE 802.1X-2004 clause 8.2) over the pass-through of EAP: a switch
//! or an access point opens it behind a station that a login server accepts.
#![tactic(auto)]

mod laws;
mod machine;
mod settings;
mod step;

pub use laws::{discards_change_nothing, opens_only_by_accept};
pub use machine::SwitchPort;
pub use settings::{Phase, PortControl, PortLimits};
pub use step::{PortCause, PortStep, ServerAnswer};
