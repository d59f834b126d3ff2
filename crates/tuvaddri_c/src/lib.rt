//! The ends of EAP for programs in C: the machines of RFC 4137, the methods alone, and over them the supplicant and the port of
//! IEEE 802.1X-2004, each behind a handle that the program keeps.
#![tactic(auto)]

mod answers;
mod by_method;
mod deliver;
mod failure;
mod gpsk;
mod handle;
mod held;
mod method_turn;
mod methods;
mod name;
mod parts;
mod pass;
mod peer;
mod place;
mod port_calls;
mod port_turn;
mod psk;
mod report;
mod restart;
mod rooms;
mod sent;
mod server;
mod session;
mod session_id;
mod supplicant_calls;
mod supplicant_turn;
mod turn;
mod users;

pub use failure::TuvFailure;
pub use handle::TuvEnd;
pub use method_turn::TuvMethodTurn;
pub use place::TuvPlace;
pub use port_calls::TuvPortLimits;
pub use port_turn::TuvPortTurn;
pub use report::TuvReport;
pub use session::{CheckedUsers, End, Session};
pub use supplicant_calls::TuvSupplicantLimits;
pub use supplicant_turn::TuvSupplicantTurn;
pub use turn::TuvTurn;
