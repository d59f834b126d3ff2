//! The methods behind two traits: what an object of EAP-PSK (RFC 4764) or EAP-GPSK (RFC 5433) brings
//! into a login and gets from it, its turn for each packet, and the records of its tags.
#![tactic(auto)]

mod note;
mod outcome;
mod pairs;
mod peer;
mod peer_objects;
mod peer_side;
mod psk_macs;
mod records;
mod server;
mod server_objects;
mod step;
mod tags;
mod turn;
mod turns;
mod values;

pub use outcome::Outcome;
pub use pairs::{peer_pair, server_pair};
pub use peer::PeerMethod;
pub use peer_objects::{call_peer_method, find_peer, has_peers, peer_report, start_peers};
pub use peer_side::PeerSide;
pub use psk_macs::{mac_p, mac_s};
pub use records::{NoRecords, Records, TwoRecords};
pub use server::ServerMethod;
pub use server_objects::{
    call_server_method, find_server, has_servers, offer_method, server_report, side_of,
    start_servers,
};
pub use step::{Step, WholeStep, has_ended};
pub use tags::{Covering, Label, TagList, TagRecord, Tags};
pub use turn::{PeerAnswer, PeerTurn, ServerAnswer, ServerTurn};
pub use turns::Turns;
pub use values::{Credential, Decision, MethodState, Methods, Report, ServerSide};
