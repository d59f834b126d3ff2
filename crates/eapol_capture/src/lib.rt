//! Captured Ethernet frames in pcap files, and the EAP packets that EAPOL carries in them.
#![tactic(auto)]

mod frame;
mod header;
mod laws;
mod order;
mod reader;

pub use frame::{FrameContents, FrameFinding, contents_of_frame, eap_of_frame};
pub use laws::{encoded_files_are_read, encoded_frames_carry_their_packets, fronts_carry_the_same};
pub use order::OctetOrder;
pub use reader::{NextRecord, PcapReader};
