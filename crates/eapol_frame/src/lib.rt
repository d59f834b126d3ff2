//! EAPOL frames behind the header of Ethernet (IEEE 802.1X-2004 clause 7.5): their reading and
//! writing.
#![tactic(auto)]

mod frame;
mod laws;

pub use frame::{
    EAP_PACKET, EAPOL_LOGOFF, EAPOL_START, EapolContents, EapolFrame, FrameCause, FrameView,
    read_frame, write_frame,
};
pub use laws::{frames_are_apart, frames_are_read, reads_the_frame};
