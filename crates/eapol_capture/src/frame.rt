//! EAP packets in Ethernet frames.

ghost use Rattle.std.specs.Prelude.{◌≡◌, ◌≤◌, length, nat_lt};
ghost use Rattle.eapol_capture.specs.Frames.{contents_of, finding_value, whole_value, size_of};
ghost use Rattle.eapol_capture.specs.Frames.{body_of, type_of};

use eapol_frame::{EAP_PACKET, read_frame};
use octet_lists::{Injected, Octets, array_of};

/// What a frame carries.
#[derive(Clone, Copy, Debug)]
pub enum FrameContents<'a> {
    /// No EAP packet.
    Other,
    /// EAPOL without its whole header, or an EAP packet without all its octets or of more than 2,000.
    Cut,
    /// An EAP packet: these octets, at most 2,000.
    Eap(&'a [u8]),
}

/// What a frame carries, with its octets.
#[derive(Drop, Debug)]
pub enum FrameFinding {
    /// No EAP packet.
    Other,
    /// EAPOL without its whole header, or an EAP packet without all its octets or of more than 2,000.
    Cut,
    /// An EAP packet.
    Eap(Injected),
}

/// The octets of a frame's two addresses and its type.
const ETHERNET: usize = 14;

/// These, and the version, the type and the length of EAPOL.
const EAPOL: usize = 18;

/// The type of a frame that carries EAPOL.
const EAPOL_TYPE: u16 = 0x888e;

/// The most octets of an EAP packet.
const MAX_PACKET: usize = 2000;

/// The type behind the addresses.
fn type_of(frame: &[u8]) -> u16
    requires { 14 ≤ length frame.now }
    ensures { result ≡ type_of frame.now }
{
    u16::from_be_bytes(array_of(&frame[12..14]))
}

/// The EAP packet in a frame with EAPOL's header, if it is whole.
fn body_of<'a>(frame: &'a [u8]) -> FrameContents<'a>
    requires { 18 ≤ length frame.now }
    ensures value { finding_value result ≡ body_of frame.now }
    ensures few { size_of (finding_value result) ≤ 2000 }
{
    match read_frame(&frame[ETHERNET..]) {
        Ok(view) if view.body.len() <= MAX_PACKET => FrameContents::Eap(view.body),
        _ => FrameContents::Cut,
    }
}

/// True for a frame without EAPOL's whole header.
fn is_short(frame: &[u8]) -> bool
    ensures { result ≡ nat_lt (length frame.now) 18 }
{
    frame.len() < EAPOL
}

/// What an Ethernet frame carries: an EAP packet is the body of EAPOL's type 0 (IEEE 802.1X-2010 clause
/// 11.3). `Cut`: the frame's type is 888e and it has under 18 octets, or EAPOL's type is 0 and its length is
/// over the octets that are there or over 2,000. `Other`: the frame has under 14 octets, its type isn't
/// 888e, or it has 18 octets or more and EAPOL's type isn't 0. Octets past the body are padding.
#[tactic(auto, unfolding(crate::specs::Frames::contents_of))]
pub fn contents_of_frame<'a>(frame: &'a [u8]) -> FrameContents<'a>
    ensures value { finding_value result ≡ contents_of frame.now }
    ensures few { size_of (finding_value result) ≤ 2000 }
{
    if frame.len() < ETHERNET || type_of(frame) != EAPOL_TYPE {
        FrameContents::Other
    } else if is_short(frame) {
        FrameContents::Cut
    } else if frame[15] != EAP_PACKET {
        FrameContents::Other
    } else {
        body_of(frame)
    }
}

/// What an Ethernet frame carries, as [`contents_of_frame`] says, with its octets.
pub fn eap_of_frame(frame: &[u8]) -> FrameFinding
    ensures { whole_value result ≡ contents_of frame.now }
{
    match contents_of_frame(frame) {
        FrameContents::Other => FrameFinding::Other,
        FrameContents::Cut => FrameFinding::Cut,
        FrameContents::Eap(octets) => FrameFinding::Eap(Octets::of(octets)),
    }
}
