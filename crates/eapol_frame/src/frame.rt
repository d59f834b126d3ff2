//! EAPOL frames.

ghost use Rattle.std.specs.Prelude.{◌≡◌, ◌≤◌, ◌∷◌, length};
ghost use Rattle.octet_lists.specs.Sizes.{max_packet};
ghost use Rattle.eap_packet.specs.Packet.{two_octets};
ghost use Rattle.eap_packet.specs.Fault.{length_of};
ghost use Rattle.eapol_frame.specs.Frame.{frame_of, frame_value, own_frame, spelled};
ghost use Rattle.eapol_frame.specs.Frame.{contents_by, contents_value};

use octet_lists::{Octets, array_of};

/// The packet type of a frame whose body is an EAP packet (clause 7.5.4).
pub const EAP_PACKET: u8 = 0;

/// The packet type of EAPOL-Start.
pub const EAPOL_START: u8 = 1;

/// The packet type of EAPOL-Logoff.
pub const EAPOL_LOGOFF: u8 = 2;

/// The octets before the body: the version, the packet type and the body's length.
const HEAD: usize = 4;

/// The version of IEEE 802.1X-2004.
const VERSION: u8 = 2;

/// A frame that is written: the head, and a body of at most 1,500 octets.
pub type EapolFrame = Octets<1504>;

/// Why octets begin with no frame.
#[derive(Clone, Copy, PartialEq, Eq, Debug)]
pub enum FrameCause {
    /// There are fewer than four octets.
    FrameShort,
    /// The length of the body is over the octets behind the head.
    FrameTruncated,
}

/// A frame, as its octets show it.
#[derive(Clone, Copy, Debug)]
pub struct FrameView<'a> {
    /// The version of the protocol. A receiver takes every version (clause 7.5.5).
    pub version: u8,
    /// The packet type: [`EAP_PACKET`], [`EAPOL_START`], [`EAPOL_LOGOFF`], or one not read here.
    pub kind: u8,
    /// The body, without the padding behind it.
    pub body: &'a [u8],
}

/// What a frame is to a port access entity.
#[derive(Clone, Copy, Debug)]
pub enum EapolContents<'a> {
    /// The octets of an EAP packet, which aren't yet read.
    Packet(&'a [u8]),
    /// EAPOL-Start. A body has no meaning.
    Start,
    /// EAPOL-Logoff. A body has no meaning.
    Logoff,
    /// A key, an alert, or any other packet type.
    Other,
}

impl<'a> FrameView<'a> {
    /// What the frame is, by its packet type.
    pub fn contents(self) -> EapolContents<'a>
        ensures { contents_value result ≡ contents_by self.entry.kind self.entry.body.now }
    {
        match self.kind {
            EAP_PACKET => EapolContents::Packet(self.body),
            EAPOL_START => EapolContents::Start,
            EAPOL_LOGOFF => EapolContents::Logoff,
            _ => EapolContents::Other,
        }
    }
}

/// The length of the body.
fn length_field(octets: &[u8]) -> usize
    requires { 4 ≤ length octets.now }
    ensures { result ≡ length_of octets.now }
{
    usize::from(u16::from_be_bytes(array_of(&octets[2..4])))
}

/// The frame that the octets begin with; what follows its body is padding. Else the first cause
/// that keeps them from beginning with one. Every version and every packet type is read.
#[tactic(auto, unfolding(crate::specs::Frame::frame_of))]
pub fn read_frame<'a>(octets: &'a [u8]) -> Result<FrameView<'a>, FrameCause>
    ensures { frame_value result ≡ frame_of octets.now }
{
    if octets.len() < HEAD {
        return Err(FrameCause::FrameShort);
    }
    let size = length_field(octets);
    let body = &octets[HEAD..];
    if body.len() < size {
        return Err(FrameCause::FrameTruncated);
    }
    Ok(FrameView {
        version: octets[0],
        kind: octets[1],
        body: &body[..size],
    })
}

/// Writes the frame of version 2 with this packet type and this body, of at most 1,500 octets, in
/// place of what `frame` had.
pub fn write_frame(frame: &mut EapolFrame, kind: u8, body: &[u8])
    requires { length body.now ≤ max_packet }
    ensures { frame.new ≡ spelled (own_frame kind body.now) }
{
    let size = (body.len() as u16).to_be_bytes();
    frame.set(&[VERSION, kind, size[0], size[1]]);
    frame.put(body);
}
