//! Laws of files and frames. Each is the contract of a function that does nothing.

ghost use Rattle.eapol_capture.specs.Laws.{FrontsCarryTheSame, EncodedFilesAreRead};
ghost use Rattle.eapol_capture.specs.Laws.{EncodedFramesCarryTheirPackets};

/// In either octet order a file of frames within the limits is read as its records and its end, whatever the
/// times, the first lengths and the 12 octets that are unread.
#[tactic(auto, using(crate::proofs::IsEncodingOf::encoded_files_are_read))]
pub fn encoded_files_are_read()
    ensures { EncodedFilesAreRead }
{}

/// A frame of EAPOL's type 0 with a packet of at most 2,000 octets carries it, whatever its addresses, its version
/// and the padding behind it.
#[tactic(auto, using(crate::proofs::CarriedPackets::encoded_frames_carry_their_packets))]
pub fn encoded_frames_carry_their_packets()
    ensures { EncodedFramesCarryTheirPackets }
{}

/// The first 4,096 octets of a frame carry the same as the frame.
#[tactic(auto, using(crate::proofs::StoredFronts::fronts_carry_the_same))]
pub fn fronts_carry_the_same()
    ensures { FrontsCarryTheSame }
{}
