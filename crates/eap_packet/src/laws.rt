//! Laws of the packets' grammar (RFC 3748 section 4) and of Expanded Types (section 5.7). Each is the
//! contract of a function that does nothing.

ghost use Rattle.eap_packet.specs.Laws.{EncodingsAreRead, EncodingsAreApart, ReadsTheEncoding};
ghost use Rattle.eap_packet.specs.Laws.{FaultlessIsEncoded, IetfIsVendorZero, NakIsVendorZero};
ghost use Rattle.eap_packet.specs.Laws.{PlainOfWrap, OnlyWrappedDiffer, WrapsTheEncoding};
ghost use Rattle.eap_packet.specs.Laws.{PlainIsPacket, WrapIsPacket};

/// A packet's encoding, with any octets behind it, is read as that packet.
#[tactic(auto, using(crate::proofs::Grammar::encodings_are_read))]
pub fn encodings_are_read()
    ensures { EncodingsAreRead }
{}

/// No two packets have encodings that begin one list of octets.
#[tactic(auto, using(crate::proofs::Grammar::encodings_are_apart))]
pub fn encodings_are_apart()
    ensures { EncodingsAreApart }
{}

/// What is read is the packet with whose encoding the octets begin, and that one alone.
#[tactic(auto, using(crate::proofs::Grammar::reads_the_encoding))]
pub fn reads_the_encoding()
    ensures { ReadsTheEncoding }
{}

/// No cause applies exactly if the octets begin with the encoding of some packet.
#[tactic(auto, using(crate::proofs::Grammar::faultless_is_encoded))]
pub fn faultless_is_encoded()
    ensures { FaultlessIsEncoded }
{}

/// Type-Data is that of a Type of the IETF exactly if its Vendor-Id is 0 and its Vendor-Type is
/// under 256 (RFC 3748 section 5.7).
#[tactic(auto, using(crate::proofs::Vendors::ietf_is_vendor_zero))]
pub fn ietf_is_vendor_zero()
    ensures { IetfIsVendorZero }
{}

/// Whole Type-Data is that of an Expanded Nak exactly if its Vendor-Id is 0 and its Vendor-Type is
/// 3 (RFC 3748 section 5.3.2).
#[tactic(auto, using(crate::proofs::Vendors::nak_is_vendor_zero))]
pub fn nak_is_vendor_zero()
    ensures { NakIsVendorZero }
{}

/// The plain form of a wrapped packet is that packet, for every Type but 0, 3 and 254 (RFC 3748
/// section 5.7).
#[tactic(auto, using(crate::proofs::Wrapping::plain_of_wrap))]
pub fn plain_of_wrap()
    ensures { PlainOfWrap }
{}

/// A packet is its plain form exactly if `write_plain` answers false of it.
#[tactic(auto, using(crate::proofs::Wrapping::only_wrapped_differ))]
pub fn only_wrapped_differ()
    ensures { OnlyWrappedDiffer }
{}

/// A packet's encoding, with any octets behind it, is wrapped as the packet is: what `wrap` writes is
/// the encoding of the wrapped packet.
#[tactic(auto, using(crate::proofs::Wrapping::wraps_the_encoding))]
pub fn wraps_the_encoding()
    ensures { WrapsTheEncoding }
{}

/// The plain form of a packet is a packet: its encoding is read as it.
#[tactic(auto, using(crate::proofs::Forms::plain_is_packet))]
pub fn plain_is_packet()
    ensures { PlainIsPacket }
{}

/// A packet of at most 1,493 octets, wrapped, is a packet.
#[tactic(auto, using(crate::proofs::Forms::wrap_is_packet))]
pub fn wrap_is_packet()
    ensures { WrapIsPacket }
{}
