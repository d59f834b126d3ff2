//! Laws of RADIUS packets that carry EAP. Each is the contract of a function that does nothing.

ghost use Rattle.radius_carry.specs.Laws.{EncodingsAreRead, EncodingsAreApart, ReadsTheEncoding};
ghost use Rattle.radius_carry.specs.Laws.{FaultlessIsEncoded, RequestsAreReadBack};
ghost use Rattle.radius_carry.specs.Laws.{RequestsAreGood, RepliesAreReadBack, RepliesAreGood};

/// A packet's encoding, with any octets behind it, is read as that packet (RFC 2865 section 3).
#[tactic(auto, using(crate::proofs::Grammar::encodings_are_read))]
pub fn encodings_are_read()
    ensures { EncodingsAreRead }
{}

/// No two packets have encodings that begin one list of octets.
#[tactic(auto, using(crate::proofs::Grammar::encodings_are_apart))]
pub fn encodings_are_apart()
    ensures { EncodingsAreApart }
{}

/// What is read is the packet with whose encoding the octets begin, and that one alone.
#[tactic(auto, using(crate::proofs::Grammar::reads_the_encoding))]
pub fn reads_the_encoding()
    ensures { ReadsTheEncoding }
{}

/// No cause applies exactly if the octets begin with the encoding of some packet.
#[tactic(auto, using(crate::proofs::Grammar::faultless_is_encoded))]
pub fn faultless_is_encoded()
    ensures { FaultlessIsEncoded }
{}

/// A request that is written is read back, whatever follows it, and carries its EAP packet (RFC 3579 section 3.1).
#[tactic(auto, using(crate::proofs::Sent::requests_are_read_back))]
pub fn requests_are_read_back()
    ensures { RequestsAreReadBack }
{}

/// A request that is written is good under its secret (RFC 3579 section 3.2).
#[tactic(auto, using(crate::proofs::Sent::requests_are_good))]
pub fn requests_are_good()
    ensures { RequestsAreGood }
{}

/// A reply that is written is read back, whatever follows it, and carries its EAP packet (RFC 3579 section 3.1).
#[tactic(auto, using(crate::proofs::Sent::replies_are_read_back))]
pub fn replies_are_read_back()
    ensures { RepliesAreReadBack }
{}

/// A reply that is written is good under its secret, for the request with the Authenticator that it
/// answers (RFC 2865 section 3, RFC 3579 section 3.2).
#[tactic(auto, using(crate::proofs::Sent::replies_are_good))]
pub fn replies_are_good()
    ensures { RepliesAreGood }
{}
