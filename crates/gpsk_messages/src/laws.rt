//! Laws of the messages' grammar (RFC 5433 section 9). Each is the contract of a function that does nothing.

ghost use Rattle.gpsk_messages.specs.Laws.{EncodingsAreRead, ReadsTheEncoding, EncodingsAreApart};
ghost use Rattle.gpsk_messages.specs.Laws.{ShapelessEncodesNothing, LongListsAreNamed};
ghost use Rattle.gpsk_messages.specs.Laws.{EncodingsAreSized, CoveredIsTheMiddle};
ghost use Rattle.gpsk_messages.specs.Laws.{CoveredOctetsFixFields};

/// What is encoded so is read.
#[tactic(auto, using(crate::proofs::Grammar::encodings_are_read))]
pub fn encodings_are_read()
    ensures { EncodingsAreRead }
{}

/// What is read is the message that the octets encode, and that one alone.
#[tactic(auto, using(crate::proofs::Grammar::reads_the_encoding))]
pub fn reads_the_encoding()
    ensures { ReadsTheEncoding }
{}

/// No two messages have one encoding.
#[tactic(auto, using(crate::proofs::Grammar::encodings_are_apart))]
pub fn encodings_are_apart()
    ensures { EncodingsAreApart }
{}

/// `GpskShape` comes exactly if the octets encode no message, whatever the number of suites.
#[tactic(auto, using(crate::proofs::Grammar::shapeless_encodes_nothing))]
pub fn shapeless_encodes_nothing()
    ensures { ShapelessEncodesNothing }
{}

/// `ListTooLong` comes exactly if the octets encode a message, but none with at most 20 suites.
#[tactic(auto, using(crate::proofs::Grammar::long_lists_are_named))]
pub fn long_lists_are_named()
    ensures { LongListsAreNamed }
{}

/// How many octets an encoding has.
#[tactic(auto, using(crate::proofs::Grammar::encodings_are_sized))]
pub fn encodings_are_sized()
    ensures { EncodingsAreSized }
{}

/// The covered octets are those after the OP-Code up to the MAC.
#[tactic(auto, using(crate::proofs::Grammar::covered_is_the_middle))]
pub fn covered_is_the_middle()
    ensures { CoveredIsTheMiddle }
{}

/// Two messages of one kind with equal covered octets have equal fields but for the MAC.
#[tactic(auto, using(crate::proofs::Grammar::covered_octets_fix_fields))]
pub fn covered_octets_fix_fields()
    ensures { CoveredOctetsFixFields }
{}
