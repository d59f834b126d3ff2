//! Laws of the messages' grammar (RFC 4764 section 5). Each is the contract of a function that does nothing.

ghost use Rattle.psk_messages.specs.Laws.{ReadsTheEncoding, EncodingsAreApart, RefusesTheRest};
ghost use Rattle.psk_messages.specs.Laws.{SentIsRead, EncodingsAreSized};

/// What is read is the message that the octets encode, and that one alone.
pub fn reads_the_encoding()
    ensures { ReadsTheEncoding }
{}

/// No list of octets encodes two messages.
pub fn encodings_are_apart()
    ensures { EncodingsAreApart }
{}

/// Octets are refused exactly if they encode no message.
#[tactic(auto, using(crate::proofs::Grammar::refuses_the_rest))]
pub fn refuses_the_rest()
    ensures { RefusesTheRest }
{}

/// A message that is sent is read as itself.
#[tactic(auto, using(crate::proofs::Grammar::sent_is_read))]
pub fn sent_is_read()
    ensures { SentIsRead }
{}

/// How many octets a message that is sent has.
#[tactic(auto, using(crate::proofs::Grammar::encodings_are_sized))]
pub fn encodings_are_sized()
    ensures { EncodingsAreSized }
{}
