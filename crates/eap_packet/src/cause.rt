//! Why a packet is discarded.

ghost use Rattle.std.specs.Prelude.{◌≡◌, Some};
ghost use Rattle.eap_packet.specs.Words.{cause_word};

use std::error::Error;
use std::fmt;

/// Why a party discards what was delivered to it.
#[derive(Clone, Copy, PartialEq, Eq, Debug)]
pub enum Cause {
    /// Fewer than four octets.
    Short,
    /// Code is not 1 to 4.
    BadCode,
    /// Length doesn't fit the Code: under 4; under 5 for a Request or a Response; not 4 for a Success or a Failure.
    BadLength,
    /// Length is over the octets received.
    Truncated,
    /// Length is over 1,500.
    TooLong,
    /// A Request of Type 3.
    NakRequest,
    /// A Response of Type 3 with no Type-Data.
    BadNak,
    /// The Code is one that this party doesn't accept.
    WrongRole,
    /// A packet of Type 254, Expanded Types (RFC 3748 section 5.7), that this party doesn't accept.
    BadExpanded,
    /// A Notification while a method is selected.
    NotAllowed,
    /// A Request of the selected method after its end.
    MethodDone,
    /// A Request of another method than the selected one.
    OtherMethod,
    /// The Identifier is not the awaited one.
    IdMismatch,
    /// A Success before the method has authenticated the server.
    EarlySuccess,
    /// A Failure after the method has succeeded for good.
    LateFailure,
    /// A Failure while the method goes on.
    EarlyFailure,
    /// A Response of another Type than the method proposed.
    WrongMethod,
    /// The pass-through awaits nothing from this side.
    NotWaiting,
    /// The party has ended.
    Ended,
    /// The Type-Data is no EAP-GPSK message.
    GpskShape,
    /// An EAP-GPSK list of more than 20 suites.
    ListTooLong,
    /// The Type-Data is no EAP-PSK message.
    PskShape,
    /// A message that the method doesn't await.
    WrongOp,
    /// The peer doesn't accept the server's name.
    UnknownServer,
    /// No suite of the list is allowed.
    NoSuite,
    /// A field differs from the one sent before.
    FieldMismatch,
    /// The selected suite was not offered.
    SuiteNotOffered,
    /// The nonce of PCHANNEL is not the awaited one.
    BadNonce,
    /// A MAC or a tag is wrong.
    BadTag,
    /// R is 0.
    BadResult,
    /// The extended channel of EAP-PSK, or R = 1.
    Extended,
}

impl Cause {
    /// The cause's name.
    pub fn word(&self) -> &'static str
        ensures { result.now ≡ cause_word self.now }
    {
        match self {
            Cause::Short => "Short",
            Cause::BadCode => "BadCode",
            Cause::BadLength => "BadLength",
            Cause::Truncated => "Truncated",
            Cause::TooLong => "TooLong",
            Cause::NakRequest => "NakRequest",
            Cause::BadNak => "BadNak",
            Cause::WrongRole => "WrongRole",
            Cause::BadExpanded => "BadExpanded",
            Cause::NotAllowed => "NotAllowed",
            Cause::MethodDone => "MethodDone",
            Cause::OtherMethod => "OtherMethod",
            Cause::IdMismatch => "IdMismatch",
            Cause::EarlySuccess => "EarlySuccess",
            Cause::LateFailure => "LateFailure",
            Cause::EarlyFailure => "EarlyFailure",
            Cause::WrongMethod => "WrongMethod",
            Cause::NotWaiting => "NotWaiting",
            Cause::Ended => "Ended",
            Cause::GpskShape => "GpskShape",
            Cause::ListTooLong => "ListTooLong",
            Cause::PskShape => "PskShape",
            Cause::WrongOp => "WrongOp",
            Cause::UnknownServer => "UnknownServer",
            Cause::NoSuite => "NoSuite",
            Cause::FieldMismatch => "FieldMismatch",
            Cause::SuiteNotOffered => "SuiteNotOffered",
            Cause::BadNonce => "BadNonce",
            Cause::BadTag => "BadTag",
            Cause::BadResult => "BadResult",
            Cause::Extended => "Extended",
        }
    }
}

/// The cause's name.
impl fmt::Display for Cause {
    ghost output = { λ cause. Some (cause_word cause) };

    fn fmt<W: fmt::Write>(&self, f: &mut fmt::Formatter<W>) -> fmt::Result {
        f.write_str(self.word())
    }
}

impl Error for Cause {}
