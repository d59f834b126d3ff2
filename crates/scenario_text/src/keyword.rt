//! The table of a scenario's lines: each keyword with what the words after it stand for.

ghost use Rattle.std.specs.Prelude.{◌≡◌};
ghost use Rattle.scenario_text.specs.Keywords.{row_of, keywords_in};

use crate::version::Version;
use octet_lists::MAX_PACKET;
use text_tables::{Choices, Field, Row, TableWord};

/// The first word of a line.
#[derive(Clone, Copy)]
pub enum Keyword {
    Mode,
    FirstId,
    MaxRetrans,
    PeerName,
    PeerServer,
    PeerMethods,
    PeerSuites,
    PeerPsk,
    PeerNonce,
    ServerName,
    ServerMethods,
    ServerSuites,
    ServerNonce,
    User,
    Events,
    Deliver,
    Alter,
    Cut,
    Inject,
    Timeout,
    AaaTimeout,
    AaaNoReq,
    Idle,
    AltAccept,
    AltReject,
    End,
    PeerExpanded,
    ServerExpanded,
    Restart,
}

/// The keywords, first those of events, which a scenario has the most of. The last three are of the second version alone.
const KEYWORDS: [Keyword; 29] = [
    Keyword::Deliver,
    Keyword::Alter,
    Keyword::Cut,
    Keyword::Inject,
    Keyword::Timeout,
    Keyword::AaaTimeout,
    Keyword::AaaNoReq,
    Keyword::Idle,
    Keyword::AltAccept,
    Keyword::AltReject,
    Keyword::End,
    Keyword::Mode,
    Keyword::FirstId,
    Keyword::MaxRetrans,
    Keyword::PeerName,
    Keyword::PeerServer,
    Keyword::PeerMethods,
    Keyword::PeerSuites,
    Keyword::PeerPsk,
    Keyword::PeerNonce,
    Keyword::ServerName,
    Keyword::ServerMethods,
    Keyword::ServerSuites,
    Keyword::ServerNonce,
    Keyword::User,
    Keyword::Events,
    Keyword::PeerExpanded,
    Keyword::ServerExpanded,
    Keyword::Restart,
];

const PACKET: Field = Field::Number {
    low: 1,
    high: 1_000_000,
};

const METHODS: [Field; 2] = [Field::KindOrNone, Field::OtherKind { place: 1 }];

const SUITES: [Field; 2] = [Field::Suite, Field::OtherSuite { place: 1 }];

const NONCE: Field = Field::Hex { low: 32, high: 32 };

const YES_NO: [Field; 1] = [Field::Choice(Choices::YesNo)];

/// The keywords of a version.
pub fn keywords_in(version: Version) -> &'static [Keyword]
    ensures { result.now ≡ keywords_in version }
{
    match version {
        Version::First => &KEYWORDS[..26],
        Version::Second => &KEYWORDS,
    }
}

impl TableWord for Keyword {
    ghost row_of = { row_of };

    fn row(self) -> Row {
        match self {
            Keyword::Mode => Row::new(b"mode", 1, &[Field::Choice(Choices::Mode)]),
            Keyword::FirstId => Row::new(b"first-id", 1, &[Field::Number { low: 0, high: 255 }]),
            Keyword::MaxRetrans => Row::new(
                b"max-retrans",
                1,
                &[Field::Number { low: 0, high: 10 }],
            ),
            Keyword::PeerName => Row::new(b"peer-name", 1, &[Field::Name]),
            Keyword::PeerServer => Row::new(b"peer-server", 1, &[Field::Name]),
            Keyword::PeerMethods => Row::new(b"peer-methods", 1, &METHODS),
            Keyword::PeerSuites => Row::new(b"peer-suites", 1, &SUITES),
            Keyword::PeerPsk => Row::new(b"peer-psk", 2, &[Field::Kind, Field::Key { place: 1 }]),
            Keyword::PeerNonce => Row::new(b"peer-nonce", 1, &[NONCE]),
            Keyword::ServerName => Row::new(b"server-name", 1, &[Field::Name]),
            Keyword::ServerMethods => Row::new(b"server-methods", 1, &METHODS),
            Keyword::ServerSuites => Row::new(b"server-suites", 1, &SUITES),
            Keyword::ServerNonce => Row::new(b"server-nonce", 1, &[NONCE]),
            Keyword::User => Row::new(
                b"user",
                4,
                &[
                    Field::Name,
                    Field::Kind,
                    Field::Key { place: 2 },
                    Field::Choice(Choices::Access),
                ],
            ),
            Keyword::Events => Row::new(b"events", 0, &[]),
            Keyword::Deliver => Row::new(b"deliver", 1, &[PACKET]),
            Keyword::Alter => Row::new(
                b"alter",
                3,
                &[
                    PACKET,
                    Field::Number { low: 0, high: 1499 },
                    Field::Number { low: 1, high: 255 },
                ],
            ),
            Keyword::Cut => Row::new(
                b"cut",
                2,
                &[
                    PACKET,
                    Field::Number {
                        low: 0,
                        high: MAX_PACKET as u32,
                    },
                ],
            ),
            Keyword::Inject => Row::new(
                b"inject",
                2,
                &[
                    Field::Choice(Choices::Port),
                    Field::Hex { low: 0, high: 2000 },
                ],
            ),
            Keyword::Timeout => Row::new(b"timeout", 1, &[Field::Choice(Choices::Timer)]),
            Keyword::AaaTimeout => Row::new(b"aaa-timeout", 0, &[]),
            Keyword::AaaNoReq => Row::new(b"aaa-noreq", 0, &[]),
            Keyword::Idle => Row::new(b"idle", 0, &[]),
            Keyword::AltAccept => Row::new(b"alt-accept", 0, &[]),
            Keyword::AltReject => Row::new(b"alt-reject", 0, &[]),
            Keyword::End => Row::new(b"end", 0, &[]),
            Keyword::PeerExpanded => Row::new(b"peer-expanded", 1, &YES_NO),
            Keyword::ServerExpanded => Row::new(b"server-expanded", 1, &YES_NO),
            Keyword::Restart => Row::new(b"restart", 1, &[Field::Choice(Choices::Party)]),
        }
    }
}
