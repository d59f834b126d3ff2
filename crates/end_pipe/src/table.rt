//! The table of the lines of an end's text: each keyword with what the words after it stand for.

ghost use Rattle.std.specs.Prelude.{◌≡◌};
ghost use Rattle.end_pipe.specs.EndTable.{row_of, end_words};

use scenario_text::Keyword;
use text_tables::{Field, Row, TableWord};

/// Which end of a login a text is of.
#[derive(Clone, Copy, PartialEq, Eq, Debug)]
pub enum Role {
    Peer,
    Server,
}

/// The first word of a line.
#[derive(Clone, Copy)]
pub enum EndWord {
    /// A setting of a scenario of the second version.
    Setting(Keyword),
    Events,
    Packet,
    Timeout,
    Idle,
    AltAccept,
    AltReject,
    End,
}

const PEER_WORDS: [EndWord; 13] = [
    EndWord::Setting(Keyword::PeerName),
    EndWord::Setting(Keyword::PeerServer),
    EndWord::Setting(Keyword::PeerMethods),
    EndWord::Setting(Keyword::PeerSuites),
    EndWord::Setting(Keyword::PeerPsk),
    EndWord::Setting(Keyword::PeerNonce),
    EndWord::Setting(Keyword::PeerExpanded),
    EndWord::Events,
    EndWord::Packet,
    EndWord::Idle,
    EndWord::AltAccept,
    EndWord::AltReject,
    EndWord::End,
];

const SERVER_WORDS: [EndWord; 12] = [
    EndWord::Setting(Keyword::FirstId),
    EndWord::Setting(Keyword::MaxRetrans),
    EndWord::Setting(Keyword::ServerName),
    EndWord::Setting(Keyword::ServerMethods),
    EndWord::Setting(Keyword::ServerSuites),
    EndWord::Setting(Keyword::ServerNonce),
    EndWord::Setting(Keyword::ServerExpanded),
    EndWord::Setting(Keyword::User),
    EndWord::Events,
    EndWord::Packet,
    EndWord::Timeout,
    EndWord::End,
];

const OCTETS: Field = Field::Hex { low: 0, high: 2000 };

impl TableWord for EndWord {
    ghost row_of = { row_of };

    /// The keyword's row; that of a setting is its row in a scenario.
    fn row(self) -> Row {
        match self {
            EndWord::Setting(keyword) => keyword.row(),
            EndWord::Events => Row::new(b"events", 0, &[]),
            EndWord::Packet => Row::new(b"packet", 1, &[OCTETS]),
            EndWord::Timeout => Row::new(b"timeout", 0, &[]),
            EndWord::Idle => Row::new(b"idle", 0, &[]),
            EndWord::AltAccept => Row::new(b"alt-accept", 0, &[]),
            EndWord::AltReject => Row::new(b"alt-reject", 0, &[]),
            EndWord::End => Row::new(b"end", 0, &[]),
        }
    }
}

/// The keywords of this end's text.
pub fn words_of(role: Role) -> &'static [EndWord]
    ensures { result.now ≡ end_words role }
{
    match role {
        Role::Peer => &PEER_WORDS,
        Role::Server => &SERVER_WORDS,
    }
}
