//! The table of the lines of a text of RADIUS packets, and what each says.

ghost use Rattle.std.specs.Prelude.{◌≡◌};
ghost use Rattle.text_tables.specs.Words.{words};
ghost use Rattle.text_tables.specs.IsValidRow.{IsValidRow};
ghost use Rattle.request_text.specs.Radius.{row_of, reply_of, item_of};

use octet_lists::{Identity, Injected, MAX_NAME, MAX_PACKET, Octets, Packet};
use text_tables::{Choices, Field, Row, TableWord, array, number, octets, word_in};

/// The first word of a line of a text of RADIUS packets.
#[derive(Clone, Copy)]
pub enum RadiusWord {
    Secret,
    Request,
    Reply,
    Read,
    End,
}

/// The keywords of a text of RADIUS packets.
pub const RADIUS_WORDS: [RadiusWord; 5] = [
    RadiusWord::Secret,
    RadiusWord::Request,
    RadiusWord::Reply,
    RadiusWord::Read,
    RadiusWord::End,
];

const STATE: Field = Field::Hex { low: 0, high: 64 };

const EAP: Field = Field::Hex {
    low: 1,
    high: MAX_PACKET,
};

/// The kind of a reply (RFC 2865 section 4).
#[derive(Clone, Copy)]
pub enum ReplyKind {
    /// Access-Accept.
    Accept,
    /// Access-Reject.
    Reject,
    /// Access-Challenge.
    Challenge,
}

/// What a line of a text of RADIUS packets says.
#[derive(Drop)]
pub enum RadiusItem {
    /// The header, or a line that is ignored.
    Nothing,
    /// The secret that both ends share, 1 to 64 octets.
    Secret(Octets<64>),
    /// A request to be written: Identifier, Request Authenticator, name, state and EAP packet.
    Request {
        id: u8,
        authenticator: [u8; 16],
        user: Identity,
        state: Octets<64>,
        eap: Packet,
    },
    /// A reply to be written to the request that is kept: kind, state and EAP packet.
    Reply {
        kind: ReplyKind,
        state: Octets<64>,
        eap: Packet,
    },
    /// The octets of a packet to be read.
    Read(Injected),
    /// The line `end`.
    End,
}

impl TableWord for RadiusWord {
    ghost row_of = { row_of };

    fn row(self) -> Row {
        match self {
            RadiusWord::Secret => Row::new(b"secret", 1, &[Field::Hex { low: 1, high: 64 }]),
            RadiusWord::Request => Row::new(
                b"request",
                5,
                &[
                    Field::Number { low: 0, high: 255 },
                    Field::Hex { low: 16, high: 16 },
                    Field::Hex {
                        low: 0,
                        high: MAX_NAME,
                    },
                    STATE,
                    EAP,
                ],
            ),
            RadiusWord::Reply => Row::new(
                b"reply",
                3,
                &[Field::Choice(Choices::Reply), STATE, EAP],
            ),
            RadiusWord::Read => Row::new(b"read", 1, &[Field::Hex { low: 0, high: 2000 }]),
            RadiusWord::End => Row::new(b"end", 0, &[]),
        }
    }
}

/// The kind of reply that a word names.
fn reply_of(name: &[u8]) -> ReplyKind
    ensures { result ≡ reply_of name.now }
{
    if name == b"accept".as_slice() {
        ReplyKind::Accept
    } else if name == b"reject".as_slice() {
        ReplyKind::Reject
    } else {
        ReplyKind::Challenge
    }
}

/// What a keyword says with the words of its line.
#[tactic(auto, unfolding(crate::specs::Radius::item_of))]
pub fn item_of(word: RadiusWord, line: &[u8]) -> RadiusItem
    requires { IsValidRow (row_of word) (words line.now) }
    ensures { result ≡ item_of word (words line.now) }
{
    let first = word_in(line, 1);
    match word {
        RadiusWord::Secret => RadiusItem::Secret(octets(first)),
        RadiusWord::Request => RadiusItem::Request {
            id: number(first) as u8,
            authenticator: array(word_in(line, 2)),
            user: octets(word_in(line, 3)),
            state: octets(word_in(line, 4)),
            eap: octets(word_in(line, 5)),
        },
        RadiusWord::Reply => RadiusItem::Reply {
            kind: reply_of(first),
            state: octets(word_in(line, 2)),
            eap: octets(word_in(line, 3)),
        },
        RadiusWord::Read => RadiusItem::Read(octets(first)),
        RadiusWord::End => RadiusItem::End,
    }
}
