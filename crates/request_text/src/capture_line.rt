//! The table of a capture's lines, and what each says.

ghost use Rattle.std.specs.Prelude.{◌≡◌};
ghost use Rattle.text_tables.specs.Words.{words};
ghost use Rattle.text_tables.specs.IsValidRow.{IsValidRow};
ghost use Rattle.request_text.specs.Captures.{row_of, entry_of, HasKey};

use login_setup::User;
use octet_lists::Injected;
use text_tables::{Field, Row, TableWord, kind_of, name, octets, word_in};

/// The first word of a line of a capture.
#[derive(Clone, Copy)]
pub enum CaptureWord {
    User,
    Packets,
    ToPeer,
    FromPeer,
    End,
}

/// The keywords of a capture.
pub const CAPTURE_WORDS: [CaptureWord; 5] = [
    CaptureWord::User,
    CaptureWord::Packets,
    CaptureWord::ToPeer,
    CaptureWord::FromPeer,
    CaptureWord::End,
];

const PACKET: Field = Field::Hex { low: 0, high: 2000 };

/// What a line of a capture contains after its header.
#[derive(Drop)]
pub enum CaptureEntry {
    User(User),
    Packets,
    Packet { to_peer: bool, octets: Injected },
    End,
}

impl TableWord for CaptureWord {
    ghost row_of = { row_of };

    fn row(self) -> Row {
        match self {
            CaptureWord::User => Row::new(
                b"user",
                3,
                &[Field::Name, Field::Kind, Field::Key { place: 2 }],
            ),
            CaptureWord::Packets => Row::new(b"packets", 0, &[]),
            CaptureWord::ToPeer => Row::new(b">", 1, &[PACKET]),
            CaptureWord::FromPeer => Row::new(b"<", 1, &[PACKET]),
            CaptureWord::End => Row::new(b"end", 0, &[]),
        }
    }
}

/// What a keyword says with the words of its line.
#[tactic(auto, unfolding(crate::specs::Captures::entry_of))]
pub fn entry_of(word: CaptureWord, line: &[u8]) -> CaptureEntry
    requires { IsValidRow (row_of word) (words line.now) }
    ensures entry { result ≡ entry_of word (words line.now) }
    ensures key { HasKey result }
{
    let first = word_in(line, 1);
    match word {
        CaptureWord::User => CaptureEntry::User(User {
            name: name(first),
            kind: kind_of(word_in(line, 2)),
            psk: octets(word_in(line, 3)),
            barred: false,
        }),
        CaptureWord::Packets => CaptureEntry::Packets,
        CaptureWord::ToPeer => CaptureEntry::Packet {
            to_peer: true,
            octets: octets(first),
        },
        CaptureWord::FromPeer => CaptureEntry::Packet {
            to_peer: false,
            octets: octets(first),
        },
        CaptureWord::End => CaptureEntry::End,
    }
}
