//! Reading a capture, line by line: its header, its users, the line `packets`, its packets, the line
//! `end`. After the header an empty line and one that begins with `#` are ignored.

ghost use Rattle.std.specs.Prelude.{◌≡◌, [], All, IsTrue, IfOk, OnErr};
ghost use Rattle.login_setup.specs.Setup.{has_valid_key};
ghost use Rattle.request_text.specs.Captures.{finish_of, item_kind, HasUsers};
ghost use Rattle.request_text.specs.Captures as captures;
ghost use Rattle.text_tables.specs.Texts.{line_result};
ghost use Rattle.text_tables.specs.declared.phase.Phase.TheVariants as phase;

use crate::capture_line::{CAPTURE_WORDS, CaptureEntry, CaptureWord, entry_of};
use login_setup::Users;
use octet_lists::Injected;
use std::marker::Model;
use text_tables::{LineFault, Part, Phase, Text, add_user, read_line};

/// What a line of a capture says.
#[derive(Drop)]
pub enum CaptureItemKind {
    /// The header, a user, or a line that is ignored.
    Nothing,
    /// The line `packets`: `CaptureReader::users` gives the users.
    Ready,
    /// A packet to the peer or from it, of at most 2,000 octets.
    Packet { to_peer: bool, octets: Injected },
    /// The line `end`.
    End,
}

/// What a line of a capture says, whole.
#[derive(Drop)]
pub enum CaptureItem {
    /// The header, a user, or a line that is ignored.
    Nothing,
    /// The line `packets`, with the users.
    Ready(Users),
    /// A packet to the peer or from it, of at most 2,000 octets.
    Packet { to_peer: bool, octets: Injected },
    /// The line `end`.
    End,
}

/// Reads a capture. A refused line leaves the reader as it was.
#[derive(Drop)]
pub struct CaptureReader {
    phase: Phase,
    users: Users,
}

impl Model for CaptureReader {
    ghost use Rattle.std.specs.Prelude.{All, IsTrue};
    ghost use Rattle.login_setup.specs.Setup.{has_valid_key};
    ghost use Rattle.request_text.specs.Captures.{Capture};

    ghost Value = { Capture };

    ghost view = { λ r. record { phase = r.phase; users = r.users } };

    ghost invariant = { λ r. All (λ user. IsTrue (has_valid_key user)) r.users };
}

impl CaptureReader {
    /// A reader that has read no line.
    pub fn new() -> CaptureReader
        ensures { result ≡ record { phase = phase.Unread; users = [] } }
    {
        CaptureReader {
            phase: Phase::Unread,
            users: Users::new(),
        }
    }

    /// Reads the next line, without its end. The line is refused with its first fault, and then the
    /// reader is as it was.
    #[tactic(auto, unfolding(crate::specs::Captures::read_line))]
    pub fn line_into(&mut self, line: &[u8]) -> Result<CaptureItemKind, LineFault>
        ensures read { captures.read_line self.old line.now
            ≡ line_result (λ item after event. item) result self.new (tt {0}) }
        ensures unchanged { OnErr result (self.new ≡ self.old) }
    {
        read_line(self, line, &mut ())
    }

    /// Reads the next line, without its end, and says what it says, whole: the users have keys of their methods' sizes. The
    /// line is refused with its first fault, and then the reader is as it was.
    pub fn line(&mut self, line: &[u8]) -> Result<CaptureItem, LineFault>
        ensures read { captures.read_line self.old line.now
            ≡ line_result (λ item after none. item_kind item) result self.new (tt {0}) }
        ensures users { IfOk result (λ item. HasUsers item self.new.users) }
        ensures keys { IfOk result
            (λ item. All (λ user. IsTrue (has_valid_key user)) self.new.users) }
        ensures unchanged { OnErr result (self.new ≡ self.old) }
    {
        match self.line_into(line)? {
            CaptureItemKind::Nothing => Ok(CaptureItem::Nothing),
            CaptureItemKind::Ready => Ok(CaptureItem::Ready(self.users.copy())),
            CaptureItemKind::Packet { to_peer, octets } => Ok(CaptureItem::Packet {
                to_peer,
                octets,
            }),
            CaptureItemKind::End => Ok(CaptureItem::End),
        }
    }

    /// The users that have come, at most 16. Each has a key of its method's size: 16 octets for EAP-PSK, 32
    /// to 64 for EAP-GPSK.
    pub fn users(&self) -> &Users
        ensures same { result.now ≡ self.now.users }
        ensures keys { All (λ user. IsTrue (has_valid_key user)) result.now }
    {
        &self.users
    }

    /// What the end of the input means: `NoHeader` if no line was read, else `Missing` if the line `end` was not.
    pub fn finish(&self) -> Result<(), LineFault>
        ensures { result ≡ finish_of self.now }
    {
        self.phase.finish()
    }
}

impl Text for CaptureReader {
    ghost use Rattle.request_text.specs.Captures.{HasKey, capture};
    ghost use Rattle.request_text.specs.declared.capture.CaptureItemKind.{CaptureItemKind};
    ghost use Rattle.request_text.specs.declared.capture_line.CaptureEntry.{CaptureEntry};

    type Word = CaptureWord;

    type Entry = CaptureEntry;

    type Event = ();

    type Item = CaptureItemKind;

    ghost Whole = { CaptureEntry };

    ghost Meaning = { CaptureItemKind };

    ghost table = { capture };

    ghost whole = { λ entry event. entry };

    ghost item_meaning = { λ item after event. item };

    ghost is_valid = { HasKey };

    ghost is_so = { λ item after. Unit {0} };

    fn phase(&self) -> Phase {
        self.phase
    }

    fn start_if_header(&mut self, line: &[u8]) -> bool {
        if line != b"eap-capture 1".as_slice() {
            return false;
        }
        self.phase = Phase::Settings;
        self.users = Users::new();
        true
    }

    fn keywords(&self) -> &[CaptureWord] {
        &CAPTURE_WORDS
    }

    fn is_crowded(&self, word: CaptureWord) -> bool {
        match word {
            CaptureWord::User => self.users.as_slice().len() >= 16,
            _ => false,
        }
    }

    fn entry_of(word: CaptureWord, line: &[u8], _event: &mut ()) -> CaptureEntry {
        entry_of(word, line)
    }

    fn part(entry: &CaptureEntry) -> Part {
        match entry {
            CaptureEntry::User(_) => Part::Setting,
            CaptureEntry::Packets => Part::Opening,
            CaptureEntry::Packet { .. } => Part::Event,
            CaptureEntry::End => Part::End,
        }
    }

    fn occurred_before(&self, entry: &CaptureEntry) -> bool {
        match entry {
            CaptureEntry::User(user) => self.users.find(user.name.as_slice(), user.kind).is_some(),
            _ => false,
        }
    }

    fn is_missing(&self, _entry: &CaptureEntry) -> bool {
        false
    }

    fn add(&mut self, entry: CaptureEntry) -> CaptureItemKind {
        match entry {
            CaptureEntry::User(user) => {
                add_user(&mut self.users, user);
                CaptureItemKind::Nothing
            }
            CaptureEntry::Packets => {
                self.phase = Phase::Events;
                CaptureItemKind::Ready
            }
            CaptureEntry::Packet { to_peer, octets } => CaptureItemKind::Packet { to_peer, octets },
            CaptureEntry::End => {
                self.phase = Phase::Ended;
                CaptureItemKind::End
            }
        }
    }

    fn nothing() -> CaptureItemKind {
        CaptureItemKind::Nothing
    }
}
