//! Reading an end's text, line by line: its header, its settings, the line `events`, its inputs, the line `end`. After
//! the header an empty line and one that begins with `#` are ignored.

ghost use Rattle.std.specs.Prelude.{◌≡◌, ◌≤◌, unwrap_or, IfOk, IsOk, OnErr};
ghost use Rattle.text_tables.specs.Texts.{line_result};
ghost use Rattle.scenario_text.specs.Reading.{peer_setup_of, server_setup_of};
ghost use Rattle.scenario_text.specs.Valid.{IsValidPeer, IsValidServer};
ghost use Rattle.end_pipe.specs.EndReading.{AreWhole, HasSetup, IsReady, finish_of, item_value};
ghost use Rattle.end_pipe.specs.EndReading.{item_with, lacks_some, role_of};
ghost use Rattle.end_pipe.specs.EndReading as reading;

use crate::entry::entry_of;
use crate::input::EndInput;
use crate::table::{EndWord, Role, words_of};
use login_setup::{PeerSetup, ServerSetup};
use scenario_text::{Entry, ItemKind, Settings};
use std::marker::Model;
use text_tables::{LineFault, Part, Phase, Text, read_line};

/// What a line of an end's text says, whole.
#[derive(Drop)]
pub enum EndItem {
    /// Nothing that happens: the header, a setting, or a line that is ignored.
    Nothing,
    /// The line `events` of the peer's text, with its settings.
    ReadyPeer(PeerSetup),
    /// The line `events` of the server's text, with its settings, first Identifier and MaxRetrans.
    ReadyServer(ServerSetup, u8, u8),
    /// What comes next to the end.
    Line(EndInput),
    /// The line `end`.
    End,
}

/// Reads the text of the peer or of the server. A refused line leaves the reader as it was.
#[derive(Drop)]
pub struct EndReader {
    role: Role,
    phase: Phase,
    settings: Settings,
}

impl Model for EndReader {
    ghost use Rattle.end_pipe.specs.EndReading.{EndReading};
    ghost use Rattle.scenario_text.specs.Valid.{AreValid};

    ghost Value = { EndReading };

    ghost view = { λ r. record { role = r.role; phase = r.phase; settings = r.settings } };

    ghost invariant = { λ r. AreValid r.settings };
}

impl EndReader {
    /// A reader of this end's text that has read no line.
    pub fn of_role(role: Role) -> EndReader
        ensures { result ≡ reading.unread role }
    {
        EndReader {
            role,
            phase: Phase::Unread,
            settings: Settings::new(),
        }
    }

    /// Reads the next line, without its end, and writes its input, if it has one, to `input`: the answer is then
    /// `ItemKind::Event`. The line is refused with its first fault, and then the reader is as it was.
    #[tactic(auto, unfolding(crate::specs::EndReading::read_line))]
    pub fn line_into(&mut self, line: &[u8], input: &mut EndInput) -> Result<ItemKind, LineFault>
        ensures read { reading.read_line self.old line.now
            ≡ line_result item_with result self.new input.new }
        ensures ready { IfOk result (λ item. HasSetup item self.new) }
        ensures unchanged { OnErr result (self.new ≡ self.old) }
    {
        read_line(self, line, input)
    }

    /// A reader of the server's text, or else of the peer's, that has read no line.
    pub fn new(server: bool) -> EndReader
        ensures { result ≡ reading.unread (role_of server) }
    {
        EndReader::of_role(if server { Role::Server } else { Role::Peer })
    }

    /// Reads the next line, without its end, and says what it says, whole. The line is refused with its first fault, and
    /// then the reader is as it was.
    pub fn line(&mut self, line: &[u8]) -> Result<EndItem, LineFault>
        ensures read { reading.read_line self.old line.now
            ≡ line_result (λ item after none. item_value item) result self.new (tt {0}) }
        ensures ready { IfOk result (λ item. IsReady item self.new) }
        ensures unchanged { OnErr result (self.new ≡ self.old) }
    {
        let mut input = EndInput::Idle;
        match self.line_into(line, &mut input)? {
            ItemKind::Nothing => Ok(EndItem::Nothing),
            ItemKind::Ready => self.ready(),
            ItemKind::Event => Ok(EndItem::Line(input)),
            ItemKind::End => Ok(EndItem::End),
        }
    }

    /// The settings of the end, which are whole.
    #[tactic(auto, using(crate::proofs::EndValid::few_retrans))]
    fn ready(&self) -> Result<EndItem, LineFault>
        requires { AreWhole self.now.role self.now.settings }
        ensures meaning { IfOk result (λ item. item_value item ≡ reading.Ready) }
        ensures ready { IfOk result (λ item. IsReady item self.now) }
        ensures whole { IsOk result }
    {
        match self.role {
            Role::Peer => Ok(EndItem::ReadyPeer(self.peer_setup()?)),
            Role::Server => Ok(EndItem::ReadyServer(
                self.server_setup()?,
                self.first_id(),
                self.max_retrans(),
            )),
        }
    }

    /// The peer's settings, each within its limits, or `Missing` if a needed one has not come.
    pub fn peer_setup(&self) -> Result<PeerSetup, LineFault>
        ensures value { result ≡ peer_setup_of self.now.settings }
        ensures valid { IfOk result IsValidPeer }
    {
        self.settings.peer()
    }

    /// The server's settings, each within its limits, or `Missing` if a needed one has not come.
    pub fn server_setup(&self) -> Result<ServerSetup, LineFault>
        ensures value { result ≡ server_setup_of self.now.settings }
        ensures valid { IfOk result IsValidServer }
    {
        self.settings.server()
    }

    /// The Identifier of the server's first Request: 0, unless one was set.
    pub fn first_id(&self) -> u8
        ensures { result ≡ unwrap_or self.now.settings.first_id 0 }
    {
        self.settings.first_id.unwrap_or(0)
    }

    /// How often the server sends a Request again: 4 times, unless another number, of at most 10, was set.
    #[tactic(auto, using(crate::proofs::EndValid::few_retrans))]
    pub fn max_retrans(&self) -> u8
        ensures value { result ≡ unwrap_or self.now.settings.max_retrans 4 }
        ensures few { result ≤ 10 }
    {
        self.settings.max_retrans.unwrap_or(4)
    }

    /// What the end of the input means: `NoHeader` if no line was read, else `Missing` if the line `end` was not.
    pub fn finish(&self) -> Result<(), LineFault>
        ensures { result ≡ finish_of self.now }
    {
        self.phase.finish()
    }

    /// True if a setting that the end needs has not come. (By itself, so that no other line makes room for a setup.)
    fn lacks_some(&self) -> bool
        ensures { result ≡ lacks_some self.now.role self.now.settings }
    {
        match self.role {
            Role::Peer => self.settings.peer().is_err(),
            Role::Server => self.settings.server().is_err(),
        }
    }
}

impl Text for EndReader {
    ghost use Rattle.end_pipe.specs.EndContents as contents;
    ghost use Rattle.end_pipe.specs.EndContents.{entry_with};
    ghost use Rattle.end_pipe.specs.EndReading as reading;
    ghost use Rattle.end_pipe.specs.EndReading.{HasSetup, IsValidContent, end, item_with};

    type Word = EndWord;

    type Entry = Entry;

    type Event = EndInput;

    type Item = ItemKind;

    ghost Whole = { contents.Entry };

    ghost Meaning = { reading.Item };

    ghost table = { end };

    ghost whole = { entry_with };

    ghost item_meaning = { item_with };

    ghost is_valid = { IsValidContent };

    ghost is_so = { HasSetup };

    fn phase(&self) -> Phase {
        self.phase
    }

    fn start_if_header(&mut self, line: &[u8]) -> bool {
        if line != b"eap-end 1".as_slice() {
            return false;
        }
        self.phase = Phase::Settings;
        self.settings = Settings::new();
        true
    }

    fn keywords(&self) -> &[EndWord] {
        words_of(self.role)
    }

    fn is_crowded(&self, word: EndWord) -> bool {
        match word {
            EndWord::Setting(keyword) => self.settings.is_crowded(keyword),
            _ => false,
        }
    }

    fn entry_of(word: EndWord, line: &[u8], input: &mut EndInput) -> Entry {
        entry_of(word, line, input)
    }

    fn part(entry: &Entry) -> Part {
        match entry {
            Entry::Set(_) => Part::Setting,
            Entry::Events => Part::Opening,
            Entry::Happens => Part::Event,
            Entry::End => Part::End,
        }
    }

    fn occurred_before(&self, entry: &Entry) -> bool {
        match entry {
            Entry::Set(setting) => self.settings.has(setting),
            _ => false,
        }
    }

    fn is_missing(&self, entry: &Entry) -> bool {
        match entry {
            Entry::Events => self.lacks_some(),
            _ => false,
        }
    }

    fn add(&mut self, entry: Entry) -> ItemKind {
        match entry {
            Entry::Set(setting) => {
                self.settings.set(setting);
                ItemKind::Nothing
            }
            Entry::Events => {
                self.phase = Phase::Events;
                ItemKind::Ready
            }
            Entry::Happens => ItemKind::Event,
            Entry::End => {
                self.phase = Phase::Ended;
                ItemKind::End
            }
        }
    }

    fn nothing() -> ItemKind {
        ItemKind::Nothing
    }
}
