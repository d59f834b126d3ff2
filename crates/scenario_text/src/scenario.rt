//! Reading a scenario, line by line: the header of its version, its settings, the line `events`, its events,
//! the line `end`. After the header an empty line and one that begins with `#` are ignored.

ghost use Rattle.std.specs.Prelude.{◌≡◌, IfOk, OnErr};
ghost use Rattle.text_tables.specs.Texts.{line_result};
ghost use Rattle.scenario_text.specs.Reading.{no_settings, item_with, setup_of, finish_of};
ghost use Rattle.scenario_text.specs.Reading.{HasSetup};
ghost use Rattle.scenario_text.specs.Reading as reading;
ghost use Rattle.scenario_text.specs.Items.{item_value};
ghost use Rattle.scenario_text.specs.Valid.{IsValidSetup, IsValidItem};

use crate::entry::{Entry, item_of};
use crate::keyword::{Keyword, keywords_in};
use crate::settings::Settings;
use crate::version::Version;
use login_setup::{Event, Setup};
use std::marker::Model;
use text_tables::{LineFault, Part, Phase, Text, read_line};

/// What a line of a scenario, or of the text of one end, says.
#[derive(Clone, Copy)]
pub enum ItemKind {
    /// Nothing that happens: the header, a setting, or a line that is ignored.
    Nothing,
    /// The line `events`: the settings are whole, and the reader gives them.
    Ready,
    /// What happens next: the event, or the input of the end, that was written.
    Event,
    /// The line `end`.
    End,
}

/// What a line of a scenario says, whole.
#[derive(Drop)]
pub enum Item {
    /// Nothing that happens: the header, a setting, or a line that is ignored.
    Nothing,
    /// The line `events`, with the settings.
    Ready(Setup),
    /// What happens next.
    Event(Event),
    /// The line `end`.
    End,
}

/// Reads a scenario. A refused line leaves the reader as it was.
#[derive(Drop)]
pub struct ScenarioReader {
    phase: Phase,
    settings: Settings,
}

impl Model for ScenarioReader {
    ghost use Rattle.scenario_text.specs.Reading.{Reading};
    ghost use Rattle.scenario_text.specs.Valid.{AreValid};

    ghost Value = { Reading };

    ghost view = { λ r. record { phase = r.phase; settings = r.settings } };

    ghost invariant = { λ r. AreValid r.settings };
}

impl ScenarioReader {
    /// A reader that has read no line.
    pub fn new() -> ScenarioReader
        ensures { result ≡ record { phase = Phase.Unread; settings = no_settings } }
    {
        ScenarioReader {
            phase: Phase::Unread,
            settings: Settings::new(),
        }
    }

    /// Reads the next line, without its end, and writes its event, if it has one, to `event`. The line is
    /// refused with its first fault, and then the reader is as it was.
    #[tactic(auto, unfolding(crate::specs::Reading::read_line))]
    pub fn line_into(&mut self, line: &[u8], event: &mut Event) -> Result<ItemKind, LineFault>
        ensures read { reading.read_line self.old line.now
            ≡ line_result item_with result self.new event.new }
        ensures ready { IfOk result (λ item. HasSetup item self.new) }
        ensures unchanged { OnErr result (self.new ≡ self.old) }
    {
        read_line(self, line, event)
    }

    /// Reads the next line, without its end, and says what it says, whole: its settings are each within its limits. The line
    /// is refused with its first fault, and then the reader is as it was.
    pub fn line(&mut self, line: &[u8]) -> Result<Item, LineFault>
        ensures read { reading.read_line self.old line.now
            ≡ line_result (λ item after none. item_value item) result self.new (tt {0}) }
        ensures valid { IfOk result (λ item. IsValidItem (item_value item)) }
        ensures unchanged { OnErr result (self.new ≡ self.old) }
    {
        let mut event = Event::Idle;
        match self.line_into(line, &mut event)? {
            ItemKind::Nothing => Ok(Item::Nothing),
            ItemKind::Ready => Ok(Item::Ready(self.setup()?)),
            ItemKind::Event => Ok(Item::Event(event)),
            ItemKind::End => Ok(Item::End),
        }
    }

    /// The settings of the run, each within its limits, or `Missing` if a needed one has not come.
    pub fn setup(&self) -> Result<Setup, LineFault>
        ensures value { result ≡ setup_of self.now.settings }
        ensures valid { IfOk result IsValidSetup }
    {
        self.settings.setup()
    }

    /// What the end of the input means: `NoHeader` if no line was read, else `Missing` if the line `end` was
    /// not.
    pub fn finish(&self) -> Result<(), LineFault>
        ensures { result ≡ finish_of self.now }
    {
        self.phase.finish()
    }
}

impl Text for ScenarioReader {
    ghost use Rattle.scenario_text.specs.Contents as contents;
    ghost use Rattle.scenario_text.specs.Contents.{entry_with};
    ghost use Rattle.scenario_text.specs.Items as items;
    ghost use Rattle.scenario_text.specs.Reading.{HasSetup, item_with, scenario};
    ghost use Rattle.scenario_text.specs.Valid.{IsValidContent};

    type Word = Keyword;

    type Entry = Entry;

    type Event = Event;

    type Item = ItemKind;

    ghost Whole = { contents.Entry };

    ghost Meaning = { items.Item };

    ghost table = { scenario };

    ghost whole = { entry_with };

    ghost item_meaning = { item_with };

    ghost is_valid = { IsValidContent };

    ghost is_so = { HasSetup };

    fn phase(&self) -> Phase {
        self.phase
    }

    fn start_if_header(&mut self, line: &[u8]) -> bool {
        match Version::of_header(line) {
            None => false,
            Some(version) => {
                self.phase = Phase::Settings;
                self.settings = Settings::new();
                self.settings.version = version;
                true
            }
        }
    }

    fn keywords(&self) -> &[Keyword] {
        keywords_in(self.settings.version)
    }

    fn is_crowded(&self, word: Keyword) -> bool {
        self.settings.is_crowded(word)
    }

    fn entry_of(word: Keyword, line: &[u8], event: &mut Event) -> Entry {
        item_of(word, line, event)
    }

    fn part(entry: &Entry) -> Part {
        match entry {
            Entry::Set(_) => Part::Setting,
            Entry::Events => Part::Opening,
            Entry::Happens => Part::Event,
            Entry::End => Part::End,
        }
    }

    fn occurred_before(&self, entry: &Entry) -> bool {
        match entry {
            Entry::Set(setting) => self.settings.has(setting),
            _ => false,
        }
    }

    fn is_missing(&self, entry: &Entry) -> bool {
        match entry {
            Entry::Events => self.settings.lacks_some(),
            _ => false,
        }
    }

    fn add(&mut self, entry: Entry) -> ItemKind {
        match entry {
            Entry::Set(setting) => {
                self.settings.set(setting);
                ItemKind::Nothing
            }
            Entry::Events => {
                self.phase = Phase::Events;
                ItemKind::Ready
            }
            Entry::Happens => ItemKind::Event,
            Entry::End => {
                self.phase = Phase::Ended;
                ItemKind::End
            }
        }
    }

    fn nothing() -> ItemKind {
        ItemKind::Nothing
    }
}
