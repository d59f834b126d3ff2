//! Reading a text of RADIUS packets, line by line: its header, the secret, requests, replies and packets,
//! the line `end`. After the header an empty line and one that begins with `#` are ignored.

ghost use Rattle.std.specs.Prelude.{◌≡◌, OnErr};
ghost use Rattle.text_tables.specs.Texts.{line_result};
ghost use Rattle.request_text.specs.Radius as radius;
ghost use Rattle.request_text.specs.Radius.{finish_of};

use crate::radius_line::{RADIUS_WORDS, RadiusItem, RadiusWord, item_of};
use text_tables::{LineFault, Part, Phase, Text, read_line};

/// Reads a text of RADIUS packets, whose one setting, the secret, opens the rest. A refused line leaves the reader as it
/// was.
#[derive(Drop)]
pub struct RadiusReader {
    pub phase: Phase,
}

impl RadiusReader {
    /// A reader that has read no line.
    pub fn new() -> RadiusReader
        ensures { result.phase ≡ Phase.Unread }
    {
        RadiusReader {
            phase: Phase::Unread,
        }
    }

    /// Reads the next line, without its end. The line is refused with its first fault, and then the
    /// reader is as it was.
    #[tactic(auto, unfolding(crate::specs::Radius::read_line))]
    pub fn line(&mut self, line: &[u8]) -> Result<RadiusItem, LineFault>
        ensures read { radius.read_line self.old line.now
            ≡ line_result (λ item after event. item) result self.new (tt {0}) }
        ensures unchanged { OnErr result (self.new ≡ self.old) }
    {
        read_line(self, line, &mut ())
    }

    /// What the end of the input means: `NoHeader` if no line was read, else `Missing` if the line `end` was not.
    pub fn finish(&self) -> Result<(), LineFault>
        ensures { result ≡ finish_of self.now }
    {
        self.phase.finish()
    }
}

impl Text for RadiusReader {
    ghost use Rattle.request_text.specs.Radius.{radius};
    ghost use Rattle.request_text.specs.declared.radius_line.RadiusItem.{RadiusItem};

    type Word = RadiusWord;

    type Entry = RadiusItem;

    type Event = ();

    type Item = RadiusItem;

    ghost Whole = { RadiusItem };

    ghost Meaning = { RadiusItem };

    ghost table = { radius };

    ghost whole = { λ entry event. entry };

    ghost item_meaning = { λ item after event. item };

    ghost is_valid = { λ entry. Unit {0} };

    ghost is_so = { λ item after. Unit {0} };

    fn phase(&self) -> Phase {
        self.phase
    }

    fn start_if_header(&mut self, line: &[u8]) -> bool {
        if line != b"eap-radius 1".as_slice() {
            return false;
        }
        self.phase = Phase::Settings;
        true
    }

    fn keywords(&self) -> &[RadiusWord] {
        &RADIUS_WORDS
    }

    fn is_crowded(&self, _word: RadiusWord) -> bool {
        false
    }

    fn entry_of(word: RadiusWord, line: &[u8], _event: &mut ()) -> RadiusItem {
        item_of(word, line)
    }

    fn part(entry: &RadiusItem) -> Part {
        match entry {
            RadiusItem::Secret(_) => Part::Opening,
            RadiusItem::End => Part::End,
            _ => Part::Event,
        }
    }

    fn occurred_before(&self, entry: &RadiusItem) -> bool {
        match entry {
            RadiusItem::Secret(_) => self.phase == Phase::Events || self.phase == Phase::Ended,
            _ => false,
        }
    }

    fn is_missing(&self, _entry: &RadiusItem) -> bool {
        false
    }

    fn add(&mut self, entry: RadiusItem) -> RadiusItem {
        match entry {
            RadiusItem::Secret(_) => self.phase = Phase::Events,
            RadiusItem::End => self.phase = Phase::Ended,
            _ => {}
        }
        entry
    }

    fn nothing() -> RadiusItem {
        RadiusItem::Nothing
    }
}
