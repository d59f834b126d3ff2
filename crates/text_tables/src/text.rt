//! A text, read line by line: its header, its settings, the line that opens its events, its events, the line `end`. After
//! the header an empty line and one that begins with `#` are ignored.

ghost use Rattle.std.specs.Prelude.{◌≡◌, IfOk, OnErr};
ghost use Rattle.text_tables.specs.Words.{words};
ghost use Rattle.text_tables.specs.Texts as texts;
ghost use Rattle.text_tables.specs.Texts.{line_result, place_fault, read_first_line, read_words};

use crate::fault::LineFault;
use crate::phase::{Part, Phase};
use crate::rows::{TableWord, fault_of_words, read_keyword};
use crate::words::is_comment;

/// A text that has been read so far.
pub trait Text: Drop {
    ghost use Rattle.std.specs.Prelude.{false};
    ghost use Rattle.text_tables.specs.Words.{words};
    ghost use Rattle.text_tables.specs.IsValidRow.{IsValidRow};
    ghost use Rattle.text_tables.specs.Texts.{Table, initiated_by, line_of};

    /// The first word of a line.
    type Word: TableWord;

    /// What a line contains, but for an event, which is written.
    type Entry: Drop;

    /// The type of what an event is written to.
    type Event;

    /// What a line says, but for an event.
    type Item;

    /// What a line contains.
    ghost Whole: { Type 0 };

    /// What a line says.
    ghost Meaning: { Type 0 };

    /// The text's table.
    ghost table: { Table Self.Word Whole Self Meaning };

    /// What a line contains, with the event that was written if it has one.
    ghost whole: { Self.Entry → Self.Event → Whole };

    /// What a line says, with what is kept after it and the event that was written if it has one.
    ghost item_meaning: { Self.Item → Self → Self.Event → Meaning };

    /// What holds of each entry.
    ghost is_valid: { Self.Entry → Type 0 };

    /// What holds after a line that says so.
    ghost is_so: { Self.Item → Self → Type 0 };

    /// How far the text has come.
    fn phase(&self) -> Phase
        ensures { result ≡ table.phase self.now };

    /// Begins if the line is a header of the text, and answers whether it is.
    fn start_if_header(&mut self, line: &[u8]) -> bool
        ensures initiated { table.begun self.old line.now ≡ initiated_by result self.new }
        ensures unchanged { result ≡ false → self.new ≡ self.old };

    /// The keywords of the text.
    fn keywords(&self) -> &[Self::Word]
        ensures { result.now ≡ table.keywords self.now };

    /// True if the line is one too many of its kind.
    fn is_crowded(&self, word: Self::Word) -> bool
        ensures { result ≡ table.is_crowded self.now word };

    /// What a keyword says with the words of its line, which fit its row. An event is written to `event`.
    fn entry_of(word: Self::Word, line: &[u8], event: &mut Self::Event) -> Self::Entry
        requires { IsValidRow (Self.Word.row_of word) (words line.now) }
        ensures entry { table.entry word (words line.now) ≡ whole result event.new }
        ensures valid { is_valid result };

    /// What an entry is to the text.
    fn part(entry: &Self::Entry) -> Part
        ensures { (event : Self.Event) → result ≡ table.part (whole entry.now event) };

    /// True for what came before.
    fn occurred_before(&self, entry: &Self::Entry) -> bool
        ensures { (event : Self.Event)
            → result ≡ table.occurred_before self.now (whole entry.now event) };

    /// True if something that the entry needs has not come.
    fn is_missing(&self, entry: &Self::Entry) -> bool
        ensures { (event : Self.Event)
            → result ≡ table.is_missing self.now (whole entry.now event) };

    /// Adds what a line contains.
    fn add(&mut self, entry: Self::Entry) -> Self::Item
        requires valid { is_valid entry }
        requires none_missing { (event : Self.Event)
            → table.is_missing self.old (whole entry event) ≡ false }
        ensures consumed { (event : Self.Event) → table.taken self.old (whole entry event)
            ≡ line_of (item_meaning result self.new event) self.new }
        ensures so { is_so result self.new };

    /// What the header says, and a line that is ignored.
    fn nothing() -> Self::Item
        ensures item { (after : Self) (event : Self.Event) → item_meaning result after event
            ≡ table.nothing }
        ensures so { (after : Self) → is_so result after };
}

/// Reads the next line of a text, without its end, and writes its event, if it has one, to `event`. The line is refused
/// with its first fault, and then the text is as it was.
#[tactic(auto, unfolding(crate::specs::Texts::read_line))]
pub fn read_line<T: Text>(
    text: &mut T,
    line: &[u8],
    event: &mut T::Event,
) -> Result<T::Item, LineFault>
    ensures read { texts.read_line T.Word.row_of T.table text.old line.now
        ≡ line_result T.item_meaning result text.new event.new }
    ensures so { IfOk result (λ item. T.is_so item text.new) }
    ensures unchanged { OnErr result (text.new ≡ text.old) }
{
    match text.phase() {
        Phase::Unread => read_header(text, line),
        _ => read_body(text, line, event),
    }
}

/// Reads line 1.
fn read_header<T: Text>(text: &mut T, line: &[u8]) -> Result<T::Item, LineFault>
    ensures read { (event : T.Event)
        → read_first_line T.Word.row_of T.table (T.table.begun text.old line.now)
        ≡ line_result T.item_meaning result text.new event }
    ensures so { IfOk result (λ item. T.is_so item text.new) }
    ensures unchanged { OnErr result (text.new ≡ text.old) }
{
    if text.start_if_header(line) {
        Ok(T::nothing())
    } else {
        Err(LineFault::NoHeader)
    }
}

/// Reads a line after the first.
fn read_body<T: Text>(text: &mut T, line: &[u8], event: &mut T::Event) -> Result<T::Item, LineFault>
    ensures read { texts.read_body T.Word.row_of T.table text.old line.now
        ≡ line_result T.item_meaning result text.new event.new }
    ensures so { IfOk result (λ item. T.is_so item text.new) }
    ensures unchanged { OnErr result (text.new ≡ text.old) }
{
    if is_comment(line) {
        return Ok(T::nothing());
    }
    match read_keyword(text.keywords(), line) {
        Err(fault) => Err(fault),
        Ok(word) => read_words(text, word, line, event),
    }
}

/// Reads what follows a keyword.
fn read_words<T: Text>(
    text: &mut T,
    word: T::Word,
    line: &[u8],
    event: &mut T::Event,
) -> Result<T::Item, LineFault>
    ensures read { read_words T.Word.row_of T.table text.old word (words line.now)
        ≡ line_result T.item_meaning result text.new event.new }
    ensures so { IfOk result (λ item. T.is_so item text.new) }
    ensures unchanged { OnErr result (text.new ≡ text.old) }
{
    if text.is_crowded(word) {
        return Err(LineFault::BadCount);
    }
    let row = word.row();
    match fault_of_words(row.least, row.fields, line) {
        Some(first) => Err(first),
        None => {
            let entry = T::entry_of(word, line, event);
            take(text, entry)
        }
    }
}

/// Adds what a line contains, unless it may not come here.
#[tactic(auto, unfolding(crate::specs::Texts::take))]
fn take<T: Text>(text: &mut T, entry: T::Entry) -> Result<T::Item, LineFault>
    requires { T.is_valid entry }
    ensures read { (event : T.Event)
        → texts.take T.Word.row_of T.table text.old (T.whole entry event)
        ≡ line_result T.item_meaning result text.new event }
    ensures so { IfOk result (λ item. T.is_so item text.new) }
    ensures unchanged { OnErr result (text.new ≡ text.old) }
{
    match fault_of(text, &entry) {
        Some(fault) => Err(fault),
        None => Ok(text.add(entry)),
    }
}

/// The fault of what a line contains at its place: what came before is `Repeated`, also if it may not come here.
fn fault_of<T: Text>(text: &T, entry: &T::Entry) -> Option<LineFault>
    ensures { (event : T.Event)
        → result ≡ place_fault T.Word.row_of T.table text.now (T.whole entry.now event) }
{
    if text.occurred_before(entry) {
        Some(LineFault::Repeated)
    } else if text.is_missing(entry) {
        Some(LineFault::Missing)
    } else if text.phase().may_have(T::part(entry)) {
        None
    } else {
        Some(LineFault::Order)
    }
}
