//! The rows of a text's table: a keyword, and what the words after it stand for.

ghost use Rattle.std.specs.Prelude.{◌≡◌, ◌+◌, ◌<◌, ◌^◌, length, if◌then◌else◌, Some, None};
ghost use Rattle.text_tables.specs.Words.{words};
ghost use Rattle.login_setup.specs.Setup.{is_valid_for};
ghost use Rattle.text_tables.specs.Fields.{octets_of};
ghost use Rattle.text_tables.specs.Rows.{is_choice, is_kind_or_none, is_within, has_bad_count};
ghost use Rattle.text_tables.specs.Rows.{fault_of_words, keyword_in, first_word};
ghost use Rattle.text_tables.specs.Firsts.{earlier, first_fault, fault_at, fault_of_word};

use crate::fault::LineFault;
use crate::fields::{
    kind_of, octet_count, spells_kind, spells_number, spells_octets, spells_suite,
};
use crate::words::{is_printable_line, word_count, word_in};
use octet_lists::{GPSK_KIND, MAX_NAME, PSK_KIND};

/// What a word after a keyword stands for. A place is that of a word in the line, 0 for the keyword.
#[derive(Clone, Copy)]
pub enum Field {
    /// One of a few words.
    Choice(Choices),
    /// A decimal number from `low` to `high`.
    Number { low: u32, high: u32 },
    /// A method, 47 or 51.
    Kind,
    /// A method, or `-` for none if no word follows.
    KindOrNone,
    /// A method other than the one at a place.
    OtherKind { place: usize },
    /// A ciphersuite of EAP-GPSK, 1 or 2.
    Suite,
    /// A ciphersuite other than the one at a place.
    OtherSuite { place: usize },
    /// A name of 1 to 253 octets.
    Name,
    /// `low` to `high` octets in hex, `-` for none.
    Hex { low: usize, high: usize },
    /// The key, in hex, for the method at a place: 16 octets for EAP-PSK, 32 to 64 for EAP-GPSK.
    Key { place: usize },
}

/// The words of a choice.
#[derive(Clone, Copy)]
pub enum Choices {
    /// `alone` or `through`.
    Mode,
    /// `peer`, `server`, `pass-peer` or `pass-server`.
    Port,
    /// `server` or `pass`.
    Timer,
    /// `peer`, `server` or `pass`.
    Party,
    /// `allowed` or `barred`.
    Access,
    /// `accept`, `reject` or `challenge`.
    Reply,
    /// `no`, the only answer so far.
    YesNo,
}

/// A row of a text's table.
#[derive(Clone, Copy)]
pub struct Row {
    /// The keyword.
    pub word: &'static [u8],
    /// How many words follow it at least; at most there are as many as fields.
    pub least: usize,
    pub fields: &'static [Field],
}

impl Row {
    /// A row of a keyword, with what each word after it stands for; at least so many of them must be there.
    pub fn new(word: &'static [u8], least: usize, fields: &'static [Field]) -> Row
        ensures word { result.word.now ≡ word.now }
        ensures least { result.least ≡ least }
        ensures fields { result.fields.now ≡ fields.now }
    {
        Row {
            word,
            least,
            fields,
        }
    }
}

/// A keyword of a text's table.
pub trait TableWord: Copy {
    ghost use Rattle.text_tables.specs.Rows.{Row};

    /// The keyword's row.
    ghost row_of: { Self → Row };

    /// The keyword's row.
    fn row(self) -> Row
        ensures word { result.word.now ≡ (row_of self).word }
        ensures least { result.least ≡ (row_of self).least }
        ensures fields { result.fields.now ≡ (row_of self).fields };
}

/// The one of these keywords that a line begins with; `BadWord` if it is none, or an octet isn't printable.
#[tactic(auto, unfolding(crate::specs::Rows::first_word))]
pub fn read_keyword<K: TableWord>(keywords: &[K], line: &[u8]) -> Result<K, LineFault>
    ensures { result ≡ first_word K.row_of keywords.now line.now }
{
    if is_printable_line(line) {
        keyword_in(keywords, line).ok_or(LineFault::BadWord)
    } else {
        Err(LineFault::BadWord)
    }
}

/// The one of these keywords that a line begins with.
#[tactic(auto, unfolding(crate::specs::Rows::keyword_in))]
fn keyword_in<K: TableWord>(keywords: &[K], line: &[u8]) -> Option<K>
    ensures { result ≡ keyword_in K.row_of keywords.now (words line.now) }
{
    let word = word_in(line, 0);
    keywords
        .iter()
        .copied()
        .find(|keyword| word == keyword.row().word)
}

/// The first fault of the words after a line's keyword, in the order of the faults: a wrong number of words
/// (`BadCount`), a word that is no choice (`BadChoice`), no number in its range, method or suite (`BadNumber`),
/// no hex (`BadHex`), of a wrong length (`BadSize`), or the same again (`Repeated`). None if they have none.
pub fn fault_of_words(least: usize, fields: &[Field], line: &[u8]) -> Option<LineFault>
    ensures { result ≡ fault_of_words least fields.now (words line.now) }
{
    let count = word_count(line);
    if has_bad_count(least, fields.len(), count) {
        return Some(LineFault::BadCount);
    }
    first_fault(fields, 1, line, count)
}

/// True if there are no more words than `least`, the keyword among them, or more than `most` after it.
fn has_bad_count(least: usize, most: usize, count: usize) -> bool
    ensures { result ≡ has_bad_count least most count }
{
    count <= least || most < count - 1
}

/// The first fault that one of the words from a place on has.
#[tactic(auto, unfolding(crate::specs::Firsts::first_fault), using(crate::proofs::Earliest::first_fault_cons))]
fn first_fault(fields: &[Field], place: usize, line: &[u8], count: usize) -> Option<LineFault>
    requires words { count ≡ length (words line.now) }
    requires few { place + length fields.now < 2 ^ 64 }
    ensures { result ≡ first_fault place fields.now (words line.now) }
{
    match fields.split_first() {
        None => None,
        Some((field, rest)) => {
            let fault = fault_at(*field, place, line, count);
            earlier(fault, first_fault(rest, place + 1, line, count))
        }
    }
}

/// The first fault of the word at a place, if it is there.
fn fault_at(field: Field, place: usize, line: &[u8], count: usize) -> Option<LineFault>
    requires { count ≡ length (words line.now) }
    ensures { result ≡ fault_at field place (words line.now) }
{
    if place < count {
        fault_of_word(field, place, line, count)
    } else {
        None
    }
}

/// The first fault of the word at a place.
fn fault_of_word(field: Field, place: usize, line: &[u8], count: usize) -> Option<LineFault>
    requires { count ≡ length (words line.now) }
    ensures { result ≡ fault_of_word field place (words line.now) }
{
    let word = word_in(line, place);
    match field {
        Field::Choice(choices) => unless(is_choice(choices, word), LineFault::BadChoice),
        Field::Number { low, high } => unless(spells_number(word, low, high), LineFault::BadNumber),
        Field::Kind => unless(spells_kind(word), LineFault::BadNumber),
        Field::KindOrNone => unless(is_kind_or_none(line, place, count), LineFault::BadNumber),
        Field::OtherKind { place: other } => unless(spells_kind(word), LineFault::BadNumber).or(
            unless(word != word_in(line, other), LineFault::Repeated),
        ),
        Field::Suite => unless(spells_suite(word), LineFault::BadNumber),
        Field::OtherSuite { place: other } => unless(spells_suite(word), LineFault::BadNumber).or(
            unless(word != word_in(line, other), LineFault::Repeated),
        ),
        Field::Name => unless(is_within(word.len(), 1, MAX_NAME), LineFault::BadSize),
        Field::Hex { low, high } => unless(spells_octets(word), LineFault::BadHex).or(unless(
            is_within(octet_count(word), low, high),
            LineFault::BadSize,
        )),
        Field::Key { place: method } => {
            let kind = kind_of(word_in(line, method));
            unless(spells_octets(word), LineFault::BadHex).or(unless(
                is_valid_for(kind, word),
                LineFault::BadSize,
            ))
        }
    }
}

/// The fault, unless the test holds.
fn unless(holds: bool, fault: LineFault) -> Option<LineFault>
    ensures { result ≡ (if holds then None else Some fault) }
{
    if holds { None } else { Some(fault) }
}

/// Of two faults the one that comes first in their order.
fn earlier(one: Option<LineFault>, other: Option<LineFault>) -> Option<LineFault>
    ensures { result ≡ earlier one other }
{
    match (one, other) {
        (Some(first), Some(second)) if first.rank() <= second.rank() => one,
        (Some(_), None) => one,
        _ => other,
    }
}

fn is_choice(choices: Choices, word: &[u8]) -> bool
    ensures { result ≡ is_choice choices word.now }
{
    match choices {
        Choices::Mode => word == b"alone".as_slice() || word == b"through".as_slice(),
        Choices::Port => is_port(word),
        Choices::Timer => word == b"server".as_slice() || word == b"pass".as_slice(),
        Choices::Party => is_party(word),
        Choices::Access => word == b"allowed".as_slice() || word == b"barred".as_slice(),
        Choices::Reply => is_reply(word),
        Choices::YesNo => word == b"yes".as_slice() || word == b"no".as_slice(),
    }
}

fn is_party(word: &[u8]) -> bool
    ensures { result ≡ is_choice Choices.Party word.now }
{
    word == b"peer".as_slice() || word == b"server".as_slice() || word == b"pass".as_slice()
}

fn is_reply(word: &[u8]) -> bool
    ensures { result ≡ is_choice Choices.Reply word.now }
{
    word == b"accept".as_slice() || word == b"reject".as_slice() || word == b"challenge".as_slice()
}

fn is_port(word: &[u8]) -> bool
    ensures { result ≡ is_choice Choices.Port word.now }
{
    word == b"peer".as_slice()
        || word == b"server".as_slice()
        || word == b"pass-peer".as_slice()
        || word == b"pass-server".as_slice()
}

/// Whether the word at a place is a method, or `-` with no word after it.
fn is_kind_or_none(line: &[u8], place: usize, count: usize) -> bool
    requires { count ≡ length (words line.now) }
    ensures { result ≡ is_kind_or_none place (words line.now) }
{
    let word = word_in(line, place);
    spells_kind(word) || (word == b"-".as_slice() && count - 1 <= place)
}

pub(crate) fn is_within(count: usize, low: usize, high: usize) -> bool
    ensures { result ≡ is_within count low high }
{
    low <= count && count <= high
}

/// Whether the octets that the word spells can be a key for the method.
pub(crate) fn is_valid_for(kind: u8, word: &[u8]) -> bool
    ensures { result ≡ is_valid_for kind (octets_of word.now) }
{
    let count = octet_count(word);
    if kind == PSK_KIND {
        count == 16
    } else if kind == GPSK_KIND {
        32 <= count && count <= 64
    } else {
        count <= 64
    }
}
