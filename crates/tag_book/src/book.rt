//! The book of tags.

ghost use Rattle.std.specs.Prelude.{◌≡◌, ◌≤◌, ◌+◌, ◌++◌, ◌∷◌, [], ◌&&◌, not, map, vec_len};
ghost use Rattle.std.specs.Prelude.{vec_capacity};
ghost use Rattle.std.specs.List.{list_any};
ghost use Rattle.eap_method.specs.Tags.{is_under};
ghost use Rattle.tag_book.specs.Book.{entry, entries_of, first_broken, verdict_on, is_honest};
ghost use Rattle.tag_book.specs.Book.{may_make, vouches, under};

use eap_method::{TagList, TagRecord, Tags, TwoRecords};

/// One of the two ends of a login.
#[derive(Clone, Copy, PartialEq, Eq, Debug, Default)]
pub enum End {
    #[default]
    Peer,
    Server,
}

/// What an end did with a tag.
#[derive(Clone, Copy, PartialEq, Eq, Debug)]
pub enum Use {
    /// It found the tag right in a packet that it accepted.
    Accepted,
    /// It made the tag for a packet that it sent.
    Made,
}

/// A tag that an end accepted or made.
#[derive(Drop)]
pub struct Entry {
    /// The event in which it did.
    pub event: u32,
    pub end: End,
    pub used: Use,
    pub tag: TagRecord,
}

/// Whose record vouches for an accepted tag.
#[derive(Clone, Copy, PartialEq, Eq, Debug)]
pub enum RecordOwner {
    /// That of the other end.
    Other,
    /// That of either end, the one that accepted the tag among them.
    Either,
}

/// Whether each accepted tag was made earlier.
#[derive(Clone, Copy, PartialEq, Eq, Debug)]
pub enum TagsVerdict {
    /// Each was.
    Honest,
    /// The first accepted tag that wasn't was accepted in this event.
    Broken(u32),
}

/// Writes the tags of an event into the book, the accepted ones before those made. There is room.
pub fn book_tags(book: &mut Vec<Entry>, event: u32, end: End, tags: &Tags<TwoRecords>)
    requires { vec_len book.old + 4 ≤ vec_capacity book.old }
    ensures items { book.new.items ≡ book.old.items ++ entries_of event end tags.now }
    ensures few { vec_len book.new ≤ vec_len book.old + 4 }
{
    book_each(book, event, end, Use::Accepted, &tags.accepted);
    book_each(book, event, end, Use::Made, &tags.made);
}

/// Writes these tags into the book. There is room.
fn book_each(book: &mut Vec<Entry>, event: u32, end: End, used: Use, tags: &TagList<TwoRecords>)
    requires { vec_len book.old + 2 ≤ vec_capacity book.old }
    ensures items { book.new.items ≡ book.old.items ++ map (entry event end used) tags.now }
    ensures few { vec_len book.new ≤ vec_len book.old + 2 }
    ensures capacity { vec_capacity book.old ≤ vec_capacity book.new }
{
    for tag in tags.as_slice() {
        book_one(book, event, end, used, tag);
    }
}

/// Writes this tag into the book. There is room.
fn book_one(book: &mut Vec<Entry>, event: u32, end: End, used: Use, tag: &TagRecord)
    requires { vec_len book.old + 1 ≤ vec_capacity book.old }
    ensures items { book.new.items ≡ book.old.items ++ entry event end used tag.now ∷ [] }
    ensures few { vec_len book.new ≡ vec_len book.old + 1 }
    ensures capacity { vec_capacity book.old ≤ vec_capacity book.new }
{
    let mut entry = Entry {
        event,
        end,
        used,
        tag: TagRecord::default(),
    };
    entry.tag.set(tag);
    let _ = book.push(entry);
}

/// Whether each accepted tag of a book was made earlier by such an end.
#[tactic(auto, using(crate::proofs::FirstBroken::broken_more, crate::proofs::FirstBroken::broken_here, crate::proofs::FirstBroken::broken_all))]
pub fn judge_tags(book: &[Entry], makers: RecordOwner) -> TagsVerdict
    ensures { result ≡ verdict_on (first_broken makers [] book.now) }
{
    for place in 0..book.len() {
        if !is_honest(&book[..place], &book[place], makers) {
            return TagsVerdict::Broken(book[place].event);
        }
    }
    TagsVerdict::Honest
}

/// The same of the tags under this shared key alone.
#[tactic(auto, using(crate::proofs::UnderKey::under_more, crate::proofs::UnderKey::under_here, crate::proofs::UnderKey::under_all))]
pub fn judge_tags_under(book: &[Entry], key: &[u8], makers: RecordOwner) -> TagsVerdict
    ensures { result ≡ verdict_on (first_broken makers [] (under key.now book.now)) }
{
    for place in 0..book.len() {
        if breaks(&book[..place], &book[place], key, makers) {
            return TagsVerdict::Broken(book[place].event);
        }
    }
    TagsVerdict::Honest
}

/// Whether an entry is an accepted tag under this key that no such end made earlier.
fn breaks(earlier: &[Entry], entry: &Entry, key: &[u8], makers: RecordOwner) -> bool
    ensures { result
        ≡ (is_under key.now entry.now.tag && not (is_honest makers earlier.now entry.now)) }
{
    entry.tag.is_under(key) && !is_honest(earlier, entry, makers)
}

/// Whether an entry is no accepted tag, or one that such an end made earlier.
fn is_honest(earlier: &[Entry], entry: &Entry, makers: RecordOwner) -> bool
    ensures { result ≡ is_honest makers earlier.now entry.now }
{
    match entry.used {
        Use::Made => true,
        Use::Accepted => is_vouched(earlier, entry, makers),
    }
}

/// Whether such an end made this tag earlier.
fn is_vouched(earlier: &[Entry], accepted: &Entry, makers: RecordOwner) -> bool
    ensures { result ≡ list_any (vouches makers accepted.now) earlier.now }
{
    earlier.iter().any(|made| vouches(accepted, made, makers))
}

/// Whether an entry is that of the same tag, made by such an end.
fn vouches(accepted: &Entry, made: &Entry, makers: RecordOwner) -> bool
    ensures { result ≡ vouches makers accepted.now made.now }
{
    made.used == Use::Made
        && may_make(makers, made.end, accepted.end)
        && made.tag.is_same(&accepted.tag)
}

/// Whether a tag that the one end made vouches for one that the other accepted.
fn may_make(makers: RecordOwner, made: End, accepted: End) -> bool
    ensures { result ≡ may_make makers made accepted }
{
    match makers {
        RecordOwner::Other => made != accepted,
        RecordOwner::Either => true,
    }
}
