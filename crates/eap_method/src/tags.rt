//! Records of the tags that an end makes and accepts.

ghost use Rattle.std.specs.Prelude.{◌≡◌, ◌≤◌, ◌<◌, ◌+◌, ◌↔◌, [], ◌∷◌, ◌++◌, length, map, IsTrue};
ghost use Rattle.std.specs.List.{concat};
ghost use Rattle.octet_lists.specs.Sizes.{max_packet};
ghost use Rattle.eap_method.specs.Tags.{no_tags, same_tag, is_under};

use crate::note::Note;
use crate::records::{Records, TwoRecords};
use octet_lists::{Octets, Packet, Secret};
use std::marker::Model;

/// Under which of a method's keys a tag is made. A maker's method takes those that it needs.
#[derive(Clone, Copy, PartialEq, Eq, Debug, Default)]
pub enum Label {
    /// AK: MAC_P and MAC_S of EAP-PSK (RFC 4764 section 3.2).
    #[default]
    Ak,
    /// TEK: the tag of EAP-PSK's PCHANNEL (RFC 4764 section 3.3).
    Tek,
    /// SK: the MACs of EAP-GPSK (RFC 5433 section 4).
    Sk,
}

/// A tag, with the octets that it covers and the shared key from which its key comes.
#[derive(Drop, Default)]
pub struct TagRecord {
    /// The method's Type: 47 (EAP-PSK), 51 (EAP-GPSK), or that of a maker's method.
    pub method: u8,
    pub label: Label,
    /// The end's shared key.
    pub psk: Secret,
    /// The octets that the tag covers. Of PCHANNEL's these are the EAX nonce (16 octets), the header
    /// (22) and the ciphertext, joined.
    pub octets: Packet,
    pub tag: Octets<32>,
}

impl TagRecord {
    /// An equal record.
    pub fn copy(&self) -> TagRecord
        ensures { result ≡ self.now }
    {
        TagRecord {
            method: self.method,
            label: self.label,
            psk: self.psk.copy(),
            octets: self.octets.copy(),
            tag: self.tag.copy(),
        }
    }

    /// Writes an equal record in place of what was there.
    pub fn set(&mut self, other: &TagRecord)
        ensures { self.new ≡ other.now }
    {
        self.method = other.method;
        self.label = other.label;
        self.psk.set(other.psk.as_slice());
        self.octets.set(other.octets.as_slice());
        self.tag.set(other.tag.as_slice());
    }

    /// Whether both records are equal.
    pub fn is_same(&self, other: &TagRecord) -> bool
        ensures { result ≡ same_tag self.now other.now }
    {
        self.method == other.method
            && self.label == other.label
            && self.psk.as_slice() == other.psk.as_slice()
            && self.octets.as_slice() == other.octets.as_slice()
            && self.tag.as_slice() == other.tag.as_slice()
    }

    /// Whether the tag is under this shared key.
    pub fn is_under(&self, key: &[u8]) -> bool
        ensures { result ≡ is_under key.now self.now }
    {
        self.psk.as_slice() == key
    }

    /// Writes this record in place of what was there.
    pub(crate) fn write(&mut self, tag: &Covering)
        ensures { self.new ≡ tag.now }
    {
        self.method = tag.method;
        self.label = tag.label;
        self.psk.set(tag.psk.as_slice());
        self.octets.clear();
        append_each(&mut self.octets, tag.covered);
        self.tag.set(tag.tag);
    }
}

/// A tag as the code has it: the octets that it covers in pieces, together at most 1,500, and its own, at most 32.
/// Contracts see its record.
#[derive(Drop)]
pub struct Covering<'a> {
    pub(crate) method: u8,
    pub(crate) label: Label,
    pub(crate) psk: &'a Secret,
    pub(crate) covered: &'a [&'a [u8]],
    pub(crate) tag: &'a [u8],
}

impl<'a> Model for Covering<'a> {
    ghost use Rattle.std.specs.Prelude.{map, length, ◌≤◌};
    ghost use Rattle.std.specs.List.{concat};
    ghost use Rattle.octet_lists.specs.Sizes.{max_packet};
    ghost use Rattle.eap_method.specs.declared.tags.TagRecord.{TagRecord};

    ghost Value = { TagRecord };

    ghost view = { λ c. record { method = c.method; label = c.label; psk = c.psk.now; octets = concat (map (λ p. p.now) c.covered.now); tag = c.tag.now } };

    ghost invariant = { λ c. (length (concat (map (λ p. p.now) c.covered.now)) ≤ max_packet) × (length c.tag.now ≤ 32) };
}

/// Appends the pieces, which fit.
#[tactic(auto, using(std::proofs::Common::append_assoc))]
fn append_each(octets: &mut Packet, pieces: &[&[u8]])
    requires { length octets.old + length (concat (map (λ p. p.now) pieces.now)) ≤ max_packet }
    ensures { octets.new ≡ octets.old ++ concat (map (λ p. p.now) pieces.now) }
{
    if let Some((first, rest)) = pieces.split_first() {
        octets.append(first);
        append_each(octets, rest);
    }
}

/// At most 2 records, in the order of the message's tags. Contracts see the list of the records, whether there is room
/// for them or not.
#[derive(Drop)]
pub struct TagList<R: Records = TwoRecords> {
    room: R,
    count: usize,
    note: Note,
}

impl<R: Records> Model for TagList<R> {
    ghost use Rattle.std.specs.Prelude.{List, length, ◌≡◌, ◌≤◌};
    ghost use Rattle.eap_method.specs.declared.tags.TagRecord.{TagRecord};

    ghost Value = { List TagRecord };

    ghost view = { λ l. l.note.records };

    ghost invariant = { λ l. (l.count ≤ 2) × (l.count ≡ length l.note.records) × R.stores l.room l.note.records };
}

impl<R: Records> TagList<R> {
    /// No records.
    pub fn new() -> TagList<R>
        ensures { result ≡ [] }
    {
        TagList {
            room: R::new(),
            count: 0,
            note: Note::none(),
        }
    }

    /// Leaves no record.
    pub fn clear(&mut self)
        ensures { self.new ≡ [] }
    {
        self.room.clear();
        self.count = 0;
        self.note = Note::none();
    }

    /// Appends a record and answers true. If 2 records are there it answers false and changes
    /// nothing. The octets that the tag covers are given in pieces, together at most 1,500; the tag has
    /// at most 32.
    pub fn add(
        &mut self,
        method: u8,
        label: Label,
        psk: &Secret,
        covered: &[&[u8]],
        tag: &[u8],
    ) -> bool
        requires covered { length (concat (map (λ p. p.now) covered.now)) ≤ max_packet }
        requires tag { length tag.now ≤ 32 }
        ensures capacity { IsTrue result ↔ (length self.old < 2) }
        ensures added { length self.old < 2
            → self.new ≡ self.old ++ (record {
              method = method;
              label = label;
              psk = psk.now;
              octets = concat (map (λ p. p.now) covered.now);
              tag = tag.now;
            }) ∷ [] }
        ensures unchanged { 2 ≤ length self.old → self.new ≡ self.old }
    {
        if self.count >= 2 {
            return false;
        }
        let tag = Covering {
            method,
            label,
            psk,
            covered,
            tag,
        };
        self.room.put(&tag);
        self.count += 1;
        self.note = self.note.and(&tag);
        true
    }
}

impl<R: Records> TagList<R> {
    /// Replaces the records by those of another list.
    pub fn set(&mut self, list: &TagList)
        ensures { self.new ≡ list.now }
    {
        self.clear();
        match list.as_slice() {
            [first, second] => {
                self.add_record(first);
                self.add_record(second);
            }
            [first] => {
                self.add_record(first);
            }
            _ => {}
        }
    }

    /// Appends a record and answers true. If 2 records are there it answers false and changes nothing.
    fn add_record(&mut self, tag: &TagRecord) -> bool
        ensures capacity { IsTrue result ↔ (length self.old < 2) }
        ensures added { length self.old < 2 → self.new ≡ self.old ++ tag.now ∷ [] }
        ensures unchanged { 2 ≤ length self.old → self.new ≡ self.old }
    {
        self.add(
            tag.method,
            tag.label,
            &tag.psk,
            &[tag.octets.as_slice()],
            tag.tag.as_slice(),
        )
    }
}

impl TagList<TwoRecords> {
    /// Appends a record and answers true. If 2 records are there it answers false and changes nothing.
    pub fn push(&mut self, tag: TagRecord) -> bool
        ensures capacity { IsTrue result ↔ (length self.old < 2) }
        ensures added { length self.old < 2 → self.new ≡ self.old ++ tag ∷ [] }
        ensures unchanged { 2 ≤ length self.old → self.new ≡ self.old }
    {
        self.add_record(&tag)
    }

    /// The records in order.
    pub fn as_slice(&self) -> &[TagRecord]
        ensures same { result.now ≡ self.now }
        ensures bounded { length result.now ≤ 2 }
    {
        self.room.as_slice()
    }
}

/// The records of a turn: of the tags accepted in the message received, and of those made for the
/// message sent.
#[derive(Drop)]
pub struct Tags<R: Records = TwoRecords> {
    pub accepted: TagList<R>,
    pub made: TagList<R>,
}

impl<R: Records> Model for Tags<R> {
    ghost use Rattle.eap_method.specs.Tags.{Tags};

    ghost Value = { Tags };

    ghost view = { λ t. record { accepted = t.accepted; made = t.made } };
}

impl<R: Records> Tags<R> {
    /// No records.
    pub fn new() -> Tags<R>
        ensures { result ≡ no_tags }
    {
        Tags {
            accepted: TagList::new(),
            made: TagList::new(),
        }
    }

    /// Replaces the records by others.
    pub fn set(&mut self, tags: &Tags)
        ensures { self.new ≡ tags.now }
    {
        self.accepted.set(&tags.accepted);
        self.made.set(&tags.made);
    }

    /// Leaves no record.
    pub fn clear(&mut self)
        ensures { self.new ≡ no_tags }
    {
        self.accepted.clear();
        self.made.clear();
    }
}
