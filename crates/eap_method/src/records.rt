//! Room for the records of tags, or none.

ghost use Rattle.std.specs.Prelude.{◌≡◌, ◌<◌, [], ◌∷◌, ◌++◌, length, ⊤};

use crate::tags::{Covering, TagRecord};
use std::marker::Model;

/// Room for the records of a message's tags, at most 2, or none.
pub trait Records: Drop {
    ghost use Rattle.std.specs.Prelude.{List};
    ghost use Rattle.eap_method.specs.declared.tags.TagRecord.{TagRecord};

    /// What is kept of these records.
    ghost stores: { Self → List TagRecord → Type 0 };

    /// No record.
    fn new() -> Self
        ensures { stores result [] };

    /// Leaves no record.
    fn clear(&mut self)
        ensures { stores self.new [] };

    /// Keeps what there is room for of one more record.
    fn put(&mut self, tag: &Covering)
        ensures { (records : List TagRecord) → length records < 2 → stores self.old records
            → stores self.new (records ++ tag.now ∷ []) };
}

/// No room: the records are made for nobody.
#[derive(Drop)]
pub struct NoRecords {}

impl Records for NoRecords {
    ghost stores = { λ _ _. ⊤ };

    fn new() -> NoRecords {
        NoRecords {}
    }

    fn clear(&mut self) {}

    fn put(&mut self, _tag: &Covering) {}
}

/// Room for 2 records. Contracts see the list of those that are there.
#[derive(Drop)]
pub struct TwoRecords {
    records: [TagRecord; 2],
    count: usize,
}

impl Model for TwoRecords {
    ghost use Rattle.std.specs.Prelude.{List, take, length, ◌≡◌, ◌≤◌};
    ghost use Rattle.eap_method.specs.declared.tags.TagRecord.{TagRecord};

    ghost Value = { List TagRecord };

    ghost view = { λ k. take k.count k.records };

    ghost invariant = { λ k. (k.count ≤ 2) × (length k.records ≡ 2) };
}

impl TwoRecords {
    /// The records in order.
    pub(crate) fn as_slice(&self) -> &[TagRecord]
        ensures { result.now ≡ self.now }
    {
        &self.records[..self.count]
    }
}

impl Records for TwoRecords {
    ghost stores = { λ kept records. kept ≡ records };

    fn new() -> TwoRecords {
        TwoRecords {
            records: [TagRecord::default(), TagRecord::default()],
            count: 0,
        }
    }

    fn clear(&mut self) {
        self.count = 0;
    }

    fn put(&mut self, tag: &Covering) {
        if self.count < 2 {
            self.records[self.count].write(tag);
            self.count += 1;
        }
    }
}
