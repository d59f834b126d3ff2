//! Which records there are, for proofs alone.

ghost use Rattle.std.specs.Prelude.{◌≡◌, List, [], ◌∷◌, ◌++◌};
ghost use Rattle.std.specs.Borrow.{ftrue};
ghost use Rattle.eap_method.specs.declared.tags.TagRecord.{TagRecord};

use crate::tags::Covering;
use std::marker::Model;

/// A list of records that no code reads: it takes no memory, and its calls do nothing at run time.
#[derive(Drop)]
pub(crate) struct Note {
    pub(crate) ghost records: { List TagRecord },
}

impl Model for Note {
    ghost also_owns = { λ _. ftrue };
}

impl Note {
    /// No records.
    pub(crate) fn none() -> Note
        ensures { result.records ≡ [] }
    {
        Note {}
    }

    /// One record more.
    pub(crate) fn and(&self, tag: &Covering) -> Note
        ensures { result.records ≡ self.now.records ++ tag.now ∷ [] }
    {
        Note {}
    }
}
