//! Octets of a source that were read and not used yet.

ghost use Rattle.std.specs.Prelude.{◌≡◌, ◌≤◌, [], length, drop, IfOk, OnErr, OnOk};
ghost use Rattle.octet_io.specs.Known.{prepend_known, nothing_known};
ghost use Rattle.octet_io.specs.Shown.{HasRisen};

use crate::source::{Failed, Source};
use std::marker::Model;

const BUFFER_SIZE: usize = 4096;

/// At most 4,096 octets of a source that were read and not used yet. Contracts see their list.
#[derive(Drop)]
pub struct ReadBuffer {
    octets: [u8; BUFFER_SIZE],
    place: usize,
    filled: usize,
}

impl Model for ReadBuffer {
    ghost use Rattle.std.specs.Prelude.{List, ℕ, ◌≡◌, ◌≤◌, ◌-◌, take, drop, length};

    ghost Value = { List ℕ };

    ghost view = { λ a. take (a.filled - a.place) (drop a.place a.octets) };

    ghost invariant = { λ a. (a.place ≤ a.filled) × (a.filled ≤ 4096) × (length a.octets ≡ 4096) };
}

impl ReadBuffer {
    /// No octets.
    pub fn new() -> ReadBuffer
        ensures { result ≡ [] }
    {
        ReadBuffer {
            octets: [0; BUFFER_SIZE],
            place: 0,
            filled: 0,
        }
    }

    /// Reads once, if no octet is left, and answers how many octets came: none if the source has
    /// none left.
    pub fn fill<S: Source>(&mut self, source: &mut S) -> Result<usize, Failed>
        ensures count { IfOk result (λ n. n ≡ length self.new) }
        ensures gives { IfOk result
            (λ n. S.shown.octets source.old ≡ prepend_known self.new (S.shown.octets source.new)) }
        ensures over { IfOk result
            (λ n. n ≡ 0 → S.shown.octets source.new ≡ nothing_known (S.shown.octets source.new)) }
        ensures counted { OnErr result (HasRisen S.shown source.old source.new) }
        ensures uncounted { OnOk result (S.shown.faults source.new ≡ S.shown.faults source.old) }
        ensures never_falls { S.shown.faults source.old ≤ S.shown.faults source.new }
    {
        self.place = 0;
        self.filled = 0;
        let count = source.read(&mut self.octets)?;
        self.filled = count;
        Ok(count)
    }

    /// The octets in order.
    pub fn as_slice(&self) -> &[u8]
        ensures { result.now ≡ self.now }
    {
        &self.octets[self.place..self.filled]
    }

    /// Leaves out the first `count` octets.
    pub fn skip(&mut self, count: usize)
        requires { count ≤ length self.old }
        ensures { self.new ≡ drop count self.old }
    {
        self.place += count;
    }
}
