//! A source and a sink in memory, which show their octets and fail at the calls that a list names.

ghost use Rattle.std.specs.Prelude.{◌≡◌, ◌≤◌, ◌<◌, ◌++◌, ◌↔◌, [], length, take, drop, Some, IfOk};
ghost use Rattle.std.specs.Prelude.{IsErr, OnOk, OnErr, IsTrue};
ghost use Rattle.octet_io.specs.Known.{prepend_known, append_known, nothing_known};
ghost use Rattle.octet_io.specs.Memory.{is_listed, last_fault, read_count, after_read};
ghost use Rattle.octet_io.specs.Memory.{after_read_fault, write_fails, write_count, after_write};
ghost use Rattle.octet_io.specs.Memory.{after_write_fault};

use crate::calls::Calls;
use crate::sink::Sink;
use crate::source::{Failed, Source};
use crate::unread::Unread;
use std::alloc::{AllocError, Global};
use std::marker::Model;

/// A source of octets in memory, which fails at exactly the listed calls.
#[derive(Drop)]
pub struct MemSource {
    unread: Unread,
    piece: usize,
    calls: Calls,
    faults: u32,
}

impl Model for MemSource {
    ghost use Rattle.std.specs.Prelude.{◌≤◌, ◌<◌};
    ghost use Rattle.octet_io.specs.Memory.{SourceMemory};

    ghost Value = { SourceMemory };

    ghost view = { λ s. record { left = s.unread; piece = s.piece; failing = s.calls.failing.items; calls = s.calls.came; faults = s.faults } };

    ghost invariant = { λ s. (0 < s.piece) × (s.faults ≤ s.calls.came) };
}

impl MemSource {
    /// A source of these octets, of which one call takes at most `piece`. The calls whose numbers
    /// `failing` lists, from 1, fail and take nothing. Answers `AllocError` for want of memory.
    pub fn new(
        alloc: Global,
        octets: &[u8],
        piece: usize,
        failing: &[u32],
    ) -> Result<MemSource, AllocError>
        requires { 0 < piece }
        ensures { IfOk result (λ source. source ≡ record {
          left = octets.now;
          piece = piece;
          failing = failing.now;
          calls = 0;
          faults = 0;
        }) }
    {
        Ok(MemSource {
            unread: Unread::new(alloc, octets)?,
            piece,
            calls: Calls::new(alloc, failing)?,
            faults: 0,
        })
    }
}

impl Source for MemSource {
    ghost use Rattle.std.specs.Prelude.{Some, None};

    ghost shown = { record { octets = λ s. Some s.left; faults = λ s. s.faults; most_faults = None } };

    fn read(&mut self, buf: &mut [u8]) -> Result<usize, Failed>
        ensures bounded { IfOk result (λ n. n ≤ length buf.old) }
        ensures consumed { IfOk result
            (λ n. Some self.old.left ≡ prepend_known (take n buf.new) (Some self.new.left)) }
        ensures over { IfOk result (λ n. n ≡ 0 → 0 < length buf.old
            → Some self.new.left ≡ nothing_known (Some self.new.left)) }
        ensures counted { OnErr result (self.old.faults < self.new.faults) }
        ensures uncounted { OnOk result (self.new.faults ≡ self.old.faults) }
        ensures never_falls { self.old.faults ≤ self.new.faults }

        // It fails exactly if the call is listed, and then takes nothing.
        ensures listed { IsErr result ↔ IsTrue (is_listed self.old.failing self.old.calls) }
        ensures failed { OnErr result (self.new ≡ after_read_fault self.old) }
        ensures untouched { OnErr result (buf.new ≡ buf.old) }

        // Otherwise it takes as much as the piece, the buffer and what is left allow.
        ensures count { IfOk result (λ n. n ≡ read_count self.old (length buf.old)) }
        ensures front { IfOk result (λ n. buf.new ≡ take n self.old.left ++ drop n buf.old) }
        ensures read { IfOk result (λ n. self.new ≡ after_read self.old n) }
    {
        if self.calls.count() {
            self.faults += 1;
            return Err(Failed);
        }
        Ok(self.unread.read(self.piece, buf))
    }
}

/// A sink of octets in memory. It fails at the listed calls, and if it has no room left.
#[derive(Drop)]
pub struct MemSink {
    octets: Vec<u8>,
    room: usize,
    piece: usize,
    calls: Calls,
    faults: u64,
}

impl Model for MemSink {
    ghost use Rattle.std.specs.Prelude.{◌≤◌, ◌<◌, length, vec_capacity};
    ghost use Rattle.octet_io.specs.Memory.{SinkMemory};

    ghost Value = { SinkMemory };

    ghost view = { λ s. record {
      written = s.octets.items;
      room = s.room;
      piece = s.piece;
      failing = s.calls.failing.items;
      calls = s.calls.came;
      faults = s.faults;
    } };

    ghost invariant = { λ s. (0 < s.piece) × (length s.octets.items ≤ s.room) × (s.room ≤ vec_capacity s.octets) };
}

impl MemSink {
    /// An empty sink with room for `room` octets in all, of which one call takes at most `piece`. The
    /// calls whose numbers `failing` lists, from 1, fail and take nothing. All memory is allocated
    /// here: answers `AllocError` for want of it.
    pub fn new(
        alloc: Global,
        room: usize,
        piece: usize,
        failing: &[u32],
    ) -> Result<MemSink, AllocError>
        requires { 0 < piece }
        ensures { IfOk result (λ sink. sink ≡ record {
          written = [];
          room = room;
          piece = piece;
          failing = failing.now;
          calls = 0;
          faults = 0;
        }) }
    {
        Ok(MemSink {
            octets: Vec::with_capacity(alloc, room)?,
            room,
            piece,
            calls: Calls::new(alloc, failing)?,
            faults: 0,
        })
    }

    /// All octets that were written so far.
    pub fn written(&self) -> &[u8]
        ensures { result.now ≡ self.now.written }
    {
        self.octets.as_slice()
    }
}

impl Sink for MemSink {
    ghost use Rattle.std.specs.Prelude.{Some};
    ghost use Rattle.octet_io.specs.Memory.{last_fault};

    ghost shown = { record { octets = λ s. Some s.written; faults = λ s. s.faults; most_faults = Some last_fault } };

    fn write(&mut self, piece: &[u8]) -> Result<usize, Failed>
        ensures moves { IfOk result (λ n. 0 < length piece.now → 0 < n) }
        ensures bounded { IfOk result (λ n. n ≤ length piece.now) }
        ensures appended { IfOk result
            (λ n. append_known (Some self.old.written) (take n piece.now) ≡ Some self.new.written) }
        ensures unchanged { OnErr result (Some self.new.written ≡ Some self.old.written) }
        ensures counted { OnErr result
            (self.new.faults ≤ self.old.faults → Some last_fault ≡ Some self.new.faults) }
        ensures uncounted { OnOk result (self.new.faults ≡ self.old.faults) }
        ensures never_falls { self.old.faults ≤ self.new.faults }
        ensures never_passes { self.new.faults ≤ last_fault }

        // It fails exactly if the call is listed, or there is something to write and no room.
        ensures fails { IsErr result ↔ IsTrue (write_fails self.old piece.now) }
        ensures failed { OnErr result (self.new ≡ after_write_fault self.old) }

        // Otherwise it takes as much as the piece passed to it, its own and its room allow.
        ensures count { IfOk result (λ n. n ≡ write_count self.old (length piece.now)) }
        ensures wrote { IfOk result (λ n. self.new ≡ after_write self.old piece.now n) }
    {
        let listed = self.calls.count();
        let free = self.room - self.octets.len();
        if listed || (free == 0 && !piece.is_empty()) {
            self.faults = self.faults.saturating_add(1);
            return Err(Failed);
        }
        let count = self.piece.min(piece.len()).min(free);
        let _ = self.octets.extend_from_slice(&piece[..count]);
        Ok(count)
    }
}
