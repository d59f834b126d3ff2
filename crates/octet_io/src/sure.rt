//! A source and a sink that never fail.

ghost use Rattle.std.specs.Prelude.{◌≡◌, ◌≤◌, ◌<◌, ◌++◌, length, take, drop, min, Some, Ok, IfOk};
ghost use Rattle.octet_io.specs.Known.{prepend_known, nothing_known};

use crate::sink::Sink;
use crate::source::{Failed, Source};
use crate::unread::Unread;
use std::alloc::{AllocError, Global};
use std::marker::Model;

/// A source of octets in memory that never fails. Contracts see the list of the octets that are left.
#[derive(Drop)]
pub struct SureSource {
    unread: Unread,
}

impl Model for SureSource {
    ghost use Rattle.std.specs.Prelude.{List, ℕ};

    ghost Value = { List ℕ };

    ghost view = { λ s. s.unread };
}

impl SureSource {
    /// A source of these octets. Answers `AllocError` for want of memory.
    pub fn new(alloc: Global, octets: &[u8]) -> Result<SureSource, AllocError>
        ensures { IfOk result (λ source. source ≡ octets.now) }
    {
        Ok(SureSource {
            unread: Unread::new(alloc, octets)?,
        })
    }
}

impl Source for SureSource {
    ghost use Rattle.std.specs.Prelude.{Some, None};

    ghost shown = { record { octets = λ s. Some s; faults = λ _. 0; most_faults = None } };

    fn read(&mut self, buf: &mut [u8]) -> Result<usize, Failed>
        ensures bounded { IfOk result (λ n. n ≤ length buf.old) }
        ensures consumed { IfOk result
            (λ n. Some self.old ≡ prepend_known (take n buf.new) (Some self.new)) }
        ensures over { IfOk result
            (λ n. n ≡ 0 → 0 < length buf.old → Some self.new ≡ nothing_known (Some self.new)) }

        // It never fails, and takes as much as the buffer and what is left allow.
        ensures count { result ≡ Ok (min (length buf.old) (length self.old)) }
        ensures front { IfOk result (λ n. buf.new ≡ take n self.old ++ drop n buf.old) }
        ensures left { IfOk result (λ n. self.new ≡ drop n self.old) }
    {
        Ok(self.unread.read(buf.len(), buf))
    }
}

/// A sink that takes every piece whole, stores nothing and never fails.
#[derive(Drop, Default)]
pub struct SureSink;

impl SureSink {
    ghost use Rattle.std.specs.Prelude.{◌≡◌};

    /// A sink that takes everything.
    pub fn new() -> SureSink
        ensures { result ≡ record {} }
    {
        SureSink
    }
}

impl Sink for SureSink {
    ghost use Rattle.std.specs.Prelude.{None};

    ghost shown = { record { octets = λ _. None; faults = λ _. 0; most_faults = None } };

    fn write(&mut self, piece: &[u8]) -> Result<usize, Failed>
        ensures whole { result ≡ Ok (length piece.now) }
    {
        Ok(piece.len())
    }
}
