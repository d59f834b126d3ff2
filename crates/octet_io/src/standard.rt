//! The readers and writers of std as a source and a sink.

ghost use Rattle.std.specs.Prelude.{◌≡◌, ◌≤◌, ◌<◌, length, take, Some, IfOk, OnOk, OnErr};
ghost use Rattle.std.specs.Io.KnownBytes.{ReadConsumes, Appends};
ghost use Rattle.octet_io.specs.Memory.{last_fault, next_fault};

use crate::sink::Sink;
use crate::source::{Failed, Source};
use std::io::{Read, Write};
use std::marker::Model;

/// A reader as a source, which doesn't show what it has left. Contracts see the reader and the count of
/// its faults.
#[derive(Drop)]
pub struct StdSource<R: Read + Drop> {
    reader: R,
    faults: u64,
}

impl<R: Read + Drop> Model for StdSource<R> {
    ghost use Rattle.std.specs.Prelude.{◌≤◌};
    ghost use Rattle.octet_io.specs.Counted.{Counted};
    ghost use Rattle.octet_io.specs.Memory.{last_fault};

    ghost Value = { Counted R };

    ghost view = { λ s. record { inner = s.reader; faults = s.faults } };

    ghost invariant = { λ s. s.faults ≤ last_fault };
}

impl<R: Read + Drop> StdSource<R> {
    /// The reader as a source without a fault.
    pub fn new(reader: R) -> StdSource<R>
        ensures { result ≡ record { inner = reader; faults = 0 } }
    {
        StdSource { reader, faults: 0 }
    }
}

impl<R: Read + Drop> Source for StdSource<R> {
    ghost use Rattle.std.specs.Prelude.{Some, None};
    ghost use Rattle.octet_io.specs.Memory.{last_fault};

    ghost shown = { record { octets = λ _. None; faults = λ s. s.faults; most_faults = Some last_fault } };

    fn read(&mut self, buf: &mut [u8]) -> Result<usize, Failed>
        ensures bounded { IfOk result (λ n. n ≤ length buf.old) }
        ensures counted { OnErr result
            (self.new.faults ≤ self.old.faults → Some last_fault ≡ Some self.new.faults) }
        ensures never_falls { self.old.faults ≤ self.new.faults }
        ensures never_passes { self.new.faults ≤ last_fault }

        // At an error the count rises, and only then. That the reader was asked is shown by a test.
        ensures read { OnOk result (self.new.faults ≡ self.old.faults) }
        ensures failed { OnErr result (self.new.faults ≡ next_fault self.old.faults) }

        // The octets are those that the reader gives, if it says what it has left.
        ensures octets { ReadConsumes (R.remaining self.old.inner) (R.remaining self.new.inner)
            result buf.new }
    {
        match self.reader.read(buf) {
            Ok(count) => Ok(count),
            Err(_) => {
                self.faults = self.faults.saturating_add(1);
                Err(Failed)
            }
        }
    }
}

/// A writer as a sink, which doesn't show what was written. Contracts see the writer and the count of its
/// faults.
#[derive(Drop)]
pub struct StdSink<W: Write + Drop> {
    writer: W,
    faults: u64,
}

impl<W: Write + Drop> Model for StdSink<W> {
    ghost use Rattle.std.specs.Prelude.{◌≤◌};
    ghost use Rattle.octet_io.specs.Counted.{Counted};
    ghost use Rattle.octet_io.specs.Memory.{last_fault};

    ghost Value = { Counted W };

    ghost view = { λ s. record { inner = s.writer; faults = s.faults } };

    ghost invariant = { λ s. s.faults ≤ last_fault };
}

impl<W: Write + Drop> StdSink<W> {
    /// The writer as a sink without a fault.
    pub fn new(writer: W) -> StdSink<W>
        ensures { result ≡ record { inner = writer; faults = 0 } }
    {
        StdSink { writer, faults: 0 }
    }
}

impl<W: Write + Drop> Sink for StdSink<W> {
    ghost use Rattle.std.specs.Prelude.{Some, None};
    ghost use Rattle.octet_io.specs.Memory.{last_fault};

    ghost shown = { record { octets = λ _. None; faults = λ s. s.faults; most_faults = Some last_fault } };

    fn write(&mut self, piece: &[u8]) -> Result<usize, Failed>
        ensures moves { IfOk result (λ n. 0 < length piece.now → 0 < n) }
        ensures bounded { IfOk result (λ n. n ≤ length piece.now) }
        ensures counted { OnErr result
            (self.new.faults ≤ self.old.faults → Some last_fault ≡ Some self.new.faults) }
        ensures never_falls { self.old.faults ≤ self.new.faults }
        ensures never_passes { self.new.faults ≤ last_fault }

        // At an error the count rises, and only then. That the writer was asked is shown by a test.
        ensures wrote { OnOk result (self.new.faults ≡ self.old.faults) }
        ensures failed { OnErr result (self.new.faults ≡ next_fault self.old.faults) }

        // The octets are those that the writer has then, if it says what it has.
        ensures octets { IfOk result (λ n. Appends (W.contents self.old.inner)
            (W.contents self.new.inner) (take n piece.now)) }
    {
        match self.writer.write(piece) {
            Ok(count) if count > 0 || piece.is_empty() => Ok(count),
            _ => {
                self.faults = self.faults.saturating_add(1);
                Err(Failed)
            }
        }
    }
}
