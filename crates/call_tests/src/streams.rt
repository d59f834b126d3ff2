//! Sources and sinks in memory, and their reads and writes that fail.

ghost use Rattle.std.specs.Prelude.{ℕ, None};
ghost use Rattle.octet_io.specs.Shown.{HasRisen};

use octet_io::{MemSink, MemSource, Sink, Source, SureSink, SureSource};
use std::test::Fail;

/// Marks a fault among the answers to reads and writes.
const FAULT: usize = 99;

/// Whether the reads into the buffer answer these numbers.
fn reads<S: Source>(source: &mut S, buf: &mut [u8], answers: &[usize]) -> bool {
    let mut are_same = true;
    for answer in answers {
        are_same &= source.read(buf).unwrap_or(FAULT) == *answer;
    }
    are_same
}

/// Whether the writes of the piece answer these numbers.
fn writes<W: Sink>(sink: &mut W, piece: &[u8], answers: &[usize]) -> bool {
    let mut are_same = true;
    for answer in answers {
        are_same &= sink.write(piece).unwrap_or(FAULT) == *answer;
    }
    are_same
}

/// A count of faults that stays, and isn't at its greatest number, hasn't risen: a fault that no call had is told.
fn a_count_that_stays_has_not_risen()
    ensures { HasRisen (record {
      octets = λ (_ : ℕ). None;
      faults = λ n. n;
      most_faults = None;
    }) 0 0 → ⊥ }
{}

#[test]
fn a_source_fails_at_its_listed_calls(rt: HostRuntime) -> Result<(), Fail> {
    a_count_that_stays_has_not_risen();
    let mut source = MemSource::new(rt.alloc(), b"abcde", 2, &[4, 2])?;
    let mut buf = [0; 4];
    let are_same = reads(&mut source, &mut buf, &[2, FAULT, 2, FAULT, 1, 0]);
    assert!(rt; are_same && buf == *b"ed\0\0");
    Ok(())
}

#[test]
fn a_sink_fails_at_its_listed_calls_and_where_it_is_full(rt: HostRuntime) -> Result<(), Fail> {
    let mut sink = MemSink::new(rt.alloc(), 5, 2, &[2])?;
    let are_same = writes(&mut sink, b"abcd", &[2, FAULT, 2, 1, FAULT]);
    let is_nothing = writes(&mut sink, b"", &[0]);
    assert!(rt; are_same && is_nothing && *sink.written() == *b"ababa".as_slice());
    Ok(())
}

#[test]
fn the_sure_ones_never_fail(rt: HostRuntime) -> Result<(), Fail> {
    let mut source = SureSource::new(rt.alloc(), b"abcde")?;
    let mut buf = [0; 4];
    let are_same = reads(&mut source, &mut buf, &[4, 1, 0]);
    let is_whole = writes(&mut SureSink::new(), b"abc", &[3]);
    assert!(rt; are_same && is_whole && buf == *b"ebcd");
    Ok(())
}
