//! The trait of a source of octets, and the error of a failed read or write.

ghost use Rattle.std.specs.Prelude.{◌≡◌, ◌≤◌, ◌<◌, length, take, IfOk, IfSome, OnOk, OnErr};
ghost use Rattle.octet_io.specs.Known.{prepend_known, nothing_known};
ghost use Rattle.octet_io.specs.Shown.{HasRisen};

use thiserror::Error;

/// A read or a write that failed. The source or the sink has counted it.
#[derive(Debug, Drop, Error, PartialEq, Eq, Clone, Copy)]
#[error("reading or writing failed")]
pub struct Failed;

/// A source of octets which counts its faults.
pub trait Source {
    ghost use Rattle.octet_io.specs.Shown.{Shown};

    /// The octets that are left to be read, if the source shows them, the count of its faults, and the
    /// last value of that count, if there is one.
    ghost shown: { Shown Self };

    /// Reads up to `buf.len()` octets into `buf` from its start and answers how many. 0 octets in a
    /// `buf` that isn't empty say that nothing is left. `Failed` comes only if the count of faults
    /// rose, or is at its last value, which it never passes; without `Failed` it is as it was.
    fn read(&mut self, buf: &mut [u8]) -> Result<usize, Failed>
        ensures bounded { IfOk result (λ n. n ≤ length buf.old) }
        ensures consumed { IfOk result
            (λ n. shown.octets self.old ≡ prepend_known (take n buf.new) (shown.octets self.new)) }
        ensures over { IfOk result (λ n. n ≡ 0 → 0 < length buf.old
            → shown.octets self.new ≡ nothing_known (shown.octets self.new)) }
        ensures counted { OnErr result (HasRisen shown self.old self.new) }
        ensures uncounted { OnOk result (shown.faults self.new ≡ shown.faults self.old) }
        ensures never_falls { shown.faults self.old ≤ shown.faults self.new }
        ensures never_passes { IfSome shown.most_faults (λ last. shown.faults self.new ≤ last) };
}
