//! The trait of a sink of octets.

ghost use Rattle.std.specs.Prelude.{◌≡◌, ◌≤◌, ◌<◌, length, take, IfOk, IfSome, OnOk, OnErr};
ghost use Rattle.octet_io.specs.Known.{append_known};
ghost use Rattle.octet_io.specs.Shown.{HasRisen};

use crate::source::Failed;

/// A sink of octets which counts its faults.
pub trait Sink {
    ghost use Rattle.octet_io.specs.Shown.{Shown};

    /// The octets that were written so far, if the sink shows them, the count of its faults, and the
    /// last value of that count, if there is one.
    ghost shown: { Shown Self };

    /// Writes the first octets of `piece`, at least one if there is one, and answers how many.
    /// `Failed` comes only if the count of faults rose, or is at its last value, which it never
    /// passes; then nothing was written. Without `Failed` the count is as it was.
    fn write(&mut self, piece: &[u8]) -> Result<usize, Failed>
        ensures moves { IfOk result (λ n. 0 < length piece.now → 0 < n) }
        ensures bounded { IfOk result (λ n. n ≤ length piece.now) }
        ensures appended { IfOk result
            (λ n. append_known (shown.octets self.old) (take n piece.now) ≡ shown.octets self.new) }
        ensures unchanged { OnErr result (shown.octets self.new ≡ shown.octets self.old) }
        ensures counted { OnErr result (HasRisen shown self.old self.new) }
        ensures uncounted { OnOk result (shown.faults self.new ≡ shown.faults self.old) }
        ensures never_falls { shown.faults self.old ≤ shown.faults self.new }
        ensures never_passes { IfSome shown.most_faults (λ last. shown.faults self.new ≤ last) };
}
