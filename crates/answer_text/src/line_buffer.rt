//! The octets of a line that haven't been written yet.

ghost use Rattle.std.specs.Prelude.{◌≡◌, ◌≤◌, ◌+◌, ◌++◌, [], length, take};

use std::marker::Model;

/// The most octets that are buffered, so that a longer line takes more than one write.
const SIZE: usize = 1024;

/// The octets of a line that haven't been written yet, at most 1,024. Contracts see their list.
#[derive(Drop)]
pub struct LineBuffer {
    octets: [u8; SIZE],
    len: usize,
}

impl Model for LineBuffer {
    ghost use Rattle.std.specs.Prelude.{ℕ, List, take, ◌≤◌};

    ghost Value = { List ℕ };

    ghost view = { λ b. take b.len b.octets };

    ghost invariant = { λ b. b.len ≤ 1024 };
}

impl LineBuffer {
    /// No octets.
    pub fn new() -> LineBuffer
        ensures { result ≡ [] }
    {
        LineBuffer {
            octets: [0; SIZE],
            len: 0,
        }
    }

    /// The octets.
    pub fn as_slice(&self) -> &[u8]
        ensures { result.now ≡ self.now }
    {
        &self.octets[..self.len]
    }

    /// For how many more octets there is room.
    pub fn remaining(&self) -> usize
        ensures { result + length self.now ≡ 1024 }
    {
        SIZE - self.len
    }

    /// Appends octets for which there is room.
    pub fn append(&mut self, octets: &[u8])
        requires { length self.old + length octets.now ≤ 1024 }
        ensures { self.new ≡ self.old ++ octets.now }
    {
        put(&mut self.octets, self.len, octets);
        self.len += octets.len();
    }

    /// Drops all octets.
    pub fn clear(&mut self)
        ensures { self.new ≡ [] }
    {
        self.len = 0;
    }
}

/// Writes the octets behind the first `used` ones.
fn put(target: &mut [u8; SIZE], used: usize, octets: &[u8])
    requires { used + length octets.now ≤ 1024 }
    ensures { take (used + length octets.now) target.new ≡ take used target.old ++ octets.now }
{
    target[used..used + octets.len()].copy_from_slice(octets);
}
