//! Octets in memory, read from their start on.

ghost use Rattle.std.specs.Prelude.{◌≡◌, ◌≤◌, ◌++◌, length, take, drop, min, IfOk};

use std::alloc::{AllocError, Global};
use std::marker::Model;

/// Octets of which the first have been read. Contracts see the list of those that are left.
#[derive(Drop)]
pub struct Unread {
    octets: Vec<u8>,
    place: usize,
}

impl Model for Unread {
    ghost use Rattle.std.specs.Prelude.{List, ℕ, drop, length, ◌≤◌};

    ghost Value = { List ℕ };

    ghost view = { λ u. drop u.place u.octets.items };

    ghost invariant = { λ u. u.place ≤ length u.octets.items };
}

impl Unread {
    /// These octets, of which none has been read. Allocates memory for a copy of them.
    pub fn new(alloc: Global, octets: &[u8]) -> Result<Unread, AllocError>
        ensures { IfOk result (λ unread. unread ≡ octets.now) }
    {
        Ok(Unread {
            octets: Vec::from_slice(alloc, octets)?,
            place: 0,
        })
    }

    /// Reads up to `most` octets into `buf` from its start, as many as it has and as are left, and
    /// answers how many.
    pub fn read(&mut self, most: usize, buf: &mut [u8]) -> usize
        ensures count { result ≡ min (min most (length buf.old)) (length self.old) }
        ensures front { buf.new ≡ take result self.old ++ drop result buf.old }
        ensures consumed { self.old ≡ take result buf.new ++ self.new }
        ensures left { self.new ≡ drop result self.old }
    {
        let rest = &self.octets.as_slice()[self.place..];
        let count = most.min(buf.len()).min(rest.len());
        put_front(buf, &rest[..count]);
        self.place += count;
        count
    }
}

/// Writes the octets over the first ones of `buf`.
fn put_front(buf: &mut [u8], octets: &[u8])
    requires { length octets.now ≤ length buf.old }
    ensures { buf.new ≡ octets.now ++ drop (length octets.now) buf.old }
{
    buf[..octets.len()].copy_from_slice(octets);
}
