//! A count of calls, some of which are to fail.

ghost use Rattle.std.specs.Prelude.{◌≡◌, ◌+◌, IfOk};
ghost use Rattle.std.specs.Bool.{OnTrue};
ghost use Rattle.octet_lists.specs.Among.{is_among};
ghost use Rattle.octet_io.specs.Memory.{is_listed, next_call};

use std::alloc::{AllocError, Global};

/// The numbers of the calls that are to fail, from 1, and how many calls came.
#[derive(Drop)]
pub struct Calls {
    pub failing: Vec<u32>,
    pub came: u32,
}

impl Calls {
    /// No call came yet. Allocates memory for a copy of the numbers.
    pub fn new(alloc: Global, failing: &[u32]) -> Result<Calls, AllocError>
        ensures failing { IfOk result (λ calls. calls.failing.items ≡ failing.now) }
        ensures none { IfOk result (λ calls. calls.came ≡ 0) }
    {
        Ok(Calls {
            failing: Vec::from_slice(alloc, failing)?,
            came: 0,
        })
    }

    /// Counts a call, and answers whether it is to fail.
    pub fn count(&mut self) -> bool
        ensures listed { result ≡ is_listed self.old.failing.items self.old.came }
        ensures counted { self.new.came ≡ next_call self.old.came }
        ensures rises { OnTrue result (self.new.came ≡ self.old.came + 1) }
        ensures same { self.new.failing ≡ self.old.failing }
    {
        match self.came.checked_add(1) {
            Some(number) => {
                self.came = number;
                is_among(&self.failing, number)
            }
            None => false,
        }
    }
}

fn is_among(failing: &[u32], number: u32) -> bool
    ensures { result ≡ is_among failing.now number }
{
    failing.iter().any(|call| *call == number)
}
