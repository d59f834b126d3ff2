//! Octets drawn from a number.

ghost use Rattle.std.specs.Prelude.{◌≡◌, ◌+◌, ◌/◌, ℕ};
ghost use Rattle.bulk_run.specs.Draws.{next_state, state_at, octet_at, octets_after};

use octet_lists::{Octets, array_of};

/// A linear congruential generator modulo 2^32.
#[derive(Drop)]
pub struct Draws {
    /// The state, of which the high octet was drawn last.
    pub state: u32,
}

impl Draws {
    /// The draws from a number.
    pub fn new(number: u32) -> Draws
        ensures { result.state ≡ state_at number 0 }
    {
        Draws { state: number }
    }

    /// The next octet: the high one of the next state.
    pub fn octet(&mut self) -> u8
        ensures state { (number place : ℕ) → self.old.state ≡ state_at number place
            → self.new.state ≡ state_at number (place + 1) }
        ensures octet { (number place : ℕ) → self.old.state ≡ state_at number place
            → result ≡ octet_at number (place + 1) }
    {
        self.go_on();
        (self.state / (1 << 24)) as u8
    }

    /// The next state.
    fn go_on(&mut self)
        ensures { self.new.state ≡ next_state self.old.state }
    {
        let next = (1_664_525 * u64::from(self.state) + 1_013_904_223) % (1 << 32);
        self.state = next as u32;
    }

    /// The next 32 octets.
    pub fn octets(&mut self) -> [u8; 32]
        ensures state { (number place : ℕ) → self.old.state ≡ state_at number place
            → self.new.state ≡ state_at number (place + 32) }
        ensures octets { (number place : ℕ) → self.old.state ≡ state_at number place
            → result ≡ octets_after number place 32 }
    {
        let mut drawn: Octets<32> = Octets::new();
        for _ in 0..32_u32 {
            drawn.push(self.octet());
        }
        array_of(drawn.as_slice())
    }
}
