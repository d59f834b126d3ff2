//! The nonces with which an end begins its later conversations.

ghost use Rattle.std.specs.Prelude.{◌≡◌, ◌↔◌, ◌<◌, ◌≤◌, [], ◌∷◌, ◌++◌, length, IsTrue};

use arrayvec::ArrayVec;
use octet_lists::Nonce;
use std::marker::Model;

/// At most 15 nonces, in the order in which they are used. Contracts see the list of the nonces.
#[derive(Drop)]
pub struct Nonces {
    list: ArrayVec<Nonce, 15>,
}

impl Model for Nonces {
    ghost use Rattle.std.specs.Prelude.{List, ℕ};

    ghost Value = { List (List ℕ) };

    ghost view = { λ n. n.list.items };
}

impl Nonces {
    /// No nonces.
    pub fn new() -> Nonces
        ensures { result ≡ [] }
    {
        Nonces {
            list: ArrayVec::new(),
        }
    }

    /// Appends the nonce and answers true. If 15 nonces are there it answers false and changes nothing.
    pub fn push(&mut self, nonce: Nonce) -> bool
        ensures capacity { IsTrue result ↔ (length self.old < 15) }
        ensures pushed { length self.old < 15 → self.new ≡ self.old ++ nonce ∷ [] }
        ensures unchanged { 15 ≤ length self.old → self.new ≡ self.old }
    {
        self.list.try_push(nonce).is_ok()
    }

    /// The nonces in order.
    pub fn as_slice(&self) -> &[Nonce]
        ensures same { result.now ≡ self.now }
        ensures few { length result.now ≤ 15 }
    {
        self.list.as_slice()
    }

    /// An equal list.
    pub fn copy(&self) -> Nonces
        ensures { result ≡ self.now }
    {
        let mut list = ArrayVec::new();
        let _ = list.try_extend_from_slice(self.list.as_slice());
        Nonces { list }
    }
}
