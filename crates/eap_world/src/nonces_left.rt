//! The nonces with which an end may still begin a conversation, and which of them have been seen in a delivery.

ghost use Rattle.std.specs.Prelude.{◌≡◌, ◌<◌, ℕ, map, length, slice_index, true};
ghost use Rattle.eap_world.specs.Conversations.{front, hears};
ghost use Rattle.eap_world.specs.Receiving.{receives_at, is_first, starts_with};
ghost use Rattle.eap_world.specs.TwoRecords.{AreMarked, waits};

use crate::conversations::{FRONT, Waiting};
use login_setup::Nonces;
use octet_lists::Nonce;
use std::marker::Model;

/// The most conversations that an end begins after its first.
const MAX_LATER: usize = 15;

/// The nonces that an end has left, in their order, and of each whether its first 16 octets have been seen in a
/// delivery. They stay in the list that the setup has, which is moved here whole.
#[derive(Drop)]
pub struct NoncesLeft {
    /// The nonces of all later conversations.
    nonces: Nonces,
    /// How many of them have been taken.
    taken: usize,
    /// Of each whether it has been seen in a delivery.
    heard: [bool; MAX_LATER],
}

impl Model for NoncesLeft {
    ghost use Rattle.std.specs.Prelude.{◌≤◌, List, drop, length};
    ghost use Rattle.eap_world.specs.TwoRecords.{waits};
    ghost use Rattle.eap_world.specs.declared.conversations.Waiting.{Waiting as WaitingValue};

    ghost Value = { List WaitingValue };

    ghost view = { λ l. drop l.taken (waits l.nonces l.heard) };

    ghost invariant = { λ l. (l.taken ≤ length l.nonces) × (length l.nonces ≤ length l.heard) };
}

impl NoncesLeft {
    ghost use Rattle.std.specs.Prelude.{◌≤◌, ◌∷◌, [], MatchOption};
    ghost use Rattle.eap_world.specs.Conversations.{waiting};
    ghost use Rattle.eap_world.specs.World.{has_none};

    /// These nonces, none of which has been seen in a delivery.
    pub fn new(nonces: Nonces) -> NoncesLeft
        ensures all { result ≡ map waiting nonces }
        ensures few { length result ≤ 15 }
    {
        let are_few = nonces.as_slice().len() <= MAX_LATER;
        prove!(are_few);
        NoncesLeft {
            nonces,
            taken: 0,
            heard: [false; MAX_LATER],
        }
    }

    /// Whether none is left.
    #[tactic(auto, using(crate::proofs::TwoRecords::none_left))]
    pub fn is_empty(&self) -> bool
        ensures { result ≡ has_none self.now }
    {
        self.nonces.as_slice().len() <= self.taken
    }

    /// Takes the first of the nonces; None exactly if there is none.
    #[tactic(auto, using(crate::proofs::TwoRecords::first_left, crate::proofs::TwoRecords::none_after))]
    pub fn next_unused(&mut self) -> Option<Waiting>
        ensures { MatchOption result ((self.old ≡ []) × (self.new ≡ []))
            (λ one. self.old ≡ one ∷ self.new) }
    {
        let nonces = self.nonces.as_slice();
        if self.taken < nonces.len() {
            let one = Waiting {
                nonce: nonces[self.taken],
                heard: self.heard[self.taken],
            };
            self.taken += 1;
            Some(one)
        } else {
            None
        }
    }

    /// Records of each nonce whether its first 16 octets occur in these octets.
    #[tactic(auto, using(crate::proofs::TwoRecords::still_left))]
    pub fn receive(&mut self, octets: &[u8])
        ensures { self.new ≡ map (hears octets.now) self.old }
    {
        if !self.is_empty() {
            receive(self.nonces.as_slice(), &mut self.heard, octets);
        }
    }
}

/// Records of each nonce whether its first 16 octets occur in these octets, which are read once, from their end. Most
/// octets are the first of none of the nonces.
fn receive(nonces: &[Nonce], heard: &mut [bool], octets: &[u8])
    ensures { waits nonces.now heard.new ≡ map (hears octets.now) (waits nonces.now heard.old) }
{
    let firsts = first_octets(nonces);
    for back in 0..octets.len() {
        receive_from(nonces, heard, &firsts, &octets[octets.len() - 1 - back..]);
    }
}

/// Of each octet whether one of the nonces begins with it.
fn first_octets(nonces: &[Nonce]) -> [bool; 256]
    ensures { AreMarked result nonces.now }
{
    let mut firsts = [false; 256];
    for nonce in nonces {
        mark_first(&mut firsts, nonce);
    }
    firsts
}

/// Marks the first octet of a nonce; those that are marked stay so.
#[tactic(auto, using(crate::proofs::ReceivedByPlaces::marks_stay))]
fn mark_first(firsts: &mut [bool; 256], nonce: &Nonce)
    ensures size { length nonce.now ≡ 32 }
    ensures first { is_first firsts.new (slice_index nonce.now 0) ≡ true }
    ensures preserves { (octet : ℕ) → is_first firsts.old octet ≡ true
        → is_first firsts.new octet ≡ true }
{
    firsts[usize::from(nonce[0])] = true;
}

/// Octets that begin at one place of a delivery: records of each nonce whether they begin with its first 16.
#[tactic(auto, using(crate::proofs::ReceivedByPlaces::none_here))]
fn receive_from(nonces: &[Nonce], heard: &mut [bool], firsts: &[bool; 256], octets: &[u8])
    requires some { 0 < length octets.now }
    requires marked { AreMarked firsts.now nonces.now }
    ensures { waits nonces.now heard.new
        ≡ map (receives_at octets.now) (waits nonces.now heard.old) }
{
    if firsts[usize::from(octets[0])] {
        receive_each(nonces, heard, octets);
    }
}

/// The same of each nonce, whatever the first octet.
fn receive_each(nonces: &[Nonce], heard: &mut [bool], octets: &[u8])
    ensures { waits nonces.now heard.new
        ≡ map (receives_at octets.now) (waits nonces.now heard.old) }
{
    if let Some((nonce, nonces)) = nonces.split_first() {
        if let Some((mark, heard)) = heard.split_first_mut() {
            *mark = *mark || begins_with(octets, nonce);
            receive_each(nonces, heard, octets);
        }
    }
}

/// Whether octets begin with the first 16 of a nonce.
#[tactic(auto, using(crate::proofs::ReceivedByPlaces::starts_where_same, crate::proofs::ReceivedByPlaces::too_short))]
fn begins_with(octets: &[u8], nonce: &Nonce) -> bool
    ensures { result ≡ starts_with (front nonce.now) octets.now }
{
    octets.len() >= FRONT && octets[..FRONT] == nonce[..FRONT]
}
