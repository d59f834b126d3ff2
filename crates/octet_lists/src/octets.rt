//! Lists of octets that keep their octets inline and never allocate.

ghost use Rattle.std.specs.Prelude.{◌≡◌, ◌≤◌, ◌<◌, ◌+◌, ◌↔◌, [], ◌∷◌, ◌++◌, length, take, IsSome};
ghost use Rattle.std.specs.Prelude.{IfSome, IsTrue, Some, codes};
ghost use Rattle.std.specs.Cmp.{partial_equiv_from_equiv};
ghost use Rattle.std.specs.Cmp.Lexicographic.{nat_list_eq_equiv};
ghost use Rattle.std.specs.Fmt.{decimal};
ghost use Rattle.std.specs.Str.{bytes_eq};

use arrayvec::ArrayVec;
use std::fmt;
use std::marker::Model;

/// The most octets of the name of a peer or a server (RFC 7542 section 2.3).
pub const MAX_NAME: usize = 253;

/// The most octets of an EAP packet: the EAP MTU here, of which RFC 3748 section 3.1 requires 1,020 at least.
pub const MAX_PACKET: usize = 1500;

/// The name of a peer or a server: at most 253 octets.
pub type Identity = Octets<MAX_NAME>;

/// A shared key (PSK): at most 64 octets.
pub type Secret = Octets<64>;

/// The Types of at most two EAP methods, in order of preference.
pub type Kinds = Octets<2>;

/// The specifiers of at most two EAP-GPSK ciphersuites, in order of preference.
pub type Suites = Octets<2>;

/// An EAP packet: at most 1,500 octets.
pub type Packet = Octets<MAX_PACKET>;

/// Octets that a scenario injects, or that stand in a line of a text: at most 2,000.
pub type Injected = Octets<2000>;

/// The octets from which an end takes its nonce: 32 for EAP-GPSK, the first 16 for EAP-PSK.
pub type Nonce = [u8; 32];

/// At most `N` octets. Contracts see the list of the octets.
#[derive(Drop)]
pub struct Octets<const N: usize> {
    items: ArrayVec<u8, N>,
}

impl<const N: usize> Model for Octets<N> {
    ghost use Rattle.std.specs.Prelude.{List, ℕ};

    ghost Value = { List ℕ };

    ghost view = { λ o. o.items.items };
}

impl<const N: usize> Octets<N> {
    /// The empty list.
    pub fn new() -> Octets<N>
        ensures { result ≡ [] }
    {
        Octets {
            items: ArrayVec::new(),
        }
    }

    /// The list of these octets, or None if there are more than `N`.
    pub fn from_slice(octets: &[u8]) -> Option<Octets<N>>
        ensures bounded { IsSome result ↔ (length octets.now ≤ N) }
        ensures same { IfSome result (λ list. list ≡ octets.now) }
    {
        let mut list = Octets::new();
        if list.append(octets) {
            Some(list)
        } else {
            None
        }
    }

    /// The list of these octets, which fit.
    pub fn of(octets: &[u8]) -> Octets<N>
        requires { length octets.now ≤ N }
        ensures { result ≡ octets.now }
    {
        let mut list = Octets::new();
        list.put(octets);
        list
    }

    /// Appends one octet and answers true. If the list is full it answers false and changes nothing.
    pub fn push(&mut self, octet: u8) -> bool
        ensures capacity { IsTrue result ↔ (length self.old < N) }
        ensures pushed { length self.old < N → self.new ≡ self.old ++ octet ∷ [] }
        ensures unchanged { N ≤ length self.old → self.new ≡ self.old }
    {
        self.items.try_push(octet).is_ok()
    }

    /// Appends all these octets and answers true. If they don't fit it answers false and changes nothing.
    pub fn append(&mut self, octets: &[u8]) -> bool
        ensures capacity { IsTrue result ↔ (length self.old + length octets.now ≤ N) }
        ensures appended { length self.old + length octets.now ≤ N
            → self.new ≡ self.old ++ octets.now }
        ensures unchanged { N < length self.old + length octets.now → self.new ≡ self.old }
    {
        self.items.try_extend_from_slice(octets).is_ok()
    }

    /// Appends these octets, for which there is room.
    pub fn put(&mut self, octets: &[u8])
        requires { length self.old + length octets.now ≤ N }
        ensures { self.new ≡ self.old ++ octets.now }
    {
        self.append(octets);
    }

    /// Replaces the octets by these, which fit.
    pub fn set(&mut self, octets: &[u8])
        requires { length octets.now ≤ N }
        ensures { self.new ≡ octets.now }
    {
        self.clear();
        self.append(octets);
    }

    /// Removes all octets.
    pub fn clear(&mut self)
        ensures { self.new ≡ [] }
    {
        self.items.clear();
    }

    /// Keeps the first `keep` octets, or all if there are fewer.
    pub fn truncate(&mut self, keep: usize)
        ensures { self.new ≡ take keep self.old }
    {
        self.items.truncate(keep);
    }

    /// The octets in order.
    pub fn as_slice(&self) -> &[u8]
        ensures same { result.now ≡ self.now }
        ensures bounded { length result.now ≤ N }
    {
        self.items.as_slice()
    }

    /// The number of octets.
    pub fn len(&self) -> usize
        ensures count { result ≡ length self.now }
        ensures bounded { result ≤ N }
    {
        self.items.len()
    }

    /// True if there is no octet.
    pub fn is_empty(&self) -> bool
        ensures { IsTrue result ↔ (self.now ≡ []) }
    {
        self.items.is_empty()
    }

    /// An equal list.
    pub fn copy(&self) -> Octets<N>
        ensures { result ≡ self.now }
    {
        Octets::of(self.as_slice())
    }
}

impl<const N: usize> Default for Octets<N> {
    fn default() -> Octets<N>
        ensures { result ≡ [] }
    {
        Octets::new()
    }
}

/// Whether both have the same octets. It may end at the first that differ, so a tag or a MAC is compared by
/// `equal_in_full` alone.
impl<const N: usize> PartialEq for Octets<N> {
    ghost eq = { bytes_eq };

    ghost laws = { partial_equiv_from_equiv nat_list_eq_equiv };

    fn eq(&self, other: &Octets<N>) -> bool {
        self.as_slice() == other.as_slice()
    }
}

impl<const N: usize> Eq for Octets<N> {
    ghost laws = { nat_list_eq_equiv };
}

/// How many octets there are, and not which: they may be those of a key.
impl<const N: usize> fmt::Debug for Octets<N> {
    ghost debug_output = { λ o. Some (decimal (length o) ++ codes " octets") };

    fn fmt<W: fmt::Write>(&self, f: &mut fmt::Formatter<W>) -> fmt::Result {
        write!(f, "{} octets", self.len())
    }
}

/// These octets, of which there are `N`, as an array.
pub fn array_of<const N: usize>(octets: &[u8]) -> [u8; N]
    requires { length octets.now ≡ N }
    ensures { result ≡ octets.now }
{
    let mut array = [0; N];
    array.copy_from_slice(octets);
    array
}
