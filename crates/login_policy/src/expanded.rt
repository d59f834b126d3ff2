//! The lists of Expanded Naks (RFC 3748 section 5.3.2): what a peer desires, and what a server reads
//! of it.

ghost use Rattle.std.specs.Prelude.{◌≡◌, length};
ghost use Rattle.octet_lists.specs.Among.{is_kind};
ghost use Rattle.login_policy.specs.Policy.{nak_of};
ghost use Rattle.login_policy.specs.Expanded.{entry_of, nak_entries, names_new, expanded_kinds};

use crate::policy::nak_list;
use login_setup::PeerSetup;
use octet_lists::{EXPANDED, GPSK_KIND, IETF, Kinds, NAK_ENTRY_SIZE, Octets, PSK_KIND, is_among};

/// The list of the peer's Expanded Nak (RFC 3748 section 5.3.2): of each method that it allows, in
/// their order, an entry of eight octets with Vendor-Id 0 and its Type; the one entry of Type 0 if it
/// allows none.
#[tactic(auto, unfolding(crate::specs::Expanded::nak_entries))]
pub fn expanded_nak(setup: &PeerSetup) -> Octets<16>
    ensures { result ≡ nak_entries (nak_of setup.now.methods) }
{
    let kinds = nak_list(setup);
    let mut list = Octets::new();
    for kind in kinds.as_slice() {
        list.put(&entry_of(*kind));
    }
    list
}

/// The entry of a Type of the IETF.
fn entry_of(kind: u8) -> [u8; NAK_ENTRY_SIZE]
    ensures { result ≡ entry_of kind }
{
    [EXPANDED, 0, 0, 0, 0, 0, 0, kind]
}

/// The Types of the two methods in entries of Vendor-Id 0, each once, in the order of
/// their first places (RFC 3748 section 5.3.2). The list has entries of eight octets; octets behind
/// its last whole entry are ignored.
#[tactic(auto, using(crate::proofs::Desiring::has_room, crate::proofs::Desiring::stay_kinds, crate::proofs::Desiring::kind_is_new, crate::proofs::Desiring::kind_is_not))]
pub fn expanded_kinds(list: &[u8]) -> Kinds
    ensures { result ≡ expanded_kinds list.now }
{
    let mut kinds = Kinds::new();
    for entry in list.chunks_exact(NAK_ENTRY_SIZE) {
        if names_new(&kinds, entry) {
            kinds.put(&[entry[7]]);
        }
    }
    kinds
}

/// Whether an entry is of Vendor-Id 0 and names a Type of the two methods that isn't among these.
fn names_new(seen: &Kinds, entry: &[u8]) -> bool
    requires { length entry.now ≡ 8 }
    ensures { result ≡ names_new seen.now entry.now }
{
    entry[1..7] == IETF[..] && is_kind(entry[7]) && !is_among(seen.as_slice(), entry[7])
}

/// Whether a Type is that of one of the two methods.
fn is_kind(kind: u8) -> bool
    ensures { result ≡ is_kind kind }
{
    kind == PSK_KIND || kind == GPSK_KIND
}
