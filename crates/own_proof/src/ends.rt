//! An example for makers whose program has many handles open at once: whether the tags that a session accepted are those of the peers.

ghost use Rattle.std.specs.Prelude.{◌≡◌, None, IsTrue};
ghost use Rattle.std.specs.List.{flat_map, list_any, position};
ghost use Rattle.eap_method.specs.Tags.{same_tag};
ghost use Rattle.login_laws.specs.AnyEnds.{AreMade};
ghost use Rattle.own_proof.specs.Ends.{TwoMatch, is_unmade};

use eap_method::TagRecord;

/// The place of the first tag under this key that an end accepted and no end of the other role made, of which each has a list of the tags
/// that it made; None if there is none. That is what `any_ends_match` asks of each end, and `any_server_matches` of one.
pub fn first_unmade(key: &[u8], accepted: &[TagRecord], made: &[&[TagRecord]]) -> Option<usize>
    ensures first { result
        ≡ position (is_unmade key.now (flat_map (λ l. l.now) made.now)) accepted.now }
    ensures honest { result ≡ None
        → AreMade key.now accepted.now (flat_map (λ l. l.now) made.now) }
{
    place_of(key, accepted, made)
}

/// The place of the first of these tags that is under this key and in none of these lists.
fn place_of(key: &[u8], accepted: &[TagRecord], made: &[&[TagRecord]]) -> Option<usize>
    ensures { result
        ≡ position (is_unmade key.now (flat_map (λ l. l.now) made.now)) accepted.now }
{
    accepted.iter().position(|tag| is_unmade(key, tag, made))
}

/// Whether a tag is under this key and in none of these lists.
fn is_unmade(key: &[u8], tag: &TagRecord, made: &[&[TagRecord]]) -> bool
    ensures { result ≡ is_unmade key.now (flat_map (λ l. l.now) made.now) tag.now }
{
    tag.is_under(key) && !is_made(tag, made)
}

/// Whether a tag is in one of these lists.
#[tactic(auto, using(crate::proofs::Unmade::any_of_both))]
fn is_made(tag: &TagRecord, made: &[&[TagRecord]]) -> bool
    ensures { result ≡ list_any (same_tag tag.now) (flat_map (λ l. l.now) made.now) }
{
    match made.split_first() {
        Some((first, rest)) => has(first, tag) || is_made(tag, rest),
        None => false,
    }
}

/// Whether a tag is in this list.
fn has(list: &[TagRecord], tag: &TagRecord) -> bool
    ensures { result ≡ list_any (same_tag tag.now) list.now }
{
    list.iter().any(|one| tag.is_same(one))
}

/// Whether two sessions of a server that are open at once accepted no tags under this key but those that peers made. Then each that
/// succeeds with a user of that key has the keys of exactly one of the peers, and the other session doesn't have them.
pub fn two_match(key: &[u8], one: &[TagRecord], other: &[TagRecord], made: &[&[TagRecord]]) -> bool
    ensures { IsTrue result
        → TwoMatch key.now one.now other.now (flat_map (λ l. l.now) made.now) }
{
    first_unmade(key, one, made).is_none() && first_unmade(key, other, made).is_none()
}
