//! Users that the words of a command name.

ghost use Rattle.std.specs.Prelude.{◌≡◌, true, false, Some, map, string_bytes};
ghost use Rattle.text_tables.specs.IsValidRow.{IsKey, IsName};
ghost use Rattle.text_tables.specs.UserWords.{is_visible, is_name, is_key, user_named, with_named};
ghost use Rattle.text_tables.specs.UserWords.{users_named, users_until, read_as};

use crate::fields::{kind_of, name, octets, spells_kind, spells_octets};
use crate::rows::{is_valid_for, is_within};
use login_setup::{User, Users};
use octet_lists::MAX_NAME;

/// Adds the users that the words name, three words each: a name of 1 to 253 octets from 21 to 7e, a
/// method, 47 or 51, and its key in hex, of 16 octets for 47 and 32 to 64 for 51. False if the words are none
/// such, if a pair of a name and a method comes twice, or if there would be over 16 users; the users that
/// the words before name were added then.
#[tactic(auto, unfolding(crate::specs::UserWords::users_named, crate::specs::UserWords::users_until))]
pub fn read_users(words: &[String], users: &mut Users) -> bool
    ensures named { read_as result users.new
        ≡ users_named (Some users.old) (map string_bytes words.now) }
    ensures added { users.new
        ≡ users_until users.old (Some users.old) (map string_bytes words.now) }
{
    match words.split_first() {
        None => true,
        Some((name, rest)) => match rest.split_first() {
            None => false,
            Some((kind, rest)) => match rest.split_first() {
                None => false,
                Some((key, rest)) => {
                    if add_named(name.as_bytes(), kind.as_bytes(), key.as_bytes(), users) {
                        read_users(rest, users)
                    } else {
                        false
                    }
                }
            },
        },
    }
}

/// Adds the user that three words name.
fn add_named(name: &[u8], kind: &[u8], key: &[u8], users: &mut Users) -> bool
    ensures named { read_as result users.new
        ≡ with_named users.old (user_named name.now kind.now key.now) }
    ensures unchanged { result ≡ false → users.new ≡ users.old }
{
    match user_named(name, kind, key) {
        Some(user) => users.add(user),
        None => false,
    }
}

/// The user that three words name.
#[tactic(auto, unfolding(crate::specs::UserWords::user_named))]
fn user_named(word: &[u8], kind: &[u8], key: &[u8]) -> Option<User>
    ensures { result ≡ user_named word.now kind.now key.now }
{
    if is_name(word) && spells_kind(kind) && is_key(kind_of(kind), key) {
        Some(User {
            name: name(word),
            kind: kind_of(kind),
            psk: octets(key),
            barred: false,
        })
    } else {
        None
    }
}

/// True for a name of 1 to 253 octets from 21 to 7e.
#[tactic(auto, unfolding(crate::specs::UserWords::is_name))]
fn is_name(word: &[u8]) -> bool
    ensures name { result ≡ is_name word.now }
    ensures valid { result ≡ true → IsName word.now }
{
    is_visible(word) && is_within(word.len(), 1, MAX_NAME)
}

/// True for a key of the method's size in hex.
#[tactic(auto, unfolding(crate::specs::UserWords::is_key))]
fn is_key(kind: u8, word: &[u8]) -> bool
    ensures key { result ≡ is_key kind word.now }
    ensures valid { result ≡ true → IsKey kind word.now }
{
    spells_octets(word) && is_valid_for(kind, word)
}

/// True if every octet is a printable character other than a space.
fn is_visible(word: &[u8]) -> bool
    ensures { result ≡ is_visible word.now }
{
    word.iter().all(|b| 0x21 <= *b && *b <= 0x7e)
}
