//! What a word spells: a number, octets in hex, a method, a ciphersuite, a name.

ghost use Rattle.std.specs.Prelude.{◌≡◌, ◌≤◌, ◌<◌, ◌+◌, ◌*◌, ◌/◌, ◌^◌, length, min, IsTrue, IfOk};
ghost use Rattle.std.specs.List.{list_all};
ghost use Rattle.octet_lists.specs.Sizes.{max_name};
ghost use Rattle.text_tables.specs.Fields.{number, spells_number, number_of, number_after};
ghost use Rattle.text_tables.specs.Fields.{is_digit, is_decimal, hex_of, hex_value};
ghost use Rattle.text_tables.specs.Fields.{is_hex_digit, is_hex, octets_of, spells_octets};
ghost use Rattle.text_tables.specs.Fields.{spells_kind, kind_of, spells_suite, suite_of};

use crate::fault::LineFault;
use octet_lists::{GPSK_KIND, Identity, Injected, Octets, PSK_KIND};

/// The number that the word spells in decimal digits without a leading zero. `BadNumber` comes if it
/// spells none, or one outside `low` to `high`.
#[tactic(auto, unfolding(crate::specs::Fields::number_of, crate::specs::Fields::spells_number))]
pub fn read_number(word: &[u8], low: u32, high: u32) -> Result<u32, LineFault>
    ensures value { result ≡ number_of word.now low high }
    ensures in_range { IfOk result (λ number. (low ≤ number) × (number ≤ high)) }
{
    if spells_number(word, low, high) {
        Ok(number(word))
    } else {
        Err(LineFault::BadNumber)
    }
}

/// True if the word spells a number from `low` to `high` in decimal digits without a leading zero.
#[tactic(auto, unfolding(crate::specs::Fields::spells_number))]
pub(crate) fn spells_number(word: &[u8], low: u32, high: u32) -> bool
    ensures { result ≡ spells_number word.now low high }
{
    if !is_decimal_word(word) {
        return false;
    }
    let number = number_up_to(word, high);
    u64::from(low) <= number && number <= u64::from(high)
}

/// The number that the digits spell, which is below 2^32.
pub fn number(digits: &[u8]) -> u32
    requires { number digits.now < 2 ^ 32 }
    ensures { result ≡ number digits.now }
{
    number_up_to(digits, u32::MAX) as u32
}

/// True if the word is decimal digits without a leading zero; 0 itself is one zero.
fn is_decimal_word(word: &[u8]) -> bool
    ensures { result ≡ is_decimal word.now }
{
    match word {
        [] => false,
        [b'0', _, ..] => false,
        _ => all_digits(word),
    }
}

fn all_digits(word: &[u8]) -> bool
    ensures { result ≡ list_all is_digit word.now }
{
    word.iter().all(|b| b'0' <= *b && *b <= b'9')
}

/// The number that the digits spell, or `high` + 1 if it is over `high`.
fn number_up_to(digits: &[u8], high: u32) -> u64
    ensures { result ≡ min (number_after 0 digits.now) (high + 1) }
{
    let most = u64::from(high) + 1;
    let mut number: u64 = 0;
    for digit in digits {
        let value = u64::from(digit.saturating_sub(b'0'));
        number = (10 * number + value).min(most);
    }
    number
}

/// The octets that the word spells in hex, in either case; `-` alone stands for none. `BadHex` comes
/// if the word is empty or isn't an even number of hex digits, else `BadSize` if it spells over
/// 2,000 octets.
#[tactic(auto, unfolding(crate::specs::Fields::hex_of))]
pub fn read_hex(word: &[u8]) -> Result<Injected, LineFault>
    ensures { result ≡ hex_of word.now }
{
    if !spells_octets(word) {
        return Err(LineFault::BadHex);
    }
    if octet_count(word) > 2000 {
        return Err(LineFault::BadSize);
    }
    Ok(octets(word))
}

/// True if the word is `-`, or an even number of hex digits, at least two.
#[tactic(auto, unfolding(crate::specs::Fields::spells_octets))]
pub(crate) fn spells_octets(word: &[u8]) -> bool
    ensures { result ≡ spells_octets word.now }
{
    word == b"-".as_slice() || is_hex_word(word)
}

fn is_hex_word(word: &[u8]) -> bool
    ensures { result ≡ is_hex word.now }
{
    !word.is_empty() && word.len() % 2 == 0 && all_hex_digits(word)
}

fn all_hex_digits(word: &[u8]) -> bool
    ensures { result ≡ list_all is_hex_digit word.now }
{
    word.iter()
        .all(|b| matches!(*b, b'0'..=b'9' | b'a'..=b'f' | b'A'..=b'F'))
}

/// How many octets the word spells.
#[tactic(auto, using(crate::proofs::FieldLemmas::octets_of_count))]
pub(crate) fn octet_count(word: &[u8]) -> usize
    ensures { result ≡ length (octets_of word.now) }
{
    word.len() / 2
}

/// The octets that the word spells in hex, at most `N`; `-` alone stands for none.
#[tactic(auto, unfolding(crate::specs::Fields::spells_octets))]
pub fn octets<const N: usize>(word: &[u8]) -> Octets<N>
    requires hex { IsTrue (spells_octets word.now) }
    requires bounded { length (octets_of word.now) ≤ N }
    ensures { result ≡ octets_of word.now }
{
    if word == b"-".as_slice() {
        return Octets::new();
    }
    hex_octets(word)
}

/// The `N` octets that the word spells in hex, at most 2,000; `-` alone stands for none.
pub fn array<const N: usize>(word: &[u8]) -> [u8; N]
    requires small { N ≤ 2000 }
    requires hex { IsTrue (spells_octets word.now) }
    requires size { length (octets_of word.now) ≡ N }
    ensures { result ≡ octets_of word.now }
{
    let octets: Octets<N> = octets(word);
    let mut array = [0u8; N];
    array.copy_from_slice(octets.as_slice());
    array
}

/// The octets that pairs of hex digits spell.
fn hex_octets<const N: usize>(digits: &[u8]) -> Octets<N>
    requires hex { IsTrue (list_all is_hex_digit digits.now) }
    requires bounded { length (octets_of digits.now) ≤ N }
    ensures { result ≡ octets_of digits.now }
{
    let mut octets = Octets::new();
    for place in 0..digits.len() / 2 {
        let high = hex_digit(digits[2 * place]);
        let low = hex_digit(digits[2 * place + 1]);
        octets.push(16 * high + low);
    }
    octets
}

/// The value of a hex digit.
fn hex_digit(digit: u8) -> u8
    requires { IsTrue (is_hex_digit digit) }
    ensures value { result ≡ hex_value digit }
    ensures small { result < 16 }
{
    match digit {
        b'0'..=b'9' => digit - b'0',
        b'A'..=b'F' => digit - (b'A' - 10),
        _ => digit - (b'a' - 10),
    }
}

/// True if the word is the Type of a method: 47 (EAP-PSK) or 51 (EAP-GPSK).
pub(crate) fn spells_kind(word: &[u8]) -> bool
    ensures { result ≡ spells_kind word.now }
{
    word == b"47".as_slice() || word == b"51".as_slice()
}

/// The Type that the word spells: 47 (EAP-PSK), and 51 (EAP-GPSK) for any other word.
pub fn kind_of(word: &[u8]) -> u8
    ensures { result ≡ kind_of word.now }
{
    if word == b"47".as_slice() {
        PSK_KIND
    } else {
        GPSK_KIND
    }
}

/// True if the word is the specifier of a ciphersuite of EAP-GPSK, 1 or 2.
pub(crate) fn spells_suite(word: &[u8]) -> bool
    ensures { result ≡ spells_suite word.now }
{
    word == b"1".as_slice() || word == b"2".as_slice()
}

/// The specifier that the word spells: 1, and 2 for any other word.
pub fn suite_of(word: &[u8]) -> u8
    ensures { result ≡ suite_of word.now }
{
    if word == b"1".as_slice() { 1 } else { 2 }
}

/// The name that the word is: its octets as they are, at most 253.
pub fn name(word: &[u8]) -> Identity
    requires { length word.now ≤ max_name }
    ensures { result ≡ word.now }
{
    let mut name = Identity::new();
    name.append(word);
    name
}
