// The key expansion on words of 32 bits (FIPS 197, section 5.2).

ghost use Rattle.std.specs.Prelude.{◌≡◌, ℕ, ◌+◌, ◌*◌, ◌<◌, List};
ghost use Rattle.aes_block.specs.KeySchedule.{change_at, round_key};
ghost use Rattle.aes_block.specs.Words.{octets_of, state_of_words};

use crate::key_schedule::ROUND_CONSTANTS;
use crate::tables::{octet, substitute, word};

// What is added to the first word of the round key before a round's, from its last word.
fn change(round: usize, last: u32) -> u32
    requires { round < 10 }
    ensures { octets_of result ≡ change_at (4 * round + 4) (octets_of last) }
{
    word([
        substitute(octet(last, 1)) ^ ROUND_CONSTANTS[round],
        substitute(octet(last, 2)),
        substitute(octet(last, 3)),
        substitute(octet(last, 0)),
    ])
}

// The round key after `key`, which is that of `round`.
pub(crate) fn next_word_key(round: usize, key: [u32; 4]) -> [u32; 4]
    requires { round < 10 }
    ensures { (initial : List ℕ) → state_of_words key ≡ round_key initial round
        → state_of_words result ≡ round_key initial (round + 1) }
{
    let first = key[0] ^ change(round, key[3]);
    let second = key[1] ^ first;
    let third = key[2] ^ second;
    let fourth = key[3] ^ third;
    [first, second, third, fourth]
}
