//! What a call that begins an end, or gives a server its user, answers, as a number.

ghost use Rattle.std.specs.Prelude.{◌≡◌};
ghost use Rattle.tuvaddri_c.specs.Answers.{ok, no_memory, wrong_end, refusal_number};

use end_objects::Refusal;

/// The end has begun, or has accepted the user.
pub const STARTED: u8 = 0;

/// A key has another size than its method requires, or there is none for it.
pub const BAD_KEY: u8 = 6;

/// There is no memory for the end.
pub const NO_MEMORY: u8 = 8;

/// The end has no users.
pub const NO_PLACE: u8 = 9;

/// The number of a refusal, 1 to 7.
pub fn number_of_refusal(refusal: Refusal) -> u8
    ensures number { result ≡ refusal_number refusal }
    ensures not_started { result ≡ ok → ⊥ }
    ensures in_memory { result ≡ no_memory → ⊥ }
    ensures placed { result ≡ wrong_end → ⊥ }
{
    match refusal {
        Refusal::BadSize => 1,
        Refusal::NoMethod => 2,
        Refusal::NoSuite => 3,
        Refusal::BadName => 4,
        Refusal::BadOther => 5,
        Refusal::BadKey => 6,
        Refusal::ManyRetries => 7,
    }
}
