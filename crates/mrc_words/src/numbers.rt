//! Numbers as words spell them.

ghost use Rattle.std.specs.Prelude.{◌≡◌, ◌^◌, min};
ghost use Rattle.mrc_wiring_text.specs.Lexis.{decimal};
ghost use Rattle.mrc_words.specs.Numbers.{number_of_word, delta_above, delta_below, delta_of_word};

use mrc_wiring_text::is_number;

/// The first number that has more than 32 bits.
const TOO_LARGE: u64 = 0x1_0000_0000;

/// The first number above 0 that has more than 32 bits with its sign.
const TOO_LARGE_DELTA: u64 = 0x8000_0000;

/// The number that decimal digits spell. Any number of more than 32 bits counts as the first.
fn value_of(digits: &[u8]) -> u64
    ensures { result ≡ min (decimal digits.now) (2 ^ 32) }
{
    let mut value = 0u64;
    for digit in digits {
        value = (value * 10 + u64::from(digit.saturating_sub(b'0'))).min(TOO_LARGE);
    }
    value
}

/// The number that a word spells in decimal digits, leading zeros or not, where it has 32 bits.
#[tactic(auto, unfolding(crate::specs::Numbers::number_of_word))]
pub fn number_of_word(word: &[u8]) -> Option<u32>
    ensures { result ≡ number_of_word word.now }
{
    if !is_number(word) {
        return None;
    }
    let value = value_of(word);
    if value < TOO_LARGE {
        Some(value as u32)
    } else {
        None
    }
}

/// The number that digits spell, where it is at most 2147483647.
#[tactic(auto, unfolding(crate::specs::Numbers::delta_above))]
fn delta_above(digits: &[u8]) -> Option<i32>
    ensures { result ≡ delta_above digits.now }
{
    if !is_number(digits) {
        return None;
    }
    let value = value_of(digits);
    if value < TOO_LARGE_DELTA {
        Some(value as i32)
    } else {
        None
    }
}

/// The number whose negative digits spell, where it is at least -2147483648.
#[tactic(auto, unfolding(crate::specs::Numbers::delta_below))]
fn delta_below(digits: &[u8]) -> Option<i32>
    ensures { result ≡ delta_below digits.now }
{
    if !is_number(digits) {
        return None;
    }
    let value = value_of(digits);
    if value <= TOO_LARGE_DELTA {
        Some(-(value as i64) as i32)
    } else {
        None
    }
}

/// The number from -2147483648 to 2147483647 that a word spells in decimal digits, after `-` where
/// it is below 0.
#[tactic(auto, unfolding(crate::specs::Numbers::delta_of_word))]
pub fn delta_of_word(word: &[u8]) -> Option<i32>
    ensures { result ≡ delta_of_word word.now }
{
    match *word {
        [] => None,
        [b'-', ref digits @ ..] => delta_below(digits),
        _ => delta_above(word),
    }
}
