//! Kinds of births, and versions of texts: small numbers in decimal digits.

ghost use Rattle.std.specs.Prelude.{◌≡◌, ◌<◌, min};
ghost use Rattle.std.specs.List.{list_all};
ghost use Rattle.std.specs.Char.{is_ascii_digit};
ghost use Rattle.mrc_base.specs.Limits.{limit_of_kinds};
ghost use Rattle.mrc_wiring_text.specs.Lexis.{decimal};
ghost use Rattle.mrc_wiring_text.specs.Kinds.{is_number, kind_numbered, kind_of};

use mrc_base::limits::KINDS;
use std::marker::Model;

/// A kind of births: a number below 16.
#[derive(Debug, Drop)]
pub struct Kind {
    number: u8,
}

impl Model for Kind {
    ghost use Rattle.std.specs.Prelude.{ℕ, ◌<◌};
    ghost use Rattle.mrc_base.specs.Limits.{limit_of_kinds};

    ghost Value = { ℕ };

    ghost view = { λ k. k.number };

    ghost invariant = { λ k. k.number < limit_of_kinds };
}

impl Kind {
    /// The kind of this number, if there is one.
    pub fn new(number: u8) -> Option<Kind>
        ensures { result ≡ kind_numbered number }
    {
        if number < KINDS {
            Some(Kind { number })
        } else {
            None
        }
    }

    /// Its number.
    pub fn number(&self) -> u8
        ensures exact { result ≡ self.now }
        ensures within { result < limit_of_kinds }
    {
        self.number
    }
}

/// The number that decimal digits spell, or the cap where that is less.
pub fn capped(digits: &[u8], cap: u8) -> u8
    ensures { result ≡ min (decimal digits.now) cap }
{
    let mut value = 0u8;
    for digit in digits {
        let next = u32::from(value) * 10 + u32::from(digit.saturating_sub(b'0'));
        value = next.min(u32::from(cap)) as u8;
    }
    value
}

fn are_digits(bytes: &[u8]) -> bool
    ensures { result ≡ list_all is_ascii_digit bytes.now }
{
    bytes.iter().all(|byte| byte.is_ascii_digit())
}

/// Whether a word has decimal digits, at least one, and nothing else.
pub fn is_number(word: &[u8]) -> bool
    ensures { result ≡ is_number word.now }
{
    !word.is_empty() && are_digits(word)
}

/// The kind of births that a word spells, leading zeros or not; `None` where it spells none.
#[tactic(auto, unfolding(crate::specs::Kinds::kind_of))]
pub fn kind_of(word: &[u8]) -> Option<Kind>
    ensures { result ≡ kind_of word.now }
{
    if is_number(word) {
        Kind::new(capped(word, KINDS))
    } else {
        None
    }
}
