//! Lines of a text, what its first line with words says, and how far a line is one of the grammar.

ghost use Rattle.std.specs.Prelude.{◌≤◌};

use crate::walks::{Walked, walk};
use crate::ways::Place;
use mrc_place::{has_words, words_of};
use mrc_wiring_text::{Edition, first_line, nth_line};
use std::alloc::{AllocError, Global};

/// What a text is: a wiring or a policy.
#[derive(Clone, Copy, Debug, PartialEq, Eq)]
pub enum Role {
    /// A wiring.
    Wiring,
    /// A policy.
    Policy,
}

impl Role {
    /// The place at the beginning of the first line.
    pub(crate) fn head_place(self) -> Place {
        match self {
            Role::Wiring => Place::WiringHead,
            Role::Policy => Place::PolicyHead,
        }
    }

    /// The place at the beginning of each other line.
    fn line_place(self) -> Place {
        match self {
            Role::Wiring => Place::WiringLine,
            Role::Policy => Place::PolicyLine,
        }
    }

    /// The place of the version in the first line.
    pub(crate) fn version_place(self) -> Place {
        match self {
            Role::Wiring => Place::WiringVersion,
            Role::Policy => Place::PolicyVersion,
        }
    }

    /// The place at the beginning of a line, if so many lines are before the first line with words
    /// and so many before this one.
    fn start(self, before: usize, above: usize) -> Place {
        if before < above {
            self.line_place()
        } else {
            self.head_place()
        }
    }
}

/// How far a line of a text is one of the grammar.
#[derive(Clone, Copy, Debug, PartialEq, Eq)]
pub(crate) struct Seen {
    /// The edition of the text.
    pub edition: Edition,
    /// The place at the beginning of the line.
    pub start: Place,
    /// How far it is one.
    pub walked: Walked,
}

/// How many lines are before the first line with words, of so many lines.
pub(crate) fn lines_before(text: &[u8], most: usize) -> usize
    ensures { result ≤ most }
{
    let mut rest = text;
    for count in 0..most {
        if rest.is_empty() || has_words(rest) {
            return count;
        }
        let (_, after) = first_line(rest);
        rest = after;
    }
    most
}

/// The edition of the version that decimal digits encode: the first, if there is none.
fn edition_numbered(digits: &[u8]) -> Edition {
    let zeros = digits.iter().take_while(|digit| **digit == b'0').count();
    match &digits[zeros.min(digits.len())..] {
        [b'2'] => Edition::Second,
        [b'3'] => Edition::Third,
        _ => Edition::First,
    }
}

/// The edition that the words of a first line name.
fn edition_in(words: &[&[u8]]) -> Edition {
    match *words {
        [_, number] => edition_numbered(number),
        _ => Edition::First,
    }
}

/// How far the words of a line of a text behind so many others are words of the grammar.
pub(crate) fn see_line(
    alloc: Global,
    role: Role,
    text: &[u8],
    above: usize,
    words: &[&[u8]],
) -> Result<Seen, AllocError> {
    let before = lines_before(text, above);
    let edition = if before < above {
        edition_in(&words_of(alloc, nth_line(text, before))?)
    } else {
        edition_in(words)
    };
    let start = role.start(before, above);
    let walked = walk(alloc, edition, start, words)?;
    Ok(Seen {
        edition,
        start,
        walked,
    })
}
