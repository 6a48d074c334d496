//! How far the words of a line are words of the grammar.

ghost use Rattle.std.specs.Prelude.{◌≡◌, map, IfOk};
ghost use Rattle.mrc_line_hints.specs.Walks.{walk};

use crate::ways::{Place, step};
use mrc_wiring_text::Edition;
use std::alloc::{AllocError, Global};

/// How far a line is one of the grammar.
#[derive(Clone, Copy, Debug, PartialEq, Eq)]
pub(crate) struct Walked {
    /// The number of words with which the line goes on.
    pub count: usize,
    /// The place behind them.
    pub place: Place,
}

/// The number of words with which a line goes on, and the place behind them.
pub(crate) fn walk(
    alloc: Global,
    edition: Edition,
    start: Place,
    words: &[&[u8]],
) -> Result<Walked, AllocError>
    ensures { IfOk result (λ walked. walked ≡
        walk edition 0 start (map (λ word. word.now) words.now)) }
{
    let mut place = start;
    let mut count = 0usize;
    for word in words {
        match step(alloc, edition, place, word)? {
            Some(next) => place = next,
            None => return Ok(Walked { count, place }),
        }
        count += 1;
    }
    Ok(Walked { count, place })
}
