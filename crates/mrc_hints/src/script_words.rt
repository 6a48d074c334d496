//! The first word of a line that is wrong.

use crate::script_digits::{HexFault, digit_place, hex_seen};
use crate::script_usage::count_fitting;
use mrc_report::{CallName, joined};
use mrc_wiring_text::is_word;
use mrc_words::number_of_word;
use std::alloc::{AllocError, Global};

/// What is wrong in a line of a script.
#[derive(Clone, Copy, Debug, PartialEq, Eq)]
pub(crate) enum Wrong {
    /// The first word is no task that may call.
    Task,
    /// The second word is no call.
    Call,
    /// The word behind so many parameters of a call, or that one is missing.
    Word {
        /// The call.
        call: CallName,
        /// How many parameters are before it.
        count: usize,
    },
    /// The digits of a message.
    Hex(HexFault),
}

/// The first word of a line that is wrong.
#[derive(Clone, Copy, Debug, PartialEq, Eq)]
pub(crate) struct Found {
    /// The number of the word, from 0: that of all words if one is missing.
    pub word: usize,
    /// How many bytes of the word are right.
    pub offset: usize,
    /// What is wrong.
    pub wrong: Wrong,
}

/// Whether a word is one of these names.
fn is_named(tasks: &[&str], word: &[u8]) -> bool {
    tasks.iter().any(|name| is_word(word, *name))
}

/// Whether digits are the number of a task, but none of so many wired ones.
fn is_child(tasks: usize, digits: &[u8]) -> bool {
    match number_of_word(digits) {
        Some(number) => number as usize >= tasks,
        None => false,
    }
}

/// Whether a word is a task that may call in a replay.
fn is_replay_caller(tasks: &[&str], word: &[u8]) -> bool {
    match *word {
        [] => false,
        [b'@', ref digits @ ..] => is_child(tasks.len(), digits),
        _ => is_named(tasks, word),
    }
}

/// Whether a word is a task that may call.
fn is_caller(live: bool, tasks: &[&str], word: &[u8]) -> bool {
    if live {
        is_named(tasks, word)
    } else {
        is_replay_caller(tasks, word)
    }
}

fn behind_words(word: usize, wrong: Wrong) -> Found {
    Found {
        word,
        offset: 0,
        wrong,
    }
}

/// The first wrong digit of the words behind `send`.
fn found_in_hex(alloc: Global, words: &[&[u8]]) -> Result<Found, AllocError> {
    let digits = joined(alloc, words)?;
    let seen = hex_seen(alloc, &digits)?;
    let place = digit_place(seen.digit, words);
    Ok(Found {
        word: place.word.saturating_add(2),
        offset: place.offset,
        wrong: Wrong::Hex(seen.fault),
    })
}

/// The first wrong word behind that of a call without HEX.
fn found_in_words(call: CallName, words: &[&[u8]]) -> Found {
    let count = count_fitting(call.parameters(), words);
    behind_words(count.saturating_add(2), Wrong::Word { call, count })
}

/// The first wrong word behind that of a call.
fn found_behind(
    alloc: Global,
    call: Option<CallName>,
    words: &[&[u8]],
) -> Result<Found, AllocError> {
    match call {
        None => Ok(behind_words(1, Wrong::Call)),
        Some(CallName::Send) => found_in_hex(alloc, words),
        Some(call) => Ok(found_in_words(call, words)),
    }
}

/// The first wrong word behind a task.
fn found_behind_task(alloc: Global, live: bool, words: &[&[u8]]) -> Result<Found, AllocError> {
    match *words {
        [] => Ok(behind_words(1, Wrong::Call)),
        [name, ref words @ ..] => found_behind(alloc, CallName::named(live, name), words),
    }
}

/// The first wrong word of a line.
pub(crate) fn found_in(
    alloc: Global,
    live: bool,
    tasks: &[&str],
    words: &[&[u8]],
) -> Result<Found, AllocError> {
    match *words {
        [task, ref words @ ..] if is_caller(live, tasks, task) => {
            found_behind_task(alloc, live, words)
        }
        _ => Ok(behind_words(0, Wrong::Task)),
    }
}
