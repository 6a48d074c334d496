//! Words in a row.

use std::alloc::{AllocError, Global};

/// What is between a word and so many others of which one is to be chosen.
fn or_between(others: usize) -> &'static str {
    match others {
        0 => "",
        1 => " or ",
        _ => ", ",
    }
}

/// Words of which one is to be chosen: `A, B or C`.
pub fn alternatives(alloc: Global, words: &[&str]) -> Result<String, AllocError> {
    let mut text = String::new(alloc);
    let mut rest = words;
    while let [word, others @ ..] = rest {
        text.push_str(word)?;
        text.push_str(or_between(others.len()))?;
        rest = others;
    }
    Ok(text)
}

/// What is between a word and so many others.
fn comma_between(others: usize) -> &'static str {
    match others {
        0 => "",
        _ => ", ",
    }
}

/// Words with commas between them.
fn in_a_row(alloc: Global, words: &[&str]) -> Result<String, AllocError> {
    let mut text = String::new(alloc);
    let mut rest = words;
    while let [word, others @ ..] = rest {
        text.push_str(word)?;
        text.push_str(comma_between(others.len()))?;
        rest = others;
    }
    Ok(text)
}

/// How many more words there are, if there are any.
fn and_more(alloc: Global, count: usize) -> Result<String, AllocError> {
    if count == 0 {
        Ok(String::new(alloc))
    } else {
        format!(in alloc; " and {count} more")
    }
}

/// The first ten words, and how many more there are: `A, B, C and N more`.
pub fn listed(alloc: Global, words: &[&str]) -> Result<String, AllocError> {
    let (shown, others) = words.split_at(words.len().min(10));
    let mut text = in_a_row(alloc, shown)?;
    let more = and_more(alloc, others.len())?;
    text.push_str(more.as_str())?;
    Ok(text)
}
