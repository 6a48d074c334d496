//! The words of a line: what is between blanks, and each comma.

ghost use Rattle.std.specs.Prelude.{◌≤◌, length};

use std::alloc::{AllocError, Global};

fn is_blank(byte: u8) -> bool {
    matches!(byte, b' ' | b'\t' | b'\r')
}

/// How many blanks a text begins with.
fn blanks(text: &[u8]) -> usize
    ensures { result ≤ length text.now }
{
    match text.iter().position(|byte| !is_blank(*byte)) {
        Some(place) => place,
        None => text.len(),
    }
}

/// A word of more bytes ends there.
const LONGEST: usize = 20_000;

/// How many bytes a text begins with before a blank, a comma or a comment.
fn plain_len(text: &[u8]) -> usize
    ensures { result ≤ length text.now }
{
    let longest = text.len().min(LONGEST);
    match text[..longest]
        .iter()
        .position(|byte| matches!(*byte, b' ' | b'\t' | b'\r' | b',' | b'#'))
    {
        Some(place) => place,
        None => longest,
    }
}

/// The length of the word that a text begins with: 0 if it begins with a blank or a comment, or is
/// empty.
fn word_len(text: &[u8]) -> usize
    ensures { result ≤ length text.now }
{
    match text {
        [b',', ..] => 1,
        _ => plain_len(text),
    }
}

/// Whether the first line of a text has words.
pub fn has_words(text: &[u8]) -> bool {
    match &text[blanks(text)..] {
        [] | [b'\n' | b'#', ..] => false,
        _ => true,
    }
}

/// The words of a line, up to the first that ends for its length.
pub fn words_of(alloc: Global, line: &[u8]) -> Result<Vec<&[u8]>, AllocError> {
    let mut words = Vec::new(alloc);
    let mut rest = line;
    loop {
        let begun = &rest[blanks(rest)..];
        let (word, behind) = begun.split_at(word_len(begun));
        if word.is_empty() {
            return Ok(words);
        }
        words.push(word)?;
        if word.len() == LONGEST {
            return Ok(words);
        }
        rest = behind;
    }
}

/// Where the word of this number, from 0, begins and ends in a line. If it is missing, both are the
/// end of the last word.
pub(crate) fn word_place(line: &[u8], number: usize) -> (usize, usize) {
    let mut end = 0;
    let mut left = number;
    loop {
        let start = end + blanks(&line[end..]);
        let next = start + word_len(&line[start..]);
        if next == start {
            return (end, end);
        }
        if left == 0 {
            return (start, next);
        }
        left -= 1;
        end = next;
    }
}
