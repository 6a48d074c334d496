//! Lines and words.

ghost use Rattle.std.specs.Prelude.{◌≡◌, ◌<◌, ◌==◌, ◌∷◌, ◌++◌, length, map, bytes_eq, vec_len};
ghost use Rattle.std.specs.Prelude.{IfOk, OnOk, slice_index_or, []};
ghost use Rattle.std.specs.List.{position_or_len, before_first, after_first};
ghost use Rattle.mrc_wiring_text.specs.Lexis.{lines, is_blank, is_hash, spaced_byte, spaced};
ghost use Rattle.mrc_wiring_text.specs.Lexis.{between_blanks, is_dot};

use std::alloc::{AllocError, Global};

/// Where a byte first stands, or the length where it does not.
fn place_of(text: &[u8], wanted: u8) -> usize
    ensures { result ≡ position_or_len (λ b. b == wanted) text.now }
{
    text.iter()
        .position(|byte| *byte == wanted)
        .unwrap_or(text.len())
}

/// The first line of a text, without its line feed, and the text after it.
pub fn first_line(text: &[u8]) -> (&[u8], &[u8])
    requires { 0 < length text.now }
    ensures cut { lines text.now ≡ result.0.now ∷ lines result.1.now }
    ensures shorter { length result.1.now < length text.now }
{
    let end = place_of(text, b'\n');
    if end < text.len() {
        (&text[..end], &text[end + 1..])
    } else {
        (text, &[])
    }
}

/// The lines of a text.
pub fn lines_of(alloc: Global, text: &[u8]) -> Result<Vec<&[u8]>, AllocError>
    ensures { IfOk result (λ found. map (λ line. line.now) found.items ≡ lines text.now) }
{
    let mut found = Vec::new(alloc);
    let mut rest = text;
    while !rest.is_empty() {
        let (line, after) = first_line(rest);
        found.push(line)?;
        rest = after;
    }
    Ok(found)
}

/// The line behind so many others: empty if there is none.
pub fn nth_line(text: &[u8], above: usize) -> &[u8]
    ensures { result.now ≡ slice_index_or (lines text.now) above [] }
{
    let mut rest = text;
    let mut left = above;
    while !rest.is_empty() {
        let (line, after) = first_line(rest);
        if left == 0 {
            return line;
        }
        left -= 1;
        rest = after;
    }
    &[]
}

#[tactic(auto, unfolding(crate::specs::Lexis::is_blank))]
fn is_blank(byte: u8) -> bool
    ensures { result ≡ is_blank byte }
{
    matches!(byte, b' ' | b'\t' | b'\r')
}

/// What stands before a comment.
fn before_comment(line: &[u8]) -> &[u8]
    ensures { result.now ≡ before_first is_hash line.now }
{
    &line[..place_of(line, b'#')]
}

/// Adds a byte, with a space on each side if it is a comma.
fn push_spaced(text: &mut Vec<u8>, byte: u8) -> Result<(), AllocError>
    ensures ok { OnOk result (text.new.items ≡ text.old.items ++ spaced_byte byte) }
{
    if byte == b',' {
        text.extend_from_slice(b" , ")?;
    } else {
        text.push(byte)?;
    }
    Ok(())
}

/// A line up to its comment, with a space on each side of each comma.
pub fn spaced(alloc: Global, line: &[u8]) -> Result<Vec<u8>, AllocError>
    ensures { IfOk result (λ text. text.items ≡ spaced (before_first is_hash line.now)) }
{
    let said = before_comment(line);
    let mut text = Vec::new(alloc);
    for byte in said {
        push_spaced(&mut text, *byte)?;
    }
    Ok(text)
}

/// What stands between blanks.
pub fn between_blanks(alloc: Global, text: &[u8]) -> Result<Vec<&[u8]>, AllocError>
    ensures exact { IfOk result (λ found.
        map (λ word. word.now) found.items ≡ between_blanks text.now) }
    ensures count { IfOk result (λ found. vec_len found ≡ length (between_blanks text.now)) }
{
    text.split(|byte| is_blank(*byte))
        .filter(|word| !word.is_empty())
        .collect(alloc)
}

/// What stands before a word's first dot, and what stands after it.
pub fn around_dot(word: &[u8]) -> (&[u8], &[u8])
    ensures before { result.0.now ≡ before_first is_dot word.now }
    ensures after { result.1.now ≡ after_first is_dot word.now }
{
    let dot = place_of(word, b'.');
    if dot < word.len() {
        (&word[..dot], &word[dot + 1..])
    } else {
        (word, &[])
    }
}

/// Whether a word is the given one.
pub fn is_word(word: &[u8], wanted: &str) -> bool
    ensures { result ≡ bytes_eq word.now wanted.now }
{
    word == wanted.as_bytes()
}
