//! Strings, and the words of a line with strings.

ghost use Rattle.std.specs.Prelude.{◌≡◌, ◌<◌, ◌≤◌, ◌++◌, ◌∷◌, [], length, map, drop};
ghost use Rattle.std.specs.Prelude.{IfOk, OnOk, IsTrue};
ghost use Rattle.std.specs.List.{list_any, slice_split};
ghost use Rattle.std.specs.Option.{option_map};
ghost use Rattle.mrc_wiring_text.specs.Lexis.{is_hash, words};
ghost use Rattle.mrc_wide_policy.specs.Quotes.{is_quote, string_word, by_turns, quoted_words};
ghost use Rattle.mrc_wide_policy.specs.Quotes.{ends_control, has_control, is_string, inside};
ghost use Rattle.mrc_wide_policy.specs.Quotes.{is_in_quotes, quoted_of, as_text};

use mrc_wiring_text::{between_blanks, spaced};
use std::alloc::{AllocError, Global};
use std::marker::Model;
use std::str;

/// Bytes of a string, at most.
pub const STRING: usize = 128;

/// What stands in a string: a text of one byte at least and no more than a string may have, without
/// control characters.
#[derive(Debug, Drop)]
pub struct Quoted {
    text: Vec<u8>,
}

impl Model for Quoted {
    ghost use Rattle.std.specs.Prelude.{ℕ, List, IsTrue};
    ghost use Rattle.mrc_wide_policy.specs.Quotes.{is_string};

    ghost Value = { List ℕ };

    ghost view = { λ a. a.text.items };

    ghost invariant = { λ a. IsTrue (is_string a.text.items) };
}

fn ends_control(before: u8, byte: u8) -> bool
    ensures { result ≡ ends_control before byte }
{
    byte < 32 || byte == 127 || (before == 194 && byte < 160)
}

fn has_control(bytes: &[u8]) -> bool
    ensures { result ≡ has_control 0 bytes.now }
{
    let mut before = 0u8;
    for byte in bytes {
        if ends_control(before, *byte) {
            return true;
        }
        before = *byte;
    }
    false
}

/// Whether a string can have this text.
#[tactic(auto, unfolding(crate::specs::Quotes::is_string))]
fn is_string(text: &[u8]) -> bool
    ensures { result ≡ is_string text.now }
{
    !text.is_empty() && text.len() <= STRING && !has_control(text)
}

/// Whether a word begins with one `"` and ends with another.
#[tactic(auto, unfolding(crate::specs::Quotes::is_in_quotes))]
fn is_in_quotes(word: &[u8]) -> bool
    ensures exact { result ≡ is_in_quotes word.now }
    ensures long { IsTrue result → 1 < length word.now }
{
    word.len() >= 2 && word[0] == b'"' && word[word.len() - 1] == b'"'
}

/// What stands between the first byte of a word and its last.
fn inside(word: &[u8]) -> &[u8]
    requires { 1 < length word.now }
    ensures { result.now ≡ inside word.now }
{
    &word[1..word.len() - 1]
}

impl Quoted {
    /// The string that a word is, or `None` where it is none.
    #[tactic(auto, unfolding(crate::specs::Quotes::quoted_of))]
    pub fn new(alloc: Global, word: &[u8]) -> Result<Option<Quoted>, AllocError>
        ensures { IfOk result (λ string. string ≡ quoted_of word.now) }
    {
        if !is_in_quotes(word) {
            return Ok(None);
        }
        let bytes = inside(word);
        if !is_string(bytes) {
            return Ok(None);
        }
        Ok(Some(Quoted {
            text: Vec::from_slice(alloc, bytes)?,
        }))
    }

    /// An equal string.
    pub fn copy(&self, alloc: Global) -> Result<Quoted, AllocError>
        ensures { IfOk result (λ copy. copy ≡ self.now) }
    {
        Ok(Quoted {
            text: Vec::from_slice(alloc, self.as_bytes())?,
        })
    }

    /// The text, if it is UTF-8, as that of a policy is.
    pub fn as_str(&self) -> Option<&str>
        ensures { option_map (λ text. text.now) result ≡ as_text self.now }
    {
        match str::from_utf8(self.as_bytes()) {
            Ok(text) => Some(text),
            Err(_) => None,
        }
    }

    /// The bytes of the text.
    pub fn as_bytes(&self) -> &[u8]
        ensures kept { IsTrue (is_string self.now) }
        ensures exact { result.now ≡ self.now }
    {
        self.text.as_slice()
    }
}

fn has_hash(text: &[u8]) -> bool
    ensures { result ≡ list_any is_hash text.now }
{
    text.iter().any(|byte| *byte == b'#')
}

/// Adds the words of what stands outside of strings.
fn push_words(alloc: Global, said: &mut Vec<Vec<u8>>, text: &[u8]) -> Result<(), AllocError>
    ensures { OnOk result (map (λ word. word.items) said.new.items ≡
        map (λ word. word.items) said.old.items ++ words text.now) }
{
    let text = spaced(alloc, text)?;
    let found = between_blanks(alloc, &text)?;
    for word in &found {
        said.push(Vec::from_slice(alloc, *word)?)?;
    }
    Ok(())
}

/// Adds a string, with its quotes.
fn push_string(
    alloc: Global,
    said: &mut Vec<Vec<u8>>,
    string: &[u8],
    behind: &[&[u8]],
) -> Result<(), AllocError>
    ensures { OnOk result (map (λ word. word.items) said.new.items ≡
        map (λ word. word.items) said.old.items
        ++ string_word string.now (map (λ part. part.now) behind.now) ∷ []) }
{
    let mut word = Vec::new(alloc);
    word.push(b'"')?;
    word.extend_from_slice(string)?;
    if !behind.is_empty() {
        word.push(b'"')?;
    }
    said.push(word)?;
    Ok(())
}

/// Adds the words of what stands in front of a string and the string, and counts the parts that are
/// done with.
#[tactic(auto, unfolding(crate::specs::Quotes::by_turns))]
fn push_turn(alloc: Global, said: &mut Vec<Vec<u8>>, parts: &[&[u8]]) -> Result<usize, AllocError>
    requires { 0 < length parts.now }
    ensures same { IfOk result (λ count. map (λ word. word.items) said.new.items
        ++ by_turns (drop count (map (λ part. part.now) parts.now)) ≡
        map (λ word. word.items) said.old.items ++ by_turns (map (λ part. part.now) parts.now)) }
    ensures some { IfOk result (λ count. 0 < count) }
    ensures within { IfOk result (λ count. count ≤ length parts.now) }
{
    match parts {
        [text, string, behind @ ..] => {
            push_words(alloc, said, *text)?;
            if has_hash(*text) {
                return Ok(parts.len());
            }
            push_string(alloc, said, *string, behind)?;
            Ok(2)
        }
        [text] => {
            push_words(alloc, said, *text)?;
            Ok(1)
        }
        [] => Ok(0),
    }
}

/// The words of what stands outside of strings and of what stands inside, by turns.
fn by_turns(alloc: Global, parts: &[&[u8]]) -> Result<Vec<Vec<u8>>, AllocError>
    ensures { IfOk result (λ said. map (λ word. word.items) said.items ≡
        by_turns (map (λ part. part.now) parts.now)) }
{
    let mut said = Vec::new(alloc);
    let mut place = 0usize;
    while place < parts.len() {
        let count = push_turn(alloc, &mut said, &parts[place..])?;
        place += count;
    }
    Ok(said)
}

/// The parts of a line between its quotes.
fn between_quotes(alloc: Global, line: &[u8]) -> Result<Vec<&[u8]>, AllocError>
    ensures { IfOk result (λ parts. map (λ part. part.now) parts.items ≡
        slice_split is_quote line.now) }
{
    line.split(|byte| *byte == b'"').collect(alloc)
}

/// The words of a line: each string is one by itself.
#[tactic(auto, unfolding(crate::specs::Quotes::quoted_words))]
pub(crate) fn quoted_words(alloc: Global, line: &[u8]) -> Result<Vec<Vec<u8>>, AllocError>
    ensures { IfOk result (λ said. map (λ word. word.items) said.items ≡ quoted_words line.now) }
{
    let parts = between_quotes(alloc, line)?;
    by_turns(alloc, &parts)
}
