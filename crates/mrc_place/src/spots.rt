//! Parts of lines.

ghost use Rattle.std.specs.Prelude.{◌≡◌, ◌+◌, ◌++◌, ℕ, List, length};
ghost use Rattle.std.specs.Prelude.{IfOk, IfSome, string_bytes};
ghost use Rattle.std.specs.Str.{chars};
ghost use Rattle.mrc_place.specs.Spots.{HasLine, IsInside};

use crate::lines::{Line, after_feed, before_feed, line_after, line_of};
use crate::words::word_place;
use std::alloc::{AllocError, Global};

/// A line of a file that a text came from.
#[derive(Debug, Drop)]
pub struct SourceLine {
    /// The name of the file, if it is not the text's own.
    pub file: Option<String>,
    /// The number of the line, from 1.
    pub line: u64,
}

/// A part of a line of a text: what carets are put under.
#[derive(Debug, Drop)]
pub struct Spot {
    /// The number of the line, from 1.
    pub line: u32,
    /// The line before the part.
    pub before: String,
    /// The part: empty, if something is missing there.
    pub word: String,
    /// The line behind the part, up to its end.
    pub after: String,
    /// Where the line came from, if the text says so.
    pub source: Option<SourceLine>,
}

impl Spot {
    /// The column in which the part begins: characters count from 1.
    pub fn column(&self) -> usize
        ensures { result ≡ 1 + length (chars (string_bytes self.now.before)) }
    {
        self.before.as_str().chars().count() + 1
    }

    /// The bytes of the part from `start` to `end`, as a part of the same line. A character is in
    /// it as a whole.
    pub fn narrowed(&self, alloc: Global, start: usize, end: usize) -> Result<Spot, AllocError>
        // It is inside its line if this one is.
        ensures { IfOk result (λ spot. (text : List ℕ) → IsInside text self.now
            → IsInside text spot) }
    {
        let word = self.word.as_str();
        let from = word.floor_char_boundary(start);
        let to = word.ceil_char_boundary(end).max(from);
        let (front, rest) = word.split_at(from);
        let (part, behind) = rest.split_at(rest.len().min(to - from));
        Ok(Spot {
            line: self.line,
            before: joined(alloc, self.before.as_str(), front)?,
            word: String::from_str(alloc, part)?,
            after: joined(alloc, behind, self.after.as_str())?,
            source: None,
        })
    }
}

/// Two texts, one after the other.
fn joined(alloc: Global, first: &str, second: &str) -> Result<String, AllocError>
    ensures { IfOk result (λ text. string_bytes text ≡ first.now ++ second.now) }
{
    format!(in alloc; "{first}{second}")
}

/// The word of this number, from 0, in a line. If the line has fewer words, it is the end of its
/// last word.
pub fn line_spot(alloc: Global, line: &Line<'_>, word: usize) -> Result<Spot, AllocError>
    // It is inside the line, if a text has that.
    ensures { IfOk result (λ spot. (text : List ℕ)
        → HasLine text line.now.number line.now.text.now → IsInside text spot) }
{
    let (start, end) = word_place(line.text.as_bytes(), word);
    let from = line.text.floor_char_boundary(start);
    let to = line.text.ceil_char_boundary(end).max(from);
    let (before, rest) = line.text.split_at(from);
    let (part, after) = rest.split_at(rest.len().min(to - from));
    Ok(Spot {
        line: line.number,
        before: String::from_str(alloc, before)?,
        word: String::from_str(alloc, part)?,
        after: String::from_str(alloc, after)?,
        source: None,
    })
}

/// The word of this number, from 0, in the line of this number, from 1. If the line has fewer
/// words, it is the end of its last word. `None` if there is no such line.
pub fn word_spot(
    alloc: Global,
    text: &str,
    line: u32,
    word: usize,
) -> Result<Option<Spot>, AllocError>
    // The spot is inside its line.
    ensures { IfOk result (λ spot. IfSome spot (IsInside text.now)) }
{
    match line_of(text, line) {
        Some(line) => Ok(Some(line_spot(alloc, &line, word)?)),
        None => Ok(None),
    }
}

/// The bytes of a text from `start` to `end`, as far as they are in the line of `start`. A
/// character is in the part as a whole.
pub fn byte_spot(alloc: Global, text: &str, start: usize, end: usize) -> Result<Spot, AllocError>
    // The spot is inside its line.
    ensures { IfOk result (IsInside text.now) }
{
    let from = text.floor_char_boundary(start);
    let to = text.ceil_char_boundary(end).max(from);
    let (front, back) = text.split_at(from);
    let rest = before_feed(back);
    let (word, after) = rest.split_at(rest.len().min(to - from));
    Ok(Spot {
        line: line_after(front),
        before: String::from_str(alloc, after_feed(front))?,
        word: String::from_str(alloc, word)?,
        after: String::from_str(alloc, after)?,
        source: None,
    })
}
