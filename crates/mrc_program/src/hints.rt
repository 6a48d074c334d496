//! What is printed of a hint behind the line of a fault.

use mrc_command::shown;
use mrc_place::{Hint, Spot};
use std::alloc::{AllocError, Global};

/// How many bytes of a line are shown before a part of it, of the part, and behind it: the longest
/// line of a script that can be read is shown as a whole.
const MOST: usize = 20_000;

/// A line as it is shown.
#[derive(Drop)]
struct ShownLine {
    /// What is before the part.
    before: String,
    /// The part.
    word: String,
    /// What is behind the part.
    after: String,
}

/// The end of a text, behind two dots if it is not all.
fn shown_end(alloc: Global, text: &str) -> Result<String, AllocError> {
    let cut = text.ceil_char_boundary(text.len().saturating_sub(MOST));
    let (hidden, rest) = text.split_at(cut);
    let dots = if hidden.is_empty() { "" } else { ".." };
    let rest = shown(alloc, rest)?;
    format!(in alloc; "{dots}{rest}")
}

/// A text as far as it is shown, and two dots if that is not all.
fn shown_front(alloc: Global, text: &str) -> Result<String, AllocError> {
    let (front, hidden) = text.split_at(text.floor_char_boundary(MOST));
    let dots = if hidden.is_empty() { "" } else { ".." };
    let front = shown(alloc, front)?;
    format!(in alloc; "{front}{dots}")
}

/// The line around a part of it.
fn shown_line(alloc: Global, spot: &Spot) -> Result<ShownLine, AllocError> {
    Ok(ShownLine {
        before: shown_end(alloc, spot.before.as_str())?,
        word: shown_front(alloc, spot.word.as_str())?,
        after: shown_front(alloc, spot.after.as_str())?,
    })
}

/// A line behind that of the fault.
fn inner_line(alloc: Global, text: &str) -> Result<String, AllocError> {
    format!(in alloc; "  {text}\n")
}

/// The file and the line of a part of a line of a file: those that it came from, if they are known.
fn place_of<'a>(file: &'a str, spot: &'a Spot) -> (&'a str, u64) {
    match &spot.source {
        Some(source) => match &source.file {
            Some(file) => (file.as_str(), source.line),
            None => (file, source.line),
        },
        None => (file, u64::from(spot.line)),
    }
}

/// Where a part of a line is: the file, the line and the column.
fn place_line(alloc: Global, file: &str, spot: &Spot) -> Result<String, AllocError> {
    let (file, line) = place_of(file, spot);
    let file = shown(alloc, file)?;
    let column = spot.column();
    format!(in alloc; "{file}:{line}:{column}\n")
}

/// A caret under each character of the part, and one if it is empty.
fn caret_line(alloc: Global, line: &ShownLine) -> Result<String, AllocError> {
    let blanks = " ".repeat(alloc, line.before.as_str().chars().count())?;
    let carets = "^".repeat(alloc, line.word.as_str().chars().count().max(1))?;
    format!(in alloc; "  {blanks}{carets}\n")
}

/// What is printed of a part of a line of a file.
fn spot_text(alloc: Global, file: &str, spot: &Option<Spot>) -> Result<String, AllocError> {
    let Some(spot) = spot else {
        return Ok(String::new(alloc));
    };
    let place = place_line(alloc, file, spot)?;
    let line = shown_line(alloc, spot)?;
    let carets = caret_line(alloc, &line)?;
    let ShownLine {
        before,
        word,
        after,
    } = line;
    format!(in alloc; "{place}  {before}{word}{after}\n{carets}")
}

/// Adds a sentence.
fn push_note(alloc: Global, text: &mut String, note: &String) -> Result<(), AllocError> {
    let note = shown(alloc, note.as_str())?;
    let line = inner_line(alloc, note.as_str())?;
    text.push_str(line.as_str())
}

/// What is printed of a hint: the part of a line of the file, and then the sentences.
pub(crate) fn hint_text(alloc: Global, file: &str, hint: &Hint) -> Result<String, AllocError> {
    let mut text = spot_text(alloc, file, &hint.spot)?;
    for note in &hint.notes {
        push_note(alloc, &mut text, note)?;
    }
    Ok(text)
}
