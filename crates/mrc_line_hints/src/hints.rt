//! What helps with a fault of a text.

ghost use Rattle.std.specs.Prelude.{IfOk};
ghost use Rattle.mrc_place.specs.Spots.{HasLine, HasCaretInside};

use crate::expected::{expected, first_notes};
use crate::heads::{Role, Seen, lines_before, see_line};
use crate::notes::other_notes;
use mrc_base::limits::LINES;
use mrc_place::{Hint, Line, line_of, line_spot, one_note, word_spot, words_of};
use mrc_wiring_text::{Edition, TextFault};
use simdutf8::compat;
use std::alloc::{AllocError, Global};

/// The notes on a word of a line with these words.
fn notes(
    alloc: Global,
    role: Role,
    seen: Seen,
    text: &[u8],
    words: &[&[u8]],
    word: &str,
) -> Result<Vec<String>, AllocError> {
    let mut notes = first_notes(alloc, seen.edition, seen.walked.place, word)?;
    let mut others = other_notes(alloc, role, seen, text, words, word)?;
    notes.append(&mut others)?;
    Ok(notes)
}

/// What helps with a line that is not one of the grammar.
fn line_hint(alloc: Global, role: Role, text: &str, line: &Line<'_>) -> Result<Hint, AllocError>
    requires { HasLine text.now line.now.number line.now.text.now }
    ensures { IfOk result (HasCaretInside text.now) }
{
    let words = words_of(alloc, line.text.as_bytes())?;
    let above = (line.number as usize).saturating_sub(1);
    let seen = see_line(alloc, role, text.as_bytes(), above, &words)?;
    let spot = line_spot(alloc, line, seen.walked.count)?;
    let notes = notes(
        alloc,
        role,
        seen,
        text.as_bytes(),
        &words,
        spot.word.as_str(),
    )?;
    Ok(Hint {
        spot: Some(spot),
        notes,
    })
}

/// What helps if there is no line of this number: an empty text has none.
fn missing_line(alloc: Global, role: Role, text: &str, number: u32) -> Result<Hint, AllocError>
    ensures { IfOk result (HasCaretInside text.now) }
{
    let above = (number as usize).saturating_sub(1);
    let seen = see_line(alloc, role, text.as_bytes(), above, &[])?;
    let notes = notes(alloc, role, seen, text.as_bytes(), &[], "")?;
    Ok(Hint::of_notes(notes))
}

/// What helps with the line of this number, which may be one too many.
fn bad_line(alloc: Global, role: Role, text: &str, number: u32) -> Result<Hint, AllocError>
    ensures { IfOk result (HasCaretInside text.now) }
{
    if number > LINES {
        return Ok(Hint::of_notes(one_note(alloc, "the text has more than 65,535 lines")?));
    }
    match line_of(text, number) {
        Some(line) => line_hint(alloc, role, text, &line),
        None => missing_line(alloc, role, text, number),
    }
}

/// What helps with a version that no text has.
fn bad_version(alloc: Global, role: Role, text: &str) -> Result<Hint, AllocError>
    ensures { IfOk result (HasCaretInside text.now) }
{
    let above = lines_before(text.as_bytes(), LINES as usize);
    let spot = word_spot(alloc, text, above as u32 + 1, 1)?;
    let note = expected(alloc, Edition::First, role.version_place())?;
    Ok(Hint {
        spot,
        notes: vec![in alloc; note]?,
    })
}

/// What helps with a fault of a text.
fn text_hint(alloc: Global, role: Role, text: &[u8], fault: TextFault) -> Result<Hint, AllocError>
    ensures { IfOk result (HasCaretInside text.now) }
{
    match compat::from_utf8(text) {
        Err(error) => Hint::not_utf8(alloc, text, error.valid_up_to()),
        Ok(text) => match fault {
            TextFault::BadLine(line) => bad_line(alloc, role, text, line),
            TextFault::Version => bad_version(alloc, role, text),
            TextFault::NotUtf8 => Ok(Hint::none(alloc)),
        },
    }
}

/// What helps with a fault of the text of a wiring: the word with which its line stops to be one of
/// the grammar, what may be there, and what is often behind such a word.
pub fn wiring_line_hint(alloc: Global, text: &[u8], fault: TextFault) -> Result<Hint, AllocError>
    // The caret is inside its line.
    ensures { IfOk result (HasCaretInside text.now) }
{
    text_hint(alloc, Role::Wiring, text, fault)
}

/// What helps with a fault of the text of a policy, in the same way.
pub fn policy_line_hint(alloc: Global, text: &[u8], fault: TextFault) -> Result<Hint, AllocError>
    // The caret is inside its line.
    ensures { IfOk result (HasCaretInside text.now) }
{
    text_hint(alloc, Role::Policy, text, fault)
}
