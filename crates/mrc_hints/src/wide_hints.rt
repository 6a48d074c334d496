//! Places of faults of wirings of version 4 and of policies of version 3, with a sentence for each.

ghost use Rattle.std.specs.Prelude.{IfOk};
ghost use Rattle.mrc_place.specs.Spots.{HasCaretInside};

use mrc_base::limits::LINES;
use mrc_place::{Hint, line_of, one_note, word_spot, words_of};
use mrc_stand_for::StandFault;
use mrc_wiring::ResolveFault;
use mrc_wiring_text::is_word;
use std::alloc::{AllocError, Global};
use std::collections::BTreeSet;

/// Words of lines that name nothing.
const KEYWORDS: [&str; 17] = [
    "all", "any", "births", "but", "fit", "gives", "none", "of", "once", "other", "port",
    "receive", "receiver", "send", "sends", "takes", "task",
];

/// What helps with a line that is none of version 4.
const NO_LINE: &str = "this is no line of a wiring of version 4";

/// What helps with a line that is none of a policy of version 3.
const NO_POLICY_LINE: &str = "this is no line of a policy of version 3";

/// What helps with a name that no line declares.
const UNKNOWN: &str = "a name in this line is declared by no line above";

/// The line of this number, and a sentence.
fn line_note(alloc: Global, text: &str, line: u32, note: &str) -> Result<Hint, AllocError>
    ensures { IfOk result (HasCaretInside text.now) }
{
    let spot = word_spot(alloc, text, line, 0)?;
    Ok(Hint {
        spot,
        notes: one_note(alloc, note)?,
    })
}

/// Whether a line that begins with this word declares the name behind it.
fn declares_one(key: &[u8]) -> bool {
    is_word(key, "group") || is_word(key, "set") || is_word(key, "port")
}

/// Adds the names that a line of these words declares.
fn add_declared<'a>(names: &mut BTreeSet<&'a [u8]>, words: &[&'a [u8]]) -> Result<(), AllocError> {
    match words {
        [key, tasks @ ..] if is_word(*key, "task") => {
            for task in tasks {
                let _ = names.insert(*task)?;
            }
            Ok(())
        }
        [key, name, ..] if declares_one(*key) => {
            let _ = names.insert(*name)?;
            Ok(())
        }
        _ => Ok(()),
    }
}

/// The names that lines in front of this number declare.
fn declared_above(alloc: Global, text: &str, number: u32) -> Result<BTreeSet<&[u8]>, AllocError> {
    let mut names = BTreeSet::new(alloc);
    for (above, line) in text.lines().enumerate() {
        if above.saturating_add(1) >= number as usize {
            break;
        }
        let words = words_of(alloc, line.as_bytes())?;
        add_declared(&mut names, &words)?;
    }
    Ok(names)
}

/// Whether a word can be a name: it is no keyword, and begins as one.
fn may_name(word: &[u8]) -> bool {
    let begins = match word.first() {
        Some(byte) => byte.is_ascii_alphabetic() || *byte == b'_',
        None => false,
    };
    begins && !word.contains(&b'.') && !KEYWORDS.iter().any(|keyword| is_word(word, *keyword))
}

/// Whether names of tasks, groups, sets and ports end at this word of a line with this first word.
fn ends_names(key: &[u8], word: &[u8]) -> bool {
    is_word(word, "accepts") || is_word(key, "births") && is_word(word, "replies")
}

/// The place of the first word that can be a name, behind the first word and the name that the line
/// declares, and is none of these.
fn first_unknown<'a>(words: &[&'a [u8]], names: &BTreeSet<&'a [u8]>) -> Option<usize> {
    let key: &[u8] = words.first().copied().unwrap_or(&[]);
    let first = if declares_one(key) { 2 } else { 1 };
    for (place, word) in words.iter().enumerate() {
        if ends_names(key, *word) {
            return None;
        }
        let verb = is_word(key, "trust") && is_word(*word, "replies");
        if place >= first && !verb && may_name(*word) && !names.contains(word) {
            return Some(place);
        }
    }
    None
}

/// The first word of a line that names nothing which a line above declares, if one is found.
fn unknown_word(alloc: Global, text: &str, number: u32) -> Result<Option<usize>, AllocError> {
    let Some(line) = line_of(text, number) else {
        return Ok(None);
    };
    let words = words_of(alloc, line.text.as_bytes())?;
    let names = declared_above(alloc, text, number)?;
    Ok(first_unknown(&words, &names))
}

/// The name that no line above declares, and a sentence; the line alone, if it is not found.
fn unknown_note(alloc: Global, text: &str, line: u32) -> Result<Hint, AllocError>
    ensures { IfOk result (HasCaretInside text.now) }
{
    let Some(place) = unknown_word(alloc, text, line)? else {
        return line_note(alloc, text, line, UNKNOWN);
    };
    let spot = word_spot(alloc, text, line, place)?;
    Ok(Hint {
        spot,
        notes: one_note(alloc, "no line above declares this name")?,
    })
}

/// What helps with a line that is none of version 4: its place, and a sentence.
pub fn wide_line_hint(alloc: Global, text: &str, line: u32) -> Result<Hint, AllocError>
    // The caret is inside its line.
    ensures { IfOk result (HasCaretInside text.now) }
{
    if line > LINES {
        return Ok(Hint::of_notes(one_note(alloc, "the text has more than 65,535 lines")?));
    }
    line_note(alloc, text, line, NO_LINE)
}

/// What helps with a line of version 4 that does not stand for lines: its place, and a sentence.
pub fn stand_hint(alloc: Global, text: &str, fault: StandFault) -> Result<Hint, AllocError>
    // The caret is inside its line.
    ensures { IfOk result (HasCaretInside text.now) }
{
    let (line, note) = match fault {
        StandFault::BadLine(line) => (line, NO_LINE),
        StandFault::UnknownName(line) => return unknown_note(alloc, text, line),
        StandFault::Empty(line) => (line, "a list in this line stands for nothing"),
        StandFault::Late(line) => {
            let note = "a line above names all that there are, so no line below may add to them";
            (line, note)
        }
        StandFault::TwiceNamed(line) => {
            (
                line,
                "a line above declares a task, group or set of this name",
            )
        }
        StandFault::TooMany(line) => (line, "the lines so far stand for more than 1,048,576"),
    };
    line_note(alloc, text, line, note)
}

/// What helps with a line that is none of a policy of version 3: its place, and a sentence.
pub fn wide_policy_line_hint(alloc: Global, text: &str, line: u32) -> Result<Hint, AllocError>
    // The caret is inside its line.
    ensures { IfOk result (HasCaretInside text.now) }
{
    if line > LINES {
        return Ok(Hint::of_notes(one_note(alloc, "the text has more than 65,535 lines")?));
    }
    line_note(alloc, text, line, NO_POLICY_LINE)
}

/// What helps with a line of a policy of version 3 that stands for no facts: its place, and a
/// sentence.
pub fn policy_stand_hint(alloc: Global, text: &str, fault: StandFault) -> Result<Hint, AllocError>
    // The caret is inside its line.
    ensures { IfOk result (HasCaretInside text.now) }
{
    let (line, note) = match fault {
        StandFault::BadLine(line) | StandFault::Late(line) => (line, NO_POLICY_LINE),
        StandFault::UnknownName(line) => {
            (
                line,
                "a name in this line is declared neither by the wiring nor above, or is that of no \
                 forbid line above",
            )
        }
        StandFault::Empty(line) => {
            (
                line,
                "a list in this line stands for nothing, or the line waives nothing",
            )
        }
        StandFault::TwiceNamed(line) => {
            (
                line,
                "the wiring or a line above declares a task, group or set of this name",
            )
        }
        StandFault::TooMany(line) => (line, "the lines so far name more than 1,048,576 facts"),
    };
    line_note(alloc, text, line, note)
}

/// What helps with a fault of the lines that a line of version 4 stands for: its place, and a
/// sentence.
pub fn wide_name_hint(alloc: Global, text: &str, fault: ResolveFault) -> Result<Hint, AllocError>
    // The caret is inside its line.
    ensures { IfOk result (HasCaretInside text.now) }
{
    match fault {
        ResolveFault::UnknownName(line) => unknown_note(alloc, text, line),
        ResolveFault::TwiceNamed(line) => {
            line_note(alloc, text, line, "a line above says this already")
        }
        ResolveFault::TooMany(line) => {
            let note = "a wiring has at most 64 tasks and 256 ports";
            line_note(alloc, text, line, note)
        }
        ResolveFault::IdClash(line) => {
            line_note(
                alloc,
                text,
                line,
                "two items that it accepts have messages of one id",
            )
        }
        ResolveFault::TooManyNames(_) => Ok(Hint::none(alloc)),
    }
}
