//! What helps with a fault of a MIG file of edition 2: its place, and a sentence.

ghost use Rattle.std.specs.Prelude.{IfOk};
ghost use Rattle.mrc_place.specs.Spots.{HasCaretInside};

use crate::mig_hints::about;
use crate::mig_notes::{LONG_NAME, NO_SUBSYSTEM, OPEN_COMMENT, PREPROCESS, on_line};
use crate::mig_places::is_subsystem;
use crate::mig_sources::with_source;
use crate::mig_trials::{lex_place, parse_place};
use mrc_base::OrMemory;
use mrc_interface::DefsFault;
use mrc_mig_symbols::ParseFault;
use mrc_mig_tokens::{Rest, Tokens, lex};
use mrc_place::{Hint, one_note};
use std::alloc::{AllocError, Global};
use std::str;

/// What the tokens of a text say of a fault.
#[derive(Clone, Copy, Debug, PartialEq, Eq)]
struct Looked {
    /// How many bytes the token at its place has: 0 if none begins there.
    width: usize,
    /// Whether one of the tokens is the word `subsystem`.
    has_subsystem: bool,
}

/// What these tokens say of a fault at this place.
fn look(tokens: &Tokens<'_>, at: usize) -> Looked {
    let mut width = 0;
    let mut has_subsystem = false;
    let mut rest = Rest::new(tokens);
    for number in 0..tokens.len() {
        if tokens.at(number) == at {
            width = rest.text().len();
        }
        if is_subsystem(rest.first()) {
            has_subsystem = true;
        }
        rest = rest.next();
    }
    Looked {
        width,
        has_subsystem,
    }
}

/// Whether nothing but blanks is behind a place.
fn is_at_the_end(text: &str, at: usize) -> bool {
    let bytes = text.as_bytes();
    bytes[at.min(bytes.len())..]
        .iter()
        .all(|byte| byte.is_ascii_whitespace())
}

/// The number of the token that begins at this place.
fn number_at(tokens: &Tokens<'_>, at: usize) -> Option<usize> {
    for number in 0..tokens.len() {
        if tokens.at(number) == at {
            return Some(number);
        }
    }
    None
}

/// Whether this token is the name of a type that is declared there.
fn declares(tokens: &Tokens<'_>, number: usize, name: &str) -> bool {
    number > 0
        && tokens.text(number) == name
        && tokens.text(number - 1).eq_ignore_ascii_case("type")
}

/// Where the type is declared first whose name stands at this place.
fn declared_at(tokens: &Tokens<'_>, at: usize) -> Option<usize> {
    let last = number_at(tokens, at)?;
    let name = tokens.text(last);
    for number in 0..last {
        if declares(tokens, number, name) {
            return Some(tokens.at(number));
        }
    }
    None
}

/// What is said of a fault at this place.
fn notes_at(
    alloc: Global,
    text: &str,
    tokens: &Tokens<'_>,
    at: usize,
    fault: &DefsFault,
    has_subsystem: bool,
) -> Result<Vec<String>, AllocError> {
    match *fault {
        DefsFault::Parse(ParseFault::LeftOut(_, _)) => one_note(alloc, PREPROCESS),
        DefsFault::Parse(ParseFault::TooMany(_)) => one_note(alloc, LONG_NAME),
        DefsFault::Parse(ParseFault::TwiceNamed(_)) => {
            on_line(alloc, "declared above", text, declared_at(tokens, at))
        }
        DefsFault::Parse(ParseFault::Unexpected(_)) if is_at_the_end(text, at) && !has_subsystem =>
            { one_note(alloc, NO_SUBSYSTEM) }
        _ => Ok(Vec::new(alloc)),
    }
}

/// What helps with a fault at this place of a text of these tokens.
fn tokens_hint(
    alloc: Global,
    text: &str,
    tokens: &Tokens<'_>,
    at: usize,
    fault: &DefsFault,
) -> Result<Hint, AllocError>
    ensures { IfOk result (HasCaretInside text.now) }
{
    let looked = look(tokens, at);
    let notes = notes_at(alloc, text, tokens, at, fault, looked.has_subsystem)?;
    about(alloc, text, at, looked.width, notes)
}

/// What helps with a fault at this place.
fn place_hint(alloc: Global, text: &str, at: usize, fault: &DefsFault) -> Result<Hint, AllocError>
    ensures { IfOk result (HasCaretInside text.now) }
{
    match lex(alloc, text) {
        Ok(tokens) => tokens_hint(alloc, text, &tokens, at, fault),
        Err(OrMemory::Fault(_)) => {
            let notes = one_note(alloc, OPEN_COMMENT)?;
            about(alloc, text, at, 2, notes)
        }
        Err(OrMemory::Memory) => Err(AllocError),
    }
}

/// What helps with a fault of a text of edition 2.
pub(crate) fn second_hint(alloc: Global, text: &str, fault: &DefsFault) -> Result<Hint, AllocError>
    ensures { IfOk result (HasCaretInside text.now) }
{
    match *fault {
        DefsFault::Lex(found) => place_hint(alloc, text, lex_place(found), fault),
        DefsFault::Parse(found) => place_hint(alloc, text, parse_place(found), fault),
        DefsFault::NotUtf8 | DefsFault::Interface(_) => Ok(Hint::none(alloc)),
    }
}

/// The place of a fault in a text.
fn place_of(fault: &DefsFault) -> usize {
    match *fault {
        DefsFault::Lex(found) => lex_place(found),
        DefsFault::Parse(found) => parse_place(found),
        DefsFault::NotUtf8 | DefsFault::Interface(_) => 0,
    }
}

/// What helps with a fault of a MIG file that is read as one of edition 2, whatever its first lines
/// name, from its bytes: the token at the place of the fault, with the file and the line that it
/// came from by the marks of lines before it, and a sentence.
pub fn second_mig_hint(alloc: Global, bytes: &[u8], fault: &DefsFault) -> Result<Hint, AllocError>
    // The caret is inside its line.
    ensures { IfOk result (HasCaretInside bytes.now) }
{
    match str::from_utf8(bytes) {
        Ok(text) => {
            let hint = second_hint(alloc, text, fault)?;
            with_source(alloc, text, place_of(fault), hint)
        }
        Err(error) => Hint::not_utf8(alloc, bytes, error.valid_up_to()),
    }
}
