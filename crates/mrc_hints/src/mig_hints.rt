//! What helps with a fault of a MIG file.

ghost use Rattle.std.specs.Prelude.{◌≡◌, ◌<◌, IfOk, None};
ghost use Rattle.mrc_place.specs.Spots.{HasCaretInside};

use crate::bytes::byte_at;
use crate::mig_notes::{OPEN_COMMENT, grammar_notes, unknown_note};
use crate::mig_second::second_hint;
use crate::mig_tokens::{Seen, all_seen, count_before};
use crate::mig_trials::{lex_place, parse_place};
use mrc_base::OrMemory;
use mrc_interface::DefsFault;
use mrc_mig_lex::LexFault;
use mrc_mig_symbols::{ParseFault, Symbol, lex};
use mrc_mig_tokens::{Edition, edition_of};
use mrc_place::{Hint, byte_spot, one_note};
use std::alloc::{AllocError, Global};
use std::str;

/// The end of so many bytes from a place on, as far as the text goes.
fn end_within(text: &str, at: usize, width: usize) -> usize {
    if at < text.len() && width < text.len() - at {
        at + width
    } else {
        text.len()
    }
}

/// A hint about so many bytes from a place on, with these notes.
pub(crate) fn about(
    alloc: Global,
    text: &str,
    at: usize,
    width: usize,
    notes: Vec<String>,
) -> Result<Hint, AllocError>
    ensures { IfOk result (HasCaretInside text.now) }
{
    let spot = byte_spot(alloc, text, at, end_within(text, at, width))?;
    Ok(Hint {
        spot: Some(spot),
        notes,
    })
}

/// How many digits there are from a place on.
fn digits_at(text: &str, at: usize) -> usize {
    let bytes = text.as_bytes();
    bytes[at.min(bytes.len())..]
        .iter()
        .take_while(|byte| byte.is_ascii_digit())
        .count()
}

/// How many bytes a fault of the tokens is about.
fn lex_width(text: &str, fault: LexFault) -> usize {
    match fault {
        LexFault::BadCharacter(at) => match byte_at(text.as_bytes(), at) {
            b'"' | b'<' => text.len(),
            _ => 1,
        },
        LexFault::OpenComment(_) => 2,
        LexFault::NumberTooLarge(at) => digits_at(text, at),
    }
}

/// What is said of a character that no token begins with.
fn bad_note(byte: u8) -> &'static str {
    match byte {
        b'"' => "this string is not closed on its line",
        b'<' => "this < is not closed on its line",
        b'#' => "a # may only come first on its line",
        _ => "no token begins with this character",
    }
}

/// What is said of a fault of the tokens.
fn lex_note(text: &str, fault: LexFault) -> &'static str {
    match fault {
        LexFault::BadCharacter(at) => bad_note(byte_at(text.as_bytes(), at)),
        LexFault::OpenComment(_) => OPEN_COMMENT,
        LexFault::NumberTooLarge(_) => "a number is at most 2147483647",
    }
}

/// What helps with a fault of the tokens.
fn lex_hint(alloc: Global, text: &str, fault: LexFault) -> Result<Hint, AllocError>
    ensures { IfOk result (HasCaretInside text.now) }
{
    let notes = one_note(alloc, lex_note(text, fault))?;
    about(alloc, text, lex_place(fault), lex_width(text, fault), notes)
}

/// The first of these tokens, if it begins at this place: what the grammar sees of it, and its
/// text.
fn token_at<'t>(at: usize, from: &[Seen<'t>]) -> (Symbol, &'t str) {
    match from {
        [first, ..] if first.at == at => (first.symbol, first.text),
        _ => (Symbol::End, ""),
    }
}

/// What is said of a fault of the grammar at the first of these tokens, behind those before.
fn parse_notes(
    alloc: Global,
    text: &str,
    before: &[Seen<'_>],
    from: &[Seen<'_>],
    fault: ParseFault,
) -> Result<Vec<String>, AllocError> {
    let (symbol, word) = token_at(parse_place(fault), from);
    if let ParseFault::UnknownType(at) = fault {
        let note = unknown_note(alloc, text, at, word, before, from)?;
        return one_note(alloc, note.as_str());
    }
    grammar_notes(alloc, text, before, from, symbol, word, fault)
}

/// What helps with a fault of the grammar of these tokens.
fn seen_hint(
    alloc: Global,
    text: &str,
    seen: &[Seen<'_>],
    fault: ParseFault,
) -> Result<Hint, AllocError>
    ensures { IfOk result (HasCaretInside text.now) }
{
    let at = parse_place(fault);
    let (before, from) = seen.split_at(count_before(seen, at));
    let notes = parse_notes(alloc, text, before, from, fault)?;
    let (_, word) = token_at(at, from);
    about(alloc, text, at, word.len(), notes)
}

/// What helps with a fault of the grammar.
fn parse_hint(alloc: Global, text: &str, fault: ParseFault) -> Result<Hint, AllocError>
    ensures { IfOk result (HasCaretInside text.now) }
{
    match lex(alloc, text) {
        Ok(tokens) => {
            let seen = all_seen(alloc, &tokens)?;
            seen_hint(alloc, text, seen.as_slice(), fault)
        }
        Err(OrMemory::Fault(_)) => seen_hint(alloc, text, &[], fault),
        Err(OrMemory::Memory) => Err(AllocError),
    }
}

/// What helps with a fault of a text of edition 1.
fn first_hint(alloc: Global, text: &str, fault: &DefsFault) -> Result<Hint, AllocError>
    ensures { IfOk result (HasCaretInside text.now) }
{
    match *fault {
        DefsFault::NotUtf8 => Ok(Hint::none(alloc)),
        DefsFault::Lex(fault) => lex_hint(alloc, text, fault),
        DefsFault::Parse(fault) => parse_hint(alloc, text, fault),
        DefsFault::Interface(_) => Ok(Hint::of_notes(one_note(
            alloc,
            "ids are at most 2147483647, and that of a reply is 100 above that of its request",
        )?)),
    }
}

/// What helps with a fault of a text.
fn text_hint(alloc: Global, text: &str, fault: &DefsFault) -> Result<Hint, AllocError>
    ensures { IfOk result (HasCaretInside text.now) }
{
    match edition_of(text) {
        Edition::First => first_hint(alloc, text, fault),
        Edition::Second | Edition::Received => second_hint(alloc, text, fault),
    }
}

/// What helps with a fault of a MIG file, from its bytes: the token at the place of the fault, and
/// sentences. Of bytes that are no text it is the first byte that is not UTF-8, whatever the fault;
/// a fault without a place has none.
pub fn mig_hint(alloc: Global, bytes: &[u8], fault: &DefsFault) -> Result<Hint, AllocError>
    // The caret is inside its line.
    ensures { IfOk result (HasCaretInside bytes.now) }
{
    match str::from_utf8(bytes) {
        Ok(text) => text_hint(alloc, text, fault),
        Err(error) => Hint::not_utf8(alloc, bytes, error.valid_up_to()),
    }
}
