//! The word that a fault of names means, and notes.

ghost use Rattle.std.specs.Prelude.{◌≡◌, IfOk, None};
ghost use Rattle.mrc_place.specs.Spots.{HasLine, HasCaretInside};

use crate::known_names::{Known, first_unknown, line_declaring};
use crate::name_notes::{last_file, many_notes, twice_notes, twin_notes, unknown_notes};
use crate::named::{Named, accepts_place, declared, mentions, words_in};
use mrc_base::OrMemory;
use mrc_forms::Interface;
use mrc_interface::read_interfaces;
use mrc_place::{Hint, Line, line_of, line_spot, one_note};
use mrc_wiring::{ClaimFault, ResolveFault};
use mrc_wiring_text::Name;
use std::alloc::{AllocError, Global};

/// A hint of a word of a line.
fn word_hint(
    alloc: Global,
    text: &str,
    line: &Line<'_>,
    word: usize,
    notes: Vec<String>,
) -> Result<Hint, AllocError>
    requires { HasLine text.now line.now.number line.now.text.now }
    ensures { IfOk result (HasCaretInside text.now) }
{
    let spot = line_spot(alloc, line, word)?;
    Ok(Hint {
        spot: Some(spot),
        notes,
    })
}

/// The hint of the first name of a line with these words that is not known.
fn unknown_at(
    alloc: Global,
    text: &str,
    line: &Line<'_>,
    words: &[&str],
    known: &Known<'_>,
) -> Result<Hint, AllocError>
    requires { HasLine text.now line.now.number line.now.text.now }
    ensures { IfOk result (HasCaretInside text.now) }
{
    let mentions = mentions(alloc, words)?;
    match first_unknown(alloc, known, &mentions)? {
        Some(unknown) => {
            let notes = unknown_notes(alloc, known, &unknown)?;
            word_hint(alloc, text, line, unknown.mention.place, notes)
        }
        None => Ok(Hint::none(alloc)),
    }
}

/// The interfaces of MIG files that can be read.
fn interfaces_of(alloc: Global, defs: &[Vec<u8>]) -> Result<Vec<Interface>, AllocError> {
    match read_interfaces(alloc, defs) {
        Ok(interfaces) => Ok(interfaces),
        Err(OrMemory::Fault(_)) => Ok(Vec::new(alloc)),
        Err(OrMemory::Memory) => Err(AllocError),
    }
}

/// The interfaces in which names of a line with these words are looked up.
fn interfaces_for(
    alloc: Global,
    defs: &[Vec<u8>],
    words: &[&str],
) -> Result<Vec<Interface>, AllocError> {
    match *words {
        ["port" | "births" | "admit", ..] => interfaces_of(alloc, defs),
        _ => Ok(Vec::new(alloc)),
    }
}

/// The hint of the first name of a line of a wiring that is not known.
fn unknown(alloc: Global, text: &str, line: &Line<'_>, defs: &[Vec<u8>]) -> Result<Hint, AllocError>
    requires { HasLine text.now line.now.number line.now.text.now }
    ensures { IfOk result (HasCaretInside text.now) }
{
    let words = words_in(alloc, line.text)?;
    let interfaces = interfaces_for(alloc, defs, &words)?;
    let known = Known {
        above: line.above,
        line: Some(*line),
        interfaces: &interfaces,
    };
    unknown_at(alloc, text, line, &words, &known)
}

/// The place of what a line declares.
fn declared_place(named: Named<'_>) -> usize {
    match named {
        Named::Fit => 0,
        _ => 1,
    }
}

/// The hint of what a line declares again, or beyond the limit.
fn wrongly_declared(
    alloc: Global,
    text: &str,
    line: &Line<'_>,
    is_twice: bool,
) -> Result<Hint, AllocError>
    requires { HasLine text.now line.now.number line.now.text.now }
    ensures { IfOk result (HasCaretInside text.now) }
{
    let Some(named) = declared(line.text) else {
        return Ok(Hint::none(alloc));
    };
    let notes = if is_twice {
        twice_notes(alloc, line_declaring(line.above, named))?
    } else {
        many_notes(alloc, named)?
    };
    word_hint(alloc, text, line, declared_place(named), notes)
}

/// The hint of a line of which two items clash.
fn clash(alloc: Global, text: &str, line: &Line<'_>) -> Result<Hint, AllocError>
    requires { HasLine text.now line.now.number line.now.text.now }
    ensures { IfOk result (HasCaretInside text.now) }
{
    let words = words_in(alloc, line.text)?;
    match accepts_place(&words) {
        Some(place) => {
            let notes = one_note(alloc, "two items have a message of the same id")?;
            word_hint(alloc, text, line, place, notes)
        }
        None => Ok(Hint::none(alloc)),
    }
}

/// The hint of a fault of the names of a line.
fn line_hint(
    alloc: Global,
    text: &str,
    line: &Line<'_>,
    defs: &[Vec<u8>],
    fault: ResolveFault,
) -> Result<Hint, AllocError>
    requires { HasLine text.now line.now.number line.now.text.now }
    ensures { IfOk result (HasCaretInside text.now) }
{
    match fault {
        ResolveFault::UnknownName(_) => unknown(alloc, text, line, defs),
        ResolveFault::TwiceNamed(_) => wrongly_declared(alloc, text, line, true),
        ResolveFault::TooMany(_) => wrongly_declared(alloc, text, line, false),
        ResolveFault::TooManyNames(_) => Ok(Hint::none(alloc)),
        ResolveFault::IdClash(_) => clash(alloc, text, line),
    }
}

/// The number of the line of a fault: 0, if it has none.
fn number_of(fault: ResolveFault) -> u32 {
    match fault {
        ResolveFault::UnknownName(line)
        | ResolveFault::TwiceNamed(line)
        | ResolveFault::TooMany(line)
        | ResolveFault::IdClash(line) => line,
        ResolveFault::TooManyNames(_) => 0,
    }
}

/// The hint of MIG files of which two have the same subsystem.
fn twins(alloc: Global, defs: &[Vec<u8>], files: &[&str]) -> Result<Hint, AllocError>
    ensures { IfOk result (λ hint. hint.spot ≡ None) }
{
    let interfaces = interfaces_of(alloc, defs)?;
    Ok(Hint::of_notes(twin_notes(alloc, files, &interfaces)?))
}

/// What helps with a fault of the names of the lines of a wiring that can be read: the word that is
/// meant, and notes. The MIG files have these names and these bytes.
pub fn wiring_name_hint(
    alloc: Global,
    text: &str,
    files: &[&str],
    defs: &[Vec<u8>],
    fault: ResolveFault,
) -> Result<Hint, AllocError>
    // The caret is inside its line.
    ensures { IfOk result (HasCaretInside text.now) }
{
    if let Some(line) = line_of(text, number_of(fault)) {
        return line_hint(alloc, text, &line, defs, fault);
    }
    match fault {
        ResolveFault::TwiceNamed(_) => twins(alloc, defs, files),
        ResolveFault::TooMany(_) => Ok(Hint::of_notes(last_file(alloc, text, files)?)),
        _ => Ok(Hint::none(alloc)),
    }
}

/// What helps if a task would have too many names: a note.
pub fn names_hint(alloc: Global, task: &Name) -> Result<Hint, AllocError>
    // It has no caret.
    ensures { IfOk result (λ hint. hint.spot ≡ None) }
{
    let task = task.as_str();
    let note = format!(in alloc; "the task {task} would have more than 4,096 names")?;
    Ok(Hint::of_notes(vec![in alloc; note]?))
}

/// What helps with a fault of the names of the lines of a policy that can be read, over the text of
/// a wiring that can be: the word that is meant, and notes.
pub fn policy_name_hint(
    alloc: Global,
    text: &str,
    wiring: &str,
    fault: ClaimFault,
) -> Result<Hint, AllocError>
    // The caret is inside its line.
    ensures { IfOk result (HasCaretInside text.now) }
{
    let ClaimFault::UnknownName(number) = fault;
    let Some(line) = line_of(text, number) else {
        return Ok(Hint::none(alloc));
    };
    let words = words_in(alloc, line.text)?;
    let known = Known {
        above: wiring,
        line: None,
        interfaces: &[],
    };
    unknown_at(alloc, text, &line, &words, &known)
}
