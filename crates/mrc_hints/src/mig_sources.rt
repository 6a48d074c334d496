//! Where the lines of a MIG file came from, by its marks of lines.

ghost use Rattle.std.specs.Prelude.{◌≡◌, IfOk};
ghost use Rattle.mrc_place.specs.Spots.{HasCaretInside};

use mrc_base::OrMemory;
use mrc_mig_forms::{Source, source_of};
use mrc_mig_tokens::lex;
use mrc_place::{Hint, SourceLine, Spot};
use std::alloc::{AllocError, Global};
use std::str;

/// The name of a file in a mark of lines, where a backslash stands before a backslash.
fn plain_name(alloc: Global, name: &[u8]) -> Result<Vec<u8>, AllocError> {
    let mut plain = Vec::new(alloc);
    let mut is_escaped = false;
    for byte in name {
        if *byte == b'\\' && !is_escaped {
            is_escaped = true;
        } else {
            plain.push(*byte)?;
            is_escaped = false;
        }
    }
    Ok(plain)
}

/// The name of the file of a place, if a mark before it has one.
pub fn marked_name(alloc: Global, source: Source<'_>) -> Result<Option<String>, AllocError> {
    let Some(marked) = source.file else {
        return Ok(None);
    };
    let plain = plain_name(alloc, marked)?;
    match str::from_utf8(plain.as_slice()) {
        Ok(marked) => Ok(Some(String::from_str(alloc, marked)?)),
        Err(_) => Ok(None),
    }
}

/// Where a byte of a text came from, if a mark of lines stands before it. What stands before a
/// fault is made of tokens.
fn source_line(alloc: Global, text: &str, at: usize) -> Result<Option<SourceLine>, AllocError> {
    let front = text.get(..at).unwrap_or("");
    let tokens = match lex(alloc, front) {
        Ok(tokens) => tokens,
        Err(OrMemory::Fault(_)) => return Ok(None),
        Err(OrMemory::Memory) => return Err(AllocError),
    };
    if tokens.lines().is_empty() {
        return Ok(None);
    }
    let source = source_of(front, tokens.lines(), at);
    Ok(Some(SourceLine {
        file: marked_name(alloc, source)?,
        line: source.line,
    }))
}

/// A spot that came from there.
fn sourced(spot: Spot, source: Option<SourceLine>) -> Spot
    ensures line { result.line ≡ spot.line }
    ensures before { result.before ≡ spot.before }
    ensures word { result.word ≡ spot.word }
    ensures after { result.after ≡ spot.after }
{
    let Spot {
        line,
        before,
        word,
        after,
        source: _,
    } = spot;
    Spot {
        line,
        before,
        word,
        after,
        source,
    }
}

/// A hint of a fault at a byte of a text, with where the line came from.
pub(crate) fn with_source(
    alloc: Global,
    text: &str,
    at: usize,
    hint: Hint,
) -> Result<Hint, AllocError>
    requires { HasCaretInside text.now hint }
    ensures { IfOk result (HasCaretInside text.now) }
{
    let Hint { spot, notes } = hint;
    match spot {
        Some(spot) => {
            let source = source_line(alloc, text, at)?;
            Ok(Hint {
                spot: Some(sourced(spot, source)),
                notes,
            })
        }
        None => Ok(Hint { spot: None, notes }),
    }
}
