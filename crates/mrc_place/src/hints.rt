//! Hints, and the sentences that several of them have.

ghost use Rattle.std.specs.Prelude.{◌≡◌, IfOk, None};

use crate::lists::alternatives;
use crate::spots::Spot;
use std::alloc::{AllocError, Global};

/// What is known of a fault besides its name: where it is, and sentences that help to mend it.
#[derive(Debug, Drop)]
pub struct Hint {
    /// Where it is, if it is in a line.
    pub spot: Option<Spot>,
    /// Sentences, each a line.
    pub notes: Vec<String>,
}

impl Hint {
    /// Sentences without a place.
    pub fn of_notes(notes: Vec<String>) -> Hint
        ensures { result.spot ≡ None }
    {
        Hint { spot: None, notes }
    }

    /// Nothing.
    pub fn none(alloc: Global) -> Hint
        ensures { result.spot ≡ None }
    {
        Hint::of_notes(Vec::new(alloc))
    }

    /// Which byte is no text, if so many bytes before it are.
    pub fn not_utf8(alloc: Global, bytes: &[u8], valid: usize) -> Result<Hint, AllocError>
        ensures { IfOk result (λ hint. hint.spot ≡ None) }
    {
        let (before, behind) = bytes.split_at(valid.min(bytes.len()));
        let mut notes = Vec::new(alloc);
        if let [byte, ..] = behind {
            let line = before.iter().filter(|byte| **byte == b'\n').count() as u64 + 1;
            notes.push(format!(in alloc; "the byte {byte:02x} on line {line} is not UTF-8")?)?;
        }
        Ok(Hint::of_notes(notes))
    }
}

/// One sentence.
pub fn one_note(alloc: Global, sentence: &str) -> Result<Vec<String>, AllocError> {
    Ok(vec![in alloc; String::from_str(alloc, sentence)?]?)
}

/// Which word may be meant.
pub fn did_you_mean(alloc: Global, word: &str) -> Result<String, AllocError> {
    format!(in alloc; "did you mean: {word}")
}

/// Which words may be at a place.
pub fn expected(alloc: Global, words: &[&str]) -> Result<String, AllocError> {
    let choice = alternatives(alloc, words)?;
    format!(in alloc; "expected: {choice}")
}
