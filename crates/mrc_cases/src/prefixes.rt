//! What is said of each prefix of a text.

use crate::told;
use std::alloc::{AllocError, Global};
use std::fmt::Write;

/// Answers by numbers of bytes: those that follow each other and are equal are written once.
#[derive(Drop)]
struct Runs {
    written: String,
    first: usize,
    last: usize,
    answer: String,
}

impl Runs {
    fn new(alloc: Global) -> Runs {
        Runs {
            written: String::new(alloc),
            first: 0,
            last: 0,
            answer: String::new(alloc),
        }
    }

    /// Writes the answer that came last, with the numbers for which it came.
    fn write_last(&mut self) -> Result<(), AllocError> {
        if self.answer.is_empty() {
            return Ok(());
        }
        if !self.written.is_empty() {
            self.written.push_str("; ")?;
        }
        write!(self.written, "{}", self.first)?;
        if self.first != self.last {
            write!(self.written, "-{}", self.last)?;
        }
        write!(self.written, " {}", self.answer.as_str())
    }

    /// Adds the answer for the next number of bytes.
    fn add(&mut self, count: usize, answer: String) -> Result<(), AllocError> {
        if self.answer.as_str() != answer.as_str() {
            self.write_last()?;
            self.first = count;
            self.answer = answer;
        }
        self.last = count;
        Ok(())
    }
}

/// Whether the text of this kind of case is hexadecimal digits.
fn is_digits(kind: &str) -> bool {
    match kind {
        "message" | "certificate" | "wiring_bytes" | "policy_bytes" => true,
        _ => false,
    }
}

/// `ok` for an answer that begins with no capital letter, as faults do.
fn short(alloc: Global, answer: String) -> Result<String, AllocError> {
    match answer.as_bytes().first() {
        Some(b'A'..=b'Z') => Ok(answer),
        _ => String::from_str(alloc, "ok"),
    }
}

/// What is said of a case with this at its front and this behind it.
fn said_of(alloc: Global, kind: &str, front: &str, behind: &str) -> Result<String, AllocError> {
    let mut text = String::from_str(alloc, front)?;
    text.push_str(behind)?;
    short(alloc, told(alloc, kind, text.as_str(), "no kind")?)
}

/// What is said of a case for each prefix of its part between two `~`, the empty one first.
fn runs_of(alloc: Global, kind: &str, text: &str) -> Result<Runs, AllocError> {
    let (before, rest) = text.split_once('~').unwrap_or(("", text));
    let (part, behind) = rest.split_once('~').unwrap_or((rest, ""));
    let mut front = String::from_str(alloc, before)?;
    let mut runs = Runs::new(alloc);
    let mut count: usize = 0;
    runs.add(count, said_of(alloc, kind, before, behind)?)?;
    for character in part.chars() {
        front.push(character)?;
        count = count.wrapping_add(character.len_utf8());
        if !is_digits(kind) {
            runs.add(count, said_of(alloc, kind, front.as_str(), behind)?)?;
        } else if count % 2 == 0 {
            runs.add(count / 2, said_of(alloc, kind, front.as_str(), behind)?)?;
        }
    }
    Ok(runs)
}

/// What is said of a case of the kind for each prefix of its part between two `~`: the numbers of
/// bytes and the fault, or `ok`.
pub fn prefixes(alloc: Global, kind: &str, text: &str) -> Result<String, AllocError> {
    let mut runs = runs_of(alloc, kind, text)?;
    runs.write_last()?;
    Ok(runs.written)
}
