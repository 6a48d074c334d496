//! Faults as objects.

use crate::json::{SCHEMA, json_text};
use mrc_command::shown;
use mrc_place::{Hint, Spot};
use serde::Serialize;
use std::alloc::{AllocError, Global};

/// A fault as it is printed.
#[derive(Drop)]
pub struct FaultParts {
    /// The file or the option that it is about, as it is shown: none, if memory ran out.
    pub subject: Option<String>,
    /// Its name.
    pub name: String,
}

impl FaultParts {
    /// What it is about, if memory did not run out.
    pub(crate) fn file(&self) -> Option<&str> {
        self.subject.as_ref().map(|subject| subject.as_str())
    }
}

/// A fault of a command: its file, its name, its place, and sentences that help.
#[derive(Drop, Serialize)]
struct FaultAnswer<'a> {
    answer: &'static str,
    column: Option<usize>,
    command: &'a str,
    fault: &'a str,
    file: Option<String>,
    line: Option<u64>,
    notes: &'a [String],
    schema: u32,
    text: Option<String>,
}

/// The line of a fault, without its line feed.
pub fn parts_text(alloc: Global, parts: &FaultParts) -> Result<String, AllocError> {
    let name = parts.name.as_str();
    match &parts.subject {
        Some(subject) => format!(in alloc; "machcheck: {subject}: {name}"),
        None => format!(in alloc; "machcheck: {name}"),
    }
}

/// The whole line of a spot.
fn whole_line(alloc: Global, spot: &Spot) -> Result<String, AllocError> {
    let before = spot.before.as_str();
    let word = spot.word.as_str();
    let after = spot.after.as_str();
    format!(in alloc; "{before}{word}{after}")
}

/// The line of a spot: of the file that it came from, if that is known.
fn line_of(spot: &Spot) -> u64 {
    match &spot.source {
        Some(source) => source.line,
        None => u64::from(spot.line),
    }
}

/// The file from which the line of a spot came, if it is another than the one of which is told.
fn source_file(spot: &Spot) -> Option<&str> {
    let source = spot.source.as_ref()?;
    source.file.as_ref().map(|file| file.as_str())
}

/// The file of a fault as it is shown: that from which its line came, if that is known.
fn file_of(
    alloc: Global,
    parts: &FaultParts,
    spot: Option<&Spot>,
) -> Result<Option<String>, AllocError> {
    if let Some(spot) = spot {
        if let Some(file) = source_file(spot) {
            return Ok(Some(shown(alloc, file)?));
        }
    }
    match parts.file() {
        Some(file) => Ok(Some(String::from_str(alloc, file)?)),
        None => Ok(None),
    }
}

/// A fault of a command, by its parts and by what helps with it.
pub fn fault_json(
    alloc: Global,
    command: &str,
    parts: &FaultParts,
    hint: &Hint,
) -> Result<String, AllocError> {
    let spot = hint.spot.as_ref();
    let answer = FaultAnswer {
        answer: "fault",
        column: spot.map(|spot| spot.column()),
        command,
        fault: parts.name.as_str(),
        file: file_of(alloc, parts, spot)?,
        line: spot.map(|spot| line_of(spot)),
        notes: hint.notes.as_slice(),
        schema: SCHEMA,
        text: spot.map(|spot| whole_line(alloc, spot)).transpose()?,
    };
    json_text(alloc, &answer)
}
