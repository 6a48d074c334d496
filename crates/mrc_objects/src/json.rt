//! Objects, and how their texts are made.

use crate::json_facts::FactObject;
use crate::lines::lines_on;
use serde::Serialize;
use std::alloc::{AllocError, Global};

/// What an object is made with.
#[derive(Clone, Copy)]
pub struct Making<'a> {
    /// The allocator.
    pub alloc: Global,
    /// The word of the command.
    pub command: &'a str,
    /// What goes to standard error.
    pub notices: &'a str,
    /// The wiring, whose lines are quoted: empty, if it was not read.
    pub wiring: &'a [u8],
    /// The policy, whose lines are quoted: empty, if it was not read.
    pub policy: &'a [u8],
}

/// The version of the objects: that of the keys and of their meaning.
pub(crate) const SCHEMA: u32 = 1;

/// A reason for which a certificate is refused.
#[derive(Drop, Serialize)]
pub(crate) struct Reason {
    pub(crate) fact: Option<FactObject>,
    pub(crate) kind: &'static str,
    pub(crate) line: Option<u32>,
    pub(crate) rule: Option<String>,
}

/// A yes or a no. Notices are missing if the command has none, and the reason if there is none.
#[derive(Drop, Serialize)]
struct ShortAnswer<'a> {
    answer: &'static str,
    command: &'a str,
    #[serde(skip_serializing_if = "Option::is_none")]
    notices: Option<Vec<&'a str>>,
    #[serde(skip_serializing_if = "Option::is_none")]
    reason: Option<Reason>,
    schema: u32,
}

/// A value as JSON, without spaces. The keys of each object of this crate are in ascending order,
/// as its fields are.
pub(crate) fn json_of<T: Serialize>(alloc: Global, value: &T) -> Result<String, AllocError> {
    // Each such value can be written, so it fails only if memory runs out.
    match serde_json::to_string(alloc, value) {
        Ok(text) => Ok(text),
        Err(_) => Err(AllocError),
    }
}

/// The text of an object: JSON and a line feed.
pub(crate) fn json_text<T: Serialize>(alloc: Global, object: &T) -> Result<String, AllocError> {
    let mut text = json_of(alloc, object)?;
    text.push_str("\n")?;
    Ok(text)
}

/// The text of a yes or a no of a command: with what goes to standard error, if the command has
/// notices, and with the reason, if there is one.
pub(crate) fn short_text(
    making: &Making<'_>,
    answer: &'static str,
    has_notices: bool,
    reason: Option<Reason>,
) -> Result<String, AllocError> {
    let alloc = making.alloc;
    let notices = if has_notices {
        Some(lines_on(alloc, making.notices)?)
    } else {
        None
    };
    let answer = ShortAnswer {
        answer,
        command: making.command,
        notices,
        reason,
        schema: SCHEMA,
    };
    json_text(alloc, &answer)
}
