//! What the lines of policies say, and names.

use crate::wirings::put_class;
use anyhow::Result;
use mrc_wiring_text::{Name, PolicyLine, read_policy};
use mrc_words::right_word;
use std::alloc::{AllocError, Global};
use std::fmt::Write;

fn put_line(out: &mut String, line: &PolicyLine) -> Result<(), AllocError> {
    let right = right_word(line.says.right);
    write!(out, "{} {} {right} ", line.number, line.says.task.as_str())?;
    put_class(out, &line.says.class)?;
    out.push(';')
}

/// The lines, by their numbers and what they forbid.
fn lines_text(alloc: Global, lines: &[PolicyLine]) -> Result<String, AllocError> {
    let mut out = String::new(alloc);
    for line in lines {
        put_line(&mut out, line)?;
    }
    Ok(out)
}

/// Each line of a policy, by its number and what it forbids.
pub fn policy(alloc: Global, bytes: &[u8]) -> Result<String> {
    Ok(lines_text(alloc, read_policy(alloc, bytes)?.as_slice())?)
}

/// The name that a word spells, and its copy; or `none`.
pub fn name(alloc: Global, word: &str) -> Result<String> {
    let Some(name) = Name::new(alloc, word.as_bytes())? else {
        return Ok(String::from_str(alloc, "none")?);
    };
    let copy = name.copy(alloc)?;
    Ok(format!(in alloc; "{} {}", name.as_str(), copy.as_str())?)
}
