//! Repeats in lines: short rows for long texts.

use std::alloc::{AllocError, Global};
use std::fmt::Write;

/// What a repeat says, and what stands behind it.
#[derive(Drop)]
struct Repeat<'a> {
    times: u32,
    text: &'a str,
    after: &'a str,
}

/// The repeat at the head of a part, as `N:text}` spells it.
fn repeat_of(part: &str) -> Option<Repeat<'_>> {
    let (repeat, after) = part.split_once('}')?;
    let (digits, text) = repeat.split_once(':')?;
    match digits.parse() {
        Ok(times) => Some(Repeat { times, text, after }),
        Err(_) => None,
    }
}

/// The text, with a number in place of each `@`.
fn put_numbered(line: &mut String, text: &str, number: u32) -> Result<(), AllocError> {
    for (place, part) in text.split('@').enumerate() {
        if place > 0 {
            write!(line, "{number}")?;
        }
        line.push_str(part)?;
    }
    Ok(())
}

/// A part that stands behind `\{`; where it has no repeat, that is spelled as it stands.
fn put_part(line: &mut String, part: &str) -> Result<(), AllocError> {
    let Some(repeat) = repeat_of(part) else {
        line.push_str("\\{")?;
        return line.push_str(part);
    };
    for number in 0..repeat.times {
        put_numbered(line, repeat.text, number)?;
    }
    line.push_str(repeat.after)
}

/// The line with N times the text for each `\{N:text}`; an `@` in the text is the number of the
/// time, from 0.
pub fn expanded(alloc: Global, line: &str) -> Result<String, AllocError> {
    let mut text = String::new(alloc);
    for (place, part) in line.split("\\{").enumerate() {
        if place == 0 {
            text.push_str(part)?;
        } else {
            put_part(&mut text, part)?;
        }
    }
    Ok(text)
}
