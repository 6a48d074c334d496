//! Texts on one line.

use std::alloc::{AllocError, Global};

/// The character that stands behind a `\`.
fn escaped(character: char) -> char {
    match character {
        'n' => '\n',
        'r' => '\r',
        '0' => '\0',
        other => other,
    }
}

/// The text that a line spells.
pub fn unescaped(alloc: Global, line: &str) -> Result<String, AllocError> {
    let mut text = String::new(alloc);
    let mut is_escape = false;
    for character in line.chars() {
        if is_escape {
            text.push(escaped(character))?;
            is_escape = false;
        } else if character == '\\' {
            is_escape = true;
        } else {
            text.push(character)?;
        }
    }
    Ok(text)
}
