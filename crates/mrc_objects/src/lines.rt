//! Lines of texts, as they are quoted.

use mrc_wiring_text::lines_of;
use std::alloc::{AllocError, Global};
use std::str;

/// The lines of a text.
#[derive(Debug, Drop)]
pub struct TextLines<'a> {
    lines: Vec<&'a [u8]>,
}

impl<'a> TextLines<'a> {
    /// The lines of this text.
    pub fn of(alloc: Global, text: &'a [u8]) -> Result<TextLines<'a>, AllocError> {
        let lines = lines_of(alloc, text)?;
        Ok(TextLines { lines })
    }

    /// The line of this number, from 1, without white space at its ends. Nothing, if there is none
    /// or it is no text.
    pub fn line(&self, number: u32) -> &'a str {
        let Some(before) = number.checked_sub(1) else {
            return "";
        };
        let Some(line) = self.lines.get(before as usize) else {
            return "";
        };
        match str::from_utf8(line) {
            Ok(text) => text.trim(),
            Err(_) => "",
        }
    }
}

/// The lines of what goes to standard error, without their line feeds.
pub(crate) fn lines_on<'a>(alloc: Global, err: &'a str) -> Result<Vec<&'a str>, AllocError> {
    err.split_terminator('\n').collect(alloc)
}
