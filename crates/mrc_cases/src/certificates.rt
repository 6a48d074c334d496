//! Certificates in hexadecimal digits.

use crate::messages::{bytes_of, digits_of};
use anyhow::Result;
use mrc_certificate::{Draft, read_draft, write_draft};
use std::alloc::{AllocError, Global};

/// The bytes as they are written.
fn rewritten(alloc: Global, draft: &Draft) -> Result<String, AllocError> {
    digits_of(alloc, write_draft(alloc, draft)?.as_slice())
}

/// The bytes as they are written, of the draft that was read of bytes.
pub fn written(alloc: Global, text: &str) -> Result<String> {
    let draft = read_draft(alloc, bytes_of(alloc, text)?.as_slice())?;
    Ok(rewritten(alloc, &draft)?)
}
