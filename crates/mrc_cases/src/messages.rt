//! Messages in hexadecimal digits.

use anyhow::Result;
use mrc_desc::{Message, read_message, write_message};
use std::alloc::{AllocError, Global};

/// The number that a hexadecimal digit stands for.
fn digit(byte: u8) -> Option<u8> {
    match byte {
        b'0'..=b'9' => Some(byte - b'0'),
        b'a'..=b'f' => Some(byte - b'a' + 10),
        _ => None,
    }
}

/// The bytes that hexadecimal digits stand for; anything else is skipped.
pub fn bytes_of(alloc: Global, text: &str) -> Result<Vec<u8>, AllocError> {
    let mut bytes = Vec::new(alloc);
    let mut high = None;
    for byte in text.as_bytes() {
        let Some(value) = digit(*byte) else { continue };
        high = match high {
            None => Some(value),
            Some(high) => {
                bytes.push(high << 4 | value)?;
                None
            }
        };
    }
    Ok(bytes)
}

/// Bytes in words of eight digits.
pub fn digits_of(alloc: Global, bytes: &[u8]) -> Result<String, AllocError> {
    let mut text = String::new(alloc);
    for (place, byte) in bytes.iter().enumerate() {
        let blank = if place > 0 && place % 4 == 0 { " " } else { "" };
        text.push_str(format!(in alloc; "{blank}{byte:02x}")?.as_str())?;
    }
    Ok(text)
}

/// The bytes as they are written.
fn rewritten(alloc: Global, message: &Message) -> Result<String, AllocError> {
    digits_of(alloc, write_message(alloc, message)?.as_slice())
}

/// The bytes as they are written, of the message that was read of bytes.
pub fn written(alloc: Global, text: &str) -> Result<String> {
    let message = read_message(alloc, bytes_of(alloc, text)?.as_slice())?;
    Ok(rewritten(alloc, &message)?)
}
