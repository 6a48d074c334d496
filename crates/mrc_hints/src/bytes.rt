//! Bytes by their places, and the lines that they are in.

/// The byte at a place, or 0 behind the end.
pub(crate) fn byte_at(bytes: &[u8], at: usize) -> u8 {
    match bytes.get(at) {
        Some(byte) => *byte,
        None => 0,
    }
}

/// The number of the line of a place, from 1.
pub(crate) fn line_number(bytes: &[u8], at: usize) -> u32 {
    let front = &bytes[..at.min(bytes.len())];
    let feeds = front.iter().filter(|byte| **byte == b'\n').count();
    (feeds.min(4_294_967_294) + 1) as u32
}
