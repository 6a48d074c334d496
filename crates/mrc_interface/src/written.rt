//! The text that `mig` writes of a MIG file.

ghost use Rattle.std.specs.Prelude.{◌≡◌, IfOk};
ghost use Rattle.mrc_interface.specs.Written.{edition_line, in_second};

use crate::left::is_first;
use std::alloc::{AllocError, Global};

/// The line of edition 2, as received or not.
fn edition_line(received: bool) -> &'static [u8]
    ensures { result.now ≡ edition_line received }
{
    if received {
        b"#pragma machcheck 2 received\n"
    } else {
        b"#pragma machcheck 2\n"
    }
}

/// The bytes of a MIG file as a text of edition 2, as received or not: with the line of that
/// edition in front where they are a text of edition 1, else as they are.
pub fn in_second(alloc: Global, bytes: &[u8], received: bool) -> Result<Vec<u8>, AllocError>
    // Each byte of the text is there, and but for the line nothing else.
    ensures exact { IfOk result (λ text. text.items ≡ in_second received bytes.now) }
{
    let mut text = Vec::new(alloc);
    if is_first(bytes) {
        text.extend_from_slice(edition_line(received))?;
    }
    text.extend_from_slice(bytes)?;
    Ok(text)
}
