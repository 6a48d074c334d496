//! Where the lines of a preprocessed text are in its sources.

use mrc_wiring_text::lines_of;
use mrc_words::number_of_word;
use std::alloc::{AllocError, Global};
use std::str;

/// A line marker: the name of a file, and the number that the next line has there.
#[derive(Clone, Copy, Debug)]
struct Marker<'a> {
    file: &'a str,
    line: u32,
}

/// The name of a file that is quoted at the beginning of a text. None if it is no file's, as
/// `<built-in>`, or has an escape.
fn file_quoted(text: &str) -> Option<&str> {
    let (name, _) = text.strip_prefix('"')?.split_once('"')?;
    if name.is_empty() || name.starts_with('<') || name.contains('\\') {
        return None;
    }
    Some(name)
}

/// The marker of a line, if it is one: `# N "FILE"`, or `#line N "FILE"`.
fn marker_of(line: &[u8]) -> Option<Marker<'_>> {
    let Ok(text) = str::from_utf8(line) else {
        return None;
    };
    let text = text.strip_prefix('#')?;
    let text = text.strip_prefix("line").unwrap_or(text).trim_start();
    let (number, behind) = text.split_once(' ')?;
    let line = number_of_word(number.as_bytes())?;
    let file = file_quoted(behind.trim_start())?;
    Some(Marker { file, line })
}

/// The file and the line of the source that the line of this number of a text is from, if a line
/// marker before it says so.
pub(crate) fn source_line<'a>(
    alloc: Global,
    text: &'a [u8],
    number: u32,
) -> Result<Option<(&'a str, u32)>, AllocError> {
    let lines = lines_of(alloc, text)?;
    let mut found = None;
    let before = number.saturating_sub(1) as usize;
    for line in lines.iter().take(before) {
        found = match (marker_of(line), found) {
            (Some(marker), _) => Some(marker),
            (None, Some(Marker { file, line })) => Some(Marker {
                file,
                line: line.saturating_add(1),
            }),
            (None, None) => None,
        };
    }
    Ok(found.map(|marker| (marker.file, marker.line)))
}
