//! What helps with a fault of a script.

ghost use Rattle.std.specs.Prelude.{ℕ, List, IfOk};
ghost use Rattle.mrc_place.specs.Spots.{HasLine, IsInside, HasCaretInside};

use crate::known_names::{Names, names_in};
use crate::script_digits::HexFault;
use crate::script_notes::notes;
use crate::script_words::{Found, Wrong, found_in};
use mrc_base::limits::LINES;
use mrc_place::{Hint, Line, Spot, line_of, line_spot, one_note, words_of};
use mrc_wiring_text::TextFault;
use std::alloc::{AllocError, Global};
use std::str;

/// How many digits or characters are wrong.
fn width(fault: HexFault) -> usize {
    match fault {
        HexFault::OfMessage { .. } => 2,
        _ => 1,
    }
}

/// The wrong word of a line; of HEX the wrong digits.
fn caret(alloc: Global, line: &Line<'_>, found: Found) -> Result<Spot, AllocError>
    ensures { IfOk result (λ spot. (text : List ℕ)
        → HasLine text line.now.number line.now.text.now → IsInside text spot) }
{
    let whole = line_spot(alloc, line, found.word)?;
    match found.wrong {
        Wrong::Hex(fault) => {
            let end = found.offset.saturating_add(width(fault));
            whole.narrowed(alloc, found.offset, end)
        }
        _ => Ok(whole),
    }
}

/// What helps with a line that is not one of the grammar.
fn line_hint(
    alloc: Global,
    live: bool,
    wiring: &str,
    text: &str,
    line: &Line<'_>,
) -> Result<Hint, AllocError>
    requires { HasLine text.now line.now.number line.now.text.now }
    ensures { IfOk result (HasCaretInside text.now) }
{
    let Names { tasks, ports: _ } = names_in(alloc, wiring)?;
    let words = words_of(alloc, line.text.as_bytes())?;
    let found = found_in(alloc, live, &tasks, &words)?;
    let spot = caret(alloc, line, found)?;
    let notes = notes(alloc, live, &tasks, found.wrong, spot.word.as_str())?;
    Ok(Hint {
        spot: Some(spot),
        notes,
    })
}

/// What helps with a line of this number, which may be one too many.
fn bad_line(
    alloc: Global,
    live: bool,
    wiring: &str,
    text: &str,
    number: u32,
) -> Result<Hint, AllocError>
    ensures { IfOk result (HasCaretInside text.now) }
{
    if number > LINES {
        return Ok(Hint::of_notes(one_note(alloc, "the text has more than 65,535 lines")?));
    }
    match line_of(text, number) {
        Some(line) => line_hint(alloc, live, wiring, text, &line),
        None => Ok(Hint::none(alloc)),
    }
}

/// What helps with a line of a script that is none of the grammar: its first wrong word, or of the
/// bytes of a message the wrong digits, and what may be there. The wiring is that of its tasks, and
/// can be read. `live` is as in `read_script` of `mrc_report`.
pub fn script_hint(
    alloc: Global,
    text: &[u8],
    wiring: &str,
    live: bool,
    fault: TextFault,
) -> Result<Hint, AllocError>
    // The caret is inside its line.
    ensures { IfOk result (HasCaretInside text.now) }
{
    match str::from_utf8(text) {
        Err(error) => Hint::not_utf8(alloc, text, error.valid_up_to()),
        Ok(text) => match fault {
            TextFault::BadLine(line) => bad_line(alloc, live, wiring, text, line),
            TextFault::NotUtf8 | TextFault::Version => Ok(Hint::none(alloc)),
        },
    }
}
