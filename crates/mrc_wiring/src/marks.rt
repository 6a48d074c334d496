//! Rows of bits, made of lines that each name a row and mark a place in it, or none.

ghost use Rattle.std.specs.Prelude.{◌≡◌, ◌≤◌, ◌<◌, ◌*◌, ◌||◌, ◌&&◌, ℕ, nat_lt, length, IfOk, OnOk};
ghost use Rattle.std.specs.Prelude.{[], if◌then◌else◌};
ghost use Rattle.mrc_bits.specs.Bits.{is_set};
ghost use Rattle.mrc_wiring.specs.Marks.{AreMarked, AreWide, IsWide, MarksMore};
ghost use Rattle.mrc_wiring.specs.Marks.{is_marked, words_at};

use mrc_bits::set_bit;
use std::alloc::{AllocError, Global};

/// Adds rows without words until there is one of this number.
fn reach(alloc: Global, rows: &mut Vec<Vec<u64>>, number: usize) -> Result<(), AllocError>
    ensures same { OnOk result
        ((k : ℕ) → words_at rows.new.items k ≡ words_at rows.old.items k) }
    ensures there { OnOk result (number < length rows.new.items) }
{
    while rows.len() <= number {
        rows.push(Vec::new(alloc))?;
    }
    Ok(())
}

/// Gives a row its words if it has none.
fn widen(alloc: Global, row: &mut Vec<u64>, width: usize) -> Result<(), AllocError>
    requires { IsWide width row.old.items }
    ensures same { OnOk result
        ((p : ℕ) → is_set row.new.items p ≡ is_set row.old.items p) }
    ensures wide { OnOk result (length row.new.items ≡ width) }
{
    if row.is_empty() {
        *row = vec![in alloc; 0u64; width]?;
    }
    Ok(())
}

/// Sets the bit of the place that is marked, if it is one of so many places.
fn mark(row: &mut [u64], places: usize, place: Option<usize>)
    requires { places ≤ 64 * length row.old }
    ensures { (p : ℕ) → is_set row.new p
        ≡ (is_set row.old p || (nat_lt p places && is_marked p place)) }
{
    if let Some(place) = place {
        if place < places {
            set_bit(row, place);
        }
    }
}

/// Marks in its row what one more line marks.
fn mark_row(
    alloc: Global,
    row: &mut Vec<u64>,
    width: usize,
    places: usize,
    place: Option<usize>,
) -> Result<(), AllocError>
    requires wide { IsWide width row.old.items }
    requires room { places ≤ 64 * width }
    ensures bits { OnOk result ((p : ℕ) → is_set row.new.items p
        ≡ (is_set row.old.items p || (nat_lt p places && is_marked p place))) }
    ensures wide { OnOk result (length row.new.items ≡ width) }
{
    widen(alloc, row, width)?;
    mark(row.as_mut_slice(), places, place);
    Ok(())
}

/// Marks what one more line marks.
fn mark_line(
    alloc: Global,
    rows: &mut Vec<Vec<u64>>,
    width: usize,
    places: usize,
    line: (usize, Option<usize>),
) -> Result<(), AllocError>
    requires wide { AreWide width rows.old.items }
    requires room { places ≤ 64 * width }
    ensures more { OnOk result (MarksMore width places rows.old.items line rows.new.items) }
    ensures wide { OnOk result (AreWide width rows.new.items) }
{
    reach(alloc, rows, line.0)?;
    mark_row(alloc, &mut rows[line.0], width, places, line.1)?;
    Ok(())
}

/// The rows that the lines make: each row that a line names has so many words, and the others have
/// none. A place is marked only if it is one of so many.
pub(crate) fn marked(
    alloc: Global,
    width: usize,
    places: usize,
    lines: &[(usize, Option<usize>)],
) -> Result<Vec<Vec<u64>>, AllocError>
    requires { places ≤ 64 * width }
    ensures { IfOk result (λ rows. AreMarked width places lines.now rows.items) }
{
    let mut rows = Vec::new(alloc);
    for line in lines {
        mark_line(alloc, &mut rows, width, places, *line)?;
    }
    Ok(rows)
}
