//! Mends that are told as soon as they are found.

use crate::answers::{Mend, Progress};
use crate::changes::Change;
use crate::printing::add_change;
use std::alloc::{AllocError, Global};

/// The lines that are printed of changes.
fn change_lines(
    alloc: Global,
    wiring: &[u8],
    changes: &[Change],
) -> Result<Vec<String>, AllocError> {
    let mut lines = Vec::new(alloc);
    for change in changes {
        add_change(alloc, &mut lines, wiring, change)?;
    }
    Ok(lines)
}

/// Tells of the last mend, if there are more than there were.
pub(crate) fn tell_last<P: Progress>(
    alloc: Global,
    wiring: &[u8],
    found: &[Mend],
    before: usize,
    progress: &mut P,
) -> Result<(), AllocError> {
    if found.len() <= before {
        return Ok(());
    }
    if let Some(mend) = found.last() {
        let lines = change_lines(alloc, wiring, mend.changes.as_slice())?;
        progress.found(lines.as_slice());
    }
    Ok(())
}
