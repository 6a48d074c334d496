//! What the heading of a wiring's text says.

use mrc_base::OrMemory;
use mrc_wiring_text::{Edition, wiring_edition};
use std::alloc::{AllocError, Global};

/// The edition of a wiring of this text, which was read, and whether it is one of version 4: of
/// this the edition is that of version 3.
pub(crate) fn edition(alloc: Global, wiring: &[u8]) -> Result<(Edition, bool), AllocError> {
    match wiring_edition(alloc, wiring) {
        Ok(edition) => Ok((edition, false)),
        Err(OrMemory::Fault(_)) => Ok((Edition::Third, true)),
        Err(OrMemory::Memory) => Err(AllocError),
    }
}
