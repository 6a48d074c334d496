//! Where steps of a chain are in the files of a system.

use crate::sarif_markers::source_line;
use mrc_command::FileNames;
use mrc_hints::argument_line;
use mrc_why::{Source, Sources};
use std::alloc::{AllocError, Global};

/// A line of a file: its name and the number, from 1.
#[derive(Clone, Copy, Debug)]
pub(crate) struct Place<'a> {
    pub(crate) file: &'a str,
    pub(crate) line: u32,
}

/// A system whose steps are placed in its files.
#[derive(Clone, Copy)]
pub struct Placed<'a> {
    /// The allocator.
    pub alloc: Global,
    /// The names of its files.
    pub names: &'a FileNames<'a>,
    /// The texts of its MIG files.
    pub texts: &'a [Vec<u8>],
    /// Its wiring, with the numbers of the lines.
    pub sources: &'a Sources<'a>,
}

/// The name and the text of the MIG file of a subsystem: the k-th interface is that of the k-th MIG
/// file.
fn file_of<'a>(placed: &Placed<'a>, subsystem: &str) -> Option<(&'a str, &'a [u8])> {
    let interfaces = placed.sources.wired().interfaces();
    let number = interfaces
        .iter()
        .position(|interface| subsystem == interface.name())?;
    let name = placed.names.defs.get(number)?;
    let text = placed.texts.get(number)?;
    Some((name, text.as_slice()))
}

/// Where the argument of a routine is in the MIG file of a subsystem, or, without a routine, the
/// word `subsystem`: in the source of the file, if a line marker before that line names one.
fn mig_place<'a>(
    placed: &Placed<'a>,
    subsystem: &str,
    argument: Option<(&str, &str)>,
) -> Result<Option<Place<'a>>, AllocError> {
    let alloc = placed.alloc;
    let Some((name, text)) = file_of(placed, subsystem) else {
        return Ok(None);
    };
    let Some(line) = argument_line(alloc, text, argument)? else {
        return Ok(None);
    };
    let (file, line) = source_line(alloc, text, line)?.unwrap_or((name, line));
    Ok(Some(Place { file, line }))
}

/// Where a step of this source is: a line of the wiring, or of the MIG file of the subsystem, or of
/// the source of that file.
pub(crate) fn source_place<'a>(
    placed: &Placed<'a>,
    source: Option<Source<'_>>,
) -> Result<Option<Place<'a>>, AllocError> {
    match source {
        None | Some(Source::KernelPort(_)) => Ok(None),
        Some(Source::Line(line)) => {
            let file = placed.names.wiring;
            Ok(Some(Place { file, line }))
        }
        Some(Source::Slot(slot)) => {
            let argument = (slot.routine, slot.argument);
            mig_place(placed, slot.subsystem, Some(argument))
        }
        Some(Source::Subsystem(name)) => mig_place(placed, name, None),
    }
}
