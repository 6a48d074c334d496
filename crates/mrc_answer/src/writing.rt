//! Files that are written one after the other.

ghost use Rattle.std.specs.Prelude.{◌≡◌, OnOk, IfOk, IfErr, IsSomeAnd, map, slice_get};
ghost use Rattle.std.specs.Prelude.{string_bytes};
ghost use Rattle.mrc_answer.specs.MigTexts.{writing_of, AreWritten, IsStopped};

use crate::answers::MigText;
use crate::faults::Unwritten;
use mrc_base::OrMemory;
use mrc_files::{Folder, WriteFault, name_of};
use std::alloc::{AllocError, Global};
use std::marker::Model;

/// A file that is to be written, and its bytes.
#[derive(Drop)]
pub(crate) struct Writing<'c> {
    path: String,
    bytes: &'c [u8],
}

impl<'c> Model for Writing<'c> {
    ghost use Rattle.std.specs.Prelude.{string_bytes};
    ghost use Rattle.mrc_answer.specs.MigTexts as cutting;

    ghost Value = { cutting.Writing };

    ghost view = { λ w. record { path = string_bytes w.path; bytes = w.bytes.now } };
}

/// The place of the file whose writing was refused, and why.
#[derive(Drop)]
struct Stopped {
    place: usize,
    refusal: OrMemory<WriteFault>,
}

/// The file for a text in a folder: it has the name of the file that the text was made of.
fn writing_of<'c>(
    alloc: Global,
    folder: &str,
    mig_text: &'c MigText<'_>,
) -> Result<Writing<'c>, AllocError>
    ensures { IfOk result (λ writing. writing ≡ writing_of folder.now mig_text.now) }
{
    let name = name_of(mig_text.file);
    let path = format!(in alloc; "{folder}/{name}")?;
    Ok(Writing {
        path,
        bytes: mig_text.bytes.as_slice(),
    })
}

/// The files for texts in a folder.
pub(crate) fn writings_of<'c>(
    alloc: Global,
    folder: &str,
    mig_texts: &'c [MigText<'_>],
) -> Result<Vec<Writing<'c>>, AllocError>
    ensures { IfOk result (λ writings.
        writings.items ≡ map (writing_of folder.now) mig_texts.now) }
{
    let mut writings = Vec::new(alloc);
    for mig_text in mig_texts {
        let writing = writing_of(alloc, folder, mig_text)?;
        writings.push(writing)?;
    }
    Ok(writings)
}

/// Writes the files one after the other, up to the first that is refused.
fn write_each<F: Folder>(
    folder: &mut F,
    alloc: Global,
    writings: &[Writing<'_>],
) -> Result<(), Stopped>
    ensures whole { OnOk result
        (AreWritten (F.held folder.old) writings.now (F.held folder.new)) }
    ensures stopped { IfErr result (λ stopped. IsSomeAnd (slice_get writings.now stopped.place)
        (λ writing. IsStopped (F.held folder.old) writings.now (F.held folder.new) writing.path
        stopped.refusal)) }
{
    for (place, writing) in writings.iter().enumerate() {
        if let Err(refusal) = folder.replace(alloc, writing.path.as_str(), writing.bytes) {
            return Err(Stopped { place, refusal });
        }
    }
    Ok(())
}

/// Writes the files one after the other, up to the first that is refused. Its path is there before,
/// so no memory is needed to answer which it is.
pub(crate) fn write_all<F: Folder>(
    folder: &mut F,
    alloc: Global,
    writings: Vec<Writing<'_>>,
) -> Result<(), Unwritten>
    ensures whole { OnOk result
        (AreWritten (F.held folder.old) writings.entry.items (F.held folder.new)) }
    ensures stopped { IfErr result (λ unwritten. IsStopped (F.held folder.old) writings.entry.items
        (F.held folder.new) (string_bytes unwritten.file) unwritten.refusal) }
{
    let mut writings = writings;
    match write_each(folder, alloc, writings.as_slice()) {
        Ok(()) => {
            drop(writings);
            Ok(())
        }
        Err(Stopped { place, refusal }) => {
            let Writing { path: file, .. } = writings.swap_remove(place);
            drop(writings);
            Err(Unwritten { file, refusal })
        }
    }
}
