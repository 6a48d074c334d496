//! What `mig` answers of MIG files.

ghost use Rattle.std.specs.Prelude.{◌≡◌, ◌⊎◌, IfOk, IsOk, IsOkAnd, length, map};
ghost use Rattle.std.specs.Option.{option_map};
ghost use Rattle.mrc_answer.specs.Answers.{MayChange};
ghost use Rattle.mrc_answer.specs.MigTexts.{mig_names, is_named_so, same_name, HasEnd};
ghost use Rattle.mrc_answer.specs.MigTexts.{AreMigOfTexts};

use crate::answers::{Answer, MigEnd, MigText, MigTexts};
use crate::faults::Fault;
use crate::mig_texts::{are_written, mig_texts_of};
use crate::writing::{write_all, writings_of};
use mrc_base::OrMemory;
use mrc_command::MigFiles;
use mrc_files::{Folder, name_of};
use std::alloc::{AllocError, Global};

/// Whether one of these files has the name of the file.
fn is_named_so(file: &str, files: &[&str]) -> bool
    ensures { result ≡ is_named_so file.now (map (λ other. other.now) files.now) }
{
    files.iter().any(|other| name_of(other) == name_of(file))
}

/// The first of the files that has the name of an earlier one, in whatever folder.
pub(crate) fn same_name<'a>(files: &[&'a str]) -> Option<&'a str>
    ensures { option_map (λ file. file.now) result ≡ same_name (map (λ file. file.now) files.now) }
{
    for (place, file) in files.iter().enumerate() {
        if is_named_so(file, &files[..place]) {
            return Some(file);
        }
    }
    None
}

/// What is made ready before MIG files are written, as the texts that are printed of them: then no
/// memory is needed for it once they are written.
pub trait Ready {
    /// Makes that ready for these texts.
    fn make_ready(&mut self, alloc: Global, mig_texts: &[MigText<'_>]) -> Result<(), AllocError>;
}

/// Writes texts of edition 2, if enough is read of them. Before the first is written, what depends
/// on it is made ready.
fn end_of<F: Folder, T: Ready>(
    folder: &mut F,
    alloc: Global,
    files: &MigFiles<'_>,
    mig_texts: &[MigText<'_>],
    ready: &mut T,
) -> Result<MigEnd, AllocError>
    ensures right { IfOk result
        (HasEnd files.now (F.held folder.old) (F.held folder.new) mig_texts.now) }
    ensures kept { IsOk result ⊎ (F.held folder.new ≡ F.held folder.old) }
{
    if !are_written(files.strict, mig_texts) {
        return Ok(MigEnd::Little);
    }
    ready.make_ready(alloc, mig_texts)?;
    let writings = writings_of(alloc, files.out, mig_texts)?;
    match write_all(folder, alloc, writings) {
        Ok(()) => Ok(MigEnd::Written),
        Err(unwritten) => Ok(MigEnd::Refused(unwritten)),
    }
}

/// What MIG files of these bytes are as texts of edition 2. If enough is read of them, these are
/// written. Out of memory changes no file, also if it runs out for what is made ready before.
pub fn mig_files<'a, F: Folder, T: Ready>(
    folder: &mut F,
    alloc: Global,
    files: &MigFiles<'a>,
    texts: &[Vec<u8>],
    ready: &mut T,
) -> Result<Answer<'a>, AllocError>
    requires count { length (mig_names files.now) ≡ length texts.now }
    ensures right { IfOk result (AreMigOfTexts files.now (F.held folder.old) (F.held folder.new)
        (map (λ text. text.items) texts.now)) }
    // A file is changed only if it is answered what became of the files.
    ensures kept { IsOkAnd result MayChange ⊎ (F.held folder.new ≡ F.held folder.old) }
{
    match mig_texts_of(alloc, files.defs.as_slice(), files.received, texts) {
        Ok(mig_texts) => match end_of(folder, alloc, files, mig_texts.as_slice(), ready) {
            Ok(end) => Ok(Answer::Mig(MigTexts {
                texts: mig_texts,
                end,
            })),
            Err(error) => {
                drop(mig_texts);
                Err(error)
            }
        },
        Err(OrMemory::Fault(no_text)) => Ok(Answer::Fault(Fault::NoMigText(no_text))),
        Err(OrMemory::Memory) => Err(AllocError),
    }
}
