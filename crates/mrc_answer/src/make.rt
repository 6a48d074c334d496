//! What `make` answers: the certificate that it makes of a wiring and writes.

ghost use Rattle.std.specs.Prelude.{◌≡◌, ◌⊎◌, Err, IfOk, IfErr, IsOkAnd};
ghost use Rattle.mrc_base.specs.Reading.{UnlessMemory};
ghost use Rattle.mrc_certificate.specs.Spelling.{content};
ghost use Rattle.mrc_answer.specs.Answers.{MayChange};
ghost use Rattle.mrc_answer.specs.Made.{IsMaking, IsWritten, IsPartWritten};

use crate::answers::Answer;
use crate::faults::{Fault, Unwritten, WordFault};
use crate::files::Files;
use mrc_base::{Open, OrMemory};
use mrc_certificate::{Draft, write_draft};
use mrc_check::System;
use mrc_closure::{MakeFault, make};
use mrc_files::Folder;
use std::alloc::{AllocError, Global};
use std::sync::Wait;
use std::thread::Threads;

/// Writes the draft's bytes to the file, and returns how many facts it has. The name of the file is
/// copied before, so no memory is needed to answer what it took.
fn draft_written<F: Folder>(
    folder: &mut F,
    alloc: Global,
    out: &str,
    draft: &Draft,
) -> Result<usize, OrMemory<Unwritten>>
    ensures whole { IfOk result (IsWritten out.now (F.held folder.old) (F.held folder.new)
        (content draft.now)) }
    ensures part { IfErr result (UnlessMemory (IsPartWritten out.now (F.held folder.old)
        (F.held folder.new) (content draft.now))) }
    // If memory runs out before the file is written, no file is changed.
    ensures kept { result ≡ Err OrMemory.Memory → F.held folder.new ≡ F.held folder.old }
{
    let bytes = write_draft(alloc, draft)?;
    let file = String::from_str(alloc, out)?;
    match folder.replace(alloc, out, bytes.as_slice()) {
        Ok(()) => Ok(draft.facts.len()),
        Err(refusal) => Err(OrMemory::Fault(Unwritten { file, refusal })),
    }
}

/// Makes the certificate of a wiring by so many threads, and writes it to the file. If memory runs
/// out before it is written, no file is changed.
pub fn made<'a, F: Folder, R: Threads + Wait + Sync>(
    rt: &R,
    folder: &mut F,
    alloc: Global,
    files: &Files<'_>,
    out: &str,
    workers: usize,
) -> Result<Answer<'a>, AllocError>
    ensures right { IfOk result
        (IsMaking out.now workers (F.held folder.old) (F.held folder.new) files.now) }
    // A file is changed only if the certificate was written, or the file did not take all of it.
    ensures kept { IsOkAnd result MayChange ⊎ (F.held folder.new ≡ F.held folder.old) }
{
    let texts = &files.texts;
    let system = match System::read(alloc, texts.defs.as_slice(), texts.wiring.as_slice()) {
        Ok(system) => system,
        Err(OrMemory::Fault(fault)) => return Ok(Answer::Fault(Fault::Meaning(fault))),
        Err(OrMemory::Memory) => return Err(AllocError),
    };
    let least = make(rt, alloc, &system.wired, workers, &Open);
    drop(system);
    let draft = match least {
        Ok(draft) => draft,
        Err(OrMemory::Fault(MakeFault::Workers)) => {
            return Ok(Answer::Fault(Fault::Word(WordFault::Workers)));
        }
        Err(OrMemory::Memory) => return Err(AllocError),
    };
    let written = draft_written(folder, alloc, out, &draft);
    drop(draft);
    match written {
        Ok(count) => Ok(Answer::Made(count)),
        Err(OrMemory::Fault(unwritten)) => Ok(Answer::Fault(Fault::Unwritten(unwritten))),
        Err(OrMemory::Memory) => Err(AllocError),
    }
}
