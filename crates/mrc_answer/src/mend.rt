//! What `mend` answers: changes of a wiring after which a policy holds.

ghost use Rattle.std.specs.Prelude.{Some, false, IfOk, IsTrue};
ghost use Rattle.mrc_answer.specs.Made.{IsMending};
ghost use Rattle.mrc_answer.specs.Verified.{IsToldAt, IsNotBroken};

use crate::answers::Answer;
use crate::faults::{Fault, WordFault};
use crate::files::Files;
use crate::judging::judged;
use mrc_base::OrMemory;
use mrc_check::Stated;
use mrc_mend::{Progress, find_mends};
use mrc_why::line_in;
use std::alloc::{AllocError, Global};

/// Whether something is told of a system, but nothing of the policy's line of this number.
fn is_untold_of(alloc: Global, stated: &Stated, number: usize) -> Result<bool, AllocError>
    ensures { IfOk result (λ r. IsTrue r → IsToldAt stated.now number false) }
{
    let found = judged(alloc, stated)?;
    if found.is_passed() {
        return Ok(false);
    }
    match line_in(found.told.as_slice(), number) {
        Some(_) => Ok(false),
        None => Ok(true),
    }
}

/// Whether the files have a meaning of which something is told, but nothing of the policy's line of
/// this number.
fn is_untold(alloc: Global, files: &Files<'_>, number: usize) -> Result<bool, AllocError>
    ensures { IfOk result (λ r. IsTrue r → IsNotBroken (Some number) files.now) }
{
    match Stated::read(
        alloc,
        files.texts.defs.as_slice(),
        files.texts.wiring.as_slice(),
        &files.texts.asked_policy(),
    ) {
        Ok(stated) => {
            let is_untold = is_untold_of(alloc, &stated, number);
            drop(stated);
            is_untold
        }
        Err(OrMemory::Fault(fault)) => {
            drop(fault);
            Ok(false)
        }
        Err(OrMemory::Memory) => Err(AllocError),
    }
}

/// Mends of a wiring, of all lines of the policy or of one, so many at most.
fn mends<'a, P: Progress>(
    alloc: Global,
    files: &Files<'_>,
    line: Option<usize>,
    most: usize,
    progress: &mut P,
) -> Result<Answer<'a>, AllocError>
    ensures { IfOk result (IsMending line most files.now) }
{
    let policy = files.texts.asked_policy();
    match find_mends(
        alloc,
        files.texts.defs.as_slice(),
        files.texts.wiring.as_slice(),
        &policy,
        line,
        most,
        progress,
    ) {
        Ok(answer) => Ok(Answer::Mends(answer)),
        Err(OrMemory::Fault(fault)) => Ok(Answer::Fault(Fault::Meaning(fault))),
        Err(OrMemory::Memory) => Err(AllocError),
    }
}

/// Mends of a wiring, so many at most; with `line` of this line of the policy alone, if
/// something is told of it.
pub fn mended<'a, P: Progress>(
    alloc: Global,
    files: &Files<'_>,
    line: Option<usize>,
    most: usize,
    progress: &mut P,
) -> Result<Answer<'a>, AllocError>
    ensures right { IfOk result (IsMending line most files.now) }
{
    if let Some(number) = line {
        if is_untold(alloc, files, number)? {
            return Ok(Answer::Fault(Fault::Word(WordFault::NotBroken)));
        }
    }
    mends(alloc, files, line, most, progress)
}
