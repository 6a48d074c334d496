//! What `slots`, `promises` and `expand` answer of a system.

ghost use Rattle.std.specs.Prelude.{◌≡◌, IfOk};
ghost use Rattle.std.specs.Result.{result_ok};
ghost use Rattle.mrc_wiring_text.specs.Wiring.{wiring_edition};
ghost use Rattle.mrc_answer.specs.Systems.{AreSlots, ArePromises, IsExpanded};

use crate::answers::{Answer, Expanded};
use crate::faults::Fault;
use crate::files::Files;
use mrc_base::OrMemory;
use mrc_check::System;
use mrc_wiring_text::{Edition, wiring_edition};
use std::alloc::{AllocError, Global};

/// The system whose slots are listed.
pub fn slots<'a>(alloc: Global, files: &Files<'_>) -> Result<Answer<'a>, AllocError>
    ensures right { IfOk result (AreSlots files.now) }
{
    let texts = &files.texts;
    match System::read(alloc, texts.defs.as_slice(), texts.wiring.as_slice()) {
        Ok(system) => Ok(Answer::Slots(system)),
        Err(OrMemory::Fault(fault)) => Ok(Answer::Fault(Fault::Meaning(fault))),
        Err(OrMemory::Memory) => Err(AllocError),
    }
}

/// The system whose lines that trust tasks are listed.
pub fn promises<'a>(alloc: Global, files: &Files<'_>) -> Result<Answer<'a>, AllocError>
    ensures right { IfOk result (ArePromises files.now) }
{
    let texts = &files.texts;
    match System::read(alloc, texts.defs.as_slice(), texts.wiring.as_slice()) {
        Ok(system) => Ok(Answer::Promises(system)),
        Err(OrMemory::Fault(fault)) => Ok(Answer::Fault(Fault::Meaning(fault))),
        Err(OrMemory::Memory) => Err(AllocError),
    }
}

/// The edition that the version names of a wiring that was read: none of version 4.
fn older_edition(alloc: Global, wiring: &[u8]) -> Result<Option<Edition>, AllocError>
    ensures { IfOk result (λ older. older ≡ result_ok (wiring_edition wiring.now)) }
{
    match wiring_edition(alloc, wiring) {
        Ok(edition) => Ok(Some(edition)),
        Err(OrMemory::Fault(_)) => Ok(None),
        Err(OrMemory::Memory) => Err(AllocError),
    }
}

/// The system whose lines are printed.
pub fn expanded<'a>(alloc: Global, files: &Files<'_>) -> Result<Answer<'a>, AllocError>
    ensures right { IfOk result (IsExpanded files.now) }
{
    let texts = &files.texts;
    match System::read(alloc, texts.defs.as_slice(), texts.wiring.as_slice()) {
        Ok(system) => match older_edition(alloc, texts.wiring.as_slice()) {
            Ok(older) => Ok(Answer::Expanded(Expanded { system, older })),
            Err(AllocError) => {
                drop(system);
                Err(AllocError)
            }
        },
        Err(OrMemory::Fault(fault)) => Ok(Answer::Fault(Fault::Meaning(fault))),
        Err(OrMemory::Memory) => Err(AllocError),
    }
}
