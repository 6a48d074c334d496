//! What `replay` answers of a wiring and a script.

ghost use Rattle.std.specs.Prelude.{◌≡◌, Ok, IfOk};
ghost use Rattle.mrc_check.specs.Texts.{meaningless};
ghost use Rattle.mrc_interface.specs.Reading.{GivesAs};
ghost use Rattle.mrc_answer.specs.Played.{scripted, IsReplayed};
ghost use Rattle.mrc_answer.specs.declared.answers.Answer.TheVariants as answers;
ghost use Rattle.mrc_answer.specs.declared.answers.WiredScript.{WiredScript};

use crate::answers::{Answer, WiredScript};
use crate::faults::Fault;
use crate::files::{Files, Texts};
use crate::script::script_said;
use mrc_base::OrMemory;
use mrc_check::{CaseFault, System};
use std::alloc::{AllocError, Global};

/// The wiring and the script that texts mean, or the first text that has no meaning.
fn scripted(alloc: Global, texts: &Texts) -> Result<WiredScript, OrMemory<CaseFault>>
    ensures { GivesAs (λ both. both) meaningless result (scripted texts.now) }
{
    let System {
        lines,
        known,
        wired,
    } = System::read(alloc, texts.defs.as_slice(), texts.wiring.as_slice())?;
    drop((lines, known));
    match script_said(alloc, &wired, false, texts) {
        Ok(script) => Ok(WiredScript { wired, script }),
        Err(refusal) => {
            drop(wired);
            Err(refusal)
        }
    }
}

/// The wiring and the script that are replayed.
pub fn replayed<'a>(alloc: Global, files: &Files<'_>) -> Result<Answer<'a>, AllocError>
    ensures right { IfOk result (IsReplayed files.now) }
    // If all texts have a meaning the replay is answered, unless memory runs out.
    ensures only { (both : WiredScript) → scripted files.now.texts ≡ Ok both
        → IfOk result (λ answer. answer ≡ answers.Replay both) }
{
    match scripted(alloc, &files.texts) {
        Ok(both) => Ok(Answer::Replay(both)),
        Err(OrMemory::Fault(fault)) => Ok(Answer::Fault(Fault::Meaning(fault))),
        Err(OrMemory::Memory) => Err(AllocError),
    }
}
