//! What `explain` answers of a fact: the chain that derives it.

ghost use Rattle.std.specs.Prelude.{IfOk};
ghost use Rattle.mrc_answer.specs.Explained.{IsExplanation};

use crate::answers::{Answer, Explained, Underived};
use crate::faults::{Fault, WordFault};
use crate::files::Files;
use mrc_base::OrMemory;
use mrc_check::System;
use mrc_closure::explain;
use mrc_words::fact_named;
use std::alloc::{AllocError, Global};

/// What is answered of the fact of this text: a chain that derives it, or that there is none.
pub fn explained<'a>(alloc: Global, files: &Files<'_>, fact: &str) -> Result<Answer<'a>, AllocError>
    ensures right { IfOk result (IsExplanation fact.now files.now) }
{
    let texts = &files.texts;
    let system = match System::read(alloc, texts.defs.as_slice(), texts.wiring.as_slice()) {
        Ok(system) => system,
        Err(OrMemory::Fault(fault)) => return Ok(Answer::Fault(Fault::Meaning(fault))),
        Err(OrMemory::Memory) => return Err(AllocError),
    };
    let Some(named) = fact_named(&system.wired, fact) else {
        drop(system);
        return Ok(Answer::Fault(Fault::Word(WordFault::BadFact)));
    };
    let asked = named;
    match explain(alloc, &system.wired, asked) {
        Ok(Some(chain)) => {
            Ok(Answer::Chain(Explained {
                system,
                fact: named,
                chain,
            }))
        }
        Ok(None) => {
            Ok(Answer::NoChain(Underived {
                system,
                fact: named,
            }))
        }
        Err(AllocError) => {
            drop(system);
            Err(AllocError)
        }
    }
}
