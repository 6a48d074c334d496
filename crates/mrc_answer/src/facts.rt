//! What `facts` answers of a certificate, or of the least set.

ghost use Rattle.std.specs.Prelude.{◌≡◌, Ok, IfOk};
ghost use Rattle.mrc_answer.specs.Files.{word_of};
ghost use Rattle.mrc_answer.specs.Listed.{word_fault, IsListing};
ghost use Rattle.mrc_answer.specs.Texts.{system};

use crate::answers::{Answer, Listed};
use crate::faults::{Fault, WordFault};
use crate::files::Files;
use crate::given::facts_given;
use mrc_base::OrMemory;
use mrc_check::System;
use mrc_draw::{FilterFault, filter_of};
use std::alloc::{AllocError, Global};

/// The option whose word names nothing.
pub(crate) fn word_fault(fault: FilterFault) -> WordFault
    ensures { result ≡ word_fault fault }
{
    match fault {
        FilterFault::Task => WordFault::BadTask,
        FilterFault::Class => WordFault::BadClass,
        FilterFault::Right => WordFault::BadRight,
    }
}

/// What is answered of the facts of a system that files mean.
fn system_listed<'a>(
    alloc: Global,
    files: &Files<'_>,
    task: Option<&str>,
    class: Option<&str>,
    right: Option<&str>,
    meant: System,
) -> Result<Answer<'a>, AllocError>
    requires { system files.now.texts ≡ Ok meant }
    ensures { IfOk result (IsListing (word_of task.entry) (word_of class.entry)
        (word_of right.entry) files.now) }
{
    let System {
        lines,
        known,
        wired,
    } = meant;
    drop((lines, known));
    let facts = match facts_given(alloc, &wired, &files.texts) {
        Ok(facts) => facts,
        Err(OrMemory::Fault(fault)) => {
            drop(wired);
            return Ok(Answer::Fault(Fault::Meaning(fault)));
        }
        Err(OrMemory::Memory) => {
            drop(wired);
            return Err(AllocError);
        }
    };
    match filter_of(&wired, task, class, right) {
        Ok(filter) => match facts {
            Some(facts) => {
                let _count = facts.len();
                Ok(Answer::Facts(Listed {
                    wired,
                    filter,
                    facts,
                }))
            }
            None => {
                drop(wired);
                Ok(Answer::OtherCounts)
            }
        },
        Err(fault) => {
            drop((wired, facts));
            Ok(Answer::Fault(Fault::Word(word_fault(fault))))
        }
    }
}

/// What is answered of facts: those of the task, the class and the right that are asked for.
pub fn listed<'a>(
    alloc: Global,
    files: &Files<'_>,
    task: Option<&str>,
    class: Option<&str>,
    right: Option<&str>,
) -> Result<Answer<'a>, AllocError>
    ensures right { IfOk result (IsListing (word_of task.entry) (word_of class.entry)
        (word_of right.entry) files.now) }
{
    let texts = &files.texts;
    match System::read(alloc, texts.defs.as_slice(), texts.wiring.as_slice()) {
        Ok(system) => system_listed(alloc, files, task, class, right, system),
        Err(OrMemory::Fault(fault)) => Ok(Answer::Fault(Fault::Meaning(fault))),
        Err(OrMemory::Memory) => Err(AllocError),
    }
}
