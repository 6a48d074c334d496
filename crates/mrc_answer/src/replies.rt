//! Replies that are made in more than one place: a yes of a claim, and why there is no answer.

ghost use Rattle.std.specs.Prelude.{◌≡◌, IfOk};
ghost use Rattle.mrc_facts.specs.Sets.{has};
ghost use Rattle.mrc_model.specs.Rules.{IsLeast};
ghost use Rattle.mrc_wiring.specs.Table.{wiring_of};
ghost use Rattle.mrc_answer.specs.Notices.{AreYesNotices, no_notices};
ghost use Rattle.mrc_answer.specs.declared.answers.Answer.TheVariants as answers;
ghost use Rattle.mrc_answer.specs.declared.faults.Fault.TheVariants as faults;

use crate::answers::{Answer, Reply};
use crate::faults::{Fault, WordFault};
use crate::files::Files;
use crate::gathering::yes_notices;
use crate::notices::no_notices;
use mrc_check::{CaseFault, Stated};
use mrc_rows::Facts;
use std::alloc::{AllocError, Global};

/// A yes of files that mean this, with what is told besides by the least set of its wiring.
pub(crate) fn yes_reply<'a>(
    alloc: Global,
    files: &Files<'_>,
    stated: Stated,
    facts: &Facts,
) -> Result<Reply<'a>, AllocError>
    requires { IsLeast (wiring_of stated.claim.table) (has facts.now) }
    ensures answer { IfOk result (λ reply. reply.answer ≡ answers.Yes) }
    ensures notices { IfOk result (λ reply.
        AreYesNotices files.now stated reply.notices) }
{
    let notices = yes_notices(alloc, files, stated, facts)?;
    Ok(Reply {
        answer: Answer::Yes,
        notices,
    })
}

/// That a text has no meaning. Nothing is told besides.
pub(crate) fn meaning_reply<'a>(alloc: Global, fault: CaseFault) -> Reply<'a>
    ensures answer { result.answer ≡ answers.Fault (faults.Meaning fault) }
    ensures notices { result.notices ≡ no_notices }
{
    Reply {
        answer: Answer::Fault(Fault::Meaning(fault)),
        notices: no_notices(alloc),
    }
}

/// That the line which is asked for is not broken. Nothing is told besides.
pub(crate) fn unbroken_reply<'a>(alloc: Global) -> Reply<'a>
    ensures answer { result.answer ≡ answers.Fault (faults.Word WordFault.NotBroken) }
    ensures notices { result.notices ≡ no_notices }
{
    Reply {
        answer: Answer::Fault(Fault::Word(WordFault::NotBroken)),
        notices: no_notices(alloc),
    }
}
