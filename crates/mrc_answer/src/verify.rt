//! What `verify` answers of a wiring and a policy.

ghost use Rattle.std.specs.Prelude.{◌≡◌, [], true, Ok, IfOk};
ghost use Rattle.mrc_check.specs.Texts as meanings;
ghost use Rattle.mrc_why.specs.Answered.{AreTold};
ghost use Rattle.mrc_why.specs.Broken.{HasYes};
ghost use Rattle.mrc_answer.specs.Judging.{IsJudged, is_passed};
ghost use Rattle.mrc_answer.specs.Texts as texts;
ghost use Rattle.mrc_answer.specs.Verified.{IsVerified};
ghost use Rattle.mrc_answer.specs.declared.answers.Answer.TheVariants as answers;

use crate::answers::Reply;
use crate::files::Files;
use crate::judging::{Judgement, broken_reply, judged, passed_reply, waived_reply};
use crate::replies::{meaning_reply, unbroken_reply};
use mrc_base::OrMemory;
use mrc_check::Stated;
use mrc_why::line_in;
use std::alloc::{AllocError, Global};

/// What is answered of a system that is passed: a yes, and what is waived, of all lines or of one.
fn passed<'a>(
    alloc: Global,
    files: &Files<'_>,
    stated: Stated,
    found: Judgement,
    line: Option<usize>,
) -> Result<Reply<'a>, AllocError>
    requires says { texts.stated files.now.texts ≡ Ok stated }
    requires judged { IsJudged stated found }
    requires passed { is_passed found ≡ true }
    ensures right { IfOk result (λ reply.
        IsVerified line files.now reply.answer reply.notices) }
    ensures only { found.told.items ≡ [] → IfOk result (λ reply. reply.answer ≡ answers.Yes) }
{
    match line {
        None => {
            if found.told.is_empty() {
                passed_reply(alloc, files, stated, found)
            } else {
                waived_reply(alloc, files, stated, found, None, None)
            }
        }
        Some(number) => match line_in(found.told.as_slice(), number) {
            Some(own) => waived_reply(alloc, files, stated, found, line, Some(own)),
            None => passed_reply(alloc, files, stated, found),
        },
    }
}

/// What is answered of files that mean this: yes, or the trusted task that another could rewrite
/// and the demands of the policy that are told.
fn stated_verified<'a>(
    alloc: Global,
    files: &Files<'_>,
    stated: Stated,
    line: Option<usize>,
) -> Result<Reply<'a>, AllocError>
    requires { texts.stated files.now.texts ≡ Ok stated }
    ensures right { IfOk result (λ reply.
        IsVerified line files.now reply.answer reply.notices) }
    ensures only { HasYes stated.claim → AreTold stated []
        → IfOk result (λ reply. reply.answer ≡ answers.Yes) }
{
    let found = match judged(alloc, &stated) {
        Ok(found) => found,
        Err(error) => {
            drop(stated);
            return Err(error);
        }
    };
    if found.is_passed() {
        return passed(alloc, files, stated, found, line);
    }
    match line {
        None => broken_reply(alloc, files, stated, found, None, None),
        Some(number) => match line_in(found.told.as_slice(), number) {
            Some(own) => broken_reply(alloc, files, stated, found, line, Some(own)),
            None => {
                drop((stated, found));
                Ok(unbroken_reply(alloc))
            }
        },
    }
}

/// What is answered of a wiring and a policy: yes, or the trusted task that another could rewrite
/// and what is told of the policy's demands; with `line` only of the line of this number.
pub fn verified<'a>(
    alloc: Global,
    files: &Files<'_>,
    line: Option<usize>,
) -> Result<Reply<'a>, AllocError>
    ensures right { IfOk result (λ reply.
        IsVerified line files.now reply.answer reply.notices) }
    // If the least set is a yes, and nothing is told of the policy's demands, that is answered,
    // unless memory runs out.
    ensures only { (meant : meanings.Stated) → texts.stated files.now.texts ≡ Ok meant
        → HasYes meant.claim → AreTold meant []
        → IfOk result (λ reply. reply.answer ≡ answers.Yes) }
{
    match Stated::read(
        alloc,
        files.texts.defs.as_slice(),
        files.texts.wiring.as_slice(),
        &files.texts.asked_policy(),
    ) {
        Ok(stated) => stated_verified(alloc, files, stated, line),
        Err(OrMemory::Fault(fault)) => Ok(meaning_reply(alloc, fault)),
        Err(OrMemory::Memory) => Err(AllocError),
    }
}
