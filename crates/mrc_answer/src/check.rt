//! What `check` answers of a certificate.

ghost use Rattle.std.specs.Prelude.{◌≡◌, IfOk, IfErr};
ghost use Rattle.mrc_base.specs.Reading.{UnlessMemory};
ghost use Rattle.mrc_check.specs.Verdict.{Case};
ghost use Rattle.mrc_check.specs.Texts.{IsTold, Tells};
ghost use Rattle.mrc_answer.specs.Checked.{IsChecked};
ghost use Rattle.mrc_answer.specs.Notices.{left_out_and_trusted};
ghost use Rattle.mrc_answer.specs.Texts.{AreAccepted, case};
ghost use Rattle.mrc_answer.specs.declared.answers.Answer.TheVariants as answers;

use crate::answers::{Answer, Reply};
use crate::files::{Files, Texts};
use crate::gathering::{accepted_notices, refused_notices};
use crate::replies::meaning_reply;
use mrc_base::OrMemory;
use mrc_check::{Confined, Refused, TextsFault, Why, check_texts};
use mrc_wiring::Wired;
use std::alloc::{AllocError, Global};
use std::thread::Threads;

/// The checker's answer to texts.
pub(crate) fn answer_of<R: Threads + Sync>(
    rt: &R,
    alloc: Global,
    texts: &Texts,
) -> Result<Confined, OrMemory<TextsFault>>
    ensures yes { IfOk result (AreAccepted texts.now) }
    ensures only { (judged : Case) → AreAccepted texts.now judged
        → IfErr result (λ refusal. refusal ≡ OrMemory.Memory) }
    ensures told { Tells result (case texts.now) }
{
    check_texts(
        rt,
        alloc,
        texts.defs.as_slice(),
        texts.wiring.as_slice(),
        &texts.asked_policy(),
        texts.certificate(),
    )
}

/// A yes of files whose certificate is accepted for this wiring.
fn yes_reply<'a>(alloc: Global, files: &Files<'_>, wired: &Wired) -> Result<Reply<'a>, AllocError>
    ensures answer { IfOk result (λ reply. reply.answer ≡ answers.Yes) }
    ensures notices { IfOk result (λ reply.
        reply.notices ≡ left_out_and_trusted files.now wired.now) }
{
    let notices = accepted_notices(alloc, files, wired)?;
    Ok(Reply {
        answer: Answer::Yes,
        notices,
    })
}

/// What is answered of texts that are accepted as this.
fn accepted<'a>(
    alloc: Global,
    files: &Files<'_>,
    confined: Confined,
) -> Result<Reply<'a>, AllocError>
    requires { AreAccepted files.now.texts confined }
    ensures right { IfOk result (λ reply. IsChecked files.now reply.answer reply.notices) }
    ensures yes { IfOk result (λ reply. reply.answer ≡ answers.Yes) }
{
    let reply = yes_reply(alloc, files, confined.wired());
    drop(confined);
    reply
}

/// What is answered of texts that have a meaning and are refused.
fn refused<'a>(
    alloc: Global,
    files: &Files<'_>,
    refused: Refused<Why>,
) -> Result<Reply<'a>, AllocError>
    requires { IsTold (TextsFault.Check refused) (case files.now.texts) }
    ensures { IfOk result (λ reply. IsChecked files.now reply.answer reply.notices) }
{
    match refused_notices(alloc, files) {
        Ok(notices) => Ok(Reply {
            answer: Answer::Refused(refused),
            notices,
        }),
        Err(error) => {
            drop(refused);
            Err(error)
        }
    }
}

/// What is answered of texts that are not accepted: the first reason why. Out of memory is none.
fn unaccepted<'a>(
    alloc: Global,
    files: &Files<'_>,
    refusal: OrMemory<TextsFault>,
) -> Result<Reply<'a>, AllocError>
    requires { UnlessMemory (λ fault. IsTold fault (case files.now.texts)) refusal }
    ensures right { IfOk result (λ reply. IsChecked files.now reply.answer reply.notices) }
    ensures memory { refusal ≡ OrMemory.Memory → IfOk result (λ _. ⊥) }
{
    match refusal {
        OrMemory::Fault(TextsFault::Check(reason)) => refused(alloc, files, reason),
        OrMemory::Fault(TextsFault::Meaning(fault)) => Ok(meaning_reply(alloc, fault)),
        OrMemory::Memory => Err(AllocError),
    }
}

/// What is answered of a certificate: yes, or the first reason why it is refused.
pub fn checked<'a, R: Threads + Sync>(
    rt: &R,
    alloc: Global,
    files: &Files<'_>,
) -> Result<Reply<'a>, AllocError>
    ensures right { IfOk result (λ reply. IsChecked files.now reply.answer reply.notices) }
    // If the checker accepts the texts, yes is answered, unless memory runs out.
    ensures only { (judged : Case) → AreAccepted files.now.texts judged
        → IfOk result (λ reply. reply.answer ≡ answers.Yes) }
{
    match answer_of(rt, alloc, &files.texts) {
        Ok(confined) => accepted(alloc, files, confined),
        Err(refusal) => unaccepted(alloc, files, refusal),
    }
}
