//! The facts of a certificate that may be given, or those of the least set.

ghost use Rattle.std.specs.Prelude.{◌≡◌, Some, Err, IfOk, IfErr, IfSome, IfNone};
ghost use Rattle.mrc_base.specs.Reading.{UnlessMemory};
ghost use Rattle.mrc_certificate.specs.Spelling.{content};
ghost use Rattle.mrc_check.specs.Texts.{meaningless};
ghost use Rattle.mrc_answer.specs.Listed.{draft_given, IsOfWiring, AreOfDraft, AreFactsOf};
ghost use Rattle.mrc_answer.specs.Listed.{IsOfAnother, IsOtherIfGiven};

use crate::files::Texts;
use mrc_base::OrMemory;
use mrc_certificate::{Draft, read_draft};
use mrc_check::CaseFault;
use mrc_closure::make_alone;
use mrc_rows::Facts;
use mrc_wiring::Wired;
use std::alloc::Global;

/// The facts of a draft, if it has the wiring's numbers.
fn facts_of_draft(wired: &Wired, draft: Draft) -> Option<Facts>
    ensures some { IfSome result (λ facts.
        IsOfWiring wired.now (content draft) × (facts ≡ (content draft).facts)) }
    ensures none { IfNone result (IsOfWiring wired.now (content draft) → ⊥) }
{
    let counts = draft.tasks == wired.tasks()
        && draft.classes == wired.classes()
        && draft.births == wired.birth_classes();
    if counts { Some(draft.facts) } else { None }
}

/// The facts of the certificate that the bytes encode, or none if it has other numbers than the
/// wiring.
fn facts_read(
    alloc: Global,
    wired: &Wired,
    bytes: &[u8],
) -> Result<Option<Facts>, OrMemory<CaseFault>>
    ensures some { IfOk result (λ facts. IfSome facts (AreOfDraft wired.now bytes.now)) }
    ensures none { IfOk result (λ facts. IfNone facts (IsOfAnother wired.now bytes.now)) }
    ensures fault { IfErr result (UnlessMemory
        (λ fault. draft_given (Some bytes.now) ≡ Err (meaningless fault))) }
{
    match read_draft(alloc, bytes) {
        Ok(draft) => Ok(facts_of_draft(wired, draft)),
        Err(refusal) => Err(refusal.map_fault(CaseFault::Certificate)),
    }
}

/// The facts of a certificate, if it is given, and else those of the least set; or none if the
/// certificate has other numbers than the wiring.
pub(crate) fn facts_given(
    alloc: Global,
    wired: &Wired,
    texts: &Texts,
) -> Result<Option<Facts>, OrMemory<CaseFault>>
    ensures some { IfOk result (λ facts.
        IfSome facts (AreFactsOf wired.now texts.now.certificate)) }
    ensures none { IfOk result (λ facts.
        IfNone facts (IsOtherIfGiven wired.now texts.now.certificate)) }
    ensures fault { IfErr result (UnlessMemory
        (λ fault. draft_given texts.now.certificate ≡ Err (meaningless fault))) }
{
    match &texts.certificate {
        Some(bytes) => facts_read(alloc, wired, bytes.as_slice()),
        None => {
            let draft = make_alone(alloc, wired)?;
            Ok(Some(draft.facts))
        }
    }
}
