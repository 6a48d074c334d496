//! Claims that were checked.

ghost use Rattle.std.specs.Prelude.{◌≡◌, ◌↔◌, IfOk, IfErr, IsTrue};
ghost use Rattle.mrc_base.specs.Reading.{UnlessMemory};
ghost use Rattle.mrc_certificate.specs.Spelling.{content};
ghost use Rattle.mrc_check.specs.Verdict.{IsAccepted, IsWhy};

use crate::verdict::{Why, judge};
use mrc_base::OrMemory;
use mrc_certificate::Draft;
use mrc_wiring::{Claim, Wired};
use std::alloc::{AllocError, Global};
use std::marker::Model;
use std::thread::Threads;

/// A claim with a certificate that was accepted for it: its facts are closed under the ten rules,
/// by none of them could a task rewrite a trusted one, and none is forbidden. Only [`check`] and
/// [`Confined::copy`] make one.
#[derive(Debug, Drop)]
pub struct Confined {
    claim: Claim,
    draft: Draft,
}

impl Model for Confined {
    ghost use Rattle.mrc_certificate.specs.Spelling.{content};
    ghost use Rattle.mrc_check.specs.Verdict.{Case, IsAccepted};

    ghost Value = { Case };

    ghost view = { λ c. record { claim = c.claim; draft = content c.draft } };

    ghost invariant = { λ c. IsAccepted c.claim (content c.draft) };
}

/// A claim and a certificate that was refused for it, as they were handed in.
#[derive(Debug, Drop)]
pub struct Refused<W> {
    /// The claim.
    pub claim: Claim,
    /// The certificate.
    pub draft: Draft,
    /// Why it was refused.
    pub why: W,
}

/// Accepts the certificate for the claim if and only if it has the wiring's numbers of tasks and
/// classes, its facts are closed under the ten rules, by none of them could a task rewrite a
/// trusted one, and none is forbidden. If not, it returns the first reason, or that memory ran out,
/// with both. What the rules conclude and the draft lacks is looked for by as many threads as there
/// are processors.
pub fn check(
    rt: &(impl Threads + Sync),
    alloc: Global,
    claim: Claim,
    draft: Draft,
) -> Result<Confined, Refused<OrMemory<Why>>>
    // What is accepted may be, and is what was handed in.
    ensures found { IfOk result (λ c. IsAccepted claim (content draft)
        × (c ≡ record { claim = claim; draft = content draft })) }
    // What may be accepted is, unless memory runs out.
    ensures only { IsAccepted claim (content draft) → IfErr result (λ r. r.why ≡ OrMemory.Memory) }
    // Which reason it is: the first.
    ensures fault { IfErr result (λ r. UnlessMemory (IsWhy claim (content draft)) r.why) }
    ensures returned { IfErr result (λ r. (r.claim ≡ claim) × (content r.draft ≡ content draft)) }
{
    match judge(rt, alloc, &claim, &draft) {
        Ok(()) => Ok(Confined { claim, draft }),
        Err(why) => Err(Refused { claim, draft, why }),
    }
}

impl Confined {
    /// The wiring.
    pub fn wired(&self) -> &Wired
        ensures exact { result.now ≡ self.now.claim.table }
        ensures kept { IsAccepted self.now.claim self.now.draft }
    {
        self.claim.wired()
    }

    /// An equal claim, checked as this one was.
    pub fn copy(&self, alloc: Global) -> Result<Confined, AllocError>
        ensures { IfOk result (λ copy. copy ≡ self.now) }
    {
        let claim = self.claim.copy(alloc)?;
        match self.draft.copy() {
            Ok(draft) => Ok(Confined { claim, draft }),
            Err(error) => {
                drop(claim);
                Err(error)
            }
        }
    }

    /// Whether claim and certificate are equal.
    pub fn same(&self, other: &Confined) -> bool
        ensures { IsTrue result ↔ (self.now ≡ other.now) }
    {
        self.claim.same(&other.claim) && self.draft.same(&other.draft)
    }
}
