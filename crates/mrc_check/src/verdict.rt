//! Claims and certificates: accepted or refused.

ghost use Rattle.std.specs.Prelude.{◌≡◌, ◌↔◌, IsTrue, None, IfOk, OnOk, IfErr, IfSome, IfNone};
ghost use Rattle.mrc_base.specs.Reading.{UnlessMemory};
ghost use Rattle.mrc_certificate.specs.Spelling.{content};
ghost use Rattle.mrc_facts.specs.Sets.{has};
ghost use Rattle.mrc_classes.specs.Missing.{IsAnswer};
ghost use Rattle.mrc_wiring.specs.Table.{wiring_of};
ghost use Rattle.mrc_check.specs.Trusted.{AreSecure};
ghost use Rattle.mrc_check.specs.Verdict.{HasCounts, IsAccepted, IsObjection, IsWhy};
ghost use Rattle.mrc_check.specs.Verdict.{first_broken, reason};

use crate::trusted::first_exposed;
use mrc_base::{Fact, OrMemory};
use mrc_certificate::Draft;
use mrc_classes::{Facts, Missing, RuleName, violation_by};
use mrc_wiring::{Claim, ForbiddenLine};
use std::alloc::{AllocError, Global};
use std::thread::Threads;

/// Why a certificate is refused: the first reason, in the order here.
#[derive(Clone, Copy, Debug, PartialEq, Eq)]
pub enum Why {
    /// The certificate has another number of tasks, of classes or of classes of births than the
    /// wiring.
    Counts,
    /// The certificate lacks this hold of the first state (K1), or this receive right of births
    /// (K2).
    MissingFirst(Fact),
    /// The certificate lacks this conclusion of the rule.
    NotClosed(RuleName, Fact),
    /// The certificate has this hold of a trusted task's kernel port, by a task that could rewrite
    /// the trusted task. The wiring's line of this number is the first about the trusted task.
    Trusted(u32, Fact),
    /// The certificate has what the policy's line of this number forbids.
    Forbidden(u32),
}

/// The number of the first line that forbids a hold of the set.
fn first_broken(facts: &Facts, lines: &[ForbiddenLine]) -> Option<u32>
    ensures { result ≡ first_broken facts.now lines.now }
{
    for line in lines {
        let broken = facts.has(&Fact::Hold {
            task: line.task,
            class: line.class,
            right: line.right,
        });
        if broken {
            return Some(line.line);
        }
    }
    None
}

/// The reason as it is told: what the first two rules conclude is there from the first.
fn reason(rule: RuleName, fact: Fact) -> Why
    ensures { result ≡ reason rule fact }
{
    match rule {
        RuleName::First | RuleName::Births => Why::MissingFirst(fact),
        RuleName::Weaker
        | RuleName::Slot
        | RuleName::Reply
        | RuleName::Received
        | RuleName::KernelPort
        | RuleName::Request
        | RuleName::Notice
        | RuleName::Returned => Why::NotClosed(rule, fact),
    }
}

/// Whether the draft has the wiring's numbers of tasks, classes and classes of births.
fn has_counts(claim: &Claim, draft: &Draft) -> bool
    ensures { IsTrue result ↔ HasCounts claim.now (content draft.now) }
{
    let wired = claim.wired();
    draft.tasks == wired.tasks()
        && draft.classes == wired.classes()
        && draft.births == wired.birth_classes()
}

/// The first fact that the draft lacks, with its rule.
fn first_missing(
    rt: &(impl Threads + Sync),
    alloc: Global,
    claim: &Claim,
    draft: &Draft,
) -> Result<Option<Missing>, AllocError>
    ensures { IfOk result
        (IsAnswer (wiring_of claim.now.table) (has (content draft.now).facts)) }
{
    violation_by(rt, alloc, claim.wired(), &draft.facts)
}

/// The first reason why a closed draft is refused.
fn first_objection(claim: &Claim, facts: &Facts) -> Option<Why>
    ensures none { IfNone result
        (AreSecure (wiring_of claim.now.table) (has facts.now) claim.now.table.trusts
        × (first_broken facts.now claim.now.lines ≡ None)) }
    ensures some { IfSome result (IsObjection claim.now facts.now) }
{
    match first_exposed(claim.wired(), facts) {
        Some((line, fact)) => Some(Why::Trusted(line, fact)),
        None => Some(Why::Forbidden(first_broken(facts, claim.lines())?)),
    }
}

/// Whether the draft is accepted, and if not, the first reason why.
pub(crate) fn judge(
    rt: &(impl Threads + Sync),
    alloc: Global,
    claim: &Claim,
    draft: &Draft,
) -> Result<(), OrMemory<Why>>
    ensures found { OnOk result (IsAccepted claim.now (content draft.now)) }
    ensures fault { IfErr result (UnlessMemory (IsWhy claim.now (content draft.now))) }
{
    if !has_counts(claim, draft) {
        return Err(OrMemory::Fault(Why::Counts));
    }
    match first_missing(rt, alloc, claim, draft)? {
        Some(missing) => Err(OrMemory::Fault(reason(missing.rule, missing.fact))),
        None => match first_objection(claim, &draft.facts) {
            Some(why) => Err(OrMemory::Fault(why)),
            None => Ok(()),
        },
    }
}
