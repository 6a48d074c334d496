//! What all broken lines of a policy have in common.

ghost use Rattle.std.specs.Prelude.{IfOk, IfSome, IsTrue};
ghost use Rattle.std.specs.List.{All, Contains};
ghost use Rattle.mrc_closure.specs.Chains.{place_list};
ghost use Rattle.mrc_mend.specs.Causes.{IsConcluded, AreShared, IsCauseOf, IsCause};
ghost use Rattle.mrc_mend.specs.Causes.{IsUsed, HaveNoIdle, IsUsedUp};

use mrc_base::{ClassId, Fact, PortRight};
use mrc_classes::RuleName;
use mrc_closure::{Places, Step};
use mrc_why::{Broken, verify};
use mrc_wiring::{Claim, Wired};
use mrc_words::fact_text;
use std::alloc::{AllocError, Global};

/// A fact that is in the chains of all broken lines.
#[derive(Debug, Drop)]
pub struct Cause {
    /// How many lines are broken.
    pub lines: usize,
    /// The fact as it is printed.
    pub fact: String,
}

/// Whether the place is among these.
fn has_place(places: Places, place: usize) -> bool
    ensures { IsTrue result → Contains (place_list places) place }
{
    match places {
        Places::Empty => false,
        Places::One(one) => one == place,
        Places::Two(one, other) => one == place || other == place,
    }
}

/// Whether a step has the one at this place among its premises.
fn is_used(steps: &[Step], place: usize) -> bool
    ensures { IsTrue result → IsUsed steps.now place }
{
    for step in steps {
        if has_place(step.premises, place) {
            return true;
        }
    }
    false
}

/// Whether each step but the last is a premise of another. A chain is short, so that each is looked
/// for by itself.
fn have_no_idle(steps: &[Step]) -> bool
    ensures { IsTrue result → HaveNoIdle steps.now }
{
    for place in 1..steps.len() {
        if !is_used(steps, place - 1) {
            return false;
        }
    }
    true
}

/// Whether no chain has an idle step.
fn are_used_up(broken: &[Broken]) -> bool
    ensures { IsTrue result → All IsUsedUp broken.now }
{
    for line in broken {
        if !have_no_idle(line.steps()) {
            return false;
        }
    }
    true
}

/// Whether a step concludes the fact.
fn is_concluded(steps: &[Step], fact: &Fact) -> bool
    ensures { IsTrue result → IsConcluded fact.now steps.now }
{
    for step in steps {
        if step.fact == *fact {
            return true;
        }
    }
    false
}

/// Whether a step of each chain concludes the fact.
fn is_shared(broken: &[Broken], fact: &Fact) -> bool
    ensures { IsTrue result → AreShared broken.now fact.now }
{
    for line in broken {
        if !is_concluded(line.steps(), fact) {
            return false;
        }
    }
    true
}

/// How much the conclusion of a step says as a cause: nothing if it is no hold, or if the task has
/// it by itself; less if a line gives it.
fn weight(wired: &Wired, step: &Step) -> u8 {
    let Fact::Hold { task, class, right } = step.fact else {
        return 0;
    };
    let is_own = class == ClassId(wired.ports().saturating_add(task));
    match step.rule {
        RuleName::First if is_own || right == PortRight::Receive => 0,
        RuleName::First => 1,
        RuleName::Births | RuleName::Weaker => 0,
        _ => 2,
    }
}

/// The fact that the chains share and that says most: the last such in the first of the chains.
fn shared_fact(wired: &Wired, first: &[Step], broken: &[Broken]) -> Option<Fact>
    ensures { IfSome result (AreShared broken.now) }
{
    let mut found = None;
    let mut most = 1u8;
    for step in first {
        let weight = weight(wired, step);
        if weight >= most && is_shared(broken, &step.fact) {
            found = Some(step.fact);
            most = weight;
        }
    }
    found
}

/// What two or more broken lines have in common, if no chain has an idle step: what that concludes
/// need not be in the chain.
fn cause_of_lines(
    alloc: Global,
    claim: &Claim,
    broken: &[Broken],
) -> Result<Option<Cause>, AllocError>
    ensures { IfOk result (λ cause. IfSome cause (IsCauseOf claim.now.table broken.now)) }
{
    let wired = claim.wired();
    let [first, _, ..] = broken else {
        return Ok(None);
    };
    if !are_used_up(broken) {
        return Ok(None);
    }
    match shared_fact(wired, first.steps(), broken) {
        Some(fact) => {
            let fact = fact_text(alloc, wired, fact)?;
            let lines = broken.len();
            Ok(Some(Cause { lines, fact }))
        }
        None => Ok(None),
    }
}

/// What the broken lines of the claim's policy have in common, if they are two or more.
pub(crate) fn cause_of(alloc: Global, claim: &Claim) -> Result<Option<Cause>, AllocError>
    ensures { IfOk result (λ cause. IfSome cause (IsCause claim.now)) }
{
    let verdict = verify(alloc, claim)?;
    let cause = cause_of_lines(alloc, claim, &verdict.broken);
    drop(verdict);
    cause
}
