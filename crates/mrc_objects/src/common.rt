//! The fact that most chains of broken lines have in common.

use mrc_base::{ClassId, Fact, PortRight};
use mrc_check::Demand;
use mrc_classes::RuleName;
use mrc_closure::Step;
use mrc_facts::ListedFacts;
use mrc_why::{Broken, is_waived, is_waived_line};
use mrc_wiring::Wired;
use std::alloc::{AllocError, Global};
use std::collections::BTreeMap;

/// A fact that is in the chains of several broken lines.
#[derive(Clone, Copy, Debug, PartialEq, Eq)]
pub struct Common {
    /// The fact.
    pub fact: Fact,
    /// How many chains have it.
    pub chains: usize,
}

/// In how many chains each fact is.
type Counts = BTreeMap<Fact, usize>;

/// In how many chains the fact is.
fn times(counts: &Counts, fact: &Fact) -> usize {
    counts.get(fact).copied().unwrap_or(0)
}

/// Counts each fact of a chain once more. A fact that two steps conclude is counted once.
fn count_chain(alloc: Global, counts: &mut Counts, steps: &[Step]) -> Result<(), AllocError> {
    let mut seen = ListedFacts::new(alloc);
    for step in steps {
        if seen.insert(step.fact)? {
            let count = times(counts, &step.fact).saturating_add(1);
            let _ = counts.insert(step.fact, count)?;
        }
    }
    Ok(())
}

/// In how many chains each fact is.
fn counts_of(alloc: Global, broken: &[&Broken]) -> Result<Counts, AllocError> {
    let mut counts = BTreeMap::new(alloc);
    for line in broken {
        count_chain(alloc, &mut counts, line.steps())?;
    }
    Ok(counts)
}

/// Whether the class is that of the task's own kernel port.
fn is_own(wired: &Wired, task: u16, class: ClassId) -> bool {
    class.0.checked_sub(wired.ports()) == Some(task)
}

/// Whether the conclusion of a step says anything as a cause: not if it is no hold, if a line that
/// makes a task or a port gives it, or if it only follows from another right of the task there.
fn is_eligible(wired: &Wired, step: &Step) -> bool {
    let Fact::Hold { task, class, right } = step.fact else {
        return false;
    };
    match step.rule {
        RuleName::First => right != PortRight::Receive && !is_own(wired, task, class),
        RuleName::Births | RuleName::Weaker => false,
        RuleName::Slot
        | RuleName::Reply
        | RuleName::Received
        | RuleName::KernelPort
        | RuleName::Request
        | RuleName::Notice
        | RuleName::Returned => true,
    }
}

/// Of the facts of a chain that are in most chains, and in two at least, the last.
fn last_of(wired: &Wired, counts: &Counts, steps: &[Step]) -> Option<Common> {
    steps
        .iter()
        .filter(|step| is_eligible(wired, step))
        .map(|step| Common {
            fact: step.fact,
            chains: times(counts, &step.fact),
        })
        .filter(|common| common.chains >= 2)
        .max_by_key(|common| common.chains)
}

/// Those of the broken lines that none of the demands waives.
pub fn unwaived<'a>(
    alloc: Global,
    told: &[Demand],
    broken: &'a [Broken],
) -> Result<Vec<&'a Broken>, AllocError> {
    let waived: Vec<Demand> = told
        .iter()
        .copied()
        .filter(|demand| is_waived(demand))
        .collect(alloc)?;
    broken
        .iter()
        .filter(|line| !is_waived_line(&waived, line.line()))
        .collect(alloc)
}

/// The fact that is in the chains of most of these lines, of two at least: a hold that no line
/// which makes a task or a port gives, and that no step of K2 or K3 concludes. Of several it is the
/// last in the first chain that has one.
pub fn common_of(
    alloc: Global,
    wired: &Wired,
    broken: &[&Broken],
) -> Result<Option<Common>, AllocError> {
    let counts = counts_of(alloc, broken)?;
    Ok(
        broken
            .iter()
            .rev()
            .filter_map(|line| last_of(wired, &counts, line.steps()))
            .max_by_key(|common| common.chains),
    )
}
