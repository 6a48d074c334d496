//! How much changes leave to be mended.

ghost use Rattle.std.specs.Prelude.{◌≡◌, IfOk};

use crate::changes::{Change, mended};
use crate::judging::{Texts, stated_over};
use crate::losing::{First, lost};
use mrc_base::OrMemory;
use mrc_check::first_exposed;
use mrc_classes::Facts;
use mrc_closure::make_alone;
use mrc_why::forbidden_fact;
use mrc_wiring::{Claim, ForbiddenLine, Interfaces};
use std::alloc::{AllocError, Global};
use std::collections::BTreeMap;

/// How much changes leave to be mended.
#[derive(Clone, Copy, Debug)]
pub(crate) struct Weight {
    /// How many of the lines that were broken at first are so still.
    pub(crate) lines: usize,
    /// Whether a task could rewrite a trusted one.
    pub(crate) is_exposed: bool,
    /// How many facts of the first least set are lost.
    pub(crate) lost: usize,
}

/// The numbers of the lines that forbid one of the facts.
pub(crate) fn broken_numbers(
    alloc: Global,
    lines: &[ForbiddenLine],
    facts: &Facts,
) -> Result<BTreeMap<u32, ()>, AllocError> {
    let mut broken = BTreeMap::new(alloc);
    for line in lines {
        if facts.has(&forbidden_fact(line)) {
            let _ = broken.insert(line.line, ())?;
        }
    }
    Ok(broken)
}

/// How many of the lines that were broken at first forbid one of the facts.
fn lines_left(first: &First<'_>, claim: &Claim, facts: &Facts) -> usize {
    let mut left = 0usize;
    for line in claim.lines() {
        if first.broken.get(&line.line).is_some() && facts.has(&forbidden_fact(line)) {
            left = left.saturating_add(1);
        }
    }
    left
}

/// How much is left of a claim whose least set has these facts.
fn weight_by(
    alloc: Global,
    first: &First<'_>,
    claim: &Claim,
    facts: &Facts,
) -> Result<Weight, AllocError> {
    Ok(Weight {
        lines: lines_left(first, claim, facts),
        is_exposed: first_exposed(claim.wired(), facts).is_some(),
        lost: lost(alloc, first, claim.wired(), facts)?,
    })
}

/// How much is left of the claim.
fn weight_of(alloc: Global, first: &First<'_>, claim: &Claim) -> Result<Weight, AllocError> {
    let made = make_alone(alloc, claim.wired())?;
    let weight = weight_by(alloc, first, claim, &made.facts);
    drop(made);
    weight
}

/// How much the changes leave, if the text with them has a meaning. The interfaces come back,
/// unless memory runs out.
pub(crate) fn weighed(
    alloc: Global,
    interfaces: Interfaces,
    texts: &Texts<'_>,
    first: &First<'_>,
    changes: &[Change],
) -> Result<(Interfaces, Option<Weight>), AllocError>
    ensures { IfOk result (λ weighed. weighed.0 ≡ interfaces) }
{
    let text = mended(alloc, texts.wiring, changes)?;
    match stated_over(alloc, interfaces, &text, texts.policy) {
        Ok(stated) => {
            let weight = weight_of(alloc, first, &stated.claim);
            let interfaces = stated.claim.into_wired().into_interfaces();
            match weight {
                Ok(weight) => Ok((interfaces, Some(weight))),
                Err(error) => {
                    drop(interfaces);
                    Err(error)
                }
            }
        }
        Err((interfaces, refusal)) => match refusal {
            OrMemory::Fault(_) => Ok((interfaces, None)),
            OrMemory::Memory => Err(AllocError),
        },
    }
}
