//! Short derivations that conclude none of certain facts.

ghost use Rattle.std.specs.Prelude.{IfOk, IfSome, IsTrue};
ghost use Rattle.std.specs.List.{All, Contains};
ghost use Rattle.mrc_wiring.specs.Table.{wiring_of};
ghost use Rattle.mrc_closure.specs.Chains.{IsChain};

use crate::checked::{concludes, steps_by};
use crate::derivation::Search;
use mrc_base::Fact;
use mrc_classes::Rules;
use mrc_closure::{Step, rounds_without};
use std::alloc::{AllocError, Global};

/// Whether no step concludes one of the barred facts.
fn are_without(steps: &[Step], barred: &[Fact]) -> bool
    ensures { IsTrue result → All (λ s. Contains barred.now s.fact → ⊥) steps.now }
{
    steps.iter().all(|step| !barred.contains(&step.fact))
}

/// A short derivation of the fact by the ten rules, from nothing, none of whose steps concludes a
/// barred fact. None if the search finds no such.
pub fn chain_without(
    alloc: Global,
    rules: &Rules,
    fact: Fact,
    barred: &[Fact],
) -> Result<Option<Vec<Step>>, AllocError>
    ensures some { IfOk result (λ answer. IfSome answer (λ steps.
        IsChain (wiring_of rules.now) fact steps.items)) }
    ensures without { IfOk result (λ answer. IfSome answer (λ steps.
        All (λ s. Contains barred.now s.fact → ⊥) steps.items)) }
{
    let rounds = rounds_without(alloc, rules, &fact, barred)?;
    if !rounds.facts().has(&fact) {
        return Ok(None);
    }
    let mut search = Search::new(alloc);
    let proposals = search.proposals(alloc, rules, &rounds, fact)?;
    let steps = steps_by(alloc, rules, &proposals)?;
    if concludes(steps.as_slice(), fact) && are_without(steps.as_slice(), barred) {
        Ok(Some(steps))
    } else {
        Ok(None)
    }
}
