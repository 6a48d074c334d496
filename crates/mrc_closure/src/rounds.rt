//! The least closed set, in rounds.

ghost use Rattle.std.specs.Prelude.{IsTrue, false, ◌≡◌, ◌<◌, [], length, IfOk, OnOk};
ghost use Rattle.mrc_base.specs.declared.Fact.{Fact};
ghost use Rattle.mrc_model.specs.Wiring.{classes};
ghost use Rattle.mrc_model.specs.Rules.{IsLeast};
ghost use Rattle.mrc_wiring.specs.Table.{wiring_of};
ghost use Rattle.mrc_facts.specs.Sets.{has, IsAscending};
ghost use Rattle.mrc_classes.specs.Growing.{Added};
ghost use Rattle.mrc_classes.specs.Following.{IsListOf, IsFirstFact};
ghost use Rattle.mrc_certificate.specs.Spelling.{content};
ghost use Rattle.mrc_closure.specs.Merging.{Merged, IsNextRound};
ghost use Rattle.mrc_closure.specs.Dealing.{AtTurn, FromDealt, IsFind};
ghost use Rattle.mrc_closure.specs.Least.{IsLeastList};

use mrc_base::Fact;
use mrc_certificate::Draft;
use mrc_classes::{Facts, Rules, conclude_at, first_conclusions};
use mrc_wiring::Wired;
use std::alloc::{AllocError, Global};

/// Puts what follows from a new fact at the place, and the set lacks, into `found`, if this is the
/// worker's turn.
fn conclude_in_turn(
    rules: &Rules,
    facts: &Facts,
    new: &Facts,
    place: u16,
    worker: usize,
    workers: usize,
    found: &mut Facts,
) -> Result<(), AllocError>
    requires { 0 < workers }
    ensures { OnOk result (Added (has found.old) (has found.new)
        (AtTurn (wiring_of rules.now) facts.now new.now worker workers place)) }
{
    if place as usize % workers == worker {
        conclude_at(rules, facts, new, facts, place, found)?;
    }
    Ok(())
}

/// What follows from a new fact, with those of the set, and the set lacks, at the places of one of
/// so many workers: at each task and class whose number leaves the worker's, divided by the number
/// of workers.
pub(crate) fn round(
    alloc: Global,
    rules: &Rules,
    facts: &Facts,
    new: &Facts,
    worker: usize,
    workers: usize,
) -> Result<Facts, AllocError>
    requires { 0 < workers }
    ensures { IsFind (wiring_of rules.now) facts.now new.now worker workers result }
{
    let mut found = Facts::new(alloc);
    for place in 0..rules.classes() {
        conclude_in_turn(rules, facts, new, place, worker, workers, &mut found)?;
    }
    Ok(found)
}

/// Puts the found facts, which the set lacks, into it. They take the place of the new ones.
pub(crate) fn merge(facts: &mut Facts, new: &mut Facts, found: Facts) -> Result<(), AllocError>
    requires { (g : Fact) → IsTrue (has found g) → has facts.old g ≡ false }
    ensures merged { OnOk result (Merged facts.old found facts.new new.new) }
    ensures ascending { OnOk result (IsAscending facts.new) }
{
    facts.join_all(&found)?;
    *new = found;
    Ok(())
}

/// A round in this thread alone: puts what follows from the new facts, with those of the set, into
/// it. Those that are new there take the place of the new ones.
pub(crate) fn next_round(
    alloc: Global,
    rules: &Rules,
    facts: &mut Facts,
    new: &mut Facts,
) -> Result<(), AllocError>
    ensures { OnOk result (IsNextRound
        (FromDealt (wiring_of rules.now) facts.old new.old 0 1) facts.old facts.new new.new) }
{
    let found = round(alloc, rules, facts, new, 0, 1)?;
    merge(facts, new, found)
}

/// The rounds from the first facts on, until one has nothing new.
fn all_rounds(
    alloc: Global,
    rules: &Rules,
    first: Facts,
    facts: &mut Facts,
) -> Result<(), AllocError>
    requires empty { facts.old ≡ [] }
    requires first { IsListOf (IsFirstFact (wiring_of rules.now)) first }
    ensures { OnOk result (IsLeastList (wiring_of rules.now) facts.new) }
{
    let _classes = rules.classes();
    let mut new = Facts::new(alloc);
    merge(facts, &mut new, first)?;
    while !new.is_empty() {
        next_round(alloc, rules, facts, &mut new)?;
    }
    Ok(())
}

/// The least set that is closed under these rules.
fn least_of(alloc: Global, rules: &Rules) -> Result<Facts, AllocError>
    ensures { IfOk result (IsLeastList (wiring_of rules.now)) }
{
    let first = first_conclusions(alloc, rules)?;
    let mut facts = Facts::new(alloc);
    all_rounds(alloc, rules, first, &mut facts)?;
    Ok(facts)
}

/// The least closed set.
fn least_set(alloc: Global, wired: &Wired) -> Result<Facts, AllocError>
    ensures { IfOk result (IsLeastList (wiring_of wired.now)) }
{
    let rules = Rules::new(alloc, wired)?;
    let least = least_of(alloc, &rules);
    drop(rules);
    least
}

/// The certificate of the wiring: the least set that is closed under the ten rules, with the
/// wiring's numbers of tasks, classes and classes of births. In this thread alone.
pub fn make_alone(alloc: Global, wired: &Wired) -> Result<Draft, AllocError>
    ensures least { IfOk result (λ draft.
        IsLeast (wiring_of wired.now) (has (content draft).facts)) }
    ensures tasks { IfOk result (λ draft.
        (content draft).tasks ≡ (wiring_of wired.now).tasks) }
    ensures class_count { IfOk result (λ draft.
        (content draft).classes ≡ classes (wiring_of wired.now)) }
    ensures births { IfOk result (λ draft.
        (content draft).births ≡ length (wiring_of wired.now).births) }
{
    let facts = least_set(alloc, wired)?;
    Ok(Draft {
        tasks: wired.tasks(),
        classes: wired.classes(),
        births: wired.birth_classes(),
        facts,
    })
}
