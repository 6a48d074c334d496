//! Rounds that never conclude certain facts.

ghost use Rattle.std.specs.Prelude.{◌≡◌, ◌++◌, [], IsTrue, OnOk, IfOk};
ghost use Rattle.mrc_base.specs.declared.Fact.{Fact};
ghost use Rattle.mrc_wiring.specs.Table.{wiring_of};
ghost use Rattle.mrc_facts.specs.Sets.{has, IsAscending};
ghost use Rattle.mrc_classes.specs.Following.{IsFirstFact};
ghost use Rattle.mrc_closure.specs.Barred.{IsWithout, IsBarredRound};
ghost use Rattle.mrc_closure.specs.Orders.{IsOnce, IsOrder, HaveSame};

use crate::chains::{Rounds, list_all};
use crate::rounds::{merge, round};
use mrc_base::Fact;
use mrc_classes::{Facts, Rules, first_conclusions};
use std::alloc::{AllocError, Global};

/// How many rounds there are at most.
const ROUNDS: usize = 4096;

/// Removes the barred facts.
fn bar(found: &mut Facts, barred: &[Fact])
    ensures fewer { (g : Fact) → IsTrue (has found.new g) → IsTrue (has found.old g) }
    ensures without { IsWithout barred.now found.new }
{
    for fact in barred {
        found.remove(fact);
    }
}

/// A round that doesn't conclude the barred facts: puts what else follows from the new facts, with
/// those of the set, into it. Those that are new there take the place of the new ones.
fn round_without(
    alloc: Global,
    rules: &Rules,
    barred: &[Fact],
    facts: &mut Facts,
    new: &mut Facts,
) -> Result<(), AllocError>
    ensures { OnOk result (IsBarredRound (wiring_of rules.now) barred.now facts.old new.old
        facts.new new.new) }
{
    let mut found = round(alloc, rules, facts, new, 0, 1)?;
    bar(&mut found, barred);
    merge(facts, new, found)
}

/// Ends a round: its new facts go into the order.
fn end_round(order: &mut Vec<Fact>, ends: &mut Vec<usize>, new: &Facts) -> Result<(), AllocError>
    ensures listed { OnOk result (order.new.items ≡ order.old.items ++ new.now) }
    ensures ascending { IsAscending new.now }
{
    list_all(order, new)?;
    ends.push(order.len())?;
    Ok(())
}

/// The rounds from these first facts on, until one of them finds the goal or nothing new.
fn rounds_into(
    alloc: Global,
    rules: &Rules,
    first: Facts,
    goal: &Fact,
    barred: &[Fact],
    facts: &mut Facts,
    order: &mut Vec<Fact>,
    ends: &mut Vec<usize>,
) -> Result<(), AllocError>
    requires empty { facts.old ≡ [] }
    requires none { order.old.items ≡ [] }
    requires first { (g : Fact) → IsTrue (has first g) → IsFirstFact (wiring_of rules.now) g }
    requires barred { IsWithout barred.now first }
    ensures order { OnOk result (IsOrder (wiring_of rules.now) order.new.items) }
    ensures once { OnOk result (IsOnce order.new.items) }
    ensures same { OnOk result (HaveSame facts.new order.new.items) }
    ensures without { OnOk result (IsWithout barred.now facts.new) }
{
    let mut new = Facts::new(alloc);
    merge(facts, &mut new, first)?;
    for _ in 0..ROUNDS {
        if new.is_empty() || facts.has(goal) {
            break;
        }
        end_round(order, ends, &new)?;
        round_without(alloc, rules, barred, facts, &mut new)?;
    }
    end_round(order, ends, &new)?;
    Ok(())
}

/// The same, from nothing.
fn rounds_from(
    alloc: Global,
    rules: &Rules,
    first: Facts,
    goal: &Fact,
    barred: &[Fact],
) -> Result<Rounds, AllocError>
    requires first { (g : Fact) → IsTrue (has first g) → IsFirstFact (wiring_of rules.now) g }
    requires barred { IsWithout barred.now first }
    ensures order { IfOk result (λ r. IsOrder (wiring_of rules.now) r.order) }
    ensures once { IfOk result (λ r. IsOnce r.order) }
    ensures same { IfOk result (λ r. HaveSame r.facts r.order) }
    ensures without { IfOk result (λ r. IsWithout barred.now r.facts) }
{
    let mut facts = Facts::new(alloc);
    let mut order = Vec::new(alloc);
    let mut ends = Vec::new(alloc);
    rounds_into(
        alloc, rules, first, goal, barred, &mut facts, &mut order, &mut ends,
    )?;
    Ok(Rounds { facts, order, ends })
}

/// Rounds in which no barred fact is ever concluded, until one of them finds the goal or nothing
/// new. At most 4,096 rounds are made.
pub fn rounds_without(
    alloc: Global,
    rules: &Rules,
    goal: &Fact,
    barred: &[Fact],
) -> Result<Rounds, AllocError>
    // Each fact follows from those before it, and stands there once.
    ensures order { IfOk result (λ r. IsOrder (wiring_of rules.now) r.order) }
    ensures once { IfOk result (λ r. IsOnce r.order) }
    ensures same { IfOk result (λ r. HaveSame r.facts r.order) }
    // None of them is barred.
    ensures without { IfOk result (λ r. IsWithout barred.now r.facts) }
{
    let mut first = first_conclusions(alloc, rules)?;
    bar(&mut first, barred);
    rounds_from(alloc, rules, first, goal, barred)
}
