//! What follows from nothing, and from new facts with those of a set.

ghost use Rattle.std.specs.Prelude.{◌≡◌, ◌<◌, ◌||◌, ◌&&◌, not, ℕ, Bool, IsTrue, OnOk, IfOk};
ghost use Rattle.mrc_base.specs.declared.PortRight.{PortRight};
ghost use Rattle.mrc_base.specs.declared.Fact.{Fact};
ghost use Rattle.mrc_model.specs.Wiring.{classes};
ghost use Rattle.mrc_model.specs.Rules.{Has};
ghost use Rattle.mrc_wiring.specs.Table.{wiring_of};
ghost use Rattle.mrc_facts.specs.Sets.{has};
ghost use Rattle.mrc_classes.specs.Growing.{Added, Below};
ghost use Rattle.mrc_classes.specs.Following.{IsConsequence, IsFirstFact, IsListOf};
ghost use Rattle.mrc_classes.specs.Concluding.{conclusion, rows, Concludes};
ghost use Rattle.mrc_classes.specs.Marking.{is_marked, Marked};
ghost use Rattle.mrc_classes.specs.Places.{IsMarkedAs, AreMarked, IsNew, InRow, ByRule, AtPlace};
ghost use Rattle.mrc_classes.specs.Places.{FirstAt};

use crate::marks::Marks;
use crate::rule_names::RuleName;
use crate::rules::{Rules, had_words, has_two, row_of, row_with, rows};
use mrc_base::{Fact, PortRight};
use mrc_rows::Facts;
use mrc_wiring::Wired;
use std::alloc::{AllocError, Global};

/// Puts the rule's conclusions of a right into the set, at the marked classes of the wiring.
fn put_right(
    rules: &Rules,
    rule: RuleName,
    row: u16,
    right: PortRight,
    marks: &Marks,
    found: &mut Facts,
) -> Result<(), AllocError>
    requires { row < rows (wiring_of rules.now) rule }
    ensures { OnOk result (Added (has found.old) (has found.new)
        (InRow (wiring_of rules.now) rule row (IsMarkedAs marks.now right))) }
{
    found.join(
        row_with(rules, rule, row, right),
        marks.words(right),
        rules.all(),
    )?;
    Ok(())
}

/// Puts the rule's conclusions into the set, at the marks on the wiring's classes.
fn put_marked(
    rules: &Rules,
    rule: RuleName,
    row: u16,
    marks: &Marks,
    found: &mut Facts,
) -> Result<(), AllocError>
    requires { row < rows (wiring_of rules.now) rule }
    ensures { OnOk result (Added (has found.old) (has found.new)
        (InRow (wiring_of rules.now) rule row (AreMarked marks.now))) }
{
    put_right(rules, rule, row, PortRight::Send, marks, found)?;
    put_right(rules, rule, row, PortRight::Receive, marks, found)?;
    put_right(rules, rule, row, PortRight::SendOnce, marks, found)?;
    Ok(())
}

/// Marks what the rule concludes in the row from a new fact, with those of the set.
#[inline(always)]
fn new_row_of(rules: &Rules, rule: RuleName, row: u16, all: &Facts, new: &Facts, out: &mut Marks)
    requires { row < rows (wiring_of rules.now) rule }
    ensures { Marked (classes (wiring_of rules.now)) (is_marked out.old) (is_marked out.new)
        (IsNew (wiring_of rules.now) (has all.now) (has new.now) rule row) }
{
    row_of(rules, rule, row, all, new, out);
    if has_two(rule) {
        row_of(rules, rule, row, new, all, out);
    }
}

/// Takes away the marks at which the known facts have the rule's conclusion.
#[inline(always)]
fn forget_known(rules: &Rules, rule: RuleName, row: u16, known: &Facts, marks: &mut Marks)
    requires { row < rows (wiring_of rules.now) rule }
    ensures { (c : ℕ) (r : PortRight) → c < classes (wiring_of rules.now) → is_marked marks.new c r
        ≡ (is_marked marks.old c r && not (has known.now (conclusion rule row c r))) }
{
    let send = had_words(rules, known, rule, row, PortRight::Send);
    marks.forget(PortRight::Send, send);
    let receive = had_words(rules, known, rule, row, PortRight::Receive);
    marks.forget(PortRight::Receive, receive);
    let once = had_words(rules, known, rule, row, PortRight::SendOnce);
    marks.forget(PortRight::SendOnce, once);
}

/// Whether the rule can conclude nothing from the new facts, at a glance.
#[inline(always)]
fn is_idle(rules: &Rules, rule: RuleName, new: &Facts) -> bool
    ensures { IsTrue result → (S : Fact → Bool) (row c : ℕ) (r : PortRight) →
        row < rows (wiring_of rules.now) rule → c < classes (wiring_of rules.now) →
        IsNew (wiring_of rules.now) S (has new.now) rule row c r → ⊥ }
{
    let _within = rules.classes();
    match rule {
        RuleName::Notice => !new.may_have_backups(),
        _ => false,
    }
}

/// Puts into `found` what the rule concludes from a new fact in the row of this number, if it has
/// one, and the known facts lack.
#[inline(always)]
fn conclude_rule(
    rules: &Rules,
    all: &Facts,
    new: &Facts,
    known: &Facts,
    rule: RuleName,
    row: u16,
    found: &mut Facts,
) -> Result<(), AllocError>
    ensures { OnOk result (Added (has found.old) (has found.new)
        (ByRule (wiring_of rules.now) (has all.now) (has new.now) (has known.now) row rule)) }
{
    if row >= rows(rules.wired(), rule) {
        return Ok(());
    }
    if is_idle(rules, rule, new) {
        return Ok(());
    }
    let mut marks = Marks::none();
    new_row_of(rules, rule, row, all, new, &mut marks);
    forget_known(rules, rule, row, known, &mut marks);
    put_marked(rules, rule, row, &marks, found)?;
    Ok(())
}

/// Puts into `found` what follows from one of the new facts at a place and the known facts lack.
/// A place is a number: at it are the task and the class of this number. The places below the
/// number of classes are all. The new facts are among all. If memory runs out, `found` may have
/// some of it.
pub fn conclude_at(
    rules: &Rules,
    all: &Facts,
    new: &Facts,
    known: &Facts,
    place: u16,
    found: &mut Facts,
) -> Result<(), AllocError>
    ensures { OnOk result (Added (has found.old) (has found.new)
        (AtPlace (wiring_of rules.now) (has all.now) (has new.now) (has known.now) place)) }
{
    conclude_rule(rules, all, new, known, RuleName::Weaker, place, found)?;
    conclude_rule(rules, all, new, known, RuleName::Slot, place, found)?;
    conclude_rule(rules, all, new, known, RuleName::Reply, place, found)?;
    conclude_rule(rules, all, new, known, RuleName::Received, place, found)?;
    conclude_rule(rules, all, new, known, RuleName::KernelPort, place, found)?;
    conclude_rule(rules, all, new, known, RuleName::Request, place, found)?;
    conclude_rule(rules, all, new, known, RuleName::Notice, place, found)?;
    conclude_rule(rules, all, new, known, RuleName::Returned, place, found)?;
    Ok(())
}

/// Puts what the rule concludes in the row into the set, from no fact.
fn conclude_alone(
    rules: &Rules,
    rule: RuleName,
    row: u16,
    none: &Facts,
    found: &mut Facts,
) -> Result<(), AllocError>
    requires { row < rows (wiring_of rules.now) rule }
    ensures { OnOk result (Added (has found.old) (has found.new)
        (InRow (wiring_of rules.now) rule row
        (Concludes (wiring_of rules.now) (has none.now) (has none.now) rule row))) }
{
    let mut marks = Marks::none();
    row_of(rules, rule, row, none, none, &mut marks);
    put_marked(rules, rule, row, &marks, found)?;
    Ok(())
}

/// Puts what the rules without premises conclude at the task into the set.
fn conclude_first(
    rules: &Rules,
    task: u16,
    none: &Facts,
    found: &mut Facts,
) -> Result<(), AllocError>
    requires { task < (wiring_of rules.now).tasks }
    ensures { OnOk result (Added (has found.old) (has found.new)
        (FirstAt (wiring_of rules.now) (has none.now) task)) }
{
    conclude_alone(rules, RuleName::First, task, none, found)?;
    conclude_alone(rules, RuleName::Births, task, none, found)?;
    Ok(())
}

/// What the rules without premises conclude at all tasks.
fn conclude_all_first(alloc: Global, rules: &Rules, none: &Facts) -> Result<Facts, AllocError>
    ensures { IfOk result (IsListOf (IsFirstFact (wiring_of rules.now))) }
{
    let mut found = Facts::new(alloc);
    for task in 0..rules.tasks() {
        conclude_first(rules, task, none, &mut found)?;
    }
    Ok(found)
}

/// The conclusions of the rules without premises: what the tasks hold in the first state, and the
/// receive rights of the ports of their births.
pub fn first_conclusions(alloc: Global, rules: &Rules) -> Result<Facts, AllocError>
    ensures { IfOk result (IsListOf (IsFirstFact (wiring_of rules.now))) }
{
    let none = Facts::new(alloc);
    conclude_all_first(alloc, rules, &none)
}

/// The same of a wiring alone.
pub fn first_rules(alloc: Global, wired: &Wired) -> Result<Facts, AllocError>
    ensures { IfOk result (IsListOf (IsFirstFact (wiring_of wired.now))) }
{
    let rules = Rules::new(alloc, wired)?;
    first_conclusions(alloc, &rules)
}

/// What follows from one of the new facts at all places, and the known facts lack.
fn conclude(
    rules: &Rules,
    all: &Facts,
    new: &Facts,
    known: &Facts,
    found: &mut Facts,
) -> Result<(), AllocError>
    ensures { OnOk result (Added (has found.old) (has found.new)
        (Below (classes (wiring_of rules.now))
        (AtPlace (wiring_of rules.now) (has all.now) (has new.now) (has known.now)))) }
{
    for place in 0..rules.classes() {
        conclude_at(rules, all, new, known, place, found)?;
    }
    Ok(())
}

/// What follows from the fact, with those of the set. The fact is put there.
fn conclude_from(
    alloc: Global,
    rules: &Rules,
    all: &mut Facts,
    fact: &Fact,
) -> Result<Facts, AllocError>
    ensures { IfOk result
        (IsListOf (IsConsequence (wiring_of rules.now) (Has (has all.old)) fact.now)) }
{
    let _added = all.insert(*fact)?;
    let mut new = Facts::new(alloc);
    let _new = new.insert(*fact)?;
    let none = Facts::new(alloc);
    let mut found = Facts::new(alloc);
    conclude(rules, all, &new, &none, &mut found)?;
    Ok(found)
}

/// The conclusions of the rules that have the fact among their premises, and their other premises
/// in the set. The fact itself need not be there.
pub fn consequences(
    alloc: Global,
    wired: &Wired,
    facts: &Facts,
    fact: Fact,
) -> Result<Facts, AllocError>
    ensures { IfOk result
        (IsListOf (IsConsequence (wiring_of wired.now) (Has (has facts.now)) fact)) }
{
    let mut all = facts.copy()?;
    let rules = Rules::new(alloc, wired)?;
    conclude_from(alloc, &rules, &mut all, &fact)
}
