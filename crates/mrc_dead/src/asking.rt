//! Which tasks may ask which others, by a set of facts.

ghost use Rattle.std.specs.Prelude.{◌≡◌, ◌++◌, OnOk, IfOk};
ghost use Rattle.std.specs.List.{list_any};
ghost use Rattle.mrc_base.specs.declared.Fact.{Fact};
ghost use Rattle.mrc_facts.specs.Sets.{has};
ghost use Rattle.mrc_model.specs.declared.LabelItem.{LabelItem};
ghost use Rattle.mrc_wiring.specs.Table.{wiring_of};
ghost use Rattle.mrc_dead.specs.Asking.{accepts, any_below, asks_at, asks_for, askers, is_quiet};
ghost use Rattle.mrc_dead.specs.Asking.{may_hear, may_send, number_if, same_item};

use mrc_base::{ClassId, Fact, PortRight};
use mrc_model::LabelItem;
use mrc_rows::Facts;
use mrc_wiring::Wired;
use std::alloc::{AllocError, Global};

/// Whether the task holds the right on ports of the class.
pub(crate) fn holds(facts: &Facts, task: u16, class: u16, right: PortRight) -> bool
    ensures { result ≡ has facts.now (Fact.Hold task class right) }
{
    facts.has(&Fact::Hold {
        task,
        class: ClassId(class),
        right,
    })
}

/// Whether the task may send to ports of the class.
fn may_send(facts: &Facts, task: u16, class: u16) -> bool
    ensures { result ≡ may_send (has facts.now) task class }
{
    holds(facts, task, class, PortRight::Send) || holds(facts, task, class, PortRight::SendOnce)
}

/// Whether they are two tasks, of which the second may receive from ports of the class.
fn may_hear(facts: &Facts, class: u16, task: u16, other: u16) -> bool
    ensures { result ≡ may_hear (has facts.now) class task other }
{
    task != other && holds(facts, other, class, PortRight::Receive)
}

/// Whether another task may receive from ports of the class.
#[tactic(auto, using(crate::proofs::Numbers::any_none))]
fn has_hearer(wired: &Wired, facts: &Facts, class: u16, task: u16) -> bool
    ensures { result
        ≡ any_below (may_hear (has facts.now) class task) (wiring_of wired.now).tasks }
{
    for other in 0..wired.tasks() {
        if may_hear(facts, class, task, other) {
            return true;
        }
    }
    false
}

/// Whether the task may ask another at the class.
pub(crate) fn asks_at(wired: &Wired, facts: &Facts, class: u16, task: u16) -> bool
    ensures { result ≡ asks_at (wiring_of wired.now) (has facts.now) class task }
{
    may_send(facts, task, class) && has_hearer(wired, facts, class, task)
}

/// Whether no task may ask another at the class.
#[tactic(auto, using(crate::proofs::Numbers::any_none))]
pub(crate) fn is_quiet(wired: &Wired, facts: &Facts, class: u16) -> bool
    ensures { result ≡ is_quiet (wiring_of wired.now) (has facts.now) class }
{
    for task in 0..wired.tasks() {
        if asks_at(wired, facts, class, task) {
            return false;
        }
    }
    true
}

fn same_item(one: LabelItem, other: LabelItem) -> bool
    ensures { result ≡ same_item one other }
{
    match (one, other) {
        (LabelItem::Request(one), LabelItem::Request(other)) => one == other,
        (LabelItem::Reply(one), LabelItem::Reply(other)) => one == other,
        (LabelItem::Destroyed, LabelItem::Destroyed) => true,
        _ => false,
    }
}

fn has_item(items: &[LabelItem], item: LabelItem) -> bool
    ensures { result ≡ list_any (same_item item) items.now }
{
    items.iter().any(|other| same_item(item, *other))
}

/// Whether the class accepts the item.
pub(crate) fn accepts(wired: &Wired, item: LabelItem, class: u16) -> bool
    ensures { result ≡ accepts (wiring_of wired.now) item class }
{
    has_item(wired.label(ClassId(class)), item)
}

/// Whether the task may ask another at a class that accepts the item.
#[tactic(auto, using(crate::proofs::Numbers::any_none))]
fn asks_for(wired: &Wired, facts: &Facts, item: LabelItem, task: u16) -> bool
    ensures { result ≡ asks_for (wiring_of wired.now) (has facts.now) item task }
{
    for class in 0..wired.classes() {
        if accepts(wired, item, class) && asks_at(wired, facts, class, task) {
            return true;
        }
    }
    false
}

/// Puts the task behind the others, if it is one of those that are looked for.
fn push_if(tasks: &mut Vec<u16>, is_one: bool, task: u16) -> Result<(), AllocError>
    ensures { OnOk result (tasks.new.items ≡ tasks.old.items ++ number_if is_one task) }
{
    if is_one {
        tasks.push(task)?;
    }
    Ok(())
}

/// The tasks that may ask another at a class that accepts the item, ascending.
#[tactic(auto, using(crate::proofs::Numbers::those_next))]
pub(crate) fn askers(
    alloc: Global,
    wired: &Wired,
    facts: &Facts,
    item: LabelItem,
) -> Result<Vec<u16>, AllocError>
    ensures { IfOk result (λ tasks. tasks.items
        ≡ askers (wiring_of wired.now) (has facts.now) item) }
{
    let mut tasks = Vec::new(alloc);
    for task in 0..wired.tasks() {
        let is_one = asks_for(wired, facts, item, task);
        push_if(&mut tasks, is_one, task)?;
    }
    Ok(tasks)
}
