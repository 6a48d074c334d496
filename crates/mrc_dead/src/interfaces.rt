//! Interfaces that no port accepts, and those that are asked without a port for replies.

ghost use Rattle.std.specs.Prelude.{◌≡◌, ◌++◌, IfOk, OnOk, slice_get};
ghost use Rattle.std.specs.List.{list_any};
ghost use Rattle.std.specs.Option.{option_map};
ghost use Rattle.mrc_facts.specs.Sets.{has};
ghost use Rattle.mrc_wiring.specs.Table.{wiring_of};
ghost use Rattle.mrc_dead.specs.Asking.{number_if};
ghost use Rattle.mrc_dead.specs.Dead.{accepts_some, is_unaccepted, unaccepted, is_routine};
ghost use Rattle.mrc_dead.specs.Dead.{is_routine_kind, is_routine_row, has_routine, hears_at};
ghost use Rattle.mrc_dead.specs.Dead.{hears, are_deaf, is_unanswered, unanswered};

use crate::asking::{accepts, askers, holds};
use mrc_base::{ClassId, PortRight, TaskId};
use mrc_forms::{Form, FormKind, Interface, RequestKind, Row};
use mrc_model::{LabelItem, Verb};
use mrc_rows::Facts;
use mrc_wiring::Wired;
use std::alloc::{AllocError, Global};

/// Whether the class accepts requests or replies of the interface.
fn accepts_some(wired: &Wired, interface: usize, class: u16) -> bool
    ensures { result ≡ accepts_some (wiring_of wired.now) interface class }
{
    accepts(wired, LabelItem::Request(interface), class)
        || accepts(wired, LabelItem::Reply(interface), class)
}

/// Whether no class accepts anything of the interface.
#[tactic(auto, using(crate::proofs::Numbers::any_none))]
fn is_unaccepted(wired: &Wired, interface: usize) -> bool
    ensures { result ≡ is_unaccepted (wiring_of wired.now) interface }
{
    for class in 0..wired.classes() {
        if accepts_some(wired, interface, class) {
            return false;
        }
    }
    true
}

/// Puts the number behind the others, if it is one of those that are looked for.
fn push_if(numbers: &mut Vec<usize>, is_one: bool, number: usize) -> Result<(), AllocError>
    ensures { OnOk result (numbers.new.items ≡ numbers.old.items ++ number_if is_one number) }
{
    if is_one {
        numbers.push(number)?;
    }
    Ok(())
}

/// The interfaces that no port accepts, by their numbers.
#[tactic(auto, using(crate::proofs::Numbers::those_next))]
pub(crate) fn unaccepted(alloc: Global, wired: &Wired) -> Result<Vec<usize>, AllocError>
    ensures { IfOk result (λ numbers. numbers.items ≡ unaccepted wired.now) }
{
    let mut numbers = Vec::new(alloc);
    for interface in 0..wired.interfaces().len() {
        let is_one = is_unaccepted(wired, interface);
        push_if(&mut numbers, is_one, interface)?;
    }
    Ok(numbers)
}

fn is_routine_kind(kind: FormKind) -> bool
    ensures { result ≡ is_routine_kind kind }
{
    match kind {
        FormKind::Request(RequestKind::Routine) => true,
        FormKind::Request(RequestKind::Simple) => false,
        FormKind::Request(RequestKind::Replied) => false,
        FormKind::Reply => false,
    }
}

/// Whether there is a form, and it is that of a routine's request.
fn is_routine(form: &Option<Form>) -> bool
    ensures { result ≡ is_routine form.now }
{
    match form {
        Some(form) => is_routine_kind(form.kind()),
        None => false,
    }
}

fn is_routine_row(row: &Row) -> bool
    ensures { result ≡ is_routine_row row.now }
{
    is_routine(&row.request)
}

fn has_routine_row(rows: &[Row]) -> bool
    ensures { result ≡ list_any is_routine_row rows.now }
{
    rows.iter().any(|row| is_routine_row(row))
}

/// Whether there is an interface, and it has a routine.
fn has_routine(interface: Option<&Interface>) -> bool
    ensures { result ≡ has_routine (option_map (λ interface. interface.now) interface.entry) }
{
    match interface {
        Some(interface) => has_routine_row(interface.rows()),
        None => false,
    }
}

/// Whether the task may name ports of the class for the replies of the interface.
fn hears_at(wired: &Wired, facts: &Facts, interface: usize, task: u16, class: u16) -> bool
    ensures { result ≡ hears_at (wiring_of wired.now) (has facts.now) interface task class }
{
    holds(facts, task, class, PortRight::SendOnce)
        && accepts(wired, LabelItem::Reply(interface), class)
        && wired.may(
            Verb::Replies,
            TaskId(u32::from(task)),
            PortRight::SendOnce,
            ClassId(class),
        )
}

/// Whether the task may name a port for the replies of the interface.
#[tactic(auto, using(crate::proofs::Numbers::any_none))]
fn hears(wired: &Wired, facts: &Facts, interface: usize, task: u16) -> bool
    ensures { result ≡ hears (wiring_of wired.now) (has facts.now) interface task }
{
    for class in 0..wired.classes() {
        if hears_at(wired, facts, interface, task, class) {
            return true;
        }
    }
    false
}

/// Whether one of these tasks may name a port for the replies of the interface.
fn some_hears(wired: &Wired, facts: &Facts, interface: usize, tasks: &[u16]) -> bool
    ensures { result
        ≡ list_any (hears (wiring_of wired.now) (has facts.now) interface) tasks.now }
{
    tasks
        .iter()
        .any(|task| hears(wired, facts, interface, *task))
}

/// Whether there is one of these tasks, and none of them may name a port for the replies of the
/// interface.
fn are_deaf(wired: &Wired, facts: &Facts, interface: usize, tasks: &[u16]) -> bool
    ensures { result ≡ are_deaf (wiring_of wired.now) (has facts.now) interface tasks.now }
{
    !tasks.is_empty() && !some_hears(wired, facts, interface, tasks)
}

/// Whether the interface has a routine and may be asked, but never with a port that accepts its
/// replies.
fn is_unanswered(
    alloc: Global,
    wired: &Wired,
    facts: &Facts,
    interface: usize,
) -> Result<bool, AllocError>
    ensures { IfOk result (λ is_one. is_one
        ≡ is_unanswered wired.now (has facts.now) interface) }
{
    if !has_routine(wired.interface(interface)) {
        return Ok(false);
    }
    let tasks = askers(alloc, wired, facts, LabelItem::Request(interface))?;
    Ok(are_deaf(wired, facts, interface, tasks.as_slice()))
}

/// The interfaces of which this is so, by their numbers.
#[tactic(auto, using(crate::proofs::Numbers::those_next))]
pub(crate) fn unanswered(
    alloc: Global,
    wired: &Wired,
    facts: &Facts,
) -> Result<Vec<usize>, AllocError>
    ensures { IfOk result (λ numbers. numbers.items ≡ unanswered wired.now (has facts.now)) }
{
    let mut numbers = Vec::new(alloc);
    for interface in 0..wired.interfaces().len() {
        let is_one = is_unanswered(alloc, wired, facts, interface)?;
        push_if(&mut numbers, is_one, interface)?;
    }
    Ok(numbers)
}
