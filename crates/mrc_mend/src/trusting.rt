//! Limits of what tasks do in the steps of a chain.

use crate::changes::Limitation;
use mrc_base::{Fact, TaskId};
use mrc_classes::{Facts, RuleName};
use mrc_closure::{Places, Step};
use mrc_model::Verb;
use mrc_why::forbidden_fact;
use mrc_wiring::{ForbiddenLine, Wired};
use std::alloc::{AllocError, Global};

/// The task that holds something.
fn holder(fact: &Fact) -> Option<u16> {
    match *fact {
        Fact::Hold { task, .. } => Some(task),
        Fact::Carry { .. } | Fact::Backup { .. } => None,
    }
}

/// What the task does in a step: it takes, if it holds the conclusion; else it gives or sends.
fn verb_of(step: &Step, task: u16) -> Option<Verb> {
    match step.rule {
        RuleName::Slot => Some(Verb::Sends),
        RuleName::KernelPort => Some(if holder(&step.fact) == Some(task) {
            Verb::Takes
        } else {
            Verb::Gives
        }),
        RuleName::First
        | RuleName::Births
        | RuleName::Weaker
        | RuleName::Reply
        | RuleName::Received
        | RuleName::Request
        | RuleName::Notice
        | RuleName::Returned => None,
    }
}

/// The task that takes, gives or sends in a step: the one that holds its first premise.
fn actor(steps: &[Step], step: &Step) -> Option<u16> {
    match step.premises {
        Places::Two(first, _) => holder(&steps.get(first)?.fact),
        Places::Empty | Places::One(_) => None,
    }
}

/// Whether one of the lines that forbid a fact of the set names the task.
fn is_named(lines: &[ForbiddenLine], facts: &Facts, task: u16) -> bool {
    for line in lines {
        if line.task == task && facts.has(&forbidden_fact(line)) {
            return true;
        }
    }
    false
}

/// Whether one of the lines that forbid a fact of the set names the task that takes, gives or sends
/// in the step.
pub(crate) fn names_actor(
    lines: &[ForbiddenLine],
    facts: &Facts,
    steps: &[Step],
    step: &Step,
) -> bool {
    match actor(steps, step) {
        Some(task) => is_named(lines, facts, task),
        None => false,
    }
}

/// The limitation that cuts the step: that of the task that takes, gives or sends in it, if no line
/// limits it yet. There is none of the task that is to have less.
pub(crate) fn limitation_of(
    alloc: Global,
    wired: &Wired,
    steps: &[Step],
    step: &Step,
    goal: &Fact,
) -> Result<Option<Limitation>, AllocError> {
    let Some(task) = actor(steps, step) else {
        return Ok(None);
    };
    let Some(verb) = verb_of(step, task) else {
        return Ok(None);
    };
    let number = TaskId(u32::from(task));
    if holder(goal) == Some(task) || wired.is_limited(verb, number) {
        return Ok(None);
    }
    match wired.task_name(number) {
        Some(name) => {
            let task = String::from_str(alloc, name)?;
            Ok(Some(Limitation { task, verb }))
        }
        None => Ok(None),
    }
}
