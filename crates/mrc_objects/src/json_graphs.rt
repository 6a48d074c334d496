//! Drawings as objects.

use crate::json::{SCHEMA, json_text};
use crate::json_facts::{FactObject, fact_object};
use mrc_base::{ClassId, Fact, TaskId};
use mrc_draw::set_of;
use mrc_rows::Facts;
use mrc_why::forbidden_fact;
use mrc_wiring::{ForbiddenLine, Wired};
use mrc_words::{class_word, task_word};
use serde::Serialize;
use std::alloc::{AllocError, Global};
use std::collections::{BTreeMap, BTreeSet};

/// A fact that is drawn: whether K1 gives it, and the first line of the policy that forbids it.
#[derive(Drop, Serialize)]
struct DrawnFact {
    fact: FactObject,
    first: bool,
    forbidden: Option<u32>,
}

/// What is drawn: facts, and the classes and the tasks that are in them.
#[derive(Drop, Serialize)]
struct GraphAnswer {
    answer: &'static str,
    classes: Vec<String>,
    command: &'static str,
    facts: Vec<DrawnFact>,
    schema: u32,
    tasks: Vec<String>,
}

/// The task of a hold.
fn task_of(fact: Fact) -> Option<u16> {
    match fact {
        Fact::Hold { task, .. } => Some(task),
        Fact::Carry { .. } | Fact::Backup { .. } => None,
    }
}

/// The names of the tasks that are in facts.
fn task_words(alloc: Global, wired: &Wired, facts: &Facts) -> Result<Vec<String>, AllocError> {
    let tasks: BTreeSet<u16> = facts.iter().filter_map(task_of).collect(alloc)?;
    tasks
        .iter()
        .map(|task| task_word(alloc, wired, TaskId(u32::from(*task))))
        .try_collect(alloc)
}

/// The classes of a fact.
fn classes_of(fact: Fact) -> [ClassId; 2] {
    match fact {
        Fact::Hold { class, .. } => [class, class],
        Fact::Carry {
            destination,
            class,
            ..
        } => [destination, class],
        Fact::Backup { class, notify } => [class, notify],
    }
}

/// The words of the classes that are in facts.
fn class_words(alloc: Global, wired: &Wired, facts: &Facts) -> Result<Vec<String>, AllocError> {
    let classes: BTreeSet<u16> = facts
        .iter()
        .flat_map(classes_of)
        .map(|class| class.0)
        .collect(alloc)?;
    classes
        .iter()
        .map(|class| class_word(alloc, wired, ClassId(*class)))
        .try_collect(alloc)
}

/// The first line that forbids each fact.
fn forbidden_by(alloc: Global, lines: &[ForbiddenLine]) -> Result<BTreeMap<Fact, u32>, AllocError> {
    let mut forbidden = BTreeMap::new(alloc);
    for line in lines {
        let fact = forbidden_fact(line);
        if forbidden.get(&fact).is_none() {
            let _ = forbidden.insert(fact, line.line)?;
        }
    }
    Ok(forbidden)
}

/// The facts that K1 gives.
fn first_facts(alloc: Global, wired: &Wired) -> Result<Facts, AllocError> {
    let first = wired.first_holdings(alloc)?;
    let set = set_of(alloc, first.as_slice());
    drop(first);
    set
}

/// The facts that are drawn, in the order of their bytes: K1 gives the first ones, and lines of a
/// policy forbid some.
fn drawn_facts(
    alloc: Global,
    wired: &Wired,
    facts: &Facts,
    first: &Facts,
    forbidden: &BTreeMap<Fact, u32>,
) -> Result<Vec<DrawnFact>, AllocError> {
    let mut drawn = Vec::new(alloc);
    for fact in facts.iter() {
        drawn.push(DrawnFact {
            fact: fact_object(alloc, wired, fact)?,
            first: first.has(&fact),
            forbidden: forbidden.get(&fact).copied(),
        })?;
    }
    Ok(drawn)
}

/// The same, if a policy has these lines.
fn drawn_of(
    alloc: Global,
    wired: &Wired,
    facts: &Facts,
    lines: &[ForbiddenLine],
) -> Result<Vec<DrawnFact>, AllocError> {
    let forbidden = forbidden_by(alloc, lines)?;
    let first = first_facts(alloc, wired)?;
    let drawn = drawn_facts(alloc, wired, facts, &first, &forbidden);
    drop(first);
    drop(forbidden);
    drawn
}

/// The facts that are drawn, with the tasks and the classes that are in them: of each whether K1
/// gives it, and which of these lines of a policy forbids it, if one does.
pub fn graph_json(
    alloc: Global,
    wired: &Wired,
    facts: &Facts,
    lines: &[ForbiddenLine],
) -> Result<String, AllocError> {
    let answer = GraphAnswer {
        answer: "graph",
        classes: class_words(alloc, wired, facts)?,
        command: "graph",
        facts: drawn_of(alloc, wired, facts, lines)?,
        schema: SCHEMA,
        tasks: task_words(alloc, wired, facts)?,
    };
    json_text(alloc, &answer)
}
