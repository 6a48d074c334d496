//! Facts as objects.

use crate::json::{SCHEMA, json_text};
use mrc_base::{ClassId, Fact, TaskId};
use mrc_draw::{Filter, drawn_facts};
use mrc_rows::Facts;
use mrc_wiring::Wired;
use mrc_words::{class_word, fact_text, right_word, task_word};
use serde::Serialize;
use std::alloc::{AllocError, Global};

/// A fact: its kind, its text, and the words of its parts. A member that its kind lacks is missing.
#[derive(Drop, Serialize)]
pub(crate) struct FactObject {
    class: String,
    kind: &'static str,
    #[serde(skip_serializing_if = "Option::is_none")]
    notify: Option<String>,
    #[serde(skip_serializing_if = "Option::is_none")]
    right: Option<&'static str>,
    #[serde(skip_serializing_if = "Option::is_none")]
    task: Option<String>,
    text: String,
    #[serde(skip_serializing_if = "Option::is_none")]
    to: Option<String>,
}

/// The facts that are asked for.
#[derive(Drop, Serialize)]
struct FactsAnswer {
    answer: &'static str,
    command: &'static str,
    facts: Vec<FactObject>,
    schema: u32,
}

/// The words of a class, if there is one.
fn class_if(
    alloc: Global,
    wired: &Wired,
    class: Option<ClassId>,
) -> Result<Option<String>, AllocError> {
    class
        .map(|class| class_word(alloc, wired, class))
        .transpose()
}

/// The words of a task, if there is one.
fn task_if(alloc: Global, wired: &Wired, task: Option<u16>) -> Result<Option<String>, AllocError> {
    task.map(|task| task_word(alloc, wired, TaskId(u32::from(task))))
        .transpose()
}

/// A fact.
pub(crate) fn fact_object(
    alloc: Global,
    wired: &Wired,
    fact: Fact,
) -> Result<FactObject, AllocError> {
    let (kind, right) = match fact {
        Fact::Hold { right, .. } => ("hold", Some(right_word(right))),
        Fact::Carry { right, .. } => ("carry", Some(right_word(right))),
        Fact::Backup { .. } => ("backup", None),
    };
    let (class, task, to, notify) = match fact {
        Fact::Hold { task, class, .. } => (class, Some(task), None, None),
        Fact::Carry {
            destination,
            class,
            ..
        } => (class, None, Some(destination), None),
        Fact::Backup { class, notify } => (class, None, None, Some(notify)),
    };
    Ok(FactObject {
        class: class_word(alloc, wired, class)?,
        kind,
        notify: class_if(alloc, wired, notify)?,
        right,
        task: task_if(alloc, wired, task)?,
        text: fact_text(alloc, wired, fact)?,
        to: class_if(alloc, wired, to)?,
    })
}

/// Facts, in the order of their bytes.
fn fact_objects(
    alloc: Global,
    wired: &Wired,
    facts: &Facts,
) -> Result<Vec<FactObject>, AllocError> {
    facts
        .iter()
        .map(|fact| fact_object(alloc, wired, fact))
        .try_collect(alloc)
}

/// Those of the facts that are asked for, in the order of their bytes.
pub fn facts_json(
    alloc: Global,
    wired: &Wired,
    filter: &Filter,
    facts: &Facts,
) -> Result<String, AllocError> {
    let asked = drawn_facts(alloc, facts, filter, false)?;
    let objects = fact_objects(alloc, wired, &asked);
    drop(asked);
    let answer = FactsAnswer {
        answer: "facts",
        command: "facts",
        facts: objects?,
        schema: SCHEMA,
    };
    json_text(alloc, &answer)
}
