//! Chains as objects.

use crate::json::{SCHEMA, json_text};
use crate::json_facts::{FactObject, fact_object};
use mrc_base::Fact;
use mrc_check::System;
use mrc_classes::RuleName;
use mrc_why::{Places, Source, Sources, Step};
use mrc_wiring::Wired;
use serde::Serialize;
use std::alloc::{AllocError, Global};

/// Where a step comes from. A member that its kind lacks is missing.
#[derive(Clone, Copy, Serialize)]
struct SourceObject<'a> {
    #[serde(skip_serializing_if = "Option::is_none")]
    argument: Option<&'a str>,
    kind: &'static str,
    #[serde(skip_serializing_if = "Option::is_none")]
    line: Option<u32>,
    #[serde(skip_serializing_if = "Option::is_none")]
    routine: Option<&'a str>,
    #[serde(skip_serializing_if = "Option::is_none")]
    subsystem: Option<&'a str>,
    #[serde(skip_serializing_if = "Option::is_none")]
    task: Option<&'a str>,
    #[serde(rename = "type", skip_serializing_if = "Option::is_none")]
    type_name: Option<&'a str>,
}

/// A step: where it comes from, if that is known, its fact, the places of its premises, its rule.
#[derive(Drop, Serialize)]
pub(crate) struct StepObject<'a> {
    by: Option<SourceObject<'a>>,
    fact: FactObject,
    from: Vec<usize>,
    rule: String,
}

/// A fact, and the steps of a chain that derives it, if the command gives chains.
#[derive(Drop, Serialize)]
struct ChainAnswer<'a> {
    answer: &'static str,
    command: &'static str,
    fact: FactObject,
    schema: u32,
    #[serde(skip_serializing_if = "Option::is_none")]
    steps: Option<Vec<StepObject<'a>>>,
}

/// Where a step comes from.
fn source_object(source: Source<'_>) -> SourceObject<'_> {
    let mut object = SourceObject {
        argument: None,
        kind: "line",
        line: None,
        routine: None,
        subsystem: None,
        task: None,
        type_name: None,
    };
    match source {
        Source::Line(line) => object.line = Some(line),
        Source::Slot(names) => {
            object.argument = Some(names.argument);
            object.kind = "slot";
            object.routine = Some(names.routine);
            object.subsystem = Some(names.subsystem);
            object.type_name = Some(names.type_name);
        }
        Source::Subsystem(name) => {
            object.kind = "subsystem";
            object.subsystem = Some(name);
        }
        Source::KernelPort(name) => {
            object.kind = "task";
            object.task = Some(name);
        }
    }
    object
}

/// The places of premises: a place that is both premises once.
fn places(alloc: Global, premises: Places) -> Result<Vec<usize>, AllocError> {
    match premises {
        Places::Empty => Ok(Vec::new(alloc)),
        Places::Two(one, other) if one != other => Ok(vec![in alloc; one, other]?),
        Places::One(one) | Places::Two(one, _) => Ok(vec![in alloc; one]?),
    }
}

/// The word of a rule.
pub(crate) fn rule_word(alloc: Global, rule: RuleName) -> Result<String, AllocError> {
    let number = rule.number();
    format!(in alloc; "K{number}")
}

/// A step of a chain.
fn step_object<'a>(
    alloc: Global,
    sources: &Sources<'a>,
    steps: &[Step],
    step: &Step,
) -> Result<StepObject<'a>, AllocError> {
    Ok(StepObject {
        by: sources.source(steps, step).map(source_object),
        fact: fact_object(alloc, sources.wired(), step.fact)?,
        from: places(alloc, step.premises)?,
        rule: rule_word(alloc, step.rule)?,
    })
}

/// The steps of a chain.
pub(crate) fn step_objects<'a>(
    alloc: Global,
    sources: &Sources<'a>,
    steps: &[Step],
) -> Result<Vec<StepObject<'a>>, AllocError> {
    steps
        .iter()
        .map(|step| step_object(alloc, sources, steps, step))
        .try_collect(alloc)
}

/// The answer of a command that has this fact and these steps.
fn fact_answer(
    alloc: Global,
    (answer, command): (&'static str, &'static str),
    fact: FactObject,
    steps: Option<Vec<StepObject<'_>>>,
) -> Result<String, AllocError> {
    let answer = ChainAnswer {
        answer,
        command,
        fact,
        schema: SCHEMA,
        steps,
    };
    json_text(alloc, &answer)
}

/// A fact, and the steps of a chain that derives it, with where they come from.
pub fn chain_json(
    alloc: Global,
    system: &System,
    fact: Fact,
    steps: &[Step],
) -> Result<String, AllocError> {
    let wired = &system.wired;
    let sources = Sources::new(alloc, wired, system.lines.as_slice())?;
    let fact = fact_object(alloc, wired, fact)?;
    let steps = step_objects(alloc, &sources, steps)?;
    fact_answer(alloc, ("chain", "explain"), fact, Some(steps))
}

/// A fact that no chain derives.
pub fn none_json(alloc: Global, wired: &Wired, fact: Fact) -> Result<String, AllocError> {
    let fact = fact_object(alloc, wired, fact)?;
    fact_answer(alloc, ("none", "explain"), fact, Some(Vec::new(alloc)))
}

/// That nothing is drawn, since no chain leads to the fact.
pub fn undrawn_json(alloc: Global, wired: &Wired, fact: Fact) -> Result<String, AllocError> {
    let fact = fact_object(alloc, wired, fact)?;
    fact_answer(alloc, ("none", "graph"), fact, None)
}
