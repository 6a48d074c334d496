//! Attacks as objects.

use crate::json::{Making, SCHEMA, json_text};
use crate::json_facts::{FactObject, fact_object};
use crate::lines::{TextLines, lines_on};
use mrc_attack::Attack;
use mrc_why::forbidden_fact;
use mrc_wiring::Wired;
use serde::Serialize;
use std::alloc::{AllocError, Global};

/// What was looked for, and the calls that lead there, if any were found.
#[derive(Drop, Serialize)]
struct AttackObject<'a> {
    calls: Vec<&'a str>,
    /// Whether the search ended at a bound, and found none.
    cut: bool,
    fact: FactObject,
    line: u32,
    real: bool,
    text: &'a str,
    /// Whether the line is one of the wiring, about a trusted task.
    trusted: bool,
}

/// Attacks, in the order of what they are about.
#[derive(Drop, Serialize)]
struct AttacksAnswer<'a> {
    answer: &'static str,
    attacks: Vec<AttackObject<'a>>,
    command: &'a str,
    notices: Vec<&'a str>,
    schema: u32,
}

/// The calls of a script, a line each.
fn calls_of(alloc: Global, script: &Option<String>) -> Result<Vec<&str>, AllocError> {
    match script {
        Some(script) => script
            .split_terminator('\n')
            .map(|line| line.trim())
            .collect(alloc),
        None => Ok(Vec::new(alloc)),
    }
}

/// An attack. `quoted` has the lines of the text in which its line is.
fn attack_object<'a>(
    alloc: Global,
    wired: &Wired,
    quoted: &TextLines<'a>,
    attack: &'a Attack,
) -> Result<AttackObject<'a>, AllocError> {
    let aim = &attack.aim;
    Ok(AttackObject {
        calls: calls_of(alloc, &attack.script)?,
        cut: attack.cut,
        fact: fact_object(alloc, wired, forbidden_fact(&aim.line))?,
        line: aim.line.line,
        real: attack.script.is_some(),
        text: quoted.line(aim.line.line),
        trusted: aim.trusted,
    })
}

/// Attacks, in their order.
fn attack_objects<'a>(
    making: &Making<'a>,
    wired: &Wired,
    found: &'a [Attack],
) -> Result<Vec<AttackObject<'a>>, AllocError> {
    let alloc = making.alloc;
    let wiring = TextLines::of(alloc, making.wiring)?;
    let policy = TextLines::of(alloc, making.policy)?;
    let mut objects = Vec::new(alloc);
    for attack in found {
        let quoted = if attack.aim.trusted { &wiring } else { &policy };
        objects.push(attack_object(alloc, wired, quoted, attack)?)?;
    }
    Ok(objects)
}

/// Attacks on a system of this wiring, each with its line of the policy or the wiring, and with the
/// calls that were found.
pub fn attacks_json(
    making: &Making<'_>,
    wired: &Wired,
    found: &[Attack],
) -> Result<String, AllocError> {
    let answer = AttacksAnswer {
        answer: "attacks",
        attacks: attack_objects(making, wired, found)?,
        command: making.command,
        notices: lines_on(making.alloc, making.notices)?,
        schema: SCHEMA,
    };
    json_text(making.alloc, &answer)
}
