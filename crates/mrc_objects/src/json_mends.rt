//! Mends of a wiring as objects.

use crate::json::{Making, SCHEMA, json_text, short_text};
use crate::lines::TextLines;
use mrc_mend::{Answer, Change, Mend, Mends, Restriction, admit_line, class_line, trust_line};
use serde::Serialize;
use std::alloc::{AllocError, Global};

/// A line of the wiring that is changed so: its number, unless it is added, and its text; and of
/// the first line of a change how many broken lines this mends, if that is told.
#[derive(Drop, Serialize)]
struct ChangeObject {
    kind: &'static str,
    #[serde(skip_serializing_if = "Option::is_none")]
    line: Option<u32>,
    #[serde(skip_serializing_if = "Option::is_none")]
    mends: Option<usize>,
    text: String,
}

/// A mend: its changes, and how many facts are lost by them.
#[derive(Drop, Serialize)]
struct MendObject {
    changes: Vec<ChangeObject>,
    loses: usize,
}

/// What all broken lines have in common, and how many they are.
#[derive(Drop, Serialize)]
struct CauseObject<'a> {
    lines: usize,
    text: &'a str,
}

/// The mends that were found.
#[derive(Drop, Serialize)]
struct MendsAnswer<'a> {
    answer: &'static str,
    cause: Option<CauseObject<'a>>,
    command: &'static str,
    complete: bool,
    mends: Vec<MendObject>,
    schema: u32,
}

/// A line that is changed so: its number, unless it is added, and its text.
fn change_object(kind: &'static str, line: Option<u32>, text: String) -> ChangeObject {
    ChangeObject {
        kind,
        line,
        mends: None,
        text,
    }
}

/// Adds the lines that restrict a type: one for each class, and if there are none, one that has
/// `none`.
fn add_restricting(
    alloc: Global,
    objects: &mut Vec<ChangeObject>,
    restriction: &Restriction,
) -> Result<(), AllocError> {
    if restriction.classes.is_empty() {
        let line = admit_line(alloc, restriction, "none")?;
        objects.push(change_object("add", None, line))?;
    }
    for class in &restriction.classes {
        let line = class_line(alloc, restriction, class)?;
        objects.push(change_object("add", None, line))?;
    }
    Ok(())
}

/// Adds the lines of a change of the wiring that has these lines.
fn add_lines(
    alloc: Global,
    objects: &mut Vec<ChangeObject>,
    wiring: &TextLines<'_>,
    change: &Change,
) -> Result<(), AllocError> {
    let object = match change {
        Change::Remove(number) => {
            let text = String::from_str(alloc, wiring.line(*number))?;
            change_object("remove", Some(*number), text)
        }
        Change::Narrow(narrowing) => {
            let text = String::from_str(alloc, narrowing.text.as_str())?;
            change_object("change", Some(narrowing.number), text)
        }
        Change::Limit(limitation) => change_object("add", None, trust_line(alloc, limitation)?),
        Change::Restrict(restriction) => return add_restricting(alloc, objects, restriction),
    };
    objects.push(object)?;
    Ok(())
}

/// Adds a change of the wiring that has these lines, and how many broken lines it mends, if that is
/// told.
fn add_change(
    alloc: Global,
    objects: &mut Vec<ChangeObject>,
    wiring: &TextLines<'_>,
    change: &Change,
    mends: Option<usize>,
) -> Result<(), AllocError> {
    let first = objects.len();
    add_lines(alloc, objects, wiring, change)?;
    if let Some(object) = objects.get_mut(first) {
        object.mends = mends;
    }
    Ok(())
}

/// A mend of the wiring that has these lines.
fn mend_object(
    alloc: Global,
    wiring: &TextLines<'_>,
    mend: &Mend,
) -> Result<MendObject, AllocError> {
    let mut changes = Vec::new(alloc);
    for (place, change) in mend.changes.iter().enumerate() {
        let mends = mend.mended.get(place).copied();
        add_change(alloc, &mut changes, wiring, change, mends)?;
    }
    let loses = mend.lost;
    Ok(MendObject { changes, loses })
}

/// Mends of the wiring that has these lines.
fn found_json(alloc: Global, wiring: &TextLines<'_>, found: &Mends) -> Result<String, AllocError> {
    let mends = found
        .mends
        .iter()
        .map(|mend| mend_object(alloc, wiring, mend));
    let answer = MendsAnswer {
        answer: if found.mends.is_empty() {
            "none"
        } else {
            "changes"
        },
        cause: found.cause.as_ref().map(|cause| CauseObject {
            lines: cause.lines,
            text: cause.fact.as_str(),
        }),
        command: "mend",
        complete: !found.cut_off,
        mends: mends.try_collect(alloc)?,
        schema: SCHEMA,
    };
    json_text(alloc, &answer)
}

/// What there is to mend: that it is nothing, or the mends that were found. A line of the wiring
/// that is removed is quoted.
pub fn mends_json(making: &Making<'_>, answer: &Answer) -> Result<String, AllocError> {
    match answer {
        Answer::Nothing => short_text(making, "YES", false, None),
        Answer::Found(found) => {
            let lines = TextLines::of(making.alloc, making.wiring)?;
            found_json(making.alloc, &lines, found)
        }
    }
}
