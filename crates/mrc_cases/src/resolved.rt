//! Wirings over MIG texts, and what is asked of them.

use crate::answers;
use crate::claims::claim;
use crate::systems::{first_part, wired_of};
use anyhow::Result;
use mrc_wiring::Wired;
use std::alloc::{AllocError, Global};

/// The answer to a question of a wiring, where `more` says of what it is asked.
fn answer(alloc: Global, question: &str, wired: &Wired, more: &str) -> Result<String, AllocError> {
    match question {
        "classes" => wired.classes().to_string(alloc),
        "interfaces" => wired.interfaces().len().to_string(alloc),
        "holdings" => answers::holdings(alloc, wired),
        "lines" => answers::lines(alloc, wired),
        "labels" => answers::labels(alloc, wired),
        "accepts" => answers::accepts(alloc, wired),
        "admits" => answers::admitted(alloc, wired, more),
        "takes" => answers::taken(alloc, wired),
        "births" => answers::births(alloc, wired),
        "born" => answers::born(alloc, wired),
        "names" => answers::class_names(alloc, wired),
        "tasks" => answers::task_names(alloc, wired),
        "class" => answers::class_named(alloc, wired, more),
        "task" => answers::task_named(alloc, wired, more),
        _ => String::from_str(alloc, "no question"),
    }
}

/// The same over MIG texts and a wiring.
fn answered(alloc: Global, question: &str, list: &str, wiring: &str, more: &str) -> Result<String> {
    let wired = wired_of(alloc, list, wiring)?;
    Ok(answer(alloc, question, &wired, more)?)
}

/// The answer to a question about a wiring over MIG texts: a question, the texts, the wiring and
/// what is asked about, with `|` between them.
pub fn resolved(alloc: Global, text: &str) -> Result<String> {
    let (question, text) = first_part(text);
    let (list, text) = first_part(text);
    let (wiring, more) = first_part(text);
    match question {
        "claim" => claim(alloc, list, wiring, more),
        _ => answered(alloc, question, list, wiring, more),
    }
}
