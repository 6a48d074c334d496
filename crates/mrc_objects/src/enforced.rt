//! What a kernel or a filter has to enforce at ports: which messages are delivered, and which rights
//! their slots take.

use crate::promises::{class_of, class_words};
use mrc_base::limits::KINDS;
use mrc_wiring_text::{ClassName, Item, WiringLine, WiringSays};
use serde::Serialize;
use std::alloc::{AllocError, Global};
use std::collections::{BTreeMap, BTreeSet};

/// What the ports of a class deliver.
#[derive(Drop, Serialize)]
pub(crate) struct DeliveredObject {
    class: String,
    /// The items of its label, in the words of a wiring.
    items: Vec<String>,
    /// The lines that say so: none of births of kind 0 that no line names.
    lines: Vec<u32>,
    text: String,
    /// The class in the words of a wiring.
    #[serde(skip)]
    words: String,
}

/// What the slots of a type take.
#[derive(Drop, Serialize)]
pub(crate) struct AdmittedObject<'a> {
    /// The classes of whose ports they take rights.
    admits: Vec<String>,
    lines: Vec<u32>,
    subsystem: &'a str,
    text: String,
    #[serde(rename = "type")]
    type_name: &'a str,
    /// The classes in the words of a wiring.
    #[serde(skip)]
    words: Vec<String>,
}

/// The `births` lines of a wiring by their tasks and kinds.
type BirthLines<'a> = BTreeMap<(&'a str, u8), (u32, &'a [Item])>;

/// An item in the words of a wiring.
fn item_words(alloc: Global, item: &Item) -> Result<String, AllocError> {
    match item {
        Item::Request(name) => format!(in alloc; "request {}", name.as_str()),
        Item::Reply(name) => format!(in alloc; "reply {}", name.as_str()),
        Item::Destroyed => String::from_str(alloc, "destroyed"),
    }
}

/// What an item lets a port deliver.
fn delivered_item(alloc: Global, item: &Item) -> Result<String, AllocError> {
    match item {
        Item::Request(name) => format!(in alloc; "requests of {}", name.as_str()),
        Item::Reply(name) => format!(in alloc; "replies of {}", name.as_str()),
        Item::Destroyed => String::from_str(alloc, "port-destroyed notices"),
    }
}

/// What a port of these items delivers.
fn delivered_text(alloc: Global, items: &[Item]) -> Result<String, AllocError> {
    let mut text = String::from_str(alloc, "mach_msg delivers")?;
    if items.is_empty() {
        text.push_str(" nothing")?;
    }
    for (number, item) in items.iter().enumerate() {
        let part = delivered_item(alloc, item)?;
        text.push_str(if number == 0 { " only " } else { ", " })?;
        text.push_str(part.as_str())?;
    }
    Ok(text)
}

/// The items in the words of a wiring.
fn items_words(alloc: Global, items: &[Item]) -> Result<Vec<String>, AllocError> {
    let mut words = Vec::new(alloc);
    for item in items {
        words.push(item_words(alloc, item)?)?;
    }
    Ok(words)
}

/// What the ports of a class of these words deliver, by these lines.
fn delivered(
    alloc: Global,
    words: String,
    lines: Vec<u32>,
    items: &[Item],
) -> Result<DeliveredObject, AllocError> {
    Ok(DeliveredObject {
        class: class_of(alloc, words.as_str())?,
        items: items_words(alloc, items)?,
        lines,
        text: delivered_text(alloc, items)?,
        words,
    })
}

/// What the births of a task and a kind deliver: nothing, if no line names them.
fn births_delivered<'a>(
    alloc: Global,
    births: &BirthLines<'a>,
    task: &'a str,
    kind: u8,
) -> Result<Option<DeliveredObject>, AllocError> {
    let found = births.get(&(task, kind));
    let words = match kind {
        0 => format!(in alloc; "births {task}")?,
        kind => format!(in alloc; "births {task} {kind}")?,
    };
    match found {
        Some((line, items)) => {
            let lines = vec![in alloc; *line]?;
            Ok(Some(delivered(alloc, words, lines, items)?))
        }
        None if kind == 0 => Ok(Some(delivered(alloc, words, Vec::new(alloc), &[])?)),
        None => Ok(None),
    }
}

/// Adds what the births of a task deliver, by their kinds.
fn add_births<'a>(
    alloc: Global,
    all: &mut Vec<DeliveredObject>,
    births: &BirthLines<'a>,
    task: &'a str,
) -> Result<(), AllocError> {
    for kind in 0..KINDS {
        if let Some(one) = births_delivered(alloc, births, task, kind)? {
            all.push(one)?;
        }
    }
    Ok(())
}

/// The `births` lines by their tasks and kinds.
fn birth_lines(alloc: Global, lines: &[WiringLine]) -> Result<BirthLines<'_>, AllocError> {
    let mut births = BTreeMap::new(alloc);
    for line in lines {
        if let WiringSays::Births {
            task,
            kind,
            accepts,
        } = &line.says
        {
            let _ = births.insert(
                (task.as_str(), kind.number()),
                (line.number, accepts.as_slice()),
            )?;
        }
    }
    Ok(births)
}

/// What is delivered at wired ports and at births, in the order of the numbers of their classes.
pub(crate) fn all_delivered(
    alloc: Global,
    lines: &[WiringLine],
) -> Result<Vec<DeliveredObject>, AllocError> {
    let mut all = Vec::new(alloc);
    for line in lines {
        if let WiringSays::Port { port, accepts, .. } = &line.says {
            let words = format!(in alloc; "port {}", port.as_str())?;
            let number = vec![in alloc; line.number]?;
            all.push(delivered(alloc, words, number, accepts.as_slice())?)?;
        }
    }
    let births = birth_lines(alloc, lines)?;
    for line in lines {
        if let WiringSays::Task(task) = &line.says {
            add_births(alloc, &mut all, &births, task.as_str())?;
        }
    }
    Ok(all)
}

/// The subsystem of an item, if it has one.
fn subsystem_of(item: &Item) -> Option<&str> {
    match item {
        Item::Request(name) | Item::Reply(name) => Some(name.as_str()),
        Item::Destroyed => None,
    }
}

/// The subsystems of which a port accepts messages.
fn accepted(alloc: Global, lines: &[WiringLine]) -> Result<BTreeSet<&str>, AllocError> {
    let mut names = BTreeSet::new(alloc);
    for line in lines {
        let items = match &line.says {
            WiringSays::Port { accepts, .. } | WiringSays::Births { accepts, .. } => {
                accepts.as_slice()
            }
            _ => &[],
        };
        for item in items {
            if let Some(name) = subsystem_of(item) {
                let _ = names.insert(name)?;
            }
        }
    }
    Ok(names)
}

/// Adds a line about the slots of a type.
fn add_line(
    alloc: Global,
    admitted: &mut AdmittedObject<'_>,
    number: u32,
    class: &Option<ClassName>,
) -> Result<(), AllocError> {
    if admitted.lines.last().copied() != Some(number) {
        admitted.lines.push(number)?;
    }
    if let Some(class) = class {
        let words = class_words(alloc, class)?;
        if !admitted
            .words
            .iter()
            .any(|word| word.as_str() == words.as_str())
        {
            admitted.admits.push(class_of(alloc, words.as_str())?)?;
            admitted.words.push(words)?;
        }
    }
    Ok(())
}

/// What slots take that admit these classes.
fn admitted_text(alloc: Global, classes: &[String]) -> Result<String, AllocError> {
    if classes.is_empty() {
        return String::from_str(alloc, "no right");
    }
    let mut text = String::from_str(alloc, "only rights on ports of ")?;
    for (number, class) in classes.iter().enumerate() {
        if number > 0 {
            text.push_str(", ")?;
        }
        text.push_str(class.as_str())?;
    }
    Ok(text)
}

/// What slots of types take of which a line says it, in the order of the first lines, of subsystems
/// of which a port accepts messages.
pub(crate) fn all_admitted(
    alloc: Global,
    lines: &[WiringLine],
) -> Result<Vec<AdmittedObject<'_>>, AllocError> {
    let accepted = accepted(alloc, lines)?;
    let mut places = BTreeMap::new(alloc);
    let mut all: Vec<AdmittedObject<'_>> = Vec::new(alloc);
    for line in lines {
        let WiringSays::Admit {
            subsystem,
            type_name,
            class,
        } = &line.says
        else {
            continue;
        };
        let (subsystem, type_name) = (subsystem.as_str(), type_name.as_str());
        if !accepted.contains(&subsystem) {
            continue;
        }
        let place = match places.get(&(subsystem, type_name)) {
            Some(place) => *place,
            None => all.len(),
        };
        if place == all.len() {
            let _ = places.insert((subsystem, type_name), place)?;
            all.push(AdmittedObject {
                admits: Vec::new(alloc),
                lines: Vec::new(alloc),
                subsystem,
                text: String::new(alloc),
                type_name,
                words: Vec::new(alloc),
            })?;
        }
        if let Some(admitted) = all.get_mut(place) {
            add_line(alloc, admitted, line.number, class)?;
        }
    }
    for admitted in &mut all {
        admitted.text = admitted_text(alloc, admitted.words.as_slice())?;
    }
    Ok(all)
}

/// Numbers of lines, as they stand behind what they say.
fn lines_text(alloc: Global, lines: &[u32]) -> Result<String, AllocError> {
    match lines {
        [] => String::from_str(alloc, "(no line)"),
        [line] => format!(in alloc; "(line {line})"),
        [first, others @ ..] => {
            let mut text = format!(in alloc; "(lines {first}")?;
            for line in others {
                let more = format!(in alloc; ", {line}")?;
                text.push_str(more.as_str())?;
            }
            text.push_str(")")?;
            Ok(text)
        }
    }
}

/// The line of what is delivered at the ports of a class.
pub(crate) fn delivered_line(
    alloc: Global,
    delivered: &DeliveredObject,
) -> Result<String, AllocError> {
    let words = delivered.words.as_str();
    let text = delivered.text.as_str();
    let lines = lines_text(alloc, delivered.lines.as_slice())?;
    format!(in alloc; "{words}: {text} {lines}\n")
}

/// The line of what the slots of a type take.
pub(crate) fn admitted_line(
    alloc: Global,
    admitted: &AdmittedObject<'_>,
) -> Result<String, AllocError> {
    let subsystem = admitted.subsystem;
    let type_name = admitted.type_name;
    let text = admitted.text.as_str();
    let lines = lines_text(alloc, admitted.lines.as_slice())?;
    format!(in alloc; "{subsystem}.{type_name}: {text} {lines}\n")
}
