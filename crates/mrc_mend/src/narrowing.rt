//! Lines whose classes accept less.

use crate::changes::Narrowing;
use crate::losing::First;
use mrc_base::{ClassId, Fact};
use mrc_closure::Step;
use mrc_why::Source;
use mrc_wiring::{ClassKind, ClassLabel, Wired};
use mrc_wiring_text::{Edition, Item, Items, WiringLine, WiringSays};
use std::alloc::{AllocError, Global};

/// An item, in the words of a wiring, and the class that accepts it.
#[derive(Drop)]
pub(crate) struct Accepted {
    pub(crate) class: ClassId,
    pub(crate) item: String,
}

/// The item in the words of a wiring.
fn item_words(alloc: Global, item: &Item) -> Result<String, AllocError> {
    match item {
        Item::Request(subsystem) => {
            let name = subsystem.as_str();
            format!(in alloc; "request {name}")
        }
        Item::Reply(subsystem) => {
            let name = subsystem.as_str();
            format!(in alloc; "reply {name}")
        }
        Item::Destroyed => String::from_str(alloc, "destroyed"),
    }
}

/// Adds the item, accepted by the class.
fn add_item(found: &mut Vec<Accepted>, class: ClassId, item: String) -> Result<(), AllocError> {
    found.push(Accepted { class, item })?;
    Ok(())
}

/// What has to be accepted for a step by which a message carries a right.
fn items_of_message(
    alloc: Global,
    wired: &Wired,
    destination: ClassId,
    class: ClassId,
    source: Option<Source<'_>>,
) -> Result<Vec<Accepted>, AllocError> {
    let mut found = Vec::new(alloc);
    match source {
        Some(Source::Slot(slot)) => {
            let name = slot.subsystem;
            add_item(
                &mut found,
                destination,
                format!(in alloc; "request {name}")?,
            )?;
            add_item(&mut found, destination, format!(in alloc; "reply {name}")?)?;
        }
        Some(Source::Subsystem(name)) => {
            add_item(
                &mut found,
                destination,
                format!(in alloc; "request {name}")?,
            )?;
            if wired.replies_fit() {
                add_item(&mut found, class, format!(in alloc; "reply {name}")?)?;
            }
        }
        Some(Source::Line(_)) | Some(Source::KernelPort(_)) | None => {}
    }
    Ok(found)
}

/// What has to be accepted for the step, which comes from there: one of these items.
pub(crate) fn items_of_step(
    alloc: Global,
    wired: &Wired,
    step: &Step,
    source: Option<Source<'_>>,
) -> Result<Vec<Accepted>, AllocError> {
    match step.fact {
        Fact::Carry {
            destination,
            class,
            ..
        } => items_of_message(alloc, wired, destination, class, source),
        Fact::Backup { notify, .. } => {
            let mut found = Vec::new(alloc);
            add_item(&mut found, notify, String::from_str(alloc, "destroyed")?)?;
            Ok(found)
        }
        Fact::Hold { .. } => Ok(Vec::new(alloc)),
    }
}

/// What a line says that the class accepts.
fn items_for<'a>(says: &'a WiringSays, label: &ClassLabel<'_>) -> Option<&'a Items> {
    let (kind, name, items) = match says {
        WiringSays::Port { port, accepts, .. } => (ClassKind::Port, port, accepts),
        WiringSays::Births {
            task,
            kind,
            accepts,
        } => (ClassKind::Births(kind.number()), task, accepts),
        WiringSays::Task(_)
        | WiringSays::HoldPort { .. }
        | WiringSays::HoldTask { .. }
        | WiringSays::Admit { .. }
        | WiringSays::Trust { .. }
        | WiringSays::RepliesFit => return None,
    };
    if kind == label.kind && name.as_str() == label.name {
        Some(items)
    } else {
        None
    }
}

/// The line up to the items that its class accepts.
fn line_start(alloc: Global, edition: Edition, says: &WiringSays) -> Result<String, AllocError> {
    match says {
        WiringSays::Port { port, receiver, .. } => {
            let port = port.as_str();
            let receiver = receiver.as_str();
            format!(in alloc; "port {port} receiver {receiver} accepts")
        }
        WiringSays::Births { task, kind, .. } => {
            let task = task.as_str();
            let kind = kind.number();
            if edition == Edition::First {
                format!(in alloc; "births {task} accepts")
            } else {
                format!(in alloc; "births {task} {kind} accepts")
            }
        }
        WiringSays::Task(_)
        | WiringSays::HoldPort { .. }
        | WiringSays::HoldTask { .. }
        | WiringSays::Admit { .. }
        | WiringSays::Trust { .. }
        | WiringSays::RepliesFit => Ok(String::new(alloc)),
    }
}

/// The items other than this one, in the words of a wiring.
fn other_items(alloc: Global, items: &Items, item: &str) -> Result<Vec<String>, AllocError> {
    let mut others = Vec::new(alloc);
    for known in items.as_slice() {
        let words = item_words(alloc, known)?;
        if words.as_str() != item {
            others.push(words)?;
        }
    }
    Ok(others)
}

/// Items with a comma between each two, or `none`.
fn items_text(alloc: Global, items: &[String]) -> Result<String, AllocError> {
    if items.is_empty() {
        return String::from_str(alloc, "none");
    }
    let mut text = String::new(alloc);
    for item in items {
        if !text.is_empty() {
            text.push_str(", ")?;
        }
        text.push_str(item.as_str())?;
    }
    Ok(text)
}

/// The line without the item among those that its class accepts; none if it is not among them.
fn without_item(
    alloc: Global,
    edition: Edition,
    line: &WiringLine,
    items: &Items,
    item: &str,
) -> Result<Option<Narrowing>, AllocError> {
    let others = other_items(alloc, items, item)?;
    if others.len() == items.as_slice().len() {
        return Ok(None);
    }
    let start = line_start(alloc, edition, &line.says)?;
    let rest = items_text(alloc, others.as_slice())?;
    let mut dropped = Vec::new(alloc);
    dropped.push(String::from_str(alloc, item)?)?;
    Ok(Some(Narrowing {
        number: line.number,
        text: format!(in alloc; "{start} {rest}")?,
        dropped,
    }))
}

/// Whether one line alone has this number: of version 4 a line can stand for several.
fn is_alone(lines: &[WiringLine], number: u32) -> bool {
    lines.iter().filter(|line| line.number == number).count() == 1
}

/// The line of the class without the item; none if no line says that the class accepts it, or the
/// line says it of other classes too. In version 4 no line of a wired port changes, since it may
/// say that the port is births, and policies are about it.
pub(crate) fn narrowed(
    alloc: Global,
    first: &First<'_>,
    lines: &[WiringLine],
    label: &ClassLabel<'_>,
    item: &str,
) -> Result<Option<Narrowing>, AllocError> {
    if first.is_wide && label.kind == ClassKind::Port {
        return Ok(None);
    }
    for line in lines {
        if let Some(items) = items_for(&line.says, label) {
            if !is_alone(lines, line.number) {
                return Ok(None);
            }
            return without_item(alloc, first.edition, line, items, item);
        }
    }
    Ok(None)
}
