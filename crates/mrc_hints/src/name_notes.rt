//! Sentences that help to mend a fault of names.

ghost use Rattle.std.specs.Prelude.{◌<◌, length, IfSome};

use crate::known_names::{Known, Unknown, name_of};
use crate::named::Named;
use mrc_base::OrMemory;
use mrc_base::limits::{FEW_INTERFACES, INTERFACES};
use mrc_forms::Interface;
use mrc_place::{did_you_mean, listed, nearest, one_note};
use mrc_wiring_text::{Edition, wiring_edition};
use std::alloc::{AllocError, Global};

fn task_note(is_wiring: bool) -> &'static str {
    if is_wiring {
        "no line above declares a task of this name"
    } else {
        "the wiring has no task of this name"
    }
}

fn port_note(is_wiring: bool) -> &'static str {
    if is_wiring {
        "no line above declares a port of this name"
    } else {
        "the wiring has no port of this name"
    }
}

fn births_note(alloc: Global, is_wiring: bool, task: &str) -> Result<String, AllocError> {
    if is_wiring {
        format!(in alloc; "no births line of the task {task} above has this kind")
    } else {
        format!(in alloc; "no births line of the task {task} has this kind in the wiring")
    }
}

/// Some words, and a list of names.
fn with_names(alloc: Global, words: &str, names: &[&str]) -> Result<String, AllocError> {
    let list = listed(alloc, names)?;
    format!(in alloc; "{words}{list}")
}

fn subsystem_note(alloc: Global, known: &[&str]) -> Result<String, AllocError> {
    if known.is_empty() {
        return String::from_str(alloc, "no MIG file was given");
    }
    let words = "no MIG file that was given has this subsystem; they have: ";
    with_names(alloc, words, known)
}

fn types_part(alloc: Global, known: &[&str]) -> Result<String, AllocError> {
    if known.is_empty() {
        return String::from_str(alloc, "no routine of it has port arguments");
    }
    with_names(alloc, "its types of port arguments: ", known)
}

fn type_note(alloc: Global, subsystem: &str, known: &[&str]) -> Result<String, AllocError> {
    let types = types_part(alloc, known)?;
    format!(in alloc; "no port argument of the subsystem {subsystem} has this type; {types}")
}

/// Why the name is not known, if these are the names that are.
fn unknown_note(
    alloc: Global,
    is_wiring: bool,
    known: &[&str],
    named: Named<'_>,
) -> Result<String, AllocError> {
    match named {
        Named::Task(_) => String::from_str(alloc, task_note(is_wiring)),
        Named::Port(_) => String::from_str(alloc, port_note(is_wiring)),
        Named::Subsystem(_) => subsystem_note(alloc, known),
        Named::SlotType { subsystem, .. } => type_note(alloc, subsystem, known),
        Named::Births { task, .. } => births_note(alloc, is_wiring, task),
        Named::Fit => Ok(String::new(alloc)),
    }
}

/// What the known names are, if the first note does not have them.
fn heading(is_wiring: bool, named: Named<'_>) -> Option<&'static str> {
    match (named, is_wiring) {
        (Named::Task(_), true) => Some("tasks declared above: "),
        (Named::Task(_), false) => Some("tasks of the wiring: "),
        (Named::Port(_), true) => Some("ports declared above: "),
        (Named::Port(_), false) => Some("ports of the wiring: "),
        _ => None,
    }
}

/// The nearest of the known names, or else all of them, if there are any and they have a heading.
fn known_note(
    alloc: Global,
    is_wiring: bool,
    known: &[&str],
    named: Named<'_>,
) -> Result<Option<String>, AllocError> {
    if let Some(name) = nearest(alloc, name_of(named), known)? {
        return Ok(Some(did_you_mean(alloc, name)?));
    }
    match heading(is_wiring, named) {
        Some(words) if !known.is_empty() => Ok(Some(with_names(alloc, words, known)?)),
        _ => Ok(None),
    }
}

/// Where it is declared below, or else a known name.
fn help_note(
    alloc: Global,
    known: &Known<'_>,
    unknown: &Unknown<'_>,
) -> Result<Option<String>, AllocError> {
    let named = unknown.mention.named;
    match known.later(named) {
        Some(line) => Ok(Some(format!(in alloc; "declared below, on line {line}")?)),
        None => known_note(alloc, known.line.is_some(), &unknown.known, named),
    }
}

/// The notes of a name that is not known.
pub(crate) fn unknown_notes(
    alloc: Global,
    known: &Known<'_>,
    unknown: &Unknown<'_>,
) -> Result<Vec<String>, AllocError> {
    let named = unknown.mention.named;
    let first = unknown_note(alloc, known.line.is_some(), &unknown.known, named)?;
    let mut notes = vec![in alloc; first]?;
    if let Some(help) = help_note(alloc, known, unknown)? {
        notes.push(help)?;
    }
    Ok(notes)
}

/// Where it is declared above.
pub(crate) fn twice_notes(
    alloc: Global,
    earlier: Option<usize>,
) -> Result<Vec<String>, AllocError> {
    match earlier {
        Some(line) => {
            let note = format!(in alloc; "declared above, on line {line}")?;
            Ok(vec![in alloc; note]?)
        }
        None => Ok(Vec::new(alloc)),
    }
}

/// How many there may be.
pub(crate) fn many_notes(alloc: Global, named: Named<'_>) -> Result<Vec<String>, AllocError> {
    match named {
        Named::Task(_) => one_note(alloc, "a wiring has at most 64 tasks"),
        Named::Port(_) => one_note(alloc, "a wiring has at most 256 ports"),
        _ => Ok(Vec::new(alloc)),
    }
}

/// The place of the first interface of this name.
fn place_named(interfaces: &[Interface], name: &str) -> Option<usize>
    ensures { IfSome result (λ place. place < length interfaces.now) }
{
    interfaces
        .iter()
        .position(|interface| name == interface.name())
}

/// The places of the first two interfaces of one name.
fn twin(interfaces: &[Interface]) -> Option<(usize, usize)> {
    for (first, interface) in interfaces.iter().enumerate() {
        if let Some(behind) = place_named(&interfaces[first + 1..], interface.name()) {
            return Some((first, first + 1 + behind));
        }
    }
    None
}

fn twin_text(alloc: Global, first: &str, second: &str, name: &str) -> Result<String, AllocError> {
    format!(in alloc; "{first} and {second} have the same subsystem: {name}")
}

/// The note of two files and of an interface, which has their subsystem's name.
fn twin_note(
    alloc: Global,
    first: Option<&str>,
    second: Option<&str>,
    interface: Option<&Interface>,
) -> Result<Vec<String>, AllocError> {
    match (first, second, interface) {
        (Some(first), Some(second), Some(interface)) => {
            let note = twin_text(alloc, first, second, interface.name())?;
            Ok(vec![in alloc; note]?)
        }
        _ => Ok(Vec::new(alloc)),
    }
}

/// The files that have the first two interfaces of one name.
pub(crate) fn twin_notes(
    alloc: Global,
    files: &[&str],
    interfaces: &[Interface],
) -> Result<Vec<String>, AllocError> {
    match twin(interfaces) {
        Some((first, second)) => {
            let interface = interfaces.get(first);
            twin_note(
                alloc,
                files.get(first).copied(),
                files.get(second).copied(),
                interface,
            )
        }
        None => Ok(Vec::new(alloc)),
    }
}

/// How many files a wiring of this text may have, and what one more is.
fn one_too_many(alloc: Global, wiring: &str) -> Result<(usize, &'static str), AllocError> {
    match wiring_edition(alloc, wiring.as_bytes()) {
        Ok(Edition::First) | Ok(Edition::Second) => {
            let text = "is the 17th MIG file: a wiring of version 1 or 2 has at most 16, one of \
                        version 3 has 256";
            Ok((FEW_INTERFACES, text))
        }
        Err(OrMemory::Memory) => Err(AllocError),
        _ => Ok((
            INTERFACES,
            "is the 257th MIG file: a wiring has at most 256",
        )),
    }
}

/// The file that is one too many for a wiring of this text.
pub(crate) fn last_file(
    alloc: Global,
    wiring: &str,
    files: &[&str],
) -> Result<Vec<String>, AllocError> {
    let (most, text) = one_too_many(alloc, wiring)?;
    match files.get(most) {
        Some(file) => {
            let note = format!(in alloc; "{file} {text}")?;
            Ok(vec![in alloc; note]?)
        }
        None => Ok(Vec::new(alloc)),
    }
}
