//! Messages before the filter.

use crate::messages::bytes_of;
use crate::systems::{first_part, wired_of};
use anyhow::Result;
use mrc_base::ClassId;
use mrc_desc::{Message, read_message};
use mrc_filter::{AcceptedForm, admit_port, judge};
use mrc_wiring::Wired;
use std::alloc::Global;

/// The class of a name, or of a number if the text is one.
fn class_of(wired: &Wired, text: &str) -> Result<ClassId> {
    match wired.class_named(text) {
        Some(class) => Ok(class),
        None => Ok(ClassId(text.parse()?)),
    }
}

/// Whether the slot of a form may carry a port: its argument's number and the port's class, with a
/// blank between them.
fn port_text(alloc: Global, wired: &Wired, form: &AcceptedForm<'_>, port: &str) -> Result<String> {
    let (slot, class) = port.split_once(' ').unwrap_or((port, ""));
    Ok(
        match admit_port(wired, form, slot.parse()?, class_of(wired, class)?) {
            Ok(()) => String::from_str(alloc, "; ok")?,
            Err(denied) => format!(in alloc; "; {denied}")?,
        },
    )
}

/// Where the form stands, and whether its slots may carry ports, which have `,` between them.
fn form_text(alloc: Global, wired: &Wired, form: &AcceptedForm<'_>, ports: &str) -> Result<String> {
    let mut text = format!(in alloc; "item {} id {}", form.item, form.id)?;
    if ports.is_empty() {
        return Ok(text);
    }
    for port in ports.split(',') {
        text.push_str(port_text(alloc, wired, form, port)?.as_str())?;
    }
    Ok(text)
}

/// The form that a message meets, or why it meets none.
fn judgement(
    alloc: Global,
    wired: &Wired,
    class: ClassId,
    message: &Message,
    ports: &str,
) -> Result<String> {
    match judge(wired, class, message) {
        Ok(form) => form_text(alloc, wired, &form, ports),
        Err(denied) => Err(denied.into()),
    }
}

/// The same of a message in hexadecimal digits.
fn judged_by(
    alloc: Global,
    wired: &Wired,
    class: &str,
    digits: &str,
    ports: &str,
) -> Result<String> {
    let message = read_message(alloc, bytes_of(alloc, digits)?.as_slice())?;
    judgement(alloc, wired, class_of(wired, class)?, &message, ports)
}

/// The form that a message meets, or why it meets none. The parts, with `|` between them, are the
/// class, the message, ports for its slots, the wiring, and MIG texts.
pub fn judged(alloc: Global, text: &str) -> Result<String> {
    let (class, text) = first_part(text);
    let (digits, text) = first_part(text);
    let (ports, text) = first_part(text);
    let (wiring, list) = first_part(text);
    let wired = wired_of(alloc, list, wiring)?;
    judged_by(alloc, &wired, class, digits, ports)
}
