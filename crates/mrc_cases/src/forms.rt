//! Tables of forms of MIG files.

use crate::messages::bytes_of;
use anyhow::{Result, bail};
use mrc_base::OrMemory;
use mrc_forms::{Form, FormKind, Interface, ItemTypes, Items, MessageKind, RequestKind};
use mrc_interface::{FileFault, read_interface, read_interfaces};
use std::alloc::{AllocError, Global};
use std::fmt::Write;

fn kind_word(kind: FormKind) -> &'static str {
    match kind {
        FormKind::Request(RequestKind::Routine) => "request",
        FormKind::Request(RequestKind::Simple) => "simple",
        FormKind::Request(RequestKind::Replied) => "replied",
        FormKind::Reply => "reply",
    }
}

fn put_types(out: &mut String, types: ItemTypes) -> Result<(), AllocError> {
    match types {
        ItemTypes::AnyData => write!(out, "any"),
        ItemTypes::One(number) => write!(out, "{number}"),
        ItemTypes::Send => write!(out, "17+19+20"),
        ItemTypes::SendOnce => write!(out, "18+21"),
        ItemTypes::Any => write!(out, "0-21"),
    }
}

/// An argument as its type numbers, size and number, with `*` behind a number that is a bound.
fn put_items(out: &mut String, items: Items) -> Result<(), AllocError> {
    write!(out, " ")?;
    put_types(out, items.types)?;
    if items.types.is_any_data() {
        return Ok(());
    }
    let star = if items.is_bound { "*" } else { "" };
    write!(out, "/{}/{}{star}", items.size, items.number)
}

/// The slots of a form, by argument, type numbers and type.
fn put_slots(out: &mut String, form: &Form) -> Result<(), AllocError> {
    for slot in form.slots() {
        write!(out, " {}:", slot.argument)?;
        put_types(out, slot.types)?;
        write!(out, ":{}", slot.type_name.as_str())?;
    }
    Ok(())
}

/// A form: what it is, its id, its arguments and its slots.
fn put_form(out: &mut String, form: &Form) -> Result<(), AllocError> {
    write!(out, "; {} {}", kind_word(form.kind()), form.id())?;
    for argument in form.arguments() {
        put_items(out, argument.items)?;
    }
    put_slots(out, form)
}

/// The forms of an id: that of its request, and that of its reply.
pub(crate) fn put_forms(
    out: &mut String,
    interface: &Interface,
    id: u32,
) -> Result<(), AllocError> {
    if let Some(form) = interface.request_form(id) {
        put_form(out, form)?;
    }
    if let Some(form) = interface.reply_form(id.wrapping_add(100)) {
        put_form(out, form)?;
    }
    Ok(())
}

/// The subsystem's name, its first id and how many ids it has.
pub(crate) fn head_text(alloc: Global, interface: &Interface) -> Result<String, AllocError> {
    let (base, count) = interface.ids();
    format!(in alloc; "{} {base} {count}", interface.name())
}

/// The same, and each form.
fn table_text(alloc: Global, interface: &Interface) -> Result<String, AllocError> {
    let (base, count) = interface.ids();
    let mut text = head_text(alloc, interface)?;
    let mut id = base;
    for _ in 0..count {
        put_forms(&mut text, interface, id)?;
        id = id.wrapping_add(1);
    }
    Ok(text)
}

/// The table of forms of a MIG file.
pub fn forms(alloc: Global, bytes: &[u8]) -> Result<String> {
    let interface = read_interface(alloc, bytes)?;
    Ok(table_text(alloc, &interface)?)
}

/// The name of an argument, and if it is a slot its number and its type.
fn put_name(out: &mut String, form: &Form, name: &str) -> Result<(), AllocError> {
    write!(out, " {name}")?;
    match form.slot_named(name) {
        Some(slot) => write!(out, "={}:{}", slot.argument, slot.type_name.as_str()),
        None => Ok(()),
    }
}

/// A form by the name of its routine: its id, and the names of its arguments.
fn put_named(
    out: &mut String,
    interface: &Interface,
    kind: MessageKind,
    name: &str,
) -> Result<(), AllocError> {
    let Some(form) = interface.form_named(kind, name) else {
        return write!(out, "; {name} has none");
    };
    write!(out, "; {} {name} {}", kind_word(form.kind()), form.id())?;
    for argument in form.arguments() {
        put_name(out, form, argument.name.as_str())?;
    }
    Ok(())
}

/// The forms of this kind of a table, by the names of their routines.
fn put_all_named(
    out: &mut String,
    interface: &Interface,
    kind: MessageKind,
) -> Result<(), AllocError> {
    for row in interface.rows() {
        if let Some(request) = row.form(MessageKind::Request) {
            put_named(out, interface, kind, request.name())?;
        }
    }
    Ok(())
}

/// The forms of a table by the names of their routines, those of replies behind those of requests.
fn names_text(alloc: Global, interface: &Interface) -> Result<String, AllocError> {
    let mut text = String::from_str(alloc, interface.name())?;
    put_all_named(&mut text, interface, MessageKind::Request)?;
    put_all_named(&mut text, interface, MessageKind::Reply)?;
    Ok(text)
}

/// The names in the forms of a MIG file.
pub fn names(alloc: Global, bytes: &[u8]) -> Result<String> {
    let interface = read_interface(alloc, bytes)?;
    Ok(names_text(alloc, &interface)?)
}

/// The files of a list, in hexadecimal digits with `,` between them.
fn files_of(alloc: Global, text: &str) -> Result<Vec<Vec<u8>>, AllocError> {
    let mut files = Vec::new(alloc);
    for digits in text.split(',') {
        files.push(bytes_of(alloc, digits)?)?;
    }
    Ok(files)
}

/// The name of each interface.
fn interface_names(alloc: Global, interfaces: &[Interface]) -> Result<String, AllocError> {
    let mut names = String::new(alloc);
    for interface in interfaces {
        let blank = if names.is_empty() { "" } else { " " };
        write!(names, "{blank}{}", interface.name())?;
    }
    Ok(names)
}

/// The name of each file of a list, or the number of the first that is refused, and its fault.
pub fn defs(alloc: Global, text: &str) -> Result<String> {
    match read_interfaces(alloc, files_of(alloc, text)?.as_slice()) {
        Ok(interfaces) => Ok(interface_names(alloc, interfaces.as_slice())?),
        Err(OrMemory::Fault(FileFault { file, fault })) => bail!("file {file}: {fault}"),
        Err(OrMemory::Memory) => bail!("Memory"),
    }
}
