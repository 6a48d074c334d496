//! The slots of messages, with the classes of which their types admit ports: as lines, and as
//! objects.

use crate::json::{SCHEMA, json_text};
use mrc_base::{ClassId, Disp};
use mrc_check::System;
use mrc_forms::{Argument, Form, Interface, ItemTypes, MessageKind, Row, Slot};
use mrc_wiring::{Wired, item_of};
use mrc_wiring_text::{WiringLine, WiringSays};
use mrc_words::class_word;
use serde::Serialize;
use std::alloc::{AllocError, Global};
use std::collections::BTreeSet;

/// A slot of a message.
#[derive(Drop, Serialize)]
struct SlotObject<'a> {
    /// The classes of which its type admits ports, if a line restricts the type.
    admits: Option<Vec<String>>,
    /// Whether it is one of a reply, and the request has one of the same argument and type.
    #[serde(skip)]
    again: bool,
    argument: &'a str,
    disposition: &'static str,
    id: u32,
    message: &'static str,
    routine: &'a str,
    subsystem: &'a str,
    #[serde(rename = "type")]
    type_name: &'a str,
}

/// The slots of messages, in the order of their files, of ids and of arguments.
#[derive(Drop, Serialize)]
struct SlotsAnswer<'a> {
    answer: &'static str,
    command: &'static str,
    schema: u32,
    slots: Vec<SlotObject<'a>>,
}

/// A wiring, and the types that its lines restrict: their subsystems and names.
#[derive(Drop)]
struct Types<'a> {
    wired: &'a Wired,
    restricted: BTreeSet<(&'a str, &'a str)>,
}

/// A message of a wiring: a form of the interface of this number.
#[derive(Clone, Copy)]
struct Message<'a> {
    kind: MessageKind,
    number: usize,
    interface: &'a Interface,
    row: &'a Row,
    form: &'a Form,
}

/// The type that a line restricts, if it is an admit line.
fn restricted_by(line: &WiringLine) -> Option<(&str, &str)> {
    match &line.says {
        WiringSays::Admit {
            subsystem,
            type_name,
            ..
        } => Some((subsystem.as_str(), type_name.as_str())),
        _ => None,
    }
}

/// The classes that the type of this number admits.
fn admitted(alloc: Global, wired: &Wired, sort: usize) -> Result<Vec<String>, AllocError> {
    (0..wired.classes())
        .filter(|class| wired.admits(sort, ClassId(*class)))
        .map(|class| class_word(alloc, wired, ClassId(class)))
        .try_collect(alloc)
}

/// The number of the type of the slot that is the argument of this number.
fn sort_of(wired: &Wired, message: &Message<'_>, place: usize) -> usize {
    let item = item_of(message.kind, message.number);
    wired
        .item_form(item, message.form.id())
        .map_or(0, |typed| typed.sort(place))
}

/// The classes of which the type of a slot admits ports, if a line restricts the type.
fn admits<'a>(
    alloc: Global,
    types: &Types<'a>,
    message: &Message<'a>,
    slot: &'a Slot,
) -> Result<Option<Vec<String>>, AllocError> {
    let restricted = (message.interface.name(), slot.type_name.as_str());
    if !types.restricted.contains(&restricted) {
        return Ok(None);
    }
    let sort = sort_of(types.wired, message, slot.argument);
    Ok(Some(admitted(alloc, types.wired, sort)?))
}

/// The word of a kind of message.
fn message_word(kind: MessageKind) -> &'static str {
    match kind {
        MessageKind::Request => "request",
        MessageKind::Reply => "reply",
    }
}

/// The name of a disposition, or of those among which the sender chooses.
fn disposition_word(types: ItemTypes) -> &'static str {
    match types {
        ItemTypes::AnyData => "",
        ItemTypes::One(number) => Disp::of_number(number).map_or("", number_word),
        ItemTypes::Send => "MACH_MSG_TYPE_PORT_SEND",
        ItemTypes::SendOnce => "MACH_MSG_TYPE_PORT_SEND_ONCE",
        ItemTypes::Any => "MACH_MSG_TYPE_POLYMORPHIC",
    }
}

/// The name of one disposition.
fn number_word(disposition: Disp) -> &'static str {
    match disposition {
        Disp::MoveReceive => "MACH_MSG_TYPE_MOVE_RECEIVE",
        Disp::MoveSend => "MACH_MSG_TYPE_MOVE_SEND",
        Disp::MoveSendOnce => "MACH_MSG_TYPE_MOVE_SEND_ONCE",
        Disp::CopySend => "MACH_MSG_TYPE_COPY_SEND",
        Disp::MakeSend => "MACH_MSG_TYPE_MAKE_SEND",
        Disp::MakeSendOnce => "MACH_MSG_TYPE_MAKE_SEND_ONCE",
    }
}

/// Whether the message is a reply, and its request has a slot whose argument and type have these
/// names.
fn is_again(message: &Message<'_>, argument: &str, type_name: &str) -> bool {
    let row = message.row;
    match (message.kind, &row.request) {
        (MessageKind::Reply, Some(request)) => request
            .slot_named(argument)
            .is_some_and(|slot| type_name == slot.type_name.as_str()),
        _ => false,
    }
}

/// A slot of a message that is this argument.
fn slot_object<'a>(
    alloc: Global,
    types: &Types<'a>,
    message: &Message<'a>,
    argument: &'a Argument,
    slot: &'a Slot,
) -> Result<SlotObject<'a>, AllocError> {
    let name = argument.name.as_str();
    let type_name = slot.type_name.as_str();
    Ok(SlotObject {
        admits: admits(alloc, types, message, slot)?,
        again: is_again(message, name, type_name),
        argument: name,
        disposition: disposition_word(slot.types),
        id: message.form.id(),
        message: message_word(message.kind),
        routine: message.form.name(),
        subsystem: message.interface.name(),
        type_name,
    })
}

/// Adds the slots of a message.
fn add_slots<'a>(
    alloc: Global,
    types: &Types<'a>,
    slots: &mut Vec<SlotObject<'a>>,
    message: &Message<'a>,
) -> Result<(), AllocError> {
    for slot in message.form.slots() {
        if let Some(argument) = message.form.arguments().get(slot.argument) {
            slots.push(slot_object(alloc, types, message, argument, slot)?)?;
        }
    }
    Ok(())
}

/// Adds the slots of a routine: those of its request, and then those of its reply.
fn add_row<'a>(
    alloc: Global,
    types: &Types<'a>,
    slots: &mut Vec<SlotObject<'a>>,
    (number, interface): (usize, &'a Interface),
    row: &'a Row,
) -> Result<(), AllocError> {
    let forms = [
        (MessageKind::Request, &row.request),
        (MessageKind::Reply, &row.reply),
    ];
    for (kind, form) in forms {
        if let Some(form) = form {
            let message = Message {
                kind,
                number,
                interface,
                row,
                form,
            };
            add_slots(alloc, types, slots, &message)?;
        }
    }
    Ok(())
}

/// Adds the slots of the interface of this number.
fn add_interface<'a>(
    alloc: Global,
    types: &Types<'a>,
    slots: &mut Vec<SlotObject<'a>>,
    number: usize,
    interface: &'a Interface,
) -> Result<(), AllocError> {
    for row in interface.rows() {
        add_row(alloc, types, slots, (number, interface), row)?;
    }
    Ok(())
}

/// The slots of all interfaces, in their order.
fn all_slots<'a>(alloc: Global, types: &Types<'a>) -> Result<Vec<SlotObject<'a>>, AllocError> {
    let mut slots = Vec::new(alloc);
    for (number, interface) in types.wired.interfaces().iter().enumerate() {
        add_interface(alloc, types, &mut slots, number, interface)?;
    }
    Ok(slots)
}

/// Each slot of the interfaces of a system.
fn slots_of(alloc: Global, system: &System) -> Result<Vec<SlotObject<'_>>, AllocError> {
    let types = Types {
        wired: &system.wired,
        restricted: system
            .lines
            .iter()
            .filter_map(restricted_by)
            .collect(alloc)?,
    };
    let slots = all_slots(alloc, &types);
    drop(types);
    slots
}

/// The classes of which a type admits ports, as they are printed.
fn admitted_text(alloc: Global, admits: &Option<Vec<String>>) -> Result<String, AllocError> {
    match admits {
        Some(classes) if classes.is_empty() => String::from_str(alloc, "none"),
        Some(classes) => classes.join(alloc, ", "),
        None => String::from_str(alloc, "any"),
    }
}

/// The line of a slot. Nothing, if the request has such a slot too.
fn slot_line(alloc: Global, slot: &SlotObject<'_>) -> Result<String, AllocError> {
    if slot.again {
        return Ok(String::new(alloc));
    }
    let admits = admitted_text(alloc, &slot.admits)?;
    let SlotObject {
        subsystem,
        routine,
        argument,
        type_name,
        ..
    } = slot;
    let name = format!(in alloc; "{subsystem}.{routine}.{argument} ({subsystem}.{type_name})")?;
    format!(in alloc; "{name}: {admits}\n")
}

/// Each slot of the interfaces of a system: a line each, with its names, its type and the classes
/// of which the type admits ports. A slot of a reply whose argument and type are in the request has
/// none.
pub fn slots_text(alloc: Global, system: &System) -> Result<String, AllocError> {
    let slots = slots_of(alloc, system)?;
    slots
        .iter()
        .map(|slot| slot_line(alloc, slot))
        .try_collect(alloc)
}

/// Each slot of the interfaces of a system, as an object.
pub fn slots_json(alloc: Global, system: &System) -> Result<String, AllocError> {
    let answer = SlotsAnswer {
        answer: "slots",
        command: "slots",
        schema: SCHEMA,
        slots: slots_of(alloc, system)?,
    };
    json_text(alloc, &answer)
}
