//! What is said, as it is printed.

use crate::heading::usual_disp;
use crate::port::NamedPort;
use crate::reading::is_single;
use crate::spoken::Spoken;
use crate::terms::{PortWord, disp_word};
use crate::value::Value;
use mrc_base::Disp;
use mrc_forms::{Argument, Form, FormKind, ItemTypes, Items, MessageKind};
use std::alloc::{AllocError, Global};

/// The type number of a C string.
const C_STRING: u16 = 12;

/// The type number and the bits of data that are printed as bytes alone.
const BYTE: u16 = 9;

const BYTE_SIZE: u16 = 8;

/// Puts a number behind a text.
fn put_number(alloc: Global, text: &mut String, number: u64) -> Result<(), AllocError> {
    let digits = format!(in alloc; "{number}")?;
    text.push_str(digits.as_str())
}

fn put_port(alloc: Global, text: &mut String, name: u32) -> Result<(), AllocError> {
    match PortWord::of_name(name) {
        PortWord::Null => text.push_str("null"),
        PortWord::Dead => text.push_str("dead"),
        PortWord::Name(name) => put_number(alloc, text, u64::from(name)),
    }
}

fn put_header_port(
    alloc: Global,
    text: &mut String,
    usual: Disp,
    port: NamedPort,
) -> Result<(), AllocError> {
    put_port(alloc, text, port.name)?;
    if port.disp != usual {
        text.push_str(" as ")?;
        text.push_str(disp_word(port.disp))?;
    }
    Ok(())
}

/// Puts numbers between brackets.
fn put_numbers(alloc: Global, text: &mut String, numbers: &[u64]) -> Result<(), AllocError> {
    text.push_str("[")?;
    for (i, number) in numbers.iter().enumerate() {
        if i > 0 {
            text.push_str(" ")?;
        }
        put_number(alloc, text, *number)?;
    }
    text.push_str("]")
}

fn put_names(alloc: Global, text: &mut String, names: &[u32]) -> Result<(), AllocError> {
    text.push_str("[")?;
    for (i, name) in names.iter().enumerate() {
        if i > 0 {
            text.push_str(" ")?;
        }
        put_port(alloc, text, *name)?;
    }
    text.push_str("]")
}

/// How many bytes of a C string stand before its zeros, where it is printed as a text: the bytes
/// are printable, and the zeros are as many as are missing, or one where the number is a bound.
fn printable_len(items: Items, numbers: &[u64]) -> Option<usize> {
    let mut len = None;
    for (i, number) in numbers.iter().enumerate() {
        match len {
            None if *number == 0 => len = Some(i),
            None if *number < 32 || *number > 126 => return None,
            Some(_) if *number != 0 || items.is_bound => return None,
            _ => {}
        }
    }
    len
}

/// Puts printable bytes between quotes.
fn put_text(text: &mut String, bytes: &[u64]) -> Result<(), AllocError> {
    text.push_str("\"")?;
    for byte in bytes {
        match u8::try_from(*byte) {
            Ok(byte) if byte < 128 => {
                if byte == b'"' || byte == b'\\' {
                    text.push_str("\\")?;
                }
                text.push(char::from(byte))?;
            }
            _ => {}
        }
    }
    text.push_str("\"")
}

fn put_items(
    alloc: Global,
    text: &mut String,
    items: Items,
    name: u16,
    numbers: &[u64],
) -> Result<(), AllocError> {
    match numbers {
        [number] if is_single(items) => put_number(alloc, text, *number),
        _ => {
            if name == C_STRING && items.size == 8 {
                if let Some(len) = printable_len(items, numbers) {
                    if let Some(bytes) = numbers.get(..len) {
                        return put_text(text, bytes);
                    }
                }
            }
            put_numbers(alloc, text, numbers)
        }
    }
}

/// Puts `type` and a number.
fn put_type(alloc: Global, text: &mut String, name: u16) -> Result<(), AllocError> {
    text.push_str("type ")?;
    put_number(alloc, text, u64::from(name))?;
    text.push_str(" ")
}

fn put_bytes(alloc: Global, text: &mut String, bytes: &[u8]) -> Result<(), AllocError> {
    text.push_str("0x")?;
    for byte in bytes {
        let digits = format!(in alloc; "{byte:02x}")?;
        text.push_str(digits.as_str())?;
    }
    Ok(())
}

fn put_raw(
    alloc: Global,
    text: &mut String,
    items: Items,
    name: u16,
    size: u16,
    bytes: &[u8],
) -> Result<(), AllocError> {
    if items.types.is_any_data() && (name != BYTE || size != BYTE_SIZE) {
        put_type(alloc, text, name)?;
        text.push_str("size ")?;
        put_number(alloc, text, u64::from(size))?;
        text.push_str(" ")?;
    }
    put_bytes(alloc, text, bytes)
}

fn put_rights(
    alloc: Global,
    text: &mut String,
    items: Items,
    disp: Disp,
    names: &[u32],
) -> Result<(), AllocError> {
    if items.types.dispositions().len() > 1 {
        text.push_str(disp_word(disp))?;
        text.push_str(" ")?;
    }
    match names {
        [name] if is_single(items) => put_port(alloc, text, *name),
        _ => put_names(alloc, text, names),
    }
}

fn put_value(
    alloc: Global,
    text: &mut String,
    items: Items,
    value: &Value,
) -> Result<(), AllocError> {
    match value {
        Value::Numbers { name, numbers } => {
            if items.types == ItemTypes::Any {
                put_type(alloc, text, *name)?;
            }
            put_items(alloc, text, items, *name, numbers.as_slice())
        }
        Value::Raw { name, size, bytes } => {
            put_raw(alloc, text, items, *name, *size, bytes.as_slice())
        }
        Value::Ports { disp, names } => put_rights(alloc, text, items, *disp, names.as_slice()),
    }
}

/// The name by which an argument is printed: the return code is `code`, unless an argument has that
/// name.
fn argument_word<'f>(form: &'f Form, argument: &'f Argument) -> &'f str {
    let name = argument.name.as_str();
    if form.kind() != FormKind::Reply || name != "RetCode" {
        return name;
    }
    for other in form.arguments() {
        if other.name.as_str() == "code" {
            return name;
        }
    }
    "code"
}

fn put_ports(alloc: Global, text: &mut String, said: &Spoken) -> Result<(), AllocError> {
    text.push_str(" to ")?;
    put_header_port(alloc, text, usual_disp(said.kind), said.to)?;
    match said.reply {
        None => Ok(()),
        Some(port) => {
            text.push_str(" reply ")?;
            put_header_port(alloc, text, Disp::MakeSendOnce, port)
        }
    }
}

fn put_arguments(
    alloc: Global,
    text: &mut String,
    form: &Form,
    values: &[Value],
) -> Result<(), AllocError> {
    for (i, argument) in form.arguments().iter().enumerate() {
        if let Some(value) = values.get(i) {
            text.push_str(" ")?;
            text.push_str(argument_word(form, argument))?;
            text.push_str("=")?;
            put_value(alloc, text, argument.items, value)?;
        }
    }
    Ok(())
}

/// What is said over a form, in words.
pub(crate) fn words_of(alloc: Global, form: &Form, said: &Spoken) -> Result<String, AllocError> {
    let mut text = String::from_str(alloc, "{ ")?;
    if said.kind == MessageKind::Reply {
        text.push_str("reply ")?;
    }
    text.push_str(said.interface.as_str())?;
    text.push_str(".")?;
    text.push_str(said.routine.as_str())?;
    put_ports(alloc, &mut text, said)?;
    put_arguments(alloc, &mut text, form, said.values.as_slice())?;
    text.push_str(" }")?;
    Ok(text)
}
