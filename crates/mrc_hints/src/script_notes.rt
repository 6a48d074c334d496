//! Sentences on the first wrong word of a line.

use crate::script_digits::HexFault;
use crate::script_usage::{phrases, usage};
use crate::script_words::Wrong;
use mrc_desc::ReadFault;
use mrc_place::{did_you_mean, expected, listed, nearest, one_note};
use mrc_report::{CallName, Parameter};
use std::alloc::{AllocError, Global};

/// The kind of the parameter behind so many others.
fn parameter(call: CallName, count: usize) -> Option<Parameter> {
    call.parameters().get(count).copied()
}

/// What may be behind so many parameters of a call, in words.
fn phrases_behind(
    alloc: Global,
    call: CallName,
    count: usize,
) -> Result<Vec<&'static str>, AllocError> {
    let mut found = Vec::new(alloc);
    if let Some(parameter) = parameter(call, count) {
        found.extend_from_slice(phrases(parameter))?;
    }
    if call.least() <= count {
        found.push("the end of the line")?;
    }
    Ok(found)
}

/// The words that may be meant by one in the place of a parameter.
fn proposals(parameter: Option<Parameter>) -> &'static [&'static str] {
    match parameter {
        Some(Parameter::HeldRight) => phrases(Parameter::HeldRight),
        _ => &[],
    }
}

/// The words of calls.
fn call_words(alloc: Global, live: bool) -> Result<Vec<&'static str>, AllocError> {
    let mut words = Vec::new(alloc);
    for call in CallName::all(live) {
        words.push(call.text())?;
    }
    Ok(words)
}

/// The note on a task by its number.
fn child_note(alloc: Global, live: bool, tasks: &[&str]) -> Result<String, AllocError> {
    if live {
        let text = "@N is a task that a call makes: run scripts with such tasks by replay";
        return String::from_str(alloc, text);
    }
    let count = tasks.len();
    format!(in alloc; "@N is a task that a call makes: N is from {count} on")
}

/// Adds the task that may be meant, or else all of them.
fn push_task(
    alloc: Global,
    tasks: &[&str],
    word: &str,
    notes: &mut Vec<String>,
) -> Result<(), AllocError> {
    if let Some(name) = nearest(alloc, word, tasks)? {
        notes.push(did_you_mean(alloc, name)?)?;
    } else if !tasks.is_empty() {
        let names = listed(alloc, tasks)?;
        notes.push(format!(in alloc; "tasks of the wiring: {names}")?)?;
    }
    Ok(())
}

/// The notes on a first word that is no task.
fn task_notes(
    alloc: Global,
    live: bool,
    tasks: &[&str],
    word: &str,
) -> Result<Vec<String>, AllocError> {
    if word.starts_with("@") {
        let note = child_note(alloc, live, tasks)?;
        return Ok(vec![in alloc; note]?);
    }
    let mut notes = one_note(alloc, "the wiring has no task of this name")?;
    push_task(alloc, tasks, word, &mut notes)?;
    Ok(notes)
}

/// What the names of Mach's calls begin with.
const PREFIX: &str = "mach_port_";

/// The call that may be meant, or all calls.
fn call_note(alloc: Global, live: bool, word: &str) -> Result<String, AllocError> {
    let words = call_words(alloc, live)?;
    let bare = word.strip_prefix(PREFIX).unwrap_or(word);
    match nearest(alloc, bare, &words)? {
        Some(name) => did_you_mean(alloc, name),
        None => expected(alloc, &words),
    }
}

/// The notes on a second word that is no call.
fn call_notes(alloc: Global, live: bool, word: &str) -> Result<Vec<String>, AllocError> {
    if !live && word == "wait" {
        return one_note(alloc, "wait is for live: in a replay write receive");
    }
    let mut notes = Vec::new(alloc);
    if word.starts_with(PREFIX) {
        notes.push(String::from_str(alloc, "write it without mach_port_")?)?;
    }
    notes.push(call_note(alloc, live, word)?)?;
    Ok(notes)
}

/// The notes on a word behind so many parameters of a call.
fn word_notes(
    alloc: Global,
    call: CallName,
    count: usize,
    word: &str,
) -> Result<Vec<String>, AllocError> {
    let phrases = phrases_behind(alloc, call, count)?;
    let mut notes = Vec::new(alloc);
    notes.push(expected(alloc, &phrases)?)?;
    if let Some(near) = nearest(alloc, word, proposals(parameter(call, count)))? {
        notes.push(did_you_mean(alloc, near)?)?;
    }
    let usage = usage(call);
    notes.push(format!(in alloc; "the call is written: {usage}")?)?;
    Ok(notes)
}

fn fault_name(fault: ReadFault) -> &'static str {
    match fault {
        ReadFault::TooShort => "TooShort",
        ReadFault::TooLong => "TooLong",
        ReadFault::BadHeaderDisp => "BadHeaderDisp",
        ReadFault::BadDesc(_) => "BadDesc",
        ReadFault::OutOfLine(_) => "OutOfLine",
        ReadFault::Truncated(_) => "Truncated",
        ReadFault::ComplexDiffers => "ComplexDiffers",
    }
}

/// What the disposition of a header has to be.
fn disp_meaning(byte: usize) -> &'static str {
    if byte == 0 {
        "the disposition of the destination has to be 17 to 21 (digits 11 to 15)"
    } else {
        "the disposition of the reply port has to be 17 to 21, or 0 if its name is 0"
    }
}

/// What a fault of a message means, if it is at this byte.
fn fault_meaning(fault: ReadFault, byte: usize) -> &'static str {
    match fault {
        ReadFault::TooShort => "a message has at least 24 bytes, which are its header",
        ReadFault::TooLong => "a message has at most 8,192 bytes",
        ReadFault::BadHeaderDisp => disp_meaning(byte),
        ReadFault::BadDesc(_) => {
            "the name has to be 0 to 21, the size 8, 16 and so on (32 of port rights), \
and deallocate and unused may not be set"
        }
        ReadFault::OutOfLine(_) => "the inline bit of this descriptor has to be set",
        ReadFault::Truncated(_) => {
            "this descriptor, or its data with their padding, passes the end of the message"
        }
        ReadFault::ComplexDiffers => {
            "the complex bit (80 in this byte) has to be set if a descriptor has port rights, \
and only then"
        }
    }
}

/// Where a fault of a message is.
fn fault_place(alloc: Global, fault: ReadFault, byte: usize) -> Result<String, AllocError> {
    let name = fault_name(fault);
    format!(in alloc; "the message has a fault: {name} at byte {byte}, counted from 0")
}

/// That a descriptor has the long form.
const LONG: &str = "its longform bit is set: name, size and number are in the 8 bytes behind";

/// The notes on a message with a fault at this byte.
fn message_notes(
    alloc: Global,
    fault: ReadFault,
    byte: usize,
    long: bool,
) -> Result<Vec<String>, AllocError> {
    let mut notes = Vec::new(alloc);
    notes.push(fault_place(alloc, fault, byte)?)?;
    notes.push(String::from_str(alloc, fault_meaning(fault, byte))?)?;
    if long {
        notes.push(String::from_str(alloc, LONG)?)?;
    }
    Ok(notes)
}

/// The notes on digits, if this character is wrong.
fn hex_notes(alloc: Global, fault: HexFault, character: &str) -> Result<Vec<String>, AllocError> {
    match fault {
        HexFault::Missing => one_note(
            alloc,
            "expected: the bytes of a message, two hexadecimal digits each",
        ),
        HexFault::NoDigit => {
            let note = format!(in alloc; "not a hexadecimal digit: {character}")?;
            Ok(vec![in alloc; note]?)
        }
        HexFault::HalfByte => one_note(
            alloc,
            "the digits are no whole bytes: one is missing or too many",
        ),
        HexFault::OfMessage { fault, byte, long } => message_notes(alloc, fault, byte, long),
        HexFault::NoFault => Ok(Vec::new(alloc)),
    }
}

/// The notes on a wrong word.
pub(crate) fn notes(
    alloc: Global,
    live: bool,
    tasks: &[&str],
    wrong: Wrong,
    word: &str,
) -> Result<Vec<String>, AllocError> {
    match wrong {
        Wrong::Task => task_notes(alloc, live, tasks, word),
        Wrong::Call => call_notes(alloc, live, word),
        Wrong::Word { call, count } => word_notes(alloc, call, count, word),
        Wrong::Hex(fault) => hex_notes(alloc, fault, word),
    }
}
