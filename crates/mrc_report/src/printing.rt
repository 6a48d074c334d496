//! Events as they are printed.

ghost use Rattle.std.specs.Prelude.{◌≡◌, ◌<◌, ◌/◌, ◌%◌, IfOk, OnOk, ◌++◌, ◌∷◌, [], string_bytes};
ghost use Rattle.std.specs.Prelude.{flat_map, codes};
ghost use Rattle.mrc_names.specs.Listings.{name_of};
ghost use Rattle.mrc_machine.specs.Calls.{reply_of};
ghost use Rattle.mrc_report.specs.Printing.{code_word, named_word, reply_text, event_line};
ghost use Rattle.mrc_report.specs.Printing.{end_line, hex_digit, hex, denied_words, waits_text};

use mrc_base::TaskId;
use mrc_machine::Reply;
use mrc_model::{Code, Denied};
use mrc_names::{Listing, NamedType};
use mrc_wiring::Wired;
use mrc_words::task_word;
use std::alloc::{AllocError, Global};

/// The name of a code.
pub fn code_word(code: Code) -> &'static str
    ensures { result.now ≡ code_word code }
{
    match code {
        Code::KernInvalidTask => "KERN_INVALID_TASK",
        Code::KernInvalidArgument => "KERN_INVALID_ARGUMENT",
        Code::KernInvalidName => "KERN_INVALID_NAME",
        Code::KernInvalidRight => "KERN_INVALID_RIGHT",
        Code::KernInvalidValue => "KERN_INVALID_VALUE",
        Code::KernInvalidCapability => "KERN_INVALID_CAPABILITY",
        Code::KernNameExists => "KERN_NAME_EXISTS",
        Code::KernRightExists => "KERN_RIGHT_EXISTS",
        Code::KernUrefsOverflow => "KERN_UREFS_OVERFLOW",
        Code::KernNotInSet => "KERN_NOT_IN_SET",
        Code::KernNoSpace => "KERN_NO_SPACE",
        Code::KernResourceShortage => "KERN_RESOURCE_SHORTAGE",
        Code::MachSendInvalidDest => "MACH_SEND_INVALID_DEST",
        Code::MachSendInvalidReply => "MACH_SEND_INVALID_REPLY",
        Code::MachSendInvalidRight => "MACH_SEND_INVALID_RIGHT",
        Code::MachSendTimedOut => "MACH_SEND_TIMED_OUT",
        Code::MachRcvInvalidName => "MACH_RCV_INVALID_NAME",
        Code::MachRcvInSet => "MACH_RCV_IN_SET",
        Code::MachRcvTimedOut => "MACH_RCV_TIMED_OUT",
        Code::ProfileNoSpace => "PROFILE_NO_SPACE",
    }
}

fn named_word(alloc: Global, named: NamedType) -> Result<String, AllocError>
    ensures { IfOk result (λ text. string_bytes text ≡ named_word (name_of named)) }
{
    format!(in alloc; " {}:{}", named.name, named.rights.mask())
}

fn names_text(alloc: Global, names: &Listing) -> Result<String, AllocError>
    ensures { IfOk result
        (λ text. string_bytes text ≡ codes "names" ++ flat_map named_word names.now) }
{
    let mut text = String::from_str(alloc, "names")?;
    for named in names.as_slice() {
        text.push_str(named_word(alloc, *named)?.as_str())?;
    }
    Ok(text)
}

/// The hexadecimal digit of a number below 16.
fn hex_digit(number: u8) -> char
    requires { number < 16 }
    ensures exact { result ≡ hex_digit number }
    ensures within { result < 128 }
{
    if number < 10 {
        char::from(48 + number)
    } else {
        char::from(87 + number)
    }
}

/// Two digits for a byte.
fn push_byte(text: &mut String, byte: u8) -> Result<(), AllocError>
    ensures { OnOk result (string_bytes text.new
        ≡ string_bytes text.old ++ hex_digit (byte / 16) ∷ hex_digit (byte % 16) ∷ []) }
{
    text.push(hex_digit(byte / 16))?;
    text.push(hex_digit(byte % 16))
}

fn message_text(alloc: Global, bytes: &[u8]) -> Result<String, AllocError>
    ensures { IfOk result (λ text. string_bytes text ≡ codes "message " ++ hex bytes.now) }
{
    let mut text = String::from_str(alloc, "message ")?;
    for byte in bytes {
        push_byte(&mut text, *byte)?;
    }
    Ok(text)
}

fn denied_words(alloc: Global, denied: Denied) -> Result<String, AllocError>
    ensures { IfOk result (λ text. string_bytes text ≡ denied_words denied) }
{
    match denied {
        Denied::NoSuchId => String::from_str(alloc, "NoSuchId"),
        Denied::WrongShape(argument) => format!(in alloc; "WrongShape {argument}"),
        Denied::WrongDisposition(argument) => format!(in alloc; "WrongDisposition {argument}"),
        Denied::ReplySlot => String::from_str(alloc, "ReplySlot"),
        Denied::NotAdmitted(argument) => format!(in alloc; "NotAdmitted {argument}"),
        Denied::NotDestroyed => String::from_str(alloc, "NotDestroyed"),
        Denied::NotTaken => String::from_str(alloc, "NotTaken"),
        Denied::NotGiven => String::from_str(alloc, "NotGiven"),
        Denied::NotSent(argument) => format!(in alloc; "NotSent {argument}"),
        Denied::NotForReply => String::from_str(alloc, "NotForReply"),
    }
}

/// A reply as it is printed.
pub fn reply_text(alloc: Global, reply: &Reply) -> Result<String, AllocError>
    ensures { IfOk result (λ text. string_bytes text ≡ reply_text (reply_of reply.now)) }
{
    match reply {
        Reply::Done => String::from_str(alloc, "done"),
        Reply::Name(name) => format!(in alloc; "name {name}"),
        Reply::Refs(refs) => format!(in alloc; "refs {refs}"),
        Reply::Mask(mask) => format!(in alloc; "type {mask}"),
        Reply::Names(names) => names_text(alloc, names),
        Reply::Created { task, name } => {
            let number = task.0;
            format!(in alloc; "task {number} name {name}")
        }
        Reply::Message(bytes) => message_text(alloc, bytes.as_slice()),
        Reply::TooLarge(size) => format!(in alloc; "too large {size}"),
        Reply::Refused(code) => {
            let code = code_word(*code);
            format!(in alloc; "refused {code}")
        }
        Reply::Denied(denied) => {
            let denied = denied_words(alloc, *denied)?;
            format!(in alloc; "denied {denied}")
        }
        Reply::DeadTask => String::from_str(alloc, "dead task"),
    }
}

/// The line of an event: its number, the task by its name or as `@N`, and the reply.
pub fn event_line(
    alloc: Global,
    wired: &Wired,
    number: usize,
    task: TaskId,
    reply: &Reply,
) -> Result<String, AllocError>
    ensures { IfOk result
        (λ text. string_bytes text ≡ event_line wired.now number task (reply_of reply.now)) }
{
    let task = task_word(alloc, wired, task)?;
    let reply = reply_text(alloc, reply)?;
    format!(in alloc; "{number} {task} {reply}\n")
}

/// The last line: how many events there were, and how many ports are live.
pub fn end_line(alloc: Global, events: usize, ports: usize) -> Result<String, AllocError>
    ensures { IfOk result (λ text. string_bytes text ≡ end_line events ports) }
{
    format!(in alloc; "end events {events} ports {ports}\n")
}

/// That all tasks that have lines left wait for messages, with the numbers of those lines.
pub fn waits_text(alloc: Global, lines: &[u32]) -> Result<String, AllocError>
    ensures { IfOk result (λ text. string_bytes text ≡ waits_text lines.now) }
{
    let mut text = String::from_str(alloc, "AllWait")?;
    for line in lines {
        text.push_str(format!(in alloc; " {line}")?.as_str())?;
    }
    Ok(text)
}
