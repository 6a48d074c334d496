//! Faults as they are printed.

use crate::reading::{certificate_name, defs_name, policy_name, script_name, wiring_name};
use mrc_answer::{Fault, MessageFault, Unwritten, WasRead, WordFault};
use mrc_base::OrMemory;
use mrc_check::CaseFault;
use mrc_command::shown;
use mrc_files::{InputFault, Unread, WriteFault};
use mrc_objects::{FaultParts, parts_text};
use std::alloc::{AllocError, Global};

/// A fault of this name, about this file or this option.
fn parts_of(alloc: Global, subject: &str, name: String) -> Result<FaultParts, AllocError> {
    let subject = shown(alloc, subject)?;
    Ok(FaultParts {
        subject: Some(subject),
        name,
    })
}

/// The same of a name that is known.
fn named_parts(alloc: Global, subject: &str, name: &str) -> Result<FaultParts, AllocError> {
    parts_of(alloc, subject, String::from_str(alloc, name)?)
}

/// That memory ran out, which is no file's fault.
fn memory_parts(alloc: Global) -> Result<FaultParts, AllocError> {
    Ok(FaultParts {
        subject: None,
        name: String::from_str(alloc, "Memory")?,
    })
}

/// The option whose word can't be what it is asked to be, and the name of the fault.
fn word_names(word: WordFault) -> (&'static str, &'static str) {
    match word {
        WordFault::BadLine => ("--line", "BadLine"),
        WordFault::NotBroken => ("--line", "NotBroken"),
        WordFault::BadMost => ("--most", "BadMost"),
        WordFault::Workers => ("--workers", "Workers"),
        WordFault::BadFact => ("--fact", "BadFact"),
        WordFault::BadTask => ("--task", "BadTask"),
        WordFault::BadClass => ("--class", "BadClass"),
        WordFault::BadRight => ("--right", "BadRight"),
    }
}

/// The name of the file of a text that has no meaning.
pub fn file_of<'a>(read: &'a WasRead<'_>, fault: &CaseFault) -> &'a str {
    match fault {
        CaseFault::Defs(fault) => defs_name(read, fault.file),
        CaseFault::Wiring(_) => wiring_name(read),
        CaseFault::Policy(_) => policy_name(read),
        CaseFault::Certificate(_) => certificate_name(read),
        CaseFault::Script(_) => script_name(read),
    }
}

/// The parts of a file that can't be read.
fn unread_parts(alloc: Global, unread: &Unread<'_>) -> Result<FaultParts, AllocError> {
    match unread.fault {
        InputFault::Memory => memory_parts(alloc),
        InputFault::TooBig => named_parts(alloc, unread.file, "TooBig"),
        InputFault::ReadFailed(_) => named_parts(alloc, unread.file, "ReadFailed"),
    }
}

/// The parts of a file that did not take all its bytes.
pub(crate) fn unwritten_parts(
    alloc: Global,
    unwritten: &Unwritten,
) -> Result<FaultParts, AllocError> {
    match &unwritten.refusal {
        OrMemory::Fault(WriteFault { written }) => {
            let name = format!(in alloc; "WriteFailed {written}")?;
            parts_of(alloc, unwritten.file.as_str(), name)
        }
        OrMemory::Memory => memory_parts(alloc),
    }
}

/// The parts of a message that can't be turned.
fn message_parts(alloc: Global, fault: MessageFault) -> Result<FaultParts, AllocError> {
    match fault {
        MessageFault::Words(fault) => parts_of(alloc, "--message", fault.kind.to_string(alloc)?),
        MessageFault::BadHex => named_parts(alloc, "--hex", "BadHex"),
        MessageFault::Bytes(fault) => parts_of(alloc, "--hex", fault.to_string(alloc)?),
        MessageFault::NoWords => named_parts(alloc, "--hex", "NoWords"),
    }
}

/// The parts of a fault, by what was read.
pub(crate) fn fault_parts(
    alloc: Global,
    read: &WasRead<'_>,
    fault: &Fault<'_>,
) -> Result<FaultParts, AllocError> {
    match fault {
        Fault::Unread(unread) => unread_parts(alloc, unread),
        Fault::Meaning(fault) => parts_of(alloc, file_of(read, fault), fault.to_string(alloc)?),
        Fault::Word(word) => {
            let (option, name) = word_names(*word);
            named_parts(alloc, option, name)
        }
        Fault::Unwritten(unwritten) => unwritten_parts(alloc, unwritten),
        Fault::NoMigText(no_text) => parts_of(alloc, no_text.file, no_text.fault.to_string(alloc)?),
        Fault::Message(fault) => message_parts(alloc, *fault),
        Fault::SameName(file) => named_parts(alloc, file, "SameName"),
        Fault::Unserved(fault) => parts_of(alloc, script_name(read), fault.to_string(alloc)?),
    }
}

/// The line of a fault.
pub(crate) fn fault_line(
    alloc: Global,
    read: &WasRead<'_>,
    fault: &Fault<'_>,
) -> Result<String, AllocError> {
    let parts = fault_parts(alloc, read, fault)?;
    let text = parts_text(alloc, &parts)?;
    format!(in alloc; "{text}\n")
}
