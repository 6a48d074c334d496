//! The parameters of calls, as words of a script.

use mrc_report::{CallName, Parameter};

/// Whether a word is a parameter of the kind.
fn fits(kind: Parameter, word: &[u8]) -> bool {
    kind.value_of(word).is_some()
}

/// A kind in words.
pub(crate) fn phrases(kind: Parameter) -> &'static [&'static str] {
    match kind {
        Parameter::Number => &["a number to 4,294,967,295"],
        Parameter::HeldRight => &["send", "receive", "once", "set", "dead"],
        Parameter::Disposition => &["a disposition from 16 to 21"],
        Parameter::Delta => &["a number from -2,147,483,648 to 2,147,483,647"],
    }
}

/// How a call is written.
pub(crate) fn usage(call: CallName) -> &'static str {
    match call {
        CallName::Send => "send HEX",
        CallName::Allocate => "allocate TASK RIGHT [KIND]",
        CallName::GetRefs => "get_refs TASK NAME RIGHT",
        CallName::InsertRight => "insert_right TASK NAME RIGHT_NAME DISP",
        CallName::ExtractRight => "extract_right TASK NAME DISP",
        CallName::SetQlimit => "set_qlimit TASK NAME LIMIT",
        CallName::PortType => "type TASK NAME",
        CallName::Names => "names TASK",
        CallName::Rename => "rename TASK OLD NEW",
        CallName::Deallocate => "deallocate TASK NAME",
        CallName::Destroy => "destroy TASK NAME",
        CallName::ModRefs => "mod_refs TASK NAME RIGHT DELTA",
        CallName::MoveMember => "move_member TASK MEMBER SET",
        CallName::RequestNotification => "request_notification TASK NAME ID SYNC NOTIFY DISP",
        CallName::TaskCreate => "task_create TASK",
        CallName::TaskTerminate => "task_terminate TASK",
        CallName::Receive => "receive NAME LIMIT",
        CallName::Wait => "wait NAME LIMIT",
    }
}

/// How many words are parameters of these kinds, one after the other.
pub(crate) fn count_fitting(kinds: &[Parameter], words: &[&[u8]]) -> usize {
    for (count, kind) in kinds.iter().enumerate() {
        match words.get(count) {
            Some(word) if fits(*kind, word) => {}
            _ => return count,
        }
    }
    kinds.len()
}
