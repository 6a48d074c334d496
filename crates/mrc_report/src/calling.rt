//! Calls as they are written in a script.

ghost use Rattle.std.specs.Prelude.{◌<◌};

use mrc_base::Right;
use mrc_desc::{Message, write_message};
use mrc_machine::Call;
use std::alloc::{AllocError, Global};

/// The word of a right of a name.
fn right_word(right: Right) -> &'static str {
    match right {
        Right::Send => "send",
        Right::Receive => "receive",
        Right::SendOnce => "once",
        Right::PortSet => "set",
        Right::DeadName => "dead",
    }
}

/// The hexadecimal digit of a number below 16.
fn digit(number: u8) -> char
    requires { number < 16 }
{
    if number < 10 {
        char::from(48 + number)
    } else {
        char::from(87 + number)
    }
}

/// The sending of a message: two digits for each of its bytes.
fn send_text(alloc: Global, message: &Message) -> Result<String, AllocError> {
    let bytes = write_message(alloc, message)?;
    let mut text = String::from_str(alloc, "send ")?;
    for byte in &bytes {
        text.push(digit(*byte / 16))?;
        text.push(digit(*byte % 16))?;
    }
    Ok(text)
}

/// The making of a name: kind 0 is not written.
fn allocate_text(alloc: Global, task: u32, right: Right, kind: u32) -> Result<String, AllocError> {
    let right = right_word(right);
    if kind == 0 {
        format!(in alloc; "allocate {task} {right}")
    } else {
        format!(in alloc; "allocate {task} {right} {kind}")
    }
}

/// A call about a right of a name, with its parameters. Nothing, if it is another call.
fn right_text(alloc: Global, call: &Call) -> Result<String, AllocError> {
    match call {
        Call::Allocate { task, right, kind } => allocate_text(alloc, *task, *right, *kind),
        Call::GetRefs { task, name, right } => {
            let right = right_word(*right);
            format!(in alloc; "get_refs {task} {name} {right}")
        }
        Call::ModRefs {
            task,
            name,
            right,
            delta,
        } => {
            let right = right_word(*right);
            format!(in alloc; "mod_refs {task} {name} {right} {delta}")
        }
        _ => Ok(String::new(alloc)),
    }
}

/// A call that takes a right by a disposition, with its parameters; or one about a right.
fn disp_text(alloc: Global, call: &Call) -> Result<String, AllocError> {
    match call {
        Call::InsertRight {
            task,
            name,
            right,
            disp,
        } => {
            let disp = disp.number();
            format!(in alloc; "insert_right {task} {name} {right} {disp}")
        }
        Call::ExtractRight { task, name, disp } => {
            let disp = disp.number();
            format!(in alloc; "extract_right {task} {name} {disp}")
        }
        Call::RequestNotification {
            task,
            name,
            id,
            sync,
            notify,
            disp,
        } => {
            let disp = disp.number();
            format!(in alloc; "request_notification {task} {name} {id} {sync} {notify} {disp}")
        }
        _ => right_text(alloc, call),
    }
}

/// A call with its parameters, as a line of a script has it behind the task. A receive that waited
/// is a `receive`.
pub fn call_text(alloc: Global, call: &Call) -> Result<String, AllocError> {
    match call {
        Call::Send(message) => send_text(alloc, message),
        Call::Receive { name, limit } => format!(in alloc; "receive {name} {limit}"),
        Call::SetQlimit { task, name, limit } => {
            format!(in alloc; "set_qlimit {task} {name} {limit}")
        }
        Call::PortType { task, name } => format!(in alloc; "type {task} {name}"),
        Call::Names { task } => format!(in alloc; "names {task}"),
        Call::Rename { task, old, new } => format!(in alloc; "rename {task} {old} {new}"),
        Call::MoveMember { task, member, set } => {
            format!(in alloc; "move_member {task} {member} {set}")
        }
        Call::Deallocate { task, name } => format!(in alloc; "deallocate {task} {name}"),
        Call::Destroy { task, name } => format!(in alloc; "destroy {task} {name}"),
        Call::CreateTask { task } => format!(in alloc; "task_create {task}"),
        Call::Terminate { task } => format!(in alloc; "task_terminate {task}"),
        _ => disp_text(alloc, call),
    }
}
