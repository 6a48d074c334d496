//! The words of a script's line as the call of a task.

ghost use Rattle.std.specs.Prelude.{◌≡◌, map, IfOk};
ghost use Rattle.mrc_wiring.specs.Names.{number_of};
ghost use Rattle.mrc_report.specs.Calls.{numbers_made, made, send, port_call, call_of};
ghost use Rattle.mrc_report.specs.Calls.{child_of_word, caller_of_word, caller, said_by, line_says};

use crate::parameters::{
    Value, delta_at, disp_at, message_of_words, number_at, right_at, values_of,
};
use crate::script::TaskCall;
use crate::table::CallName;
use mrc_base::TaskId;
use mrc_machine::Call;
use mrc_wiring::Wired;
use mrc_words::number_of_word;
use std::alloc::{AllocError, Global};
use std::str;

/// A call whose parameters are numbers, with their values.
#[tactic(auto, unfolding(crate::specs::Calls::numbers_made))]
fn numbers_made(call: CallName, values: &[Value]) -> Option<Call>
    ensures { result ≡ numbers_made call values.now }
{
    let task = number_at(values, 0);
    let name = number_at(values, 1);
    let limit = number_at(values, 2);
    Some(match call {
        CallName::Receive | CallName::Wait => Call::Receive {
            name: number_at(values, 0),
            limit: number_at(values, 1),
        },
        CallName::SetQlimit => Call::SetQlimit { task, name, limit },
        CallName::PortType => Call::PortType { task, name },
        CallName::Names => Call::Names { task },
        CallName::Rename => Call::Rename {
            task,
            old: number_at(values, 1),
            new: number_at(values, 2),
        },
        CallName::Deallocate => Call::Deallocate { task, name },
        CallName::Destroy => Call::Destroy { task, name },
        CallName::MoveMember => Call::MoveMember {
            task,
            member: number_at(values, 1),
            set: number_at(values, 2),
        },
        CallName::TaskCreate => Call::CreateTask { task },
        CallName::TaskTerminate => Call::Terminate { task },
        _ => return None,
    })
}

/// A call with the values of its parameters: none of `send`, whose HEX is no value.
#[tactic(auto, unfolding(crate::specs::Calls::made))]
fn made(call: CallName, values: &[Value]) -> Option<Call>
    ensures { result ≡ made call values.now }
{
    let task = number_at(values, 0);
    let name = number_at(values, 1);
    Some(match call {
        CallName::Allocate => Call::Allocate {
            task,
            right: right_at(values, 1),
            kind: number_at(values, 2),
        },
        CallName::GetRefs => Call::GetRefs {
            task,
            name,
            right: right_at(values, 2),
        },
        CallName::InsertRight => Call::InsertRight {
            task,
            name,
            right: number_at(values, 2),
            disp: disp_at(values, 3),
        },
        CallName::ExtractRight => Call::ExtractRight {
            task,
            name,
            disp: disp_at(values, 2),
        },
        CallName::ModRefs => Call::ModRefs {
            task,
            name,
            right: right_at(values, 2),
            delta: delta_at(values, 3),
        },
        CallName::RequestNotification => Call::RequestNotification {
            task,
            name,
            id: number_at(values, 2),
            sync: number_at(values, 3),
            notify: number_at(values, 4),
            disp: disp_at(values, 5),
        },
        _ => return numbers_made(call, values),
    })
}

/// The message of the words is sent.
#[tactic(auto, unfolding(crate::specs::Calls::send))]
fn send(alloc: Global, words: &[&[u8]]) -> Result<Option<Call>, AllocError>
    ensures { IfOk result (λ call. call ≡ send (map (λ word. word.now) words.now)) }
{
    match message_of_words(alloc, words)? {
        Some(message) => Ok(Some(Call::Send(message))),
        None => Ok(None),
    }
}

/// A call but sending, with the words of its parameters.
#[tactic(auto, unfolding(crate::specs::Calls::port_call))]
fn port_call(alloc: Global, name: CallName, words: &[&[u8]]) -> Result<Option<Call>, AllocError>
    ensures { IfOk result (λ call. call ≡ port_call name (map (λ word. word.now) words.now)) }
{
    if words.len() < name.least() {
        return Ok(None);
    }
    match values_of(alloc, name.parameters(), words)? {
        Some(values) => Ok(made(name, &values)),
        None => Ok(None),
    }
}

/// A call with the words of its parameters.
fn call_of(alloc: Global, name: CallName, words: &[&[u8]]) -> Result<Option<Call>, AllocError>
    ensures { IfOk result (λ call. call ≡ call_of name (map (λ word. word.now) words.now)) }
{
    match name {
        CallName::Send => send(alloc, words),
        _ => port_call(alloc, name, words),
    }
}

/// The wired task of a name.
fn task_of_word(wired: &Wired, word: &[u8]) -> Option<TaskId>
    ensures { result ≡ number_of wired.now.names word.now }
{
    let _tasks = wired.tasks();
    match str::from_utf8(word) {
        Ok(name) => wired.task_named(name),
        Err(_) => None,
    }
}

/// The task of these digits, where it is none of so many wired ones.
#[tactic(auto, unfolding(crate::specs::Calls::child_of_word))]
fn child_of_word(wired: u16, digits: &[u8]) -> Option<TaskId>
    ensures { result ≡ child_of_word wired digits.now }
{
    let number = number_of_word(digits)?;
    if number < u32::from(wired) {
        return None;
    }
    Some(TaskId(number))
}

/// Who calls in a replay: a wired task by its name, or `@N`, the task of the number N, which is not
/// wired.
#[tactic(auto, unfolding(crate::specs::Calls::caller_of_word))]
fn caller_of_word(wired: &Wired, word: &[u8]) -> Option<TaskId>
    ensures { result ≡ caller_of_word wired.now.names word.now }
{
    match *word {
        [] => None,
        [b'@', ref digits @ ..] => child_of_word(wired.tasks(), digits),
        _ => task_of_word(wired, word),
    }
}

/// Who calls: where tasks run as threads (`live`) a wired task alone.
fn caller(wired: &Wired, live: bool, word: &[u8]) -> Option<TaskId>
    ensures { result ≡ caller live wired.now.names word.now }
{
    if live {
        task_of_word(wired, word)
    } else {
        caller_of_word(wired, word)
    }
}

/// The call of this name by this task, if both are there.
#[tactic(auto, unfolding(crate::specs::Calls::said_by))]
fn said_by(
    alloc: Global,
    task: Option<TaskId>,
    name: Option<CallName>,
    parameters: &[&[u8]],
) -> Result<Option<TaskCall>, AllocError>
    ensures { IfOk result
        (λ says. says ≡ said_by task name (map (λ word. word.now) parameters.now)) }
{
    let Some(task) = task else {
        return Ok(None);
    };
    let Some(name) = name else {
        return Ok(None);
    };
    let Some(call) = call_of(alloc, name, parameters)? else {
        return Ok(None);
    };
    Ok(Some(TaskCall {
        task,
        call,
        waits: name.is_wait(),
    }))
}

/// What the words of a line say: the call of a task.
pub(crate) fn line_says(
    alloc: Global,
    wired: &Wired,
    live: bool,
    words: &[&[u8]],
) -> Result<Option<TaskCall>, AllocError>
    ensures { IfOk result
        (λ says. says ≡ line_says live wired.now.names (map (λ word. word.now) words.now)) }
{
    match *words {
        [task, name, ref parameters @ ..] => {
            let caller = caller(wired, live, task);
            said_by(alloc, caller, CallName::named(live, name), parameters)
        }
        _ => Ok(None),
    }
}
