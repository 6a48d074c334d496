//! What a `YES` rests on: what a kernel or a filter has to enforce at ports, and what has to be found
//! in the code of trusted tasks. As lines, and as objects.

use crate::enforced::{
    AdmittedObject, DeliveredObject, admitted_line, all_admitted, all_delivered, delivered_line,
};
use crate::json::{SCHEMA, json_text};
use mrc_base::PortRight;
use mrc_wiring_text::{ClassName, TrustVerb, TrustedRight, WiringLine, WiringSays};
use mrc_words::right_word;
use serde::Serialize;
use std::alloc::{AllocError, Global};

/// What a line of a wiring asks of a trusted task. Class and right are those that the line names.
#[derive(Drop, Serialize)]
struct PromiseObject<'a> {
    class: Option<String>,
    line: u32,
    right: Option<&'static str>,
    /// The task; none, if the line asks it of each.
    task: Option<&'a str>,
    text: String,
    verb: &'static str,
}

/// What a wiring asks: of ports, of trusted tasks, and of slots.
#[derive(Drop, Serialize)]
struct PromisesAnswer<'a> {
    admitted: Vec<AdmittedObject<'a>>,
    answer: &'static str,
    command: &'static str,
    delivered: Vec<DeliveredObject>,
    promises: Vec<PromiseObject<'a>>,
    schema: u32,
}

/// What is asked of reply ports that have to fit.
const FIT: &str =
    "mach_msg with a reply port only if the port accepts the replies of the request's interface";

/// A class in the words of a wiring: births without their kind, if it is 0.
pub(crate) fn class_words(alloc: Global, class: &ClassName) -> Result<String, AllocError> {
    match class {
        ClassName::Port(name) => format!(in alloc; "port {}", name.as_str()),
        ClassName::Task(name) => format!(in alloc; "task {}", name.as_str()),
        ClassName::Births { task, kind } => match kind.number() {
            0 => format!(in alloc; "births {}", task.as_str()),
            kind => format!(in alloc; "births {} {kind}", task.as_str()),
        },
    }
}

/// A class of these words as it is printed in a fact: with colons.
pub(crate) fn class_of(alloc: Global, words: &str) -> Result<String, AllocError> {
    words
        .chars()
        .map(|c| if c == ' ' { ':' } else { c })
        .collect(alloc)
}

/// The word of a right in Mach's documents.
fn right_words(right: PortRight) -> &'static str {
    match right {
        PortRight::Send => "send",
        PortRight::Receive => "receive",
        PortRight::SendOnce => "send-once",
    }
}

/// The word of a verb in a wiring, the calls by which a task does what it says, and where else
/// nothing is admitted or given, if nothing is.
fn verb_words(verb: TrustVerb) -> (&'static str, &'static str, &'static str) {
    match verb {
        TrustVerb::Takes => (
            "takes",
            "mach_port_extract_right from another task",
            ", and no mach_port_request_notification there that returns a right",
        ),
        TrustVerb::Gives => (
            "gives",
            "mach_port_insert_right on another task",
            ", and no mach_port_request_notification there with a notify right",
        ),
        TrustVerb::Sends => ("sends", "mach_msg with rights in its body", ""),
        TrustVerb::Replies => ("replies", "mach_msg with a reply port", ""),
    }
}

/// Where else a task takes or gives such a right.
fn also(verb: TrustVerb, right: PortRight) -> &'static str {
    match (verb, right) {
        (TrustVerb::Takes, PortRight::SendOnce) => {
            ", and the previous right of mach_port_request_notification there,"
        }
        (TrustVerb::Gives, PortRight::SendOnce) => {
            ", and the notify right of mach_port_request_notification there,"
        }
        _ => "",
    }
}

/// What a line allows that names a right on a class. It begins with `or` if it is a further line of
/// its task and verb.
fn right_text(
    alloc: Global,
    further: bool,
    verb: TrustVerb,
    on: &TrustedRight,
) -> Result<String, AllocError> {
    let word = if further { "or" } else { "only" };
    let class = class_words(alloc, &on.class)?;
    if matches!(verb, TrustVerb::Replies) {
        return format!(in alloc; "mach_msg with reply ports {word} of {class}");
    }
    let (_, calls, _) = verb_words(verb);
    let also = also(verb, on.right);
    let right = right_words(on.right);
    format!(in alloc; "{calls}{also} {word} of {right} rights on ports of {class}")
}

/// What a line allows: nothing, if it names no right.
fn limit_text(
    alloc: Global,
    further: bool,
    verb: TrustVerb,
    right: &Option<TrustedRight>,
) -> Result<String, AllocError> {
    if let Some(on) = right {
        return right_text(alloc, further, verb, on);
    }
    let word = if further { "or no" } else { "no" };
    let (_, calls, also_not) = verb_words(verb);
    format!(in alloc; "{word} {calls}{also_not}")
}

/// What a line asks: nothing, if it trusts no task.
fn promise(
    alloc: Global,
    further: bool,
    line: &WiringLine,
) -> Result<Option<PromiseObject<'_>>, AllocError> {
    let mut promise = PromiseObject {
        class: None,
        line: line.number,
        right: None,
        task: None,
        text: String::new(alloc),
        verb: "replies fit",
    };
    match &line.says {
        WiringSays::Trust { task, verb, right } => {
            if let Some(on) = right {
                let words = class_words(alloc, &on.class)?;
                promise.class = Some(class_of(alloc, words.as_str())?);
                promise.right = Some(right_word(on.right));
            }
            promise.task = Some(task.as_str());
            promise.verb = verb_words(*verb).0;
            promise.text = limit_text(alloc, further, *verb, right)?;
        }
        WiringSays::RepliesFit => promise.text.push_str(FIT)?,
        _ => return Ok(None),
    }
    Ok(Some(promise))
}

/// Whether what a line says limits what this task does by this verb.
fn limits(task: &str, verb: TrustVerb, says: &WiringSays) -> bool {
    match says {
        WiringSays::Trust {
            task: other,
            verb: by,
            ..
        } => other.as_str() == task && *by == verb,
        _ => false,
    }
}

/// Whether a line is a further one of its task and verb. If it is the first, it is added to those
/// that were the first of theirs.
fn add_first<'a>(
    firsts: &mut Vec<&'a WiringLine>,
    line: &'a WiringLine,
) -> Result<bool, AllocError> {
    let WiringSays::Trust { task, verb, .. } = &line.says else {
        return Ok(false);
    };
    let task = task.as_str();
    let further = firsts.iter().any(|first| limits(task, *verb, &first.says));
    if !further {
        firsts.push(line)?;
    }
    Ok(further)
}

/// What the lines of a wiring ask. Of each task and verb the first line is kept, so that a line is
/// compared with few others.
fn promises_of(alloc: Global, lines: &[WiringLine]) -> Result<Vec<PromiseObject<'_>>, AllocError> {
    let mut promises = Vec::new(alloc);
    let mut firsts = Vec::new(alloc);
    for line in lines {
        let further = add_first(&mut firsts, line)?;
        if let Some(promise) = promise(alloc, further, line)? {
            promises.push(promise)?;
        }
    }
    Ok(promises)
}

/// The line of a promise.
fn promise_line(alloc: Global, promise: &PromiseObject<'_>) -> Result<String, AllocError> {
    let task = promise.task.unwrap_or("each task");
    let text = promise.text.as_str();
    let line = promise.line;
    format!(in alloc; "{task}: {text} (line {line})\n")
}

/// What a `YES` over a wiring of these lines rests on, a line for each: what is delivered at the
/// ports of each class, by their numbers; what slots take whose type a line names, in the order of
/// these lines; and what has to be found in the code of trusted tasks, in the order of the lines
/// that limit a task, and of `replies fit`.
pub fn promises_text(alloc: Global, lines: &[WiringLine]) -> Result<String, AllocError> {
    let mut text = String::new(alloc);
    for one in &all_delivered(alloc, lines)? {
        text.push_str(delivered_line(alloc, one)?.as_str())?;
    }
    for one in &all_admitted(alloc, lines)? {
        text.push_str(admitted_line(alloc, one)?.as_str())?;
    }
    for one in &promises_of(alloc, lines)? {
        text.push_str(promise_line(alloc, one)?.as_str())?;
    }
    Ok(text)
}

/// The same as an object.
pub fn promises_json(alloc: Global, lines: &[WiringLine]) -> Result<String, AllocError> {
    let answer = PromisesAnswer {
        admitted: all_admitted(alloc, lines)?,
        answer: "promises",
        command: "promises",
        delivered: all_delivered(alloc, lines)?,
        promises: promises_of(alloc, lines)?,
        schema: SCHEMA,
    };
    json_text(alloc, &answer)
}
