//! The lines of a wiring in words.

use mrc_wiring_text::{
    ClassName, Edition, HeldRight, Item, Kind, Name, TrustVerb, TrustedRight, WiringLine,
    WiringSays,
};
use mrc_words::right_word;
use std::alloc::{AllocError, Global};

/// The version that a text of this edition names: 4 without one.
fn version(older: Option<Edition>) -> u32 {
    match older {
        Some(Edition::First) => 1,
        Some(Edition::Second) => 2,
        Some(Edition::Third) => 3,
        None => 4,
    }
}

/// An item.
fn item_text(alloc: Global, item: &Item) -> Result<String, AllocError> {
    match item {
        Item::Request(subsystem) => format!(in alloc; "request {}", subsystem.as_str()),
        Item::Reply(subsystem) => format!(in alloc; "reply {}", subsystem.as_str()),
        Item::Destroyed => String::from_str(alloc, "destroyed"),
    }
}

/// What a class accepts: items with a comma and a blank between them, or `none`.
fn items_text(alloc: Global, items: &[Item]) -> Result<String, AllocError> {
    if items.is_empty() {
        return String::from_str(alloc, "none");
    }
    let mut text = String::new(alloc);
    for item in items {
        if !text.is_empty() {
            text.push_str(", ")?;
        }
        let next = item_text(alloc, item)?;
        text.push_str(next.as_str())?;
    }
    Ok(text)
}

/// A class. Kind 0 of births is left out.
fn class_text(alloc: Global, class: &ClassName) -> Result<String, AllocError> {
    match class {
        ClassName::Port(port) => format!(in alloc; "port {}", port.as_str()),
        ClassName::Task(task) => format!(in alloc; "task {}", task.as_str()),
        ClassName::Births { task, kind } => {
            let number = kind.number();
            if number == 0 {
                format!(in alloc; "births {}", task.as_str())
            } else {
                format!(in alloc; "births {} {number}", task.as_str())
            }
        }
    }
}

/// What the births of a task accept. In the first edition births have no kind.
fn births_text(
    alloc: Global,
    older: Option<Edition>,
    task: &Name,
    kind: &Kind,
    accepts: &[Item],
) -> Result<String, AllocError> {
    let items = items_text(alloc, accepts)?;
    match older {
        Some(Edition::First) => {
            format!(in alloc; "births {} accepts {}", task.as_str(), items.as_str())
        }
        Some(Edition::Second) | Some(Edition::Third) | None => {
            let number = kind.number();
            format!(in alloc;
                "births {} {number} accepts {}",
                task.as_str(),
                items.as_str()
            )
        }
    }
}

/// The right that a task holds.
fn held_word(right: HeldRight) -> &'static str {
    match right {
        HeldRight::Send => "send",
        HeldRight::SendOnce => "once",
    }
}

/// What a verb limits.
fn verb_word(verb: TrustVerb) -> &'static str {
    match verb {
        TrustVerb::Takes => "takes",
        TrustVerb::Gives => "gives",
        TrustVerb::Sends => "sends",
        TrustVerb::Replies => "replies",
    }
}

/// A right on a class, or the class alone behind `replies`.
fn trusted_text(alloc: Global, verb: TrustVerb, on: &TrustedRight) -> Result<String, AllocError> {
    let class = class_text(alloc, &on.class)?;
    match verb {
        TrustVerb::Takes | TrustVerb::Gives | TrustVerb::Sends => {
            format!(in alloc; "{} {}", right_word(on.right), class.as_str())
        }
        TrustVerb::Replies => Ok(class),
    }
}

/// What a trusted task may do by a verb.
fn trust_text(
    alloc: Global,
    task: &Name,
    verb: TrustVerb,
    right: &Option<TrustedRight>,
) -> Result<String, AllocError> {
    let named = match right {
        Some(on) => trusted_text(alloc, verb, on)?,
        None => String::from_str(alloc, "none")?,
    };
    format!(in alloc;
        "trust {} {} {}",
        task.as_str(),
        verb_word(verb),
        named.as_str()
    )
}

/// What slots of a type admit.
fn admit_text(
    alloc: Global,
    subsystem: &Name,
    type_name: &Name,
    class: &Option<ClassName>,
) -> Result<String, AllocError> {
    let named = match class {
        Some(class) => class_text(alloc, class)?,
        None => String::from_str(alloc, "none")?,
    };
    format!(in alloc;
        "admit {}.{} {}",
        subsystem.as_str(),
        type_name.as_str(),
        named.as_str()
    )
}

/// A wired port, with what its class accepts.
fn port_text(
    alloc: Global,
    port: &Name,
    receiver: &Name,
    accepts: &[Item],
) -> Result<String, AllocError> {
    let items = items_text(alloc, accepts)?;
    format!(in alloc;
        "port {} receiver {} accepts {}",
        port.as_str(),
        receiver.as_str(),
        items.as_str()
    )
}

/// What a line says, in words.
fn says_text(
    alloc: Global,
    older: Option<Edition>,
    says: &WiringSays,
) -> Result<String, AllocError> {
    match says {
        WiringSays::Task(task) => format!(in alloc; "task {}", task.as_str()),
        WiringSays::Port {
            port,
            receiver,
            accepts,
        } => port_text(alloc, port, receiver, accepts.as_slice()),
        WiringSays::Births {
            task,
            kind,
            accepts,
        } => births_text(alloc, older, task, kind, accepts.as_slice()),
        WiringSays::HoldPort {
            holder,
            right,
            port,
        } => format!(in alloc;
            "hold {} {} port {}",
            holder.as_str(),
            held_word(*right),
            port.as_str()
        ),
        WiringSays::HoldTask { holder, task } => {
            format!(in alloc; "hold {} send task {}", holder.as_str(), task.as_str())
        }
        WiringSays::Admit {
            subsystem,
            type_name,
            class,
        } => admit_text(alloc, subsystem, type_name, class),
        WiringSays::Trust { task, verb, right } => trust_text(alloc, task, *verb, right),
        WiringSays::RepliesFit => String::from_str(alloc, "replies fit"),
    }
}

/// The text of a wiring of these lines, of this edition or, without one, of version 4: its heading,
/// and a line for each.
pub fn expanded_text(
    alloc: Global,
    older: Option<Edition>,
    lines: &[WiringLine],
) -> Result<String, AllocError> {
    let mut text = format!(in alloc; "wiring {}\n", version(older))?;
    for line in lines {
        let says = says_text(alloc, older, &line.says)?;
        text.push_str(says.as_str())?;
        text.push('\n')?;
    }
    Ok(text)
}
