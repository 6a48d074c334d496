//! What the lines of wirings say.

use anyhow::Result;
use mrc_wiring_text::{
    ClassName, HeldRight, Item, Items, Kind, Name, TrustVerb, TrustedRight, WiringLine, WiringSays,
    read_wiring,
};
use mrc_words::right_word;
use std::alloc::{AllocError, Global};
use std::fmt::Write;

/// A class as a line names it.
pub fn put_class(out: &mut String, class: &ClassName) -> Result<(), AllocError> {
    match class {
        ClassName::Port(name) => write!(out, "port {}", name.as_str()),
        ClassName::Task(name) => write!(out, "task {}", name.as_str()),
        ClassName::Births { task, kind } => {
            write!(out, "births {}", task.as_str())?;
            put_kind(out, kind)
        }
    }
}

/// A kind of births, where it is not 0.
fn put_kind(out: &mut String, kind: &Kind) -> Result<(), AllocError> {
    match kind.number() {
        0 => Ok(()),
        number => write!(out, " {number}"),
    }
}

fn put_item(out: &mut String, item: &Item) -> Result<(), AllocError> {
    match item {
        Item::Request(name) => write!(out, " request {}", name.as_str()),
        Item::Reply(name) => write!(out, " reply {}", name.as_str()),
        Item::Destroyed => out.push_str(" destroyed"),
    }
}

fn put_items(out: &mut String, items: &Items) -> Result<(), AllocError> {
    for item in items.as_slice() {
        put_item(out, item)?;
    }
    out.push(';')
}

fn put_port(
    out: &mut String,
    port: &Name,
    receiver: &Name,
    accepts: &Items,
) -> Result<(), AllocError> {
    write!(out, "port {} of {}:", port.as_str(), receiver.as_str())?;
    put_items(out, accepts)
}

fn put_births(
    out: &mut String,
    task: &Name,
    kind: &Kind,
    accepts: &Items,
) -> Result<(), AllocError> {
    write!(out, "births {}", task.as_str())?;
    put_kind(out, kind)?;
    out.push(':')?;
    put_items(out, accepts)
}

fn put_hold(
    out: &mut String,
    holder: &Name,
    right: HeldRight,
    port: &Name,
) -> Result<(), AllocError> {
    let right = match right {
        HeldRight::Send => "send",
        HeldRight::SendOnce => "once",
    };
    let (holder, port) = (holder.as_str(), port.as_str());
    write!(out, "hold {holder} {right} port {port};")
}

fn put_admit(
    out: &mut String,
    subsystem: &Name,
    type_name: &Name,
    class: &Option<ClassName>,
) -> Result<(), AllocError> {
    write!(out, "admit {} {} ", subsystem.as_str(), type_name.as_str())?;
    match class {
        Some(class) => put_class(out, class)?,
        None => out.push_str("none")?,
    }
    out.push(';')
}

fn put_trust(
    out: &mut String,
    task: &Name,
    verb: TrustVerb,
    right: &Option<TrustedRight>,
) -> Result<(), AllocError> {
    let verb = match verb {
        TrustVerb::Takes => "takes",
        TrustVerb::Gives => "gives",
        TrustVerb::Sends => "sends",
        TrustVerb::Replies => "replies",
    };
    write!(out, "trust {} {verb} ", task.as_str())?;
    match right {
        Some(on) => {
            write!(out, "{} ", right_word(on.right))?;
            put_class(out, &on.class)?;
        }
        None => out.push_str("none")?,
    }
    out.push(';')
}

fn put_says(out: &mut String, says: &WiringSays) -> Result<(), AllocError> {
    match says {
        WiringSays::Task(task) => write!(out, "task {};", task.as_str()),
        WiringSays::Port {
            port,
            receiver,
            accepts,
        } => put_port(out, port, receiver, accepts),
        WiringSays::Births {
            task,
            kind,
            accepts,
        } => put_births(out, task, kind, accepts),
        WiringSays::HoldPort {
            holder,
            right,
            port,
        } => put_hold(out, holder, *right, port),
        WiringSays::HoldTask { holder, task } => {
            write!(out, "hold {} task {};", holder.as_str(), task.as_str())
        }
        WiringSays::Admit {
            subsystem,
            type_name,
            class,
        } => { put_admit(out, subsystem, type_name, class) }
        WiringSays::Trust { task, verb, right } => put_trust(out, task, *verb, right),
        WiringSays::RepliesFit => out.push_str("replies fit;"),
    }
}

/// The lines, by their numbers and what they say.
fn lines_text(alloc: Global, lines: &[WiringLine]) -> Result<String, AllocError> {
    let mut out = String::new(alloc);
    for line in lines {
        write!(out, "{} ", line.number)?;
        put_says(&mut out, &line.says)?;
    }
    Ok(out)
}

/// Each line of a wiring, by its number and what it says.
pub fn wiring(alloc: Global, bytes: &[u8]) -> Result<String> {
    Ok(lines_text(alloc, read_wiring(alloc, bytes)?.as_slice())?)
}
