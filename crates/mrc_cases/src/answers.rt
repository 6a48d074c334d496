//! What a wiring says by numbers and names.

use mrc_base::{ClassId, Disp, Fact, TaskId};
use mrc_forms::{Form, Interface, MessageKind};
use mrc_model::{FirstLine, LabelItem};
use mrc_wiring::Wired;
use mrc_words::{class_word, right_word, task_word};
use std::alloc::{AllocError, Global};
use std::fmt::Write;

/// What is held at first, by task, class and right.
pub fn holdings(alloc: Global, wired: &Wired) -> Result<String, AllocError> {
    let mut out = String::new(alloc);
    for fact in &wired.first_holdings(alloc)? {
        if let Fact::Hold { task, class, right } = fact {
            write!(out, "{task} {} {};", class.0, right_word(*right))?;
        }
    }
    Ok(out)
}

fn put_line(out: &mut String, line: &FirstLine) -> Result<(), AllocError> {
    match line {
        FirstLine::Task => out.push_str("task;"),
        FirstLine::Port { receiver } => write!(out, "port {};", receiver.0),
        FirstLine::Hold { task, port, right } => {
            write!(out, "hold {} {} {};", task.0, port.0, right_word(*right))
        }
    }
}

/// The lines that make the first state.
pub fn lines(alloc: Global, wired: &Wired) -> Result<String, AllocError> {
    let mut out = String::new(alloc);
    for line in wired.first_lines() {
        put_line(&mut out, line)?;
    }
    Ok(out)
}

fn put_item(out: &mut String, item: LabelItem) -> Result<(), AllocError> {
    match item {
        LabelItem::Request(number) => write!(out, " request {number}"),
        LabelItem::Reply(number) => write!(out, " reply {number}"),
        LabelItem::Destroyed => out.push_str(" destroyed"),
    }
}

fn put_label(out: &mut String, wired: &Wired, class: ClassId) -> Result<(), AllocError> {
    write!(out, "{}", class.0)?;
    for item in wired.label(class) {
        put_item(out, *item)?;
    }
    out.push(';')
}

/// The items of each class, and of the number behind the last.
pub fn labels(alloc: Global, wired: &Wired) -> Result<String, AllocError> {
    let mut out = String::new(alloc);
    for class in 0..wired.classes() + 1 {
        put_label(&mut out, wired, ClassId(class))?;
    }
    Ok(out)
}

/// Whether each class, and the number behind the last, accepts requests of a routine, and whether
/// its ports may be named in a port-destroyed request.
pub fn accepts(alloc: Global, wired: &Wired) -> Result<String, AllocError> {
    let mut out = String::new(alloc);
    for class in 0..wired.classes() + 1 {
        let class = ClassId(class);
        let routine = if wired.accepts_routine(class) {
            " routine"
        } else {
            ""
        };
        let destroyed = if wired.accepts_destroyed(class) {
            " destroyed"
        } else {
            ""
        };
        write!(out, "{}{routine}{destroyed};", class.0)?;
    }
    Ok(out)
}

/// The argument of the first slot of a form that has this type.
fn argument_of(form: &Form, type_name: &str) -> Option<usize> {
    for slot in form.slots() {
        if type_name == slot.type_name.as_str() {
            return Some(slot.argument);
        }
    }
    None
}

/// The number of a type in a form of an item of a label.
fn sort_in(wired: &Wired, item: LabelItem, form: &Form, type_name: &str) -> Option<usize> {
    let argument = argument_of(form, type_name)?;
    let typed = wired.item_form(item, form.id())?;
    Some(typed.sort(argument))
}

/// The number of a type in the forms of this message of an interface.
fn sort_among(
    wired: &Wired,
    interface: &Interface,
    kind: MessageKind,
    item: LabelItem,
    type_name: &str,
) -> Option<usize> {
    for row in interface.rows() {
        if let Some(form) = row.form(kind) {
            let sort = sort_in(wired, item, form, type_name);
            if sort.is_some() {
                return sort;
            }
        }
    }
    None
}

/// The number of a type of the interface of a number; one that no type has if there is none.
fn sort_of(wired: &Wired, number: usize, type_name: &str) -> usize {
    let Some(interface) = wired.interface(number) else {
        return usize::MAX;
    };
    let request = LabelItem::Request(number);
    match sort_among(wired, interface, MessageKind::Request, request, type_name) {
        Some(sort) => sort,
        None => {
            let reply = LabelItem::Reply(number);
            sort_among(wired, interface, MessageKind::Reply, reply, type_name).unwrap_or(usize::MAX)
        }
    }
}

/// The classes that a type admits: the type is given as the number of its interface, `.` and its
/// name.
pub fn admitted(alloc: Global, wired: &Wired, text: &str) -> Result<String, AllocError> {
    let (number, type_name) = text.split_once('.').unwrap_or((text, ""));
    let Ok(number) = number.parse() else {
        return String::from_str(alloc, "no number");
    };
    let sort = sort_of(wired, number, type_name);
    let mut out = String::new(alloc);
    for class in 0..wired.classes() + 1 {
        if wired.admits(sort, ClassId(class)) {
            write!(out, "{class};")?;
        }
    }
    Ok(out)
}

/// What can be carried to a class in slots of a disposition.
fn put_taken(out: &mut String, wired: &Wired, to: ClassId, disp: Disp) -> Result<(), AllocError> {
    for carried in 0..wired.classes() {
        if wired.takes(to, disp, ClassId(carried)) {
            write!(out, "{} {} {carried};", to.0, disp.number())?;
        }
    }
    Ok(())
}

const DISPS: [Disp; 6] = [
    Disp::MoveReceive,
    Disp::MoveSend,
    Disp::MoveSendOnce,
    Disp::CopySend,
    Disp::MakeSend,
    Disp::MakeSendOnce,
];

/// What can be carried to a class.
fn put_taken_by(out: &mut String, wired: &Wired, to: ClassId) -> Result<(), AllocError> {
    for disp in DISPS {
        put_taken(out, wired, to, disp)?;
    }
    Ok(())
}

/// What can be carried to each class, by disposition and class.
pub fn taken(alloc: Global, wired: &Wired) -> Result<String, AllocError> {
    let mut out = String::new(alloc);
    for to in 0..wired.classes() {
        put_taken_by(&mut out, wired, ClassId(to))?;
    }
    Ok(out)
}

/// The classes of the births of a task, by their kind.
fn put_births(out: &mut String, wired: &Wired, task: u32) -> Result<(), AllocError> {
    for kind in 0..17 {
        if let Some(class) = wired.births_class(TaskId(task), kind) {
            write!(out, "{task} {kind} {};", class.0)?;
        }
    }
    Ok(())
}

/// The classes of the births of each task, and of the number behind the last.
pub fn births(alloc: Global, wired: &Wired) -> Result<String, AllocError> {
    let mut out = String::new(alloc);
    for task in 0..wired.tasks() + 1 {
        put_births(&mut out, wired, u32::from(task))?;
    }
    Ok(out)
}

/// The classes, and the number behind the last, that are births, with the task of each.
pub fn born(alloc: Global, wired: &Wired) -> Result<String, AllocError> {
    let mut out = String::new(alloc);
    for class in 0..wired.classes() + 1 {
        if let Some(task) = wired.born_to(ClassId(class)) {
            write!(out, "{class} {};", task.0)?;
        }
    }
    Ok(out)
}

/// The name of each class, and the number behind the last.
pub fn class_names(alloc: Global, wired: &Wired) -> Result<String, AllocError> {
    let mut out = String::new(alloc);
    for class in 0..wired.classes() + 1 {
        let name = class_word(alloc, wired, ClassId(class))?;
        write!(out, "{class} {};", name.as_str())?;
    }
    Ok(out)
}

/// The name of each task, and what stands for the number behind the last.
pub fn task_names(alloc: Global, wired: &Wired) -> Result<String, AllocError> {
    let mut out = String::new(alloc);
    for task in 0..wired.tasks() + 1 {
        let name = task_word(alloc, wired, TaskId(u32::from(task)))?;
        write!(out, "{task} {};", name.as_str())?;
    }
    Ok(out)
}

/// The class of a name, or `none`.
pub fn class_named(alloc: Global, wired: &Wired, name: &str) -> Result<String, AllocError> {
    match wired.class_named(name) {
        Some(class) => class.0.to_string(alloc),
        None => String::from_str(alloc, "none"),
    }
}

/// The task of a name, or `none`.
pub fn task_named(alloc: Global, wired: &Wired, name: &str) -> Result<String, AllocError> {
    match wired.task_named(name) {
        Some(task) => task.0.to_string(alloc),
        None => String::from_str(alloc, "none"),
    }
}
