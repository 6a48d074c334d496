//! Which classes of ports the slots of a type carry.

use mrc_base::{ClassId, Disp, Fact, need};
use mrc_classes::{Facts, can_send_to};
use mrc_forms::{Form, Interface, MessageKind};
use mrc_model::LabelItem;
use mrc_wiring::Wired;
use std::alloc::{AllocError, Global};

/// A type of port arguments, by the names of its subsystem and of itself.
#[derive(Clone, Copy, Debug)]
pub(crate) struct TypeNames<'a> {
    pub(crate) subsystem: &'a str,
    pub(crate) type_name: &'a str,
}

/// How the messages of an interface carry ports by a type.
#[derive(Drop)]
struct Carriers {
    requests: Vec<Disp>,
    replies: Vec<Disp>,
}

/// A task that can send messages of this kind.
#[derive(Clone, Copy, Debug)]
struct Sender {
    task: u16,
    kind: MessageKind,
}

/// Adds the dispositions of the form's slots of the type.
fn add_form(
    dispositions: &mut Vec<Disp>,
    form: Option<&Form>,
    type_name: &str,
) -> Result<(), AllocError> {
    let Some(form) = form else {
        return Ok(());
    };
    for slot in form.slots() {
        if slot.type_name.as_str() == type_name {
            dispositions.extend_from_slice(slot.dispositions())?;
        }
    }
    Ok(())
}

/// The dispositions in which these messages carry ports by the type.
fn dispositions(
    alloc: Global,
    interface: &Interface,
    kind: MessageKind,
    type_name: &str,
) -> Result<Vec<Disp>, AllocError> {
    let mut found = Vec::new(alloc);
    for row in interface.rows() {
        add_form(&mut found, row.form(kind), type_name)?;
    }
    found.sort()?;
    found.dedup();
    Ok(found)
}

/// Whether the class accepts the item.
fn accepts(wired: &Wired, class: ClassId, item: LabelItem) -> bool {
    for other in wired.label(class) {
        if *other == item {
            return true;
        }
    }
    false
}

/// Whether the task can send to ports that accept the item.
fn can_send_item(wired: &Wired, facts: &Facts, task: u16, item: LabelItem) -> bool {
    for number in 0..wired.classes() {
        let class = ClassId(number);
        if accepts(wired, class, item) && can_send_to(facts, task, number) {
            return true;
        }
    }
    false
}

/// The tasks that can send messages of the interface of this number.
fn senders(
    alloc: Global,
    wired: &Wired,
    facts: &Facts,
    number: usize,
) -> Result<Vec<Sender>, AllocError> {
    let mut found = Vec::new(alloc);
    for task in 0..wired.tasks() {
        if can_send_item(wired, facts, task, LabelItem::Request(number)) {
            found.push(Sender {
                task,
                kind: MessageKind::Request,
            })?;
        }
        if can_send_item(wired, facts, task, LabelItem::Reply(number)) {
            found.push(Sender {
                task,
                kind: MessageKind::Reply,
            })?;
        }
    }
    Ok(found)
}

/// Whether the task holds a right on the class that one of the dispositions needs.
fn can_give(facts: &Facts, task: u16, class: ClassId, dispositions: &[Disp]) -> bool {
    for disposition in dispositions {
        let right = need(*disposition);
        if facts.has(&Fact::Hold { task, class, right }) {
            return true;
        }
    }
    false
}

/// Whether one of the senders can give a right on the class.
fn is_carried(facts: &Facts, carriers: &Carriers, senders: &[Sender], class: ClassId) -> bool {
    for sender in senders {
        let dispositions = match sender.kind {
            MessageKind::Request => carriers.requests.as_slice(),
            MessageKind::Reply => carriers.replies.as_slice(),
        };
        if can_give(facts, sender.task, class, dispositions) {
            return true;
        }
    }
    false
}

/// The number of the interface of this name.
fn number_of(wired: &Wired, subsystem: &str) -> Option<usize> {
    for (number, interface) in wired.interfaces().iter().enumerate() {
        if interface.name() == subsystem {
            return Some(number);
        }
    }
    None
}

/// The classes that messages carry by the type, where it admits every class.
pub(crate) fn carried(
    alloc: Global,
    wired: &Wired,
    facts: &Facts,
    names: TypeNames<'_>,
) -> Result<Vec<ClassId>, AllocError> {
    let mut classes = Vec::new(alloc);
    let Some(number) = number_of(wired, names.subsystem) else {
        return Ok(classes);
    };
    let Some(interface) = wired.interface(number) else {
        return Ok(classes);
    };
    let carriers = Carriers {
        requests: dispositions(alloc, interface, MessageKind::Request, names.type_name)?,
        replies: dispositions(alloc, interface, MessageKind::Reply, names.type_name)?,
    };
    let senders = senders(alloc, wired, facts, number)?;
    for class in 0..wired.classes() {
        if is_carried(facts, &carriers, senders.as_slice(), ClassId(class)) {
            classes.push(ClassId(class))?;
        }
    }
    Ok(classes)
}
