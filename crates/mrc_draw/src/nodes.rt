//! Nodes of tasks that hold the same.

use crate::drawing::{Drawing, holds_alike};
use mrc_base::{ClassId, Fact, PortRight};
use std::alloc::{AllocError, Global};

/// Whether the task holds the kernel port of the other, which is a task of the wiring.
fn holds_kernel(drawing: &Drawing<'_>, task: u16, other: u16) -> bool {
    if other >= drawing.wired.tasks() {
        return false;
    }
    drawing.facts.has(&Fact::Hold {
        task,
        class: ClassId(drawing.wired.ports() + other),
        right: PortRight::Send,
    })
}

/// Whether the two hold the same rights on the class.
fn hold_alike(drawing: &Drawing<'_>, task: u16, other: u16, class: u16) -> bool {
    let class = ClassId(class);
    holds_alike(drawing, task, other, class, PortRight::Send)
        && holds_alike(drawing, task, other, class, PortRight::Receive)
        && holds_alike(drawing, task, other, class, PortRight::SendOnce)
}

/// Whether the two hold the same.
fn hold_same(drawing: &Drawing<'_>, task: u16, other: u16) -> bool {
    (0..drawing.wired.classes()).all(|class| hold_alike(drawing, task, other, class))
}

/// Whether the two are one task, or each of them holds the kernel port of the other, and they hold
/// the same.
fn are_one(drawing: &Drawing<'_>, task: u16, other: u16) -> bool {
    task == other
        || (holds_kernel(drawing, task, other)
            && holds_kernel(drawing, other, task)
            && hold_same(drawing, task, other))
}

/// The first of the leaders that the task is one with.
fn find_leader(drawing: &Drawing<'_>, leaders: &[u16], task: u16) -> Option<u16> {
    leaders
        .iter()
        .copied()
        .find(|leader| are_one(drawing, task, *leader))
}

/// Whether the task is one with some leader.
fn is_led(drawing: &Drawing<'_>, leaders: &[u16], task: u16) -> bool {
    leaders.iter().any(|leader| are_one(drawing, task, *leader))
}

/// Puts the task to the leaders, if it is one with none of them.
fn put_task(drawing: &Drawing<'_>, leaders: &mut Vec<u16>, task: u16) -> Result<(), AllocError> {
    if is_led(drawing, leaders.as_slice(), task) {
        return Ok(());
    }
    leaders.push(task)?;
    Ok(())
}

/// The tasks that lead a node: each that is one with no leader before it.
pub(crate) fn leaders_of(alloc: Global, drawing: &Drawing<'_>) -> Result<Vec<u16>, AllocError> {
    let mut leaders = Vec::new(alloc);
    for task in 0..drawing.wired.tasks() {
        put_task(drawing, &mut leaders, task)?;
    }
    Ok(leaders)
}

/// Puts the task to the members of a leader's node, if it is one of them.
fn put_member(
    drawing: &Drawing<'_>,
    leaders: &[u16],
    leader: u16,
    members: &mut Vec<u16>,
    task: u16,
) -> Result<(), AllocError> {
    if find_leader(drawing, leaders, task).unwrap_or(task) != leader {
        return Ok(());
    }
    members.push(task)?;
    Ok(())
}

/// The tasks of a leader's node.
pub(crate) fn members_of(
    alloc: Global,
    drawing: &Drawing<'_>,
    leaders: &[u16],
    leader: u16,
) -> Result<Vec<u16>, AllocError> {
    let mut members = Vec::new(alloc);
    for task in 0..drawing.wired.tasks() {
        put_member(drawing, leaders, leader, &mut members, task)?;
    }
    Ok(members)
}
