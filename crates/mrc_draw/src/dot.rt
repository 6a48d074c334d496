//! Drawings as texts of graphviz's language DOT.

use crate::drawing::{Drawing, STYLES, Style, drawing_of, is_held};
use crate::nodes::{leaders_of, members_of};
use mrc_base::{ClassId, Fact, PortRight, TaskId};
use mrc_rows::Facts;
use mrc_wiring::{ForbiddenLine, Wired};
use mrc_words::{class_word, task_word};
use std::alloc::{AllocError, Global};

/// The words of the rights, with a comma and a blank between each two.
fn rights_text(send: bool, receive: bool, once: bool) -> &'static str {
    match (send, receive, once) {
        (false, false, false) => "",
        (true, false, false) => "send",
        (false, true, false) => "receive",
        (false, false, true) => "once",
        (true, true, false) => "send, receive",
        (true, false, true) => "send, once",
        (false, true, true) => "receive, once",
        (true, true, true) => "send, receive, once",
    }
}

/// The looks of a hold.
fn style_text(style: Style) -> &'static str {
    match (style.first, style.forbidden) {
        (true, false) => "",
        (false, false) => ",style=dashed",
        (true, true) => ",color=red",
        (false, true) => ",style=dashed,color=red",
    }
}

/// The looks of what may be carried.
fn carry_look() -> &'static str {
    ",style=dotted,arrowhead=vee"
}

/// The looks of backups.
fn backup_look() -> &'static str {
    ",style=dotted,arrowhead=tee"
}

/// The line of an edge.
fn arrow_line(
    alloc: Global,
    tail: &str,
    head: &str,
    label: &str,
    look: &str,
) -> Result<String, AllocError> {
    format!(in alloc; "  \"{tail}\" -> \"{head}\" [label=\"{label}\"{look}];\n")
}

/// The line of the edge of a style from a node to a class, if there is one.
fn hold_line(
    alloc: Global,
    drawing: &Drawing<'_>,
    leader: u16,
    members: &[u16],
    class: ClassId,
    style: Style,
) -> Result<String, AllocError> {
    let send = is_held(drawing, members, class, style, PortRight::Send);
    let receive = is_held(drawing, members, class, style, PortRight::Receive);
    let once = is_held(drawing, members, class, style, PortRight::SendOnce);
    let label = rights_text(send, receive, once);
    if label.is_empty() {
        return Ok(String::new(alloc));
    }
    let tail = task_word(alloc, drawing.wired, TaskId(u32::from(leader)))?;
    let head = class_word(alloc, drawing.wired, class)?;
    arrow_line(
        alloc,
        tail.as_str(),
        head.as_str(),
        label,
        style_text(style),
    )
}

/// The lines of the edges from a node to a class.
fn hold_lines(
    alloc: Global,
    drawing: &Drawing<'_>,
    leader: u16,
    members: &[u16],
    class: ClassId,
) -> Result<String, AllocError> {
    let mut text = String::new(alloc);
    for style in &STYLES {
        let line = hold_line(alloc, drawing, leader, members, class, *style)?;
        text.push_str(line.as_str())?;
    }
    Ok(text)
}

/// The lines of the edges from a node.
fn node_edges(
    alloc: Global,
    drawing: &Drawing<'_>,
    leader: u16,
    members: &[u16],
) -> Result<String, AllocError> {
    let mut text = String::new(alloc);
    for class in 0..drawing.wired.classes() {
        let lines = hold_lines(alloc, drawing, leader, members, ClassId(class))?;
        text.push_str(lines.as_str())?;
    }
    Ok(text)
}

/// The name of a task, behind a mark for the next line where it is not the first.
fn name_piece(alloc: Global, wired: &Wired, place: usize, task: u16) -> Result<String, AllocError> {
    let name = task_word(alloc, wired, TaskId(u32::from(task)))?;
    if place == 0 {
        Ok(name)
    } else {
        format!(in alloc; "\\n{name}")
    }
}

/// The names of tasks, below each other.
fn names_text(alloc: Global, wired: &Wired, tasks: &[u16]) -> Result<String, AllocError> {
    let mut text = String::new(alloc);
    for (place, task) in tasks.iter().enumerate() {
        let piece = name_piece(alloc, wired, place, *task)?;
        text.push_str(piece.as_str())?;
    }
    Ok(text)
}

/// The line of a box with these names in it.
fn box_line(alloc: Global, name: &str, names: &str) -> Result<String, AllocError> {
    format!(in alloc; "  \"{name}\" [shape=box,label=\"{names}\"];\n")
}

/// The line of a node.
fn node_line(
    alloc: Global,
    drawing: &Drawing<'_>,
    leader: u16,
    members: &[u16],
) -> Result<String, AllocError> {
    let name = task_word(alloc, drawing.wired, TaskId(u32::from(leader)))?;
    let names = names_text(alloc, drawing.wired, members)?;
    box_line(alloc, name.as_str(), names.as_str())
}

/// The line of a node, if it has edges.
fn node_text(
    alloc: Global,
    drawing: &Drawing<'_>,
    leaders: &[u16],
    leader: u16,
) -> Result<String, AllocError> {
    let members = members_of(alloc, drawing, leaders, leader)?;
    let edges = node_edges(alloc, drawing, leader, members.as_slice())?;
    if edges.is_empty() {
        return Ok(edges);
    }
    node_line(alloc, drawing, leader, members.as_slice())
}

/// The lines of the nodes that have edges.
fn nodes_text(alloc: Global, drawing: &Drawing<'_>, leaders: &[u16]) -> Result<String, AllocError> {
    let mut text = String::new(alloc);
    for leader in leaders {
        let line = node_text(alloc, drawing, leaders, *leader)?;
        text.push_str(line.as_str())?;
    }
    Ok(text)
}

/// The lines of the edges from a leader's node.
fn leader_edges(
    alloc: Global,
    drawing: &Drawing<'_>,
    leaders: &[u16],
    leader: u16,
) -> Result<String, AllocError> {
    let members = members_of(alloc, drawing, leaders, leader)?;
    node_edges(alloc, drawing, leader, members.as_slice())
}

/// The lines of the edges from nodes.
fn holds_text(alloc: Global, drawing: &Drawing<'_>, leaders: &[u16]) -> Result<String, AllocError> {
    let mut text = String::new(alloc);
    for leader in leaders {
        let lines = leader_edges(alloc, drawing, leaders, *leader)?;
        text.push_str(lines.as_str())?;
    }
    Ok(text)
}

/// Whether the right on the class may be carried to the other.
fn is_carried(
    drawing: &Drawing<'_>,
    destination: ClassId,
    class: ClassId,
    right: PortRight,
) -> bool {
    drawing.facts.has(&Fact::Carry {
        destination,
        class,
        right,
    })
}

/// The line of what may be carried to a class, if anything may.
fn carry_line(
    alloc: Global,
    drawing: &Drawing<'_>,
    destination: ClassId,
    class: ClassId,
) -> Result<String, AllocError> {
    let send = is_carried(drawing, destination, class, PortRight::Send);
    let receive = is_carried(drawing, destination, class, PortRight::Receive);
    let once = is_carried(drawing, destination, class, PortRight::SendOnce);
    let label = rights_text(send, receive, once);
    if label.is_empty() {
        return Ok(String::new(alloc));
    }
    let tail = class_word(alloc, drawing.wired, destination)?;
    let head = class_word(alloc, drawing.wired, class)?;
    arrow_line(alloc, tail.as_str(), head.as_str(), label, carry_look())
}

/// The line of requests on a class that name another, if there may be any.
fn backup_line(
    alloc: Global,
    drawing: &Drawing<'_>,
    class: ClassId,
    notify: ClassId,
) -> Result<String, AllocError> {
    if !drawing.facts.has(&Fact::Backup { class, notify }) {
        return Ok(String::new(alloc));
    }
    let tail = class_word(alloc, drawing.wired, class)?;
    let head = class_word(alloc, drawing.wired, notify)?;
    arrow_line(alloc, tail.as_str(), head.as_str(), "backup", backup_look())
}

/// The lines of the edges from a class to another.
fn pair_lines(
    alloc: Global,
    drawing: &Drawing<'_>,
    class: ClassId,
    other: ClassId,
) -> Result<String, AllocError> {
    let mut text = carry_line(alloc, drawing, class, other)?;
    let backup = backup_line(alloc, drawing, class, other)?;
    text.push_str(backup.as_str())?;
    Ok(text)
}

/// The lines of the edges from a class.
fn class_edges(alloc: Global, drawing: &Drawing<'_>, class: ClassId) -> Result<String, AllocError> {
    let mut text = String::new(alloc);
    for other in 0..drawing.wired.classes() {
        let lines = pair_lines(alloc, drawing, class, ClassId(other))?;
        text.push_str(lines.as_str())?;
    }
    Ok(text)
}

/// The lines of the edges from classes.
fn classes_text(alloc: Global, drawing: &Drawing<'_>) -> Result<String, AllocError> {
    let mut text = String::new(alloc);
    for class in 0..drawing.wired.classes() {
        let lines = class_edges(alloc, drawing, ClassId(class))?;
        text.push_str(lines.as_str())?;
    }
    Ok(text)
}

/// The drawing as a text.
fn drawing_text(alloc: Global, drawing: &Drawing<'_>) -> Result<String, AllocError> {
    let leaders = leaders_of(alloc, drawing)?;
    let nodes = nodes_text(alloc, drawing, leaders.as_slice())?;
    let holds = holds_text(alloc, drawing, leaders.as_slice())?;
    let classes = classes_text(alloc, drawing)?;
    let mut text = String::from_str(alloc, "digraph facts {\n  rankdir=LR;\n")?;
    text.push_str(nodes.as_str())?;
    text.push_str(holds.as_str())?;
    text.push_str(classes.as_str())?;
    text.push_str("}\n")?;
    Ok(text)
}

/// The facts as a drawing in DOT, where a policy has these lines: tasks as boxes, classes as
/// ellipses; from tasks to classes what they hold, solid where K1 gives it, else dashed, and red
/// where the policy forbids it; from classes to classes what may be carried there, and backups.
pub fn graph_text(
    alloc: Global,
    wired: &Wired,
    facts: &Facts,
    lines: &[ForbiddenLine],
) -> Result<String, AllocError> {
    let drawing = drawing_of(alloc, wired, facts, lines)?;
    drawing_text(alloc, &drawing)
}
