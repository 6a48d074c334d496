//! The changes that cut a chain: what each leaves out, the chain needs.

use crate::carrying::{TypeNames, carried};
use crate::changes::{Change, NamedClass, Narrowing, Restriction};
use crate::extending::{extended, narrowing_of, restriction_of};
use crate::losing::First;
use crate::narrowing::{Accepted, items_of_step, narrowed};
use crate::trusting::{limitation_of, names_actor};
use mrc_base::{ClassId, Fact};
use mrc_check::Stated;
use mrc_classes::Facts;
use mrc_closure::{Step, explain};
use mrc_why::{Source, Sources};
use mrc_wiring::{ClassKind, ClassLabel, Wired};
use mrc_wiring_text::{ClassName, Edition, WiringLine, WiringSays};
use std::alloc::{AllocError, Global};

/// What texts mean after some changes, what is derived, and the fact that is not to be derived.
#[derive(Clone, Copy)]
struct Node<'a> {
    first: First<'a>,
    wired: &'a Wired,
    lines: &'a [WiringLine],
    facts: &'a Facts,
    changes: &'a [Change],
    goal: Fact,
}

/// The admit lines of a type.
#[derive(Clone, Copy, Debug)]
struct AdmitLines {
    /// How many there are.
    count: usize,
    /// The number of the first that lets the class pass.
    letting: Option<u32>,
}

/// Whether the line gives a right that could be left out.
fn is_hold(says: &WiringSays) -> bool {
    match says {
        WiringSays::HoldPort { .. } | WiringSays::HoldTask { .. } => true,
        WiringSays::Task(_)
        | WiringSays::Port { .. }
        | WiringSays::Births { .. }
        | WiringSays::Admit { .. }
        | WiringSays::Trust { .. }
        | WiringSays::RepliesFit => false,
    }
}

/// Whether the line of this number is one that gives a right.
fn is_hold_line(lines: &[WiringLine], number: u32) -> bool {
    for line in lines {
        if line.number == number {
            return is_hold(&line.says);
        }
    }
    false
}

/// Whether the line names the class.
fn is_class(class: &Option<ClassName>, label: &ClassLabel<'_>) -> bool {
    match class {
        Some(ClassName::Port(name)) => {
            label.kind == ClassKind::Port && name.as_str() == label.name
        }
        Some(ClassName::Task(name)) => {
            label.kind == ClassKind::Task && name.as_str() == label.name
        }
        Some(ClassName::Births { task, kind }) => {
            label.kind == ClassKind::Births(kind.number()) && task.as_str() == label.name
        }
        None => false,
    }
}

/// The admit lines of the type.
fn admit_lines(lines: &[WiringLine], names: TypeNames<'_>, label: &ClassLabel<'_>) -> AdmitLines {
    let mut count = 0usize;
    let mut letting = None;
    for line in lines {
        if let WiringSays::Admit {
            subsystem,
            type_name,
            class,
        } = &line.says
        {
            if subsystem.as_str() == names.subsystem && type_name.as_str() == names.type_name {
                count = count.saturating_add(1);
                if letting.is_none() && is_class(class, label) {
                    letting = Some(line.number);
                }
            }
        }
    }
    AdmitLines { count, letting }
}

/// The restriction of a type to no class.
fn to_none(alloc: Global, names: TypeNames<'_>) -> Result<Restriction, AllocError> {
    Ok(Restriction {
        subsystem: String::from_str(alloc, names.subsystem)?,
        type_name: String::from_str(alloc, names.type_name)?,
        classes: Vec::new(alloc),
    })
}

/// Adds the class of this number.
fn add_class(
    alloc: Global,
    classes: &mut Vec<NamedClass>,
    wired: &Wired,
    class: ClassId,
) -> Result<(), AllocError> {
    if let Some(label) = wired.class_name(class) {
        classes.push(NamedClass {
            kind: label.kind,
            name: String::from_str(alloc, label.name)?,
        })?;
    }
    Ok(())
}

/// The restriction of a type without admit lines to the classes that it carries but this one.
fn to_others(
    alloc: Global,
    node: &Node<'_>,
    names: TypeNames<'_>,
    class: ClassId,
) -> Result<Restriction, AllocError> {
    let wired = node.wired;
    let mut restriction = to_none(alloc, names)?;
    for other in &carried(alloc, wired, node.facts, names)? {
        if *other != class {
            add_class(alloc, &mut restriction.classes, wired, *other)?;
        }
    }
    Ok(restriction)
}

/// The restriction without this class.
fn without(
    alloc: Global,
    restriction: &Restriction,
    label: &ClassLabel<'_>,
) -> Result<Restriction, AllocError> {
    let mut less = Restriction {
        subsystem: restriction.subsystem.clone()?,
        type_name: restriction.type_name.clone()?,
        classes: Vec::new(alloc),
    };
    for class in &restriction.classes {
        if class.kind != label.kind || class.name.as_str() != label.name {
            less.classes.push(class.clone()?)?;
        }
    }
    Ok(less)
}

/// Adds the changes with a restriction more, and with one to no class.
fn add_restricted(
    alloc: Global,
    next: &mut Vec<Vec<Change>>,
    changes: &[Change],
    names: TypeNames<'_>,
    restriction: Restriction,
) -> Result<(), AllocError> {
    let none = to_none(alloc, names)?;
    next.push(extended(alloc, changes, Change::Restrict(restriction))?)?;
    next.push(extended(alloc, changes, Change::Restrict(none))?)?;
    Ok(())
}

/// Adds the changes without the line that lets the class pass. Where it is the type's only one,
/// a line takes its place, since a type without lines admits all.
fn add_unadmitted(
    alloc: Global,
    next: &mut Vec<Vec<Change>>,
    changes: &[Change],
    names: TypeNames<'_>,
    lines: AdmitLines,
) -> Result<(), AllocError> {
    let Some(number) = lines.letting else {
        return Ok(());
    };
    let removed = extended(alloc, changes, Change::Remove(number))?;
    if lines.count > 1 {
        next.push(removed)?;
    } else {
        let none = to_none(alloc, names)?;
        next.push(extended(alloc, removed.as_slice(), Change::Restrict(none))?)?;
    }
    Ok(())
}

/// Adds the changes by which the type lets the class pass no more.
fn cut_type(
    alloc: Global,
    next: &mut Vec<Vec<Change>>,
    node: &Node<'_>,
    names: TypeNames<'_>,
    class: ClassId,
) -> Result<(), AllocError> {
    let wired = node.wired;
    let Some(label) = wired.class_name(class) else {
        return Ok(());
    };
    if let Some(known) = restriction_of(node.changes, names) {
        let less = without(alloc, known, &label)?;
        return add_restricted(alloc, next, node.changes, names, less);
    }
    let lines = admit_lines(node.lines, names, &label);
    if lines.count > 0 {
        return add_unadmitted(alloc, next, node.changes, names, lines);
    }
    let others = to_others(alloc, node, names, class)?;
    add_restricted(alloc, next, node.changes, names, others)
}

/// The class that a step carries.
fn carried_class(step: &Step) -> Option<ClassId> {
    match step.fact {
        Fact::Carry { class, .. } => Some(class),
        Fact::Hold { .. } | Fact::Backup { .. } => None,
    }
}

/// Adds the changes that cut the step, which comes from there.
fn cut_step(
    alloc: Global,
    next: &mut Vec<Vec<Change>>,
    node: &Node<'_>,
    step: &Step,
    source: Option<Source<'_>>,
) -> Result<(), AllocError> {
    match source {
        Some(Source::Line(number)) => {
            if is_hold_line(node.lines, number) {
                next.push(extended(alloc, node.changes, Change::Remove(number))?)?;
            }
            Ok(())
        }
        Some(Source::Slot(slot)) => {
            let names = TypeNames {
                subsystem: slot.subsystem,
                type_name: slot.type_name,
            };
            match carried_class(step) {
                Some(class) => cut_type(alloc, next, node, names, class),
                None => Ok(()),
            }
        }
        Some(Source::Subsystem(_)) | Some(Source::KernelPort(_)) | None => Ok(()),
    }
}

/// Adds the changes with a line more that limits the task that takes, gives or sends in the step.
/// No task is trusted that a line names which was broken at first.
fn limit_step(
    alloc: Global,
    next: &mut Vec<Vec<Change>>,
    node: &Node<'_>,
    steps: &[Step],
    step: &Step,
) -> Result<(), AllocError> {
    let first = &node.first;
    let can_trust = first.edition == Edition::Third;
    if !can_trust || names_actor(first.lines, first.facts, steps, step) {
        return Ok(());
    }
    let wired = node.wired;
    if let Some(limitation) = limitation_of(alloc, wired, steps, step, &node.goal)? {
        next.push(extended(alloc, node.changes, Change::Limit(limitation))?)?;
    }
    Ok(())
}

/// Adds the items that the changes have dropped already from the line.
fn add_dropped(changes: &[Change], narrowing: &mut Narrowing) -> Result<(), AllocError> {
    if let Some(known) = narrowing_of(changes, narrowing.number) {
        for item in &known.dropped {
            narrowing.dropped.push(item.clone()?)?;
        }
    }
    Ok(())
}

/// Adds the changes by which the class accepts the item no more.
fn cut_item(
    alloc: Global,
    next: &mut Vec<Vec<Change>>,
    node: &Node<'_>,
    accepted: &Accepted,
) -> Result<(), AllocError> {
    let wired = node.wired;
    let Some(label) = wired.class_name(accepted.class) else {
        return Ok(());
    };
    let item = accepted.item.as_str();
    if let Some(mut narrowing) = narrowed(alloc, &node.first, node.lines, &label, item)? {
        add_dropped(node.changes, &mut narrowing)?;
        next.push(extended(alloc, node.changes, Change::Narrow(narrowing))?)?;
    }
    Ok(())
}

/// Adds the changes by which the step's message or request is accepted no more.
fn narrow_step(
    alloc: Global,
    next: &mut Vec<Vec<Change>>,
    node: &Node<'_>,
    step: &Step,
    source: Option<Source<'_>>,
) -> Result<(), AllocError> {
    for accepted in &items_of_step(alloc, node.wired, step, source)? {
        cut_item(alloc, next, node, accepted)?;
    }
    Ok(())
}

/// The changes that cut one of the steps, in addition to those that were made.
fn cuts(alloc: Global, node: &Node<'_>, steps: &[Step]) -> Result<Vec<Vec<Change>>, AllocError> {
    let sources = Sources::new(alloc, node.wired, node.lines)?;
    let mut next = Vec::new(alloc);
    for step in steps {
        let source = sources.source(steps, step);
        cut_step(alloc, &mut next, node, step, source)?;
        narrow_step(alloc, &mut next, node, step, source)?;
        limit_step(alloc, &mut next, node, steps, step)?;
    }
    Ok(next)
}

/// The changes to be tried if these were not enough, since the fact is objected to: each cuts a
/// chain that derives the fact.
pub(crate) fn children(
    alloc: Global,
    first: &First<'_>,
    stated: &Stated,
    facts: &Facts,
    changes: &[Change],
    goal: &Fact,
) -> Result<Vec<Vec<Change>>, AllocError> {
    let node = Node {
        first: *first,
        wired: stated.claim.wired(),
        lines: stated.lines.as_slice(),
        facts,
        changes,
        goal: *goal,
    };
    match explain(alloc, node.wired, *goal)? {
        Some(chain) => cuts(alloc, &node, chain.steps()),
        None => Ok(Vec::new(alloc)),
    }
}
