//! Which names are known to a line, and where a name is declared.

use crate::named::{Mention, Named, declared};
use mrc_forms::{Form, Interface, Row};
use mrc_place::Line;
use std::alloc::{AllocError, Global};

/// What the names of a line are looked up in.
#[derive(Drop)]
pub(crate) struct Known<'a> {
    /// The lines of the wiring above, or all, if the line is one of a policy.
    pub(crate) above: &'a str,
    /// The line, if it is one of the wiring.
    pub(crate) line: Option<Line<'a>>,
    /// The interfaces of the MIG files.
    pub(crate) interfaces: &'a [Interface],
}

/// A name that is not known, and the names of its kind that are.
#[derive(Drop)]
pub(crate) struct Unknown<'a> {
    /// The name.
    pub(crate) mention: Mention<'a>,
    /// Those that are known.
    pub(crate) known: Vec<&'a str>,
}

/// The number of the first line that declares it, from 1.
pub(crate) fn line_declaring(text: &str, named: Named<'_>) -> Option<usize> {
    for (above, line) in text.lines().enumerate() {
        if declared(line) == Some(named) {
            return Some(above.saturating_add(1));
        }
    }
    None
}

impl Known<'_> {
    /// The number of the first line below that declares it.
    pub(crate) fn later(&self, named: Named<'_>) -> Option<usize> {
        let line = self.line?;
        let behind = line_declaring(line.below, named)?;
        Some(behind.saturating_add(line.number as usize))
    }
}

/// The names that lines declare, each kind in order.
#[derive(Drop)]
pub(crate) struct Names<'a> {
    /// Those of tasks.
    pub(crate) tasks: Vec<&'a str>,
    /// Those of ports.
    pub(crate) ports: Vec<&'a str>,
}

/// The names that lines declare.
pub(crate) fn names_in(alloc: Global, text: &str) -> Result<Names<'_>, AllocError> {
    let mut tasks = Vec::new(alloc);
    let mut ports = Vec::new(alloc);
    for line in text.lines() {
        match declared(line) {
            Some(Named::Task(name)) => tasks.push(name)?,
            Some(Named::Port(name)) => ports.push(name)?,
            _ => {}
        }
    }
    Ok(Names { tasks, ports })
}

fn interface_names<'a>(
    alloc: Global,
    interfaces: &'a [Interface],
) -> Result<Vec<&'a str>, AllocError> {
    let mut names = Vec::new(alloc);
    for interface in interfaces {
        names.push(interface.name())?;
    }
    Ok(names)
}

fn is_among(names: &[&str], name: &str) -> bool {
    names.iter().any(|other| name == *other)
}

/// Adds a name, unless it is there.
fn push_name<'a>(names: &mut Vec<&'a str>, name: &'a str) -> Result<(), AllocError> {
    if !is_among(names.as_slice(), name) {
        names.push(name)?;
    }
    Ok(())
}

/// Adds the types of the port arguments of a form.
fn push_types<'a>(names: &mut Vec<&'a str>, form: Option<&'a Form>) -> Result<(), AllocError> {
    let Some(form) = form else {
        return Ok(());
    };
    for slot in form.slots() {
        push_name(names, slot.type_name.as_str())?;
    }
    Ok(())
}

/// Adds the types of the port arguments of the forms of an id.
fn push_row<'a>(names: &mut Vec<&'a str>, row: &'a Row) -> Result<(), AllocError> {
    push_types(names, row.request.as_ref())?;
    push_types(names, row.reply.as_ref())?;
    Ok(())
}

/// The types of the port arguments of an interface, each once.
fn types_of<'a>(alloc: Global, interface: &'a Interface) -> Result<Vec<&'a str>, AllocError> {
    let mut names = Vec::new(alloc);
    for row in interface.rows() {
        push_row(&mut names, row)?;
    }
    Ok(names)
}

/// The types of the port arguments of the interface of this name.
fn types_named<'a>(
    alloc: Global,
    interfaces: &'a [Interface],
    name: &str,
) -> Result<Vec<&'a str>, AllocError> {
    for interface in interfaces {
        if name == interface.name() {
            return types_of(alloc, interface);
        }
    }
    Ok(Vec::new(alloc))
}

/// The names of the same kind that are known, if lines declare these; none of kinds of births.
fn names_known<'a>(
    alloc: Global,
    known: &Known<'a>,
    names: &Names<'a>,
    named: Named<'_>,
) -> Result<Vec<&'a str>, AllocError> {
    match named {
        Named::Task(_) => Vec::from_slice(alloc, &names.tasks),
        Named::Port(_) => Vec::from_slice(alloc, &names.ports),
        Named::Subsystem(_) => interface_names(alloc, known.interfaces),
        Named::SlotType { subsystem, .. } => types_named(alloc, known.interfaces, subsystem),
        Named::Births { .. } | Named::Fit => Ok(Vec::new(alloc)),
    }
}

/// The name itself: of a type that of the type. Kinds have none.
pub(crate) fn name_of(named: Named<'_>) -> &str {
    match named {
        Named::Task(name) | Named::Port(name) | Named::Subsystem(name) => name,
        Named::SlotType { type_name, .. } => type_name,
        Named::Births { .. } | Named::Fit => "",
    }
}

/// Whether a name is known, if these of its kind are.
fn is_known(known: &Known<'_>, names: &[&str], named: Named<'_>) -> bool {
    match named {
        Named::Births { kind: 0, .. } | Named::Fit => true,
        Named::Births { .. } => line_declaring(known.above, named).is_some(),
        _ => is_among(names, name_of(named)),
    }
}

/// The first of the names of a line that is not known to it.
pub(crate) fn first_unknown<'a>(
    alloc: Global,
    known: &Known<'a>,
    mentions: &[Mention<'a>],
) -> Result<Option<Unknown<'a>>, AllocError> {
    let names = names_in(alloc, known.above)?;
    for mention in mentions {
        let names = names_known(alloc, known, &names, mention.named)?;
        if !is_known(known, &names, mention.named) {
            return Ok(Some(Unknown {
                mention: *mention,
                known: names,
            }));
        }
    }
    Ok(None)
}
