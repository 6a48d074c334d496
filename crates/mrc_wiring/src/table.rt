//! Lines of a wiring by numbers.

ghost use Rattle.std.specs.Prelude.{◌≡◌, ◌≤◌, ◌+◌, IfOk, IfSome, length};
ghost use Rattle.mrc_base.specs.Limits.{limit_of_tasks, limit_of_wired_ports};
ghost use Rattle.mrc_wiring.specs.Births.{AreAscending};
ghost use Rattle.mrc_wiring.specs.Table.{kind_class, admitted_by, admitted_of};

use crate::births::{BirthRow, row_of};
use crate::names::{ClassKind, NumberedClass};
use mrc_base::{Copies, PortRight};
use mrc_model::Verb;
use std::alloc::{AllocError, Global};

/// An admit line: the number of its type, and its class, or none.
#[derive(Clone, Copy, Debug, PartialEq, Eq)]
pub(crate) struct AdmitLine {
    pub(crate) sort: usize,
    pub(crate) class: Option<NumberedClass>,
}

/// The right that a line about a trusted task names, and its class by its number.
#[derive(Clone, Copy, Debug, PartialEq, Eq)]
pub(crate) struct NumberedRight {
    pub(crate) right: PortRight,
    pub(crate) class: NumberedClass,
}

/// A line about a trusted task.
#[derive(Clone, Copy, Debug, PartialEq, Eq)]
pub struct TrustedLine {
    /// The line's number in the text.
    pub line: u32,
    /// What the line limits.
    pub verb: Verb,
    /// The number of the task.
    pub task: u16,
    /// The right on a class, or none.
    pub(crate) right: Option<NumberedRight>,
}

impl Copies for TrustedLine {
    fn copy(&self, _: Global) -> Result<TrustedLine, AllocError> {
        Ok(*self)
    }

    fn same(&self, other: &TrustedLine) -> bool {
        *self == *other
    }
}

impl Copies for AdmitLine {
    fn copy(&self, _: Global) -> Result<AdmitLine, AllocError> {
        Ok(*self)
    }

    fn same(&self, other: &AdmitLine) -> bool {
        *self == *other
    }
}

/// The number of the class if there are so many ports and tasks, and these births.
pub(crate) fn class_of(
    ports: usize,
    tasks: usize,
    births: &[BirthRow],
    class: NumberedClass,
) -> Option<usize>
    requires ports { ports ≤ limit_of_wired_ports }
    requires tasks { tasks ≤ limit_of_tasks }
    requires ascending { AreAscending births.now }
    ensures exact { result ≡ kind_class ports tasks births.now class.kind class.number }
    ensures within { IfSome result (λ found.
        found ≤ ports + tasks + length births.now + class.number) }
{
    let number = class.number;
    match class.kind {
        ClassKind::Port => Some(usize::from(number)),
        ClassKind::Task => Some(ports + usize::from(number)),
        ClassKind::Births(kind) => {
            let row = row_of(births, u32::from(number), u32::from(kind))?;
            Some(ports + tasks + row)
        }
    }
}

/// What an admit line admits: the number of its type, and its class, or none.
fn admitted_by(
    ports: usize,
    tasks: usize,
    births: &[BirthRow],
    line: &AdmitLine,
) -> (usize, Option<usize>)
    requires ports { ports ≤ limit_of_wired_ports }
    requires tasks { tasks ≤ limit_of_tasks }
    requires ascending { AreAscending births.now }
    ensures { result ≡ admitted_by ports tasks births.now line.now }
{
    let class = match line.class {
        Some(class) => class_of(ports, tasks, births, class),
        None => None,
    };
    (line.sort, class)
}

/// What the admit lines admit: of each the number of its type, and its class, or none.
pub(crate) fn admitted_of(
    alloc: Global,
    ports: usize,
    tasks: usize,
    births: &[BirthRow],
    lines: &[AdmitLine],
) -> Result<Vec<(usize, Option<usize>)>, AllocError>
    requires ports { ports ≤ limit_of_wired_ports }
    requires tasks { tasks ≤ limit_of_tasks }
    requires ascending { AreAscending births.now }
    ensures { IfOk result (λ admitted. admitted.items
        ≡ admitted_of ports tasks births.now lines.now) }
{
    let mut admitted = Vec::with_capacity(alloc, lines.len())?;
    for line in lines {
        admitted.push(admitted_by(ports, tasks, births, line))?;
    }
    Ok(admitted)
}
