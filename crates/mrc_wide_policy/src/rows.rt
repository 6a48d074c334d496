//! The tasks of a product, each with its classes.

ghost use Rattle.std.specs.Prelude.{◌≡◌, []};
ghost use Rattle.mrc_base.specs.Reading.{Gives};
ghost use Rattle.mrc_stand_for.specs.Steps.{Leaves, each};
ghost use Rattle.mrc_wide_policy.specs.PolicyStanding.{held_classes, add_row, rows_of};

use crate::facts::Row;
use crate::says::Product;
use mrc_base::OrMemory;
use mrc_stand_for::{
    Found, Known, Several, StandFault, WideClass, classes_of, expected_classes, tasks_of,
};
use mrc_wiring_text::{ClassName, Name};
use std::alloc::{AllocError, Global};

/// CLASSES for a holder, in a line that expects or in another.
fn held_classes(
    alloc: Global,
    expects: bool,
    known: &Known,
    line: u32,
    task: &Name,
    classes: &[WideClass],
) -> Result<Several<ClassName>, OrMemory<StandFault>>
    ensures { Gives (λ found. found) result
        (held_classes expects known.now line task.now classes.now) }
{
    let holder = Some(task.copy(alloc)?);
    if expects {
        return expected_classes(alloc, known, line, &holder, classes);
    }
    let found = classes_of(alloc, known, line, &holder, classes)?;
    let Found { classes, closed } = found;
    drop(closed);
    Ok(classes)
}

/// A task more, with its classes.
fn add_row(
    alloc: Global,
    expects: bool,
    known: &Known,
    line: u32,
    classes: &[WideClass],
    rows: &mut Several<Row>,
    task: &Name,
) -> Result<(), OrMemory<StandFault>>
    ensures { Leaves result rows.new
        (add_row expects known.now line classes.now rows.old task.now) }
{
    let classes = held_classes(alloc, expects, known, line, task, classes)?;
    let task = task.copy(alloc)?;
    rows.push(Row { task, classes })?;
    Ok(())
}

/// These tasks, each with its classes.
fn all_rows(
    alloc: Global,
    expects: bool,
    known: &Known,
    line: u32,
    classes: &[WideClass],
    tasks: &[Name],
) -> Result<Several<Row>, OrMemory<StandFault>>
    ensures { Gives (λ rows. rows) result
        (each (add_row expects known.now line classes.now) [] tasks.now) }
{
    let mut rows = Several::empty(alloc);
    for task in tasks {
        add_row(alloc, expects, known, line, classes, &mut rows, task)?;
    }
    Ok(rows)
}

/// The tasks of a product, each with its classes.
pub(crate) fn rows_of(
    alloc: Global,
    expects: bool,
    known: &Known,
    line: u32,
    product: &Product,
) -> Result<Several<Row>, OrMemory<StandFault>>
    ensures { Gives (λ rows. rows) result
        (rows_of expects known.now line product.now) }
{
    let tasks = tasks_of(alloc, known, line, &product.tasks)?;
    let classes = product.classes.as_slice();
    all_rows(alloc, expects, known, line, classes, tasks.as_slice())
}
