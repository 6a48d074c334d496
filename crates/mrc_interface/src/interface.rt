//! The forms of a subsystem's messages by their ids.

ghost use Rattle.std.specs.Prelude.{◌≡◌, length, map, IfOk, IsTrue};
ghost use Rattle.std.specs.List.{list_all};
ghost use Rattle.mrc_mig_parse.specs.Bounds.{items_fit, row_fits};
ghost use Rattle.mrc_base.specs.Reading.{Gives};
ghost use Rattle.mrc_mig_parse.specs.Files.{Routine};
ghost use Rattle.mrc_mig_parse.specs.Meanings.{item_of, row_of as statement_of};
ghost use Rattle.mrc_interface.specs.Subsystems.{row_at, rows_at, table_of};
ghost use Rattle.mrc_interface.specs.View.{GivesOrReturns};

use crate::fault::InterfaceFault;
use crate::form::form_of;
use mrc_base::{OrMemory, limits};
use mrc_forms::{FormKind, Interface, REPLY, RequestKind, Row};
use mrc_mig_parse::{Argument, Entry, Subsystem};
use std::alloc::Global;

/// The row of a routine of this name that takes this id.
fn routine_row(
    alloc: Global,
    id: u32,
    name: &str,
    arguments: &[Argument],
) -> Result<Row, OrMemory<InterfaceFault>>
    requires { IsTrue (items_fit (map item_of arguments.now)) }
    ensures { Gives (λ row. row) result (row_at id (Routine name.now (map item_of arguments.now))) }
{
    if id > limits::NUMBER - REPLY {
        return Err(OrMemory::Fault(InterfaceFault::IdRange));
    }
    let kind = FormKind::Request(RequestKind::Routine);
    Ok(Row {
        request: Some(form_of(alloc, name, id, kind, arguments)?),
        reply: Some(form_of(alloc, name, id + REPLY, FormKind::Reply, arguments)?),
    })
}

/// The row of what takes this id.
fn row_at(alloc: Global, id: u32, entry: &Entry) -> Result<Row, OrMemory<InterfaceFault>>
    requires { IsTrue (row_fits (statement_of entry.now)) }
    ensures { Gives (λ row. row) result (row_at id (statement_of entry.now)) }
{
    if id > limits::NUMBER {
        return Err(OrMemory::Fault(InterfaceFault::IdRange));
    }
    match entry {
        Entry::Routine { name, arguments } => {
            routine_row(alloc, id, name.as_str(), arguments.as_slice())
        }
        Entry::SimpleRoutine { name, arguments } => {
            let kind = FormKind::Request(RequestKind::Simple);
            let form = form_of(alloc, name.as_str(), id, kind, arguments.as_slice())?;
            Ok(Row {
                request: Some(form),
                reply: None,
            })
        }
        Entry::Skip => Ok(Row {
            request: None,
            reply: None,
        }),
    }
}

/// The rows of what takes the ids from this one on.
fn rows_at(
    alloc: Global,
    first: u32,
    entries: &[Entry],
) -> Result<Vec<Row>, OrMemory<InterfaceFault>>
    requires { IsTrue (list_all row_fits (map statement_of entries.now)) }
    ensures fault { Gives (λ rows. rows.items) result
        (rows_at first (map statement_of entries.now)) }
    ensures count { IfOk result (λ rows. length rows.items ≡ length entries.now) }
{
    let mut rows = Vec::new(alloc);
    let mut id = first;
    for entry in entries {
        rows.push(row_at(alloc, id, entry)?)?;
        id += 1;
    }
    Ok(rows)
}

/// The table of a subsystem.
fn table_of(alloc: Global, subsystem: &Subsystem) -> Result<Interface, OrMemory<InterfaceFault>>
    ensures { Gives (λ table. table) result (table_of subsystem.now) }
{
    let base = subsystem.base();
    let rows = rows_at(alloc, base, subsystem.entries())?;
    let name = String::from_str(alloc, subsystem.name())?;
    Ok(Interface::new(name, base, rows))
}

/// The forms of a subsystem: refused by IdRange exactly where an id would be too great. With a
/// refusal the subsystem comes back, also where memory ran out.
pub fn forms_of(
    alloc: Global,
    subsystem: Subsystem,
) -> Result<Interface, (Subsystem, OrMemory<InterfaceFault>)>
    ensures { GivesOrReturns subsystem result (table_of subsystem) }
{
    match table_of(alloc, &subsystem) {
        Ok(interface) => Ok(interface),
        Err(refusal) => Err((subsystem, refusal)),
    }
}
