//! What a call destroys: where it stands, and the rights that go.

ghost use Rattle.std.specs.Prelude.{◌≡◌, ◌++◌, IfOk, OnOk, Some, option_map};
ghost use Rattle.mrc_model.specs.Map.{get};
ghost use Rattle.mrc_model.specs.World.{space, entry_rights, if_sends};
ghost use Rattle.mrc_model.specs.Destroyed.{all_rights, taken_out, receive_out, entry_out};
ghost use Rattle.mrc_model.specs.Destroyed.{task_out};
ghost use Rattle.mrc_death.specs.Taking.{destroyed_of, AreTaken};

use crate::doomed::{Doomed, Held};
use crate::removal::Removal;
use mrc_base::{PortId, PortRight, TaskId};
use mrc_index::entry::send_entry;
use mrc_model::Entry;
use mrc_ports::Store;
use std::alloc::{AllocError, Global};
use std::collections::btree_map::Iter;

/// What a call destroys.
#[derive(Clone, Copy, Debug, PartialEq, Eq)]
pub enum Destroyed {
    /// The receive right under a name of a task.
    Receive { task: TaskId, name: u32 },
    /// All that stands under a name of a task.
    Entry { task: TaskId, name: u32 },
    /// All that a task has, with its kernel port.
    Task { task: TaskId, kernel: PortId },
}

/// A send right, where there are references.
fn add_sends(rights: &mut Vec<Held>, port: PortId, sends: u16) -> Result<(), AllocError>
    ensures { OnOk result (rights.new.items ≡ rights.old.items ++ if_sends sends port) }
{
    if 0 < sends {
        rights.push(Held::new(port, PortRight::Send))?;
    }
    Ok(())
}

/// The rights that an entry shows.
fn add_rights(rights: &mut Vec<Held>, entry: &Entry) -> Result<(), AllocError>
    ensures { OnOk result (rights.new.items ≡ rights.old.items ++ entry_rights entry.now) }
{
    match *entry {
        Entry::Receive { port, sends, .. } => {
            rights.push(Held::new(port, PortRight::Receive))?;
            add_sends(rights, port, sends)?;
            Ok(())
        }
        Entry::Send { port, .. } => {
            rights.push(Held::new(port, PortRight::Send))?;
            Ok(())
        }
        Entry::SendOnce { port } => {
            rights.push(Held::new(port, PortRight::SendOnce))?;
            Ok(())
        }
        Entry::PortSet => Ok(()),
        Entry::DeadName { .. } => Ok(()),
    }
}

/// The rights of all these entries.
fn all_rights(alloc: Global, entries: Iter<'_, u64, Entry>) -> Result<Vec<Held>, AllocError>
    ensures { IfOk result (λ rights. rights.items ≡ all_rights entries.entry) }
{
    let mut rights = Vec::new(alloc);
    for entry in entries {
        add_rights(&mut rights, entry.1)?;
    }
    Ok(rights)
}

/// The rights that an entry shows.
fn rights_of(alloc: Global, entry: &Entry) -> Result<Vec<Held>, AllocError>
    ensures { IfOk result (λ rights. rights.items ≡ entry_rights entry.now) }
{
    let mut rights = Vec::new(alloc);
    add_rights(&mut rights, entry)?;
    Ok(rights)
}

/// What is destroyed, as it leaves a task's space, and what goes with it.
#[derive(Debug, Drop)]
pub(crate) struct Taken {
    /// The task.
    pub(crate) task: TaskId,
    /// What leaves its space.
    pub(crate) removal: Removal,
    /// What goes.
    pub(crate) doomed: Doomed,
}

/// The receive right under a name of a task, taken out. None where there is none.
fn take_receive(
    alloc: Global,
    store: &Store,
    task: TaskId,
    name: u32,
) -> Result<Option<Taken>, AllocError>
    ensures { IfOk result (λ taken.
        AreTaken store.now taken
        (receive_out store.now task name (get (space store.now task) name))) }
{
    let Some(found) = store.space(task) else {
        return Ok(None);
    };
    let Some(entry) = found.get(name) else {
        return Ok(None);
    };
    match entry {
        Entry::Receive { port, sends, .. } => {
            let mut rights = Vec::new(alloc);
            rights.push(Held::new(port, PortRight::Receive))?;
            Ok(Some(Taken {
                task,
                removal: Removal::Receive {
                    name,
                    rest: send_entry(port, sends),
                },
                doomed: Doomed::new(rights, None),
            }))
        }
        _ => Ok(None),
    }
}

/// All that stands under a name of a task, taken out. None where nothing does.
fn take_entry(
    alloc: Global,
    store: &Store,
    task: TaskId,
    name: u32,
) -> Result<Option<Taken>, AllocError>
    ensures { IfOk result (λ taken.
        AreTaken store.now taken
        (entry_out store.now task name (get (space store.now task) name))) }
{
    let Some(found) = store.space(task) else {
        return Ok(None);
    };
    let Some(entry) = found.get(name) else {
        return Ok(None);
    };
    let doomed = Doomed::new(rights_of(alloc, &entry)?, None);
    Ok(Some(Taken {
        task,
        removal: Removal::Name { name },
        doomed,
    }))
}

/// The rights of all entries of a task. It has none if it has no space.
fn task_rights(alloc: Global, store: &Store, task: TaskId) -> Result<Vec<Held>, AllocError>
    ensures { IfOk result (λ rights. rights.items ≡ all_rights (space store.now task).list) }
{
    match store.space(task) {
        Some(found) => all_rights(alloc, found.iter()),
        None => Ok(Vec::new(alloc)),
    }
}

/// All that a task has, taken out, with its kernel port.
fn take_task(
    alloc: Global,
    store: &Store,
    task: TaskId,
    kernel: PortId,
) -> Result<Taken, AllocError>
    ensures { IfOk result (λ taken.
        AreTaken store.now (Some taken) (Some (task_out store.now task kernel))) }
{
    let rights = task_rights(alloc, store, task)?;
    Ok(Taken {
        task,
        removal: Removal::All,
        doomed: Doomed::new(rights, Some(kernel)),
    })
}

/// What is destroyed, taken out. None where it is not there.
pub(crate) fn take_out(
    alloc: Global,
    store: &Store,
    what: Destroyed,
) -> Result<Option<Taken>, AllocError>
    ensures { IfOk result (λ taken.
        AreTaken store.now taken (taken_out store.now (destroyed_of what))) }
{
    match what {
        Destroyed::Receive { task, name } => take_receive(alloc, store, task, name),
        Destroyed::Entry { task, name } => take_entry(alloc, store, task, name),
        Destroyed::Task { task, kernel } => {
            let taken = take_task(alloc, store, task, kernel)?;
            Ok(Some(taken))
        }
    }
}
