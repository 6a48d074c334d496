//! What tasks hold.

ghost use Rattle.std.specs.Prelude.{◌≡◌, ◌++◌, ◌∷◌, [], OnOk};
ghost use Rattle.mrc_model.specs.Breach.{entry_holdings, space_holdings, spaces_holdings};
ghost use Rattle.mrc_machine.specs.Holdings.{holdings_of, sends_holdings, AreShort};

use mrc_base::{PortId, PortRight, TaskId};
use mrc_model::Entry;
use mrc_names::Space;
use std::alloc::AllocError;
use std::collections::btree_map::Iter;

/// A task holds a right on a port.
#[derive(Clone, Copy, Debug, PartialEq, Eq)]
pub struct Holding {
    /// The task.
    pub task: TaskId,
    /// The port.
    pub port: PortId,
    /// The right.
    pub right: PortRight,
}

/// Puts one holding more.
fn push(
    holdings: &mut Vec<Holding>,
    task: TaskId,
    port: PortId,
    right: PortRight,
) -> Result<(), AllocError>
    ensures { OnOk result (holdings_of holdings.new.items
        ≡ holdings_of holdings.old.items
        ++ (record { task = task; port = port; right = right }) ∷ []) }
{
    holdings.push(Holding { task, port, right })?;
    Ok(())
}

/// Puts a send right, where there are references.
fn push_sends(
    holdings: &mut Vec<Holding>,
    task: TaskId,
    port: PortId,
    sends: u16,
) -> Result<(), AllocError>
    ensures { OnOk result (holdings_of holdings.new.items
        ≡ holdings_of holdings.old.items ++ sends_holdings task port sends) }
{
    if 0 < sends {
        push(holdings, task, port, PortRight::Send)
    } else {
        Ok(())
    }
}

/// Puts what an entry of the task shows: a receive right, and then a send right, each once, or a
/// send-once right.
fn push_entry(holdings: &mut Vec<Holding>, task: TaskId, entry: &Entry) -> Result<(), AllocError>
    ensures { OnOk result (holdings_of holdings.new.items
        ≡ holdings_of holdings.old.items ++ entry_holdings task entry.now) }
{
    match *entry {
        Entry::Receive { port, sends, .. } => {
            push(holdings, task, port, PortRight::Receive)?;
            push_sends(holdings, task, port, sends)
        }
        Entry::Send { port, .. } => push(holdings, task, port, PortRight::Send),
        Entry::SendOnce { port } => push(holdings, task, port, PortRight::SendOnce),
        Entry::PortSet | Entry::DeadName { .. } => Ok(()),
    }
}

/// Puts what the entries of the task show.
fn push_space(
    holdings: &mut Vec<Holding>,
    task: TaskId,
    entries: Iter<'_, u64, Entry>,
) -> Result<(), AllocError>
    ensures { OnOk result (holdings_of holdings.new.items
        ≡ holdings_of holdings.old.items ++ space_holdings task entries.entry) }
{
    for held in entries {
        push_entry(holdings, task, held.1)?;
    }
    Ok(())
}

/// What the entries of all spaces show, by the numbers of their tasks.
pub(crate) fn spaces_holdings(
    holdings: &mut Vec<Holding>,
    spaces: &[(u64, Space)],
) -> Result<(), AllocError>
    requires { AreShort spaces.now }
    ensures { OnOk result (holdings_of holdings.new.items
        ≡ holdings_of holdings.old.items ++ spaces_holdings spaces.now) }
{
    for space in spaces {
        push_space(holdings, TaskId(space.0 as u32), space.1.iter())?;
    }
    Ok(())
}
