//! All rights that go in a destruction: those that the call destroys, and those that are queued on
//! the ports that die.

ghost use Rattle.std.specs.Prelude.{◌≡◌, ◌++◌, map, IfOk, OnOk};
ghost use Rattle.mrc_model.specs.World.{item_rights, items_rights, arg_rights, args_rights};
ghost use Rattle.mrc_model.specs.World.{parcel_rights, queue_rights};
ghost use Rattle.mrc_ports.specs.Parcels.{queued_of};
ghost use Rattle.mrc_model.specs.Death.{queued_rights};
ghost use Rattle.mrc_model.specs.Map.{get};
ghost use Rattle.mrc_map.specs.Members.{of_some};
ghost use Rattle.mrc_death.specs.Rights.{rights_in};

use crate::doomed::{Doomed, Held};
use mrc_base::PortId;
use mrc_map::Ports;
use mrc_model::Item;
use mrc_ports::{Parcel, Queue, QueuedArgument, Store};
use std::alloc::AllocError;

/// What stands in the place of a name.
fn add_item(rights: &mut Vec<Held>, item: Item) -> Result<(), AllocError>
    ensures { OnOk result (rights.new.items ≡ rights.old.items ++ item_rights item) }
{
    match item {
        Item::Null => Ok(()),
        Item::Dead => Ok(()),
        Item::Right { port, right } => {
            rights.push(Held::new(port, right))?;
            Ok(())
        }
    }
}

/// The rights of items.
fn add_items(rights: &mut Vec<Held>, items: &[Item]) -> Result<(), AllocError>
    ensures { OnOk result (rights.new.items ≡ rights.old.items ++ items_rights items.now) }
{
    for item in items {
        add_item(rights, *item)?;
    }
    Ok(())
}

/// The rights of an argument.
fn add_argument(rights: &mut Vec<Held>, argument: &QueuedArgument) -> Result<(), AllocError>
    ensures { OnOk result (rights.new.items
        ≡ rights.old.items ++ arg_rights (queued_of argument.now)) }
{
    match argument {
        QueuedArgument::Data { .. } => Ok(()),
        QueuedArgument::Items { items, .. } => {
            add_items(rights, items.as_slice())?;
            Ok(())
        }
    }
}

/// The rights of arguments.
fn add_arguments(rights: &mut Vec<Held>, arguments: &[QueuedArgument]) -> Result<(), AllocError>
    ensures { OnOk result
        (rights.new.items ≡ rights.old.items ++ args_rights (map queued_of arguments.now)) }
{
    for argument in arguments {
        add_argument(rights, argument)?;
    }
    Ok(())
}

/// The rights that a message carries.
fn add_message(rights: &mut Vec<Held>, message: &Parcel) -> Result<(), AllocError>
    ensures { OnOk result (rights.new.items ≡ rights.old.items ++ parcel_rights message.now) }
{
    add_item(rights, message.reply())?;
    add_arguments(rights, message.arguments())?;
    Ok(())
}

/// The rights that the messages of a queue carry.
pub(crate) fn add_queue(rights: &mut Vec<Held>, queue: &Queue) -> Result<(), AllocError>
    ensures { OnOk result (rights.new.items ≡ rights.old.items ++ queue_rights queue.now) }
{
    for message in queue.iter() {
        add_message(rights, message)?;
    }
    Ok(())
}

/// The rights that are queued on a port, if it is live.
fn add_port(rights: &mut Vec<Held>, store: &Store, port: PortId) -> Result<(), AllocError>
    ensures { OnOk result
        (rights.new.items ≡ rights.old.items ++ of_some rights_in (get store.now.ports port)) }
{
    if let Some(found) = store.ports().get(port) {
        add_queue(rights, found.queue())?;
    }
    Ok(())
}

/// The rights that are queued on the ports that die, by ascending birth number.
fn add_queued(rights: &mut Vec<Held>, store: &Store, dead: &Ports) -> Result<(), AllocError>
    ensures { OnOk result
        (rights.new.items ≡ rights.old.items ++ queued_rights store.now dead.now) }
{
    let mut last = None;
    while let Some(port) = dead.after(last) {
        add_port(rights, store, port)?;
        last = Some(port);
    }
    Ok(())
}

/// All rights that go, in order: those that the call destroys, then those of the dying ports'
/// queues.
pub(crate) fn all_going(
    store: &Store,
    doomed: Doomed,
    dead: &Ports,
) -> Result<Vec<Held>, AllocError>
    ensures { IfOk result (λ rights.
        rights.items ≡ doomed.rights ++ queued_rights store.now dead.now) }
{
    let mut rights = doomed.into_rights();
    add_queued(&mut rights, store, dead)?;
    Ok(rights)
}
