//! The arguments of a message as they are queued, once all that its names carry is known.

ghost use Rattle.std.specs.Prelude.{◌≡◌, map, length, IfOk};
ghost use Rattle.mrc_desc.specs.View.{argument_of, arguments_of};
ghost use Rattle.mrc_ports.specs.Parcels.{queued_of};
ghost use Rattle.mrc_transit.specs.Queueing.{names_in, names_of, queued_by, queued_from};

use mrc_base::give;
use mrc_desc::Argument;
use mrc_model::Item;
use mrc_ports::{Items, QueuedArgument};
use std::alloc::{AllocError, Global};

/// How many names an argument has.
fn names_in(argument: &Argument) -> usize
    ensures { result ≡ names_in (argument_of argument.now) }
{
    match argument {
        Argument::Data { .. } => 0,
        Argument::Ports { disp: _, names } => names.as_slice().len(),
    }
}

/// The argument, whose names carry these items.
fn queued_by(
    alloc: Global,
    argument: &Argument,
    items: &[Item],
) -> Result<QueuedArgument, AllocError>
    requires { length items.now ≡ names_in (argument_of argument.now) }
    ensures { IfOk result (λ queued.
        queued_of queued ≡ queued_by (argument_of argument.now) items.now) }
{
    match argument {
        Argument::Data { desc, bytes } => Ok(QueuedArgument::Data {
            desc: *desc,
            bytes: bytes.copy(alloc)?,
        }),
        Argument::Ports { disp, names: _ } => Ok(QueuedArgument::Items {
            right: give(*disp),
            items: Items::from(Vec::from_slice(alloc, items)?),
        }),
    }
}

/// The arguments, whose names carry these items in order.
pub(crate) fn queued_from(
    alloc: Global,
    arguments: &[Argument],
    items: &[Item],
) -> Result<Vec<QueuedArgument>, AllocError>
    requires { length items.now ≡ names_of (arguments_of arguments.now) }
    ensures { IfOk result (λ queued. map queued_of queued.items
        ≡ queued_from (arguments_of arguments.now) items.now) }
{
    let mut queued = Vec::with_capacity(alloc, arguments.len())?;
    let mut left = items;
    for argument in arguments {
        let (own, later) = left.split_at(names_in(argument));
        let next = queued_by(alloc, argument, own)?;
        queued.push(next)?;
        left = later;
    }
    Ok(queued)
}
