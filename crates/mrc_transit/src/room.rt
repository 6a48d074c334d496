//! Whether a space has room for what a message carries, found out without memory.

ghost use Rattle.std.specs.Prelude.{◌≡◌, ◌<◌, ◌≤◌, ◌+◌, ◌∷◌, ◌++◌, [], ℕ, not, map, flat_map};
ghost use Rattle.std.specs.Prelude.{IfSome, IfNone, length};
ghost use Rattle.std.specs.List.{list_any};
ghost use Rattle.mrc_model.specs.Map.{len};
ghost use Rattle.mrc_model.specs.World.{Store as TStore, set_space};
ghost use Rattle.mrc_model.specs.World.{space as space_of};
ghost use Rattle.mrc_model.specs.Space.{is_over_full};
ghost use Rattle.mrc_model.specs.CallReceive.{received};
ghost use Rattle.mrc_model.specs.FirstHoldings.{one_if};
ghost use Rattle.mrc_ports.specs.Parcels.{queued_of};
ghost use Rattle.mrc_transit.specs.Room.{carried_by, carried, names_port, is_named, takes_name};
ghost use Rattle.mrc_transit.specs.Room.{names_taken};

use mrc_base::{PortId, PortRight, limits};
use mrc_model::Item;
use mrc_names::Space;
use mrc_ports::{Parcel, QueuedArgument};

/// Whether an item is a send or receive right on the port.
fn names_port(port: PortId, item: Item) -> bool
    ensures { result ≡ names_port port item }
{
    match item {
        Item::Null => false,
        Item::Dead => false,
        Item::Right { port: held, right } => match right {
            PortRight::Send => held == port,
            PortRight::Receive => held == port,
            PortRight::SendOnce => false,
        },
    }
}

/// Whether one of these is a send or receive right on the port.
fn have_named(port: PortId, items: &[Item]) -> bool
    ensures { result ≡ list_any (names_port port) items.now }
{
    items.iter().any(|item| names_port(port, *item))
}

/// The same of what an argument carries.
fn argument_names(port: PortId, argument: &QueuedArgument) -> bool
    ensures { result ≡ list_any (names_port port) (carried_by (queued_of argument.now)) }
{
    match argument {
        QueuedArgument::Data { .. } => false,
        QueuedArgument::Items { right: _, items } => have_named(port, items.as_slice()),
    }
}

/// The same of what arguments carry.
fn arguments_name(port: PortId, arguments: &[QueuedArgument]) -> bool
    ensures { result
        ≡ list_any (names_port port) (flat_map carried_by (map queued_of arguments.now)) }
{
    arguments
        .iter()
        .any(|argument| argument_names(port, argument))
}

/// Whether one of those that stand before an item names its port: the reply port's right, the
/// arguments before its own, and the items before it.
fn is_named(reply: &Item, arguments: &[QueuedArgument], items: &[Item], item: Item) -> bool
    ensures { result ≡ is_named
        (reply.now ∷ flat_map carried_by (map queued_of arguments.now) ++ items.now) item }
{
    match item {
        Item::Null => false,
        Item::Dead => false,
        Item::Right { port, right: _ } => {
            names_port(port, *reply) || arguments_name(port, arguments) || have_named(port, items)
        }
    }
}

/// Whether an item takes a new name, where this tells whether one before it named its port.
fn takes_name(space: &Space, named: bool, item: Item) -> bool
    ensures { result ≡ takes_name space.now named item }
{
    match item {
        Item::Null => false,
        Item::Dead => false,
        Item::Right { port, right } => match right {
            PortRight::Send => !(named || space.find(port).is_some()),
            PortRight::Receive => !(named || space.find(port).is_some()),
            PortRight::SendOnce => true,
        },
    }
}

/// For how many more names there is room, after this one or none; nothing where there is no room.
fn less(takes: bool, room: usize) -> Option<usize>
    ensures some { IfSome result (λ left. left + one_if takes ≡ room) }
    ensures none { IfNone result (room < one_if takes) }
{
    if !takes {
        return Some(room);
    }
    room.checked_sub(1)
}

/// The same after the items of an argument. It is quadratic: each right is looked for in all that
/// stand before it.
fn less_items(
    space: &Space,
    reply: &Item,
    arguments: &[QueuedArgument],
    items: &[Item],
    room: usize,
) -> Option<usize>
    ensures some { IfSome result (λ left. left + names_taken space.now
        (reply.now ∷ flat_map carried_by (map queued_of arguments.now)) items.now ≡ room) }
    ensures none { IfNone result (room < names_taken space.now
        (reply.now ∷ flat_map carried_by (map queued_of arguments.now)) items.now) }
{
    let mut left = room;
    for (place, item) in items.iter().enumerate() {
        let named = is_named(reply, arguments, &items[..place], *item);
        left = less(takes_name(space, named, *item), left)?;
    }
    Some(left)
}

/// The same after an argument.
fn less_argument(
    space: &Space,
    reply: &Item,
    arguments: &[QueuedArgument],
    argument: &QueuedArgument,
    room: usize,
) -> Option<usize>
    ensures some { IfSome result (λ left. left + names_taken space.now
        (reply.now ∷ flat_map carried_by (map queued_of arguments.now))
        (carried_by (queued_of argument.now)) ≡ room) }
    ensures none { IfNone result (room < names_taken space.now
        (reply.now ∷ flat_map carried_by (map queued_of arguments.now))
        (carried_by (queued_of argument.now))) }
{
    match argument {
        QueuedArgument::Data { .. } => Some(room),
        QueuedArgument::Items { right: _, items } => {
            less_items(space, reply, arguments, items.as_slice(), room)
        }
    }
}

/// The same after all arguments.
fn less_arguments(
    space: &Space,
    reply: &Item,
    arguments: &[QueuedArgument],
    room: usize,
) -> Option<usize>
    ensures some { IfSome result (λ left. left + names_taken space.now (reply.now ∷ [])
        (flat_map carried_by (map queued_of arguments.now)) ≡ room) }
    ensures none { IfNone result (room < names_taken space.now (reply.now ∷ [])
        (flat_map carried_by (map queued_of arguments.now))) }
{
    let mut left = room;
    for (place, argument) in arguments.iter().enumerate() {
        left = less_argument(space, reply, &arguments[..place], argument, left)?;
    }
    Some(left)
}

/// For how many more names the space has room.
fn room_of(space: &Space) -> usize
    ensures { result + len space.now ≡ 4096 }
{
    space.bounds();
    limits::NAMES - space.iter().len()
}

/// The same after all that a message carries; nothing where there is no room for it.
fn less_message(space: &Space, parcel: &Parcel) -> Option<usize>
    ensures some { IfSome result (λ left.
        left + len space.now + names_taken space.now [] (carried parcel.now) ≡ 4096) }
    ensures none { IfNone result
        (4096 < len space.now + names_taken space.now [] (carried parcel.now)) }
{
    let takes = takes_name(space, false, parcel.reply());
    let left = less(takes, room_of(space))?;
    less_arguments(space, &parcel.reply(), parcel.arguments(), left)
}

/// Whether a space has room for what a message carries: whether it would have at most 4,096 entries
/// after the giving. It takes no memory. It is quadratic in the rights of the message, of which
/// there are some 2,000 at most: two million steps. So it is asked only where memory ran out.
pub(crate) fn has_room(space: &Space, parcel: &Parcel) -> bool
    ensures { (s : TStore) (t name receipts : ℕ) → result ≡ not (is_over_full
        (space_of (received (set_space s t space.now) t name receipts parcel.now).0 t)) }
{
    less_message(space, parcel).is_some()
}
