//! Messages on a queue.

ghost use Rattle.std.specs.Prelude.{◌≡◌, ◌<◌, ◌≤◌, ◌^◌, ◌+◌, ◌++◌, ◌∷◌, [], length, map};
ghost use Rattle.std.specs.Prelude.{IfOk, IfErr, MatchOption, option_map};
ghost use Rattle.std.specs.Option.{option_copied};
ghost use Rattle.mrc_base.specs.Limits.{limit_of_message};
ghost use Rattle.mrc_model.specs.Rights.{moving, given_number};
ghost use Rattle.mrc_model.specs.Message as message;
ghost use Rattle.mrc_model.specs.Message.{arg_bytes};
ghost use Rattle.mrc_model.specs.CallReceive.{first_parcel};
ghost use Rattle.mrc_model.specs.Death.{perished_item, perished_parcel};
ghost use Rattle.mrc_desc.specs.Lawful.{IsLawfulArg};
ghost use Rattle.mrc_desc.specs.View.{desc_of};
ghost use Rattle.mrc_ports.specs.Parcels.{queued_of, unnamed, no_names, AreCarried, carried_size};
ghost use Rattle.mrc_ports.specs.Parcels.{perished_argument};
ghost use Rattle.mrc_ports.specs.Queues.{limit_of_waiting};

use mrc_base::{Disp, PortRight};
use mrc_desc::{Bytes, Desc};
use mrc_map::Ports;
use mrc_model::Item;
use std::alloc::{AllocFailed, Global};
use std::collections::LinkedList;
use std::collections::linked_list::Iter;
use std::marker::Model;
use std::mem;

/// The items that an argument of a queued message carries, in order.
#[derive(Debug, Drop)]
pub struct Items {
    items: Vec<Item>,
}

impl Model for Items {
    ghost use Rattle.std.specs.Prelude.{List};
    ghost use Rattle.mrc_model.specs.declared.Item.{Item};

    ghost Value = { List Item };

    ghost view = { λ a. a.items.items };
}

impl From<Vec<Item>> for Items {
    ghost from_gives = { λ v a. a ≡ v.items };

    fn from(items: Vec<Item>) -> Items {
        Items { items }
    }
}

impl Items {
    /// The items in order.
    pub fn as_slice(&self) -> &[Item]
        ensures { result.now ≡ self.now }
    {
        &self.items
    }
}

/// An item, where these ports are dead.
fn perish_item(item: Item, dead: &Ports) -> Item
    ensures { result ≡ perished_item dead.now item }
{
    match item {
        Item::Null => Item::Null,
        Item::Dead => Item::Dead,
        Item::Right { port, right } => {
            if dead.has(port) {
                Item::Dead
            } else {
                Item::Right { port, right }
            }
        }
    }
}

/// Items in place.
fn perish_items(items: &mut [Item], dead: &Ports)
    ensures { items.new ≡ map (perished_item dead.now) items.old }
{
    for item in items.iter_mut() {
        *item = perish_item(*item, dead);
    }
}

impl Items {
    /// The items read as these ports' death leaves them.
    fn perish(&mut self, dead: &Ports)
        ensures { self.new ≡ map (perished_item dead.now) self.old }
    {
        perish_items(self.items.as_mut_slice(), dead);
    }
}

/// An argument of a queued message.
#[derive(Debug, Drop)]
pub enum QueuedArgument {
    /// Data as they were sent.
    Data { desc: Desc, bytes: Bytes },
    /// Port rights, all given as the same right.
    Items { right: PortRight, items: Items },
}

/// The disposition that moves a right.
pub fn moving(right: PortRight) -> Disp
    ensures { result ≡ moving right }
{
    match right {
        PortRight::Send => Disp::MoveSend,
        PortRight::Receive => Disp::MoveReceive,
        PortRight::SendOnce => Disp::MoveSendOnce,
    }
}

/// What the descriptor of port rights says that are received.
fn items_desc(right: PortRight, items: &[Item]) -> Desc
    requires { length items.now < 2 ^ 32 }
    ensures { result ≡ desc_of (message.Ports (given_number right) (no_names items.now)) }
{
    Desc {
        name: moving(right).number(),
        size: 32,
        number: items.len() as u32,
    }
}

impl QueuedArgument {
    /// How many bytes the argument is written as, whatever names its rights get.
    fn written_size(&self) -> usize
        requires { IsLawfulArg (unnamed (queued_of self.now)) }
        ensures { result ≡ length (arg_bytes (unnamed (queued_of self.now))) }
    {
        match self {
            QueuedArgument::Data { desc, bytes: _ } => desc.argument_size(),
            QueuedArgument::Items { right, items } => {
                items_desc(*right, items.as_slice()).argument_size()
            }
        }
    }
}

/// How many bytes the arguments are written as, whatever names their rights get.
fn arguments_size(arguments: &[QueuedArgument]) -> usize
    requires { AreCarried (map queued_of arguments.now) }
    ensures { result + 24 ≡ carried_size (map queued_of arguments.now) }
{
    let mut size = 0;
    for argument in arguments {
        size += argument.written_size();
    }
    size
}

/// The bytes of a header.
const HEADER_SIZE: usize = 24;

/// A message on a queue. Its arguments are lawful and fit a message, whatever names the receiver
/// has for its rights.
#[derive(Debug, Drop)]
pub struct Parcel {
    by_once: bool,
    id: u32,
    reply: Item,
    arguments: Vec<QueuedArgument>,
}

impl Model for Parcel {
    ghost use Rattle.std.specs.Prelude.{map};
    ghost use Rattle.mrc_model.specs.World as model;
    ghost use Rattle.mrc_ports.specs.Parcels.{queued_of, AreCarried};

    ghost Value = { model.Parcel };

    ghost view = { λ a. record {
      by_once = a.by_once;
      id = a.id;
      reply = a.reply;
      args = map queued_of a.arguments.items;
    } };

    ghost invariant = { λ a. AreCarried (map queued_of a.arguments.items) };
}

impl Parcel {
    /// A message by its parts. `by_once` tells that it was sent through a send-once right; `reply`
    /// is what it carries for the reply port. A message has to have room for the arguments.
    pub fn new(by_once: bool, id: u32, reply: Item, arguments: Vec<QueuedArgument>) -> Parcel
        requires { AreCarried (map queued_of arguments.items) }
        ensures { result ≡ record {
          by_once = by_once;
          id = id;
          reply = reply;
          args = map queued_of arguments.items;
        } }
    {
        Parcel {
            by_once,
            id,
            reply,
            arguments,
        }
    }

    /// Whether it was sent through a send-once right.
    pub fn by_once(&self) -> bool
        ensures { result ≡ self.now.by_once }
    {
        self.by_once
    }

    /// What the message asks for, msgh_id.
    pub fn id(&self) -> u32
        ensures { result ≡ self.now.id }
    {
        self.id
    }

    /// What it carries for the reply port.
    pub fn reply(&self) -> Item
        ensures { result ≡ self.now.reply }
    {
        self.reply
    }

    /// Its arguments, in order.
    pub fn arguments(&self) -> &[QueuedArgument]
        ensures exact { map queued_of result.now ≡ self.now.args }
        ensures kept { AreCarried self.now.args }
    {
        &self.arguments
    }

    /// How many bytes it is written as, whatever names its rights get: 24 to 8,192.
    pub fn written_size(&self) -> u32
        ensures exact { result ≡ carried_size self.now.args }
        ensures within { result ≤ limit_of_message }
    {
        (HEADER_SIZE + arguments_size(self.arguments.as_slice())) as u32
    }
}

/// An argument in place.
fn perish_argument(argument: &mut QueuedArgument, dead: &Ports)
    ensures { argument.new ≡ perished_argument dead.now argument.old }
{
    match argument {
        QueuedArgument::Data { .. } => (),
        QueuedArgument::Items { items, .. } => items.perish(dead),
    }
}

/// Arguments in place.
fn perish_arguments(arguments: &mut [QueuedArgument], dead: &Ports)
    ensures { arguments.new ≡ map (perished_argument dead.now) arguments.old }
{
    for argument in arguments.iter_mut() {
        perish_argument(argument, dead);
    }
}

impl Parcel {
    /// The message as these ports' death leaves it.
    fn perish(&mut self, dead: &Ports)
        ensures { self.new ≡ perished_parcel dead.now self.old }
    {
        self.reply = perish_item(self.reply, dead);
        perish_arguments(self.arguments.as_mut_slice(), dead);
    }
}

/// The only message of a list as these ports' death leaves it.
fn perish_first(parcels: &mut LinkedList<Parcel>, dead: &Ports)
    requires { length parcels.old ≡ 1 }
    ensures { parcels.new ≡ map (perished_parcel dead.now) parcels.old }
{
    if let Some(parcel) = parcels.front_mut() {
        parcel.perish(dead);
    }
}

/// Parts the messages behind the first one from it.
fn behind_first(parcels: &mut LinkedList<Parcel>) -> LinkedList<Parcel>
    requires { 0 < length parcels.old }
    ensures parts { parcels.old ≡ parcels.new ++ result }
    ensures one { length parcels.new ≡ 1 }
{
    match parcels.split_off(1) {
        Ok(rest) => rest,
        Err(_) => unreachable!(),
    }
}

/// Puts more messages behind those of a list.
fn join(parcels: &mut LinkedList<Parcel>, more: &mut LinkedList<Parcel>)
    requires { length parcels.old + length more.old < 2 ^ 63 }
    ensures { parcels.new ≡ parcels.old ++ more.old }
{
    if parcels.append(more).is_err() {
        unreachable!();
    }
}

/// The messages as these ports' death leaves them, one after the other in their own room.
fn perish_parcels(parcels: LinkedList<Parcel>, dead: &Ports) -> LinkedList<Parcel>
    ensures { result ≡ map (perished_parcel dead.now) parcels }
{
    let mut done = LinkedList::new(*parcels.allocator());
    let mut left = parcels;
    while 0 < left.len() {
        let rest = behind_first(&mut left);
        perish_first(&mut left, dead);
        join(&mut done, &mut left);
        left = rest;
    }
    done
}

/// A message with its own room on a queue.
#[derive(Debug, Drop)]
pub struct Ready {
    parcels: LinkedList<Parcel>,
}

impl Model for Ready {
    ghost use Rattle.std.specs.Prelude.{◌≡◌, length};
    ghost use Rattle.mrc_model.specs.World as model;
    ghost use Rattle.mrc_ports.specs.Queues.{first_or_blank};

    ghost Value = { model.Parcel };

    ghost view = { λ a. first_or_blank a.parcels };

    ghost invariant = { λ a. length a.parcels ≡ 1 };
}

impl Ready {
    /// A message with room. It alone takes memory.
    pub(crate) fn new(alloc: Global, parcel: Parcel) -> Result<Ready, AllocFailed<Parcel>>
        ensures ok { IfOk result (λ ready. ready ≡ parcel) }
        ensures returned { IfErr result (λ refused. refused.value ≡ parcel) }
    {
        let mut parcels = LinkedList::new(alloc);
        parcels.push_back(parcel)?;
        Ok(Ready { parcels })
    }

    /// Whether the message was sent through a send-once right.
    pub fn by_once(&self) -> bool
        ensures { result ≡ self.now.by_once }
    {
        match self.parcels.front() {
            Some(parcel) => parcel.by_once,
            None => unreachable!(),
        }
    }
}

/// The messages that wait at a port, the first to be received first.
#[derive(Debug, Drop)]
pub struct Queue {
    parcels: LinkedList<Parcel>,
}

impl Model for Queue {
    ghost use Rattle.std.specs.Prelude.{List};
    ghost use Rattle.mrc_model.specs.World as model;

    ghost Value = { List model.Parcel };

    ghost view = { λ a. a.parcels };
}

impl Queue {
    /// The queue with no message.
    pub fn new(alloc: Global) -> Queue
        ensures { result ≡ [] }
    {
        Queue {
            parcels: LinkedList::new(alloc),
        }
    }

    /// How many messages wait.
    pub fn len(&self) -> usize
        ensures { result ≡ length self.now }
    {
        self.parcels.len()
    }

    /// The first message, if one waits.
    pub fn first(&self) -> Option<&Parcel>
        ensures { option_copied result ≡ option_map (λ got. got.0) (first_parcel self.now) }
    {
        self.parcels.front()
    }

    /// The messages in order, the first to be received first.
    pub fn iter(&self) -> Iter<'_, Parcel>
        ensures { result ≡ self.now }
    {
        self.parcels.iter()
    }

    /// Puts a message behind the others. It takes no memory.
    pub(crate) fn add(&mut self, ready: Ready)
        requires { length self.old < limit_of_waiting }
        ensures { self.new ≡ self.old ++ ready ∷ [] }
    {
        let Ready { mut parcels } = ready;
        if self.parcels.append(&mut parcels).is_err() {
            unreachable!();
        }
    }

    /// Takes the first message out, if one waits.
    pub(crate) fn take_first(&mut self) -> Option<Parcel>
        ensures { MatchOption result ((self.old ≡ []) × (self.new ≡ []))
            (λ parcel. self.old ≡ parcel ∷ self.new) }
    {
        self.parcels.pop_front()
    }

    /// The messages as these ports' death leaves them. It takes no memory.
    pub(crate) fn perish(&mut self, dead: &Ports)
        ensures { self.new ≡ map (perished_parcel dead.now) self.old }
    {
        let none = LinkedList::new(*self.parcels.allocator());
        let parcels = mem::replace(&mut self.parcels, none);
        self.parcels = perish_parcels(parcels, dead);
    }
}
