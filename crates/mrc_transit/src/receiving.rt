//! Receiving a message: where it comes from, what the receiver is given, and the plan of it.

ghost use Rattle.std.specs.Prelude.{◌≡◌, ◌≤◌, ◌<◌, ◌^◌, ℕ, map, length, Some, Ok, Err, IfOk, IfErr};
ghost use Rattle.std.specs.Prelude.{option_map, None, if◌then◌else◌, List, OnErr};
ghost use Rattle.std.specs.List.{AllByRecursion};
ghost use Rattle.mrc_base.specs.declared.PortRight.TheVariants.{Send, SendOnce};
ghost use Rattle.mrc_base.specs.Limits.{limit_of_message};
ghost use Rattle.mrc_model.specs.declared.Code.TheVariants.{MachRcvTimedOut};
ghost use Rattle.mrc_model.specs.Map.{Map, get};
ghost use Rattle.mrc_model.specs.Rights.{given_number};
ghost use Rattle.mrc_model.specs.Message.{written};
ghost use Rattle.mrc_model.specs.World.{Store as TStore, Task as TTask, set_space};
ghost use Rattle.mrc_model.specs.World.{Port as TPort, Parcel as TParcel};
ghost use Rattle.mrc_model.specs.World.{space as space_of};
ghost use Rattle.mrc_model.specs.Reply.{Refused, Bytes};
ghost use Rattle.mrc_model.specs.CallReceive.{give_items, give_arg, give_args, received};
ghost use Rattle.mrc_model.specs.CallReceive.{reply_disp, source_at, first_ready};
ghost use Rattle.mrc_model.specs.CallReceive.{ready_member, is_empty_queue, call_receive};
ghost use Rattle.mrc_desc.specs.View.{argument_of, arguments_of};
ghost use Rattle.mrc_desc.specs.Laws.{OtherArg, OtherArgs};
ghost use Rattle.mrc_ports.specs.Parcels.{queued_of, unnamed};
ghost use Rattle.mrc_transit.specs.Giving.{IsNotGiven};
ghost use Rattle.mrc_transit.specs.Receiving.{found_source, receive_reply, IsOverFilled};
ghost use Rattle.mrc_transit.specs.Receiving.{IsReceiveRefusal, IsReceivable, IsFirst, HasFirst};
ghost use Rattle.mrc_transit.specs.Receiving.{AreHousedAlike, no_space, next_size, IsNext};

use crate::giving::give_item;
use crate::room::has_room;
use crate::written::Written;
use mrc_base::{OrMemory, PortId, PortRight, TaskId};
use mrc_desc::{Argument, Arguments, Header, Message, Names};
use mrc_model::{Code, Entry, Item};
use mrc_names::{Giving, Space};
use mrc_ports::{Parcel, QueuedArgument, Store, moving};
use std::alloc::Global;
use std::collections::btree_map::Iter;

/// Why no message is received. Nothing has changed.
#[derive(Clone, Copy, Debug, Drop, PartialEq, Eq)]
pub enum ReceiveFault {
    /// In this order: the name is neither a receive right nor a port set (MACH_RCV_INVALID_NAME);
    /// it is a member of a set (MACH_RCV_IN_SET); no message waits (MACH_RCV_TIMED_OUT); and, after
    /// `TooLarge`, the space would have more than 4,096 entries (PROFILE_NO_SPACE).
    Refused(Code),
    /// The message is larger than the limit. It has so many bytes, and stays queued.
    TooLarge(u32),
}

/// Whether no message waits at a port.
fn is_empty_queue(store: &Store, port: PortId) -> bool
    ensures { result ≡ is_empty_queue (get store.now.ports port) }
{
    match store.ports().get(port) {
        None => true,
        Some(found) => found.queue().len() == 0,
    }
}

/// The port of the entry, where it is a member of the set with a message.
fn ready_member(store: &Store, set: u32, entry: &Entry) -> Option<PortId>
    ensures { result ≡ ready_member store.now set entry.now }
{
    match *entry {
        Entry::Receive {
            port,
            sends: _,
            in_set,
        } => {
            if in_set == Some(set) && !is_empty_queue(store, port) {
                Some(port)
            } else {
                None
            }
        }
        _ => None,
    }
}

/// The first of these entries that is a member of the set with a message: its name and its port.
fn first_ready(store: &Store, set: u32, entries: Iter<'_, u64, Entry>) -> Option<(u64, PortId)>
    ensures { option_map found_source result ≡ first_ready store.now set entries.entry }
{
    for held in entries {
        if let Some(port) = ready_member(store, set, held.1) {
            return Some((*held.0, port));
        }
    }
    None
}

/// The name and the port of the first member of a set, by ascending name, that has a message.
fn member_source(store: &Store, space: &Space, set: u32) -> Result<(u32, PortId), Code>
    ensures ok { IfOk result (λ found.
        first_ready store.now set space.now.list ≡ Some (found_source found)) }
    ensures refused { IfErr result (λ code. (code ≡ MachRcvTimedOut)
        × (first_ready store.now set space.now.list ≡ None)) }
{
    space.bounds();
    match first_ready(store, set, space.iter()) {
        None => Err(Code::MachRcvTimedOut),
        Some(found) => Ok((found.0 as u32, found.1)),
    }
}

/// Where a name receives from: the name and the port of a receive right. Of a set it is the first
/// member, by ascending name, that has a message. Refused are, in this order, a name that is
/// neither a receive right nor a set (MACH_RCV_INVALID_NAME), a member of a set (MACH_RCV_IN_SET),
/// and a set without a message (MACH_RCV_TIMED_OUT).
fn source_at(store: &Store, task: TaskId, space: &Space, name: u32) -> Result<(u32, PortId), Code>
    requires { get store.now.spaces task ≡ Some space.now }
    ensures ok { IfOk result (λ found.
        source_at store.now task name (get (space_of store.now task) name)
        ≡ Ok (found_source found)) }
    ensures refused { IfErr result (λ code.
        source_at store.now task name (get (space_of store.now task) name)
        ≡ Err (Refused code)) }
{
    let Some(entry) = space.get(name) else {
        return Err(Code::MachRcvInvalidName);
    };
    match entry {
        Entry::Receive {
            port,
            sends: _,
            in_set,
        } => {
            if in_set.is_some() {
                return Err(Code::MachRcvInSet);
            }
            Ok((name, port))
        }
        Entry::PortSet => member_source(store, space, name),
        _ => Err(Code::MachRcvInvalidName),
    }
}

/// Gives a space what an argument carries, in order: their names. Refused where the space would
/// have more than 4,096 entries.
fn give_items(alloc: Global, giving: &mut Giving, items: &[Item]) -> Result<Names, OrMemory<Code>>
    ensures given { IfOk result (λ names. (s : TStore) (t : ℕ)
        → give_items t (set_space s t giving.old.space) items.now ≡ (
          set_space s t
              giving.new.space,
          names,
        )) }
    ensures fit { IfOk result (λ names. AllByRecursion (λ name. name < 2 ^ 32) names) }
    ensures refused { IfErr result (λ e. (s : TStore) (t : ℕ)
        → IsOverFilled e (space_of (give_items t (set_space s t giving.old.space) items.now).0 t)) }
    ensures base { giving.new.base ≡ giving.old.base }
{
    let mut names = Vec::with_capacity(alloc, items.len())?;
    for item in items {
        names.push(give_item(giving, *item)?)?;
    }
    Ok(Names::from(names))
}

/// Gives a space what an argument carries: the argument as it is received. Refused where the space
/// would have more than 4,096 entries.
fn give_arg(
    alloc: Global,
    giving: &mut Giving,
    argument: &QueuedArgument,
) -> Result<Argument, OrMemory<Code>>
    ensures given { IfOk result (λ got. (s : TStore) (t : ℕ)
        → give_arg t (set_space s t giving.old.space) (queued_of argument.now)
        ≡ (set_space s t giving.new.space, argument_of got)) }
    ensures other { IfOk result (λ got.
        OtherArg (unnamed (queued_of argument.now)) (argument_of got)) }
    ensures refused { IfErr result (λ e. (s : TStore) (t : ℕ) → IsOverFilled e
        (space_of (give_arg t (set_space s t giving.old.space) (queued_of argument.now)).0 t)) }
    ensures base { giving.new.base ≡ giving.old.base }
{
    match argument {
        QueuedArgument::Data { desc, bytes } => Ok(Argument::Data {
            desc: *desc,
            bytes: bytes.copy(alloc)?,
        }),
        QueuedArgument::Items { right, items } => Ok(Argument::Ports {
            disp: moving(*right),
            names: give_items(alloc, giving, items.as_slice())?,
        }),
    }
}

/// Gives a space what all arguments carry, in order: the arguments as they are received. Refused
/// where the space would have more than 4,096 entries.
fn give_args(
    alloc: Global,
    giving: &mut Giving,
    arguments: &[QueuedArgument],
) -> Result<Arguments, OrMemory<Code>>
    ensures given { IfOk result (λ got. (s : TStore) (t : ℕ)
        → give_args t (set_space s t giving.old.space) (map queued_of arguments.now)
        ≡ (set_space s t giving.new.space, arguments_of got)) }
    ensures other { IfOk result (λ got.
        OtherArgs (map unnamed (map queued_of arguments.now)) (arguments_of got)) }
    ensures refused { IfErr result (λ e. (s : TStore) (t : ℕ) → IsOverFilled e
        (space_of (give_args t (set_space s t giving.old.space) (map queued_of arguments.now)).0
        t)) }
    ensures base { giving.new.base ≡ giving.old.base }
{
    let mut args = Vec::with_capacity(alloc, arguments.len())?;
    for argument in arguments {
        args.push(give_arg(alloc, giving, argument)?)?;
    }
    Ok(Arguments::from(args))
}

/// The number by which a received message tells a right: that of the disposition that moves it.
fn given_number(right: PortRight) -> u8
    ensures { result ≡ given_number right }
{
    moving(right).number() as u8
}

/// The disposition that tells whether there is a reply port, a dead one included.
fn reply_disp(reply: Item) -> u8
    ensures { result ≡ reply_disp reply }
{
    match reply {
        Item::Null => 0,
        Item::Dead | Item::Right { port: _, right: _ } => given_number(PortRight::SendOnce),
    }
}

/// The disposition that tells which right a message was sent through.
fn local_disp(by_once: bool) -> u8
    ensures { result ≡ (if by_once then given_number SendOnce else given_number Send) }
{
    if by_once {
        given_number(PortRight::SendOnce)
    } else {
        given_number(PortRight::Send)
    }
}

/// Gives a space what a message carries: the message as it is received under a name, after so many
/// receipts. Refused where the space would have more than 4,096 entries.
fn received(
    alloc: Global,
    giving: &mut Giving,
    name: u32,
    receipts: u32,
    parcel: &Parcel,
) -> Result<Message, OrMemory<Code>>
    ensures given { IfOk result (λ message. (s : TStore) (t : ℕ)
        → received (set_space s t giving.old.space) t name receipts parcel.now
        ≡ (set_space s t giving.new.space, message)) }
    ensures refused { IfErr result (λ e. (s : TStore) (t : ℕ) → IsOverFilled e
        (space_of (received (set_space s t giving.old.space) t name receipts parcel.now).0 t)) }
    ensures base { giving.new.base ≡ giving.old.base }
{
    let remote = give_item(giving, parcel.reply())?;
    let args = give_args(alloc, giving, parcel.arguments())?;
    let header = Header {
        remote_disp: reply_disp(parcel.reply()),
        local_disp: local_disp(parcel.by_once()),
        remote_port: remote,
        local_port: name,
        seqno: receipts,
        id: parcel.id(),
    };
    match Message::new(header, args) {
        Ok(message) => Ok(message),
        Err(_) => unreachable!(),
    }
}

/// Gives a space what a message carries, and makes the bytes of the message as it is received. The
/// space comes back: as it was, where it would have more than 4,096 entries, or memory runs out.
fn give_message(
    alloc: Global,
    space: Space,
    name: u32,
    receipts: u32,
    parcel: &Parcel,
) -> (Space, Result<Written, OrMemory<Code>>)
    ensures given { IfOk result.1 (λ bytes. (s : TStore) (t : ℕ)
        → (received (set_space s t space) t name receipts parcel.now).0
        ≡ set_space s t result.0) }
    ensures written { IfOk result.1 (λ bytes. (s : TStore) (t : ℕ)
        → written (received (set_space s t space) t name receipts parcel.now).1 ≡ bytes) }
    ensures refused { IfErr result.1 (λ e. (s : TStore) (t : ℕ) → IsOverFilled e
        (space_of (received (set_space s t space) t name receipts parcel.now).0 t)) }
    ensures err { OnErr result.1 (result.0 ≡ space) }
{
    let mut giving = Giving::new(alloc, space);
    match received(alloc, &mut giving, name, receipts, parcel) {
        Ok(message) => match Written::of(alloc, &message) {
            Ok(bytes) => (giving.keep(), Ok(bytes)),
            Err(_) => (giving.undo(), Err(OrMemory::Memory)),
        },
        Err(e) => (giving.undo(), Err(e)),
    }
}

/// Why a message was not given to a space, which is unchanged. If memory ran out, no room in the
/// space comes first, with KERN_NO_SPACE: it is found out without memory.
fn no_room_or(space: &Space, parcel: &Parcel, fault: OrMemory<Code>) -> OrMemory<Code>
    ensures { (s : TStore) (t name receipts : ℕ)
        → IsOverFilled fault
        (space_of (received (set_space s t space.now) t name receipts parcel.now).0 t)
        → IsNotGiven result t (received (set_space s t space.now) t name receipts parcel.now).0 }
{
    match fault {
        OrMemory::Fault(code) => OrMemory::Fault(code),
        OrMemory::Memory => {
            if has_room(space, parcel) {
                OrMemory::Memory
            } else {
                OrMemory::Fault(Code::KernNoSpace)
            }
        }
    }
}

/// Gives a space what the first message of a port carries, as `give_message` does, where one waits.
/// Memory runs out only where the space has room for all.
fn give_first(
    alloc: Global,
    store: &Store,
    space: Space,
    name: u32,
    port: PortId,
) -> (Space, Result<Written, OrMemory<Code>>)
    requires { HasFirst store.now port }
    ensures given { (x : TPort) (m : TParcel) (ms : List TParcel) → IsFirst store.now port x m ms
        → IfOk result.1 (λ bytes. (s : TStore) (t : ℕ)
        → (received (set_space s t space) t name x.receipts m).0 ≡ set_space s t result.0) }
    ensures written { (x : TPort) (m : TParcel) (ms : List TParcel) → IsFirst store.now port x m ms
        → IfOk result.1 (λ bytes. (s : TStore) (t : ℕ)
        → written (received (set_space s t space) t name x.receipts m).1 ≡ bytes) }
    ensures refused { (x : TPort) (m : TParcel) (ms : List TParcel) → IsFirst store.now port x m ms
        → IfErr result.1 (λ e. (s : TStore) (t : ℕ)
        → IsNotGiven e t (received (set_space s t space) t name x.receipts m).0) }
    ensures err { OnErr result.1 (result.0 ≡ space) }
{
    let Some(found) = store.ports().get(port) else {
        unreachable!();
    };
    let Some(parcel) = found.queue().first() else {
        unreachable!();
    };
    let (space, told) = give_message(alloc, space, name, found.receipts(), parcel);
    match told {
        Ok(bytes) => (space, Ok(bytes)),
        Err(e) => {
            let e = no_room_or(&space, parcel, e);
            (space, Err(e))
        }
    }
}

/// Why a message is not received whose rights the space has no room for.
fn no_space(fault: OrMemory<Code>) -> OrMemory<ReceiveFault>
    ensures { result ≡ no_space fault }
{
    match fault {
        OrMemory::Fault(_code) => OrMemory::Fault(ReceiveFault::Refused(Code::ProfileNoSpace)),
        OrMemory::Memory => OrMemory::Memory,
    }
}

/// The name and the port that a task receives from by a name of its own, and the size of the
/// message that waits there. The name is that of a receive right, or of a port set: then the port
/// is that of the first member, by ascending name, that has a message.
fn next_message(store: &Store, task: TaskId, name: u32) -> Result<((u32, PortId), u32), Code>
    ensures found { IfOk result (λ next. IsNext store.now task name next.0 next.1) }
    ensures refused { IfErr result (λ code. (limit : ℕ)
        → next_size store.now task name limit ≡ Err (Refused code)) }
{
    let Some(space) = store.space(task) else {
        return Err(Code::MachRcvInvalidName);
    };
    let found = source_at(store, task, space, name)?;
    let Some(port) = store.ports().get(found.1) else {
        return Err(Code::MachRcvInvalidName);
    };
    let Some(parcel) = port.queue().first() else {
        return Err(Code::MachRcvTimedOut);
    };
    Ok((found, parcel.written_size()))
}

/// How many bytes a receive of at most `limit` bytes by a name of the task would answer: 0 if the
/// message is larger than the limit. It takes no memory. Refused are a name that is neither a
/// receive right nor a port set (MACH_RCV_INVALID_NAME), a member of a set (MACH_RCV_IN_SET), and a
/// name by which no message waits (MACH_RCV_TIMED_OUT). Whether the space has room for the rights
/// is not asked.
pub fn next_size(store: &Store, task: TaskId, name: u32, limit: u32) -> Result<usize, Code>
    ensures ok { IfOk result (λ size. next_size store.now task name limit ≡ Ok size) }
    ensures refused { IfErr result (λ code.
        next_size store.now task name limit ≡ Err (Refused code)) }
{
    let (_, size) = next_message(store, task, name)?;
    if size <= limit {
        return Ok(size as usize);
    }
    Ok(0)
}

/// The name and the port that a message of at most `limit` bytes is received from, by a name of the
/// task. All refusals except that the space has no room.
fn judge(store: &Store, task: TaskId, name: u32, limit: u32) -> Result<(u32, PortId), ReceiveFault>
    ensures found { IfOk result (λ found. IsReceivable store.now task name limit found) }
    ensures refused { IfErr result (λ fault. (tasks : Map TTask)
        → call_receive (record { tasks = tasks; store = store.now }) task name limit
        ≡ Err (receive_reply fault)) }
{
    let (found, size) = match next_message(store, task, name) {
        Ok(next) => next,
        Err(code) => return Err(ReceiveFault::Refused(code)),
    };
    if limit < size {
        return Err(ReceiveFault::TooLarge(size));
    }
    Ok(found)
}

/// Receives a message of at most `limit` bytes by a name of the task: its bytes. Refused are what
/// `ReceiveFault` lists, in its order; then, or where memory runs out, nothing has changed. Memory
/// runs out only where nothing is refused.
pub fn receive(
    alloc: Global,
    store: &mut Store,
    task: TaskId,
    name: u32,
    limit: u32,
) -> Result<Written, OrMemory<ReceiveFault>>
    ensures ok { IfOk result (λ bytes. (tasks : Map TTask)
        → call_receive (record { tasks = tasks; store = store.old }) task name limit
        ≡ Ok (record { tasks = tasks; store = store.new }, Bytes bytes)) }
    ensures refused { IfErr result (λ e. (tasks : Map TTask) → IsReceiveRefusal e
        (call_receive (record { tasks = tasks; store = store.old }) task name limit)) }
    ensures housed { AreHousedAlike store.old store.new }
    ensures err { OnErr result (store.new ≡ store.old) }
{
    let (from, port) = match judge(store, task, name, limit) {
        Ok(found) => found,
        Err(fault) => return Err(OrMemory::Fault(fault)),
    };
    let space = store.put_space(task, Space::new(alloc));
    let (space, told) = give_first(alloc, store, space, from, port);
    space.bounds();
    let _ = store.put_space(task, space);
    match told {
        Ok(bytes) => {
            let _ = store.dequeue(port);
            Ok(bytes)
        }
        Err(e) => Err(no_space(e)),
    }
}
