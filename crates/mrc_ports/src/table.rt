//! All live ports.

ghost use Rattle.std.specs.Prelude.{◌≡◌, ◌≤◌, ◌↔◌, Some, None, IsSome, IfOk, OnOk, OnErr};
ghost use Rattle.std.specs.Prelude.{IfErr, IsOk, IsErr, IsErrAnd, IsTrue, Err, true, false};
ghost use Rattle.std.specs.Option.{option_copied};
ghost use Rattle.mrc_model.specs.Map.{empty, get, insert, len};
ghost use Rattle.mrc_ports.specs.Burials.{buried};
ghost use Rattle.mrc_ports.specs.Tables.{with_birth, is_short, with_port, restarted};
ghost use Rattle.mrc_model.specs.World.{Port as TPort};
ghost use Rattle.mrc_ports.specs.declared.table.NotQueued.TheVariants.{Absent, Full, Memory};
ghost use Rattle.mrc_ports.specs.Faults.{IsFault};
ghost use Rattle.mrc_ports.specs.Queues.{HaveRoom, is_full_for, is_out_of_room, with_message};
ghost use Rattle.mrc_ports.specs.Queues.{received_from};

use crate::burying::bury_ports;
use crate::parcel::{Parcel, Ready};
use crate::port::{Port, WAITING};
use crate::slots::PortSlots;
use mrc_base::{ClassId, OrMemory, PortId, limits};
use mrc_map::Ports;
use mrc_model::Backup;
use std::alloc::{AllocFailed, Global};
use std::marker::Model;
use thiserror::Error;

/// There are 65,536 live ports, or 2^48 ports have been born.
#[derive(Clone, Copy, Debug, PartialEq, Eq, Error)]
#[error("Shortage")]
pub struct Shortage;

/// No live port has this number.
#[derive(Clone, Copy, Debug, PartialEq, Eq, Error)]
#[error("NoSuchPort")]
pub struct NoSuchPort;

/// Why a message was not queued; it comes back.
#[derive(Debug, Drop)]
pub enum NotQueued {
    /// No live port has this number.
    Absent(Ready),
    /// The port's queue is at or above its limit, and the message was not sent through a send-once
    /// right.
    Full(Ready),
    /// The queue is not full for the message, but 2^62 messages wait at the port.
    Memory(Ready),
}

/// All live ports, by the numbers of their births. It keeps the allocator that it is made with.
#[derive(Debug, Drop)]
pub struct PortTable {
    alloc: Global,
    next: u64,
    /// No queue has been longer.
    longest: usize,
    ports: PortSlots,
}

impl Model for PortTable {
    ghost use Rattle.mrc_ports.specs.Tables.{Table, IsSound};

    ghost Value = { Table };

    ghost view = { λ a. record { next = a.next; ports = a.ports } };

    ghost invariant = { λ a. IsSound a.next a.longest a.ports };
}

/// Takes a port out, and puts another one in its place for now.
fn taken(ports: &mut PortSlots, alloc: Global, port: PortId) -> Port
    requires { IsSome (get ports.old port) }
    ensures port { Some result ≡ get ports.old port }
    ensures others { (x : TPort) → insert ports.new port x ≡ insert ports.old port x }
    ensures there { IsSome (get ports.new port) }
{
    ports.replace(port.0, Port::new(alloc, ClassId(0)))
}

/// The greater of two lengths.
fn longer(first: usize, other: usize) -> usize
    ensures first { first ≤ result }
    ensures other { other ≤ result }
{
    if first < other { other } else { first }
}

impl PortTable {
    /// The table with no port, before the first birth.
    pub fn new(alloc: Global) -> PortTable
        ensures { result ≡ record { next = 0; ports = empty } }
    {
        PortTable {
            alloc,
            next: 0,
            longest: 0,
            ports: PortSlots::new(alloc),
        }
    }

    /// The allocator that the table keeps.
    pub(crate) fn allocator(&self) -> Global {
        self.alloc
    }

    /// The port of this number.
    pub fn get(&self, port: PortId) -> Option<&Port>
        ensures { option_copied result ≡ get self.now.ports port }
    {
        self.ports.get(port.0)
    }

    /// How many live ports there are.
    pub fn len(&self) -> usize
        ensures { result ≡ len self.now.ports }
    {
        self.ports.len()
    }

    /// The number that the next birth gives.
    pub fn next(&self) -> PortId
        ensures { result ≡ self.now.next }
    {
        PortId(self.next)
    }

    /// Whether there are as many live ports, or births have been, as there may be.
    pub fn is_short(&self) -> bool
        ensures { result ≡ is_short self.now }
    {
        limits::PORTS <= self.ports.len() || limits::BIRTHS <= self.next
    }

    /// A new port of the class, under the next number. Refused exactly where there are as many live
    /// ports, or births have been, as there may be.
    pub fn birth(&mut self, class: ClassId) -> Result<PortId, OrMemory<Shortage>>
        ensures born { OnOk result (self.new ≡ with_birth self.old class) }
        ensures number { IfOk result (λ port. port ≡ self.old.next) }
        ensures short { IsErrAnd result IsFault ↔ IsTrue (is_short self.old) }
        ensures err { OnErr result (self.new ≡ self.old) }
    {
        if self.is_short() {
            return Err(OrMemory::Fault(Shortage));
        }
        let port = self.next();
        self.ports.add(self.next, Port::new(self.alloc, class))?;
        self.next += 1;
        Ok(port)
    }

    /// Sets how many messages the queue of a port takes. Refused exactly where no live port has
    /// this number.
    pub fn set_limit(&mut self, port: PortId, limit: u32) -> Result<(), NoSuchPort>
        ensures limit { (x : TPort) → get self.old.ports port ≡ Some x
            → IsOk result × (self.new ≡ with_port self.old port (record x { limit = limit })) }
        ensures absent { get self.old.ports port ≡ None
            → IsErr result × (self.new ≡ self.old) }
    {
        if self.ports.get(port.0).is_none() {
            return Err(NoSuchPort);
        }
        let found = taken(&mut self.ports, self.alloc, port);
        let _ = self.ports.replace(port.0, found.limited(limit));
        Ok(())
    }

    /// Replaces the port-destroyed request of a port. Refused exactly where no live port has this
    /// number.
    pub fn set_backup(&mut self, port: PortId, backup: Backup) -> Result<(), NoSuchPort>
        ensures backup { (x : TPort) → get self.old.ports port ≡ Some x
            → IsOk result × (self.new ≡ with_port self.old port (record x { backup = backup })) }
        ensures absent { get self.old.ports port ≡ None
            → IsErr result × (self.new ≡ self.old) }
    {
        if self.ports.get(port.0).is_none() {
            return Err(NoSuchPort);
        }
        let found = taken(&mut self.ports, self.alloc, port);
        let _ = self.ports.replace(port.0, found.with_backup(backup));
        Ok(())
    }

    /// All ports of a set leave with their queues; requests and rights in transit on them read as
    /// dead. It takes no memory.
    pub fn bury_all(&mut self, dead: &Ports)
        ensures { self.new ≡ buried dead.now self.old }
    {
        bury_ports(&mut self.ports, dead);
    }

    /// The receipts of a port are 0 again, as its receive right has moved. Nothing where no live
    /// port has this number.
    pub fn restart(&mut self, port: PortId)
        ensures { self.new ≡ restarted self.old port (get self.old.ports port) }
    {
        if self.ports.get(port.0).is_none() {
            return;
        }
        let found = taken(&mut self.ports, self.alloc, port);
        let _ = self.ports.replace(port.0, found.restarted());
    }

    /// Whether each queue has room for so many messages more; it may say no once 2^62 messages,
    /// less these, have waited at a port.
    pub fn has_room(&self, more: usize) -> bool
        ensures { result ≡ true → HaveRoom more self.now.ports }
    {
        self.longest <= WAITING && more <= WAITING - self.longest
    }

    /// A message with its own room on a queue; if memory runs out the message comes back.
    pub fn ready(&self, parcel: Parcel) -> Result<Ready, AllocFailed<Parcel>>
        ensures ok { IfOk result (λ ready. ready ≡ parcel) }
        ensures returned { IfErr result (λ refused. refused.value ≡ parcel) }
    {
        Ready::new(self.alloc, parcel)
    }

    /// Puts a message at the end of a port's queue. Refused if no live port has this number, if the
    /// queue is full for the message, or if 2^62 messages wait. It takes no memory.
    pub fn enqueue(&mut self, port: PortId, ready: Ready) -> Result<(), NotQueued>
        ensures queued { (x : TPort) → get self.old.ports port ≡ Some x
            → is_full_for x ready.by_once ≡ false
            → is_out_of_room x ≡ false
            → IsOk result × (self.new ≡ with_port self.old port (with_message x ready)) }
        ensures full { (x : TPort) → get self.old.ports port ≡ Some x
            → is_full_for x ready.by_once ≡ true
            → (result ≡ Err (Full ready)) × (self.new ≡ self.old) }
        ensures memory { (x : TPort) → get self.old.ports port ≡ Some x
            → is_full_for x ready.by_once ≡ false
            → is_out_of_room x ≡ true
            → (result ≡ Err (Memory ready)) × (self.new ≡ self.old) }
        ensures absent { get self.old.ports port ≡ None
            → (result ≡ Err (Absent ready)) × (self.new ≡ self.old) }
    {
        let (full, out_of_room) = match self.ports.get(port.0) {
            None => return Err(NotQueued::Absent(ready)),
            Some(found) => (found.is_full_for(ready.by_once()), found.is_out_of_room()),
        };
        if full {
            return Err(NotQueued::Full(ready));
        }
        if out_of_room {
            return Err(NotQueued::Memory(ready));
        }
        let found = taken(&mut self.ports, self.alloc, port);
        let filled = found.with_message(ready);
        self.longest = longer(self.longest, filled.queue().len());
        let _ = self.ports.replace(port.0, filled);
        Ok(())
    }

    /// Takes the first message off a port's queue, which counts as a receipt. None where no live
    /// port has this number, or no message waits.
    pub fn dequeue(&mut self, port: PortId) -> Option<Parcel>
        ensures { received_from self.old port (get self.old.ports port) ≡ (result, self.new) }
    {
        if self.ports.get(port.0)?.queue().len() == 0 {
            return None;
        }
        let found = taken(&mut self.ports, self.alloc, port);
        let (parcel, left) = found.received();
        let _ = self.ports.replace(port.0, left);
        Some(parcel)
    }
}
