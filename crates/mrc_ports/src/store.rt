//! All spaces and all ports.

ghost use Rattle.std.specs.Prelude.{◌≡◌, ◌↔◌, Some, None, IfOk, IfErr, OnOk, OnErr, IsSome, IsOk};
ghost use Rattle.std.specs.Prelude.{IsErr, IsErrAnd, IsTrue, Err, true, false};
ghost use Rattle.std.specs.Option.{option_copied};
ghost use Rattle.mrc_model.specs.Map.{empty, get, insert, next_key};
ghost use Rattle.mrc_model.specs.World.{set_space, set_port, Port as TPort};
ghost use Rattle.mrc_model.specs.Space.{restart};
ghost use Rattle.mrc_model.specs.Death.{bury};
ghost use Rattle.mrc_ports.specs.declared.table.NotQueued.TheVariants.{Absent, Full, Memory};
ghost use Rattle.mrc_ports.specs.Faults.{IsFault};
ghost use Rattle.mrc_ports.specs.Queues.{is_full_for, is_out_of_room, with_message, received_by};
ghost use Rattle.mrc_ports.specs.Tables.{table_of, store_of, with_birth, is_short, no_store};
ghost use Rattle.mrc_ports.specs.Tables.{next_task, with_home, is_short_of_homes};

use crate::burying::bury_spaces;
use crate::parcel::{Parcel, Ready};
use crate::table::{NoSuchPort, NotQueued, PortTable, Shortage};
use mrc_base::{ClassId, OrMemory, PortId, TaskId};
use mrc_map::{Map, Ports};
use mrc_model::Backup;
use mrc_names::Space;
use std::alloc::{AllocFailed, Global};
use std::marker::Model;

/// How many tasks there may have been: their numbers have 32 bits.
const TASK_NUMBERS: u64 = 0x1_0000_0000;

/// Why no task was added; its space comes back.
#[derive(Debug, Drop)]
pub struct NotAdded {
    /// Shortage, or out of memory.
    pub fault: OrMemory<Shortage>,
    /// The space that was passed.
    pub space: Space,
}

/// The spaces of all tasks, and all live ports.
#[derive(Debug, Drop)]
pub struct Store {
    spaces: Map<Space>,
    table: PortTable,
}

impl Model for Store {
    ghost use Rattle.mrc_model.specs.World as model;
    ghost use Rattle.mrc_ports.specs.Tables.{store_of};

    ghost Value = { model.Store };

    ghost view = { λ a. store_of a.spaces a.table };
}

impl Store {
    /// The store with no space and no port.
    pub fn new(alloc: Global) -> Store
        ensures { result ≡ no_store }
    {
        Store {
            spaces: Map::new(alloc),
            table: PortTable::new(alloc),
        }
    }

    /// The space of a task.
    pub fn space(&self, task: TaskId) -> Option<&Space>
        ensures { option_copied result ≡ get self.now.spaces task }
    {
        self.spaces.get(u64::from(task.0))
    }

    /// The spaces by the numbers of their tasks, ascending.
    pub fn spaces(&self) -> &[(u64, Space)]
        ensures { result.now ≡ self.now.spaces.list }
    {
        self.spaces.entries()
    }

    /// The number that the next task gets: one above the last. None where as many tasks have been
    /// as there may be.
    pub fn next_task(&self) -> Option<TaskId>
        ensures { result ≡ next_task self.now }
    {
        match self.spaces.next_key(TASK_NUMBERS) {
            Some(key) => Some(TaskId(key as u32)),
            None => None,
        }
    }

    /// An empty space for the next task, whose number is returned, and a new port of the class.
    fn add_home(&mut self, class: ClassId) -> Result<(u64, PortId), OrMemory<Shortage>>
        ensures added { OnOk result (self.new ≡ with_home self.old empty class) }
        ensures number { IfOk result (λ home.
            (home.0 ≡ next_key self.old.spaces) × (home.1 ≡ self.old.next)) }
        ensures short { IsErrAnd result IsFault ↔ IsTrue (is_short_of_homes self.old) }
        ensures err { OnErr result (self.new ≡ self.old) }
    {
        let Some(task) = self.next_task() else {
            return Err(OrMemory::Fault(Shortage));
        };
        if self.table.is_short() {
            return Err(OrMemory::Fault(Shortage));
        }
        let key = u64::from(task.0);
        self.spaces.insert(key, Space::new(self.table.allocator()))?;
        match self.table.birth(class) {
            Ok(port) => Ok((key, port)),
            Err(fault) => {
                self.spaces.remove(key);
                Err(fault)
            }
        }
    }

    /// A space for the next task, and a new port of the class, which is its kernel port: both or
    /// neither. The space may name the port, whose number `PortTable::next` shows; with a refusal
    /// it comes back. Refused with Shortage if and only if there are as many live ports, or as many
    /// births or tasks have been, as there may be.
    pub fn add_task(&mut self, space: Space, class: ClassId) -> Result<PortId, NotAdded>
        ensures added { OnOk result (self.new ≡ with_home self.old space class) }
        ensures number { IfOk result (λ port. port ≡ self.old.next) }
        ensures short { IsErrAnd result (λ refused. IsFault refused.fault)
            ↔ IsTrue (is_short_of_homes self.old) }
        ensures err { OnErr result (self.new ≡ self.old) }
        ensures returned { IfErr result (λ refused. refused.space ≡ space) }
    {
        match self.add_home(class) {
            Ok((key, port)) => {
                self.spaces.set(key, space);
                Ok(port)
            }
            Err(fault) => Err(NotAdded { fault, space }),
        }
    }

    /// Puts another space in the place of a task's, and gives back the one that stood there; where
    /// the task has none, the one that is handed in. It takes no memory.
    pub fn put_space(&mut self, task: TaskId, space: Space) -> Space
        ensures put { IsSome (get self.old.spaces task)
            → (Some result ≡ get self.old.spaces task)
            × (self.new ≡ set_space self.old task space) }
        ensures absent { get self.old.spaces task ≡ None
            → (result ≡ space) × (self.new ≡ self.old) }
    {
        let key = u64::from(task.0);
        if self.spaces.get(key).is_none() {
            return space;
        }
        self.spaces.replace(key, space)
    }

    /// All live ports.
    pub fn ports(&self) -> &PortTable
        ensures { result.now ≡ table_of self.now }
    {
        &self.table
    }

    /// A new port of the class, under the next number; its receive right is nowhere yet. Refused
    /// exactly where there are as many live ports, or births have been, as there may be.
    pub fn birth(&mut self, class: ClassId) -> Result<PortId, OrMemory<Shortage>>
        ensures born { OnOk result
            (self.new ≡ store_of self.old.spaces (with_birth (table_of self.old) class)) }
        ensures number { IfOk result (λ port. port ≡ self.old.next) }
        ensures short { IsErrAnd result IsFault ↔ IsTrue (is_short (table_of self.old)) }
        ensures err { OnErr result (self.new ≡ self.old) }
    {
        self.table.birth(class)
    }

    /// Sets how many messages the queue of a port takes. Refused exactly where no live port has
    /// this number.
    pub fn set_limit(&mut self, port: PortId, limit: u32) -> Result<(), NoSuchPort>
        ensures limit { (x : TPort) → get self.old.ports port ≡ Some x
            → IsOk result × (self.new ≡ set_port self.old port (record x { limit = limit })) }
        ensures absent { get self.old.ports port ≡ None → IsErr result × (self.new ≡ self.old) }
    {
        self.table.set_limit(port, limit)
    }

    /// Replaces the port-destroyed request of a port. Refused exactly where no live port has this
    /// number.
    pub fn set_backup(&mut self, port: PortId, backup: Backup) -> Result<(), NoSuchPort>
        ensures backup { (x : TPort) → get self.old.ports port ≡ Some x
            → IsOk result × (self.new ≡ set_port self.old port (record x { backup = backup })) }
        ensures absent { get self.old.ports port ≡ None → IsErr result × (self.new ≡ self.old) }
    {
        self.table.set_backup(port, backup)
    }

    /// All ports of a set leave with their queues; names, requests and rights in transit on them
    /// turn dead. It takes no memory.
    pub fn bury_all(&mut self, dead: &Ports)
        ensures { self.new ≡ bury self.old dead.now }
    {
        if dead.len() == 0 {
            return;
        }
        bury_spaces(&mut self.spaces, dead);
        self.table.bury_all(dead);
    }

    /// The receipts of a port are 0 again, as its receive right has moved. Nothing where no live
    /// port has this number.
    pub fn restart(&mut self, port: PortId)
        ensures { self.new ≡ restart self.old port }
    {
        self.table.restart(port);
    }

    /// A message with its own room on a queue; if memory runs out the message comes back.
    pub fn ready(&self, parcel: Parcel) -> Result<Ready, AllocFailed<Parcel>>
        ensures ok { IfOk result (λ ready. ready ≡ parcel) }
        ensures returned { IfErr result (λ refused. refused.value ≡ parcel) }
    {
        self.table.ready(parcel)
    }

    /// Puts a message at the end of a port's queue. Refused if no live port has this number, if the
    /// queue is full for the message, or if 2^62 messages wait. It takes no memory.
    pub fn enqueue(&mut self, port: PortId, ready: Ready) -> Result<(), NotQueued>
        ensures queued { (x : TPort) → get self.old.ports port ≡ Some x
            → is_full_for x ready.by_once ≡ false
            → is_out_of_room x ≡ false
            → IsOk result × (self.new ≡ set_port self.old port (with_message x ready)) }
        ensures full { (x : TPort) → get self.old.ports port ≡ Some x
            → is_full_for x ready.by_once ≡ true
            → (result ≡ Err (Full ready)) × (self.new ≡ self.old) }
        ensures memory { (x : TPort) → get self.old.ports port ≡ Some x
            → is_full_for x ready.by_once ≡ false
            → is_out_of_room x ≡ true
            → (result ≡ Err (Memory ready)) × (self.new ≡ self.old) }
        ensures absent { get self.old.ports port ≡ None
            → (result ≡ Err (Absent ready)) × (self.new ≡ self.old) }
    {
        self.table.enqueue(port, ready)
    }

    /// Takes the first message off a port's queue, which counts as a receipt. None where no live
    /// port has this number, or no message waits.
    pub fn dequeue(&mut self, port: PortId) -> Option<Parcel>
        ensures { received_by self.old port ≡ (result, self.new) }
    {
        self.table.dequeue(port)
    }
}
