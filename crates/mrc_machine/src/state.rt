//! All tasks and the store, with what every call needs of them.

ghost use Rattle.std.specs.Prelude.{◌≡◌, false, map, option_map, Some, None, Ok, Err, IfOk};
ghost use Rattle.std.specs.Prelude.{OnOk, OnErr, IfSome, IsSome};
ghost use Rattle.std.specs.Prelude.{IfErr, is_some, nat_lt};
ghost use Rattle.mrc_model.specs.declared.Entry.TheVariants.{Receive as ReceiveEntry};
ghost use Rattle.mrc_model.specs.declared.Entry.TheVariants.{Send as SendEntry};
ghost use Rattle.mrc_model.specs.CallCreateTask.{limit_of_task_numbers};
ghost use Rattle.mrc_model.specs.Rights.{is_receive};
ghost use Rattle.mrc_model.specs.Map.{empty, get, insert, len, next_key};
ghost use Rattle.mrc_model.specs.World.{space, task_class, Task as TTask};
ghost use Rattle.mrc_model.specs.Trust.{may_on};
ghost use Rattle.mrc_model.specs.Space.{is_full, unused, put_entry, restart_if};
ghost use Rattle.mrc_index.specs.Undo.{CanPut};
ghost use Rattle.mrc_model.specs.Reply.{Refused};
ghost use Rattle.mrc_model.specs.First.{no_world};
ghost use Rattle.mrc_model.specs.CallAllocate.{birth};
ghost use Rattle.mrc_model.specs.Target.{is_alive, first_task, kernel_right};
ghost use Rattle.mrc_model.specs.Target.{with_space, with_store};
ghost use Rattle.mrc_names.specs.Listings.{entry_name};
ghost use Rattle.mrc_ports.specs.Tables.{table_of, store_of, with_birth, with_home, is_short};
ghost use Rattle.mrc_model.specs.Breach.{holdings};
ghost use Rattle.mrc_machine.specs.Holdings.{holdings_of};
ghost use Rattle.mrc_machine.specs.Housing.{AreByKernel, kernel_place, target_of};
ghost use Rattle.mrc_names.specs.Refusals.{IsRefusal};
ghost use Rattle.mrc_machine.specs.Moves.{limited};
ghost use Rattle.mrc_machine.specs.Requests.{with_backup};
ghost use Rattle.mrc_machine.specs.Endings.{with_end};
ghost use Rattle.mrc_machine.specs.Breaching.{is_reached};
ghost use Rattle.mrc_model.specs.Destroyed.{destroyed};
ghost use Rattle.mrc_death.specs.Taking.{destroyed_of};
ghost use Rattle.mrc_machine.specs.Starts.{with_right};
ghost use Rattle.mrc_machine.specs.Housing.{kernel_class_of};
ghost use Rattle.mrc_model.specs.CallCreateTask.{with_task};
ghost use Rattle.mrc_map.specs.Entries.{below};
ghost use Rattle.mrc_wiring.specs.Table.{wiring_of};

use crate::holding::{Holding, spaces_holdings};
use crate::task::Task;
use mrc_base::{ClassId, OrMemory, PortId, PortRight, TaskId};
use mrc_death::{Destroyed, dying};
use mrc_map::{Map, Ports};
use mrc_model::{Backup, Code, Entry, Item, Verb};
use mrc_names::{Listing, Space};
use mrc_ports::Store;
use mrc_transit::{Scratch, may_item};
use mrc_wiring::Wired;
use std::alloc::{AllocError, Global};
use std::marker::Model;

/// All tasks, and the store with their spaces and all ports; and room for what the names of one
/// message give, so that no message takes memory to be judged. Each task has a space, and of two
/// tasks the later one's kernel port was born later.
#[derive(Debug, Drop)]
pub(crate) struct State {
    pub(crate) alloc: Global,
    tasks: Map<Task>,
    pub(crate) store: Store,
    pub(crate) scratch: Scratch,
}

impl Model for State {
    ghost use Rattle.mrc_model.specs.World.{World};
    ghost use Rattle.mrc_model.specs.Breach.{holdings};
    ghost use Rattle.mrc_machine.specs.Holdings.{holdings_of};
    ghost use Rattle.mrc_machine.specs.Housing.{IsHoused};

    ghost Value = { World };

    ghost view = { λ a. record { tasks = a.tasks; store = a.store } };

    ghost invariant = { λ a. IsHoused record { tasks = a.tasks; store = a.store } };
}

/// How many of these tasks have an earlier kernel port.
fn kernel_place(tasks: &[(u64, Task)], port: PortId) -> usize
    requires { AreByKernel 0 tasks.now }
    ensures { result ≡ kernel_place port tasks.now }
{
    let number = port.0;
    tasks.partition_point(
        |task: &(u64, Task)| -> bool
            ensures { result ≡ nat_lt task.now.1.kernel number }
        { task.1.kernel().0 < number },
    )
}

/// The first of these tasks that is alive and has this kernel port. They stand in the order of
/// their kernel ports, so not all are looked at.
fn first_task(tasks: &[(u64, Task)], port: PortId) -> Option<u64>
    requires { AreByKernel 0 tasks.now }
    ensures { result ≡ first_task port tasks.now }
{
    let task = tasks.get(kernel_place(tasks, port))?;
    if task.1.has_kernel(port) {
        Some(task.0)
    } else {
        None
    }
}

/// The port of an entry's send right.
fn kernel_right(entry: Option<Entry>) -> Option<PortId>
    ensures { result ≡ kernel_right entry }
{
    match entry? {
        Entry::Receive { port, sends, .. } if 0 < sends => Some(port),
        Entry::Send { port, .. } => Some(port),
        _ => None,
    }
}

/// A receive right alone, in no set.
fn received(port: PortId) -> Entry
    ensures { result ≡ ReceiveEntry port 0 None }
{
    Entry::Receive {
        port,
        sends: 0,
        in_set: None,
    }
}

/// A space for the next task, and its kernel port, of the class.
fn add_home(store: &mut Store, space: Space, class: ClassId) -> Result<(), AllocError>
    ensures added { OnOk result (store.new ≡ with_home store.old space class) }
    ensures err { OnErr result (store.new ≡ store.old) }
{
    match store.add_task(space, class) {
        Ok(_) => Ok(()),
        Err(_) => Err(AllocError),
    }
}

impl State {
    /// No task and no port.
    pub(crate) fn new(alloc: Global) -> Result<State, AllocError>
        ensures { IfOk result (λ state. state ≡ no_world) }
    {
        let scratch = Scratch::new(alloc)?;
        Ok(State {
            alloc,
            tasks: Map::new(alloc),
            store: Store::new(alloc),
            scratch,
        })
    }

    /// Whether the number is that of a live task.
    pub(crate) fn is_alive(&self, task: TaskId) -> bool
        ensures exact { result ≡ is_alive (get self.now.tasks task) }
    {
        match self.tasks.get(u64::from(task.0)) {
            Some(found) => found.is_alive(),
            None => false,
        }
    }

    /// Whether there is a task of this number, alive or ended.
    pub(crate) fn has_task(&self, task: TaskId) -> bool
        ensures exact { result ≡ is_some (get self.now.tasks task) }
    {
        self.tasks.get(u64::from(task.0)).is_some()
    }

    /// Whether a task is alive and its kernel port one of these.
    pub(crate) fn is_reached(&self, ports: &Ports, task: TaskId) -> bool
        ensures { result ≡ is_reached ports.now (get self.now.tasks task) }
    {
        match self.tasks.get(u64::from(task.0)) {
            Some(found) => found.is_alive() && ports.has(found.kernel()),
            None => false,
        }
    }

    /// The wired task whose class a task has.
    pub(crate) fn task_class(&self, task: TaskId) -> TaskId
        ensures { result ≡ task_class self.now task }
    {
        match self.tasks.get(u64::from(task.0)) {
            Some(found) => found.class(),
            None => task,
        }
    }

    /// Whether a task may do so by the verb to another with what is carried, in constant time. If
    /// both are of one class, it may do everything.
    pub(crate) fn may_on(
        &self,
        wired: &Wired,
        verb: Verb,
        caller: TaskId,
        target: TaskId,
        item: &Item,
    ) -> bool
        ensures { result ≡ may_on (wiring_of wired.now) self.now verb caller target item.now }
    {
        let own = self.task_class(caller);
        own.0 == self.task_class(target).0 || may_item(wired, &self.store, verb, own, item)
    }

    /// The space of a task.
    pub(crate) fn space(&self, task: TaskId) -> &Space
        requires { IsSome (get self.now.tasks task) }
        ensures { result.now ≡ space self.now.store task }
    {
        match self.store.space(task) {
            Some(space) => space,
            None => unreachable!(),
        }
    }

    /// The live task whose kernel port this is.
    fn task_of(&self, port: PortId) -> Option<TaskId>
        ensures exact { result ≡ first_task port self.now.tasks.list }
        ensures there { IfSome result (λ u. IsSome (get self.now.tasks u)) }
    {
        match first_task(self.tasks.entries(), port) {
            Some(task) => Some(TaskId(task as u32)),
            None => None,
        }
    }

    /// The live task for whose kernel port the caller has a send right under the name.
    pub(crate) fn target(&self, caller: TaskId, name: u32) -> Option<TaskId>
        requires { IsSome (get self.now.tasks caller) }
        ensures exact { result ≡ target_of self.now caller name }
        ensures there { IfSome result (λ u. IsSome (get self.now.tasks u)) }
    {
        match kernel_right(self.space(caller).get(name)) {
            Some(port) => self.task_of(port),
            None => None,
        }
    }

    /// All names of a task with their rights.
    pub(crate) fn listing(&self, task: TaskId) -> Result<Listing, AllocError>
        requires { IsSome (get self.now.tasks task) }
        ensures { IfOk result (λ names. names ≡ map entry_name (space self.now.store task).list) }
    {
        self.space(task).names(self.alloc)
    }

    /// Whether there are as many live ports, or births have been, as there may be.
    pub(crate) fn is_short(&self) -> bool
        ensures { result ≡ is_short (table_of self.now.store) }
    {
        self.store.ports().is_short()
    }

    /// How many live ports there are.
    pub(crate) fn live_ports(&self) -> usize
        ensures { result ≡ len self.now.store.ports }
    {
        self.store.ports().len()
    }

    /// What tasks hold.
    pub(crate) fn holdings(&self) -> Result<Vec<Holding>, AllocError>
        ensures { IfOk result (λ list. holdings_of list.items ≡ holdings self.now) }
    {
        let mut list = Vec::new(self.alloc);
        spaces_holdings(&mut list, self.store.spaces())?;
        Ok(list)
    }

    /// Puts another space in the place of a task's.
    pub(crate) fn put_space(&mut self, task: TaskId, space: Space)
        requires { IsSome (get self.old.tasks task) }
        ensures { self.new ≡ with_space self.old task space }
    {
        drop(self.store.put_space(task, space));
    }

    /// Takes the space of a task out, and leaves an empty one until it is put back.
    pub(crate) fn take_space(&mut self, task: TaskId) -> Space
        requires { IsSome (get self.old.tasks task) }
        ensures out { result ≡ space self.old.store task }
        ensures left { self.new ≡ with_space self.old task empty }
        ensures back { with_space self.old task result ≡ self.old }
    {
        let blank = Space::new(self.alloc);
        self.store.put_space(task, blank)
    }

    /// The port's receipts are 0 again, if it is the receive right that has moved.
    pub(crate) fn restart_moved(&mut self, right: PortRight, port: PortId)
        ensures { self.new ≡ with_store self.old
            (restart_if (is_receive right) self.old.store port) }
    {
        if let PortRight::Receive = right {
            self.store.restart(port);
        }
    }

    /// A name of a task has this from here on: nothing, or an entry of the same port and kind.
    pub(crate) fn leave(&mut self, task: TaskId, name: u32, rest: Option<Entry>)
        requires there { IsSome (get self.old.tasks task) }
        requires left { CanPut (space self.old.store task) name rest }
        ensures { self.new ≡ with_space self.old task
            (put_entry (space self.old.store task) name rest) }
    {
        let mut space = self.take_space(task);
        space.leave(name, rest);
        self.put_space(task, space);
    }

    /// Sets how many messages the queue of a port takes. Refused where no live port has this
    /// number.
    pub(crate) fn set_limit(&mut self, port: PortId, limit: u32) -> Result<(), Code>
        ensures ok { OnOk result (limited self.old port limit ≡ Ok self.new) }
        ensures refused { IfErr result (λ code. limited self.old port limit ≡ Err (Refused code)) }
        ensures err { OnErr result (self.new ≡ self.old) }
    {
        if self.store.set_limit(port, limit).is_err() {
            return Err(Code::KernInvalidName);
        }
        Ok(())
    }

    /// Replaces the port-destroyed request of a port. Nothing where no live port has this number.
    pub(crate) fn set_backup(&mut self, port: PortId, backup: &Backup)
        ensures { self.new ≡ with_store self.old
            (with_backup self.old.store port backup.now (get self.old.store.ports port)) }
    {
        let _ = self.store.set_backup(port, *backup);
    }

    /// Destroys something, with all that follows from it.
    pub(crate) fn destroy(&mut self, what: Destroyed) -> Result<(), AllocError>
        ensures ok { OnOk result (self.new ≡ with_store self.old
            (destroyed self.old.store (destroyed_of what))) }
        ensures err { OnErr result (self.new ≡ self.old) }
    {
        let plan = dying(self.alloc, &self.store, what)?;
        plan.apply(&mut self.store);
        Ok(())
    }

    /// The kernel port of a task.
    pub(crate) fn kernel(&self, task: TaskId) -> PortId
        requires { IsSome (get self.now.tasks task) }
        ensures { option_map (λ (x : TTask). x.kernel) (get self.now.tasks task) ≡ Some result }
    {
        match self.tasks.get(u64::from(task.0)) {
            Some(found) => found.kernel(),
            None => unreachable!(),
        }
    }

    /// The class of the kernel port of a task, if that is live.
    pub(crate) fn kernel_class(&self, task: TaskId) -> Option<ClassId>
        requires { IsSome (get self.now.tasks task) }
        ensures { result ≡ kernel_class_of self.now task }
    {
        match self.store.ports().get(self.kernel(task)) {
            Some(port) => Some(port.class()),
            None => None,
        }
    }

    /// The number that the next task gets. None where as many tasks have been as there may be.
    pub(crate) fn next_task(&self) -> Option<TaskId>
        ensures { result ≡ below limit_of_task_numbers (next_key self.now.tasks) }
    {
        self.store.next_task()
    }

    /// The next task, alive, of the class of a wired task, whose kernel port is new, and of this
    /// class. It has a send right to its kernel port under name 1.
    pub(crate) fn begin(
        &mut self,
        number: TaskId,
        wired: TaskId,
        class: ClassId,
    ) -> Result<(), AllocError>
        requires next { below limit_of_task_numbers (next_key self.old.tasks) ≡ Some number }
        requires short { is_short (table_of self.old.store) ≡ false }
        ensures ok { OnOk result (self.new ≡ with_task self.old number wired class) }
        ensures err { OnErr result (self.new ≡ self.old) }
    {
        let kernel = self.next_port();
        let space = self.first_space(kernel)?;
        let key = u64::from(number.0);
        self.tasks.insert(key, Task::new(kernel, wired))?;
        match add_home(&mut self.store, space, class) {
            Ok(()) => Ok(()),
            Err(error) => {
                self.tasks.remove(key);
                Err(error)
            }
        }
    }

    /// The task is no longer alive. Nothing where there is none of this number.
    pub(crate) fn end(&mut self, task: TaskId)
        ensures { self.new ≡ with_end self.old task (get self.old.tasks task) }
    {
        let key = u64::from(task.0);
        let Some(found) = self.tasks.get(key) else {
            return;
        };
        let ended = found.ended();
        self.tasks.set(key, ended);
    }

    /// What the type keeps: each task has a space in the store.
    pub(crate) fn housing(&self, task: TaskId)
        requires { IsSome (get self.now.tasks task) }
        ensures kept { IsSome (get self.now.store.spaces task) }
    {
        let _ = &self.store;
    }

    /// The number that the next birth gives.
    pub(crate) fn next_port(&self) -> PortId
        ensures { result ≡ self.now.store.next }
    {
        self.store.ports().next()
    }

    /// A new port of the class, whose receive right is nowhere yet.
    pub(crate) fn new_port(&mut self, class: ClassId) -> Result<(), AllocError>
        requires { is_short (table_of self.old.store) ≡ false }
        ensures ok { OnOk result (self.new ≡ with_store self.old
            (store_of self.old.store.spaces (with_birth (table_of self.old.store) class))) }
        ensures err { OnErr result (self.new ≡ self.old) }
    {
        match self.store.birth(class) {
            Ok(_) => Ok(()),
            Err(OrMemory::Memory) => Err(AllocError),
            Err(OrMemory::Fault(_)) => unreachable!(),
        }
    }

    /// A new port of the class, whose receive right stands in this space under the least unused
    /// name, which is answered.
    fn birth_in(&mut self, space: &mut Space, class: ClassId) -> Result<u32, AllocError>
        requires room { is_full space.old ≡ false }
        requires few { is_short (table_of self.old.store) ≡ false }
        ensures ok { OnOk result (self.new ≡ with_store self.old
            (store_of self.old.store.spaces (with_birth (table_of self.old.store) class))) }
        ensures space { OnOk result (space.new
            ≡ insert space.old (unused space.old) (ReceiveEntry self.old.store.next 0 None)) }
        ensures name { IfOk result (λ name. name ≡ unused space.old) }
        ensures err { OnErr result (self.new ≡ self.old) }
        ensures kept { OnErr result (space.new ≡ space.old) }
        ensures tasks { self.new.tasks ≡ self.old.tasks }
    {
        let name = match space.add(received(self.next_port())) {
            Ok(name) => name,
            Err(OrMemory::Memory) => return Err(AllocError),
            Err(OrMemory::Fault(_)) => unreachable!(),
        };
        match self.new_port(class) {
            Ok(()) => Ok(name),
            Err(error) => {
                let _ = space.remove(name);
                Err(error)
            }
        }
    }

    /// A new port of the class, whose receive right the task gets under the least unused name,
    /// which is answered.
    pub(crate) fn birth(&mut self, task: TaskId, class: ClassId) -> Result<u32, AllocError>
        requires there { IsSome (get self.old.tasks task) }
        requires room { is_full (space self.old.store task) ≡ false }
        requires few { is_short (table_of self.old.store) ≡ false }
        ensures ok { OnOk result
            (self.new ≡ with_store self.old (birth self.old.store task class)) }
        ensures name { IfOk result (λ name. name ≡ unused (space self.old.store task)) }
        ensures err { OnErr result (self.new ≡ self.old) }
    {
        let mut space = self.take_space(task);
        let born = self.birth_in(&mut space, class);
        self.put_space(task, space);
        born
    }

    /// The space of a new task: a send right to its kernel port under name 1.
    fn first_space(&self, kernel: PortId) -> Result<Space, AllocError>
        ensures { IfOk result (λ space. space ≡ insert empty 1 (SendEntry kernel 1)) }
    {
        let mut space = Space::new(self.alloc);
        match space.add(Entry::Send {
            port: kernel,
            sends: 1,
        }) {
            Ok(_) => Ok(space),
            Err(OrMemory::Memory) => Err(AllocError),
            Err(OrMemory::Fault(_)) => unreachable!(),
        }
    }

    /// Whether a live port has this number.
    pub(crate) fn is_live(&self, port: PortId) -> bool
        ensures { result ≡ is_some (get self.now.store.ports port) }
    {
        self.store.ports().get(port).is_some()
    }

    /// Gives a task a right, as a receiver gets it.
    pub(crate) fn give(
        &mut self,
        task: TaskId,
        port: PortId,
        right: PortRight,
    ) -> Result<(), OrMemory<Code>>
        requires { IsSome (get self.old.tasks task) }
        ensures ok { OnOk result (with_right self.old task port right ≡ Ok self.new) }
        ensures refused { IfErr result (λ e. IsRefusal e (with_right self.old task port right)) }
        ensures err { OnErr result (self.new ≡ self.old) }
    {
        let mut space = self.take_space(task);
        let given = space.copyout(port, right);
        self.put_space(task, space);
        given?;
        Ok(())
    }
}
