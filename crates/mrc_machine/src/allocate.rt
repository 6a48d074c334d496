//! Making ports, port sets and dead names.

ghost use Rattle.std.specs.Prelude.{◌≡◌, Some, Ok, OnErr, IfOk, IfErr, IsSome};
ghost use Rattle.mrc_model.specs.Map.{get};
ghost use Rattle.mrc_model.specs.World.{task_class};
ghost use Rattle.mrc_model.specs.Wiring.{births_class};
ghost use Rattle.mrc_model.specs.Reply.{Name};
ghost use Rattle.mrc_model.specs.CallAllocate.{call_allocate, allocate_port, allocate_entry};
ghost use Rattle.mrc_wiring.specs.Table.{wiring_of};
ghost use Rattle.mrc_names.specs.Refusals.{IsRefusal};
ghost use Rattle.mrc_machine.specs.Calls.{Answers};
ghost use Rattle.mrc_machine.specs.Housing.{target_of};

use crate::refusal::{Refusal, refusal_of};
use crate::reply::Reply;
use crate::state::State;
use mrc_base::{OrMemory, Right, TaskId};
use mrc_model::{Code, Entry};
use mrc_wiring::Wired;

impl State {
    /// A new port of the births of the task, of this kind, in its space.
    fn allocate_port(
        &mut self,
        wired: &Wired,
        task: TaskId,
        kind: u32,
    ) -> Result<u32, OrMemory<Code>>
        requires { IsSome (get self.old.tasks task) }
        ensures ok { IfOk result (λ name. allocate_port self.old task
            (births_class (wiring_of wired.now) (task_class self.old task) kind)
            ≡ Ok (self.new, Name name)) }
        ensures refused { IfErr result (λ e. IsRefusal e (allocate_port self.old task
            (births_class (wiring_of wired.now) (task_class self.old task) kind))) }
        ensures err { OnErr result (self.new ≡ self.old) }
    {
        let Some(class) = wired.births_class(self.task_class(task), kind) else {
            return Err(OrMemory::Fault(Code::KernInvalidValue));
        };
        if self.space(task).is_full() {
            return Err(OrMemory::Fault(Code::KernNoSpace));
        }
        if self.is_short() {
            return Err(OrMemory::Fault(Code::KernResourceShortage));
        }
        let name = self.birth(task, class)?;
        Ok(name)
    }

    /// A new entry that is no port's, in the space of the task. It has kind 0 alone.
    fn allocate_entry(
        &mut self,
        task: TaskId,
        kind: u32,
        entry: Entry,
    ) -> Result<u32, OrMemory<Code>>
        requires { IsSome (get self.old.tasks task) }
        ensures ok { IfOk result
            (λ name. allocate_entry self.old task kind entry ≡ Ok (self.new, Name name)) }
        ensures refused { IfErr result
            (λ e. IsRefusal e (allocate_entry self.old task kind entry)) }
        ensures err { OnErr result (self.new ≡ self.old) }
    {
        if kind != 0 {
            return Err(OrMemory::Fault(Code::KernInvalidValue));
        }
        let mut space = self.take_space(task);
        let added = space.add(entry);
        self.put_space(task, space);
        added
    }

    /// A new name: a receive right of a new port, an empty port set, or a dead name.
    fn allocate_in(
        &mut self,
        wired: &Wired,
        caller: TaskId,
        task: u32,
        target: TaskId,
        right: Right,
        kind: u32,
    ) -> Result<u32, OrMemory<Code>>
        requires target { target_of self.old caller task ≡ Some target }
        requires there { IsSome (get self.old.tasks target) }
        ensures ok { IfOk result (λ name.
            call_allocate (wiring_of wired.now) self.old caller task right kind
            ≡ Ok (self.new, Name name)) }
        ensures refused { IfErr result (λ e. IsRefusal e
            (call_allocate (wiring_of wired.now) self.old caller task right kind)) }
        ensures err { OnErr result (self.new ≡ self.old) }
    {
        match right {
            Right::Send | Right::SendOnce => Err(OrMemory::Fault(Code::KernInvalidValue)),
            Right::Receive => self.allocate_port(wired, target, kind),
            Right::PortSet => self.allocate_entry(target, kind, Entry::PortSet),
            Right::DeadName => self.allocate_entry(target, kind, Entry::DeadName { refs: 1 }),
        }
    }

    /// Makes a name of a task: a receive right of a new port, an empty port set, or a dead name.
    #[tactic(auto, using(crate::proofs::AllocateLaws::allocate_no_task))]
    pub(crate) fn allocate(
        &mut self,
        wired: &Wired,
        caller: TaskId,
        task: u32,
        right: Right,
        kind: u32,
    ) -> Result<Reply, OrMemory<Refusal>>
        requires { IsSome (get self.old.tasks caller) }
        ensures { Answers result self.old self.new
            (call_allocate (wiring_of wired.now) self.old caller task right kind) }
    {
        let Some(target) = self.target(caller, task) else {
            return Err(OrMemory::Fault(Refusal::Refused(Code::KernInvalidTask)));
        };
        match self.allocate_in(wired, caller, task, target, right, kind) {
            Ok(name) => Ok(Reply::Name(name)),
            Err(fault) => Err(refusal_of(fault)),
        }
    }
}
