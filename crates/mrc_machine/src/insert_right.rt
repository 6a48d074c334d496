//! Putting a right of the caller under a name of a task.

ghost use Rattle.std.specs.Prelude.{◌≡◌, ◌||◌, Some, Ok, OnOk, OnErr, IfOk, IfErr, IsSome};
ghost use Rattle.mrc_model.specs.Map.{get};
ghost use Rattle.mrc_model.specs.Wiring.{Wiring};
ghost use Rattle.mrc_model.specs.World.{Space as TSpace, space};
ghost use Rattle.mrc_model.specs.Space.{insert_at};
ghost use Rattle.mrc_model.specs.Reply.{Done};
ghost use Rattle.mrc_model.specs.Target.{is_reserved, with_space};
ghost use Rattle.mrc_model.specs.CallSend.{dead_taken, is_dead_taken};
ghost use Rattle.mrc_model.specs.CallInsertRight.{call_insert_right};
ghost use Rattle.mrc_names.specs.Refusals.{IsRefusal};
ghost use Rattle.mrc_wiring.specs.Table.{wiring_of};
ghost use Rattle.mrc_machine.specs.Calls.{Answers, IsRefusedBy};
ghost use Rattle.mrc_machine.specs.Housing.{target_of};
ghost use Rattle.mrc_machine.specs.Moves.{with_moved};

use crate::refusal::{Refusal, refusal_of};
use crate::reply::Reply;
use crate::state::State;
use mrc_base::{Disp, OrMemory, PortId, PortRight, TaskId, give};
use mrc_model::{Code, Denied, Entry, Item, Verb};
use mrc_wiring::Wired;

/// Whether the name stands for no entry: 0 is MACH_PORT_NULL, 0xffffffff MACH_PORT_DEAD.
fn is_reserved(name: u32) -> bool
    ensures { result ≡ is_reserved name }
{
    name == 0 || name == 0xffff_ffff
}

/// Whether the entry is a dead name, and the disposition moves or copies what it stands for.
pub(crate) fn gives_dead(entry: Option<Entry>, disp: Disp) -> bool
    ensures { result ≡ is_dead_taken (dead_taken entry disp) }
{
    match entry {
        Some(Entry::DeadName { .. }) => match disp {
            Disp::MoveSend | Disp::MoveSendOnce | Disp::CopySend => true,
            Disp::MoveReceive | Disp::MakeSend | Disp::MakeSendOnce => false,
        },
        _ => false,
    }
}

impl State {
    /// Whether the name of a task can give no right on a live port: it stands for no entry, or its
    /// entry gives a dead right.
    fn gives_none(&self, task: TaskId, name: u32, disp: Disp) -> bool
        requires { IsSome (get self.now.tasks task) }
        ensures { result ≡ (is_reserved name
            || is_dead_taken (dead_taken (get (space self.now.store task) name) disp)) }
    {
        is_reserved(name) || gives_dead(self.space(task).get(name), disp)
    }

    /// Puts a right on a port under a name of a task.
    fn insert_at(
        &mut self,
        task: TaskId,
        name: u32,
        port: PortId,
        right: PortRight,
    ) -> Result<(), OrMemory<Code>>
        requires { IsSome (get self.old.tasks task) }
        ensures ok { OnOk result ((y : TSpace)
            × (insert_at (space self.old.store task) name port right ≡ Ok y)
            × (self.new ≡ with_space self.old task y)) }
        ensures refused { IfErr result
            (λ e. IsRefusal e (insert_at (space self.old.store task) name port right)) }
        ensures err { OnErr result (self.new ≡ self.old) }
    {
        let mut space = self.take_space(task);
        let put = space.insert_at(name, port, right);
        self.put_space(task, space);
        put
    }

    /// Puts a right that is taken from a name of a task under a name of the same task: no wiring
    /// limits that.
    fn insert_within(
        &mut self,
        task: TaskId,
        from: u32,
        disp: Disp,
        name: u32,
    ) -> Result<(), OrMemory<Refusal>>
        requires { IsSome (get self.old.tasks task) }
        ensures ok { OnOk result ((W : Wiring)
            → with_moved W self.old task from disp task name ≡ Ok self.new) }
        ensures refused { IfErr result (λ e. (W : Wiring)
            → IsRefusedBy e (with_moved W self.old task from disp task name)) }
        ensures err { OnErr result (self.new ≡ self.old) }
    {
        let mut space = self.take_space(task);
        let moved = space.move_right(from, disp, name);
        self.put_space(task, space);
        let port = match moved {
            Ok(port) => port,
            Err(fault) => return Err(refusal_of(fault)),
        };
        self.restart_moved(give(disp), port);
        Ok(())
    }

    /// Puts a right that is taken from a name of a task under a name of another task, which the
    /// first has to be trusted to give. What can fail comes first.
    fn insert_across(
        &mut self,
        wired: &Wired,
        first: TaskId,
        from: u32,
        disp: Disp,
        second: TaskId,
        name: u32,
    ) -> Result<(), OrMemory<Refusal>>
        requires first { IsSome (get self.old.tasks first) }
        requires second { IsSome (get self.old.tasks second) }
        requires apart { second ≡ first → ⊥ }
        ensures ok { OnOk result (with_moved (wiring_of wired.now) self.old first from disp second
            name ≡ Ok self.new) }
        ensures refused { IfErr result (λ e. IsRefusedBy e
            (with_moved (wiring_of wired.now) self.old first from disp second name)) }
        ensures err { OnErr result (self.new ≡ self.old) }
    {
        let (port, rest) = match self.space(first).parting(from, disp) {
            Ok(taken) => taken,
            Err(code) => return Err(OrMemory::Fault(Refusal::Refused(code))),
        };
        let right = give(disp);
        let item = Item::Right { port, right };
        if !self.may_on(wired, Verb::Gives, first, second, &item) {
            return Err(OrMemory::Fault(Refusal::Denied(Denied::NotGiven)));
        }
        match self.insert_at(second, name, port, right) {
            Ok(()) => (),
            Err(fault) => return Err(refusal_of(fault)),
        }
        self.leave(first, from, rest);
        self.restart_moved(right, port);
        Ok(())
    }

    /// Puts a right of the caller under a name of the task, which the caller has to be trusted to
    /// give to tasks of other classes.
    fn insert_into(
        &mut self,
        wired: &Wired,
        caller: TaskId,
        task: u32,
        target: TaskId,
        name: u32,
        right: u32,
        disp: Disp,
    ) -> Result<(), OrMemory<Refusal>>
        requires caller { IsSome (get self.old.tasks caller) }
        requires target { target_of self.old caller task ≡ Some target }
        requires there { IsSome (get self.old.tasks target) }
        ensures ok { OnOk result (call_insert_right (wiring_of wired.now) self.old caller task name
            right disp ≡ Ok (self.new, Done)) }
        ensures refused { IfErr result (λ e. IsRefusedBy e
            (call_insert_right (wiring_of wired.now) self.old caller task name right disp)) }
        ensures err { OnErr result (self.new ≡ self.old) }
    {
        if is_reserved(name) {
            return Err(OrMemory::Fault(Refusal::Refused(Code::KernInvalidValue)));
        }
        if self.gives_none(caller, right, disp) {
            return Err(OrMemory::Fault(Refusal::Refused(Code::KernInvalidCapability)));
        }
        if target.0 == caller.0 {
            return self.insert_within(caller, right, disp, name);
        }
        self.insert_across(wired, caller, right, disp, target, name)
    }

    /// Puts a right of the caller under a name of a task.
    #[tactic(auto, using(crate::proofs::MoveLaws::insert_no_task))]
    pub(crate) fn insert_right(
        &mut self,
        wired: &Wired,
        caller: TaskId,
        task: u32,
        name: u32,
        right: u32,
        disp: Disp,
    ) -> Result<Reply, OrMemory<Refusal>>
        requires { IsSome (get self.old.tasks caller) }
        ensures { Answers result self.old self.new
            (call_insert_right (wiring_of wired.now) self.old caller task name right disp) }
    {
        let Some(target) = self.target(caller, task) else {
            return Err(OrMemory::Fault(Refusal::Refused(Code::KernInvalidTask)));
        };
        self.insert_into(wired, caller, task, target, name, right, disp)?;
        Ok(Reply::Done)
    }
}
