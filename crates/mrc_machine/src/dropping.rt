//! Dropping references of names, and whole names.

ghost use Rattle.std.specs.Prelude.{◌≡◌, Some, Ok, Err, OnOk, OnErr, IfErr, IsSome, IsOk};
ghost use Rattle.mrc_model.specs.Map.{get};
ghost use Rattle.mrc_model.specs.Reply.{Done, Refused};
ghost use Rattle.mrc_model.specs.Target.{with_store};
ghost use Rattle.mrc_model.specs.Destroyed.{destroyed};
ghost use Rattle.mrc_model.specs.CallDeallocate.{call_deallocate, call_destroy};
ghost use Rattle.mrc_model.specs.CallModRefs.{call_mod_refs};
ghost use Rattle.mrc_death.specs.Taking.{destroyed_of};
ghost use Rattle.mrc_names.specs.Refusals.{IsRefusal};
ghost use Rattle.mrc_machine.specs.Drops.{after_drop, IsDone};
ghost use Rattle.mrc_machine.specs.Calls.{Answers};
ghost use Rattle.mrc_machine.specs.Housing.{target_of};

use crate::refusal::{Refusal, refusal_of};
use crate::reply::Reply;
use crate::state::State;
use mrc_base::{OrMemory, Right, TaskId};
use mrc_death::Destroyed;
use mrc_model::Code;
use mrc_names::Dropped;
use std::alloc::AllocError;

impl State {
    /// Destroys what dropping references has left to be destroyed under a name of the task.
    fn finish_drop(&mut self, task: TaskId, name: u32, dropped: Dropped) -> Result<(), AllocError>
        ensures ok { OnOk result (self.new ≡ after_drop self.old task name dropped) }
        ensures err { OnErr result (self.new ≡ self.old) }
        ensures done { IsDone dropped → IsOk result }
    {
        match dropped {
            Dropped::References => Ok(()),
            Dropped::ReceiveRight => self.destroy(Destroyed::Receive { task, name }),
            Dropped::WholeEntry => self.destroy(Destroyed::Entry { task, name }),
        }
    }

    /// Drops one send or dead reference of a name, or destroys its send-once right.
    fn deallocate_in(
        &mut self,
        caller: TaskId,
        task: u32,
        target: TaskId,
        name: u32,
    ) -> Result<(), OrMemory<Code>>
        requires target { target_of self.old caller task ≡ Some target }
        requires there { IsSome (get self.old.tasks target) }
        ensures ok { OnOk result (call_deallocate self.old caller task name ≡ Ok (self.new, Done)) }
        ensures refused { IfErr result
            (λ e. IsRefusal e (call_deallocate self.old caller task name)) }
        ensures err { OnErr result (self.new ≡ self.old) }
    {
        let mut space = self.take_space(target);
        let answer = space.drop_reference(name);
        self.put_space(target, space);
        match answer {
            Ok(dropped) => {
                self.finish_drop(target, name, dropped)?;
                Ok(())
            }
            Err(code) => Err(OrMemory::Fault(code)),
        }
    }

    /// Changes the references of a name's right by a number.
    fn mod_refs_in(
        &mut self,
        caller: TaskId,
        task: u32,
        target: TaskId,
        name: u32,
        right: Right,
        delta: i32,
    ) -> Result<(), OrMemory<Code>>
        requires target { target_of self.old caller task ≡ Some target }
        requires there { IsSome (get self.old.tasks target) }
        ensures ok { OnOk result
            (call_mod_refs self.old caller task name right delta ≡ Ok (self.new, Done)) }
        ensures refused { IfErr result
            (λ e. IsRefusal e (call_mod_refs self.old caller task name right delta)) }
        ensures err { OnErr result (self.new ≡ self.old) }
    {
        let mut space = self.take_space(target);
        let answer = space.drop_refs(name, right, delta);
        self.put_space(target, space);
        match answer {
            Ok(dropped) => {
                self.finish_drop(target, name, dropped)?;
                Ok(())
            }
            Err(code) => Err(OrMemory::Fault(code)),
        }
    }

    /// Destroys a name with all its rights.
    fn destroy_in(
        &mut self,
        caller: TaskId,
        task: u32,
        target: TaskId,
        name: u32,
    ) -> Result<(), OrMemory<Code>>
        requires target { target_of self.old caller task ≡ Some target }
        requires there { IsSome (get self.old.tasks target) }
        ensures ok { OnOk result (call_destroy self.old caller task name ≡ Ok (self.new, Done)) }
        ensures refused { IfErr result (λ e. IsRefusal e (call_destroy self.old caller task name)) }
        ensures err { OnErr result (self.new ≡ self.old) }
    {
        if self.space(target).get(name).is_none() {
            return Err(OrMemory::Fault(Code::KernInvalidName));
        }
        self.destroy(Destroyed::Entry { task: target, name })?;
        Ok(())
    }

    /// Drops one reference of a task's name.
    #[tactic(auto, using(crate::proofs::DropLaws::deallocate_no_task))]
    pub(crate) fn deallocate(
        &mut self,
        caller: TaskId,
        task: u32,
        name: u32,
    ) -> Result<Reply, OrMemory<Refusal>>
        requires { IsSome (get self.old.tasks caller) }
        ensures { Answers result self.old self.new (call_deallocate self.old caller task name) }
    {
        let Some(target) = self.target(caller, task) else {
            return Err(OrMemory::Fault(Refusal::Refused(Code::KernInvalidTask)));
        };
        match self.deallocate_in(caller, task, target, name) {
            Ok(()) => Ok(Reply::Done),
            Err(fault) => Err(refusal_of(fault)),
        }
    }

    /// Destroys a name of a task.
    #[tactic(auto, using(crate::proofs::DropLaws::destroy_no_task))]
    pub(crate) fn destroy_name(
        &mut self,
        caller: TaskId,
        task: u32,
        name: u32,
    ) -> Result<Reply, OrMemory<Refusal>>
        requires { IsSome (get self.old.tasks caller) }
        ensures { Answers result self.old self.new (call_destroy self.old caller task name) }
    {
        let Some(target) = self.target(caller, task) else {
            return Err(OrMemory::Fault(Refusal::Refused(Code::KernInvalidTask)));
        };
        match self.destroy_in(caller, task, target, name) {
            Ok(()) => Ok(Reply::Done),
            Err(fault) => Err(refusal_of(fault)),
        }
    }

    /// Changes the references of a right of a task's name by a number.
    #[tactic(auto, using(crate::proofs::DropLaws::mod_refs_no_task))]
    pub(crate) fn mod_refs(
        &mut self,
        caller: TaskId,
        task: u32,
        name: u32,
        right: Right,
        delta: i32,
    ) -> Result<Reply, OrMemory<Refusal>>
        requires { IsSome (get self.old.tasks caller) }
        ensures { Answers result self.old self.new
            (call_mod_refs self.old caller task name right delta) }
    {
        let Some(target) = self.target(caller, task) else {
            return Err(OrMemory::Fault(Refusal::Refused(Code::KernInvalidTask)));
        };
        match self.mod_refs_in(caller, task, target, name, right, delta) {
            Ok(()) => Ok(Reply::Done),
            Err(fault) => Err(refusal_of(fault)),
        }
    }
}
