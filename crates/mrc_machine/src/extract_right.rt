//! Giving a right of a task to the caller.

ghost use Rattle.std.specs.Prelude.{◌≡◌, Some, Ok, OnErr, IfOk, IfErr, IsSome};
ghost use Rattle.mrc_model.specs.Map.{get};
ghost use Rattle.mrc_model.specs.Wiring.{Wiring};
ghost use Rattle.mrc_model.specs.World.{Space as TSpace, space};
ghost use Rattle.mrc_model.specs.Space.{put_entry};
ghost use Rattle.mrc_model.specs.Reply.{Name};
ghost use Rattle.mrc_model.specs.Target.{with_space};
ghost use Rattle.mrc_model.specs.CallInsertRight.{call_extract_right};
ghost use Rattle.mrc_index.specs.Undo.{CanPut};
ghost use Rattle.mrc_names.specs.Refusals.{IsRefusal};
ghost use Rattle.mrc_names.specs.Takes.{give_right};
ghost use Rattle.mrc_wiring.specs.Table.{wiring_of};
ghost use Rattle.mrc_machine.specs.Calls.{Answers, IsRefusedBy};
ghost use Rattle.mrc_machine.specs.Housing.{target_of};

use crate::refusal::{Refusal, refusal_of};
use crate::reply::Reply;
use crate::state::State;
use mrc_base::{Disp, OrMemory, PortId, PortRight, TaskId, give};
use mrc_model::{Code, Denied, Entry, Item, Verb};
use mrc_wiring::Wired;

impl State {
    /// Gives a task a right, as a receiver gets it: its name.
    fn copyout(
        &mut self,
        task: TaskId,
        port: PortId,
        right: PortRight,
    ) -> Result<u32, OrMemory<Code>>
        requires { IsSome (get self.old.tasks task) }
        ensures ok { IfOk result (λ name. (y : TSpace)
            × (give_right (space self.old.store task) port right ≡ Ok (y, name))
            × (self.new ≡ with_space self.old task y)) }
        ensures refused { IfErr result
            (λ e. IsRefusal e (give_right (space self.old.store task) port right)) }
        ensures err { OnErr result (self.new ≡ self.old) }
    {
        let mut space = self.take_space(task);
        let given = space.copyout(port, right);
        self.put_space(task, space);
        given
    }

    /// Gives a task a right, as a receiver gets it, once a name of it has no more than the rest:
    /// the right's name.
    fn exchange(
        &mut self,
        task: TaskId,
        name: u32,
        rest: Option<Entry>,
        port: PortId,
        right: PortRight,
    ) -> Result<u32, OrMemory<Code>>
        requires there { IsSome (get self.old.tasks task) }
        requires used { IsSome (get (space self.old.store task) name) }
        requires left { CanPut (space self.old.store task) name rest }
        ensures ok { IfOk result (λ given. (y : TSpace)
            × (give_right (put_entry (space self.old.store task) name rest) port right
            ≡ Ok (y, given))
            × (self.new ≡ with_space self.old task y)) }
        ensures refused { IfErr result (λ e. IsRefusal e
            (give_right (put_entry (space self.old.store task) name rest) port right)) }
        ensures err { OnErr result (self.new ≡ self.old) }
    {
        let mut space = self.take_space(task);
        let given = space.exchange(name, rest, port, right);
        self.put_space(task, space);
        given
    }

    /// Gives a right of another task to the caller, which has to be trusted to take it, and answers
    /// its name. What can fail comes first.
    fn extract_across(
        &mut self,
        wired: &Wired,
        caller: TaskId,
        task: u32,
        target: TaskId,
        name: u32,
        disp: Disp,
    ) -> Result<u32, OrMemory<Refusal>>
        requires caller { IsSome (get self.old.tasks caller) }
        requires target { target_of self.old caller task ≡ Some target }
        requires there { IsSome (get self.old.tasks target) }
        requires apart { caller ≡ target → ⊥ }
        ensures ok { IfOk result (λ given. call_extract_right (wiring_of wired.now) self.old caller
            task name disp ≡ Ok (self.new, Name given)) }
        ensures refused { IfErr result (λ e. IsRefusedBy e
            (call_extract_right (wiring_of wired.now) self.old caller task name disp)) }
        ensures err { OnErr result (self.new ≡ self.old) }
    {
        let (port, rest) = match self.space(target).parting(name, disp) {
            Ok(taken) => taken,
            Err(code) => return Err(OrMemory::Fault(Refusal::Refused(code))),
        };
        let right = give(disp);
        let item = Item::Right { port, right };
        if !self.may_on(wired, Verb::Takes, caller, target, &item) {
            return Err(OrMemory::Fault(Refusal::Denied(Denied::NotTaken)));
        }
        if self.space(caller).is_full() {
            return Err(OrMemory::Fault(Refusal::Refused(Code::KernNoSpace)));
        }
        let given = match self.copyout(caller, port, right) {
            Ok(given) => given,
            Err(fault) => return Err(refusal_of(fault)),
        };
        self.leave(target, name, rest);
        self.restart_moved(right, port);
        Ok(given)
    }

    /// Gives a right of the caller to the caller, and answers its name: no wiring limits that.
    fn extract_within(
        &mut self,
        caller: TaskId,
        task: u32,
        name: u32,
        disp: Disp,
    ) -> Result<u32, OrMemory<Refusal>>
        requires caller { IsSome (get self.old.tasks caller) }
        requires target { target_of self.old caller task ≡ Some caller }
        ensures ok { IfOk result (λ given. (W : Wiring)
            → call_extract_right W self.old caller task name disp ≡ Ok (self.new, Name given)) }
        ensures refused { IfErr result (λ e. (W : Wiring)
            → IsRefusedBy e (call_extract_right W self.old caller task name disp)) }
        ensures err { OnErr result (self.new ≡ self.old) }
    {
        let (port, rest) = match self.space(caller).parting(name, disp) {
            Ok(taken) => taken,
            Err(code) => return Err(OrMemory::Fault(Refusal::Refused(code))),
        };
        if self.space(caller).is_full_after(name, disp) {
            return Err(OrMemory::Fault(Refusal::Refused(Code::KernNoSpace)));
        }
        let right = give(disp);
        let given = match self.exchange(caller, name, rest, port, right) {
            Ok(given) => given,
            Err(fault) => return Err(refusal_of(fault)),
        };
        self.restart_moved(right, port);
        Ok(given)
    }

    /// Gives a right of a task to the caller, which has to be trusted to take it from tasks of
    /// other classes.
    #[tactic(auto, using(crate::proofs::MoveLaws::extract_no_task))]
    pub(crate) fn extract_right(
        &mut self,
        wired: &Wired,
        caller: TaskId,
        task: u32,
        name: u32,
        disp: Disp,
    ) -> Result<Reply, OrMemory<Refusal>>
        requires { IsSome (get self.old.tasks caller) }
        ensures { Answers result self.old self.new
            (call_extract_right (wiring_of wired.now) self.old caller task name disp) }
    {
        let Some(target) = self.target(caller, task) else {
            return Err(OrMemory::Fault(Refusal::Refused(Code::KernInvalidTask)));
        };
        if target.0 == caller.0 {
            let given = self.extract_within(caller, task, name, disp)?;
            return Ok(Reply::Name(given));
        }
        let given = self.extract_across(wired, caller, task, target, name, disp)?;
        Ok(Reply::Name(given))
    }
}
