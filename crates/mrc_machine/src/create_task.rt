//! Making tasks.

ghost use Rattle.std.specs.Prelude.{◌≡◌, false, Some, Ok, OnErr, IfOk, IfErr, IsSome};
ghost use Rattle.mrc_model.specs.Map.{get};
ghost use Rattle.mrc_model.specs.Reply.{Created};
ghost use Rattle.mrc_model.specs.CallCreateTask.{call_create_task};
ghost use Rattle.mrc_names.specs.Refusals.{IsRefusal};
ghost use Rattle.mrc_model.specs.World.{Space as TSpace, space};
ghost use Rattle.mrc_model.specs.Space.{put_entry};
ghost use Rattle.mrc_model.specs.Target.{with_space};
ghost use Rattle.mrc_index.specs.Undo.{CanPut};
ghost use Rattle.mrc_names.specs.Takes.{give_right};
ghost use Rattle.mrc_machine.specs.Calls.{Answers};
ghost use Rattle.mrc_machine.specs.Housing.{target_of};

use crate::refusal::{Refusal, refusal_of};
use crate::reply::Reply;
use crate::state::State;
use mrc_base::{OrMemory, PortId, PortRight, TaskId};
use mrc_model::{Code, Entry};

impl State {
    /// Gives a task a right, as a receiver gets it: its name, and what stood there.
    fn give_noted(
        &mut self,
        task: TaskId,
        port: PortId,
        right: PortRight,
    ) -> Result<(u32, Option<Entry>), OrMemory<Code>>
        requires { IsSome (get self.old.tasks task) }
        ensures ok { IfOk result (λ s. (y : TSpace)
            × (give_right (space self.old.store task) port right ≡ Ok (y, s.0))
            × (put_entry y s.0 s.1 ≡ space self.old.store task)
            × CanPut y s.0 s.1
            × (self.new ≡ with_space self.old task y)) }
        ensures refused { IfErr result
            (λ e. IsRefusal e (give_right (space self.old.store task) port right)) }
        ensures err { OnErr result (self.new ≡ self.old) }
    {
        let mut space = self.take_space(task);
        let given = space.give(port, right);
        self.put_space(task, space);
        given
    }

    /// Makes a task from another one: its number, and the caller's name for its kernel port.
    fn create_from(
        &mut self,
        caller: TaskId,
        task: u32,
        target: TaskId,
    ) -> Result<(TaskId, u32), OrMemory<Code>>
        requires caller { IsSome (get self.old.tasks caller) }
        requires target { target_of self.old caller task ≡ Some target }
        requires there { IsSome (get self.old.tasks target) }
        ensures ok { IfOk result (λ child.
            call_create_task self.old caller task ≡ Ok (self.new, Created child.0 child.1)) }
        ensures refused { IfErr result (λ e. IsRefusal e (call_create_task self.old caller task)) }
        ensures err { OnErr result (self.new ≡ self.old) }
    {
        let Some(class) = self.kernel_class(target) else {
            return Err(OrMemory::Fault(Code::KernInvalidArgument));
        };
        if self.space(caller).is_full() {
            return Err(OrMemory::Fault(Code::KernNoSpace));
        }
        if self.is_short() {
            return Err(OrMemory::Fault(Code::KernResourceShortage));
        }
        let Some(number) = self.next_task() else {
            return Err(OrMemory::Fault(Code::KernResourceShortage));
        };
        self.housing(caller);
        let given = self.give_noted(caller, self.next_port(), PortRight::Send)?;
        let name = given.0;
        let former = given.1;
        match self.begin(number, self.task_class(target), class) {
            Ok(()) => Ok((number, name)),
            Err(_) => {
                self.leave(caller, name, former);
                Err(OrMemory::Memory)
            }
        }
    }

    /// Makes a task from another one.
    #[tactic(auto, using(crate::proofs::CreateLaws::create_no_task))]
    pub(crate) fn create_task(
        &mut self,
        caller: TaskId,
        task: u32,
    ) -> Result<Reply, OrMemory<Refusal>>
        requires { IsSome (get self.old.tasks caller) }
        ensures { Answers result self.old self.new (call_create_task self.old caller task) }
    {
        let Some(target) = self.target(caller, task) else {
            return Err(OrMemory::Fault(Refusal::Refused(Code::KernInvalidArgument)));
        };
        match self.create_from(caller, task, target) {
            Ok((task, name)) => Ok(Reply::Created { task, name }),
            Err(fault) => Err(refusal_of(fault)),
        }
    }
}
