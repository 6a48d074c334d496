//! Ending tasks.

ghost use Rattle.std.specs.Prelude.{◌≡◌, Some, Ok, OnOk, OnErr, IfErr, IsSome};
ghost use Rattle.mrc_model.specs.Map.{get};
ghost use Rattle.mrc_model.specs.Reply.{Done};
ghost use Rattle.mrc_model.specs.CallTerminate.{call_terminate};
ghost use Rattle.mrc_names.specs.Refusals.{IsRefusal};
ghost use Rattle.mrc_machine.specs.Calls.{Answers};
ghost use Rattle.mrc_machine.specs.Housing.{target_of};

use crate::refusal::{Refusal, refusal_of};
use crate::reply::Reply;
use crate::state::State;
use mrc_base::{OrMemory, TaskId};
use mrc_death::Destroyed;
use mrc_model::Code;

impl State {
    /// Ends a task: its entries go with all their rights, and its kernel port dies.
    fn end_in(&mut self, caller: TaskId, task: u32, target: TaskId) -> Result<(), OrMemory<Code>>
        requires target { target_of self.old caller task ≡ Some target }
        requires there { IsSome (get self.old.tasks target) }
        ensures ok { OnOk result (call_terminate self.old caller task ≡ Ok (self.new, Done)) }
        ensures refused { IfErr result (λ e. IsRefusal e (call_terminate self.old caller task)) }
        ensures err { OnErr result (self.new ≡ self.old) }
    {
        let kernel = self.kernel(target);
        self.destroy(Destroyed::Task {
            task: target,
            kernel,
        })?;
        self.end(target);
        Ok(())
    }

    /// Ends a task.
    #[tactic(auto, using(crate::proofs::TerminateLaws::terminate_no_task))]
    pub(crate) fn terminate(
        &mut self,
        caller: TaskId,
        task: u32,
    ) -> Result<Reply, OrMemory<Refusal>>
        requires { IsSome (get self.old.tasks caller) }
        ensures { Answers result self.old self.new (call_terminate self.old caller task) }
    {
        let Some(target) = self.target(caller, task) else {
            return Err(OrMemory::Fault(Refusal::Refused(Code::KernInvalidArgument)));
        };
        match self.end_in(caller, task, target) {
            Ok(()) => Ok(Reply::Done),
            Err(fault) => Err(refusal_of(fault)),
        }
    }
}
