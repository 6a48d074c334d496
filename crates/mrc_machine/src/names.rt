//! All names of a task.

ghost use Rattle.std.specs.Prelude.{◌≡◌, Some, Ok, IfOk, IfErr, IsSome};
ghost use Rattle.mrc_model.specs.Map.{get};
ghost use Rattle.mrc_model.specs.Reply.{Names};
ghost use Rattle.mrc_model.specs.CallNames.{call_names};
ghost use Rattle.mrc_names.specs.Refusals.{IsRefusal};
ghost use Rattle.mrc_machine.specs.Calls.{Answers};
ghost use Rattle.mrc_machine.specs.Housing.{target_of};

use crate::refusal::{Refusal, refusal_of};
use crate::reply::Reply;
use crate::state::State;
use mrc_base::{OrMemory, TaskId};
use mrc_model::Code;
use mrc_names::Listing;

impl State {
    /// All names of a task with their rights.
    fn names_in(&self, caller: TaskId, task: u32, target: TaskId) -> Result<Listing, OrMemory<Code>>
        requires target { target_of self.now caller task ≡ Some target }
        requires there { IsSome (get self.now.tasks target) }
        ensures ok { IfOk result
            (λ names. call_names self.now caller task ≡ Ok (self.now, Names names)) }
        ensures refused { IfErr result (λ e. IsRefusal e (call_names self.now caller task)) }
    {
        let names = self.listing(target)?;
        Ok(names)
    }

    /// All names of a task with their rights.
    #[tactic(auto, using(crate::proofs::AskingLaws::names_no_task))]
    pub(crate) fn names(&self, caller: TaskId, task: u32) -> Result<Reply, OrMemory<Refusal>>
        requires { IsSome (get self.now.tasks caller) }
        ensures { Answers result self.now self.now (call_names self.now caller task) }
    {
        let Some(target) = self.target(caller, task) else {
            return Err(OrMemory::Fault(Refusal::Refused(Code::KernInvalidTask)));
        };
        match self.names_in(caller, task, target) {
            Ok(names) => Ok(Reply::Names(names)),
            Err(fault) => Err(refusal_of(fault)),
        }
    }
}
