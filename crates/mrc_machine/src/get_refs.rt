//! How many references of a right a name has.

ghost use Rattle.std.specs.Prelude.{◌≡◌, Some, Ok, Err, IfOk, IfErr, IsSome};
ghost use Rattle.mrc_model.specs.Map.{get};
ghost use Rattle.mrc_model.specs.Reply.{Refs, Refused};
ghost use Rattle.mrc_model.specs.CallNames.{call_get_refs};
ghost use Rattle.mrc_machine.specs.Calls.{Answers};
ghost use Rattle.mrc_machine.specs.Housing.{target_of};

use crate::refusal::Refusal;
use crate::reply::Reply;
use crate::state::State;
use mrc_base::{OrMemory, Right, TaskId};
use mrc_model::Code;

impl State {
    /// The references of a right of a name.
    fn refs_in(
        &self,
        caller: TaskId,
        task: u32,
        target: TaskId,
        name: u32,
        right: Right,
    ) -> Result<u32, Code>
        requires target { target_of self.now caller task ≡ Some target }
        requires there { IsSome (get self.now.tasks target) }
        ensures ok { IfOk result
            (λ refs. call_get_refs self.now caller task name right ≡ Ok (self.now, Refs refs)) }
        ensures refused { IfErr result
            (λ code. call_get_refs self.now caller task name right ≡ Err (Refused code)) }
    {
        let Some(refs) = self.space(target).refs(name, right) else {
            return Err(Code::KernInvalidName);
        };
        Ok(refs)
    }

    /// Counts the references of a right of a task's name.
    #[tactic(auto, using(crate::proofs::AskingLaws::refs_no_task))]
    pub(crate) fn get_refs(
        &self,
        caller: TaskId,
        task: u32,
        name: u32,
        right: Right,
    ) -> Result<Reply, OrMemory<Refusal>>
        requires { IsSome (get self.now.tasks caller) }
        ensures { Answers result self.now self.now (call_get_refs self.now caller task name right) }
    {
        let Some(target) = self.target(caller, task) else {
            return Err(OrMemory::Fault(Refusal::Refused(Code::KernInvalidTask)));
        };
        match self.refs_in(caller, task, target, name, right) {
            Ok(refs) => Ok(Reply::Refs(refs)),
            Err(code) => Err(OrMemory::Fault(Refusal::Refused(code))),
        }
    }
}
