//! The rights of a name.

ghost use Rattle.std.specs.Prelude.{◌≡◌, Some, Ok, Err, IfOk, IfErr, IsSome};
ghost use Rattle.mrc_model.specs.Map.{get};
ghost use Rattle.mrc_model.specs.Reply.{Mask, Refused};
ghost use Rattle.mrc_model.specs.CallNames.{call_type};
ghost use Rattle.mrc_machine.specs.Calls.{Answers};
ghost use Rattle.mrc_machine.specs.Housing.{target_of};

use crate::refusal::Refusal;
use crate::reply::Reply;
use crate::state::State;
use mrc_base::{OrMemory, TaskId};
use mrc_model::Code;
use mrc_names::PortType;

impl State {
    /// The rights of a name.
    fn type_in(
        &self,
        caller: TaskId,
        task: u32,
        target: TaskId,
        name: u32,
    ) -> Result<PortType, Code>
        requires target { target_of self.now caller task ≡ Some target }
        requires there { IsSome (get self.now.tasks target) }
        ensures ok { IfOk result
            (λ rights. call_type self.now caller task name ≡ Ok (self.now, Mask rights.0)) }
        ensures refused { IfErr result
            (λ code. call_type self.now caller task name ≡ Err (Refused code)) }
    {
        let Some(rights) = self.space(target).rights(name) else {
            return Err(Code::KernInvalidName);
        };
        Ok(rights)
    }

    /// The rights of a name of a task.
    #[tactic(auto, using(crate::proofs::AskingLaws::type_no_task))]
    pub(crate) fn port_type(
        &self,
        caller: TaskId,
        task: u32,
        name: u32,
    ) -> Result<Reply, OrMemory<Refusal>>
        requires { IsSome (get self.now.tasks caller) }
        ensures { Answers result self.now self.now (call_type self.now caller task name) }
    {
        let Some(target) = self.target(caller, task) else {
            return Err(OrMemory::Fault(Refusal::Refused(Code::KernInvalidTask)));
        };
        match self.type_in(caller, task, target, name) {
            Ok(rights) => Ok(Reply::Mask(rights.mask())),
            Err(code) => Err(OrMemory::Fault(Refusal::Refused(code))),
        }
    }
}
