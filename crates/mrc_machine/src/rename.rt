//! Moving an entry to another name.

ghost use Rattle.std.specs.Prelude.{◌≡◌, Some, Ok, OnOk, OnErr, IfErr, IsSome};
ghost use Rattle.mrc_model.specs.Map.{get};
ghost use Rattle.mrc_model.specs.Reply.{Done};
ghost use Rattle.mrc_model.specs.CallRename.{call_rename};
ghost use Rattle.mrc_names.specs.Refusals.{IsRefusal};
ghost use Rattle.mrc_machine.specs.Calls.{Answers};
ghost use Rattle.mrc_machine.specs.Housing.{target_of};

use crate::refusal::{Refusal, refusal_of};
use crate::reply::Reply;
use crate::state::State;
use mrc_base::{OrMemory, TaskId};
use mrc_model::Code;

impl State {
    /// Moves an entry to an unused name.
    fn rename_in(
        &mut self,
        caller: TaskId,
        task: u32,
        target: TaskId,
        old: u32,
        new: u32,
    ) -> Result<(), OrMemory<Code>>
        requires target { target_of self.old caller task ≡ Some target }
        requires there { IsSome (get self.old.tasks target) }
        ensures ok { OnOk result (call_rename self.old caller task old new ≡ Ok (self.new, Done)) }
        ensures refused { IfErr result
            (λ e. IsRefusal e (call_rename self.old caller task old new)) }
        ensures err { OnErr result (self.new ≡ self.old) }
    {
        let mut space = self.take_space(target);
        let renamed = space.rename(old, new);
        self.put_space(target, space);
        renamed
    }

    /// Moves an entry of a task to an unused name.
    #[tactic(auto, using(crate::proofs::RenameLaws::rename_no_task))]
    pub(crate) fn rename(
        &mut self,
        caller: TaskId,
        task: u32,
        old: u32,
        new: u32,
    ) -> Result<Reply, OrMemory<Refusal>>
        requires { IsSome (get self.old.tasks caller) }
        ensures { Answers result self.old self.new (call_rename self.old caller task old new) }
    {
        let Some(target) = self.target(caller, task) else {
            return Err(OrMemory::Fault(Refusal::Refused(Code::KernInvalidTask)));
        };
        match self.rename_in(caller, task, target, old, new) {
            Ok(()) => Ok(Reply::Done),
            Err(fault) => Err(refusal_of(fault)),
        }
    }
}
