//! Moving receive rights between port sets.

ghost use Rattle.std.specs.Prelude.{◌≡◌, Some, Ok, Err, OnOk, OnErr, IfErr, IsSome};
ghost use Rattle.mrc_model.specs.Map.{get};
ghost use Rattle.mrc_model.specs.Reply.{Done, Refused};
ghost use Rattle.mrc_model.specs.CallMoveMember.{call_move_member};
ghost use Rattle.mrc_machine.specs.Calls.{Answers};
ghost use Rattle.mrc_machine.specs.Housing.{target_of};

use crate::refusal::Refusal;
use crate::reply::Reply;
use crate::state::State;
use mrc_base::{OrMemory, TaskId};
use mrc_model::Code;

impl State {
    /// Moves a receive right into a set, out of the one that it is in; a set of 0 takes it out
    /// alone.
    fn move_member_in(
        &mut self,
        caller: TaskId,
        task: u32,
        target: TaskId,
        member: u32,
        set: u32,
    ) -> Result<(), Code>
        requires target { target_of self.old caller task ≡ Some target }
        requires there { IsSome (get self.old.tasks target) }
        ensures ok { OnOk result
            (call_move_member self.old caller task member set ≡ Ok (self.new, Done)) }
        ensures refused { IfErr result
            (λ code. call_move_member self.old caller task member set ≡ Err (Refused code)) }
        ensures err { OnErr result (self.new ≡ self.old) }
    {
        let mut space = self.take_space(target);
        let moved = space.move_member(member, set);
        self.put_space(target, space);
        moved
    }

    /// Moves a receive right of a task into a set, or out of its set.
    #[tactic(auto, using(crate::proofs::MoveMemberLaws::member_no_task))]
    pub(crate) fn move_member(
        &mut self,
        caller: TaskId,
        task: u32,
        member: u32,
        set: u32,
    ) -> Result<Reply, OrMemory<Refusal>>
        requires { IsSome (get self.old.tasks caller) }
        ensures { Answers result self.old self.new
            (call_move_member self.old caller task member set) }
    {
        let Some(target) = self.target(caller, task) else {
            return Err(OrMemory::Fault(Refusal::Refused(Code::KernInvalidTask)));
        };
        match self.move_member_in(caller, task, target, member, set) {
            Ok(()) => Ok(Reply::Done),
            Err(code) => Err(OrMemory::Fault(Refusal::Refused(code))),
        }
    }
}
