//! Sending a message.

ghost use Rattle.std.specs.Prelude.{◌≡◌, Ok, OnOk, OnErr, IfErr};
ghost use Rattle.mrc_model.specs.World.{task_class};
ghost use Rattle.mrc_model.specs.Reply.{Done};
ghost use Rattle.mrc_model.specs.CallSend.{call_send};
ghost use Rattle.mrc_wiring.specs.Table.{wiring_of};
ghost use Rattle.mrc_transit.specs.SendPlans.{IsSendAnswer};
ghost use Rattle.mrc_machine.specs.Calls.{Answers};

use crate::refusal::Refusal;
use crate::reply::Reply;
use crate::state::State;
use mrc_base::{OrMemory, TaskId};
use mrc_desc::Message;
use mrc_transit::{SendFault, copy_in};
use mrc_wiring::Wired;

impl State {
    /// Sends a message of a task, which is of class `own`.
    fn send_as(
        &mut self,
        wired: &Wired,
        own: TaskId,
        task: TaskId,
        message: &Message,
    ) -> Result<(), OrMemory<SendFault>>
        requires { task_class self.old task ≡ own }
        ensures ok { OnOk result (call_send (wiring_of wired.now) self.old task message.now
            ≡ Ok (self.new, Done)) }
        ensures refused { IfErr result (λ fault.
            IsSendAnswer fault (call_send (wiring_of wired.now) self.old task message.now)) }
        ensures err { OnErr result (self.new ≡ self.old) }
    {
        let scratch = &mut self.scratch;
        let plan = copy_in(self.alloc, &self.store, wired, scratch, own, task, message)?;
        plan.apply(&mut self.store, &self.scratch);
        Ok(())
    }

    /// Sends a message of the caller.
    pub(crate) fn send(
        &mut self,
        wired: &Wired,
        caller: TaskId,
        message: &Message,
    ) -> Result<Reply, OrMemory<Refusal>>
        ensures { Answers result self.old self.new
            (call_send (wiring_of wired.now) self.old caller message.now) }
    {
        let own = self.task_class(caller);
        match self.send_as(wired, own, caller, message) {
            Ok(()) => Ok(Reply::Done),
            Err(OrMemory::Memory) => Err(OrMemory::Memory),
            Err(OrMemory::Fault(SendFault::Refused(code))) => {
                Err(OrMemory::Fault(Refusal::Refused(code)))
            }
            Err(OrMemory::Fault(SendFault::Denied(denied))) => {
                Err(OrMemory::Fault(Refusal::Denied(denied)))
            }
        }
    }
}
