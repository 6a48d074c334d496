//! Receiving a message.

ghost use Rattle.std.specs.Prelude.{◌≡◌, ◌↔◌, Ok, Err, OnErr, IfOk, IfErr, IsTrue};
ghost use Rattle.mrc_model.specs.declared.Code.TheVariants.{MachRcvTimedOut};
ghost use Rattle.mrc_model.specs.Reply.{Bytes, Refused};
ghost use Rattle.mrc_model.specs.CallReceive.{call_receive};
ghost use Rattle.mrc_transit.specs.Receiving.{next_size};
ghost use Rattle.mrc_machine.specs.Calls.{Answers};

use crate::refusal::Refusal;
use crate::reply::Reply;
use crate::state::State;
use mrc_base::{OrMemory, TaskId};
use mrc_model::Code;
use mrc_transit::{ReceiveFault, next_size, receive};

impl State {
    /// Receives a message of at most `limit` bytes by a name of the caller: its bytes.
    pub(crate) fn receive(
        &mut self,
        caller: TaskId,
        name: u32,
        limit: u32,
    ) -> Result<Reply, OrMemory<Refusal>>
        ensures { Answers result self.old self.new (call_receive self.old caller name limit) }
    {
        match receive(self.alloc, &mut self.store, caller, name, limit) {
            Ok(bytes) => Ok(Reply::Message(bytes)),
            Err(OrMemory::Memory) => Err(OrMemory::Memory),
            Err(OrMemory::Fault(ReceiveFault::Refused(code))) => {
                Err(OrMemory::Fault(Refusal::Refused(code)))
            }
            Err(OrMemory::Fault(ReceiveFault::TooLarge(size))) => {
                Err(OrMemory::Fault(Refusal::TooLarge(size)))
            }
        }
    }

    /// Whether no message waits that a name of the caller receives.
    pub(crate) fn would_wait(&self, caller: TaskId, name: u32, limit: u32) -> bool
        ensures exact { IsTrue result
            ↔ (next_size self.now.store caller name limit ≡ Err (Refused MachRcvTimedOut)) }
    {
        match next_size(&self.store, caller, name, limit) {
            Ok(_) => false,
            Err(code) => code == Code::MachRcvTimedOut,
        }
    }
}
