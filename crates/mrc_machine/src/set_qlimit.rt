//! How many messages a queue takes.

ghost use Rattle.std.specs.Prelude.{◌≡◌, Some, Ok, Err, OnOk, OnErr, IfErr, IsSome};
ghost use Rattle.mrc_model.specs.Map.{get};
ghost use Rattle.mrc_model.specs.Reply.{Done, Refused};
ghost use Rattle.mrc_model.specs.CallRequestNotification.{received_port};
ghost use Rattle.mrc_model.specs.CallSetQlimit.{call_set_qlimit};
ghost use Rattle.mrc_machine.specs.Calls.{Answers};
ghost use Rattle.mrc_machine.specs.Housing.{target_of};

use crate::refusal::Refusal;
use crate::reply::Reply;
use crate::state::State;
use mrc_base::{OrMemory, PortId, TaskId, limits};
use mrc_model::{Code, Entry};

/// The port of an entry's receive right.
pub(crate) fn received_port(entry: &Entry) -> Option<PortId>
    ensures { result ≡ received_port entry.now }
{
    match *entry {
        Entry::Receive { port, .. } => Some(port),
        _ => None,
    }
}

impl State {
    /// Sets how many messages the queue of a name's receive right takes.
    fn set_limit_in(
        &mut self,
        caller: TaskId,
        task: u32,
        target: TaskId,
        name: u32,
        limit: u32,
    ) -> Result<(), Code>
        requires target { target_of self.old caller task ≡ Some target }
        requires there { IsSome (get self.old.tasks target) }
        ensures ok { OnOk result
            (call_set_qlimit self.old caller task name limit ≡ Ok (self.new, Done)) }
        ensures refused { IfErr result
            (λ code. call_set_qlimit self.old caller task name limit ≡ Err (Refused code)) }
        ensures err { OnErr result (self.new ≡ self.old) }
    {
        if limit > limits::QUEUE {
            return Err(Code::KernInvalidValue);
        }
        let Some(held) = self.space(target).get(name) else {
            return Err(Code::KernInvalidName);
        };
        let Some(port) = received_port(&held) else {
            return Err(Code::KernInvalidRight);
        };
        self.set_limit(port, limit)
    }

    /// Sets how many messages the queue of a task's receive right takes.
    #[tactic(auto, using(crate::proofs::QlimitLaws::limit_no_task))]
    pub(crate) fn set_qlimit(
        &mut self,
        caller: TaskId,
        task: u32,
        name: u32,
        limit: u32,
    ) -> Result<Reply, OrMemory<Refusal>>
        requires { IsSome (get self.old.tasks caller) }
        ensures { Answers result self.old self.new
            (call_set_qlimit self.old caller task name limit) }
    {
        let Some(target) = self.target(caller, task) else {
            return Err(OrMemory::Fault(Refusal::Refused(Code::KernInvalidTask)));
        };
        match self.set_limit_in(caller, task, target, name, limit) {
            Ok(()) => Ok(Reply::Done),
            Err(code) => Err(OrMemory::Fault(Refusal::Refused(code))),
        }
    }
}
