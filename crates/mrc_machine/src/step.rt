//! One call of a live task.

ghost use Rattle.std.specs.Prelude.{IsSome};
ghost use Rattle.mrc_model.specs.Map.{get};
ghost use Rattle.mrc_model.specs.Step.{try_call};
ghost use Rattle.mrc_wiring.specs.Table.{wiring_of};
ghost use Rattle.mrc_machine.specs.Calls.{Answers, call_of};

use crate::call::Call;
use crate::refusal::Refusal;
use crate::reply::Reply;
use crate::state::State;
use mrc_base::{OrMemory, TaskId};
use mrc_wiring::Wired;

impl State {
    /// One call of a live task, or why it is refused. The function of a call on a task finds that
    /// task before anything else (`target`).
    pub(crate) fn call(
        &mut self,
        wired: &Wired,
        caller: TaskId,
        call: &Call,
    ) -> Result<Reply, OrMemory<Refusal>>
        requires { IsSome (get self.old.tasks caller) }
        ensures { Answers result self.old self.new
            (try_call (wiring_of wired.now) self.old caller (call_of call.now)) }
    {
        match *call {
            Call::Send(ref message) => self.send(wired, caller, message),
            Call::Receive { name, limit } => self.receive(caller, name, limit),
            Call::Allocate { task, right, kind } => self.allocate(wired, caller, task, right, kind),
            Call::GetRefs { task, name, right } => self.get_refs(caller, task, name, right),
            Call::InsertRight {
                task,
                name,
                right,
                disp,
            } => self.insert_right(wired, caller, task, name, right, disp),
            Call::ExtractRight { task, name, disp } => {
                self.extract_right(wired, caller, task, name, disp)
            }
            Call::SetQlimit { task, name, limit } => self.set_qlimit(caller, task, name, limit),
            Call::PortType { task, name } => self.port_type(caller, task, name),
            Call::Names { task } => self.names(caller, task),
            Call::Rename { task, old, new } => self.rename(caller, task, old, new),
            Call::MoveMember { task, member, set } => self.move_member(caller, task, member, set),
            Call::RequestNotification {
                task,
                name,
                id,
                sync,
                notify,
                disp,
            } => self.request_notification(wired, caller, task, name, id, sync, notify, disp),
            Call::Deallocate { task, name } => self.deallocate(caller, task, name),
            Call::Destroy { task, name } => self.destroy_name(caller, task, name),
            Call::ModRefs {
                task,
                name,
                right,
                delta,
            } => self.mod_refs(caller, task, name, right, delta),
            Call::Terminate { task } => self.terminate(caller, task),
            Call::CreateTask { task } => self.create_task(caller, task),
        }
    }
}
