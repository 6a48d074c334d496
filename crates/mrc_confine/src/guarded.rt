//! The machine that runs what was checked.

ghost use Rattle.std.specs.Prelude.{◌≡◌, ◌<◌, ◌↔◌, IfOk, IfErr, IsTrue, OnErr, is_some};
ghost use Rattle.mrc_model.specs.declared.Code.TheVariants.{MachRcvTimedOut};
ghost use Rattle.mrc_model.specs.Map.{get};
ghost use Rattle.mrc_model.specs.Reply.{ReceiveMessage, Refused};
ghost use Rattle.mrc_model.specs.Step.{step};
ghost use Rattle.mrc_machine.specs.Calls.{call_of, reply_of, IsRefused, IsGranted};
ghost use Rattle.mrc_machine.specs.Rooms.{size_of_call, Fits};
ghost use Rattle.mrc_confine.specs.Safety.{IsSafe};
ghost use Rattle.mrc_confine.specs.Guards.{IsGuarded, started, wiring_in};

use mrc_base::TaskId;
use mrc_check::Confined;
use mrc_machine::{Call, Reply, Room, World};
use std::alloc::{AllocError, Global};
use std::marker::Model;

/// The machine of an accepted case, and the case. At all times the accepted facts cover its world,
/// the world has no breach of the policy, and it has all tasks of the wiring.
#[derive(Debug, Drop)]
pub struct Guarded {
    confined: Confined,
    world: World,
}

impl Model for Guarded {
    ghost use Rattle.mrc_confine.specs.Guards.{Guard, IsGuarded};

    ghost Value = { Guard };

    ghost view = { λ g. record { confined = g.confined; world = g.world } };

    ghost invariant = { λ g. IsGuarded g.confined g.world };
}

impl Guarded {
    /// The machine in the first state of the wiring that was checked. If memory runs out, what was
    /// checked comes back.
    pub fn start(alloc: Global, confined: Confined) -> Result<Guarded, Confined>
        // Whether or not it starts: every list of calls from the first state, by tasks in any order
        // and with any arguments, ends in a world that the accepted facts cover and that has no
        // breach of the policy.
        ensures safe { IsSafe confined }
        ensures ok { IfOk result (λ guarded. guarded ≡ started confined) }
        ensures returned { IfErr result (λ back. back ≡ confined) }
    {
        let _tasks = confined.wired().tasks();
        match World::first(alloc, confined.wired()) {
            Ok(world) => Ok(Guarded { confined, world }),
            Err(_) => Err(confined),
        }
    }

    /// One call of a task, made whole: the reply, with the world as the call leaves it. A refusal
    /// leaves the world unchanged, and so does out of memory, which is reported only if the call is
    /// not refused.
    pub fn step(&mut self, caller: TaskId, call: &Call) -> Result<Reply, AllocError>
        ensures step { IfOk result (λ reply.
            step (wiring_in self.old.confined) self.old.world caller (call_of call.now)
            ≡ (self.new.world, reply_of reply)) }
        ensures confined { self.new.confined ≡ self.old.confined }
        ensures fits { IfOk result (λ reply.
            Fits (size_of_call self.old.world caller call.now) reply) }
        ensures refused { IfOk result (λ reply. IsRefused reply → self.new ≡ self.old) }
        ensures err { OnErr result (self.new ≡ self.old) }
        ensures last { OnErr result (IsGranted
            (wiring_in self.old.confined) self.old.world caller (call_of call.now)) }
    {
        self.world.step(self.confined.wired(), caller, call)
    }

    /// Room for what the call would be answered now.
    pub fn room(&self, alloc: Global, task: TaskId, call: &Call) -> Result<Room, AllocError>
        ensures { IfOk result (λ room. room ≡ size_of_call self.now.world task call.now) }
    {
        Room::for_call(alloc, &self.world, task, call)
    }

    /// Whether a receive by a name of the task would be refused because no message waits
    /// (MACH_RCV_TIMED_OUT). It takes no memory.
    pub fn would_wait(&self, task: TaskId, name: u32, limit: u32) -> bool
        ensures exact { IsTrue result
            ↔ (step (wiring_in self.now.confined) self.now.world task (ReceiveMessage name limit)
            ≡ (self.now.world, Refused MachRcvTimedOut)) }
    {
        self.world.would_wait(task, name, limit)
    }

    /// Whether the machine has a task of this number now, alive or ended.
    pub fn has_task(&self, task: TaskId) -> bool
        ensures exact { result ≡ is_some (get self.now.world.tasks task) }
        // A wired task is there at all times.
        ensures wired { task < (wiring_in self.now.confined).tasks → IsTrue result }
    {
        self.world.has_task(task)
    }

    /// The world that the machine has come to.
    pub fn world(&self) -> &World
        ensures exact { result.now ≡ self.now.world }
        // It is well formed, the accepted facts cover it, it has no breach of the policy, and it
        // has all tasks of the wiring.
        ensures kept { IsGuarded self.now.confined self.now.world }
    {
        &self.world
    }

    /// What was checked.
    pub fn confined(&self) -> &Confined
        ensures { result.now ≡ self.now.confined }
    {
        &self.confined
    }

    /// What was checked, by itself.
    pub fn into_confined(self) -> Confined
        ensures { result ≡ self.confined }
    {
        let Guarded { confined, world } = self;
        drop(world);
        confined
    }
}
