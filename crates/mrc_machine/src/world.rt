//! The machine as its users see it: its first state, its steps, and what it shows.

ghost use Rattle.std.specs.Prelude.{◌≡◌, ◌↔◌, [], ◌∷◌, IfOk, IsTrue, OnErr, is_some};
ghost use Rattle.mrc_model.specs.Covers.{IsWellFormed};
ghost use Rattle.mrc_model.specs.Map.{get, len};
ghost use Rattle.mrc_model.specs.First.{first};
ghost use Rattle.mrc_model.specs.Step.{step};
ghost use Rattle.mrc_model.specs.declared.Code.TheVariants.{MachRcvTimedOut};
ghost use Rattle.mrc_model.specs.Reply.{ReceiveMessage, Refused};
ghost use Rattle.mrc_model.specs.Wiring.{Wiring};
ghost use Rattle.mrc_model.specs.Wiring.{numbers_of};
ghost use Rattle.mrc_wiring.specs.Table.{wiring_of};
ghost use Rattle.mrc_wiring.specs.Claims.{holding_of as forbidden_of};
ghost use Rattle.mrc_model.specs.Breach.{Breach, holdings};
ghost use Rattle.mrc_machine.specs.Holdings.{holdings_of};
ghost use Rattle.mrc_machine.specs.Calls.{call_of, reply_of, IsRefused, IsGranted};
ghost use Rattle.mrc_machine.specs.Rooms.{size_of_call, Fits};

use crate::call::Call;
use crate::first::built;
use crate::holding::Holding;
use crate::reply::Reply;
use crate::state::State;
use mrc_base::{OrMemory, TaskId};
use mrc_cover::{first_covered, step_covered};
use mrc_wiring::{ForbiddenLine, Wired};
use std::alloc::{AllocError, Global};
use std::marker::Model;

/// The machine: all tasks with their spaces, and all ports.
#[derive(Debug, Drop)]
pub struct World {
    state: State,
}

impl Model for World {
    ghost use Rattle.mrc_model.specs.World.{World};
    ghost use Rattle.mrc_model.specs.Covers.{HasSpaces};

    ghost Value = { World };

    ghost view = { λ a. a.state };

    ghost invariant = { λ a. HasSpaces a.state };
}

impl World {
    /// The first state of a wiring: what its lines make, one after the other.
    pub fn first(alloc: Global, wired: &Wired) -> Result<World, AllocError>
        ensures exact { IfOk result (λ world. world ≡ first (wiring_of wired.now)) }
        ensures well_formed { IfOk result (λ world.
            IsWellFormed (numbers_of (wiring_of wired.now)) world) }
    {
        first_covered();
        let _sound = wired.tasks();
        match built(alloc, wired) {
            Ok(start) => Ok(World {
                state: start.into_state(),
            }),
            Err(OrMemory::Memory) => Err(AllocError),
            Err(OrMemory::Fault(_)) => unreachable!(),
        }
    }

    /// One call of a task, made whole: the reply, with the machine as the call leaves it. A reply
    /// that is a refusal leaves it unchanged, and so does out of memory, which is reported only if
    /// the call is not refused.
    pub fn step(&mut self, wired: &Wired, caller: TaskId, call: &Call) -> Result<Reply, AllocError>
        ensures step { IfOk result (λ reply.
            step (wiring_of wired.now) self.old caller (call_of call.now)
            ≡ (self.new, reply_of reply)) }
        ensures fits { IfOk result (λ reply. Fits (size_of_call self.old caller call.now) reply) }
        ensures refused { IfOk result (λ reply. IsRefused reply → self.new ≡ self.old) }
        ensures err { OnErr result (self.new ≡ self.old) }
        ensures last { OnErr result
            (IsGranted (wiring_of wired.now) self.old caller (call_of call.now)) }
        ensures well_formed { IsWellFormed (numbers_of (wiring_of wired.now)) self.old
            → IsWellFormed (numbers_of (wiring_of wired.now)) self.new }
    {
        step_covered();
        if !self.state.is_alive(caller) {
            return Ok(Reply::DeadTask);
        }
        match self.state.call(wired, caller, call) {
            Ok(reply) => Ok(reply),
            Err(OrMemory::Fault(refusal)) => Ok(refusal.reply()),
            Err(OrMemory::Memory) => Err(AllocError),
        }
    }

    /// How many names, and how many bytes, a call of a task would be answered.
    pub(crate) fn size_of_call(&self, caller: TaskId, call: &Call) -> (usize, usize)
        ensures names { result.0 ≡ (size_of_call self.now caller call.now).names }
        ensures bytes { result.1 ≡ (size_of_call self.now caller call.now).bytes }
    {
        if self.state.is_alive(caller) {
            self.state.size_of_live(caller, call)
        } else {
            (0, 0)
        }
    }

    /// Whether a receive by a name of the task would be refused because no message waits
    /// (MACH_RCV_TIMED_OUT). It takes no memory.
    pub fn would_wait(&self, task: TaskId, name: u32, limit: u32) -> bool
        // A receive needs no wiring, so this holds for every one.
        ensures exact { (W : Wiring) → IsTrue result
            ↔ (step W self.now task (ReceiveMessage name limit)
            ≡ (self.now, Refused MachRcvTimedOut)) }
    {
        self.state.is_alive(task) && self.state.would_wait(task, name, limit)
    }

    /// Whether there is a task of this number, alive or ended: a wired one, or one that a call has
    /// made.
    pub fn has_task(&self, task: TaskId) -> bool
        ensures exact { result ≡ is_some (get self.now.tasks task) }
    {
        self.state.has_task(task)
    }

    /// What tasks hold, by task and name: receive and send each once for an entry that has them,
    /// whatever the number of references, and once for each send-once right.
    pub fn holdings(&self) -> Result<Vec<Holding>, AllocError>
        ensures { IfOk result (λ list. holdings_of list.items ≡ holdings self.now) }
    {
        self.state.holdings()
    }

    /// Whether the line of a policy is broken: a task of the line's class counts as one that holds
    /// the right on a port of the line's class.
    pub fn breach(&self, wired: &Wired, line: &ForbiddenLine) -> Result<bool, AllocError>
        ensures exact { IfOk result (λ broken. IsTrue broken
            ↔ Breach (wiring_of wired.now) self.now (forbidden_of line.now ∷ [])) }
    {
        self.state.breach(wired, line)
    }

    /// How many live ports there are.
    pub fn live_ports(&self) -> usize
        ensures { result ≡ len self.now.store.ports }
    {
        self.state.live_ports()
    }
}
