//! Room for the reply of a call, made beforehand.

ghost use Rattle.std.specs.Prelude.{◌≡◌, IfOk, IsSome};
ghost use Rattle.mrc_model.specs.Map.{get};
ghost use Rattle.mrc_machine.specs.Housing.{target_of};
ghost use Rattle.mrc_machine.specs.Rooms.{count_of_names, count_of_bytes, size_of_live};
ghost use Rattle.mrc_machine.specs.Rooms.{size_of_call};

use crate::call::Call;
use crate::state::State;
use crate::world::World;
use mrc_base::TaskId;
use mrc_names::NamesRoom;
use mrc_transit::{WrittenRoom, next_size};
use std::alloc::{AllocError, Global};
use std::marker::Model;

/// Room for a reply: for a number of names and a number of bytes.
#[derive(Debug, Drop)]
pub struct Room {
    pub(crate) names: NamesRoom,
    pub(crate) bytes: WrittenRoom,
}

impl Model for Room {
    ghost use Rattle.mrc_machine.specs.Rooms.{Size};

    ghost Value = { Size };

    ghost view = { λ a. record { names = a.names; bytes = a.bytes } };
}

impl Room {
    /// Makes room for what the call would be answered now: for the names that it asks for, or for
    /// the message that it would receive. For all other replies it takes no memory.
    pub fn for_call(
        alloc: Global,
        world: &World,
        caller: TaskId,
        call: &Call,
    ) -> Result<Room, AllocError>
        ensures { IfOk result (λ room. room ≡ size_of_call world.now caller call.now) }
    {
        let (names, bytes) = world.size_of_call(caller, call);
        Ok(Room {
            names: NamesRoom::new(alloc, names)?,
            bytes: WrittenRoom::new(alloc, bytes)?,
        })
    }
}

impl State {
    /// How many names the task has for whose kernel port the caller has a send right under the
    /// name. 0 if there is no such task.
    fn count_of_names(&self, caller: TaskId, task: u32) -> usize
        requires { IsSome (get self.now.tasks caller) }
        ensures { result ≡ count_of_names self.now (target_of self.now caller task) }
    {
        match self.target(caller, task) {
            Some(target) => self.space(target).len(),
            None => 0,
        }
    }

    /// How many bytes the message has that a receive by a name of the caller would answer. 0 if
    /// none waits, or it is larger than the limit.
    fn count_of_bytes(&self, caller: TaskId, name: u32, limit: u32) -> usize
        ensures { result ≡ count_of_bytes self.now caller name limit }
    {
        match next_size(&self.store, caller, name, limit) {
            Ok(size) => size,
            Err(_) => 0,
        }
    }

    /// How many names, and how many bytes, a call of a live task would be answered.
    pub(crate) fn size_of_live(&self, caller: TaskId, call: &Call) -> (usize, usize)
        requires { IsSome (get self.now.tasks caller) }
        ensures names { result.0 ≡ (size_of_live self.now caller call.now).names }
        ensures bytes { result.1 ≡ (size_of_live self.now caller call.now).bytes }
    {
        match *call {
            Call::Names { task } => (self.count_of_names(caller, task), 0),
            Call::Receive { name, limit } => (0, self.count_of_bytes(caller, name, limit)),
            _ => (0, 0),
        }
    }
}
