//! What the journal and a seat keep.

ghost use Rattle.std.specs.Prelude.{◌≡◌};

use mrc_base::TaskId;
use mrc_machine::{Call, Reply};
use std::marker::Model;

/// One call of one seat, with its reply.
#[derive(Debug, Drop)]
pub struct Event {
    /// The seat's number.
    pub seat: u32,
    /// The seat's task, which called.
    pub task: TaskId,
    /// The call.
    pub call: Call,
    /// What the task was told.
    pub reply: Reply,
}

/// What a seat keeps of one of its calls.
#[derive(Debug, Drop)]
pub struct Made {
    /// The call.
    pub call: Call,
    /// What the task was told.
    pub reply: Reply,
}

/// The events in the order in which they came about. Contracts see it as the list of them.
#[derive(Debug, Drop)]
pub struct Journal {
    pub(crate) events: Vec<Event>,
}

impl Model for Journal {
    ghost use Rattle.std.specs.Prelude.{List};
    ghost use Rattle.mrc_live.specs.declared.event.Event.{Event};

    ghost Value = { List Event };

    ghost view = { λ j. j.events.items };
}

impl Journal {
    /// The events.
    pub fn events(&self) -> &[Event]
        ensures { result.now ≡ self.now }
    {
        self.events.as_slice()
    }
}
