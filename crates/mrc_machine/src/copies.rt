//! Equal calls and replies, and whether two are equal.

ghost use Rattle.std.specs.Prelude.{◌≡◌, ◌↔◌, IfOk, IsTrue};
ghost use Rattle.mrc_machine.specs.Rooms.{Fits};

use crate::call::Call;
use crate::reply::Reply;
use crate::room::Room;
use std::alloc::{AllocError, Global};

/// All variants of calls that have numbers alone, with their fields, behind what is handed on to a
/// macro.
macro_rules! with_fields {
    ($macro:ident, $($given:expr),*) => {
        $macro!($($given,)*
            Receive { name, limit }
            Allocate { task, right, kind }
            GetRefs { task, name, right }
            InsertRight { task, name, right, disp }
            ExtractRight { task, name, disp }
            SetQlimit { task, name, limit }
            PortType { task, name }
            Names { task }
            Rename { task, old, new }
            MoveMember { task, member, set }
            RequestNotification { task, name, id, sync, notify, disp }
            Deallocate { task, name }
            Destroy { task, name }
            ModRefs { task, name, right, delta }
            Terminate { task }
            CreateTask { task }
        )
    };
}

/// The equal call, where it is no message.
macro_rules! equal_call {
    ($call:expr, $($variant:ident { $($field:ident),* })*) => {
        match $call {
            Call::Send(_) => unreachable!(),
            $(Call::$variant { $($field),* } => Call::$variant { $($field: *$field),* },)*
        }
    };
}

/// Whether calls are equal.
macro_rules! are_equal_calls {
    ($call:expr, $other:expr, $($variant:ident { $($field:ident),* })*) => {
        match $call {
            Call::Send(message) => match $other {
                Call::Send(other) => message.same(other),
                _ => false,
            },
            $(Call::$variant { $($field),* } => {
                let numbers = ($(*$field),*);
                match $other {
                    Call::$variant { $($field),* } => numbers == ($(*$field),*),
                    _ => false,
                }
            })*
        }
    };
}

impl Call {
    /// An equal call.
    pub fn copy(&self, alloc: Global) -> Result<Call, AllocError>
        ensures { IfOk result (λ copy. copy ≡ self.now) }
    {
        if let Call::Send(message) = self {
            return Ok(Call::Send(message.copy(alloc)?));
        }
        Ok(with_fields!(equal_call, self))
    }

    /// Whether the calls are equal.
    pub fn same(&self, other: &Call) -> bool
        ensures { IsTrue result ↔ (self.now ≡ other.now) }
    {
        with_fields!(are_equal_calls, self, other)
    }
}

impl Reply {
    /// An equal reply, in a room that was made for it. It takes no memory.
    pub fn fill(&self, room: Room) -> Reply
        requires { Fits room self.now }
        ensures { result ≡ self.now }
    {
        match self {
            Reply::Done => Reply::Done,
            Reply::Name(name) => Reply::Name(*name),
            Reply::Refs(refs) => Reply::Refs(*refs),
            Reply::Mask(mask) => Reply::Mask(*mask),
            Reply::Names(names) => Reply::Names(names.fill(room.names)),
            Reply::Created { task, name } => Reply::Created {
                task: *task,
                name: *name,
            },
            Reply::Message(bytes) => Reply::Message(bytes.fill(room.bytes)),
            Reply::TooLarge(size) => Reply::TooLarge(*size),
            Reply::Refused(code) => Reply::Refused(*code),
            Reply::Denied(denied) => Reply::Denied(*denied),
            Reply::DeadTask => Reply::DeadTask,
        }
    }

    /// Whether the replies are equal.
    pub fn same(&self, other: &Reply) -> bool
        ensures { IsTrue result ↔ (self.now ≡ other.now) }
    {
        match (self, other) {
            (Reply::Done, Reply::Done) => true,
            (Reply::Name(name), Reply::Name(other)) => *name == *other,
            (Reply::Refs(refs), Reply::Refs(other)) => *refs == *other,
            (Reply::Mask(mask), Reply::Mask(other)) => *mask == *other,
            (Reply::Names(names), Reply::Names(other)) => names.same(other),
            (
                Reply::Created { task, name },
                Reply::Created {
                    task: other,
                    name: second,
                },
            ) => task.0 == other.0 && *name == *second,
            (Reply::Message(bytes), Reply::Message(other)) => bytes.same(other),
            (Reply::TooLarge(size), Reply::TooLarge(other)) => *size == *other,
            (Reply::Refused(code), Reply::Refused(other)) => *code == *other,
            (Reply::Denied(denied), Reply::Denied(other)) => *denied == *other,
            (Reply::DeadTask, Reply::DeadTask) => true,
            _ => false,
        }
    }
}
