//! What the machine answers.

use mrc_base::TaskId;
use mrc_model::{Code, Denied};
use mrc_names::Listing;
use mrc_transit::Written;

/// What a call answers.
#[derive(Debug, Drop)]
pub enum Reply {
    /// The call was done, and there is nothing to tell.
    Done,
    /// The name of what was made or given.
    Name(u32),
    /// How many references there are.
    Refs(u32),
    /// The rights of a name, as the bits of Mach's `mach_port_type_t`.
    Mask(u32),
    /// Names with their rights, ascending; at most 4,096.
    Names(Listing),
    /// The number of the task that was made, and the caller's name for its kernel port.
    Created {
        /// The task.
        task: TaskId,
        /// The name.
        name: u32,
    },
    /// A received message, as its bytes; at most 8,192.
    Message(Written),
    /// The message is larger than the limit, and nothing changed: it stays queued. So many bytes it
    /// has.
    TooLarge(u32),
    /// The call was refused, and nothing changed.
    Refused(Code),
    /// The call was refused by the filter, and nothing changed.
    Denied(Denied),
    /// The caller is no task, or one that has ended, and nothing changed.
    DeadTask,
}
