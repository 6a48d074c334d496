//! The calls of the machine.

use mrc_base::{Disp, Right};
use mrc_desc::Message;

/// A call of a task (Mach 3 Kernel Interfaces, `mach_msg` and the `mach_port_` calls). `task` is a
/// name of the caller's space, with a send right to the kernel port of the task that the call acts
/// on; `name` is a name in that task's space.
#[derive(Debug, Drop)]
pub enum Call {
    /// `mach_msg`, MACH_SEND_MSG: sends a message, whose names are the caller's. Answers `Done`.
    /// Refused, in order: a destination that gives no such right on a live port
    /// (MACH_SEND_INVALID_DEST); a message that its class does not accept (`Denied`); a reply port
    /// that gives no such right (MACH_SEND_INVALID_REPLY); name by name of the arguments, one that
    /// gives no such right (MACH_SEND_INVALID_RIGHT) or a port that its slot does not admit
    /// (`Denied`); a queue at or above its limit, but for a send-once right (MACH_SEND_TIMED_OUT).
    Send(Message),
    /// `mach_msg`, MACH_RCV_MSG and MACH_RCV_LARGE: receives the first message that waits under a
    /// name of the caller, a receive right or a port set. Of a set it is that of the first member,
    /// by ascending name, that has one. Answers `Message`. Refused, in order: a name that is
    /// neither (MACH_RCV_INVALID_NAME); a member of a set (MACH_RCV_IN_SET); no message
    /// (MACH_RCV_TIMED_OUT); a message of more bytes than the limit (`TooLarge`); a space of the
    /// caller that would have more than 4,096 entries (PROFILE_NO_SPACE).
    Receive {
        /// The name to receive from.
        name: u32,
        /// How many bytes the message may have.
        limit: u32,
    },
    /// `mach_port_allocate`: a new port, port set or dead name under the least unused name. The
    /// port is of the births of the task that it is made in, of this kind; of a set and of a dead
    /// name the kind is 0. Answers `Name`. Refused, in order: KERN_INVALID_TASK; a send or
    /// send-once right, or a kind that the task lacks (KERN_INVALID_VALUE); a full space
    /// (KERN_NO_SPACE); as many ports or births as there may be (KERN_RESOURCE_SHORTAGE).
    Allocate {
        /// The task in whose space it is made.
        task: u32,
        /// What is made.
        right: Right,
        /// The kind of the port's births.
        kind: u32,
    },
    /// `mach_port_get_refs`: how many references of a right a name has. Answers `Refs`: 1 for a
    /// right that is there once, 0 for one that is not there. Refused, in order: KERN_INVALID_TASK;
    /// KERN_INVALID_NAME.
    GetRefs {
        /// The task whose name it is.
        task: u32,
        /// The name.
        name: u32,
        /// The right.
        right: Right,
    },
    /// `mach_port_insert_right`: puts a right of the caller under a name of the task. Answers
    /// `Done`. Refused, in order: KERN_INVALID_TASK; a name that stands for no entry
    /// (KERN_INVALID_VALUE); a right that stands for none, or a dead name of which a right is moved
    /// or copied (KERN_INVALID_CAPABILITY); no entry of the caller (KERN_INVALID_NAME); an entry
    /// that lacks the right (KERN_INVALID_RIGHT); and then, after the taking, a port that the task
    /// knows under another name (KERN_RIGHT_EXISTS); a used name (KERN_NAME_EXISTS); too many
    /// references (KERN_UREFS_OVERFLOW); a full space (KERN_NO_SPACE).
    InsertRight {
        /// The task that gets the right.
        task: u32,
        /// The name that the right gets.
        name: u32,
        /// The name of the caller that the right is taken from.
        right: u32,
        /// How the right is taken.
        disp: Disp,
    },
    /// `mach_port_extract_right`: gives a right of the task to the caller. Answers `Name`. Refused,
    /// in order: KERN_INVALID_TASK; KERN_INVALID_NAME; an entry that lacks the right
    /// (KERN_INVALID_RIGHT); a space of the caller that is full after the taking (KERN_NO_SPACE).
    ExtractRight {
        /// The task that the right is taken from.
        task: u32,
        /// The name of the task that the right is taken from.
        name: u32,
        /// How the right is taken.
        disp: Disp,
    },
    /// `mach_port_set_qlimit`: how many messages a queue takes. Messages above it stay. Answers
    /// `Done`. Refused, in order: KERN_INVALID_TASK; a limit above 16 (KERN_INVALID_VALUE);
    /// KERN_INVALID_NAME; an entry without the receive right (KERN_INVALID_RIGHT).
    SetQlimit {
        /// The task that receives.
        task: u32,
        /// The name of the receive right.
        name: u32,
        /// The limit.
        limit: u32,
    },
    /// `mach_port_type`: the rights of a name as bits. Answers `Mask`. Refused, in order:
    /// KERN_INVALID_TASK; KERN_INVALID_NAME.
    PortType {
        /// The task whose name it is.
        task: u32,
        /// The name.
        name: u32,
    },
    /// `mach_port_names`: all names of a task with their rights. Answers `Names`. Refused:
    /// KERN_INVALID_TASK.
    Names {
        /// The task whose names they are.
        task: u32,
    },
    /// `mach_port_rename`: moves an entry to an unused name; the members of a set follow it.
    /// Answers `Done`. Refused, in order: KERN_INVALID_TASK; a new name that stands for no entry
    /// (KERN_INVALID_VALUE); an old name without entry (KERN_INVALID_NAME); a new name that is used
    /// (KERN_NAME_EXISTS).
    Rename {
        /// The task whose name it is.
        task: u32,
        /// The name that the entry has.
        old: u32,
        /// The name that it gets.
        new: u32,
    },
    /// `mach_port_move_member`: moves a receive right into a port set, out of the one that it is
    /// in; a set of 0 takes it out alone. Answers `Done`. Refused, in order: KERN_INVALID_TASK; a
    /// member without entry (KERN_INVALID_NAME), or without a receive right (KERN_INVALID_RIGHT); a
    /// set of 0 where the member is in none (KERN_NOT_IN_SET); a set without entry
    /// (KERN_INVALID_NAME), or that is no set (KERN_INVALID_RIGHT).
    MoveMember {
        /// The task whose names they are.
        task: u32,
        /// The name of the receive right.
        member: u32,
        /// The name of the set.
        set: u32,
    },
    /// `mach_port_request_notification`, MACH_NOTIFY_PORT_DESTROYED: where the receive right of a
    /// port would be destroyed, it goes in a notice through a send-once right of the caller; 0 in
    /// its place takes the request back. Answers `Name`: the name that the caller gets for the
    /// right of the previous request, 0 where there was none and 0xffffffff where it is dead.
    /// Refused, in order: KERN_INVALID_TASK; an id that is not 69, a sync that is not 0 or a
    /// disposition that gives no send-once right (KERN_INVALID_VALUE); KERN_INVALID_NAME; an entry
    /// without the receive right (KERN_INVALID_RIGHT); 0xffffffff, or a dead name of which a right
    /// is moved (KERN_INVALID_CAPABILITY); no entry of the caller (KERN_INVALID_NAME); an entry
    /// that lacks the right (KERN_INVALID_RIGHT); a port whose class accepts no such notices
    /// (`Denied`); and then, after the taking, a full space where a right is to be given
    /// (KERN_NO_SPACE).
    RequestNotification {
        /// The task that receives.
        task: u32,
        /// The name of the receive right.
        name: u32,
        /// The id of the notice.
        id: u32,
        /// The number of references, of no use to this notice.
        sync: u32,
        /// The name of the caller that the send-once right is taken from.
        notify: u32,
        /// How it is taken.
        disp: Disp,
    },
    /// `mach_port_deallocate`: drops one send or dead reference, or destroys a send-once right.
    /// Answers `Done`. Refused, in order: KERN_INVALID_TASK; KERN_INVALID_NAME; an entry that has
    /// none of them (KERN_INVALID_RIGHT).
    Deallocate {
        /// The task whose name it is.
        task: u32,
        /// The name.
        name: u32,
    },
    /// `mach_port_destroy`: destroys a name with all its rights; members leave a set. Answers
    /// `Done`. Refused, in order: KERN_INVALID_TASK; KERN_INVALID_NAME.
    Destroy {
        /// The task whose name it is.
        task: u32,
        /// The name.
        name: u32,
    },
    /// `mach_port_mod_refs`: changes the references of a right by a number. Of a right that is
    /// there once -1 destroys it, and 0 keeps it. Answers `Done`. Refused, in order:
    /// KERN_INVALID_TASK; KERN_INVALID_NAME; an entry that lacks the right (KERN_INVALID_RIGHT);
    /// another number for a right that is there once, or a sum below 0 (KERN_INVALID_VALUE); a sum
    /// above 65,535 (KERN_UREFS_OVERFLOW).
    ModRefs {
        /// The task whose name it is.
        task: u32,
        /// The name.
        name: u32,
        /// The right.
        right: Right,
        /// By how much the references change.
        delta: i32,
    },
    /// `task_terminate`: ends a task. Its entries go with all their rights, and its kernel port
    /// dies. Answers `Done`. Refused: KERN_INVALID_ARGUMENT, where other calls are refused by
    /// KERN_INVALID_TASK.
    Terminate {
        /// The task.
        task: u32,
    },
    /// `task_create`: makes a task with the class of the one that is named, and its kernel port,
    /// of the class of that one's kernel port. It has a send right to its kernel port under name
    /// 1, and so has the caller under the least unused name. Answers `Created`. Refused, in order:
    /// KERN_INVALID_ARGUMENT; a full space of the caller (KERN_NO_SPACE); as many ports, births or
    /// tasks as there may be (KERN_RESOURCE_SHORTAGE).
    CreateTask {
        /// The task that it is made from.
        task: u32,
    },
}
