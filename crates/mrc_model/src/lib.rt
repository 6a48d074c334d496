//! The definitions of the machine and of the rules: what a space, a port and a world are, what each
//! call does, which facts a set must have, and what it means that it covers a world. The
//! definitions stand in `specs/`; here are the enums that they speak of, and the laws about them.
#![tactic(auto)]

ghost use Rattle.std.specs.Prelude.{◌≡◌};
ghost use Rattle.mrc_model.specs.Additions.{AdditionsKeepYes, AdditionsOnlyRefuse};
ghost use Rattle.mrc_model.specs.Additions.{LimitedCountsAlone};
ghost use Rattle.mrc_model.specs.Breach.{HoldingsAreHeld};
ghost use Rattle.mrc_model.specs.FirstHoldings.{FirstHoldingsAreGiven, SoundIfFew, SoundTaskByTask};
ghost use Rattle.mrc_model.specs.Headline.{DyingIsLeast, FirstHasSpaces, SpacesAreKept};
ghost use Rattle.mrc_model.specs.Headline.{TasksAreKept};
ghost use Rattle.mrc_model.specs.Rules.{DerivationsAreLeast};
ghost use Rattle.mrc_model.specs.Wiring.{brings_reply_kind};

use mrc_base::{Copies, PortId, PortRight, TaskId};
use std::alloc::{AllocError, Global};
use thiserror::Error;

/// What a name of a space stands for (Mach 3 Kernel Interfaces, "Port rights").
#[derive(Clone, Copy, Debug, PartialEq, Eq)]
pub enum Entry {
    /// A receive right, the send references that stand under the same name, and the name of the set
    /// that the right is in.
    Receive {
        port: PortId,
        sends: u16,
        in_set: Option<u32>,
    },
    /// Send references without the receive right: at least one, in a space.
    Send {
        port: PortId,
        sends: u16,
    },
    /// A send-once right.
    SendOnce {
        port: PortId,
    },
    /// A port set.
    PortSet,
    /// A dead name: made as such, or what is left of rights on a port that has died, as many
    /// references as there were send references, one for a send-once right.
    DeadName {
        refs: u16,
    },
}

/// What a queued message carries in the place of a name.
#[derive(Clone, Copy, Debug, PartialEq, Eq)]
pub enum Item {
    /// No right.
    Null,
    /// MACH_PORT_DEAD: a right on a port that has died, or a dead name that was sent.
    Dead,
    /// A right on a port.
    Right { port: PortId, right: PortRight },
}

/// The port-destroyed request of a port: where its receive right goes when it would be destroyed.
#[derive(Clone, Copy, Debug, PartialEq, Eq)]
pub enum Backup {
    /// There is no request.
    Absent,
    /// The request named a port that has died.
    Dead,
    /// The request names this port.
    Port(PortId),
}

/// Whether a request has a reply, and whether it may bring a reply right.
#[derive(Clone, Copy, Debug, PartialEq, Eq)]
pub enum RequestKind {
    /// A request of a routine, which has a reply.
    Routine,
    /// A request of a simpleroutine, which has none.
    Simple,
    /// A request of a simpleroutine with a reply port: it may bring a reply right, and has no reply
    /// of its own.
    Replied,
}

impl RequestKind {
    /// Whether a request of this kind may bring a reply right.
    pub fn brings_reply(self) -> bool
        ensures { result ≡ brings_reply_kind self }
    {
        match self {
            RequestKind::Routine => true,
            RequestKind::Simple => false,
            RequestKind::Replied => true,
        }
    }
}

/// What a class of ports accepts. An interface stands by its number in the wiring.
#[derive(Clone, Copy, Debug, PartialEq, Eq)]
pub enum LabelItem {
    /// The requests of an interface.
    Request(usize),
    /// The replies of an interface.
    Reply(usize),
    /// Naming a port of the class in a port-destroyed request.
    Destroyed,
}

impl Copies for LabelItem {
    fn copy(&self, _: Global) -> Result<LabelItem, AllocError> {
        Ok(*self)
    }

    fn same(&self, other: &LabelItem) -> bool {
        *self == *other
    }
}

/// What a line about a trusted task limits: each verb apart from the others.
#[derive(Clone, Copy, Debug, PartialEq, Eq)]
pub enum Verb {
    /// What it takes from tasks of other classes, by their kernel ports.
    Takes,
    /// What it gives to tasks of other classes, by their kernel ports.
    Gives,
    /// What it puts into slots of messages.
    Sends,
    /// Of which ports the reply rights of its requests are.
    Replies,
}

/// A line of a wiring that makes a part of the first state. Ports and kernel ports stand by their
/// birth numbers.
#[derive(Clone, Copy, Debug, PartialEq, Eq)]
pub enum FirstLine {
    /// The next task, with its kernel port.
    Task,
    /// The next wired port, whose receive right the task gets.
    Port {
        receiver: TaskId,
    },
    /// A send or send-once right for a task.
    Hold {
        task: TaskId,
        port: PortId,
        right: PortRight,
    },
}

impl Copies for FirstLine {
    fn copy(&self, _: Global) -> Result<FirstLine, AllocError> {
        Ok(*self)
    }

    fn same(&self, other: &FirstLine) -> bool {
        *self == *other
    }
}

/// Why a call was refused, by Mach's names (Mach 3 Kernel Interfaces, `kern_return_t` and
/// `mach_msg_return_t`). The last one is this profile's own.
#[derive(Clone, Copy, Debug, PartialEq, Eq, Error)]
pub enum Code {
    #[error("KERN_INVALID_TASK")]
    KernInvalidTask,
    #[error("KERN_INVALID_ARGUMENT")]
    KernInvalidArgument,
    #[error("KERN_INVALID_NAME")]
    KernInvalidName,
    #[error("KERN_INVALID_RIGHT")]
    KernInvalidRight,
    #[error("KERN_INVALID_VALUE")]
    KernInvalidValue,
    #[error("KERN_INVALID_CAPABILITY")]
    KernInvalidCapability,
    #[error("KERN_NAME_EXISTS")]
    KernNameExists,
    #[error("KERN_RIGHT_EXISTS")]
    KernRightExists,
    #[error("KERN_UREFS_OVERFLOW")]
    KernUrefsOverflow,
    #[error("KERN_NOT_IN_SET")]
    KernNotInSet,
    #[error("KERN_NO_SPACE")]
    KernNoSpace,
    #[error("KERN_RESOURCE_SHORTAGE")]
    KernResourceShortage,
    #[error("MACH_SEND_INVALID_DEST")]
    MachSendInvalidDest,
    #[error("MACH_SEND_INVALID_REPLY")]
    MachSendInvalidReply,
    #[error("MACH_SEND_INVALID_RIGHT")]
    MachSendInvalidRight,
    #[error("MACH_SEND_TIMED_OUT")]
    MachSendTimedOut,
    #[error("MACH_RCV_INVALID_NAME")]
    MachRcvInvalidName,
    #[error("MACH_RCV_IN_SET")]
    MachRcvInSet,
    #[error("MACH_RCV_TIMED_OUT")]
    MachRcvTimedOut,
    #[error("PROFILE_NO_SPACE")]
    ProfileNoSpace,
}

/// Why the filter refuses a message or a request, or why a line about a trusted task refuses a call.
/// Arguments count from 0 in the body.
#[derive(Clone, Copy, Debug, PartialEq, Eq, Error)]
pub enum Denied {
    /// No form of the label has the message's id.
    #[error("NoSuchId")]
    NoSuchId,
    /// The argument is the first that differs from the form, in more than its disposition.
    #[error("WrongShape {0}")]
    WrongShape(u32),
    /// The argument is the first that differs from the form, and differs in its disposition alone.
    #[error("WrongDisposition {0}")]
    WrongDisposition(u32),
    /// The form does not take the disposition of the message's reply port.
    #[error("ReplySlot")]
    ReplySlot,
    /// The argument carries a port of a class that its type does not admit.
    #[error("NotAdmitted {0}")]
    NotAdmitted(u32),
    /// The class of the port does not accept port-destroyed notices.
    #[error("NotDestroyed")]
    NotDestroyed,
    /// The caller is trusted to take no such right from tasks of other classes.
    #[error("NotTaken")]
    NotTaken,
    /// The caller is trusted to give no such right to tasks of other classes.
    #[error("NotGiven")]
    NotGiven,
    /// The argument carries a right that the sender is trusted to put into no slot.
    #[error("NotSent {0}")]
    NotSent(u32),
    /// The sender is trusted to ask for no reply at a port of this class.
    #[error("NotForReply")]
    NotForReply,
}

/// The dying set is the least of those that have each port that dies: the definition computes it by
/// rounds, and this law says in the subject's own words what it is.
pub fn dying_least()
    ensures least { DyingIsLeast }
{}

/// Each space is one, in the first state and after each call: the entries have numbers of
/// references that they may have, and the set that a receive right is in is a set of the same
/// space.
pub fn spaces_kept()
    ensures first { FirstHasSpaces }
    ensures kept { SpacesAreKept }
{}

/// Each call keeps all tasks, with their kernel ports and classes, also those that have ended: so a
/// task's class is for good, and a task that is made gets a number that no other had.
pub fn tasks_kept()
    ensures kept { TasksAreKept }
{}

/// In the first state of a sound wiring a task holds exactly what a line gives it, and ports have
/// the classes of their lines: a task line gives a send right to the task's kernel port, a port
/// line the receive right to its receiver, a hold line what it says.
pub fn first_holdings_given()
    ensures given { FirstHoldingsAreGiven }
{}

/// No line of a wiring is refused exactly where each names what stands on an earlier line, the
/// lines are within the wiring's numbers, and no task gets more than 4,096 names.
pub fn sound_task_by_task()
    ensures sound { SoundTaskByTask }
{}

/// So lines that name what is there, over few ports and few send-once rights, are sound.
pub fn sound_if_few()
    ensures sound { SoundIfFew }
{}

/// What is derived by instances of the rules, each from conclusions of earlier ones, is in every
/// closed set.
pub fn derivations_are_least()
    ensures least { DerivationsAreLeast }
{}

/// The list of a world's holdings has what tasks hold, and nothing else.
pub fn holdings_are_held()
    ensures held { HoldingsAreHeld }
{}

/// What version 3 of wirings adds only refuses. Each call is refused by a line about a trusted task,
/// or because a reply port does not fit, and leaves the world unchanged; or it does what it does in
/// the wiring without these lines. What the checker accepts of a policy without them, it accepts
/// with them: whether a task could rewrite a trusted one is not asked. A task whose takings a line
/// limits counts as itself alone.
pub fn additions_only_refuse()
    ensures refuses { AdditionsOnlyRefuse }
    ensures yes { AdditionsKeepYes }
    ensures alone { LimitedCountsAlone }
{}
