//! The words that every other crate speaks in: rights, dispositions, the numbers of tasks, classes
//! and ports, and facts.
#![tactic(auto)]

ghost use Rattle.std.specs.Prelude.{◌≡◌};
ghost use Rattle.mrc_base.specs.Disposition.{needed, given, disp_number, disp_of_number};
ghost use Rattle.mrc_base.specs.Disposition.{is_port_number};
ghost use Rattle.mrc_base.specs.Disposition.{NumbersAreDispositions, PortNumbersAreDispositions};
ghost use Rattle.mrc_base.specs.NameRight.{name_right};

mod copies;
mod gate;
pub mod limits;
mod memory;

pub use copies::{Copies, copy_all, same_all};
pub use gate::{Gate, Open};
pub use memory::OrMemory;
use std::marker::Model;

/// What a name can stand for, with Mach's numbers (Mach 3 Kernel Interfaces, `mach_port_right_t`).
#[derive(Clone, Copy, Debug, PartialEq, Eq, PartialOrd, Ord)]
pub enum Right {
    /// A send right.
    Send = 0,
    /// A receive right.
    Receive = 1,
    /// A send-once right.
    SendOnce = 2,
    /// A port set.
    PortSet = 3,
    /// A dead name.
    DeadName = 4,
}

/// A right on a port: what a task can hold, a message can carry and a policy can forbid. The
/// numbers are those of [`Right`].
#[derive(Clone, Copy, Debug, PartialEq, Eq, PartialOrd, Ord)]
pub enum PortRight {
    /// A send right.
    Send = 0,
    /// A receive right.
    Receive = 1,
    /// A send-once right.
    SendOnce = 2,
}

/// How a message carries a port right, with Mach's numbers (Mach 3 Kernel Interfaces,
/// `mach_msg_type_name_t`).
#[derive(Clone, Copy, Debug, PartialEq, Eq, PartialOrd, Ord)]
pub enum Disp {
    /// Moves a receive right.
    MoveReceive = 16,
    /// Moves one reference of a send right.
    MoveSend = 17,
    /// Moves a send-once right.
    MoveSendOnce = 18,
    /// Makes a send right from a send right.
    CopySend = 19,
    /// Makes a send right from a receive right.
    MakeSend = 20,
    /// Makes a send-once right from a receive right.
    MakeSendOnce = 21,
}

/// The number of a task: wired tasks count from 0 in the order of their lines.
#[derive(Clone, Copy, Debug, PartialEq, Eq, PartialOrd, Ord)]
pub struct TaskId(pub u32);

impl Model for TaskId {
    ghost use Rattle.std.specs.Prelude.{ℕ};

    ghost Value = { ℕ };

    ghost view = { λ a. a.0 };

    ghost inverse = { λ n. record { 0 = n } };
}

/// The number of a class of ports: wired ports, then kernel ports, then births.
#[derive(Clone, Copy, Debug, PartialEq, Eq, PartialOrd, Ord)]
pub struct ClassId(pub u16);

impl Model for ClassId {
    ghost use Rattle.std.specs.Prelude.{ℕ};

    ghost Value = { ℕ };

    ghost view = { λ a. a.0 };

    ghost inverse = { λ n. record { 0 = n } };
}

/// The birth number of a port. No two ports of one machine ever have the same.
#[derive(Clone, Copy, Debug, PartialEq, Eq, PartialOrd, Ord)]
pub struct PortId(pub u64);

impl Model for PortId {
    ghost use Rattle.std.specs.Prelude.{ℕ};

    ghost Value = { ℕ };

    ghost view = { λ a. a.0 };

    ghost inverse = { λ n. record { 0 = n } };
}

/// What may come about in a wired system, as a certificate lists it. The order is that of the
/// certificate's bytes.
#[derive(Clone, Copy, Debug, PartialEq, Eq, PartialOrd, Ord)]
pub enum Fact {
    /// The task may hold the right on a port of the class.
    Hold {
        task: u16,
        class: ClassId,
        right: PortRight,
    },
    /// A message on a port of class `destination` may carry the right on a port of class `class`.
    Carry {
        destination: ClassId,
        class: ClassId,
        right: PortRight,
    },
    /// A port of class `class` may have a port-destroyed request that names a port of class
    /// `notify`.
    Backup {
        class: ClassId,
        notify: ClassId,
    },
}

/// The right that a task has to hold under the name that a disposition is used with.
pub fn need(disp: Disp) -> PortRight
    ensures { result ≡ needed disp }
{
    match disp {
        Disp::MoveReceive | Disp::MakeSend | Disp::MakeSendOnce => PortRight::Receive,
        Disp::MoveSend | Disp::CopySend => PortRight::Send,
        Disp::MoveSendOnce => PortRight::SendOnce,
    }
}

/// The right that the receiver of a message gets by a disposition.
pub fn give(disp: Disp) -> PortRight
    ensures { result ≡ given disp }
{
    match disp {
        Disp::MoveReceive => PortRight::Receive,
        Disp::MoveSend | Disp::CopySend | Disp::MakeSend => PortRight::Send,
        Disp::MoveSendOnce | Disp::MakeSendOnce => PortRight::SendOnce,
    }
}

impl Disp {
    /// The number that stands for the disposition in a header or a descriptor, 16 to 21.
    pub fn number(self) -> u16
        ensures { result ≡ disp_number self }
    {
        match self {
            Disp::MoveReceive => 16,
            Disp::MoveSend => 17,
            Disp::MoveSendOnce => 18,
            Disp::CopySend => 19,
            Disp::MakeSend => 20,
            Disp::MakeSendOnce => 21,
        }
    }

    /// The disposition that a number stands for; none where it stands for none.
    pub fn of_number(number: u16) -> Option<Disp>
        ensures { result ≡ disp_of_number number }
    {
        match number {
            16 => Some(Disp::MoveReceive),
            17 => Some(Disp::MoveSend),
            18 => Some(Disp::MoveSendOnce),
            19 => Some(Disp::CopySend),
            20 => Some(Disp::MakeSend),
            21 => Some(Disp::MakeSendOnce),
            _ => None,
        }
    }
}

/// Whether the number of a type is that of port rights, 16 to 21.
pub fn is_port_number(number: u16) -> bool
    ensures { result ≡ is_port_number number }
{
    16 <= number && number <= 21
}

/// Dispositions and their numbers are one to one, and those numbers are the ones of port rights.
pub fn dispositions_by_number()
    ensures numbers { NumbersAreDispositions }
    ensures ports { PortNumbersAreDispositions }
{}

impl From<PortRight> for Right {
    ghost from_gives = { λ right r. r ≡ name_right right };

    fn from(right: PortRight) -> Right {
        match right {
            PortRight::Send => Right::Send,
            PortRight::Receive => Right::Receive,
            PortRight::SendOnce => Right::SendOnce,
        }
    }
}
