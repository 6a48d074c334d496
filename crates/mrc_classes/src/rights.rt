//! Facts from numbers, tests on rights, and what a wiring's numbers say.

ghost use Rattle.std.specs.Prelude.{◌≡◌, ◌<◌, ◌↔◌, IsTrue};
ghost use Rattle.mrc_base.specs.declared.Fact.{Fact};
ghost use Rattle.mrc_model.specs.Wiring.{classes, kernel_class};
ghost use Rattle.mrc_model.specs.Rules.{InRange};
ghost use Rattle.mrc_model.specs.Rights.{same_right};
ghost use Rattle.mrc_wiring.specs.Table.{wiring_of};

use mrc_base::{ClassId, Fact, PortRight};
use mrc_wiring::Wired;

pub(crate) fn hold(task: u16, class: u16, right: PortRight) -> Fact
    ensures { result ≡ Fact.Hold task class right }
{
    Fact::Hold {
        task,
        class: ClassId(class),
        right,
    }
}

pub(crate) fn carry(destination: u16, class: u16, right: PortRight) -> Fact
    ensures { result ≡ Fact.Carry destination class right }
{
    Fact::Carry {
        destination: ClassId(destination),
        class: ClassId(class),
        right,
    }
}

pub(crate) fn backup(class: u16, notify: u16) -> Fact
    ensures { result ≡ Fact.Backup class notify }
{
    Fact::Backup {
        class: ClassId(class),
        notify: ClassId(notify),
    }
}

/// Whether the two are one right.
pub fn same_right(one: PortRight, other: PortRight) -> bool
    ensures exact { result ≡ same_right one other }
    ensures equal { IsTrue result → one ≡ other }
{
    match one {
        PortRight::Send => matches!(other, PortRight::Send),
        PortRight::Receive => matches!(other, PortRight::Receive),
        PortRight::SendOnce => matches!(other, PortRight::SendOnce),
    }
}

/// Whether the fact is over the wiring's tasks and classes.
pub(crate) fn is_in_range(wired: &Wired, fact: &Fact) -> bool
    ensures { IsTrue result ↔ InRange (wiring_of wired.now) fact.now }
{
    match fact {
        Fact::Hold { task, class, .. } => *task < wired.tasks() && class.0 < wired.classes(),
        Fact::Carry {
            destination,
            class,
            ..
        } => destination.0 < wired.classes() && class.0 < wired.classes(),
        Fact::Backup { class, notify } => {
            class.0 < wired.classes() && notify.0 < wired.classes()
        }
    }
}

/// The class of a task's kernel port.
pub(crate) fn kernel_port(wired: &Wired, task: u16) -> u16
    requires { task < (wiring_of wired.now).tasks }
    ensures { result ≡ kernel_class (wiring_of wired.now) task }
{
    let _classes = wired.classes();
    wired.ports() + task
}
