//! The names of tasks, wired ports and classes.

ghost use Rattle.std.specs.Prelude.{◌≡◌, ◌<◌, ◌≤◌, length, IfSome};
ghost use Rattle.mrc_base.specs.Limits.{limit_of_tasks, limit_of_wired_ports};
ghost use Rattle.mrc_wiring.specs.Births.{AreAscending};
ghost use Rattle.mrc_wiring.specs.Names.{class_said, kind_word, kind_named, births_said};

use crate::births::{BirthRow, has_row};
use mrc_name_table::NameTable;
use mrc_wiring_text::ClassName;

/// The kinds of classes of ports. Each wired port is a class of its own, each task has one class
/// for its kernel port, and one for each kind of its births.
#[derive(Clone, Copy, Debug, PartialEq, Eq)]
pub enum ClassKind {
    /// A wired port, alone.
    Port,
    /// The kernel port of the task, alone.
    Task,
    /// The ports of this kind that the task, or a task that is made like it, is the first to hold.
    Births(u8),
}

/// A class of ports by its kind and the name of its port or task.
#[derive(Clone, Copy, Debug)]
pub struct ClassLabel<'a> {
    /// Which kind of class it is.
    pub kind: ClassKind,
    /// The name of the wired port, or of the task.
    pub name: &'a str,
}

/// A class of ports by its kind and the number of its port or task.
#[derive(Clone, Copy, Debug, PartialEq, Eq)]
pub(crate) struct NumberedClass {
    pub(crate) kind: ClassKind,
    pub(crate) number: u16,
}

/// The word of a kind of births.
pub fn kind_word(kind: u8) -> &'static str
    ensures { result.now ≡ kind_word kind }
{
    match kind {
        0 => "0",
        1 => "1",
        2 => "2",
        3 => "3",
        4 => "4",
        5 => "5",
        6 => "6",
        7 => "7",
        8 => "8",
        9 => "9",
        10 => "10",
        11 => "11",
        12 => "12",
        13 => "13",
        14 => "14",
        15 => "15",
        _ => "",
    }
}

/// The kind of births that is printed so.
#[tactic(auto, unfolding(crate::specs::Names::kind_named))]
pub(crate) fn kind_named(text: &str) -> Option<u8>
    ensures { result ≡ kind_named text.now }
{
    match text {
        "1" => Some(1),
        "2" => Some(2),
        "3" => Some(3),
        "4" => Some(4),
        "5" => Some(5),
        "6" => Some(6),
        "7" => Some(7),
        "8" => Some(8),
        "9" => Some(9),
        "10" => Some(10),
        "11" => Some(11),
        "12" => Some(12),
        "13" => Some(13),
        "14" => Some(14),
        "15" => Some(15),
        _ => None,
    }
}

/// The births of a task of a kind, if there are any.
fn births_said(births: &[BirthRow], task: u16, kind: u8) -> Option<NumberedClass>
    requires { AreAscending births.now }
    ensures { result ≡ births_said births.now kind task }
{
    if has_row(births, task as u32, kind as u32) {
        Some(NumberedClass {
            kind: ClassKind::Births(kind),
            number: task,
        })
    } else {
        None
    }
}

/// The class that a line names, by the names of tasks and wired ports and by the births that are
/// there.
pub(crate) fn class_said(
    tasks: &NameTable,
    ports: &NameTable,
    births: &[BirthRow],
    class: &ClassName,
) -> Option<NumberedClass>
    requires tasks { length tasks.now ≤ limit_of_tasks }
    requires ports { length ports.now ≤ limit_of_wired_ports }
    requires ascending { AreAscending births.now }
    ensures exact { result ≡ class_said tasks.now ports.now births.now class.now }
    ensures within { IfSome result (λ class. class.number < limit_of_wired_ports) }
{
    match class {
        ClassName::Port(name) => {
            let number = ports.number_of(name.as_str())?;
            Some(NumberedClass {
                kind: ClassKind::Port,
                number: number as u16,
            })
        }
        ClassName::Task(name) => {
            let number = tasks.number_of(name.as_str())?;
            Some(NumberedClass {
                kind: ClassKind::Task,
                number: number as u16,
            })
        }
        ClassName::Births { task, kind } => {
            let number = tasks.number_of(task.as_str())?;
            births_said(births, number as u16, kind.number())
        }
    }
}
