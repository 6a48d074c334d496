//! What is known of the lines above.

ghost use Rattle.std.specs.Prelude.{◌≡◌, ◌<◌, ◌++◌, OnOk, IfOk};
ghost use Rattle.std.specs.List.{list_any};
ghost use Rattle.std.specs.Option.{option_copied};
ghost use Rattle.mrc_stand_for.specs.Once.{is_among};
ghost use Rattle.mrc_stand_for.specs.Known.{is_group_name, group_named, is_set_name, set_named};
ghost use Rattle.mrc_stand_for.specs.Known.{is_births_of, births_said, has_kind, is_member};
ghost use Rattle.mrc_base.specs.Limits.{limit_of_kinds};
ghost use Rattle.mrc_stand_for.specs.Known.{kind_classes};
ghost use Rattle.mrc_stand_for.specs.Known.{births_classes, all_births, has_member, has_group};
ghost use Rattle.mrc_stand_for.specs.Known.{has_set, has_named, no_lines};

use crate::several::{Alike, Copied, Several, copies, copy_items, copy_kind};
use mrc_base::limits::KINDS;
use mrc_wiring_text::{ClassName, Items, Kind, Name};
use std::alloc::{AllocError, Global};

/// A group of tasks.
#[derive(Drop)]
pub(crate) struct Group {
    /// Its name.
    pub name: Name,
    /// Its tasks.
    pub tasks: Several<Name>,
}

/// A set of classes.
#[derive(Drop)]
pub(crate) struct ClassSet {
    /// Its name.
    pub name: Name,
    /// Its classes.
    pub classes: Several<ClassName>,
    /// Its classes as a line that expects has them.
    pub bare: Several<ClassName>,
}

/// Births that a line names.
#[derive(Drop)]
pub(crate) struct KnownBirths {
    /// The task.
    pub task: Name,
    /// Their kind.
    pub kind: Kind,
    /// What they accept.
    pub accepts: Items,
}

/// A wired port that is of the births of a task.
#[derive(Drop)]
pub(crate) struct Member {
    /// The port.
    pub port: Name,
    /// The task.
    pub task: Name,
    /// The kind of the births.
    pub kind: Kind,
}

impl Copied for Group {
    fn copy(&self, alloc: Global) -> Result<Group, AllocError> {
        let name = self.name.copy(alloc)?;
        let tasks = copies(alloc, self.tasks.as_slice())?;
        Ok(Group { name, tasks })
    }
}

impl Copied for ClassSet {
    fn copy(&self, alloc: Global) -> Result<ClassSet, AllocError> {
        let name = self.name.copy(alloc)?;
        let classes = copies(alloc, self.classes.as_slice())?;
        let bare = copies(alloc, self.bare.as_slice())?;
        Ok(ClassSet {
            name,
            classes,
            bare,
        })
    }
}

impl Copied for KnownBirths {
    fn copy(&self, alloc: Global) -> Result<KnownBirths, AllocError> {
        let task = self.task.copy(alloc)?;
        let accepts = copy_items(alloc, &self.accepts)?;
        Ok(KnownBirths {
            task,
            kind: copy_kind(&self.kind),
            accepts,
        })
    }
}

impl Copied for Member {
    fn copy(&self, alloc: Global) -> Result<Member, AllocError> {
        let port = self.port.copy(alloc)?;
        let task = self.task.copy(alloc)?;
        Ok(Member {
            port,
            task,
            kind: copy_kind(&self.kind),
        })
    }
}

/// What is known of the lines above: what lists of a line below can name.
#[derive(Drop)]
pub struct Known {
    /// The tasks.
    pub(crate) tasks: Several<Name>,
    /// The groups.
    pub(crate) groups: Several<Group>,
    /// The sets.
    pub(crate) sets: Several<ClassSet>,
    /// The wired ports.
    pub(crate) ports: Several<Name>,
    /// The births that lines name.
    pub(crate) births: Several<KnownBirths>,
    /// The wired ports that are births.
    pub(crate) members: Several<Member>,
    /// A line has named all tasks, so that there are no more.
    pub(crate) closed: bool,
    /// The tasks of which a line has named all kinds.
    pub(crate) closed_kinds: Several<Name>,
    /// The classes that lines have named, so that no more ports are such births.
    pub(crate) named: Several<ClassName>,
}

/// Whether a name is among these.
pub(crate) fn is_among(name: &Name, names: &[Name]) -> bool
    ensures { result ≡ is_among name.now names.now }
{
    names.iter().any(|other| name.is_alike(other))
}

fn is_births_of(births: &KnownBirths, task: &Name, kind: u8) -> bool
    ensures { result ≡ is_births_of task.now kind births.now }
{
    task.is_alike(&births.task) && kind == births.kind.number()
}

fn is_member(member: &Member, task: &Name, kind: u8) -> bool
    ensures { result ≡ is_member task.now kind member.now }
{
    task.is_alike(&member.task) && kind == member.kind.number()
}

impl Known {
    /// Nothing is known: no line is above.
    pub fn empty(alloc: Global) -> Known
        ensures { result ≡ no_lines }
    {
        Known {
            tasks: Several::empty(alloc),
            groups: Several::empty(alloc),
            sets: Several::empty(alloc),
            ports: Several::empty(alloc),
            births: Several::empty(alloc),
            members: Several::empty(alloc),
            closed: false,
            closed_kinds: Several::empty(alloc),
            named: Several::empty(alloc),
        }
    }

    /// The same.
    pub fn copy(&self, alloc: Global) -> Result<Known, AllocError>
        ensures { IfOk result (λ copy. copy ≡ self.now) }
    {
        Ok(Known {
            tasks: copies(alloc, self.tasks.as_slice())?,
            groups: copies(alloc, self.groups.as_slice())?,
            sets: copies(alloc, self.sets.as_slice())?,
            ports: copies(alloc, self.ports.as_slice())?,
            births: copies(alloc, self.births.as_slice())?,
            members: copies(alloc, self.members.as_slice())?,
            closed: self.closed,
            closed_kinds: copies(alloc, self.closed_kinds.as_slice())?,
            named: copies(alloc, self.named.as_slice())?,
        })
    }

    /// Whether a line declares the task.
    pub(crate) fn has_task(&self, name: &Name) -> bool
        ensures { result ≡ is_among name.now self.now.tasks }
    {
        is_among(name, self.tasks.as_slice())
    }

    /// Whether a line declares the wired port.
    pub(crate) fn has_port(&self, name: &Name) -> bool
        ensures { result ≡ is_among name.now self.now.ports }
    {
        is_among(name, self.ports.as_slice())
    }

    /// The group of a name.
    pub(crate) fn group(&self, name: &Name) -> Option<&Group>
        ensures { option_copied result ≡ group_named self.now name.now }
    {
        self.groups
            .as_slice()
            .iter()
            .find(|group| name.is_alike(&group.name))
    }

    /// Whether there is a group of the name.
    pub(crate) fn has_group(&self, name: &Name) -> bool
        ensures { result ≡ has_group self.now name.now }
    {
        self.groups
            .as_slice()
            .iter()
            .any(|group| name.is_alike(&group.name))
    }

    /// The set of a name.
    pub(crate) fn set(&self, name: &Name) -> Option<&ClassSet>
        ensures { option_copied result ≡ set_named self.now name.now }
    {
        self.sets
            .as_slice()
            .iter()
            .find(|set| name.is_alike(&set.name))
    }

    /// Whether there is a set of the name.
    pub(crate) fn has_set(&self, name: &Name) -> bool
        ensures { result ≡ has_set self.now name.now }
    {
        self.sets
            .as_slice()
            .iter()
            .any(|set| name.is_alike(&set.name))
    }

    /// The births that a line names.
    pub(crate) fn births_said(&self, task: &Name, kind: u8) -> Option<&KnownBirths>
        ensures { option_copied result ≡ births_said self.now task.now kind }
    {
        self.births
            .as_slice()
            .iter()
            .find(|births| is_births_of(births, task, kind))
    }

    /// Whether a line names the births.
    fn names_births(&self, task: &Name, kind: u8) -> bool
        ensures { result ≡ list_any (is_births_of task.now kind) self.now.births }
    {
        self.births
            .as_slice()
            .iter()
            .any(|births| is_births_of(births, task, kind))
    }

    /// Whether a task has births of the kind: of kind 0 each has.
    pub(crate) fn has_kind(&self, task: &Name, kind: u8) -> bool
        ensures { result ≡ has_kind self.now task.now kind }
    {
        kind == 0 || self.names_births(task, kind)
    }

    /// Whether a wired port is of the births.
    pub(crate) fn has_member(&self, task: &Name, kind: u8) -> bool
        ensures { result ≡ has_member self.now task.now kind }
    {
        self.members
            .as_slice()
            .iter()
            .any(|member| is_member(member, task, kind))
    }

    /// Whether a line has named the class.
    pub(crate) fn has_named(&self, class: &ClassName) -> bool
        ensures { result ≡ has_named self.now class.now }
    {
        self.named
            .as_slice()
            .iter()
            .any(|other| class.is_alike(other))
    }

    /// Adds the births of a kind, and behind them the wired ports that are such.
    pub(crate) fn push_births(
        &self,
        alloc: Global,
        task: &Name,
        kind: &Kind,
        classes: &mut Several<ClassName>,
    ) -> Result<(), AllocError>
        ensures { OnOk result
            (classes.new ≡ classes.old ++ births_classes self.now task.now kind.now) }
    {
        classes.push(ClassName::Births {
            task: task.copy(alloc)?,
            kind: copy_kind(kind),
        })?;
        for member in self.members.as_slice() {
            if is_member(member, task, kind.number()) {
                classes.push(ClassName::Port(member.port.copy(alloc)?))?;
            }
        }
        Ok(())
    }

    /// Adds the same, if the task has births of the kind.
    fn push_kind(
        &self,
        alloc: Global,
        task: &Name,
        number: u8,
        classes: &mut Several<ClassName>,
    ) -> Result<(), AllocError>
        requires { number < limit_of_kinds }
        ensures { OnOk result
            (classes.new ≡ classes.old ++ kind_classes self.now task.now number) }
    {
        if !self.has_kind(task, number) {
            return Ok(());
        }
        let kind = Kind::new(number).unwrap();
        self.push_births(alloc, task, &kind, classes)?;
        Ok(())
    }

    /// The births of each kind of a task, with the wired ports that are such.
    pub(crate) fn all_births(
        &self,
        alloc: Global,
        task: &Name,
    ) -> Result<Several<ClassName>, AllocError>
        ensures { IfOk result (λ classes. classes ≡ all_births self.now task.now) }
    {
        let mut classes = Several::empty(alloc);
        for number in 0..KINDS {
            self.push_kind(alloc, task, number, &mut classes)?;
        }
        Ok(classes)
    }
}
