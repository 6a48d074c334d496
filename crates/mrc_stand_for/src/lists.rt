//! What the lists of a line stand for.

ghost use Rattle.std.specs.Prelude.{◌≡◌, ◌∷◌, [], map, IfOk, OnOk};
ghost use Rattle.mrc_base.specs.Reading.{Gives};
ghost use Rattle.mrc_stand_for.specs.Once.{with_each, same_place};
ghost use Rattle.mrc_stand_for.specs.Known.{births_classes};
ghost use Rattle.mrc_stand_for.specs.Steps.{Leaves, each, filled};
ghost use Rattle.mrc_stand_for.specs.Lists.{add_who, whos_of, all_but, tasks_of, others_of};
ghost use Rattle.mrc_stand_for.specs.Lists.{whom_of, with_classes, with_all_births, add_births};
ghost use Rattle.mrc_stand_for.specs.Lists.{add_class, nothing_found, classes_of, add_place};
ghost use Rattle.mrc_stand_for.specs.Lists.{places_of, add_port, ports_of};

use crate::faults::StandFault;
use crate::known::{Known, is_among};
use crate::several::{Copied, Several, add_each, add_once, copies};
use crate::wide::{Kinds, Place, PlaceName, Tasks, Whom, WideClass};
use mrc_base::OrMemory;
use mrc_wiring_text::{ClassName, Kind, Name};
use std::alloc::{AllocError, Global};

/// The classes that a list stands for.
#[derive(Drop)]
pub struct Found {
    /// The classes, each once.
    pub classes: Several<ClassName>,
    /// The tasks of which it names the births of all kinds.
    pub closed: Several<Name>,
}

/// A list of a line, which has to stand for something.
fn filled(line: u32, list: Several<Name>) -> Result<Several<Name>, OrMemory<StandFault>>
    ensures { Gives (λ list. list) result (filled line list) }
{
    if list.as_slice().is_empty() {
        return Err(OrMemory::Fault(StandFault::Empty(line)));
    }
    Ok(list)
}

/// One WHO more.
fn add_who(
    alloc: Global,
    known: &Known,
    line: u32,
    so_far: &mut Several<Name>,
    name: &Name,
) -> Result<(), OrMemory<StandFault>>
    ensures { Leaves result so_far.new (add_who known.now line so_far.old name.now) }
{
    if known.has_task(name) {
        add_once(so_far, name.copy(alloc)?)?;
        return Ok(());
    }
    match known.group(name) {
        Some(group) => {
            add_each(alloc, so_far, group.tasks.as_slice())?;
            Ok(())
        }
        None => Err(OrMemory::Fault(StandFault::UnknownName(line))),
    }
}

/// `WHO, WHO ..`
fn whos_of(
    alloc: Global,
    known: &Known,
    line: u32,
    names: &[Name],
) -> Result<Several<Name>, OrMemory<StandFault>>
    ensures { Gives (λ list. list) result (whos_of known.now line names.now) }
{
    let mut so_far = Several::empty(alloc);
    for name in names {
        add_who(alloc, known, line, &mut so_far, name)?;
    }
    Ok(so_far)
}

/// WHO.
fn one_who(
    alloc: Global,
    known: &Known,
    line: u32,
    name: &Name,
) -> Result<Several<Name>, OrMemory<StandFault>>
    ensures { Gives (λ list. list) result (whos_of known.now line (name.now ∷ [])) }
{
    let mut named = Several::empty(alloc);
    add_who(alloc, known, line, &mut named, name)?;
    Ok(named)
}

/// All but these.
fn all_but(alloc: Global, known: &Known, left: &[Name]) -> Result<Several<Name>, AllocError>
    ensures { IfOk result (λ list. list ≡ all_but known.now left.now) }
{
    let mut list = Several::empty(alloc);
    for task in known.tasks.as_slice() {
        if !is_among(task, left) {
            list.push(task.copy(alloc)?)?;
        }
    }
    Ok(list)
}

/// All tasks.
fn all_tasks(alloc: Global, known: &Known) -> Result<Several<Name>, AllocError>
    ensures { IfOk result (λ list. list ≡ known.now.tasks) }
{
    copies(alloc, known.tasks.as_slice())
}

/// TASKS.
pub fn tasks_of(
    alloc: Global,
    known: &Known,
    line: u32,
    tasks: &Tasks,
) -> Result<Several<Name>, OrMemory<StandFault>>
    ensures { Gives (λ list. list) result (tasks_of known.now line tasks.now) }
{
    match tasks {
        Tasks::All => filled(line, all_tasks(alloc, known)?),
        Tasks::AllBut(names) => {
            let left = whos_of(alloc, known, line, names.as_slice())?;
            filled(line, all_but(alloc, known, left.as_slice())?)
        }
        Tasks::Listed(names) => filled(line, whos_of(alloc, known, line, names.as_slice())?),
    }
}

/// All tasks but the holder.
fn others_of(
    alloc: Global,
    known: &Known,
    line: u32,
    holder: &Option<Name>,
) -> Result<Several<Name>, OrMemory<StandFault>>
    ensures { Gives (λ list. list) result (others_of known.now line holder.now) }
{
    match holder {
        None => Err(OrMemory::Fault(StandFault::BadLine(line))),
        Some(holder) => {
            let mut left = Several::empty(alloc);
            left.push(holder.copy(alloc)?)?;
            filled(line, all_but(alloc, known, left.as_slice())?)
        }
    }
}

/// WHOM.
fn whom_of(
    alloc: Global,
    known: &Known,
    line: u32,
    holder: &Option<Name>,
    whom: &Whom,
) -> Result<Several<Name>, OrMemory<StandFault>>
    ensures { Gives (λ list. list) result (whom_of known.now line holder.now whom.now) }
{
    match whom {
        Whom::Who(name) => filled(line, one_who(alloc, known, line, name)?),
        Whom::All => filled(line, all_tasks(alloc, known)?),
        Whom::AllBut(name) => {
            let left = one_who(alloc, known, line, name)?;
            filled(line, all_but(alloc, known, left.as_slice())?)
        }
        Whom::Other => others_of(alloc, known, line, holder),
    }
}

impl Found {
    /// No class yet.
    pub(crate) fn nothing(alloc: Global) -> Found
        ensures { result ≡ nothing_found }
    {
        Found {
            classes: Several::empty(alloc),
            closed: Several::empty(alloc),
        }
    }

    /// Classes more.
    fn add(&mut self, alloc: Global, classes: &[ClassName]) -> Result<(), AllocError>
        ensures { OnOk result (self.new ≡ with_classes self.old classes.now) }
    {
        add_each(alloc, &mut self.classes, classes)?;
        Ok(())
    }

    /// The kernel ports of these tasks more.
    fn add_kernels(&mut self, alloc: Global, tasks: &[Name]) -> Result<(), AllocError>
        ensures { OnOk result (self.new ≡ with_classes self.old (map ClassName.Task tasks.now)) }
    {
        for task in tasks {
            add_once(&mut self.classes, ClassName::Task(task.copy(alloc)?))?;
        }
        Ok(())
    }

    /// Births of a task by their kind more.
    fn add_kind(
        &mut self,
        alloc: Global,
        known: &Known,
        kind: &Kind,
        task: &Name,
    ) -> Result<(), AllocError>
        ensures { OnOk result
            (self.new ≡ with_classes self.old (births_classes known.now task.now kind.now)) }
    {
        let mut classes = Several::empty(alloc);
        known.push_births(alloc, task, kind, &mut classes)?;
        self.add(alloc, classes.as_slice())?;
        Ok(())
    }

    /// All births of a task more.
    fn add_all(&mut self, alloc: Global, known: &Known, task: &Name) -> Result<(), AllocError>
        ensures { OnOk result (self.new ≡ with_all_births known.now self.old task.now) }
    {
        let classes = known.all_births(alloc, task)?;
        self.add(alloc, classes.as_slice())?;
        self.closed.push(task.copy(alloc)?)?;
        Ok(())
    }

    /// Births of a task more.
    fn add_births(
        &mut self,
        alloc: Global,
        known: &Known,
        line: u32,
        kinds: &Kinds,
        task: &Name,
    ) -> Result<(), OrMemory<StandFault>>
        ensures { Leaves result self.new
            (add_births known.now line kinds.now self.old task.now) }
    {
        match kinds {
            Kinds::One(kind) => {
                if !known.has_kind(task, kind.number()) {
                    return Err(OrMemory::Fault(StandFault::UnknownName(line)));
                }
                self.add_kind(alloc, known, kind, task)?;
            }
            Kinds::Any => self.add_all(alloc, known, task)?,
        }
        Ok(())
    }

    /// Births of these tasks more.
    fn add_each_births(
        &mut self,
        alloc: Global,
        known: &Known,
        line: u32,
        kinds: &Kinds,
        tasks: &[Name],
    ) -> Result<(), OrMemory<StandFault>>
        ensures { Leaves result self.new
            (each (add_births known.now line kinds.now) self.old tasks.now) }
    {
        for task in tasks {
            self.add_births(alloc, known, line, kinds, task)?;
        }
        Ok(())
    }

    /// CLASS more.
    pub(crate) fn add_class(
        &mut self,
        alloc: Global,
        known: &Known,
        line: u32,
        holder: &Option<Name>,
        class: &WideClass,
    ) -> Result<(), OrMemory<StandFault>>
        ensures { Leaves result self.new
            (add_class known.now line holder.now self.old class.now) }
    {
        match class {
            WideClass::Port(port) => {
                if !known.has_port(port) {
                    return Err(OrMemory::Fault(StandFault::UnknownName(line)));
                }
                add_once(&mut self.classes, ClassName::Port(port.copy(alloc)?))?;
                Ok(())
            }
            WideClass::Task(whom) => {
                let tasks = whom_of(alloc, known, line, holder, whom)?;
                self.add_kernels(alloc, tasks.as_slice())?;
                Ok(())
            }
            WideClass::Births { whom, kinds } => {
                let tasks = whom_of(alloc, known, line, holder, whom)?;
                self.add_each_births(alloc, known, line, kinds, tasks.as_slice())
            }
            WideClass::Set(name) => match known.set(name) {
                Some(set) => {
                    self.add(alloc, set.classes.as_slice())?;
                    Ok(())
                }
                None => Err(OrMemory::Fault(StandFault::UnknownName(line))),
            },
        }
    }
}

/// CLASSES.
pub fn classes_of(
    alloc: Global,
    known: &Known,
    line: u32,
    holder: &Option<Name>,
    classes: &[WideClass],
) -> Result<Found, OrMemory<StandFault>>
    ensures { Gives (λ found. found) result
        (classes_of known.now line holder.now classes.now) }
{
    let mut found = Found::nothing(alloc);
    for class in classes {
        found.add_class(alloc, known, line, holder, class)?;
    }
    Ok(found)
}

/// The kernel ports of these tasks more.
fn add_kernel_places(
    alloc: Global,
    so_far: &mut Several<PlaceName>,
    tasks: &[Name],
) -> Result<(), AllocError>
    ensures { OnOk result
        (so_far.new ≡ with_each same_place so_far.old (map PlaceName.Task tasks.now)) }
{
    for task in tasks {
        add_once(so_far, PlaceName::Task(task.copy(alloc)?))?;
    }
    Ok(())
}

/// PLACE more.
fn add_place(
    alloc: Global,
    known: &Known,
    line: u32,
    holder: &Option<Name>,
    so_far: &mut Several<PlaceName>,
    place: &Place,
) -> Result<(), OrMemory<StandFault>>
    ensures { Leaves result so_far.new
        (add_place known.now line holder.now so_far.old place.now) }
{
    match place {
        Place::Port(port) => {
            if !known.has_port(port) {
                return Err(OrMemory::Fault(StandFault::UnknownName(line)));
            }
            add_once(so_far, PlaceName::Port(port.copy(alloc)?))?;
        }
        Place::Task(whom) => {
            let tasks = whom_of(alloc, known, line, holder, whom)?;
            add_kernel_places(alloc, so_far, tasks.as_slice())?;
        }
    }
    Ok(())
}

/// `PLACE, PLACE ..`
pub(crate) fn places_of(
    alloc: Global,
    known: &Known,
    line: u32,
    holder: &Option<Name>,
    places: &[Place],
) -> Result<Several<PlaceName>, OrMemory<StandFault>>
    ensures { Gives (λ list. list) result
        (places_of known.now line holder.now places.now) }
{
    let mut so_far = Several::empty(alloc);
    for place in places {
        add_place(alloc, known, line, holder, &mut so_far, place)?;
    }
    Ok(so_far)
}

/// One port more.
fn add_port(
    alloc: Global,
    known: &Known,
    line: u32,
    so_far: &mut Several<Name>,
    port: &Name,
) -> Result<(), OrMemory<StandFault>>
    ensures { Leaves result so_far.new (add_port known.now line so_far.old port.now) }
{
    if !known.has_port(port) {
        return Err(OrMemory::Fault(StandFault::UnknownName(line)));
    }
    add_once(so_far, port.copy(alloc)?)?;
    Ok(())
}

/// `port P, port P ..`
pub(crate) fn ports_of(
    alloc: Global,
    known: &Known,
    line: u32,
    ports: &[Name],
) -> Result<Several<Name>, OrMemory<StandFault>>
    ensures { Gives (λ list. list) result (ports_of known.now line ports.now) }
{
    let mut so_far = Several::empty(alloc);
    for port in ports {
        add_port(alloc, known, line, &mut so_far, port)?;
    }
    Ok(so_far)
}
