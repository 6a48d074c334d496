//! The lines that wide lines stand for, one wide line after the other.

ghost use Rattle.std.specs.Prelude.{◌≡◌, ◌||◌, ◌∷◌, ◌++◌, [], map, IfOk, OnOk, Ok, Err};
ghost use Rattle.std.specs.List.{list_any};
ghost use Rattle.mrc_base.specs.Reading.{Gives};
ghost use Rattle.mrc_stand_for.specs.Once.{with_each, same_slot};
ghost use Rattle.mrc_wiring_text.specs.declared.wiring.WiringSays.TheVariants as core;
ghost use Rattle.mrc_stand_for.specs.Known.{births_said};
ghost use Rattle.mrc_stand_for.specs.Products.{admit_none, verb_of};
ghost use Rattle.mrc_stand_for.specs.Steps.{Leaves, each};
ghost use Rattle.mrc_stand_for.specs.Standing.{names_all, whom_names_all, class_names_all};
ghost use Rattle.mrc_stand_for.specs.Standing.{place_names_all, closing, naming, add_group};
ghost use Rattle.mrc_stand_for.specs.Standing.{add_member, add_sends, add_trusts};
ghost use Rattle.mrc_stand_for.specs.Standing.{group_stands, set_stands, member_stands};
ghost use Rattle.mrc_stand_for.specs.Standing.{births_stands, replies_stands, send_stands};
ghost use Rattle.mrc_stand_for.specs.Standing.{once_stands, admit_stands, trust_stands};
ghost use Rattle.mrc_stand_for.specs.Standing.{none_stands, line_stands, is_late, is_group};
ghost use Rattle.mrc_stand_for.specs.Standing.{known_after, add_part, add_line, nothing_stands};
ghost use Rattle.mrc_stand_for.specs.Standing.{stand_for, IsStood, Stood, accepts_said};
ghost use Rattle.mrc_stand_for.specs.Standing.{stood_so_far, known_of};

use crate::expected::expected_classes;
use crate::faults::StandFault;
use crate::known::{ClassSet, Group, Known, KnownBirths, Member, is_among};
use crate::lists::{Found, classes_of, places_of, ports_of, tasks_of};
use crate::products::{
    admit_lines, births_lines, no_admit_lines, none_lines, once_lines, push_sends, push_trusts,
    replies_lines, task_lines, verbs_of,
};
use crate::several::{Several, add_each, add_once, copy_items, copy_kind, once};
use crate::wide::{Place, RightVerb, SlotName, Tasks, Whom, WideClass, WideLine, WideSays};
use mrc_base::limits::KINDS;
use mrc_base::{OrMemory, PortRight};
use mrc_wiring_text::{ClassName, Items, Kind, Line, Name, TrustVerb, WiringLine, WiringSays};
use std::alloc::{AllocError, Global};

/// Lines that the wide lines of a text may stand for, at most.
pub const LINES_STOOD_FOR: usize = 1_048_576;

/// What the wide lines of a text stand for.
#[derive(Drop)]
pub struct StandsFor {
    /// The lines: all, or those in front of the first that is refused. Each has the number of the
    /// wide line that it is of.
    pub lines: Several<WiringLine>,
    /// What is known after all lines, or why a line is refused.
    pub end: Result<Known, StandFault>,
}

/// The lines so far.
#[derive(Drop)]
pub(crate) struct Standing {
    /// What is known.
    pub known: Known,
    /// The lines that they stand for.
    pub lines: Several<WiringLine>,
}

/// Whether a list names all tasks.
fn names_all(tasks: &Tasks) -> bool
    ensures { result ≡ names_all tasks.now }
{
    match tasks {
        Tasks::All | Tasks::AllBut(_) => true,
        Tasks::Listed(_) => false,
    }
}

fn whom_names_all(whom: &Whom) -> bool
    ensures { result ≡ whom_names_all whom.now }
{
    match whom {
        Whom::Who(_) => false,
        Whom::All | Whom::AllBut(_) | Whom::Other => true,
    }
}

fn class_names_all(class: &WideClass) -> bool
    ensures { result ≡ class_names_all class.now }
{
    match class {
        WideClass::Port(_) | WideClass::Set(_) => false,
        WideClass::Task(whom) => whom_names_all(whom),
        WideClass::Births { whom, .. } => whom_names_all(whom),
    }
}

fn place_names_all(place: &Place) -> bool
    ensures { result ≡ place_names_all place.now }
{
    match place {
        Place::Port(_) => false,
        Place::Task(whom) => whom_names_all(whom),
    }
}

fn any_class_names_all(classes: &[WideClass]) -> bool
    ensures { result ≡ list_any class_names_all classes.now }
{
    classes.iter().any(|class| class_names_all(class))
}

fn any_place_names_all(places: &[Place]) -> bool
    ensures { result ≡ list_any place_names_all places.now }
{
    places.iter().any(|place| place_names_all(place))
}

fn send_names_all(tasks: &Tasks, places: &[Place]) -> bool
    ensures { result ≡ (names_all tasks.now || list_any place_names_all places.now) }
{
    names_all(tasks) || any_place_names_all(places)
}

fn trust_names_all(tasks: &Tasks, classes: &[WideClass]) -> bool
    ensures { result ≡ (names_all tasks.now || list_any class_names_all classes.now) }
{
    names_all(tasks) || any_class_names_all(classes)
}

/// There are no more tasks, if a list names all.
fn close(known: &mut Known, all: bool)
    ensures { known.new ≡ closing all known.old }
{
    known.closed |= all;
}

/// What the classes that a list names close.
fn name_classes(alloc: Global, known: &mut Known, found: &Found) -> Result<(), AllocError>
    ensures { OnOk result (known.new ≡ naming found.now known.old) }
{
    add_each(alloc, &mut known.closed_kinds, found.closed.as_slice())?;
    add_each(alloc, &mut known.named, found.classes.as_slice())?;
    Ok(())
}

/// One group more, of a new name.
fn add_group(
    alloc: Global,
    known: &mut Known,
    line: u32,
    name: &Name,
    tasks: Several<Name>,
) -> Result<(), OrMemory<StandFault>>
    ensures { Leaves result known.new (add_group known.old line name.now tasks) }
{
    if known.has_task(name) || known.has_group(name) {
        return Err(OrMemory::Fault(StandFault::TwiceNamed(line)));
    }
    let name = name.copy(alloc)?;
    known.groups.push(Group { name, tasks })?;
    Ok(())
}

/// One set more.
fn push_set(
    alloc: Global,
    known: &mut Known,
    name: &Name,
    found: Found,
    bare: Several<ClassName>,
) -> Result<(), AllocError>
    ensures { OnOk result (known.new ≡ record known.old {
      sets = known.old.sets
          ++ record { name = name.now; classes = found.classes; bare = bare } ∷ [];
    }) }
{
    let name = name.copy(alloc)?;
    let Found { classes, closed } = found;
    drop(closed);
    let set = ClassSet {
        name,
        classes,
        bare,
    };
    known.sets.push(set)?;
    Ok(())
}

/// What the births of a task accept, or nothing.
fn accepts_said(alloc: Global, known: &Known, task: &Name, kind: &Kind) -> Result<Items, AllocError>
    ensures { IfOk result (λ items.
        items ≡ accepts_said (births_said known.now task.now kind.now)) }
{
    match known.births_said(task, kind.number()) {
        Some(births) => Ok(copy_items(alloc, &births.accepts)?),
        None => Ok(Items::new(Vec::new(alloc))),
    }
}

/// A port that is of the births of a task.
fn add_member(
    alloc: Global,
    known: &mut Known,
    line: u32,
    port: &Name,
    task: &Name,
    kind: &Kind,
) -> Result<(), OrMemory<StandFault>>
    ensures { Leaves result known.new
        (add_member known.old line port.now task.now kind.now) }
{
    if !(known.has_task(task) && known.has_kind(task, kind.number())) {
        return Err(OrMemory::Fault(StandFault::UnknownName(line)));
    }
    let class = ClassName::Births {
        task: task.copy(alloc)?,
        kind: copy_kind(kind),
    };
    if known.has_named(&class) {
        return Err(OrMemory::Fault(StandFault::Late(line)));
    }
    known.members.push(Member {
        port: port.copy(alloc)?,
        task: task.copy(alloc)?,
        kind: copy_kind(kind),
    })?;
    Ok(())
}

/// `port P of births T K`.
fn member_stands(
    alloc: Global,
    known: &mut Known,
    line: u32,
    port: &Name,
    task: &Name,
    kind: &Kind,
) -> Result<Several<WiringSays>, OrMemory<StandFault>>
    ensures { IsStood result known.new
        (member_stands known.old line port.now task.now kind.now) }
{
    let accepts = accepts_said(alloc, known, task, kind)?;
    add_member(alloc, known, line, port, task, kind)?;
    let mut lines = Several::empty(alloc);
    lines.push(WiringSays::Port {
        port: port.copy(alloc)?,
        receiver: task.copy(alloc)?,
        accepts,
    })?;
    Ok(lines)
}

/// `port P receiver T accepts ITEMS`.
fn port_lines(
    alloc: Global,
    port: &Name,
    receiver: &Name,
    accepts: &Items,
) -> Result<Several<WiringSays>, AllocError>
    ensures { IfOk result (λ lines.
        lines ≡ core.Port port.now receiver.now accepts.now ∷ []) }
{
    let mut lines = Several::empty(alloc);
    lines.push(WiringSays::Port {
        port: port.copy(alloc)?,
        receiver: receiver.copy(alloc)?,
        accepts: copy_items(alloc, accepts)?,
    })?;
    Ok(lines)
}

/// `replies fit`.
fn fit_lines(alloc: Global) -> Result<Several<WiringSays>, AllocError>
    ensures { IfOk result (λ lines. lines ≡ core.RepliesFit ∷ []) }
{
    let mut lines = Several::empty(alloc);
    lines.push(WiringSays::RepliesFit)?;
    Ok(lines)
}

/// `group G TASKS`.
pub fn group_stands(
    alloc: Global,
    known: &mut Known,
    line: u32,
    group: &Name,
    tasks: &Tasks,
) -> Result<Several<WiringSays>, OrMemory<StandFault>>
    ensures { IsStood result known.new (group_stands known.old line group.now tasks.now) }
{
    let listed = tasks_of(alloc, known, line, tasks)?;
    add_group(alloc, known, line, group, listed)?;
    close(known, names_all(tasks));
    Ok(Several::empty(alloc))
}

/// `set S CLASSES`.
pub fn set_stands(
    alloc: Global,
    known: &mut Known,
    line: u32,
    set: &Name,
    classes: &[WideClass],
) -> Result<Several<WiringSays>, OrMemory<StandFault>>
    ensures { IsStood result known.new (set_stands known.old line set.now classes.now) }
{
    let nobody = None;
    let found = classes_of(alloc, known, line, &nobody, classes)?;
    let bare = expected_classes(alloc, known, line, &nobody, classes)?;
    if known.has_set(set) {
        return Err(OrMemory::Fault(StandFault::TwiceNamed(line)));
    }
    name_classes(alloc, known, &found)?;
    push_set(alloc, known, set, found, bare)?;
    close(known, any_class_names_all(classes));
    Ok(Several::empty(alloc))
}

/// `births TASKS K accepts ITEMS`.
fn births_stands(
    alloc: Global,
    known: &mut Known,
    line: u32,
    tasks: &Tasks,
    kind: &Kind,
    accepts: &Items,
) -> Result<Several<WiringSays>, OrMemory<StandFault>>
    ensures { IsStood result known.new
        (births_stands known.old line tasks.now kind.now accepts.now) }
{
    let listed = tasks_of(alloc, known, line, tasks)?;
    close(known, names_all(tasks));
    Ok(births_lines(alloc, listed.as_slice(), kind, accepts)?)
}

/// `births TASKS K replies I, I ..`
fn replies_stands(
    alloc: Global,
    known: &mut Known,
    line: u32,
    tasks: &Tasks,
    kind: &Kind,
    subsystems: &[Name],
) -> Result<Several<WiringSays>, OrMemory<StandFault>>
    ensures { IsStood result known.new
        (replies_stands known.old line tasks.now kind.now subsystems.now) }
{
    if subsystems.len() > usize::from(KINDS - kind.number()) {
        return Err(OrMemory::Fault(StandFault::BadLine(line)));
    }
    let listed = tasks_of(alloc, known, line, tasks)?;
    close(known, names_all(tasks));
    Ok(replies_lines(alloc, listed.as_slice(), kind, subsystems)?)
}

/// The send rights of a holder.
fn add_sends(
    alloc: Global,
    known: &Known,
    line: u32,
    places: &[Place],
    lines: &mut Several<WiringSays>,
    holder: &Name,
) -> Result<(), OrMemory<StandFault>>
    ensures { Leaves result lines.new
        (add_sends known.now line places.now lines.old holder.now) }
{
    let task = Some(holder.copy(alloc)?);
    let found = places_of(alloc, known, line, &task, places)?;
    push_sends(alloc, lines, holder, found.as_slice())?;
    Ok(())
}

/// The send rights of each holder.
fn all_sends(
    alloc: Global,
    known: &Known,
    line: u32,
    places: &[Place],
    holders: &[Name],
) -> Result<Several<WiringSays>, OrMemory<StandFault>>
    ensures { Gives (λ lines. lines) result
        (each (add_sends known.now line places.now) [] holders.now) }
{
    let mut lines = Several::empty(alloc);
    for holder in holders {
        add_sends(alloc, known, line, places, &mut lines, holder)?;
    }
    Ok(lines)
}

/// `hold TASKS send PLACE, PLACE ..`
fn send_stands(
    alloc: Global,
    known: &mut Known,
    line: u32,
    tasks: &Tasks,
    places: &[Place],
) -> Result<Several<WiringSays>, OrMemory<StandFault>>
    ensures { IsStood result known.new (send_stands known.old line tasks.now places.now) }
{
    let listed = tasks_of(alloc, known, line, tasks)?;
    let lines = all_sends(alloc, known, line, places, listed.as_slice())?;
    close(known, send_names_all(tasks, places));
    Ok(lines)
}

/// `hold TASKS once port P, port P ..`
fn once_stands(
    alloc: Global,
    known: &mut Known,
    line: u32,
    tasks: &Tasks,
    ports: &[Name],
) -> Result<Several<WiringSays>, OrMemory<StandFault>>
    ensures { IsStood result known.new (once_stands known.old line tasks.now ports.now) }
{
    let listed = tasks_of(alloc, known, line, tasks)?;
    let found = ports_of(alloc, known, line, ports)?;
    close(known, names_all(tasks));
    Ok(once_lines(alloc, listed.as_slice(), found.as_slice())?)
}

/// `admit SLOT, SLOT .. CLASSES`.
fn admit_stands(
    alloc: Global,
    known: &mut Known,
    line: u32,
    slots: &[SlotName],
    classes: &[WideClass],
) -> Result<Several<WiringSays>, OrMemory<StandFault>>
    ensures { IsStood result known.new (admit_stands known.old line slots.now classes.now) }
{
    let nobody = None;
    let found = classes_of(alloc, known, line, &nobody, classes)?;
    name_classes(alloc, known, &found)?;
    close(known, any_class_names_all(classes));
    let slots = once(alloc, slots)?;
    Ok(admit_lines(alloc, slots.as_slice(), found.classes.as_slice())?)
}

/// `admit SLOT, SLOT .. none`.
fn no_admits(alloc: Global, slots: &[SlotName]) -> Result<Several<WiringSays>, AllocError>
    ensures { IfOk result (λ lines. lines ≡ map admit_none (with_each same_slot [] slots.now)) }
{
    let slots = once(alloc, slots)?;
    Ok(no_admit_lines(alloc, slots.as_slice())?)
}

/// What a trusted task may do by each verb.
fn add_trusts(
    alloc: Global,
    known: &mut Known,
    lines: &mut Several<WiringSays>,
    line: u32,
    verbs: &[TrustVerb],
    rights: &[PortRight],
    classes: &[WideClass],
    task: &Name,
) -> Result<(), OrMemory<StandFault>>
    ensures { Leaves result (stood_so_far known.new lines.new)
        (add_trusts line verbs.now rights.now classes.now
        (stood_so_far known.old lines.old) task.now) }
{
    let holder = Some(task.copy(alloc)?);
    let found = classes_of(alloc, known, line, &holder, classes)?;
    name_classes(alloc, known, &found)?;
    push_trusts(alloc, lines, task, verbs, rights, found.classes.as_slice())?;
    Ok(())
}

/// The same of each of the tasks.
fn all_trusts(
    alloc: Global,
    known: &mut Known,
    line: u32,
    verbs: &[TrustVerb],
    rights: &[PortRight],
    classes: &[WideClass],
    tasks: &[Name],
) -> Result<Several<WiringSays>, OrMemory<StandFault>>
    ensures { IsStood result known.new
        (each (add_trusts line verbs.now rights.now classes.now)
        (stood_so_far known.old []) tasks.now) }
{
    let mut lines = Several::empty(alloc);
    for task in tasks {
        add_trusts(alloc, known, &mut lines, line, verbs, rights, classes, task)?;
    }
    Ok(lines)
}

/// `trust TASKS VERB, VERB .. RIGHTS CLASSES`.
fn trust_stands(
    alloc: Global,
    known: &mut Known,
    line: u32,
    tasks: &Tasks,
    verbs: &[TrustVerb],
    rights: &[PortRight],
    classes: &[WideClass],
) -> Result<Several<WiringSays>, OrMemory<StandFault>>
    ensures { IsStood result known.new
        (trust_stands known.old line tasks.now verbs.now rights.now classes.now) }
{
    let listed = tasks_of(alloc, known, line, tasks)?;
    let verbs = once(alloc, verbs)?;
    let rights = once(alloc, rights)?;
    close(known, trust_names_all(tasks, classes));
    let verbs = verbs.as_slice();
    all_trusts(
        alloc,
        known,
        line,
        verbs,
        rights.as_slice(),
        classes,
        listed.as_slice(),
    )
}

/// `trust TASKS VERB, VERB .. RIGHTS CLASSES`, by its own verbs.
fn trust_rights(
    alloc: Global,
    known: &mut Known,
    line: u32,
    tasks: &Tasks,
    verbs: &[RightVerb],
    rights: &[PortRight],
    classes: &[WideClass],
) -> Result<Several<WiringSays>, OrMemory<StandFault>>
    ensures { IsStood result known.new (trust_stands known.old line tasks.now
        (map verb_of verbs.now) rights.now classes.now) }
{
    let verbs = verbs_of(alloc, verbs)?;
    trust_stands(alloc, known, line, tasks, verbs.as_slice(), rights, classes)
}

/// `trust TASKS replies CLASSES`.
fn trust_replies(
    alloc: Global,
    known: &mut Known,
    line: u32,
    tasks: &Tasks,
    classes: &[WideClass],
) -> Result<Several<WiringSays>, OrMemory<StandFault>>
    ensures { IsStood result known.new
        (trust_stands known.old line tasks.now (TrustVerb.Replies ∷ []) (PortRight.SendOnce ∷ [])
        classes.now) }
{
    let verbs = [TrustVerb::Replies];
    let rights = [PortRight::SendOnce];
    trust_stands(alloc, known, line, tasks, &verbs, &rights, classes)
}

/// `trust TASKS VERB, VERB .. none`.
fn none_stands(
    alloc: Global,
    known: &mut Known,
    line: u32,
    tasks: &Tasks,
    verbs: &[TrustVerb],
) -> Result<Several<WiringSays>, OrMemory<StandFault>>
    ensures { IsStood result known.new (none_stands known.old line tasks.now verbs.now) }
{
    let listed = tasks_of(alloc, known, line, tasks)?;
    close(known, names_all(tasks));
    let verbs = once(alloc, verbs)?;
    Ok(none_lines(alloc, listed.as_slice(), verbs.as_slice())?)
}

/// The lines that a line stands for.
fn line_stands(
    alloc: Global,
    known: &mut Known,
    line: u32,
    says: &WideSays,
) -> Result<Several<WiringSays>, OrMemory<StandFault>>
    ensures { IsStood result known.new (line_stands known.old line says.now) }
{
    match says {
        WideSays::Task(names) => Ok(task_lines(alloc, names.as_slice())?),
        WideSays::Group { group, tasks } => group_stands(alloc, known, line, group, tasks),
        WideSays::Set { set, classes } => set_stands(alloc, known, line, set, classes.as_slice()),
        WideSays::Port {
            port,
            receiver,
            accepts,
        } => Ok(port_lines(alloc, port, receiver, accepts)?),
        WideSays::PortOf { port, task, kind } => {
            member_stands(alloc, known, line, port, task, kind)
        }
        WideSays::Births {
            tasks,
            kind,
            accepts,
        } => births_stands(alloc, known, line, tasks, kind, accepts),
        WideSays::Replies {
            tasks,
            kind,
            subsystems,
        } => replies_stands(alloc, known, line, tasks, kind, subsystems.as_slice()),
        WideSays::HoldSend { tasks, places } => {
            send_stands(alloc, known, line, tasks, places.as_slice())
        }
        WideSays::HoldOnce { tasks, ports } => {
            once_stands(alloc, known, line, tasks, ports.as_slice())
        }
        WideSays::Admit { slots, classes } => match classes {
            Some(classes) => {
                admit_stands(alloc, known, line, slots.as_slice(), classes.as_slice())
            }
            None => Ok(no_admits(alloc, slots.as_slice())?),
        },
        WideSays::Trust {
            tasks,
            verbs,
            rights,
            classes,
        } => trust_rights(
            alloc,
            known,
            line,
            tasks,
            verbs.as_slice(),
            rights.as_slice(),
            classes.as_slice(),
        ),
        WideSays::TrustReplies { tasks, classes } => {
            trust_replies(alloc, known, line, tasks, classes.as_slice())
        }
        WideSays::TrustNone { tasks, verbs } => {
            none_stands(alloc, known, line, tasks, verbs.as_slice())
        }
        WideSays::RepliesFit => Ok(fit_lines(alloc)?),
    }
}

/// Whether a line that is stood for adds to what a line above has closed.
fn is_late(known: &Known, says: &WiringSays) -> bool
    ensures { result ≡ is_late known.now says.now }
{
    match says {
        WiringSays::Task(_) => known.closed,
        WiringSays::Births { task, kind, .. } => {
            is_among(task, known.closed_kinds.as_slice()) || known.has_member(task, kind.number())
        }
        _ => false,
    }
}

/// Whether it names a task as a group.
fn is_group(known: &Known, says: &WiringSays) -> bool
    ensures { result ≡ is_group known.now says.now }
{
    match says {
        WiringSays::Task(name) => known.has_group(name),
        _ => false,
    }
}

/// What is known after it.
fn learn(alloc: Global, known: &mut Known, says: &WiringSays) -> Result<(), AllocError>
    ensures { OnOk result (known.new ≡ known_after known.old says.now) }
{
    match says {
        WiringSays::Task(name) => {
            add_once(&mut known.tasks, name.copy(alloc)?)?;
            Ok(())
        }
        WiringSays::Port { port, .. } => {
            known.ports.push(port.copy(alloc)?)?;
            Ok(())
        }
        WiringSays::Births {
            task,
            kind,
            accepts,
        } => {
            known.births.push(KnownBirths {
                task: task.copy(alloc)?,
                kind: copy_kind(kind),
                accepts: copy_items(alloc, accepts)?,
            })?;
            Ok(())
        }
        _ => Ok(()),
    }
}

/// What is known after the lines of a wiring of an older version, which stand for themselves.
pub fn known_of(alloc: Global, lines: &[WiringLine]) -> Result<Known, AllocError>
    ensures { IfOk result (λ known. known ≡ known_of lines.now) }
{
    let mut known = Known::empty(alloc);
    for line in lines {
        learn(alloc, &mut known, &line.says)?;
    }
    Ok(known)
}

impl Standing {
    /// No line yet.
    fn nothing(alloc: Global) -> Standing
        ensures { result ≡ nothing_stands }
    {
        Standing {
            known: Known::empty(alloc),
            lines: Several::empty(alloc),
        }
    }

    /// One line more that is stood for.
    fn add_part(
        &mut self,
        alloc: Global,
        line: u32,
        says: WiringSays,
    ) -> Result<(), OrMemory<StandFault>>
        ensures { Stood result self.new (add_part line self.old says) }
    {
        if is_late(&self.known, &says) {
            return Err(OrMemory::Fault(StandFault::Late(line)));
        }
        if is_group(&self.known, &says) {
            return Err(OrMemory::Fault(StandFault::TwiceNamed(line)));
        }
        if self.lines.as_slice().len() >= LINES_STOOD_FOR {
            return Err(OrMemory::Fault(StandFault::TooMany(line)));
        }
        learn(alloc, &mut self.known, &says)?;
        self.lines.push(Line { number: line, says })?;
        Ok(())
    }

    /// Lines more that are stood for.
    fn add_parts(
        &mut self,
        alloc: Global,
        line: u32,
        parts: Vec<WiringSays>,
    ) -> Result<(), OrMemory<StandFault>>
        ensures { Stood result self.new (each (add_part line) self.old parts.items) }
    {
        for says in parts {
            self.add_part(alloc, line, says)?;
        }
        Ok(())
    }

    /// One wide line more.
    fn add_line(&mut self, alloc: Global, line: &WideLine) -> Result<(), OrMemory<StandFault>>
        ensures { Stood result self.new (add_line self.old line.now) }
    {
        let parts = line_stands(alloc, &mut self.known, line.number, &line.says)?;
        self.add_parts(alloc, line.number, parts.into_vec())
    }
}

/// The lines in front of the first that is refused.
fn front(standing: Standing, fault: StandFault) -> StandsFor
    ensures { result ≡ record { lines = standing.lines; end = Err fault } }
{
    let Standing { known, lines } = standing;
    drop(known);
    StandsFor {
        lines,
        end: Err(fault),
    }
}

/// All lines.
fn whole(standing: Standing) -> StandsFor
    ensures { result ≡ record { lines = standing.lines; end = Ok standing.known } }
{
    let Standing { known, lines } = standing;
    StandsFor {
        lines,
        end: Ok(known),
    }
}

/// What the wide lines of a text stand for: the lines of version 3, in order, and what is known
/// after them; or those in front of the first that is refused, and why it is.
pub fn stand_for(alloc: Global, lines: &[WideLine]) -> Result<StandsFor, AllocError>
    ensures exact { IfOk result (λ stood. stood ≡ stand_for lines.now) }
{
    let mut standing = Standing::nothing(alloc);
    for line in lines {
        match standing.add_line(alloc, line) {
            Ok(()) => {}
            Err(OrMemory::Fault(fault)) => return Ok(front(standing, fault)),
            Err(OrMemory::Memory) => {
                drop(standing);
                return Err(AllocError);
            }
        }
    }
    Ok(whole(standing))
}
