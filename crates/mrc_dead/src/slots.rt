//! Slots that never carry a right from one task to another.

ghost use Rattle.std.specs.Prelude.{◌≡◌, ◌++◌, ◌<◌, [], IfOk, OnOk, Some, find, flat_map, length};
ghost use Rattle.std.specs.Prelude.{slice_get};
ghost use Rattle.std.specs.Prelude.{string_bytes};
ghost use Rattle.std.specs.Option.{option_map};
ghost use Rattle.std.specs.List.{list_all, list_any};
ghost use Rattle.mrc_facts.specs.Sets.{has};
ghost use Rattle.mrc_forms.specs.Tables.{form_in};
ghost use Rattle.mrc_model.specs.IsIn.{IsIn};
ghost use Rattle.mrc_rows.specs.Rows.{words_of};
ghost use Rattle.mrc_wiring.specs.Finding.{item_of};
ghost use Rattle.mrc_wiring.specs.Labels.{interface_number};
ghost use Rattle.mrc_wiring.specs.ModelForms.{is_at, model_form};
ghost use Rattle.mrc_wiring.specs.Sorts.{sorts_of, sort_number};
ghost use Rattle.mrc_wiring.specs.Table.{wiring_of};
ghost use Rattle.mrc_dead.specs.Asking.{askers};
ghost use Rattle.mrc_dead.specs.Dead.{fills_at, fills, are_idle, is_dead_slot, slot_if, dead_from};
ghost use Rattle.mrc_dead.specs.Dead.{dead_in, dead_of_row, dead_slots, dead_of};
ghost use Rattle.mrc_dead.specs.Dead.{dead_line, dead_if, is_first, dead_at};
ghost use Rattle.mrc_dead.specs.Dead.{dead_among};
ghost use Rattle.mrc_dead.specs.Searching.{AreAskers, HasAskers, KnowsAskers, wanted};

use crate::asking::{askers, holds};
use crate::parts::{DeadLine, DeadSlot};
use crate::subjects::{add_subject, is_among, subject, type_subject};
use mrc_base::limits::TASKS;
use mrc_base::{ClassId, Disp, TaskId, give, need};
use mrc_bits::has_fresh;
use mrc_forms::{Argument, Form, Interface, MessageKind, Row, Slot};
use mrc_model::Verb;
use mrc_name_table::NameTable;
use mrc_rows::{Facts, Row as FactRow};
use mrc_wiring::{TypedForm, Wired, item_of};
use mrc_wiring_text::{WiringLine, WiringSays};
use std::alloc::{AllocError, Global};

/// What is looked for: slots of a type of the interface of this number, by these facts; and the
/// tasks that may ask another for requests and for replies of the interface.
#[derive(Clone, Copy)]
pub(crate) struct Search<'a> {
    wired: &'a Wired,
    facts: &'a Facts,
    interface: usize,
    type_name: &'a str,
    requests: &'a [u16],
    replies: &'a [u16],
}

/// A system, and the tasks that may ask another for requests and for replies of each interface.
#[derive(Clone, Copy)]
struct Judged<'a> {
    wired: &'a Wired,
    facts: &'a Facts,
    requests: &'a [Vec<u16>],
    replies: &'a [Vec<u16>],
}

/// The tasks that may ask another for this message of each interface.
fn askers_of(
    alloc: Global,
    wired: &Wired,
    facts: &Facts,
    kind: MessageKind,
) -> Result<Vec<Vec<u16>>, AllocError>
    ensures { IfOk result (λ rows. AreAskers (wiring_of wired.now) (has facts.now) kind
        (length wired.now.interfaces) rows.items) }
{
    let mut rows = Vec::new(alloc);
    for interface in 0..wired.interfaces().len() {
        rows.push(askers(alloc, wired, facts, item_of(kind, interface))?)?;
    }
    Ok(rows)
}

/// The tasks of a row.
fn tasks_at(rows: &[Vec<u16>], number: usize) -> &[u16]
    ensures { result.now ≡ words_of rows.now number }
{
    match rows.get(number) {
        Some(row) => row.as_slice(),
        None => &[],
    }
}

/// Whether the task holds on the class what a slot of this disposition needs, the slot's type
/// admits the class, and no line keeps the task from sending it.
fn fills_at(wired: &Wired, facts: &Facts, disp: Disp, sort: usize, task: u16, class: u16) -> bool
    ensures { result ≡ fills_at (wiring_of wired.now) (has facts.now) disp sort task class }
{
    holds(facts, task, class, need(disp))
        && wired.admits(sort, ClassId(class))
        && wired.may(
            Verb::Sends,
            TaskId(u32::from(task)),
            give(disp),
            ClassId(class),
        )
}

/// The same of each class in turn.
#[tactic(auto, using(crate::proofs::Numbers::any_none))]
fn fills_some(wired: &Wired, facts: &Facts, disp: Disp, sort: usize, task: u16) -> bool
    ensures { result ≡ fills (wiring_of wired.now) (has facts.now) disp sort task }
{
    for class in 0..wired.classes() {
        if fills_at(wired, facts, disp, sort, task, class) {
            return true;
        }
    }
    false
}

/// Whether the task has a right for a slot of this disposition and type. Most often no class has
/// both bits, and then no class is looked at by itself.
fn fills(wired: &Wired, facts: &Facts, disp: Disp, sort: usize, task: u16) -> bool
    ensures { result ≡ fills (wiring_of wired.now) (has facts.now) disp sort task }
{
    let _classes = wired.classes();
    let held = facts.words(FactRow::Holds(task, need(disp)));
    let may_fill = has_fresh(&[], held, wired.admitting(sort));
    if usize::from(task) < TASKS && !may_fill {
        return false;
    }
    fills_some(wired, facts, disp, sort, task)
}

/// Whether one of these tasks has a right for the slot.
fn some_fills(wired: &Wired, facts: &Facts, disp: Disp, sort: usize, tasks: &[u16]) -> bool
    ensures { result
        ≡ list_any (fills (wiring_of wired.now) (has facts.now) disp sort) tasks.now }
{
    tasks
        .iter()
        .any(|task| fills(wired, facts, disp, sort, *task))
}

/// Whether there is one of these tasks, and none of them has a right for the slot.
fn are_idle(wired: &Wired, facts: &Facts, disp: Disp, sort: usize, tasks: &[u16]) -> bool
    ensures { result ≡ are_idle (wiring_of wired.now) (has facts.now) disp sort tasks.now }
{
    !tasks.is_empty() && !some_fills(wired, facts, disp, sort, tasks)
}

/// Whether that is so of a slot of each of these dispositions.
fn are_all_idle(wired: &Wired, facts: &Facts, disps: &[Disp], sort: usize, tasks: &[u16]) -> bool
    ensures { result ≡ list_all
        (λ disp. are_idle (wiring_of wired.now) (has facts.now) disp sort tasks.now) disps.now }
{
    disps
        .iter()
        .all(|disp| are_idle(wired, facts, *disp, sort, tasks))
}

/// The tasks that may ask another for this message.
fn tasks_of<'a>(search: &Search<'a>, kind: MessageKind) -> &'a [u16]
    requires { KnowsAskers search.now }
    ensures { result.now ≡ askers (wiring_of search.now.wired.now) (has search.now.facts.now)
        (item_of kind search.now.interface) }
{
    match kind {
        MessageKind::Request => search.requests,
        MessageKind::Reply => search.replies,
    }
}

/// The slot that is the argument of this number.
fn slot_at(form: &Form, argument: usize) -> Option<&Slot>
    ensures { option_map (λ slot. slot.now) result ≡ find (is_at argument) form.now.slots }
{
    form.slots().iter().find(|slot| slot.argument == argument)
}

/// Whether the slot is such a one, and is dead. Its type has this number.
fn is_dead_slot(search: &Search<'_>, kind: MessageKind, slot: &Slot, sort: usize) -> bool
    requires knows { KnowsAskers search.now }
    requires sort { sort ≡ sort_number (sorts_of search.now.wired.now.interfaces)
        search.now.interface slot.now.type_name }
    ensures { result ≡ is_dead_slot (wanted search.now) kind (Some slot.now) }
{
    slot.type_name.as_str() == search.type_name
        && are_all_idle(
            search.wired,
            search.facts,
            slot.dispositions(),
            sort,
            tasks_of(search, kind),
        )
}

/// Puts the slot of these names at the end, if it is dead.
fn push_if(
    alloc: Global,
    is_dead: bool,
    routine: &str,
    argument: &str,
    dead: &mut Vec<DeadSlot>,
) -> Result<(), AllocError>
    ensures { OnOk result
        (dead.new.items ≡ dead.old.items ++ slot_if is_dead routine.now argument.now) }
{
    if is_dead {
        dead.push(DeadSlot {
            routine: String::from_str(alloc, routine)?,
            argument: String::from_str(alloc, argument)?,
        })?;
    }
    Ok(())
}

/// Puts the argument of this number at the end, if it is a dead slot.
fn judge_argument(
    alloc: Global,
    search: &Search<'_>,
    kind: MessageKind,
    form: &Form,
    typed: &TypedForm,
    place: usize,
    argument: &Argument,
    dead: &mut Vec<DeadSlot>,
) -> Result<(), AllocError>
    requires knows { KnowsAskers search.now }
    requires typed { typed.now ≡ model_form kind (sorts_of search.now.wired.now.interfaces)
        search.now.interface form.now }
    requires within { place < length form.now.arguments }
    ensures { OnOk result (dead.new.items ≡ dead.old.items
        ++ slot_if (is_dead_slot (wanted search.now) kind (find (is_at place) form.now.slots))
        form.now.name argument.now.name) }
{
    let Some(slot) = slot_at(form, place) else {
        return Ok(());
    };
    let is_dead = is_dead_slot(search, kind, slot, typed.sort(place));
    push_if(alloc, is_dead, form.name(), argument.name.as_str(), dead)
}

/// Puts the arguments of the form that are dead slots at the end.
#[tactic(auto, using(crate::proofs::SlotSteps::slot_more, crate::proofs::SlotSteps::slot_end))]
fn judge_form(
    alloc: Global,
    search: &Search<'_>,
    kind: MessageKind,
    form: &Form,
    typed: &TypedForm,
    dead: &mut Vec<DeadSlot>,
) -> Result<(), AllocError>
    requires knows { KnowsAskers search.now }
    requires typed { typed.now ≡ model_form kind (sorts_of search.now.wired.now.interfaces)
        search.now.interface form.now }
    ensures { OnOk result (dead.new.items ≡ dead.old.items
        ++ dead_from (wanted search.now) kind form.now 0 form.now.arguments) }
{
    for (place, argument) in form.arguments().iter().enumerate() {
        judge_argument(alloc, search, kind, form, typed, place, argument, dead)?;
    }
    Ok(())
}

/// The same of the form of this message in a row of the interface.
fn judge_message(
    alloc: Global,
    search: &Search<'_>,
    kind: MessageKind,
    interface: &Interface,
    row: &Row,
    dead: &mut Vec<DeadSlot>,
) -> Result<(), AllocError>
    requires knows { KnowsAskers search.now }
    requires there { slice_get search.now.wired.now.interfaces search.now.interface
        ≡ Some interface.now }
    requires row { IsIn row.now interface.now.rows }
    ensures { OnOk result (dead.new.items ≡ dead.old.items
        ++ dead_in (wanted search.now) kind (form_in kind row.now)) }
{
    let _ids = interface.ids();
    let Some(form) = row.form(kind) else {
        return Ok(());
    };
    let item = item_of(kind, search.interface);
    match search.wired.item_form(item, form.id()) {
        Some(typed) => judge_form(alloc, search, kind, form, typed, dead),
        None => Ok(()),
    }
}

/// The same of the request and the reply of a routine.
fn judge_row(
    alloc: Global,
    search: &Search<'_>,
    interface: &Interface,
    row: &Row,
    dead: &mut Vec<DeadSlot>,
) -> Result<(), AllocError>
    requires knows { KnowsAskers search.now }
    requires there { slice_get search.now.wired.now.interfaces search.now.interface
        ≡ Some interface.now }
    requires row { IsIn row.now interface.now.rows }
    ensures { OnOk result
        (dead.new.items ≡ dead.old.items ++ dead_of_row (wanted search.now) row.now) }
{
    judge_message(alloc, search, MessageKind::Request, interface, row, dead)?;
    judge_message(alloc, search, MessageKind::Reply, interface, row, dead)
}

/// The dead slots of the interface.
fn slots_of_rows(
    alloc: Global,
    search: &Search<'_>,
    interface: &Interface,
) -> Result<Vec<DeadSlot>, AllocError>
    requires knows { KnowsAskers search.now }
    requires there { slice_get search.now.wired.now.interfaces search.now.interface
        ≡ Some interface.now }
    ensures { IfOk result (λ dead.
        dead.items ≡ flat_map (dead_of_row (wanted search.now)) interface.now.rows) }
{
    let mut dead = Vec::new(alloc);
    for row in interface.rows() {
        judge_row(alloc, search, interface, row, &mut dead)?;
    }
    Ok(dead)
}

/// The dead slots of a type of the interface of this number, if there is one.
fn dead_slots(
    alloc: Global,
    system: &Judged<'_>,
    interface: usize,
    type_name: &str,
) -> Result<Vec<DeadSlot>, AllocError>
    requires { HasAskers system.now }
    ensures { IfOk result (λ dead. dead.items
        ≡ dead_slots system.now.wired.now (has system.now.facts.now) interface type_name.now
        (slice_get system.now.wired.now.interfaces interface)) }
{
    let Some(found) = system.wired.interface(interface) else {
        return Ok(Vec::new(alloc));
    };
    let search = Search {
        wired: system.wired,
        facts: system.facts,
        interface,
        type_name,
        requests: tasks_at(system.requests, interface),
        replies: tasks_at(system.replies, interface),
    };
    slots_of_rows(alloc, &search, found)
}

/// The number of the interface of a name.
fn interface_number(wired: &Wired, name: &str) -> Option<usize>
    ensures { result ≡ interface_number wired.now.interfaces name.now }
{
    wired
        .interfaces()
        .iter()
        .position(|interface| name == interface.name())
}

/// The dead slots of a type of the interface of this name, if there is one.
fn dead_of(
    alloc: Global,
    system: &Judged<'_>,
    subsystem: &str,
    type_name: &str,
) -> Result<Vec<DeadSlot>, AllocError>
    requires { HasAskers system.now }
    ensures { IfOk result (λ dead. dead.items
        ≡ dead_of system.now.wired.now (has system.now.facts.now) type_name.now
        (interface_number system.now.wired.now.interfaces subsystem.now)) }
{
    match interface_number(system.wired, subsystem) {
        Some(interface) => dead_slots(alloc, system, interface, type_name),
        None => Ok(Vec::new(alloc)),
    }
}

/// Puts the line of this number with these slots at the end, if there is one.
fn push_line(
    alloc: Global,
    number: u32,
    subsystem: &str,
    type_name: &str,
    slots: Vec<DeadSlot>,
    dead: &mut Vec<DeadLine>,
) -> Result<(), AllocError>
    ensures { OnOk result (dead.new.items
        ≡ dead.old.items ++ dead_line number subsystem.now type_name.now slots.items) }
{
    if slots.is_empty() {
        drop(slots);
        return Ok(());
    }
    let subsystem = String::from_str(alloc, subsystem)?;
    let type_name = String::from_str(alloc, type_name)?;
    dead.push(DeadLine {
        line: number,
        subsystem,
        type_name,
        slots,
    })?;
    Ok(())
}

/// Puts the line of this number about a type at the end, with the dead slots of the type, if there
/// is one. The line has to be the first about the type, and some line about it has to name a class.
fn judge_type(
    alloc: Global,
    system: &Judged<'_>,
    is_first: bool,
    number: u32,
    subsystem: &str,
    type_name: &str,
    dead: &mut Vec<DeadLine>,
) -> Result<(), AllocError>
    requires { HasAskers system.now }
    ensures { OnOk result (dead.new.items ≡ dead.old.items
        ++ dead_if system.now.wired.now (has system.now.facts.now) is_first number subsystem.now
        type_name.now) }
{
    if !is_first {
        return Ok(());
    }
    let slots = dead_of(alloc, system, subsystem, type_name)?;
    push_line(alloc, number, subsystem, type_name, slots, dead)
}

/// Whether a line about the subject is the first, and some line about it names a class.
fn is_first(named: &NameTable, known: &NameTable, one: &str) -> bool
    ensures { result ≡ is_first named.now known.now one.now }
{
    is_among(named, one) && !is_among(known, one)
}

/// The same of a line, if it is one about a type.
fn judge_line(
    alloc: Global,
    system: &Judged<'_>,
    named: &NameTable,
    known: &NameTable,
    line: &WiringLine,
    dead: &mut Vec<DeadLine>,
) -> Result<(), AllocError>
    requires { HasAskers system.now }
    ensures { OnOk result (dead.new.items ≡ dead.old.items
        ++ dead_at system.now.wired.now (has system.now.facts.now) named.now known.now
        line.now.number line.now.says) }
{
    match &line.says {
        WiringSays::Admit {
            subsystem,
            type_name,
            ..
        } => {
            let subsystem = subsystem.as_str();
            let type_name = type_name.as_str();
            let one = type_subject(alloc, subsystem, type_name)?;
            let is_first = is_first(named, known, one.as_str());
            judge_type(
                alloc,
                system,
                is_first,
                line.number,
                subsystem,
                type_name,
                dead,
            )
        }
        WiringSays::Task(_)
        | WiringSays::Port { .. }
        | WiringSays::Births { .. }
        | WiringSays::HoldPort { .. }
        | WiringSays::HoldTask { .. }
        | WiringSays::Trust { .. }
        | WiringSays::RepliesFit => Ok(()),
    }
}

/// The lines of slots that never carry a right from one task to another, where these are what lines
/// limit that name a class.
#[tactic(auto, using(crate::proofs::SlotSteps::line_more, crate::proofs::SlotSteps::line_end))]
fn dead_among(
    alloc: Global,
    system: &Judged<'_>,
    named: &NameTable,
    lines: &[WiringLine],
) -> Result<Vec<DeadLine>, AllocError>
    requires { HasAskers system.now }
    ensures { IfOk result (λ dead. dead.items
        ≡ dead_among system.now.wired.now (has system.now.facts.now) named.now [] lines.now) }
{
    let mut dead = Vec::new(alloc);
    let mut known = NameTable::new(alloc);
    for line in lines {
        judge_line(alloc, system, named, &known, line, &mut dead)?;
        let one = subject(alloc, &line.says)?;
        add_subject(alloc, &mut known, &one)?;
    }
    Ok(dead)
}

/// The lines of slots that never carry a right from one task to another, in their order, where
/// these are what lines limit that name a class.
pub(crate) fn dead_lines(
    alloc: Global,
    wired: &Wired,
    facts: &Facts,
    named: &NameTable,
    lines: &[WiringLine],
) -> Result<Vec<DeadLine>, AllocError>
    ensures { IfOk result (λ dead. dead.items
        ≡ dead_among wired.now (has facts.now) named.now [] lines.now) }
{
    let requests = askers_of(alloc, wired, facts, MessageKind::Request)?;
    let replies = askers_of(alloc, wired, facts, MessageKind::Reply)?;
    let system = Judged {
        wired,
        facts,
        requests: requests.as_slice(),
        replies: replies.as_slice(),
    };
    dead_among(alloc, &system, named, lines)
}
