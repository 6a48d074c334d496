//! Lines of ports to which no other task may ever send.

ghost use Rattle.std.specs.Prelude.{◌≡◌, ◌++◌, IfOk, OnOk};
ghost use Rattle.std.specs.List.{list_all};
ghost use Rattle.mrc_facts.specs.Sets.{has};
ghost use Rattle.mrc_name_table.specs.Names.{number_of};
ghost use Rattle.mrc_wiring.specs.Table.{wiring_of};
ghost use Rattle.mrc_dead.specs.Asking.{is_quiet};
ghost use Rattle.mrc_dead.specs.Dead.{births_declared, class_declared, class_list, quiet_line};
ghost use Rattle.mrc_dead.specs.Dead.{quiet_lines};
ghost use Rattle.mrc_dead.specs.Searching.{going_on, ended};

use crate::asking::is_quiet;
use crate::parts::QuietLine;
use mrc_base::ClassId;
use mrc_rows::Facts;
use mrc_wiring::Wired;
use mrc_wiring_text::{Item, WiringLine, WiringSays};
use std::alloc::{AllocError, Global};

/// The class of the wired port of a name.
#[tactic(auto, unfolding(mrc_wiring::specs::Names::class_named))]
fn port_class(alloc: Global, wired: &Wired, name: &str) -> Result<Option<ClassId>, AllocError>
    ensures { IfOk result (λ class. class ≡ number_of wired.now.ports name.now) }
{
    let text = format!(in alloc; "port:{name}")?;
    Ok(wired.class_named(text.as_str()))
}

/// The class of the births of a line, if they accept something.
fn births_declared(wired: &Wired, task: &str, kind: u8, items: &[Item]) -> Option<ClassId>
    ensures { result ≡ births_declared wired.now task.now kind items.now }
{
    if items.is_empty() {
        return None;
    }
    wired.births_class(wired.task_named(task)?, u32::from(kind))
}

/// The class that a line declares: of a wired port, or of births that accept something.
fn class_declared(
    alloc: Global,
    wired: &Wired,
    says: &WiringSays,
) -> Result<Option<ClassId>, AllocError>
    ensures { IfOk result (λ class. class ≡ class_declared wired.now says.now) }
{
    match says {
        WiringSays::Port { port, .. } => port_class(alloc, wired, port.as_str()),
        WiringSays::Births {
            task,
            kind,
            accepts,
        } => Ok(births_declared(wired, task.as_str(), kind.number(), accepts.as_slice())),
        WiringSays::Task(_)
        | WiringSays::HoldPort { .. }
        | WiringSays::HoldTask { .. }
        | WiringSays::Admit { .. }
        | WiringSays::Trust { .. }
        | WiringSays::RepliesFit => Ok(None),
    }
}

/// Whether all of these classes are quiet.
fn are_quiet(wired: &Wired, facts: &Facts, classes: &[ClassId]) -> bool
    ensures { result ≡ list_all (is_quiet (wiring_of wired.now) (has facts.now)) classes.now }
{
    classes.iter().all(|class| is_quiet(wired, facts, class.0))
}

/// Puts the line of this number at the end, if it declares these classes and all are quiet.
fn push_quiet(
    wired: &Wired,
    facts: &Facts,
    number: u32,
    classes: &[ClassId],
    quiet: &mut Vec<QuietLine>,
) -> Result<(), AllocError>
    ensures { OnOk result (quiet.new.items
        ≡ quiet.old.items ++ quiet_line wired.now (has facts.now) number classes.now) }
{
    if let Some((first, others)) = classes.split_first() {
        if are_quiet(wired, facts, classes) {
            quiet.push(QuietLine {
                line: number,
                class: *first,
                more: others.len(),
            })?;
        }
    }
    Ok(())
}

/// Begins the written line of this number, if it is not the last one, which is then judged.
fn begin_line(
    wired: &Wired,
    facts: &Facts,
    number: u32,
    last: u32,
    classes: &mut Vec<ClassId>,
    quiet: &mut Vec<QuietLine>,
) -> Result<(), AllocError>
    ensures classes { OnOk result (classes.new.items ≡ going_on last number classes.old.items) }
    ensures quiet { OnOk result (quiet.new.items ≡ quiet.old.items
        ++ ended wired.now (has facts.now) last number classes.old.items) }
{
    if last != number {
        push_quiet(wired, facts, last, classes.as_slice(), quiet)?;
        classes.clear();
    }
    Ok(())
}

/// Adds the class that a line declares.
fn push_declared(
    alloc: Global,
    wired: &Wired,
    says: &WiringSays,
    classes: &mut Vec<ClassId>,
) -> Result<(), AllocError>
    ensures { OnOk result (classes.new.items
        ≡ classes.old.items ++ class_list (class_declared wired.now says.now)) }
{
    if let Some(class) = class_declared(alloc, wired, says)? {
        classes.push(class)?;
    }
    Ok(())
}

/// The lines that declare classes which are all quiet, in their order.
pub(crate) fn quiet_lines(
    alloc: Global,
    wired: &Wired,
    lines: &[WiringLine],
    facts: &Facts,
) -> Result<Vec<QuietLine>, AllocError>
    ensures { IfOk result (λ quiet. quiet.items
        ≡ quiet_lines wired.now (has facts.now) lines.now) }
{
    let mut quiet = Vec::new(alloc);
    let mut last = 0u32;
    let mut classes = Vec::new(alloc);
    for line in lines {
        begin_line(wired, facts, line.number, last, &mut classes, &mut quiet)?;
        push_declared(alloc, wired, &line.says, &mut classes)?;
        last = line.number;
    }
    push_quiet(wired, facts, last, classes.as_slice(), &mut quiet)?;
    Ok(quiet)
}
