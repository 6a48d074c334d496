//! The lines of version 3 that the parts of a line stand for together.

ghost use Rattle.std.specs.Prelude.{◌≡◌, ◌+◌, ◌<◌, ◌≤◌, ◌∷◌, ◌++◌, [], map, length, IfOk, OnOk};
ghost use Rattle.mrc_base.specs.Limits.{limit_of_kinds};
ghost use Rattle.mrc_wiring_text.specs.declared.wiring.WiringSays.TheVariants as core;
ghost use Rattle.mrc_stand_for.specs.Products.{births_lines, reply_lines, replies_lines};
ghost use Rattle.mrc_stand_for.specs.Products.{send_line, once_line, once_lines, admit_line};
ghost use Rattle.mrc_stand_for.specs.Products.{admit_lines, admit_none, verb_of, trust_line};
ghost use Rattle.mrc_stand_for.specs.Products.{verb_lines, trust_lines, trust_none, none_lines};

use crate::several::{Copied, Several, copy_items, copy_kind};
use crate::wide::{PlaceName, RightVerb, SlotName};
use mrc_base::PortRight;
use mrc_wiring_text::{
    ClassName, HeldRight, Item, Items, Kind, Name, TrustVerb, TrustedRight, WiringSays,
};
use std::alloc::{AllocError, Global};

/// There are tasks of these names.
pub(crate) fn task_lines(alloc: Global, names: &[Name]) -> Result<Several<WiringSays>, AllocError>
    ensures { IfOk result (λ lines. lines ≡ map core.Task names.now) }
{
    let mut lines = Several::empty(alloc);
    for name in names {
        lines.push(WiringSays::Task(name.copy(alloc)?))?;
    }
    Ok(lines)
}

/// Births of a kind of each of the tasks.
pub(crate) fn births_lines(
    alloc: Global,
    tasks: &[Name],
    kind: &Kind,
    accepts: &Items,
) -> Result<Several<WiringSays>, AllocError>
    ensures { IfOk result (λ lines. lines ≡ births_lines tasks.now kind.now accepts.now) }
{
    let mut lines = Several::empty(alloc);
    for task in tasks {
        lines.push(WiringSays::Births {
            task: task.copy(alloc)?,
            kind: copy_kind(kind),
            accepts: copy_items(alloc, accepts)?,
        })?;
    }
    Ok(lines)
}

/// Births of a task that accept the replies of a subsystem.
fn reply_line(
    alloc: Global,
    task: &Name,
    kind: u8,
    subsystem: &Name,
) -> Result<WiringSays, AllocError>
    requires { kind < limit_of_kinds }
    ensures { IfOk result (λ line.
        line ≡ core.Births task.now kind (Item.Reply subsystem.now ∷ [])) }
{
    let mut accepts = Vec::new(alloc);
    accepts.push(Item::Reply(subsystem.copy(alloc)?))?;
    Ok(WiringSays::Births {
        task: task.copy(alloc)?,
        kind: Kind::new(kind).unwrap(),
        accepts: Items::new(accepts),
    })
}

/// Replies of each of the subsystems, by kinds that count up.
fn push_replies(
    alloc: Global,
    lines: &mut Several<WiringSays>,
    task: &Name,
    kind: &Kind,
    subsystems: &[Name],
) -> Result<(), AllocError>
    requires { kind.now + length subsystems.now ≤ limit_of_kinds }
    ensures { OnOk result
        (lines.new ≡ lines.old ++ reply_lines task.now kind.now subsystems.now) }
{
    let mut number = kind.number();
    for subsystem in subsystems {
        lines.push(reply_line(alloc, task, number, subsystem)?)?;
        number += 1;
    }
    Ok(())
}

/// The same for each of the tasks.
pub(crate) fn replies_lines(
    alloc: Global,
    tasks: &[Name],
    kind: &Kind,
    subsystems: &[Name],
) -> Result<Several<WiringSays>, AllocError>
    requires { kind.now + length subsystems.now ≤ limit_of_kinds }
    ensures { IfOk result (λ lines. lines ≡ replies_lines tasks.now kind.now subsystems.now) }
{
    let mut lines = Several::empty(alloc);
    for task in tasks {
        push_replies(alloc, &mut lines, task, kind, subsystems)?;
    }
    Ok(lines)
}

/// A send right of a task.
fn send_line(alloc: Global, holder: &Name, place: &PlaceName) -> Result<WiringSays, AllocError>
    ensures { IfOk result (λ line. line ≡ send_line holder.now place.now) }
{
    let holder = holder.copy(alloc)?;
    match place {
        PlaceName::Port(port) => Ok(WiringSays::HoldPort {
            holder,
            right: HeldRight::Send,
            port: port.copy(alloc)?,
        }),
        PlaceName::Task(task) => Ok(WiringSays::HoldTask {
            holder,
            task: task.copy(alloc)?,
        }),
    }
}

/// Send rights of a task.
pub(crate) fn push_sends(
    alloc: Global,
    lines: &mut Several<WiringSays>,
    holder: &Name,
    places: &[PlaceName],
) -> Result<(), AllocError>
    ensures { OnOk result (lines.new ≡ lines.old ++ map (send_line holder.now) places.now) }
{
    for place in places {
        lines.push(send_line(alloc, holder, place)?)?;
    }
    Ok(())
}

/// Send-once rights of a task.
fn push_onces(
    alloc: Global,
    lines: &mut Several<WiringSays>,
    holder: &Name,
    ports: &[Name],
) -> Result<(), AllocError>
    ensures { OnOk result (lines.new ≡ lines.old ++ map (once_line holder.now) ports.now) }
{
    for port in ports {
        lines.push(WiringSays::HoldPort {
            holder: holder.copy(alloc)?,
            right: HeldRight::SendOnce,
            port: port.copy(alloc)?,
        })?;
    }
    Ok(())
}

/// Send-once rights of each of the tasks, on each of the ports.
pub(crate) fn once_lines(
    alloc: Global,
    tasks: &[Name],
    ports: &[Name],
) -> Result<Several<WiringSays>, AllocError>
    ensures { IfOk result (λ lines. lines ≡ once_lines tasks.now ports.now) }
{
    let mut lines = Several::empty(alloc);
    for holder in tasks {
        push_onces(alloc, &mut lines, holder, ports)?;
    }
    Ok(lines)
}

/// A slot admits each of the classes.
fn push_admits(
    alloc: Global,
    lines: &mut Several<WiringSays>,
    slot: &SlotName,
    classes: &[ClassName],
) -> Result<(), AllocError>
    ensures { OnOk result (lines.new ≡ lines.old ++ map (admit_line slot.now) classes.now) }
{
    for class in classes {
        lines.push(WiringSays::Admit {
            subsystem: slot.subsystem.copy(alloc)?,
            type_name: slot.type_name.copy(alloc)?,
            class: Some(class.copy(alloc)?),
        })?;
    }
    Ok(())
}

/// Each of the slots admits each of the classes.
pub(crate) fn admit_lines(
    alloc: Global,
    slots: &[SlotName],
    classes: &[ClassName],
) -> Result<Several<WiringSays>, AllocError>
    ensures { IfOk result (λ lines. lines ≡ admit_lines slots.now classes.now) }
{
    let mut lines = Several::empty(alloc);
    for slot in slots {
        push_admits(alloc, &mut lines, slot, classes)?;
    }
    Ok(lines)
}

/// The slots admit no class of this line.
pub(crate) fn no_admit_lines(
    alloc: Global,
    slots: &[SlotName],
) -> Result<Several<WiringSays>, AllocError>
    ensures { IfOk result (λ lines. lines ≡ map admit_none slots.now) }
{
    let mut lines = Several::empty(alloc);
    for slot in slots {
        lines.push(WiringSays::Admit {
            subsystem: slot.subsystem.copy(alloc)?,
            type_name: slot.type_name.copy(alloc)?,
            class: None,
        })?;
    }
    Ok(lines)
}

fn verb_of(verb: RightVerb) -> TrustVerb
    ensures { result ≡ verb_of verb }
{
    match verb {
        RightVerb::Takes => TrustVerb::Takes,
        RightVerb::Gives => TrustVerb::Gives,
        RightVerb::Sends => TrustVerb::Sends,
    }
}

/// The verbs of lines of version 3.
pub(crate) fn verbs_of(alloc: Global, verbs: &[RightVerb]) -> Result<Several<TrustVerb>, AllocError>
    ensures { IfOk result (λ list. list ≡ map verb_of verbs.now) }
{
    let mut list = Several::empty(alloc);
    for verb in verbs {
        list.push(verb_of(*verb))?;
    }
    Ok(list)
}

/// A task may do this by a verb with a right on each of the classes.
fn push_right(
    alloc: Global,
    lines: &mut Several<WiringSays>,
    task: &Name,
    verb: TrustVerb,
    right: PortRight,
    classes: &[ClassName],
) -> Result<(), AllocError>
    ensures { OnOk result
        (lines.new ≡ lines.old ++ map (trust_line task.now verb right) classes.now) }
{
    for class in classes {
        let class = class.copy(alloc)?;
        lines.push(WiringSays::Trust {
            task: task.copy(alloc)?,
            verb,
            right: Some(TrustedRight { right, class }),
        })?;
    }
    Ok(())
}

/// By a verb with each of the rights on each of the classes.
fn push_verb(
    alloc: Global,
    lines: &mut Several<WiringSays>,
    task: &Name,
    verb: TrustVerb,
    rights: &[PortRight],
    classes: &[ClassName],
) -> Result<(), AllocError>
    ensures { OnOk result
        (lines.new ≡ lines.old ++ verb_lines task.now rights.now classes.now verb) }
{
    for right in rights {
        push_right(alloc, lines, task, verb, *right, classes)?;
    }
    Ok(())
}

/// By each of the verbs.
pub(crate) fn push_trusts(
    alloc: Global,
    lines: &mut Several<WiringSays>,
    task: &Name,
    verbs: &[TrustVerb],
    rights: &[PortRight],
    classes: &[ClassName],
) -> Result<(), AllocError>
    ensures { OnOk result
        (lines.new ≡ lines.old ++ trust_lines task.now verbs.now rights.now classes.now) }
{
    for verb in verbs {
        push_verb(alloc, lines, task, *verb, rights, classes)?;
    }
    Ok(())
}

/// A task may do nothing of this line by each of the verbs.
fn push_nones(
    alloc: Global,
    lines: &mut Several<WiringSays>,
    task: &Name,
    verbs: &[TrustVerb],
) -> Result<(), AllocError>
    ensures { OnOk result (lines.new ≡ lines.old ++ map (trust_none task.now) verbs.now) }
{
    for verb in verbs {
        lines.push(WiringSays::Trust {
            task: task.copy(alloc)?,
            verb: *verb,
            right: None,
        })?;
    }
    Ok(())
}

/// The same of each of the tasks.
pub(crate) fn none_lines(
    alloc: Global,
    tasks: &[Name],
    verbs: &[TrustVerb],
) -> Result<Several<WiringSays>, AllocError>
    ensures { IfOk result (λ lines. lines ≡ none_lines tasks.now verbs.now) }
{
    let mut lines = Several::empty(alloc);
    for task in tasks {
        push_nones(alloc, &mut lines, task, verbs)?;
    }
    Ok(lines)
}
