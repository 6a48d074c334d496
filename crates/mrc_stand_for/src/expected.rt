//! What the classes of a line that expects stand for.

ghost use Rattle.std.specs.Prelude.{◌≡◌, filter, IfOk};
ghost use Rattle.mrc_base.specs.Reading.{Gives};
ghost use Rattle.mrc_stand_for.specs.Steps.{Leaves};
ghost use Rattle.mrc_stand_for.specs.Expected.{is_births, class_alone, expected_class};
ghost use Rattle.mrc_stand_for.specs.Expected.{add_expected, expected_classes};

use crate::faults::StandFault;
use crate::known::Known;
use crate::lists::Found;
use crate::several::{Copied, Several, add_each, copies};
use crate::wide::WideClass;
use mrc_base::OrMemory;
use mrc_wiring_text::{ClassName, Name};
use std::alloc::{AllocError, Global};

fn is_births(class: &ClassName) -> bool
    ensures { result ≡ is_births class.now }
{
    match class {
        ClassName::Births { .. } => true,
        ClassName::Port(_) | ClassName::Task(_) => false,
    }
}

/// The births among classes.
fn only_births(alloc: Global, classes: &[ClassName]) -> Result<Several<ClassName>, AllocError>
    ensures { IfOk result (λ births. births ≡ filter is_births classes.now) }
{
    let mut births = Several::empty(alloc);
    for class in classes {
        if is_births(class) {
            births.push(class.copy(alloc)?)?;
        }
    }
    Ok(births)
}

/// What a CLASS stands for in a line that does not expect.
fn class_alone(
    alloc: Global,
    known: &Known,
    line: u32,
    holder: &Option<Name>,
    class: &WideClass,
) -> Result<Several<ClassName>, OrMemory<StandFault>>
    ensures { Gives (λ found. found) result (class_alone known.now line holder.now class.now) }
{
    let mut found = Found::nothing(alloc);
    found.add_class(alloc, known, line, holder, class)?;
    let Found { classes, closed } = found;
    drop(closed);
    Ok(classes)
}

/// What a CLASS stands for in a line that expects.
fn expected_class(
    alloc: Global,
    known: &Known,
    line: u32,
    holder: &Option<Name>,
    class: &WideClass,
) -> Result<Several<ClassName>, OrMemory<StandFault>>
    ensures { Gives (λ found. found) result
        (expected_class known.now line holder.now class.now) }
{
    match class {
        WideClass::Births { .. } => {
            let found = class_alone(alloc, known, line, holder, class)?;
            Ok(only_births(alloc, found.as_slice())?)
        }
        WideClass::Set(name) => match known.set(name) {
            Some(set) => Ok(copies(alloc, set.bare.as_slice())?),
            None => Err(OrMemory::Fault(StandFault::UnknownName(line))),
        },
        WideClass::Port(_) => class_alone(alloc, known, line, holder, class),
        WideClass::Task(_) => class_alone(alloc, known, line, holder, class),
    }
}

/// CLASS more.
fn add_expected(
    alloc: Global,
    known: &Known,
    line: u32,
    holder: &Option<Name>,
    so_far: &mut Several<ClassName>,
    class: &WideClass,
) -> Result<(), OrMemory<StandFault>>
    ensures { Leaves result so_far.new
        (add_expected known.now line holder.now so_far.old class.now) }
{
    let more = expected_class(alloc, known, line, holder, class)?;
    add_each(alloc, so_far, more.as_slice())?;
    Ok(())
}

/// CLASSES in a line that expects: births are the births alone, without the wired ports that are
/// such. Such a port is there only if a class, or one of a set, names the port itself.
pub fn expected_classes(
    alloc: Global,
    known: &Known,
    line: u32,
    holder: &Option<Name>,
    classes: &[WideClass],
) -> Result<Several<ClassName>, OrMemory<StandFault>>
    ensures { Gives (λ found. found) result
        (expected_classes known.now line holder.now classes.now) }
{
    let mut so_far = Several::empty(alloc);
    for class in classes {
        add_expected(alloc, known, line, holder, &mut so_far, class)?;
    }
    Ok(so_far)
}
