//! The parts of a system that can do nothing, as lines.

ghost use Rattle.std.specs.Prelude.{◌≡◌, [], IfOk, string_bytes};
ghost use Rattle.mrc_dead.specs.Dead.{no_dead_parts};

use crate::notices::{MOST_LINES, joined, line_of};
use crate::reading::{defs_name, wiring_name};
use mrc_answer::WasRead;
use mrc_base::ClassId;
use mrc_dead::{DeadLine, DeadParts, DeadSlot, IdleLine, QuietLine};
use mrc_wiring::{ClassKind, ClassLabel, Wired, kind_word};
use std::alloc::{AllocError, Global};

/// The names by which parts are printed: those of the files, and those of the wiring, if it is
/// there.
#[derive(Clone, Copy)]
pub(crate) struct Printed<'a, 'b> {
    /// What was read.
    pub(crate) read: &'a WasRead<'b>,
    /// The wiring.
    pub(crate) wired: Option<&'a Wired>,
}

/// What is said of an interface.
#[derive(Clone, Copy)]
enum Saying {
    /// No port accepts it.
    Unaccepted,
    /// It is asked without a port for replies.
    Unanswered,
}

/// The name of the interface of this number; its number, if there is no wiring.
fn interface_text(
    alloc: Global,
    printed: &Printed<'_, '_>,
    number: usize,
) -> Result<String, AllocError> {
    if let Some(wired) = printed.wired {
        if let Some(interface) = wired.interface(number) {
            return String::from_str(alloc, interface.name());
        }
    }
    format!(in alloc; "interface {number}")
}

/// A class as lines name it, by its label.
fn label_text(alloc: Global, label: &ClassLabel<'_>) -> Result<String, AllocError> {
    let name = label.name;
    match label.kind {
        ClassKind::Port => format!(in alloc; "port {name}"),
        ClassKind::Task => format!(in alloc; "task {name}"),
        ClassKind::Births(0) => format!(in alloc; "births {name}"),
        ClassKind::Births(kind) => {
            let kind = kind_word(kind);
            format!(in alloc; "births {name} {kind}")
        }
    }
}

/// A class as lines name it; its number, if there is no wiring.
fn class_text(
    alloc: Global,
    printed: &Printed<'_, '_>,
    class: ClassId,
) -> Result<String, AllocError> {
    if let Some(wired) = printed.wired {
        if let Some(label) = wired.class_name(class) {
            return label_text(alloc, &label);
        }
    }
    format!(in alloc; "class {}", class.0)
}

/// A line about a line of the wiring.
fn line_at(
    alloc: Global,
    printed: &Printed<'_, '_>,
    number: u32,
    text: &str,
) -> Result<String, AllocError>
    ensures { IfOk result (λ line. string_bytes line ≡ [] → ⊥) }
{
    let wiring = wiring_name(printed.read);
    let place = format!(in alloc; "{wiring}:{number}")?;
    line_of(alloc, place.as_str(), text)
}

/// Of so many lines, the line that prints how many are not printed, if some are not.
fn more_line(
    alloc: Global,
    printed: &Printed<'_, '_>,
    count: usize,
    kind: &str,
) -> Result<String, AllocError> {
    if count <= MOST_LINES {
        return Ok(String::new(alloc));
    }
    let more = count - MOST_LINES;
    let text = format!(in alloc; "{more} more {kind}")?;
    line_of(alloc, wiring_name(printed.read), text.as_str())
}

/// The line of an interface.
fn interface_line(
    alloc: Global,
    printed: &Printed<'_, '_>,
    saying: Saying,
    number: usize,
) -> Result<String, AllocError>
    ensures { IfOk result (λ line. string_bytes line ≡ [] → ⊥) }
{
    let name = interface_text(alloc, printed, number)?;
    let text = match saying {
        Saying::Unaccepted => format!(in alloc; "no port accepts messages of {name}")?,
        Saying::Unanswered => format!(in alloc;
            "{name} may be asked, but never with a port that accepts its replies"
        )?,
    };
    line_of(alloc, defs_name(printed.read, number), text.as_str())
}

/// The lines of the first interfaces, and how many more there are.
#[tactic(auto, using(crate::proofs::EmptyLaws::first_empty, crate::proofs::EmptyLaws::rest_empty))]
fn interface_lines(
    alloc: Global,
    printed: &Printed<'_, '_>,
    saying: Saying,
    numbers: &[usize],
) -> Result<String, AllocError>
    ensures { IfOk result (λ text. string_bytes text ≡ [] → numbers.now ≡ []) }
{
    let Some((first, further)) = numbers.split_first() else {
        return Ok(String::new(alloc));
    };
    let first = interface_line(alloc, printed, saying, *first)?;
    let further: String = further
        .iter()
        .take(MOST_LINES - 1)
        .map(|number| interface_line(alloc, printed, saying, *number))
        .try_collect(alloc)?;
    let kind = match saying {
        Saying::Unaccepted => "interfaces accepted by no port",
        Saying::Unanswered => "interfaces that are asked without a port for replies",
    };
    let more = more_line(alloc, printed, numbers.len(), kind)?;
    joined(alloc, first.as_str(), further.as_str(), more.as_str())
}

/// The line of a line of ports to which no other task may ever send.
fn quiet_line(
    alloc: Global,
    printed: &Printed<'_, '_>,
    quiet: &QuietLine,
) -> Result<String, AllocError>
    ensures { IfOk result (λ line. string_bytes line ≡ [] → ⊥) }
{
    let ports = if quiet.more == 0 {
        class_text(alloc, printed, quiet.class)?
    } else {
        String::from_str(alloc, "the ports of this line")?
    };
    let text = format!(in alloc; "no other task may ever send to {ports}")?;
    line_at(alloc, printed, quiet.line, text.as_str())
}

/// The first lines of ports to which no other task may ever send, and how many more there are.
#[tactic(auto, using(crate::proofs::EmptyLaws::first_empty, crate::proofs::EmptyLaws::rest_empty))]
fn quiet_lines(
    alloc: Global,
    printed: &Printed<'_, '_>,
    quiet: &[QuietLine],
) -> Result<String, AllocError>
    ensures { IfOk result (λ text. string_bytes text ≡ [] → quiet.now ≡ []) }
{
    let Some((first, further)) = quiet.split_first() else {
        return Ok(String::new(alloc));
    };
    let first = quiet_line(alloc, printed, first)?;
    let further: String = further
        .iter()
        .take(MOST_LINES - 1)
        .map(|one| quiet_line(alloc, printed, one))
        .try_collect(alloc)?;
    let kind = "lines of ports to which no other task may ever send";
    let more = more_line(alloc, printed, quiet.len(), kind)?;
    joined(alloc, first.as_str(), further.as_str(), more.as_str())
}

/// A slot of a line, and how many more the line has.
fn slots_text(
    alloc: Global,
    line: &DeadLine,
    slot: &DeadSlot,
    more: usize,
) -> Result<String, AllocError> {
    let DeadSlot { routine, argument } = slot;
    let subsystem = line.subsystem.as_str();
    let type_name = line.type_name.as_str();
    let slot = format!(in alloc; "{subsystem}.{routine}.{argument} ({subsystem}.{type_name})")?;
    if more == 0 {
        format!(in alloc; "{slot} never carries a right")
    } else {
        format!(in alloc; "{slot} and {more} more slots never carry a right")
    }
}

/// The line of a line of slots that never carry a right.
fn dead_line(
    alloc: Global,
    printed: &Printed<'_, '_>,
    dead: &DeadLine,
) -> Result<String, AllocError>
    ensures { IfOk result (λ line. string_bytes line ≡ [] → ⊥) }
{
    let text = match dead.slots.as_slice().split_first() {
        Some((slot, further)) => slots_text(alloc, dead, slot, further.len())?,
        None => String::new(alloc),
    };
    line_at(alloc, printed, dead.line, text.as_str())
}

/// The first lines of slots that never carry a right, and how many more there are.
#[tactic(auto, using(crate::proofs::EmptyLaws::first_empty, crate::proofs::EmptyLaws::rest_empty))]
fn dead_lines(
    alloc: Global,
    printed: &Printed<'_, '_>,
    dead: &[DeadLine],
) -> Result<String, AllocError>
    ensures { IfOk result (λ text. string_bytes text ≡ [] → dead.now ≡ []) }
{
    let Some((first, further)) = dead.split_first() else {
        return Ok(String::new(alloc));
    };
    let first = dead_line(alloc, printed, first)?;
    let further: String = further
        .iter()
        .take(MOST_LINES - 1)
        .map(|one| dead_line(alloc, printed, one))
        .try_collect(alloc)?;
    let kind = "lines of slots that never carry a right";
    let more = more_line(alloc, printed, dead.len(), kind)?;
    joined(alloc, first.as_str(), further.as_str(), more.as_str())
}

/// The line of a line of `none` that adds nothing.
fn idle_line(
    alloc: Global,
    printed: &Printed<'_, '_>,
    idle: &IdleLine,
) -> Result<String, AllocError>
    ensures { IfOk result (λ line. string_bytes line ≡ [] → ⊥) }
{
    let subject = idle.subject.as_str();
    let text = format!(in alloc; "none adds nothing to the other lines of {subject}")?;
    line_at(alloc, printed, idle.line, text.as_str())
}

/// The first lines of `none` that add nothing, and how many more there are.
#[tactic(auto, using(crate::proofs::EmptyLaws::first_empty, crate::proofs::EmptyLaws::rest_empty))]
fn idle_lines(
    alloc: Global,
    printed: &Printed<'_, '_>,
    idle: &[IdleLine],
) -> Result<String, AllocError>
    ensures { IfOk result (λ text. string_bytes text ≡ [] → idle.now ≡ []) }
{
    let Some((first, further)) = idle.split_first() else {
        return Ok(String::new(alloc));
    };
    let first = idle_line(alloc, printed, first)?;
    let further: String = further
        .iter()
        .take(MOST_LINES - 1)
        .map(|one| idle_line(alloc, printed, one))
        .try_collect(alloc)?;
    let more = more_line(alloc, printed, idle.len(), "lines of none add nothing")?;
    joined(alloc, first.as_str(), further.as_str(), more.as_str())
}

/// The lines of the parts that are told by names of interfaces and classes.
#[tactic(auto, using(crate::proofs::EmptyLaws::first_empty, crate::proofs::EmptyLaws::rest_empty))]
fn port_lines(
    alloc: Global,
    printed: &Printed<'_, '_>,
    dead: &DeadParts,
) -> Result<String, AllocError>
    ensures unaccepted { IfOk result (λ text.
        string_bytes text ≡ [] → dead.now.unaccepted ≡ []) }
    ensures quiet { IfOk result (λ text. string_bytes text ≡ [] → dead.now.quiet ≡ []) }
    ensures unanswered { IfOk result (λ text.
        string_bytes text ≡ [] → dead.now.unanswered ≡ []) }
{
    let unaccepted = dead.unaccepted.as_slice();
    let unaccepted = interface_lines(alloc, printed, Saying::Unaccepted, unaccepted)?;
    let quiet = quiet_lines(alloc, printed, dead.quiet.as_slice())?;
    let unanswered = dead.unanswered.as_slice();
    let unanswered = interface_lines(alloc, printed, Saying::Unanswered, unanswered)?;
    joined(
        alloc,
        unaccepted.as_str(),
        quiet.as_str(),
        unanswered.as_str(),
    )
}

/// The parts of a system that can do nothing: a line for each, but ten lines of a kind at most, and
/// how many more there are.
#[tactic(auto, using(crate::proofs::EmptyLaws::first_empty, crate::proofs::EmptyLaws::rest_empty))]
pub(crate) fn dead_text(
    alloc: Global,
    printed: &Printed<'_, '_>,
    dead: &DeadParts,
) -> Result<String, AllocError>
    ensures { IfOk result (λ text. string_bytes text ≡ [] → dead.now ≡ no_dead_parts) }
{
    let ports = port_lines(alloc, printed, dead)?;
    let slots = dead_lines(alloc, printed, dead.slots.as_slice())?;
    let idle = idle_lines(alloc, printed, dead.idle.as_slice())?;
    joined(alloc, ports.as_str(), slots.as_str(), idle.as_str())
}
