//! What lines limit, and the lines of `none` that add nothing.

ghost use Rattle.std.specs.Prelude.{◌≡◌, ◌++◌, IfOk, OnOk, codes, flat_map, string_bytes};
ghost use Rattle.std.specs.Option.{option_map};
ghost use Rattle.mrc_dead.specs.Dead.{verb_word, type_subject, subject, names_class, with_subject};
ghost use Rattle.mrc_dead.specs.Dead.{named_subject, named_subjects, is_among};
ghost use Rattle.mrc_dead.specs.Dead.{idle_of, idle_line};

use crate::parts::IdleLine;
use mrc_name_table::NameTable;
use mrc_wiring_text::{TrustVerb, WiringLine, WiringSays};
use std::alloc::{AllocError, Global};

/// The word of a verb.
fn verb_word(verb: TrustVerb) -> &'static str
    ensures { result.now ≡ verb_word verb }
{
    match verb {
        TrustVerb::Takes => "takes",
        TrustVerb::Gives => "gives",
        TrustVerb::Sends => "sends",
        TrustVerb::Replies => "replies",
    }
}

/// A type as lines name it.
pub(crate) fn type_subject(
    alloc: Global,
    subsystem: &str,
    type_name: &str,
) -> Result<String, AllocError>
    ensures { IfOk result (λ text.
        string_bytes text ≡ type_subject subsystem.now type_name.now) }
{
    format!(in alloc; "{subsystem}.{type_name}")
}

/// A verb of a task as lines name it.
fn verb_subject(alloc: Global, task: &str, verb: &str) -> Result<String, AllocError>
    ensures { IfOk result (λ text.
        string_bytes text ≡ task.now ++ (codes " " ++ verb.now)) }
{
    format!(in alloc; "{task} {verb}")
}

/// What a line limits, if it does.
pub(crate) fn subject(alloc: Global, says: &WiringSays) -> Result<Option<String>, AllocError>
    ensures { IfOk result (λ one. option_map string_bytes one ≡ subject says.now) }
{
    match says {
        WiringSays::Admit {
            subsystem,
            type_name,
            ..
        } => {
            let text = type_subject(alloc, subsystem.as_str(), type_name.as_str())?;
            Ok(Some(text))
        }
        WiringSays::Trust { task, verb, .. } => {
            let text = verb_subject(alloc, task.as_str(), verb_word(*verb))?;
            Ok(Some(text))
        }
        WiringSays::Task(_)
        | WiringSays::Port { .. }
        | WiringSays::Births { .. }
        | WiringSays::HoldPort { .. }
        | WiringSays::HoldTask { .. }
        | WiringSays::RepliesFit => Ok(None),
    }
}

/// Whether the line names a class.
fn names_class(says: &WiringSays) -> bool
    ensures { result ≡ names_class says.now }
{
    match says {
        WiringSays::Admit { class, .. } => class.is_some(),
        WiringSays::Trust { right, .. } => right.is_some(),
        WiringSays::Task(_)
        | WiringSays::Port { .. }
        | WiringSays::Births { .. }
        | WiringSays::HoldPort { .. }
        | WiringSays::HoldTask { .. }
        | WiringSays::RepliesFit => false,
    }
}

/// Puts the subject behind the others, unless it is one of them.
pub(crate) fn add_subject(
    alloc: Global,
    subjects: &mut NameTable,
    one: &Option<String>,
) -> Result<(), AllocError>
    ensures { OnOk result
        (subjects.new ≡ with_subject subjects.old (option_map string_bytes one.now)) }
{
    match one {
        Some(one) => {
            if is_among(subjects, one.as_str()) {
                return Ok(());
            }
            subjects.add(alloc, one.as_str())
        }
        None => Ok(()),
    }
}

/// What the line limits, if it names a class.
fn named_subject(alloc: Global, says: &WiringSays) -> Result<Option<String>, AllocError>
    ensures { IfOk result (λ one. option_map string_bytes one ≡ named_subject says.now) }
{
    if names_class(says) {
        subject(alloc, says)
    } else {
        Ok(None)
    }
}

/// What lines limit that name a class.
#[tactic(auto, using(crate::proofs::SlotSteps::named_more, crate::proofs::SlotSteps::named_end))]
pub(crate) fn named_subjects(alloc: Global, lines: &[WiringLine]) -> Result<NameTable, AllocError>
    ensures { IfOk result (λ named. named ≡ named_subjects lines.now) }
{
    let mut named = NameTable::new(alloc);
    for line in lines {
        let one = named_subject(alloc, &line.says)?;
        add_subject(alloc, &mut named, &one)?;
    }
    Ok(named)
}

/// Whether the subject is one of these.
pub(crate) fn is_among(subjects: &NameTable, one: &str) -> bool
    ensures { result ≡ is_among subjects.now one.now }
{
    subjects.number_of(one).is_some()
}

/// Puts the line of this number at the end, if it limits one of these.
fn push_idle(
    named: &NameTable,
    number: u32,
    one: Option<String>,
    idle: &mut Vec<IdleLine>,
) -> Result<(), AllocError>
    ensures { OnOk result (idle.new.items
        ≡ idle.old.items ++ idle_of named.now number (option_map string_bytes one)) }
{
    if let Some(subject) = one {
        if is_among(named, subject.as_str()) {
            idle.push(IdleLine {
                line: number,
                subject,
            })?;
        }
    }
    Ok(())
}

/// Puts the line at the end, if it names no class, and another line about the same names one.
fn judge_line(
    alloc: Global,
    named: &NameTable,
    line: &WiringLine,
    idle: &mut Vec<IdleLine>,
) -> Result<(), AllocError>
    ensures { OnOk result
        (idle.new.items ≡ idle.old.items ++ idle_line named.now line.now) }
{
    if names_class(&line.says) {
        return Ok(());
    }
    let one = subject(alloc, &line.says)?;
    push_idle(named, line.number, one, idle)
}

/// The lines of `none` that add nothing to others, where these are what lines limit that name a
/// class.
pub(crate) fn idle_lines(
    alloc: Global,
    named: &NameTable,
    lines: &[WiringLine],
) -> Result<Vec<IdleLine>, AllocError>
    ensures { IfOk result (λ idle. idle.items ≡ flat_map (idle_line named.now) lines.now) }
{
    let mut idle = Vec::new(alloc);
    for line in lines {
        judge_line(alloc, named, line, &mut idle)?;
    }
    Ok(idle)
}
