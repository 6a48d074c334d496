//! Rights, classes, tasks and facts as they are printed.

ghost use Rattle.std.specs.Prelude.{◌≡◌, ◌++◌, IfOk, codes, string_bytes};
ghost use Rattle.mrc_wiring.specs.Names.{shown_label};
ghost use Rattle.mrc_words.specs.Words.{right_word, behind_name, label_word, class_word, task_word};
ghost use Rattle.mrc_words.specs.Words.{fact_text};

use mrc_base::{ClassId, Fact, PortRight, TaskId};
use mrc_wiring::{ClassKind, ClassLabel, Wired, kind_word};
use std::alloc::{AllocError, Global};

/// The word of a right: `send`, `receive` or `once`.
pub fn right_word(right: PortRight) -> &'static str
    ensures { result.now ≡ right_word right }
{
    match right {
        PortRight::Send => "send",
        PortRight::Receive => "receive",
        PortRight::SendOnce => "once",
    }
}

/// A task by its name, or `@N`, where N is its number, if it is not wired.
pub fn task_word(alloc: Global, wired: &Wired, task: TaskId) -> Result<String, AllocError>
    ensures { IfOk result (λ text. string_bytes text ≡ task_word wired.now task) }
{
    match wired.task_name(task) {
        Some(name) => String::from_str(alloc, name),
        None => format!(in alloc; "@{}", task.0),
    }
}

/// The word of a kind of births behind the name of the task: none for kind 0.
fn behind_name(alloc: Global, kind: u8) -> Result<String, AllocError>
    ensures { IfOk result (λ text. string_bytes text ≡ behind_name kind) }
{
    if kind == 0 {
        return Ok(String::new(alloc));
    }
    let word = kind_word(kind);
    format!(in alloc; ":{word}")
}

fn label_word(alloc: Global, label: ClassLabel<'_>) -> Result<String, AllocError>
    ensures { IfOk result (λ text. string_bytes text ≡ label_word (shown_label label.entry)) }
{
    let name = label.name;
    match label.kind {
        ClassKind::Port => format!(in alloc; "port:{name}"),
        ClassKind::Task => format!(in alloc; "task:{name}"),
        ClassKind::Births(kind) => {
            let behind = behind_name(alloc, kind)?;
            format!(in alloc; "births:{name}{behind}")
        }
    }
}

/// A class as `port:P`, `task:U`, `births:U` of kind 0 or `births:U:K` of another kind, or by its
/// number where the wiring has no class of the number.
pub fn class_word(alloc: Global, wired: &Wired, class: ClassId) -> Result<String, AllocError>
    ensures { IfOk result (λ text. string_bytes text ≡ class_word wired.now class) }
{
    match wired.class_name(class) {
        Some(label) => label_word(alloc, label),
        None => format!(in alloc; "{}", class.0),
    }
}

/// A fact as `hold TASK CLASS RIGHT`, `carry CLASS CLASS RIGHT` (first the class of the ports that
/// the message goes to) or `backup CLASS CLASS` (first the class of the ports that the request is
/// for).
pub fn fact_text(alloc: Global, wired: &Wired, fact: Fact) -> Result<String, AllocError>
    ensures { IfOk result (λ text. string_bytes text ≡ fact_text wired.now fact) }
{
    match fact {
        Fact::Hold { task, class, right } => {
            let holder = task_word(alloc, wired, TaskId(u32::from(task)))?;
            let class = class_word(alloc, wired, class)?;
            let right = right_word(right);
            format!(in alloc; "hold {holder} {class} {right}")
        }
        Fact::Carry {
            destination,
            class,
            right,
        } => {
            let destination = class_word(alloc, wired, destination)?;
            let class = class_word(alloc, wired, class)?;
            let right = right_word(right);
            format!(in alloc; "carry {destination} {class} {right}")
        }
        Fact::Backup { class, notify } => {
            let class = class_word(alloc, wired, class)?;
            let notify = class_word(alloc, wired, notify)?;
            format!(in alloc; "backup {class} {notify}")
        }
    }
}
