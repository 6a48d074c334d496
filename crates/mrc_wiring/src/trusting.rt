//! What trusted tasks may do by each verb, as rows of bits: a row for each verb and task that a
//! line names, and in it a row of classes for each right.

ghost use Rattle.std.specs.Prelude.{◌≡◌, ◌≤◌, ◌<◌, ◌*◌, ◌&&◌, ℕ, nat_lt, length, IfOk};
ghost use Rattle.std.specs.Option.{option_map};
ghost use Rattle.mrc_base.specs.Limits.{limit_of_tasks, limit_of_wired_ports, limit_of_kinds};
ghost use Rattle.mrc_bits.specs.Bits.{is_set};
ghost use Rattle.mrc_wiring.specs.Admitting.{class_words};
ghost use Rattle.mrc_wiring.specs.Births.{AreAscending};
ghost use Rattle.mrc_wiring.specs.Table.{right_by, trusted_by};
ghost use Rattle.mrc_wiring.specs.Trusting.{verb_number, trust_row, place_on, trust_mark};
ghost use Rattle.mrc_wiring.specs.Trusting.{trust_marks, IsTrusting};
ghost use Rattle.mrc_wiring.specs.Trusting.{right_number, right_place, right_words};
ghost use Rattle.mrc_wiring.specs.Trusting.{limit_of_classes};

use crate::admitting::CLASS_WORDS;
use crate::births::BirthRow;
use crate::marks::marked;
use crate::table::{NumberedRight, TrustedLine, class_of};
use mrc_base::PortRight;
use mrc_model::Verb;
use std::alloc::{AllocError, Global};

/// Words of a row: those of a row of classes for each right.
const RIGHT_WORDS: usize = 3 * CLASS_WORDS;

/// How many classes the part of a right has room for.
const CLASSES: usize = 64 * CLASS_WORDS;

fn right_number(right: PortRight) -> usize
    ensures exact { result ≡ right_number right }
    ensures small { result ≤ 2 }
{
    match right {
        PortRight::Send => 0,
        PortRight::Receive => 1,
        PortRight::SendOnce => 2,
    }
}

/// The place of a right on a class.
fn right_place(right: PortRight, class: usize) -> usize
    requires { class < limit_of_classes }
    ensures { result ≡ right_place right class }
{
    CLASSES * right_number(right) + class
}

/// The part of a row that is for a right: the classes on whose ports the row has it.
pub(crate) fn right_part(row: &[u64], right: PortRight) -> &[u64]
    requires { length row.now ≡ right_words }
    ensures bits { (c : ℕ) → is_set result.now c
        ≡ (nat_lt c limit_of_classes && is_set row.now (right_place right c)) }
    ensures few { length result.now ≤ class_words }
{
    let start = CLASS_WORDS * right_number(right);
    &row[start..start + CLASS_WORDS]
}

/// A number for each verb.
pub fn verb_number(verb: Verb) -> usize
    ensures exact { result ≡ verb_number verb }
    ensures small { result ≤ 3 }
{
    match verb {
        Verb::Takes => 0,
        Verb::Gives => 1,
        Verb::Sends => 2,
        Verb::Replies => 3,
    }
}

/// The row of a verb and a task.
pub(crate) fn trust_row(verb: Verb, task: u32) -> usize
    ensures { result ≡ trust_row verb task }
{
    4 * task as usize + verb_number(verb)
}

/// The place of a right on a class, if it is one.
fn place_on(ports: usize, tasks: usize, births: &[BirthRow], on: NumberedRight) -> Option<usize>
    requires ports { ports ≤ limit_of_wired_ports }
    requires tasks { tasks ≤ limit_of_tasks }
    requires births { length births.now ≤ limit_of_tasks * limit_of_kinds }
    requires ascending { AreAscending births.now }
    ensures { result ≡ option_map place_on (right_by ports tasks births.now on) }
{
    match class_of(ports, tasks, births, on.class) {
        Some(class) if class < ports + tasks + births.len() => {
            Some(right_place(on.right, class))
        }
        _ => None,
    }
}

/// What a line marks.
fn trust_mark(
    ports: usize,
    tasks: usize,
    births: &[BirthRow],
    line: &TrustedLine,
) -> (usize, Option<usize>)
    requires ports { ports ≤ limit_of_wired_ports }
    requires tasks { tasks ≤ limit_of_tasks }
    requires births { length births.now ≤ limit_of_tasks * limit_of_kinds }
    requires ascending { AreAscending births.now }
    ensures { result ≡ trust_mark (trusted_by ports tasks births.now line.now) }
{
    let place = match line.right {
        Some(on) => place_on(ports, tasks, births, on),
        None => None,
    };
    (trust_row(line.verb, u32::from(line.task)), place)
}

/// What the lines mark.
fn trust_marks(
    alloc: Global,
    ports: usize,
    tasks: usize,
    births: &[BirthRow],
    lines: &[TrustedLine],
) -> Result<Vec<(usize, Option<usize>)>, AllocError>
    requires ports { ports ≤ limit_of_wired_ports }
    requires tasks { tasks ≤ limit_of_tasks }
    requires births { length births.now ≤ limit_of_tasks * limit_of_kinds }
    requires ascending { AreAscending births.now }
    ensures { IfOk result (λ marks. marks.items
        ≡ trust_marks ports tasks births.now lines.now) }
{
    let mut marks = Vec::with_capacity(alloc, lines.len())?;
    for line in lines {
        marks.push(trust_mark(ports, tasks, births, line))?;
    }
    Ok(marks)
}

/// The rows of the lines about trusted tasks if there are so many ports and tasks, and these
/// births.
pub(crate) fn trusting(
    alloc: Global,
    ports: usize,
    tasks: usize,
    births: &[BirthRow],
    lines: &[TrustedLine],
) -> Result<Vec<Vec<u64>>, AllocError>
    requires ports { ports ≤ limit_of_wired_ports }
    requires tasks { tasks ≤ limit_of_tasks }
    requires births { length births.now ≤ limit_of_tasks * limit_of_kinds }
    requires ascending { AreAscending births.now }
    ensures { IfOk result (λ rows. IsTrusting ports tasks births.now lines.now rows.items) }
{
    let marks = trust_marks(alloc, ports, tasks, births, lines)?;
    marked(alloc, RIGHT_WORDS, 3 * CLASSES, marks.as_slice())
}
