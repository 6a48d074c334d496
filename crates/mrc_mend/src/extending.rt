//! Lists of changes, and larger ones.

use crate::carrying::TypeNames;
use crate::changes::{Change, Limitation, NamedClass, Narrowing, Restriction, added_lines};
use mrc_wiring::verb_number;
use std::alloc::{AllocError, Global};

/// How many changes a mend has at most that is found by trying all of so many.
pub(crate) const DEEPEST: usize = 3;

/// Whether the restriction is of the type.
pub(crate) fn is_of(restriction: &Restriction, names: TypeNames<'_>) -> bool {
    restriction.subsystem.as_str() == names.subsystem
        && restriction.type_name.as_str() == names.type_name
}

/// The restriction of the type, where the changes have one.
pub(crate) fn restriction_of<'a>(
    changes: &'a [Change],
    names: TypeNames<'_>,
) -> Option<&'a Restriction> {
    for change in changes {
        if let Change::Restrict(restriction) = change {
            if is_of(restriction, names) {
                return Some(restriction);
            }
        }
    }
    None
}

/// The narrowing of the line of this number, where the changes have one.
pub(crate) fn narrowing_of(changes: &[Change], number: u32) -> Option<&Narrowing> {
    for change in changes {
        if let Change::Narrow(narrowing) = change {
            if narrowing.number == number {
                return Some(narrowing);
            }
        }
    }
    None
}

/// Whether the limitation is printed before the other: by the names of tasks, and then by verbs.
fn is_lower(limitation: &Limitation, other: &Limitation) -> bool {
    let task = limitation.task.as_str();
    let verb = verb_number(limitation.verb);
    (task, verb) < (other.task.as_str(), verb_number(other.verb))
}

/// Whether the restriction is printed before the other.
fn is_earlier(restriction: &Restriction, other: &Restriction) -> bool {
    let subsystem = restriction.subsystem.as_str();
    let type_name = restriction.type_name.as_str();
    (subsystem, type_name) < (other.subsystem.as_str(), other.type_name.as_str())
}

/// Where a change is printed: lines that change come first, by their numbers, then types, and then
/// lines about trusted tasks.
fn place_of(change: &Change) -> (u8, u32) {
    match change {
        Change::Remove(number) => (0, *number),
        Change::Narrow(narrowing) => (0, narrowing.number),
        Change::Restrict(_) => (1, 0),
        Change::Limit(_) => (2, 0),
    }
}

/// Whether the change is printed before the other.
fn is_before(change: &Change, other: &Change) -> bool {
    match (change, other) {
        (Change::Restrict(restriction), Change::Restrict(known)) => is_earlier(restriction, known),
        (Change::Limit(limitation), Change::Limit(known)) => is_lower(limitation, known),
        _ => place_of(change) < place_of(other),
    }
}

/// Whether the change stands in the place of the other: both restrict one type, or narrow one line.
fn is_instead(change: &Change, other: &Change) -> bool {
    match (change, other) {
        (Change::Narrow(narrowing), Change::Narrow(known)) => narrowing.number == known.number,
        (Change::Restrict(restriction), Change::Restrict(known)) => is_of(
            known,
            TypeNames {
                subsystem: restriction.subsystem.as_str(),
                type_name: restriction.type_name.as_str(),
            },
        ),
        _ => false,
    }
}

/// The changes with one more. A restriction takes the place of one of the same type, and a narrowed
/// line that of the same line.
pub(crate) fn extended(
    alloc: Global,
    changes: &[Change],
    change: Change,
) -> Result<Vec<Change>, AllocError> {
    let mut more = Vec::new(alloc);
    let mut place = 0usize;
    for known in changes {
        if !is_instead(&change, known) {
            more.push(known.clone()?)?;
            if is_before(known, &change) {
                place = more.len();
            }
        }
    }
    more.insert(place, change)?;
    Ok(more)
}

/// Whether the restriction has the class.
fn has_class(restriction: &Restriction, class: &NamedClass) -> bool {
    restriction.classes.iter().any(|known| *known == *class)
}

/// Whether the restriction has each class of the other, which is of the same type.
fn is_wider(restriction: &Restriction, other: &Restriction) -> bool {
    for class in &other.classes {
        if !has_class(restriction, class) {
            return false;
        }
    }
    true
}

/// Whether the line of the narrowing loses each item that it loses by the other.
fn is_narrower(narrowing: &Narrowing, other: &Narrowing) -> bool {
    for item in &other.dropped {
        if !narrowing.dropped.iter().any(|known| *known == *item) {
            return false;
        }
    }
    narrowing.number == other.number
}

/// Whether the changes have this one, or one that restricts the same type or line more.
fn includes(changes: &[Change], change: &Change) -> bool {
    for other in changes {
        let same = match (change, other) {
            (Change::Remove(line), Change::Remove(known)) => line == known,
            (Change::Narrow(narrowing), Change::Narrow(known)) => is_narrower(known, narrowing),
            (Change::Restrict(restriction), Change::Restrict(known)) => {
                is_instead(change, other) && is_wider(restriction, known)
            }
            (Change::Limit(limitation), Change::Limit(known)) => {
                limitation.task == known.task && limitation.verb == known.verb
            }
            _ => false,
        };
        if same {
            return true;
        }
    }
    false
}

/// Whether the larger changes have all that the others have.
pub(crate) fn includes_all(larger: &[Change], changes: &[Change]) -> bool {
    for change in changes {
        if !includes(larger, change) {
            return false;
        }
    }
    true
}

/// Which line a change leaves out or narrows, and to what; nothing if it does neither.
fn line_key(alloc: Global, change: &Change) -> Result<String, AllocError> {
    match change {
        Change::Remove(number) => format!(in alloc; "{number}\n"),
        Change::Narrow(Narrowing { number, text, .. }) => format!(in alloc; "{number} {text}\n"),
        Change::Restrict(_) | Change::Limit(_) => Ok(String::new(alloc)),
    }
}

/// Adds a line for each line of a change.
fn add_key(alloc: Global, key: &mut String, change: &Change) -> Result<(), AllocError> {
    let text = line_key(alloc, change)?;
    key.push_str(text.as_str())?;
    for line in &added_lines(alloc, change)? {
        key.push_str(line.as_str())?;
        key.push_str("\n")?;
    }
    Ok(())
}

/// A text that no other list of changes has.
pub(crate) fn key_of(alloc: Global, changes: &[Change]) -> Result<String, AllocError> {
    let mut key = String::new(alloc);
    for change in changes {
        add_key(alloc, &mut key, change)?;
    }
    Ok(key)
}
