//! What the words of a line of a wiring or a policy name. The lines are ones that can be read.

use std::alloc::{AllocError, Global};

/// What a word of a line names.
#[derive(Clone, Copy, Debug, PartialEq, Eq)]
pub(crate) enum Named<'a> {
    /// A task.
    Task(&'a str),
    /// A wired port.
    Port(&'a str),
    /// A subsystem of a MIG file.
    Subsystem(&'a str),
    /// A type of port arguments of a subsystem.
    SlotType {
        /// The subsystem.
        subsystem: &'a str,
        /// The type.
        type_name: &'a str,
    },
    /// The births of a task of this kind.
    Births {
        /// The task.
        task: &'a str,
        /// The kind.
        kind: u8,
    },
    /// No name: that reply ports have to fit.
    Fit,
}

/// A word of a line that is a name.
#[derive(Clone, Copy, Debug, PartialEq, Eq)]
pub(crate) struct Mention<'a> {
    /// The word's place in the line, from 0.
    pub(crate) place: usize,
    /// What it names.
    pub(crate) named: Named<'a>,
}

/// A text up to a character, if it has it.
fn before(text: &str, end: char) -> &str {
    match text.split_once(end) {
        Some((front, _)) => front,
        None => text,
    }
}

/// Adds the parts of a text around its commas, and the commas.
fn push_parts<'a>(words: &mut Vec<&'a str>, text: &'a str) -> Result<(), AllocError> {
    for (commas, part) in text.split(',').enumerate() {
        if commas > 0 {
            words.push(",")?;
        }
        if !part.is_empty() {
            words.push(part)?;
        }
    }
    Ok(())
}

/// The words of a line.
pub(crate) fn words_in(alloc: Global, line: &str) -> Result<Vec<&str>, AllocError> {
    let mut words = Vec::new(alloc);
    for text in before(line, '#').split_ascii_whitespace() {
        push_parts(&mut words, text)?;
    }
    Ok(words)
}

/// The kind of this number: 0, if it is no number.
fn kind_in(word: &str) -> u8 {
    word.parse::<u8>().unwrap_or(0)
}

/// Whether a line may declare something, by its first letter: most lines do not.
fn may_declare(line: &str) -> bool {
    let first = line.bytes().find(|byte| !byte.is_ascii_whitespace());
    matches!(first, Some(b't' | b'p' | b'b' | b'r'))
}

/// What a line of a wiring gives a name to, or says once for all.
pub(crate) fn declared(line: &str) -> Option<Named<'_>> {
    if !may_declare(line) {
        return None;
    }
    let mut words = line.split_ascii_whitespace();
    match words.next()? {
        "task" => Some(Named::Task(before(words.next()?, '#'))),
        "port" => Some(Named::Port(words.next()?)),
        "births" => Some(Named::Births {
            task: words.next()?,
            kind: kind_in(words.next()?),
        }),
        "replies" => Some(Named::Fit),
        _ => None,
    }
}

/// Adds a name at a place.
fn push<'a>(
    found: &mut Vec<Mention<'a>>,
    place: usize,
    named: Named<'a>,
) -> Result<(), AllocError> {
    found.push(Mention { place, named })?;
    Ok(())
}

/// Adds the subsystems of items, the first of which begins at this place.
fn push_items<'a>(
    found: &mut Vec<Mention<'a>>,
    first: usize,
    items: &[&'a str],
) -> Result<(), AllocError> {
    for (behind, pair) in items.windows(2).enumerate() {
        match *pair {
            [_, ","] => {}
            ["request" | "reply", name] => {
                push(
                    found,
                    first.saturating_add(behind).saturating_add(1),
                    Named::Subsystem(name),
                )?;
            }
            _ => {}
        }
    }
    Ok(())
}

/// Adds the names of a class whose first word has this place.
fn push_class<'a>(
    found: &mut Vec<Mention<'a>>,
    place: usize,
    class: &[&'a str],
) -> Result<(), AllocError> {
    let behind = place.saturating_add(1);
    match *class {
        ["port", port] => push(found, behind, Named::Port(port)),
        ["task", task] | ["births", task] => push(found, behind, Named::Task(task)),
        ["births", task, kind] => {
            push(found, behind, Named::Task(task))?;
            let kind = kind_in(kind);
            push(
                found,
                behind.saturating_add(1),
                Named::Births { task, kind },
            )
        }
        _ => Ok(()),
    }
}

/// Adds a task, and the names of a class whose first word has this place.
fn push_right<'a>(
    found: &mut Vec<Mention<'a>>,
    task: &'a str,
    place: usize,
    class: &[&'a str],
) -> Result<(), AllocError> {
    push(found, 1, Named::Task(task))?;
    push_class(found, place, class)
}

/// Adds a subsystem and one of its types, which are one word.
fn push_type<'a>(found: &mut Vec<Mention<'a>>, word: &'a str) -> Result<(), AllocError> {
    let Some((subsystem, type_name)) = word.split_once('.') else {
        return Ok(());
    };
    push(found, 1, Named::Subsystem(subsystem))?;
    push(
        found,
        1,
        Named::SlotType {
            subsystem,
            type_name,
        },
    )
}

/// Adds a task and the subsystems of items, the first of which begins at this place.
fn push_port<'a>(
    found: &mut Vec<Mention<'a>>,
    place: usize,
    task: &'a str,
    first: usize,
    items: &[&'a str],
) -> Result<(), AllocError> {
    push(found, place, Named::Task(task))?;
    push_items(found, first, items)
}

/// The names that the words of a line take from earlier lines and from MIG files, in the order in
/// which they are looked up.
pub(crate) fn mentions<'a>(
    alloc: Global,
    words: &[&'a str],
) -> Result<Vec<Mention<'a>>, AllocError> {
    let mut found = Vec::new(alloc);
    match *words {
        ["port", _, _, task, _, ref items @ ..] => push_port(&mut found, 3, task, 5, items)?,
        ["births", task, "accepts", ref items @ ..] => push_port(&mut found, 1, task, 3, items)?,
        ["births", task, _, _, ref items @ ..] => push_port(&mut found, 1, task, 4, items)?,
        ["hold", task, _, ref class @ ..] => push_right(&mut found, task, 3, class)?,
        ["admit", slot, ref class @ ..] => {
            push_type(&mut found, slot)?;
            push_class(&mut found, 2, class)?;
        }
        ["trust", task, "replies", ref class @ ..] => push_right(&mut found, task, 3, class)?,
        ["trust", task, _, _, ref class @ ..] => push_right(&mut found, task, 4, class)?,
        ["forbid", task, _, ref class @ ..] => push_right(&mut found, task, 3, class)?,
        _ => {}
    }
    Ok(found)
}

/// The place of the word `accepts` in a line that has items.
pub(crate) fn accepts_place(words: &[&str]) -> Option<usize> {
    match *words {
        ["port", ..] => Some(4),
        ["births", _, "accepts", ..] => Some(2),
        ["births", ..] => Some(3),
        _ => None,
    }
}
