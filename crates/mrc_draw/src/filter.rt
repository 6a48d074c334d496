//! The facts that are asked for, a line for each.

ghost use Rattle.std.specs.Prelude.{◌≡◌, IfOk};
ghost use Rattle.std.specs.Option.{option_map};
ghost use Rattle.mrc_facts.specs.Sets.{after};
ghost use Rattle.mrc_wiring.specs.Names.{number_of, class_named};
ghost use Rattle.mrc_words.specs.Reading.{right_named};
ghost use Rattle.mrc_draw.specs.Filters.{is_right, matches_task, matches_class, matches_right};
ghost use Rattle.mrc_draw.specs.Filters.{matches, asked_by, filter_of};
ghost use Rattle.mrc_draw.specs.declared.filter.FilterFault.TheVariants as faults;

use mrc_base::{ClassId, Fact, PortRight};
use mrc_rows::Facts;
use mrc_wiring::Wired;
use mrc_words::{fact_text, right_named};
use std::alloc::{AllocError, Global};

/// Which facts are asked for: those that have each part that is given.
#[derive(Clone, Copy, Debug, PartialEq, Eq)]
pub struct Filter {
    /// Holds of the task of this number.
    pub task: Option<u16>,
    /// Facts in which this class stands, at any place.
    pub class: Option<ClassId>,
    /// Holds and carries of this right.
    pub right: Option<PortRight>,
}

/// Which of the words of a filter names nothing.
#[derive(Clone, Copy, Debug, PartialEq, Eq)]
pub enum FilterFault {
    /// No task has the name.
    Task,
    /// No class is printed so.
    Class,
    /// No right is printed so.
    Right,
}

fn task_asked(wired: &Wired, word: Option<&str>) -> Result<Option<u16>, FilterFault>
    ensures { result ≡ asked_by faults.Task (number_of wired.now.names)
        (option_map (λ word. word.now) word.entry) }
{
    match word {
        Some(word) => match wired.task_named(word) {
            Some(task) => Ok(Some(task.0 as u16)),
            None => Err(FilterFault::Task),
        },
        None => Ok(None),
    }
}

fn class_asked(wired: &Wired, word: Option<&str>) -> Result<Option<ClassId>, FilterFault>
    ensures { result ≡ asked_by faults.Class (class_named wired.now)
        (option_map (λ word. word.now) word.entry) }
{
    match word {
        Some(word) => match wired.class_named(word) {
            Some(class) => Ok(Some(class)),
            None => Err(FilterFault::Class),
        },
        None => Ok(None),
    }
}

fn right_asked(word: Option<&str>) -> Result<Option<PortRight>, FilterFault>
    ensures { result ≡ asked_by faults.Right right_named
        (option_map (λ word. word.now) word.entry) }
{
    match word {
        Some(word) => match right_named(word) {
            Some(right) => Ok(Some(right)),
            None => Err(FilterFault::Right),
        },
        None => Ok(None),
    }
}

/// The filter that words ask for: a task by its name, a class and a right as they are printed. The
/// fault is that of the first of them that names none.
pub fn filter_of(
    wired: &Wired,
    task: Option<&str>,
    class: Option<&str>,
    right: Option<&str>,
) -> Result<Filter, FilterFault>
    ensures { result ≡ filter_of wired.now (option_map (λ word. word.now) task.entry)
        (option_map (λ word. word.now) class.entry) (option_map (λ word. word.now) right.entry) }
{
    Ok(Filter {
        task: task_asked(wired, task)?,
        class: class_asked(wired, class)?,
        right: right_asked(right)?,
    })
}

fn matches_task(asked: Option<u16>, fact: &Fact) -> bool
    ensures { result ≡ matches_task asked fact.now }
{
    match asked {
        None => true,
        Some(asked) => match *fact {
            Fact::Hold { task, .. } => task == asked,
            Fact::Carry { .. } | Fact::Backup { .. } => false,
        },
    }
}

fn matches_class(asked: Option<ClassId>, fact: &Fact) -> bool
    ensures { result ≡ matches_class asked fact.now }
{
    match asked {
        None => true,
        Some(asked) => match *fact {
            Fact::Hold { class, .. } => class.0 == asked.0,
            Fact::Carry {
                destination,
                class,
                ..
            } => destination.0 == asked.0 || class.0 == asked.0,
            Fact::Backup { class, notify } => class.0 == asked.0 || notify.0 == asked.0,
        },
    }
}

/// Whether the two are one right.
fn is_right(right: PortRight, asked: PortRight) -> bool
    ensures { result ≡ is_right right asked }
{
    right as u8 == asked as u8
}

fn matches_right(asked: Option<PortRight>, fact: &Fact) -> bool
    ensures { result ≡ matches_right asked fact.now }
{
    match asked {
        None => true,
        Some(asked) => match *fact {
            Fact::Hold { right, .. } | Fact::Carry { right, .. } => is_right(right, asked),
            Fact::Backup { .. } => false,
        },
    }
}

/// Whether the fact is one of those that are asked for.
pub(crate) fn matches(asked: &Filter, fact: &Fact) -> bool
    ensures { result ≡ matches asked.now fact.now }
{
    matches_task(asked.task, fact)
        && matches_class(asked.class, fact)
        && matches_right(asked.right, fact)
}

/// The line of a fact, if it is asked for.
fn line_asked(
    alloc: Global,
    wired: &Wired,
    asked: &Filter,
    fact: &Fact,
) -> Result<String, AllocError> {
    if !matches(asked, fact) {
        return Ok(String::new(alloc));
    }
    let text = fact_text(alloc, wired, *fact)?;
    format!(in alloc; "{text}\n")
}

/// Puts the line of a fact to the text, if it is asked for, and answers the next fact.
fn put_line(
    alloc: Global,
    wired: &Wired,
    facts: &Facts,
    asked: &Filter,
    text: &mut String,
    fact: &Fact,
) -> Result<Option<Fact>, AllocError>
    ensures { IfOk result (λ next. next ≡ after facts.now fact.now) }
{
    let line = line_asked(alloc, wired, asked, fact)?;
    text.push_str(line.as_str())?;
    Ok(facts.after(*fact))
}

/// The lines of those of the facts that are asked for, in the order of their bytes.
pub fn facts_text(
    alloc: Global,
    wired: &Wired,
    facts: &Facts,
    asked: &Filter,
) -> Result<String, AllocError> {
    let _count = facts.len();
    let mut text = String::new(alloc);
    let mut next = facts.first();
    while let Some(fact) = next {
        next = put_line(alloc, wired, facts, asked, &mut text, &fact)?;
    }
    Ok(text)
}
