//! Facts by the names of a wiring, and the lines of facts that a policy stands for.

ghost use Rattle.std.specs.Prelude.{◌≡◌, ◌++◌, ◌∷◌, [], filter, fold, IfOk, OnOk, bytes_eq};
ghost use Rattle.std.specs.List.{list_any, flat_map};
ghost use Rattle.mrc_stand_for.specs.Once.{with_once, with_each, same_class, same_right};
ghost use Rattle.mrc_wide_policy.specs.Facts.{fact, right_facts, row_facts, facts_in, same_fact};
ghost use Rattle.mrc_wide_policy.specs.Facts.{is_of_row, is_in, facts_of, is_of_waiver, is_waived};
ghost use Rattle.mrc_wide_policy.specs.Facts.{with_new, new_facts};

use crate::quotes::Quoted;
use mrc_base::PortRight;
use mrc_stand_for::Several;
use mrc_wiring_text::{ClassName, Kind, Name};
use std::alloc::{AllocError, Global};

/// A task holds a right on a class.
#[derive(Drop)]
pub struct NamedFact {
    /// The task.
    pub task: Name,
    /// The right.
    pub right: PortRight,
    /// The class.
    pub class: ClassName,
}

/// A task of a product.
#[derive(Drop)]
pub(crate) struct Row {
    /// The task.
    pub task: Name,
    /// Its classes.
    pub classes: Several<ClassName>,
}

/// A line that forbids or expects.
#[derive(Drop)]
pub struct FactLine {
    /// Its number.
    pub number: u32,
    /// Its NAME.
    pub name: Option<Quoted>,
    /// Whether it expects; else it forbids.
    pub expects: bool,
    /// The facts, in the order of its product.
    pub facts: Several<NamedFact>,
}

/// A line that waives.
#[derive(Drop)]
pub struct WaivedLine {
    /// Its number.
    pub number: u32,
    /// Its NAME.
    pub name: Quoted,
    /// Its reason.
    pub because: Quoted,
    /// The facts that it waives and no line above does.
    pub facts: Several<NamedFact>,
}

/// What the lines of a policy stand for.
#[derive(Drop)]
pub struct PolicyStands {
    /// Whether the policy is of version 3.
    pub is_wide: bool,
    /// The lines that forbid or expect.
    pub lines: Several<FactLine>,
    /// The lines that waive.
    pub waived: Several<WaivedLine>,
}

/// Whether two names are one.
pub(crate) fn is_same_name(name: &Name, other: &Name) -> bool
    ensures { result ≡ bytes_eq name.now other.now }
{
    name.as_str() == other.as_str()
}

/// Whether two classes are one.
fn is_same_class(class: &ClassName, other: &ClassName) -> bool
    ensures { result ≡ same_class class.now other.now }
{
    match (class, other) {
        (ClassName::Port(port), ClassName::Port(wanted)) => is_same_name(port, wanted),
        (ClassName::Task(task), ClassName::Task(wanted)) => is_same_name(task, wanted),
        (
            ClassName::Births { task, kind },
            ClassName::Births {
                task: wanted,
                kind: number,
            },
        ) => is_same_name(task, wanted) && kind.number() == number.number(),
        _ => false,
    }
}

/// Whether a class is among these.
fn has_class(classes: &[ClassName], class: &ClassName) -> bool
    ensures { result ≡ list_any (same_class class.now) classes.now }
{
    classes.iter().any(|other| is_same_class(class, other))
}

fn copy_kind(kind: &Kind) -> Kind
    ensures { result ≡ kind.now }
{
    Kind::new(kind.number()).unwrap()
}

/// An equal class.
pub(crate) fn copy_class(alloc: Global, class: &ClassName) -> Result<ClassName, AllocError>
    ensures { IfOk result (λ copy. copy ≡ class.now) }
{
    match class {
        ClassName::Port(port) => Ok(ClassName::Port(port.copy(alloc)?)),
        ClassName::Task(task) => Ok(ClassName::Task(task.copy(alloc)?)),
        ClassName::Births { task, kind } => {
            let task = task.copy(alloc)?;
            let kind = copy_kind(kind);
            Ok(ClassName::Births { task, kind })
        }
    }
}

fn is_same_right(right: PortRight, other: PortRight) -> bool
    ensures { result ≡ same_right right other }
{
    match (right, other) {
        (PortRight::Send, PortRight::Send) => true,
        (PortRight::Receive, PortRight::Receive) => true,
        (PortRight::SendOnce, PortRight::SendOnce) => true,
        _ => false,
    }
}

/// Whether a right is among these.
fn has_right(rights: &[PortRight], right: PortRight) -> bool
    ensures { result ≡ list_any (same_right right) rights.now }
{
    rights.iter().any(|other| is_same_right(right, *other))
}

/// Adds a right that is not there yet.
fn add_right(list: &mut Several<PortRight>, right: PortRight) -> Result<(), AllocError>
    ensures { OnOk result (list.new ≡ with_once same_right list.old right) }
{
    if has_right(list.as_slice(), right) {
        return Ok(());
    }
    list.push(right)?;
    Ok(())
}

/// Each right once.
pub(crate) fn rights_once(
    alloc: Global,
    rights: &[PortRight],
) -> Result<Several<PortRight>, AllocError>
    ensures { IfOk result (λ list. list ≡ with_each same_right [] rights.now) }
{
    let mut list = Several::empty(alloc);
    for right in rights {
        add_right(&mut list, *right)?;
    }
    Ok(list)
}

/// Adds a right of a task on each of its classes.
fn push_right(
    alloc: Global,
    facts: &mut Several<NamedFact>,
    row: &Row,
    right: PortRight,
) -> Result<(), AllocError>
    ensures { OnOk result (facts.new ≡ facts.old ++ right_facts row.now right) }
{
    for class in row.classes.as_slice() {
        let task = row.task.copy(alloc)?;
        let class = copy_class(alloc, class)?;
        facts.push(NamedFact { task, right, class })?;
    }
    Ok(())
}

/// Adds each right of a task on each of its classes.
fn push_row(
    alloc: Global,
    facts: &mut Several<NamedFact>,
    rights: &[PortRight],
    row: &Row,
) -> Result<(), AllocError>
    ensures { OnOk result (facts.new ≡ facts.old ++ row_facts rights.now row.now) }
{
    for right in rights {
        push_right(alloc, facts, row, *right)?;
    }
    Ok(())
}

/// Each right of each task on each of its classes.
pub(crate) fn facts_in(
    alloc: Global,
    rights: &[PortRight],
    rows: &[Row],
) -> Result<Several<NamedFact>, AllocError>
    ensures { IfOk result (λ facts. facts ≡ facts_in rights.now rows.now) }
{
    let mut facts = Several::empty(alloc);
    for row in rows {
        push_row(alloc, &mut facts, rights, row)?;
    }
    Ok(facts)
}

fn is_same_fact(fact: &NamedFact, other: &NamedFact) -> bool
    ensures { result ≡ same_fact fact.now other.now }
{
    is_same_name(&fact.task, &other.task)
        && is_same_right(fact.right, other.right)
        && is_same_class(&fact.class, &other.class)
}

fn has_fact(facts: &[NamedFact], fact: &NamedFact) -> bool
    ensures { result ≡ list_any (same_fact fact.now) facts.now }
{
    facts.iter().any(|other| is_same_fact(fact, other))
}

fn copy_fact(alloc: Global, fact: &NamedFact) -> Result<NamedFact, AllocError>
    ensures { IfOk result (λ copy. copy ≡ fact.now) }
{
    let task = fact.task.copy(alloc)?;
    let class = copy_class(alloc, &fact.class)?;
    Ok(NamedFact {
        task,
        right: fact.right,
        class,
    })
}

fn is_of_row(fact: &NamedFact, row: &Row) -> bool
    ensures { result ≡ is_of_row fact.now row.now }
{
    is_same_name(&fact.task, &row.task) && has_class(row.classes.as_slice(), &fact.class)
}

fn has_row(rows: &[Row], fact: &NamedFact) -> bool
    ensures { result ≡ list_any (is_of_row fact.now) rows.now }
{
    rows.iter().any(|row| is_of_row(fact, row))
}

fn is_in(rights: &[PortRight], rows: &[Row], fact: &NamedFact) -> bool
    ensures { result ≡ is_in rights.now rows.now fact.now }
{
    has_right(rights, fact.right) && has_row(rows, fact)
}

/// Those of facts that are in a product.
pub(crate) fn those_in(
    alloc: Global,
    rights: &[PortRight],
    rows: &[Row],
    facts: &[NamedFact],
) -> Result<Several<NamedFact>, AllocError>
    ensures { IfOk result (λ those. those ≡ filter (is_in rights.now rows.now) facts.now) }
{
    let mut those = Several::empty(alloc);
    for fact in facts {
        if is_in(rights, rows, fact) {
            those.push(copy_fact(alloc, fact)?)?;
        }
    }
    Ok(those)
}

/// Adds copies of facts.
pub(crate) fn push_facts(
    alloc: Global,
    list: &mut Several<NamedFact>,
    facts: &[NamedFact],
) -> Result<(), AllocError>
    ensures { OnOk result (list.new ≡ list.old ++ facts.now) }
{
    for fact in facts {
        list.push(copy_fact(alloc, fact)?)?;
    }
    Ok(())
}

/// Whether a fact is one of a line's.
pub(crate) fn is_of_waiver(fact: &NamedFact, line: &WaivedLine) -> bool
    ensures { result ≡ is_of_waiver fact.now line.now }
{
    has_fact(line.facts.as_slice(), fact)
}

/// Whether a fact is waived.
fn is_waived(waived: &[WaivedLine], fact: &NamedFact) -> bool
    ensures { result ≡ is_waived waived.now fact.now }
{
    waived.iter().any(|line| is_of_waiver(fact, line))
}

/// Adds a fact, unless it is waived or is there.
fn add_new(
    waived: &[WaivedLine],
    list: &mut Several<NamedFact>,
    fact: NamedFact,
) -> Result<(), AllocError>
    ensures { OnOk result (list.new ≡ with_new waived.now list.old fact) }
{
    if is_waived(waived, &fact) || has_fact(list.as_slice(), &fact) {
        drop(fact);
        return Ok(());
    }
    list.push(fact)?;
    Ok(())
}

/// Those of facts that are not waived yet, each once.
pub(crate) fn new_facts(
    alloc: Global,
    waived: &[WaivedLine],
    facts: Vec<NamedFact>,
) -> Result<Several<NamedFact>, AllocError>
    ensures { IfOk result (λ list. list ≡ new_facts waived.now facts.items) }
{
    let mut list = Several::empty(alloc);
    for fact in facts {
        add_new(waived, &mut list, fact)?;
    }
    Ok(list)
}
