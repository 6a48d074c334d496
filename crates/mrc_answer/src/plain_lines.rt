//! The lines of a policy that name births without a kind.

ghost use Rattle.std.specs.Prelude.{◌≡◌, ◌++◌, filter, map, IfOk, OnOk};
ghost use Rattle.mrc_wiring_text.specs.Lexis.{words};
ghost use Rattle.mrc_answer.specs.PlainLines.{has_births, further_kinds, task_named, births_of};
ghost use Rattle.mrc_answer.specs.PlainLines.{plain_task, plain_line, plain_of, plain_lines};

use mrc_base::TaskId;
use mrc_wiring::Wired;
use mrc_wiring_text::{Name, between_blanks, first_line, is_word, spaced};
use std::alloc::{AllocError, Global};
use std::marker::Model;

/// A line of a policy that names the births of a task without a kind, and the kinds other than 0 of
/// that task.
#[derive(Debug, Drop)]
pub struct PlainLine {
    number: usize,
    task: TaskId,
    kinds: Vec<u8>,
}

impl Model for PlainLine {
    ghost use Rattle.mrc_answer.specs.PlainLines as definitions;

    ghost Value = { definitions.PlainLine };

    ghost view = { λ l. record { number = l.number; task = l.task; kinds = l.kinds.items } };
}

impl PlainLine {
    /// The line's number in the policy's text, from 1.
    pub fn number(&self) -> usize
        ensures { result ≡ self.now.number }
    {
        self.number
    }

    /// The task whose births the line names.
    pub fn task(&self) -> TaskId
        ensures { result ≡ self.now.task }
    {
        self.task
    }

    /// The kinds other than 0 of the task's births, ascending. There is one at least.
    pub fn kinds(&self) -> &[u8]
        ensures { result.now ≡ self.now.kinds }
    {
        self.kinds.as_slice()
    }
}

/// Whether the wiring has births of this kind of the task.
fn has_births(wired: &Wired, task: TaskId, kind: u8) -> bool
    ensures { result ≡ has_births wired.now task kind }
{
    wired.births_class(task, u32::from(kind)).is_some()
}

/// Those of the kinds that the wiring has births of this task of.
fn kinds_among(
    alloc: Global,
    wired: &Wired,
    task: TaskId,
    kinds: &[u8],
) -> Result<Vec<u8>, AllocError>
    ensures { IfOk result (λ found. found.items ≡ filter (has_births wired.now task) kinds.now) }
{
    kinds
        .iter()
        .copied()
        .filter(|kind| has_births(wired, task, *kind))
        .collect(alloc)
}

/// The kinds other than 0 of the task's births.
fn further_kinds(alloc: Global, wired: &Wired, task: TaskId) -> Result<Vec<u8>, AllocError>
    ensures { IfOk result (λ kinds. kinds.items ≡ further_kinds wired.now task) }
{
    let all = [1, 2, 3, 4, 5, 6, 7, 8, 9, 10, 11, 12, 13, 14, 15];
    kinds_among(alloc, wired, task, &all)
}

/// The task of a name.
fn task_named(alloc: Global, wired: &Wired, word: &[u8]) -> Result<Option<TaskId>, AllocError>
    ensures { IfOk result (λ task. task ≡ task_named wired.now word.now) }
{
    match Name::new(alloc, word)? {
        Some(name) => Ok(wired.task_named(name.as_str())),
        None => Ok(None),
    }
}

/// The task whose births two words name.
fn births_of(
    alloc: Global,
    wired: &Wired,
    key: &[u8],
    name: &[u8],
) -> Result<Option<TaskId>, AllocError>
    ensures { IfOk result (λ task. task ≡ births_of wired.now key.now name.now) }
{
    if is_word(key, "births") {
        task_named(alloc, wired, name)
    } else {
        Ok(None)
    }
}

/// The task whose births the words of a line name without a kind.
fn plain_task(alloc: Global, wired: &Wired, words: &[&[u8]]) -> Result<Option<TaskId>, AllocError>
    ensures { IfOk result (λ task.
        task ≡ plain_task wired.now (map (λ word. word.now) words.now)) }
{
    match *words {
        [_, _, _, key, name] => births_of(alloc, wired, key, name),
        _ => Ok(None),
    }
}

/// The task whose births the line names without a kind.
#[tactic(auto, unfolding(mrc_wiring_text::specs::Lexis::words))]
fn task_of_line(alloc: Global, wired: &Wired, line: &[u8]) -> Result<Option<TaskId>, AllocError>
    ensures { IfOk result (λ task. task ≡ plain_task wired.now (words line.now)) }
{
    let text = spaced(alloc, line)?;
    let said = between_blanks(alloc, &text)?;
    plain_task(alloc, wired, &said)
}

/// Puts the line of this number, with these kinds of this task, at the end of the list, where there
/// is one.
fn push_plain(
    number: usize,
    task: TaskId,
    kinds: Vec<u8>,
    plain: &mut Vec<PlainLine>,
) -> Result<(), AllocError>
    ensures { OnOk result
        (plain.new.items ≡ plain.old.items ++ plain_line number task kinds.items) }
{
    if !kinds.is_empty() {
        plain.push(PlainLine {
            number,
            task,
            kinds,
        })?;
    }
    Ok(())
}

/// The same of a task that may be named, with its kinds.
fn judge_line(
    alloc: Global,
    wired: &Wired,
    number: usize,
    task: Option<TaskId>,
    plain: &mut Vec<PlainLine>,
) -> Result<(), AllocError>
    ensures { OnOk result
        (plain.new.items ≡ plain.old.items ++ plain_of wired.now number task) }
{
    match task {
        None => Ok(()),
        Some(task) => push_plain(number, task, further_kinds(alloc, wired, task)?, plain),
    }
}

/// The lines of a policy that name births without a kind, of a task that has births of further
/// kinds, in their order.
pub fn plain_lines(
    alloc: Global,
    wired: &Wired,
    policy: &[u8],
) -> Result<Vec<PlainLine>, AllocError>
    ensures { IfOk result (λ plain. plain.items ≡ plain_lines wired.now policy.now) }
{
    let mut plain = Vec::new(alloc);
    let mut rest = policy;
    let mut number = 1;
    while !rest.is_empty() {
        let (line, after) = first_line(rest);
        let task = task_of_line(alloc, wired, line)?;
        judge_line(alloc, wired, number, task, &mut plain)?;
        number += 1;
        rest = after;
    }
    Ok(plain)
}
