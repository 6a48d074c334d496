//! The births of tasks by their kinds, as rows by ascending task and kind.

ghost use Rattle.std.specs.Prelude.{◌≡◌, ◌<◌, ◌≤◌, IfSome, OnOk, length, position};
ghost use Rattle.mrc_wiring.specs.Births.{is_row, comes_before, is_said, has_row, has_said};
ghost use Rattle.mrc_wiring.specs.Births.{put_row, of_row};
ghost use Rattle.mrc_wiring.specs.RowPlaces.{place_of, stands_at, said_at};
ghost use Rattle.mrc_wiring.specs.Births.{AreAscending};

use crate::labels::Label;
use mrc_base::Copies;
use mrc_model::LabelItem;
use std::alloc::{AllocError, Global};

/// The births of a task of one kind, and what they accept, if a line says it.
#[derive(Debug, Drop)]
pub(crate) struct BirthRow {
    pub(crate) task: u16,
    pub(crate) kind: u8,
    pub(crate) accepts: Option<Label>,
}

impl BirthRow {
    /// Whether it is that of this task and kind.
    fn is_of(&self, task: u32, kind: u32) -> bool
        ensures { result ≡ is_row task kind self.now }
    {
        u32::from(self.task) == task && u32::from(self.kind) == kind
    }

    /// Whether it comes before that of this task and kind.
    fn comes_before(&self, task: u32, kind: u32) -> bool
        ensures { result ≡ comes_before task kind self.now }
    {
        let own = u32::from(self.task);
        own < task || (own == task && u32::from(self.kind) < kind)
    }

    /// What the births accept: nothing if no line says it.
    pub(crate) fn label(&self) -> &[LabelItem]
        ensures { result.now ≡ of_row self.now }
    {
        match &self.accepts {
            Some(label) => label.as_slice(),
            None => &[],
        }
    }

    /// Whether it is that of this task and kind, and a line says what they accept.
    fn is_said(&self, task: u32, kind: u32) -> bool
        ensures { result ≡ is_said task kind self.now }
    {
        self.is_of(task, kind) && self.accepts.is_some()
    }
}

impl Copies for BirthRow {
    fn copy(&self, alloc: Global) -> Result<BirthRow, AllocError> {
        Ok(BirthRow {
            task: self.task,
            kind: self.kind,
            accepts: self.accepts.copy(alloc)?,
        })
    }

    fn same(&self, other: &BirthRow) -> bool {
        self.task == other.task && self.kind == other.kind && self.accepts.same(&other.accepts)
    }
}

/// How many rows come before that of a task and a kind, found by halves.
fn place_of(rows: &[BirthRow], task: u32, kind: u32) -> usize
    requires { AreAscending rows.now }
    ensures exact { result ≡ place_of rows.now task kind }
    ensures within { result ≤ length rows.now }
{
    rows.partition_point(|row| row.comes_before(task, kind))
}

/// Whether the row of the task and the kind is at the place.
fn stands_at(rows: &[BirthRow], at: usize, task: u32, kind: u32) -> bool
    ensures { result ≡ stands_at rows.now at task kind }
{
    match rows.get(at) {
        Some(row) => row.is_of(task, kind),
        None => false,
    }
}

/// Whether the row of the task and the kind is at the place, and a line says what they accept.
fn said_at(rows: &[BirthRow], at: usize, task: u32, kind: u32) -> bool
    ensures { result ≡ said_at rows.now at task kind }
{
    match rows.get(at) {
        Some(row) => row.is_said(task, kind),
        None => false,
    }
}

/// The place of the row of a task and a kind.
pub(crate) fn row_of(rows: &[BirthRow], task: u32, kind: u32) -> Option<usize>
    requires { AreAscending rows.now }
    ensures exact { result ≡ position (is_row task kind) rows.now }
    ensures within { IfSome result (λ at. at < length rows.now) }
{
    let at = place_of(rows, task, kind);
    if stands_at(rows, at, task, kind) {
        Some(at)
    } else {
        None
    }
}

/// Whether there is a row of a task and a kind.
pub(crate) fn has_row(rows: &[BirthRow], task: u32, kind: u32) -> bool
    requires { AreAscending rows.now }
    ensures { result ≡ has_row rows.now task kind }
{
    stands_at(rows, place_of(rows, task, kind), task, kind)
}

/// Whether a line says what the births of a task and a kind accept.
pub(crate) fn has_said(rows: &[BirthRow], task: u32, kind: u32) -> bool
    requires { AreAscending rows.now }
    ensures { result ≡ has_said rows.now task kind }
{
    said_at(rows, place_of(rows, task, kind), task, kind)
}

/// Writes what the births of a task and a kind accept into their row, which is made if there is
/// none.
pub(crate) fn put_row(
    rows: &mut Vec<BirthRow>,
    task: u16,
    kind: u8,
    label: Label,
) -> Result<(), AllocError>
    requires { AreAscending rows.old.items }
    ensures { OnOk result (rows.new.items ≡ put_row rows.old.items task kind label) }
{
    let at = place_of(rows, task as u32, kind as u32);
    let row = BirthRow {
        task,
        kind,
        accepts: Some(label),
    };
    if stands_at(rows, at, task as u32, kind as u32) {
        rows[at] = row;
    } else {
        rows.insert(at, row)?;
    }
    Ok(())
}
