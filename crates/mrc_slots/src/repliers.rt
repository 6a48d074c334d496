//! Which classes reply ports can have, as rows of bits.

ghost use Rattle.std.specs.Prelude.{◌≡◌, ◌<◌, ℕ, IfOk};
ghost use Rattle.mrc_rows.specs.Limits.{limit_of_classes};
ghost use Rattle.mrc_model.specs.Wiring.{classes, accepts_replier, accepts_routine};
ghost use Rattle.mrc_wiring.specs.Table.{wiring_of};
ghost use Rattle.mrc_slots.specs.Masks.{IsMask, AreMasks, AreFirstRepliers, AreRepliers};
ghost use Rattle.mrc_slots.specs.Masks.{replier_words};

use crate::alike::alike_before;
use crate::masks::{mark, row_at, zeros};
use mrc_base::ClassId;
use mrc_bits::has_bit;
use mrc_wiring::Wired;
use std::alloc::{AllocError, Global};

/// Which classes the reply ports of requests to a class can have.
#[derive(Drop)]
pub(crate) enum Repliers {
    /// Reply ports need not fit: each class, if the row has the class of the request's port, which
    /// then accepts requests of routines.
    Any(Vec<u64>),
    /// They have to fit: a row for each class.
    Fitting(Vec<Vec<u64>>),
}

/// The classes that accept requests of routines.
fn routines_row(alloc: Global, wired: &Wired) -> Result<Vec<u64>, AllocError>
    ensures { IfOk result (λ row. IsMask (accepts_routine (wiring_of wired.now))
        (classes (wiring_of wired.now)) row.items) }
{
    let count = wired.classes();
    let mut row = zeros(alloc, count)?;
    for class in 0..count {
        let test = wired.accepts_routine(ClassId(class));
        mark(&mut row, class as usize, test);
    }
    Ok(row)
}

/// The classes that reply ports of requests to class `to` can have.
fn replier_row(alloc: Global, wired: &Wired, to: u16) -> Result<Vec<u64>, AllocError>
    ensures { IfOk result (λ row. IsMask (accepts_replier (wiring_of wired.now) to)
        (classes (wiring_of wired.now)) row.items) }
{
    let count = wired.classes();
    let mut row = zeros(alloc, count)?;
    for class in 0..count {
        let test = wired.accepts_replier(ClassId(to), ClassId(class));
        mark(&mut row, class as usize, test);
    }
    Ok(row)
}

/// The same, where the rows of the classes before it are made: a copy of the row of a class that
/// accepts the same, or a new one.
fn next_row(
    alloc: Global,
    wired: &Wired,
    rows: &[Vec<u64>],
    to: u16,
) -> Result<Vec<u64>, AllocError>
    requires { AreFirstRepliers (wiring_of wired.now) to rows.now }
    ensures { IfOk result (λ row. IsMask (accepts_replier (wiring_of wired.now) to)
        (classes (wiring_of wired.now)) row.items) }
{
    match alike_before(wired, to) {
        Some(class) => row_at(rows, class as usize).to_vec(alloc),
        None => replier_row(alloc, wired, to),
    }
}

/// A row for each class.
fn replier_rows(alloc: Global, wired: &Wired) -> Result<Vec<Vec<u64>>, AllocError>
    ensures { IfOk result (λ rows. AreMasks (accepts_replier (wiring_of wired.now))
        (classes (wiring_of wired.now)) (classes (wiring_of wired.now)) rows.items) }
{
    let mut rows = Vec::new(alloc);
    for to in 0..wired.classes() {
        let row = next_row(alloc, wired, rows.as_slice(), to)?;
        rows.push(row)?;
    }
    Ok(rows)
}

/// The classes that the reply ports of a wiring can have.
pub(crate) fn repliers_of(alloc: Global, wired: &Wired) -> Result<Repliers, AllocError>
    ensures { IfOk result (AreRepliers (wiring_of wired.now)) }
{
    if wired.replies_fit() {
        Ok(Repliers::Fitting(replier_rows(alloc, wired)?))
    } else {
        Ok(Repliers::Any(routines_row(alloc, wired)?))
    }
}

impl Repliers {
    /// The classes that reply ports of requests to class `to` can have, of all classes.
    #[inline(always)]
    pub(crate) fn row<'a>(&'a self, all: &'a [u64], to: u16) -> &'a [u64]
        ensures { result.now ≡ replier_words self.now all.now to }
    {
        match self {
            Repliers::Any(routines) => {
                if has_bit(routines.as_slice(), to as usize) {
                    all
                } else {
                    &[]
                }
            }
            Repliers::Fitting(rows) => row_at(rows.as_slice(), to as usize),
        }
    }
}
