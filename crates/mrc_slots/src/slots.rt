//! A wiring, with what its classes take as rows of bits.

ghost use Rattle.std.specs.Prelude.{◌≡◌, ◌+◌, ◌*◌, ◌≤◌, ◌&&◌, ℕ, IfOk, length, nat_lt};
ghost use Rattle.mrc_base.specs.declared.PortRight.{PortRight};
ghost use Rattle.mrc_base.specs.Limits.{limit_of_tasks};
ghost use Rattle.mrc_rows.specs.Limits.{limit_of_classes, limit_of_words};
ghost use Rattle.mrc_bits.specs.Bits.{is_set};
ghost use Rattle.mrc_wiring.specs.Table.{wiring_of};
ghost use Rattle.mrc_model.specs.Wiring.{classes, accepts_destroyed};
ghost use Rattle.mrc_slots.specs.Passing.{is_passed, is_replier};
ghost use Rattle.mrc_slots.specs.Masks.{HasMasks};

use crate::masks::{all_places, notified_row, row_at, row_number, taken_rows};
use crate::repliers::{Repliers, repliers_of};
use mrc_base::PortRight;
use mrc_wiring::Wired;
use std::alloc::{AllocError, Global};
use std::marker::Model;

/// A wiring, with what its classes take in rows of bits: a row of classes for each class, each
/// right that is held and each right as which it comes. It also has all classes, those that accept
/// port-destroyed notices, and those that reply ports can have.
#[derive(Drop)]
pub struct Slots {
    wired: Wired,
    taken: Vec<Vec<u64>>,
    all: Vec<u64>,
    notified: Vec<u64>,
    repliers: Repliers,
}

impl Model for Slots {
    ghost use Rattle.mrc_wiring.specs.Table.{Table, wiring_of};
    ghost use Rattle.mrc_slots.specs.Masks.{HasMasks};

    ghost Value = { Table };

    ghost view = { λ s. s.wired };

    ghost invariant = { λ s.
        HasMasks (wiring_of s.wired) s.taken.items s.all.items s.notified.items s.repliers };
}

impl Slots {
    /// A copy of the wiring, with a row for each class and right of what the class takes.
    pub fn new(alloc: Global, wired: &Wired) -> Result<Slots, AllocError>
        ensures { IfOk result (λ slots. slots ≡ wired.now) }
    {
        let taken = taken_rows(alloc, wired)?;
        let all = all_places(alloc, wired.classes())?;
        let notified = notified_row(alloc, wired)?;
        let repliers = repliers_of(alloc, wired)?;
        Ok(Slots {
            wired: wired.copy(alloc)?,
            taken,
            all,
            notified,
            repliers,
        })
    }

    /// The classes of which class `to` takes rights `held` by a slot, where they come as `give`.
    pub fn taken_by(&self, to: u16, held: PortRight, give: PortRight) -> &[u64]
        ensures taken { (c : ℕ) →
            is_set result.now c ≡ is_passed (wiring_of self.now) to c held give }
        ensures few { length result.now ≤ limit_of_words }
    {
        row_at(self.taken.as_slice(), row_number(to, held, give))
    }

    /// All classes of the wiring.
    pub fn all(&self) -> &[u64]
        ensures shown { (c : ℕ) → is_set result.now c ≡ nat_lt c (classes (wiring_of self.now)) }
        ensures few { length result.now ≤ limit_of_words }
    {
        self.all.as_slice()
    }

    /// The classes that reply ports of requests to class `to` can have.
    pub fn repliers(&self, to: u16) -> &[u64]
        ensures shown { (c : ℕ) →
            is_set result.now c ≡ is_replier (wiring_of self.now) to c }
        ensures few { length result.now ≤ limit_of_words }
    {
        self.repliers.row(self.all.as_slice(), to)
    }

    /// The classes that accept port-destroyed notices.
    pub fn notified(&self) -> &[u64]
        ensures shown { (d : ℕ) → is_set result.now d ≡ (nat_lt d (classes (wiring_of self.now))
            && accepts_destroyed (wiring_of self.now) d) }
        ensures few { length result.now ≤ limit_of_words }
    {
        self.notified.as_slice()
    }

    /// The wiring itself.
    pub fn wired(&self) -> &Wired
        ensures { result.now ≡ self.now }
    {
        &self.wired
    }

    /// How many tasks there are.
    pub fn tasks(&self) -> u16
        ensures exact { result ≡ (wiring_of self.now).tasks }
        ensures within { result ≤ limit_of_tasks }
    {
        self.wired.tasks()
    }

    /// How many classes of ports there are.
    pub fn classes(&self) -> u16
        ensures exact { result ≡ classes (wiring_of self.now) }
        ensures within { result ≤ limit_of_classes }
    {
        self.wired.classes()
    }
}
