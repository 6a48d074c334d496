//! Rows of facts, joined a word at a time.

ghost use Rattle.std.specs.Prelude.{◌≡◌, ◌+◌, ◌*◌, ◌<◌, ◌≤◌, ◌&&◌, ◌||◌, ◌==◌, length, true};
ghost use Rattle.std.specs.Prelude.{false, not, OnOk, OnErr};
ghost use Rattle.mrc_base.specs.declared.Fact.{Fact};
ghost use Rattle.mrc_facts.specs.Sets.{has, IsAscending};
ghost use Rattle.mrc_bits.specs.Bits.{is_set};
ghost use Rattle.mrc_rows.specs.Limits.{limit_of_words, limit_of_rows};
ghost use Rattle.mrc_rows.specs.Rows.{IsWithin, is_within, row_of, place_of};
ghost use Rattle.mrc_rows.specs.Joining.{is_of, is_in_both, is_in_row, is_kept, IsNumber};

use crate::facts::Facts;
use crate::limits::{CLASSES, FIRST_ROW_OF_BACKUPS, FIRST_ROW_OF_CARRIES, ROWS};
use crate::row_facts::{number, right_of};
use mrc_base::PortRight;
use mrc_base::limits::TASKS;
use std::alloc::AllocError;

/// A row of facts: classes, each at the place of its number.
#[derive(Clone, Copy, Debug)]
pub enum Row {
    /// The classes on which the task of this number holds the right.
    Holds(u16, PortRight),
    /// The classes on which the right is carried to the class of this number.
    Carries(u16, PortRight),
    /// The classes that are to be notified of ports of the class of this number.
    Backups(u16),
}

/// Whether the row is one of those that are kept: of a task below 64, or of a class below 1,344.
fn is_kept(row: Row) -> bool
    ensures { result ≡ is_kept row }
{
    match row {
        Row::Holds(task, _) => (task as usize) < TASKS,
        Row::Carries(class, _) => (class as usize) < CLASSES,
        Row::Backups(class) => (class as usize) < CLASSES,
    }
}

/// The number of a row that is kept.
fn number_of(row: Row) -> usize
    requires { is_kept row ≡ true }
    ensures { IsNumber row result }
{
    match row {
        Row::Holds(task, right) => 3 * task as usize + number(right),
        Row::Carries(class, right) => FIRST_ROW_OF_CARRIES + 3 * class as usize + number(right),
        Row::Backups(class) => FIRST_ROW_OF_BACKUPS + class as usize,
    }
}

/// The row that is kept as the one of this number: three of the holds of each task, then three of
/// the carries to each class, then one of the backups of each class.
fn row_at(number: usize) -> Row
    requires { number < limit_of_rows }
    ensures kept { is_kept result ≡ true }
    ensures facts { (g : Fact) → IsWithin g → is_of result g ≡ (row_of g == number) }
{
    if number < FIRST_ROW_OF_CARRIES {
        Row::Holds((number / 3) as u16, right_of(number % 3))
    } else if number < FIRST_ROW_OF_BACKUPS {
        let row = number - FIRST_ROW_OF_CARRIES;
        Row::Carries((row / 3) as u16, right_of(row % 3))
    } else {
        Row::Backups((number - FIRST_ROW_OF_BACKUPS) as u16)
    }
}

impl Facts {
    /// The words of the row: the places of those of its facts that the set has. In those of a task
    /// above 63, and of a class above 1,343, no bit is set.
    pub fn words(&self, row: Row) -> &[u64]
        ensures shown { (g : Fact) → is_of row g ≡ true →
            is_set result.now (place_of g) ≡ (is_within g && has self.now g) }
        ensures few { length result.now ≤ limit_of_words }
    {
        if is_kept(row) {
            self.rows.words(number_of(row))
        } else {
            &[]
        }
    }

    /// Inserts the facts of the row whose places both `more` and `mask` have. The row is of a task
    /// below 64, or of a class below 1,344. When it is out of memory, the set is unchanged.
    pub fn join(&mut self, row: Row, more: &[u64], mask: &[u64]) -> Result<(), AllocError>
        requires kept { is_kept row ≡ true }
        requires few { length more.now ≤ limit_of_words }
        ensures ok { OnOk result ((g : Fact) → has self.new g
            ≡ (has self.old g || (is_of row g && is_in_both more.now mask.now (place_of g)))) }
        ensures err { OnErr result (self.new ≡ self.old) }

        // Facts of other rows are unchanged.
        ensures others { (g : Fact) → is_of row g ≡ false → has self.new g ≡ has self.old g }
        ensures before { IsAscending self.old }
        ensures ascending { IsAscending self.new }
    {
        self.rows.join(number_of(row), more, mask)?;
        Ok(())
    }

    /// Inserts the facts of a row of the other set.
    fn join_row(&mut self, number: usize, other: &Facts) -> Result<(), AllocError>
        requires { number < limit_of_rows }
        ensures before { IsAscending self.old }
        ensures ascending { IsAscending self.new }
        ensures ok { OnOk result ((g : Fact) → has self.new g
            ≡ (has self.old g || ((is_within g && row_of g == number) && has other.now g))) }
    {
        let row = row_at(number);
        let words = other.words(row);
        self.join(row, words, words)?;
        Ok(())
    }

    /// Inserts the facts of all rows of the other set.
    pub(crate) fn join_rows(&mut self, other: &Facts) -> Result<(), AllocError>
        ensures before { IsAscending self.old }
        ensures ascending { IsAscending self.new }
        ensures ok { OnOk result ((g : Fact) → has self.new g
            ≡ (has self.old g || (is_within g && has other.now g))) }
    {
        for number in 0..ROWS {
            self.join_row(number, other)?;
        }
        Ok(())
    }
}
