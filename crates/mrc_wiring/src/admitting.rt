//! The classes that types admit, as rows of bits by the numbers of types.

ghost use Rattle.std.specs.Prelude.{◌≡◌, ◌≤◌, ◌*◌, ℕ, true, false, length, nat_lt, IfOk};
ghost use Rattle.mrc_base.specs.Limits.{limit_of_tasks, limit_of_wired_ports, limit_of_kinds};
ghost use Rattle.mrc_bits.specs.Bits.{is_set};
ghost use Rattle.mrc_wiring.specs.Admitting.{IsAdmitting, class_words};
ghost use Rattle.mrc_wiring.specs.Births.{AreAscending};
ghost use Rattle.mrc_wiring.specs.Marks.{words_at};

use crate::births::BirthRow;
use crate::marks::marked;
use crate::table::{AdmitLine, admitted_of};
use mrc_bits::set_bit;
use std::alloc::{AllocError, Global};

/// Words of a row of classes: enough for as many classes as a wiring can have.
pub(crate) const CLASS_WORDS: usize = 21;

/// The classes that types admit. `rows` has a row for each type by its number, without words if no
/// admit line is for the type. `every` is the row of every class.
#[derive(Debug, Drop)]
pub(crate) struct Admitting {
    pub(crate) rows: Vec<Vec<u64>>,
    pub(crate) every: Vec<u64>,
}

/// The words of the row of this number; none if there is no such row.
pub(crate) fn words_at(rows: &[Vec<u64>], number: usize) -> &[u64]
    ensures { result.now ≡ words_at rows.now number }
{
    match rows.get(number) {
        Some(row) => row.as_slice(),
        None => &[],
    }
}

/// The row of every class.
fn every_class(alloc: Global, classes: usize) -> Result<Vec<u64>, AllocError>
    requires { classes ≤ 64 * class_words }
    ensures bits { IfOk result (λ row. (c : ℕ) → is_set row.items c ≡ nat_lt c classes) }
    ensures wide { IfOk result (λ row. length row.items ≡ class_words) }
{
    let mut row = vec![in alloc; 0u64; CLASS_WORDS]?;
    for class in 0..classes {
        set_bit(row.as_mut_slice(), class);
    }
    Ok(row)
}

impl Admitting {
    /// What the admit lines admit if there are so many ports and tasks, and these births.
    pub(crate) fn of(
        alloc: Global,
        ports: usize,
        tasks: usize,
        births: &[BirthRow],
        admits: &[AdmitLine],
    ) -> Result<Admitting, AllocError>
        requires ports { ports ≤ limit_of_wired_ports }
        requires tasks { tasks ≤ limit_of_tasks }
        requires births { length births.now ≤ limit_of_tasks * limit_of_kinds }
        requires ascending { AreAscending births.now }
        ensures { IfOk result (λ admitting. IsAdmitting ports tasks births.now admits.now
            admitting.rows.items admitting.every.items) }
    {
        let classes = ports + tasks + births.len();
        let lines = admitted_of(alloc, ports, tasks, births, admits)?;
        Ok(Admitting {
            rows: marked(alloc, CLASS_WORDS, classes, lines.as_slice())?,
            every: every_class(alloc, classes)?,
        })
    }

    /// The classes that the type of this number admits, as a row of bits.
    pub(crate) fn row(&self, sort: usize) -> &[u64]
        ensures lined { nat_lt 0 (length (words_at self.now.rows.items sort)) ≡ true
            → result.now ≡ words_at self.now.rows.items sort }
        ensures every { nat_lt 0 (length (words_at self.now.rows.items sort)) ≡ false
            → result.now ≡ self.now.every.items }
    {
        let row = words_at(self.rows.as_slice(), sort);
        if row.is_empty() {
            self.every.as_slice()
        } else {
            row
        }
    }
}
