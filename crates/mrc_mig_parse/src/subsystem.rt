//! What a MIG subsystem means.

ghost use Rattle.std.specs.Prelude.{◌≡◌, ◌≤◌, map, length, IsTrue};
ghost use Rattle.std.specs.List.{list_all};
ghost use Rattle.mrc_base.specs.Limits.{limit_of_first_edition_ids};
ghost use Rattle.mrc_mig_parse.specs.Bounds.{row_fits};
ghost use Rattle.mrc_mig_parse.specs.Meanings.{row_of};

use mrc_forms::Shape;
use mrc_mig_symbols::Direction;
use std::alloc::{AllocError, Global};
use std::marker::Model;

/// An argument of a routine.
#[derive(Debug, PartialEq, Eq, Drop)]
pub struct Argument {
    /// Its name.
    pub name: String,
    /// Which way it goes. An argument with no word is `In`, or the request port.
    pub direction: Direction,
    /// Its data.
    pub shape: Shape,
    /// The name after the colon.
    pub type_name: String,
}

/// What stands at an id.
#[derive(Debug, PartialEq, Eq, Drop)]
pub enum Entry {
    /// A `routine`, which is answered by a reply.
    Routine {
        /// Its name.
        name: String,
        /// Its arguments, in their order.
        arguments: Vec<Argument>,
    },
    /// A `simpleroutine`, which has no reply.
    SimpleRoutine {
        /// Its name.
        name: String,
        /// Its arguments, in their order.
        arguments: Vec<Argument>,
    },
    /// A `skip`.
    Skip,
}

/// A subsystem. It has 100 ids at most, and a routine 32 arguments; sizes are multiples of 8 from 8
/// to 65,528, and 32 for port rights; counts are 1 to 8,192. Only [`crate::parse`] makes one.
#[derive(Debug, Drop)]
pub struct Subsystem {
    pub(crate) name: String,
    pub(crate) base: u32,
    pub(crate) entries: Vec<Entry>,
}

impl Model for Subsystem {
    ghost use Rattle.std.specs.Prelude.{◌≡◌, ◌≤◌, map, length, string_bytes, true};
    ghost use Rattle.std.specs.List.{list_all};
    ghost use Rattle.mrc_base.specs.Limits.{limit_of_first_edition_ids};
    ghost use Rattle.mrc_mig_parse.specs.Files.{Meaning};
    ghost use Rattle.mrc_mig_parse.specs.Bounds.{row_fits};
    ghost use Rattle.mrc_mig_parse.specs.Meanings.{row_of};

    ghost Value = { Meaning };

    ghost view = { λ s. record {
      name = string_bytes s.name;
      base = s.base;
      rows = map row_of s.entries.items;
    } };

    ghost invariant = { λ s. (length s.entries.items ≤ limit_of_first_edition_ids)
        × (list_all row_fits (map row_of s.entries.items) ≡ true) };
}

impl Subsystem {
    /// Its name.
    pub fn name(&self) -> &str
        ensures { result.now ≡ self.now.name }
    {
        self.name.as_str()
    }

    /// The id of its first entry. Each entry takes the next id.
    pub fn base(&self) -> u32
        ensures { result ≡ self.now.base }
    {
        self.base
    }

    /// Its routines, simpleroutines and skips, in order, 100 at most, with few enough arguments, of
    /// sizes and counts that types can have.
    pub fn entries(&self) -> &[Entry]
        ensures shown { map row_of result.now ≡ self.now.rows }
        ensures few { length result.now ≤ limit_of_first_edition_ids }
        ensures kept { IsTrue (list_all row_fits (map row_of result.now)) }
    {
        self.entries.as_slice()
    }
}
