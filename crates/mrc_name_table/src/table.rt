//! Names by their numbers, and numbers by their names.

ghost use Rattle.std.specs.Prelude.{◌≡◌, ◌<◌, [], length, slice_get, IfSome, OnOk, OnErr};
ghost use Rattle.std.specs.Option.{option_map};
ghost use Rattle.mrc_name_table.specs.Names.{number_of, with_name};

use indexmap::IndexSet;
use mrc_base::Copies;
use std::alloc::{AllocError, Global};
use std::marker::Model;

/// Names, no two of which are equal, in the order in which they were added. The number of a name is
/// its place.
#[derive(Debug, Drop)]
pub struct NameTable {
    names: IndexSet<String>,
}

impl Model for NameTable {
    ghost use Rattle.std.specs.Prelude.{ℕ, List, map, string_bytes};

    ghost Value = { List (List ℕ) };

    ghost view = { λ t. map (λ name. string_bytes name) t.names.keys };
}

impl NameTable {
    /// No name.
    pub fn new(alloc: Global) -> NameTable
        ensures { result ≡ [] }
    {
        NameTable {
            names: IndexSet::new(alloc),
        }
    }

    /// How many names there are.
    pub fn len(&self) -> usize
        ensures { result ≡ length self.now }
    {
        self.names.len()
    }

    /// The name of this number.
    pub fn name(&self, number: usize) -> Option<&str>
        ensures { option_map (λ name. name.now) result ≡ slice_get self.now number }
    {
        let name = self.names.get_index(number)?;
        Some(name.as_str())
    }

    /// The number of a name.
    pub fn number_of(&self, name: &str) -> Option<usize>
        ensures exact { result ≡ number_of self.now name.now }
        ensures within { IfSome result (λ number. number < length self.now) }
    {
        self.names.get_index_of(name)
    }

    /// Adds a name, unless it is there. Out of memory leaves the names unchanged.
    pub fn add(&mut self, alloc: Global, name: &str) -> Result<(), AllocError>
        ensures ok { OnOk result (self.new ≡ with_name self.old name.now) }
        ensures err { OnErr result (self.new ≡ self.old) }
    {
        let _ = self.names.insert(String::from_str(alloc, name)?)?;
        Ok(())
    }
}

impl Copies for NameTable {
    fn copy(&self, alloc: Global) -> Result<NameTable, AllocError> {
        let mut copy = NameTable::new(alloc);
        for name in self.names.as_slice() {
            copy.add(alloc, name.as_str())?;
        }
        Ok(copy)
    }

    fn same(&self, other: &NameTable) -> bool {
        self.names.as_slice() == other.names.as_slice()
    }
}
