//! The names that rows have taken.

ghost use Rattle.std.specs.Prelude.{◌≡◌, OnOk};
ghost use Rattle.mrc_mig_rows.specs.Names.{names_of, none_taken, with_name};

use std::alloc::{AllocError, Global};
use std::collections::BTreeMap;

/// Names of rows.
#[derive(Drop)]
pub(crate) struct TakenNames<'t> {
    taken: BTreeMap<&'t str, ()>,
}

impl<'t> TakenNames<'t> {
    /// None.
    pub(crate) fn new(alloc: Global) -> TakenNames<'t>
        ensures { names_of result ≡ none_taken }
    {
        TakenNames {
            taken: BTreeMap::new(alloc),
        }
    }

    /// Whether a name is one of them.
    pub(crate) fn contains(&self, name: &str) -> bool
        ensures { result ≡ names_of self.now name.now }
    {
        self.taken.get(name).is_some()
    }

    /// Takes a name.
    pub(crate) fn insert(&mut self, name: &'t str) -> Result<(), AllocError>
        ensures { OnOk result (names_of self.new ≡ with_name (names_of self.old) name.now) }
    {
        self.taken.insert(name, ())?;
        Ok(())
    }
}
