//! A map from numbers, in a table of hashes.

ghost use Rattle.std.specs.Prelude.{◌≡◌, IfOk, OnOk, OnErr};
ghost use Rattle.std.specs.Option.{option_copied};
ghost use Rattle.mrc_model.specs.Map.{empty, get, insert, remove, len};

use indexmap::IndexMap;
use std::alloc::{AllocError, Global};
use std::marker::Model;

/// A map from numbers to values, whose entries stand in no order. Contracts see it as the
/// definitions' map.
#[derive(Debug, Drop)]
pub struct Lookup<X> {
    entries: IndexMap<u64, X>,
}

impl<X> Model for Lookup<X> {
    ghost use Rattle.mrc_model.specs.Map as model;
    ghost use Rattle.mrc_map.specs.Lookups.{gathered};

    ghost Value = { model.Map X };

    ghost view = { λ a. gathered a.entries.entries };
}

impl<X> Lookup<X> {
    /// The map with no entry.
    pub fn new(alloc: Global) -> Lookup<X>
        ensures { result ≡ empty }
    {
        Lookup {
            entries: IndexMap::new(alloc),
        }
    }

    /// How many entries there are.
    pub fn len(&self) -> usize
        ensures { result ≡ len self.now }
    {
        self.entries.len()
    }

    /// The value at the key.
    pub fn get(&self, key: u64) -> Option<&X>
        ensures { option_copied result ≡ get self.now key }
    {
        self.entries.get(&key)
    }

    /// Puts the value at the key, in place of the one that stands there.
    pub fn insert(&mut self, key: u64, value: X) -> Result<(), AllocError>
    where
        X: Drop,
        ensures ok { OnOk result (self.new ≡ insert self.old key value) }
        ensures err { OnErr result (self.new ≡ self.old) }
    {
        let _ = self.entries.insert(key, value)?;
        Ok(())
    }

    /// Takes the key out, with its value, if it has one. It takes no memory.
    pub fn remove(&mut self, key: u64) -> Option<X>
    where
        X: Drop,
        ensures out { result ≡ get self.old key }
        ensures removed { self.new ≡ remove self.old key }
    {
        self.entries.swap_remove(&key)
    }
}
