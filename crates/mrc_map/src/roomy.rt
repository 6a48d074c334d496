//! A map from numbers, with room that is made beforehand.

ghost use Rattle.std.specs.Prelude.{◌≡◌, ◌<◌, IfOk};
ghost use Rattle.std.specs.Option.{option_copied};
ghost use Rattle.mrc_model.specs.Map.{empty, get, insert, len};
ghost use Rattle.mrc_map.specs.Rooms.{AreEntries};

use std::alloc::{AllocError, Global};
use std::collections::HashMap;
use std::collections::hash_map::Iter;
use std::marker::Model;

/// A map from numbers to values with room for a number of keys. Contracts see the definitions' map,
/// and that number. Only `new` takes memory.
#[derive(Debug, Drop)]
pub struct Roomy<X> {
    entries: HashMap<u64, X>,
    room: usize,
}

impl<X> Model for Roomy<X> {
    ghost use Rattle.std.specs.Prelude.{◌≤◌, ◌+◌};
    ghost use Rattle.std.specs.HashMap.{hash_map_len, spare};
    ghost use Rattle.mrc_map.specs.Lookups.{gathered};
    ghost use Rattle.mrc_map.specs.Rooms as rooms;

    ghost Value = { rooms.Roomy X };

    ghost view = { λ a. record { map = gathered a.entries.entries; room = a.room } };

    ghost invariant = { λ a. a.room ≤ hash_map_len a.entries + spare a.entries };
}

impl<X> Roomy<X> {
    /// The map with no entry, with room for so many keys.
    pub fn new(alloc: Global, room: usize) -> Result<Roomy<X>, AllocError>
        ensures { IfOk result (λ made. made ≡ record { map = empty; room = room }) }
    {
        Ok(Roomy {
            entries: HashMap::with_capacity(alloc, room)?,
            room,
        })
    }

    /// The entries, each once, in no order of their keys.
    pub fn iter(&self) -> Iter<'_, u64, X>
        ensures { AreEntries result self.now.map }
    {
        self.entries.iter()
    }

    /// The value at the key.
    pub fn get(&self, key: u64) -> Option<&X>
        ensures { option_copied result ≡ get self.now.map key }
    {
        self.entries.get(&key)
    }

    /// Puts the value at the key, in place of the one that stands there.
    pub fn insert(&mut self, key: u64, value: X)
    where
        X: Drop,
        requires { len self.old.map < self.old.room }
        ensures map { self.new.map ≡ insert self.old.map key value }
        ensures room { self.new.room ≡ self.old.room }
    {
        match self.entries.get_mut(&key) {
            Some(held) => *held = value,
            None => match self.entries.insert(key, value) {
                Ok(_) => (),
                Err(_) => unreachable!(),
            },
        }
    }

    /// Drops all entries. The room stays.
    pub fn clear(&mut self)
    where
        X: Drop,
        ensures { self.new ≡ record { map = empty; room = self.old.room } }
    {
        self.entries.clear();
    }
}
