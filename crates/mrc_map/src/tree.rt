//! A map from numbers, as an ordered tree.

ghost use Rattle.std.specs.Prelude.{◌≡◌, ◌≤◌, ℕ, OnOk, OnErr, IfSome, IfNone, IsSome};
ghost use Rattle.std.specs.Prelude.{Some, None};
ghost use Rattle.std.specs.Option.{option_copied};
ghost use Rattle.std.specs.Map.Calls.{CalledAtPair, RetainsPairs};
ghost use Rattle.mrc_model.specs.Map.{empty, get, insert, remove, len};
ghost use Rattle.mrc_map.specs.Entries.{IsNext};

use std::alloc::{AllocError, Global};
use std::collections::BTreeMap;
use std::collections::btree_map::Iter;
use std::marker::Model;

/// A map from numbers to values, in which a change moves no other entry. Contracts see it as the
/// definitions' map.
#[derive(Debug, Drop)]
pub struct Tree<X> {
    entries: BTreeMap<u64, X>,
}

impl<X> Model for Tree<X> {
    ghost use Rattle.mrc_model.specs.Map as model;
    ghost use Rattle.mrc_map.specs.Entries.{map_of, IsRising};

    ghost Value = { model.Map X };

    ghost view = { λ a. map_of a.entries.entries };

    ghost invariant = { λ a. IsRising a.entries.entries };
}

impl<X> Tree<X> {
    /// The map with no entry.
    pub fn new(alloc: Global) -> Tree<X>
        ensures { result ≡ empty }
    {
        Tree {
            entries: BTreeMap::new(alloc),
        }
    }

    /// How many entries there are.
    pub fn len(&self) -> usize
        ensures { result ≡ len self.now }
    {
        self.entries.len()
    }

    /// The entries, their keys ascending.
    pub fn iter(&self) -> Iter<'_, u64, X>
        ensures { result ≡ self.now.list }
    {
        self.entries.iter()
    }

    /// The value at the key.
    pub fn get(&self, key: u64) -> Option<&X>
        ensures { option_copied result ≡ get self.now key }
    {
        self.entries.get(&key)
    }

    /// The first entry whose key is not below this one.
    pub fn next(&self, from: u64) -> Option<(u64, &X)>
        ensures some { IfSome result (λ found. IsNext self.now from found.0 found.1.now) }
        ensures none { IfNone result ((key : ℕ) → from ≤ key → get self.now key ≡ None) }
    {
        let found = self.entries.range(from..).next()?;
        Some((*found.0, found.1))
    }

    /// Puts the value at the key, in place of the one that stands there.
    pub fn insert(&mut self, key: u64, value: X) -> Result<(), AllocError>
    where
        X: Drop,
        ensures ok { OnOk result (self.new ≡ insert self.old key value) }
        ensures err { OnErr result (self.new ≡ self.old) }
    {
        let _ = self.entries.insert(key, value)?;
        Ok(())
    }

    /// Puts another value at a key that has one, and gives back the one that stood there. It takes
    /// no memory.
    pub fn replace(&mut self, key: u64, value: X) -> X
    where
        X: Drop,
        requires { IsSome (get self.old key) }
        ensures out { Some result ≡ get self.old key }
        ensures changed { self.new ≡ insert self.old key value }
    {
        match self.entries.insert(key, value) {
            Ok(former) => match former {
                Some(former) => former,
                None => unreachable!(),
            },
            Err(_) => unreachable!(),
        }
    }

    /// Puts another value at a key that has one. It takes no memory.
    pub fn set(&mut self, key: u64, value: X)
    where
        X: Drop,
        requires { IsSome (get self.old key) }
        ensures { self.new ≡ insert self.old key value }
    {
        let _ = self.replace(key, value);
    }

    /// Takes the key out, with its value, if it has one. It takes no memory.
    pub fn remove(&mut self, key: u64) -> Option<X>
    where
        X: Drop,
        ensures out { result ≡ get self.old key }
        ensures removed { self.new ≡ remove self.old key }
    {
        self.entries.remove(&key)
    }

    /// Changes each entry's value, in the order of the keys, and drops the entries of which the
    /// change says false. It takes no memory.
    pub fn retain<F: FnMut(&u64, &mut X) -> bool>(&mut self, change: F)
    where
        X: Drop,
        requires { F.IsAlwaysCallable change }
        ensures { RetainsPairs (CalledAtPair F.FnMut) change self.old.list self.new.list }
    {
        self.entries.retain(change);
    }
}
