//! A map from numbers, as a list of its entries in the order of their keys.

ghost use Rattle.std.specs.Prelude.{◌≡◌, IfOk, IfErr, OnOk, OnErr, IsSome, Some};
ghost use Rattle.std.specs.Fn.{CalledAtMut};
ghost use Rattle.std.specs.List.Retain.{RetainsInTurn};
ghost use Rattle.std.specs.Option.{option_copied};
ghost use Rattle.mrc_model.specs.Map.{empty, get, insert, remove, len, next_key};
ghost use Rattle.mrc_map.specs.Entries.{IsRising, place, IsAt, IsMissingAt, KeepsKeys, below};

use std::alloc::{AllocError, Global};
use std::marker::Model;
use std::mem;

/// A map from numbers to values. Contracts see it as the definitions' map.
#[derive(Debug, Drop)]
pub struct Map<X> {
    entries: Vec<(u64, X)>,
}

impl<X> Model for Map<X> {
    ghost use Rattle.mrc_model.specs.Map as model;
    ghost use Rattle.mrc_map.specs.Entries.{map_of, IsRising};

    ghost Value = { model.Map X };

    ghost view = { λ a. map_of a.entries.items };

    ghost invariant = { λ a. IsRising a.entries.items };
}

/// How many entries stand before the first whose key is not below this one.
fn place<X>(entries: &[(u64, X)], key: u64) -> usize
    requires { IsRising entries.now }
    ensures { result ≡ place key entries.now }
{
    entries.partition_point(|entry| entry.0 < key)
}

/// The index at which the key stands, or else the one at which it would.
fn look<X>(entries: &[(u64, X)], key: u64) -> Result<usize, usize>
    requires { IsRising entries.now }
    ensures at { IfOk result (λ index. IsAt key entries.now index) }
    ensures missing { IfErr result (λ index. IsMissingAt key entries.now index) }
{
    let place = place(entries, key);
    if place < entries.len() && entries[place].0 == key {
        Ok(place)
    } else {
        Err(place)
    }
}

/// The key, where it is below the limit.
fn below(key: u64, limit: u64) -> Option<u64>
    ensures { result ≡ below limit key }
{
    if key < limit { Some(key) } else { None }
}

impl<X> Map<X> {
    /// The map with no entry.
    pub fn new(alloc: Global) -> Map<X>
        ensures { result ≡ empty }
    {
        Map {
            entries: Vec::new(alloc),
        }
    }

    /// How many entries there are.
    pub fn len(&self) -> usize
        ensures { result ≡ len self.now }
    {
        self.entries().len()
    }

    /// The entries, their keys ascending.
    pub fn entries(&self) -> &[(u64, X)]
        ensures { result.now ≡ self.now.list }
    {
        &self.entries
    }

    /// The value at the key.
    pub fn get(&self, key: u64) -> Option<&X>
        ensures { option_copied result ≡ get self.now key }
    {
        match look(&self.entries, key) {
            Ok(place) => Some(&self.entries[place].1),
            Err(_) => None,
        }
    }

    /// One above the last key, or 0 where there is none; if that is below the limit.
    pub fn next_key(&self, limit: u64) -> Option<u64>
        ensures { result ≡ below limit (next_key self.now) }
    {
        let Some(last) = self.entries().last() else {
            return below(0, limit);
        };
        if limit <= last.0 {
            return None;
        }
        below(last.0 + 1, limit)
    }

    /// Puts the value at the key, in place of the one that stands there.
    pub fn insert(&mut self, key: u64, value: X) -> Result<(), AllocError>
    where
        X: Drop,
        ensures ok { OnOk result (self.new ≡ insert self.old key value) }
        ensures err { OnErr result (self.new ≡ self.old) }
    {
        match look(&self.entries, key) {
            Ok(place) => self.entries[place].1 = value,
            Err(place) => self.entries.insert(place, (key, value))?,
        }
        Ok(())
    }

    /// Puts another value at a key that has one. It takes no memory.
    pub fn set(&mut self, key: u64, value: X)
    where
        X: Drop,
        requires { IsSome (get self.old key) }
        ensures { self.new ≡ insert self.old key value }
    {
        match look(&self.entries, key) {
            Ok(place) => self.entries[place].1 = value,
            Err(_) => unreachable!(),
        }
    }

    /// Puts another value at a key that has one, and gives back the one that stood there. It takes
    /// no memory.
    pub fn replace(&mut self, key: u64, value: X) -> X
    where
        X: Drop,
        requires { IsSome (get self.old key) }
        ensures out { Some result ≡ get self.old key }
        ensures changed { self.new ≡ insert self.old key value }
    {
        match look(&self.entries, key) {
            Ok(place) => mem::replace(&mut self.entries[place].1, value),
            Err(_) => unreachable!(),
        }
    }

    /// Changes each entry's value, in the order of the keys, by a call that leaves the key and says
    /// true. It takes no memory.
    pub fn change<F: FnMut(&mut (u64, X)) -> bool>(&mut self, change: F)
    where
        X: Drop,
        requires callable { F.IsAlwaysCallable change }
        requires keeps { KeepsKeys (CalledAtMut F.FnMut) change }
        ensures { RetainsInTurn (CalledAtMut F.FnMut) change self.old.list self.new.list }
    {
        self.entries.retain_mut(change);
    }

    /// Takes the key out, with its value, if it has one.
    pub fn remove(&mut self, key: u64)
    where
        X: Drop,
        ensures { self.new ≡ remove self.old key }
    {
        if let Ok(place) = look(&self.entries, key) {
            let _ = self.entries.remove(place);
        }
    }
}
