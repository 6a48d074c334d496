//! Entries by their names.

ghost use Rattle.std.specs.Prelude.{◌≡◌, ◌==◌, ◌||◌, ◌&&◌, ◌<◌, ◌≤◌, ℕ, None, Some, true, false};
ghost use Rattle.std.specs.Prelude.{not, length, OnOk, OnErr, IfSome, IfNone, option_map};
ghost use Rattle.mrc_bits.specs.Bits.{is_set};
ghost use Rattle.mrc_base.specs.Limits.{limit_of_names};
ghost use Rattle.mrc_model.specs.Map.{empty, get, insert, remove, len};
ghost use Rattle.mrc_model.specs.Space.{entry_of, unused, is_entry_of, put_entry};
ghost use Rattle.mrc_map.specs.Entries.{IsNext};
ghost use Rattle.mrc_index.specs.Pairs.{has_pair};
ghost use Rattle.mrc_index.specs.Names.{is_once_of, HoldsAlike, left_of, IsLeastBut};
ghost use Rattle.mrc_index.specs.Undo.{CanPut};
ghost use Rattle.mrc_model.specs.declared.Entry.{Entry as TEntry};

use crate::entry::left_of;
use crate::pairs::Pairs;
use mrc_base::PortId;
use mrc_bits::{clear_bit, next_bit, set_bit};
use mrc_map::Tree;
use mrc_model::Entry;
use std::alloc::{AllocError, Global};
use std::collections::btree_map::Iter;
use std::marker::Model;

/// How many words tell which names are free: a bit for each name that can be the least unused
/// one.
const WORDS: usize = 65;

/// Entries by their names. Contracts see the definitions' space.
#[derive(Debug, Drop)]
pub struct Names {
    pub(crate) entries: Tree<Entry>,
    /// The name of each receive or send entry, by its port.
    pub(crate) held: Pairs,
    /// The name of each send-once right, by its port.
    pub(crate) once: Pairs,
    /// A bit for each name below 4,160 that has no entry.
    pub(crate) free: [u64; WORDS],
}

impl Model for Names {
    ghost use Rattle.mrc_model.specs.World.{Space};
    ghost use Rattle.mrc_index.specs.Names.{IsIndexed};

    ghost Value = { Space };

    ghost view = { λ a. a.entries };

    ghost invariant = { λ a. IsIndexed a.entries a.held a.once a.free };
}

/// The entry's port has it under this name from here on.
pub(crate) fn index(
    held: &mut Pairs,
    once: &mut Pairs,
    name: u32,
    entry: &Entry,
) -> Result<(), AllocError>
    ensures held { OnOk result ((p n : ℕ) → has_pair held.new p n
        ≡ ((is_entry_of p entry.now && name == n) || has_pair held.old p n)) }
    ensures once { OnOk result ((p n : ℕ) → has_pair once.new p n
        ≡ ((is_once_of p entry.now && name == n) || has_pair once.old p n)) }
    ensures err_held { OnErr result (held.new ≡ held.old) }
    ensures err_once { OnErr result (once.new ≡ once.old) }
{
    match *entry {
        Entry::Receive { port, .. } => held.insert(port.0, name),
        Entry::Send { port, .. } => held.insert(port.0, name),
        Entry::SendOnce { port } => once.insert(port.0, name),
        Entry::PortSet => Ok(()),
        Entry::DeadName { .. } => Ok(()),
    }
}

/// The entry's port no longer has it under this name. It takes no memory.
pub(crate) fn forget(held: &mut Pairs, once: &mut Pairs, name: u32, entry: &Entry)
    ensures held { (p n : ℕ) → has_pair held.new p n
        ≡ (not (is_entry_of p entry.now && name == n) && has_pair held.old p n) }
    ensures once { (p n : ℕ) → has_pair once.new p n
        ≡ (not (is_once_of p entry.now && name == n) && has_pair once.old p n) }
{
    match *entry {
        Entry::Receive { port, .. } => held.remove(port.0, name),
        Entry::Send { port, .. } => held.remove(port.0, name),
        Entry::SendOnce { port } => once.remove(port.0, name),
        Entry::PortSet => (),
        Entry::DeadName { .. } => (),
    }
}

/// All names are free.
fn all_free() -> [u64; WORDS]
    ensures bits { (n : ℕ) → n < 4160 → is_set result n ≡ true }
    ensures len { length result ≡ 65 }
{
    [u64::MAX; WORDS]
}

/// The name has an entry from here on.
fn use_name(free: &mut [u64], name: u32)
    requires { length free.old ≡ 65 }
    ensures bits { (n : ℕ) → n < 4160
        → is_set free.new n ≡ (not (n == name) && is_set free.old n) }
    ensures len { length free.new ≡ 65 }
{
    if name < 4160 {
        clear_bit(free, name as usize);
    }
}

/// The name has no entry from here on.
fn free_name(free: &mut [u64], name: u32)
    requires { length free.old ≡ 65 }
    ensures bits { (n : ℕ) → n < 4160 → is_set free.new n ≡ (n == name || is_set free.old n) }
    ensures len { length free.new ≡ 65 }
{
    if name < 4160 {
        set_bit(free, name as usize);
    }
}

impl Names {
    /// No entry.
    pub fn new(alloc: Global) -> Names
        ensures { result ≡ empty }
    {
        Names {
            entries: Tree::new(alloc),
            held: Pairs::new(alloc),
            once: Pairs::new(alloc),
            free: all_free(),
        }
    }

    /// How many entries there are.
    pub fn len(&self) -> usize
        ensures { result ≡ len self.now }
    {
        self.entries.len()
    }

    /// The entries with their names, ascending.
    pub fn iter(&self) -> Iter<'_, u64, Entry>
        ensures { result ≡ self.now.list }
    {
        self.entries.iter()
    }

    /// The entry of a name.
    pub fn get(&self, name: u32) -> Option<Entry>
        ensures { result ≡ get self.now name }
    {
        self.entries.get(u64::from(name)).copied()
    }

    /// The port's receive or send entry, with its name.
    pub fn find(&self, port: PortId) -> Option<(u32, Entry)>
        ensures { result ≡ entry_of self.now port }
    {
        match self.held.least(port.0, 0) {
            Some(name) => match self.entries.get(u64::from(name)) {
                Some(entry) => Some((name, *entry)),
                None => None,
            },
            None => None,
        }
    }

    /// The least unused name from 1.
    pub fn unused(&self) -> u32
        requires { len self.now ≤ limit_of_names }
        ensures { result ≡ unused self.now }
    {
        match next_bit(&self.free, 1) {
            Some(name) => name as u32,
            None => unreachable!(),
        }
    }

    /// Puts an entry under a name that has none.
    pub fn put(&mut self, name: u32, entry: Entry) -> Result<(), AllocError>
        requires { get self.old name ≡ None }
        ensures ok { OnOk result (self.new ≡ insert self.old name entry) }
        ensures err { OnErr result (self.new ≡ self.old) }
    {
        index(&mut self.held, &mut self.once, name, &entry)?;
        match self.entries.insert(u64::from(name), entry) {
            Ok(()) => {
                use_name(&mut self.free, name);
                Ok(())
            }
            Err(error) => {
                forget(&mut self.held, &mut self.once, name, &entry);
                Err(error)
            }
        }
    }

    /// Puts another entry in the place of one of the same port and kind. It takes no memory.
    pub fn set(&mut self, name: u32, entry: Entry)
        requires { (held : _) × (get self.old name ≡ Some held) × HoldsAlike held entry }
        ensures { self.new ≡ insert self.old name entry }
    {
        self.entries.set(u64::from(name), entry);
    }

    /// Takes a name out, with its entry, if it has one. It takes no memory.
    pub fn remove(&mut self, name: u32) -> Option<Entry>
        ensures out { result ≡ get self.old name }
        ensures removed { self.new ≡ remove self.old name }
    {
        match self.entries.remove(u64::from(name)) {
            Some(entry) => {
                forget(&mut self.held, &mut self.once, name, &entry);
                free_name(&mut self.free, name);
                Some(entry)
            }
            None => None,
        }
    }

    /// The first entry whose name is not below this number.
    pub(crate) fn next(&self, from: u64) -> Option<(u32, Entry)>
        ensures some { IfSome result (λ held. IsNext self.now from held.0 held.1) }
        ensures none { IfNone result ((n : ℕ) → from ≤ n → get self.now n ≡ None) }
    {
        let held = self.entries.next(from)?;
        Some((held.0 as u32, *held.1))
    }

    /// The least name of the port's receive and send entries but for this one.
    fn other_name(&self, port: PortId, name: u32) -> Option<u32>
        ensures some { IfSome result (λ n. IsLeastBut self.now port name n) }
        ensures none { IfNone result ((n : ℕ) (e : TEntry)
            → get self.now n ≡ Some e → is_entry_of port e ≡ true → n ≡ name) }
    {
        let first = self.held.least(port.0, 0)?;
        if first != name {
            return Some(first);
        }
        if name == u32::MAX {
            return None;
        }
        self.held.least(port.0, name + 1)
    }

    /// The name of the port's receive or send entry, once a name has no more than the rest, which
    /// is of the same port and kind.
    pub fn name_left(&self, name: u32, rest: Option<Entry>, port: PortId) -> Option<u32>
        requires { CanPut self.now name rest }
        ensures { result
            ≡ option_map (λ held. held.0) (entry_of (put_entry self.now name rest) port) }
    {
        match rest {
            None => self.other_name(port, name),
            Some(_) => self.held.least(port.0, 0),
        }
    }

    /// The name has no more from here on than what is left of its entry where its port dies. It
    /// takes no memory.
    pub(crate) fn fade(&mut self, name: u32, entry: &Entry)
        requires { get self.old name ≡ Some entry.now }
        ensures { self.new ≡ put_entry self.old name (left_of entry.now) }
    {
        let Some(left) = left_of(entry) else {
            let _ = self.remove(name);
            return;
        };
        self.entries.set(u64::from(name), left);
        forget(&mut self.held, &mut self.once, name, entry);
    }
}
