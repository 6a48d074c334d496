//! What a task has under its names.

ghost use Rattle.std.specs.Prelude.{◌≡◌, ◌==◌, ℕ, Option, Ok, Err, Some, None, IfOk, OnOk};
ghost use Rattle.std.specs.Prelude.{OnErr, IfErr, IsSome, false, option_map, map};
ghost use Rattle.std.specs.Prelude.{is_some, ◌&&◌, IfSome, IfNone};
ghost use Rattle.mrc_base.specs.declared.PortRight.TheVariants.{SendOnce};
ghost use Rattle.mrc_model.specs.Map.{empty, get, insert, remove, len};
ghost use Rattle.mrc_model.specs.Space.{entry_of, is_full, insert_at, insert_new};
ghost use Rattle.mrc_model.specs.Space.{insert_joined, is_other, unused};
ghost use Rattle.mrc_model.specs.Space.{put_entry};
ghost use Rattle.mrc_model.specs.Reply.{Refused};
ghost use Rattle.mrc_model.specs.Target.{is_reserved};
ghost use Rattle.mrc_model.specs.CallNames.{refs_of, mask_of};
ghost use Rattle.mrc_model.specs.declared.Entry.{Entry as TEntry};
ghost use Rattle.mrc_index.specs.Undo.{CanPut};
ghost use Rattle.mrc_names.specs.Bounds.{IsBounded};
ghost use Rattle.mrc_names.specs.Listings.{entry_name};
ghost use Rattle.mrc_names.specs.Refusals.{IsRefusal};
ghost use Rattle.mrc_names.specs.Takes.{take_right, taken_port, give_right, give_new, add_entry};
ghost use Rattle.mrc_names.specs.Takes.{rename_entry};

use crate::entry;
use crate::listing::{Listing, NamedType};
use crate::types::PortType;
use mrc_base::{Disp, OrMemory, PortId, PortRight, Right, limits};
use mrc_index::Names;
use mrc_index::entry::{is_entry_of, is_set, joined, new_entry};
use mrc_model::{Code, Entry};
use std::alloc::{AllocError, Global};
use std::collections::btree_map::Iter;
use std::marker::Model;

/// What a task has under its names: at most 4,096 entries. It keeps the allocator that it is made
/// with.
#[derive(Debug, Drop)]
pub struct Space {
    pub(crate) entries: Names,
}

impl Model for Space {
    ghost use Rattle.mrc_model.specs.World.{Space};
    ghost use Rattle.mrc_names.specs.Bounds.{IsBounded};

    ghost Value = { Space };

    ghost view = { λ a. a.entries };

    ghost invariant = { λ a. IsBounded a.entries };
}

/// Whether the entry has another name.
pub(crate) fn is_other(name: u32, found: Option<u32>) -> bool
    ensures { (o : Option (ℕ × TEntry)) → option_map (λ held. held.0) o ≡ found
        → result ≡ is_other name o }
{
    match found {
        None => false,
        Some(held) => held != name,
    }
}

/// Whether the name stands for no entry: 0 is MACH_PORT_NULL, 0xffffffff MACH_PORT_DEAD.
fn is_reserved(name: u32) -> bool
    ensures { result ≡ is_reserved name }
{
    name == 0 || name == 0xffff_ffff
}

impl Space {
    /// The space with no entry.
    pub fn new(alloc: Global) -> Space
        ensures { result ≡ empty }
    {
        Space {
            entries: Names::new(alloc),
        }
    }

    /// All entries with their names, ascending.
    pub fn iter(&self) -> Iter<'_, u64, Entry>
        ensures { result ≡ self.now.list }
    {
        self.entries.iter()
    }

    /// How many entries there are.
    pub fn len(&self) -> usize
        ensures { result ≡ len self.now }
    {
        self.entries.len()
    }

    /// Whether there is no entry.
    pub fn is_empty(&self) -> bool
        ensures { result ≡ (len self.now == 0) }
    {
        self.len() == 0
    }

    /// What the type keeps: there are at most 4,096 entries, under names of 32 bits.
    pub fn bounds(&self)
        ensures kept { IsBounded self.now }
    {
        let _ = &self.entries;
    }

    /// The entry of a name.
    pub fn get(&self, name: u32) -> Option<Entry>
        ensures { result ≡ get self.now name }
    {
        self.entries.get(name)
    }

    /// The port's receive or send entry, with its name.
    pub(crate) fn find_entry(&self, port: PortId) -> Option<(u32, Entry)>
        ensures { result ≡ entry_of self.now port }
    {
        self.entries.find(port)
    }

    /// The name of the port's receive or send entry.
    pub fn find(&self, port: PortId) -> Option<u32>
        ensures { result ≡ option_map (λ e. e.0) (entry_of self.now port) }
    {
        match self.find_entry(port) {
            None => None,
            Some(held) => Some(held.0),
        }
    }

    /// The least unused name from 1.
    fn unused(&self) -> u32
        ensures { result ≡ unused self.now }
    {
        self.entries.unused()
    }

    /// Whether the space has 4,096 entries.
    pub fn is_full(&self) -> bool
        ensures { result ≡ is_full self.now }
    {
        limits::NAMES <= self.entries.len()
    }

    /// The port of the right that `take` takes, and what is left of the entry, which `leave` puts
    /// there; or its refusal.
    pub fn parting(&self, name: u32, disp: Disp) -> Result<(PortId, Option<Entry>), Code>
        ensures found { IfOk result (λ t.
            take_right self.now name disp ≡ Ok (put_entry self.now name t.1, t.0)) }
        ensures there { OnOk result (IsSome (get self.now name)) }
        ensures alike { IfOk result (λ t. CanPut self.now name t.1) }
        ensures full { IfOk result (λ t.
            is_full (put_entry self.now name t.1) ≡ (is_some t.1 && is_full self.now)) }
        ensures refused { IfErr result
            (λ code. take_right self.now name disp ≡ Err (Refused code)) }
    {
        let _ = &self.entries;
        let Some(held) = self.get(name) else {
            return Err(Code::KernInvalidName);
        };
        let Some(taken) = entry::take_from(held, disp) else {
            return Err(Code::KernInvalidRight);
        };
        Ok(taken)
    }

    /// The port of the right that `take` takes, or its refusal.
    pub fn peek(&self, name: u32, disp: Disp) -> Result<PortId, Code>
        ensures found { IfOk result (λ port. taken_port self.now name disp ≡ Ok port) }
        ensures refused { IfErr result
            (λ code. take_right self.now name disp ≡ Err (Refused code)) }
    {
        let taken = self.parting(name, disp)?;
        Ok(taken.0)
    }

    /// Takes a right from a name: its port. Refused are a name without an entry (KERN_INVALID_NAME)
    /// and an entry that lacks the right (KERN_INVALID_RIGHT).
    pub fn take(&mut self, name: u32, disp: Disp) -> Result<PortId, Code>
        ensures taken { IfOk result (λ port. take_right self.old name disp ≡ Ok (self.new, port)) }
        ensures refused { IfErr result
            (λ code. take_right self.old name disp ≡ Err (Refused code)) }
        ensures err { OnErr result (self.new ≡ self.old) }
    {
        let (port, rest) = self.parting(name, disp)?;
        self.leave(name, rest);
        Ok(port)
    }

    /// Puts an entry under a name that has none, where the space has room for one more.
    pub(crate) fn put(&mut self, name: u32, entry: Entry) -> Result<(), AllocError>
        requires room { is_full self.old ≡ false }
        requires unused { get self.old name ≡ None }
        ensures ok { OnOk result (self.new ≡ insert self.old name entry) }
        ensures err { OnErr result (self.new ≡ self.old) }
    {
        self.entries.put(name, entry)?;
        Ok(())
    }

    /// Puts a right under a name that has no entry.
    fn insert_new(
        &mut self,
        name: u32,
        port: PortId,
        right: PortRight,
    ) -> Result<(), OrMemory<Code>>
        ensures ok { OnOk result
            (insert_new self.old name port right (get self.old name) ≡ Ok self.new) }
        ensures refused { IfErr result (λ e.
            IsRefusal e (insert_new self.old name port right (get self.old name))) }
        ensures err { OnErr result (self.new ≡ self.old) }
    {
        if self.get(name).is_some() {
            return Err(OrMemory::Fault(Code::KernNameExists));
        }
        if self.is_full() {
            return Err(OrMemory::Fault(Code::KernNoSpace));
        }
        self.put(name, new_entry(port, right))?;
        Ok(())
    }

    /// A right joins the entry of a name.
    fn join(
        &mut self,
        name: u32,
        port: PortId,
        right: PortRight,
        held: Entry,
    ) -> Result<(), OrMemory<Code>>
        requires { get self.old name ≡ Some held }
        ensures ok { OnOk result
            (insert_joined self.old name port right (Some held) ≡ Ok self.new) }
        ensures refused { IfErr result (λ e.
            IsRefusal e (insert_joined self.old name port right (Some held))) }
        ensures err { OnErr result (self.new ≡ self.old) }
    {
        if !is_entry_of(port, &held) {
            return Err(OrMemory::Fault(Code::KernNameExists));
        }
        if entry::overflows(&held, right) {
            return Err(OrMemory::Fault(Code::KernUrefsOverflow));
        }
        if self.is_full() {
            return Err(OrMemory::Fault(Code::KernNoSpace));
        }
        self.entries.set(name, joined(held, right));
        Ok(())
    }

    /// Puts a right under a name that may be the port's.
    fn insert_joined(
        &mut self,
        name: u32,
        port: PortId,
        right: PortRight,
    ) -> Result<(), OrMemory<Code>>
        ensures ok { OnOk result
            (insert_joined self.old name port right (get self.old name) ≡ Ok self.new) }
        ensures refused { IfErr result (λ e.
            IsRefusal e (insert_joined self.old name port right (get self.old name))) }
        ensures err { OnErr result (self.new ≡ self.old) }
    {
        match self.get(name) {
            None => self.insert_new(name, port, right),
            Some(held) => self.join(name, port, right, held),
        }
    }

    /// Puts a right under a name of the caller's choice. Refused are a send or receive right where
    /// the port has an entry under another name (KERN_RIGHT_EXISTS), a name that is used, but by
    /// the port's own entry for a send or receive right (KERN_NAME_EXISTS), a send reference above
    /// 65,535 (KERN_UREFS_OVERFLOW), and a full space (KERN_NO_SPACE), in this order.
    pub fn insert_at(
        &mut self,
        name: u32,
        port: PortId,
        right: PortRight,
    ) -> Result<(), OrMemory<Code>>
        ensures ok { OnOk result (insert_at self.old name port right ≡ Ok self.new) }
        ensures refused { IfErr result (λ e. IsRefusal e (insert_at self.old name port right)) }
        ensures err { OnErr result (self.new ≡ self.old) }
    {
        if let PortRight::SendOnce = right {
            return self.insert_new(name, port, right);
        }
        if is_other(name, self.find(port)) {
            return Err(OrMemory::Fault(Code::KernRightExists));
        }
        self.insert_joined(name, port, right)
    }

    /// Puts an entry under the least unused name, which is answered. Refused where the space is
    /// full (KERN_NO_SPACE).
    pub fn add(&mut self, entry: Entry) -> Result<u32, OrMemory<Code>>
        ensures ok { IfOk result (λ name. add_entry self.old entry ≡ Ok (self.new, name)) }
        ensures refused { IfErr result (λ e. IsRefusal e (add_entry self.old entry)) }
        ensures err { OnErr result (self.new ≡ self.old) }
    {
        if self.is_full() {
            return Err(OrMemory::Fault(Code::KernNoSpace));
        }
        let name = self.unused();
        self.put(name, entry)?;
        Ok(name)
    }

    /// Gives a right the least unused name.
    fn give_new(&mut self, port: PortId, right: PortRight) -> Result<u32, OrMemory<Code>>
        ensures ok { IfOk result (λ name. give_new self.old port right ≡ Ok (self.new, name)) }
        ensures back { IfOk result (λ name. remove self.new name ≡ self.old) }
        ensures refused { IfErr result (λ e. IsRefusal e (give_new self.old port right)) }
        ensures err { OnErr result (self.new ≡ self.old) }
    {
        if self.is_full() {
            return Err(OrMemory::Fault(Code::KernNoSpace));
        }
        let name = self.unused();
        self.put(name, new_entry(port, right))?;
        Ok(name)
    }

    /// The entry that a right joins: the port's, if it has one. A send-once right joins none.
    fn to_join(&self, port: PortId, right: PortRight) -> Option<(u32, Entry)>
        ensures some { IfSome result (λ held. (right ≡ SendOnce → ⊥)
            × (entry_of self.now port ≡ Some held)) }
        ensures none { IfNone result (give_right self.now port right
            ≡ give_new self.now port right) }
    {
        if let PortRight::SendOnce = right {
            return None;
        }
        self.find_entry(port)
    }

    /// Gives a right, as `copyout` does: its name, and what stood there, with which `leave` takes
    /// it back without memory.
    pub fn give(
        &mut self,
        port: PortId,
        right: PortRight,
    ) -> Result<(u32, Option<Entry>), OrMemory<Code>>
        ensures ok { IfOk result (λ s. give_right self.old port right ≡ Ok (self.new, s.0)) }
        ensures back { IfOk result (λ s. put_entry self.new s.0 s.1 ≡ self.old) }
        ensures ready { IfOk result (λ s. CanPut self.new s.0 s.1) }
        ensures refused { IfErr result (λ e. IsRefusal e (give_right self.old port right)) }
        ensures err { OnErr result (self.new ≡ self.old) }
    {
        match self.to_join(port, right) {
            None => {
                let name = self.give_new(port, right)?;
                Ok((name, None))
            }
            Some(held) => {
                self.entries.set(held.0, joined(held.1, right));
                Ok((held.0, Some(held.1)))
            }
        }
    }

    /// Gives a right, as a receiver gets it: a send or receive right joins the port's entry, where
    /// there is one; else it takes the least unused name, which is answered. A send reference above
    /// 65,535 is dropped. Refused where the space would have more than 4,096 entries
    /// (KERN_NO_SPACE).
    pub fn copyout(&mut self, port: PortId, right: PortRight) -> Result<u32, OrMemory<Code>>
        ensures ok { IfOk result (λ name. give_right self.old port right ≡ Ok (self.new, name)) }
        ensures refused { IfErr result (λ e. IsRefusal e (give_right self.old port right)) }
        ensures err { OnErr result (self.new ≡ self.old) }
    {
        let given = self.give(port, right)?;
        Ok(given.0)
    }

    /// How many references of a right a name has: 1 for a right that is there once, 0 for one that
    /// is not. None where the name has no entry.
    pub fn refs(&self, name: u32, right: Right) -> Option<u32>
        ensures { result ≡ option_map (λ held. refs_of held right) (get self.now name) }
    {
        match self.get(name) {
            None => None,
            Some(held) => Some(entry::refs_of(&held, right)),
        }
    }

    /// The rights of a name, as bits. None where it has no entry.
    pub fn rights(&self, name: u32) -> Option<PortType>
        ensures { option_map (λ rights. rights.0) result ≡ option_map mask_of (get self.now name) }
    {
        match self.get(name) {
            None => None,
            Some(held) => Some(PortType::of(&held)),
        }
    }

    /// All names with their rights, ascending.
    pub fn names(&self, alloc: Global) -> Result<Listing, AllocError>
        ensures { IfOk result (λ listing. listing ≡ map entry_name self.now.list) }
    {
        let mut names = Vec::with_capacity(alloc, self.entries.len())?;
        for held in self.entries.iter() {
            names.push(NamedType {
                name: *held.0 as u32,
                rights: PortType::of(held.1),
            })?;
        }
        Ok(Listing::new(names))
    }

    /// Moves an entry to an unused name; the members of a set stay members. Refused are a new name
    /// that stands for no entry (KERN_INVALID_VALUE), an old one without an entry
    /// (KERN_INVALID_NAME), and a new one that has an entry (KERN_NAME_EXISTS), in this order.
    pub fn rename(&mut self, old: u32, new: u32) -> Result<(), OrMemory<Code>>
        ensures ok { OnOk result (rename_entry self.old old new ≡ Ok self.new) }
        ensures refused { IfErr result (λ e. IsRefusal e (rename_entry self.old old new)) }
        ensures err { OnErr result (self.new ≡ self.old) }
    {
        if is_reserved(new) {
            return Err(OrMemory::Fault(Code::KernInvalidValue));
        }
        let Some(held) = self.get(old) else {
            return Err(OrMemory::Fault(Code::KernInvalidName));
        };
        if self.get(new).is_some() {
            return Err(OrMemory::Fault(Code::KernNameExists));
        }
        self.entries.rename(old, new, held)?;
        if is_set(&held) {
            self.entries.follow(old, new);
        }
        Ok(())
    }
}
