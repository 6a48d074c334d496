//! Dropping references, taking a name out, and moving members between sets. Nothing of it takes
//! memory.

ghost use Rattle.std.specs.Prelude.{◌≡◌, Ok, Err, Some, IfOk, IfErr, OnOk, OnErr};
ghost use Rattle.mrc_model.specs.Map.{get};
ghost use Rattle.mrc_model.specs.Reply.{Refused};
ghost use Rattle.mrc_model.specs.Space.{put_entry};
ghost use Rattle.mrc_model.specs.declared.Entry.{Entry as TEntry};
ghost use Rattle.mrc_index.specs.Undo.{CanPut};
ghost use Rattle.mrc_names.specs.Changes.{change_of, changed, drop_refs, drop_reference, without};
ghost use Rattle.mrc_names.specs.Changes.{new_set, move_member, IsChangeOf};

use crate::dropping::{Change, Dropped, change_refs, drop_one};
use crate::entry;
use crate::space::Space;
use mrc_base::Right;
use mrc_index::entry::is_set;
use mrc_model::{Code, Entry};

impl Space {
    /// The name has this from here on: nothing, or an entry of the same port and kind. It takes no
    /// memory.
    pub fn leave(&mut self, name: u32, rest: Option<Entry>)
        requires { CanPut self.old name rest }
        ensures { self.new ≡ put_entry self.old name rest }
    {
        match rest {
            Some(left) => self.entries.set(name, left),
            None => {
                let _ = self.entries.remove(name);
            }
        }
    }

    /// The change of a name's entry, but for what is still to be destroyed.
    fn change(&mut self, name: u32, change: Change) -> Dropped
        requires { (e : TEntry)
            × (get self.old name ≡ Some e) × IsChangeOf e (change_of change) }
        ensures { changed self.old name (change_of change) ≡ (self.new, result) }
    {
        match change {
            Change::Remains(rest) => {
                self.leave(name, rest);
                Dropped::References
            }
            Change::DestroysReceive => Dropped::ReceiveRight,
            Change::DestroysEntry => Dropped::WholeEntry,
        }
    }

    /// Changes the references of a name's right by a number, as mach_port_mod_refs does. Where that
    /// destroys a right, the space is as it was, and the answer says what is to be destroyed.
    /// Refused are a name without an entry (KERN_INVALID_NAME), an entry that lacks the right
    /// (KERN_INVALID_RIGHT), a number other than 0 and -1 for a right that is there once and a sum
    /// below 0 (KERN_INVALID_VALUE), and a sum above 65,535 (KERN_UREFS_OVERFLOW).
    pub fn drop_refs(&mut self, name: u32, right: Right, delta: i32) -> Result<Dropped, Code>
        ensures ok { IfOk result
            (λ dropped. drop_refs self.old name right delta ≡ Ok (self.new, dropped)) }
        ensures refused { IfErr result
            (λ code. drop_refs self.old name right delta ≡ Err (Refused code)) }
        ensures err { OnErr result (self.new ≡ self.old) }
    {
        let Some(held) = self.get(name) else {
            return Err(Code::KernInvalidName);
        };
        match change_refs(held, right, delta) {
            Ok(change) => Ok(self.change(name, change)),
            Err(code) => Err(code),
        }
    }

    /// Drops one send or dead reference of a name, as mach_port_deallocate does. Where its entry is
    /// a send-once right, the space is as it was, and the answer says that the entry is to be
    /// destroyed. Refused are a name without an entry (KERN_INVALID_NAME), and an entry that has
    /// none of them (KERN_INVALID_RIGHT).
    pub fn drop_reference(&mut self, name: u32) -> Result<Dropped, Code>
        ensures ok { IfOk result
            (λ dropped. drop_reference self.old name ≡ Ok (self.new, dropped)) }
        ensures refused { IfErr result
            (λ code. drop_reference self.old name ≡ Err (Refused code)) }
        ensures err { OnErr result (self.new ≡ self.old) }
    {
        let Some(held) = self.get(name) else {
            return Err(Code::KernInvalidName);
        };
        match drop_one(held) {
            Some(change) => Ok(self.change(name, change)),
            None => Err(Code::KernInvalidRight),
        }
    }

    /// Takes a name out, with what stands under it, if it has an entry; the members of a set leave
    /// it.
    pub fn remove(&mut self, name: u32) -> Option<Entry>
        ensures entry { result ≡ get self.old name }
        ensures removed { self.new ≡ without self.old name (get self.old name) }
    {
        let Some(held) = self.get(name) else {
            return None;
        };
        let _ = self.entries.remove(name);
        if is_set(&held) {
            self.entries.let_go(name);
        }
        Some(held)
    }

    /// The set that a receive right is in after the call: 0 takes it out of its set.
    fn new_set(&self, set: u32, in_set: Option<u32>) -> Result<Option<u32>, Code>
        ensures ok { IfOk result (λ found. new_set self.now set in_set ≡ Ok found) }
        ensures refused { IfErr result (λ code. new_set self.now set in_set ≡ Err (Refused code)) }
    {
        if set == 0 {
            return match in_set {
                None => Err(Code::KernNotInSet),
                Some(_) => Ok(None),
            };
        }
        let Some(held) = self.get(set) else {
            return Err(Code::KernInvalidName);
        };
        if is_set(&held) {
            Ok(Some(set))
        } else {
            Err(Code::KernInvalidRight)
        }
    }

    /// Moves a receive right into a set, out of the one that it is in; a set of 0 takes it out
    /// alone. Refused are a member without an entry (KERN_INVALID_NAME), one that is no receive
    /// right (KERN_INVALID_RIGHT), a set of 0 where the member is in none (KERN_NOT_IN_SET), a set
    /// without an entry (KERN_INVALID_NAME), and one that is no set (KERN_INVALID_RIGHT), in this
    /// order.
    pub fn move_member(&mut self, member: u32, set: u32) -> Result<(), Code>
        ensures ok { OnOk result (move_member self.old member set ≡ Ok self.new) }
        ensures refused { IfErr result
            (λ code. move_member self.old member set ≡ Err (Refused code)) }
        ensures err { OnErr result (self.new ≡ self.old) }
    {
        let Some(held) = self.get(member) else {
            return Err(Code::KernInvalidName);
        };
        let Some(in_set) = entry::member_of(&held) else {
            return Err(Code::KernInvalidRight);
        };
        match self.new_set(set, in_set) {
            Ok(joined) => {
                self.entries.set(member, entry::in_set(&held, joined));
                Ok(())
            }
            Err(code) => Err(code),
        }
    }
}
