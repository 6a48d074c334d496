//! Moving a right within a space, in place: what can fail comes first.

ghost use Rattle.std.specs.Prelude.{◌≡◌, ℕ, Ok, None, Some, false, IfOk, IfErr, OnOk, OnErr};
ghost use Rattle.std.specs.Prelude.{IsSome};
ghost use Rattle.mrc_model.specs.Map.{get, insert};
ghost use Rattle.mrc_model.specs.Space.{is_full, put_entry};
ghost use Rattle.mrc_index.specs.Undo.{CanPut};
ghost use Rattle.mrc_names.specs.Refusals.{IsRefusal};
ghost use Rattle.mrc_names.specs.Takes.{taken_port, move_right};

use crate::space::Space;
use mrc_base::{Disp, OrMemory, PortId, give};
use mrc_index::entry::{joined, new_entry};
use mrc_model::{Code, Entry};
use std::alloc::AllocError;

impl Space {
    /// Puts an entry under a name that has none, once a name that has one, which may be the same,
    /// has no more than the rest.
    fn put_left(
        &mut self,
        from: u32,
        rest: Option<Entry>,
        to: u32,
        entry: Entry,
    ) -> Result<(), AllocError>
        requires there { IsSome (get self.old from) }
        requires left { CanPut self.old from rest }
        requires alike { to ≡ from → CanPut self.old from (Some entry) }
        requires unused { get (put_entry self.old from rest) to ≡ None }
        requires room { is_full (put_entry self.old from rest) ≡ false }
        ensures ok { OnOk result (self.new ≡ insert (put_entry self.old from rest) to entry) }
        ensures err { OnErr result (self.new ≡ self.old) }
    {
        if to == from {
            self.leave(from, Some(entry));
            return Ok(());
        }
        self.entries.move_new(from, rest, to, entry)?;
        Ok(())
    }

    /// Takes a right from a name and puts it under another one, which may be the same: its port.
    /// Refused as `take` and then `insert_at` are.
    pub fn move_right(&mut self, from: u32, disp: Disp, to: u32) -> Result<PortId, OrMemory<Code>>
        ensures port { IfOk result (λ port. taken_port self.old from disp ≡ Ok port) }
        ensures ok { OnOk result (move_right self.old from disp to ≡ Ok self.new) }
        ensures refused { IfErr result (λ e. IsRefusal e (move_right self.old from disp to)) }
        ensures err { OnErr result (self.new ≡ self.old) }
    {
        if let Err(code) = self.foretell_move(from, disp, to) {
            return Err(OrMemory::Fault(code));
        }
        let taken = match self.parting(from, disp) {
            Ok(taken) => taken,
            Err(code) => return Err(OrMemory::Fault(code)),
        };
        match self.held_left(from, taken.1, to) {
            Some(held) => {
                self.leave(from, taken.1);
                self.leave(to, Some(joined(held, give(disp))));
                Ok(taken.0)
            }
            None => {
                self.put_left(from, taken.1, to, new_entry(taken.0, give(disp)))?;
                Ok(taken.0)
            }
        }
    }
}
