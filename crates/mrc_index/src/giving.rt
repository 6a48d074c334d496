//! Changes in place that leave a space as it was where memory runs out.

ghost use Rattle.std.specs.Prelude.{◌≡◌, OnOk, OnErr, None, Some, IsSome};
ghost use Rattle.mrc_model.specs.Map.{get, insert, remove};
ghost use Rattle.mrc_model.specs.Space.{put_entry};
ghost use Rattle.mrc_index.specs.Undo.{CanPut};

use crate::names::Names;
use mrc_model::Entry;
use std::alloc::AllocError;

impl Names {
    /// Moves an entry that is no set to a name that has none.
    pub fn rename(&mut self, old: u32, new: u32, entry: Entry) -> Result<(), AllocError>
        requires there { get self.old old ≡ Some entry }
        requires unused { get self.old new ≡ None }
        ensures ok { OnOk result (self.new ≡ insert (remove self.old old) new entry) }
        ensures err { OnErr result (self.new ≡ self.old) }
    {
        self.put(new, entry)?;
        let _ = self.remove(old);
        Ok(())
    }

    /// Puts back what stood under a name. It takes no memory.
    fn put_back(&mut self, name: u32, former: Option<Entry>)
        requires { CanPut self.old name former }
        ensures { self.new ≡ put_entry self.old name former }
    {
        match former {
            None => {
                let _ = self.remove(name);
            }
            Some(entry) => self.set(name, entry),
        }
    }

    /// Moves a right within the space, from a name that has this left to one that has no entry.
    /// What can fail comes first.
    pub fn move_new(
        &mut self,
        from: u32,
        rest: Option<Entry>,
        to: u32,
        entry: Entry,
    ) -> Result<(), AllocError>
        requires there { IsSome (get self.old from) }
        requires left { CanPut self.old from rest }
        requires unused { get self.old to ≡ None }
        ensures ok { OnOk result (self.new ≡ insert (put_entry self.old from rest) to entry) }
        ensures err { OnErr result (self.new ≡ self.old) }
    {
        self.put(to, entry)?;
        self.put_back(from, rest);
        Ok(())
    }
}
