//! Members of a set that goes, or that gets another name. Nothing of it takes memory.

ghost use Rattle.std.specs.Prelude.{◌≡◌, Some, true};
ghost use Rattle.mrc_model.specs.Map.{alter_all};
ghost use Rattle.mrc_model.specs.Space.{in_renamed, outside};

use crate::entry::{in_renamed, outside};
use crate::names::Names;
use mrc_model::Entry;

impl Names {
    /// The members of a set leave it.
    pub fn let_go(&mut self, set: u32)
        ensures { self.new ≡ alter_all (outside set) self.old }
    {
        self.entries.retain(
            |_name: &u64, entry: &mut Entry| -> bool
                ensures stays { result ≡ true }
                ensures outside { outside set _name.now entry.old ≡ Some entry.new }
            {
                *entry = outside(entry, set);
                true
            },
        );
    }

    /// The members of a set follow it to its new name.
    pub fn follow(&mut self, old: u32, new: u32)
        ensures { self.new ≡ alter_all (in_renamed old new) self.old }
    {
        self.entries.retain(
            |_name: &u64, entry: &mut Entry| -> bool
                ensures stays { result ≡ true }
                ensures renamed { in_renamed old new _name.now entry.old ≡ Some entry.new }
            {
                *entry = in_renamed(entry, old, new);
                true
            },
        );
    }
}
