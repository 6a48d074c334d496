//! What a destruction removes from a task's space, and its removal.

ghost use Rattle.std.specs.Prelude.{◌≡◌};
ghost use Rattle.mrc_model.specs.World.{space};
ghost use Rattle.mrc_death.specs.Removing.{removed, removed_from, CanBeRemoved, CanRemove};

use mrc_base::TaskId;
use mrc_model::Entry;
use mrc_names::Space;
use mrc_ports::Store;
use std::alloc::Global;

/// What is removed from a task's space.
#[derive(Clone, Copy, Debug)]
pub(crate) enum Removal {
    /// The receive right of a name, of which this is left.
    Receive { name: u32, rest: Option<Entry> },
    /// A name, with all that stands under it.
    Name { name: u32 },
    /// All names.
    All,
}

impl Removal {
    /// The space without it.
    fn left(self, alloc: Global, space: Space) -> Space
        requires { CanBeRemoved self space }
        ensures { result ≡ removed self space }
    {
        let mut left = space;
        match self {
            Removal::Receive { name, rest } => {
                left.leave(name, rest);
                left
            }
            Removal::Name { name } => {
                let _ = left.remove(name);
                left
            }
            Removal::All => Space::new(alloc),
        }
    }

    /// Removes it from the task's space, if the task has one. It takes no memory.
    pub(crate) fn apply(self, alloc: Global, store: &mut Store, task: TaskId)
        requires { CanRemove store.old task self }
        ensures { store.new ≡ removed_from store.old task self }
    {
        let space = store.put_space(task, Space::new(alloc));
        let _ = store.put_space(task, self.left(alloc, space));
    }
}
