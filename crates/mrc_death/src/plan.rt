//! The plan of a destruction, and its application without memory.

ghost use Rattle.std.specs.Prelude.{◌≡◌};
ghost use Rattle.mrc_death.specs.Plans.{IsReady, IsReadyFor, carried_out, work_done};

use crate::notices::{DestroyedNotice, OnceNotice, tell_destroyed, tell_once};
use crate::removal::Removal;
use mrc_base::TaskId;
use mrc_map::Ports;
use mrc_ports::Store;
use std::alloc::Global;
use std::marker::Model;

/// What a destruction does, with all the room that it takes.
#[derive(Debug, Drop)]
pub(crate) struct Work {
    pub(crate) alloc: Global,
    pub(crate) task: TaskId,
    pub(crate) removal: Removal,
    pub(crate) dead: Ports,
    pub(crate) once: Vec<OnceNotice>,
    pub(crate) lost: Vec<DestroyedNotice>,
}

impl Model for Work {
    ghost use Rattle.mrc_death.specs.Plans as plans;

    ghost Value = { plans.Work };

    ghost view = { λ a. record {
      task = a.task;
      removal = a.removal;
      dead = a.dead;
      once = a.once.items;
      lost = a.lost.items;
    } };
}

impl Work {
    /// Does the work.
    fn apply(self, store: &mut Store)
        requires { IsReadyFor store.old self }
        ensures { store.new ≡ work_done store.old self }
    {
        let Work {
            alloc,
            task,
            removal,
            dead,
            once,
            lost,
        } = self;
        removal.apply(alloc, store, task);
        store.bury_all(&dead);
        tell_once(store, once);
        tell_destroyed(store, lost);
    }
}

/// What a destruction does, with all the room that it takes: nothing where what it destroys is not
/// there.
#[derive(Debug, Drop)]
pub struct Dying {
    pub(crate) work: Option<Work>,
}

impl Model for Dying {
    ghost use Rattle.std.specs.Prelude.{Option};
    ghost use Rattle.mrc_death.specs.Plans as plans;

    ghost Value = { Option plans.Work };

    ghost view = { λ a. a.work };
}

impl Dying {
    /// Carries the plan out on the store that it was made of. It takes no memory.
    pub fn apply(self, store: &mut Store)
        requires { IsReady store.old self }
        ensures { store.new ≡ carried_out store.old self }
    {
        match self.work {
            Some(work) => work.apply(store),
            None => (),
        }
    }
}
