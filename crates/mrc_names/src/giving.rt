//! Giving rights to a space in place: all can be taken back without memory.

ghost use Rattle.std.specs.Prelude.{◌≡◌, Ok, IfOk, IfErr, OnErr};
ghost use Rattle.mrc_names.specs.Refusals.{IsRefusal};
ghost use Rattle.mrc_names.specs.Takes.{give_right};

use crate::space::Space;
use mrc_base::{OrMemory, PortId, PortRight};
use mrc_model::{Code, Entry};
use std::alloc::Global;
use std::marker::Model;

/// A space that rights are given to, with what stood before under each name that was given.
#[derive(Debug, Drop)]
pub struct Giving {
    space: Space,
    trail: Vec<(u32, Option<Entry>)>,
}

impl Model for Giving {
    ghost use Rattle.mrc_index.specs.Undo.{undone, CanUndo};
    ghost use Rattle.mrc_names.specs.Giving as giving;

    ghost Value = { giving.Giving };

    ghost view = { λ a. record { base = undone a.trail.items a.space; space = a.space } };

    ghost invariant = { λ a. CanUndo a.trail.items a.space };
}

impl Giving {
    /// Nothing is given yet to the space.
    pub fn new(alloc: Global, space: Space) -> Giving
        ensures { result ≡ record { base = space; space = space } }
    {
        Giving {
            space,
            trail: Vec::new(alloc),
        }
    }

    /// Gives a right, as `Space::copyout` does.
    pub fn give(&mut self, port: PortId, right: PortRight) -> Result<u32, OrMemory<Code>>
        ensures ok { IfOk result (λ name.
            give_right self.old.space port right ≡ Ok (self.new.space, name)) }
        ensures refused { IfErr result (λ e. IsRefusal e (give_right self.old.space port right)) }
        ensures base { self.new.base ≡ self.old.base }
        ensures err { OnErr result (self.new ≡ self.old) }
    {
        let given = self.space.give(port, right)?;
        let name = given.0;
        let former = given.1;
        match self.trail.push(given) {
            Ok(()) => Ok(name),
            Err(_) => {
                self.space.leave(name, former);
                Err(OrMemory::Memory)
            }
        }
    }

    /// The space with all that was given.
    pub fn keep(self) -> Space
        ensures { result ≡ self.space }
    {
        self.space
    }

    /// The space as it was before. It takes no memory.
    pub fn undo(self) -> Space
        ensures { result ≡ self.base }
    {
        let mut space = self.space;
        let mut trail = self.trail;
        while let Some(step) = trail.pop() {
            space.leave(step.0, step.1);
        }
        space
    }
}
