//! Takings from a space that stays: what they leave of names is kept next to it, in room that is
//! made beforehand, until it is put there. Only to make the room takes memory.

ghost use Rattle.std.specs.Prelude.{◌≡◌, ◌<◌, Ok, Err, IfOk, IfErr, IfSome};
ghost use Rattle.mrc_model.specs.Map.{empty, get, insert, len};
ghost use Rattle.mrc_model.specs.Space.{put_entry};
ghost use Rattle.mrc_model.specs.Reply.{Refused};
ghost use Rattle.mrc_model.specs.CallSend.{dead_taken};
ghost use Rattle.mrc_names.specs.Leaving.{patched, HasRest, AreRests};
ghost use Rattle.mrc_names.specs.Takes.{take_right};

use crate::entry;
use crate::space::Space;
use mrc_base::{Disp, PortId};
use mrc_map::Roomy;
use mrc_model::{Code, Entry};
use std::alloc::{AllocError, Global};
use std::marker::Model;

/// What takings leave of names of a space: of each an entry, or none. It has room for a number of
/// names. The space itself stays; it is passed to each call that asks for it.
#[derive(Debug, Drop)]
pub struct Rests {
    rests: Roomy<Option<Entry>>,
}

impl Model for Rests {
    ghost use Rattle.mrc_names.specs.Leaving as leaving;

    ghost Value = { leaving.Rests };

    ghost view = { λ a. record { changes = a.rests.map; names = a.rests.room } };
}

impl Rests {
    /// Nothing is taken yet; there is room for so many names.
    pub fn new(alloc: Global, names: usize) -> Result<Rests, AllocError>
        ensures { IfOk result (λ rests. rests ≡ record { changes = empty; names = names }) }
    {
        Ok(Rests {
            rests: Roomy::new(alloc, names)?,
        })
    }

    /// Nothing is taken from here on. The room stays.
    pub fn clear(&mut self)
        ensures { self.new ≡ record { changes = empty; names = self.old.names } }
    {
        self.rests.clear();
    }

    /// The entry of a name of the space, after the takings.
    fn get(&self, space: &Space, name: u32) -> Option<Entry>
        ensures { result ≡ get (patched space.now self.now.changes) name }
    {
        match self.rests.get(u64::from(name)) {
            Some(rest) => *rest,
            None => space.get(name),
        }
    }

    /// The port of a right that a name of the space gives after the takings, and what is then left
    /// of the name; or why it gives none, as `Space::take` returns it.
    pub fn parting(
        &self,
        space: &Space,
        name: u32,
        disp: Disp,
    ) -> Result<(PortId, Option<Entry>), Code>
        ensures found { IfOk result (λ t. take_right (patched space.now self.now.changes) name disp
            ≡ Ok (put_entry (patched space.now self.now.changes) name t.1, t.0)) }
        ensures rest { IfOk result
            (λ t. HasRest (patched space.now self.now.changes) name t.1) }
        ensures refused { IfErr result (λ code.
            take_right (patched space.now self.now.changes) name disp ≡ Err (Refused code)) }
    {
        let Some(held) = self.get(space, name) else {
            return Err(Code::KernInvalidName);
        };
        let Some(taken) = entry::take_from(held, disp) else {
            return Err(Code::KernInvalidRight);
        };
        Ok(taken)
    }

    /// What is left of a dead name, if it gives a dead right by a disposition that moves or copies
    /// what it stands for.
    pub fn dead_parting(&self, space: &Space, name: u32, disp: Disp) -> Option<Option<Entry>>
        ensures taken { result
            ≡ dead_taken (get (patched space.now self.now.changes) name) disp }
        ensures rest { IfSome result
            (λ rest. HasRest (patched space.now self.now.changes) name rest) }
    {
        entry::dead_taken(self.get(space, name), disp)
    }

    /// The name has no more from here on than this rest. It takes no memory.
    pub fn leave(&mut self, name: u32, rest: Option<Entry>)
        requires { len self.old.changes < self.old.names }
        ensures { self.new ≡ record {
          changes = insert self.old.changes name rest;
          names = self.old.names;
        } }
    {
        self.rests.insert(u64::from(name), rest);
    }
}

impl Space {
    /// Puts what takings leave under the names that they were made of. It takes no memory.
    pub fn apply(&mut self, rests: &Rests)
        requires { AreRests self.old rests.now.changes }
        ensures { self.new ≡ patched self.old rests.now.changes }
    {
        for change in rests.rests.iter() {
            self.bounds();
            self.leave(*change.0 as u32, *change.1);
        }
    }
}
