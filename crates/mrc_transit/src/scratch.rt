//! Room for the names of one message that is sent.

ghost use Rattle.std.specs.Prelude.{◌≡◌, ◌<◌, ◌≤◌, ◌∷◌, ◌++◌, [], IfOk, length};
ghost use Rattle.std.specs.Prelude.{vec_len, vec_capacity};
ghost use Rattle.mrc_model.specs.Map.{len, insert};
ghost use Rattle.mrc_transit.specs.Staging.{no_scratch, limit_of_taken};

use mrc_base::{PortId, limits};
use mrc_model::{Entry, Item};
use mrc_names::Rests;
use std::alloc::{AllocError, Global};
use std::marker::Model;

/// The bytes of a message's header.
const HEADER: usize = 24;

/// The bytes of a name.
const NAME: usize = 4;

/// How many names a message has at most: two in its header, and the others in its arguments.
const NAMES: usize = (limits::MESSAGE - HEADER) / NAME + 2;

/// What the names of a message give that is sent, with room for as many names as a message may
/// have: what is left of each, the ports whose receive rights are given, and what the names of
/// arguments carry, in order. It is made once, and no message that is judged takes memory for it.
#[derive(Debug, Drop)]
pub struct Scratch {
    pub(crate) rests: Rests,
    pub(crate) moved: Vec<PortId>,
    pub(crate) items: Vec<Item>,
}

impl Model for Scratch {
    ghost use Rattle.std.specs.Prelude.{vec_capacity};
    ghost use Rattle.mrc_transit.specs.Staging as stage;

    ghost Value = { stage.Scratch };

    ghost view = { λ a. record {
      rests = a.rests.changes;
      moved = a.moved.items;
      items = a.items.items;
    } };

    ghost invariant = { λ a. stage.IsRoomy a.rests.names (vec_capacity a.moved)
        (vec_capacity a.items) };
}

/// Puts a value behind the others of a list that has room for it.
pub(crate) fn add<T: Drop>(list: &mut Vec<T>, value: T)
    requires { vec_len list.old < vec_capacity list.old }
    ensures items { list.new.items ≡ list.old.items ++ value ∷ [] }
    ensures capacity { vec_capacity list.old ≤ vec_capacity list.new }
{
    if list.push(value).is_err() {
        unreachable!();
    }
}

impl Scratch {
    /// Nothing is given yet.
    pub fn new(alloc: Global) -> Result<Scratch, AllocError>
        ensures { IfOk result (λ scratch. scratch ≡ no_scratch) }
    {
        Ok(Scratch {
            rests: Rests::new(alloc, NAMES)?,
            moved: Vec::with_capacity(alloc, NAMES)?,
            items: Vec::with_capacity(alloc, NAMES)?,
        })
    }

    /// Nothing is given from here on. It keeps its room.
    pub(crate) fn clear(&mut self)
        ensures { self.new ≡ no_scratch }
    {
        self.rests.clear();
        self.moved.clear();
        self.items.clear();
    }

    /// What the names of arguments carry, in order.
    pub(crate) fn items(&self) -> &[Item]
        ensures { result.now ≡ self.now.items }
    {
        &self.items
    }

    /// A name has no more from here on than this rest.
    pub(crate) fn leave(&mut self, name: u32, rest: Option<Entry>)
        requires { len self.old.rests < limit_of_taken }
        ensures { self.new ≡ record self.old { rests = insert self.old.rests name rest } }
    {
        self.rests.leave(name, rest);
    }

    /// The receive right of this port is given.
    pub(crate) fn move_port(&mut self, port: PortId)
        requires { length self.old.moved < limit_of_taken }
        ensures { self.new ≡ record self.old { moved = self.old.moved ++ port ∷ [] } }
    {
        add(&mut self.moved, port);
    }

    /// A name of an argument carries this.
    pub(crate) fn carry(&mut self, item: Item)
        requires { length self.old.items < limit_of_taken }
        ensures { self.new ≡ record self.old { items = self.old.items ++ item ∷ [] } }
    {
        add(&mut self.items, item);
    }
}
