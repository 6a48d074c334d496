//! The names of a space, with what each stands for.

ghost use Rattle.std.specs.Prelude.{◌≡◌, ◌≤◌, ◌↔◌, length, IfOk, IsTrue};
ghost use Rattle.mrc_base.specs.Limits.{limit_of_names};

use crate::types::PortType;
use std::alloc::{AllocError, Global};
use std::marker::Model;

/// A name, and the rights that it has.
#[derive(Clone, Copy, Debug, PartialEq, Eq)]
pub struct NamedType {
    /// The name.
    pub name: u32,
    /// Its rights.
    pub rights: PortType,
}

/// Names with their rights, ascending; at most 4,096.
#[derive(Debug, Drop)]
pub struct Listing {
    names: Vec<NamedType>,
}

impl Model for Listing {
    ghost use Rattle.std.specs.Prelude.{ℕ, List, ◌≤◌, length, map};
    ghost use Rattle.mrc_base.specs.Limits.{limit_of_names};
    ghost use Rattle.mrc_names.specs.Listings.{names_of};

    ghost Value = { List (ℕ × ℕ) };

    ghost view = { λ a. names_of a.names.items };

    ghost invariant = { λ a. length a.names.items ≤ limit_of_names };
}

impl Listing {
    ghost use Rattle.mrc_names.specs.Listings.{names_of};

    /// The names in order.
    pub fn as_slice(&self) -> &[NamedType]
        ensures { names_of result.now ≡ self.now }
    {
        &self.names
    }

    /// The list of these names.
    pub(crate) fn new(names: Vec<NamedType>) -> Listing
        requires { length names.items ≤ limit_of_names }
        ensures { result ≡ names_of names.items }
    {
        Listing { names }
    }

    /// An equal list, in a room that was made for it. It takes no memory.
    pub fn fill(&self, room: NamesRoom) -> Listing
        requires { length self.now ≤ room }
        ensures { result ≡ self.now }
    {
        let NamesRoom { names: mut copy } = room;
        for name in &self.names {
            copy.push_reserved(*name);
        }
        Listing { names: copy }
    }

    /// Whether the lists are equal.
    pub fn same(&self, other: &Listing) -> bool
        ensures { IsTrue result ↔ (self.now ≡ other.now) }
    {
        Listing::same_names(&self.names, &other.names)
    }

    /// Whether names and rights are equal, in the same order.
    fn same_names(names: &[NamedType], others: &[NamedType]) -> bool
        ensures { IsTrue result ↔ (names_of names.now ≡ names_of others.now) }
    {
        if names.len() != others.len() {
            return false;
        }
        for i in 0..names.len() {
            if !names[i].same(&others[i]) {
                return false;
            }
        }
        true
    }
}

impl NamedType {
    ghost use Rattle.std.specs.Prelude.{◌≡◌, ◌↔◌, IsTrue};
    ghost use Rattle.mrc_names.specs.Listings.{name_of};

    /// Whether name and rights are equal.
    fn same(&self, other: &NamedType) -> bool
        ensures { IsTrue result ↔ (name_of self.now ≡ name_of other.now) }
    {
        self.name == other.name && self.rights.mask() == other.rights.mask()
    }
}

/// Room for a number of names.
#[derive(Debug, Drop)]
pub struct NamesRoom {
    names: Vec<NamedType>,
}

impl Model for NamesRoom {
    ghost use Rattle.std.specs.Prelude.{◌≡◌, ℕ, [], vec_capacity};

    ghost Value = { ℕ };

    ghost view = { λ a. vec_capacity a.names };

    ghost invariant = { λ a. a.names.items ≡ [] };
}

impl NamesRoom {
    /// Makes room for so many names; for none it takes no memory.
    pub fn new(alloc: Global, names: usize) -> Result<NamesRoom, AllocError>
        ensures { IfOk result (λ room. room ≡ names) }
    {
        Ok(NamesRoom {
            names: Vec::with_capacity(alloc, names)?,
        })
    }
}
