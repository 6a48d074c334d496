//! The types that are declared.

ghost use Rattle.std.specs.Prelude.{◌≡◌, ◌++◌, [], ◌∷◌, None, OnOk, OnErr};
ghost use Rattle.mrc_mig_symbols.specs.Tables.{entry_of};

use mrc_forms::Shape;
use std::alloc::{AllocError, Global};
use std::collections::BTreeMap;
use std::marker::Model;

/// The declared types in their order, no two of one name. They are found by comparing names and not
/// by their hashes, so no choice of names makes it slow.
#[derive(Drop)]
pub struct Types<'t> {
    entries: Vec<(&'t str, Shape)>,
    /// Where each name stands among them.
    places: BTreeMap<&'t str, usize>,
}

impl<'t> Model for Types<'t> {
    ghost use Rattle.std.specs.Prelude.{ℕ, List};
    ghost use Rattle.mrc_mig_symbols.specs.Tables.{plain};
    ghost use Rattle.mrc_forms.specs.declared.shape.Shape.{Shape};
    ghost use Rattle.mrc_mig_parse.specs.Places.{HasPlaces};

    ghost Value = { List (List ℕ × Shape) };

    ghost view = { λ t. plain t.entries.items };

    ghost invariant = { λ t. HasPlaces (plain t.entries.items) t.places };
}

impl<'t> Types<'t> {
    /// No type is declared.
    pub fn new(alloc: Global) -> Types<'t>
        ensures { result ≡ [] }
    {
        Types {
            entries: Vec::new(alloc),
            places: BTreeMap::new(alloc),
        }
    }

    /// The type of this name, where there is one.
    pub fn get(&self, name: &str) -> Option<Shape>
        ensures { result ≡ entry_of self.now name.now }
    {
        match self.places.get(name) {
            None => None,
            Some(place) => Some(self.entries.as_slice()[*place].1),
        }
    }

    /// Declares a type whose name no type has.
    pub fn declare(&mut self, name: &'t str, shape: Shape) -> Result<(), AllocError>
        requires { entry_of self.old name.now ≡ None }
        ensures ok { OnOk result (self.new ≡ self.old ++ (name.now, shape) ∷ []) }
        ensures err { OnErr result (self.new ≡ self.old) }
    {
        self.entries.reserve(1)?;
        let place = self.entries.as_slice().len();
        self.places.insert(name, place)?;
        let _ = self.entries.push((name, shape));
        Ok(())
    }
}
