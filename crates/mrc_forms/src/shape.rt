//! What an argument's data look like.

ghost use Rattle.std.specs.Prelude.{◌≡◌};
ghost use Rattle.mrc_forms.specs.Shapes.{items_of};

use crate::types::ItemTypes;
use mrc_base::Copies;
use std::alloc::{AllocError, Global};

/// Items of one type number, as a descriptor says it: the words are those of mach_msg_type_t.
#[derive(Clone, Copy, Debug, PartialEq, Eq)]
pub struct Shape {
    /// The type number of the items: that of the MACH_MSG_TYPE_ name, 0 to 21.
    pub name: u16,
    /// The bits of one item.
    pub size: u16,
    /// How many items there are, 1 to 8,192.
    pub number: u32,
    /// The number is the most that there may be, and not the exact one.
    pub is_bound: bool,
}

impl Copies for Shape {
    fn copy(&self, _: Global) -> Result<Shape, AllocError> {
        Ok(*self)
    }

    fn same(&self, other: &Shape) -> bool {
        *self == *other
    }
}

/// What an argument's data look like: what its items may be, how large they are, and how many.
#[derive(Clone, Copy, Debug, PartialEq, Eq)]
pub struct Items {
    /// What they may be.
    pub types: ItemTypes,
    /// The bits of one item; data of any kind have any.
    pub size: u16,
    /// How many items there are, 1 to 8,192; of data of any kind any number.
    pub number: u32,
    /// The number is the most that there may be, and not the exact one.
    pub is_bound: bool,
}

impl Items {
    /// Items of one type number.
    pub fn of(shape: Shape) -> Items
        ensures { result ≡ items_of shape }
    {
        Items {
            types: ItemTypes::One(shape.name),
            size: shape.size,
            number: shape.number,
            is_bound: shape.is_bound,
        }
    }
}

impl Copies for Items {
    fn copy(&self, _: Global) -> Result<Items, AllocError> {
        Ok(*self)
    }

    fn same(&self, other: &Items) -> bool {
        *self == *other
    }
}
