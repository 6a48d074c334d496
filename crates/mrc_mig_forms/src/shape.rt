//! What an argument looks like in a form.

ghost use Rattle.std.specs.Prelude.{◌≡◌, nat_le, IsTrue};
ghost use Rattle.std.specs.List.{list_all};
ghost use Rattle.mrc_mig_types.specs.Shapes.{form_of, numbers_of};
ghost use Rattle.mrc_model.specs.Wiring.{OneOf};
ghost use Rattle.mrc_mig_forms.specs.Bounds.{meant_fits};
ghost use Rattle.mrc_mig_forms.specs.Shapes.{items_of, types_of};

use mrc_forms::{ItemTypes, Items};
use mrc_mig_types::{Rights, Shape};

/// Data of any kind.
const ANY_DATA: Items = Items {
    types: ItemTypes::AnyData,
    size: 0,
    number: 0,
    is_bound: false,
};

/// What rights are as items of a form.
fn types_of(rights: Rights) -> ItemTypes
    requires { IsTrue (list_all (λ n. nat_le n 21) (numbers_of rights)) }
    ensures { result ≡ types_of (OneOf (numbers_of rights)) }
{
    match rights {
        Rights::Nothing => ItemTypes::AnyData,
        Rights::Only(number) => ItemTypes::One(number as u16),
        Rights::Send => ItemTypes::Send,
        Rights::SendOnce => ItemTypes::SendOnce,
        Rights::Any => ItemTypes::Any,
    }
}

/// What an argument's data look like in a form.
pub(crate) fn items_of(shape: Shape) -> Items
    requires { IsTrue (meant_fits (form_of shape)) }
    ensures { result ≡ items_of (form_of shape) }
{
    match shape {
        Shape::AnyData => ANY_DATA,
        Shape::Data {
            number,
            bits,
            count,
            is_bound,
        } => Items {
            types: ItemTypes::One(number as u16),
            size: bits as u16,
            number: count,
            is_bound,
        },
        Shape::Slot {
            rights,
            count,
            is_bound,
        } => Items {
            types: types_of(rights),
            size: 32,
            number: count,
            is_bound,
        },
    }
}
