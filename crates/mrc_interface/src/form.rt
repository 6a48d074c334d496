//! The form of a message of a routine.

ghost use Rattle.std.specs.Prelude.{◌≡◌, map, IfOk, IsTrue};
ghost use Rattle.mrc_mig_parse.specs.Bounds.{items_fit};
ghost use Rattle.mrc_mig_parse.specs.Meanings.{item_of};
ghost use Rattle.mrc_interface.specs.Bodies.{is_in_body, form_of};

use mrc_forms::{Form, FormKind, Items};
use mrc_mig_parse::{Argument, Direction};
use std::alloc::{AllocError, Global};

/// Whether an argument that goes this way is in the body of such a message.
fn is_in_body(kind: FormKind, direction: Direction) -> bool
    ensures { result ≡ is_in_body kind direction }
{
    match direction {
        Direction::In => matches!(kind, FormKind::Request(_)),
        Direction::Out => matches!(kind, FormKind::Reply),
        Direction::InOut => true,
        Direction::RequestPort | Direction::ReplyPort => false,
    }
}

/// The form of a message of a routine of this name, with these arguments.
pub(crate) fn form_of(
    alloc: Global,
    name: &str,
    id: u32,
    kind: FormKind,
    arguments: &[Argument],
) -> Result<Form, AllocError>
    requires { IsTrue (items_fit (map item_of arguments.now)) }
    ensures { IfOk result (λ form. form ≡ form_of name.now id kind (map item_of arguments.now)) }
{
    let mut form = Form::empty(alloc, name, id, kind)?;
    for argument in arguments {
        if is_in_body(kind, argument.direction) {
            let items = Items::of(argument.shape);
            let type_name = argument.type_name.as_str();
            form.push(alloc, argument.name.as_str(), items, type_name)?;
        }
    }
    Ok(form)
}
