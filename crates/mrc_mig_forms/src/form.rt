//! The form of a message of a routine.

ghost use Rattle.std.specs.Prelude.{◌≡◌, ◌≤◌, ◌+◌, ◌++◌, ◌∷◌, [], length, map, codes};
ghost use Rattle.std.specs.Prelude.{string_bytes, IfOk, OnOk, IsTrue};
ghost use Rattle.mrc_base.specs.Limits.{limit_of_arguments};
ghost use Rattle.mrc_mig_bodies.specs.Bodies.{item_of};
ghost use Rattle.mrc_mig_forms.specs.Bodies.{body, form_of, with_item};
ghost use Rattle.mrc_mig_forms.specs.Bounds.{BodyFits, item_fits};

use crate::shape::items_of;
use mrc_forms::{Form, FormKind};
use mrc_mig_bodies::Entry;
use std::alloc::{AllocError, Global};

/// The name of an array's count.
fn count_name(alloc: Global, name: &str) -> Result<String, AllocError>
    ensures { IfOk result (λ text. string_bytes text ≡ name.now ++ codes "Cnt") }
{
    let mut text = String::from_str(alloc, name)?;
    text.push_str("Cnt")?;
    Ok(text)
}

/// Puts an item of a body behind others. A return code stands in front of them already.
fn put_item(alloc: Global, form: &mut Form, entry: &Entry<'_>) -> Result<(), AllocError>
    requires room { length form.old.arguments + length (body (item_of entry.now ∷ []))
        ≤ limit_of_arguments + 1 }
    requires fits { IsTrue (item_fits (item_of entry.now)) }
    ensures { OnOk result (form.new ≡ with_item form.old (item_of entry.now)) }
{
    let items = items_of(entry.shape());
    match *entry {
        Entry::Argument {
            name,
            type_name,
            shape: _,
        } => form.push(alloc, name, items, type_name),
        Entry::Count { name } => {
            let name = count_name(alloc, name)?;
            form.push(alloc, name.as_str(), items, "")
        }
        Entry::ReturnCode => Ok(()),
    }
}

/// The form of a message of a routine of this name, with these items.
pub(crate) fn form_of(
    alloc: Global,
    name: &str,
    id: u32,
    kind: FormKind,
    entries: &[Entry<'_>],
) -> Result<Form, AllocError>
    requires { BodyFits (map item_of entries.now) }
    ensures { IfOk result (λ form. form ≡ form_of name.now id kind (map item_of entries.now)) }
{
    let mut form = Form::empty(alloc, name, id, kind)?;
    for entry in entries {
        put_item(alloc, &mut form, entry)?;
    }
    Ok(form)
}
