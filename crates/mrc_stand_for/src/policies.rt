//! The classes that a policy of version 1 or 2 names.

ghost use Rattle.std.specs.Prelude.{◌≡◌, IfOk};
ghost use Rattle.mrc_stand_for.specs.Policies.{classes_forbidden};

use crate::known::Known;
use crate::several::{Copied, Several};
use mrc_wiring_text::ClassName;
use std::alloc::{AllocError, Global};

/// The classes that a class of a policy of version 1 or 2 stands for over a wiring after whose
/// lines this is known: itself, and behind births each wired port that is such births.
pub fn classes_forbidden(
    alloc: Global,
    known: &Known,
    class: &ClassName,
) -> Result<Several<ClassName>, AllocError>
    ensures { IfOk result (λ classes. classes ≡ classes_forbidden known.now class.now) }
{
    let mut classes = Several::empty(alloc);
    match class {
        ClassName::Births { task, kind } => known.push_births(alloc, task, kind, &mut classes)?,
        _ => classes.push(class.copy(alloc)?)?,
    }
    Ok(classes)
}
