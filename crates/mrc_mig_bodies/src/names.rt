//! The names that arguments take.

ghost use Rattle.std.specs.Prelude.{◌≡◌, map, IfOk, string_bytes};
ghost use Rattle.std.specs.List.{list_any};
ghost use Rattle.mrc_mig_bodies.specs.Objections.{is_taken, names_of};
ghost use Rattle.mrc_mig_bodies.specs.Parameters.{parameter_of};

use crate::bodies::has_count;
use crate::kinds::RoutineKind;
use mrc_mig_arguments::Argument;
use std::alloc::{AllocError, Global};

/// The names that an argument takes: its own, and that of its count if it has one.
pub(crate) fn names_of(
    alloc: Global,
    kind: RoutineKind,
    argument: &Argument<'_>,
) -> Result<Vec<String>, AllocError>
    ensures { IfOk result (λ v. map string_bytes v.items ≡
        names_of kind (parameter_of argument.now)) }
{
    let mut names = Vec::new(alloc);
    names.push(String::from_str(alloc, argument.name)?)?;
    if has_count(kind, argument) {
        let mut count = String::from_str(alloc, argument.name)?;
        count.push_str("Cnt")?;
        names.push(count)?;
    }
    Ok(names)
}

/// Whether a name is among these.
fn is_taken(names: &[String], name: &str) -> bool
    ensures { result ≡ is_taken (map string_bytes names.now) name.now }
{
    names.iter().any(|taken| taken.as_str() == name)
}

/// Whether one of an argument's names is among these.
pub(crate) fn are_taken(names: &[String], own: &[String]) -> bool
    ensures { result ≡
        list_any (is_taken (map string_bytes names.now)) (map string_bytes own.now) }
{
    own.iter().any(|name| is_taken(names, name.as_str()))
}
