//! Which argument is the request port.

ghost use Rattle.std.specs.Prelude.{◌≡◌, map, IfOk};
ghost use Rattle.std.specs.Option.{option_map};
ghost use Rattle.mrc_mig_bodies.specs.Parameters.{parameter_of};
ghost use Rattle.mrc_mig_bodies.specs.Roles.{is_port_from, marked_if, request_port, settled};

use mrc_mig_arguments::{Argument, Role};
use std::alloc::{AllocError, Global};

/// Whether an argument is the request port from then on, where there is one already or not.
fn is_port_from(has_port: bool, role: Role) -> bool
    ensures { result ≡ is_port_from has_port role }
{
    match role {
        Role::RequestPort => true,
        Role::Unmarked => !has_port,
        _ => false,
    }
}

/// The request port: the argument that is marked or, while there is none, has no word; the last of
/// these.
pub fn request_port<'t>(arguments: &[Argument<'t>]) -> Option<Argument<'t>>
    ensures { option_map parameter_of result ≡ request_port (map parameter_of arguments.now) }
{
    let mut port = None;
    for argument in arguments {
        if is_port_from(port.is_some(), argument.role) {
            port = Some(*argument);
        }
    }
    port
}

/// The argument with the word of a request port, if it is one.
fn marked_if<'t>(argument: &Argument<'t>, is_port: bool) -> Argument<'t>
    ensures { parameter_of result ≡ marked_if is_port (parameter_of argument.now) }
{
    if is_port {
        Argument {
            role: Role::RequestPort,
            ..*argument
        }
    } else {
        *argument
    }
}

/// The arguments, where each that is the request port has that word, also one that a later one
/// replaces. What still has no word is `in`.
pub fn settled<'t>(
    alloc: Global,
    arguments: &[Argument<'t>],
) -> Result<Vec<Argument<'t>>, AllocError>
    ensures { IfOk result (λ v. map parameter_of v.items ≡
        settled (map parameter_of arguments.now)) }
{
    let mut settled = Vec::new(alloc);
    let mut has_port = false;
    for argument in arguments {
        let is_port = is_port_from(has_port, argument.role);
        settled.push(marked_if(argument, is_port))?;
        has_port = has_port || is_port;
    }
    Ok(settled)
}
