//! The kinds of routines.

ghost use Rattle.std.specs.Prelude.{◌≡◌, map};
ghost use Rattle.std.specs.List.{list_any};
ghost use Rattle.mrc_mig_bodies.specs.Parameters.{parameter_of};
ghost use Rattle.mrc_mig_bodies.specs.Roles.{is_reply_port, request_of};

use mrc_mig_arguments::{Argument, Role};

/// The word of a routine's statement.
#[derive(Clone, Copy, Debug, PartialEq, Eq)]
pub enum RoutineKind {
    /// `routine`.
    Routine,
    /// `simpleroutine`.
    Simple,
}

/// What answers a request.
#[derive(Clone, Copy, Debug, PartialEq, Eq)]
pub enum Request {
    /// A reply of its own.
    Routine,
    /// Nothing.
    Simple,
    /// Whatever goes to the reply right that it may bring. It has no reply of its own.
    Replied,
}

/// Whether a word is that of a reply port.
fn is_reply_port(role: Role) -> bool
    ensures { result ≡ is_reply_port role }
{
    matches!(
        role,
        Role::ReplyPort | Role::UserReplyPort | Role::ServerReplyPort
    )
}

/// Whether one of the arguments is a reply port.
fn has_reply_port(arguments: &[Argument<'_>]) -> bool
    ensures { result ≡ list_any (λ a. is_reply_port a.role) (map parameter_of arguments.now) }
{
    arguments
        .iter()
        .any(|argument| is_reply_port(argument.role))
}

/// What answers the request of a routine with these arguments.
pub fn request_of(kind: RoutineKind, arguments: &[Argument<'_>]) -> Request
    ensures { result ≡ request_of kind (map parameter_of arguments.now) }
{
    match kind {
        RoutineKind::Routine => Request::Routine,
        RoutineKind::Simple => {
            if has_reply_port(arguments) {
                Request::Replied
            } else {
                Request::Simple
            }
        }
    }
}
