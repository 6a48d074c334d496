//! Which arguments of a routine that is left out may carry rights.

ghost use Rattle.std.specs.Prelude.{◌≡◌};
ghost use Rattle.mrc_mig_bodies.specs.Carried.{may_be_slot, carries};
ghost use Rattle.mrc_mig_bodies.specs.Parameters.{parameter_of};

use crate::bodies::{is_in_reply, is_in_request};
use crate::kinds::RoutineKind;
use crate::objections::is_judged_port;
use crate::rights::{is_no_send_once, is_slot};
use mrc_mig_arguments::Argument;
use mrc_mig_types::{By, Meaning};

/// Whether a type carries rights in a message, or is unknown.
fn may_be_slot(meaning: Option<Meaning>, by: By) -> bool
    ensures { result ≡ may_be_slot meaning by }
{
    match meaning {
        Some(meaning) => is_slot(meaning, by),
        None => true,
    }
}

/// Whether an argument, of arguments that are [`settled`](crate::settled), carries rights: in the
/// request, in the reply, or as a reply port that may be more than a send-once right. An unknown
/// type counts.
pub fn carries(kind: RoutineKind, by_request: By, by_reply: By, argument: &Argument<'_>) -> bool
    ensures { result ≡ carries kind by_request by_reply (parameter_of argument.now) }
{
    let role = argument.role;
    let meaning = argument.meaning;
    (is_in_request(role) && may_be_slot(meaning, by_request))
        || (is_in_reply(kind, role) && may_be_slot(meaning, by_reply))
        || (is_judged_port(role) && (meaning.is_none() || is_no_send_once(meaning, by_request)))
}
