//! For which word a routine is left out.

ghost use Rattle.std.specs.Prelude.{◌≡◌, map, IfOk, string_bytes, []};
ghost use Rattle.std.specs.List.{fold};
ghost use Rattle.std.specs.Option.{option_map};
ghost use Rattle.mrc_mig_bodies.specs.Listed.{when, port_objections, type_objections};
ghost use Rattle.mrc_mig_bodies.specs.Listed.{name_objections, each_objections};
ghost use Rattle.mrc_mig_bodies.specs.Listed.{is_sooner, sooner, first_of};
ghost use Rattle.mrc_mig_bodies.specs.Objections.{rank, is_in_body, is_judged_port, is_judged};
ghost use Rattle.mrc_mig_bodies.specs.Objections.{is_long, Objects, IsFirst};
ghost use Rattle.mrc_mig_bodies.specs.Parameters.{parameter_of};

use crate::bodies::{is_in_reply, is_in_request};
use crate::kinds::RoutineKind;
use crate::names::{are_taken, names_of};
use crate::rights::{is_no_port, is_no_send_once};
use crate::roles::{request_port, settled};
use mrc_base::limits;
use mrc_mig_arguments::{Argument, Role};
use mrc_mig_types::By;
use std::alloc::{AllocError, Global};

/// Why a routine is left out. At one place the first of these counts.
#[derive(Clone, Copy, Debug, PartialEq, Eq)]
pub enum LeftOutWord {
    /// No statement goes on with this token.
    Unexpected,
    /// A type has to be judged, and is unknown.
    UnknownType,
    /// There is no request port, or it is no port.
    NoRequestPort,
    /// A reply port may be more than a send-once right.
    ReplyPort,
    /// A name is there already.
    TwiceNamed,
    /// There are too many arguments, or bytes of a name.
    TooMany,
}

/// A word, and the place at which it is told: how many tokens are left there.
#[derive(Clone, Copy, Debug, PartialEq, Eq)]
pub struct Objection {
    /// The place.
    pub at: usize,
    /// The word.
    pub word: LeftOutWord,
}

impl LeftOutWord {
    /// Its number in the order of the words.
    fn rank(self) -> u8
        ensures { result ≡ rank self }
    {
        match self {
            LeftOutWord::Unexpected => 0,
            LeftOutWord::UnknownType => 1,
            LeftOutWord::NoRequestPort => 2,
            LeftOutWord::ReplyPort => 3,
            LeftOutWord::TwiceNamed => 4,
            LeftOutWord::TooMany => 5,
        }
    }
}

/// Whether an objection comes before another.
fn is_sooner(next: Objection, first: Objection) -> bool
    ensures { result ≡ is_sooner next first }
{
    first.at < next.at || (first.at == next.at && next.word.rank() < first.word.rank())
}

/// The first of those so far and one more.
fn sooner(first: Option<Objection>, next: Objection) -> Option<Objection>
    ensures { result ≡ sooner first next }
{
    match first {
        Some(first) if !is_sooner(next, first) => Some(first),
        _ => Some(next),
    }
}

/// The first of those so far and a word at a place, where something objects.
fn or_when(
    first: Option<Objection>,
    objects: bool,
    at: usize,
    word: LeftOutWord,
) -> Option<Objection>
    ensures { result ≡ fold sooner first (when objects at word) }
{
    if objects {
        sooner(first, Objection { at, word })
    } else {
        first
    }
}

/// Whether an argument with this word is in a body.
fn is_in_body(kind: RoutineKind, role: Role) -> bool
    ensures { result ≡ is_in_body kind role }
{
    is_in_request(role) || is_in_reply(kind, role)
}

/// Whether the word is that of a reply port whose type is judged.
pub(crate) fn is_judged_port(role: Role) -> bool
    ensures { result ≡ is_judged_port role }
{
    matches!(role, Role::ReplyPort | Role::UserReplyPort)
}

/// Whether the type of an argument with this word has to be known.
fn is_judged(kind: RoutineKind, role: Role) -> bool
    ensures { result ≡ is_judged kind role }
{
    is_in_body(kind, role) || is_judged_port(role)
}

/// Whether a name is longer than names may be.
fn is_long(name: &str) -> bool
    ensures { result ≡ is_long name.now }
{
    name.len() > limits::NAME
}

/// What objects to the request port first.
fn port_objection(port: Option<Argument<'_>>, end_at: usize) -> Option<Objection>
    ensures { result ≡ first_of (port_objections (option_map parameter_of port.entry) end_at) }
{
    let Some(port) = port else {
        return or_when(None, true, end_at, LeftOutWord::NoRequestPort);
    };
    let unknown = port.meaning.is_none();
    let first = or_when(None, unknown, port.type_at, LeftOutWord::UnknownType);
    let no_port = is_no_port(port.meaning);
    or_when(first, no_port, port.type_at, LeftOutWord::NoRequestPort)
}

/// The first of those so far and what objects to an argument's type.
fn type_objection(
    first: Option<Objection>,
    kind: RoutineKind,
    by: By,
    argument: &Argument<'_>,
) -> Option<Objection>
    ensures { result ≡ fold sooner first (type_objections kind by (parameter_of argument.now)) }
{
    let at = argument.type_at;
    let unknown = is_judged(kind, argument.role) && argument.meaning.is_none();
    let first = or_when(first, unknown, at, LeftOutWord::UnknownType);
    let reply = is_judged_port(argument.role) && is_no_send_once(argument.meaning, by);
    let first = or_when(first, reply, at, LeftOutWord::ReplyPort);
    let long = is_in_body(kind, argument.role) && is_long(argument.type_name);
    or_when(first, long, at, LeftOutWord::TooMany)
}

/// The first of those so far and what objects to an argument's names.
fn name_objection(
    first: Option<Objection>,
    names: &[String],
    own: &[String],
    argument: &Argument<'_>,
) -> Option<Objection>
    ensures { result ≡ fold sooner first (name_objections (map string_bytes names.now)
        (map string_bytes own.now) (parameter_of argument.now)) }
{
    let at = argument.name_at;
    let first = or_when(first, are_taken(names, own), at, LeftOutWord::TwiceNamed);
    or_when(first, is_long(argument.name), at, LeftOutWord::TooMany)
}

/// The first of those so far and what objects to each argument, of arguments that are settled.
fn each_objection(
    alloc: Global,
    first: Option<Objection>,
    kind: RoutineKind,
    by: By,
    settled: &[Argument<'_>],
) -> Result<Option<Objection>, AllocError>
    ensures { IfOk result (λ found. found ≡
        fold sooner first (each_objections kind by [] (map parameter_of settled.now))) }
{
    let mut first = first;
    let mut names = Vec::new(alloc);
    for (index, argument) in settled.iter().enumerate() {
        if index >= limits::ARGUMENTS {
            return Ok(or_when(first, true, argument.at, LeftOutWord::TooMany));
        }
        let mut own = names_of(alloc, kind, argument)?;
        let typed = type_objection(first, kind, by, argument);
        first = name_objection(typed, &names, &own, argument);
        names.append(&mut own)?;
    }
    Ok(first)
}

/// The word for which a routine is left out by its arguments, and its place: the first place in
/// the text, and there the first word. The arguments end at `end_at`; the request is judged by
/// `by_request`.
pub fn first_objection(
    alloc: Global,
    kind: RoutineKind,
    by_request: By,
    end_at: usize,
    arguments: &[Argument<'_>],
) -> Result<Option<Objection>, AllocError>
    ensures { IfOk result (λ found. IsFirst
        (Objects kind by_request end_at (map parameter_of arguments.now)) found) }
{
    let first = port_objection(request_port(arguments), end_at);
    let settled = settled(alloc, arguments)?;
    each_objection(alloc, first, kind, by_request, &settled)
}
