//! The statement `type`.

ghost use Rattle.std.specs.Prelude.{◌≡◌, option_map, is_some, IfOk};
ghost use Rattle.mrc_base.specs.Reading.{Gives};
ghost use Rattle.mrc_mig_symbols.specs.Symbols.{Answers};
ghost use Rattle.mrc_mig_tokens.specs.Reading.{text_of, left};
ghost use Rattle.mrc_mig_types.specs.Table.{known};
ghost use Rattle.mrc_mig_rows.specs.Declarations.{known_before, meaning_at, declare_by, unread_of};
ghost use Rattle.mrc_mig_rows.specs.Declarations.{unread_at, named_by, declaration_at};

use mrc_base::OrMemory;
use mrc_mig_arguments::options;
use mrc_mig_lex::Sign;
use mrc_mig_symbols::{Stop, StopReason, stop_at};
use mrc_mig_tokens::{Rest, Symbol, sign};
use mrc_mig_types::{Meaning, Types, spec};
use std::alloc::{AllocError, Global};

/// A `type` statement that is not read: its name is that of an unknown type from there on.
#[derive(Clone, Copy, Debug)]
pub struct UnreadType<'t> {
    /// The name, if it has one.
    pub name: Option<&'t str>,
    /// The place of its first token: how many tokens are left there.
    pub at: usize,
    /// Unexpected at the first token with which no type goes on, or UnknownType at the name of a
    /// type that is not known.
    pub stop: Stop,
}

/// A type that is known. One that names an unknown type is UnknownType at that name, which is its
/// last token.
fn known_before(meaning: Option<Meaning>, rest: Rest<'_>) -> Result<Meaning, Stop>
    ensures { Answers (λ m. m) result (known_before meaning (left rest.entry)) }
{
    match meaning {
        Some(meaning) => Ok(meaning),
        None => Err(stop_at(StopReason::UnknownType, rest.len().saturating_add(1))),
    }
}

/// Reads `= spec {option};` and gives what it means.
#[tactic(auto, unfolding(crate::specs::Declarations::meaning_at))]
fn meaning_at<'t>(
    alloc: Global,
    types: &Types<'t>,
    rest: Rest<'t>,
) -> Result<Meaning, OrMemory<Stop>>
    ensures { Gives (λ m. m) result (meaning_at (known types.now) (left rest.entry)) }
{
    let rest = sign(rest, Sign::Equals)?;
    let (meaning, rest) = spec(alloc, types, rest)?;
    let meaning = known_before(meaning, rest)?;
    sign(options(rest)?, Sign::Semicolon)?;
    Ok(meaning)
}

/// Declares what stands behind the name of a `type` statement under it, or an unknown type and
/// gives why.
fn declare<'t>(
    alloc: Global,
    types: &mut Types<'t>,
    name: &'t str,
    rest: Rest<'t>,
) -> Result<Option<Stop>, AllocError>
    ensures { IfOk result (λ stop. (known types.new, stop) ≡
        declare_by (known types.old) name.now (meaning_at (known types.old) (left rest.entry))) }
{
    match meaning_at(alloc, types, rest) {
        Ok(meaning) => {
            types.declare(name, Some(meaning))?;
            Ok(None)
        }
        Err(OrMemory::Fault(stop)) => {
            types.declare(name, None)?;
            Ok(Some(stop))
        }
        Err(OrMemory::Memory) => Err(AllocError),
    }
}

/// A statement at a place, if it is not read.
fn unread_at<'t>(name: &'t str, at: usize, stop: Option<Stop>) -> Option<UnreadType<'t>>
    ensures { option_map unread_of result ≡ unread_at name.now at stop }
{
    match stop {
        Some(stop) => Some(UnreadType {
            name: Some(name),
            at,
            stop,
        }),
        None => None,
    }
}

/// Reads a `type` statement from its name on.
fn named<'t>(
    alloc: Global,
    types: &mut Types<'t>,
    at: usize,
    rest: Rest<'t>,
) -> Result<Option<UnreadType<'t>>, OrMemory<Stop>>
    ensures { Gives (λ unread. (known types.new, option_map unread_of unread)) result
        (named_by (is_some ((known types.old).declared (text_of (left rest.entry))))
        (known types.old) at (left rest.entry)) }
{
    let name = rest.text();
    if types.is_declared(name) {
        return Err(OrMemory::Fault(stop_at(StopReason::TwiceNamed, rest.len())));
    }
    let stop = declare(alloc, types, name, rest.next())?;
    Ok(unread_at(name, at, stop))
}

/// Reads a `type` statement, and declares its name. A name that has such a statement already is
/// TwiceNamed.
#[tactic(auto, unfolding(crate::specs::Declarations::declaration_at))]
pub(crate) fn declaration<'t>(
    alloc: Global,
    types: &mut Types<'t>,
    rest: Rest<'t>,
) -> Result<Option<UnreadType<'t>>, OrMemory<Stop>>
    ensures { Gives (λ unread. (known types.new, option_map unread_of unread)) result
        (declaration_at (known types.old) (left rest.entry)) }
{
    let at = rest.len();
    let rest = rest.next();
    match rest.first() {
        Symbol::Name => named(alloc, types, at, rest),
        _ => Ok(Some(UnreadType {
            name: None,
            at,
            stop: rest.unexpected(),
        })),
    }
}
