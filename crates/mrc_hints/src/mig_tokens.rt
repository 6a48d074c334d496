//! The tokens of a file as a hint looks at them.

ghost use Rattle.std.specs.Prelude.{◌≤◌, length};

use mrc_mig_lex::Sign;
use mrc_mig_symbols::{Directive, Rest, Symbol, Tokens, Word, place_of};
use std::alloc::{AllocError, Global};

/// A token: what the grammar sees of it, the offset of its first byte, and its text.
#[derive(Clone, Copy, Debug, PartialEq, Eq)]
pub(crate) struct Seen<'t> {
    /// What the grammar sees of it.
    pub(crate) symbol: Symbol,
    /// The offset of its first byte in the text.
    pub(crate) at: usize,
    /// Its text.
    pub(crate) text: &'t str,
}

/// What a name is given to.
#[derive(Clone, Copy, Debug, PartialEq, Eq)]
pub(crate) enum Naming {
    /// A type: its name is behind `type`.
    OfType,
    /// A routine or a simpleroutine: its name is behind that word.
    OfRoutine,
    /// An argument: its name is before a colon.
    OfArgument,
}

/// What is seen of the first token that is left.
fn first_seen<'t>(tokens: &Tokens<'t>, rest: Rest<'t>) -> Seen<'t> {
    Seen {
        symbol: rest.first(),
        at: place_of(tokens, rest.len()),
        text: rest.text(),
    }
}

/// All of the tokens.
pub(crate) fn all_seen<'t>(
    alloc: Global,
    tokens: &'t Tokens<'t>,
) -> Result<Vec<Seen<'t>>, AllocError> {
    let mut seen = Vec::new(alloc);
    let mut rest = Rest::new(tokens);
    for _ in 0..rest.len() {
        seen.push(first_seen(tokens, rest))?;
        rest = rest.next();
    }
    Ok(seen)
}

/// How many tokens begin before this place.
pub(crate) fn count_before(seen: &[Seen<'_>], at: usize) -> usize
    ensures { result ≤ length seen.now }
{
    match seen.iter().position(|token| at <= token.at) {
        Some(count) => count,
        None => seen.len(),
    }
}

pub(crate) fn is_type(symbol: Symbol) -> bool {
    matches!(symbol, Symbol::Word(Word::Type))
}

pub(crate) fn is_routine(symbol: Symbol) -> bool {
    matches!(symbol, Symbol::Word(Word::Routine | Word::SimpleRoutine))
}

pub(crate) fn is_colon(symbol: Symbol) -> bool {
    matches!(symbol, Symbol::Sign(Sign::Colon))
}

fn is_semicolon(symbol: Symbol) -> bool {
    matches!(symbol, Symbol::Sign(Sign::Semicolon))
}

pub(crate) fn is_slash(symbol: Symbol) -> bool {
    matches!(symbol, Symbol::Sign(Sign::Slash))
}

pub(crate) fn is_name(symbol: Symbol) -> bool {
    matches!(symbol, Symbol::Name)
}

fn is_subsystem(symbol: Symbol) -> bool {
    matches!(symbol, Symbol::Word(Word::Subsystem))
}

fn is_include(symbol: Symbol) -> bool {
    matches!(symbol, Symbol::Directive(Directive::Include))
}

/// Of two tokens that follow each other, the one that is a name of this use.
fn picked<'t>(naming: Naming, first: &Seen<'t>, second: &Seen<'t>) -> Option<Seen<'t>> {
    match naming {
        Naming::OfType if is_type(first.symbol) => Some(*second),
        Naming::OfRoutine if is_routine(first.symbol) => Some(*second),
        Naming::OfArgument if is_colon(second.symbol) => Some(*first),
        _ => None,
    }
}

/// The tokens that are names of this use, in order.
pub(crate) fn named<'t>(
    alloc: Global,
    naming: Naming,
    seen: &[Seen<'t>],
) -> Result<Vec<Seen<'t>>, AllocError> {
    let mut names = Vec::new(alloc);
    for index in 0..seen.len() {
        if let [first, second, ..] = &seen[index..] {
            if let Some(name) = picked(naming, first, second) {
                names.push(name)?;
            }
        }
    }
    Ok(names)
}

/// The place of the first token with this text.
pub(crate) fn first_named(seen: &[Seen<'_>], text: &str) -> Option<usize> {
    for token in seen {
        if token.text == text {
            return Some(token.at);
        }
    }
    None
}

/// The place of the last token with this text.
pub(crate) fn last_named(seen: &[Seen<'_>], text: &str) -> Option<usize> {
    let mut last = None;
    for token in seen {
        if token.text == text {
            last = Some(token.at);
        }
    }
    last
}

/// The place of the last semicolon.
pub(crate) fn last_end(seen: &[Seen<'_>]) -> Option<usize> {
    let mut last = None;
    for token in seen {
        if is_semicolon(token.symbol) {
            last = Some(token.at);
        }
    }
    last
}

/// Whether one of these lines includes the table of types.
pub(crate) fn has_include(seen: &[Seen<'_>]) -> bool {
    seen.iter().any(|token| is_include(token.symbol))
}

/// Whether one of these is the word `subsystem`.
pub(crate) fn has_subsystem(seen: &[Seen<'_>]) -> bool {
    seen.iter().any(|token| is_subsystem(token.symbol))
}

/// The place of the first line that includes the table of types.
pub(crate) fn include_place(seen: &[Seen<'_>]) -> Option<usize> {
    for token in seen {
        if is_include(token.symbol) {
            return Some(token.at);
        }
    }
    None
}
