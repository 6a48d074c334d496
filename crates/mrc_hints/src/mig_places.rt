//! In which line of a MIG file a routine's argument is, and its word `subsystem`.

use crate::bytes::line_number;
use mrc_base::OrMemory;
use mrc_mig_lex::Sign;
use mrc_mig_symbols::Word;
use mrc_mig_tokens::{Rest, Symbol, Tokens, lex};
use std::alloc::{AllocError, Global};
use std::str;

fn is_routine(symbol: Symbol) -> bool {
    matches!(symbol, Symbol::Word(Word::Routine | Word::SimpleRoutine))
}

pub(crate) fn is_subsystem(symbol: Symbol) -> bool {
    matches!(symbol, Symbol::Word(Word::Subsystem))
}

fn is_colon(symbol: Symbol) -> bool {
    matches!(symbol, Symbol::Sign(Sign::Colon))
}

/// Whether this name comes first.
fn begins_with_name(name: &str, rest: Rest<'_>) -> bool {
    matches!(rest.first(), Symbol::Name) && rest.text() == name
}

/// What is left behind the name of the first routine of this name.
fn behind_routine<'t>(name: &str, rest: Rest<'t>) -> Rest<'t> {
    let mut rest = rest;
    for _ in 0..rest.len() {
        let next = rest.next();
        if is_routine(rest.first()) && begins_with_name(name, next) {
            return next.next();
        }
        rest = next;
    }
    rest
}

/// What is left from the first name with this text on that has a colon behind it and is before the
/// next routine: nothing, if there is none.
fn argument_in<'t>(name: &str, rest: Rest<'t>) -> Option<Rest<'t>> {
    let mut rest = rest;
    for _ in 0..rest.len() {
        let next = rest.next();
        if is_routine(rest.first()) {
            return None;
        }
        if begins_with_name(name, rest) && is_colon(next.first()) {
            return Some(rest);
        }
        rest = next;
    }
    None
}

/// What is left from the first word `subsystem` on.
fn subsystem_in(rest: Rest<'_>) -> Option<Rest<'_>> {
    let mut rest = rest;
    for _ in 0..rest.len() {
        if is_subsystem(rest.first()) {
            return Some(rest);
        }
        rest = rest.next();
    }
    None
}

/// The place of this argument of this routine, or, without a routine, of the first word
/// `subsystem`.
fn place_in<'t>(tokens: &'t Tokens<'t>, argument: Option<(&str, &str)>) -> Option<usize> {
    let found = match argument {
        Some((routine, argument)) => {
            argument_in(argument, behind_routine(routine, Rest::new(tokens)))
        }
        None => subsystem_in(Rest::new(tokens)),
    };
    match found {
        Some(rest) => Some(tokens.at(tokens.len().saturating_sub(rest.len()))),
        None => None,
    }
}

/// The line, from 1, of the name of an argument: of the first name with its text that has a colon
/// behind it, behind the first `routine` or `simpleroutine` with the routine's name, and before the
/// next such word. In a file that is read it is the argument. Without a routine and an argument, it
/// is the line of the first word `subsystem`. None if there is no such token, or if the bytes are
/// no text that is made of tokens of edition 2, which has those of edition 1.
pub fn argument_line(
    alloc: Global,
    bytes: &[u8],
    argument: Option<(&str, &str)>,
) -> Result<Option<u32>, AllocError> {
    let Ok(text) = str::from_utf8(bytes) else {
        return Ok(None);
    };
    match lex(alloc, text) {
        Ok(tokens) => Ok(place_in(&tokens, argument).map(|at| line_number(bytes, at))),
        Err(OrMemory::Fault(_)) => Ok(None),
        Err(OrMemory::Memory) => Err(AllocError),
    }
}
