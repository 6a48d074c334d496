//! The parts of a routine's parenthesis.

ghost use Rattle.std.specs.Prelude.{◌≡◌, map, IfOk};
ghost use Rattle.mrc_mig_bodies.specs.Parameters.{parameter_of};
ghost use Rattle.mrc_mig_tokens.specs.Reading.{left};
ghost use Rattle.mrc_mig_types.specs.Table.{known};
ghost use Rattle.mrc_mig_rows.specs.Parts.{piece_of, piece_at, pieces_from, closing_from};
ghost use Rattle.mrc_mig_rows.specs.Parts.{pieces_at, IsOpening, opening_at, view_of, view_at};
ghost use Rattle.mrc_mig_rows.specs.Parts.{read_before, unread_at, tail_stop, unknown};
ghost use Rattle.mrc_mig_rows.specs.Parts.{stop_of, parameter_in, unopened};

use crate::ends::part_end;
use mrc_base::OrMemory;
use mrc_mig_arguments::{Argument, Role, one_argument};
use mrc_mig_lex::Sign;
use mrc_mig_tokens::{Rest, Symbol, is_next};
use mrc_mig_types::Types;
use std::alloc::{AllocError, Global};

/// A part of a parenthesis, between its semicolons.
#[derive(Clone, Copy, Debug)]
pub(crate) enum Part<'t> {
    /// An argument.
    Read(Argument<'t>),
    /// What is none, by the place of the first token with which no argument goes on.
    Unread(usize),
}

/// What is seen of a row's arguments.
#[derive(Drop)]
pub(crate) struct Seen<'t> {
    /// The parts. A row without a name and a parenthesis has one, which is unread.
    pub(crate) parts: Vec<Part<'t>>,
    /// What is left from the sign on that closes the parenthesis, or where none is opened.
    pub(crate) end: Rest<'t>,
    /// Whether it is opened.
    pub(crate) is_opened: bool,
}

/// Reads the part at the front, which ends where `end` begins, by itself.
#[tactic(auto, unfolding(crate::specs::Parts::piece_at))]
fn part_at<'t>(
    alloc: Global,
    types: &Types<'t>,
    rest: Rest<'t>,
    end: Rest<'t>,
) -> Result<Part<'t>, AllocError>
    ensures { IfOk result (λ part. piece_of part ≡
        piece_at (known types.now) (left rest.entry) (left end.entry)) }
{
    match one_argument(alloc, types, rest) {
        Ok((argument, behind)) => {
            if behind.len() == end.len() {
                Ok(Part::Read(argument))
            } else {
                Ok(Part::Unread(behind.len()))
            }
        }
        Err(OrMemory::Fault(stop)) => Ok(Part::Unread(stop.left)),
        Err(OrMemory::Memory) => Err(AllocError),
    }
}

/// Reads the parts from behind the opening sign, and gives what is left from the closing one on.
#[tactic(auto, using(crate::proofs::PartLemmas::last_piece, crate::proofs::PartLemmas::closes_here, crate::proofs::PartLemmas::one_piece, crate::proofs::PartLemmas::closes_later, crate::proofs::PartLemmas::part_is_shorter))]
fn each_part_at<'t>(
    alloc: Global,
    types: &Types<'t>,
    rest: Rest<'t>,
) -> Result<(Vec<Part<'t>>, Rest<'t>), AllocError>
    ensures parts { IfOk result (λ x. map piece_of x.0.items ≡
        pieces_from (known types.now) 0 (left rest.entry) (left rest.entry)) }
    ensures end { IfOk result (λ x. left x.1 ≡ closing_from 0 (left rest.entry)) }
{
    let mut parts = Vec::new(alloc);
    let mut rest = rest;
    loop {
        let end = part_end(rest);
        parts.push(part_at(alloc, types, rest, end)?)?;
        if !is_next(end, Sign::Semicolon) {
            return Ok((parts, end));
        }
        rest = end.next();
    }
}

/// The same, where an empty parenthesis has no parts.
#[tactic(auto, unfolding(crate::specs::Parts::pieces_at))]
fn parts_at<'t>(
    alloc: Global,
    types: &Types<'t>,
    rest: Rest<'t>,
) -> Result<(Vec<Part<'t>>, Rest<'t>), AllocError>
    ensures parts { IfOk result (λ x. map piece_of x.0.items ≡
        (pieces_at (known types.now) (left rest.entry)).0) }
    ensures end { IfOk result (λ x. left x.1 ≡ (pieces_at (known types.now) (left rest.entry)).1) }
{
    if is_next(rest, Sign::CloseParenthesis) {
        Ok((Vec::new(alloc), rest))
    } else {
        each_part_at(alloc, types, rest)
    }
}

/// Passes `name (`; what is left where that does not stand.
#[tactic(auto, unfolding(crate::specs::Parts::opening_at))]
fn opening_at(rest: Rest<'_>) -> Result<Rest<'_>, Rest<'_>>
    ensures { IsOpening result (opening_at (left rest.entry)) }
{
    match rest.first() {
        Symbol::Name => {
            let after = rest.next();
            if is_next(after, Sign::OpenParenthesis) {
                Ok(after.next())
            } else {
                Err(after)
            }
        }
        _ => Err(rest),
    }
}

/// What is seen of a row that has no name with a parenthesis behind it.
fn unopened<'t>(alloc: Global, end: Rest<'t>) -> Result<Seen<'t>, AllocError>
    ensures { IfOk result (λ seen. view_of seen ≡ unopened (left end.entry)) }
{
    let mut parts = Vec::new(alloc);
    parts.push(Part::Unread(end.len()))?;
    Ok(Seen {
        parts,
        end,
        is_opened: false,
    })
}

/// What is seen of a row's arguments, from behind its word.
#[tactic(auto, unfolding(crate::specs::Parts::view_at))]
pub(crate) fn seen_at<'t>(
    alloc: Global,
    types: &Types<'t>,
    rest: Rest<'t>,
) -> Result<Seen<'t>, AllocError>
    ensures { IfOk result (λ seen. view_of seen ≡ view_at (known types.now) (left rest.entry)) }
{
    match opening_at(rest) {
        Ok(inside) => {
            let (parts, end) = parts_at(alloc, types, inside)?;
            Ok(Seen {
                parts,
                end,
                is_opened: true,
            })
        }
        Err(end) => unopened(alloc, end),
    }
}

/// The arguments that are read before the first part that is not.
pub(crate) fn read_before<'t>(
    alloc: Global,
    parts: &[Part<'t>],
) -> Result<Vec<Argument<'t>>, AllocError>
    ensures { IfOk result (λ v. map parameter_of v.items ≡
        read_before (map piece_of parts.now)) }
{
    let mut arguments = Vec::new(alloc);
    for part in parts {
        match part {
            Part::Read(argument) => arguments.push(*argument)?,
            Part::Unread(_) => return Ok(arguments),
        }
    }
    Ok(arguments)
}

/// Where the first part that is not read stops.
fn unread_at(parts: &[Part<'_>]) -> Option<usize>
    ensures { result ≡ unread_at (map piece_of parts.now) }
{
    for part in parts {
        if let Part::Unread(at) = part {
            return Some(*at);
        }
    }
    None
}

/// Where what follows the arguments is not `) ;`.
fn tail_stop(end: Rest<'_>) -> Option<usize>
    ensures { result ≡ tail_stop (left end.entry) }
{
    if !is_next(end, Sign::CloseParenthesis) {
        return Some(end.len());
    }
    let rest = end.next();
    if is_next(rest, Sign::Semicolon) {
        None
    } else {
        Some(rest.len())
    }
}

impl Seen<'_> {
    /// The place of the first token with which no routine goes on.
    pub(crate) fn stop(&self) -> Option<usize>
        ensures { result ≡ stop_of (view_of self.now) }
    {
        match unread_at(&self.parts) {
            Some(at) => Some(at),
            None => tail_stop(self.end),
        }
    }
}

/// An argument that stands for what cannot be read: it is in the request, and of an unknown type.
pub(crate) fn unknown<'t>(at: usize) -> Argument<'t>
    ensures { parameter_of result ≡ unknown at }
{
    Argument {
        role: Role::In,
        name: "?",
        type_name: "?",
        meaning: None,
        counts: false,
        at,
        name_at: at,
        type_at: at,
    }
}

/// The argument of a part, or one that stands for it.
pub(crate) fn argument_in<'t>(part: &Part<'t>) -> Argument<'t>
    ensures { parameter_of result ≡ parameter_in (piece_of part.now) }
{
    match part {
        Part::Read(argument) => *argument,
        Part::Unread(at) => unknown(*at),
    }
}
