//! What a row that is left out may carry.

ghost use Rattle.std.specs.Prelude.{◌≡◌, ◌++◌, ◌∷◌, [], map, IfOk, OnOk};
ghost use Rattle.mrc_base.specs.Reading.{Gives};
ghost use Rattle.mrc_mig_bodies.specs.Parameters.{parameter_of};
ghost use Rattle.mrc_mig_tokens.specs.Reading.{left};
ghost use Rattle.mrc_mig_types.specs.Table.{known};
ghost use Rattle.mrc_mig_rows.specs.Carried.{carrier_of, result_meaning_at, read_result_at};
ghost use Rattle.mrc_mig_rows.specs.Carried.{result_at, results_by, parameters_of, carrying};
ghost use Rattle.mrc_mig_rows.specs.Carried.{carried_of};
ghost use Rattle.mrc_mig_rows.specs.Parts.{view_of, piece_of, parameter_in};

use crate::kinds::RowKind;
use crate::parts::{Part, Seen, argument_in, unknown};
use mrc_base::OrMemory;
use mrc_mig_arguments::{Argument, Role, options};
use mrc_mig_bodies::{carries, settled};
use mrc_mig_lex::Sign;
use mrc_mig_symbols::Stop;
use mrc_mig_tokens::{Rest, any_name, is_next, sign};
use mrc_mig_types::{By, Meaning, Types, spec};
use std::alloc::{AllocError, Global};

/// An argument that may carry rights.
#[derive(Clone, Copy, Debug)]
pub struct Carried<'t> {
    /// Its name, or `?` where it cannot be read.
    pub name: &'t str,
    /// The name of its type, or `?`.
    pub type_name: &'t str,
}

/// By which type numbers requests and replies are judged.
#[derive(Clone, Copy, Debug)]
pub(crate) struct Judges {
    /// Requests.
    pub(crate) request: By,
    /// Replies.
    pub(crate) reply: By,
}

/// Reads what a type's name means, with what is behind an equals sign, where there is one.
#[tactic(auto, unfolding(crate::specs::Carried::result_meaning_at))]
fn result_meaning<'t>(
    alloc: Global,
    types: &Types<'t>,
    name: &str,
    rest: Rest<'t>,
) -> Result<(Option<Meaning>, Rest<'t>), OrMemory<Stop>>
    ensures { Gives (λ x. (x.0, left x.1)) result
        (result_meaning_at (known types.now) name.now (left rest.entry)) }
{
    if !is_next(rest, Sign::Equals) {
        return Ok((types.get(name), rest));
    }
    let (meaning, rest) = spec(alloc, types, rest.next())?;
    Ok((meaning, options(rest)?))
}

/// Reads `) : name [= spec {option}];`, and gives it as an argument of the reply.
#[tactic(auto, unfolding(crate::specs::Carried::read_result_at))]
fn read_result<'t>(
    alloc: Global,
    types: &Types<'t>,
    name: &'t str,
    rest: Rest<'t>,
) -> Result<Argument<'t>, OrMemory<Stop>>
    ensures { Gives parameter_of result
        (read_result_at (known types.now) name.now (left rest.entry)) }
{
    let rest = sign(rest, Sign::CloseParenthesis)?;
    let at = rest.len();
    let rest = sign(rest, Sign::Colon)?;
    let type_at = rest.len();
    let (type_name, rest) = any_name(rest)?;
    let (meaning, rest) = result_meaning(alloc, types, type_name, rest)?;
    sign(rest, Sign::Semicolon)?;
    Ok(Argument {
        role: Role::Out,
        name,
        type_name,
        meaning,
        counts: false,
        at,
        name_at: at,
        type_at,
    })
}

/// The result of a `function`, as an argument, or one that stands for it.
#[tactic(auto, unfolding(crate::specs::Carried::result_at))]
fn result_at<'t>(
    alloc: Global,
    types: &Types<'t>,
    name: &'t str,
    end: Rest<'t>,
) -> Result<Argument<'t>, AllocError>
    ensures { IfOk result (λ a. parameter_of a ≡
        result_at (known types.now) name.now (left end.entry)) }
{
    match read_result(alloc, types, name, end) {
        Ok(argument) => Ok(argument),
        Err(OrMemory::Fault(stop)) => Ok(unknown(stop.left)),
        Err(OrMemory::Memory) => Err(AllocError),
    }
}

/// The argument of each part, or one that stands for it.
fn arguments_in<'t>(alloc: Global, parts: &[Part<'t>]) -> Result<Vec<Argument<'t>>, AllocError>
    ensures { IfOk result (λ v. map parameter_of v.items ≡
        map parameter_in (map piece_of parts.now)) }
{
    let mut arguments = Vec::new(alloc);
    for part in parts {
        arguments.push(argument_in(part))?;
    }
    Ok(arguments)
}

/// Puts the result of a `function` behind its arguments.
fn push_result<'t>(
    alloc: Global,
    types: &Types<'t>,
    kind: RowKind,
    name: &'t str,
    seen: &Seen<'t>,
    arguments: &mut Vec<Argument<'t>>,
) -> Result<(), AllocError>
    ensures { OnOk result (map parameter_of arguments.new.items ≡
        map parameter_of arguments.old.items
        ++ results_by seen.now.is_opened kind (known types.now) name.now (left seen.now.end)) }
{
    match (seen.is_opened, kind) {
        (true, RowKind::Function) => {
            arguments.push(result_at(alloc, types, name, seen.end)?)?;
        }
        _ => {}
    }
    Ok(())
}

/// All that may carry: an argument for each part, and the result of a `function`.
fn arguments_of<'t>(
    alloc: Global,
    types: &Types<'t>,
    kind: RowKind,
    name: &'t str,
    seen: &Seen<'t>,
) -> Result<Vec<Argument<'t>>, AllocError>
    ensures { IfOk result (λ v. map parameter_of v.items ≡
        parameters_of (known types.now) kind name.now (view_of seen.now)) }
{
    let mut arguments = arguments_in(alloc, &seen.parts)?;
    push_result(alloc, types, kind, name, seen, &mut arguments)?;
    Ok(arguments)
}

/// Puts an argument behind others, if it may carry rights.
fn push_carrier<'t>(
    found: &mut Vec<Carried<'t>>,
    kind: RowKind,
    by: Judges,
    argument: &Argument<'t>,
) -> Result<(), AllocError>
    ensures { OnOk result (map carrier_of found.new.items ≡
        map carrier_of found.old.items ++ carrying kind by (parameter_of argument.now ∷ [])) }
{
    if carries(kind.routine_kind(), by.request, by.reply, argument) {
        found.push(Carried {
            name: argument.name,
            type_name: argument.type_name,
        })?;
    }
    Ok(())
}

/// Those of settled arguments that may carry rights.
fn carrying<'t>(
    alloc: Global,
    kind: RowKind,
    by: Judges,
    settled: &[Argument<'t>],
) -> Result<Vec<Carried<'t>>, AllocError>
    ensures { IfOk result (λ v. map carrier_of v.items ≡
        carrying kind by (map parameter_of settled.now)) }
{
    let mut found = Vec::new(alloc);
    for argument in settled {
        push_carrier(&mut found, kind, by, argument)?;
    }
    Ok(found)
}

/// What a row that is left out may carry, in the order of the text: each argument that may carry
/// rights, each part that cannot be read, and the result of a `function`.
#[tactic(auto, unfolding(crate::specs::Carried::carried_of))]
pub(crate) fn carried_of<'t>(
    alloc: Global,
    types: &Types<'t>,
    kind: RowKind,
    by: Judges,
    name: &'t str,
    seen: &Seen<'t>,
) -> Result<Vec<Carried<'t>>, AllocError>
    ensures { IfOk result (λ v. map carrier_of v.items ≡
        carried_of (known types.now) kind by name.now (view_of seen.now)) }
{
    let arguments = arguments_of(alloc, types, kind, name, seen)?;
    let settled = settled(alloc, &arguments)?;
    drop(arguments);
    let found = carrying(alloc, kind, by, &settled)?;
    drop(settled);
    Ok(found)
}
