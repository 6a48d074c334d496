//! The rows of a file.

ghost use Rattle.std.specs.Prelude.{◌≡◌, option_map, length, IfOk};
ghost use Rattle.mrc_mig_tokens.specs.Reading.{left};
ghost use Rattle.mrc_mig_rows.specs.Names.{names_of};
ghost use Rattle.mrc_mig_rows.specs.Parts.{view_of};
ghost use Rattle.mrc_mig_rows.specs.Readers.{where_of};
ghost use Rattle.mrc_mig_rows.specs.Rows.{name_at, name_told_by, objection_of, judged_at, told_at};
ghost use Rattle.mrc_mig_rows.specs.Rows.{told_of, read_of, outcome_of, outcome_at, row_of, row_at};

use crate::carried::{Carried, Judges, carried_of};
use crate::kinds::RowKind;
use crate::names::TakenNames;
use crate::parts::{Seen, read_before, seen_at};
use crate::words::{RowWord, Told, early_word, first_told, name_word};
use mrc_mig_bodies::{Messages, Objection, Request, first_objection, messages_of, request_of};
use mrc_mig_tokens::{Rest, Symbol};
use mrc_mig_types::Types;
use std::alloc::{AllocError, Global};

/// What becomes of a row.
#[derive(Debug, Drop)]
pub enum Content<'t> {
    /// It is read.
    Read {
        /// What answers its request.
        request: Request,
        /// What its messages have.
        messages: Messages<'t>,
    },
    /// It is left out.
    LeftOut {
        /// The word for which it is, and where that is told.
        told: Told,
        /// What it may carry.
        carried: Vec<Carried<'t>>,
    },
}

/// A routine, a simpleroutine or an old form.
#[derive(Debug, Drop)]
pub struct Row<'t> {
    /// Its name, if it has one.
    pub name: Option<&'t str>,
    /// Its id, which may be larger than ids can be.
    pub id: u64,
    /// The place of its first token: how many tokens are left there.
    pub at: usize,
    /// What becomes of it.
    pub content: Content<'t>,
}

/// What a file knows where a row stands.
#[derive(Clone, Copy)]
pub(crate) struct Context<'f, 't> {
    /// The types.
    pub(crate) types: &'f Types<'t>,
    /// The names of earlier rows.
    pub(crate) names: &'f TakenNames<'t>,
    /// By which type numbers requests and replies are judged.
    pub(crate) by: Judges,
    /// How many ids are taken.
    pub(crate) taken: u64,
    /// The id that comes next.
    pub(crate) id: u64,
}

/// The name at the front, where one stands there.
#[tactic(auto, unfolding(crate::specs::Rows::name_at))]
pub(crate) fn name_at(rest: Rest<'_>) -> Option<&str>
    ensures { option_map (λ name. name.now) result ≡ name_at (left rest.entry) }
{
    match rest.first() {
        Symbol::Name => Some(rest.text()),
        _ => None,
    }
}

/// A word at a place, where there is one.
fn told_at(word: Option<RowWord>, at: usize) -> Option<Told>
    ensures { result ≡ told_at word at }
{
    match word {
        Some(word) => Some(Told { word, at }),
        None => None,
    }
}

/// The word for which a row is left out by its name, and the name's place.
fn name_told(names: &TakenNames<'_>, rest: Rest<'_>) -> Option<Told>
    ensures { result ≡
        name_told_by (names_of names.now) (name_at (left rest.entry)) (length (left rest.entry)) }
{
    match name_at(rest) {
        Some(name) => told_at(name_word(names.contains(name), name), rest.len()),
        None => None,
    }
}

/// What objects to the arguments that can be read, first.
#[tactic(auto, using(crate::proofs::FirstLemmas::first_is), unfolding(crate::specs::Rows::objection_of))]
fn objection_of(
    alloc: Global,
    kind: RowKind,
    by: Judges,
    seen: &Seen<'_>,
) -> Result<Option<Objection>, AllocError>
    ensures { IfOk result (λ found. found ≡ objection_of kind by (view_of seen.now)) }
{
    let arguments = read_before(alloc, &seen.parts)?;
    let end_at = seen.end.len();
    let found = first_objection(alloc, kind.routine_kind(), by.request, end_at, &arguments)?;
    drop(arguments);
    Ok(found)
}

/// The word for which a row is left out by what stands behind its word.
#[tactic(auto, unfolding(crate::specs::Rows::judged_at))]
fn judged_at<'t>(
    alloc: Global,
    context: &Context<'_, 't>,
    kind: RowKind,
    rest: Rest<'t>,
    seen: &Seen<'t>,
) -> Result<Option<Told>, AllocError>
    ensures { IfOk result (λ found. found ≡
        judged_at (where_of context.now) kind (left rest.entry) (view_of seen.now)) }
{
    if let Some(told) = name_told(context.names, rest) {
        return Ok(Some(told));
    }
    let objection = objection_of(alloc, kind, context.by, seen)?;
    Ok(first_told(seen.stop(), objection))
}

/// The word for which a row is left out, and where it is told.
#[tactic(auto, unfolding(crate::specs::Rows::told_of))]
fn told_of<'t>(
    alloc: Global,
    context: &Context<'_, 't>,
    kind: RowKind,
    rest: Rest<'t>,
    seen: &Seen<'t>,
) -> Result<Option<Told>, AllocError>
    ensures { IfOk result (λ found. found ≡
        told_of (where_of context.now) kind (left rest.entry) (view_of seen.now)) }
{
    match early_word(kind, context.taken, context.id) {
        Some(word) => Ok(Some(Told {
            word,
            at: rest.len(),
        })),
        None => judged_at(alloc, context, kind, rest.next(), seen),
    }
}

/// What is read of a row to which nothing objects.
#[tactic(auto, unfolding(crate::specs::Rows::read_of))]
fn read_of<'t>(
    alloc: Global,
    by: Judges,
    kind: RowKind,
    seen: &Seen<'t>,
) -> Result<Content<'t>, AllocError>
    ensures { IfOk result (λ content. outcome_of content ≡ read_of by kind (view_of seen.now)) }
{
    let arguments = read_before(alloc, &seen.parts)?;
    let kind = kind.routine_kind();
    let request = request_of(kind, &arguments);
    let messages = messages_of(alloc, kind, by.request, by.reply, &arguments)?;
    drop(arguments);
    Ok(Content::Read { request, messages })
}

/// What becomes of a row.
#[tactic(auto, unfolding(crate::specs::Rows::outcome_at))]
fn content_at<'t>(
    alloc: Global,
    context: &Context<'_, 't>,
    kind: RowKind,
    rest: Rest<'t>,
    seen: &Seen<'t>,
) -> Result<Content<'t>, AllocError>
    ensures { IfOk result (λ content. outcome_of content ≡
        outcome_at (where_of context.now) kind (left rest.entry) (view_of seen.now)) }
{
    match told_of(alloc, context, kind, rest, seen)? {
        None => read_of(alloc, context.by, kind, seen),
        Some(told) => {
            let name = rest.next().text();
            let carried = carried_of(alloc, context.types, kind, context.by, name, seen)?;
            Ok(Content::LeftOut { told, carried })
        }
    }
}

/// Reads the row at the front.
#[tactic(auto, unfolding(crate::specs::Rows::row_at))]
pub(crate) fn row_at<'t>(
    alloc: Global,
    context: &Context<'_, 't>,
    kind: RowKind,
    rest: Rest<'t>,
) -> Result<Row<'t>, AllocError>
    ensures { IfOk result (λ row. row_of row ≡
        row_at (where_of context.now) kind (left rest.entry)) }
{
    let seen = seen_at(alloc, context.types, rest.next())?;
    let content = content_at(alloc, context, kind, rest, &seen)?;
    drop(seen);
    Ok(Row {
        name: name_at(rest.next()),
        id: context.id,
        at: rest.len(),
        content,
    })
}
