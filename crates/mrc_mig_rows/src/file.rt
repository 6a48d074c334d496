//! The statements of a file.

ghost use Rattle.std.specs.Prelude.{◌≡◌, ◌++◌, ◌∷◌, [], min, option_map, OnOk, length};
ghost use Rattle.mrc_base.specs.Reading.{Gives};
ghost use Rattle.mrc_mig_symbols.specs.Symbols.{Answers};
ghost use Rattle.mrc_mig_tokens.specs.Reading.{left, many};
ghost use Rattle.mrc_mig_rows.specs.Files.{State, sum_of_ids, judges, with_heading, with_skip};
ghost use Rattle.mrc_mig_rows.specs.Files.{with_type, names_with, behind_row, with_row};
ghost use Rattle.mrc_mig_rows.specs.Files.{statement_by, one_at, goes_on, statements_at, file_by};
ghost use Rattle.mrc_mig_rows.specs.Files.{nothing_said, file_at};
ghost use Rattle.mrc_mig_rows.specs.Headings.{subsystem_of};
ghost use Rattle.mrc_mig_rows.specs.Names.{names_of};
ghost use Rattle.mrc_mig_rows.specs.Readers.{state_of, file_of};

use crate::carried::Judges;
use crate::declarations::{UnreadType, declaration};
use crate::ends::statement_end;
use crate::headings::{Heading, heading_at, skip_at};
use crate::kinds::{RowKind, StatementKind, statement_kind};
use crate::names::TakenNames;
use crate::rows::{Context, Row, name_at, row_at};
use crate::words::IDS;
use mrc_base::OrMemory;
use mrc_mig_symbols::{Stop, StopReason, stop_at};
use mrc_mig_tokens::{Rest, Symbol, Tokens};
use mrc_mig_types::{By, Types};
use std::alloc::{AllocError, Global};

/// What a file of edition 2 has.
#[derive(Debug, Drop)]
pub struct File<'t> {
    /// The subsystem.
    pub heading: Heading<'t>,
    /// How many ids it takes, those that are skipped counted: 1,000 at most.
    pub ids: u64,
    /// Its routines, simpleroutines and old forms, in the order of the text.
    pub rows: Vec<Row<'t>>,
    /// The `type` statements that are not read, in the order of the text.
    pub unread: Vec<UnreadType<'t>>,
}

/// What the statements so far say.
#[derive(Drop)]
struct Statements<'t> {
    types: Types<'t>,
    heading: Option<Heading<'t>>,
    /// How many ids are taken.
    taken: u64,
    /// The names of the rows.
    names: TakenNames<'t>,
    rows: Vec<Row<'t>>,
    unread: Vec<UnreadType<'t>>,
}

impl<'t> Statements<'t> {
    /// Nothing.
    fn new(alloc: Global) -> Statements<'t>
        ensures { state_of result ≡ nothing_said }
    {
        Statements {
            types: Types::new(alloc),
            heading: None,
            taken: 0,
            names: TakenNames::new(alloc),
            rows: Vec::new(alloc),
            unread: Vec::new(alloc),
        }
    }
}

/// By which type numbers the messages of a subsystem are judged.
fn judges(received: bool, is_kernel_server: bool) -> Judges
    ensures { result ≡ judges received is_kernel_server }
{
    match (received, is_kernel_server) {
        (true, true) => Judges {
            request: By::Picked,
            reply: By::PickedReceived,
        },
        (true, false) => Judges {
            request: By::Picked,
            reply: By::Picked,
        },
        (false, true) => Judges {
            request: By::Sent,
            reply: By::Received,
        },
        (false, false) => Judges {
            request: By::Sent,
            reply: By::Sent,
        },
    }
}

/// Reads a `subsystem` statement. A second one is Unexpected.
fn add_heading<'t>(said: &mut Statements<'t>, rest: Rest<'t>) -> Result<(), Stop>
    ensures { Answers (λ _. state_of said.new) result
        (with_heading (state_of said.old).heading (state_of said.old) (left rest.entry)) }
{
    match said.heading {
        Some(_) => Err(rest.unexpected()),
        None => {
            said.heading = Some(heading_at(rest.next())?);
            Ok(())
        }
    }
}

/// Reads a `skip`. Before the subsystem it is Unexpected.
fn add_skip<'t>(said: &mut Statements<'t>, rest: Rest<'t>) -> Result<(), Stop>
    ensures { Answers (λ _. state_of said.new) result
        (with_skip (state_of said.old).heading (state_of said.old) (left rest.entry)) }
{
    match said.heading {
        None => Err(rest.unexpected()),
        Some(_) => {
            let count = skip_at(rest.next())?;
            said.taken = said.taken.saturating_add(u64::from(count));
            Ok(())
        }
    }
}

/// Reads a `type` statement.
fn add_type<'t>(
    alloc: Global,
    said: &mut Statements<'t>,
    rest: Rest<'t>,
) -> Result<(), OrMemory<Stop>>
    ensures { Gives (λ _. state_of said.new) result
        (with_type (state_of said.old) (left rest.entry)) }
{
    match declaration(alloc, &mut said.types, rest)? {
        Some(unread) => {
            said.unread.push(unread)?;
            Ok(())
        }
        None => Ok(()),
    }
}

/// Takes a row's name, where it has one.
fn take_name<'t>(names: &mut TakenNames<'t>, name: Option<&'t str>) -> Result<(), AllocError>
    ensures { OnOk result (names_of names.new ≡
        names_with (names_of names.old) (option_map (λ name. name.now) name.entry)) }
{
    match name {
        Some(name) => names.insert(name),
        None => Ok(()),
    }
}

/// Reads a row of this subsystem.
fn push_row<'t>(
    alloc: Global,
    said: &mut Statements<'t>,
    heading: Heading<'t>,
    received: bool,
    kind: RowKind,
    rest: Rest<'t>,
) -> Result<(), AllocError>
    ensures { OnOk result (state_of said.new ≡
        behind_row (subsystem_of heading.entry) received (state_of said.old) kind
        (left rest.entry)) }
{
    let context = Context {
        types: &said.types,
        names: &said.names,
        by: judges(received, heading.is_kernel_server),
        taken: said.taken,
        id: u64::from(heading.base).saturating_add(said.taken),
    };
    let row = row_at(alloc, &context, kind, rest)?;
    said.rows.push(row)?;
    said.taken = said.taken.saturating_add(1);
    take_name(&mut said.names, name_at(rest.next()))
}

/// Reads a row. Before the subsystem it is Unexpected.
fn add_row<'t>(
    alloc: Global,
    said: &mut Statements<'t>,
    received: bool,
    kind: RowKind,
    rest: Rest<'t>,
) -> Result<(), OrMemory<Stop>>
    ensures { Gives (λ _. state_of said.new) result
        (with_row (state_of said.old).heading received (state_of said.old) kind
        (left rest.entry)) }
{
    match said.heading {
        None => Err(OrMemory::Fault(rest.unexpected())),
        Some(heading) => Ok(push_row(alloc, said, heading, received, kind, rest)?),
    }
}

/// Reads a statement of this kind.
fn statement<'t>(
    alloc: Global,
    said: &mut Statements<'t>,
    received: bool,
    kind: Option<StatementKind>,
    rest: Rest<'t>,
) -> Result<(), OrMemory<Stop>>
    ensures { Gives (λ _. state_of said.new) result
        (statement_by kind received (state_of said.old) (left rest.entry)) }
{
    match kind {
        None => Err(OrMemory::Fault(rest.unexpected())),
        Some(StatementKind::Subsystem) => Ok(add_heading(said, rest)?),
        Some(StatementKind::Type) => add_type(alloc, said, rest),
        Some(StatementKind::Row(kind)) => add_row(alloc, said, received, kind, rest),
        Some(StatementKind::Skip) => Ok(add_skip(said, rest)?),
        Some(StatementKind::Passed) => Ok(()),
    }
}

/// Reads the include line or the statement at the front, and gives what is left behind it.
#[tactic(auto, unfolding(crate::specs::Files::one_at))]
fn one<'t>(
    alloc: Global,
    said: &mut Statements<'t>,
    received: bool,
    rest: Rest<'t>,
) -> Result<Rest<'t>, OrMemory<Stop>>
    ensures { Gives (λ x. (state_of said.new, left x)) result
        (one_at received (state_of said.old, left rest.entry)) }
{
    match rest.first() {
        Symbol::Include => {
            said.types.include();
            Ok(rest.next())
        }
        _ => {
            let behind = statement_end(rest)?;
            statement(alloc, said, received, statement_kind(rest), rest)?;
            Ok(behind)
        }
    }
}

/// Whether another statement follows.
#[tactic(auto, unfolding(crate::specs::Files::goes_on))]
fn goes_on(rest: Rest<'_>) -> bool
    ensures { (state : State) → result ≡ goes_on (state, left rest.entry) }
{
    !rest.is_empty()
}

/// Reads the statements, up to the end.
#[tactic(auto, using(mrc_mig_tokens::proofs::LoopLemmas::many_ends, mrc_mig_tokens::proofs::LoopLemmas::many_goes_on, mrc_mig_tokens::proofs::LoopLemmas::many_done))]
fn each_statement<'t>(
    alloc: Global,
    said: &mut Statements<'t>,
    received: bool,
    rest: Rest<'t>,
) -> Result<Rest<'t>, OrMemory<Stop>>
    ensures { Gives (λ x. (state_of said.new, left x)) result
        (many goes_on (one_at received) (length (left rest.entry))
        (state_of said.old, left rest.entry)) }
{
    let mut rest = rest;
    let count = rest.len();
    for _ in 0..count {
        if !goes_on(rest) {
            return Ok(rest);
        }
        rest = one(alloc, said, received, rest)?;
    }
    Ok(rest)
}

/// What a file has, by what its statements say: it has a subsystem.
fn file_of<'t>(said: Statements<'t>) -> Result<File<'t>, Stop>
    ensures { Answers file_of result (file_by (state_of said.entry).heading (state_of said.entry)) }
{
    let Statements {
        types,
        heading,
        taken,
        names,
        rows,
        unread,
    } = said;
    drop(types);
    drop(names);
    match heading {
        Some(heading) => Ok(File {
            heading,
            ids: taken.min(IDS),
            rows,
            unread,
        }),
        None => {
            drop(rows);
            drop(unread);
            Err(stop_at(StopReason::Unexpected, 0))
        }
    }
}

/// The rows of the tokens of a MIG file of edition 2, or the first fault of the file.
///
/// A routine that cannot be read is no fault: it is left out for a word, and takes its id. A `type`
/// statement that cannot be read declares an unknown type. `received` says that the text is of
/// edition 2 as received: each right may be sent in each way that gives what is received.
///
/// The faults of a file are a line of the preprocessor, a statement that does not end, a first
/// token with which no statement begins, a `subsystem` or a `skip` of another form, a second or a
/// missing `subsystem`, a row before it, a long name of it, and a second `type` statement of a
/// name.
#[tactic(auto, unfolding(crate::specs::Files::file_at, crate::specs::Files::statements_at))]
pub fn read_rows<'t>(
    alloc: Global,
    tokens: &'t Tokens<'t>,
    received: bool,
) -> Result<File<'t>, OrMemory<Stop>>
    ensures fault { Gives file_of result (file_at received tokens.now.tokens) }
{
    let mut said = Statements::new(alloc);
    each_statement(alloc, &mut said, received, Rest::new(tokens))?;
    Ok(file_of(said)?)
}
