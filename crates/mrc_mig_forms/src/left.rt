//! The rows that are left out, and the types that are not read, as values of their own.

ghost use Rattle.std.specs.Prelude.{◌≡◌, ◌++◌, [], map, option_map, string_bytes, IfOk, OnOk};
ghost use Rattle.std.specs.List.{cons_option, filter_map};
ghost use Rattle.mrc_mig_rows.specs.Carried.{carrier_of};
ghost use Rattle.mrc_mig_rows.specs.Declarations.{unread_of};
ghost use Rattle.mrc_mig_rows.specs.Rows.{row_of};
ghost use Rattle.mrc_mig_forms.specs.Files.{left_of};

use mrc_mig_rows::{Carried, Content, Row, RowWord, Told, UnreadType};
use mrc_mig_symbols::Stop;
use std::alloc::{AllocError, Global};
use std::marker::Model;

/// An argument that may carry rights.
#[derive(Debug, Drop)]
pub struct Carrier {
    /// Its name, or `?` where it cannot be read.
    pub name: String,
    /// The name of its type, or `?`.
    pub type_name: String,
}

impl Model for Carrier {
    ghost use Rattle.std.specs.Prelude.{string_bytes};
    ghost use Rattle.mrc_mig_rows.specs.Carried as carried;

    ghost Value = { carried.Carrier };

    ghost view = { λ c. record {
      name = string_bytes c.name;
      type_name = string_bytes c.type_name;
    } };
}

/// A routine, a simpleroutine or an old form that is left out.
#[derive(Debug, Drop)]
pub struct LeftOut {
    /// Its name, if it has one.
    pub routine: Option<String>,
    /// Its id, which may be larger than ids can be.
    pub id: u64,
    /// The place of its first token: how many tokens are left there.
    pub at: usize,
    /// Why it is left out.
    pub word: RowWord,
    /// The place where that is told: how many tokens are left there.
    pub stop: usize,
    /// The arguments that may carry rights, in the order of the text.
    pub carried: Vec<Carrier>,
}

impl Model for LeftOut {
    ghost use Rattle.std.specs.Prelude.{option_map, string_bytes};
    ghost use Rattle.mrc_mig_forms.specs.Files as files;

    ghost Value = { files.LeftOut };

    ghost view = { λ l. record {
      routine = option_map string_bytes l.routine;
      id = l.id;
      at = l.at;
      word = l.word;
      stop = l.stop;
      carried = l.carried.items;
    } };
}

/// A `type` statement that is not read.
#[derive(Debug, Drop)]
pub struct Unread {
    /// The name, if it has one.
    pub name: Option<String>,
    /// The place of its first token: how many tokens are left there.
    pub at: usize,
    /// Why it is not read, and where.
    pub stop: Stop,
}

impl Model for Unread {
    ghost use Rattle.std.specs.Prelude.{option_map, string_bytes};
    ghost use Rattle.mrc_mig_rows.specs.Declarations as declarations;

    ghost Value = { declarations.Unread };

    ghost view = { λ u. record {
      name = option_map string_bytes u.name;
      at = u.at;
      stop = u.stop;
    } };
}

/// A name of its own.
fn owned(alloc: Global, name: Option<&str>) -> Result<Option<String>, AllocError>
    ensures { IfOk result (λ text. option_map string_bytes text ≡
        option_map (λ name. name.now) name.entry) }
{
    match name {
        Some(name) => Ok(Some(String::from_str(alloc, name)?)),
        None => Ok(None),
    }
}

/// An argument that may carry rights.
fn carrier_of(alloc: Global, carried: &Carried<'_>) -> Result<Carrier, AllocError>
    ensures { IfOk result (λ carrier. carrier ≡ carrier_of carried.now) }
{
    Ok(Carrier {
        name: String::from_str(alloc, carried.name)?,
        type_name: String::from_str(alloc, carried.type_name)?,
    })
}

/// The arguments that may carry rights.
fn carriers_of(alloc: Global, carried: &[Carried<'_>]) -> Result<Vec<Carrier>, AllocError>
    ensures { IfOk result (λ carriers. carriers.items ≡ map carrier_of carried.now) }
{
    let mut carriers = Vec::new(alloc);
    for argument in carried {
        carriers.push(carrier_of(alloc, argument)?)?;
    }
    Ok(carriers)
}

/// A row for a word.
fn left_by(
    alloc: Global,
    row: &Row<'_>,
    told: Told,
    carried: &[Carried<'_>],
) -> Result<LeftOut, AllocError>
    ensures { IfOk result (λ left. left ≡ record {
      routine = option_map (λ name. name.now) row.now.name;
      id = row.now.id;
      at = row.now.at;
      word = told.word;
      stop = told.at;
      carried = map carrier_of carried.now;
    }) }
{
    Ok(LeftOut {
        routine: owned(alloc, row.name)?,
        id: row.id,
        at: row.at,
        word: told.word,
        stop: told.at,
        carried: carriers_of(alloc, carried)?,
    })
}

/// A row, if it is left out.
fn left_of(alloc: Global, row: &Row<'_>) -> Result<Option<LeftOut>, AllocError>
    ensures { IfOk result (λ left. left ≡ left_of (row_of row.now)) }
{
    match &row.content {
        Content::Read {
            request: _,
            messages: _,
        } => Ok(None),
        Content::LeftOut { told, carried } => {
            Ok(Some(left_by(alloc, row, *told, carried.as_slice())?))
        }
    }
}

/// Puts a row behind others, if it is left out.
fn push_left(alloc: Global, found: &mut Vec<LeftOut>, row: &Row<'_>) -> Result<(), AllocError>
    ensures { OnOk result (found.new.items ≡
        found.old.items ++ cons_option (left_of (row_of row.now)) []) }
{
    if let Some(left) = left_of(alloc, row)? {
        found.push(left)?;
    }
    Ok(())
}

/// The rows that are left out, in the order of the text.
pub(crate) fn left_out_of(alloc: Global, rows: &[Row<'_>]) -> Result<Vec<LeftOut>, AllocError>
    ensures { IfOk result (λ found. found.items ≡ filter_map left_of (map row_of rows.now)) }
{
    let mut found = Vec::new(alloc);
    for row in rows {
        push_left(alloc, &mut found, row)?;
    }
    Ok(found)
}

/// A type that is not read.
fn unread_of(alloc: Global, unread: &UnreadType<'_>) -> Result<Unread, AllocError>
    ensures { IfOk result (λ own. own ≡ unread_of unread.now) }
{
    Ok(Unread {
        name: owned(alloc, unread.name)?,
        at: unread.at,
        stop: unread.stop,
    })
}

/// The types that are not read, in the order of the text.
pub(crate) fn all_unread(alloc: Global, types: &[UnreadType<'_>]) -> Result<Vec<Unread>, AllocError>
    ensures { IfOk result (λ found. found.items ≡ map unread_of types.now) }
{
    let mut found = Vec::new(alloc);
    for unread in types {
        found.push(unread_of(alloc, unread)?)?;
    }
    Ok(found)
}
