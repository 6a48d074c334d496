//! What a file of edition 2 has, by ids.

ghost use Rattle.std.specs.Prelude.{◌≡◌, IfOk};
ghost use Rattle.mrc_base.specs.Reading.{Gives};
ghost use Rattle.mrc_mig_rows.specs.Readers.{file_of};
ghost use Rattle.mrc_mig_forms.specs.Files.{forms_in, forms_of, table_of, IsSaid};

use crate::left::{LeftOut, Unread, all_unread, left_out_of};
use crate::table::rows_of;
use mrc_base::OrMemory;
use mrc_forms::Interface;
use mrc_mig_rows::{File, read_rows};
use mrc_mig_symbols::Stop;
use mrc_mig_tokens::Tokens;
use std::alloc::{AllocError, Global};
use std::marker::Model;

/// What a file has.
#[derive(Debug, Drop)]
pub struct Forms {
    /// The forms of the rows that are read, by their ids.
    pub interface: Interface,
    /// The rows that are left out, in the order of the text.
    pub left_out: Vec<LeftOut>,
    /// The types that are not read, in the order of the text.
    pub unread: Vec<Unread>,
}

impl Model for Forms {
    ghost use Rattle.mrc_mig_forms.specs.Files.{FormsSay};

    ghost Value = { FormsSay };

    ghost view = { λ f. record {
      table = f.interface;
      left_out = f.left_out.items;
      unread = f.unread.items;
    } };
}

/// The table of a file.
fn table_of(alloc: Global, file: &File<'_>) -> Result<Interface, AllocError>
    requires { IsSaid (file_of file.now) }
    ensures { IfOk result (λ table. table ≡ table_of (file_of file.now)) }
{
    let heading = file.heading;
    let rows = rows_of(alloc, heading.base, file.ids as usize, file.rows.as_slice())?;
    let name = String::from_str(alloc, heading.name)?;
    Ok(Interface::new(name, heading.base, rows))
}

/// The forms of a file that was read, by their ids, and with them the rows that are left out and
/// the types that are not read, in the order of the text.
pub fn forms_of(alloc: Global, file: &File<'_>) -> Result<Forms, AllocError>
    requires { IsSaid (file_of file.now) }
    ensures { IfOk result (λ forms. forms ≡ forms_of (file_of file.now)) }
{
    let interface = table_of(alloc, file)?;
    let left_out = left_out_of(alloc, file.rows.as_slice())?;
    let unread = all_unread(alloc, file.unread.as_slice())?;
    Ok(Forms {
        interface,
        left_out,
        unread,
    })
}

/// Reads the tokens of a MIG file of edition 2: its forms, or the first fault of the file.
/// `received` says that the text is of edition 2 as received.
pub fn read_forms(
    alloc: Global,
    tokens: &Tokens<'_>,
    received: bool,
) -> Result<Forms, OrMemory<Stop>>
    ensures fault { Gives (λ forms. forms) result (forms_in received tokens.now.tokens) }
{
    let file = read_rows(alloc, tokens, received)?;
    let forms = forms_of(alloc, &file)?;
    drop(file);
    Ok(forms)
}
