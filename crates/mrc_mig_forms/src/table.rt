//! The forms of a file by their ids.

ghost use Rattle.std.specs.Prelude.{◌≡◌, ◌≤◌, ℕ, [], length, map, All, IfOk, OnOk};
ghost use Rattle.std.specs.List.{range_with_len};
ghost use Rattle.mrc_base.specs.Limits.{limit_of_number};
ghost use Rattle.mrc_mig_bodies.specs.Bodies.{item_of};
ghost use Rattle.mrc_mig_rows.specs.Rows.{row_of, IsRead};
ghost use Rattle.mrc_mig_forms.specs.Bounds.{BodyFits, RowFits};
ghost use Rattle.mrc_mig_forms.specs.Files.{forms_at, forms_by, kind_of, reply_of};
ghost use Rattle.mrc_mig_forms.specs.Puts.{put};

use crate::form::form_of;
use mrc_forms::{Form, FormKind, REPLY, RequestKind, Row};
use mrc_mig_bodies::{Entry, Messages, Request};
use mrc_mig_rows::{Content, Row as Statement};
use std::alloc::{AllocError, Global};
use std::mem::replace;

/// What answers a request, as forms have it.
fn kind_of(request: Request) -> RequestKind
    ensures { result ≡ kind_of request }
{
    match request {
        Request::Routine => RequestKind::Routine,
        Request::Simple => RequestKind::Simple,
        Request::Replied => RequestKind::Replied,
    }
}

/// The form of a reply, if the request has one of its own.
fn reply_of(
    alloc: Global,
    request: Request,
    name: &str,
    id: u32,
    entries: &[Entry<'_>],
) -> Result<Option<Form>, AllocError>
    requires within { id ≤ limit_of_number }
    requires fits { BodyFits (map item_of entries.now) }
    ensures { IfOk result (λ form. form ≡
        reply_of request name.now id (map item_of entries.now)) }
{
    match request {
        Request::Routine => {
            let form = form_of(alloc, name, id + REPLY, FormKind::Reply, entries)?;
            Ok(Some(form))
        }
        Request::Simple | Request::Replied => Ok(None),
    }
}

/// The forms of a routine that is read and takes this id.
fn forms_of(
    alloc: Global,
    name: &str,
    id: u32,
    request: Request,
    messages: &Messages<'_>,
) -> Result<Row, AllocError>
    requires within { id ≤ limit_of_number }
    requires asks { BodyFits (map item_of messages.now.request.items) }
    requires replies { BodyFits (map item_of messages.now.reply.items) }
    ensures { IfOk result (λ row. row ≡ forms_by name.now id (IsRead request
        (map item_of messages.now.request.items) (map item_of messages.now.reply.items))) }
{
    let kind = FormKind::Request(kind_of(request));
    let form = form_of(alloc, name, id, kind, messages.request.as_slice())?;
    let reply = reply_of(alloc, request, name, id, messages.reply.as_slice())?;
    Ok(Row {
        request: Some(form),
        reply,
    })
}

/// So many ids at which nothing stands.
fn no_rows(alloc: Global, count: usize) -> Result<Vec<Row>, AllocError>
    ensures { IfOk result (λ rows. (base : ℕ) → rows.items ≡
        map (λ id. forms_at id []) (range_with_len base count)) }
{
    let mut rows = Vec::new(alloc);
    for _ in 0..count {
        rows.push(Row {
            request: None,
            reply: None,
        })?;
    }
    Ok(rows)
}

/// Puts the forms of a statement at its id, if it is read.
fn put(
    alloc: Global,
    base: u32,
    rows: &mut Vec<Row>,
    statement: &Statement<'_>,
) -> Result<(), AllocError>
    requires { RowFits base (length rows.old.items) (row_of statement.now) }
    ensures { OnOk result (rows.new.items ≡ put base rows.old.items (row_of statement.now)) }
{
    match &statement.content {
        Content::Read { request, messages } => {
            let id = statement.id as u32;
            let name = statement.name.unwrap_or("");
            let row = forms_of(alloc, name, id, *request, messages)?;
            drop(replace(&mut rows[(id - base) as usize], row));
            Ok(())
        }
        Content::LeftOut {
            told: _,
            carried: _,
        } => Ok(()),
    }
}

/// What stands at each of so many ids from this one on.
pub(crate) fn rows_of(
    alloc: Global,
    base: u32,
    count: usize,
    statements: &[Statement<'_>],
) -> Result<Vec<Row>, AllocError>
    requires { All (RowFits base count) (map row_of statements.now) }
    ensures { IfOk result (λ rows. rows.items ≡
        map (λ id. forms_at id (map row_of statements.now)) (range_with_len base count)) }
{
    let mut rows = no_rows(alloc, count)?;
    for statement in statements {
        put(alloc, base, &mut rows, statement)?;
    }
    Ok(rows)
}
