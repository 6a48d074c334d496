//! The forms of MIG texts of the second edition, and the rows that are left out.

use crate::forms::{head_text, put_forms};
use crate::wide::lexed;
use anyhow::{Result, bail};
use mrc_base::OrMemory;
use mrc_mig_forms::{Forms, LeftOut, Unread, read_forms};
use mrc_mig_rows::place_of;
use mrc_mig_symbols::{Stop, StopReason};
use mrc_mig_tokens::{Edition, Tokens, edition_of};
use std::alloc::{AllocError, Global};
use std::fmt::Write;

/// Why reading stops, and where.
fn put_stop(out: &mut String, tokens: &Tokens<'_>, stop: Stop) -> Result<(), AllocError> {
    let at = place_of(tokens, stop.left);
    match stop.why {
        StopReason::Unexpected => write!(out, "Unexpected {at}"),
        StopReason::LeftOut(feature) => write!(out, "LeftOut {at} {feature}"),
        StopReason::UnknownType => write!(out, "UnknownType {at}"),
        StopReason::TwiceNamed => write!(out, "TwiceNamed {at}"),
        StopReason::NoRequestPort => write!(out, "NoRequestPort {at}"),
        StopReason::TooMany => write!(out, "TooMany {at}"),
    }
}

/// A name, or `?` for none.
fn name_text(name: &Option<String>) -> &str {
    match name {
        Some(name) => name.as_str(),
        None => "?",
    }
}

/// A row that is left out: its name, its word and where, and what it may carry.
fn put_left(out: &mut String, tokens: &Tokens<'_>, left: &LeftOut) -> Result<(), AllocError> {
    let name = name_text(&left.routine);
    let word = left.word.as_str();
    let at = place_of(tokens, left.stop);
    write!(out, "; left {} {name} {word} {at}", left.id)?;
    for carrier in &left.carried {
        write!(
            out,
            " {}:{}",
            carrier.name.as_str(),
            carrier.type_name.as_str()
        )?;
    }
    Ok(())
}

/// The row that is left out first, if it has this id; and those that are left.
fn put_left_at<'l>(
    out: &mut String,
    tokens: &Tokens<'_>,
    left_out: &'l [LeftOut],
    id: u64,
) -> Result<&'l [LeftOut], AllocError> {
    match left_out {
        [left, behind @ ..] if left.id == id => {
            put_left(out, tokens, left)?;
            Ok(behind)
        }
        _ => Ok(left_out),
    }
}

/// The rows that are left out.
fn put_all_left(
    out: &mut String,
    tokens: &Tokens<'_>,
    left_out: &[LeftOut],
) -> Result<(), AllocError> {
    for left in left_out {
        put_left(out, tokens, left)?;
    }
    Ok(())
}

/// The rows by their ids, those behind the last id at the end.
fn put_rows(out: &mut String, tokens: &Tokens<'_>, forms: &Forms) -> Result<(), AllocError> {
    let (base, count) = forms.interface.ids();
    let mut left_out = forms.left_out.as_slice();
    let mut id = base;
    for _ in 0..count {
        put_forms(out, &forms.interface, id)?;
        left_out = put_left_at(out, tokens, left_out, u64::from(id))?;
        id = id.wrapping_add(1);
    }
    put_all_left(out, tokens, left_out)
}

/// A type that is not read, and why.
fn put_unread(out: &mut String, tokens: &Tokens<'_>, unread: &Unread) -> Result<(), AllocError> {
    write!(out, "; type {} ", name_text(&unread.name))?;
    put_stop(out, tokens, unread.stop)
}

/// The subsystem with its first id and how many it takes, its rows, and the types that are not
/// read.
fn table_text(alloc: Global, tokens: &Tokens<'_>, forms: &Forms) -> Result<String, AllocError> {
    let mut out = head_text(alloc, &forms.interface)?;
    put_rows(&mut out, tokens, forms)?;
    for unread in &forms.unread {
        put_unread(&mut out, tokens, unread)?;
    }
    Ok(out)
}

/// The forms and the rows of a text.
pub(crate) fn forms(alloc: Global, text: &str) -> Result<String> {
    let tokens = lexed(alloc, text)?;
    let received = edition_of(text) == Edition::Received;
    match read_forms(alloc, &tokens, received) {
        Ok(forms) => Ok(table_text(alloc, &tokens, &forms)?),
        Err(OrMemory::Fault(stop)) => {
            let mut out = String::new(alloc);
            put_stop(&mut out, &tokens, stop)?;
            Ok(out)
        }
        Err(OrMemory::Memory) => bail!("Memory"),
    }
}
