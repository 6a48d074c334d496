//! MIG files as texts of edition 2, and whether enough is read of them.

ghost use Rattle.std.specs.Prelude.{◌≡◌, IfOk, IfErr, length, map};
ghost use Rattle.std.specs.List.{list_any};
ghost use Rattle.mrc_base.specs.Reading.{UnlessMemory};
ghost use Rattle.mrc_answer.specs.MigTexts.{IsMigTextOf, IsNoMig, AreMigTexts, IsFirstNoMigText};
ghost use Rattle.mrc_answer.specs.MigTexts.{has_request, has_routine, has_left_out, has_carrying};
ghost use Rattle.mrc_answer.specs.MigTexts.{is_forbidden, are_written};
ghost use Rattle.mrc_interface.specs.Left.{carries};

use crate::answers::MigText;
use crate::faults::NoMigText;
use mrc_base::OrMemory;
use mrc_command::Strictness;
use mrc_forms::{MessageKind, Row};
use mrc_interface::{LeftOut, carries, in_second, is_old_cut, read_defs};
use std::alloc::Global;

/// A file's text as one of edition 2, and what that says.
fn mig_text_of<'a>(
    alloc: Global,
    file: &'a str,
    received: bool,
    text: &[u8],
) -> Result<MigText<'a>, OrMemory<NoMigText<'a>>>
    ensures named { IfOk result (λ mig_text. mig_text.file.now ≡ file.now) }
    ensures is { IfOk result (IsMigTextOf received text.now) }
    ensures file { IfErr result (UnlessMemory (λ no_text. no_text.file.now ≡ file.now)) }
    ensures none { IfErr result (UnlessMemory (λ _. IsNoMig received text.now)) }
{
    let bytes = in_second(alloc, text, received)?;
    let front = bytes.len().saturating_sub(text.len());
    let was_cut = is_old_cut(alloc, text)?;
    match read_defs(alloc, bytes.as_slice()) {
        Ok(forms) => Ok(MigText {
            file,
            bytes,
            front,
            was_cut,
            forms,
        }),
        Err(OrMemory::Fault(fault)) => {
            let fault = fault.earlier(front);
            Err(OrMemory::Fault(NoMigText { file, fault }))
        }
        Err(OrMemory::Memory) => Err(OrMemory::Memory),
    }
}

/// The texts of files as those of edition 2, in their order, or the first that is no MIG file. There
/// is a text for each file.
pub(crate) fn mig_texts_of<'a>(
    alloc: Global,
    files: &[&'a str],
    received: bool,
    texts: &[Vec<u8>],
) -> Result<Vec<MigText<'a>>, OrMemory<NoMigText<'a>>>
    requires { length files.now ≡ length texts.now }
    ensures are { IfOk result (λ mig_texts. AreMigTexts received
        (map (λ file. file.now) files.now) (map (λ text. text.items) texts.now)
        mig_texts.items) }
    ensures first { IfErr result (UnlessMemory (λ no_text. IsFirstNoMigText received
        (map (λ file. file.now) files.now) (map (λ text. text.items) texts.now)
        no_text.file.now)) }
{
    let mut mig_texts = Vec::new(alloc);
    for place in 0..files.len() {
        let mig_text = mig_text_of(alloc, files[place], received, texts[place].as_slice())?;
        mig_texts.push(mig_text)?;
    }
    Ok(mig_texts)
}

/// Whether a request stands at an id.
fn has_request(row: &Row) -> bool
    ensures { result ≡ has_request row.now }
{
    row.form(MessageKind::Request).is_some()
}

/// Whether one of these rows has a request.
fn some_request(rows: &[Row]) -> bool
    ensures { result ≡ list_any has_request rows.now }
{
    for row in rows {
        if has_request(row) {
            return true;
        }
    }
    false
}

/// Whether a routine is read of a file.
fn has_routine(mig_text: &MigText<'_>) -> bool
    ensures { result ≡ has_routine mig_text.now }
{
    some_request(mig_text.forms.interface.rows())
}

/// Whether a routine is left out of a file, or was before.
fn has_left_out(mig_text: &MigText<'_>) -> bool
    ensures { result ≡ has_left_out mig_text.now }
{
    !mig_text.forms.left_out.is_empty() || mig_text.was_cut
}

/// Whether one of these routines may carry rights.
fn some_carries(left_out: &[LeftOut]) -> bool
    ensures { result ≡ list_any carries left_out.now }
{
    for left in left_out {
        if carries(left) {
            return true;
        }
    }
    false
}

/// Whether a routine that may carry rights is left out of a file, or may have been before.
fn has_carrying(mig_text: &MigText<'_>) -> bool
    ensures { result ≡ has_carrying mig_text.now }
{
    some_carries(mig_text.forms.left_out.as_slice()) || mig_text.was_cut
}

/// Whether nothing is written because of a file.
fn is_forbidden(strict: Strictness, mig_text: &MigText<'_>) -> bool
    ensures { result ≡ is_forbidden strict mig_text.now }
{
    match strict {
        Strictness::None => false,
        Strictness::Rights => has_carrying(mig_text),
        Strictness::All => has_left_out(mig_text),
    }
}

/// Whether a routine is read of one of the files.
fn have_routine(mig_texts: &[MigText<'_>]) -> bool
    ensures { result ≡ list_any has_routine mig_texts.now }
{
    mig_texts.iter().any(|mig_text| has_routine(mig_text))
}

/// Whether nothing is written because of one of the files.
fn are_forbidden(strict: Strictness, mig_texts: &[MigText<'_>]) -> bool
    ensures { result ≡ list_any (is_forbidden strict) mig_texts.now }
{
    for mig_text in mig_texts {
        if is_forbidden(strict, mig_text) {
            return true;
        }
    }
    false
}

/// Whether files are written: a routine is read of one of them, and because of none is it
/// forbidden.
pub(crate) fn are_written(strict: Strictness, mig_texts: &[MigText<'_>]) -> bool
    ensures { result ≡ are_written strict mig_texts.now }
{
    have_routine(mig_texts) && !are_forbidden(strict, mig_texts)
}
