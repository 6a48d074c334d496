//! What is printed of MIG files as texts of edition 2.

ghost use Rattle.std.specs.Prelude.{◌≡◌, IfOk, [], string_bytes};
ghost use Rattle.mrc_print.specs.Heads as heads;
ghost use Rattle.mrc_print.specs.Heads.{InText};

use crate::asked::{Asked, format_of};
use crate::notices::CUT_BEFORE;
use mrc_answer::MigText;
use mrc_command::{Format, shown};
use mrc_interface::{Carrier, Forms, LeftOut, Unread, carries, row_name};
use mrc_objects::{
    MigObject, MigSource, mig_object, mig_texts_json, read_count, stop_word, type_name,
};
use std::alloc::{AllocError, Global};

/// An argument that may carry rights: `ARGUMENT (TYPE)`.
fn carrier_text(alloc: Global, carrier: &Carrier) -> Result<String, AllocError> {
    format!(in alloc; "{} ({})", carrier.name, carrier.type_name)
}

/// What a routine may carry: nothing, or a comma and a list.
fn carries_text(alloc: Global, carried: &[Carrier]) -> Result<String, AllocError> {
    if carried.is_empty() {
        return Ok(String::new(alloc));
    }
    let texts: Vec<String> = carried
        .iter()
        .map(|carrier| carrier_text(alloc, carrier))
        .try_collect(alloc)?;
    let list = texts.join(alloc, ", ")?;
    format!(in alloc; ", carries {list}")
}

/// The line of a routine that is left out of a file: its id, the word for which it is, the token at
/// which that is told, and what it may carry.
fn left_line(alloc: Global, source: &MigSource<'_>, left: &LeftOut) -> Result<String, AllocError> {
    let place = source.place(alloc, left.at, left.stop)?;
    let file = shown(alloc, place.file.as_str())?;
    let text = shown(alloc, place.text)?;
    let line = place.line;
    let name = row_name(left);
    let id = left.id;
    let word = left.word.as_str();
    let carries = carries_text(alloc, left.carried.as_slice())?;
    format!(in alloc; "{file}:{line}: routine {name} (id {id}) left out: {word} {text}{carries}\n")
}

/// The line of a type that is not read: the word for which it is not, and the token at which that
/// is told.
fn type_line(alloc: Global, source: &MigSource<'_>, unread: &Unread) -> Result<String, AllocError> {
    let place = source.place(alloc, unread.at, unread.stop.left)?;
    let file = shown(alloc, place.file.as_str())?;
    let text = shown(alloc, place.text)?;
    let line = place.line;
    let name = type_name(unread);
    let word = stop_word(unread.stop.why);
    format!(in alloc; "{file}:{line}: type {name} not read: {word} {text}\n")
}

/// The line of a file that an older `mig` has cut: nothing of another.
fn cut_text(alloc: Global, file: &str, was_cut: bool) -> Result<String, AllocError> {
    if was_cut {
        format!(in alloc; "{file}: {CUT_BEFORE}\n")
    } else {
        Ok(String::new(alloc))
    }
}

/// How many of the routines that are left out may carry rights: nothing of 0.
fn carrying_text(alloc: Global, count: usize) -> Result<String, AllocError> {
    match count {
        0 => Ok(String::new(alloc)),
        1 => String::from_str(alloc, ", 1 of those left out carries rights"),
        count => format!(in alloc; ", {count} of those left out carry rights"),
    }
}

/// How many routines are read of a file, and how many of the others may carry rights.
fn count_line(alloc: Global, file: &str, forms: &Forms) -> Result<String, AllocError> {
    let left_out = forms.left_out.as_slice();
    let read = read_count(forms);
    let routines = read as u128 + left_out.len() as u128;
    let carrying = left_out.iter().filter(|left| carries(left)).count();
    let carrying = carrying_text(alloc, carrying)?;
    format!(in alloc; "{file}: {read} of {routines} routines read{carrying}\n")
}

/// The text of a file, with its places.
fn source_of<'a>(alloc: Global, mig_text: &'a MigText<'_>) -> Result<MigSource<'a>, AllocError> {
    let bytes = mig_text.bytes.as_slice();
    MigSource::new(alloc, mig_text.file, bytes, mig_text.front)
}

/// The object of a file.
fn object_of<'a>(alloc: Global, mig_text: &'a MigText<'_>) -> Result<MigObject<'a>, AllocError> {
    let source = source_of(alloc, mig_text)?;
    mig_object(alloc, mig_text.file, &source, &mig_text.forms)
}

/// What is printed of a file: the types that are not read, the routines that are left out, and how
/// many are read.
fn mig_text_text(alloc: Global, mig_text: &MigText<'_>) -> Result<String, AllocError> {
    let source = source_of(alloc, mig_text)?;
    let forms = &mig_text.forms;
    let types: String = forms
        .unread
        .iter()
        .map(|unread| type_line(alloc, &source, unread))
        .try_collect(alloc)?;
    let rows: String = forms
        .left_out
        .iter()
        .map(|left| left_line(alloc, &source, left))
        .try_collect(alloc)?;
    let file = shown(alloc, mig_text.file)?;
    let cut = cut_text(alloc, file.as_str(), mig_text.was_cut)?;
    let line = count_line(alloc, file.as_str(), forms)?;
    format!(in alloc; "{types}{rows}{cut}{line}")
}

/// What is printed of files, in their order.
pub(crate) fn mig_texts_text(
    alloc: Global,
    mig_texts: &[MigText<'_>],
) -> Result<String, AllocError> {
    mig_texts
        .iter()
        .map(|mig_text| mig_text_text(alloc, mig_text))
        .try_collect(alloc)
}

/// The object of files, and whether they are written.
pub(crate) fn mig_json(
    alloc: Global,
    written: bool,
    mig_texts: &[MigText<'_>],
) -> Result<String, AllocError> {
    let files = mig_texts.iter().map(|mig_text| object_of(alloc, mig_text));
    mig_texts_json(alloc, written, files.try_collect(alloc)?)
}

/// What is printed of MIG files, if all of them are written.
#[derive(Drop)]
pub struct WrittenTexts {
    /// The text for standard output.
    pub out: String,
    /// The text for standard error.
    pub err: String,
}

/// The texts of MIG files as they are printed once all files are written.
pub fn written_texts(
    alloc: Global,
    asked: Asked<'_>,
    mig_texts: &[MigText<'_>],
) -> Result<WrittenTexts, AllocError>
    // For people nothing goes to standard output.
    ensures out { InText (heads.format_of asked.entry)
        (IfOk result (λ texts. string_bytes texts.out ≡ [])) }
{
    let err = mig_texts_text(alloc, mig_texts)?;
    let out = match format_of(asked) {
        Format::Json => mig_json(alloc, true, mig_texts)?,
        Format::Text | Format::Sarif => String::new(alloc),
    };
    Ok(WrittenTexts { out, err })
}
