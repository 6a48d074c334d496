//! What is read of MIG files as texts of edition 2, as objects.

use crate::json::json_text;
use crate::mig_places::MigSource;
use mrc_forms::MessageKind;
use mrc_interface::{Carrier, Forms, LeftOut, Unread, row_name};
use mrc_mig_symbols::StopReason;
use serde::Serialize;
use std::alloc::{AllocError, Global};

/// The number of the shape of the objects of `mig`.
const MIG_SCHEMA: u32 = 2;

/// What stands for the name of a type that has none.
const NAMELESS: &str = "?";

/// An argument that may carry rights.
#[derive(Clone, Copy, Serialize)]
struct ArgumentObject<'a> {
    argument: &'a str,
    #[serde(rename = "type")]
    type_name: &'a str,
}

/// A routine that is left out.
#[derive(Drop, Serialize)]
struct RoutineObject<'a> {
    carries: Vec<ArgumentObject<'a>>,
    file: String,
    id: u64,
    line: u64,
    routine: &'a str,
    text: &'a str,
    word: &'static str,
}

/// A type that is not read.
#[derive(Drop, Serialize)]
struct TypeObject<'a> {
    file: String,
    line: u64,
    name: &'a str,
    text: &'a str,
    word: &'static str,
}

/// A file.
#[derive(Drop, Serialize)]
pub struct MigObject<'a> {
    file: &'a str,
    left_out: Vec<RoutineObject<'a>>,
    read: usize,
    types: Vec<TypeObject<'a>>,
}

/// Files.
#[derive(Drop, Serialize)]
struct MigAnswer<'a> {
    answer: &'static str,
    command: &'static str,
    files: Vec<MigObject<'a>>,
    schema: u32,
}

/// The word for which a type is not read.
pub fn stop_word(why: StopReason) -> &'static str {
    match why {
        StopReason::Unexpected => "Unexpected",
        StopReason::LeftOut(_) => "LeftOut",
        StopReason::UnknownType => "UnknownType",
        StopReason::TwiceNamed => "TwiceNamed",
        StopReason::NoRequestPort => "NoRequestPort",
        StopReason::TooMany => "TooMany",
    }
}

/// The name of a type, `?` where it has none.
pub fn type_name(unread: &Unread) -> &str {
    match &unread.name {
        Some(name) => name.as_str(),
        None => NAMELESS,
    }
}

/// How many routines are read.
pub fn read_count(forms: &Forms) -> usize {
    let rows = forms.interface.rows();
    rows.iter()
        .filter(|row| row.form(MessageKind::Request).is_some())
        .count()
}

/// An argument that may carry rights.
fn argument_object(carrier: &Carrier) -> ArgumentObject<'_> {
    ArgumentObject {
        argument: carrier.name.as_str(),
        type_name: carrier.type_name.as_str(),
    }
}

/// A routine that is left out.
fn routine_object<'a>(
    alloc: Global,
    source: &MigSource<'a>,
    left: &'a LeftOut,
) -> Result<RoutineObject<'a>, AllocError> {
    let place = source.place(alloc, left.at, left.stop)?;
    let carries = left.carried.iter().map(|one| argument_object(one));
    Ok(RoutineObject {
        carries: carries.collect(alloc)?,
        file: place.file,
        id: left.id,
        line: place.line,
        routine: row_name(left),
        text: place.text,
        word: left.word.as_str(),
    })
}

/// A type that is not read.
fn type_object<'a>(
    alloc: Global,
    source: &MigSource<'a>,
    unread: &'a Unread,
) -> Result<TypeObject<'a>, AllocError> {
    let place = source.place(alloc, unread.at, unread.stop.left)?;
    Ok(TypeObject {
        file: place.file,
        line: place.line,
        name: type_name(unread),
        text: place.text,
        word: stop_word(unread.stop.why),
    })
}

/// The routines that are left out.
fn routine_objects<'a>(
    alloc: Global,
    source: &MigSource<'a>,
    left_out: &'a [LeftOut],
) -> Result<Vec<RoutineObject<'a>>, AllocError> {
    let mut objects = Vec::new(alloc);
    for left in left_out {
        let object = routine_object(alloc, source, left)?;
        objects.push(object)?;
    }
    Ok(objects)
}

/// The types that are not read.
fn type_objects<'a>(
    alloc: Global,
    source: &MigSource<'a>,
    types: &'a [Unread],
) -> Result<Vec<TypeObject<'a>>, AllocError> {
    let mut objects = Vec::new(alloc);
    for unread in types {
        let object = type_object(alloc, source, unread)?;
        objects.push(object)?;
    }
    Ok(objects)
}

/// A file of this source, which says this.
pub fn mig_object<'a>(
    alloc: Global,
    file: &'a str,
    source: &MigSource<'a>,
    forms: &'a Forms,
) -> Result<MigObject<'a>, AllocError> {
    Ok(MigObject {
        file,
        left_out: routine_objects(alloc, source, forms.left_out.as_slice())?,
        read: read_count(forms),
        types: type_objects(alloc, source, forms.unread.as_slice())?,
    })
}

/// Files, in their order, and whether they are written.
pub fn mig_texts_json(
    alloc: Global,
    written: bool,
    files: Vec<MigObject<'_>>,
) -> Result<String, AllocError> {
    let answer = MigAnswer {
        answer: if written { "cut" } else { "not cut" },
        command: "mig",
        files,
        schema: MIG_SCHEMA,
    };
    json_text(alloc, &answer)
}
