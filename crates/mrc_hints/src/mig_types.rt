//! Which types are known before a place, and where a name was given.

use crate::mig_tokens::{
    Naming, Seen, count_before, first_named, has_include, include_place, is_routine, is_type,
    last_end, last_named, named,
};
use mrc_mig_symbols::Symbol;
use std::alloc::{AllocError, Global};

/// The names of the types that the include line declares.
const TABLE_NAMES: [&str; 16] = [
    "char",
    "short",
    "int",
    "unsigned",
    "integer_t",
    "natural_t",
    "kern_return_t",
    "boolean_t",
    "mach_port_name_t",
    "mach_port_t",
    "mach_port_copy_send_t",
    "mach_port_move_receive_t",
    "mach_port_move_send_t",
    "mach_port_move_send_once_t",
    "mach_port_make_send_t",
    "mach_port_make_send_once_t",
];

/// The names of the basic types.
const BASIC_NAMES: [&str; 20] = [
    "MACH_MSG_TYPE_BOOLEAN",
    "MACH_MSG_TYPE_INTEGER_16",
    "MACH_MSG_TYPE_INTEGER_32",
    "MACH_MSG_TYPE_CHAR",
    "MACH_MSG_TYPE_BYTE",
    "MACH_MSG_TYPE_INTEGER_8",
    "MACH_MSG_TYPE_STRING",
    "MACH_MSG_TYPE_STRING_C",
    "MACH_MSG_TYPE_PORT_NAME",
    "MACH_MSG_TYPE_MOVE_RECEIVE",
    "MACH_MSG_TYPE_MOVE_SEND",
    "MACH_MSG_TYPE_MOVE_SEND_ONCE",
    "MACH_MSG_TYPE_COPY_SEND",
    "MACH_MSG_TYPE_MAKE_SEND",
    "MACH_MSG_TYPE_MAKE_SEND_ONCE",
    "MACH_MSG_TYPE_PORT_RECEIVE",
    "MACH_MSG_TYPE_PORT_SEND",
    "MACH_MSG_TYPE_PORT_SEND_ONCE",
    "MACH_MSG_TYPE_POLYMORPHIC",
    "MACH_MSG_TYPE_REAL",
];

/// Whether the include line declares a type of this name.
pub(crate) fn is_table_name(name: &str) -> bool {
    TABLE_NAMES.iter().any(|other| *other == name)
}

/// The texts of these tokens, except for one name.
fn texts_but<'t>(
    alloc: Global,
    name: &str,
    types: &[Seen<'t>],
) -> Result<Vec<&'t str>, AllocError> {
    let mut names = Vec::new(alloc);
    for token in types {
        if token.text != name {
            names.push(token.text)?;
        }
    }
    Ok(names)
}

/// The names of the types that are declared among these tokens, except for one name.
fn declared_but<'t>(
    alloc: Global,
    name: &str,
    seen: &[Seen<'t>],
) -> Result<Vec<&'t str>, AllocError> {
    let types = named(alloc, Naming::OfType, seen)?;
    texts_but(alloc, name, types.as_slice())
}

/// The tokens before the last semicolon.
fn finished<'s, 't>(before: &'s [Seen<'t>]) -> &'s [Seen<'t>] {
    match last_end(before) {
        Some(at) => &before[..count_before(before, at)],
        None => &[],
    }
}

/// The names of types that are known behind these tokens, where `name` is not.
pub(crate) fn known_names<'t>(
    alloc: Global,
    may_be_basic: bool,
    name: &str,
    before: &[Seen<'t>],
) -> Result<Vec<&'t str>, AllocError> {
    let mut names = declared_but(alloc, name, finished(before))?;
    if has_include(before) {
        names.extend_from_slice(&TABLE_NAMES)?;
    }
    if may_be_basic {
        names.extend_from_slice(&BASIC_NAMES)?;
    }
    Ok(names)
}

/// Where a type of this name is declared among these tokens.
pub(crate) fn declared_at(
    alloc: Global,
    name: &str,
    seen: &[Seen<'_>],
) -> Result<Option<usize>, AllocError> {
    let types = named(alloc, Naming::OfType, seen)?;
    Ok(first_named(types.as_slice(), name))
}

/// What a name is given to behind these tokens.
fn naming(before: &[Seen<'_>]) -> Naming {
    match before.last() {
        Some(last) if is_type(last.symbol) => Naming::OfType,
        Some(last) if is_routine(last.symbol) => Naming::OfRoutine,
        _ => Naming::OfArgument,
    }
}

/// Where a token before has the same name and use.
fn same_name_at(
    alloc: Global,
    naming: Naming,
    name: &str,
    before: &[Seen<'_>],
) -> Result<Option<usize>, AllocError> {
    let names = named(alloc, naming, before)?;
    Ok(last_named(names.as_slice(), name))
}

/// The place of the last of these that has the name of a type of the table.
fn last_of_table(seen: &[Seen<'_>]) -> Option<usize> {
    let mut last = None;
    for token in seen {
        if is_table_name(token.text) {
            last = Some(token.at);
        }
    }
    last
}

/// Where the last type is declared that has the name of one of the table.
fn table_name_at(alloc: Global, before: &[Seen<'_>]) -> Result<Option<usize>, AllocError> {
    let types = named(alloc, Naming::OfType, before)?;
    Ok(last_of_table(types.as_slice()))
}

/// Where the name that this token gives for a second time was given before.
pub(crate) fn given_at(
    alloc: Global,
    symbol: Symbol,
    name: &str,
    before: &[Seen<'_>],
) -> Result<Option<usize>, AllocError> {
    if let Symbol::Directive(_) = symbol {
        return table_name_at(alloc, before);
    }
    match same_name_at(alloc, naming(before), name, before)? {
        Some(at) => Ok(Some(at)),
        None => Ok(include_place(before)),
    }
}
