//! Which routines that carry rights are left out of a MIG file, and which file an older `mig` cut.

ghost use Rattle.std.specs.Prelude.{◌≡◌, ◌++◌, [], map, string_bytes, IfOk, OnOk};
ghost use Rattle.mrc_interface.specs.Left.{carries, name_of, carrying, carriers, is_note, has_note};
ghost use Rattle.mrc_interface.specs.Left.{is_first, is_old_cut, name_if, notes_of, text_if};
ghost use Rattle.mrc_mig_symbols.specs.Readers.{left};
ghost use Rattle.mrc_mig_lex.specs.Lexing.{tokens_of};
ghost use Rattle.std.specs.Option.{option_map};
ghost use Rattle.std.specs.List.{cons_option};

use crate::reading::read_defs;
use mrc_base::OrMemory;
use mrc_mig_forms::LeftOut;
use mrc_mig_symbols::{Rest, Symbol, Tokens, lex};
use mrc_mig_tokens::{Edition, edition_of};
use std::alloc::{AllocError, Global};
use std::str;

/// What stands for the name of a row that has none.
const NAMELESS: &str = "?";

/// Whether a row that is left out may carry rights.
pub fn carries(left: &LeftOut) -> bool
    ensures { result ≡ carries left.now }
{
    !left.carried.is_empty()
}

/// The name of a row that is left out, `?` where it has none.
pub fn row_name(left: &LeftOut) -> &str
    ensures { result.now ≡ name_of left.now }
{
    match &left.routine {
        Some(name) => name.as_str(),
        None => NAMELESS,
    }
}

/// Adds the name of a row that is left out, if it may carry rights.
fn push_name(alloc: Global, names: &mut Vec<String>, left: &LeftOut) -> Result<(), AllocError>
    ensures { OnOk result (map string_bytes names.new.items
        ≡ map string_bytes names.old.items ++ cons_option (name_if left.now) []) }
{
    if !carries(left) {
        return Ok(());
    }
    names.push(String::from_str(alloc, row_name(left))?)?;
    Ok(())
}

/// The names of those of these rows that may carry rights.
fn carrying(alloc: Global, left_out: &[LeftOut]) -> Result<Vec<String>, AllocError>
    ensures { IfOk result (λ names. map string_bytes names.items ≡ carrying left_out.now) }
{
    let mut names = Vec::new(alloc);
    for left in left_out {
        push_name(alloc, &mut names, left)?;
    }
    Ok(names)
}

/// Bytes that are a text.
fn text_if(bytes: &[u8]) -> Option<&str>
    ensures { option_map (λ text. text.now) result ≡ text_if bytes.now }
{
    match str::from_utf8(bytes) {
        Ok(text) => Some(text),
        Err(_) => None,
    }
}

/// Whether bytes are a text of edition 1.
pub(crate) fn is_first(bytes: &[u8]) -> bool
    ensures { result ≡ is_first (text_if bytes.now) }
{
    match text_if(bytes) {
        Some(text) => edition_of(text) == Edition::First,
        None => false,
    }
}

/// The routines that may carry rights and are left out of a MIG file: by their names, `?` where one
/// has none, in the order of the text. Bytes that are no MIG file have none.
pub fn carriers(alloc: Global, bytes: &[u8]) -> Result<Vec<String>, AllocError>
    // Exactly those of what is read of the bytes.
    ensures exact { IfOk result (λ names. map string_bytes names.items ≡ carriers bytes.now) }
{
    if is_first(bytes) {
        return Ok(Vec::new(alloc));
    }
    match read_defs(alloc, bytes) {
        Ok(forms) => carrying(alloc, forms.left_out.as_slice()),
        Err(OrMemory::Fault(_)) => Ok(Vec::new(alloc)),
        Err(OrMemory::Memory) => Err(AllocError),
    }
}

/// Whether the first token is a string in which an older `mig` told what it left out.
fn is_note(rest: Rest<'_>) -> bool
    ensures { result ≡ is_note (left rest.entry) }
{
    rest.first() == Symbol::Text && rest.text().as_bytes().starts_with(b"\"left out: ")
}

/// Whether one of the tokens is such a string.
#[tactic(auto, using(crate::proofs::LeftLaws::none_left, crate::proofs::LeftLaws::note_here, crate::proofs::LeftLaws::note_later, mrc_mig_symbols::proofs::ReadingLemmas::tail_is_shorter))]
fn has_note(tokens: &Tokens<'_>) -> bool
    ensures { result ≡ has_note tokens.now }
{
    let mut rest = Rest::new(tokens);
    while !rest.is_empty() {
        if is_note(rest) {
            return true;
        }
        rest = rest.next();
    }
    false
}

/// Whether a text has such a string among its tokens.
fn notes_of(alloc: Global, text: &str) -> Result<bool, AllocError>
    ensures { IfOk result (λ is. is ≡ notes_of (tokens_of text.now)) }
{
    match lex(alloc, text) {
        Ok(tokens) => Ok(has_note(&tokens)),
        Err(OrMemory::Fault(_)) => Ok(false),
        Err(OrMemory::Memory) => Err(AllocError),
    }
}

/// Whether an older `mig` has cut a MIG file: it is of edition 1, and one of its strings says what
/// was left out.
pub fn is_old_cut(alloc: Global, bytes: &[u8]) -> Result<bool, AllocError>
    // Exactly if a string of a text of edition 1 begins with the words of that `mig`.
    ensures exact { IfOk result (λ is. is ≡ is_old_cut bytes.now) }
{
    let Some(text) = text_if(bytes) else {
        return Ok(false);
    };
    match edition_of(text) {
        Edition::First => notes_of(alloc, text),
        Edition::Second | Edition::Received => Ok(false),
    }
}
