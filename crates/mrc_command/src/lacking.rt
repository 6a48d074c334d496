//! What is printed of an option that a command does not have.

use crate::table::{COMMANDS, Entry, Kind, Row};
use crate::told::shown;
use std::alloc::{AllocError, Global};

/// Whether one of the rows is this option, which is written with `--` before its name.
fn has_option(rows: &[Row], option: &str) -> bool {
    let Some(option) = option.strip_prefix("--") else {
        return false;
    };
    for row in rows {
        let (name, kind, _, _) = *row;
        if name == option && !matches!(kind, Kind::Words | Kind::NeededWords) {
            return true;
        }
    }
    false
}

/// The names of the commands that have this option.
fn owners(alloc: Global, entries: &[Entry], option: &str) -> Result<Vec<&'static str>, AllocError> {
    let mut names = Vec::new(alloc);
    for entry in entries {
        let (name, _, _, rows) = *entry;
        if has_option(rows, option) {
            names.push(name)?;
        }
    }
    Ok(names)
}

/// What is between a name and so many others.
fn between(others: usize) -> &'static str {
    match others {
        0 => "",
        1 => " and ",
        _ => ", ",
    }
}

/// Names in a row: `A, B and C`.
fn in_a_row(alloc: Global, names: &[&str]) -> Result<String, AllocError> {
    let mut text = String::new(alloc);
    let mut rest = names;
    while let [name, others @ ..] = rest {
        text.push_str(name)?;
        text.push_str(between(others.len()))?;
        rest = others;
    }
    Ok(text)
}

/// Which commands have an option, as the end of a sentence. Nothing, if none has it.
fn owners_text(alloc: Global, owners: &[&str]) -> Result<String, AllocError> {
    let list = in_a_row(alloc, owners)?;
    match owners.len() {
        0 => Ok(String::new(alloc)),
        1 => format!(in alloc; ": {list} has it"),
        _ => format!(in alloc; ": {list} have it"),
    }
}

/// The name of the command of these words: the program's, if they name none.
fn command_name(entries: &[Entry], words: &[String]) -> &'static str {
    let word = match words.get(1) {
        Some(word) => word.as_str(),
        None => "",
    };
    for entry in entries {
        if entry.0 == word {
            return entry.0;
        }
    }
    "machcheck"
}

/// What `clap` quotes first in the text of an error.
fn quoted(text: &str) -> Option<&str> {
    let (_, behind) = text.split_once("'")?;
    let (quoted, _) = behind.split_once("'")?;
    Some(quoted)
}

/// What is printed of an argument that `clap` does not expect, by the words and by the text of
/// `clap`: which of these commands have this option. `clap` advises to pass it as the name of a
/// file, which nobody means. `None` if its text is right: no command has the option, and the text
/// names one of the command that is near.
fn text_of_owners(
    alloc: Global,
    entries: &[Entry],
    words: &[String],
    text: &str,
) -> Result<Option<String>, AllocError> {
    let Some(option) = quoted(text) else {
        return Ok(None);
    };
    let owners = owners(alloc, entries, option)?;
    if owners.is_empty() && !text.contains("  tip: to pass ") {
        return Ok(None);
    }
    let command = command_name(entries, words);
    let option = shown(alloc, option)?;
    let owners = owners_text(alloc, owners.as_slice())?;
    let text = format!(in alloc;
        "error: {command} has no {option}{owners}\n\nFor more information, try '--help'.\n"
    )?;
    Ok(Some(text))
}

/// The same of the commands of the table.
pub(crate) fn lacking_text(
    alloc: Global,
    words: &[String],
    text: &str,
) -> Result<Option<String>, AllocError> {
    text_of_owners(alloc, &COMMANDS, words, text)
}
