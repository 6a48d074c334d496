//! Notes on what is often behind a word that is wrong: a text of another version or of another
//! kind, a byte-order mark, and what a name is.

use crate::heads::{Role, Seen};
use crate::parts::Part;
use crate::walks::walk;
use crate::ways::ways;
use mrc_place::alternatives;
use mrc_wiring_text::Edition;
use std::alloc::{AllocError, Global};

/// The three bytes of a byte-order mark in UTF-8.
const MARK: [u8; 3] = [0xef, 0xbb, 0xbf];

/// The number of an edition's version.
fn version(edition: Edition) -> &'static str {
    match edition {
        Edition::First => "1",
        Edition::Second => "2",
        Edition::Third => "3",
    }
}

impl Role {
    /// The word that names it.
    fn word(self) -> &'static str {
        match self {
            Role::Wiring => "wiring",
            Role::Policy => "policy",
        }
    }

    /// The other one.
    fn other(self) -> Role {
        match self {
            Role::Wiring => Role::Policy,
            Role::Policy => Role::Wiring,
        }
    }

    /// Whether there are texts of it in an edition.
    fn has(self, edition: Edition) -> bool {
        match (self, edition) {
            (Role::Policy, Edition::Third) => false,
            _ => true,
        }
    }
}

/// Whether a line with these words is further one of the grammar of an edition.
fn goes_further(
    alloc: Global,
    edition: Edition,
    seen: Seen,
    words: &[&[u8]],
) -> Result<bool, AllocError> {
    if edition == seen.edition {
        return Ok(false);
    }
    let walked = walk(alloc, edition, seen.start, words)?;
    Ok(walked.count > seen.walked.count)
}

/// The versions in whose grammar a line goes on with the word that is wrong.
fn other_versions(
    alloc: Global,
    role: Role,
    seen: Seen,
    words: &[&[u8]],
) -> Result<Vec<&'static str>, AllocError> {
    let mut versions = Vec::new(alloc);
    for edition in [Edition::First, Edition::Second, Edition::Third] {
        if role.has(edition) && goes_further(alloc, edition, seen, words)? {
            versions.push(version(edition))?;
        }
    }
    Ok(versions)
}

/// The note that a line is one of other versions, as far as its wrong word.
fn version_note(
    alloc: Global,
    role: Role,
    seen: Seen,
    words: &[&[u8]],
) -> Result<Option<String>, AllocError> {
    let versions = other_versions(alloc, role, seen, words)?;
    if versions.is_empty() {
        return Ok(None);
    }
    let others = alternatives(alloc, &versions)?;
    let word = role.word();
    let own = version(seen.edition);
    let note = format!(in alloc;
        "up to here it is a line of version {others}: the heading says {word} {own}"
    )?;
    Ok(Some(note))
}

/// Whether a part is a name.
fn is_name(part: Part) -> bool {
    match part {
        Part::TaskName | Part::PortName | Part::SubsystemName | Part::SlotType => true,
        Part::Fixed(_) | Part::KindNumber | Part::Version => false,
    }
}

/// The note that says what a name is, if one may be there.
fn name_note(alloc: Global, seen: Seen) -> Result<Option<String>, AllocError> {
    let ways = ways(alloc, seen.edition, seen.walked.place)?;
    if !ways.iter().any(|way| is_name(way.part)) {
        return Ok(None);
    }
    let text =
        "a name has letters, digits and _, begins with no digit, and has at most 64 characters";
    Ok(Some(String::from_str(alloc, text)?))
}

/// The note that a text is of the other kind, if its first word says so.
fn role_note(
    alloc: Global,
    role: Role,
    seen: Seen,
    word: &str,
) -> Result<Option<String>, AllocError> {
    let other = role.other().word();
    if seen.walked.place != role.head_place() || word != other {
        return Ok(None);
    }
    let note = format!(in alloc;
        "this is the heading of a {other}: the options --wiring and --policy may be exchanged"
    )?;
    Ok(Some(note))
}

/// The note that a text begins with a byte-order mark.
fn mark_note(
    alloc: Global,
    role: Role,
    seen: Seen,
    text: &[u8],
) -> Result<Option<String>, AllocError> {
    if seen.walked.place != role.head_place() || !text.starts_with(&MARK) {
        return Ok(None);
    }
    let note = "the file begins with a byte-order mark: save it without one";
    Ok(Some(String::from_str(alloc, note)?))
}

/// Adds a note, if there is one.
fn add(notes: &mut Vec<String>, note: Option<String>) -> Result<(), AllocError> {
    if let Some(note) = note {
        notes.push(note)?;
    }
    Ok(())
}

/// The notes on what is often behind a word that is wrong.
pub(crate) fn other_notes(
    alloc: Global,
    role: Role,
    seen: Seen,
    text: &[u8],
    words: &[&[u8]],
    word: &str,
) -> Result<Vec<String>, AllocError> {
    let mut notes = Vec::new(alloc);
    if !word.is_empty() {
        add(&mut notes, version_note(alloc, role, seen, words)?)?;
        add(&mut notes, name_note(alloc, seen)?)?;
    }
    add(&mut notes, role_note(alloc, role, seen, word)?)?;
    add(&mut notes, mark_note(alloc, role, seen, text)?)?;
    Ok(notes)
}
