//! Notes on a word with which a line does not go on: what may be in its place, and which word may
//! be meant.

use crate::parts::{Keyword, Part};
use crate::ways::{Place, may_end, ways};
use mrc_place::{did_you_mean, nearest};
use mrc_wiring_text::Edition;
use std::alloc::{AllocError, Global};

impl Part {
    /// The part in words.
    fn phrase(self) -> &'static str {
        match self {
            Part::Fixed(Keyword::Comma) => "a comma",
            Part::Fixed(keyword) => keyword.text(),
            Part::TaskName => "the name of a task",
            Part::PortName => "the name of a port",
            Part::SubsystemName => "the name of a subsystem",
            Part::SlotType => "the name of a subsystem, a dot and the name of a type",
            Part::KindNumber => "a number from 0 to 15",
            Part::Version => "a number",
        }
    }

    /// The word, if it may be one that is meant.
    fn proposed(self) -> Option<&'static str> {
        match self {
            Part::Fixed(Keyword::Comma) => None,
            Part::Fixed(keyword) => Some(keyword.text()),
            _ => None,
        }
    }
}

/// What ways lead to, in words.
fn way_phrases(
    alloc: Global,
    edition: Edition,
    place: Place,
) -> Result<Vec<&'static str>, AllocError> {
    let ways = ways(alloc, edition, place)?;
    let mut found = Vec::new(alloc);
    for way in &ways {
        found.push(way.part.phrase())?;
    }
    Ok(found)
}

/// What may be at a place inside a line, in words.
fn line_phrases(
    alloc: Global,
    edition: Edition,
    place: Place,
) -> Result<Vec<&'static str>, AllocError> {
    let mut found = way_phrases(alloc, edition, place)?;
    if may_end(place) {
        found.push("the end of the line")?;
    }
    Ok(found)
}

/// What may be at a place, in words.
fn phrases(alloc: Global, edition: Edition, place: Place) -> Result<Vec<&'static str>, AllocError> {
    match place {
        Place::WiringHead => Vec::from_slice(
            alloc,
            &["wiring 1", "wiring 2", "wiring 3", "wiring 4"],
        ),
        Place::PolicyHead => Vec::from_slice(alloc, &["policy 1", "policy 2", "policy 3"]),
        Place::WiringVersion => Vec::from_slice(alloc, &["1", "2", "3", "4"]),
        Place::PolicyVersion => Vec::from_slice(alloc, &["1", "2", "3"]),
        _ => line_phrases(alloc, edition, place),
    }
}

/// The note that says what may be at a place.
pub(crate) fn expected(
    alloc: Global,
    edition: Edition,
    place: Place,
) -> Result<String, AllocError> {
    mrc_place::expected(alloc, &phrases(alloc, edition, place)?)
}

/// The words that may be meant at a place.
fn proposals(
    alloc: Global,
    edition: Edition,
    place: Place,
) -> Result<Vec<&'static str>, AllocError> {
    let ways = ways(alloc, edition, place)?;
    let mut known = Vec::new(alloc);
    for way in &ways {
        if let Some(text) = way.part.proposed() {
            known.push(text)?;
        }
    }
    Ok(known)
}

/// The word that may be meant at a place, if there is one.
fn meant(
    alloc: Global,
    edition: Edition,
    place: Place,
    word: &str,
) -> Result<Option<&'static str>, AllocError> {
    if word.is_empty() {
        return Ok(None);
    }
    let known = proposals(alloc, edition, place)?;
    nearest(alloc, word, &known)
}

/// What may be at the place of a word, and which word may be meant.
pub(crate) fn first_notes(
    alloc: Global,
    edition: Edition,
    place: Place,
    word: &str,
) -> Result<Vec<String>, AllocError> {
    let first = expected(alloc, edition, place)?;
    match meant(alloc, edition, place, word)? {
        Some(found) => Ok(vec![in alloc; first, did_you_mean(alloc, found)?]?),
        None => Ok(vec![in alloc; first]?),
    }
}
