//! Texts of lines: what they have in common.

ghost use Rattle.std.specs.Prelude.{◌≡◌, ◌+◌, ◌≤◌, ℕ, List, map, Option, Err, IfOk, OnOk};
ghost use Rattle.std.specs.Str.{IsUtf8};
ghost use Rattle.std.specs.Option.{option_map};
ghost use Rattle.mrc_base.specs.Limits.{limit_of_lines};
ghost use Rattle.mrc_base.specs.Reading.{Gives};
ghost use Rattle.mrc_wiring_text.specs.Lexis.{lines, decimal};
ghost use Rattle.mrc_wiring_text.specs.Reading.{edition_of, version_of, after_heading, heading};
ghost use Rattle.mrc_wiring_text.specs.Reading.{text_word, third_of};
ghost use Rattle.mrc_wiring_text.specs.Reading.{line_of, body, utf8_text, text_edition, text_of};

use crate::faults::TextFault;
use crate::kinds::{capped, is_number};
use crate::lexis::{between_blanks, first_line, is_word, spaced};
use mrc_base::OrMemory;
use mrc_base::limits::LINES;
use std::alloc::{AllocError, Global};
use std::str;

/// A line of a text that says something.
#[derive(Debug, Drop)]
pub struct Line<S> {
    /// Its number, counted from 1.
    pub number: u32,
    /// What it says.
    pub says: S,
}

/// The edition of a text, by the version that its first line names.
#[derive(Clone, Copy, Debug, PartialEq, Eq)]
pub enum Edition {
    /// Version 1: the births of a task are of one kind, which has no word.
    First,
    /// Version 2: births are named by their task and their kind.
    Second,
    /// Version 3: lines say what trusted tasks may do, and that reply ports have to fit.
    Third,
}

/// The kinds of texts.
#[derive(Clone, Copy, Debug, PartialEq, Eq)]
pub(crate) enum TextKind {
    /// Wirings, in each edition.
    Wiring,
    /// Policies, in the first and the second.
    Policy,
}

impl TextKind {
    /// The word that names the kind in a first line.
    fn word(self) -> &'static str
        ensures { result.now ≡ text_word self }
    {
        match self {
            TextKind::Wiring => "wiring",
            TextKind::Policy => "policy",
        }
    }

    /// The third edition, if there are texts of the kind in it.
    fn third(self) -> Option<Edition>
        ensures { result ≡ third_of self }
    {
        match self {
            TextKind::Wiring => Some(Edition::Third),
            TextKind::Policy => None,
        }
    }
}

/// What a line of one kind of text can say.
pub trait Statement: Drop {
    ghost use Rattle.mrc_wiring_text.specs.declared.reading.Edition.{Edition};

    /// What words say in each edition.
    ghost meaning: { Edition → List (List ℕ) → Option Self };

    /// Reads the words of a line: `None` if they say nothing of this kind.
    fn read(alloc: Global, edition: Edition, words: &[&[u8]]) -> Result<Option<Self>, AllocError>
        ensures { IfOk result (λ says. says ≡ meaning edition
            (map (λ word. word.now) words.now)) };
}

/// The edition of the version that decimal digits encode.
fn edition_of(kind: TextKind, digits: &[u8]) -> Option<Edition>
    ensures { result ≡ edition_of kind (decimal digits.now) }
{
    match capped(digits, 4) {
        1 => Some(Edition::First),
        2 => Some(Edition::Second),
        3 => kind.third(),
        _ => None,
    }
}

/// The edition that the words of a first line name, if they name one: `None` if they name no
/// version at all.
#[tactic(auto, unfolding(crate::specs::Reading::version_of))]
fn edition_named(kind: TextKind, words: &[&[u8]]) -> Option<Option<Edition>>
    ensures { result ≡ option_map (edition_of kind)
        (version_of kind (map (λ word. word.now) words.now)) }
{
    match *words {
        [word, number] if is_word(word, kind.word()) && is_number(number) => {
            Some(edition_of(kind, number))
        }
        _ => None,
    }
}

/// The edition of a text whose first line has these words, and the number of the line after it.
#[tactic(auto, unfolding(crate::specs::Reading::after_heading))]
fn after_heading(
    kind: TextKind,
    number: usize,
    words: &[&[u8]],
) -> Result<(Edition, u32), OrMemory<TextFault>>
    ensures fault { Gives (λ next. next) result
        (after_heading kind number (map (λ word. word.now) words.now)) }
    ensures within { IfOk result (λ next. next.1 ≤ limit_of_lines + 1) }
{
    if number > LINES as usize {
        return Err(OrMemory::Fault(TextFault::BadLine(LINES + 1)));
    }
    match edition_named(kind, words) {
        None => Err(OrMemory::Fault(TextFault::BadLine(number as u32))),
        Some(None) => Err(OrMemory::Fault(TextFault::Version)),
        Some(Some(edition)) => Ok((edition, number as u32 + 1)),
    }
}

/// Goes past the first line that has words: the edition, the number of the next line, and the text
/// from there on.
fn heading<'a>(
    alloc: Global,
    kind: TextKind,
    text: &'a [u8],
) -> Result<((Edition, u32), &'a [u8]), OrMemory<TextFault>>
    ensures fault { Gives (λ start. (start.0, lines start.1.now)) result
        (heading kind 1 (lines text.now)) }
    ensures within { IfOk result (λ start. start.0.1 ≤ limit_of_lines + 1) }
{
    let mut rest = text;
    let mut before = 0usize;
    while !rest.is_empty() {
        let (line, after) = first_line(rest);
        let text = spaced(alloc, line)?;
        let said = between_blanks(alloc, &text)?;
        if !said.is_empty() {
            let next = after_heading(kind, before + 1, &said)?;
            return Ok((next, after));
        }
        before += 1;
        rest = after;
    }
    Err(OrMemory::Fault(TextFault::BadLine(1)))
}

/// What a line says, if it has words.
#[tactic(auto, unfolding(crate::specs::Reading::line_of, crate::specs::Lexis::words))]
fn line_of<S: Statement>(
    alloc: Global,
    edition: Edition,
    number: u32,
    line: &[u8],
) -> Result<Option<S>, OrMemory<TextFault>>
    ensures fault { Gives (λ says. says) result (line_of (S.meaning edition) number line.now) }
    ensures within { OnOk result (number ≤ limit_of_lines) }
{
    if number > LINES {
        return Err(OrMemory::Fault(TextFault::BadLine(LINES + 1)));
    }
    let text = spaced(alloc, line)?;
    let said = between_blanks(alloc, &text)?;
    if said.is_empty() {
        return Ok(None);
    }
    match S::read(alloc, edition, &said)? {
        Some(says) => Ok(Some(says)),
        None => Err(OrMemory::Fault(TextFault::BadLine(number))),
    }
}

/// What the lines of a text say, the first of which has this number, or the first fault. A line
/// without words says nothing.
pub fn body<S: Statement>(
    alloc: Global,
    edition: Edition,
    first: u32,
    text: &[u8],
) -> Result<Vec<Line<S>>, OrMemory<TextFault>>
    requires { first ≤ limit_of_lines + 1 }
    ensures { Gives (λ said. said.items) result (body (S.meaning edition) first (lines text.now)) }
{
    let mut said = Vec::new(alloc);
    let mut rest = text;
    let mut number = first;
    while !rest.is_empty() {
        let (line, after) = first_line(rest);
        if let Some(says) = line_of::<S>(alloc, edition, number, line)? {
            said.push(Line { number, says })?;
        }
        number += 1;
        rest = after;
    }
    Ok(said)
}

/// Bytes that are a text, or `NotUtf8`.
#[tactic(auto, unfolding(crate::specs::Reading::utf8_text))]
pub fn utf8_text(bytes: &[u8]) -> Result<&[u8], OrMemory<TextFault>>
    ensures fault { Gives (λ text. text.now) result (utf8_text bytes.now) }
    ensures no_text { ¬ (IsUtf8 bytes.now) → result ≡ Err (OrMemory.Fault TextFault.NotUtf8) }
{
    match str::from_utf8(bytes) {
        Ok(text) => Ok(text.as_bytes()),
        Err(_) => Err(OrMemory::Fault(TextFault::NotUtf8)),
    }
}

/// The edition of a text of a kind.
#[tactic(auto, unfolding(crate::specs::Reading::text_edition))]
pub(crate) fn text_edition(
    alloc: Global,
    kind: TextKind,
    bytes: &[u8],
) -> Result<Edition, OrMemory<TextFault>>
    ensures fault { Gives (λ edition. edition) result (text_edition kind bytes.now) }
{
    let text = utf8_text(bytes)?;
    let ((edition, _), _) = heading(alloc, kind, text)?;
    Ok(edition)
}

/// What a text of a kind says.
#[tactic(auto, unfolding(crate::specs::Reading::text_of))]
pub(crate) fn text_of<S: Statement>(
    alloc: Global,
    kind: TextKind,
    bytes: &[u8],
) -> Result<Vec<Line<S>>, OrMemory<TextFault>>
    ensures fault { Gives (λ said. said.items) result (text_of kind S.meaning bytes.now) }
    ensures no_text { ¬ (IsUtf8 bytes.now) → result ≡ Err (OrMemory.Fault TextFault.NotUtf8) }
{
    let text = utf8_text(bytes)?;
    let ((edition, first), rest) = heading(alloc, kind, text)?;
    body(alloc, edition, first, rest)
}
