//! Wirings of version 4: the heading, and the lines behind it.

ghost use Rattle.std.specs.Prelude.{◌≡◌, ◌≢◌, ◌+◌, ◌≤◌, ◌==◌, List, map, Err, Ok};
ghost use Rattle.std.specs.Prelude.{IfOk, option_map};
ghost use Rattle.std.specs.Str.{IsUtf8};
ghost use Rattle.mrc_base.specs.Limits.{limit_of_lines};
ghost use Rattle.mrc_base.specs.Reading.{Gives};
ghost use Rattle.mrc_wiring_text.specs.declared.reading.Line.{Line};
ghost use Rattle.mrc_wiring_text.specs.declared.wiring.WiringSays.{WiringSays};
ghost use Rattle.mrc_wiring_text.specs.Lexis.{lines};
ghost use Rattle.mrc_wiring_text.specs.Texts.{IsWiring};
ghost use Rattle.mrc_stand_for.specs.declared.wide.WideSays.{WideSays};
ghost use Rattle.mrc_wide_text.specs.WideLines.{meaning};
ghost use Rattle.mrc_wide_text.specs.WideReading.{wide_version, version_of, after_heading, heading};
ghost use Rattle.mrc_wide_text.specs.WideReading.{wide_wiring_of};
ghost use Rattle.mrc_wide_text.specs.WideTexts.{IsWideWiring};

use crate::lines::wide_says;
use mrc_base::OrMemory;
use mrc_base::limits::LINES;
use mrc_stand_for::{WideLine, WideSays};
use mrc_wiring_text::{
    Edition, Line, Statement, TextFault, between_blanks, body, capped, first_line, is_number,
    is_word, spaced, utf8_text,
};
use std::alloc::{AllocError, Global};
use std::marker::Model;

/// What a line says, as `body` reads it.
#[derive(Drop)]
struct ReadSays {
    says: WideSays,
}

impl Model for ReadSays {
    ghost use Rattle.mrc_stand_for.specs.declared.wide.WideSays.{WideSays};

    ghost Value = { WideSays };

    ghost view = { λ a. a.says };
}

impl Statement for ReadSays {
    ghost meaning = { meaning };

    fn read(
        alloc: Global,
        _edition: Edition,
        words: &[&[u8]],
    ) -> Result<Option<ReadSays>, AllocError> {
        Ok(wide_says(alloc, words)?.map(|says| ReadSays { says }))
    }
}

/// Whether the words of a first line name a version, and if so, whether it is this one.
#[tactic(auto, unfolding(crate::specs::WideReading::version_of))]
fn names_version(words: &[&[u8]]) -> Option<bool>
    ensures { result ≡ option_map (λ version. version == wide_version)
        (version_of (map (λ word. word.now) words.now)) }
{
    match *words {
        [word, number] if is_word(word, "wiring") && is_number(number) => {
            Some(capped(number, 5) == 4)
        }
        _ => None,
    }
}

/// The number of the line after a first line that has these words.
#[tactic(auto, unfolding(crate::specs::WideReading::after_heading))]
fn after_heading(number: usize, words: &[&[u8]]) -> Result<u32, OrMemory<TextFault>>
    ensures fault { Gives (λ next. next) result
        (after_heading number (map (λ word. word.now) words.now)) }
    ensures within { IfOk result (λ next. next ≤ limit_of_lines + 1) }
{
    if number > LINES as usize {
        return Err(OrMemory::Fault(TextFault::BadLine(LINES + 1)));
    }
    match names_version(words) {
        None => Err(OrMemory::Fault(TextFault::BadLine(number as u32))),
        Some(false) => Err(OrMemory::Fault(TextFault::Version)),
        Some(true) => Ok(number as u32 + 1),
    }
}

/// Goes past the first line that has words: the number of the next line, and the text from there
/// on.
fn heading<'a>(alloc: Global, text: &'a [u8]) -> Result<(u32, &'a [u8]), OrMemory<TextFault>>
    ensures fault { Gives (λ start. (start.0, lines start.1.now)) result
        (heading 1 (lines text.now)) }
    ensures within { IfOk result (λ start. start.0 ≤ limit_of_lines + 1) }
{
    let mut rest = text;
    let mut before = 0usize;
    while !rest.is_empty() {
        let (line, after) = first_line(rest);
        let text = spaced(alloc, line)?;
        let said = between_blanks(alloc, &text)?;
        if !said.is_empty() {
            let next = after_heading(before + 1, &said)?;
            return Ok((next, after));
        }
        before += 1;
        rest = after;
    }
    Err(OrMemory::Fault(TextFault::BadLine(1)))
}

/// The lines, as what they say.
fn said_lines(alloc: Global, read: Vec<Line<ReadSays>>) -> Result<Vec<WideLine>, AllocError>
    ensures { IfOk result (λ lines. lines.items ≡ read.items) }
{
    let mut lines = Vec::new(alloc);
    for line in read {
        let Line { number, says } = line;
        lines.push(Line {
            number,
            says: says.says,
        })?;
    }
    Ok(lines)
}

/// What a wiring says.
#[tactic(auto, unfolding(crate::specs::WideReading::wide_wiring_of))]
fn wide_wiring_of(alloc: Global, bytes: &[u8]) -> Result<Vec<WideLine>, OrMemory<TextFault>>
    ensures fault { Gives (λ lines. lines.items) result (wide_wiring_of bytes.now) }
    ensures no_text { ¬ (IsUtf8 bytes.now) → result ≡ Err (OrMemory.Fault TextFault.NotUtf8) }
{
    let text = utf8_text(bytes)?;
    let (first, rest) = heading(alloc, text)?;
    let read = body::<ReadSays>(alloc, Edition::Third, first, rest)?;
    Ok(said_lines(alloc, read)?)
}

/// Reads a wiring of version 4: its lines that say something, in order, or the first fault.
pub fn read_wide_wiring(alloc: Global, bytes: &[u8]) -> Result<Vec<WideLine>, OrMemory<TextFault>>
    // What is read is said by a text of this grammar.
    ensures found { IfOk result (λ lines. IsWideWiring bytes.now lines.items) }
    // What a text of this grammar says is read, unless memory runs out.
    ensures only { (says : List (Line WideSays)) → IsWideWiring bytes.now says →
        Gives (λ lines. lines.items) result (Ok says) }
    // A wiring of an older version has another version.
    ensures older { (says : List (Line WiringSays)) → IsWiring bytes.now says →
        Gives (λ lines. lines.items) result (Err TextFault.Version) }
    // `NotUtf8` is told of bytes that are no text, and of no others.
    ensures no_text { ¬ (IsUtf8 bytes.now) → result ≡ Err (OrMemory.Fault TextFault.NotUtf8) }
    ensures text { IsUtf8 bytes.now → result ≢ Err (OrMemory.Fault TextFault.NotUtf8) }
    // Which fault it is: the first.
    ensures fault { Gives (λ lines. lines.items) result (wide_wiring_of bytes.now) }
{
    wide_wiring_of(alloc, bytes)
}
