//! Policies of version 3: the heading, and the lines behind it.

ghost use Rattle.std.specs.Prelude.{◌≡◌, ◌≢◌, ◌≤◌, ◌==◌, List, map, Err, Ok, IfOk, OnOk};
ghost use Rattle.std.specs.Prelude.{option_map, Some, None};
ghost use Rattle.std.specs.Str.{IsUtf8};
ghost use Rattle.mrc_base.specs.Limits.{limit_of_lines};
ghost use Rattle.mrc_base.specs.Reading.{Gives};
ghost use Rattle.mrc_wiring_text.specs.declared.policy.Forbid.{Forbid};
ghost use Rattle.mrc_wiring_text.specs.declared.reading.Line.{Line};
ghost use Rattle.mrc_wiring_text.specs.Lexis.{lines, words};
ghost use Rattle.mrc_wiring_text.specs.Texts.{IsPolicy};
ghost use Rattle.mrc_stand_for.specs.Steps.{Leaves};
ghost use Rattle.mrc_wide_policy.specs.declared.says.PolicySays.{PolicySays};
ghost use Rattle.mrc_wide_policy.specs.PolicyReading.{wide_version, heading_of, line_says, as_line};
ghost use Rattle.mrc_wide_policy.specs.PolicyReading.{add_line, add_lines, with_heading};
ghost use Rattle.mrc_wide_policy.specs.PolicyReading.{wide_policy_of, version_of};
ghost use Rattle.mrc_wide_policy.specs.PolicyTexts.{IsWidePolicy};

use crate::lines::policy_says;
use crate::quotes::quoted_words;
use crate::says::{PolicySays, WidePolicyLine};
use mrc_base::OrMemory;
use mrc_base::limits::LINES;
use mrc_stand_for::Several;
use mrc_wiring_text::{
    Line, TextFault, between_blanks, capped, first_line, is_number, is_word, spaced, utf8_text,
};
use std::alloc::{AllocError, Global};
use std::mem::replace;

/// Whether the words of a first line name a version, and if so, whether it is this one.
#[tactic(auto, unfolding(crate::specs::PolicyReading::version_of))]
fn names_version(words: &[&[u8]]) -> Option<bool>
    ensures { result ≡ option_map (λ version. version == wide_version)
        (version_of (map (λ word. word.now) words.now)) }
{
    match *words {
        [word, number] if is_word(word, "policy") && is_number(number) => {
            Some(capped(number, 4) == 3)
        }
        _ => None,
    }
}

/// A first line that has these words: no line behind it yet.
#[tactic(auto, unfolding(crate::specs::PolicyReading::heading_of))]
fn heading_of(
    alloc: Global,
    number: usize,
    words: &[&[u8]],
) -> Result<Option<Several<WidePolicyLine>>, OrMemory<TextFault>>
    ensures { Gives (λ said. said) result (heading_of number (map (λ word. word.now) words.now)) }
{
    if number > LINES as usize {
        return Err(OrMemory::Fault(TextFault::BadLine(LINES + 1)));
    }
    match names_version(words) {
        None => Err(OrMemory::Fault(TextFault::BadLine(number as u32))),
        Some(false) => Err(OrMemory::Fault(TextFault::Version)),
        Some(true) => Ok(Some(Several::empty(alloc))),
    }
}

/// A line in front of the heading, or the heading.
#[tactic(auto, unfolding(mrc_wiring_text::specs::Lexis::words))]
fn first_says(
    alloc: Global,
    number: usize,
    line: &[u8],
) -> Result<Option<Several<WidePolicyLine>>, OrMemory<TextFault>>
    ensures { Gives (λ said. said) result (add_line number None line.now) }
{
    let text = spaced(alloc, line)?;
    let said = between_blanks(alloc, &text)?;
    if said.is_empty() {
        return Ok(None);
    }
    heading_of(alloc, number, &said)
}

/// Words as slices.
fn views<'a>(alloc: Global, words: &'a [Vec<u8>]) -> Result<Vec<&'a [u8]>, AllocError>
    ensures { IfOk result (λ found. map (λ word. word.now) found.items ≡
        map (λ word. word.items) words.now) }
{
    let mut found = Vec::new(alloc);
    for word in words {
        found.push(word.as_slice())?;
    }
    Ok(found)
}

/// What a line behind the heading says, if it has words.
#[tactic(auto, unfolding(crate::specs::PolicyReading::line_says))]
fn line_says(
    alloc: Global,
    number: usize,
    line: &[u8],
) -> Result<Option<PolicySays>, OrMemory<TextFault>>
    ensures fault { Gives (λ says. says) result (line_says number line.now) }
    ensures within { OnOk result (number ≤ limit_of_lines) }
{
    if number > LINES as usize {
        return Err(OrMemory::Fault(TextFault::BadLine(LINES + 1)));
    }
    let words = quoted_words(alloc, line)?;
    if words.is_empty() {
        return Ok(None);
    }
    let said = views(alloc, &words)?;
    match policy_says(alloc, &said)? {
        Some(says) => Ok(Some(says)),
        None => Err(OrMemory::Fault(TextFault::BadLine(number as u32))),
    }
}

/// One line more behind the heading.
fn add_said(
    alloc: Global,
    number: usize,
    said: &mut Several<WidePolicyLine>,
    line: &[u8],
) -> Result<(), OrMemory<TextFault>>
    ensures { Leaves result (Some said.new)
        (add_line number (Some said.old) line.now) }
{
    if let Some(says) = line_says(alloc, number, line)? {
        said.push(Line {
            number: number as u32,
            says,
        })?;
    }
    Ok(())
}

/// One line more.
fn add_line(
    alloc: Global,
    number: usize,
    so_far: &mut Option<Several<WidePolicyLine>>,
    line: &[u8],
) -> Result<(), OrMemory<TextFault>>
    ensures { Leaves result so_far.new (add_line number so_far.old line.now) }
{
    match so_far {
        Some(said) => add_said(alloc, number, said, line),
        None => {
            let first = first_says(alloc, number, line)?;
            drop(replace(so_far, first));
            Ok(())
        }
    }
}

/// What the lines of a text say, once the heading is read.
fn add_lines(
    alloc: Global,
    text: &[u8],
) -> Result<Option<Several<WidePolicyLine>>, OrMemory<TextFault>>
    ensures { Gives (λ said. said) result (add_lines 1 None (lines text.now)) }
{
    let mut so_far = None;
    let mut rest = text;
    let mut number = 1usize;
    while !rest.is_empty() {
        let (line, after) = first_line(rest);
        add_line(alloc, number, &mut so_far, line)?;
        number += 1;
        rest = after;
    }
    Ok(so_far)
}

/// What a policy says.
#[tactic(auto, unfolding(crate::specs::PolicyReading::wide_policy_of))]
fn wide_policy_of(alloc: Global, bytes: &[u8]) -> Result<Vec<WidePolicyLine>, OrMemory<TextFault>>
    ensures fault { Gives (λ lines. lines.items) result (wide_policy_of bytes.now) }
    ensures no_text { ¬ (IsUtf8 bytes.now) → result ≡ Err (OrMemory.Fault TextFault.NotUtf8) }
{
    let text = utf8_text(bytes)?;
    match add_lines(alloc, text)? {
        Some(said) => Ok(said.into_vec()),
        None => Err(OrMemory::Fault(TextFault::BadLine(1))),
    }
}

/// Reads a policy of version 3: its lines that say something, in order, or the first fault.
pub fn read_wide_policy(
    alloc: Global,
    bytes: &[u8],
) -> Result<Vec<WidePolicyLine>, OrMemory<TextFault>>
    // What is read is said by a text of this grammar.
    ensures found { IfOk result (λ lines. IsWidePolicy bytes.now lines.items) }
    // What a text of this grammar says is read, unless memory runs out.
    ensures only { (says : List (Line PolicySays)) → IsWidePolicy bytes.now says →
        Gives (λ lines. lines.items) result (Ok says) }
    // A policy of an older version has another version.
    ensures older { (says : List (Line Forbid)) → IsPolicy bytes.now says →
        Gives (λ lines. lines.items) result (Err TextFault.Version) }
    // `NotUtf8` is told of bytes that are no text, and of no others.
    ensures no_text { ¬ (IsUtf8 bytes.now) → result ≡ Err (OrMemory.Fault TextFault.NotUtf8) }
    ensures text { IsUtf8 bytes.now → result ≢ Err (OrMemory.Fault TextFault.NotUtf8) }
    // Which fault it is: the first.
    ensures fault { Gives (λ lines. lines.items) result (wide_policy_of bytes.now) }
{
    wide_policy_of(alloc, bytes)
}
