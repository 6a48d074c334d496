//! What is told of mends.

ghost use Rattle.std.specs.Prelude.{◌≡◌, ◌++◌, [], flat_map, IfOk, OnOk, map};
ghost use Rattle.std.specs.Prelude.{string_bytes};
ghost use Rattle.std.specs.List.{slice_get};
ghost use Rattle.mrc_wiring_text.specs.Lexis.{words};
ghost use Rattle.mrc_mend.specs.Texts as definitions;
ghost use Rattle.mrc_mend.specs.Texts.{behind_blank, if_text, line_words, removed_line};
ghost use Rattle.mrc_mend.specs.Texts.{narrowed_line, added_line, restricting_line, change_lines};
ghost use Rattle.mrc_mend.specs.Texts.{note_sign, first_mends, first_note, further_note};
ghost use Rattle.mrc_mend.specs.Texts.{numbered_line, numbered, further_text, mend_text};
ghost use Rattle.mrc_mend.specs.Texts.{mends_from, found_text, broken_count, shared_line};
ghost use Rattle.mrc_mend.specs.Texts.{cause_line};
ghost use Rattle.mrc_mend.specs.Mending.{admit_lines, trust_line};

use crate::answers::{Answer, Mend};
use crate::causes::Cause;
use crate::changes::{
    Change, Limitation, Narrowing, Restriction, admit_lines, trust_line, type_word,
};
use mrc_wiring_text::{between_blanks, nth_line, spaced};
use std::alloc::{AllocError, Global};
use std::str;

/// The words of a line, each behind a blank.
#[tactic(auto, unfolding(mrc_wiring_text::specs::Lexis::words))]
fn behind_blanks(alloc: Global, line: &[u8]) -> Result<Vec<u8>, AllocError>
    ensures { IfOk result (λ text. text.items ≡ flat_map behind_blank (words line.now)) }
{
    let said = spaced(alloc, line)?;
    let mut text = Vec::new(alloc);
    for word in &between_blanks(alloc, &said)? {
        text.push(b' ')?;
        text.extend_from_slice(word)?;
    }
    Ok(text)
}

/// The bytes, where they are text; nothing where they are not.
fn if_text(alloc: Global, bytes: &[u8]) -> Result<String, AllocError>
    ensures { IfOk result (λ text. string_bytes text ≡ if_text bytes.now) }
{
    match str::from_utf8(bytes) {
        Ok(text) => String::from_str(alloc, text),
        Err(_) => Ok(String::new(alloc)),
    }
}

/// The words of the line of this number, each behind a blank, where they are text.
fn line_words(alloc: Global, wiring: &[u8], number: u32) -> Result<String, AllocError>
    ensures { IfOk result (λ text. string_bytes text ≡ line_words wiring.now number) }
{
    let line = nth_line(wiring, number.saturating_sub(1) as usize);
    let words = behind_blanks(alloc, line)?;
    if_text(alloc, words.as_slice())
}

/// A line that is left out: its number and its words.
fn removed_line(alloc: Global, wiring: &[u8], number: u32) -> Result<String, AllocError>
    ensures { IfOk result (λ text. string_bytes text ≡ removed_line wiring.now number) }
{
    let words = line_words(alloc, wiring, number)?;
    format!(in alloc; "remove line {number} #{words}")
}

/// A line that is narrowed: its number, and the line as it then stands.
fn narrowed_line(alloc: Global, narrowing: &Narrowing) -> Result<String, AllocError>
    ensures { IfOk result (λ text. string_bytes text ≡ narrowed_line narrowing.now) }
{
    let number = narrowing.number;
    let text = narrowing.text.as_str();
    format!(in alloc; "change line {number} # {text}")
}

/// A line that is added.
fn added_line(alloc: Global, line: &str) -> Result<String, AllocError>
    ensures { IfOk result (λ text. string_bytes text ≡ added_line line.now) }
{
    format!(in alloc; "add {line}")
}

/// A line that is added, and the type that it restricts.
fn restricting_line(
    alloc: Global,
    restriction: &Restriction,
    line: &str,
) -> Result<String, AllocError>
    ensures { IfOk result (λ text. string_bytes text
        ≡ restricting_line restriction.now line.now) }
{
    let added = added_line(alloc, line)?;
    let restricted = type_word(alloc, restriction)?;
    format!(in alloc; "{added} # restricts {restricted}")
}

/// Adds the lines that restrict a type.
fn add_restricting(
    alloc: Global,
    told: &mut Vec<String>,
    restriction: &Restriction,
) -> Result<(), AllocError>
    ensures { OnOk result (map string_bytes told.new.items ≡ map string_bytes told.old.items
        ++ map (restricting_line restriction.now)
        (admit_lines restriction.now restriction.now.classes.items)) }
{
    for line in &admit_lines(alloc, restriction)? {
        told.push(restricting_line(alloc, restriction, line.as_str())?)?;
    }
    Ok(())
}

/// A line that trusts a task.
fn trusting_line(alloc: Global, limitation: &Limitation) -> Result<String, AllocError>
    ensures { IfOk result (λ text. string_bytes text
        ≡ added_line (trust_line limitation.now)) }
{
    let line = trust_line(alloc, limitation)?;
    added_line(alloc, line.as_str())
}

/// Adds what is told of a change: a line that is left out or narrowed, or those that are added.
pub(crate) fn add_change(
    alloc: Global,
    told: &mut Vec<String>,
    wiring: &[u8],
    change: &Change,
) -> Result<(), AllocError>
    ensures { OnOk result (map string_bytes told.new.items ≡ map string_bytes told.old.items
        ++ change_lines wiring.now change.now) }
{
    match change {
        Change::Remove(number) => {
            told.push(removed_line(alloc, wiring, *number)?)?;
            Ok(())
        }
        Change::Narrow(narrowing) => {
            told.push(narrowed_line(alloc, narrowing)?)?;
            Ok(())
        }
        Change::Restrict(restriction) => add_restricting(alloc, told, restriction),
        Change::Limit(limitation) => {
            told.push(trusting_line(alloc, limitation)?)?;
            Ok(())
        }
    }
}

/// A line of the mend of this number, with what stands behind it.
fn numbered_line(
    alloc: Global,
    number: usize,
    behind: &str,
    line: &str,
) -> Result<String, AllocError>
    ensures { IfOk result (λ text. string_bytes text
        ≡ numbered_line number behind.now line.now) }
{
    format!(in alloc; "{number} {line}{behind}\n")
}

/// Adds lines of the mend of this number.
fn add_lines(
    alloc: Global,
    text: &mut String,
    number: usize,
    lines: &[String],
) -> Result<(), AllocError>
    ensures { OnOk result (string_bytes text.new ≡ string_bytes text.old
        ++ flat_map (numbered_line number []) (map string_bytes lines.now)) }
{
    for line in lines {
        let told = numbered_line(alloc, number, "", line.as_str())?;
        text.push_str(told.as_str())?;
    }
    Ok(())
}

/// The lines of a change of the mend of this number, with what stands behind the first.
fn numbered(
    alloc: Global,
    number: usize,
    behind: &str,
    lines: &[String],
) -> Result<String, AllocError>
    ensures { IfOk result (λ text. string_bytes text
        ≡ numbered number behind.now (map string_bytes lines.now)) }
{
    match lines {
        [] => Ok(String::new(alloc)),
        [first, rest @ ..] => {
            let mut text = numbered_line(alloc, number, behind, first.as_str())?;
            add_lines(alloc, &mut text, number, rest)?;
            Ok(text)
        }
    }
}

/// What comes before the words behind the first line of a change.
fn note_sign(change: &Change) -> &'static str
    ensures { result.now ≡ note_sign change.now }
{
    match change {
        Change::Restrict(_) => ",",
        Change::Remove(_) | Change::Narrow(_) | Change::Limit(_) => " #",
    }
}

/// How many of so many broken lines the first change of a mend mends, if that is told.
fn first_mends(alloc: Global, broken: usize, mended: Option<usize>) -> Result<String, AllocError>
    ensures { IfOk result (λ text. string_bytes text ≡ first_mends broken mended) }
{
    match mended {
        Some(mended) => format!(in alloc; ", mends {mended} of {broken} lines"),
        None => Ok(String::new(alloc)),
    }
}

/// What a mend loses, and how many lines its first change mends, as it stands behind its first
/// line.
fn first_note(
    alloc: Global,
    broken: usize,
    mend: &Mend,
    change: &Change,
) -> Result<String, AllocError>
    ensures { IfOk result (λ text.
        string_bytes text ≡ first_note broken mend.now change.now) }
{
    let sign = note_sign(change);
    let lost = mend.lost;
    let mends = first_mends(alloc, broken, mend.mended.get(0).copied())?;
    format!(in alloc; "{sign} loses {lost} facts{mends}")
}

/// How many lines more a further change of a mend mends, as it stands behind the first line of the
/// change, if it is told.
fn further_note(
    alloc: Global,
    broken: usize,
    mended: Option<usize>,
    change: &Change,
) -> Result<String, AllocError>
    ensures { IfOk result (λ text.
        string_bytes text ≡ further_note broken mended change.now) }
{
    let Some(mended) = mended else {
        return Ok(String::new(alloc));
    };
    let sign = note_sign(change);
    format!(in alloc; "{sign} mends {mended} more of {broken} lines")
}

/// A change of the mend of this number, with what stands behind its first line.
fn change_text(
    alloc: Global,
    wiring: &[u8],
    number: usize,
    behind: &str,
    change: &Change,
) -> Result<String, AllocError>
    ensures { IfOk result (λ text. string_bytes text
        ≡ numbered number behind.now (change_lines wiring.now change.now)) }
{
    let mut lines = Vec::new(alloc);
    add_change(alloc, &mut lines, wiring, change)?;
    numbered(alloc, number, behind, &lines)
}

/// The change at this place of the mend of this number, which is not its first.
fn further_change(
    alloc: Global,
    wiring: &[u8],
    broken: usize,
    number: usize,
    mended: &[usize],
    place: usize,
    change: &Change,
) -> Result<String, AllocError>
    ensures { IfOk result (λ text. string_bytes text
        ≡ numbered number (further_note broken (slice_get mended.now place) change.now)
        (change_lines wiring.now change.now)) }
{
    let behind = further_note(alloc, broken, mended.get(place).copied(), change)?;
    change_text(alloc, wiring, number, behind.as_str(), change)
}

/// Further changes of the mend of this number, behind its first.
fn further_text(
    alloc: Global,
    wiring: &[u8],
    broken: usize,
    number: usize,
    mended: &[usize],
    changes: &[Change],
) -> Result<String, AllocError>
    ensures { IfOk result (λ text. string_bytes text
        ≡ further_text wiring.now broken number mended.now 1 changes.now) }
{
    let mut text = String::new(alloc);
    for (place, change) in changes.iter().enumerate() {
        let told = further_change(alloc, wiring, broken, number, mended, place + 1, change)?;
        text.push_str(told.as_str())?;
    }
    Ok(text)
}

/// A mend of this number, if so many lines were broken.
fn mend_text(
    alloc: Global,
    wiring: &[u8],
    broken: usize,
    number: usize,
    mend: &Mend,
) -> Result<String, AllocError>
    ensures { IfOk result (λ text.
        string_bytes text ≡ mend_text wiring.now broken number mend.now) }
{
    match mend.changes.as_slice() {
        [] => Ok(String::new(alloc)),
        [first, rest @ ..] => {
            let behind = first_note(alloc, broken, mend, first)?;
            let told = change_text(alloc, wiring, number, behind.as_str(), first)?;
            let further = further_text(alloc, wiring, broken, number, &mend.mended, rest)?;
            format!(in alloc; "{told}{further}")
        }
    }
}

/// The mends, the first of number 1.
fn mends_from(
    alloc: Global,
    wiring: &[u8],
    broken: usize,
    mends: &[Mend],
) -> Result<String, AllocError>
    ensures { IfOk result (λ text.
        string_bytes text ≡ mends_from wiring.now broken 1 mends.now) }
{
    let mut text = String::new(alloc);
    for (place, mend) in mends.iter().enumerate() {
        let told = mend_text(alloc, wiring, broken, place + 1, mend)?;
        text.push_str(told.as_str())?;
    }
    Ok(text)
}

/// The mends that were found, or that there are none.
fn found_text(
    alloc: Global,
    wiring: &[u8],
    broken: usize,
    mends: &[Mend],
) -> Result<String, AllocError>
    ensures { IfOk result (λ text.
        string_bytes text ≡ found_text wiring.now broken mends.now) }
{
    if mends.is_empty() {
        String::from_str(alloc, "none\n")
    } else {
        mends_from(alloc, wiring, broken, mends)
    }
}

/// How many lines are broken.
fn broken_count(alloc: Global, lines: usize) -> Result<String, AllocError>
    ensures { IfOk result (λ text. string_bytes text ≡ broken_count lines) }
{
    format!(in alloc; "# all {lines} broken lines have ")
}

/// A line that tells of a cause.
fn shared_line(alloc: Global, cause: &Cause) -> Result<String, AllocError>
    ensures { IfOk result (λ text. string_bytes text ≡ shared_line cause.now) }
{
    let count = broken_count(alloc, cause.lines)?;
    let fact = cause.fact.as_str();
    format!(in alloc; "{count}{fact} in their chains\n")
}

/// The line that tells what all broken lines have in common, if that is known.
fn cause_line(alloc: Global, cause: &Option<Cause>) -> Result<String, AllocError>
    ensures { IfOk result (λ text. string_bytes text ≡ cause_line cause.now) }
{
    match cause {
        Some(cause) => shared_line(alloc, cause),
        None => Ok(String::new(alloc)),
    }
}

/// What is told of mends: `YES` if there is nothing to mend; else a line that tells what all broken
/// lines have in common, if that is known, and a line for each changed line of each mend, or
/// `none`. The words of lines that are left out are those of the wiring's text.
pub fn mends_text(alloc: Global, wiring: &[u8], answer: &Answer) -> Result<String, AllocError>
    ensures { IfOk result (λ text.
        string_bytes text ≡ definitions.mends_text wiring.now answer.now) }
{
    match answer {
        Answer::Nothing => String::from_str(alloc, "YES\n"),
        Answer::Found(found) => {
            let cause = cause_line(alloc, &found.cause)?;
            let mends = found_text(alloc, wiring, found.broken, &found.mends)?;
            format!(in alloc; "{cause}{mends}")
        }
    }
}
