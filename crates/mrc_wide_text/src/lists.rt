//! Lists: what stands between commas, and where a list ends.

ghost use Rattle.std.specs.Prelude.{◌≡◌, ◌≤◌, ◌||◌, length, map, IfOk};
ghost use Rattle.std.specs.List.{slice_split};
ghost use Rattle.mrc_wiring_text.specs.Lexis.{is_comma};
ghost use Rattle.mrc_wide_text.specs.WideWords.{separated, list_len, in_front, behind, names_of};
ghost use Rattle.mrc_wide_text.specs.WideWords.{tasks_len, tasks_in_front, tasks_behind};
ghost use Rattle.mrc_wide_text.specs.WideWords.{tasks_of};

use crate::parts::TaskName;
use crate::words::is_alone;
use mrc_stand_for::{Several, Tasks};
use mrc_wiring_text::{Name, is_word};
use std::alloc::{AllocError, Global};

/// A way to read what stands between two commas.
pub trait Part {
    ghost use Rattle.std.specs.Prelude.{◌≡◌, ℕ, List, Option, map, IfOk};

    /// What is read.
    type Item: Drop;

    /// What words say.
    ghost meaning: { List (List ℕ) → Option Self.Item };

    /// Reads words: `None` if they say nothing of this kind.
    fn read(alloc: Global, words: &[&[u8]]) -> Result<Option<Self::Item>, AllocError>
        ensures { IfOk result (λ item. item ≡ meaning (map (λ word. word.now) words.now)) };
}

/// What stands between commas.
pub(crate) fn between_commas<'a>(
    alloc: Global,
    words: &'a [&'a [u8]],
) -> Result<Vec<&'a [&'a [u8]]>, AllocError>
    ensures { IfOk result (λ found. map (λ part. map (λ word. word.now) part.now) found.items ≡
        slice_split is_comma (map (λ word. word.now) words.now)) }
{
    words.split(|word| is_word(*word, ",")).collect(alloc)
}

/// What words say that are parts with commas between them.
pub fn separated<P: Part>(
    alloc: Global,
    words: &[&[u8]],
) -> Result<Option<Several<P::Item>>, AllocError>
    ensures { IfOk result (λ said. said ≡ separated P.meaning (map (λ word. word.now) words.now)) }
{
    let mut said = Several::empty(alloc);
    let parts = between_commas(alloc, words)?;
    for part in &parts {
        match P::read(alloc, *part)? {
            Some(item) => said.push(item)?,
            None => return Ok(None),
        }
    }
    Ok(Some(said))
}

/// Whether a list goes on with a word that stands behind a comma or another word.
fn goes_on(behind_comma: bool, word: &[u8]) -> bool
    ensures { result ≡ (behind_comma || is_comma word.now) }
{
    behind_comma || is_word(word, ",")
}

/// How many words the list in front has. It ends where two words stand side by side with no comma
/// between them.
fn list_len(words: &[&[u8]]) -> usize
    ensures exact { result ≡ list_len (map (λ word. word.now) words.now) }
    ensures within { result ≤ length words.now }
{
    let mut place = 0usize;
    let mut behind_comma = true;
    for word in words {
        if !goes_on(behind_comma, *word) {
            return place;
        }
        let comma = is_word(*word, ",");
        behind_comma = comma;
        place += 1;
    }
    place
}

/// The words of the list in front, and those behind it.
pub fn list_and_rest<'a>(words: &'a [&'a [u8]]) -> (&'a [&'a [u8]], &'a [&'a [u8]])
    ensures front { map (λ word. word.now) result.0.now ≡
        in_front (map (λ word. word.now) words.now) }
    ensures rest { map (λ word. word.now) result.1.now ≡
        behind (map (λ word. word.now) words.now) }
{
    words.split_at(list_len(words))
}

/// How many words the TASKS in front have.
#[tactic(auto, unfolding(crate::specs::WideWords::tasks_len))]
fn tasks_len(words: &[&[u8]]) -> usize
    ensures exact { result ≡ tasks_len (map (λ word. word.now) words.now) }
    ensures within { result ≤ length words.now }
{
    match words {
        [all, but, names @ ..] if is_word(*all, "all") && is_word(*but, "but") => {
            2 + list_len(names)
        }
        _ => list_len(words),
    }
}

/// The words of the TASKS in front, and those behind it.
pub fn tasks_and_rest<'a>(words: &'a [&'a [u8]]) -> (&'a [&'a [u8]], &'a [&'a [u8]])
    ensures front { map (λ word. word.now) result.0.now ≡
        tasks_in_front (map (λ word. word.now) words.now) }
    ensures rest { map (λ word. word.now) result.1.now ≡
        tasks_behind (map (λ word. word.now) words.now) }
{
    words.split_at(tasks_len(words))
}

/// Names of tasks or groups.
pub fn names_of(alloc: Global, words: &[&[u8]]) -> Result<Option<Several<Name>>, AllocError>
    ensures { IfOk result (λ names. names ≡ names_of (map (λ word. word.now) words.now)) }
{
    separated::<TaskName>(alloc, words)
}

/// TASKS.
#[tactic(auto, unfolding(crate::specs::WideWords::tasks_of))]
pub fn tasks_of(alloc: Global, words: &[&[u8]]) -> Result<Option<Tasks>, AllocError>
    ensures { IfOk result (λ tasks. tasks ≡ tasks_of (map (λ word. word.now) words.now)) }
{
    if is_alone(words, "all") {
        return Ok(Some(Tasks::All));
    }
    match words {
        [all, but, names @ ..] if is_word(*all, "all") && is_word(*but, "but") => {
            Ok(names_of(alloc, names)?.map(|names| Tasks::AllBut(names)))
        }
        _ => Ok(names_of(alloc, words)?.map(|names| Tasks::Listed(names))),
    }
}
