//! Words: names, and verbs that go with rights.

ghost use Rattle.std.specs.Prelude.{◌≡◌, map, IfOk};
ghost use Rattle.mrc_wide_text.specs.WideWords.{is_reserved, free_name, is_alone, right_verb};

use mrc_stand_for::RightVerb;
use mrc_wiring_text::{Name, is_word};
use std::alloc::{AllocError, Global};

/// Whether no task, group or set has this word as its name.
#[tactic(auto, unfolding(crate::specs::WideWords::is_reserved))]
fn is_reserved(word: &[u8]) -> bool
    ensures { result ≡ is_reserved word.now }
{
    is_word(word, "all")
        || is_word(word, "any")
        || is_word(word, "births")
        || is_word(word, "but")
        || is_word(word, "none")
        || is_word(word, "other")
        || is_word(word, "port")
        || is_word(word, "task")
}

/// The name of a task, a group or a set.
#[tactic(auto, unfolding(crate::specs::WideWords::free_name))]
pub fn free_name(alloc: Global, word: &[u8]) -> Result<Option<Name>, AllocError>
    ensures { IfOk result (λ name. name ≡ free_name word.now) }
{
    if is_reserved(word) {
        return Ok(None);
    }
    Name::new(alloc, word)
}

/// Whether words are the given one alone.
pub fn is_alone(words: &[&[u8]], wanted: &str) -> bool
    ensures { result ≡ is_alone wanted.now (map (λ word. word.now) words.now) }
{
    match *words {
        [word] => is_word(word, wanted),
        _ => false,
    }
}

/// The verb that goes with rights and that a word names.
#[tactic(auto, unfolding(crate::specs::WideWords::right_verb))]
pub(crate) fn right_verb(word: &[u8]) -> Option<RightVerb>
    ensures { result ≡ right_verb word.now }
{
    if is_word(word, "takes") {
        Some(RightVerb::Takes)
    } else if is_word(word, "gives") {
        Some(RightVerb::Gives)
    } else if is_word(word, "sends") {
        Some(RightVerb::Sends)
    } else {
        None
    }
}
