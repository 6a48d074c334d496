//! What a class accepts.

ghost use Rattle.std.specs.Prelude.{◌≡◌, [], ◌∷◌, map, IfOk};
ghost use Rattle.mrc_wiring_text.specs.Items.{item_of};
ghost use Rattle.mrc_wide_text.specs.WideItems.{is_item_word, keyed, first_word, items_of};

use crate::lists::between_commas;
use crate::words::is_alone;
use mrc_wiring_text::{Item, Items, is_word, table_item};
use std::alloc::{AllocError, Global};

/// Whether an item begins with this word.
#[tactic(auto, unfolding(crate::specs::WideItems::is_item_word))]
fn is_item_word(word: &[u8]) -> bool
    ensures { result ≡ is_item_word word.now }
{
    is_word(word, "request") || is_word(word, "reply") || is_word(word, "destroyed")
}

/// The item of one word, behind a part that begins with a key.
#[tactic(auto, unfolding(crate::specs::WideItems::keyed, mrc_wiring_text::specs::Items::item_of))]
fn short_item(alloc: Global, key: &[u8], word: &[u8]) -> Result<Option<Item>, AllocError>
    ensures { IfOk result (λ item. item ≡ item_of (keyed key.now (word.now ∷ []))) }
{
    if !is_item_word(word) {
        table_item(alloc, key, word)
    } else if is_word(word, "destroyed") {
        Ok(Some(Item::Destroyed))
    } else {
        Ok(None)
    }
}

/// The item that words say, behind a part that begins with a key.
#[tactic(auto, unfolding(crate::specs::WideItems::keyed, mrc_wiring_text::specs::Items::item_of))]
fn item_behind(alloc: Global, key: &[u8], words: &[&[u8]]) -> Result<Option<Item>, AllocError>
    ensures { IfOk result (λ item.
        item ≡ item_of (keyed key.now (map (λ word. word.now) words.now))) }
{
    match *words {
        [word] => short_item(alloc, key, word),
        [key, subsystem] => table_item(alloc, key, subsystem),
        _ => Ok(None),
    }
}

/// The word with which a part begins that stands behind one that begins with a key.
#[tactic(auto, unfolding(crate::specs::WideItems::keyed))]
fn key_of<'a>(key: &'a [u8], words: &'a [&'a [u8]]) -> &'a [u8]
    ensures { result.now ≡ first_word (keyed key.now (map (λ word. word.now) words.now)) }
{
    match *words {
        [word] => if is_item_word(word) { word } else { key },
        [first, ..] => first,
        [] => &[],
    }
}

/// The items that words say.
#[tactic(auto, unfolding(crate::specs::WideItems::items_of))]
pub(crate) fn items_of(alloc: Global, words: &[&[u8]]) -> Result<Option<Items>, AllocError>
    ensures { IfOk result (λ items. items ≡ items_of (map (λ word. word.now) words.now)) }
{
    let mut items = Vec::new(alloc);
    if is_alone(words, "none") {
        return Ok(Some(Items::new(items)));
    }
    let parts = between_commas(alloc, words)?;
    let mut key: &[u8] = &[];
    for part in &parts {
        match item_behind(alloc, key, *part)? {
            Some(item) => items.push(item)?,
            None => return Ok(None),
        }
        let next = key_of(key, *part);
        key = next;
    }
    Ok(Some(Items::new(items)))
}
