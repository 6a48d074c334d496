//! What a class accepts.

ghost use Rattle.std.specs.Prelude.{◌≡◌, List, ℕ, map, IfOk};
ghost use Rattle.std.specs.List.{slice_split};
ghost use Rattle.mrc_wiring_text.specs.Lexis.{is_comma};
ghost use Rattle.mrc_wiring_text.specs.Items.{table_item, item_of, is_none, items_of};

use crate::lexis::is_word;
use crate::names::Name;
use std::alloc::{AllocError, Global};
use std::marker::Model;

/// One item of what a class accepts.
#[derive(Debug, Drop)]
pub enum Item {
    /// `request S`: the requests of the subsystem S.
    Request(Name),
    /// `reply S`: the replies of the subsystem S.
    Reply(Name),
    /// `destroyed`: notices that the receive right of a port was destroyed.
    Destroyed,
}

/// What a class accepts, in the order of the line. `none` is the list without items.
#[derive(Debug, Drop)]
pub struct Items {
    items: Vec<Item>,
}

impl Model for Items {
    ghost use Rattle.std.specs.Prelude.{List};
    ghost use Rattle.mrc_wiring_text.specs.declared.items.Item.{Item};

    ghost Value = { List Item };

    ghost view = { λ a. a.items.items };
}

impl Items {
    /// These items, in their order.
    pub fn new(items: Vec<Item>) -> Items
        ensures { result ≡ items.items }
    {
        Items { items }
    }

    /// The items in order.
    pub fn as_slice(&self) -> &[Item]
        ensures { result.now ≡ self.now }
    {
        self.items.as_slice()
    }
}

/// The item that a word and a name say: `request S` or `reply S`; `None` where they say neither.
#[tactic(auto, unfolding(crate::specs::Items::table_item))]
pub fn table_item(alloc: Global, key: &[u8], subsystem: &[u8]) -> Result<Option<Item>, AllocError>
    ensures { IfOk result (λ item. item ≡ table_item key.now subsystem.now) }
{
    if is_word(key, "request") {
        Ok(Name::new(alloc, subsystem)?.map(|name| Item::Request(name)))
    } else if is_word(key, "reply") {
        Ok(Name::new(alloc, subsystem)?.map(|name| Item::Reply(name)))
    } else {
        Ok(None)
    }
}

/// The item that words say.
#[tactic(auto, unfolding(crate::specs::Items::item_of))]
fn item_of(alloc: Global, words: &[&[u8]]) -> Result<Option<Item>, AllocError>
    ensures { IfOk result (λ item. item ≡ item_of (map (λ word. word.now) words.now)) }
{
    match *words {
        [key] if is_word(key, "destroyed") => Ok(Some(Item::Destroyed)),
        [key, subsystem] => table_item(alloc, key, subsystem),
        _ => Ok(None),
    }
}

/// Whether words are `none` alone.
fn is_none(words: &[&[u8]]) -> bool
    ensures { result ≡ is_none (map (λ word. word.now) words.now) }
{
    match *words {
        [word] => is_word(word, "none"),
        _ => false,
    }
}

/// What stands between commas.
fn between_commas<'a>(
    alloc: Global,
    words: &'a [&'a [u8]],
) -> Result<Vec<&'a [&'a [u8]]>, AllocError>
    ensures { IfOk result (λ found. map (λ part. map (λ word. word.now) part.now) found.items ≡
        slice_split is_comma (map (λ word. word.now) words.now)) }
{
    words.split(|word| is_word(*word, ",")).collect(alloc)
}

/// The items that words say.
#[tactic(auto, unfolding(crate::specs::Items::items_of))]
pub(crate) fn items_of(alloc: Global, words: &[&[u8]]) -> Result<Option<Items>, AllocError>
    ensures { IfOk result (λ items. items ≡ items_of (map (λ word. word.now) words.now)) }
{
    let mut items = Vec::new(alloc);
    if is_none(words) {
        return Ok(Some(Items { items }));
    }
    let parts = between_commas(alloc, words)?;
    for part in &parts {
        match item_of(alloc, *part)? {
            Some(item) => items.push(item)?,
            None => return Ok(None),
        }
    }
    Ok(Some(Items { items }))
}
