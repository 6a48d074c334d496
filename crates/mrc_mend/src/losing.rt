//! How many facts changes lose.

use mrc_base::Fact;
use mrc_classes::Facts;
use mrc_wiring::{ForbiddenLine, Wired};
use mrc_wiring_text::Edition;
use mrc_words::{fact_named, fact_text};
use std::alloc::{AllocError, Global};
use std::collections::BTreeMap;

/// A wiring before any change, with its least set.
#[derive(Clone, Copy)]
pub(crate) struct First<'a> {
    pub(crate) wired: &'a Wired,
    pub(crate) facts: &'a Facts,
    /// What the policy forbids, so far as it is asked for.
    pub(crate) lines: &'a [ForbiddenLine],
    /// The numbers of those of these lines that are broken.
    pub(crate) broken: &'a BTreeMap<u32, ()>,
    /// The edition of its text: of version 4 that of version 3.
    pub(crate) edition: Edition,
    /// Whether its text is of version 4.
    pub(crate) is_wide: bool,
}

/// Whether the fact, by its names, is among the facts of the other wiring.
fn is_kept(
    alloc: Global,
    first: &First<'_>,
    wired: &Wired,
    facts: &Facts,
    fact: Fact,
) -> Result<bool, AllocError> {
    let text = fact_text(alloc, first.wired, fact)?;
    Ok(match fact_named(wired, text.as_str()) {
        Some(named) => facts.has(&named),
        None => false,
    })
}

/// How many of the first facts are not among these, by their names.
fn lost_by_names(
    alloc: Global,
    first: &First<'_>,
    wired: &Wired,
    facts: &Facts,
) -> Result<usize, AllocError> {
    let mut lost = 0usize;
    let mut next = first.facts.first();
    for _ in 0..first.facts.len() {
        let Some(fact) = next else {
            break;
        };
        if !is_kept(alloc, first, wired, facts, fact)? {
            lost = lost.saturating_add(1);
        }
        next = first.facts.after(fact);
    }
    Ok(lost)
}

/// How many of the first facts are not among these. A change adds no fact, so that is how many
/// fewer there are; but if a kind of births is gone, the classes have other numbers, and a line of
/// version 4 that is removed may be about several types, of which one then admits more.
pub(crate) fn lost(
    alloc: Global,
    first: &First<'_>,
    wired: &Wired,
    facts: &Facts,
) -> Result<usize, AllocError> {
    if first.wired.classes() == wired.classes() && !first.is_wide {
        Ok(first.facts.len().saturating_sub(facts.len()))
    } else {
        lost_by_names(alloc, first, wired, facts)
    }
}
