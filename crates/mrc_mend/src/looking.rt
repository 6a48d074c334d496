//! Which search is made for mends: of all that have few changes, or step by step.

ghost use Rattle.std.specs.Prelude.{◌≤◌, length, IfOk};
ghost use Rattle.mrc_mend.specs.Judging.{MendOver, AllAre};

use crate::answers::Progress;
use crate::changes::Change;
use crate::counting::with_counts;
use crate::judging::Texts;
use crate::losing::First;
use crate::searching::{Searched, Tries, search, tries_for};
use crate::stepping::{is_small, steps};
use mrc_base::Copies;
use mrc_wiring::Interfaces;
use std::alloc::{AllocError, Global};

/// If more lines are broken, mends are made step by step at first.
const MANY: usize = 8;

/// Which part of the tries of a search there is for steps if it has found nothing.
const PART: usize = 4;

/// The mends that are found by trying all of few changes; if there are none, step by step.
fn found_by_search<P: Progress>(
    alloc: Global,
    interfaces: &Interfaces,
    texts: &Texts<'_>,
    first: &First<'_>,
    next: &Vec<Vec<Change>>,
    most: usize,
    tries: &mut Tries,
    progress: &mut P,
) -> Result<Searched, AllocError>
    ensures mends { IfOk result (λ found.
        AllAre (MendOver interfaces.now texts.now) found.mends.items) }
    ensures few { IfOk result (λ found. length found.mends.items ≤ most) }
{
    let all = next.clone()?;
    let copy = interfaces.copy(alloc)?;
    let found = search(alloc, copy, texts, first, all, most, tries, progress)?;
    if !found.mends.is_empty() {
        return Ok(found);
    }
    tries.most = tries.done.saturating_add(tries_for(first) / PART);
    let all = next.clone()?;
    let copy = interfaces.copy(alloc)?;
    let stepped = steps(alloc, copy, texts, first, all, most, false, tries, progress)?;
    if stepped.mends.is_empty() {
        Ok(found)
    } else {
        Ok(stepped)
    }
}

/// The mends that are made step by step, if many lines are broken; but if a small one is found, or
/// none, those that are found by trying all of few changes.
fn found_by_steps<P: Progress>(
    alloc: Global,
    interfaces: &Interfaces,
    texts: &Texts<'_>,
    first: &First<'_>,
    next: &Vec<Vec<Change>>,
    most: usize,
    tries: &mut Tries,
    progress: &mut P,
) -> Result<Searched, AllocError>
    ensures mends { IfOk result (λ found.
        AllAre (MendOver interfaces.now texts.now) found.mends.items) }
    ensures few { IfOk result (λ found. length found.mends.items ≤ most) }
{
    let all = next.clone()?;
    let copy = interfaces.copy(alloc)?;
    let stepped = steps(alloc, copy, texts, first, all, most, true, tries, progress)?;
    if !stepped.mends.is_empty() && !is_small(stepped.mends.as_slice()) {
        return Ok(stepped);
    }
    let all = next.clone()?;
    let copy = interfaces.copy(alloc)?;
    search(alloc, copy, texts, first, all, most, tries, progress)
}

/// The mends that are found from these changes on, with how many lines each change mends.
pub(crate) fn look<P: Progress>(
    alloc: Global,
    interfaces: Interfaces,
    texts: &Texts<'_>,
    first: &First<'_>,
    next: Vec<Vec<Change>>,
    most: usize,
    progress: &mut P,
) -> Result<Searched, AllocError>
    ensures mends { IfOk result (λ found.
        AllAre (MendOver interfaces texts.now) found.mends.items) }
    ensures few { IfOk result (λ found. length found.mends.items ≤ most) }
{
    let mut tries = Tries {
        done: 0,
        most: tries_for(first),
    };
    let Searched { mends, cut_off } = if first.broken.len() > MANY {
        found_by_steps(
            alloc,
            &interfaces,
            texts,
            first,
            &next,
            most,
            &mut tries,
            progress,
        )?
    } else {
        found_by_search(
            alloc,
            &interfaces,
            texts,
            first,
            &next,
            most,
            &mut tries,
            progress,
        )?
    };
    let mends = with_counts(alloc, interfaces, texts, first, mends)?;
    Ok(Searched { mends, cut_off })
}
