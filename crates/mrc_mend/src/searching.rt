//! The search for mends that tries all of few changes: fewer changes first.

ghost use Rattle.std.specs.Prelude.{◌≡◌, ◌≤◌, length, IfOk, OnOk};
ghost use Rattle.mrc_mend.specs.Judging.{MendOver, AllAre};

use crate::answers::{Mend, Progress};
use crate::changes::Change;
use crate::extending::{DEEPEST, includes_all, key_of};
use crate::judging::{Texts, Verdict, judged};
use crate::losing::First;
use crate::telling::tell_last;
use mrc_wiring::Interfaces;
use std::alloc::{AllocError, Global};
use std::collections::BTreeMap;

/// How many wirings are judged at most.
const TRIES: usize = 2_000;

/// How many wirings are judged at least, however large they are.
const FEWEST: usize = 4;

/// What judging them may cost: of 64 tasks, 384 classes and no facts it would be enough for 610.
const COSTS: usize = 15_000_000;

/// As many facts cost as much to find as one task at one class to look at.
const FACTS: usize = 6;

/// Changes that are to be tried, by how many they are, and then in the order in which they were
/// found.
#[derive(Drop)]
struct Queue {
    waiting: BTreeMap<(usize, usize), Vec<Change>>,
    seen: BTreeMap<String, ()>,
}

impl Queue {
    fn new(alloc: Global) -> Queue {
        Queue {
            waiting: BTreeMap::new(alloc),
            seen: BTreeMap::new(alloc),
        }
    }

    /// Adds changes that were not there before.
    fn add(&mut self, alloc: Global, changes: Vec<Change>) -> Result<(), AllocError> {
        if changes.len() > DEEPEST {
            return Ok(());
        }
        let key = key_of(alloc, changes.as_slice())?;
        if self.seen.insert(key, ())?.is_none() {
            let place = (changes.len(), self.seen.len());
            let _ = self.waiting.insert(place, changes)?;
        }
        Ok(())
    }

    /// Adds all of these that were not there before.
    fn add_all(&mut self, alloc: Global, next: Vec<Vec<Change>>) -> Result<(), AllocError> {
        for changes in next {
            self.add(alloc, changes)?;
        }
        Ok(())
    }
}

/// Whether one of the mends is a part of the changes.
pub(crate) fn is_covered(found: &[Mend], changes: &[Change]) -> bool {
    for mend in found {
        if includes_all(changes, mend.changes.as_slice()) {
            return true;
        }
    }
    false
}

/// Whether no more mends are wanted than were found, where the next changes are so many: all mends
/// that are as small as the last are found first.
fn is_enough(found: &[Mend], most: usize, size: usize) -> bool {
    match found.last() {
        Some(last) => found.len() >= most && size > last.changes.len(),
        None => most == 0,
    }
}

/// The next changes to be tried.
fn next_of(queue: &mut Queue, found: &[Mend], most: usize) -> Option<Vec<Change>> {
    for _ in 0..queue.waiting.len() {
        let (place, changes) = queue.waiting.pop_first()?;
        if is_enough(found, most, place.0) {
            return None;
        }
        if !is_covered(found, changes.as_slice()) {
            return Some(changes);
        }
    }
    None
}

/// Adds a mend, and drops those of which it is a part.
pub(crate) fn add_mend(
    interfaces: &Interfaces,
    texts: &Texts<'_>,
    found: &mut Vec<Mend>,
    mend: Mend,
) -> Result<(), AllocError>
    requires one { MendOver interfaces.now texts.now mend.changes.items }
    requires all { AllAre (MendOver interfaces.now texts.now) found.old.items }
    ensures { OnOk result (AllAre (MendOver interfaces.now texts.now) found.new.items) }
{
    found.retain(|known| !includes_all(known.changes.as_slice(), mend.changes.as_slice()));
    found.push(mend)?;
    Ok(())
}

/// Tries the changes. The interfaces come back, unless memory runs out.
fn try_one(
    alloc: Global,
    interfaces: Interfaces,
    texts: &Texts<'_>,
    first: &First<'_>,
    changes: Vec<Change>,
    queue: &mut Queue,
    found: &mut Vec<Mend>,
) -> Result<Interfaces, AllocError>
    requires { AllAre (MendOver interfaces texts.now) found.old.items }
    ensures kept { IfOk result (λ tried. tried ≡ interfaces) }
    ensures mends { OnOk result (AllAre (MendOver interfaces texts.now) found.new.items) }
{
    let are_last = changes.len() >= DEEPEST;
    let (interfaces, verdict) = judged(
        alloc,
        interfaces,
        texts,
        first,
        changes.as_slice(),
        are_last,
    )?;
    match verdict {
        Verdict::Mends(lost) => {
            let mend = Mend::uncounted(alloc, changes, lost);
            add_mend(&interfaces, texts, found, mend)?
        }
        Verdict::Fails(next) => queue.add_all(alloc, next)?,
        Verdict::Senseless => {}
    }
    Ok(interfaces)
}

/// How many wirings are judged at most, where this is the first.
pub(crate) fn tries_for(first: &First<'_>) -> usize {
    let places = first.wired.tasks() as usize * first.wired.classes() as usize;
    let cost = places.saturating_add(first.facts.len() / FACTS);
    (COSTS / cost.max(1)).clamp(FEWEST, TRIES)
}

/// The best of the mends, so many at most.
pub(crate) fn best(
    interfaces: &Interfaces,
    texts: &Texts<'_>,
    mut found: Vec<Mend>,
    most: usize,
) -> Result<Vec<Mend>, AllocError>
    requires { AllAre (MendOver interfaces.now texts.now) found.items }
    ensures mends { IfOk result (λ best.
        AllAre (MendOver interfaces.now texts.now) best.items) }
    ensures few { IfOk result (λ best. length best.items ≤ most) }
{
    found.sort_by_key(|mend| (mend.changes.len(), mend.lost))?;
    found.truncate(most);
    Ok(found)
}

/// How many wirings were judged, and how many are to be at most.
#[derive(Drop)]
pub(crate) struct Tries {
    pub(crate) done: usize,
    pub(crate) most: usize,
}

impl Tries {
    /// Whether one more is to be judged.
    pub(crate) fn are_left(&self) -> bool {
        self.done < self.most
    }

    /// One more was judged.
    pub(crate) fn count<P: Progress>(&mut self, progress: &mut P) {
        self.done = self.done.saturating_add(1);
        progress.tried(self.done);
    }
}

/// What a search has found.
#[derive(Drop)]
pub(crate) struct Searched {
    pub(crate) mends: Vec<Mend>,
    /// Whether it ended at its bound.
    pub(crate) cut_off: bool,
}

/// The mends that are found from these changes on.
pub(crate) fn search<P: Progress>(
    alloc: Global,
    mut interfaces: Interfaces,
    texts: &Texts<'_>,
    first: &First<'_>,
    next: Vec<Vec<Change>>,
    most: usize,
    tries: &mut Tries,
    progress: &mut P,
) -> Result<Searched, AllocError>
    ensures mends { IfOk result (λ mends.
        AllAre (MendOver interfaces texts.now) mends.mends.items) }
    ensures few { IfOk result (λ mends. length mends.mends.items ≤ most) }
{
    let mut queue = Queue::new(alloc);
    let mut found = Vec::new(alloc);
    queue.add_all(alloc, next)?;
    for _ in 0..tries_for(first) {
        let Some(changes) = next_of(&mut queue, found.as_slice(), most) else {
            let mends = best(&interfaces, texts, found, most)?;
            return Ok(Searched {
                mends,
                cut_off: false,
            });
        };
        let before = found.len();
        interfaces = try_one(
            alloc, interfaces, texts, first, changes, &mut queue, &mut found,
        )?;
        tries.count(progress);
        tell_last(alloc, texts.wiring, &found, before, progress)?;
    }
    let cut_off = next_of(&mut queue, found.as_slice(), most).is_some();
    let mends = best(&interfaces, texts, found, most)?;
    Ok(Searched { mends, cut_off })
}
