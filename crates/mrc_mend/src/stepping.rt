//! Mends that are made step by step: each step is the change that mends the most lines.

ghost use Rattle.std.specs.Prelude.{◌≡◌, ◌≤◌, length, IfOk, OnOk, IfSome};
ghost use Rattle.mrc_mend.specs.Judging.{MendOver, AllAre};

use crate::answers::{Mend, Progress};
use crate::changes::Change;
use crate::extending::DEEPEST;
use crate::judging::{Texts, Verdict, judged};
use crate::losing::First;
use crate::searching::{Searched, Tries, add_mend, best, is_covered};
use crate::telling::tell_last;
use crate::weighing::{Weight, weighed};
use mrc_wiring::Interfaces;
use std::alloc::{AllocError, Global};

/// How many changes are made at most, one after the other.
const STEPS: usize = 64;

/// Changes, and how much they leave.
#[derive(Drop)]
struct Weighed {
    changes: Vec<Change>,
    weight: Weight,
}

/// How much is left: of two, what comes first is the better step. What mends lines comes before
/// what mends none. Of that which mends lines, what mends more, and then what loses less; of the
/// rest what loses more, since it cuts more ways.
fn order(weight: Weight, left: usize) -> (bool, usize, usize) {
    let now = weight.lines.saturating_add(usize::from(weight.is_exposed));
    if now < left {
        (false, now, weight.lost)
    } else {
        (true, now, usize::MAX - weight.lost)
    }
}

/// These changes, with how much they leave, the best first. What has no meaning is dropped. The
/// interfaces come back, unless memory runs out.
fn all_weighed<P: Progress>(
    alloc: Global,
    mut interfaces: Interfaces,
    texts: &Texts<'_>,
    first: &First<'_>,
    next: Vec<Vec<Change>>,
    left: usize,
    tries: &mut Tries,
    progress: &mut P,
) -> Result<(Interfaces, Vec<Weighed>), AllocError>
    ensures { IfOk result (λ all. all.0 ≡ interfaces) }
{
    let mut all = Vec::new(alloc);
    for changes in next {
        let (back, weight) = weighed(alloc, interfaces, texts, first, changes.as_slice())?;
        interfaces = back;
        tries.count(progress);
        if let Some(weight) = weight {
            all.push(Weighed { changes, weight })?;
        }
    }
    all.sort_by_key(|known| order(known.weight, left))?;
    Ok((interfaces, all))
}

/// How much these leave, in lines, and one for a trusted task.
fn left_by(weighed: &Weighed) -> usize {
    let Weight {
        lines,
        is_exposed,
        ..
    } = weighed.weight;
    lines.saturating_add(usize::from(is_exposed))
}

/// The best of these steps. The interfaces come back, unless memory runs out.
fn best_step<P: Progress>(
    alloc: Global,
    interfaces: Interfaces,
    texts: &Texts<'_>,
    first: &First<'_>,
    next: Vec<Vec<Change>>,
    left: usize,
    tries: &mut Tries,
    progress: &mut P,
) -> Result<(Interfaces, Option<Weighed>), AllocError>
    ensures { IfOk result (λ step. step.0 ≡ interfaces) }
{
    let (interfaces, all) = all_weighed(
        alloc, interfaces, texts, first, next, left, tries, progress,
    )?;
    Ok((interfaces, all.into_iter().next()))
}

/// A mend that is made step by step from these changes on, if the steps lead to one. The interfaces
/// come back, unless memory runs out.
fn walked<P: Progress>(
    alloc: Global,
    mut interfaces: Interfaces,
    texts: &Texts<'_>,
    first: &First<'_>,
    start: Weighed,
    tries: &mut Tries,
    progress: &mut P,
) -> Result<(Interfaces, Option<Mend>), AllocError>
    ensures kept { IfOk result (λ walked. walked.0 ≡ interfaces) }
    ensures mends { IfOk result (λ walked. IfSome walked.1 (λ mend.
        MendOver interfaces texts.now mend.changes.items)) }
{
    let mut now = start;
    for _ in 0..STEPS {
        if !tries.are_left() {
            return Ok((interfaces, None));
        }
        let left = left_by(&now);
        let (back, verdict) = judged(
            alloc,
            interfaces,
            texts,
            first,
            now.changes.as_slice(),
            false,
        )?;
        tries.count(progress);
        let next = match verdict {
            Verdict::Mends(lost) => {
                let mend = Mend::uncounted(alloc, now.changes, lost);
                return Ok((back, Some(mend)));
            }
            Verdict::Fails(next) => next,
            Verdict::Senseless => return Ok((back, None)),
        };
        let (back, step) = best_step(alloc, back, texts, first, next, left, tries, progress)?;
        interfaces = back;
        match step {
            Some(step) => now = step,
            None => return Ok((interfaces, None)),
        }
    }
    Ok((interfaces, None))
}

/// The changes without the one at this place.
fn without(alloc: Global, changes: &[Change], place: usize) -> Result<Vec<Change>, AllocError> {
    let mut fewer = Vec::new(alloc);
    for (other, change) in changes.iter().enumerate() {
        if other != place {
            fewer.push(change.clone()?)?;
        }
    }
    Ok(fewer)
}

/// The mend without the changes that it does not need. The interfaces come back, unless memory runs
/// out.
fn smaller<P: Progress>(
    alloc: Global,
    mut interfaces: Interfaces,
    texts: &Texts<'_>,
    first: &First<'_>,
    mend: Mend,
    tries: &mut Tries,
    progress: &mut P,
) -> Result<(Interfaces, Mend), AllocError>
    requires { MendOver interfaces texts.now mend.changes.items }
    ensures kept { IfOk result (λ smaller. smaller.0 ≡ interfaces) }
    ensures mends { IfOk result (λ smaller.
        MendOver interfaces texts.now smaller.1.changes.items) }
{
    let mut small = mend;
    for place in (0..small.changes.len()).rev() {
        let fewer = without(alloc, small.changes.as_slice(), place)?;
        let (back, verdict) = judged(alloc, interfaces, texts, first, fewer.as_slice(), true)?;
        interfaces = back;
        tries.count(progress);
        if let Verdict::Mends(lost) = verdict {
            small = Mend::uncounted(alloc, fewer, lost);
        }
    }
    Ok((interfaces, small))
}

/// Adds the mend, unless a part of it was found.
fn add_new(
    interfaces: &Interfaces,
    texts: &Texts<'_>,
    found: &mut Vec<Mend>,
    mend: Mend,
) -> Result<(), AllocError>
    requires one { MendOver interfaces.now texts.now mend.changes.items }
    requires all { AllAre (MendOver interfaces.now texts.now) found.old.items }
    ensures { OnOk result (AllAre (MendOver interfaces.now texts.now) found.new.items) }
{
    if is_covered(found.as_slice(), mend.changes.as_slice()) {
        return Ok(());
    }
    add_mend(interfaces, texts, found, mend)
}

/// Adds the mend without what it does not need. The interfaces come back, unless memory runs out.
fn add_smaller<P: Progress>(
    alloc: Global,
    interfaces: Interfaces,
    texts: &Texts<'_>,
    first: &First<'_>,
    mend: Mend,
    found: &mut Vec<Mend>,
    tries: &mut Tries,
    progress: &mut P,
) -> Result<Interfaces, AllocError>
    requires one { MendOver interfaces texts.now mend.changes.items }
    requires all { AllAre (MendOver interfaces texts.now) found.old.items }
    ensures kept { IfOk result (λ back. back ≡ interfaces) }
    ensures mends { OnOk result (AllAre (MendOver interfaces texts.now) found.new.items) }
{
    let (interfaces, mend) = smaller(alloc, interfaces, texts, first, mend, tries, progress)?;
    add_new(&interfaces, texts, found, mend)?;
    Ok(interfaces)
}

/// Adds the mend that is made step by step from these changes on, without what it does not need.
/// The interfaces come back, unless memory runs out.
fn add_walked<P: Progress>(
    alloc: Global,
    interfaces: Interfaces,
    texts: &Texts<'_>,
    first: &First<'_>,
    start: Weighed,
    found: &mut Vec<Mend>,
    tries: &mut Tries,
    progress: &mut P,
) -> Result<Interfaces, AllocError>
    requires { AllAre (MendOver interfaces texts.now) found.old.items }
    ensures kept { IfOk result (λ back. back ≡ interfaces) }
    ensures mends { OnOk result (AllAre (MendOver interfaces texts.now) found.new.items) }
{
    let (interfaces, mend) = walked(alloc, interfaces, texts, first, start, tries, progress)?;
    match mend {
        Some(mend) => add_smaller(
            alloc, interfaces, texts, first, mend, found, tries, progress,
        ),
        None => Ok(interfaces),
    }
}

/// Whether the first of the mends has so few changes that all mends of so few can be looked for.
pub(crate) fn is_small(found: &[Mend]) -> bool {
    match found.first() {
        Some(mend) => mend.changes.len() <= DEEPEST,
        None => false,
    }
}

/// The mends that are made step by step, each from another first change. If a small one is enough,
/// no more are made behind it.
pub(crate) fn steps<P: Progress>(
    alloc: Global,
    mut interfaces: Interfaces,
    texts: &Texts<'_>,
    first: &First<'_>,
    next: Vec<Vec<Change>>,
    most: usize,
    is_enough: bool,
    tries: &mut Tries,
    progress: &mut P,
) -> Result<Searched, AllocError>
    ensures mends { IfOk result (λ mends.
        AllAre (MendOver interfaces texts.now) mends.mends.items) }
    ensures few { IfOk result (λ mends. length mends.mends.items ≤ most) }
{
    let left = first.broken.len();
    let (back, starts) = all_weighed(alloc, interfaces, texts, first, next, left, tries, progress)?;
    interfaces = back;
    let mut found = Vec::new(alloc);
    for start in starts {
        let is_done = is_enough && is_small(found.as_slice());
        if is_done || found.len() >= most || !tries.are_left() {
            break;
        }
        let before = found.len();
        interfaces = add_walked(
            alloc, interfaces, texts, first, start, &mut found, tries, progress,
        )?;
        tell_last(alloc, texts.wiring, &found, before, progress)?;
    }
    let mends = best(&interfaces, texts, found, most)?;
    drop(interfaces);
    Ok(Searched {
        mends,
        cut_off: true,
    })
}
