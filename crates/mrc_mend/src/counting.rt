//! How many broken lines each change of a mend mends.

ghost use Rattle.std.specs.Prelude.{◌≡◌, ◌≤◌, length, IfOk};
ghost use Rattle.mrc_mend.specs.Judging.{MendOver, AllAre};

use crate::answers::Mend;
use crate::changes::Change;
use crate::judging::Texts;
use crate::losing::First;
use crate::weighing::weighed;
use mrc_wiring::Interfaces;
use std::alloc::{AllocError, Global};

/// How many of the lines that were broken at first the first changes mend, so many of them. The
/// interfaces come back, unless memory runs out.
fn mended_by(
    alloc: Global,
    interfaces: Interfaces,
    texts: &Texts<'_>,
    first: &First<'_>,
    changes: &[Change],
    count: usize,
) -> Result<(Interfaces, usize), AllocError>
    ensures { IfOk result (λ mended. mended.0 ≡ interfaces) }
{
    let Some(some) = changes.get(..count) else {
        return Ok((interfaces, 0));
    };
    let (interfaces, weight) = weighed(alloc, interfaces, texts, first, some)?;
    match weight {
        Some(weight) => {
            let broken = first.broken.len();
            Ok((interfaces, broken.saturating_sub(weight.lines)))
        }
        None => Ok((interfaces, 0)),
    }
}

/// How many lines each of the changes mends in addition to those before it. All together they mend
/// all that were broken at first.
fn counts(
    alloc: Global,
    mut interfaces: Interfaces,
    texts: &Texts<'_>,
    first: &First<'_>,
    changes: &[Change],
) -> Result<(Interfaces, Vec<usize>), AllocError>
    ensures { IfOk result (λ counted. counted.0 ≡ interfaces) }
{
    let mut counts = Vec::new(alloc);
    let mut before = 0usize;
    for count in 1..changes.len() {
        let (back, mended) = mended_by(alloc, interfaces, texts, first, changes, count)?;
        interfaces = back;
        counts.push(mended.saturating_sub(before))?;
        before = before.max(mended);
    }
    counts.push(first.broken.len().saturating_sub(before))?;
    Ok((interfaces, counts))
}

/// The mends, with how many lines each of their changes mends.
fn all_counted(
    alloc: Global,
    mut interfaces: Interfaces,
    texts: &Texts<'_>,
    first: &First<'_>,
    mut mends: Vec<Mend>,
) -> Result<Vec<Mend>, AllocError>
    requires { AllAre (MendOver interfaces texts.now) mends.items }
    ensures mends { IfOk result (λ counted.
        AllAre (MendOver interfaces texts.now) counted.items) }
    ensures count { IfOk result (λ counted. length counted.items ≤ length mends.items) }
{
    let mut counted = Vec::new(alloc);
    while let Some(mend) = mends.pop() {
        let Mend {
            changes,
            lost,
            mended: _,
        } = mend;
        let (back, mended) = counts(alloc, interfaces, texts, first, changes.as_slice())?;
        interfaces = back;
        counted.push(Mend {
            changes,
            lost,
            mended,
        })?;
    }
    drop(interfaces);
    counted.reverse();
    Ok(counted)
}

/// The mends. If two or more lines were broken at first, it is counted how many each change mends.
pub(crate) fn with_counts(
    alloc: Global,
    interfaces: Interfaces,
    texts: &Texts<'_>,
    first: &First<'_>,
    mends: Vec<Mend>,
) -> Result<Vec<Mend>, AllocError>
    requires { AllAre (MendOver interfaces texts.now) mends.items }
    ensures mends { IfOk result (λ counted.
        AllAre (MendOver interfaces texts.now) counted.items) }
    ensures count { IfOk result (λ counted. length counted.items ≤ length mends.items) }
{
    if first.broken.len() < 2 {
        drop(interfaces);
        return Ok(mends);
    }
    all_counted(alloc, interfaces, texts, first, mends)
}
