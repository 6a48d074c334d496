//! The mends of a wiring.

ghost use Rattle.std.specs.Prelude.{◌≡◌, IfOk, IfErr, IfSome, Err, map};
ghost use Rattle.mrc_base.specs.Reading.{UnlessMemory};
ghost use Rattle.mrc_interface.specs.Reading.{GivesAs, interfaces_of, step};
ghost use Rattle.mrc_check.specs.Texts.{InDefs, meaningless, stated_of};
ghost use Rattle.mrc_mend.specs.Causes.{IsCause};
ghost use Rattle.mrc_mend.specs.Judging.{MendOver, IsMend, AreAnswered, AreAtMost};
ghost use Rattle.mrc_mend.specs.Judging.{IsNeeded, IsNeededOf, HasCause};

use crate::causes::{Cause, cause_of};
use crate::changes::Change;
use crate::cutting::children;
use crate::heading::edition;
use crate::judging::{Texts, asked_lines, first_objection, stated_over};
use crate::looking::look;
use crate::losing::First;
use crate::searching::Searched;
use crate::weighing::broken_numbers;
use mrc_base::{Copies, OrMemory};
use mrc_check::{CaseFault, PolicyText, Stated};
use mrc_closure::make_alone;
use mrc_interface::read_interfaces;
use mrc_why::is_met;
use mrc_wiring::{Claim, Interfaces};
use std::alloc::{AllocError, Global};

/// Changes after which the answer is yes.
#[derive(Debug, Drop)]
pub struct Mend {
    /// The changes, in the order in which they are printed.
    pub changes: Vec<Change>,
    /// How many facts of the wiring's least set are lost by them.
    pub lost: usize,
    /// How many of the broken lines each change mends in addition to those before it; nothing if
    /// fewer than two lines were broken.
    pub mended: Vec<usize>,
}

impl Mend {
    /// The changes, which lose so many facts. It is not counted yet how many lines they mend.
    pub(crate) fn uncounted(alloc: Global, changes: Vec<Change>, lost: usize) -> Mend
        ensures { result.changes ≡ changes }
    {
        Mend {
            changes,
            lost,
            mended: Vec::new(alloc),
        }
    }
}

/// The mends that were found.
#[derive(Debug, Drop)]
pub struct Mends {
    /// Those of fewer changes first, and among these those that lose fewer facts.
    pub mends: Vec<Mend>,
    /// Whether the search ended at its bound, so that there may be more.
    pub cut_off: bool,
    /// How many lines were broken, of those that are asked for.
    pub broken: usize,
    /// What all broken lines have in common, if they are two or more.
    pub cause: Option<Cause>,
}

/// What there is to mend.
#[derive(Debug, Drop)]
pub enum Answer {
    /// Nothing: the answer is yes.
    Nothing,
    /// The answer is no, and these mend it.
    Found(Mends),
}

/// Who is told how far a search has come.
pub trait Progress {
    /// So many wirings were judged.
    fn tried(&mut self, tries: usize);

    /// A mend was found, of which these lines are printed. One that is found later may be a part of
    /// it, and then stands in its place.
    fn found(&mut self, lines: &[String]);
}

/// What the broken lines have in common, if all are asked for.
fn shared_cause(
    alloc: Global,
    claim: &Claim,
    only: Option<usize>,
) -> Result<Option<Cause>, AllocError>
    ensures { IfOk result (λ cause. IfSome cause (IsCause claim.now)) }
{
    match only {
        Some(_) => Ok(None),
        None => cause_of(alloc, claim),
    }
}

/// What there is to mend of texts that have this meaning.
fn answered<P: Progress>(
    alloc: Global,
    interfaces: Interfaces,
    texts: &Texts<'_>,
    first: &Stated,
    most: usize,
    progress: &mut P,
) -> Result<Answer, AllocError>
    ensures mends { IfOk result (AreAnswered (MendOver interfaces texts.now)) }
    ensures within { IfOk result (AreAtMost most) }
    ensures needed { IfOk result (IsNeeded texts.now.only first.now) }
    ensures cause { IfOk result (HasCause first.now.claim) }
{
    let wired = first.claim.wired();
    let made = make_alone(alloc, wired)?;
    let facts = &made.facts;
    let lines = asked_lines(alloc, first.claim.lines(), texts.only)?;
    let broken = broken_numbers(alloc, &lines, facts)?;
    if !is_met(alloc, first, facts)? {
        // Changes take facts away, so none brings back what is lacking.
        return Ok(Answer::Found(Mends {
            mends: Vec::new(alloc),
            cut_off: false,
            broken: broken.len(),
            cause: None,
        }));
    }
    let objection = first_objection(alloc, &first.claim, texts.only, facts)?;
    let Some(fact) = objection else {
        return Ok(Answer::Nothing);
    };
    let (edition, is_wide) = edition(alloc, texts.wiring)?;
    let before = First {
        wired,
        facts,
        lines: &lines,
        broken: &broken,
        edition,
        is_wide,
    };
    let next = children(alloc, &before, first, facts, &[], &fact)?;
    let cause = shared_cause(alloc, &first.claim, texts.only)?;
    let Searched { mends, cut_off } = look(
        alloc, interfaces, texts, &before, next, most, progress,
    )?;
    Ok(Answer::Found(Mends {
        mends,
        cut_off,
        broken: broken.len(),
        cause,
    }))
}

/// The interfaces of MIG files, typed once for all wirings.
fn interfaces_of(alloc: Global, defs: &[Vec<u8>]) -> Result<Interfaces, OrMemory<CaseFault>>
    ensures { GivesAs (λ interfaces. interfaces) meaningless result
        (step InDefs (interfaces_of (map (λ bytes. bytes.items) defs.now))) }
{
    let interfaces = match read_interfaces(alloc, defs) {
        Ok(interfaces) => interfaces,
        Err(refusal) => return Err(refusal.map_fault(CaseFault::Defs)),
    };
    match Interfaces::new(alloc, interfaces) {
        Ok(interfaces) => Ok(interfaces),
        Err((_, AllocError)) => Err(OrMemory::Memory),
    }
}

/// The mends of a wiring for a policy over MIG files, all from their bytes: `most` of them at most,
/// those of fewer changes first. They mend all lines of the policy, or only the line of the number
/// that is asked for. Else the first of the files that has no meaning.
pub fn find_mends<P: Progress>(
    alloc: Global,
    defs: &[Vec<u8>],
    wiring: &[u8],
    policy: &PolicyText<'_>,
    only: Option<usize>,
    most: usize,
    progress: &mut P,
) -> Result<Answer, OrMemory<CaseFault>>
    // Each mend that is answered was judged yes, applied as it is printed.
    ensures found { IfOk result (AreAnswered
        (IsMend (map (λ bytes. bytes.items) defs.now) wiring.now policy.now only)) }
    // There are no more than that.
    ensures within { IfOk result (AreAtMost most) }
    // Nothing is to be mended if and only if the least set is a yes to the lines that are asked
    // for, and has what is expected; else no set is, or it lacks such a fact. What the broken lines
    // are said to have in common is in the chain of each.
    ensures needed { IfOk result (IsNeededOf
        (stated_of (map (λ bytes. bytes.items) defs.now) wiring.now policy.now) only) }
    // Which fault it is: that of the first file.
    ensures fault { IfErr result (UnlessMemory (λ fault.
        stated_of (map (λ bytes. bytes.items) defs.now) wiring.now policy.now
        ≡ Err (meaningless fault))) }
{
    let interfaces = interfaces_of(alloc, defs)?;
    let first = match stated_over(alloc, interfaces.copy(alloc)?, wiring, policy) {
        Ok(stated) => stated,
        Err((_, refusal)) => return Err(refusal),
    };
    let texts = Texts {
        wiring,
        policy,
        only,
    };
    Ok(answered(alloc, interfaces, &texts, &first, most, progress)?)
}
