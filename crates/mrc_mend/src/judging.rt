//! Whether changes mend a wiring.

ghost use Rattle.std.specs.Prelude.{◌≡◌, ◌==◌, filter, find, IfOk, IfSome, IfNone};
ghost use Rattle.mrc_facts.specs.Sets.{has};
ghost use Rattle.mrc_model.specs.Rules.{IsLeast};
ghost use Rattle.mrc_wiring.specs.Table.{wiring_of};
ghost use Rattle.mrc_check.specs.Trusted.{AreSecure};
ghost use Rattle.mrc_why.specs.Broken.{is_broken, HasYes, HasNoYes};
ghost use Rattle.mrc_check.specs.Texts.{GivesOrReturns, meaningless, stated_over};
ghost use Rattle.mrc_mend.specs.Judging.{asked_lines, of_line, MendOver, IfMending};
ghost use Rattle.mrc_mend.specs.Judging.{IsYesTo};

use crate::changes::{Change, mended};
use crate::cutting::children;
use crate::losing::{First, lost};
use mrc_base::{Fact, OrMemory};
use mrc_check::{CaseFault, PolicyText, Stated, System, first_exposed};
use mrc_classes::Facts;
use mrc_closure::make_alone;
use mrc_why::{forbidden_fact, is_met};
use mrc_wiring::{Claim, ForbiddenLine, Interfaces};
use std::alloc::{AllocError, Global};
use std::marker::Model;

/// The bytes of a wiring that is to be mended, a policy, and the number of the only line of the policy
/// that is asked for, if not all are.
#[derive(Drop)]
pub(crate) struct Texts<'a> {
    pub(crate) wiring: &'a [u8],
    pub(crate) policy: &'a PolicyText<'a>,
    pub(crate) only: Option<usize>,
}

impl<'a> Model for Texts<'a> {
    ghost use Rattle.mrc_mend.specs.Judging as definitions;

    ghost Value = { definitions.Texts };

    ghost view = { λ t. record {
      wiring = t.wiring.now;
      policy = t.policy.now;
      only = t.only;
    } };
}

/// What changes do.
#[derive(Drop)]
pub(crate) enum Verdict {
    /// They mend the wiring, and lose so many facts.
    Mends(usize),
    /// They don't; these change more.
    Fails(Vec<Vec<Change>>),
    /// The text with the changes has no meaning.
    Senseless,
}

/// Those of the lines that have this number.
fn lines_of(
    alloc: Global,
    lines: &[ForbiddenLine],
    number: usize,
) -> Result<Vec<ForbiddenLine>, AllocError>
    ensures { IfOk result (λ found.
        found.items ≡ filter (λ line. line.line == number) lines.now) }
{
    lines
        .iter()
        .copied()
        .filter(|line| line.line as usize == number)
        .collect(alloc)
}

/// Those of a policy's lines that are asked for: all, or those of one number.
pub(crate) fn asked_lines(
    alloc: Global,
    lines: &[ForbiddenLine],
    only: Option<usize>,
) -> Result<Vec<ForbiddenLine>, AllocError>
    ensures { IfOk result (λ asked. asked.items ≡ asked_lines only lines.now) }
{
    match only {
        None => lines.to_vec(alloc),
        Some(number) => lines_of(alloc, lines, number),
    }
}

/// The first of the lines that forbids one of the facts.
fn broken_of(lines: &[ForbiddenLine], facts: &Facts) -> Option<ForbiddenLine>
    ensures { result ≡ find (is_broken (has facts.now)) lines.now }
{
    for line in lines {
        if facts.has(&forbidden_fact(line)) {
            return Some(*line);
        }
    }
    None
}

/// The first line that is asked for and forbids a fact of the least set, by which no task could
/// rewrite a trusted one. If there is none, the least set is a yes to these lines; if there is one,
/// no set is.
fn first_broken(
    alloc: Global,
    claim: &Claim,
    only: Option<usize>,
    facts: &Facts,
) -> Result<Option<ForbiddenLine>, AllocError>
    requires least { IsLeast (wiring_of claim.now.table) (has facts.now) }
    requires secure { AreSecure (wiring_of claim.now.table) (has facts.now)
        claim.now.table.trusts }
    ensures yes { IfOk result (λ line. IfNone line (HasYes (of_line only claim.now))) }
    ensures no { IfOk result (λ line. IfSome line (λ _. HasNoYes (of_line only claim.now))) }
{
    let asked = asked_lines(alloc, claim.lines(), only)?;
    Ok(broken_of(&asked, facts))
}

/// The first fact of the least set that is objected to: the hold by which a task could rewrite a
/// trusted one, or else what the first broken line forbids that is asked for. If there is none, the
/// least set is a yes to these lines; if there is one, no set is.
pub(crate) fn first_objection(
    alloc: Global,
    claim: &Claim,
    only: Option<usize>,
    facts: &Facts,
) -> Result<Option<Fact>, AllocError>
    requires { IsLeast (wiring_of claim.now.table) (has facts.now) }
    ensures yes { IfOk result (λ fact. IfNone fact (HasYes (of_line only claim.now))) }
    ensures no { IfOk result (λ fact. IfSome fact (λ _. HasNoYes (of_line only claim.now))) }
{
    match first_exposed(claim.wired(), facts) {
        Some((_, fact)) => Ok(Some(fact)),
        None => match first_broken(alloc, claim, only, facts)? {
            Some(line) => Ok(Some(forbidden_fact(&line))),
            None => Ok(None),
        },
    }
}

/// What the bytes of a wiring and of a policy mean over interfaces. With a refusal the interfaces
/// come back.
#[tactic(auto, using(crate::proofs::ClaimLaws::table_kept))]
pub(crate) fn stated_over(
    alloc: Global,
    interfaces: Interfaces,
    wiring: &[u8],
    policy: &PolicyText<'_>,
) -> Result<Stated, (Interfaces, OrMemory<CaseFault>)>
    ensures told { GivesOrReturns (λ stated. stated) meaningless interfaces result
        (stated_over interfaces wiring.now policy.now) }
    ensures kept { IfOk result (λ stated. stated.claim.table.interfaces ≡ interfaces) }
{
    match System::over(alloc, interfaces, wiring)?.claim(alloc, policy) {
        Ok(stated) => Ok(stated),
        Err((system, refusal)) => {
            let System {
                lines,
                known,
                wired,
            } = system;
            drop((lines, known));
            Err((wired.into_interfaces(), refusal))
        }
    }
}

/// What more is to be tried after these changes, since the fact is objected to; nothing if they are
/// the last.
fn next_of(
    alloc: Global,
    first: &First<'_>,
    stated: &Stated,
    facts: &Facts,
    changes: &[Change],
    fact: &Fact,
    are_last: bool,
) -> Result<Vec<Vec<Change>>, AllocError> {
    if are_last {
        return Ok(Vec::new(alloc));
    }
    children(alloc, first, stated, facts, changes, fact)
}

/// What changes do after which nothing that is asked for is objected to: they mend the wiring,
/// unless it then lacks what the policy expects. Changes take facts away, so none that change more
/// bring it back.
fn yes_verdict(
    alloc: Global,
    only: Option<usize>,
    first: &First<'_>,
    stated: &Stated,
    facts: &Facts,
) -> Result<Verdict, AllocError>
    requires least { IsLeast (wiring_of stated.now.claim.table) (has facts.now) }
    requires yes { HasYes (of_line only stated.now.claim) }
    ensures { IfOk result (IfMending (IsYesTo only stated.now)) }
{
    if is_met(alloc, stated, facts)? {
        let lost = lost(alloc, first, stated.claim.wired(), facts)?;
        return Ok(Verdict::Mends(lost));
    }
    Ok(Verdict::Fails(Vec::new(alloc)))
}

/// What the changes do that have this meaning.
fn verdict_of(
    alloc: Global,
    only: Option<usize>,
    first: &First<'_>,
    stated: &Stated,
    changes: &[Change],
    are_last: bool,
) -> Result<Verdict, AllocError>
    ensures { IfOk result (IfMending (IsYesTo only stated.now)) }
{
    let wired = stated.claim.wired();
    let made = make_alone(alloc, wired)?;
    match first_objection(alloc, &stated.claim, only, &made.facts)? {
        None => yes_verdict(alloc, only, first, stated, &made.facts),
        Some(fact) => {
            let next = next_of(alloc, first, stated, &made.facts, changes, &fact, are_last)?;
            Ok(Verdict::Fails(next))
        }
    }
}

/// What the changes do. The interfaces come back, unless memory runs out. If the changes are the
/// last, it is not looked at what more is to be tried.
pub(crate) fn judged(
    alloc: Global,
    interfaces: Interfaces,
    texts: &Texts<'_>,
    first: &First<'_>,
    changes: &[Change],
    are_last: bool,
) -> Result<(Interfaces, Verdict), AllocError>
    ensures kept { IfOk result (λ judged. judged.0 ≡ interfaces) }
    ensures mends { IfOk result (λ judged.
        IfMending (MendOver interfaces texts.now changes.now) judged.1) }
{
    let text = mended(alloc, texts.wiring, changes)?;
    match stated_over(alloc, interfaces, &text, texts.policy) {
        Ok(stated) => {
            let verdict = verdict_of(alloc, texts.only, first, &stated, changes, are_last)?;
            Ok((stated.claim.into_wired().into_interfaces(), verdict))
        }
        Err((interfaces, refusal)) => match refusal {
            OrMemory::Fault(_) => Ok((interfaces, Verdict::Senseless)),
            OrMemory::Memory => Err(AllocError),
        },
    }
}
