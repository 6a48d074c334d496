//! What `attack` answers: calls that lead to what a policy forbids.

ghost use Rattle.std.specs.Prelude.{◌≡◌, Some, None, Ok, IfOk, map};
ghost use Rattle.std.specs.List.{All};
ghost use Rattle.mrc_facts.specs.Sets.{has};
ghost use Rattle.mrc_model.specs.Rules.{IsLeast};
ghost use Rattle.mrc_wiring.specs.Table.{wiring_of};
ghost use Rattle.mrc_check.specs.Texts as meanings;
ghost use Rattle.mrc_why.specs.Broken.{HasYes};
ghost use Rattle.mrc_attack.specs.Attacks.{IsAttack, aim_of, aims};
ghost use Rattle.mrc_answer.specs.Attacking.{AreAttacksOn, IsSearched};
ghost use Rattle.mrc_answer.specs.Judging.{IsJudged, IsShownLine};
ghost use Rattle.mrc_answer.specs.Notices.{AreNotices};
ghost use Rattle.mrc_answer.specs.Texts as texts;
ghost use Rattle.mrc_answer.specs.Verified.{IsAttacked, HasNoAttack, form_of, searched};

use crate::answers::{Answer, Attacked, Reply};
use crate::demands::has_waived;
use crate::files::Files;
use crate::gathering::notices;
use crate::judging::{Judgement, broken_reply, judged, passed_reply, waived_reply};
use crate::notices::Notices;
use crate::replies::{meaning_reply, unbroken_reply};
use mrc_attack::{Attack, Listing, Progress, attacks};
use mrc_base::OrMemory;
use mrc_check::{Demand, Stated};
use mrc_why::{Broken, Verdict, is_waived_line, line_in};
use std::alloc::{AllocError, Global};

/// A script is printed by itself if one line is asked for.
fn form_of(only: Option<u32>) -> Listing
    ensures { result ≡ form_of only }
{
    match only {
        None => Listing::Listed,
        Some(_) => Listing::Script,
    }
}

/// The broken lines that are not waived.
fn unwaived(alloc: Global, told: &[Demand], broken: Vec<Broken>) -> Result<Vec<Broken>, AllocError>
    ensures { IfOk result (λ left. left.items ≡ searched told.now broken.items) }
{
    let mut left = Vec::new(alloc);
    for line in broken {
        if is_waived_line(told, line.line()) {
            drop(line);
        } else {
            left.push(line)?;
        }
    }
    Ok(left)
}

/// The verdict without the broken lines that are waived.
fn searched(alloc: Global, told: &[Demand], verdict: Verdict) -> Result<Verdict, AllocError>
    ensures { IfOk result (λ left. IsSearched told.now verdict left) }
{
    if has_waived(told) {
        let Verdict {
            facts,
            exposed,
            broken,
        } = verdict;
        match unwaived(alloc, told, broken) {
            Ok(broken) => Ok(Verdict {
                facts,
                exposed,
                broken,
            }),
            Err(error) => {
                drop((facts, exposed));
                Err(error)
            }
        }
    } else {
        Ok(verdict)
    }
}

/// What is found by a verdict, of all or of one line, and what is told besides.
fn found_by<P: Progress>(
    alloc: Global,
    files: &Files<'_>,
    stated: &Stated,
    verdict: &Verdict,
    only: Option<u32>,
    most: usize,
    progress: &mut P,
) -> Result<(Vec<Attack>, Notices), AllocError>
    requires { IsLeast (wiring_of stated.now.claim.table) (has verdict.now.facts) }
    ensures lines { IfOk result (λ both. map aim_of both.0.items
        ≡ aims only verdict.now.exposed verdict.now.broken.items) }
    ensures leaks { IfOk result (λ both.
        All (IsAttack (form_of only) stated.now.claim.table) both.0.items) }
    ensures notices { IfOk result (λ both. AreNotices files.now stated.now both.1) }
{
    let notices = notices(alloc, files, stated, &verdict.facts)?;
    let form = form_of(only);
    match attacks(
        alloc,
        stated.claim.wired(),
        verdict,
        form,
        only,
        most,
        progress,
    ) {
        Ok(found) => Ok((found, notices)),
        Err(error) => {
            drop(notices);
            Err(error)
        }
    }
}

/// What is answered of a verdict that is no yes: attacks on all that is objected to and not waived,
/// or on that of one line.
fn attacks_reply<'a, P: Progress>(
    alloc: Global,
    files: &Files<'_>,
    stated: Stated,
    found: Judgement,
    only: Option<u32>,
    most: usize,
    progress: &mut P,
) -> Result<Reply<'a>, AllocError>
    requires { IsJudged stated found }
    ensures { IfOk result (AreAttacksOn only files.now stated found) }
{
    let Judgement { verdict, told } = found;
    let verdict = match searched(alloc, told.as_slice(), verdict) {
        Ok(verdict) => verdict,
        Err(error) => {
            drop((stated, told));
            return Err(error);
        }
    };
    let both = found_by(alloc, files, &stated, &verdict, only, most, progress);
    drop(verdict);
    match both {
        Ok((found, notices)) => Ok(Reply {
            answer: Answer::Attacks(Attacked {
                stated,
                only,
                found,
                told,
            }),
            notices,
        }),
        Err(error) => {
            drop((stated, told));
            Err(error)
        }
    }
}

/// What is answered of a system of which nothing is objected to, all of it: yes, what is waived, or
/// what is expected and lacking.
fn unattacked<'a>(
    alloc: Global,
    files: &Files<'_>,
    stated: Stated,
    found: Judgement,
) -> Result<Reply<'a>, AllocError>
    requires says { texts.stated files.now.texts ≡ Ok stated }
    requires judged { IsJudged stated found }
    ensures { IfOk result (λ reply. IsAttacked None files.now reply.answer reply.notices) }
{
    if !found.is_passed() {
        return broken_reply(alloc, files, stated, found, None, None);
    }
    if found.told.is_empty() {
        return passed_reply(alloc, files, stated, found);
    }
    waived_reply(alloc, files, stated, found, None, None)
}

/// The same of what is told of one line.
fn unattacked_line<'a>(
    alloc: Global,
    files: &Files<'_>,
    stated: Stated,
    found: Judgement,
    line: Option<usize>,
    own: u32,
) -> Result<Reply<'a>, AllocError>
    requires says { texts.stated files.now.texts ≡ Ok stated }
    requires judged { IsJudged stated found }
    requires shown { IsShownLine line (Some own) found }
    ensures { IfOk result (λ reply. IsAttacked line files.now reply.answer reply.notices) }
{
    if found.is_passed() {
        return waived_reply(alloc, files, stated, found, line, Some(own));
    }
    broken_reply(alloc, files, stated, found, line, Some(own))
}

/// What is answered of attacks on files that mean this.
fn stated_attacked<'a, P: Progress>(
    alloc: Global,
    files: &Files<'_>,
    stated: Stated,
    line: Option<usize>,
    most: usize,
    progress: &mut P,
) -> Result<Reply<'a>, AllocError>
    requires { texts.stated files.now.texts ≡ Ok stated }
    ensures { IfOk result (λ reply. IsAttacked line files.now reply.answer reply.notices) }
{
    let found = match judged(alloc, &stated) {
        Ok(found) => found,
        Err(error) => {
            drop(stated);
            return Err(error);
        }
    };
    match line {
        None => {
            if found.verdict.is_yes() {
                unattacked(alloc, files, stated, found)
            } else {
                attacks_reply(alloc, files, stated, found, None, most, progress)
            }
        }
        Some(number) => match line_in(found.told.as_slice(), number) {
            Some(own) => {
                if found.verdict.is_yes() {
                    unattacked_line(alloc, files, stated, found, line, own)
                } else {
                    attacks_reply(alloc, files, stated, found, Some(own), most, progress)
                }
            }
            None => {
                drop((stated, found));
                Ok(unbroken_reply(alloc))
            }
        },
    }
}

/// What is answered of attacks on a system, or on one line of its policy. For each line so many
/// chains are played, at most.
pub fn attacked<'a, P: Progress>(
    alloc: Global,
    files: &Files<'_>,
    line: Option<usize>,
    most: usize,
    progress: &mut P,
) -> Result<Reply<'a>, AllocError>
    ensures right { IfOk result (λ reply.
        IsAttacked line files.now reply.answer reply.notices) }
    // If the least set is a yes, no attacks are answered.
    ensures only { (meant : meanings.Stated) → texts.stated files.now.texts ≡ Ok meant
        → HasYes meant.claim → IfOk result (λ reply. HasNoAttack reply.answer) }
{
    match Stated::read(
        alloc,
        files.texts.defs.as_slice(),
        files.texts.wiring.as_slice(),
        &files.texts.asked_policy(),
    ) {
        Ok(stated) => stated_attacked(alloc, files, stated, line, most, progress),
        Err(OrMemory::Fault(fault)) => Ok(meaning_reply(alloc, fault)),
        Err(OrMemory::Memory) => Err(AllocError),
    }
}
