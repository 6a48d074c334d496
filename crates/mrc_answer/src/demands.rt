//! What is told of a policy of version 3.

ghost use Rattle.std.specs.Prelude.{◌≡◌, filter, length, map, IfOk};
ghost use Rattle.std.specs.List.{list_any};
ghost use Rattle.mrc_facts.specs.Sets.{has};
ghost use Rattle.mrc_wide_policy.specs.Asked.{waiver_number};
ghost use Rattle.mrc_wide_policy.specs.Policies.{stands_of};
ghost use Rattle.mrc_why.specs.Answered as definitions;
ghost use Rattle.mrc_answer.specs.Expected.{does_expect, is_expected, count_of, count_over};
ghost use Rattle.mrc_answer.specs.Expected.{expected_facts};
ghost use Rattle.mrc_answer.specs.Notices.{is_idle, is_waived_by, demand_notices_of};

use crate::files::Texts;
use crate::notices::DemandNotices;
use mrc_base::OrMemory;
use mrc_check::{Demand, Stated};
use mrc_rows::Facts;
use mrc_stand_for::{Known, StandFault};
use mrc_why::{is_waived, told};
use mrc_wide_policy::{Asked, FactLine, Stance, WaivedLine, asked_by, read_stands};
use mrc_wide_text::{Said, read_said};
use std::alloc::{AllocError, Global};

/// Whether the demand is waived by the line of this number.
fn is_waived_by(number: u32, stance: Stance) -> bool
    ensures { result ≡ is_waived_by number stance }
{
    match stance {
        Stance::Waived(own) => own == number,
        Stance::Forbidden | Stance::Expected => false,
    }
}

/// Whether the line of this number waives one of the demands that are told.
fn waives_one(told: &[Demand], number: u32) -> bool
    ensures { result ≡ list_any (λ demand. is_waived_by number demand.stance) told.now }
{
    told.iter()
        .any(|demand| is_waived_by(number, demand.stance))
}

/// Whether the line waives none of the demands that are told.
fn is_idle(told: &[Demand], line: &WaivedLine) -> bool
    ensures { result ≡ is_idle told.now line.now }
{
    !waives_one(told, line.number)
}

/// The numbers of the lines that waive none of them.
fn idle_lines(alloc: Global, told: &[Demand], lines: &[WaivedLine]) -> Result<Vec<u32>, AllocError>
    ensures { IfOk result (λ idle.
        idle.items ≡ map waiver_number (filter (is_idle told.now) lines.now)) }
{
    let mut idle = Vec::new(alloc);
    for line in lines {
        if is_idle(told, line) {
            idle.push(line.number)?;
        }
    }
    Ok(idle)
}

fn does_expect(line: &FactLine) -> bool
    ensures { result ≡ does_expect line.now }
{
    line.expects
}

/// Whether one of the lines expects.
fn has_expecting(lines: &[FactLine]) -> bool
    ensures { result ≡ list_any does_expect lines.now }
{
    lines.iter().any(|line| does_expect(line))
}

/// Whether one of the holdings is waived.
pub(crate) fn has_waived(demands: &[Demand]) -> bool
    ensures { result ≡ list_any definitions.is_waived demands.now }
{
    demands.iter().any(|demand| is_waived(demand))
}

/// What is told of what a policy demands, by these facts.
pub(crate) fn demand_notices(
    alloc: Global,
    stated: &Stated,
    facts: &Facts,
) -> Result<DemandNotices, AllocError>
    ensures { IfOk result (λ notices. notices ≡ demand_notices_of stated.now (has facts.now)) }
{
    let told = told(alloc, facts, stated.demands.as_slice())?;
    let idle = idle_lines(alloc, &told, stated.stands.waived.as_slice())?;
    Ok(DemandNotices {
        waives: has_waived(stated.demands.as_slice()),
        expects_nothing: stated.stands.is_wide && !has_expecting(stated.stands.lines.as_slice()),
        idle,
        unjudged: 0,
    })
}

fn is_expected(asked: &Asked) -> bool
    ensures { result ≡ is_expected asked.now }
{
    match asked.stance {
        Stance::Expected => true,
        Stance::Forbidden | Stance::Waived(_) => false,
    }
}

/// How many holdings are expected.
fn expected_in(asked: &[Asked]) -> usize
    ensures { result ≡ length (filter is_expected asked.now) }
{
    let mut count = 0usize;
    for one in asked {
        if is_expected(one) {
            count += 1;
        }
    }
    count
}

/// How many facts a policy expects over a wiring after whose lines this is known.
fn count_of(alloc: Global, known: Known, policy: &[u8]) -> Result<usize, AllocError>
    ensures { IfOk result (λ count. count ≡ count_of (stands_of known policy.now)) }
{
    match read_stands(alloc, known, policy) {
        Ok(stands) => {
            let asked = asked_by(alloc, &stands)?;
            Ok(expected_in(&asked))
        }
        Err(OrMemory::Fault(_)) => Ok(0),
        Err(OrMemory::Memory) => Err(AllocError),
    }
}

/// How many facts a policy expects over a wiring that is read, if no line of it is refused.
fn count_over(
    alloc: Global,
    end: Result<Known, StandFault>,
    policy: &[u8],
) -> Result<usize, AllocError>
    ensures { IfOk result (λ count. count ≡ count_over policy.now end) }
{
    match end {
        Ok(known) => count_of(alloc, known, policy),
        Err(_) => Ok(0),
    }
}

/// How many facts the policy expects, if both texts are read.
pub(crate) fn expected_facts(alloc: Global, texts: &Texts) -> Result<usize, AllocError>
    ensures { IfOk result (λ count. count ≡ expected_facts texts.now) }
{
    match read_said(alloc, texts.wiring.as_slice()) {
        Ok(said) => {
            let Said {
                edition: _,
                lines,
                end,
            } = said;
            drop(lines);
            count_over(alloc, end, texts.policy())
        }
        Err(OrMemory::Fault(_)) => Ok(0),
        Err(OrMemory::Memory) => Err(AllocError),
    }
}
