//! Which demands of a policy are told of a set of facts.

ghost use Rattle.std.specs.Prelude.{◌≡◌, IfOk, IfSome, IfNone, true, false};
ghost use Rattle.std.specs.List.{list_any};
ghost use Rattle.mrc_facts.specs.Sets.{has};
ghost use Rattle.mrc_model.specs.Rules.{IsLeast};
ghost use Rattle.mrc_wiring.specs.Table.{wiring_of};
ghost use Rattle.mrc_why.specs.Answered as definitions;
ghost use Rattle.mrc_stand_for.specs.Once.{same_right};
ghost use Rattle.mrc_why.specs.Answered.{is_told, told, has_line, same_line, IsMet};

use crate::judging::forbidden_fact;
use mrc_base::PortRight;
use mrc_check::{Demand, Stated};
use mrc_classes::Facts;
use mrc_wide_policy::Stance;
use mrc_wiring::ForbiddenLine;
use std::alloc::{AllocError, Global};

/// Whether a demand is told: what is forbidden or waived if it is there, and what is expected if it
/// is not.
fn is_told(facts: &Facts, demand: &Demand) -> bool
    ensures { result ≡ is_told (has facts.now) demand.now }
{
    let is_there = facts.has(&forbidden_fact(&demand.holding));
    match demand.stance {
        Stance::Forbidden | Stance::Waived(_) => is_there,
        Stance::Expected => !is_there,
    }
}

/// The demands that are told of a set of facts, in their order.
pub fn told(alloc: Global, facts: &Facts, demands: &[Demand]) -> Result<Vec<Demand>, AllocError>
    ensures { IfOk result (λ those. those.items ≡ told (has facts.now) demands.now) }
{
    let mut those = Vec::new(alloc);
    for demand in demands {
        if is_told(facts, demand) {
            those.push(*demand)?;
        }
    }
    Ok(those)
}

/// Whether a holding is expected.
pub fn is_expected(demand: &Demand) -> bool
    ensures { result ≡ definitions.is_expected demand.now }
{
    match demand.stance {
        Stance::Expected => true,
        Stance::Forbidden | Stance::Waived(_) => false,
    }
}

/// Whether a holding is waived.
pub fn is_waived(demand: &Demand) -> bool
    ensures { result ≡ definitions.is_waived demand.now }
{
    match demand.stance {
        Stance::Waived(_) => true,
        Stance::Forbidden | Stance::Expected => false,
    }
}

fn is_same_right(right: PortRight, other: PortRight) -> bool
    ensures { result ≡ same_right right other }
{
    match (right, other) {
        (PortRight::Send, PortRight::Send)
        | (PortRight::Receive, PortRight::Receive)
        | (PortRight::SendOnce, PortRight::SendOnce) => true,
        _ => false,
    }
}

fn is_same_line(one: &ForbiddenLine, other: &ForbiddenLine) -> bool
    ensures { result ≡ same_line one.now other.now }
{
    one.line == other.line
        && one.task == other.task
        && one.class.0 == other.class.0
        && is_same_right(one.right, other.right)
}

/// Whether one of the demands waives what the line forbids.
pub fn is_waived_line(demands: &[Demand], line: &ForbiddenLine) -> bool
    ensures { result ≡ definitions.is_waived_line demands.now line.now }
{
    demands.iter().any(|demand| is_waived(demand) && is_same_line(&demand.holding, line))
}

/// Whether one of the demands is expected.
fn has_expected(demands: &[Demand]) -> bool
    ensures { result ≡ list_any definitions.is_expected demands.now }
{
    demands.iter().any(|demand| is_expected(demand))
}

/// Whether none of the demands that are told is expected.
pub fn are_met(told: &[Demand]) -> bool
    ensures { result ≡ definitions.are_met told.now }
{
    !has_expected(told)
}

/// Whether what is expected of a system is in the least set of its wiring.
pub fn is_met(alloc: Global, stated: &Stated, facts: &Facts) -> Result<bool, AllocError>
    requires { IsLeast (wiring_of stated.now.claim.table) (has facts.now) }
    ensures { IfOk result (IsMet stated.now) }
{
    let told = told(alloc, facts, stated.demands.as_slice())?;
    Ok(are_met(told.as_slice()))
}

/// The number, if one of the demands is of that line.
pub fn line_in(demands: &[Demand], number: usize) -> Option<u32>
    ensures own { IfSome result (λ own. own ≡ number) }
    ensures some { IfSome result (λ _. has_line demands.now number ≡ true) }
    ensures none { IfNone result (has_line demands.now number ≡ false) }
{
    for demand in demands {
        let own = demand.holding.line;
        if own as usize == number {
            return Some(own);
        }
    }
    None
}
