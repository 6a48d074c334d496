//! Policies of whichever version.

ghost use Rattle.std.specs.Prelude.{Ok, IfOk};
ghost use Rattle.mrc_base.specs.Reading.{Gives};
ghost use Rattle.mrc_wide_policy.specs.Policies.{older_or, stands_of, StandFor};
ghost use Rattle.mrc_wide_policy.specs.Policies.{wide_or};
ghost use Rattle.mrc_wide_policy.specs.PolicyStanding.{policy_stands};
ghost use Rattle.mrc_wiring_text.specs.Policy.{policy_of};

use crate::asked::older_stands;
use crate::facts::PolicyStands;
use crate::reading::read_wide_policy;
use crate::says::WidePolicyLine;
use crate::standing::stand_policy;
use mrc_base::OrMemory;
use mrc_stand_for::{Known, StandFault};
use mrc_wiring_text::{TextFault, read_policy};
use std::alloc::Global;

/// Why a policy is refused.
#[derive(Clone, Copy, Debug, PartialEq, Eq)]
pub enum PolicyRefusal {
    /// The text is not one of the grammar.
    Text(TextFault),
    /// A line of version 3 stands for nothing that the wiring has.
    Stands(StandFault),
}

/// What lines of version 3 stand for.
fn wide_or(
    alloc: Global,
    known: Known,
    lines: &[WidePolicyLine],
) -> Result<PolicyStands, OrMemory<PolicyRefusal>>
    ensures { Gives (λ stands. stands) result (wide_or (policy_stands known lines.now)) }
{
    match stand_policy(alloc, known, lines) {
        Ok(stands) => Ok(stands),
        Err(refusal) => Err(refusal.map_fault(PolicyRefusal::Stands)),
    }
}

/// What a policy of an older version stands for.
fn older_or(
    alloc: Global,
    known: Known,
    policy: &[u8],
) -> Result<PolicyStands, OrMemory<PolicyRefusal>>
    ensures { Gives (λ stands. stands) result (older_or known (policy_of policy.now)) }
{
    match read_policy(alloc, policy) {
        Ok(lines) => {
            let stands = older_stands(alloc, &known, &lines);
            drop((known, lines));
            Ok(stands?)
        }
        Err(refusal) => {
            drop(known);
            Err(refusal.map_fault(PolicyRefusal::Text))
        }
    }
}

/// What a policy stands for.
fn stands_of(
    alloc: Global,
    known: Known,
    policy: &[u8],
) -> Result<PolicyStands, OrMemory<PolicyRefusal>>
    ensures { Gives (λ stands. stands) result (stands_of known policy.now) }
{
    match read_wide_policy(alloc, policy) {
        Ok(lines) => wide_or(alloc, known, &lines),
        Err(OrMemory::Fault(TextFault::Version)) => older_or(alloc, known, policy),
        Err(refusal) => {
            drop(known);
            Err(refusal.map_fault(PolicyRefusal::Text))
        }
    }
}

/// Reads a policy of whichever version: what it stands for over a wiring after whose lines this is
/// known, or its first fault.
pub fn read_stands(
    alloc: Global,
    known: Known,
    policy: &[u8],
) -> Result<PolicyStands, OrMemory<PolicyRefusal>>
    // What is read is what a text of one of the versions stands for.
    ensures found { IfOk result (StandFor known policy.now) }
    // What a text of one of the versions stands for is read, unless memory runs out.
    ensures only { (stands : PolicyStands) → StandFor known policy.now stands
        → Gives (λ stands. stands) result (Ok stands) }
    // Which fault it is: the first.
    ensures fault { Gives (λ stands. stands) result (stands_of known policy.now) }
{
    stands_of(alloc, known, policy)
}
