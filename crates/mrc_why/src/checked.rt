//! Steps of a chain from the premises that are proposed for each fact, each checked as it is told.

ghost use Rattle.std.specs.Prelude.{IsTrue, OnOk, IfOk, IfSome};
ghost use Rattle.mrc_wiring.specs.Table.{wiring_of};
ghost use Rattle.mrc_classes.specs.Instances.{premise_list};
ghost use Rattle.mrc_closure.specs.Chains.{place_list, IsAt, AreAt, IsStep, AreSteps, Concludes};

use mrc_base::Fact;
use mrc_classes::{Facts, FewFacts, Rules, instance_of};
use mrc_closure::{Places, Step};
use std::alloc::{AllocError, Global};
use std::collections::BTreeMap;

/// A fact that a chain needs, and the premises that are proposed for it.
#[derive(Clone, Copy, Debug)]
pub(crate) struct Proposal {
    pub(crate) fact: Fact,
    pub(crate) premises: FewFacts,
}

/// The facts as a set.
fn set_of(alloc: Global, premises: FewFacts) -> Result<Facts, AllocError> {
    let mut facts = Facts::new(alloc);
    match premises {
        FewFacts::Empty => {}
        FewFacts::One(fact) => {
            let _new = facts.insert(fact)?;
        }
        FewFacts::Two(one, other) => {
            let _new = facts.insert(one)?;
            let _new = facts.insert(other)?;
        }
    }
    Ok(facts)
}

/// The place of a step that concludes the fact, where the map has one.
fn place_of(steps: &[Step], places: &BTreeMap<Fact, usize>, fact: Fact) -> Option<usize>
    ensures { IfSome result (λ n. IsAt steps.now n fact) }
{
    let place = *places.get(&fact)?;
    let step = steps.get(place)?;
    if step.fact == fact { Some(place) } else { None }
}

/// The places of steps that conclude the premises.
fn places_of(steps: &[Step], places: &BTreeMap<Fact, usize>, premises: FewFacts) -> Option<Places>
    ensures { IfSome result (λ at. AreAt steps.now (place_list at) (premise_list premises)) }
{
    match premises {
        FewFacts::Empty => Some(Places::Empty),
        FewFacts::One(fact) => Some(Places::One(place_of(steps, places, fact)?)),
        FewFacts::Two(one, other) => Some(Places::Two(
            place_of(steps, places, one)?,
            place_of(steps, places, other)?,
        )),
    }
}

/// The step that concludes the fact from steps before it, where the proposed premises do so.
fn step_of(
    alloc: Global,
    rules: &Rules,
    steps: &[Step],
    places: &BTreeMap<Fact, usize>,
    proposal: &Proposal,
) -> Result<Option<Step>, AllocError>
    ensures { IfOk result (λ answer. IfSome answer (IsStep (wiring_of rules.now) steps.now)) }
{
    let known = set_of(alloc, proposal.premises)?;
    let Some(instance) = instance_of(rules, &known, proposal.fact) else {
        return Ok(None);
    };
    let Some(premises) = places_of(steps, places, instance.premises) else {
        return Ok(None);
    };
    Ok(Some(Step {
        rule: instance.rule,
        fact: proposal.fact,
        premises,
    }))
}

/// Puts a step at the end that concludes the proposal's fact, where there is one.
fn add_step(
    alloc: Global,
    rules: &Rules,
    steps: &mut Vec<Step>,
    places: &mut BTreeMap<Fact, usize>,
    proposal: &Proposal,
) -> Result<(), AllocError>
    ensures { OnOk result (AreSteps (wiring_of rules.now) steps.old.items →
        AreSteps (wiring_of rules.now) steps.new.items) }
{
    let Some(step) = step_of(alloc, rules, steps.as_slice(), places, proposal)? else {
        return Ok(());
    };
    let _ = places.insert(proposal.fact, steps.len())?;
    steps.push(step)?;
    Ok(())
}

/// Steps that conclude the facts of the proposals, in their order.
pub(crate) fn steps_by(
    alloc: Global,
    rules: &Rules,
    proposals: &[Proposal],
) -> Result<Vec<Step>, AllocError>
    ensures { IfOk result (λ steps. AreSteps (wiring_of rules.now) steps.items) }
{
    let mut steps = Vec::new(alloc);
    let mut places = BTreeMap::new(alloc);
    for proposal in proposals {
        add_step(alloc, rules, &mut steps, &mut places, proposal)?;
    }
    Ok(steps)
}

/// Whether the last step concludes the fact.
pub(crate) fn concludes(steps: &[Step], fact: Fact) -> bool
    ensures { IsTrue result → Concludes steps.now fact }
{
    match steps.last() {
        Some(last) => last.fact == fact,
        None => false,
    }
}
