//! Short derivations of the facts of a least set.

ghost use Rattle.std.specs.Prelude.{◌≡◌, IfOk, IfSome, IfNone};
ghost use Rattle.mrc_facts.specs.Sets.{has};
ghost use Rattle.mrc_model.specs.Rules.{IsLeast, Least};
ghost use Rattle.mrc_wiring.specs.Table.{wiring_of};
ghost use Rattle.mrc_closure.specs.Chains.{AreSteps, IsChain};

use crate::checked::{Proposal, concludes, steps_by};
use crate::proposing::{Known, counted_ranks};
use crate::ranks::Ranks;
use mrc_base::Fact;
use mrc_classes::{Facts, FewFacts, Rules};
use mrc_closure::{Rounds, Step, explain, rounds_of};
use mrc_wiring::Wired;
use std::alloc::{AllocError, Global};
use std::collections::BTreeMap;
use std::marker::Model;

/// What the search for chains has found: how many steps facts take, once they are counted, and the
/// premises that are proposed for the facts of chains so far.
#[derive(Drop)]
pub(crate) struct Search {
    ranks: Option<Ranks>,
    chosen: BTreeMap<Fact, FewFacts>,
}

/// Derivations of the facts of a wiring's least closed set. The first chain counts how many steps
/// facts take. The counts are kept, so that each other chain takes only what it needs.
#[derive(Drop)]
pub struct Derivations<'a> {
    wired: &'a Wired,
    rules: Rules,
    rounds: Rounds,
    search: Search,
}

impl<'a> Model for Derivations<'a> {
    ghost use Rattle.mrc_facts.specs.Sets.{has};
    ghost use Rattle.mrc_model.specs.Rules.{IsLeast};
    ghost use Rattle.mrc_wiring.specs.Table.{wiring_of};
    ghost use Rattle.mrc_why.specs.Derived.{Derived};

    ghost Value = { Derived };

    ghost view = { λ d. record { table = d.rules; facts = d.rounds.facts } };

    ghost use Rattle.std.specs.Prelude.{◌≡◌};

    ghost invariant = { λ d. (d.rules ≡ d.wired.now)
        × IsLeast (wiring_of d.wired.now) (has d.rounds.facts) };
}

/// The premises that are proposed for the fact.
fn proposed(known: &Known<'_>, fact: &Fact) -> FewFacts {
    let Some(rank) = known.ranks.get(fact) else {
        return FewFacts::Empty;
    };
    match known.choice(rank.round, fact) {
        Some(choice) => choice.premises,
        None => FewFacts::Empty,
    }
}

/// The same; they are kept.
fn chosen(
    known: &Known<'_>,
    kept: &mut BTreeMap<Fact, FewFacts>,
    fact: &Fact,
) -> Result<FewFacts, AllocError> {
    if kept.get(fact).is_none() {
        let _ = kept.insert(*fact, proposed(known, fact))?;
    }
    match kept.get(fact) {
        Some(premises) => Ok(*premises),
        None => Ok(FewFacts::Empty),
    }
}

/// Puts the facts at the end of the list.
fn push_all(list: &mut Vec<Fact>, facts: FewFacts) -> Result<(), AllocError> {
    match facts {
        FewFacts::Empty => {}
        FewFacts::One(fact) => {
            list.push(fact)?;
        }
        FewFacts::Two(one, other) => {
            list.push(one)?;
            list.push(other)?;
        }
    }
    Ok(())
}

/// The facts that a chain needs: those whose premises are still to be looked at, and those that
/// were seen, with their rounds.
#[derive(Drop)]
struct Needs {
    open: Vec<Fact>,
    seen: BTreeMap<Fact, ()>,
    list: Vec<(u32, Fact)>,
}

impl Needs {
    /// Puts the fact down, and has its premises looked at, where it was not seen.
    fn see(
        &mut self,
        known: &Known<'_>,
        kept: &mut BTreeMap<Fact, FewFacts>,
        fact: &Fact,
    ) -> Result<(), AllocError> {
        if self.seen.insert(*fact, ())?.is_some() {
            return Ok(());
        }
        if let Some(rank) = known.ranks.get(fact) {
            self.list.push((rank.round, *fact))?;
        }
        push_all(&mut self.open, chosen(known, kept, fact)?)
    }
}

/// The facts that a chain for the goal needs, by their rounds and then by their bytes. The goal is
/// the last.
fn needed(
    alloc: Global,
    known: &Known<'_>,
    kept: &mut BTreeMap<Fact, FewFacts>,
    goal: Fact,
) -> Result<Vec<(u32, Fact)>, AllocError> {
    let mut needs = Needs {
        open: Vec::new(alloc),
        seen: BTreeMap::new(alloc),
        list: Vec::new(alloc),
    };
    needs.open.push(goal)?;
    for _ in 0..known.facts.len().saturating_mul(2).saturating_add(1) {
        let Some(fact) = needs.open.pop() else {
            break;
        };
        needs.see(known, kept, &fact)?;
    }
    let Needs { mut list, .. } = needs;
    list.sort()?;
    Ok(list)
}

/// The proposals for a chain for the goal, in the order of their steps.
fn proposals_for(
    alloc: Global,
    known: &Known<'_>,
    kept: &mut BTreeMap<Fact, FewFacts>,
    goal: Fact,
) -> Result<Vec<Proposal>, AllocError> {
    let mut proposals = Vec::new(alloc);
    for (_, fact) in &needed(alloc, known, kept, goal)? {
        let premises = chosen(known, kept, fact)?;
        proposals.push(Proposal {
            fact: *fact,
            premises,
        })?;
    }
    Ok(proposals)
}

impl Search {
    /// Nothing is found yet.
    pub(crate) fn new(alloc: Global) -> Search {
        Search {
            ranks: None,
            chosen: BTreeMap::new(alloc),
        }
    }

    /// The proposals for a chain for the goal. Steps are counted first, if they are not yet.
    pub(crate) fn proposals(
        &mut self,
        alloc: Global,
        rules: &Rules,
        rounds: &Rounds,
        goal: Fact,
    ) -> Result<Vec<Proposal>, AllocError> {
        if self.ranks.is_none() {
            self.ranks = Some(counted_ranks(alloc, rules, rounds)?);
        }
        let Some(ranks) = &self.ranks else {
            return Ok(Vec::new(alloc));
        };
        let known = Known {
            rules,
            facts: rounds.facts(),
            ranks,
        };
        proposals_for(alloc, &known, &mut self.chosen, goal)
    }
}

/// The steps of a derivation of the fact, as `explain` finds it.
fn explained(alloc: Global, wired: &Wired, fact: Fact) -> Result<Option<Vec<Step>>, AllocError>
    ensures some { IfOk result (λ answer. IfSome answer (λ steps.
        IsChain (wiring_of wired.now) fact steps.items)) }
    ensures none { IfOk result (λ answer. IfNone answer (Least (wiring_of wired.now) fact → ⊥)) }
{
    match explain(alloc, wired, fact)? {
        Some(chain) => Ok(Some(chain.steps().to_vec(alloc)?)),
        None => Ok(None),
    }
}

impl<'a> Derivations<'a> {
    /// The least set of the wiring, found by rounds.
    pub fn new(alloc: Global, wired: &'a Wired) -> Result<Derivations<'a>, AllocError>
        ensures table { IfOk result (λ d. d.table ≡ wired.now) }
        ensures least { IfOk result (λ d. IsLeast (wiring_of wired.now) (has d.facts)) }
    {
        let rules = Rules::new(alloc, wired)?;
        match rounds_of(alloc, wired) {
            Ok(rounds) => Ok(Derivations {
                wired,
                rules,
                rounds,
                search: Search::new(alloc),
            }),
            Err(error) => {
                drop(rules);
                Err(error)
            }
        }
    }

    /// The wiring.
    pub fn wired(&self) -> &'a Wired
        ensures { result.now ≡ self.now.table }
    {
        self.wired
    }

    /// The least set.
    pub fn facts(&self) -> &Facts
        ensures exact { result.now ≡ self.now.facts }
        ensures least { IsLeast (wiring_of self.now.table) (has result.now) }
    {
        self.rounds.facts()
    }

    /// Steps that conclude the fact, so far as what is proposed checks out.
    fn steps_to(&mut self, alloc: Global, fact: &Fact) -> Result<Vec<Step>, AllocError>
        ensures kept { self.new ≡ self.old }
        ensures steps { IfOk result (λ steps.
            AreSteps (wiring_of self.old.table) steps.items) }
    {
        let proposals = self
            .search
            .proposals(alloc, &self.rules, &self.rounds, *fact)?;
        steps_by(alloc, &self.rules, &proposals)
    }

    /// A short derivation of the fact by the ten rules, from nothing. There is none exactly where
    /// the fact is not in the least closed set. What was chosen is kept for the next chain.
    pub fn chain(&mut self, alloc: Global, fact: Fact) -> Result<Option<Vec<Step>>, AllocError>
        ensures kept { self.new ≡ self.old }
        ensures some { IfOk result (λ answer. IfSome answer (λ steps.
            IsChain (wiring_of self.old.table) fact steps.items)) }
        ensures none { IfOk result (λ answer. IfNone answer
            (Least (wiring_of self.old.table) fact → ⊥)) }
    {
        if !self.facts().has(&fact) {
            return Ok(None);
        }
        let steps = self.steps_to(alloc, &fact)?;
        if concludes(steps.as_slice(), fact) {
            return Ok(Some(steps));
        }
        explained(alloc, self.wired, fact)
    }
}
