//! Derivations of a fact.

ghost use Rattle.std.specs.Prelude.{◌≡◌, [], ◌∷◌, ◌++◌, ◌||◌, ℕ, IsTrue, OnOk, IfOk};
ghost use Rattle.std.specs.Prelude.{IfSome, IfNone};
ghost use Rattle.std.specs.List.{AllByRecursion};
ghost use Rattle.mrc_base.specs.declared.Fact.{Fact};
ghost use Rattle.mrc_model.specs.Rules.{IsLeast, Least, IsDerivation};
ghost use Rattle.mrc_model.specs.Wiring.{Wiring};
ghost use Rattle.mrc_wiring.specs.Table.{wiring_of};
ghost use Rattle.mrc_facts.specs.Sets.{has, IsAscending};
ghost use Rattle.mrc_classes.specs.Following.{IsListOf, IsFirstFact};
ghost use Rattle.mrc_classes.specs.Instances.{premise_list};
ghost use Rattle.mrc_closure.specs.Chains.{place_list, IsAt, AreAt, IsChain};
ghost use Rattle.mrc_closure.specs.Orders.{IsFollowing, IsOnce, IsOrder, HaveSame};
ghost use Rattle.mrc_closure.specs.Orders.{IsLinked, IsPlaced, backward};

use crate::rounds::{merge, next_round};
use mrc_base::Fact;
use mrc_classes::{Facts, FewFacts, Instance, RuleName, Rules, first_conclusions, instance_of};
use mrc_wiring::Wired;
use std::alloc::{AllocError, Global};
use std::marker::Model;

/// The places of the premises of a step in its chain, in the order of the rule. They count from 0.
#[derive(Clone, Copy, Debug, PartialEq, Eq)]
pub enum Places {
    /// A rule without premises.
    Empty,
    /// A rule of one premise.
    One(usize),
    /// A rule of two premises, which may be one fact.
    Two(usize, usize),
}

/// An instance of a rule in a chain.
#[derive(Clone, Copy, Debug, PartialEq, Eq)]
pub struct Step {
    /// The rule.
    pub rule: RuleName,
    /// What it concludes.
    pub fact: Fact,
    /// The steps that conclude its premises.
    pub premises: Places,
}

/// A derivation of a fact: each step has its premises before it, and the last one concludes the
/// fact.
#[derive(Debug, Drop)]
pub struct Chain {
    steps: Vec<Step>,
}

impl Model for Chain {
    ghost use Rattle.std.specs.Prelude.{List};
    ghost use Rattle.mrc_closure.specs.declared.chains.Step.{Step};

    ghost Value = { List Step };

    ghost view = { λ c. c.steps.items };
}

impl Chain {
    /// The steps in their order.
    pub fn steps(&self) -> &[Step]
        ensures { result.now ≡ self.now }
    {
        self.steps.as_slice()
    }
}

/// An instance of a rule, with the fact that it concludes.
#[derive(Clone, Copy, Debug)]
struct Link {
    fact: Fact,
    instance: Instance,
}

/// The facts of the least closed set, in the order of the rounds that find them. A round finds what
/// follows from the facts of the rounds before it.
#[derive(Drop)]
pub struct Rounds {
    pub(crate) facts: Facts,
    pub(crate) order: Vec<Fact>,
    pub(crate) ends: Vec<usize>,
}

impl Model for Rounds {
    ghost use Rattle.mrc_closure.specs.Orders.{Ordered};

    ghost Value = { Ordered };

    ghost view = { λ r. record { facts = r.facts; order = r.order.items; ends = r.ends.items } };
}

impl Rounds {
    /// The facts as a set.
    pub fn facts(&self) -> &Facts
        ensures { result.now ≡ self.now.facts }
    {
        &self.facts
    }

    /// The facts, each of which follows from those before it.
    pub fn order(&self) -> &[Fact]
        ensures { result.now ≡ self.now.order }
    {
        self.order.as_slice()
    }

    /// For each round how many facts it and the rounds before it have found.
    pub fn ends(&self) -> &[usize]
        ensures { result.now ≡ self.now.ends }
    {
        self.ends.as_slice()
    }
}

/// Appends the facts of the set to the list, in their order.
pub(crate) fn list_all(list: &mut Vec<Fact>, facts: &Facts) -> Result<(), AllocError>
    ensures listed { OnOk result (list.new.items ≡ list.old.items ++ facts.now) }
    ensures ascending { IsAscending facts.now }
{
    for fact in facts.iter() {
        list.push(fact)?;
    }
    Ok(())
}

/// The rounds from the first facts on, until one has nothing new. Answers the facts in the order of
/// the rounds, and puts how many there are after each round into `ends`.
fn rounds_in_order(
    alloc: Global,
    rules: &Rules,
    first: Facts,
    facts: &mut Facts,
    ends: &mut Vec<usize>,
) -> Result<Vec<Fact>, AllocError>
    requires empty { facts.old ≡ [] }
    requires first { IsListOf (IsFirstFact (wiring_of rules.now)) first }
    ensures least { OnOk result (IsLeast (wiring_of rules.now) (has facts.new)) }
    ensures order { IfOk result (λ order. IsOrder (wiring_of rules.now) order.items) }
    ensures once { IfOk result (λ order. IsOnce order.items) }
    ensures same { IfOk result (λ order. HaveSame facts.new order.items) }
{
    let _classes = rules.classes();
    let mut new = Facts::new(alloc);
    let mut order = Vec::new(alloc);
    merge(facts, &mut new, first)?;
    while !new.is_empty() {
        list_all(&mut order, &new)?;
        ends.push(order.len())?;
        next_round(alloc, rules, facts, &mut new)?;
    }
    Ok(order)
}

/// The facts of the least closed set, round by round.
fn derive_all(alloc: Global, rules: &Rules) -> Result<Rounds, AllocError>
    ensures least { IfOk result (λ d. IsLeast (wiring_of rules.now) (has d.facts)) }
    ensures order { IfOk result (λ d. IsOrder (wiring_of rules.now) d.order) }
    ensures once { IfOk result (λ d. IsOnce d.order) }
    ensures same { IfOk result (λ d. HaveSame d.facts d.order) }
{
    let first = first_conclusions(alloc, rules)?;
    let mut facts = Facts::new(alloc);
    let mut ends = Vec::new(alloc);
    let order = rounds_in_order(alloc, rules, first, &mut facts, &mut ends)?;
    Ok(Rounds { facts, order, ends })
}

/// The facts of the least closed set, round by round.
pub fn rounds_of(alloc: Global, wired: &Wired) -> Result<Rounds, AllocError>
    ensures least { IfOk result (λ r. IsLeast (wiring_of wired.now) (has r.facts)) }
    // Each fact follows from those before it, and stands there once.
    ensures order { IfOk result (λ r. IsOrder (wiring_of wired.now) r.order) }
    ensures once { IfOk result (λ r. IsOnce r.order) }
    ensures same { IfOk result (λ r. HaveSame r.facts r.order) }
{
    let rules = Rules::new(alloc, wired)?;
    let derived = derive_all(alloc, &rules);
    drop(rules);
    derived
}

/// Puts the premises into the set.
fn need(needed: &mut Facts, premises: FewFacts) -> Result<(), AllocError>
    ensures { OnOk result ((g : Fact) → has needed.new g ≡
        (has (premise_list premises) g || has needed.old g)) }
{
    match premises {
        FewFacts::Empty => {}
        FewFacts::One(fact) => {
            let _new = needed.insert(fact)?;
        }
        FewFacts::Two(one, other) => {
            let _new = needed.insert(other)?;
            let _new = needed.insert(one)?;
        }
    }
    Ok(())
}

/// Where the fact is needed, puts a link that concludes it at the end of the list; what it needs
/// is needed then.
fn link_if_needed(
    rules: &Rules,
    facts: &Facts,
    fact: Fact,
    needed: &mut Facts,
    links: &mut Vec<Link>,
) -> Result<(), AllocError>
    requires { IsFollowing (wiring_of rules.now) (has facts.now) fact }
    ensures { OnOk result (IsLinked (wiring_of rules.now) (has facts.now) fact
        needed.old needed.new links.old.items links.new.items) }
{
    if !needed.has(&fact) {
        return Ok(());
    }
    let Some(instance) = instance_of(rules, facts, fact) else {
        return Ok(());
    };
    need(needed, instance.premises)?;
    links.push(Link { fact, instance })?;
    Ok(())
}

/// The links that derive the fact, the last one first.
fn links_to(
    alloc: Global,
    rules: &Rules,
    derived: Rounds,
    fact: Fact,
) -> Result<Vec<Link>, AllocError>
    requires order { IsOrder (wiring_of rules.now) derived.order }
    requires once { IsOnce derived.order }
    requires same { HaveSame derived.facts derived.order }
    requires there { IsTrue (has derived.facts fact) }
    ensures { IfOk result (λ links.
        IsDerivation (wiring_of rules.now) (backward links.items []) fact) }
{
    let Rounds {
        mut facts,
        mut order,
        ..
    } = derived;
    let mut needed = Facts::new(alloc);
    let _new = needed.insert(fact)?;
    let mut links = Vec::new(alloc);
    while let Some(next) = order.pop() {
        facts.remove(&next);
        link_if_needed(rules, &facts, next, &mut needed, &mut links)?;
    }
    Ok(links)
}

/// The place of the first step that concludes the fact.
fn place_of(steps: &[Step], fact: &Fact) -> Option<usize>
    ensures some { IfSome result (λ n. IsAt steps.now n fact.now) }
    ensures none { IfNone result ((n : ℕ) → IsAt steps.now n fact.now → ⊥) }
{
    for (place, step) in steps.iter().enumerate() {
        if step.fact == *fact {
            return Some(place);
        }
    }
    None
}

/// The places of the steps that conclude the premises.
fn places_of(steps: &[Step], premises: FewFacts) -> Option<Places>
    ensures some { IfSome result (λ places.
        AreAt steps.now (place_list places) (premise_list premises)) }
    ensures none { IfNone result
        (AllByRecursion (λ p. (n : ℕ) × IsAt steps.now n p) (premise_list premises) → ⊥) }
{
    match premises {
        FewFacts::Empty => Some(Places::Empty),
        FewFacts::One(fact) => Some(Places::One(place_of(steps, &fact)?)),
        FewFacts::Two(one, other) => Some(Places::Two(
            place_of(steps, &one)?,
            place_of(steps, &other)?,
        )),
    }
}

/// Puts the link at the end of the steps, with the places of its premises.
fn add_step(steps: &mut Vec<Step>, link: Link) -> Result<(), AllocError>
    ensures { OnOk result (IsPlaced link steps.old.items steps.new.items) }
{
    let Link { fact, instance } = link;
    let Instance { rule, premises } = instance;
    if let Some(premises) = places_of(steps.as_slice(), premises) {
        steps.push(Step {
            rule,
            fact,
            premises,
        })?;
    }
    Ok(())
}

/// The links as steps, from the last one on, each with the places of its premises.
fn steps_of(alloc: Global, links: Vec<Link>) -> Result<Vec<Step>, AllocError>
    ensures { IfOk result (λ steps. (W : Wiring) (f : Fact) →
        IsDerivation W (backward links.items []) f → IsChain W f steps.items) }
{
    let mut left = links;
    let mut steps = Vec::with_capacity(alloc, left.len())?;
    while let Some(link) = left.pop() {
        add_step(&mut steps, link)?;
    }
    Ok(steps)
}

/// A derivation of the fact by the ten rules, from nothing.
fn chain_of(alloc: Global, rules: &Rules, fact: Fact) -> Result<Option<Chain>, AllocError>
    ensures some { IfOk result (λ answer. IfSome answer (λ chain.
        IsChain (wiring_of rules.now) fact chain)) }
    ensures none { IfOk result (λ answer. IfNone answer (Least (wiring_of rules.now) fact → ⊥)) }
{
    let derived = derive_all(alloc, rules)?;
    if !derived.facts.has(&fact) {
        return Ok(None);
    }
    let links = links_to(alloc, rules, derived, fact)?;
    let steps = steps_of(alloc, links)?;
    Ok(Some(Chain { steps }))
}

/// A derivation of the fact by the ten rules, from nothing. There is none exactly where the fact
/// is not in the least closed set.
pub fn explain(alloc: Global, wired: &Wired, fact: Fact) -> Result<Option<Chain>, AllocError>
    ensures some { IfOk result (λ answer. IfSome answer (λ chain.
        IsChain (wiring_of wired.now) fact chain)) }
    ensures none { IfOk result (λ answer. IfNone answer (Least (wiring_of wired.now) fact → ⊥)) }
{
    let rules = Rules::new(alloc, wired)?;
    let chain = chain_of(alloc, &rules, fact);
    drop(rules);
    chain
}
