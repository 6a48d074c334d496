//! Which premises are proposed for a fact, so that chains are short. No clause speaks of them: each
//! step is checked when a chain is made of them.
//!
//! `mrc_classes` says from which premises the rules conclude a fact. Of those that are all of
//! earlier rounds than the fact, the ones that take the fewest steps are taken. If several take as
//! few, it is the first by the number of the rule, then by its source, then by its order of
//! premises.
//!
//! How many steps a fact takes is counted for the facts of the first rounds, as many as a bound
//! allows: one more than its premises take together.

use crate::ranks::{Ranks, ranks_of};
use mrc_base::Fact;
use mrc_classes::{Candidates, Facts, FewFacts, Goal, Premise, RULES, RuleName, Rules};
use mrc_closure::Rounds;
use std::alloc::{AllocError, Global};

/// How many pairs of premises are looked at to count steps, at most.
const LOOKS: usize = 2_000_000;

/// What a fact takes whose steps are not counted, besides its round: more than counted ones take.
const UNKNOWN: u64 = 1 << 33;

/// Premises of a rule, and how many steps they take.
#[derive(Clone, Copy, Debug)]
pub(crate) struct Choice {
    pub(crate) premises: FewFacts,
    pub(crate) steps: u64,
}

/// Where premises are looked for.
#[derive(Drop)]
pub(crate) struct Known<'a> {
    pub(crate) rules: &'a Rules,
    pub(crate) facts: &'a Facts,
    pub(crate) ranks: &'a Ranks,
}

/// The shorter one, and of two that are as short the first.
fn shorter(one: Option<Choice>, other: Option<Choice>) -> Option<Choice> {
    match (one, other) {
        (Some(first), Some(second)) => Some(if second.steps < first.steps {
            second
        } else {
            first
        }),
        (Some(first), None) => Some(first),
        (None, second) => second,
    }
}

/// Whether no premises of a fact that this round finds take fewer steps: a fact takes at least as
/// many steps as the number of its round, and so its premises take at least one less.
fn is_least(best: &Option<Choice>, round: u32) -> bool {
    match best {
        Some(choice) => choice.steps < u64::from(round),
        None => false,
    }
}

impl<'a> Known<'a> {
    /// How many steps the fact takes, if a round before this one finds it.
    fn steps_of(&self, before: u32, fact: &Fact) -> Option<u64> {
        let rank = self.ranks.get(fact)?;
        if rank.round >= before {
            None
        } else if rank.steps == 0 {
            Some(UNKNOWN.saturating_add(u64::from(rank.round)))
        } else {
            Some(u64::from(rank.steps))
        }
    }

    /// One premise.
    fn one(&self, before: u32, premise: &Fact) -> Option<Choice> {
        Some(Choice {
            premises: FewFacts::One(*premise),
            steps: self.steps_of(before, premise)?,
        })
    }

    /// Two premises, which may be one fact. The first one takes so many steps.
    fn two(&self, before: u32, first: &Fact, steps: u64, last: &Fact) -> Option<Choice> {
        let more = if *first == *last {
            0
        } else {
            self.steps_of(before, last)?
        };
        Some(Choice {
            premises: FewFacts::Two(*first, *last),
            steps: steps.saturating_add(more),
        })
    }

    /// A first premise, and a last one of these facts.
    fn with_last(&self, before: u32, first: &Fact, last: &Premise) -> Option<Choice> {
        let steps = self.steps_of(before, first)?;
        match last {
            Premise::Only(fact) => self.two(before, first, steps, fact),
            Premise::Either(one, other) => shorter(
                self.two(before, first, steps, one),
                self.two(before, first, steps, other),
            ),
        }
    }

    /// The shortest of the premises by which a rule concludes a fact.
    fn shortest(&self, before: u32, candidates: &Candidates) -> Option<Choice> {
        match candidates {
            Candidates::Never => None,
            Candidates::ByNone => Some(Choice {
                premises: FewFacts::Empty,
                steps: 0,
            }),
            Candidates::ByOne(premise) => self.one(before, premise),
            Candidates::ByTwo(Premise::Only(first), last) => self.with_last(before, first, last),
            Candidates::ByTwo(Premise::Either(one, other), last) => shorter(
                self.with_last(before, one, last),
                self.with_last(before, other, last),
            ),
        }
    }

    /// The premises from which the rule concludes the fact, of the first round that finds it.
    fn by_rule(&self, round: u32, rule: RuleName, fact: &Fact) -> Option<Choice> {
        let goal = Goal::new(self.rules, rule, fact)?;
        let mut best = None;
        let (first, end) = goal.sources();
        for source in first..end {
            if goal.leads(source, self.facts) {
                best = shorter(best, self.shortest(round, &goal.candidates(source)));
                if is_least(&best, round) {
                    break;
                }
            }
        }
        best
    }

    /// The premises that are proposed for a fact, which this round finds.
    pub(crate) fn choice(&self, round: u32, fact: &Fact) -> Option<Choice> {
        let mut best = None;
        for rule in RULES {
            best = shorter(best, self.by_rule(round, rule, fact));
            if is_least(&best, round) {
                break;
            }
        }
        best
    }
}

/// How many steps the fact takes, one more than its premises; 0 if no premises are found.
fn counted(known: &Known<'_>, fact: &Fact) -> u32 {
    let Some(rank) = known.ranks.get(fact) else {
        return 0;
    };
    match known.choice(rank.round, fact) {
        Some(choice) => u32::try_from(choice.steps.saturating_add(1)).unwrap_or(u32::MAX),
        None => 0,
    }
}

/// The rounds that find the facts, and how many steps the first of them take, as many as the bound
/// allows.
pub(crate) fn counted_ranks(
    alloc: Global,
    rules: &Rules,
    rounds: &Rounds,
) -> Result<Ranks, AllocError> {
    let mut ranks = ranks_of(alloc, rounds)?;
    let most = LOOKS / (usize::from(rules.classes()) + 1);
    for fact in rounds.order().iter().take(most) {
        let known = Known {
            rules,
            facts: rounds.facts(),
            ranks: &ranks,
        };
        let steps = counted(&known, fact);
        ranks.put_steps(fact, steps);
    }
    Ok(ranks)
}
