ghost use Rattle.std.specs.Prelude.{◌≡◌, ◌+◌, ◌<◌, ◌^◌, [], length, not, ◌&&◌, ◌||◌, if◌then◌else◌};
ghost use Rattle.std.specs.Prelude.{IsTrue};
ghost use Rattle.std.specs.Prelude.{IfOk, OnOk, OnErr};
ghost use Rattle.mrc_base.specs.declared.Fact.{Fact};
ghost use Rattle.mrc_facts.specs.Order.{is_same};
ghost use Rattle.mrc_facts.specs.Sets.{has, with_fact, first, after, IsAscending};

use mrc_base::Fact;
use std::alloc::{AllocError, Global};
use std::collections::BTreeSet;
use std::marker::Model;
use std::ops::Bound;

/// A set of facts as a plain list, for those that have no place in rows of bits.
#[derive(Debug, Drop)]
pub struct ListedFacts {
    facts: BTreeSet<Fact>,
}

impl Model for ListedFacts {
    ghost use Rattle.std.specs.Prelude.{List};
    ghost use Rattle.mrc_base.specs.declared.Fact.{Fact};

    ghost Value = { List Fact };

    ghost view = { λ a. a.facts.keys };
}

impl ListedFacts {
    /// The empty set. It keeps the allocator.
    pub fn new(alloc: Global) -> ListedFacts
        ensures { result ≡ [] }
    {
        ListedFacts {
            facts: BTreeSet::new(alloc),
        }
    }

    /// How many facts the set has.
    pub fn len(&self) -> usize
        ensures exact { result ≡ length self.now }
        ensures few { result < 2 ^ 63 }
        ensures ascending { IsAscending self.now }
    {
        self.facts.len()
    }

    /// Whether the set has the fact.
    pub fn has(&self, fact: &Fact) -> bool
        ensures { result ≡ has self.now fact.now }
    {
        self.facts.contains(fact)
    }

    /// Puts the fact into the set, and answers whether it is new there.
    pub fn insert(&mut self, fact: Fact) -> Result<bool, AllocError>
        ensures added { IfOk result (λ added. added ≡ not (has self.old fact)) }
        ensures ok { OnOk result (self.new ≡ with_fact self.old fact) }
        ensures err { OnErr result (self.new ≡ self.old) }

        // So the set has this fact and those that it had, and no other.
        ensures members { OnOk result ((g : Fact) →
            has self.new g ≡ (is_same g fact || has self.old g)) }
        ensures len { IfOk result (λ added.
            length self.new ≡ length self.old + (if added then 1 else 0)) }
        ensures ascending { IsAscending self.new }
    {
        Ok(self.facts.insert(fact)?)
    }

    /// Takes the fact out of the set, where it is there.
    pub fn remove(&mut self, fact: &Fact)
        ensures members { (g : Fact) →
            has self.new g ≡ (not (is_same g fact.now) && has self.old g) }
        ensures ascending { IsAscending self.new }
    {
        let _there = self.facts.remove(fact);
    }

    /// The least fact.
    pub fn first(&self) -> Option<Fact>
        ensures { result ≡ first self.now }
    {
        self.facts.first().copied()
    }

    /// The least fact that is greater than this one, which need not be in the set.
    pub fn after(&self, fact: Fact) -> Option<Fact>
        ensures { result ≡ after self.now fact }
    {
        self.facts
            .range((Bound::Excluded(fact), Bound::Unbounded))
            .next()
            .copied()
    }
}
