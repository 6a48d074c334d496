//! Sets of facts.

ghost use Rattle.std.specs.Prelude.{◌≡◌, ◌+◌, ◌↔◌, ◌≤◌, ◌&&◌, ◌||◌, [], length, true, false, not};
ghost use Rattle.std.specs.Prelude.{ℕ};
ghost use Rattle.std.specs.Prelude.{IsTrue, IsNone, IfOk, OnOk, OnErr, IfSome, IfNone};
ghost use Rattle.std.specs.Prelude.{if◌then◌else◌};
ghost use Rattle.mrc_base.specs.declared.Fact.{Fact};
ghost use Rattle.mrc_facts.specs.Order.{is_before, is_same};
ghost use Rattle.mrc_facts.specs.Sets.{has, with_fact, first, after, IsAscending};
ghost use Rattle.mrc_facts.specs.Laws.{IsLeast, IsNext, NoneAfter};
ghost use Rattle.mrc_rows.specs.Halves.{Whole, earlier};
ghost use Rattle.mrc_rows.specs.HalvesProp.{whole_prop};
ghost use Rattle.mrc_rows.specs.Rows.{is_within, IsWithin};

use crate::row_facts::{RowFacts, is_within};
use mrc_base::Fact;
use mrc_facts::ListedFacts;
use std::alloc::{AllocError, Global};
use std::marker::Model;

/// A set of facts, in the order of their bytes in a certificate. Those that a wiring can have are
/// bits of rows, all others are in a list next to them.
#[derive(Debug, Drop)]
pub struct Facts {
    pub(crate) rows: RowFacts,
    others: ListedFacts,
    pub(crate) alloc: Global,
    ghost whole: { Whole rows others } by { whole_prop rows others },
}

impl Model for Facts {
    ghost use Rattle.std.specs.Prelude.{List};
    ghost use Rattle.mrc_base.specs.declared.Fact.{Fact};

    ghost Value = { List Fact };

    ghost view = { λ a. a.whole.0 };
}

fn is_before(one: &Fact, other: &Fact) -> bool
    ensures { result ≡ is_before one.now other.now }
{
    one < other
}

/// The one that comes first, if there are two.
fn earlier(one: Option<Fact>, other: Option<Fact>) -> Option<Fact>
    ensures { result ≡ earlier one other }
{
    match (one, other) {
        (None, other) => other,
        (Some(one), None) => Some(one),
        (Some(one), Some(other)) => {
            if is_before(&other, &one) {
                Some(other)
            } else {
                Some(one)
            }
        }
    }
}

/// The least fact of the list that is greater than this one. Most lists are empty.
fn listed_after(list: &ListedFacts, fact: Fact) -> Option<Fact>
    ensures { result ≡ after list.now fact }
{
    if list.len() == 0 {
        return None;
    }
    list.after(fact)
}

impl Facts {
    /// The empty set. It keeps the allocator.
    pub fn new(alloc: Global) -> Facts
        ensures { result ≡ [] }
    {
        Facts {
            rows: RowFacts::new(alloc),
            others: ListedFacts::new(alloc),
            alloc,
        }
    }

    /// How many facts the set has.
    pub fn len(&self) -> usize
        ensures exact { result ≡ length self.now }
        ensures ascending { IsAscending self.now }
    {
        self.rows.len() + self.others.len()
    }

    /// Whether the set has no fact.
    pub fn is_empty(&self) -> bool
        ensures { IsTrue result ↔ (self.now ≡ []) }
    {
        self.len() == 0
    }

    /// Whether the set has the fact.
    #[inline(always)]
    pub fn has(&self, fact: &Fact) -> bool
        ensures { result ≡ has self.now fact.now }
    {
        if is_within(fact) {
            self.rows.has(fact)
        } else {
            self.others.has(fact)
        }
    }

    /// Whether the set may have a backup among the facts that a wiring can have. It reads no row.
    pub fn may_have_backups(&self) -> bool
        ensures { result ≡ false → (c d : ℕ) → is_within (Fact.Backup c d) ≡ true →
            has self.now (Fact.Backup c d) ≡ false }
    {
        self.rows.may_have_backups()
    }

    /// Whether each fact of the set has a place in a row.
    pub(crate) fn are_within(&self) -> bool
        ensures { result ≡ true → (g : Fact) → IsTrue (has self.now g) → IsWithin g }
    {
        self.others.len() == 0
    }

    /// Inserts the fact, and returns whether it is new.
    pub fn insert(&mut self, fact: Fact) -> Result<bool, AllocError>
        ensures added { IfOk result (λ added. added ≡ not (has self.old fact)) }
        ensures ok { OnOk result (self.new ≡ with_fact self.old fact) }
        ensures err { OnErr result (self.new ≡ self.old) }

        // So the set has this fact and those that it had, and no other.
        ensures members { OnOk result ((g : Fact) →
            has self.new g ≡ (is_same g fact || has self.old g)) }
        ensures len { IfOk result (λ added.
            length self.new ≡ length self.old + (if added then 1 else 0)) }
        ensures ascending { IsAscending self.new }
    {
        if is_within(&fact) {
            self.rows.insert(fact)
        } else {
            self.others.insert(fact)
        }
    }

    /// Removes the fact, if the set has it.
    pub fn remove(&mut self, fact: &Fact)
        ensures members { (g : Fact) →
            has self.new g ≡ (not (is_same g fact.now) && has self.old g) }
        ensures ascending { IsAscending self.new }
    {
        if is_within(fact) {
            self.rows.remove(fact);
        } else {
            self.others.remove(fact);
        }
    }

    /// The least fact.
    pub fn first(&self) -> Option<Fact>
        ensures exact { result ≡ first self.now }
        ensures least { IfSome result (IsLeast self.now) }
        ensures none { IsNone result ↔ (self.now ≡ []) }
        ensures kept { IsAscending self.now }
    {
        earlier(self.rows.first(), self.others.first())
    }

    /// The least fact that is greater than this one, which need not be in the set.
    pub fn after(&self, fact: Fact) -> Option<Fact>
        ensures exact { result ≡ after self.now fact }
        ensures least { IfSome result (IsNext self.now fact) }
        ensures none { IfNone result (NoneAfter self.now fact) }
    {
        earlier(self.rows.after(&fact), listed_after(&self.others, fact))
    }

    /// An equal set.
    pub fn copy(&self) -> Result<Facts, AllocError>
        ensures { IfOk result (λ copy. copy ≡ self.now) }
    {
        let mut copy = Facts::new(self.alloc);
        copy.join_all(self)?;
        Ok(copy)
    }

    /// Inserts the fact, and returns the next one of the list.
    fn put_listed(&mut self, list: &ListedFacts, fact: &Fact) -> Result<Option<Fact>, AllocError>
        ensures put { OnOk result ((g : Fact) →
            has self.new g ≡ (is_same g fact.now || has self.old g)) }
        ensures next { IfOk result (λ next. next ≡ after list.now fact.now) }
        ensures ascending { IsAscending self.new }
    {
        let _new = self.insert(*fact)?;
        Ok(list.after(*fact))
    }

    /// Inserts the facts of the list.
    fn join_listed(&mut self, list: &ListedFacts) -> Result<(), AllocError>
        requires own { IsAscending self.old }
        requires list { IsAscending list.now }
        ensures ascending { IsAscending self.new }
        ensures ok { OnOk result ((g : Fact) →
            has self.new g ≡ (has self.old g || has list.now g)) }
    {
        let mut next = list.first();
        while let Some(fact) = next {
            next = self.put_listed(list, &fact)?;
        }
        Ok(())
    }

    /// Inserts the facts of the other set. When it is out of memory, the set may have some of them.
    pub fn join_all(&mut self, other: &Facts) -> Result<(), AllocError>
        ensures ok { OnOk result ((g : Fact) →
            has self.new g ≡ (has self.old g || has other.now g)) }

        // Each set is ascending.
        ensures before { IsAscending self.old }
        ensures ascending { IsAscending self.new }
        ensures other { OnOk result (IsAscending other.now) }
    {
        self.join_rows(other)?;
        self.join_listed(&other.others)?;
        Ok(())
    }

    /// The facts that have no place in a row.
    pub fn others(&self) -> &ListedFacts
        ensures { (g : Fact) → has result.now g ≡ (not (is_within g) && has self.now g) }
    {
        &self.others
    }

    /// Whether the set has each fact of the other one.
    fn has_all(&self, other: &Facts) -> bool
        ensures exact { IsTrue result ↔
            ((g : Fact) → IsTrue (has other.now g) → IsTrue (has self.now g)) }
        ensures kept { IsAscending other.now }
    {
        for fact in other.iter() {
            if !self.has(&fact) {
                return false;
            }
        }
        true
    }

    /// Whether the sets are equal.
    pub fn same(&self, other: &Facts) -> bool
        ensures { IsTrue result ↔ (self.now ≡ other.now) }
    {
        self.has_all(other) && other.has_all(self)
    }
}
