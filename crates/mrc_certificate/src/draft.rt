//! What a certificate claims.

ghost use Rattle.std.specs.Prelude.{◌≡◌, ◌^◌, ◌<◌, ◌≤◌, ◌↔◌, length, IsOk, IfOk, IfErr, IsTrue};
ghost use Rattle.std.specs.List.{list_all};
ghost use Rattle.mrc_facts.specs.Sets.{IsAscending};
ghost use Rattle.mrc_certificate.specs.Drafts.{is_within, AreWithin};

use mrc_rows::{Fact, Facts};
use std::alloc::AllocError;

/// What a certificate claims of a wired system: how many tasks, classes and classes of births it
/// has, and what may come about in it. There is one class of births at least for each task. Its
/// facts are of those tasks and classes, fewer than 2^32 of them.
#[derive(Debug, Drop)]
pub struct Draft {
    /// How many tasks there are.
    pub tasks: u16,
    /// How many classes of ports there are.
    pub classes: u16,
    /// How many of them are classes of births.
    pub births: u16,
    /// What may come about.
    pub facts: Facts,
    pub ghost enough: { tasks ≤ births },
    pub ghost ascending: { IsAscending facts },
    pub ghost within: { AreWithin tasks classes facts },
    pub ghost few: { length facts < 2 ^ 32 },
}

/// Whether the fact's task, if it has one, and its classes are of so many.
pub(crate) fn is_within(tasks: u16, classes: u16, fact: &Fact) -> bool
    ensures { result ≡ is_within tasks classes fact.now }
{
    match *fact {
        Fact::Hold { task, class, .. } => task < tasks && class.0 < classes,
        Fact::Carry {
            destination,
            class,
            ..
        } => destination.0 < classes && class.0 < classes,
        Fact::Backup { class, notify } => class.0 < classes && notify.0 < classes,
    }
}

/// Whether all facts are of so many tasks and classes.
fn are_within(tasks: u16, classes: u16, facts: &Facts) -> bool
    ensures { result ≡ list_all (is_within tasks classes) facts.now }
{
    for fact in facts.iter() {
        if !is_within(tasks, classes, &fact) {
            return false;
        }
    }
    true
}

impl Draft {
    ghost use Rattle.mrc_certificate.specs.Spelling.{content};

    /// The draft of these counts and facts. The facts come back if there are fewer classes of
    /// births than tasks, if a fact is not of those tasks and classes, or if there are 2^32 facts
    /// or more.
    pub fn new(tasks: u16, classes: u16, births: u16, facts: Facts) -> Result<Draft, Facts>
        // The draft is made if and only if there are enough births, and the facts are within the
        // counts, and few enough.
        ensures made { IsOk result
            ↔ ((tasks ≤ births) × AreWithin tasks classes facts × (length facts < 2 ^ 32)) }
        // What it says.
        ensures exact { IfOk result (λ d. content d
            ≡ record { tasks = tasks; classes = classes; births = births; facts = facts }) }
        // Facts of which no draft is made come back.
        ensures back { IfErr result (λ given. given ≡ facts) }
    {
        if births < tasks || !are_within(tasks, classes, &facts) {
            return Err(facts);
        }
        if facts.len() > u32::MAX as usize {
            return Err(facts);
        }
        Ok(Draft {
            tasks,
            classes,
            births,
            facts,
        })
    }

    /// An equal draft.
    pub fn copy(&self) -> Result<Draft, AllocError>
        ensures { IfOk result (λ copy. content copy ≡ content self.now) }
    {
        Ok(Draft {
            tasks: self.tasks,
            classes: self.classes,
            births: self.births,
            facts: self.facts.copy()?,
        })
    }

    /// Whether the drafts are equal.
    pub fn same(&self, other: &Draft) -> bool
        ensures { IsTrue result ↔ (content self.now ≡ content other.now) }
    {
        self.tasks == other.tasks
            && self.classes == other.classes
            && self.births == other.births
            && self.facts.same(&other.facts)
    }
}
