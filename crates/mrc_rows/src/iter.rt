//! The facts of a set, one after the other.

ghost use Rattle.std.specs.Prelude.{◌≡◌, ◌+◌, ◌<◌, IsTrue, IfSome};
ghost use Rattle.std.specs.Iterator.{YieldsFirst, item_count};
ghost use Rattle.mrc_base.specs.declared.Fact.{Fact};
ghost use Rattle.mrc_facts.specs.Sets.{has, after, IsAscending};
ghost use Rattle.mrc_base.specs.Limits.{limit_of_tasks};
ghost use Rattle.mrc_rows.specs.Limits.{limit_of_classes, first_group_of_backups};
ghost use Rattle.mrc_rows.specs.Rows.{IsWithin, group_of};
ghost use Rattle.mrc_rows.specs.Planes.{IsNextInGroup};
ghost use Rattle.mrc_rows.specs.Walking.{ArePlanesOf};

use crate::facts::Facts;
use crate::joining::Row;
use crate::planes::Planes;
use mrc_base::{ClassId, Fact, PortRight};
use mrc_bits::next_bit;
use std::marker::Model;

/// The facts of a set that are left, in the order of their bytes in a certificate.
#[derive(Drop)]
pub struct Iter<'a> {
    facts: &'a Facts,
    next: Option<Fact>,
    planes: Planes<'a>,
}

impl<'a> Model for Iter<'a> {
    ghost use Rattle.std.specs.Prelude.{List};
    ghost use Rattle.mrc_base.specs.declared.Fact.{Fact};

    ghost Value = { List Fact };

    ghost use Rattle.mrc_rows.specs.Walking.{facts_from, IsAt};

    ghost view = { λ it. facts_from it.facts.now it.next };

    ghost invariant = { λ it. IsAt it.facts.now it.next it.planes };
}

/// The rows of the facts of a task.
fn planes_of_task<'a>(facts: &'a Facts, task: u16) -> Planes<'a>
    ensures { task < limit_of_tasks → ArePlanesOf facts.now task result }
{
    Planes {
        send: facts.words(Row::Holds(task, PortRight::Send)),
        receive: facts.words(Row::Holds(task, PortRight::Receive)),
        once: facts.words(Row::Holds(task, PortRight::SendOnce)),
    }
}

/// The rows of what is carried to a class.
fn planes_of_class<'a>(facts: &'a Facts, class: u16) -> Planes<'a>
    ensures { class < limit_of_classes → ArePlanesOf facts.now (limit_of_tasks + class) result }
{
    Planes {
        send: facts.words(Row::Carries(class, PortRight::Send)),
        receive: facts.words(Row::Carries(class, PortRight::Receive)),
        once: facts.words(Row::Carries(class, PortRight::SendOnce)),
    }
}

/// The row of a class's backups.
fn planes_of_backups<'a>(facts: &'a Facts, class: u16) -> Planes<'a>
    ensures { ArePlanesOf facts.now (first_group_of_backups + class) result }
{
    Planes {
        send: facts.words(Row::Backups(class)),
        receive: &[],
        once: &[],
    }
}

/// The rows of the fact's group in the set.
fn planes_at<'a>(facts: &'a Facts, fact: &Fact) -> Planes<'a>
    ensures { IsWithin fact.now → ArePlanesOf facts.now (group_of fact.now) result }
{
    match *fact {
        Fact::Hold { task, .. } => planes_of_task(facts, task),
        Fact::Carry { destination, .. } => planes_of_class(facts, destination.0),
        Fact::Backup { class, .. } => planes_of_backups(facts, class.0),
    }
}

/// The rows of the group of the next fact, if there is one.
fn planes_of_next<'a>(facts: &'a Facts, next: &Option<Fact>) -> Planes<'a>
    ensures { IfSome next.now (λ f. IsWithin f → ArePlanesOf facts.now (group_of f) result) }
{
    match next {
        Some(fact) => planes_at(facts, fact),
        None => Planes {
            send: &[],
            receive: &[],
            once: &[],
        },
    }
}

/// The first fact behind this one in its group, if there is one.
#[inline(always)]
fn next_in_group(planes: &Planes, fact: &Fact) -> Option<Fact>
    requires { IsWithin fact.now }
    ensures { IfSome result (IsNextInGroup planes.now fact.now) }
{
    match *fact {
        Fact::Hold { task, class, right } => {
            let (class, right) = planes.next_place(class.0 as usize, right)?;
            Some(Fact::Hold {
                task,
                class: ClassId(class as u16),
                right,
            })
        }
        Fact::Carry {
            destination,
            class,
            right,
        } => {
            let (class, right) = planes.next_place(class.0 as usize, right)?;
            Some(Fact::Carry {
                destination,
                class: ClassId(class as u16),
                right,
            })
        }
        Fact::Backup { class, notify } => {
            let place = next_bit(planes.send, notify.0 as usize + 1)?;
            Some(Fact::Backup {
                class,
                notify: ClassId(place as u16),
            })
        }
    }
}

/// The fact behind this one in the set, if it is in the same group and each fact has a place in a
/// row.
#[inline(always)]
fn next_nearby(facts: &Facts, planes: &Planes, fact: &Fact) -> Option<Fact>
    requires ascending { IsAscending facts.now }
    requires there { IsTrue (has facts.now fact.now) }
    requires planes { IsWithin fact.now → ArePlanesOf facts.now (group_of fact.now) planes.now }
    ensures next { IfSome result (λ g. Some g ≡ after facts.now fact.now) }
    ensures planes { IfSome result (λ g. ArePlanesOf facts.now (group_of g) planes.now) }
{
    if !facts.are_within() {
        return None;
    }
    next_in_group(planes, fact)
}

/// The fact behind this one in the set, and the rows of its group.
fn next_afar<'a>(facts: &'a Facts, fact: &Fact) -> (Option<Fact>, Planes<'a>)
    ensures next { result.0 ≡ after facts.now fact.now }
    ensures planes { IfSome result.0 (λ g.
        IsWithin g → ArePlanesOf facts.now (group_of g) result.1) }
{
    let next = facts.after(*fact);
    let planes = planes_of_next(facts, &next);
    (next, planes)
}

impl<'a> Iterator for Iter<'a> {
    type Item = Fact;

    ghost next_gives = { YieldsFirst (λ rest. rest) };

    ghost remaining = { item_count (λ rest. rest) };

    fn next(&mut self) -> Option<Fact> {
        let fact = self.next?;
        if let Some(next) = next_nearby(self.facts, &self.planes, &fact) {
            self.next = Some(next);
            return Some(fact);
        }
        let (next, planes) = next_afar(self.facts, &fact);
        self.next = next;
        self.planes = planes;
        Some(fact)
    }
}

impl Facts {
    /// The facts of the set, in the order of their bytes in a certificate.
    pub fn iter(&self) -> Iter<'_>
        ensures exact { result ≡ self.now }
        ensures kept { IsAscending self.now }
    {
        let next = self.first();
        Iter {
            facts: self,
            next,
            planes: planes_of_next(self, &next),
        }
    }
}
