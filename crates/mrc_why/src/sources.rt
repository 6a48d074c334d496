//! Where each step of a chain comes from in the files of a system.

ghost use Rattle.std.specs.Prelude.{◌≡◌, ◌<◌, ℕ, slice_get, IfOk, IfSome};
ghost use Rattle.mrc_base.specs.declared.Fact.TheVariants.{Hold};
ghost use Rattle.mrc_base.specs.declared.PortRight.TheVariants.{Send};
ghost use Rattle.mrc_model.specs.Wiring.{kernel_class};
ghost use Rattle.mrc_wiring.specs.Table.{wiring_of};
ghost use Rattle.mrc_classes.specs.declared.rule_names.RuleName.TheVariants as rules;
ghost use Rattle.mrc_why.specs.Lines.{first_numbers, IsGivenBy};
ghost use Rattle.mrc_why.specs.Sources.{IsHeldBySecond, IsLineSource, IsSlotSource, IsSource};
ghost use Rattle.mrc_why.specs.Sources.{IsSubsystemSource, IsKernelSource, AreSources};

use crate::given_lines::{Given, first_numbers, given_at, given_of, gives, number_at, places_of};
use crate::origins::{SlotNames, Source};
use crate::slots::{Passing, routine_of, slot_of};
use mrc_base::{ClassId, Fact, PortRight, TaskId};
use mrc_classes::RuleName;
use mrc_closure::{Places, Step};
use mrc_wiring::Wired;
use mrc_wiring_text::WiringLine;
use std::alloc::{AllocError, Global};
use std::collections::BTreeMap;
use std::marker::Model;

/// A wiring with the numbers of its lines.
#[derive(Drop)]
pub struct Sources<'a> {
    wired: &'a Wired,
    numbers: Vec<u32>,
    given: Vec<Given>,
    places: BTreeMap<Fact, usize>,
}

impl<'a> Model for Sources<'a> {
    ghost use Rattle.std.specs.Prelude.{◌≡◌, map};
    ghost use Rattle.mrc_model.specs.FirstHoldings.{given_holdings};
    ghost use Rattle.mrc_wiring.specs.Table.{wiring_of};
    ghost use Rattle.mrc_why.specs.Lines.{Numbered, holding_of};

    ghost Value = { Numbered };

    ghost view = { λ s. record { table = s.wired.now; numbers = s.numbers.items } };

    ghost invariant = { λ s. map holding_of s.given.items
        ≡ given_holdings (wiring_of s.wired.now) };
}

/// The step of this place.
fn step_at(steps: &[Step], place: usize) -> Option<Step>
    ensures { result ≡ slice_get steps.now place }
{
    steps.get(place).copied()
}

/// The right that is held on a port of the class.
fn right_on(fact: &Fact, class: ClassId) -> Option<PortRight>
    ensures { IfSome result (λ right. (holder : ℕ) × (fact.now ≡ Hold holder class right)) }
{
    match fact {
        Fact::Hold {
            class: known,
            right,
            ..
        } => { if *known == class { Some(*right) } else { None } }
        Fact::Carry { .. } | Fact::Backup { .. } => None,
    }
}

/// The class of the port on which a send right is held.
fn sends_to(fact: &Fact) -> Option<ClassId>
    ensures { IfSome result (λ class. (holder : ℕ) × (fact.now ≡ Hold holder class Send)) }
{
    match fact {
        Fact::Hold { class, right, .. } => {
            if *right == PortRight::Send {
                Some(*class)
            } else {
                None
            }
        }
        Fact::Carry { .. } | Fact::Backup { .. } => None,
    }
}

/// The right on a port of the class that is held by the second of two premises.
fn held(steps: &[Step], premises: Places, class: ClassId) -> Option<PortRight>
    ensures { IfSome result (IsHeldBySecond steps.now premises class) }
{
    let Places::Two(_, second) = premises else {
        return None;
    };
    let step = step_at(steps, second)?;
    right_on(&step.fact, class)
}

impl<'a> Sources<'a> {
    /// The wiring that was resolved of these lines.
    pub fn new(
        alloc: Global,
        wired: &'a Wired,
        lines: &[WiringLine],
    ) -> Result<Sources<'a>, AllocError>
        ensures { IfOk result (λ sources. sources
            ≡ record { table = wired.now; numbers = first_numbers lines.now }) }
    {
        let numbers = first_numbers(alloc, lines)?;
        let given = given_of(alloc, wired)?;
        let places = places_of(alloc, given.as_slice(), wired.first_classes())?;
        Ok(Sources {
            wired,
            numbers,
            given,
            places,
        })
    }

    /// The wiring.
    pub fn wired(&self) -> &'a Wired
        ensures { result.now ≡ self.now.table }
    {
        self.wired
    }

    /// The number of the first line that gives the right.
    fn line_of(&self, task: u16, class: ClassId, right: PortRight) -> Option<u32>
        ensures { IfSome result (IsGivenBy self.now task class right) }
    {
        let place = *self.places.get(&Fact::Hold { task, class, right })?;
        let given = given_at(&self.given, place)?;
        if gives(given, self.wired.first_classes(), task, class, right) {
            number_at(&self.numbers, place)
        } else {
            None
        }
    }

    /// Of a step of rule K1.
    fn line_source(&self, step: &Step) -> Option<u32>
        requires { step.now.rule ≡ rules.First }
        ensures { IfSome result (IsLineSource self.now step.now) }
    {
        match step.fact {
            Fact::Hold { task, class, right } => self.line_of(task, class, right),
            Fact::Carry { .. } | Fact::Backup { .. } => None,
        }
    }

    /// Of a step of rule K4.
    fn slot_source(&self, steps: &[Step], step: &Step) -> Option<SlotNames<'a>>
        requires { step.now.rule ≡ rules.Slot }
        ensures { IfSome result (IsSlotSource self.now.table steps.now step.now) }
    {
        match step.fact {
            Fact::Carry {
                destination,
                class,
                right,
            } => {
                let held = held(steps, step.premises, class)?;
                slot_of(self.wired, destination, &Passing { class, held, right })
            }
            Fact::Hold { .. } | Fact::Backup { .. } => None,
        }
    }

    /// Of a step of rule K5.
    fn routine_source(&self, step: &Step) -> Option<&'a str>
        requires { step.now.rule ≡ rules.Reply }
        ensures { IfSome result (λ name. IsSubsystemSource self.now.table step.now name.now) }
    {
        match step.fact {
            Fact::Carry {
                destination,
                class,
                ..
            } => routine_of(self.wired, destination, class),
            Fact::Hold { .. } | Fact::Backup { .. } => None,
        }
    }

    /// The task whose kernel port is of the class.
    fn task_of(&self, class: ClassId) -> Option<TaskId>
        ensures there { IfSome result (λ task. task < (wiring_of self.now.table).tasks) }
        ensures is { IfSome result (λ task.
            kernel_class (wiring_of self.now.table) task ≡ class) }
    {
        let task = class.0.checked_sub(self.wired.ports())?;
        if task < self.wired.tasks() {
            Some(TaskId(u32::from(task)))
        } else {
            None
        }
    }

    /// Of a step of rule K7.
    fn kernel_source(&self, steps: &[Step], step: &Step) -> Option<&'a str>
        requires { step.now.rule ≡ rules.KernelPort }
        ensures { IfSome result (λ name.
            IsKernelSource self.now.table steps.now step.now name.now) }
    {
        let Places::Two(first, _) = step.premises else {
            return None;
        };
        let step = step_at(steps, first)?;
        let task = self.task_of(sends_to(&step.fact)?)?;
        self.wired.task_name(task)
    }

    /// Where a step of the chain comes from, where its rule has a source.
    pub fn source(&self, steps: &[Step], step: &Step) -> Option<Source<'a>>
        ensures { IfSome result (IsSource self.now steps.now step.now) }
    {
        match step.rule {
            RuleName::First => Some(Source::Line(self.line_source(step)?)),
            RuleName::Slot => Some(Source::Slot(self.slot_source(steps, step)?)),
            RuleName::Reply => Some(Source::Subsystem(self.routine_source(step)?)),
            RuleName::KernelPort => Some(Source::KernelPort(self.kernel_source(steps, step)?)),
            RuleName::Births
            | RuleName::Weaker
            | RuleName::Received
            | RuleName::Request
            | RuleName::Notice
            | RuleName::Returned => None,
        }
    }

    /// Where each step of the chain comes from.
    pub(crate) fn all(
        &self,
        alloc: Global,
        steps: &[Step],
    ) -> Result<Vec<Option<Source<'a>>>, AllocError>
        ensures { IfOk result (λ sources. AreSources self.now steps.now sources.items) }
    {
        let mut sources = Vec::new(alloc);
        for step in steps {
            sources.push(self.source(steps, step))?;
        }
        Ok(sources)
    }
}
