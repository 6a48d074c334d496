//! What is held in the first state.

ghost use Rattle.std.specs.Prelude.{◌≡◌, ◌++◌, IfOk, OnOk, slice_get};
ghost use Rattle.mrc_model.specs.FirstHoldings.{given_classes, given_holdings, facts_by, fact_at};
ghost use Rattle.mrc_wiring.specs.Table.{wiring_of};
ghost use Rattle.mrc_wiring.specs.FirstState.{HasFirstHolds, AreHolds};
ghost use Rattle.mrc_wiring.specs.State.{IsState};

use crate::resolving::Resolving;
use crate::wired::Wired;
use mrc_base::{ClassId, Fact, PortRight};
use mrc_model::FirstLine;
use std::alloc::{AllocError, Global};

/// The class of the port of this birth number.
fn class_at(classes: &[ClassId], port: usize) -> Option<ClassId>
    ensures { result ≡ slice_get classes.now port }
{
    classes.get(port).copied()
}

/// Adds what a task holds on a port: nothing if there is no class of the port's number.
fn add_hold(
    holds: &mut Vec<Fact>,
    classes: &[ClassId],
    task: u16,
    port: usize,
    right: PortRight,
) -> Result<(), AllocError>
    ensures { OnOk result (holds.new.items ≡ holds.old.items
        ++ fact_at record { task = task; port = port; right = right }
        (slice_get classes.now port)) }
{
    match class_at(classes, port) {
        Some(class) => {
            holds.push(Fact::Hold { task, class, right })?;
            Ok(())
        }
        None => Ok(()),
    }
}

/// The class of each port of the first state, by birth number.
pub(crate) fn first_classes(alloc: Global, table: &Resolving) -> Result<Vec<ClassId>, AllocError>
    requires { IsState table.now }
    ensures { IfOk result (λ classes. classes.items ≡ given_classes (wiring_of table.now.table)) }
{
    let wired = table.ports.len() as u16;
    let mut classes = Vec::new(alloc);
    let mut tasks = 0u16;
    let mut ports = 0u16;
    for line in &table.lines {
        match line {
            FirstLine::Task => {
                classes.push(ClassId(wired + tasks))?;
                tasks += 1;
            }
            FirstLine::Port { .. } => {
                classes.push(ClassId(ports))?;
                ports += 1;
            }
            FirstLine::Hold { .. } => {}
        }
    }
    Ok(classes)
}

impl Wired {
    /// What each line gives if ports have these classes by their birth numbers.
    fn line_holds(&self, alloc: Global, classes: &[ClassId]) -> Result<Vec<Fact>, AllocError>
        ensures { IfOk result (λ holds. holds.items
            ≡ facts_by classes.now (given_holdings (wiring_of self.now))) }
    {
        let _kept = self.tasks();
        let mut holds = Vec::new(alloc);
        let mut tasks = 0u16;
        let mut births = 0usize;
        for line in self.first_lines() {
            match line {
                FirstLine::Task => {
                    add_hold(&mut holds, classes, tasks, births, PortRight::Send)?;
                    tasks += 1;
                    births += 1;
                }
                FirstLine::Port { receiver } => {
                    let receiver = receiver.0 as u16;
                    add_hold(&mut holds, classes, receiver, births, PortRight::Receive)?;
                    births += 1;
                }
                FirstLine::Hold { task, port, right } => {
                    add_hold(&mut holds, classes, task.0 as u16, port.0 as usize, *right)?;
                }
            }
        }
        Ok(holds)
    }

    /// What tasks hold in the first state, by class: in any order, and perhaps more than once.
    /// There are holds and nothing else.
    pub fn first_holdings(&self, alloc: Global) -> Result<Vec<Fact>, AllocError>
        ensures held { IfOk result (λ holds. HasFirstHolds (wiring_of self.now) holds.items) }
        ensures only { IfOk result (λ holds. AreHolds holds.items) }
    {
        let _kept = self.tasks();
        self.line_holds(alloc, self.first_classes())
    }
}
