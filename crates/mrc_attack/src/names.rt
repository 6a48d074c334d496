//! The names that tasks have for rights, as the machine shows them.

use crate::run::Run;
use mrc_base::{Fact, TaskId};
use mrc_machine::{Call, Holding, Reply};
use mrc_names::NamedType;
use std::alloc::AllocError;
use std::slice::Iter;

/// The name that a task has for its kernel port.
const OWN_KERNEL: u32 = 1;

/// The bits of send, receive and send-once rights, as `mach_port_type` gives them.
const RIGHTS: u32 = 0x7_0000;

/// A name of a task, and a hold that it stands for; none for a port set or a dead name.
#[derive(Clone, Copy)]
pub(crate) struct Named {
    pub(crate) task: u16,
    pub(crate) name: u32,
    pub(crate) fact: Option<Fact>,
}

impl Run<'_> {
    /// What is held, by the class of the port.
    fn fact_of(&self, task: u16, held: &Holding) -> Option<Fact> {
        let class = *self.classes.get(held.port.0 as usize)?;
        let right = held.right;
        Some(Fact::Hold { task, class, right })
    }

    /// Adds a name, once for each right that it has. These are the next that the task holds.
    fn add_name(
        &mut self,
        task: u16,
        named: &NamedType,
        held: &mut Iter<'_, Holding>,
    ) -> Result<(), AllocError> {
        let NamedType { name, rights } = *named;
        let count = (rights.mask() & RIGHTS).count_ones();
        for _ in 0..count.max(1) {
            let held = if count == 0 { None } else { held.next() };
            let fact = held.and_then(|held| self.fact_of(task, held));
            self.names.push(Named { task, name, fact })?;
        }
        Ok(())
    }

    /// Adds the names of a task; none if it has lost its kernel port.
    fn add_names(&mut self, task: u16, held: &mut Iter<'_, Holding>) -> Result<(), AllocError> {
        let call = Call::Names { task: OWN_KERNEL };
        let caller = TaskId(u32::from(task));
        if let Reply::Names(listing) = self.world.step(self.wired, caller, &call)? {
            for named in listing.as_slice() {
                self.add_name(task, named, held)?;
            }
        }
        Ok(())
    }

    /// Reads all names of tasks with what they hold, by task and name.
    pub(crate) fn look(&mut self) -> Result<(), AllocError> {
        self.names = Vec::new(self.alloc);
        let holdings = self.world.holdings()?;
        for task in 0..self.wired.tasks() {
            let first = holdings.partition_point(|held| held.task.0 < u32::from(task));
            let mut held = holdings.get(first..).unwrap_or(&[]).iter();
            self.add_names(task, &mut held)?;
        }
        Ok(())
    }
}
