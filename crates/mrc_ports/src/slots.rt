//! Ports under the numbers of their births, in a slab.

ghost use Rattle.std.specs.Prelude.{◌≡◌, OnOk, OnErr, IsSome, Some, None, true};
ghost use Rattle.std.specs.Option.{option_copied};
ghost use Rattle.mrc_model.specs.Map.{empty, get, insert, remove, len, alter_all};
ghost use Rattle.mrc_ports.specs.Burials.{left_of};

use crate::port::Port;
use mrc_map::{Lookup, Ports};
use slab::Slab;
use std::alloc::{AllocError, Global};
use std::marker::Model;

/// Ports by their numbers, in slots that are used again. Contracts see the definitions' map.
#[derive(Debug, Drop)]
pub(crate) struct PortSlots {
    slots: Slab<(u64, Port)>,
    order: Lookup<usize>,
}

impl Model for PortSlots {
    ghost use Rattle.mrc_model.specs.Map as model;
    ghost use Rattle.mrc_model.specs.World.{Port as TPort};
    ghost use Rattle.mrc_ports.specs.Slots.{values_of, IsKept};

    ghost Value = { model.Map TPort };

    ghost view = { λ a. values_of a.slots.slots a.order };

    ghost invariant = { λ a. IsKept a.slots.slots a.order };
}

/// The slot of a number.
fn slot_of(order: &Lookup<usize>, number: u64) -> Option<usize>
    ensures { result ≡ get order.now number }
{
    order.get(number).copied()
}

impl PortSlots {
    /// No port.
    pub(crate) fn new(alloc: Global) -> PortSlots
        ensures { result ≡ empty }
    {
        PortSlots {
            slots: Slab::new(alloc),
            order: Lookup::new(alloc),
        }
    }

    /// How many ports there are.
    pub(crate) fn len(&self) -> usize
        ensures { result ≡ len self.now }
    {
        self.order.len()
    }

    /// The port of a number.
    pub(crate) fn get(&self, number: u64) -> Option<&Port>
        ensures { option_copied result ≡ get self.now number }
    {
        match slot_of(&self.order, number) {
            Some(slot) => match self.slots.get(slot) {
                Some(found) => Some(&found.1),
                None => None,
            },
            None => None,
        }
    }

    /// Puts a port under a number that has none, into a free slot.
    pub(crate) fn add(&mut self, number: u64, value: Port) -> Result<(), AllocError>
        requires { get self.old number ≡ None }
        ensures ok { OnOk result (self.new ≡ insert self.old number value) }
        ensures err { OnErr result (self.new ≡ self.old) }
    {
        self.slots.reserve(1)?;
        self.order.insert(number, self.slots.vacant_key())?;
        let _ = self.slots.insert_reserved((number, value));
        Ok(())
    }

    /// Puts another port in the place of one, which is answered. It takes no memory.
    pub(crate) fn replace(&mut self, number: u64, value: Port) -> Port
        requires { IsSome (get self.old number) }
        ensures out { Some result ≡ get self.old number }
        ensures changed { self.new ≡ insert self.old number value }
    {
        match slot_of(&self.order, number) {
            Some(slot) => {
                let former = self.slots.remove(slot);
                let _ = self.slots.insert_reserved((number, value));
                former.1
            }
            None => unreachable!(),
        }
    }

    /// Takes a number out, with its port, if it has one. Its slot is free. It takes no memory.
    pub(crate) fn remove(&mut self, number: u64) -> Option<Port>
        ensures out { result ≡ get self.old number }
        ensures removed { self.new ≡ remove self.old number }
    {
        match self.order.remove(number) {
            Some(slot) => Some(self.slots.remove(slot).1),
            None => None,
        }
    }

    /// Each port stays as the death of others leaves it. It takes no memory.
    pub(crate) fn turn(&mut self, dead: &Ports)
        ensures { self.new ≡ alter_all (λ p x. Some (left_of dead.now x)) self.old }
    {
        self.slots.retain(
            |_slot: usize, held: &mut (u64, Port)| -> bool
                ensures stays { result ≡ true }
                ensures turned { held.new ≡ (held.old.0, left_of dead.entry.now held.old.1) }
            {
                held.1.perish(dead);
                true
            },
        );
    }
}
