//! Sets of ports.

ghost use Rattle.std.specs.Prelude.{◌≡◌, ◌==◌, ◌||◌, ℕ, [], OnOk, OnErr, IfOk, not, length};
ghost use Rattle.mrc_model.specs.Death.{has};
ghost use Rattle.mrc_map.specs.Members.{above, start, IsFirst};

use mrc_base::PortId;
use std::alloc::{AllocError, Global};
use std::collections::BTreeSet;
use std::collections::btree_set::Iter;
use std::marker::Model;
use std::ops::Bound;

/// A set of ports, by the numbers of their births.
#[derive(Debug, Drop)]
pub struct Ports {
    numbers: BTreeSet<u64>,
}

impl Model for Ports {
    ghost use Rattle.std.specs.Prelude.{ℕ, List};

    ghost Value = { List ℕ };

    ghost view = { λ a. a.numbers.keys };
}

/// Where the numbers above that of the last port begin.
fn start_after(last: Option<PortId>) -> Bound<u64>
    ensures { result ≡ start last }
{
    match last {
        Some(port) => Bound::Excluded(port.0),
        None => Bound::Unbounded,
    }
}

/// The first of these numbers above the last one.
fn number_after(numbers: &BTreeSet<u64>, last: Option<PortId>) -> Option<u64>
    ensures { IsFirst numbers.now.keys (above last) result }
{
    let found = numbers.range((start_after(last), Bound::Unbounded)).next()?;
    Some(*found)
}

impl Ports {
    /// The set with no port.
    pub fn new(alloc: Global) -> Ports
        ensures { result ≡ [] }
    {
        Ports {
            numbers: BTreeSet::new(alloc),
        }
    }

    /// How many ports the set has.
    pub fn len(&self) -> usize
        ensures { result ≡ length self.now }
    {
        self.numbers.len()
    }

    /// The numbers of the ports, ascending.
    pub fn iter(&self) -> Iter<'_, u64>
        ensures { result ≡ self.now }
    {
        self.numbers.iter()
    }

    /// Whether the set has the port.
    pub fn has(&self, port: PortId) -> bool
        ensures { result ≡ has self.now port }
    {
        self.numbers.contains(&port.0)
    }

    /// The first port of the set above the last one, or of all where none was.
    pub fn after(&self, last: Option<PortId>) -> Option<PortId>
        ensures { IsFirst self.now (above last) result }
    {
        let number = number_after(&self.numbers, last)?;
        Some(PortId(number))
    }

    /// Inserts the port, and returns whether it is new in the set. Out of memory leaves the set
    /// unchanged.
    pub fn insert(&mut self, port: PortId) -> Result<bool, AllocError>
        ensures new { IfOk result (λ new. new ≡ not (has self.old port)) }
        ensures ok { OnOk result
            ((other : ℕ) → has self.new other ≡ (port == other || has self.old other)) }
        ensures err { OnErr result (self.new ≡ self.old) }
    {
        Ok(self.numbers.insert(port.0)?)
    }
}
