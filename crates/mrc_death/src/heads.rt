//! The lists of ports that wait for a backup to die: where each begins.

ghost use Rattle.std.specs.Prelude.{◌≡◌, ℕ, ◌==◌, [], OnOk, if◌then◌else◌};
ghost use Rattle.mrc_death.specs.Heads.{head_at};

use mrc_base::PortId;
use std::alloc::{AllocError, Global};
use std::collections::BTreeMap;
use std::marker::Model;

/// For each port the number of the last link of those that wait for it; 0 where none does.
#[derive(Drop)]
pub struct Heads {
    places: BTreeMap<u64, usize>,
}

impl Model for Heads {
    ghost use Rattle.std.specs.Prelude.{ℕ, List};

    ghost Value = { List (ℕ × ℕ) };

    ghost view = { λ a. a.places.entries };
}

impl Heads {
    /// No port is waited for.
    pub fn new(alloc: Global) -> Heads
        ensures { result ≡ [] }
    {
        Heads {
            places: BTreeMap::new(alloc),
        }
    }

    /// The last link at the port.
    pub fn at(&self, port: PortId) -> usize
        ensures { result ≡ head_at self.now port }
    {
        self.places.get(&port.0).copied().unwrap_or(0)
    }

    /// Changes the last link at the port.
    pub fn put(&mut self, port: PortId, link: usize) -> Result<(), AllocError>
        ensures { OnOk result ((q : ℕ) →
            head_at self.new q ≡ (if port == q then link else head_at self.old q)) }
    {
        self.places.insert(port.0, link)?;
        Ok(())
    }
}
