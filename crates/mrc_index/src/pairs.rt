//! Names by ports.

ghost use Rattle.std.specs.Prelude.{◌≡◌, ◌==◌, ◌||◌, ◌&&◌, ◌≤◌, ℕ, [], false, not, OnOk};
ghost use Rattle.std.specs.Prelude.{OnErr, IfSome, IfNone};
ghost use Rattle.mrc_index.specs.Pairs.{has_pair, IsLeast};

use std::alloc::{AllocError, Global};
use std::collections::BTreeSet;
use std::marker::Model;

/// Which names belong to which port.
#[derive(Debug, Drop)]
pub struct Pairs {
    pairs: BTreeSet<(u64, u32)>,
}

impl Model for Pairs {
    ghost use Rattle.std.specs.Prelude.{List, ℕ};

    ghost Value = { List (ℕ × ℕ) };

    ghost view = { λ a. a.pairs.keys };
}

impl Pairs {
    /// No name of any port.
    pub fn new(alloc: Global) -> Pairs
        ensures { result ≡ [] }
    {
        Pairs {
            pairs: BTreeSet::new(alloc),
        }
    }

    /// The name belongs to the port from here on.
    pub fn insert(&mut self, port: u64, name: u32) -> Result<(), AllocError>
        ensures ok { OnOk result ((p n : ℕ)
            → has_pair self.new p n ≡ ((port == p && name == n) || has_pair self.old p n)) }
        ensures err { OnErr result (self.new ≡ self.old) }
    {
        let _ = self.pairs.insert((port, name))?;
        Ok(())
    }

    /// The name no longer belongs to the port. It takes no memory.
    pub fn remove(&mut self, port: u64, name: u32)
        ensures { (p n : ℕ)
            → has_pair self.new p n ≡ (not (port == p && name == n) && has_pair self.old p n) }
    {
        let _ = self.pairs.remove(&(port, name));
    }

    /// The least name of a port from this one on.
    pub fn least(&self, port: u64, from: u32) -> Option<u32>
        ensures some { IfSome result (λ name. IsLeast self.now port from name) }
        ensures none { IfNone result
            ((name : ℕ) → from ≤ name → has_pair self.now port name ≡ false) }
    {
        let found = self.pairs.range((port, from)..).next()?;
        if found.0 == port { Some(found.1) } else { None }
    }
}
