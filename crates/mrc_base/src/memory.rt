//! Want of memory, beside a call's own refusals.

ghost use Rattle.std.specs.Prelude.{◌≡◌};
ghost use Rattle.mrc_base.specs.Faults.{IfFault, MapsFault};

use std::alloc::{AllocError, AllocFailed};
use std::error::Error;
use std::fmt;

/// Why a call that takes memory was refused: by a fault of its own, or because memory ran out. What
/// a call promises of its faults it promises apart from memory.
#[derive(Clone, Copy, Debug, Drop, PartialEq, Eq)]
pub enum OrMemory<F> {
    /// The call's own refusal.
    Fault(F),
    /// Memory ran out.
    Memory,
}

impl<F> OrMemory<F> {
    /// The same with another fault: the one that `map` makes of its own.
    pub fn map_fault<G, M: FnOnce(F) -> G>(self, map: M) -> OrMemory<G>
        requires { IfFault self (M.pre map) }
        ensures { MapsFault (M.post map) self result }
    {
        match self {
            OrMemory::Fault(fault) => OrMemory::Fault(map(fault)),
            OrMemory::Memory => OrMemory::Memory,
        }
    }
}

impl<F: fmt::Display> fmt::Display for OrMemory<F> {
    fn fmt<W: fmt::Write>(&self, f: &mut fmt::Formatter<W>) -> fmt::Result {
        match self {
            OrMemory::Fault(fault) => write!(f, "{fault}"),
            OrMemory::Memory => f.write_str("Memory"),
        }
    }
}

impl<F: Error> Error for OrMemory<F> {}

impl<F> From<AllocError> for OrMemory<F> {
    ghost use Rattle.mrc_base.specs.declared.memory.OrMemory.TheVariants.{Memory};

    ghost from_gives = { λ _ e. e ≡ Memory };

    fn from(_error: AllocError) -> OrMemory<F> {
        OrMemory::Memory
    }
}

impl<F, T: Drop> From<AllocFailed<T>> for OrMemory<F> {
    ghost use Rattle.mrc_base.specs.declared.memory.OrMemory.TheVariants.{Memory};

    ghost from_gives = { λ _ e. e ≡ Memory };

    fn from(_error: AllocFailed<T>) -> OrMemory<F> {
        OrMemory::Memory
    }
}
