//! The sums around an open parenthesis.

ghost use Rattle.std.specs.Prelude.{◌≡◌, ◌==◌, ◌∷◌, [], length, IsTrue, OnOk, MatchOption};
ghost use Rattle.mrc_mig_symbols.specs.Outer.{placed_of, inner};

use crate::expressions::Sum;
use std::alloc::{AllocError, Global};
use std::marker::Model;

/// A sum, and so many more of which nothing is read, each of which begins with the parenthesis of
/// the next. They take no memory, so that parentheses one behind the other take none.
#[derive(Clone, Copy, Debug, PartialEq, Eq)]
struct Run {
    sum: Sum,
    more: usize,
}

impl Run {
    /// The sum that would be the next of these.
    #[inline(always)]
    fn inner(self) -> Sum
        ensures { placed_of result ≡ inner self.sum.left self.more }
    {
        let at = self.sum.left.saturating_sub(self.more);
        Sum::new(at, at.saturating_sub(1))
    }

    /// Whether the sum is the next of these.
    #[inline(always)]
    fn precedes(self, sum: Sum) -> bool
        ensures { IsTrue result → placed_of sum ≡ inner self.sum.left self.more }
    {
        sum == self.inner()
    }
}

/// The sums around an open parenthesis.
#[derive(Drop)]
pub(crate) struct Outer {
    /// The innermost last.
    runs: Vec<Run>,
}

impl Model for Outer {
    ghost use Rattle.std.specs.Prelude.{List};
    ghost use Rattle.mrc_mig_symbols.specs.ExpressionStops.{Placed};
    ghost use Rattle.mrc_mig_symbols.specs.Outer.{unrolled};

    ghost Value = { List Placed };

    ghost view = { λ o. unrolled o.runs.items };
}

impl Outer {
    /// There are none.
    pub(crate) fn new(alloc: Global) -> Outer
        ensures { result ≡ [] }
    {
        Outer {
            runs: Vec::new(alloc),
        }
    }

    /// Whether there are none.
    pub(crate) fn is_empty(&self) -> bool
        ensures { result ≡ (length self.now == 0) }
    {
        self.runs.as_slice().is_empty()
    }

    /// With one more, the innermost.
    #[inline(always)]
    pub(crate) fn push(&mut self, sum: Sum) -> Result<(), AllocError>
        ensures { OnOk result (self.new ≡ placed_of sum ∷ self.old) }
    {
        let run = match self.runs.pop() {
            Some(run) if run.precedes(sum) && run.more < usize::MAX => Run {
                more: run.more + 1,
                ..run
            },
            Some(run) => {
                self.runs.push(run)?;
                Run { sum, more: 0 }
            }
            None => Run { sum, more: 0 },
        };
        self.runs.push(run)?;
        Ok(())
    }

    /// Takes the innermost, if there is one.
    #[inline(always)]
    pub(crate) fn pop(&mut self) -> Option<Sum>
        ensures { MatchOption result (self.old ≡ []) (λ sum. self.old ≡ placed_of sum ∷ self.new) }
    {
        let run = self.runs.pop()?;
        match run.more.checked_sub(1) {
            None => Some(run.sum),
            Some(more) => {
                let run = Run { more, ..run };
                let _ = self.runs.push(run);
                Some(run.inner())
            }
        }
    }
}
