//! Sets of facts from lists.

ghost use Rattle.std.specs.Prelude.{◌≡◌, IfOk};
ghost use Rattle.mrc_base.specs.declared.Fact.{Fact};
ghost use Rattle.mrc_facts.specs.Sets.{has};

use mrc_base::Fact;
use mrc_rows::Facts;
use mrc_wiring::ForbiddenLine;
use std::alloc::{AllocError, Global};

/// The set of these facts.
pub fn set_of(alloc: Global, facts: &[Fact]) -> Result<Facts, AllocError>
    ensures { IfOk result (λ set. (f : Fact) → has set f ≡ has facts.now f) }
{
    let mut set = Facts::new(alloc);
    for fact in facts {
        let _new = set.insert(*fact)?;
    }
    Ok(set)
}

/// The hold that a line of a policy forbids.
fn forbidden_hold(line: &ForbiddenLine) -> Fact {
    Fact::Hold {
        task: line.task,
        class: line.class,
        right: line.right,
    }
}

/// The holds that the lines of a policy forbid.
pub(crate) fn forbidden_holds(
    alloc: Global,
    lines: &[ForbiddenLine],
) -> Result<Vec<Fact>, AllocError> {
    let mut holds = Vec::new(alloc);
    for line in lines {
        holds.push(forbidden_hold(line))?;
    }
    Ok(holds)
}
