//! What a policy demands of the holdings that it names.

ghost use Rattle.std.specs.Prelude.{◌≡◌, IfOk};
ghost use Rattle.mrc_base.specs.Reading.{Gives};
ghost use Rattle.mrc_check.specs.Demands.{demand_of, demands_of, is_forbidden, forbidden_in};

use mrc_base::OrMemory;
use mrc_wide_policy::{Asked, Stance};
use mrc_wiring::{ClaimFault, ForbiddenLine, Wired, forbidden};
use std::alloc::{AllocError, Global};

/// A holding that a line of a policy names.
#[derive(Clone, Copy, Debug, PartialEq, Eq)]
pub struct Demand {
    /// The holding, with the number of the line.
    pub holding: ForbiddenLine,
    /// What the policy asks of it.
    pub stance: Stance,
}

impl Demand {
    /// Whether the holding is forbidden: one that is waived is so unless it is let pass (`waives`).
    pub fn is_forbidden(&self, waives: bool) -> bool
        ensures { result ≡ is_forbidden waives self.now }
    {
        match self.stance {
            Stance::Forbidden => true,
            Stance::Waived(_) => !waives,
            Stance::Expected => false,
        }
    }
}

/// What is demanded of a holding that is asked for by its names.
fn demand_of(wired: &Wired, asked: &Asked) -> Result<Demand, OrMemory<ClaimFault>>
    ensures { Gives (λ demand. demand) result (demand_of wired.now asked.now) }
{
    let holding = forbidden(wired, asked.line.number, &asked.line.says)?;
    Ok(Demand {
        holding,
        stance: asked.stance,
    })
}

/// The same of each, in order; or the fault of the first that has one.
pub(crate) fn demands_of(
    alloc: Global,
    wired: &Wired,
    asked: &[Asked],
) -> Result<Vec<Demand>, OrMemory<ClaimFault>>
    ensures { Gives (λ demands. demands.items) result (demands_of wired.now asked.now) }
{
    let mut demands = Vec::new(alloc);
    for one in asked {
        demands.push(demand_of(wired, one)?)?;
    }
    Ok(demands)
}

/// The holdings that are forbidden, in order.
pub(crate) fn forbidden_in(
    alloc: Global,
    waives: bool,
    demands: &[Demand],
) -> Result<Vec<ForbiddenLine>, AllocError>
    ensures { IfOk result (λ lines. lines.items ≡ forbidden_in waives demands.now) }
{
    let mut lines = Vec::new(alloc);
    for demand in demands {
        if demand.is_forbidden(waives) {
            lines.push(demand.holding)?;
        }
    }
    Ok(lines)
}
