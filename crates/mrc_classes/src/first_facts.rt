//! What tasks hold in the first state.

ghost use Rattle.std.specs.Prelude.{◌≡◌, ◌<◌, ◌↔◌, ◌⊎◌, OnOk, IfOk, IsTrue};
ghost use Rattle.mrc_model.specs.Wiring.{classes};
ghost use Rattle.mrc_model.specs.Rules.{InRange};
ghost use Rattle.mrc_wiring.specs.Table.{wiring_of};
ghost use Rattle.mrc_facts.specs.Sets.{has};
ghost use Rattle.mrc_classes.specs.Growing.{Added, Only};
ghost use Rattle.mrc_classes.specs.Following.{IsListOf, IsHeldAtFirst};
ghost use Rattle.mrc_classes.specs.Parts.{IsListedHold, IsHoldInRange};

use mrc_base::Fact;
use mrc_rows::Facts;
use mrc_wiring::Wired;
use std::alloc::{AllocError, Global};

/// Puts the fact into the set, where the test passed.
fn put_if(test: bool, found: &mut Facts, fact: Fact) -> Result<(), AllocError>
    ensures { OnOk result (Added (has found.old) (has found.new) (Only test fact)) }
{
    if test {
        let _new = found.insert(fact)?;
    }
    Ok(())
}

/// Whether the fact is a hold over the wiring's tasks and classes.
fn is_hold_in_range(wired: &Wired, fact: &Fact) -> bool
    ensures { IsTrue result ↔ IsHoldInRange (wiring_of wired.now) fact.now }
{
    match fact {
        Fact::Hold { task, class, .. } => *task < wired.tasks() && class.0 < wired.classes(),
        Fact::Carry { .. } | Fact::Backup { .. } => false,
    }
}

/// Puts those of the facts into the set that are holds over the wiring's tasks and classes.
fn put_holds(wired: &Wired, list: &[Fact], facts: &mut Facts) -> Result<(), AllocError>
    ensures { OnOk result (Added (has facts.old) (has facts.new)
        (IsListedHold (wiring_of wired.now) list.now)) }
{
    for fact in list {
        put_if(is_hold_in_range(wired, fact), facts, *fact)?;
    }
    Ok(())
}

/// What the tasks hold in the first state, as facts: the conclusions of the first rule.
pub(crate) fn held_at_first(alloc: Global, wired: &Wired) -> Result<Facts, AllocError>
    ensures { IfOk result (IsListOf (IsHeldAtFirst (wiring_of wired.now))) }
{
    let holdings = wired.first_holdings(alloc)?;
    let mut facts = Facts::new(alloc);
    put_holds(wired, holdings.as_slice(), &mut facts)?;
    Ok(facts)
}
