//! The facts of a set that are drawn.

ghost use Rattle.std.specs.Prelude.{◌≡◌, ◌&&◌, ◌||◌, filter, IfOk, OnOk};
ghost use Rattle.mrc_base.specs.declared.Fact.{Fact};
ghost use Rattle.mrc_facts.specs.Order.{is_same};
ghost use Rattle.mrc_facts.specs.Sets.{has, after};
ghost use Rattle.mrc_draw.specs.Filters.{is_hold, is_drawn};

use crate::filter::{Filter, matches};
use mrc_base::Fact;
use mrc_rows::Facts;
use std::alloc::{AllocError, Global};

/// Whether the fact is a hold.
fn is_hold(fact: &Fact) -> bool
    ensures { result ≡ is_hold fact.now }
{
    match fact {
        Fact::Hold { .. } => true,
        Fact::Carry { .. } | Fact::Backup { .. } => false,
    }
}

/// Whether the fact is drawn: it is one of those that are asked for, and a hold if only holds are
/// drawn.
fn is_drawn(asked: &Filter, holds: bool, fact: &Fact) -> bool
    ensures { result ≡ is_drawn asked.now holds fact.now }
{
    (!holds || is_hold(fact)) && matches(asked, fact)
}

/// Puts the fact to those that are kept, if it is drawn, and returns the next fact.
fn keep(
    facts: &Facts,
    asked: &Filter,
    holds: bool,
    kept: &mut Facts,
    fact: &Fact,
) -> Result<Option<Fact>, AllocError>
    ensures kept { OnOk result ((g : Fact) → has kept.new g
        ≡ ((is_drawn asked.now holds fact.now && is_same g fact.now) || has kept.old g)) }
    ensures next { IfOk result (λ next. next ≡ after facts.now fact.now) }
{
    if is_drawn(asked, holds, fact) {
        let _new = kept.insert(*fact)?;
    }
    Ok(facts.after(*fact))
}

/// Those of the facts that are drawn: of those that are asked for, only the holds or all.
pub fn drawn_facts(
    alloc: Global,
    facts: &Facts,
    asked: &Filter,
    holds: bool,
) -> Result<Facts, AllocError>
    ensures { IfOk result (λ kept. kept ≡ filter (is_drawn asked.now holds) facts.now) }
{
    let _count = facts.len();
    let mut kept = Facts::new(alloc);
    let mut next = facts.first();
    while let Some(fact) = next {
        next = keep(facts, asked, holds, &mut kept, &fact)?;
    }
    let _kept = kept.len();
    Ok(kept)
}
