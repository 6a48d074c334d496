//! The same search by several threads.

ghost use Rattle.std.specs.Prelude.{◌≡◌, ◌<◌, ◌↔◌, ℕ, IsTrue, IfSome, IfNone, IfOk};
ghost use Rattle.mrc_wiring.specs.Table.{wiring_of};
ghost use Rattle.mrc_facts.specs.Sets.{has};
ghost use Rattle.mrc_classes.specs.Concluding.{rows};
ghost use Rattle.mrc_classes.specs.Lacks.{IsLackingRow, LacksNothing, IsFirstLack};
ghost use Rattle.mrc_classes.specs.Missing.{rule_number, IsAnswer};
ghost use Rattle.mrc_classes.specs.declared.rule_names.RuleName.{RuleName};

use crate::lacking::{Missing, Search};
use crate::rule_names::{RuleName, rule_of};
use mrc_base::Fact;
use mrc_rows::Facts;
use mrc_wiring::Wired;
use rayon::prelude::*;
use std::alloc::{AllocError, Global};
use std::thread::Threads;

/// Whether the set lacks a fact of the row by the rule.
fn is_lacking_row(search: &Search<'_>, rule: RuleName, row: u16) -> bool
    ensures { IsTrue result ↔
        IsLackingRow search.now.wiring (has search.now.facts) rule row }
{
    search.violation_row(rule, row).is_some()
}

/// The first row in which the set lacks a fact by the rule.
fn first_row(rt: &(impl Threads + Sync), search: &Search<'_>, rule: RuleName) -> Option<u16>
    ensures found { IfSome result
        (IsLackingRow search.now.wiring (has search.now.facts) rule) }
    ensures least { IfSome result (λ row. (t : ℕ) → t < row →
        IsLackingRow search.now.wiring (has search.now.facts) rule t → ⊥) }
    ensures none { IfNone result ((t : ℕ) → t < rows search.now.wiring rule →
        IsLackingRow search.now.wiring (has search.now.facts) rule t → ⊥) }
{
    (0..search.rows(rule)).into_par_iter().find_first(
        rt,
        |row: &u16| -> bool
            ensures { IsTrue result ↔
                IsLackingRow search.entry.now.wiring (has search.entry.now.facts) rule row.now }
        { is_lacking_row(search, rule, *row) },
    )
}

/// The first fact that the rule concludes and that the set lacks.
fn first_lack(rt: &(impl Threads + Sync), search: &Search<'_>, rule: RuleName) -> Option<Fact>
    ensures found { IfSome result (IsFirstLack search.now.wiring (has search.now.facts) rule) }
    ensures none { IfNone result (LacksNothing search.now.wiring (has search.now.facts) rule) }
{
    match first_row(rt, search, rule) {
        Some(row) => search.violation_row(rule, row),
        None => None,
    }
}

/// The first lack by the rules in their order.
fn first_missing(rt: &(impl Threads + Sync), search: &Search<'_>) -> Option<Missing>
    ensures found { IfSome result (λ m.
        IsFirstLack search.now.wiring (has search.now.facts) m.rule m.fact) }
    ensures earlier { IfSome result (λ m. (rule : RuleName) →
        rule_number rule < rule_number m.rule →
        LacksNothing search.now.wiring (has search.now.facts) rule) }
    ensures none { IfNone result ((rule : RuleName) →
        LacksNothing search.now.wiring (has search.now.facts) rule) }
{
    for number in 1..11u8 {
        let rule = rule_of(number);
        if let Some(fact) = first_lack(rt, search, rule) {
            return Some(Missing { rule, fact });
        }
    }
    None
}

/// What [`crate::violation`] answers, looked for in the rows of a rule by as many threads as there
/// are processors.
pub fn violation_by(
    rt: &(impl Threads + Sync),
    alloc: Global,
    wired: &Wired,
    facts: &Facts,
) -> Result<Option<Missing>, AllocError>
    ensures { IfOk result (IsAnswer (wiring_of wired.now) (has facts.now)) }
{
    let search = Search::new(alloc, wired, facts)?;
    Ok(first_missing(rt, &search))
}
