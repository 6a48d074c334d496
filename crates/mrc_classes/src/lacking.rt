//! The first conclusion of the rules that a set of facts lacks.

ghost use Rattle.std.specs.Prelude.{◌≡◌, ◌+◌, ◌<◌, ℕ, IfSome, IfNone, IfOk};
ghost use Rattle.mrc_model.specs.Wiring.{classes};
ghost use Rattle.mrc_wiring.specs.Table.{wiring_of};
ghost use Rattle.mrc_facts.specs.Order.{right_number};
ghost use Rattle.mrc_facts.specs.Sets.{has};
ghost use Rattle.mrc_classes.specs.Concluding.{rows};
ghost use Rattle.mrc_classes.specs.Lacks.{LacksNothing, LacksNoneIn, IsLackAt, IsFirstPlace};
ghost use Rattle.mrc_classes.specs.Lacks.{NoPlace, IsRowLack};
ghost use Rattle.mrc_classes.specs.Lacks.{IsFirstLack};
ghost use Rattle.mrc_classes.specs.Missing.{rule_number, IsAnswer};
ghost use Rattle.mrc_classes.specs.declared.rule_names.RuleName.{RuleName};

use crate::marks::Marks;
use crate::rule_names::{RuleName, rule_of};
use crate::rules::{Rules, conclusion, had_words, row_of, rows};
use mrc_base::{Fact, PortRight};
use mrc_bits::next_fresh;
use mrc_rows::Facts;
use mrc_wiring::Wired;
use std::alloc::{AllocError, Global};
use std::marker::Model;

/// A conclusion that a set lacks, with its rule.
#[derive(Clone, Copy, Debug, PartialEq, Eq)]
pub struct Missing {
    /// The rule that concludes the fact.
    pub rule: RuleName,
    /// The fact.
    pub fact: Fact,
}

/// The first class of the wiring at which the right is marked and the set lacks the rule's
/// conclusion.
fn lacking_class(
    rules: &Rules,
    facts: &Facts,
    rule: RuleName,
    row: u16,
    marks: &Marks,
    right: PortRight,
) -> Option<usize>
    requires { row < rows (wiring_of rules.now) rule }
    ensures found { IfSome result (λ c. (c < classes (wiring_of rules.now))
        × IsLackAt (has facts.now) marks.now rule row c right) }
    ensures least { IfSome result (λ c. (b : ℕ) → b < c →
        IsLackAt (has facts.now) marks.now rule row b right → ⊥) }
    ensures none { IfNone result ((b : ℕ) → b < classes (wiring_of rules.now) →
        IsLackAt (has facts.now) marks.now rule row b right → ⊥) }
{
    let had = had_words(rules, facts, rule, row, right);
    next_fresh(had, marks.words(right), rules.all(), 0)
}

/// A right on a class.
type Place = (usize, PortRight);

/// The first class, and then the first right there, of what is marked and lacking among the rights
/// up to this one, where that among the rights before it is known.
fn lacking_up_to(
    rules: &Rules,
    facts: &Facts,
    rule: RuleName,
    row: u16,
    marks: &Marks,
    before: Option<Place>,
    right: PortRight,
) -> Option<Place>
    requires row { row < rows (wiring_of rules.now) rule }
    requires found { IfSome before (IsFirstPlace (has facts.now) marks.now rule row
        (classes (wiring_of rules.now)) (right_number right)) }
    requires none { IfNone before (NoPlace (has facts.now) marks.now rule row
        (classes (wiring_of rules.now)) (right_number right)) }
    ensures found { IfSome result (IsFirstPlace (has facts.now) marks.now rule row
        (classes (wiring_of rules.now)) (right_number right + 1)) }
    ensures none { IfNone result (NoPlace (has facts.now) marks.now rule row
        (classes (wiring_of rules.now)) (right_number right + 1)) }
{
    match (before, lacking_class(rules, facts, rule, row, marks, right)) {
        (before, None) => before,
        (None, Some(class)) => Some((class, right)),
        (Some(first), Some(class)) => {
            if class < first.0 {
                Some((class, right))
            } else {
                Some(first)
            }
        }
    }
}

/// The first class, and then the first right there, of what is marked and lacking.
fn lacking_place(
    rules: &Rules,
    facts: &Facts,
    rule: RuleName,
    row: u16,
    marks: &Marks,
) -> Option<Place>
    requires { row < rows (wiring_of rules.now) rule }
    ensures found { IfSome result (IsFirstPlace (has facts.now) marks.now rule row
        (classes (wiring_of rules.now)) 3) }
    ensures none { IfNone result (NoPlace (has facts.now) marks.now rule row
        (classes (wiring_of rules.now)) 3) }
{
    let place = lacking_up_to(rules, facts, rule, row, marks, None, PortRight::Send);
    let place = lacking_up_to(rules, facts, rule, row, marks, place, PortRight::Receive);
    lacking_up_to(rules, facts, rule, row, marks, place, PortRight::SendOnce)
}

/// The least fact that the rule concludes in the row and that the set lacks.
fn row_lack(rules: &Rules, facts: &Facts, rule: RuleName, row: u16) -> Option<Fact>
    requires { row < rows (wiring_of rules.now) rule }
    ensures found { IfSome result (IsRowLack (wiring_of rules.now) (has facts.now) rule row) }
    ensures none { IfNone result (LacksNoneIn (wiring_of rules.now) (has facts.now) rule row) }
{
    let _classes = rules.classes();
    let mut marks = Marks::none();
    row_of(rules, rule, row, facts, facts, &mut marks);
    let (class, right) = lacking_place(rules, facts, rule, row, &marks)?;
    Some(conclusion(rule, row, class as u16, right))
}

/// A search for what a set lacks by the ten rules, of one rule and one row at a time. Memory is
/// taken when it begins, for what the rules ask of the wiring.
#[derive(Drop)]
pub struct Search<'a> {
    rules: Rules,
    facts: &'a Facts,
}

impl<'a> Model for Search<'a> {
    ghost use Rattle.mrc_wiring.specs.Table.{wiring_of};
    ghost use Rattle.mrc_classes.specs.Missing.{Searched};

    ghost Value = { Searched };

    ghost view = { λ s. record { wiring = wiring_of s.rules; facts = s.facts.now } };
}

impl<'a> Search<'a> {
    /// A search through the set.
    pub fn new(alloc: Global, wired: &'a Wired, facts: &'a Facts) -> Result<Search<'a>, AllocError>
        ensures { IfOk result (λ search.
            search ≡ record { wiring = wiring_of wired.now; facts = facts.now }) }
    {
        let rules = Rules::new(alloc, wired)?;
        Ok(Search { rules, facts })
    }

    /// How many rows the rule has: one for each task, or one for each class, as its conclusions
    /// are.
    pub fn rows(&self, rule: RuleName) -> u16
        ensures { result ≡ rows self.now.wiring rule }
    {
        rows(self.rules.wired(), rule)
    }

    /// The least fact of a row that the rule concludes and that the set lacks. It takes no memory.
    pub fn violation_row(&self, rule: RuleName, row: u16) -> Option<Fact>
        ensures found { IfSome result (λ f. (row < rows self.now.wiring rule)
            × IsRowLack self.now.wiring (has self.now.facts) rule row f) }
        ensures none { IfNone result (row < rows self.now.wiring rule →
            LacksNoneIn self.now.wiring (has self.now.facts) rule row) }
    {
        if row >= self.rows(rule) {
            return None;
        }
        row_lack(&self.rules, self.facts, rule, row)
    }
}

/// The first fact that the rule concludes and that the set lacks.
fn first_lack(search: &Search<'_>, rule: RuleName) -> Option<Fact>
    ensures found { IfSome result (IsFirstLack search.now.wiring (has search.now.facts) rule) }
    ensures none { IfNone result (LacksNothing search.now.wiring (has search.now.facts) rule) }
{
    for row in 0..search.rows(rule) {
        if let Some(fact) = search.violation_row(rule, row) {
            return Some(fact);
        }
    }
    None
}

/// The first lack by the rules in their order.
fn first_missing(search: &Search<'_>) -> Option<Missing>
    ensures found { IfSome result (λ m.
        IsFirstLack search.now.wiring (has search.now.facts) m.rule m.fact) }
    ensures earlier { IfSome result (λ m. (rule : RuleName) →
        rule_number rule < rule_number m.rule →
        LacksNothing search.now.wiring (has search.now.facts) rule) }
    ensures none { IfNone result ((rule : RuleName) →
        LacksNothing search.now.wiring (has search.now.facts) rule) }
{
    for number in 1..11u8 {
        let rule = rule_of(number);
        if let Some(fact) = first_lack(search, rule) {
            return Some(Missing { rule, fact });
        }
    }
    None
}

/// The first conclusion of the rules that the set lacks: of least rule number, and then the least
/// fact. There is none exactly where the set is closed under the ten rules. Memory is taken for
/// what is held at first alone.
pub fn violation(alloc: Global, wired: &Wired, facts: &Facts) -> Result<Option<Missing>, AllocError>
    ensures { IfOk result (IsAnswer (wiring_of wired.now) (has facts.now)) }
{
    let search = Search::new(alloc, wired, facts)?;
    Ok(first_missing(&search))
}
