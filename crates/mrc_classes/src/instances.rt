//! The instances of the rules that conclude a fact.
//!
//! `candidates_of` has the ten rules for a single fact, as `rules` has them for whole rows.

ghost use Rattle.std.specs.Prelude.{◌≡◌, ◌<◌, ◌≤◌, ◌*◌, ◌↔◌, ◌&&◌, ◌||◌, ℕ, Bool, IsTrue, IfSome};
ghost use Rattle.std.specs.Prelude.{IfNone};
ghost use Rattle.mrc_base.specs.declared.PortRight.{PortRight};
ghost use Rattle.mrc_base.specs.declared.Fact.{Fact};
ghost use Rattle.mrc_model.specs.Wiring.{classes};
ghost use Rattle.mrc_model.specs.Rules.{Has, Follows};
ghost use Rattle.mrc_wiring.specs.Table.{wiring_of};
ghost use Rattle.mrc_facts.specs.Sets.{has};
ghost use Rattle.mrc_classes.specs.Concluding.{conclusion, rows, sources, can_send_to};
ghost use Rattle.mrc_classes.specs.Concluding.{is_taken_of, leads, Comes};
ghost use Rattle.mrc_classes.specs.Instances.{ComesBy};
ghost use Rattle.mrc_classes.specs.Missing.{rule_number};
ghost use Rattle.mrc_classes.specs.Instances.{IsInstance, AreParts, IsWithin, IsGoal, IsSource};
ghost use Rattle.mrc_classes.specs.Instances.{has_premise, HavePremises, premises_count, HasCount};
ghost use Rattle.mrc_classes.specs.Instances.{fact_of, fact_in, premises_in};
ghost use Rattle.mrc_classes.specs.declared.rule_names.RuleName.{RuleName};

use crate::rights::{backup, carry, hold, is_in_range, same_right};
use crate::rule_names::{RuleName, rule_of};
use crate::rules::{
    Rules, caller_of, conclusion, is_birth_class, kernel_port_held, leads, sources, verb_of,
};
use mrc_base::{Fact, PortRight};
use mrc_model::Verb;
use mrc_rows::Facts;
use std::marker::Model;

/// The ten rules in the order of their numbers.
pub const RULES: [RuleName; 10] = [
    RuleName::First,
    RuleName::Births,
    RuleName::Weaker,
    RuleName::Slot,
    RuleName::Reply,
    RuleName::Received,
    RuleName::KernelPort,
    RuleName::Request,
    RuleName::Notice,
    RuleName::Returned,
];

/// The premises of an instance of a rule, in the rule's order.
#[derive(Clone, Copy, Debug, PartialEq, Eq)]
pub enum FewFacts {
    /// A rule without premises.
    Empty,
    /// A rule of one premise.
    One(Fact),
    /// A rule of two premises, which may be one fact.
    Two(Fact, Fact),
}

/// An instance of a rule, by which a fact is concluded.
#[derive(Clone, Copy, Debug, PartialEq, Eq)]
pub struct Instance {
    /// The rule.
    pub rule: RuleName,
    /// Its premises.
    pub premises: FewFacts,
}

/// The facts that a premise can be.
#[derive(Clone, Copy, Debug, PartialEq, Eq)]
pub enum Premise {
    /// This fact.
    Only(Fact),
    /// One fact or the other.
    Either(Fact, Fact),
}

impl Premise {
    /// Whether the set has one of the facts.
    fn is_in(&self, facts: &Facts) -> bool
        ensures { result ≡ has_premise (has facts.now) self.now }
    {
        match self {
            Premise::Only(fact) => facts.has(fact),
            Premise::Either(one, other) => facts.has(one) || facts.has(other),
        }
    }

    /// The first of the facts that the set has, else the last.
    fn fact_in(&self, facts: &Facts) -> Fact
        ensures { result ≡ fact_in (has facts.now) self.now }
    {
        match self {
            Premise::Only(fact) => *fact,
            Premise::Either(one, other) => { if facts.has(one) { *one } else { *other } }
        }
    }
}

/// The premises of the instances by which a rule concludes a fact by one of its sources.
#[derive(Clone, Copy, Debug, PartialEq, Eq)]
pub enum Candidates {
    /// There is no instance.
    Never,
    /// An instance without premises.
    ByNone,
    /// An instance of this premise.
    ByOne(Fact),
    /// Instances of two premises, each with each.
    ByTwo(Premise, Premise),
}

impl Candidates {
    /// The premises of the first instance whose premises the set has.
    fn premises_in(&self, facts: &Facts) -> Option<FewFacts>
        ensures exact { result ≡ premises_in (has facts.now) self.now }
        ensures none { IfNone result
            (HavePremises (has facts.now) (has facts.now) self.now → ⊥) }
    {
        match self {
            Candidates::Never => None,
            Candidates::ByNone => Some(FewFacts::Empty),
            Candidates::ByOne(fact) => {
                if facts.has(fact) {
                    Some(FewFacts::One(*fact))
                } else {
                    None
                }
            }
            Candidates::ByTwo(first, last) => {
                if first.is_in(facts) && last.is_in(facts) {
                    Some(FewFacts::Two(first.fact_in(facts), last.fact_in(facts)))
                } else {
                    None
                }
            }
        }
    }
}

/// The candidates, if the side condition holds.
fn when(side_condition: bool, candidates: Candidates) -> Candidates
    ensures premises { (S T : Fact → Bool) → HavePremises S T result
        ↔ (IsTrue side_condition × HavePremises S T candidates) }
    ensures count { (n : ℕ) → HasCount n candidates → HasCount n result }
{
    if side_condition {
        candidates
    } else {
        Candidates::Never
    }
}

/// A right by which the task can send to class `to`.
fn sender(task: u16, to: u16) -> Premise
    ensures { (S : Fact → Bool) → has_premise S result ≡ can_send_to S task to }
{
    Premise::Either(
        hold(task, to, PortRight::Send),
        hold(task, to, PortRight::SendOnce),
    )
}

/// `sender` as the first premise; as the last one, each of two facts that is taken.
fn by_held(
    sender: Premise,
    one: Fact,
    takes_one: bool,
    other: Fact,
    takes_other: bool,
) -> Candidates
    ensures premises { (S T : Fact → Bool) → HavePremises S T result
        ↔ (IsTrue (has_premise S sender)
        × IsTrue ((T one && takes_one) || (T other && takes_other))) }
    ensures count { HasCount 2 result }
{
    match (takes_one, takes_other) {
        (true, true) => Candidates::ByTwo(sender, Premise::Either(one, other)),
        (true, false) => Candidates::ByTwo(sender, Premise::Only(one)),
        (false, true) => Candidates::ByTwo(sender, Premise::Only(other)),
        (false, false) => Candidates::Never,
    }
}

/// Class `to` takes a right of the task on the class by a slot, which comes as `give`. A send right
/// comes of a send or a receive right, a receive right of a receive right, a send-once right of a
/// receive or a send-once right.
fn by_taken(rules: &Rules, to: u16, class: u16, give: PortRight, task: u16) -> Candidates
    requires to { to < classes (wiring_of rules.now) }
    requires class { class < classes (wiring_of rules.now) }
    ensures premises { (S T : Fact → Bool) → HavePremises S T result
        ↔ (IsTrue (can_send_to S task to)
        × IsTrue (is_taken_of (wiring_of rules.now) T to task class give)) }
    ensures count { HasCount 2 result }
{
    let sender = sender(task, to);
    let received = hold(task, class, PortRight::Receive);
    let takes_received = rules.passes(to, class, PortRight::Receive, give);
    let same = hold(task, class, give);
    let takes_same = rules.passes(to, class, give, give);
    match give {
        PortRight::Send => by_held(sender, same, takes_same, received, takes_received),
        PortRight::Receive => by_held(sender, same, takes_same, received, false),
        PortRight::SendOnce => by_held(sender, received, takes_received, same, takes_same),
    }
}

/// The premises of the rule of first holds.
fn by_first(rules: &Rules, row: u16, class: u16, right: PortRight, source: u16) -> Candidates
    ensures premises { (S T : Fact → Bool) → HavePremises S T result
        ↔ ComesBy (wiring_of rules.now) S T RuleName.First row source class right }
    ensures count { HasCount 0 result }
{
    let is_held = rules.is_held_at_first(&hold(row, class, right));
    when(is_held, Candidates::ByNone)
}

/// The premises of the rule of births.
fn by_births(rules: &Rules, row: u16, class: u16, right: PortRight, source: u16) -> Candidates
    ensures premises { (S T : Fact → Bool) → HavePremises S T result
        ↔ ComesBy (wiring_of rules.now) S T RuleName.Births row source class right }
    ensures count { HasCount 0 result }
{
    let is_receive = same_right(right, PortRight::Receive);
    let is_birth = is_birth_class(rules.wired(), row, source);
    let at_source = when(class == source, when(is_birth, Candidates::ByNone));
    when(is_receive, at_source)
}

/// The premises of the rule of weaker rights.
fn by_weaker(rules: &Rules, row: u16, class: u16, right: PortRight, source: u16) -> Candidates
    ensures premises { (S T : Fact → Bool) → HavePremises S T result
        ↔ ComesBy (wiring_of rules.now) S T RuleName.Weaker row source class right }
    ensures count { HasCount 1 result }
{
    let is_receive = same_right(right, PortRight::Receive);
    when(
        !is_receive,
        Candidates::ByOne(hold(row, class, PortRight::Receive)),
    )
}

/// The premises of the rule of slots.
fn by_slot(rules: &Rules, row: u16, class: u16, right: PortRight, source: u16) -> Candidates
    requires row { row < classes (wiring_of rules.now) }
    requires class { class < classes (wiring_of rules.now) }
    ensures premises { (S T : Fact → Bool) → HavePremises S T result
        ↔ ComesBy (wiring_of rules.now) S T RuleName.Slot row source class right }
    ensures count { HasCount 2 result }
{
    let may_send = rules.may(Verb::Sends, source, right, class);
    when(may_send, by_taken(rules, row, class, right, source))
}

/// The premises of the rule of reply rights.
fn by_reply(rules: &Rules, row: u16, class: u16, right: PortRight, source: u16) -> Candidates
    requires row { row < classes (wiring_of rules.now) }
    requires class { class < classes (wiring_of rules.now) }
    ensures premises { (S T : Fact → Bool) → HavePremises S T result
        ↔ ComesBy (wiring_of rules.now) S T RuleName.Reply row source class right }
    ensures count { HasCount 2 result }
{
    let is_once = same_right(right, PortRight::SendOnce);
    let fits = rules.accepts_replier(row, class);
    let may_reply = rules.may(Verb::Replies, source, PortRight::SendOnce, class);
    let held = Premise::Only(hold(source, class, PortRight::SendOnce));
    let sent = Candidates::ByTwo(sender(source, row), held);
    when(is_once, when(fits, when(may_reply, sent)))
}

/// The premises of the rule of receiving.
fn by_received(rules: &Rules, row: u16, class: u16, right: PortRight, source: u16) -> Candidates
    ensures premises { (S T : Fact → Bool) → HavePremises S T result
        ↔ ComesBy (wiring_of rules.now) S T RuleName.Received row source class right }
    ensures count { HasCount 2 result }
{
    Candidates::ByTwo(
        Premise::Only(hold(row, source, PortRight::Receive)),
        Premise::Only(carry(source, class, right)),
    )
}

/// The premises of the rule of kernel ports.
fn by_kernel_port(rules: &Rules, row: u16, class: u16, right: PortRight, source: u16) -> Candidates
    requires row { row < (wiring_of rules.now).tasks }
    requires source { source < 2 * (wiring_of rules.now).tasks }
    ensures premises { (S T : Fact → Bool) → HavePremises S T result
        ↔ ComesBy (wiring_of rules.now) S T RuleName.KernelPort row source class right }
    ensures count { HasCount 2 result }
{
    let may_share = rules.may(verb_of(source), caller_of(row, source), right, class);
    let port = kernel_port_held(rules.wired(), row, source);
    let shared = hold(source / 2, class, right);
    when(
        may_share,
        Candidates::ByTwo(Premise::Only(port), Premise::Only(shared)),
    )
}

/// The premises of the rule of requests for notices.
fn by_request(rules: &Rules, row: u16, class: u16, right: PortRight, source: u16) -> Candidates
    requires class { class < classes (wiring_of rules.now) }
    ensures premises { (S T : Fact → Bool) → HavePremises S T result
        ↔ ComesBy (wiring_of rules.now) S T RuleName.Request row source class right }
    ensures count { HasCount 2 result }
{
    let is_send = same_right(right, PortRight::Send);
    let receiver = Premise::Only(hold(source, row, PortRight::Receive));
    let once = Premise::Only(hold(source, class, PortRight::SendOnce));
    when(
        is_send,
        when(rules.is_notified(class), Candidates::ByTwo(receiver, once)),
    )
}

/// The premises of the rule of notices.
fn by_notice(rules: &Rules, row: u16, class: u16, right: PortRight, source: u16) -> Candidates
    ensures premises { (S T : Fact → Bool) → HavePremises S T result
        ↔ ComesBy (wiring_of rules.now) S T RuleName.Notice row source class right }
    ensures count { HasCount 1 result }
{
    let is_receive = same_right(right, PortRight::Receive);
    when(
        is_receive,
        when(class == source, Candidates::ByOne(backup(source, row))),
    )
}

/// The premises of the rule of returned rights.
fn by_returned(rules: &Rules, row: u16, class: u16, right: PortRight, source: u16) -> Candidates
    ensures premises { (S T : Fact → Bool) → HavePremises S T result
        ↔ ComesBy (wiring_of rules.now) S T RuleName.Returned row source class right }
    ensures count { HasCount 2 result }
{
    let is_once = same_right(right, PortRight::SendOnce);
    let receiver = Premise::Only(hold(row, source, PortRight::Receive));
    let asked = Premise::Only(backup(source, class));
    when(is_once, Candidates::ByTwo(receiver, asked))
}

/// The premises from which the rule concludes the right on the class in the row, by the source.
fn candidates_of(
    rules: &Rules,
    rule: RuleName,
    row: u16,
    class: u16,
    right: PortRight,
    source: u16,
) -> Candidates
    requires row { row < rows (wiring_of rules.now) rule }
    requires class { class < classes (wiring_of rules.now) }
    requires source { source < sources (wiring_of rules.now) rule }
    ensures premises { (S T : Fact → Bool) → HavePremises S T result
        ↔ ComesBy (wiring_of rules.now) S T rule row source class right }
    ensures count { HasCount (premises_count rule) result }
{
    match rule {
        RuleName::First => by_first(rules, row, class, right, source),
        RuleName::Births => by_births(rules, row, class, right, source),
        RuleName::Weaker => by_weaker(rules, row, class, right, source),
        RuleName::Slot => by_slot(rules, row, class, right, source),
        RuleName::Reply => by_reply(rules, row, class, right, source),
        RuleName::Received => by_received(rules, row, class, right, source),
        RuleName::KernelPort => by_kernel_port(rules, row, class, right, source),
        RuleName::Request => by_request(rules, row, class, right, source),
        RuleName::Notice => by_notice(rules, row, class, right, source),
        RuleName::Returned => by_returned(rules, row, class, right, source),
    }
}

/// The sources by which the rule may conclude the right on the class: from the first number up to
/// the second, which is none of them.
fn sources_of(rules: &Rules, rule: RuleName, class: u16, right: PortRight) -> (u16, u16)
    requires { class < classes (wiring_of rules.now) }
    ensures { (T : Fact → Bool) (row n : ℕ) → n < sources (wiring_of rules.now) rule →
        Comes (wiring_of rules.now) T rule row n class right → (result.0 ≤ n) × (n < result.1) }
{
    let _within = rules.classes();
    let every = (0, sources(rules.wired(), rule));
    match rule {
        RuleName::Births | RuleName::Notice => (class, class + 1),
        RuleName::Reply | RuleName::Returned => {
            if same_right(right, PortRight::SendOnce) {
                every
            } else {
                (0, 0)
            }
        }
        RuleName::First
        | RuleName::Weaker
        | RuleName::Slot
        | RuleName::Received
        | RuleName::KernelPort
        | RuleName::Request => every,
    }
}

/// The row, the class and the right of a fact.
fn parts(fact: &Fact) -> (u16, u16, PortRight)
    ensures { AreParts fact.now result.0 result.1 result.2 }
{
    match *fact {
        Fact::Hold { task, class, right } => (task, class.0, right),
        Fact::Carry {
            destination,
            class,
            right,
        } => (destination.0, class.0, right),
        Fact::Backup { class, notify } => (class.0, notify.0, PortRight::Send),
    }
}

/// Whether the fact is the rule's conclusion of a right on a class in a row.
fn is_conclusion(rule: RuleName, row: u16, class: u16, right: PortRight, fact: &Fact) -> bool
    ensures { IsTrue result ↔ (conclusion rule row class right ≡ fact.now) }
{
    conclusion(rule, row, class, right) == *fact
}

/// A fact as what a rule of a wiring is to conclude: in which row, and which right on which class.
#[derive(Drop)]
pub struct Goal<'a> {
    rules: &'a Rules,
    rule: RuleName,
    row: u16,
    class: u16,
    right: PortRight,
}

impl<'a> Model for Goal<'a> {
    ghost use Rattle.mrc_wiring.specs.Table.{wiring_of};
    ghost use Rattle.mrc_classes.specs.Instances.{Concluded, IsWithin};

    ghost Value = { Concluded };

    ghost view = { λ g. record {
      wiring = wiring_of g.rules.now;
      rule = g.rule;
      row = g.row;
      class = g.class;
      right = g.right;
    } };

    ghost invariant = { λ g. IsWithin record {
      wiring = wiring_of g.rules.now;
      rule = g.rule;
      row = g.row;
      class = g.class;
      right = g.right;
    } };
}

impl<'a> Goal<'a> {
    /// The fact as what the rule is to conclude. There is none if the rule concludes it from no set
    /// of facts, since it is of another kind, or over more tasks or classes than the wiring has.
    pub fn new(rules: &'a Rules, rule: RuleName, fact: &Fact) -> Option<Goal<'a>>
        ensures some { IfSome result (IsGoal (wiring_of rules.now) rule fact.now) }
        ensures none { IfNone result ((S : Fact → Bool) →
            Follows (wiring_of rules.now) (Has S) (rule_number rule) fact.now → ⊥) }
    {
        let (row, class, right) = parts(fact);
        if !is_in_range(rules.wired(), fact) {
            return None;
        }
        if !is_conclusion(rule, row, class, right, fact) {
            return None;
        }
        Some(Goal {
            rules,
            rule,
            row,
            class,
            right,
        })
    }

    /// The sources by which the rule may conclude the fact: from the first number up to the second,
    /// which is none of them. A source is a task or a class; for the rule of kernel ports each task
    /// is two, one that is taken from and one that gives. A rule that needs none has source 0.
    pub fn sources(&self) -> (u16, u16)
        ensures all { (S T : Fact → Bool) (n : ℕ) → IsSource S T self.now n →
            (result.0 ≤ n) × (n < result.1) }
        ensures kept { IsWithin self.now }
    {
        sources_of(self.rules, self.rule, self.class, self.right)
    }

    /// Whether the set has the first of two premises for the source. A rule of one premise or none
    /// does not ask for it. It is a faster test than `candidates`.
    pub fn leads(&self, source: u16, facts: &Facts) -> bool
        ensures only { IsTrue result → IsTrue (leads self.now.wiring (has facts.now) self.now.rule
            self.now.row source) }
        ensures all { (T : Fact → Bool) →
            IsSource (has facts.now) T self.now source → IsTrue result }
    {
        if source >= sources(self.rules.wired(), self.rule) {
            return false;
        }
        leads(self.rules, self.rule, self.row, source, facts)
    }

    /// The premises from which the rule concludes the fact by the source of this number.
    pub fn candidates(&self, source: u16) -> Candidates
        ensures premises { (S T : Fact → Bool) →
            HavePremises S T result ↔ IsSource S T self.now source }
        ensures count { HasCount (premises_count self.now.rule) result }
    {
        if source >= sources(self.rules.wired(), self.rule) {
            return Candidates::Never;
        }
        candidates_of(
            self.rules, self.rule, self.row, self.class, self.right, source,
        )
    }

    /// Premises in the set from which the rule concludes the fact, by the first source.
    fn premises_in(&self, facts: &Facts) -> Option<FewFacts>
        ensures some { IfSome result (λ premises. IsInstance self.now.wiring (has facts.now)
            (fact_of self.now) (record { rule = self.now.rule; premises = premises })) }
        ensures none { IfNone result
            ((n : ℕ) → IsSource (has facts.now) (has facts.now) self.now n → ⊥) }
    {
        let (first, end) = self.sources();
        for source in first..end {
            if let Some(premises) = self.candidates(source).premises_in(facts) {
                return Some(premises);
            }
        }
        None
    }
}

/// An instance of the rule that concludes the fact from facts of the set.
fn by_rule(rules: &Rules, facts: &Facts, rule: RuleName, fact: &Fact) -> Option<Instance>
    ensures some { IfSome result (IsInstance (wiring_of rules.now) (has facts.now) fact.now) }
    ensures none { IfNone result (Follows (wiring_of rules.now) (Has (has facts.now))
        (rule_number rule) fact.now → ⊥) }
{
    let goal = Goal::new(rules, rule, fact)?;
    let premises = goal.premises_in(facts)?;
    Some(Instance { rule, premises })
}

/// An instance of a rule that concludes the fact from facts of the set. The rules are tried in the
/// order of their numbers.
pub fn instance_of(rules: &Rules, facts: &Facts, fact: Fact) -> Option<Instance>
    ensures some { IfSome result (IsInstance (wiring_of rules.now) (has facts.now) fact) }
    ensures none { IfNone result ((k : ℕ) →
        Follows (wiring_of rules.now) (Has (has facts.now)) k fact → ⊥) }
{
    for number in 1..11u8 {
        if let Some(found) = by_rule(rules, facts, rule_of(number), &fact) {
            return Some(found);
        }
    }
    None
}
