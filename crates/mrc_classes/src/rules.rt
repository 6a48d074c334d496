//! The ten rules: what each concludes in a row.

ghost use Rattle.std.specs.Prelude.{◌≡◌, ◌<◌, ◌≤◌, ◌+◌, ◌*◌, ◌==◌, ◌↔◌, ◌&&◌, ◌||◌, ℕ, not, IsTrue};
ghost use Rattle.std.specs.Prelude.{IfOk, true, nat_lt, length};
ghost use Rattle.mrc_base.specs.Limits.{limit_of_tasks};
ghost use Rattle.mrc_rows.specs.Limits.{limit_of_classes, limit_of_words};
ghost use Rattle.mrc_base.specs.declared.PortRight.{PortRight};
ghost use Rattle.mrc_model.specs.declared.Verb.{Verb};
ghost use Rattle.mrc_model.specs.Rights.{same_right};
ghost use Rattle.mrc_model.specs.Wiring.{classes, accepts_replier, accepts_destroyed, may};
ghost use Rattle.mrc_base.specs.declared.Fact.{Fact};
ghost use Rattle.mrc_bits.specs.Bits.{is_set};
ghost use Rattle.mrc_slots.specs.Passing.{passes};
ghost use Rattle.mrc_rows.specs.Joining.{is_of, is_kept};
ghost use Rattle.mrc_rows.specs.Rows.{place_of};
ghost use Rattle.mrc_wiring.specs.Table.{wiring_of};
ghost use Rattle.mrc_facts.specs.Sets.{has};
ghost use Rattle.mrc_classes.specs.Marking.{is_marked, Marked};
ghost use Rattle.mrc_classes.specs.Concluding.{conclusion, rows, has_two, sources, can_send_to};
ghost use Rattle.mrc_classes.specs.Concluding.{task_of, verb_of, caller_of, target_of};
ghost use Rattle.mrc_classes.specs.Concluding.{kernel_port_held, may_share};
ghost use Rattle.mrc_classes.specs.Concluding.{leads, Comes, Concludes};
ghost use Rattle.mrc_classes.specs.Concluding.{IsBirthClass, is_taken_of};
ghost use Rattle.mrc_classes.specs.Following.{IsHeldAtFirst};

use crate::first_facts::held_at_first;
use crate::marks::Marks;
use crate::rights::{backup, carry, hold, kernel_port};
use crate::rule_names::RuleName;
use mrc_base::{ClassId, Fact, PortRight, TaskId};
use mrc_bits::has_bit;
use mrc_model::Verb;
use mrc_rows::{Facts, Row};
use mrc_slots::Slots;
use mrc_wiring::Wired;
use std::alloc::{AllocError, Global};
use std::marker::Model;

/// A wiring, with what its rules ask of it: what its classes take, as rows of bits, and what is
/// held at first.
#[derive(Drop)]
pub struct Rules {
    slots: Slots,
    first: Facts,
}

impl Model for Rules {
    ghost use Rattle.mrc_wiring.specs.Table.{Table, wiring_of};
    ghost use Rattle.mrc_classes.specs.Following.{IsListOf, IsHeldAtFirst};

    ghost Value = { Table };

    ghost view = { λ r. r.slots };

    ghost invariant = { λ r. IsListOf (IsHeldAtFirst (wiring_of r.slots)) r.first };
}

impl Rules {
    /// The wiring with what its rules ask of it. Memory is taken here alone.
    pub fn new(alloc: Global, wired: &Wired) -> Result<Rules, AllocError>
        ensures { IfOk result (λ rules. rules ≡ wired.now) }
    {
        let slots = Slots::new(alloc, wired)?;
        let first = held_at_first(alloc, wired)?;
        Ok(Rules { slots, first })
    }

    /// The wiring itself.
    pub fn wired(&self) -> &Wired
        ensures { result.now ≡ self.now }
    {
        self.slots.wired()
    }

    /// How many tasks there are.
    pub fn tasks(&self) -> u16
        ensures exact { result ≡ (wiring_of self.now).tasks }
        ensures within { result ≤ limit_of_tasks }
    {
        self.slots.tasks()
    }

    /// How many classes of ports there are.
    pub fn classes(&self) -> u16
        ensures exact { result ≡ classes (wiring_of self.now) }
        ensures within { result ≤ limit_of_classes }
    {
        self.slots.classes()
    }

    /// Whether class `to` takes the right `held` on the class by a slot, as the right `give`.
    pub(crate) fn passes(&self, to: u16, class: u16, held: PortRight, give: PortRight) -> bool
        requires to { to < classes (wiring_of self.now) }
        requires class { class < classes (wiring_of self.now) }
        ensures { result ≡ passes (wiring_of self.now) to class held give }
    {
        has_bit(self.slots.taken_by(to, held, give), class as usize)
    }

    /// Whether the fact is held at first.
    pub(crate) fn is_held_at_first(&self, fact: &Fact) -> bool
        ensures { IsTrue result ↔ IsHeldAtFirst (wiring_of self.now) fact.now }
    {
        self.first.has(fact)
    }

    /// Whether a reply right on a port of the class can come with a request to class `to`.
    pub(crate) fn accepts_replier(&self, to: u16, class: u16) -> bool
        requires to { to < classes (wiring_of self.now) }
        requires class { class < classes (wiring_of self.now) }
        ensures { result ≡ accepts_replier (wiring_of self.now) to class }
    {
        has_bit(self.slots.repliers(to), class as usize)
    }

    /// Whether the task may use the verb with the right on ports of the class.
    pub(crate) fn may(&self, verb: Verb, task: u16, right: PortRight, class: u16) -> bool
        ensures { result ≡ may (wiring_of self.now) verb task right class }
    {
        self.wired()
            .may(verb, TaskId(task as u32), right, ClassId(class))
    }

    /// Whether the class accepts port-destroyed notices.
    pub(crate) fn is_notified(&self, class: u16) -> bool
        requires { class < classes (wiring_of self.now) }
        ensures { result ≡ accepts_destroyed (wiring_of self.now) class }
    {
        has_bit(self.slots.notified(), class as usize)
    }

    /// All classes, as bits.
    pub(crate) fn all(&self) -> &[u64]
        ensures shown { (c : ℕ) → is_set result.now c ≡ nat_lt c (classes (wiring_of self.now)) }
        ensures few { length result.now ≤ limit_of_words }
    {
        self.slots.all()
    }
}

/// Whether the task can send to ports of class `to`, by a send or a send-once right.
#[inline(always)]
pub fn can_send_to(facts: &Facts, task: u16, to: u16) -> bool
    ensures { result ≡ can_send_to (has facts.now) task to }
{
    facts.has(&hold(task, to, PortRight::Send)) || facts.has(&hold(task, to, PortRight::SendOnce))
}

/// By which verb the rule of kernel ports goes, by this source.
#[inline(always)]
pub(crate) fn verb_of(source: u16) -> Verb
    ensures { result ≡ verb_of source }
{
    if source % 2 == 0 {
        Verb::Takes
    } else {
        Verb::Gives
    }
}

/// Who takes or gives, by this source of the row of a task.
#[inline(always)]
pub(crate) fn caller_of(row: u16, source: u16) -> u16
    ensures { result ≡ caller_of row source }
{
    if source % 2 == 0 { row } else { source / 2 }
}

/// From whom, or to whom.
#[inline(always)]
pub(crate) fn target_of(row: u16, source: u16) -> u16
    ensures { result ≡ target_of row source }
{
    if source % 2 == 0 { source / 2 } else { row }
}

/// The hold of the target's kernel port by the caller.
#[inline(always)]
pub(crate) fn kernel_port_held(wired: &Wired, row: u16, source: u16) -> Fact
    requires row { row < (wiring_of wired.now).tasks }
    requires source { source < 2 * (wiring_of wired.now).tasks }
    ensures { result ≡ kernel_port_held (wiring_of wired.now) row source }
{
    let caller = caller_of(row, source);
    let port = kernel_port(wired, target_of(row, source));
    hold(caller, port, PortRight::Send)
}

/// How many rows the rule has.
#[inline(always)]
pub(crate) fn rows(wired: &Wired, rule: RuleName) -> u16
    ensures { result ≡ rows (wiring_of wired.now) rule }
{
    match rule {
        RuleName::First
        | RuleName::Births
        | RuleName::Weaker
        | RuleName::Received
        | RuleName::KernelPort
        | RuleName::Returned => wired.tasks(),
        RuleName::Slot | RuleName::Reply | RuleName::Request | RuleName::Notice => {
            wired.classes()
        }
    }
}

/// How many sources a row of the rule has.
#[inline(always)]
pub(crate) fn sources(wired: &Wired, rule: RuleName) -> u16
    ensures { result ≡ sources (wiring_of wired.now) rule }
{
    match rule {
        RuleName::First | RuleName::Weaker => 1,
        RuleName::Slot | RuleName::Reply | RuleName::Request => wired.tasks(),
        RuleName::KernelPort => 2 * wired.tasks(),
        RuleName::Births | RuleName::Received | RuleName::Notice | RuleName::Returned => {
            wired.classes()
        }
    }
}

/// Whether the rule has two premises.
pub(crate) fn has_two(rule: RuleName) -> bool
    ensures { result ≡ has_two rule }
{
    match rule {
        RuleName::First | RuleName::Births | RuleName::Weaker | RuleName::Notice => false,
        RuleName::Slot
        | RuleName::Reply
        | RuleName::Received
        | RuleName::KernelPort
        | RuleName::Request
        | RuleName::Returned => true,
    }
}

/// Whether the first of two premises of the rule is there, in the row and for the source of these
/// numbers.
#[inline(always)]
pub(crate) fn leads(rules: &Rules, rule: RuleName, row: u16, source: u16, first: &Facts) -> bool
    requires row { row < rows (wiring_of rules.now) rule }
    requires source { source < sources (wiring_of rules.now) rule }
    ensures { result ≡ leads (wiring_of rules.now) (has first.now) rule row source }
{
    match rule {
        RuleName::First | RuleName::Births | RuleName::Weaker | RuleName::Notice => true,
        RuleName::Slot | RuleName::Reply => can_send_to(first, source, row),
        RuleName::Received | RuleName::Returned => {
            first.has(&hold(row, source, PortRight::Receive))
        }
        RuleName::KernelPort => first.has(&kernel_port_held(rules.wired(), row, source)),
        RuleName::Request => first.has(&hold(source, row, PortRight::Receive)),
    }
}

/// The classes on which the task holds the right.
#[inline(always)]
fn held_words(facts: &Facts, task: u16, right: PortRight) -> &[u64]
    requires { task < limit_of_tasks }
    ensures { (c : ℕ) → c < limit_of_classes →
        is_set result.now c ≡ has facts.now (Fact.Hold task c right) }
{
    facts.words(Row::Holds(task, right))
}

/// The classes on which the right is carried to the class.
#[inline(always)]
fn carried_words(facts: &Facts, to: u16, right: PortRight) -> &[u64]
    requires { to < limit_of_classes }
    ensures { (c : ℕ) → c < limit_of_classes →
        is_set result.now c ≡ has facts.now (Fact.Carry to c right) }
{
    facts.words(Row::Carries(to, right))
}

/// The classes that are to be notified of ports of the class.
#[inline(always)]
fn asked_words(facts: &Facts, class: u16) -> &[u64]
    requires { class < limit_of_classes }
    ensures { (d : ℕ) → d < limit_of_classes →
        is_set result.now d ≡ has facts.now (Fact.Backup class d) }
{
    facts.words(Row::Backups(class))
}

/// Marks a right on the classes on which the task holds it.
#[inline(always)]
fn add_held(facts: &Facts, task: u16, right: PortRight, out: &mut Marks)
    requires { task < limit_of_tasks }
    ensures { (c : ℕ) (r : PortRight) → c < limit_of_classes →
        is_marked out.new c r ≡ (is_marked out.old c r
        || (same_right r right && has facts.now (Fact.Hold task c right))) }
{
    let held = held_words(facts, task, right);
    out.add(right, held, held);
}

/// Marks all that the task holds.
fn add_holds(facts: &Facts, task: u16, out: &mut Marks)
    requires { task < limit_of_tasks }
    ensures { (c : ℕ) (r : PortRight) → c < limit_of_classes →
        is_marked out.new c r ≡ (is_marked out.old c r || has facts.now (Fact.Hold task c r)) }
{
    add_held(facts, task, PortRight::Send, out);
    add_held(facts, task, PortRight::Receive, out);
    add_held(facts, task, PortRight::SendOnce, out);
}

/// Marks a right on the classes on which it is carried to the class.
#[inline(always)]
fn add_carried(facts: &Facts, to: u16, right: PortRight, out: &mut Marks)
    requires { to < limit_of_classes }
    ensures { (c : ℕ) (r : PortRight) → c < limit_of_classes →
        is_marked out.new c r ≡ (is_marked out.old c r
        || (same_right r right && has facts.now (Fact.Carry to c right))) }
{
    let carried = carried_words(facts, to, right);
    out.add(right, carried, carried);
}

/// Marks all that is carried to the class.
fn add_carries(facts: &Facts, to: u16, out: &mut Marks)
    requires { to < limit_of_classes }
    ensures { (c : ℕ) (r : PortRight) → c < limit_of_classes →
        is_marked out.new c r ≡ (is_marked out.old c r || has facts.now (Fact.Carry to c r)) }
{
    add_carried(facts, to, PortRight::Send, out);
    add_carried(facts, to, PortRight::Receive, out);
    add_carried(facts, to, PortRight::SendOnce, out);
}

/// Whether the class is that of the task's births.
pub(crate) fn is_birth_class(wired: &Wired, task: u16, class: u16) -> bool
    ensures { IsTrue result ↔ IsBirthClass (wiring_of wired.now) task class }
{
    match wired.born_to(ClassId(class)) {
        Some(born) => born.0 == task as u32,
        None => false,
    }
}

/// Marks the receive right on the class, where the test passes.
fn mark_if(test: bool, class: u16, out: &mut Marks)
    requires { class < limit_of_classes }
    ensures { (c : ℕ) (r : PortRight) → is_marked out.new c r ≡ (is_marked out.old c r
        || (test && (same_right r PortRight.Receive && c == class))) }
{
    if test {
        out.mark(PortRight::Receive, class);
    }
}

/// Marks the weaker rights on the classes on which the task has a receive right.
fn add_weaker(facts: &Facts, task: u16, out: &mut Marks)
    requires { task < limit_of_tasks }
    ensures { (c : ℕ) (r : PortRight) → c < limit_of_classes →
        is_marked out.new c r ≡ (is_marked out.old c r
        || (not (same_right r PortRight.Receive)
        && has facts.now (Fact.Hold task c PortRight.Receive))) }
{
    let received = held_words(facts, task, PortRight::Receive);
    out.add(PortRight::Send, received, received);
    out.add(PortRight::SendOnce, received, received);
}

/// Marks a right on the classes of both rows, of those with which the task may use the verb.
#[inline(always)]
#[tactic(auto, unfolding(mrc_model::specs::Wiring::may))]
fn add_allowed(
    wired: &Wired,
    verb: Verb,
    task: u16,
    right: PortRight,
    more: &[u64],
    mask: &[u64],
    out: &mut Marks,
)
    ensures { (c : ℕ) (r : PortRight) → c < limit_of_classes →
        is_marked out.new c r ≡ (is_marked out.old c r || (same_right r right
        && (may (wiring_of wired.now) verb task right c
        && (is_set more.now c && is_set mask.now c)))) }
{
    match wired.trusted(verb, TaskId(task as u32), right) {
        None => out.add(right, more, mask),
        Some(limits) => out.add_within(right, more, mask, limits),
    }
}

/// Marks what class `to` takes by slots, as rights `give`, of rights `held` of the task: of those
/// that it may send.
#[inline(always)]
fn add_passed(
    slots: &Slots,
    facts: &Facts,
    to: u16,
    task: u16,
    held: PortRight,
    give: PortRight,
    out: &mut Marks,
)
    requires task { task < limit_of_tasks }
    requires to { to < classes (wiring_of slots.now) }
    ensures { (c : ℕ) (r : PortRight) → c < classes (wiring_of slots.now) →
        is_marked out.new c r ≡ (is_marked out.old c r || (same_right r give
        && (may (wiring_of slots.now) Verb.Sends task give c
        && (has facts.now (Fact.Hold task c held)
        && passes (wiring_of slots.now) to c held give)))) }
{
    let _within = slots.classes();
    let more = held_words(facts, task, held);
    let taken = slots.taken_by(to, held, give);
    add_allowed(slots.wired(), Verb::Sends, task, give, more, taken, out);
}

/// Marks what class `to` takes by slots, as rights `give`, of what the task holds and may send: of
/// rights of this kind, and of receive rights.
#[inline(always)]
fn add_given(slots: &Slots, facts: &Facts, to: u16, task: u16, give: PortRight, out: &mut Marks)
    requires task { task < limit_of_tasks }
    requires to { to < classes (wiring_of slots.now) }
    ensures { (c : ℕ) (r : PortRight) → c < classes (wiring_of slots.now) →
        is_marked out.new c r ≡ (is_marked out.old c r || (same_right r give
        && (may (wiring_of slots.now) Verb.Sends task give c
        && is_taken_of (wiring_of slots.now) (has facts.now) to task c give))) }
{
    let receive = PortRight::Receive;
    match give {
        PortRight::Send => {
            add_passed(slots, facts, to, task, PortRight::Send, give, out);
            add_passed(slots, facts, to, task, receive, give, out);
        }
        PortRight::Receive => add_passed(slots, facts, to, task, receive, give, out),
        PortRight::SendOnce => {
            add_passed(slots, facts, to, task, receive, give, out);
            add_passed(slots, facts, to, task, PortRight::SendOnce, give, out);
        }
    }
}

/// Marks what class `to` takes by slots of what the task holds and may send.
fn add_taken(slots: &Slots, facts: &Facts, to: u16, task: u16, out: &mut Marks)
    requires task { task < limit_of_tasks }
    requires to { to < classes (wiring_of slots.now) }
    ensures { (c : ℕ) (r : PortRight) → c < classes (wiring_of slots.now) →
        is_marked out.new c r ≡ (is_marked out.old c r
        || (may (wiring_of slots.now) Verb.Sends task r c
        && is_taken_of (wiring_of slots.now) (has facts.now) to task c r)) }
{
    add_given(slots, facts, to, task, PortRight::Send, out);
    add_given(slots, facts, to, task, PortRight::Receive, out);
    add_given(slots, facts, to, task, PortRight::SendOnce, out);
}

/// Marks the reply rights of the task that can come with requests to class `to`: of those that it
/// may have replies at.
fn add_replies(slots: &Slots, facts: &Facts, to: u16, task: u16, out: &mut Marks)
    requires task { task < limit_of_tasks }
    requires to { to < classes (wiring_of slots.now) }
    ensures { (c : ℕ) (r : PortRight) → c < classes (wiring_of slots.now) →
        is_marked out.new c r ≡ (is_marked out.old c r || (same_right r PortRight.SendOnce
        && (may (wiring_of slots.now) Verb.Replies task PortRight.SendOnce c
        && (has facts.now (Fact.Hold task c PortRight.SendOnce)
        && accepts_replier (wiring_of slots.now) to c)))) }
{
    let _within = slots.classes();
    let once = PortRight::SendOnce;
    let more = held_words(facts, task, once);
    let fitting = slots.repliers(to);
    add_allowed(slots.wired(), Verb::Replies, task, once, more, fitting, out);
}

/// Marks a right on the classes on which the source's task holds it, of those that the caller may
/// take or give.
#[inline(always)]
fn add_shared(
    wired: &Wired,
    facts: &Facts,
    row: u16,
    source: u16,
    right: PortRight,
    out: &mut Marks,
)
    requires { source < 2 * limit_of_tasks }
    ensures { (c : ℕ) (r : PortRight) → c < limit_of_classes →
        is_marked out.new c r ≡ (is_marked out.old c r || (same_right r right
        && (may_share (wiring_of wired.now) row source c right
        && has facts.now (Fact.Hold (task_of source) c right)))) }
{
    let held = held_words(facts, source / 2, right);
    let caller = caller_of(row, source);
    add_allowed(wired, verb_of(source), caller, right, held, held, out);
}

/// Marks all that the source's task holds, of what the caller may take or give.
fn add_shares(wired: &Wired, facts: &Facts, row: u16, source: u16, out: &mut Marks)
    requires { source < 2 * limit_of_tasks }
    ensures { (c : ℕ) (r : PortRight) → c < limit_of_classes →
        is_marked out.new c r ≡ (is_marked out.old c r
        || (may_share (wiring_of wired.now) row source c r
        && has facts.now (Fact.Hold (task_of source) c r))) }
{
    add_shared(wired, facts, row, source, PortRight::Send, out);
    add_shared(wired, facts, row, source, PortRight::Receive, out);
    add_shared(wired, facts, row, source, PortRight::SendOnce, out);
}

/// Marks the classes that accept notices and on which the task has a send-once right.
fn add_requests(slots: &Slots, facts: &Facts, task: u16, out: &mut Marks)
    requires { task < limit_of_tasks }
    ensures { (c : ℕ) (r : PortRight) → c < classes (wiring_of slots.now) → is_marked out.new c r
        ≡ (is_marked out.old c r || (same_right r PortRight.Send
        && (has facts.now (Fact.Hold task c PortRight.SendOnce)
        && accepts_destroyed (wiring_of slots.now) c))) }
{
    let _within = slots.classes();
    let once = held_words(facts, task, PortRight::SendOnce);
    out.add(PortRight::Send, once, slots.notified());
}

/// Marks send-once rights on the classes that are to be notified of ports of the class.
fn add_returned(facts: &Facts, class: u16, out: &mut Marks)
    requires { class < limit_of_classes }
    ensures { (c : ℕ) (r : PortRight) → c < limit_of_classes →
        is_marked out.new c r ≡ (is_marked out.old c r
        || (same_right r PortRight.SendOnce && has facts.now (Fact.Backup class c))) }
{
    let asked = asked_words(facts, class);
    out.add(PortRight::SendOnce, asked, asked);
}

/// Marks what the rule concludes in the row by a source, of what the set has for the last premise.
#[inline(always)]
pub(crate) fn add_source(
    rules: &Rules,
    rule: RuleName,
    row: u16,
    source: u16,
    last: &Facts,
    out: &mut Marks,
)
    requires row { row < rows (wiring_of rules.now) rule }
    requires source { source < sources (wiring_of rules.now) rule }
    ensures { Marked (classes (wiring_of rules.now)) (is_marked out.old) (is_marked out.new)
        (Comes (wiring_of rules.now) (has last.now) rule row source) }
{
    let _within = (rules.tasks(), rules.classes());
    match rule {
        RuleName::First => add_holds(&rules.first, row, out),
        RuleName::Births => {
            mark_if(is_birth_class(rules.wired(), row, source), source, out);
        }
        RuleName::Weaker => add_weaker(last, row, out),
        RuleName::Slot => add_taken(&rules.slots, last, row, source, out),
        RuleName::Reply => add_replies(&rules.slots, last, row, source, out),
        RuleName::Received => add_carries(last, source, out),
        RuleName::KernelPort => add_shares(rules.wired(), last, row, source, out),
        RuleName::Request => add_requests(&rules.slots, last, source, out),
        RuleName::Notice => mark_if(last.has(&backup(source, row)), source, out),
        RuleName::Returned => add_returned(last, source, out),
    }
}

/// Marks what the rule concludes in the row, by first premises of the one set and last premises of
/// the other. What is marked behind the wiring's classes says nothing.
#[inline(always)]
pub(crate) fn row_of(
    rules: &Rules,
    rule: RuleName,
    row: u16,
    first: &Facts,
    last: &Facts,
    out: &mut Marks,
)
    requires row { row < rows (wiring_of rules.now) rule }
    ensures { Marked (classes (wiring_of rules.now)) (is_marked out.old) (is_marked out.new)
        (Concludes (wiring_of rules.now) (has first.now) (has last.now) rule row) }
{
    for source in 0..sources(rules.wired(), rule) {
        if leads(rules, rule, row, source, first) {
            add_source(rules, rule, row, source, last, out);
        }
    }
}

/// The row of facts that has the rule's conclusions of a right.
pub(crate) fn row_with(rules: &Rules, rule: RuleName, row: u16, right: PortRight) -> Row
    requires { row < rows (wiring_of rules.now) rule }
    ensures kept { is_kept result ≡ true }
    ensures all { (c : ℕ) → is_of result (conclusion rule row c right) ≡ true }
    ensures only { (g : Fact) → is_of result g ≡ true →
        g ≡ conclusion rule row (place_of g) right }
{
    let _within = (rules.tasks(), rules.classes());
    match rule {
        RuleName::First
        | RuleName::Births
        | RuleName::Weaker
        | RuleName::Received
        | RuleName::KernelPort
        | RuleName::Returned => Row::Holds(row, right),
        RuleName::Slot | RuleName::Reply | RuleName::Notice => Row::Carries(row, right),
        RuleName::Request => Row::Backups(row),
    }
}

/// What the rule concludes at this row, class and right.
pub(crate) fn conclusion(rule: RuleName, row: u16, class: u16, right: PortRight) -> Fact
    ensures { result ≡ conclusion rule row class right }
{
    match rule {
        RuleName::First
        | RuleName::Births
        | RuleName::Weaker
        | RuleName::Received
        | RuleName::KernelPort
        | RuleName::Returned => hold(row, class, right),
        RuleName::Slot | RuleName::Reply | RuleName::Notice => carry(row, class, right),
        RuleName::Request => backup(row, class),
    }
}

/// The classes at which the set has the rule's conclusion of a right in the row.
pub(crate) fn had_words<'a>(
    rules: &Rules,
    facts: &'a Facts,
    rule: RuleName,
    row: u16,
    right: PortRight,
) -> &'a [u64]
    requires { row < rows (wiring_of rules.now) rule }
    ensures { (c : ℕ) → c < classes (wiring_of rules.now) →
        is_set result.now c ≡ has facts.now (conclusion rule row c right) }
{
    let _within = (rules.tasks(), rules.classes());
    facts.words(row_with(rules, rule, row, right))
}
