//! The least closed set, by several workers.

ghost use Rattle.std.specs.Prelude.{◌≡◌, ◌⊎◌, ◌||◌, ◌<◌, ◌≤◌, ℕ, [], Some, Err, MatchResult};
ghost use Rattle.std.specs.Prelude.{IfErr, IfOk, OnOk, IsTrue, length, slice_get, vec_capacity};
ghost use Rattle.std.specs.Prelude.{vec_len};
ghost use Rattle.mrc_base.specs.Limits.{limit_of_workers};
ghost use Rattle.mrc_base.specs.declared.Fact.{Fact};
ghost use Rattle.mrc_wiring.specs.Table.{wiring_of};
ghost use Rattle.mrc_model.specs.Wiring.{classes};
ghost use Rattle.mrc_model.specs.Rules.{IsLeast};
ghost use Rattle.mrc_facts.specs.Sets.{has};
ghost use Rattle.mrc_certificate.specs.Spelling.{content};
ghost use Rattle.mrc_base.specs.declared.memory.OrMemory.TheVariants.{Fault, Memory};
ghost use Rattle.mrc_closure.specs.declared.workers.MakeFault.TheVariants.{Workers};
ghost use Rattle.mrc_classes.specs.Following.{IsListOf, IsFirstFact};
ghost use Rattle.mrc_closure.specs.Merging.{IsNextRound};
ghost use Rattle.mrc_closure.specs.Dealing.{FromFirst, IsFind};
ghost use Rattle.mrc_closure.specs.Least.{IsLeastList};
ghost use Rattle.mrc_closure.specs.Working.{IsWorking};

use crate::rounds::{merge, round};
use mrc_base::limits::WORKERS;
use mrc_base::{Fact, Gate, OrMemory};
use mrc_certificate::Draft;
use mrc_classes::{Facts, Rules, first_conclusions};
use mrc_wiring::Wired;
use std::alloc::{AllocError, Global};
use std::snapshot::Snapshot;
use std::sync::Wait;
use std::thread;
use std::thread::{Promise, PromisedHandle, Scope, Threads};
use thiserror::Error;

/// What a worker promises: all that follows at its places.
#[derive(Drop)]
struct Part {
    wired: Snapshot<Wired>,
    facts: Snapshot<Facts>,
    new: Snapshot<Facts>,
    worker: usize,
    workers: usize,
}

impl Promise<Result<Facts, AllocError>> for Part {
    ghost kept_by = { λ p r.
        IsFind (wiring_of p.wired.value) p.facts.value p.new.value p.worker p.workers r };
}

/// A worker at its places.
type Working = PromisedHandle<Result<Facts, AllocError>, Part>;

/// Starts a worker. Where it is to enter the gate it does so before its first place.
fn start<'s, E, R: Threads + Wait + Sync, G: Gate>(
    scope: &Scope<'s, E>,
    rt: &'s R,
    alloc: Global,
    rules: &'s Rules,
    facts: &'s Facts,
    new: &'s Facts,
    gate: &'s G,
    entering: bool,
    worker: usize,
    workers: usize,
) -> Result<Working, AllocError>
    requires { 0 < workers }
    ensures { IfOk result (λ h.
        IsWorking rules.now facts.now new.now worker workers h.promise) }
{
    let promise = Part {
        wired: Snapshot::of(rules.wired()),
        facts: Snapshot::of(facts),
        new: Snapshot::of(new),
        worker,
        workers,
    };
    let job = move || -> Result<Facts, AllocError>
        requires { 0 < workers }
        ensures { IsFind (wiring_of rules.entry.now) facts.entry.now new.entry.now
            worker workers result }
    {
        if entering {
            gate.enter(worker);
        }
        round(alloc, rules, facts, new, worker, workers)
    };
    match scope.spawn_with(promise, job) {
        Ok(handle) => Ok(handle),
        Err(_) => Err(AllocError),
    }
}

/// Starts all workers, and answers whether each was.
fn start_all<'s, E, R: Threads + Wait + Sync, G: Gate>(
    scope: &Scope<'s, E>,
    rt: &'s R,
    alloc: Global,
    rules: &'s Rules,
    facts: &'s Facts,
    new: &'s Facts,
    gate: &'s G,
    entering: bool,
    workers: usize,
    working: &mut Vec<Working>,
) -> bool
    requires empty { working.old.items ≡ [] }
    requires room { workers ≤ vec_capacity working.old }
    ensures each { (k : ℕ) (h : _) → slice_get working.new.items k ≡ Some h →
        IsWorking rules.now facts.now new.now k workers h.promise }
    ensures all { IsTrue result → vec_len working.new ≡ workers }
{
    for worker in 0..workers {
        match start(
            scope, rt, alloc, rules, facts, new, gate, entering, worker, workers,
        ) {
            Ok(one) => working.push_reserved(one),
            Err(_) => return false,
        }
    }
    true
}

/// Puts what a worker found into the set, and answers whether the set is whole then, where it was
/// before.
fn take_in(whole: bool, all: &mut Facts, found: Result<Facts, AllocError>) -> bool
    ensures before { IsTrue result → IsTrue whole }
    ensures members { IsTrue result → MatchResult found
        (λ found. (g : Fact) → has all.new g ≡ (has all.old g || has found g)) (λ _. ⊥) }
{
    match found {
        Ok(found) => {
            if all.is_empty() {
                *all = found;
                return whole;
            }
            all.join_all(&found).is_ok() && whole
        }
        Err(_) => false,
    }
}

/// Joins all workers. Where each has found all that follows at its places, answers what they
/// found.
fn join_all<R: Threads>(
    rt: &R,
    alloc: Global,
    working: Vec<Working>,
    rules: &Rules,
    facts: &Facts,
    new: &Facts,
    workers: usize,
) -> Result<Facts, AllocError>
    requires { (k : ℕ) (h : _) → slice_get working.items k ≡ Some h →
        IsWorking rules.now facts.now new.now k workers h.promise }
    ensures { IfOk result (IsListOf
        (FromFirst (wiring_of rules.now) facts.now new.now (vec_len working) workers)) }
{
    let mut all = Facts::new(alloc);
    let mut whole = true;
    for one in working {
        let found = one.join(rt);
        whole = take_in(whole, &mut all, found);
    }
    if whole { Ok(all) } else { Err(AllocError) }
}

/// A round by several workers, in a scope.
fn round_in<'s, E, R: Threads + Wait + Sync, G: Gate>(
    scope: &Scope<'s, E>,
    rt: &'s R,
    alloc: Global,
    rules: &'s Rules,
    facts: &'s Facts,
    new: &'s Facts,
    gate: &'s G,
    entering: bool,
    workers: usize,
) -> Result<Facts, AllocError>
    requires { 0 < workers }
    ensures { IfOk result (IsListOf
        (FromFirst (wiring_of rules.now) facts.now new.now workers workers)) }
{
    let mut working = Vec::with_capacity(alloc, workers)?;
    let started = start_all(
        scope,
        rt,
        alloc,
        rules,
        facts,
        new,
        gate,
        entering,
        workers,
        &mut working,
    );
    let found = join_all(rt, alloc, working, rules, facts, new, workers);
    if started { found } else { Err(AllocError) }
}

/// What follows from the new facts, with those of the set, at the places of so many workers: at all
/// places. All workers have ended where it answers.
fn round_by<R: Threads + Wait + Sync, G: Gate>(
    rt: &R,
    alloc: Global,
    rules: &Rules,
    facts: &Facts,
    new: &Facts,
    gate: &G,
    entering: bool,
    workers: usize,
) -> Result<Facts, AllocError>
    requires { 0 < workers }
    ensures { IfOk result (IsListOf
        (FromFirst (wiring_of rules.now) facts.now new.now workers workers)) }
{
    thread::scope(
        thread::scope_env(),
        rt,
        |scope| -> Result<Facts, AllocError>
            requires { 0 < workers }
            ensures { IfOk result (IsListOf (FromFirst (wiring_of rules.entry.now)
                facts.entry.now new.entry.now workers workers)) }
        { round_in(scope, rt, alloc, rules, facts, new, gate, entering, workers) },
    )
}

/// A round by so many workers: puts what follows from the new facts, with those of the set, into
/// it. Those that are new there take the place of the new ones.
fn next_round_by<R: Threads + Wait + Sync, G: Gate>(
    rt: &R,
    alloc: Global,
    rules: &Rules,
    facts: &mut Facts,
    new: &mut Facts,
    gate: &G,
    entering: bool,
    workers: usize,
) -> Result<(), AllocError>
    requires { 0 < workers }
    ensures { OnOk result (IsNextRound (FromFirst (wiring_of rules.now)
        facts.old new.old workers workers) facts.old facts.new new.new) }
{
    let found = round_by(rt, alloc, rules, facts, new, gate, entering, workers)?;
    merge(facts, new, found)
}

/// The rounds from the first facts on, by so many workers, until one has nothing new. Each worker
/// enters the gate in the first round.
fn all_rounds_by<R: Threads + Wait + Sync, G: Gate>(
    rt: &R,
    alloc: Global,
    rules: &Rules,
    first: Facts,
    facts: &mut Facts,
    gate: &G,
    workers: usize,
) -> Result<(), AllocError>
    requires some { 0 < workers }
    requires empty { facts.old ≡ [] }
    requires first { IsListOf (IsFirstFact (wiring_of rules.now)) first }
    ensures { OnOk result (IsLeastList (wiring_of rules.now) facts.new) }
{
    let _classes = rules.classes();
    let mut new = Facts::new(alloc);
    merge(facts, &mut new, first)?;
    next_round_by(rt, alloc, rules, facts, &mut new, gate, true, workers)?;
    while !new.is_empty() {
        next_round_by(rt, alloc, rules, facts, &mut new, gate, false, workers)?;
    }
    Ok(())
}

/// The least set that is closed under these rules, by so many workers.
fn least_of<R: Threads + Wait + Sync, G: Gate>(
    rt: &R,
    alloc: Global,
    rules: &Rules,
    workers: usize,
    gate: &G,
) -> Result<Facts, AllocError>
    requires { 0 < workers }
    ensures { IfOk result (IsLeastList (wiring_of rules.now)) }
{
    let first = first_conclusions(alloc, rules)?;
    let mut facts = Facts::new(alloc);
    all_rounds_by(rt, alloc, rules, first, &mut facts, gate, workers)?;
    Ok(facts)
}

/// The least closed set, by so many workers.
fn least_by<R: Threads + Wait + Sync, G: Gate>(
    rt: &R,
    alloc: Global,
    wired: &Wired,
    workers: usize,
    gate: &G,
) -> Result<Facts, AllocError>
    requires { 0 < workers }
    ensures { IfOk result (IsLeastList (wiring_of wired.now)) }
{
    let rules = Rules::new(alloc, wired)?;
    let least = least_of(rt, alloc, &rules, workers, gate);
    drop(rules);
    least
}

/// Why no certificate is made.
#[derive(Clone, Copy, Debug, PartialEq, Eq, Error)]
pub enum MakeFault {
    /// There are no workers, or more than [`WORKERS`].
    #[error("Workers")]
    Workers,
}

/// The certificate of the wiring: the least set that is closed under the ten rules, with the
/// wiring's numbers of tasks, classes and classes of births. By 1 to 64 workers, each of which
/// enters the gate once, with its number from 0 on, before its first place. A thread that can't be
/// started is told as want of memory. All workers have ended where it answers.
pub fn make<R: Threads + Wait + Sync, G: Gate>(
    rt: &R,
    alloc: Global,
    wired: &Wired,
    workers: usize,
    gate: &G,
) -> Result<Draft, OrMemory<MakeFault>>
    ensures least { IfOk result (λ draft.
        IsLeast (wiring_of wired.now) (has (content draft).facts)) }
    ensures tasks { IfOk result (λ draft.
        (content draft).tasks ≡ (wiring_of wired.now).tasks) }
    ensures class_count { IfOk result (λ draft.
        (content draft).classes ≡ classes (wiring_of wired.now)) }
    ensures births { IfOk result (λ draft.
        (content draft).births ≡ length (wiring_of wired.now).births) }
    ensures fault { (workers ≡ 0) ⊎ (limit_of_workers < workers) →
        result ≡ Err (Fault Workers) }
    ensures refused { IfErr result (λ why.
        (why ≡ Memory) ⊎ ((workers ≡ 0) ⊎ (limit_of_workers < workers))) }
{
    if workers == 0 || workers > WORKERS {
        return Err(OrMemory::Fault(MakeFault::Workers));
    }
    let facts = least_by(rt, alloc, wired, workers, gate)?;
    Ok(Draft {
        tasks: wired.tasks(),
        classes: wired.classes(),
        births: wired.birth_classes(),
        facts,
    })
}
