//! Scripts, run by tasks as threads.

ghost use Rattle.std.specs.Prelude.{◌≡◌, ◌≤◌, ℕ, [], IfErr, IfOk, MatchResult, None, Some, map};
ghost use Rattle.std.specs.Prelude.{slice_get, vec_capacity, vec_len};
ghost use Rattle.mrc_report.specs.Plays.{AreEnded, IsPlayed, IsRefused, earlier, fault_of};

use crate::playing::{Halt, LiveFault, Played, play};
use crate::script::Script;
use mrc_base::Gate;
use mrc_live::{Live, Seat};
use std::alloc::Global;
use std::snapshot::Snapshot;
use std::sync::Wait;
use std::sync::atomic::{AtomicBool, Ordering};
use std::sync::ledger::Ledger;
use std::thread;
use std::thread::{Promise, PromisedHandle, Scope, Threads};

/// What a thread promises: that this seat has made the calls of its task's lines.
#[derive(Drop)]
struct Lines<L: Ledger> {
    seat: Snapshot<Seat<L>>,
    script: Snapshot<Script>,
}

impl<L: Ledger> Promise<Played<L>> for Lines<L> {
    ghost kept_by = { λ p r. IsPlayed p.script.value p.seat.value r.seat r.halt };
}

/// A seat's thread that runs, or what came back if none could be made.
#[derive(Drop)]
struct Running<L: Ledger> {
    /// The seat as it was before.
    before: Snapshot<Seat<L>>,
    thread: Result<PromisedHandle<Played<L>, Lines<L>>, Played<L>>,
}

/// Starts a seat's thread. If none can be made the seat comes back as it was, and the run is
/// stopped.
fn start<'s, E, L: Ledger + Send + Sync, R: Wait + Sync, G: Gate>(
    scope: &Scope<'s, E>,
    rt: &'s R,
    alloc: Global,
    live: &'s Live<L>,
    gate: &'s G,
    stop: &'s AtomicBool,
    seat: Seat<L>,
    script: &'s Script,
) -> Running<L>
    ensures before { result.before.value ≡ seat }
    ensures seat { IfOk result.thread (λ h. h.promise.seat.value ≡ seat) }
    ensures script { IfOk result.thread (λ h. h.promise.script.value ≡ script.now) }
    ensures err { IfErr result.thread (λ p. IsPlayed script.now seat p.seat p.halt) }
{
    let before = Snapshot::of(&seat);
    let promise = Lines {
        seat: Snapshot::of(&seat),
        script: Snapshot::of(script),
    };
    let job = move || -> Played<L>
        ensures { IsPlayed script.entry.now seat result.seat result.halt }
    { play(rt, alloc, live, gate, stop, seat, script) };
    match scope.spawn_with(promise, job) {
        Ok(handle) => Running {
            before,
            thread: Ok(handle),
        },
        Err(refused) => {
            stop.store(true, Ordering::SeqCst);
            live.wake_all(rt);
            let Played { seat, .. } = (refused.value)();
            Running {
                before,
                thread: Err(Played {
                    seat,
                    halt: Some(Halt::Memory),
                }),
            }
        }
    }
}

/// Starts the thread of each seat, in order.
fn start_all<'s, E, L: Ledger + Send + Sync, R: Wait + Sync, G: Gate>(
    scope: &Scope<'s, E>,
    rt: &'s R,
    alloc: Global,
    live: &'s Live<L>,
    gate: &'s G,
    stop: &'s AtomicBool,
    seats: Vec<Seat<L>>,
    script: &'s Script,
    running: &mut Vec<Running<L>>,
)
    requires empty { running.old.items ≡ [] }
    requires room { vec_len seats ≤ vec_capacity running.old }
    ensures before { map (λ x. x.before.value) running.new.items ≡ seats.items }
    ensures each { (k : ℕ) (x : _) → slice_get running.new.items k ≡ Some x
        → MatchResult x.thread
        (λ h. (h.promise.seat.value ≡ x.before.value) × (h.promise.script.value ≡ script.now))
        (λ p. IsPlayed script.now x.before.value p.seat p.halt) }
    ensures len { vec_len running.new ≡ vec_len seats }
{
    for seat in seats {
        running.push_reserved(start(scope, rt, alloc, live, gate, stop, seat, script));
    }
}

/// What a thread handed back.
fn ended<L: Ledger, R: Threads>(rt: &R, one: Running<L>) -> Played<L>
    ensures { MatchResult one.thread
        (λ h. IsPlayed h.promise.script.value h.promise.seat.value result.seat result.halt)
        (λ p. result ≡ p) }
{
    let Running { before, thread } = one;
    drop(before);
    match thread {
        Ok(handle) => handle.join(rt),
        Err(played) => played,
    }
}

/// Of two in the order of their seats: the first that is not a stop, or else a stop, if there is
/// one.
fn earlier(first: Option<Halt>, next: Option<Halt>) -> Option<Halt>
    ensures { result ≡ earlier first next }
{
    match (first, next) {
        (None, next) => next,
        (Some(Halt::Stopped), Some(next)) => Some(next),
        (first, _) => first,
    }
}

/// Joins all threads. The seats come back in their order, with the first fault, or else a stop, if
/// there was one.
fn join_all<L: Ledger, R: Threads>(
    rt: &R,
    running: Vec<Running<L>>,
    seats: Vec<Seat<L>>,
    script: &Script,
) -> (Vec<Seat<L>>, Option<Halt>)
    requires each { (k : ℕ) (x : _) → slice_get running.items k ≡ Some x
        → MatchResult x.thread
        (λ h. (h.promise.seat.value ≡ x.before.value) × (h.promise.script.value ≡ script.now))
        (λ p. IsPlayed script.now x.before.value p.seat p.halt) }
    requires empty { seats.items ≡ [] }
    requires room { vec_len running ≤ vec_capacity seats }
    ensures ended { AreEnded script.now (map (λ x. x.before.value) running.items)
        result.0.items result.1 }
{
    let mut seats = seats;
    let mut first = None;
    for one in running {
        let Played { seat, halt } = ended(rt, one);
        seats.push_reserved(seat);
        first = earlier(first, halt);
    }
    (seats, first)
}

/// What a run reports of the halt that came first.
fn fault_of(halt: Halt) -> LiveFault
    ensures { result ≡ fault_of halt }
{
    match halt {
        Halt::Stopped => LiveFault::AllWait,
        Halt::JournalFull => LiveFault::JournalFull,
        Halt::Memory => LiveFault::Memory,
    }
}

/// Why a run was refused, with all seats that were passed, in their order.
#[derive(Drop)]
pub struct Stopped<L: Ledger> {
    /// Why.
    pub fault: LiveFault,
    /// The seats.
    pub seats: Vec<Seat<L>>,
}

/// Runs all threads in a scope.
fn run_in<'s, E, L: Ledger + Send + Sync, R: Threads + Wait + Sync, G: Gate>(
    scope: &Scope<'s, E>,
    rt: &'s R,
    alloc: Global,
    live: &'s Live<L>,
    gate: &'s G,
    stop: &'s AtomicBool,
    seats: Vec<Seat<L>>,
    script: &'s Script,
) -> Result<Vec<Seat<L>>, Stopped<L>>
    ensures ran { IfOk result (λ done. AreEnded script.now seats.items done.items None) }
    ensures refused { IfErr result
        (λ f. IsRefused script.now seats.items f.fault f.seats.items) }
{
    let (Ok(mut running), Ok(done)) = (
        Vec::with_capacity(alloc, seats.len()),
        Vec::with_capacity(alloc, seats.len()),
    ) else {
        return Err(Stopped {
            fault: LiveFault::Memory,
            seats,
        });
    };
    start_all(
        scope,
        rt,
        alloc,
        live,
        gate,
        stop,
        seats,
        script,
        &mut running,
    );
    let (seats, first) = join_all(rt, running, done, script);
    match first {
        Some(halt) => Err(Stopped {
            fault: fault_of(halt),
            seats,
        }),
        None => Ok(seats),
    }
}

/// As [`run_live`], of a script that is lent.
pub(crate) fn run_script<L: Ledger + Send + Sync, R: Threads + Wait + Sync, G: Gate>(
    rt: &R,
    alloc: Global,
    live: &Live<L>,
    seats: Vec<Seat<L>>,
    script: &Script,
    gate: &G,
) -> Result<Vec<Seat<L>>, Stopped<L>>
    ensures ran { IfOk result (λ done. AreEnded script.now seats.items done.items None) }
    ensures refused { IfErr result
        (λ f. IsRefused script.now seats.items f.fault f.seats.items) }
{
    let stop = AtomicBool::new(false);
    let stop = &stop;
    thread::scope(
        thread::scope_env(),
        rt,
        |scope| -> Result<Vec<Seat<L>>, Stopped<L>>
            ensures ran { IfOk result
                (λ done. AreEnded script.entry.now seats.items done.items None) }
            ensures refused { IfErr result
                (λ f. IsRefused script.entry.now seats.items f.fault f.seats.items) }
        { run_in(scope, rt, alloc, live, gate, stop, seats, script) },
    )
}

/// Runs a script by these seats of a server, in one thread for each: a seat makes the calls of its
/// task's lines. Each thread enters the gate once, with its task's number, before its first line,
/// also if it has no line. A fault of one stops the others, and so does the last that begins to
/// wait for a message when each other waits or has said all its lines: `AllWait`. Another seat of
/// the server that has not left is waited for.
pub fn run_live<L: Ledger + Send + Sync, R: Threads + Wait + Sync, G: Gate>(
    rt: &R,
    alloc: Global,
    live: &Live<L>,
    seats: Vec<Seat<L>>,
    script: Script,
    gate: &G,
) -> Result<Vec<Seat<L>>, Stopped<L>>
    // The seats come back in their order. Each has made the calls of its task's lines, in order,
    // and no others.
    ensures ran { IfOk result (λ done. AreEnded script seats.items done.items None) }
    // So they do with a refusal, also if memory runs out. Then each has made the first of them, and
    // the fault is the first in their order; or memory ran out before any call.
    ensures refused { IfErr result (λ f. IsRefused script seats.items f.fault f.seats.items) }
{
    let ran = run_script(rt, alloc, live, seats, &script, gate);
    drop(script);
    ran
}
