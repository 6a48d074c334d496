//! What the thread of one task does.

ghost use Rattle.std.specs.Prelude.{◌≡◌, [], ◌∷◌, ◌++◌, ◌==◌, OnErr, OnOk};
ghost use Rattle.mrc_report.specs.Plays.{IsPlayed, IsSameSeat, calls_of};

use crate::script::{Script, TaskCall};
use mrc_base::{Gate, TaskId};
use mrc_live::{Live, NotReceived, NotTaken, Seat};
use mrc_machine::Call;
use std::alloc::Global;
use std::sync::Wait;
use std::sync::atomic::{AtomicBool, Ordering};
use std::sync::ledger::Ledger;
use thiserror::Error;

/// Why not all lines of a script were said.
#[derive(Clone, Copy, Debug, PartialEq, Eq, Error)]
pub enum LiveFault {
    /// The journal has as many events as it may have.
    #[error("JournalFull")]
    JournalFull,
    /// Out of memory, or of threads.
    #[error("Memory")]
    Memory,
    /// All tasks that have lines left wait for messages.
    #[error("AllWait")]
    AllWait,
}

/// Why not all of a task's lines were said.
#[derive(Clone, Copy, Debug, PartialEq, Eq)]
pub(crate) enum Halt {
    /// The run was stopped: another task had a fault, or all waited.
    Stopped,
    /// The journal has as many events as it may have.
    JournalFull,
    /// Out of memory, or of threads.
    Memory,
}

/// What a thread hands back.
#[derive(Drop)]
pub(crate) struct Played<L: Ledger> {
    pub(crate) seat: Seat<L>,
    pub(crate) halt: Option<Halt>,
}

/// A call of a line.
fn call<L: Ledger, R: Wait>(
    rt: &R,
    alloc: Global,
    live: &Live<L>,
    seat: &mut Seat<L>,
    call: &Call,
) -> Result<(), Halt>
    ensures said { OnOk result (calls_of seat.new ≡ calls_of seat.old ++ call.now ∷ []) }
    ensures err { OnErr result (calls_of seat.new ≡ calls_of seat.old) }
    ensures same { IsSameSeat seat.old seat.new }
{
    let Ok(copy) = call.copy(alloc) else {
        return Err(Halt::Memory);
    };
    match live.call(rt, seat, copy) {
        Ok(_) => Ok(()),
        Err(NotTaken::JournalFull(_)) => Err(Halt::JournalFull),
        Err(NotTaken::Memory(_)) => Err(Halt::Memory),
    }
}

/// One line: a receive that waits for a message, until the run is stopped, or any other call.
fn say<L: Ledger, R: Wait>(
    rt: &R,
    alloc: Global,
    live: &Live<L>,
    stop: &AtomicBool,
    seat: &mut Seat<L>,
    says: &TaskCall,
) -> Result<(), Halt>
    ensures said { OnOk result (calls_of seat.new ≡ calls_of seat.old ++ says.now.call ∷ []) }
    ensures err { OnErr result (calls_of seat.new ≡ calls_of seat.old) }
    ensures same { IsSameSeat seat.old seat.new }
{
    if !says.waits {
        return call(rt, alloc, live, seat, &says.call);
    }
    match &says.call {
        Call::Receive { name, limit } => match live.receive_until(rt, seat, *name, *limit, stop) {
            Ok(Some(_)) => Ok(()),
            Ok(None) => Err(Halt::Stopped),
            Err(NotReceived::JournalFull) => Err(Halt::JournalFull),
            Err(NotReceived::Memory) => Err(Halt::Memory),
        },
        other => call(rt, alloc, live, seat, other),
    }
}

/// Whether the line is of this task.
pub(crate) fn is_of(says: &TaskCall, task: TaskId) -> bool
    ensures { result ≡ (says.now.task == task) }
{
    says.task.0 == task.0
}

/// Says the lines of a seat's task in order, until the run is stopped.
fn say_lines<L: Ledger, R: Wait>(
    rt: &R,
    alloc: Global,
    live: &Live<L>,
    stop: &AtomicBool,
    seat: &mut Seat<L>,
    script: &Script,
) -> Option<Halt>
    ensures { IsPlayed script.now seat.old seat.new result }
{
    let task = seat.task();
    for line in script.lines() {
        if is_of(&line.says, task) {
            if stop.load(Ordering::SeqCst) {
                return Some(Halt::Stopped);
            }
            if let Err(halt) = say(rt, alloc, live, stop, seat, &line.says) {
                return Some(halt);
            }
        }
    }
    None
}

/// Enters the gate, unless the run was stopped before, and says the task's lines in order. A fault
/// stops all others.
pub(crate) fn play<L: Ledger, R: Wait, G: Gate>(
    rt: &R,
    alloc: Global,
    live: &Live<L>,
    gate: &G,
    stop: &AtomicBool,
    seat: Seat<L>,
    script: &Script,
) -> Played<L>
    ensures { IsPlayed script.now seat result.seat result.halt }
{
    let mut seat = seat;
    if !stop.load(Ordering::SeqCst) {
        gate.enter(seat.task().0 as usize);
    }
    let halt = say_lines(rt, alloc, live, stop, &mut seat, script);
    if matches!(halt, Some(Halt::JournalFull | Halt::Memory)) {
        stop.store(true, Ordering::SeqCst);
    }
    live.leave(rt, &seat);
    Played { seat, halt }
}
