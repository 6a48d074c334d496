//! A script, run by tasks as threads from what was checked to what is printed.

ghost use Rattle.std.specs.Prelude.{◌≡◌, ◌≤◌, [], IfErr, IfOk, IsTrue, OnOk, length, take};
ghost use Rattle.std.specs.Prelude.{vec_capacity, vec_len};
ghost use Rattle.std.specs.Io.KnownBytes.{Appends};
ghost use Rattle.mrc_base.specs.Limits.{limit_of_events, limit_of_parts};
ghost use Rattle.mrc_confine.specs.Guards.{wiring_in};
ghost use Rattle.mrc_report.specs.Journal.{journal_text};
ghost use Rattle.mrc_report.specs.Output.{HasFailed, HasGrown, HasGrownIn, written};
ghost use Rattle.mrc_report.specs.Plays.{AreFresh, SaysAll, SaysFirst};
ghost use Rattle.mrc_report.specs.Served.{IsServed};

use crate::halting::waiting_lines;
use crate::outgoing::{Unprinted, nothing, pass_on, print};
use crate::playing::LiveFault;
use crate::printing::{end_line, event_line};
use crate::running::{Stopped, run_script};
use crate::script::Script;
use crate::streaming::{EventPrinter, print_events};
use mrc_base::{Gate, OrMemory, TaskId};
use mrc_check::Confined;
use mrc_confine::Guarded;
use mrc_files::Sink;
use mrc_live::{Event, FinishFault, Journal, Live, NotOpened, NotSeated, Seat, Unfinished};
use mrc_wiring::Wired;
use std::alloc::Global;
use std::marker::Model;
use std::sync::Wait;
use std::sync::ledger::{Blank, Ledger};
use std::thread::Threads;
use thiserror::Error;

/// Why a script was not run to its end. The last four never come where the server is sound.
#[derive(Clone, Copy, Debug, PartialEq, Eq, Error)]
pub enum ServeFault {
    /// There are as many seats as there may be.
    #[error("TooManySeats")]
    TooManySeats,
    /// The journal has as many events as it may have.
    #[error("JournalFull")]
    JournalFull,
    /// A seat was absent in the end.
    #[error("SeatsMissing")]
    SeatsMissing,
    /// This event of the journal, counted from 0, is not the next one of its seat's list.
    #[error("Differs {0}")]
    Differs(usize),
    /// The machine runs something else than what was passed.
    #[error("Swapped")]
    Swapped,
    /// A task was stopped that could go on.
    #[error("Awake")]
    Awake,
}

/// A journal, and the machine in the world after it. Contracts see it as what is printed of it.
#[derive(Debug, Drop)]
pub struct Ran {
    journal: Journal,
    guarded: Guarded,
}

impl Model for Ran {
    ghost use Rattle.std.specs.Prelude.{List, ℕ};
    ghost use Rattle.mrc_model.specs.Map.{len};
    ghost use Rattle.mrc_report.specs.Journal.{journal_text};

    ghost Value = { List ℕ };

    ghost view = { λ r. journal_text r.guarded.confined.claim.table r.journal
        (len r.guarded.world.store.ports) };
}

impl Ran {
    /// Prints a line for each event of the journal, and the last line. Some of it is kept back, so
    /// that short lines go out together; it takes memory for some lines and this.
    pub fn print<S: Sink>(&self, alloc: Global, sink: &mut S) -> Result<(), Unprinted>
        // All of it was appended.
        ensures whole { OnOk result (Appends (S.contents sink.old) (S.contents sink.new) self.now) }
        // Else its first bytes were, as many as the fault counts.
        ensures cut { IfErr result (λ fault. Appends (S.contents sink.old) (S.contents sink.new)
            (take (written fault) self.now)) }
        ensures within { IfErr result (λ fault. written fault ≤ length self.now) }
        // It is done only if no write and no flush failed.
        ensures passed { OnOk result (S.failures sink.new ≡ S.failures sink.old) }
        // A failed write is reported if and only if one failed.
        ensures failed { IfErr result (HasFailed (S.failures sink.old) (S.failures sink.new)) }
    {
        let wired = self.guarded.confined().wired();
        let ports = self.guarded.world().live_ports();
        print_journal(alloc, wired, self.journal.events(), ports, sink)
    }

    /// Prints the events of the journal by this printer.
    pub fn print_by<S: Sink, P: EventPrinter>(
        &self,
        alloc: Global,
        printer: &P,
        sink: &mut S,
    ) -> Result<(), Unprinted>
        // Some text was appended.
        ensures whole { OnOk result (HasGrown (S.contents sink.old) (S.contents sink.new)) }
        // Else the first bytes of one were, as many as the fault counts.
        ensures cut { IfErr result (λ fault.
            HasGrownIn (S.contents sink.old) (S.contents sink.new) (written fault)) }
        // It is done only if no write and no flush failed.
        ensures passed { OnOk result (S.failures sink.new ≡ S.failures sink.old) }
        // A failed write is reported if and only if one failed.
        ensures failed { IfErr result (HasFailed (S.failures sink.old) (S.failures sink.new)) }
    {
        let wired = self.guarded.confined().wired();
        let ports = self.guarded.world().live_ports();
        print_events(alloc, wired, self.journal.events(), ports, printer, sink)
    }
}

/// What came of a script.
#[derive(Debug, Drop)]
pub enum Served {
    /// All tasks have said all their lines: the journal.
    Whole(Ran),
    /// All tasks that have lines left wait for messages: the journal so far, and the numbers of the
    /// lines that wait, ascending.
    AllWait(Ran, Vec<u32>),
}

/// A script that was not run to its end, with what was passed.
#[derive(Debug, Drop)]
pub struct NotServed {
    /// Why.
    pub fault: OrMemory<ServeFault>,
    /// What was checked.
    pub confined: Confined,
    /// The script.
    pub script: Script,
}

/// Why a script was not run to its end, and what was checked.
type Unserved = (OrMemory<ServeFault>, Confined);

/// The fault of a run that has no journal to print.
fn stopped(fault: LiveFault) -> OrMemory<ServeFault> {
    match fault {
        LiveFault::JournalFull => OrMemory::Fault(ServeFault::JournalFull),
        LiveFault::Memory => OrMemory::Memory,
        LiveFault::AllWait => OrMemory::Fault(ServeFault::Awake),
    }
}

/// Why a server was not finished, and what was checked.
fn unfinished<L: Ledger>(refused: Unfinished<L>) -> Unserved
    ensures { result.1 ≡ refused.server.shown }
{
    let Unfinished {
        fault,
        server,
        seats,
    } = refused;
    drop(seats);
    let fault = match fault {
        FinishFault::SeatsMissing => ServeFault::SeatsMissing,
        FinishFault::Differs(at) => ServeFault::Differs(at),
        FinishFault::Swapped => ServeFault::Swapped,
    };
    (OrMemory::Fault(fault), server.lock().into_confined())
}

/// Prints a journal: a line for each event, and the last line.
fn print_journal<S: Sink>(
    alloc: Global,
    wired: &Wired,
    events: &[Event],
    ports: usize,
    sink: &mut S,
) -> Result<(), Unprinted>
    ensures whole { OnOk result (Appends (S.contents sink.old) (S.contents sink.new)
        (journal_text wired.now events.now ports)) }
    ensures cut { IfErr result (λ fault. Appends (S.contents sink.old) (S.contents sink.new)
        (take (written fault) (journal_text wired.now events.now ports))) }
    ensures within { IfErr result
        (λ fault. written fault ≤ length (journal_text wired.now events.now ports)) }
    ensures passed { OnOk result (S.failures sink.new ≡ S.failures sink.old) }
    ensures failed { IfErr result (HasFailed (S.failures sink.old) (S.failures sink.new)) }
{
    let mut out = nothing(alloc);
    for (number, event) in events.iter().enumerate() {
        let Ok(line) = event_line(alloc, wired, number, event.task, &event.reply) else {
            return Err(Unprinted::Memory(out.written));
        };
        print(sink, &mut out, line.as_str())?;
    }
    let Ok(end) = end_line(alloc, events.len(), ports) else {
        return Err(Unprinted::Memory(out.written));
    };
    print(sink, &mut out, end.as_str())?;
    pass_on(sink, &mut out)
}

/// What came of a script of which each task has said all its lines.
fn whole<L: Ledger>(live: Live<L>, seats: Vec<Seat<L>>, script: &Script) -> Result<Served, Unserved>
    requires all { vec_len seats ≡ (wiring_in live).tasks }
    requires said { SaysAll script.now seats.items }
    ensures served { IfOk result (IsServed live.claim.table script.now) }
    ensures returned { IfErr result (λ refused. refused.1 ≡ live) }
{
    match live.finish(seats) {
        Ok((journal, guarded)) => Ok(Served::Whole(Ran { journal, guarded })),
        Err(refused) => Err(unfinished(refused)),
    }
}

/// What came of a script of which all tasks that have lines left wait.
fn halted<L: Ledger>(
    alloc: Global,
    live: Live<L>,
    seats: Vec<Seat<L>>,
    script: &Script,
) -> Result<Served, Unserved>
    requires all { vec_len seats ≡ (wiring_in live).tasks }
    requires said { SaysFirst script.now seats.items }
    ensures served { IfOk result (IsServed live.claim.table script.now) }
    ensures returned { IfErr result (λ refused. refused.1 ≡ live) }
{
    match live.finish(seats) {
        Ok((journal, mut guarded)) => {
            let Ok(waiting) = waiting_lines(alloc, &mut guarded, script, journal.events()) else {
                drop(journal);
                return Err((OrMemory::Memory, guarded.into_confined()));
            };
            match waiting {
                Some(lines) => Ok(Served::AllWait(Ran { journal, guarded }, lines)),
                None => {
                    drop(journal);
                    Err((OrMemory::Fault(ServeFault::Awake), guarded.into_confined()))
                }
            }
        }
        Err(refused) => Err(unfinished(refused)),
    }
}

/// Makes each task's seat, in task order, before any thread is started: so a task that waits knows
/// that all who may send to it are there. Whether there were enough seats.
fn seat_all<L: Ledger, R: Wait>(rt: &R, live: &Live<L>, seats: &mut Vec<Seat<L>>) -> bool
    requires empty { seats.old.items ≡ [] }
    requires room { (wiring_in live.now).tasks ≤ vec_capacity seats.old }
    ensures each { AreFresh seats.new.items }
    ensures all { IsTrue result → vec_len seats.new ≡ (wiring_in live.now).tasks }
{
    for task in 0..u32::from(live.confined().wired().tasks()) {
        match live.seat(rt, TaskId(task)) {
            Ok(seat) => seats.push_reserved(seat),
            Err(NotSeated::TooManySeats) => return false,
            Err(NotSeated::NoSuchTask) => unreachable!(),
        }
    }
    true
}

/// A seat for each task, in task order.
fn seats_of<L: Ledger, R: Wait>(
    rt: &R,
    alloc: Global,
    live: &Live<L>,
) -> Result<Vec<Seat<L>>, OrMemory<ServeFault>>
    ensures each { IfOk result (λ seats. AreFresh seats.items) }
    ensures all { IfOk result (λ seats. vec_len seats ≡ (wiring_in live.now).tasks) }
{
    let mut seats = Vec::with_capacity(alloc, usize::from(live.confined().wired().tasks()))?;
    if seat_all(rt, live, &mut seats) {
        return Ok(seats);
    }
    drop(seats);
    Err(OrMemory::Fault(ServeFault::TooManySeats))
}

/// What came of a script at a server.
fn run_at<L: Ledger + Send + Sync, R: Threads + Wait + Sync, G: Gate>(
    rt: &R,
    alloc: Global,
    live: Live<L>,
    script: &Script,
    gate: &G,
) -> Result<Served, Unserved>
    ensures served { IfOk result (IsServed live.claim.table script.now) }
    ensures returned { IfErr result (λ refused. refused.1 ≡ live) }
{
    let seats = match seats_of(rt, alloc, &live) {
        Ok(seats) => seats,
        Err(fault) => return Err((fault, live.into_confined())),
    };
    match run_script(rt, alloc, &live, seats, script, gate) {
        Ok(seats) => whole(live, seats, script),
        Err(
            Stopped {
                fault: LiveFault::AllWait,
                seats,
            },
        ) => halted(alloc, live, seats, script),
        Err(Stopped { fault, seats }) => {
            drop(seats);
            Err((stopped(fault), live.into_confined()))
        }
    }
}

/// A server of what was checked, in the first state of its wiring.
fn opened<L: Ledger>(
    alloc: Global,
    confined: Confined,
    limit: usize,
    blank: Blank,
) -> Result<Live<L>, Confined>
    requires limit { (1 ≤ limit) × (limit ≤ limit_of_events) }
    requires name { blank.name ≡ L.name }
    requires parts { (blank.parts ≡ L.parts) × (L.parts ≡ limit_of_parts) }
    ensures ok { IfOk result (λ live. live ≡ confined) }
    ensures returned { IfErr result (λ back. back ≡ confined) }
{
    let guarded = match Guarded::start(alloc, confined) {
        Ok(guarded) => guarded,
        Err(back) => return Err(back),
    };
    match Live::<L>::new(alloc, guarded, limit, blank) {
        Ok(live) => Ok(live),
        Err(NotOpened { guarded, blank }) => {
            drop(blank);
            Err(guarded.into_confined())
        }
    }
}

/// What came of a script, from the first state of the wiring on.
fn run<L: Ledger + Send + Sync, R: Threads + Wait + Sync, G: Gate>(
    rt: &R,
    alloc: Global,
    confined: Confined,
    script: &Script,
    limit: usize,
    blank: Blank,
    gate: &G,
) -> Result<Served, Unserved>
    requires limit { (1 ≤ limit) × (limit ≤ limit_of_events) }
    requires name { blank.name ≡ L.name }
    requires parts { (blank.parts ≡ L.parts) × (L.parts ≡ limit_of_parts) }
    ensures served { IfOk result (IsServed confined.claim.table script.now) }
    ensures returned { IfErr result (λ refused. refused.1 ≡ confined) }
{
    match opened::<L>(alloc, confined, limit, blank) {
        Ok(live) => run_at(rt, alloc, live, script, gate),
        Err(back) => Err((OrMemory::Memory, back)),
    }
}

/// Runs a script on what was checked, from the first state of its wiring on: one thread and one
/// seat for each task, each entering the gate once before its first line. Returns the journal,
/// which is whole, or ends when all tasks that have lines left wait for messages. The limit is that
/// of the journal, and the blank that of the ledger. With a refusal what was checked comes back
/// with the script.
pub fn serve<L: Ledger + Send + Sync, R: Threads + Wait + Sync, G: Gate>(
    rt: &R,
    alloc: Global,
    confined: Confined,
    script: Script,
    limit: usize,
    blank: Blank,
    gate: &G,
) -> Result<Served, NotServed>
    requires limit { (1 ≤ limit) × (limit ≤ limit_of_events) }
    requires name { blank.name ≡ L.name }
    requires parts { (blank.parts ≡ L.parts) × (L.parts ≡ limit_of_parts) }
    // What is printed is a run of the machine, in which each task makes the calls of its lines, or
    // of the first of them if no task can go on.
    ensures served { IfOk result (IsServed confined.claim.table script) }
    ensures returned { IfErr result
        (λ refused. (refused.confined ≡ confined) × (refused.script ≡ script)) }
{
    match run::<L, R, G>(rt, alloc, confined, &script, limit, blank, gate) {
        Ok(served) => {
            drop(script);
            Ok(served)
        }
        Err((fault, back)) => Err(NotServed {
            fault,
            confined: back,
            script,
        }),
    }
}
