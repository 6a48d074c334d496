//! Servers of systems, their seats, and calls, which are made once more if memory ran out.

ghost use Rattle.std.specs.Prelude.{◌≡◌, ◌≤◌, IfErr};
ghost use Rattle.mrc_base.specs.Limits.{limit_of_events, limit_of_parts};
ghost use Rattle.mrc_confine.specs.Guards.{wiring_in};
ghost use Rattle.mrc_model.specs.First.{first};

use crate::starting::{Stop, machine_of, note, or_stop};
use crate::systems::SystemTexts;
use mrc_base::{Right, TaskId};
use mrc_confine::Guarded;
use mrc_live::{Journal, Live, NotOpened, NotReceived, NotTaken, Seat, Unfinished};
use mrc_machine::{Call, Reply};
use mrc_model::Code;
use std::alloc::Global;
use std::sync::Wait;
use std::sync::ledger::{Blank, Ledger};
use std::thread::Threads;

/// One call of `Live::new`. If memory runs out, machine and blank come back.
fn locked<L: Ledger>(
    alloc: Global,
    guarded: Guarded,
    limit: usize,
    blank: Blank,
) -> Result<Live<L>, NotOpened>
    requires limit { (1 ≤ limit) × (limit ≤ limit_of_events) }
    requires name { blank.name ≡ L.name }
    requires parts { (blank.parts ≡ L.parts) × (L.parts ≡ limit_of_parts) }
    requires first { guarded.world ≡ first (wiring_in guarded.confined) }
    ensures returned { IfErr result (λ back. (back.guarded ≡ guarded) × (back.blank ≡ blank)) }
{
    Live::<L>::new(alloc, guarded, limit, blank)
}

/// The same, once more if memory ran out.
fn locked_at_last<L: Ledger, R: AllocGlobal + Eprint>(
    rt: &R,
    guarded: Guarded,
    limit: usize,
    blank: Blank,
) -> Result<Live<L>, NotOpened>
    requires limit { (1 ≤ limit) × (limit ≤ limit_of_events) }
    requires name { blank.name ≡ L.name }
    requires parts { (blank.parts ≡ L.parts) × (L.parts ≡ limit_of_parts) }
    requires first { guarded.world ≡ first (wiring_in guarded.confined) }
{
    match locked::<L>(rt.alloc(), guarded, limit, blank) {
        Ok(live) => Ok(live),
        Err(back) => {
            note(rt, "Live::new");
            locked::<L>(rt.alloc(), back.guarded, limit, back.blank)
        }
    }
}

/// The machine of a system behind a lock, with a journal of so many events.
pub fn opened<L: Ledger, R: AllocGlobal + Eprint + Threads + Sync>(
    rt: &R,
    texts: &SystemTexts,
    limit: usize,
    blank: Blank,
) -> Result<Live<L>, Stop>
    requires limit { (1 ≤ limit) × (limit ≤ limit_of_events) }
    requires name { blank.name ≡ L.name }
    requires parts { (blank.parts ≡ L.parts) × (L.parts ≡ limit_of_parts) }
{
    let guarded = machine_of(rt, texts)?;
    or_stop(
        locked_at_last::<L, R>(rt, guarded, limit, blank),
        Stop::Again,
    )
}

/// A seat of a task.
pub fn seat<L: Ledger, R: Wait>(rt: &R, live: &Live<L>, task: u32) -> Result<Seat<L>, Stop> {
    or_stop(live.seat(rt, TaskId(task)), Stop::Memory)
}

/// Two seats of the first task.
pub fn two_seats<L: Ledger, R: Wait>(rt: &R, live: &Live<L>) -> Result<(Seat<L>, Seat<L>), Stop> {
    let one = seat(rt, live, 0)?;
    Ok((one, seat(rt, live, 0)?))
}

/// What a seat is answered; `Other` is what no test wants.
#[derive(Clone, Copy, Debug, PartialEq, Eq)]
pub enum Told {
    Done,
    /// The name of what is made.
    Name(u32),
    /// A message of so many bytes.
    Message(usize),
    Refused(Code),
    JournalFull,
    Memory,
    Other,
}

fn told_by(reply: &Reply) -> Told {
    match reply {
        Reply::Done => Told::Done,
        Reply::Name(name) => Told::Name(*name),
        Reply::Created { name, .. } => Told::Name(*name),
        Reply::Message(message) => Told::Message(message.as_slice().len()),
        Reply::Refused(code) => Told::Refused(*code),
        _ => Told::Other,
    }
}

fn settled(answer: Result<Reply, NotTaken>) -> Told {
    let told = match &answer {
        Ok(reply) => told_by(reply),
        Err(NotTaken::JournalFull(_)) => Told::JournalFull,
        Err(NotTaken::Memory(_)) => Told::Memory,
    };
    drop(answer);
    told
}

/// The call that makes a port.
pub fn allocate() -> Call {
    Call::Allocate {
        task: 1,
        right: Right::Receive,
        kind: 0,
    }
}

/// The call that sends the message of these bytes.
pub fn send<L: Ledger>(alloc: Global, seat: &Seat<L>, bytes: &[u8]) -> Result<Call, Stop> {
    or_stop(seat.prepare(alloc, bytes), Stop::Memory)
}

fn answer<L: Ledger, R: Wait>(
    rt: &R,
    live: &Live<L>,
    seat: &mut Seat<L>,
    call: Call,
) -> Result<Reply, NotTaken> {
    live.call(rt, seat, call)
}

/// One call of a seat.
pub fn called<L: Ledger, R: Wait>(rt: &R, live: &Live<L>, seat: &mut Seat<L>, call: Call) -> Told {
    settled(answer(rt, live, seat, call))
}

/// The same of a call that comes back if memory runs out, and is made once more.
pub fn called_at_last<L: Ledger, R: Eprint + Wait>(
    rt: &R,
    live: &Live<L>,
    seat: &mut Seat<L>,
    call: Call,
) -> Told {
    match answer(rt, live, seat, call) {
        Err(NotTaken::Memory(call)) => {
            note(rt, "Live::call");
            called(rt, live, seat, call)
        }
        answer => settled(answer),
    }
}

/// What a seat is answered that waits for a message.
pub fn waited<L: Ledger, R: Wait>(rt: &R, live: &Live<L>, seat: &mut Seat<L>, name: u32) -> Told {
    match live.receive_wait(rt, seat, name, 24) {
        Ok(reply) => settled(Ok(reply)),
        Err(NotReceived::JournalFull) => Told::JournalFull,
        Err(NotReceived::Memory) => Told::Memory,
    }
}

/// The same, once more if memory ran out.
pub fn waited_at_last<L: Ledger, R: Eprint + Wait>(
    rt: &R,
    live: &Live<L>,
    seat: &mut Seat<L>,
    name: u32,
) -> Told {
    match waited(rt, live, seat, name) {
        Told::Memory => {
            note(rt, "Live::receive_wait");
            waited(rt, live, seat, name)
        }
        told => told,
    }
}

/// So many calls of one seat; how many of them were out of memory.
pub fn many<L: Ledger, R: Wait>(
    rt: &R,
    live: &Live<L>,
    seat: Seat<L>,
    calls: u32,
) -> (Seat<L>, usize) {
    let mut seat = seat;
    let mut lost = 0usize;
    for _ in 0..calls {
        let told = called(rt, live, &mut seat, Call::PortType { task: 1, name: 1 });
        if told == Told::Memory {
            lost = lost.saturating_add(1);
        }
    }
    (seat, lost)
}

/// How many events a server made that has ended.
fn count_events(ended: (Journal, Guarded)) -> usize {
    let count = ended.0.events().len();
    drop(ended);
    count
}

/// Finishes. The number of events.
pub fn finished<L: Ledger>(live: Live<L>, seats: Vec<Seat<L>>) -> Result<usize, Unfinished<L>> {
    match live.finish(seats) {
        Ok(ended) => Ok(count_events(ended)),
        Err(back) => Err(back),
    }
}

/// The same, and 0 if that is refused.
pub fn events<L: Ledger>(live: Live<L>, seats: Vec<Seat<L>>) -> usize {
    finished(live, seats).unwrap_or(0)
}
