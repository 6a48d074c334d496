//! Seats and their calls, threads at one server, and how a server is finished.

ghost use Rattle.std.specs.Prelude.{◌≡◌, ◌≤◌};
ghost use Rattle.mrc_base.specs.Limits.{limit_of_events, limit_of_parts};

use crate::server::{
    Told, allocate, called, called_at_last, events, finished, many, opened, seat, send, two_seats,
    waited, waited_at_last,
};
use crate::starting::{Stop, note};
use crate::systems::ALONE;
use mrc_base::TaskId;
use mrc_base::limits::PARTS;
use mrc_live::{FinishFault, Live, NotSeated, Seat, Unfinished};
use mrc_machine::Call;
use mrc_model::Code;
use std::marker::Brand;
use std::sync::Wait;
use std::sync::ledger::{Blank, Ledger};
use std::test::Fail;
use std::thread;
use std::thread::Threads;

/// A message to the port that the task has under this name.
fn to(name: u8) -> [u8; 24] {
    [
        0x14, 0, 0, 0, 0x18, 0, 0, 0, name, 0, 0, 0, 0, 0, 0, 0, 0, 0, 0, 0, 0xf4, 1, 0, 0,
    ]
}

/// The answers to two seats of one task: a port is made under the name 2, and is renamed when a
/// message is sent to 2. A message goes to 9, and is received. A task is made. Then the journal is
/// full, and a call and a receive that would wait are refused at once.
fn answers_to<L: Ledger, R: AllocGlobal + Eprint + Wait>(
    rt: &R,
    live: &Live<L>,
    one: &mut Seat<L>,
    other: &mut Seat<L>,
) -> Result<[Told; 8], Stop> {
    let first = send(rt.alloc(), one, &to(2))?;
    let made = called_at_last(rt, live, one, allocate());
    let renaming = Call::Rename {
        task: 1,
        old: 2,
        new: 9,
    };
    let renamed = called_at_last(rt, live, other, renaming);
    let refused = called_at_last(rt, live, one, first);
    let next = send(rt.alloc(), one, &to(9))?;
    let sent = called_at_last(rt, live, one, next);
    let came = waited_at_last(rt, live, one, 9);
    let task = called_at_last(rt, live, one, Call::CreateTask { task: 1 });
    let full = called(rt, live, other, Call::Names { task: 1 });
    let in_vain = waited(rt, live, one, 9);
    Ok([made, renamed, refused, sent, came, task, full, in_vain])
}

/// What they are.
const WANTED: [Told; 8] = [
    Told::Name(2),
    Told::Done,
    Told::Refused(Code::MachSendInvalidDest),
    Told::Done,
    Told::Message(24),
    Told::Name(2),
    Told::JournalFull,
    Told::JournalFull,
];

/// Whether there is no second task.
fn is_alone<L: Ledger, R: Wait>(rt: &R, live: &Live<L>) -> bool {
    let answer = live.seat(rt, TaskId(1));
    let alone = matches!(&answer, Err(NotSeated::NoSuchTask));
    drop(answer);
    alone
}

/// The answers to the two seats in a list, to which comes one of the task that is made, and whether
/// it had none before.
fn answers_of<L: Ledger, R: AllocGlobal + Eprint + Wait>(
    rt: &R,
    live: &Live<L>,
    seats: &mut Vec<Seat<L>>,
) -> Result<([Told; 8], bool), Stop> {
    seats.push(seat(rt, live, 0)?)?;
    seats.push(seat(rt, live, 0)?)?;
    let alone = is_alone(rt, live);
    let [one, other] = seats.as_mut_slice() else {
        return Err(Stop::Changed);
    };
    let answers = answers_to(rt, live, one, other)?;
    seats.push(seat(rt, live, 1)?)?;
    Ok((answers, alone))
}

/// Finishes with one seat more than was passed. The number of events, if a seat was missing, and the
/// others came back with the journal.
fn finish_with<L: Ledger>(back: Unfinished<L>, last: Option<Seat<L>>) -> usize {
    let Unfinished {
        fault,
        server,
        mut seats,
    } = back;
    let missing = fault == FinishFault::SeatsMissing && seats.len() == 2;
    let shown = server.desk().events().len();
    if let Some(last) = last {
        drop(seats.push(last));
    }
    let events = events(server.lock(), seats);
    if missing && shown == events {
        events
    } else {
        0
    }
}

/// Finishes without the last of the seats, and then with all. The number of events.
fn finish_late<L: Ledger>(live: Live<L>, mut seats: Vec<Seat<L>>) -> usize {
    let last = seats.pop();
    match finished(live, seats) {
        Ok(_) => {
            drop(last);
            0
        }
        Err(back) => finish_with(back, last),
    }
}

/// The answers, whether a task had no seat before it was made, and the number of events in the end.
type Outcome = ([Told; 8], bool, usize);

fn answers<L: Ledger, R: AllocGlobal + Eprint + Wait>(
    rt: &R,
    live: Live<L>,
) -> Result<Outcome, Stop> {
    let mut seats = Vec::new(rt.alloc());
    let answers = answers_of(rt, &live, &mut seats);
    let events = finish_late(live, seats);
    let (told, alone) = answers?;
    Ok((told, alone, events))
}

/// The same of a new server, with a journal of six events.
fn answers_of_new<L: Ledger, R: AllocGlobal + Eprint + Threads + Wait + Sync>(
    rt: &R,
    blank: Blank,
) -> Result<Outcome, Stop>
    requires name { blank.name ≡ L.name }
    requires parts { (blank.parts ≡ L.parts) × (L.parts ≡ limit_of_parts) }
{
    answers(rt, opened::<L, _>(rt, &ALONE, 6, blank)?)
}

// Each call that can be out of memory is made once more if it was, or all is, from the start: to be
// run with each allocation refused in turn.
#[test]
fn answers_of_two_seats(rt: HostRuntime) -> Result<(), Fail> {
    let answers = match answers_of_new::<Brand, _>(&rt, Blank::new(PARTS)) {
        Err(Stop::Memory) => answers_of_new::<Brand, _>(&rt, Blank::new(PARTS)),
        answers => answers,
    };
    assert_eq!(rt; answers?, (WANTED, true, 6));
    Ok(())
}

/// Two threads make 10,000 calls each. Their seats, and how many calls were out of memory.
fn meet<L: Ledger + Send + Sync, R: Threads + Wait + Sync>(
    rt: &R,
    live: &Live<L>,
    one: Seat<L>,
    other: Seat<L>,
) -> ((Seat<L>, usize), (Seat<L>, usize)) {
    thread::join(
        rt,
        move || many(rt, live, one, 10_000),
        move || many(rt, live, other, 10_000),
    )
}

/// The same of two new seats, which come into the list.
fn meet_at<L: Ledger + Send + Sync, R: AllocGlobal + Eprint + Threads + Wait + Sync>(
    rt: &R,
    live: &Live<L>,
    seats: &mut Vec<Seat<L>>,
) -> Result<usize, Stop> {
    let (one, other) = two_seats(rt, live)?;
    let ((one, lost), (other, more)) = meet(rt, live, one, other);
    let lost = lost.saturating_add(more);
    if lost > 0 {
        note(rt, "call of a thread");
    }
    seats.push(one)?;
    seats.push(other)?;
    Ok(lost)
}

/// How many events there are then, and how many calls were out of memory.
fn met<L: Ledger + Send + Sync, R: AllocGlobal + Eprint + Threads + Wait + Sync>(
    rt: &R,
    live: Live<L>,
) -> Result<(usize, usize), Stop> {
    let mut seats = Vec::new(rt.alloc());
    let lost = meet_at(rt, &live, &mut seats);
    let events = events(live, seats);
    Ok((events, lost?))
}

/// The same of a new server.
fn met_at_new<L: Ledger + Send + Sync, R: AllocGlobal + Eprint + Threads + Wait + Sync>(
    rt: &R,
    blank: Blank,
) -> Result<(usize, usize), Stop>
    requires name { blank.name ≡ L.name }
    requires parts { (blank.parts ≡ L.parts) × (L.parts ≡ limit_of_parts) }
{
    met(rt, opened::<L, _>(rt, &ALONE, 30_000, blank)?)
}

// The journal has the calls of both. One that is out of memory is not made once more: the journal
// lacks it, and no other.
#[test]
fn two_threads_meet(rt: HostRuntime) -> Result<(), Fail> {
    let ended = match met_at_new::<Brand, _>(&rt, Blank::new(PARTS)) {
        Err(Stop::Memory) => met_at_new::<Brand, _>(&rt, Blank::new(PARTS)),
        ended => ended,
    };
    let (events, lost) = ended?;
    assert!(rt; lost < 2);
    assert_eq!(rt; events.saturating_add(lost), 20_000);
    Ok(())
}

/// What a seat is answered that waits for the message of another thread.
fn waiter<L: Ledger, R: Wait>(rt: &R, live: &Live<L>, seat: Seat<L>) -> (Seat<L>, Told) {
    let mut seat = seat;
    let told = waited(rt, live, &mut seat, 2);
    (seat, told)
}

/// Makes 1,000 calls, and sends then, so that the other thread has had time to wait.
fn sender<L: Ledger, R: Wait>(rt: &R, live: &Live<L>, seat: Seat<L>, sent: Call) -> Seat<L> {
    let (mut seat, _) = many(rt, live, seat, 1000);
    let _told = called(rt, live, &mut seat, sent);
    seat
}

/// One thread waits for the message of another. What it is answered.
fn wake<L: Ledger + Send + Sync, R: Threads + Wait + Sync>(
    rt: &R,
    live: &Live<L>,
    one: Seat<L>,
    other: Seat<L>,
    sent: Call,
) -> ((Seat<L>, Told), Seat<L>) {
    thread::join(
        rt,
        move || waiter(rt, live, one),
        move || sender(rt, live, other, sent),
    )
}

/// The same of two new seats, which come into the list; the second has made a port.
fn wake_at<L: Ledger + Send + Sync, R: AllocGlobal + Threads + Wait + Sync>(
    rt: &R,
    live: &Live<L>,
    seats: &mut Vec<Seat<L>>,
) -> Result<Told, Stop> {
    let (one, mut other) = two_seats(rt, live)?;
    let _told = called(rt, live, &mut other, allocate());
    let sent = send(rt.alloc(), &other, &to(2))?;
    let ((one, told), other) = wake(rt, live, one, other, sent);
    seats.push(one)?;
    seats.push(other)?;
    Ok(told)
}

/// The same, and the number of events.
fn woken<L: Ledger + Send + Sync, R: AllocGlobal + Threads + Wait + Sync>(
    rt: &R,
    live: Live<L>,
) -> Result<(Told, usize), Stop> {
    let mut seats = Vec::new(rt.alloc());
    let told = wake_at(rt, &live, &mut seats);
    let events = events(live, seats);
    Ok((told?, events))
}

/// The same of a new server, with a journal of so many events.
fn woken_at_new<L: Ledger + Send + Sync, R: AllocGlobal + Eprint + Threads + Wait + Sync>(
    rt: &R,
    limit: usize,
    blank: Blank,
) -> Result<(Told, usize), Stop>
    requires limit { (1 ≤ limit) × (limit ≤ limit_of_events) }
    requires name { blank.name ≡ L.name }
    requires parts { (blank.parts ≡ L.parts) × (L.parts ≡ limit_of_parts) }
{
    woken(rt, opened::<L, _>(rt, &ALONE, limit, blank)?)
}

#[test]
fn a_waiting_receive_wakes(rt: HostRuntime) -> Result<(), Fail> {
    let woken = woken_at_new::<Brand, _>(&rt, 2000, Blank::new(PARTS))?;
    assert_eq!(rt; woken, (Told::Message(24), 1003));
    Ok(())
}

// The message that the thread waits for is the last event of the journal.
#[test]
fn a_waiting_receive_wakes_to_a_full_journal(rt: HostRuntime) -> Result<(), Fail> {
    let woken = woken_at_new::<Brand, _>(&rt, 1002, Blank::new(PARTS))?;
    assert_eq!(rt; woken, (Told::JournalFull, 1002));
    Ok(())
}
