//! That the tasks of a script run at once, and how a run ends for which the journal or the seats do
//! not suffice.

ghost use Rattle.std.specs.Prelude.{◌≡◌, ◌≤◌};
ghost use Rattle.mrc_base.specs.Limits.{limit_of_events, limit_of_parts};

use crate::gates::Meeting;
use crate::server::{finished, opened, seat};
use crate::starting::{Stop, confined_of, note, script_of};
use crate::systems::FILES;
use mrc_base::TaskId;
use mrc_base::limits::PARTS;
use mrc_check::Confined;
use mrc_live::{Live, NotSeated, Seat};
use mrc_report::{LiveFault, Script, Served, Stopped, run_live, serve};
use std::alloc::AllocError;
use std::marker::Brand;
use std::sync::Wait;
use std::sync::ledger::{Blank, Ledger};
use std::test::Fail;
use std::thread::Threads;

/// A file is opened: eight calls of two tasks.
const OPENS: &str = "fs wait 2 92
fs allocate 1 receive
fs insert_right 1 4 4 20
fs send 12000080 28000000 03000000 0000000000000000 1c0c0000 0220011000000000 1320011004000000
app allocate 1 receive
app send 13150000 5c000000 02000000 03000000 00000000 b80b0000 0c084010 \
00000000000000000000000000000000 00000000000000000000000000000000 \
00000000000000000000000000000000 00000000000000000000000000000000
app wait 3 40
app type 1 4
";

/// How a script ends, with a journal of so many events.
fn served<L: Ledger + Send + Sync, R: AllocGlobal + Threads + Wait + Sync>(
    rt: &R,
    confined: Confined,
    script: Script,
    limit: usize,
    blank: Blank,
    gate: &Meeting,
) -> Result<String, AllocError>
    requires limit { (1 ≤ limit) × (limit ≤ limit_of_events) }
    requires name { blank.name ≡ L.name }
    requires parts { (blank.parts ≡ L.parts) × (L.parts ≡ limit_of_parts) }
{
    let answer = serve::<L, _, _>(rt, rt.alloc(), confined, script, limit, blank, gate);
    let end = match &answer {
        Ok(Served::Whole(_)) => String::from_str(rt.alloc(), "whole"),
        Ok(Served::AllWait(_, _)) => String::from_str(rt.alloc(), "all wait"),
        Err(refused) => refused.fault.to_string(rt.alloc()),
    };
    drop(answer);
    end
}

/// How the script ends that opens a file, and how many tasks have met.
fn end_of_files<L: Ledger + Send + Sync, R: AllocGlobal + Eprint + Threads + Wait + Sync>(
    rt: &R,
    limit: usize,
    blank: Blank,
) -> Result<(String, usize), Stop>
    requires limit { (1 ≤ limit) × (limit ≤ limit_of_events) }
    requires name { blank.name ≡ L.name }
    requires parts { (blank.parts ≡ L.parts) × (L.parts ≡ limit_of_parts) }
{
    let gate = Meeting::of(2);
    let confined = confined_of(rt, &FILES)?;
    let end = match script_of(rt.alloc(), &confined, OPENS, true) {
        Ok(script) => served::<L, R>(rt, confined, script, limit, blank, &gate)?,
        Err(stop) => {
            drop(confined);
            return Err(stop);
        }
    };
    Ok((end, gate.met()))
}

// The journal has room for all events, and no more.
#[test]
fn tasks_run_at_once(rt: HostRuntime) -> Result<(), Fail> {
    let (end, met) = end_of_files::<Brand, _>(&rt, 8, Blank::new(PARTS))?;
    assert_eq!(rt; end.as_str(), "whole");
    assert_eq!(rt; met, 2);
    Ok(())
}

// The server waits for a message, and is stopped when the client makes one event too many; or it is
// woken by the last event that the journal has room for.
#[test]
fn a_journal_is_full(rt: HostRuntime) -> Result<(), Fail> {
    let (one, _) = end_of_files::<Brand, _>(&rt, 1, Blank::new(PARTS))?;
    let (two, _) = end_of_files::<Brand, _>(&rt, 2, Blank::new(PARTS))?;
    assert_eq!(rt;
        (one.as_str(), two.as_str()),
        ("JournalFull", "JournalFull")
    );
    Ok(())
}

/// Makes so many seats, and drops them.
fn take_seats<L: Ledger, R: Wait>(rt: &R, live: &Live<L>, count: u32) {
    for _ in 0..count {
        drop(live.seat(rt, TaskId(0)));
    }
}

/// Whether a new server has no seat more behind so many.
fn has_run_out<L: Ledger, R: AllocGlobal + Eprint + Threads + Wait + Sync>(
    rt: &R,
    count: u32,
    blank: Blank,
) -> Result<bool, Stop>
    requires name { blank.name ≡ L.name }
    requires parts { (blank.parts ≡ L.parts) × (L.parts ≡ limit_of_parts) }
{
    let live = opened::<L, _>(rt, &FILES, 8, blank)?;
    take_seats(rt, &live, count);
    let answer = live.seat(rt, TaskId(0));
    let full = matches!(&answer, Err(NotSeated::TooManySeats));
    drop((answer, live));
    Ok(full)
}

#[test]
fn seats_run_out(rt: HostRuntime) -> Result<(), Fail> {
    let last = has_run_out::<Brand, _>(&rt, 255, Blank::new(PARTS))?;
    let full = has_run_out::<Brand, _>(&rt, 256, Blank::new(PARTS))?;
    assert_eq!(rt; (last, full), (false, true));
    Ok(())
}

/// The seats after a run, and its fault if it was refused.
type Ran<L> = (Vec<Seat<L>>, Option<LiveFault>);

/// A run of the script that opens a file, by these seats.
fn ran_by<L: Ledger + Send + Sync, R: AllocGlobal + Threads + Wait + Sync>(
    rt: &R,
    live: &Live<L>,
    seats: Vec<Seat<L>>,
) -> Result<Ran<L>, Stop> {
    let script = match script_of(rt.alloc(), live.confined(), OPENS, true) {
        Ok(script) => script,
        Err(stop) => {
            drop(seats);
            return Err(stop);
        }
    };
    match run_live(rt, rt.alloc(), live, seats, script, &Meeting::of(0)) {
        Ok(seats) => Ok((seats, None)),
        Err(Stopped { fault, seats }) => Ok((seats, Some(fault))),
    }
}

/// The same by a seat of each task.
fn ran<L: Ledger + Send + Sync, R: AllocGlobal + Threads + Wait + Sync>(
    rt: &R,
    live: &Live<L>,
) -> Result<Ran<L>, Stop> {
    let mut seats = Vec::new(rt.alloc());
    seats.push(seat(rt, live, 0)?)?;
    seats.push(seat(rt, live, 1)?)?;
    ran_by(rt, live, seats)
}

/// The fault of a run at a new server, and whether both seats came back that finish it.
fn ran_at_new<L: Ledger + Send + Sync, R: AllocGlobal + Eprint + Threads + Wait + Sync>(
    rt: &R,
    blank: Blank,
) -> Result<(Option<LiveFault>, bool), Stop>
    requires name { blank.name ≡ L.name }
    requires parts { (blank.parts ≡ L.parts) × (L.parts ≡ limit_of_parts) }
{
    let live = opened::<L, _>(rt, &FILES, 8, blank)?;
    match ran(rt, &live) {
        Ok((seats, fault)) => {
            let ended = finished(live, seats);
            let back = ended.is_ok();
            drop(ended);
            Ok((fault, back))
        }
        Err(stop) => {
            drop(live);
            Err(stop)
        }
    }
}

// If memory runs out in the run, also in one of its threads, both seats come back: to be run with
// each allocation refused in turn.
#[test]
fn seats_come_back(rt: HostRuntime) -> Result<(), Fail> {
    let ran = match ran_at_new::<Brand, _>(&rt, Blank::new(PARTS)) {
        Err(Stop::Memory) => ran_at_new::<Brand, _>(&rt, Blank::new(PARTS)),
        ran => ran,
    };
    let (fault, back) = ran?;
    if fault == Some(LiveFault::Memory) {
        note(&rt, "run_live");
    }
    assert!(rt; matches!(fault, None | Some(LiveFault::Memory)));
    assert!(rt; back);
    Ok(())
}
