//! What `live` answers of a certificate and of a script whose tasks run as threads.

ghost use Rattle.std.specs.Prelude.{◌≤◌, IfOk};
ghost use Rattle.mrc_base.specs.Limits.{limit_of_events};
ghost use Rattle.mrc_report.specs.Served.{IsServed};
ghost use Rattle.mrc_answer.specs.Played.{IsRun};
ghost use Rattle.mrc_answer.specs.Texts.{AreAccepted};

use crate::answers::{Answer, Waiting};
use crate::check::answer_of;
use crate::faults::Fault;
use crate::files::Files;
use crate::script::script_said;
use mrc_base::limits::PARTS;
use mrc_base::{Open, OrMemory};
use mrc_check::{Confined, TextsFault};
use mrc_report::{NotServed, Script, ServeFault, Served, serve};
use std::alloc::{AllocError, Global};
use std::marker::Brand;
use std::sync::Wait;
use std::sync::ledger::Blank;
use std::thread::Threads;

/// What comes of a script whose tasks run as threads, with a journal of so many events at most.
fn served<R: Threads + Wait + Sync>(
    rt: &R,
    alloc: Global,
    confined: Confined,
    script: Script,
    limit: usize,
) -> Result<Served, OrMemory<ServeFault>>
    requires limit { (1 ≤ limit) × (limit ≤ limit_of_events) }
    ensures { IfOk result (IsServed confined.claim.table script) }
{
    match serve::<Brand, _, _>(rt, alloc, confined, script, limit, Blank::new(PARTS), &Open) {
        Ok(served) => Ok(served),
        Err(
            NotServed {
                fault,
                confined,
                script,
            },
        ) => {
            drop(confined);
            drop(script);
            Err(fault)
        }
    }
}

/// What comes of a script of what was checked.
fn confined_served<'a, R: Threads + Wait + Sync>(
    rt: &R,
    alloc: Global,
    files: &Files<'_>,
    confined: Confined,
    limit: usize,
) -> Result<Answer<'a>, AllocError>
    requires accepted { AreAccepted files.now.texts confined }
    requires limit { (1 ≤ limit) × (limit ≤ limit_of_events) }
    ensures right { IfOk result (IsRun files.now) }
{
    match script_said(alloc, confined.wired(), true, &files.texts) {
        Ok(script) => match served(rt, alloc, confined, script, limit) {
            Ok(Served::Whole(ran)) => Ok(Answer::Journal(ran)),
            Ok(Served::AllWait(ran, lines)) => Ok(Answer::Waits(Waiting { ran, lines })),
            Err(OrMemory::Fault(fault)) => Ok(Answer::Fault(Fault::Unserved(fault))),
            Err(OrMemory::Memory) => Err(AllocError),
        },
        Err(OrMemory::Fault(fault)) => {
            drop(confined);
            Ok(Answer::Fault(Fault::Meaning(fault)))
        }
        Err(OrMemory::Memory) => {
            drop(confined);
            Err(AllocError)
        }
    }
}

/// What comes of a script whose tasks run as threads, with a journal of so many events at most. A
/// script has fewer lines than [`mrc_base::limits::EVENTS`], so with that limit its journal is
/// never full.
pub fn live_served<'a, R: Threads + Wait + Sync>(
    rt: &R,
    alloc: Global,
    files: &Files<'_>,
    limit: usize,
) -> Result<Answer<'a>, AllocError>
    requires limit { (1 ≤ limit) × (limit ≤ limit_of_events) }
    ensures right { IfOk result (IsRun files.now) }
{
    match answer_of(rt, alloc, &files.texts) {
        Ok(confined) => confined_served(rt, alloc, files, confined, limit),
        Err(OrMemory::Fault(TextsFault::Check(refused))) => Ok(Answer::Refused(refused)),
        Err(OrMemory::Fault(TextsFault::Meaning(fault))) => {
            Ok(Answer::Fault(Fault::Meaning(fault)))
        }
        Err(OrMemory::Memory) => Err(AllocError),
    }
}
