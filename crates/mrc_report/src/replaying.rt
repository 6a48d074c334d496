//! Scripts, run from the first state of a wiring.

ghost use Rattle.std.specs.Prelude.{◌≡◌, ◌≤◌, IfErr, IfOk, OnOk, length, string_bytes, take};
ghost use Rattle.std.specs.Io.KnownBytes.{Appends};
ghost use Rattle.mrc_model.specs.First.{first};
ghost use Rattle.mrc_model.specs.Step.{step};
ghost use Rattle.mrc_wiring.specs.Table.{wiring_of};
ghost use Rattle.mrc_machine.specs.Calls.{call_of};
ghost use Rattle.mrc_report.specs.Output.{HasFailed, written};
ghost use Rattle.mrc_report.specs.Printing.{event_line};
ghost use Rattle.mrc_report.specs.Replay.{ReplaysAreTold, replay_text};

use crate::outgoing::{Unprinted, nothing, pass_on, print};
use crate::printing::{end_line, event_line};
use crate::script::Script;
use mrc_base::TaskId;
use mrc_files::Sink;
use mrc_machine::{Call, World};
use mrc_wiring::Wired;
use std::alloc::{AllocError, Global};

/// Makes a call. Returns what is printed of its event, which has this number.
fn event_of(
    alloc: Global,
    wired: &Wired,
    world: &mut World,
    number: usize,
    task: TaskId,
    call: &Call,
) -> Result<String, AllocError>
    ensures text { IfOk result (λ text. string_bytes text ≡ event_line wired.now number task
        (step (wiring_of wired.now) world.old task (call_of call.now)).1) }
    ensures world { IfOk result (λ _. world.new
        ≡ (step (wiring_of wired.now) world.old task (call_of call.now)).0) }
{
    let reply = world.step(wired, task, call)?;
    event_line(alloc, wired, number, task, &reply)
}

/// The same, by the machine in its first state, which is left in some other.
fn replay_in<S: Sink>(
    alloc: Global,
    wired: &Wired,
    world: &mut World,
    script: &Script,
    sink: &mut S,
) -> Result<(), Unprinted>
    requires { world.old ≡ first (wiring_of wired.now) }
    ensures whole { OnOk result (Appends (S.contents sink.old) (S.contents sink.new)
        (replay_text wired.now script.now)) }
    ensures cut { IfErr result (λ fault. Appends (S.contents sink.old) (S.contents sink.new)
        (take (written fault) (replay_text wired.now script.now))) }
    ensures within { IfErr result
        (λ fault. written fault ≤ length (replay_text wired.now script.now)) }
    ensures passed { OnOk result (S.failures sink.new ≡ S.failures sink.old) }
    ensures failed { IfErr result (HasFailed (S.failures sink.old) (S.failures sink.new)) }
{
    let mut out = nothing(alloc);
    let lines = script.lines();
    for (number, line) in lines.iter().enumerate() {
        let says = &line.says;
        let Ok(text) = event_of(alloc, wired, world, number, says.task, &says.call) else {
            return Err(Unprinted::Memory(out.written));
        };
        print(sink, &mut out, text.as_str())?;
    }
    let Ok(end) = end_line(alloc, lines.len(), world.live_ports()) else {
        return Err(Unprinted::Memory(out.written));
    };
    print(sink, &mut out, end.as_str())?;
    pass_on(sink, &mut out)
}

/// Makes the calls of a script, one after the other, from the first state of its wiring on, and
/// prints a line for each event as it comes, and a last line. Some of it is kept back, so that
/// short lines go out together; it takes no more memory than the machine, some lines and this.
pub fn replay<S: Sink>(
    alloc: Global,
    wired: &Wired,
    script: &Script,
    sink: &mut S,
) -> Result<(), Unprinted>
    // All of the replay was appended.
    ensures whole { OnOk result (Appends (S.contents sink.old) (S.contents sink.new)
        (replay_text wired.now script.now)) }
    // Else its first bytes were, as many as the fault counts.
    ensures cut { IfErr result (λ fault. Appends (S.contents sink.old) (S.contents sink.new)
        (take (written fault) (replay_text wired.now script.now))) }
    ensures within { IfErr result
        (λ fault. written fault ≤ length (replay_text wired.now script.now)) }
    // It is done only if no write and no flush failed.
    ensures passed { OnOk result (S.failures sink.new ≡ S.failures sink.old) }
    // A failed write is reported if and only if one failed.
    ensures failed { IfErr result (HasFailed (S.failures sink.old) (S.failures sink.new)) }
{
    let Ok(mut world) = World::first(alloc, wired) else {
        return Err(Unprinted::Memory(0));
    };
    let replayed = replay_in(alloc, wired, &mut world, script, sink);
    drop(world);
    replayed
}

/// What is printed of a script is the run of its calls from the first state of the wiring.
pub fn replays_are_told()
    ensures { ReplaysAreTold }
{}
