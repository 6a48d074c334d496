//! Events that are printed in another form than lines.

ghost use Rattle.std.specs.Prelude.{◌≡◌, ◌+◌, ◌<◌, ◌≤◌, ◌^◌, IfErr, OnOk, string_bytes, string_len};
ghost use Rattle.mrc_report.specs.Output.{HasFailed, HasGrown, HasGrownIn, IsMoreOut, IsSomeOut};
ghost use Rattle.mrc_report.specs.Output.{written};

use crate::outgoing::{Outgoing, Unprinted, nothing, pass_on, print};
use crate::script::{Script, TaskCall};
use mrc_base::TaskId;
use mrc_files::Sink;
use mrc_live::Event;
use mrc_machine::{Call, Reply, World};
use mrc_wiring::Wired;
use std::alloc::{AllocError, Global};

/// An event: a call of a task, and what the task was told.
#[derive(Clone, Copy, Debug)]
pub struct Occurrence<'a> {
    /// Its number, from 0.
    pub number: usize,
    /// The task, which called.
    pub task: TaskId,
    /// The call.
    pub call: &'a Call,
    /// What the task was told.
    pub reply: &'a Reply,
}

/// How events are printed one after the other.
pub trait EventPrinter {
    /// What is printed before the first event.
    fn head(&self, alloc: Global) -> Result<String, AllocError>;

    /// What is printed of an event.
    fn event(
        &self,
        alloc: Global,
        wired: &Wired,
        event: &Occurrence<'_>,
    ) -> Result<String, AllocError>;

    /// What is printed behind the last event: so many ports are live then.
    fn end(&self, alloc: Global, ports: usize) -> Result<String, AllocError>;
}

/// Prints what was made, if there was memory for it.
fn print_made<S: Sink>(
    sink: &mut S,
    out: &mut Outgoing,
    made: Result<String, AllocError>,
) -> Result<(), Unprinted>
    requires room { out.old.written + (string_len out.old.kept + 2 ^ 64) < 2 ^ 128 }
    ensures ok { OnOk result (IsMoreOut (S.contents sink.old) (S.contents sink.new) out.old.written
        out.new.written (string_bytes out.new.kept)) }
    ensures err { IfErr result (λ fault. IsSomeOut (S.contents sink.old) (S.contents sink.new)
        out.old.written (written fault)) }
    ensures count { OnOk result (out.new.written + string_len out.new.kept
        ≤ out.old.written + (string_len out.old.kept + 2 ^ 64)) }
    ensures passed { OnOk result (S.failures sink.new ≡ S.failures sink.old) }
    ensures failed { IfErr result (HasFailed (S.failures sink.old) (S.failures sink.new)) }
{
    match made {
        Ok(text) => print(sink, out, text.as_str()),
        Err(AllocError) => Err(Unprinted::Memory(out.written)),
    }
}

/// Makes a call. Returns what is printed of its event.
fn event_of<P: EventPrinter>(
    alloc: Global,
    wired: &Wired,
    printer: &P,
    world: &mut World,
    number: usize,
    says: &TaskCall,
) -> Result<String, AllocError> {
    let reply = world.step(wired, says.task, &says.call)?;
    let event = Occurrence {
        number,
        task: says.task,
        call: &says.call,
        reply: &reply,
    };
    let text = printer.event(alloc, wired, &event);
    drop(reply);
    text
}

/// Makes the calls of a script in this world, and prints them.
fn replay_in<S: Sink, P: EventPrinter>(
    alloc: Global,
    wired: &Wired,
    world: &mut World,
    script: &Script,
    printer: &P,
    sink: &mut S,
) -> Result<(), Unprinted>
    ensures whole { OnOk result (HasGrown (S.contents sink.old) (S.contents sink.new)) }
    ensures cut { IfErr result (λ fault.
        HasGrownIn (S.contents sink.old) (S.contents sink.new) (written fault)) }
    ensures passed { OnOk result (S.failures sink.new ≡ S.failures sink.old) }
    ensures failed { IfErr result (HasFailed (S.failures sink.old) (S.failures sink.new)) }
{
    let mut out = nothing(alloc);
    print_made(sink, &mut out, printer.head(alloc))?;
    let lines = script.lines();
    for (number, line) in lines.iter().enumerate() {
        let made = event_of(alloc, wired, printer, world, number, &line.says);
        print_made(sink, &mut out, made)?;
    }
    print_made(sink, &mut out, printer.end(alloc, world.live_ports()))?;
    pass_on(sink, &mut out)
}

/// Makes the calls of a script, one after the other, from the first state of its wiring on. Each
/// event is printed as it comes, by this printer.
pub fn replay_by<S: Sink, P: EventPrinter>(
    alloc: Global,
    wired: &Wired,
    script: &Script,
    printer: &P,
    sink: &mut S,
) -> Result<(), Unprinted>
    // Some text was appended.
    ensures whole { OnOk result (HasGrown (S.contents sink.old) (S.contents sink.new)) }
    // Else the first bytes of one were, as many as the fault counts.
    ensures cut { IfErr result (λ fault.
        HasGrownIn (S.contents sink.old) (S.contents sink.new) (written fault)) }
    // It is done only if no write and no flush failed.
    ensures passed { OnOk result (S.failures sink.new ≡ S.failures sink.old) }
    // A failed write is reported if and only if one failed.
    ensures failed { IfErr result (HasFailed (S.failures sink.old) (S.failures sink.new)) }
{
    let Ok(mut world) = World::first(alloc, wired) else {
        return Err(Unprinted::Memory(0));
    };
    let replayed = replay_in(alloc, wired, &mut world, script, printer, sink);
    drop(world);
    replayed
}

/// What is printed of an event of a journal.
fn journal_event<P: EventPrinter>(
    alloc: Global,
    wired: &Wired,
    printer: &P,
    number: usize,
    event: &Event,
) -> Result<String, AllocError> {
    let event = Occurrence {
        number,
        task: event.task,
        call: &event.call,
        reply: &event.reply,
    };
    printer.event(alloc, wired, &event)
}

/// Prints these events, after which so many ports are live, by this printer.
pub(crate) fn print_events<S: Sink, P: EventPrinter>(
    alloc: Global,
    wired: &Wired,
    events: &[Event],
    ports: usize,
    printer: &P,
    sink: &mut S,
) -> Result<(), Unprinted>
    ensures whole { OnOk result (HasGrown (S.contents sink.old) (S.contents sink.new)) }
    ensures cut { IfErr result (λ fault.
        HasGrownIn (S.contents sink.old) (S.contents sink.new) (written fault)) }
    ensures passed { OnOk result (S.failures sink.new ≡ S.failures sink.old) }
    ensures failed { IfErr result (HasFailed (S.failures sink.old) (S.failures sink.new)) }
{
    let mut out = nothing(alloc);
    print_made(sink, &mut out, printer.head(alloc))?;
    for (number, event) in events.iter().enumerate() {
        let made = journal_event(alloc, wired, printer, number, event);
        print_made(sink, &mut out, made)?;
    }
    print_made(sink, &mut out, printer.end(alloc, ports))?;
    pass_on(sink, &mut out)
}
