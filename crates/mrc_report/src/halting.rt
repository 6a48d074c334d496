//! Runs that end because all tasks that have lines left wait for messages.

ghost use Rattle.std.specs.Prelude.{◌≡◌, ◌<◌, ◌==◌, ℕ, ◌++◌, IfNone, IfOk, IfSome, IsTrue};
ghost use Rattle.std.specs.Prelude.{IsPermutation, None, Some, length, map, slice_get};
ghost use Rattle.std.specs.List.Sorted.{IsNonDecreasing};
ghost use Rattle.mrc_confine.specs.Guards.{wiring_in};
ghost use Rattle.mrc_live.specs.Runs.{event_of};
ghost use Rattle.mrc_report.specs.Halts.{WaitsInVain, lines_of, next_line, next_numbers, number_in};
ghost use Rattle.mrc_report.specs.Journal.{calls_by};

use crate::playing::is_of;
use crate::script::{Script, TaskCall};
use mrc_base::TaskId;
use mrc_confine::Guarded;
use mrc_live::Event;
use mrc_machine::Reply;
use mrc_model::Code;
use mrc_wiring_text::Line;
use std::alloc::{AllocError, Global};

/// Whether the event is a call of this task.
fn is_by(event: &Event, task: TaskId) -> bool
    ensures { result ≡ (event.now.task == task) }
{
    event.task.0 == task.0
}

/// How many of the events are calls of the task.
fn calls_made(events: &[Event], task: TaskId) -> usize
    ensures { result ≡ length (calls_by task (map event_of events.now)) }
{
    let mut made = 0;
    for event in events {
        if is_by(event, task) {
            made += 1;
        }
    }
    made
}

/// The line that the task says after so many of its lines.
fn line_after(lines: &[Line<TaskCall>], task: TaskId, said: usize) -> Option<&Line<TaskCall>>
    ensures some { IfSome result
        (λ line. slice_get (lines_of task lines.now) said ≡ Some line.now) }
    ensures none { IfNone result (slice_get (lines_of task lines.now) said ≡ None) }
{
    let mut left = said;
    for line in lines {
        if is_of(&line.says, task) {
            if left == 0 {
                return Some(line);
            }
            left -= 1;
        }
    }
    None
}

/// Whether a line waits for a message, and there is none: then the machine is unchanged.
fn waits_in_vain(guarded: &mut Guarded, says: &TaskCall) -> Result<bool, AllocError>
    ensures vain { IfOk result (λ is. IsTrue is
        → WaitsInVain (wiring_in guarded.old.confined) guarded.old.world says.now) }
    ensures kept { IfOk result (λ is. IsTrue is → guarded.new ≡ guarded.old) }
    ensures confined { guarded.new.confined ≡ guarded.old.confined }
{
    if !says.waits {
        return Ok(false);
    }
    let reply = guarded.step(says.task, &says.call)?;
    Ok(matches!(reply, Reply::Refused(Code::MachRcvTimedOut)))
}

/// Adds the number of the line that a task says next, if it has one left. Whether that waits in
/// vain.
fn add_next(
    guarded: &mut Guarded,
    script: &[Line<TaskCall>],
    events: &[Event],
    task: TaskId,
    numbers: &mut Vec<u32>,
) -> Result<bool, AllocError>
    ensures vain { IfOk result (λ is. IsTrue is
        → IfSome (next_line script.now (map event_of events.now) task)
        (λ line. WaitsInVain (wiring_in guarded.old.confined) guarded.old.world line.says)) }
    ensures added { IfOk result (λ is. IsTrue is → numbers.new.items ≡ numbers.old.items
        ++ number_in (next_line script.now (map event_of events.now) task)) }
    ensures kept { IfOk result (λ is. IsTrue is → guarded.new ≡ guarded.old) }
    ensures confined { guarded.new.confined ≡ guarded.old.confined }
{
    let Some(line) = line_after(script, task, calls_made(events, task)) else {
        return Ok(true);
    };
    if !waits_in_vain(guarded, &line.says)? {
        return Ok(false);
    }
    numbers.push(line.number)?;
    Ok(true)
}

/// The numbers of the lines that the tasks say next, by task, each of which waits in vain; `None`
/// where one of them could go on. The machine is in the world after the events.
fn next_lines(
    alloc: Global,
    guarded: &mut Guarded,
    script: &Script,
    events: &[Event],
) -> Result<Option<Vec<u32>>, AllocError>
    ensures halted { IfOk result (λ some. IfSome some (λ _. (task : ℕ)
        → task < (wiring_in guarded.old.confined).tasks
        → IfSome (next_line script.now (map event_of events.now) task)
        (λ line. WaitsInVain (wiring_in guarded.old.confined) guarded.old.world line.says))) }
    ensures lines { IfOk result (λ some. IfSome some (λ lines. lines.items ≡
        next_numbers script.now (map event_of events.now)
        (wiring_in guarded.old.confined).tasks)) }
    ensures kept { IfOk result (λ some. IfSome some (λ _. guarded.new ≡ guarded.old)) }
    ensures confined { guarded.new.confined ≡ guarded.old.confined }
{
    let tasks = guarded.confined().wired().tasks();
    let mut numbers = Vec::new(alloc);
    for task in 0..u32::from(tasks) {
        if !add_next(guarded, script.lines(), events, TaskId(task), &mut numbers)? {
            return Ok(None);
        }
    }
    Ok(Some(numbers))
}

/// The same, ascending.
pub(crate) fn waiting_lines(
    alloc: Global,
    guarded: &mut Guarded,
    script: &Script,
    events: &[Event],
) -> Result<Option<Vec<u32>>, AllocError>
    ensures halted { IfOk result (λ some. IfSome some (λ _. (task : ℕ)
        → task < (wiring_in guarded.old.confined).tasks
        → IfSome (next_line script.now (map event_of events.now) task)
        (λ line. WaitsInVain (wiring_in guarded.old.confined) guarded.old.world line.says))) }
    ensures lines { IfOk result (λ some. IfSome some (λ lines. IsPermutation
        (next_numbers script.now (map event_of events.now)
        (wiring_in guarded.old.confined).tasks) lines.items)) }
    ensures ascending { IfOk result
        (λ some. IfSome some (λ lines. IsNonDecreasing lines.items)) }
    ensures kept { IfOk result (λ some. IfSome some (λ _. guarded.new ≡ guarded.old)) }
    ensures confined { guarded.new.confined ≡ guarded.old.confined }
{
    let Some(mut lines) = next_lines(alloc, guarded, script, events)? else {
        return Ok(None);
    };
    lines.as_mut_slice().sort_unstable();
    Ok(Some(lines))
}
