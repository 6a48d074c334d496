//! Scripts.

ghost use Rattle.std.specs.Prelude.{◌≡◌, ◌+◌, ◌≤◌, List, IfOk, OnOk, Ok};
ghost use Rattle.mrc_base.specs.Limits.{limit_of_lines};
ghost use Rattle.mrc_base.specs.Reading.{Gives};
ghost use Rattle.mrc_wiring_text.specs.declared.reading.Line.{Line};
ghost use Rattle.mrc_wiring_text.specs.Lexis.{lines};
ghost use Rattle.mrc_wiring_text.specs.Reading.{line_of, body};
ghost use Rattle.mrc_report.specs.declared.script.TaskCall.{TaskCall};
ghost use Rattle.mrc_report.specs.Calls.{line_says};
ghost use Rattle.mrc_report.specs.Scripts.{IsScript, script_of};

use crate::calls::line_says;
use mrc_base::limits::LINES;
use mrc_base::{OrMemory, TaskId};
use mrc_machine::Call;
use mrc_wiring::Wired;
use mrc_wiring_text::{Line, TextFault, between_blanks, first_line, spaced};
use std::alloc::Global;
use std::marker::Model;

/// What a line of a script says: a task makes a call.
#[derive(Debug, Drop)]
pub struct TaskCall {
    /// The task: a wired one, or in a replay also one that a call makes.
    pub task: TaskId,
    /// The call.
    pub call: Call,
    /// Whether the call, which receives, waits for a message. In a replay none does.
    pub waits: bool,
}

/// A script: its lines that say something, in order.
#[derive(Debug, Drop)]
pub struct Script {
    lines: Vec<Line<TaskCall>>,
}

impl Model for Script {
    ghost use Rattle.std.specs.Prelude.{List};
    ghost use Rattle.mrc_wiring_text.specs.declared.reading.Line.{Line};
    ghost use Rattle.mrc_report.specs.declared.script.TaskCall.{TaskCall};

    ghost Value = { List (Line TaskCall) };

    ghost view = { λ a. a.lines.items };
}

impl Script {
    /// The lines in order.
    pub fn lines(&self) -> &[Line<TaskCall>]
        ensures { result.now ≡ self.now }
    {
        self.lines.as_slice()
    }
}

/// What a line says, if it has words.
#[tactic(auto, unfolding(mrc_wiring_text::specs::Reading::line_of, mrc_wiring_text::specs::Lexis::words))]
fn line_of(
    alloc: Global,
    wired: &Wired,
    live: bool,
    number: u32,
    line: &[u8],
) -> Result<Option<TaskCall>, OrMemory<TextFault>>
    ensures fault { Gives (λ says. says) result
        (line_of (line_says live wired.now.names) number line.now) }
    ensures within { OnOk result (number ≤ limit_of_lines) }
{
    if number > LINES {
        return Err(OrMemory::Fault(TextFault::BadLine(LINES + 1)));
    }
    let text = spaced(alloc, line)?;
    let said = between_blanks(alloc, &text)?;
    if said.is_empty() {
        return Ok(None);
    }
    match line_says(alloc, wired, live, &said)? {
        Some(says) => Ok(Some(says)),
        None => Err(OrMemory::Fault(TextFault::BadLine(number))),
    }
}

/// What the lines of a text say.
fn lines_of(
    alloc: Global,
    wired: &Wired,
    live: bool,
    text: &[u8],
) -> Result<Vec<Line<TaskCall>>, OrMemory<TextFault>>
    ensures { Gives (λ said. said.items) result (script_of live wired.now.names text.now) }
{
    let mut said = Vec::new(alloc);
    let mut rest = text;
    let mut number = 1;
    while !rest.is_empty() {
        let (line, after) = first_line(rest);
        if let Some(says) = line_of(alloc, wired, live, number, line)? {
            said.push(Line { number, says })?;
        }
        number += 1;
        rest = after;
    }
    Ok(said)
}

fn script_of(
    alloc: Global,
    wired: &Wired,
    text: &str,
    live: bool,
) -> Result<Script, OrMemory<TextFault>>
    ensures { Gives (λ script. script) result (script_of live wired.now.names text.now) }
{
    let lines = lines_of(alloc, wired, live, text.as_bytes())?;
    Ok(Script { lines })
}

/// Reads a script of a wiring's tasks, or reports its first line that is not one of the grammar, as
/// `BadLine`. A line is the name of a wired task, a call by Mach's name without `mach_port_`, and
/// the call's parameters in order. In a replay a task that is not wired is `@N`, N its number. If
/// tasks run as threads (`live`) all are wired, and a line may also be `wait` with the parameters
/// of a receive.
pub fn read_script(
    alloc: Global,
    wired: &Wired,
    text: &str,
    live: bool,
) -> Result<Script, OrMemory<TextFault>>
    // What is read is said by a script of the wiring's tasks.
    ensures found { IfOk result (λ script. IsScript live wired.now.names text.now script) }
    // What such a script says is read, unless memory runs out.
    ensures only { (says : List (Line TaskCall)) → IsScript live wired.now.names text.now says →
        Gives (λ script. script) result (Ok says) }
    // Which fault it is: the first.
    ensures fault { Gives (λ script. script) result (script_of live wired.now.names text.now) }
{
    script_of(alloc, wired, text, live)
}
