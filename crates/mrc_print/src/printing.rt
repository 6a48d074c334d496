//! What is printed of an answer: on standard error, on standard output, and as it is made.

ghost use Rattle.std.specs.Prelude.{◌≡◌, ◌≤◌, [], IfErr, IfOk, OnOk, length, string_bytes, take};
ghost use Rattle.std.specs.Io.KnownBytes.{Appends};
ghost use Rattle.mrc_report.specs.Output.{HasFailed, HasGrown, written};
ghost use Rattle.mrc_print.specs.Heads as heads;
ghost use Rattle.mrc_print.specs.Heads.{HasHead, InText, IsShown, pending_text};
ghost use Rattle.mrc_print.specs.Silence.{AreNone};

use crate::answer_json::answer_json;
use crate::answer_sarif::answer_sarif;
use crate::answer_text::answer_text;
use crate::asked::{Asked, format_of};
use crate::faults::fault_line;
use crate::mig_texts::mig_texts_text;
use crate::notices::{joined, line_of, notices_text};
use crate::reading::{policy_text, script_name, wiring_text};
use crate::reasons::stale_note;
use mrc_answer::{Answer, Answered, Fault, Waiting, WasRead};
use mrc_attack::cut_text;
use mrc_command::Format;
use mrc_files::Sink;
use mrc_objects::{EventObjects, Making};
use mrc_place::Hint;
use mrc_report::{Unprinted, replay, replay_by, waits_text};
use std::alloc::{AllocError, Global};

/// That not all changes were tried, if that is so.
fn mends_note(alloc: Global, answer: &mrc_mend::Answer) -> Result<String, AllocError> {
    match answer {
        mrc_mend::Answer::Found(mends) if mends.cut_off => {
            String::from_str(alloc, "machcheck: mend: not all changes were tried\n")
        }
        mrc_mend::Answer::Nothing | mrc_mend::Answer::Found(_) => Ok(String::new(alloc)),
    }
}

/// The line of a script after which no task can go on.
fn waits_line(alloc: Global, read: &WasRead<'_>, waiting: &Waiting) -> Result<String, AllocError> {
    let text = waits_text(alloc, waiting.lines.as_slice())?;
    line_of(alloc, script_name(read), text.as_str())
}

/// What goes to standard error of an answer itself: what is not complete of it, and the line of a
/// fault, except that of a file that did not take all its bytes.
fn own_errors(
    alloc: Global,
    asked: Asked<'_>,
    read: &WasRead<'_>,
    answer: &Answer<'_>,
) -> Result<String, AllocError> {
    match answer {
        Answer::Refused(refused) => stale_note(alloc, asked.is_verbose(), refused.why),
        Answer::Attacks(attacked) => cut_text(alloc, attacked.found.as_slice()),
        Answer::Mends(answer) => mends_note(alloc, answer),
        Answer::Waits(waiting) => waits_line(alloc, read, waiting),
        Answer::Mig(mig_texts) => mig_texts_text(alloc, mig_texts.texts.as_slice()),
        Answer::Fault(Fault::Unwritten(_)) => Ok(String::new(alloc)),
        Answer::Fault(fault) => fault_line(alloc, read, fault),
        _ => Ok(String::new(alloc)),
    }
}

/// The text for standard error: notices, what is not complete of the answer, and the line of a
/// fault. Not in it is the line of a file that did not take all its bytes, which
/// [`crate::print_unwritten`] prints.
#[tactic(auto, using(crate::proofs::EmptyLaws::first_empty))]
pub fn errors(
    alloc: Global,
    asked: Asked<'_>,
    answered: &Answered<'_>,
) -> Result<String, AllocError>
    // It is empty only if there is nothing to tell besides the answer.
    ensures told { IfOk result (λ text.
        string_bytes text ≡ [] → AreNone answered.now.reply.notices) }
{
    let notices = notices_text(alloc, answered)?;
    let own = own_errors(alloc, asked, &answered.read, &answered.reply.answer)?;
    joined(alloc, notices.as_str(), own.as_str(), "")
}

/// The text for standard output, except what is printed as it is made. An object or a log has what
/// goes to standard error (`errors`), and what helps with a fault (`hint`).
pub fn output(
    alloc: Global,
    asked: Asked<'_>,
    answered: &Answered<'_>,
    errors: &str,
    hint: &Hint,
) -> Result<String, AllocError>
    requires shown { IsShown answered.now.reply.answer }
    // For people it begins as the answer's text does.
    ensures head { InText (heads.format_of asked.entry)
        (IfOk result (λ text. HasHead answered.now (string_bytes text))) }
{
    let read = &answered.read;
    let answer = &answered.reply.answer;
    let making = Making {
        alloc,
        command: asked.word(),
        notices: errors,
        wiring: wiring_text(read),
        policy: policy_text(read),
    };
    match format_of(asked) {
        Format::Text => answer_text(alloc, asked, read, answer),
        Format::Json => answer_json(&making, asked.showing().brief, read, answer, hint),
        Format::Sarif => answer_sarif(alloc, read, answer, errors, hint),
    }
}

/// Prints the events of an answer as lines.
fn print_lines<S: Sink>(
    alloc: Global,
    answered: &Answered<'_>,
    sink: &mut S,
) -> Result<(), Unprinted>
    ensures whole { OnOk result (Appends (S.contents sink.old) (S.contents sink.new)
        (pending_text answered.now)) }
    ensures cut { IfErr result (λ fault. Appends (S.contents sink.old) (S.contents sink.new)
        (take (written fault) (pending_text answered.now))) }
    ensures within { IfErr result (λ fault. written fault ≤ length (pending_text answered.now)) }
    ensures passed { OnOk result (S.failures sink.new ≡ S.failures sink.old) }
    ensures failed { IfErr result (HasFailed (S.failures sink.old) (S.failures sink.new)) }
{
    match &answered.reply.answer {
        Answer::Replay(both) => replay(alloc, &both.wired, &both.script, sink),
        Answer::Journal(ran) => ran.print(alloc, sink),
        Answer::Waits(waiting) => waiting.ran.print(alloc, sink),
        _ => Ok(()),
    }
}

/// Prints the events of an answer as objects.
fn print_objects<S: Sink>(
    alloc: Global,
    answered: &Answered<'_>,
    sink: &mut S,
) -> Result<(), Unprinted>
    ensures appended { HasGrown (S.contents sink.old) (S.contents sink.new) }
    ensures passed { OnOk result (S.failures sink.new ≡ S.failures sink.old) }
    ensures failed { IfErr result (HasFailed (S.failures sink.old) (S.failures sink.new)) }
{
    match &answered.reply.answer {
        Answer::Replay(both) => {
            let objects = EventObjects::of_replay();
            replay_by(alloc, &both.wired, &both.script, &objects, sink)
        }
        Answer::Journal(ran) => ran.print_by(alloc, &EventObjects::of_run(), sink),
        Answer::Waits(waiting) => {
            let objects = EventObjects::of_waiting(waiting.lines.as_slice());
            waiting.ran.print_by(alloc, &objects, sink)
        }
        _ => Ok(()),
    }
}

/// Prints what is printed as it is made: the events of a replay or of a run, in the format that is
/// asked for. Nothing is printed of another answer.
pub fn print_pending<S: Sink>(
    alloc: Global,
    asked: Asked<'_>,
    answered: &Answered<'_>,
    sink: &mut S,
) -> Result<(), Unprinted>
    // For people all of the text was appended.
    ensures whole { InText (heads.format_of asked.entry) (OnOk result
        (Appends (S.contents sink.old) (S.contents sink.new) (pending_text answered.now))) }
    // Else its first bytes were, as many as the fault counts.
    ensures cut { InText (heads.format_of asked.entry) (IfErr result (λ fault.
        Appends (S.contents sink.old) (S.contents sink.new)
        (take (written fault) (pending_text answered.now)))) }
    ensures within { InText (heads.format_of asked.entry)
        (IfErr result (λ fault. written fault ≤ length (pending_text answered.now))) }
    // In each format some text was appended.
    ensures appended { HasGrown (S.contents sink.old) (S.contents sink.new) }
    // A failed write is reported if one failed, and else none did.
    ensures passed { OnOk result (S.failures sink.new ≡ S.failures sink.old) }
    ensures failed { IfErr result (HasFailed (S.failures sink.old) (S.failures sink.new)) }
{
    match format_of(asked) {
        Format::Text | Format::Sarif => print_lines(alloc, answered, sink),
        Format::Json => print_objects(alloc, answered, sink),
    }
}
