//! The program from its words to its status.

ghost use Rattle.std.specs.Prelude.{◌≡◌, ◌≢◌, ◌≤◌, ◌⊎◌, ◌&&◌, ◌||◌, ℕ, false, List, []};
ghost use Rattle.std.specs.Prelude.{IfErr, IfOk, IsOkAnd};
ghost use Rattle.std.specs.Prelude.{◌++◌, IfSome, IsTrue, OnErr, OnOk, codes, decimal, map};
ghost use Rattle.std.specs.Prelude.{string_bytes};
ghost use Rattle.std.specs.Io.KnownBytes.{Appends};
ghost use Rattle.mrc_answer.specs.Answers.{IsAnswered, MayChange};
ghost use Rattle.mrc_answer.specs.Statuses.{status_of};
ghost use Rattle.mrc_command.specs.CommandLine.{AsksHelp};
ghost use Rattle.mrc_command.specs.Meaning.{Means, asked_format};
ghost use Rattle.mrc_print.specs.Heads.{HasHead, InText, IsShown, format_of};
ghost use Rattle.mrc_print.specs.Silence.{AreNone};
ghost use Rattle.mrc_program.specs.Runs.{HaveChanged, WentInPart, WentOut, is_search, searches};
ghost use Rattle.mrc_program.specs.Runs.{seen, seen_question};
ghost use Rattle.mrc_program.specs.Writing.{IsFrontOut, IsTold, IsToldInPart, IsWholeOut};
ghost use Rattle.mrc_program.specs.Writing.{has_fault};

use crate::behind::{Helping, help_behind};
use crate::progress::{Counter, Nobody};
use mrc_answer::{Answer, Answered, MigEnd, MigText, Notices, Ready, answer, status_of};
use mrc_command::{
    Command, Format, NoCommand, Question, Request, Showing, Told, WordsFault, asked_format, read,
    words_line,
};
use mrc_files::{Folder, write_text};
use mrc_place::Hint;
use mrc_print::{
    Asked, WrittenTexts, errors, format_of, output, print_pending, print_unwritten, unwritten_of,
    written_texts,
};
use mrc_report::Unprinted;
use std::alloc::{AllocError, Global};
use std::io::Write;
use std::mem::replace;
use std::sync::Wait;
use std::thread::Threads;

/// Which outputs a person looks at: those that are terminals.
#[derive(Clone, Copy)]
pub struct Watched {
    /// Standard output.
    pub out: bool,
    /// Standard error.
    pub err: bool,
}

/// The texts that are printed of an answer, except what is pending and the line of a file that was
/// not written.
#[derive(Drop)]
struct AnswerTexts {
    /// The text for standard output.
    out: String,
    /// The text for standard error.
    err: String,
    /// The text behind it that helps with a fault.
    behind: String,
}

/// Makes the texts of MIG files before these are written.
#[derive(Drop)]
struct Preparing<'a> {
    /// What is asked.
    asked: Asked<'a>,
    /// The texts, once they are made.
    texts: Option<WrittenTexts>,
}

impl Ready for Preparing<'_> {
    fn make_ready(&mut self, alloc: Global, mig_texts: &[MigText<'_>]) -> Result<(), AllocError> {
        let texts = written_texts(alloc, self.asked, mig_texts)?;
        drop(replace(&mut self.texts, Some(texts)));
        Ok(())
    }
}

/// What was made before files were written.
#[derive(Drop)]
struct Prepared {
    /// An empty text with room for the line of a certificate.
    room: String,
    /// The texts of MIG files.
    texts: Option<WrittenTexts>,
}

/// The question as it is answered: if a person looks at standard output, the lines that are broken
/// are followed by their texts.
fn seen_question(watched: bool, question: Question<'_>) -> Question<'_>
    ensures { result ≡ seen_question watched question.entry }
{
    match question {
        Question::Verify { showing } => Question::Verify {
            showing: Showing {
                quotes: showing.quotes || watched,
                ..showing
            },
        },
        question => question,
    }
}

/// The same of a command.
fn seen(watched: bool, command: Command<'_>) -> Command<'_>
    ensures { result ≡ seen watched command.entry }
{
    match command {
        Command::Case(names, question) => Command::Case(names, seen_question(watched, question)),
        Command::Mig(files) => Command::Mig(files),
        Command::Message(asked) => Command::Message(asked),
    }
}

/// What a command asks, as far as printing depends on it.
fn asked_of<'a>(command: &Command<'a>) -> Asked<'a>
    ensures { format_of result ≡ asked_format command.now }
{
    match command {
        Command::Case(_, question) => Asked::Case(*question),
        Command::Mig(files) => Asked::Mig(files.format),
        Command::Message(asked) => Asked::Message(asked.turning, asked.text),
    }
}

/// The names of the MIG files of a `mig`: none of another command, or if memory runs out.
fn defs_of<'a>(alloc: Global, command: &Command<'a>) -> Vec<&'a str> {
    match command {
        Command::Case(_, _) | Command::Message(_) => Vec::new(alloc),
        Command::Mig(files) => match Vec::from_slice(alloc, files.defs.as_slice()) {
            Ok(defs) => defs,
            Err(AllocError) => Vec::new(alloc),
        },
    }
}

/// The answer to a command. If a search `counts`, it is printed to standard error how far it has
/// come. Else nothing is.
fn answer_shown<'a, F: Folder, R: Threads + Wait + Sync, E: Write>(
    rt: &R,
    folder: &mut F,
    alloc: Global,
    command: Command<'a>,
    counts: bool,
    preparing: &mut Preparing<'_>,
    err: &mut E,
) -> Result<Answered<'a>, AllocError>
    ensures right { IfOk result (IsAnswered (F.held folder.old) (F.held folder.new) command.entry) }
    ensures kept { IsOkAnd result (λ answered. MayChange answered.reply.answer)
        ⊎ (F.held folder.new ≡ F.held folder.old) }
    ensures silent { counts ≡ false → E.contents err.new ≡ E.contents err.old }
{
    if counts {
        let mut counter = Counter { err, played: 0 };
        answer(rt, folder, alloc, command, &mut counter, preparing)
    } else {
        answer(rt, folder, alloc, command, &mut Nobody, preparing)
    }
}

/// Whether the question is answered by a search that can tell how far it has come.
fn is_search(question: &Question<'_>) -> bool
    ensures { result ≡ is_search question.now }
{
    matches!(question, Question::Mend { .. } | Question::Attack { .. })
}

/// The same of a command.
fn searches(command: &Command<'_>) -> bool
    ensures { result ≡ searches command.now }
{
    match command {
        Command::Case(_, question) => is_search(question),
        Command::Mig(_) | Command::Message(_) => false,
    }
}

/// Whether a search tells how far it has come.
fn counts(watched: Watched, verbose: bool, command: &Command<'_>) -> bool
    ensures { result ≡ (watched.err || (verbose && searches command.now)) }
{
    watched.err || (verbose && searches(command))
}

/// Whether an answer is a fault, or has one.
fn has_fault(answer: &Answer<'_>) -> bool
    ensures { result ≡ has_fault answer.now }
{
    match answer {
        Answer::Fault(_) => true,
        Answer::Mig(mig_texts) => matches!(mig_texts.end, MigEnd::Refused(_)),
        _ => false,
    }
}

/// The text for standard output, except what is pending. If memory runs out for the object of a
/// fault, it is empty.
fn output_if_made(
    alloc: Global,
    asked: Asked<'_>,
    answered: &Answered<'_>,
    errors: &str,
    hint: &Hint,
) -> Result<String, AllocError>
    requires { IsShown answered.now.reply.answer }
    ensures { InText (format_of asked.entry)
        (IfOk result (λ text. HasHead answered.now (string_bytes text))) }
{
    match output(alloc, asked, answered, errors, hint) {
        Ok(text) => Ok(text),
        Err(AllocError) => {
            if has_fault(&answered.reply.answer) {
                Ok(String::new(alloc))
            } else {
                Err(AllocError)
            }
        }
    }
}

/// Whether nothing is told besides an answer.
fn are_none(notices: &Notices) -> bool
    ensures { IsTrue result → AreNone notices.now }
{
    notices.left_out.is_empty()
        && notices.cut_before.is_empty()
        && notices.notification.is_none()
        && !notices.is_empty_policy
        && !notices.demands.expects_nothing
        && notices.demands.idle.is_empty()
        && notices.demands.unjudged == 0
        && notices.plain.is_empty()
        && notices.leaky.is_empty()
        && notices.dead.is_none()
        && notices.trusted.is_empty()
}

/// An empty text with room for the line of a certificate. It is made before the certificate is
/// written, so that what was written is printed.
fn room_for_line(alloc: Global) -> Result<String, AllocError>
    ensures { IfOk result (λ room. string_bytes room ≡ []) }
{
    String::with_capacity(alloc, 32)
}

/// That a certificate of so many facts was made, in a text that has room for it.
fn made_line(room: String, count: usize) -> Result<String, AllocError>
    requires { string_bytes room ≡ [] }
    ensures { IfOk result (λ line.
        string_bytes line ≡ codes "facts " ++ (decimal count ++ codes "\n")) }
{
    let mut digits = itoa::Buffer::new();
    let mut line = room;
    line.push_str("facts ")?;
    line.push_str(digits.format(count))?;
    line.push_str("\n")?;
    Ok(line)
}

/// What is printed of a certificate that was made and written, if it is that: no memory is needed.
fn made_texts(alloc: Global, room: String, answered: &Answered<'_>) -> Option<AnswerTexts>
    requires { string_bytes room ≡ [] }
    ensures out { IfSome result (λ printed. HasHead answered.now (string_bytes printed.out)) }
    ensures err { IfSome result (λ _. AreNone answered.now.reply.notices) }
{
    let Answer::Made(count) = &answered.reply.answer else {
        return None;
    };
    if !are_none(&answered.reply.notices) {
        return None;
    }
    match made_line(room, *count) {
        Ok(line) => Some(AnswerTexts {
            out: line,
            err: String::new(alloc),
            behind: String::new(alloc),
        }),
        Err(AllocError) => None,
    }
}

/// A text for standard output that is for programs alone: for people it is empty.
fn for_programs(alloc: Global, asked: Asked<'_>, text: String) -> String
    ensures { InText (format_of asked.entry) (string_bytes result ≡ []) }
{
    if format_of(asked) == Format::Text {
        String::new(alloc)
    } else {
        text
    }
}

/// What is printed of MIG files that were all written, if it is that, and if it was made
/// before.
fn mig_answer_texts(
    alloc: Global,
    asked: Asked<'_>,
    texts: Option<WrittenTexts>,
    answered: &Answered<'_>,
) -> Option<AnswerTexts>
    ensures out { InText (format_of asked.entry)
        (IfSome result (λ printed. HasHead answered.now (string_bytes printed.out))) }
    ensures err { IfSome result (λ _. AreNone answered.now.reply.notices) }
{
    let Answer::Mig(mig_texts) = &answered.reply.answer else {
        return None;
    };
    if !matches!(mig_texts.end, MigEnd::Written) || !are_none(&answered.reply.notices) {
        return None;
    }
    let WrittenTexts { out, err } = texts?;
    Some(AnswerTexts {
        out: for_programs(alloc, asked, out),
        err,
        behind: String::new(alloc),
    })
}

/// The texts of an answer that were made before files were written, if they were.
fn prepared_texts(
    alloc: Global,
    asked: Asked<'_>,
    prepared: Prepared,
    answered: &Answered<'_>,
) -> Option<AnswerTexts>
    requires { string_bytes prepared.room ≡ [] }
    ensures out { InText (format_of asked.entry)
        (IfSome result (λ printed. HasHead answered.now (string_bytes printed.out))) }
    ensures err { IfSome result (λ _. AreNone answered.now.reply.notices) }
{
    let Prepared { room, texts } = prepared;
    match made_texts(alloc, room, answered) {
        Some(printed) => Some(printed),
        None => mig_answer_texts(alloc, asked, texts, answered),
    }
}

/// The texts that are printed of an answer. Those that were prepared need no memory.
fn texts_of(
    alloc: Global,
    asked: Asked<'_>,
    helping: Helping<'_>,
    answered: &Answered<'_>,
    prepared: Prepared,
) -> Result<AnswerTexts, AllocError>
    requires room { string_bytes prepared.room ≡ [] }
    requires shown { IsShown answered.now.reply.answer }
    ensures out { InText (format_of asked.entry)
        (IfOk result (λ printed. HasHead answered.now (string_bytes printed.out))) }
    ensures err { IfOk result (λ printed.
        string_bytes printed.err ≡ [] → AreNone answered.now.reply.notices) }
{
    if let Some(printed) = prepared_texts(alloc, asked, prepared, answered) {
        return Ok(printed);
    }
    let err = errors(alloc, asked, answered)?;
    let help = help_behind(alloc, asked, helping, answered);
    let out = output_if_made(alloc, asked, answered, err.as_str(), &help.hint)?;
    Ok(AnswerTexts {
        out,
        err,
        behind: if helping.shows {
            help.text
        } else {
            String::new(alloc)
        },
    })
}

/// Writes a text, and behind it what is pending of an answer.
fn write_out<O: Write>(
    alloc: Global,
    asked: Asked<'_>,
    answered: &Answered<'_>,
    text: &str,
    out: &mut O,
) -> Result<(), Unprinted>
    ensures whole { OnOk result (IsWholeOut (format_of asked.entry) answered.now text.now
        (O.contents out.old) (O.contents out.new)) }
    // Else the front of both was appended.
    ensures front { OnErr result (IsFrontOut (format_of asked.entry) answered.now text.now
        (O.contents out.old) (O.contents out.new)) }
{
    match write_text(out, text.as_bytes()) {
        Ok(()) => print_pending(alloc, asked, answered, out),
        Err(fault) => Err(Unprinted::WriteFailed(fault.written as u128)),
    }
}

/// Writes that standard output took so many bytes and then no more.
fn write_failed<E: Write>(alloc: Global, err: &mut E, written: u128) {
    if let Ok(line) = format!(in alloc; "machcheck: -: WriteFailed {written}\n") {
        let _ = write_text(err, line.as_bytes());
    }
}

/// Writes that memory ran out. Returns the status.
fn write_memory<E: Write>(err: &mut E) -> u8
    ensures { result ≡ 2 }
{
    let _ = write_text(err, b"machcheck: Memory\n");
    2
}

/// Writes the line of a file that did not take all its bytes, if that is what is answered.
fn write_unwritten<E: Write>(err: &mut E, answer: &Answer<'_>) {
    if let Some(unwritten) = unwritten_of(answer) {
        let _ = print_unwritten(err, unwritten);
    }
}

/// Writes the text for standard error. With status 2 the line of a file that did not take all its
/// bytes is behind it, and then what helps with a fault. Returns this status, or 2 if not all is
/// taken.
fn write_errors<E: Write>(err: &mut E, answer: &Answer<'_>, printed: &AnswerTexts, status: u8) -> u8
    ensures status { (result ≡ status) ⊎ (result ≡ 2) }
    ensures err { result ≢ 2 → Appends (E.contents err.old) (E.contents err.new)
        (string_bytes printed.now.err) }
{
    if write_text(err, printed.err.as_bytes()).is_err() {
        return 2;
    }
    if status == 2 {
        write_unwritten(err, answer);
        let _ = write_text(err, printed.behind.as_bytes());
    }
    status
}

/// Writes the texts of an answer, and what is pending. If standard output does not take its text,
/// that is printed on standard error too; and if memory runs out for it, that alone.
fn write_printed<O: Write, E: Write>(
    alloc: Global,
    asked: Asked<'_>,
    answered: &Answered<'_>,
    printed: &AnswerTexts,
    out: &mut O,
    err: &mut E,
) -> u8
    ensures status { (result ≡ status_of answered.now.reply.answer) ⊎ (result ≡ 2) }
    // Another status than 2 says that all went out.
    ensures out { result ≢ 2 → IsWholeOut (format_of asked.entry) answered.now
        (string_bytes printed.now.out) (O.contents out.old) (O.contents out.new) }
    ensures err { result ≢ 2 → Appends (E.contents err.old) (E.contents err.new)
        (string_bytes printed.now.err) }
    // At all events a front of it did.
    ensures front { IsFrontOut (format_of asked.entry) answered.now
        (string_bytes printed.now.out) (O.contents out.old) (O.contents out.new) }
{
    let answer = &answered.reply.answer;
    match write_out(alloc, asked, answered, printed.out.as_str(), out) {
        Ok(()) => write_errors(err, answer, printed, status_of(answer)),
        Err(Unprinted::WriteFailed(written)) => {
            write_failed(alloc, err, written);
            write_errors(err, answer, printed, 2)
        }
        Err(Unprinted::Memory(_)) => write_memory(err),
    }
}

/// Prints an answer. If memory runs out for its texts, that alone is printed, and the line of a
/// file that did not take all its bytes. Returns the status.
fn write_answer<O: Write, E: Write>(
    alloc: Global,
    asked: Asked<'_>,
    helping: Helping<'_>,
    answered: &Answered<'_>,
    prepared: Prepared,
    out: &mut O,
    err: &mut E,
) -> u8
    requires room { string_bytes prepared.room ≡ [] }
    requires shown { IsShown answered.now.reply.answer }
    ensures status { (result ≡ status_of answered.now.reply.answer) ⊎ (result ≡ 2) }
    // Another status than 2 says that all went out.
    ensures whole { result ≢ 2 → IsTold (format_of asked.entry) answered.now
        (O.contents out.old) (O.contents out.new) (E.contents err.old) (E.contents err.new) }
    // At all events a front of it did, or nothing.
    ensures front { Appends (O.contents out.old) (O.contents out.new) []
        ⊎ IsToldInPart (format_of asked.entry) answered.now
        (O.contents out.old) (O.contents out.new) }
{
    match texts_of(alloc, asked, helping, answered, prepared) {
        Ok(texts) => write_printed(alloc, asked, answered, &texts, out, err),
        Err(AllocError) => {
            write_unwritten(err, &answered.reply.answer);
            write_memory(err)
        }
    }
}

/// Answers what words ask for, and prints the answer. Returns the status.
fn run_request<F: Folder, R: Threads + Wait + Sync, O: Write, E: Write>(
    rt: &R,
    folder: &mut F,
    alloc: Global,
    request: Request<'_>,
    room: String,
    out: &mut O,
    err: &mut E,
    watched: Watched,
) -> u8
    requires { string_bytes room ≡ [] }
    ensures status { result ≤ 2 }
    ensures whole { result ≢ 2 → (words : List (List ℕ)) → Means words request.entry
        → WentOut watched words (F.held folder.old) (F.held folder.new) result
        (O.contents out.old) (O.contents out.new) (E.contents err.old) (E.contents err.new) }
    ensures front { Appends (O.contents out.old) (O.contents out.new) []
        ⊎ ((words : List (List ℕ)) → Means words request.entry
        → WentInPart watched words (F.held folder.old) (F.held folder.new)
        (O.contents out.old) (O.contents out.new)) }
    ensures kept { (F.held folder.new ≡ F.held folder.old)
        ⊎ ((words : List (List ℕ)) → Means words request.entry
        → HaveChanged watched words (F.held folder.old) (F.held folder.new)) }
{
    let Request { command, verbose } = request;
    let counts = counts(watched, verbose, &command);
    let command = seen(watched.out, command);
    let asked = asked_of(&command);
    let defs = defs_of(alloc, &command);
    let shows = verbose || watched.err;
    let helping = Helping {
        defs: defs.as_slice(),
        wanted: shows || asked_format(&command) != Format::Text,
        shows,
    };
    let mut preparing = Preparing { asked, texts: None };
    match answer_shown(rt, folder, alloc, command, counts, &mut preparing, err) {
        Ok(answered) => {
            let prepared = Prepared {
                room,
                texts: preparing.texts,
            };
            let status = write_answer(alloc, asked, helping, &answered, prepared, out, err);
            drop(answered);
            status
        }
        Err(AllocError) => write_memory(err),
    }
}

/// Writes what is printed if the words ask for no command: help, the version, or what is wrong with
/// them. Returns the status.
fn write_told<O: Write, E: Write>(alloc: Global, told: &Told, out: &mut O, err: &mut E) -> u8
    ensures status { (result ≡ told.now.status) ⊎ (result ≡ 2) }
    ensures front { string_bytes told.now.out ≡ []
        → Appends (O.contents out.old) (O.contents out.new) [] }
{
    let written = write_text(out, told.out.as_bytes());
    if let Err(fault) = written {
        write_failed(alloc, err, fault.written as u128);
    }
    if write_text(err, told.err.as_bytes()).is_ok() && written.is_ok() {
        told.status
    } else {
        2
    }
}

/// Runs the program on the words of a command line, its own name first, and on the files of a
/// folder. If a person looks at `err`, or the words have `--verbose`, it prints there how far a long
/// search has come, and behind a fault what helps with it. If a person looks at `out`, `verify`
/// prints the text of each line that is broken. The status is 0 for `YES`, for mends, for a
/// certificate that is made, for a chain, for facts, for a drawing, for slots, for promises, for a
/// replay, for a journal, for MIG files that are written and for help and the version, 1 for `NO`, for
/// attacks and for `none`, and 2 for a fault, if too little is read of MIG files, and if all tasks
/// of a `live` that have lines left wait for messages.
pub fn run<F: Folder, R: Threads + Wait + Sync, O: Write, E: Write>(
    rt: &R,
    folder: &mut F,
    alloc: Global,
    words: &[String],
    out: &mut O,
    err: &mut E,
    watched: Watched,
) -> u8
    ensures status { result ≤ 2 }
    // With status 0 the answer went out whole: a yes, mends, the making of a certificate, a chain,
    // facts, a drawing, slots, promises, a replay, a journal or what is read of MIG files. It is
    // that to what the words ask for, and right of what the files held that they name, unless they
    // ask for help or the version. What is told besides went to standard error.
    ensures yes { result ≡ 0
        → WentOut watched (map string_bytes words.now) (F.held folder.old) (F.held folder.new) 0
        (O.contents out.old) (O.contents out.new) (E.contents err.old) (E.contents err.new)
        ⊎ AsksHelp (map string_bytes words.now) }
    // With status 1 a no went out whole, attacks, that no chain leads to a fact, or that no mend
    // was found. It is the answer to what the words ask for, and right of what the files held.
    ensures no { result ≡ 1
        → WentOut watched (map string_bytes words.now) (F.held folder.old) (F.held folder.new) 1
        (O.contents out.old) (O.contents out.new) (E.contents err.old) (E.contents err.new) }
    // With status 2 nothing went out, or a front of what is printed of the right answer, if memory
    // ran out for the rest, an output took no more, or it is a fault; or the words ask for help or
    // the version.
    ensures front { result ≡ 2 → Appends (O.contents out.old) (O.contents out.new) []
        ⊎ (WentInPart watched (map string_bytes words.now) (F.held folder.old)
        (F.held folder.new) (O.contents out.old) (O.contents out.new)
        ⊎ AsksHelp (map string_bytes words.now)) }
    // Files change only if the words ask for a `make` or a `mig`, and as its answer says.
    ensures kept { (F.held folder.new ≡ F.held folder.old)
        ⊎ HaveChanged watched (map string_bytes words.now) (F.held folder.old)
        (F.held folder.new) }
{
    match read(alloc, words) {
        Ok(request) => match room_for_line(alloc) {
            Ok(room) => run_request(rt, folder, alloc, request, room, out, err, watched),
            Err(AllocError) => {
                drop(request);
                write_memory(err)
            }
        },
        Err(NoCommand::Told(told)) => write_told(alloc, &told, out, err),
        Err(NoCommand::Memory) => write_memory(err),
    }
}

/// Runs the program on the words of a command line, or prints why they can't be had. The status is
/// that of [`run`], or 2.
pub fn start<F: Folder, R: Threads + Wait + Sync, O: Write, E: Write>(
    rt: &R,
    folder: &mut F,
    alloc: Global,
    words: Result<Vec<String>, WordsFault>,
    out: &mut O,
    err: &mut E,
    watched: Watched,
) -> u8
    ensures status { result ≤ 2 }
    ensures fault { IfErr words (λ _. result ≡ 2) }
    // With status 0 the answer went out whole, to what the words ask for, or they ask for help or
    // the version.
    ensures yes { result ≡ 0 → IsOkAnd words (λ given.
        WentOut watched (map string_bytes given.items) (F.held folder.old) (F.held folder.new) 0
        (O.contents out.old) (O.contents out.new) (E.contents err.old) (E.contents err.new)
        ⊎ AsksHelp (map string_bytes given.items)) }
    // With status 1 a no went out whole.
    ensures no { result ≡ 1 → IsOkAnd words (λ given.
        WentOut watched (map string_bytes given.items) (F.held folder.old) (F.held folder.new) 1
        (O.contents out.old) (O.contents out.new) (E.contents err.old) (E.contents err.new)) }
    // With status 2 nothing went out, or a front of what is printed of the right answer; or the
    // words ask for help or the version.
    ensures front { result ≡ 2 → Appends (O.contents out.old) (O.contents out.new) []
        ⊎ IsOkAnd words (λ given.
        WentInPart watched (map string_bytes given.items) (F.held folder.old)
        (F.held folder.new) (O.contents out.old) (O.contents out.new)
        ⊎ AsksHelp (map string_bytes given.items)) }
    // Files change only if the words ask for a `make` or a `mig`, and as its answer says.
    ensures kept { (F.held folder.new ≡ F.held folder.old)
        ⊎ IsOkAnd words (λ given. HaveChanged watched (map string_bytes given.items)
        (F.held folder.old) (F.held folder.new)) }
{
    match words {
        Ok(words) => run(rt, folder, alloc, words.as_slice(), out, err, watched),
        Err(fault) => {
            let _ = write_text(err, words_line(fault));
            2
        }
    }
}
