//! A question that is asked of files.

ghost use Rattle.std.specs.Prelude.{◌≡◌, ◌⊎◌, ◌↔◌, None, IfOk, IfSome, IsOkAnd, IsTrue, map};
ghost use Rattle.mrc_answer.specs.Answers.{IsAnswer, IsAnsweredOf, IsAnswered, IsBadWord};
ghost use Rattle.mrc_answer.specs.Answers.{IsUnreadOf, IsSameNameOf, MayChange};
ghost use Rattle.mrc_answer.specs.Messages.{IsTurned};
ghost use Rattle.mrc_answer.specs.MigTexts.{mig_names};
ghost use Rattle.mrc_answer.specs.Answers.{HasReadDefs};
ghost use Rattle.mrc_answer.specs.Notices.{no_notices};
ghost use Rattle.mrc_answer.specs.Verified.{IsBadLine, IsBadMost};
ghost use Rattle.mrc_answer.specs.declared.answers.Answer.TheVariants as answers;
ghost use Rattle.mrc_answer.specs.declared.asking.WasRead.TheVariants as reads;
ghost use Rattle.mrc_answer.specs.declared.faults.Fault.TheVariants as faults;
ghost use Rattle.mrc_answer.specs.declared.faults.WordFault.{WordFault};
ghost use Rattle.mrc_command.specs.declared.command.Command.TheVariants as commands;
ghost use Rattle.mrc_files.specs.Files.{AreHeld};

use crate::answers::{Answer, Reply};
use crate::attack::attacked;
use crate::check::checked;
use crate::explain::explained;
use crate::facts::listed;
use crate::faults::{Fault, WordFault};
use crate::files::{Files, Texts, texts_of};
use crate::graph::graphed;
use crate::live::live_served;
use crate::make::made;
use crate::mend::mended;
use crate::message::turned;
use crate::mig::{Ready, mig_files, same_name};
use crate::notices::no_notices;
use crate::replay::replayed;
use crate::systems::{expanded, promises, slots};
use crate::verify::verified;
use mrc_attack::Progress as Looks;
use mrc_base::limits::EVENTS;
use mrc_command::{Command, FileNames, MessageText, MigFiles, Question};
use mrc_files::{Folder, InputFault, Unread, bytes_of_all};
use mrc_mend::Progress;
use std::alloc::{AllocError, Global};
use std::sync::Wait;
use std::thread::Threads;

/// What was read of the files of a command.
#[derive(Drop)]
pub enum WasRead<'a> {
    /// Not all of what it names.
    Nothing,
    /// The files of a system.
    Texts(Files<'a>),
    /// MIG files, in their order.
    Defs(Vec<Vec<u8>>),
}

/// What was read for a command, and what is answered.
#[derive(Drop)]
pub struct Answered<'a> {
    /// What was read.
    pub read: WasRead<'a>,
    /// The answer, and what is told besides.
    pub reply: Reply<'a>,
}

/// The last number that a line can have.
const LAST: usize = 4_294_967_295;

/// The most mends, or chains of an attack, that can be asked for.
const MOST: usize = 1_000_000;

/// Whether no line has the number that is asked for.
fn is_bad_line(line: Option<usize>) -> bool
    ensures { IsTrue result ↔ IsBadLine line }
{
    match line {
        None => false,
        Some(number) => number == 0 || number > LAST,
    }
}

/// Whether no so many mends or chains can be asked for.
fn is_bad_most(most: usize) -> bool
    ensures { IsTrue result ↔ IsBadMost most }
{
    most == 0 || most > MOST
}

/// The option whose word can't be what it is asked to be, if there is one: `--most` before
/// `--line`.
fn bad_word(question: Question<'_>) -> Option<WordFault>
    ensures some { IfSome result (IsBadWord question.entry) }
    ensures none { result ≡ None → (word : WordFault) → IsBadWord question.entry word → ⊥ }
{
    match question {
        Question::Verify { showing } if is_bad_line(showing.line) => Some(WordFault::BadLine),
        Question::Mend { most, .. } if is_bad_most(most) => Some(WordFault::BadMost),
        Question::Mend { line, .. } if is_bad_line(line) => Some(WordFault::BadLine),
        Question::Attack { most, .. } if is_bad_most(most) => Some(WordFault::BadMost),
        Question::Attack { line, .. } if is_bad_line(line) => Some(WordFault::BadLine),
        _ => None,
    }
}

/// An answer with which nothing is told besides.
fn alone<'a>(alloc: Global, answer: Answer<'a>) -> Reply<'a>
    ensures answer { result.answer ≡ answer.entry }
    ensures notices { result.notices ≡ no_notices }
{
    Reply {
        answer,
        notices: no_notices(alloc),
    }
}

/// What is answered of a question about files that were read.
fn question_answered<'a, F: Folder, R: Threads + Wait + Sync, P: Progress + Looks>(
    rt: &R,
    folder: &mut F,
    alloc: Global,
    files: &Files<'_>,
    question: Question<'_>,
    progress: &mut P,
) -> Result<Reply<'a>, AllocError>
    ensures right { IfOk result (λ reply. IsAnswer (F.held folder.old) (F.held folder.new)
        question.entry files.now reply.answer reply.notices) }
    ensures kept { IsOkAnd result (λ reply. MayChange reply.answer)
        ⊎ (F.held folder.new ≡ F.held folder.old) }
{
    match question {
        Question::Verify { showing } => verified(alloc, files, showing.line),
        Question::Attack { line, most, .. } => attacked(alloc, files, line, most, progress),
        Question::Check { .. } => checked(rt, alloc, files),
        Question::Mend { line, most, .. } => Ok(alone(
            alloc,
            mended(alloc, files, line, most, progress)?,
        )),
        Question::Make { out, workers } => Ok(alone(
            alloc,
            made(rt, folder, alloc, files, out, workers)?,
        )),
        Question::Explain { fact, .. } => Ok(alone(alloc, explained(alloc, files, fact)?)),
        Question::Facts {
            task,
            class,
            right,
            ..
        } => Ok(alone(alloc, listed(alloc, files, task, class, right)?)),
        Question::Graph {
            fact,
            task,
            holds,
            ..
        } => Ok(alone(alloc, graphed(alloc, files, fact, task, holds)?)),
        Question::Slots { .. } => Ok(alone(alloc, slots(alloc, files)?)),
        Question::Promises { .. } => Ok(alone(alloc, promises(alloc, files)?)),
        Question::Expand => Ok(alone(alloc, expanded(alloc, files)?)),
        Question::Replay { .. } => Ok(alone(alloc, replayed(alloc, files)?)),
        Question::Live { .. } => Ok(alone(alloc, live_served(rt, alloc, files, EVENTS)?)),
    }
}

/// The same, with the files.
fn files_answered<'a, F: Folder, R: Threads + Wait + Sync, P: Progress + Looks>(
    rt: &R,
    folder: &mut F,
    alloc: Global,
    files: Files<'a>,
    question: Question<'a>,
    progress: &mut P,
) -> Result<Answered<'a>, AllocError>
    ensures right { IfOk result (IsAnsweredOf (F.held folder.old) (F.held folder.new)
        question.entry files.entry) }
    ensures kept { IsOkAnd result (λ answered. MayChange answered.reply.answer)
        ⊎ (F.held folder.new ≡ F.held folder.old) }
{
    match question_answered(rt, folder, alloc, &files, question, progress) {
        Ok(reply) => Ok(Answered {
            read: WasRead::Texts(files),
            reply,
        }),
        Err(AllocError) => {
            drop(files);
            Err(AllocError)
        }
    }
}

/// That the word of an option can't be what it is asked to be.
fn bad_word_answered<'a>(alloc: Global, word: WordFault) -> Answered<'a>
    ensures read { result.read ≡ reads.Nothing }
    ensures answer { result.reply.answer ≡ answers.Fault (faults.Word word) }
{
    Answered {
        read: WasRead::Nothing,
        reply: Reply {
            answer: Answer::Fault(Fault::Word(word)),
            notices: no_notices(alloc),
        },
    }
}

/// That a file can't be read, the first of those of these names. Out of memory is no file's fault.
fn unread_answered<'a>(
    alloc: Global,
    file: &'a str,
    fault: InputFault,
) -> Result<Answered<'a>, AllocError>
    ensures read { IfOk result (λ answered. answered.read ≡ reads.Nothing) }
    ensures answer { IfOk result (λ answered. IsUnreadOf file.now answered.reply.answer) }
    ensures notices { IfOk result (λ answered. answered.reply.notices ≡ no_notices) }
{
    match fault {
        InputFault::Memory => Err(AllocError),
        InputFault::TooBig | InputFault::ReadFailed(_) => Ok(Answered {
            read: WasRead::Nothing,
            reply: Reply {
                answer: Answer::Fault(Fault::Unread(Unread { file, fault })),
                notices: no_notices(alloc),
            },
        }),
    }
}

/// What is answered of a question about the files of these names. A word that can't be what it is
/// asked to be comes before the files, and all of these are read before any is judged.
fn case_answered<'a, F: Folder, R: Threads + Wait + Sync, P: Progress + Looks>(
    rt: &R,
    folder: &mut F,
    alloc: Global,
    names: FileNames<'a>,
    question: Question<'a>,
    progress: &mut P,
) -> Result<Answered<'a>, AllocError>
    ensures right { IfOk result (IsAnswered (F.held folder.old) (F.held folder.new)
        (commands.Case names.entry question.entry)) }
    ensures kept { IsOkAnd result (λ answered. MayChange answered.reply.answer)
        ⊎ (F.held folder.new ≡ F.held folder.old) }
{
    if let Some(word) = bad_word(question) {
        return Ok(bad_word_answered(alloc, word));
    }
    match texts_of(folder, alloc, &names) {
        Ok(texts) => {
            let files = Files { names, texts };
            files_answered(rt, folder, alloc, files, question, progress)
        }
        Err(unread) => unread_answered(alloc, unread.file, unread.fault),
    }
}

/// That the MIG file has the name of an earlier one.
fn same_name_answered<'a>(alloc: Global, file: &'a str) -> Answered<'a>
    ensures read { result.read ≡ reads.Nothing }
    ensures answer { IsSameNameOf file.now result.reply.answer }
    ensures notices { result.reply.notices ≡ no_notices }
{
    Answered {
        read: WasRead::Nothing,
        reply: Reply {
            answer: Answer::Fault(Fault::SameName(file)),
            notices: no_notices(alloc),
        },
    }
}

/// What is answered of MIG files of these bytes.
fn mig_of_texts<'a, F: Folder, T: Ready>(
    folder: &mut F,
    alloc: Global,
    files: &MigFiles<'a>,
    texts: Vec<Vec<u8>>,
    ready: &mut T,
) -> Result<Answered<'a>, AllocError>
    requires held { AreHeld (F.held folder.old) (mig_names files.now)
        (map (λ text. text.items) texts.items) }
    ensures right { IfOk result
        (IsAnswered (F.held folder.old) (F.held folder.new) (commands.Mig files.now)) }
    ensures kept { IsOkAnd result (λ answered. MayChange answered.reply.answer)
        ⊎ (F.held folder.new ≡ F.held folder.old) }
{
    match mig_files(folder, alloc, files, texts.as_slice(), ready) {
        Ok(answer) => Ok(Answered {
            read: WasRead::Defs(texts),
            reply: Reply {
                answer,
                notices: no_notices(alloc),
            },
        }),
        Err(AllocError) => {
            drop(texts);
            Err(AllocError)
        }
    }
}

/// What is answered of MIG files as texts of edition 2. That two have one name is answered whatever
/// they hold.
fn mig_answered<'a, F: Folder, T: Ready>(
    folder: &mut F,
    alloc: Global,
    files: &MigFiles<'a>,
    ready: &mut T,
) -> Result<Answered<'a>, AllocError>
    ensures right { IfOk result
        (IsAnswered (F.held folder.old) (F.held folder.new) (commands.Mig files.now)) }
    ensures kept { IsOkAnd result (λ answered. MayChange answered.reply.answer)
        ⊎ (F.held folder.new ≡ F.held folder.old) }
{
    if let Some(file) = same_name(files.defs.as_slice()) {
        return Ok(same_name_answered(alloc, file));
    }
    match bytes_of_all(folder, alloc, files.defs.as_slice()) {
        Ok(texts) => mig_of_texts(folder, alloc, files, texts, ready),
        Err(unread) => unread_answered(alloc, unread.file, unread.fault),
    }
}

/// What is answered of a message over MIG files of these bytes.
fn message_of_texts<'a>(
    alloc: Global,
    asked: MessageText<'a>,
    defs: Vec<Vec<u8>>,
) -> Result<Answered<'a>, AllocError>
    ensures read { IfOk result (λ answered. HasReadDefs
        (map (λ text. text.items) defs.items) answered.read) }
    ensures right { IfOk result (λ answered.
        IsTurned (map (λ text. text.items) defs.items) answered.reply.answer) }
    ensures notices { IfOk result (λ answered. answered.reply.notices ≡ no_notices) }
{
    let MessageText {
        turning,
        text,
        defs: names,
    } = asked;
    let answer = turned(alloc, turning, text, defs.as_slice())?;
    let files = Files {
        names: FileNames {
            defs: names,
            wiring: "",
            policy: None,
            waives: false,
            certificate: None,
            script: None,
        },
        texts: Texts {
            defs,
            wiring: Vec::new(alloc),
            policy: None,
            waives: false,
            certificate: None,
            script: None,
        },
    };
    Ok(Answered {
        read: WasRead::Texts(files),
        reply: Reply {
            answer,
            notices: no_notices(alloc),
        },
    })
}

/// What is answered of a message that is turned.
fn message_answered<'a, F: Folder>(
    folder: &F,
    alloc: Global,
    asked: MessageText<'a>,
) -> Result<Answered<'a>, AllocError>
    ensures right { IfOk result (IsAnswered (F.held folder.now) (F.held folder.now)
        (commands.Message asked.entry)) }
{
    match bytes_of_all(folder, alloc, asked.defs.as_slice()) {
        Ok(defs) => message_of_texts(alloc, asked, defs),
        Err(unread) => unread_answered(alloc, unread.file, unread.fault),
    }
}

/// What is answered of a command, over the files of a folder. Only a certificate that is made, or
/// MIG files of a `mig` are written there. Before MIG files are written, what depends on it is
/// made ready. Out of memory changes no file.
pub fn answer<'a, F: Folder, R: Threads + Wait + Sync, P: Progress + Looks, T: Ready>(
    rt: &R,
    folder: &mut F,
    alloc: Global,
    command: Command<'a>,
    progress: &mut P,
    ready: &mut T,
) -> Result<Answered<'a>, AllocError>
    // The answer and what is told besides are right of the command, and of what the files held that
    // it names, so far as that is known.
    ensures right { IfOk result
        (IsAnswered (F.held folder.old) (F.held folder.new) command.entry) }
    // A file changes only if a certificate is made, or not taken whole by its file, or if it is
    // answered what became of MIG files.
    ensures kept { IsOkAnd result (λ answered. MayChange answered.reply.answer)
        ⊎ (F.held folder.new ≡ F.held folder.old) }
{
    match command {
        Command::Case(names, question) => {
            case_answered(rt, folder, alloc, names, question, progress)
        }
        Command::Mig(files) => mig_answered(folder, alloc, &files, ready),
        Command::Message(asked) => message_answered(folder, alloc, asked),
    }
}
