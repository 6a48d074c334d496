//! What helps with a fault: the hint, and what is printed of it behind the line of the fault.

use crate::hints::hint_text;
use crate::notes::{SAME_NAME, UNWRITTEN, name_notes, note_of, words_note};
use crate::places::hint_of;
use mrc_answer::{
    Answer, Answered, Fault, MessageFault, NoMigText, Texts, Unwritten, WasRead, WordFault,
};
use mrc_base::OrMemory;
use mrc_check::{CaseFault, System};
use mrc_command::Question;
use mrc_files::{InputFault, Unread, WriteFault};
use mrc_hints::second_mig_hint;
use mrc_message_words::{Place, WordsFault};
use mrc_place::{Hint, byte_spot, one_note};
use mrc_print::{Asked, file_of, unwritten_of};
use std::alloc::{AllocError, Global};

/// What helps with a fault.
#[derive(Drop)]
pub(crate) struct Help {
    /// What is printed of the hint behind the line of the fault.
    pub(crate) text: String,
    /// Where the fault is, and sentences that help to mend it.
    pub(crate) hint: Hint,
}

/// How it is helped with a fault.
#[derive(Clone, Copy)]
pub(crate) struct Helping<'a> {
    /// The names of the MIG files of a `mig`, in their order.
    pub(crate) defs: &'a [&'a str],
    /// Whether what helps with a fault is wanted: it is shown, or the answer is for programs.
    pub(crate) wanted: bool,
    /// Whether it is shown.
    pub(crate) shows: bool,
}

/// Nothing.
fn no_help(alloc: Global) -> Help {
    Help {
        text: String::new(alloc),
        hint: Hint::none(alloc),
    }
}

/// A hint of a file, with its text.
fn help_of(alloc: Global, file: &str, hint: Hint) -> Result<Help, AllocError> {
    let text = hint_text(alloc, file, &hint)?;
    Ok(Help { text, hint })
}

/// Sentences, and no place.
fn noted(alloc: Global, notes: Vec<String>) -> Result<Help, AllocError> {
    help_of(alloc, "", Hint::of_notes(notes))
}

/// One sentence.
fn one_noted(alloc: Global, note: &str) -> Result<Help, AllocError> {
    let notes = one_note(alloc, note)?;
    noted(alloc, notes)
}

/// What helps with a file that can't be read: what the system says of it.
fn unread_help(alloc: Global, unread: &Unread<'_>) -> Result<Help, AllocError> {
    match unread.fault {
        InputFault::ReadFailed(failure) => {
            let note = failure.to_string(alloc)?;
            one_noted(alloc, note.as_str())
        }
        InputFault::TooBig | InputFault::Memory => Ok(no_help(alloc)),
    }
}

/// What helps with the fault of a text without a meaning.
fn meaning_help(
    alloc: Global,
    asked: Asked<'_>,
    read: &WasRead<'_>,
    fault: &CaseFault,
) -> Result<Help, AllocError> {
    let WasRead::Texts(files) = read else {
        return Ok(no_help(alloc));
    };
    let live = matches!(asked, Asked::Case(Question::Live { .. }));
    match hint_of(alloc, files, live, fault)? {
        Some(hint) => help_of(alloc, file_of(read, fault), hint),
        None => Ok(no_help(alloc)),
    }
}

/// What is said of a word that names nothing of the wiring that texts mean.
fn notes_of_name(
    alloc: Global,
    texts: &Texts,
    question: Question<'_>,
    fault: WordFault,
) -> Result<Vec<String>, AllocError> {
    match System::read(alloc, texts.defs.as_slice(), texts.wiring.as_slice()) {
        Ok(system) => {
            let notes = name_notes(alloc, &system.wired, question, fault);
            drop(system);
            notes
        }
        Err(_) => Err(AllocError),
    }
}

/// What helps with a word that names nothing of the wiring.
fn name_help(
    alloc: Global,
    asked: Asked<'_>,
    read: &WasRead<'_>,
    fault: WordFault,
) -> Result<Help, AllocError> {
    match (asked, read) {
        (Asked::Case(question), WasRead::Texts(files)) => {
            let notes = notes_of_name(alloc, &files.texts, question, fault)?;
            noted(alloc, notes)
        }
        _ => Ok(no_help(alloc)),
    }
}

/// What helps with a word that can't be what it is asked to be.
fn word_help(
    alloc: Global,
    asked: Asked<'_>,
    read: &WasRead<'_>,
    fault: WordFault,
) -> Result<Help, AllocError> {
    match note_of(fault) {
        Some(note) => one_noted(alloc, note),
        None => name_help(alloc, asked, read, fault),
    }
}

/// What helps with a file that did not take all its bytes: a sentence, if it took none.
fn unwritten_help(alloc: Global, unwritten: &Unwritten) -> Result<Help, AllocError> {
    match unwritten.refusal {
        OrMemory::Fault(WriteFault { written: 0 }) => one_noted(alloc, UNWRITTEN),
        OrMemory::Fault(_) | OrMemory::Memory => Ok(no_help(alloc)),
    }
}

/// What helps with a MIG file that is none as a text of edition 2, by its bytes.
fn mig_text_help(alloc: Global, no_text: &NoMigText<'_>, bytes: &[u8]) -> Result<Help, AllocError> {
    let hint = second_mig_hint(alloc, bytes, &no_text.fault)?;
    help_of(alloc, no_text.file, hint)
}

/// The same of files with these names and these bytes.
fn no_text_help(
    alloc: Global,
    defs: &[&str],
    texts: &[Vec<u8>],
    no_text: &NoMigText<'_>,
) -> Result<Help, AllocError> {
    for (file, text) in defs.iter().zip(texts) {
        if *file == no_text.file {
            return mig_text_help(alloc, no_text, text.as_slice());
        }
    }
    Ok(no_help(alloc))
}

/// The same of what was read.
fn defs_help(
    alloc: Global,
    defs: &[&str],
    read: &WasRead<'_>,
    no_text: &NoMigText<'_>,
) -> Result<Help, AllocError> {
    match read {
        WasRead::Defs(texts) => no_text_help(alloc, defs, texts.as_slice(), no_text),
        WasRead::Nothing | WasRead::Texts(_) => Ok(no_help(alloc)),
    }
}

/// What helps with a message in words: the word at fault, and a sentence.
fn words_help(alloc: Global, text: &str, fault: WordsFault) -> Result<Help, AllocError> {
    let Place { first, len } = fault.place;
    let spot = byte_spot(alloc, text, first, first.saturating_add(len))?;
    let notes = one_note(alloc, words_note(fault.kind))?;
    help_of(
        alloc,
        "--message",
        Hint {
            spot: Some(spot),
            notes,
        },
    )
}

/// What helps with a message that can't be turned.
fn message_help(alloc: Global, asked: Asked<'_>, fault: MessageFault) -> Result<Help, AllocError> {
    match (asked, fault) {
        (Asked::Message(_, text), MessageFault::Words(fault)) => words_help(alloc, text, fault),
        (_, MessageFault::NoWords) => {
            one_noted(
                alloc,
                "no MIG file has a message of this id and of such arguments",
            )
        }
        _ => Ok(no_help(alloc)),
    }
}

/// What helps with a fault.
fn fault_help(
    alloc: Global,
    asked: Asked<'_>,
    defs: &[&str],
    read: &WasRead<'_>,
    fault: &Fault<'_>,
) -> Result<Help, AllocError> {
    match fault {
        Fault::Unread(unread) => unread_help(alloc, unread),
        Fault::Meaning(fault) => meaning_help(alloc, asked, read, fault),
        Fault::Word(fault) => word_help(alloc, asked, read, *fault),
        Fault::NoMigText(no_text) => defs_help(alloc, defs, read, no_text),
        Fault::Message(fault) => message_help(alloc, asked, *fault),
        Fault::SameName(_) => one_noted(alloc, SAME_NAME),
        Fault::Unwritten(_) | Fault::Unserved(_) => Ok(no_help(alloc)),
    }
}

/// What helps with an answer: nothing, if it has no fault.
fn answer_help(
    alloc: Global,
    asked: Asked<'_>,
    defs: &[&str],
    answered: &Answered<'_>,
) -> Result<Help, AllocError> {
    if let Some(unwritten) = unwritten_of(&answered.reply.answer) {
        return unwritten_help(alloc, unwritten);
    }
    match &answered.reply.answer {
        Answer::Fault(fault) => fault_help(alloc, asked, defs, &answered.read, fault),
        _ => Ok(no_help(alloc)),
    }
}

/// What helps with an answer, if that is wanted. If memory runs out for it, it is nothing.
pub(crate) fn help_behind(
    alloc: Global,
    asked: Asked<'_>,
    helping: Helping<'_>,
    answered: &Answered<'_>,
) -> Help {
    if !helping.wanted {
        return no_help(alloc);
    }
    match answer_help(alloc, asked, helping.defs, answered) {
        Ok(help) => help,
        Err(AllocError) => no_help(alloc),
    }
}
