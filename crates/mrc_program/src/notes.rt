//! Sentences that help with a word of an option, with a certificate, or with a file that is to be
//! written.

use mrc_answer::WordFault;
use mrc_base::{ClassId, TaskId};
use mrc_certificate::DraftFault;
use mrc_command::Question;
use mrc_message_words::WordsFaultKind;
use mrc_place::{did_you_mean, listed, nearest, one_note};
use mrc_wiring::Wired;
use mrc_words::{class_word, right_named};
use std::alloc::{AllocError, Global};

/// The sentence about a MIG file that has the name of an earlier one.
pub(crate) const SAME_NAME: &str = "an earlier file has this name: write them into two folders";

/// The sentence about a file that took no byte.
pub(crate) const UNWRITTEN: &str =
    "its folder is missing or takes no new file, or it may not be written to, or is a folder";

/// The sentence about a message in words.
pub(crate) fn words_note(kind: WordsFaultKind) -> &'static str {
    match kind {
        WordsFaultKind::NotWords => {
            "expected: { I.R to NAME reply NAME ARGUMENT=VALUE .. } or { reply I.R to NAME .. }"
        }
        WordsFaultKind::UnknownMessage => "no MIG file has this message",
        WordsFaultKind::UnknownArgument => "the message has no argument of this name",
        WordsFaultKind::SaidTwice => "the argument is said in front of this",
        WordsFaultKind::NotAValue => "this is no value of the argument",
        WordsFaultKind::Missing(_) => "an argument of the message is not said",
        WordsFaultKind::TooLong => "a message has at most 8,192 bytes",
    }
}

/// What a word of a fact is the name of.
#[derive(Clone, Copy)]
enum Part {
    /// A task.
    Task,
    /// A class.
    Class,
    /// A right.
    Right,
}

/// The sentence about a word that can't be what it is asked to be, if it is the same for all files.
pub(crate) fn note_of(fault: WordFault) -> Option<&'static str> {
    match fault {
        WordFault::BadLine => Some("expected: a number from 1 to 4294967295"),
        WordFault::NotBroken => Some("verify without --line prints the lines that are broken"),
        WordFault::BadMost => Some("expected: a number from 1 to 1000000"),
        WordFault::Workers => Some("expected: a number from 1 to 64"),
        WordFault::BadFact | WordFault::BadTask | WordFault::BadClass | WordFault::BadRight => None,
    }
}

/// The sentence about a certificate that has this fault.
pub(crate) fn draft_note(fault: DraftFault) -> &'static str {
    match fault {
        DraftFault::Magic => "a certificate begins with the bytes MRCC: make writes one",
        DraftFault::Version => {
            "the version is 1, or 2 with more classes of births than tasks: make it again"
        }
        DraftFault::Truncated => "the bytes end before the last fact that the header counts",
        DraftFault::BadFact(_) => {
            "no fact begins at this byte: its kind, task, class or right is out of range"
        }
        DraftFault::NotAscending(_) => "the fact at this byte is not above the one before it",
        DraftFault::Trailing => "there are bytes behind the last fact that the header counts",
    }
}

/// The nearest of the known names, or else the first of them.
fn known_note(
    alloc: Global,
    word: &str,
    heading: &str,
    known: &[&str],
) -> Result<String, AllocError> {
    match nearest(alloc, word, known)? {
        Some(near) => did_you_mean(alloc, near),
        None => {
            let list = listed(alloc, known)?;
            format!(in alloc; "{heading}{list}")
        }
    }
}

/// The names of the tasks.
fn task_names<'a>(alloc: Global, wired: &'a Wired) -> Result<Vec<&'a str>, AllocError> {
    let mut names = Vec::new(alloc);
    for task in 0..wired.tasks() {
        if let Some(name) = wired.task_name(TaskId(u32::from(task))) {
            names.push(name)?;
        }
    }
    Ok(names)
}

/// A sentence about a word, and then about the known names, if there are any.
fn names_notes(
    alloc: Global,
    note: &str,
    word: &str,
    heading: &str,
    known: &[&str],
) -> Result<Vec<String>, AllocError> {
    let mut notes = one_note(alloc, note)?;
    if !known.is_empty() {
        notes.push(known_note(alloc, word, heading, known)?)?;
    }
    Ok(notes)
}

/// That no task has the name.
fn task_notes(alloc: Global, wired: &Wired, word: &str) -> Result<Vec<String>, AllocError> {
    let names = task_names(alloc, wired)?;
    names_notes(
        alloc,
        "the wiring has no task of this name",
        word,
        "tasks of the wiring: ",
        names.as_slice(),
    )
}

/// The classes as they are printed.
fn class_words(alloc: Global, wired: &Wired) -> Result<Vec<String>, AllocError> {
    let mut words = Vec::new(alloc);
    for class in 0..wired.classes() {
        words.push(class_word(alloc, wired, ClassId(class))?)?;
    }
    Ok(words)
}

/// The same texts, lent.
fn lent(alloc: Global, texts: &[String]) -> Result<Vec<&str>, AllocError> {
    let mut words = Vec::new(alloc);
    for text in texts {
        words.push(text.as_str())?;
    }
    Ok(words)
}

/// That no class is printed so.
fn class_notes(alloc: Global, wired: &Wired, word: &str) -> Result<Vec<String>, AllocError> {
    let classes = class_words(alloc, wired)?;
    let names = lent(alloc, classes.as_slice())?;
    names_notes(
        alloc,
        "the wiring has no class of this name",
        word,
        "classes of the wiring: ",
        names.as_slice(),
    )
}

/// What is said of a word that names no such part of a fact.
fn part_notes(
    alloc: Global,
    wired: &Wired,
    part: Part,
    word: &str,
) -> Result<Vec<String>, AllocError> {
    match part {
        Part::Task => task_notes(alloc, wired, word),
        Part::Class => class_notes(alloc, wired, word),
        Part::Right => one_note(alloc, "expected: send, receive or once"),
    }
}

/// Whether a word names such a part of a fact.
fn is_part(wired: &Wired, part: Part, word: &str) -> bool {
    match part {
        Part::Task => wired.task_named(word).is_some(),
        Part::Class => wired.class_named(word).is_some(),
        Part::Right => right_named(word).is_some(),
    }
}

/// The parts of a fact of this kind: none, if there is no such kind.
fn parts_of(kind: &str) -> &'static [Part] {
    match kind {
        "hold" => &[Part::Task, Part::Class, Part::Right],
        "carry" => &[Part::Class, Part::Class, Part::Right],
        "backup" => &[Part::Class, Part::Class],
        _ => &[],
    }
}

/// The first of the words that does not name its part.
fn first_wrong<'a>(wired: &Wired, parts: &[Part], words: &[&'a str]) -> Option<(Part, &'a str)> {
    for (part, word) in parts.iter().zip(words) {
        if !is_part(wired, *part, word) {
            return Some((*part, *word));
        }
    }
    None
}

/// The first word of a fact that does not name its part. None, if the words are not so many, or the
/// first is no kind of fact.
fn wrong_part<'a>(wired: &Wired, words: &[&'a str]) -> Option<(Part, &'a str)> {
    let [kind, rest @ ..] = words else {
        return None;
    };
    let parts = parts_of(kind);
    if parts.len() != rest.len() {
        return None;
    }
    first_wrong(wired, parts, rest)
}

/// What is said of the words of a fact that the wiring does not have.
fn words_notes(alloc: Global, wired: &Wired, words: &[&str]) -> Result<Vec<String>, AllocError> {
    match wrong_part(wired, words) {
        Some((part, word)) => part_notes(alloc, wired, part, word),
        None => one_note(
            alloc,
            "expected: hold TASK CLASS RIGHT, carry CLASS CLASS RIGHT or backup CLASS CLASS",
        ),
    }
}

/// The same of its text.
fn fact_notes(alloc: Global, wired: &Wired, text: &str) -> Result<Vec<String>, AllocError> {
    let words: Vec<&str> = text.split(' ').collect(alloc)?;
    words_notes(alloc, wired, words.as_slice())
}

/// The task that a question names by an option.
fn task_of(question: Question<'_>) -> &str {
    match question {
        Question::Facts { task, .. } | Question::Graph { task, .. } => task.unwrap_or(""),
        _ => "",
    }
}

/// The class.
fn class_of(question: Question<'_>) -> &str {
    match question {
        Question::Facts { class, .. } => class.unwrap_or(""),
        _ => "",
    }
}

/// The fact.
fn fact_of(question: Question<'_>) -> &str {
    match question {
        Question::Explain { fact, .. } => fact,
        Question::Graph { fact, .. } => fact.unwrap_or(""),
        _ => "",
    }
}

/// What is said of the word of an option that names nothing of the wiring.
pub(crate) fn name_notes(
    alloc: Global,
    wired: &Wired,
    question: Question<'_>,
    fault: WordFault,
) -> Result<Vec<String>, AllocError> {
    match fault {
        WordFault::BadTask => task_notes(alloc, wired, task_of(question)),
        WordFault::BadClass => class_notes(alloc, wired, class_of(question)),
        WordFault::BadRight => part_notes(alloc, wired, Part::Right, ""),
        WordFault::BadFact => fact_notes(alloc, wired, fact_of(question)),
        WordFault::BadLine | WordFault::NotBroken | WordFault::BadMost | WordFault::Workers => {
            Ok(Vec::new(alloc))
        }
    }
}
