//! Changes of a wiring's text.

ghost use Rattle.std.specs.Prelude.{◌≡◌, ◌++◌, [], ◌∷◌, IfOk, OnOk, map, flat_map, string_bytes};
ghost use Rattle.mrc_wiring_text.specs.Lexis.{lines};
ghost use Rattle.mrc_mend.specs.Mending as definitions;
ghost use Rattle.mrc_mend.specs.Mending.{behind_task, class_words, type_word, admit_line};
ghost use Rattle.mrc_mend.specs.Mending.{class_line, admit_lines, verb_word, trust_line};
ghost use Rattle.mrc_mend.specs.Mending.{added_lines, ended, changed_line, line_left, lines_left};

use mrc_model::Verb;
use mrc_wiring::{ClassKind, kind_word};
use mrc_wiring_text::first_line;
use std::alloc::{AllocError, Global};

/// A class of ports by its kind and the name of its port or task.
#[derive(Clone, Debug, Drop, PartialEq, Eq)]
pub struct NamedClass {
    /// Which kind of class it is.
    pub kind: ClassKind,
    /// The name of the wired port, or of the task.
    pub name: String,
}

/// A line whose class is to accept less.
#[derive(Clone, Debug, Drop)]
pub struct Narrowing {
    /// The number of the line, counted from 1.
    pub number: u32,
    /// The line as it then stands.
    pub text: String,
    /// The items that its class accepts no more, in the words of the line.
    pub dropped: Vec<String>,
}

/// A type of port arguments, and the classes that its slots are to admit.
#[derive(Clone, Debug, Drop)]
pub struct Restriction {
    /// The subsystem.
    pub subsystem: String,
    /// The type, one of the subsystem.
    pub type_name: String,
    /// The classes; none where it is to admit nothing.
    pub classes: Vec<NamedClass>,
}

/// A task, and what it is to do with no right.
#[derive(Clone, Debug, Drop)]
pub struct Limitation {
    /// The task.
    pub task: String,
    /// What it does: takes, gives, sends, or names reply ports.
    pub verb: Verb,
}

/// A change of a wiring's text.
#[derive(Clone, Debug, Drop)]
pub enum Change {
    /// The line of this number, counted from 1, is left out.
    Remove(u32),
    /// Items are left out of what the class of a line accepts.
    Narrow(Narrowing),
    /// Lines are added that restrict a type.
    Restrict(Restriction),
    /// A line is added that trusts a task to do something with no right.
    Limit(Limitation),
}

/// The word of a kind of births, behind the name of their task.
fn behind_task(alloc: Global, kind: u8) -> Result<String, AllocError>
    ensures { IfOk result (λ text. string_bytes text ≡ behind_task kind) }
{
    if kind == 0 {
        return Ok(String::new(alloc));
    }
    let word = kind_word(kind);
    format!(in alloc; " {word}")
}

/// A class in the words of a wiring.
fn class_words(alloc: Global, class: &NamedClass) -> Result<String, AllocError>
    ensures { IfOk result (λ text. string_bytes text ≡ class_words class.now) }
{
    let name = class.name.as_str();
    match class.kind {
        ClassKind::Port => format!(in alloc; "port {name}"),
        ClassKind::Task => format!(in alloc; "task {name}"),
        ClassKind::Births(kind) => {
            let behind = behind_task(alloc, kind)?;
            format!(in alloc; "births {name}{behind}")
        }
    }
}

/// A type in the words of a wiring.
pub(crate) fn type_word(alloc: Global, restriction: &Restriction) -> Result<String, AllocError>
    ensures { IfOk result (λ text. string_bytes text ≡ type_word restriction.now) }
{
    let subsystem = restriction.subsystem.as_str();
    let type_name = restriction.type_name.as_str();
    format!(in alloc; "{subsystem}.{type_name}")
}

/// A line that states of the type what it admits.
pub fn admit_line(
    alloc: Global,
    restriction: &Restriction,
    admitted: &str,
) -> Result<String, AllocError>
    ensures { IfOk result (λ text. string_bytes text
        ≡ admit_line restriction.now admitted.now) }
{
    let restricted = type_word(alloc, restriction)?;
    format!(in alloc; "admit {restricted} {admitted}")
}

/// A line that states of the type that it admits the class.
pub fn class_line(
    alloc: Global,
    restriction: &Restriction,
    class: &NamedClass,
) -> Result<String, AllocError>
    ensures { IfOk result (λ text. string_bytes text ≡ class_line restriction.now class.now) }
{
    let words = class_words(alloc, class)?;
    admit_line(alloc, restriction, words.as_str())
}

/// Adds a line for each class that a type is to admit.
fn add_class_lines(
    alloc: Global,
    added: &mut Vec<String>,
    restriction: &Restriction,
) -> Result<(), AllocError>
    ensures { OnOk result (map string_bytes added.new.items ≡ map string_bytes added.old.items
        ++ map (class_line restriction.now) restriction.now.classes.items) }
{
    for class in &restriction.classes {
        added.push(class_line(alloc, restriction, class)?)?;
    }
    Ok(())
}

/// The lines that restrict a type.
pub(crate) fn admit_lines(
    alloc: Global,
    restriction: &Restriction,
) -> Result<Vec<String>, AllocError>
    ensures { IfOk result (λ lines. map string_bytes lines.items
        ≡ admit_lines restriction.now restriction.now.classes.items) }
{
    let mut lines = Vec::new(alloc);
    if restriction.classes.is_empty() {
        lines.push(admit_line(alloc, restriction, "none")?)?;
        return Ok(lines);
    }
    add_class_lines(alloc, &mut lines, restriction)?;
    Ok(lines)
}

/// The word of a verb.
fn verb_word(verb: Verb) -> &'static str
    ensures { result.now ≡ verb_word verb }
{
    match verb {
        Verb::Takes => "takes",
        Verb::Gives => "gives",
        Verb::Sends => "sends",
        Verb::Replies => "replies",
    }
}

/// A line that trusts a task to do something with no right.
pub fn trust_line(alloc: Global, limitation: &Limitation) -> Result<String, AllocError>
    ensures { IfOk result (λ text. string_bytes text ≡ trust_line limitation.now) }
{
    let task = limitation.task.as_str();
    let verb = verb_word(limitation.verb);
    format!(in alloc; "trust {task} {verb} none")
}

/// The one line that trusts a task.
fn trust_lines(alloc: Global, limitation: &Limitation) -> Result<Vec<String>, AllocError>
    ensures { IfOk result (λ lines. map string_bytes lines.items
        ≡ trust_line limitation.now ∷ []) }
{
    let mut lines = Vec::new(alloc);
    lines.push(trust_line(alloc, limitation)?)?;
    Ok(lines)
}

/// The lines that a change adds.
pub(crate) fn added_lines(alloc: Global, change: &Change) -> Result<Vec<String>, AllocError>
    ensures { IfOk result (λ added. map string_bytes added.items ≡ added_lines change.now) }
{
    match change {
        Change::Remove(_) | Change::Narrow(_) => Ok(Vec::new(alloc)),
        Change::Restrict(restriction) => admit_lines(alloc, restriction),
        Change::Limit(limitation) => trust_lines(alloc, limitation),
    }
}

/// What a change leaves of the line of this number: nothing if it leaves the line out, and the new
/// text if it narrows the line.
fn changed_line<'a>(number: usize, line: &'a [u8], change: &'a Change) -> &'a [u8]
    ensures { result.now ≡ changed_line number line.now change.now }
{
    match change {
        Change::Remove(known) => { if *known as usize == number { &[] } else { line } }
        Change::Narrow(narrowing) => {
            if narrowing.number as usize == number {
                narrowing.text.as_bytes()
            } else {
                line
            }
        }
        Change::Restrict(_) | Change::Limit(_) => line,
    }
}

/// What changes leave of the line of this number.
fn line_left<'a>(changes: &'a [Change], number: usize, line: &'a [u8]) -> &'a [u8]
    ensures { result.now ≡ line_left changes.now number line.now }
{
    let mut left = line;
    for change in changes {
        left = changed_line(number, left, change);
    }
    left
}

/// Adds a line with its end.
fn add_line(text: &mut Vec<u8>, line: &[u8]) -> Result<(), AllocError>
    ensures { OnOk result (text.new.items ≡ text.old.items ++ ended line.now) }
{
    text.extend_from_slice(line)?;
    text.extend_from_slice(b"\n")?;
    Ok(())
}

/// What changes leave of the lines of a text.
fn lines_left(alloc: Global, wiring: &[u8], changes: &[Change]) -> Result<Vec<u8>, AllocError>
    ensures { IfOk result (λ text. text.items ≡ lines_left changes.now 1 (lines wiring.now)) }
{
    let mut text = Vec::new(alloc);
    let mut rest = wiring;
    let mut before = 0usize;
    while !rest.is_empty() {
        let (line, after) = first_line(rest);
        add_line(&mut text, line_left(changes, before + 1, line))?;
        before += 1;
        rest = after;
    }
    Ok(text)
}

/// Adds the lines that a change adds.
fn add_lines(alloc: Global, text: &mut Vec<u8>, change: &Change) -> Result<(), AllocError>
    ensures { OnOk result (text.new.items ≡ text.old.items
        ++ flat_map ended (added_lines change.now)) }
{
    for line in &added_lines(alloc, change)? {
        add_line(text, line.as_bytes())?;
    }
    Ok(())
}

/// The text of a wiring with the changes, as they are printed: the lines that are left out are
/// blank, so that the others keep their numbers, those that are narrowed have their new text, and
/// the lines that are added stand behind the last.
pub fn mended(alloc: Global, wiring: &[u8], changes: &[Change]) -> Result<Vec<u8>, AllocError>
    ensures { IfOk result (λ text. text.items ≡ definitions.mended wiring.now changes.now) }
{
    let mut text = lines_left(alloc, wiring, changes)?;
    for change in changes {
        add_lines(alloc, &mut text, change)?;
    }
    Ok(text)
}
