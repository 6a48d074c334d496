//! Policies.

ghost use Rattle.std.specs.Prelude.{◌≡◌, ◌≢◌, List, map, Some, IfOk, Ok, Err};
ghost use Rattle.std.specs.Str.{IsUtf8};
ghost use Rattle.mrc_wiring_text.specs.declared.reading.Line.{Line};
ghost use Rattle.mrc_wiring_text.specs.declared.policy.Forbid.{Forbid};
ghost use Rattle.mrc_base.specs.Reading.{Gives};
ghost use Rattle.mrc_wiring_text.specs.Texts.{IsPolicy};
ghost use Rattle.mrc_wiring_text.specs.Policy.{right_of, class_of, forbid_line, policy_says};
ghost use Rattle.mrc_wiring_text.specs.Policy.{births_of, plain_class, births_with_kind, policy_of};

use crate::faults::TextFault;
use crate::kinds::{Kind, kind_of};
use crate::lexis::is_word;
use crate::names::Name;
use crate::reading::{Edition, Line, Statement, TextKind, text_of};
use mrc_base::{OrMemory, PortRight};
use std::alloc::{AllocError, Global};

/// A class of ports, by the names of a wiring.
#[derive(Debug, Drop)]
pub enum ClassName {
    /// `port P`: the wired port P.
    Port(Name),
    /// `task U`: the kernel port of U.
    Task(Name),
    /// `births U K`: the ports of kind K that U's space, or that of a task that is made like U, is
    /// the first to hold. `births U` are those of kind 0.
    Births {
        /// U.
        task: Name,
        /// K.
        kind: Kind,
    },
}

/// What a line of a policy says, `forbid T RIGHT CLASS`: neither T nor a task that it counts as
/// must ever hold the right on a port of the class.
#[derive(Debug, Drop)]
pub struct Forbid {
    /// T.
    pub task: Name,
    /// The right.
    pub right: PortRight,
    /// The class of ports.
    pub class: ClassName,
}

/// A line of a policy that says something.
pub type PolicyLine = Line<Forbid>;

/// The right that a word names: `send`, `receive` or `once`; `None` where it names none.
#[tactic(auto, unfolding(crate::specs::Policy::right_of))]
pub fn right_of(word: &[u8]) -> Option<PortRight>
    ensures { result ≡ right_of word.now }
{
    if is_word(word, "send") {
        Some(PortRight::Send)
    } else if is_word(word, "receive") {
        Some(PortRight::Receive)
    } else if is_word(word, "once") {
        Some(PortRight::SendOnce)
    } else {
        None
    }
}

fn births_of(task: Option<Name>, kind: Option<Kind>) -> Option<ClassName>
    ensures { result ≡ births_of task kind }
{
    match (task, kind) {
        (Some(task), Some(kind)) => Some(ClassName::Births { task, kind }),
        _ => None,
    }
}

/// The class that two words name.
#[tactic(auto, unfolding(crate::specs::Policy::plain_class))]
fn plain_class(alloc: Global, key: &[u8], name: &[u8]) -> Result<Option<ClassName>, AllocError>
    ensures { IfOk result (λ class. class ≡ plain_class key.now name.now) }
{
    if is_word(key, "port") {
        Ok(Name::new(alloc, name)?.map(|name| ClassName::Port(name)))
    } else if is_word(key, "task") {
        Ok(Name::new(alloc, name)?.map(|name| ClassName::Task(name)))
    } else if is_word(key, "births") {
        Ok(births_of(Name::new(alloc, name)?, Kind::new(0)))
    } else {
        Ok(None)
    }
}

/// The class that three words name.
#[tactic(auto, unfolding(crate::specs::Policy::births_with_kind))]
fn births_with_kind(
    alloc: Global,
    key: &[u8],
    name: &[u8],
    kind: &[u8],
) -> Result<Option<ClassName>, AllocError>
    ensures { IfOk result (λ class. class ≡ births_with_kind key.now name.now kind.now) }
{
    if is_word(key, "births") {
        Ok(births_of(Name::new(alloc, name)?, kind_of(kind)))
    } else {
        Ok(None)
    }
}

/// The class that words name.
#[tactic(auto, unfolding(crate::specs::Policy::class_of))]
pub(crate) fn class_of(
    alloc: Global,
    edition: Edition,
    words: &[&[u8]],
) -> Result<Option<ClassName>, AllocError>
    ensures { IfOk result (λ class. class ≡ class_of edition (map (λ word. word.now) words.now)) }
{
    match *words {
        [key, name] => plain_class(alloc, key, name),
        [key, name, kind] => match edition {
            Edition::First => Ok(None),
            Edition::Second | Edition::Third => births_with_kind(alloc, key, name, kind),
        },
        _ => Ok(None),
    }
}

fn forbid_line(
    task: Option<Name>,
    right: Option<PortRight>,
    class: Option<ClassName>,
) -> Option<Forbid>
    ensures { result ≡ forbid_line task right class }
{
    match (task, right, class) {
        (Some(task), Some(right), Some(class)) => Some(Forbid { task, right, class }),
        _ => None,
    }
}

impl Statement for Forbid {
    ghost meaning = { policy_says };

    #[tactic(auto, unfolding(crate::specs::Policy::policy_says))]
    fn read(
        alloc: Global,
        edition: Edition,
        words: &[&[u8]],
    ) -> Result<Option<Forbid>, AllocError> {
        match words {
            [key, task, right, class @ ..] if is_word(key, "forbid") => {
                let task = Name::new(alloc, task)?;
                let class = class_of(alloc, edition, class)?;
                Ok(forbid_line(task, right_of(right), class))
            }
            _ => Ok(None),
        }
    }
}

fn policy_of(alloc: Global, bytes: &[u8]) -> Result<Vec<PolicyLine>, OrMemory<TextFault>>
    ensures fault { Gives (λ lines. lines.items) result (policy_of bytes.now) }
    ensures no_text { ¬ (IsUtf8 bytes.now) → result ≡ Err (OrMemory.Fault TextFault.NotUtf8) }
{
    text_of(alloc, TextKind::Policy, bytes)
}

/// Reads a policy: its lines that say something, in order, or the first fault.
pub fn read_policy(alloc: Global, bytes: &[u8]) -> Result<Vec<PolicyLine>, OrMemory<TextFault>>
    // What is read is said by a text of this grammar.
    ensures found { IfOk result (λ lines. IsPolicy bytes.now lines.items) }
    // What a text of this grammar says is read, unless memory runs out.
    ensures only { (says : List (Line Forbid)) → IsPolicy bytes.now says →
        Gives (λ lines. lines.items) result (Ok says) }
    // `NotUtf8` is told of bytes that are no text, and of no others.
    ensures no_text { ¬ (IsUtf8 bytes.now) → result ≡ Err (OrMemory.Fault TextFault.NotUtf8) }
    ensures text { IsUtf8 bytes.now → result ≢ Err (OrMemory.Fault TextFault.NotUtf8) }
    // Which fault it is: the first.
    ensures fault { Gives (λ lines. lines.items) result (policy_of bytes.now) }
{
    policy_of(alloc, bytes)
}
