//! Wirings.

ghost use Rattle.std.specs.Prelude.{◌≡◌, ◌≢◌, List, map, Some, IfOk, Ok, Err};
ghost use Rattle.std.specs.Str.{IsUtf8};
ghost use Rattle.mrc_wiring_text.specs.declared.reading.Line.{Line};
ghost use Rattle.mrc_wiring_text.specs.declared.wiring.WiringSays.{WiringSays};
ghost use Rattle.mrc_base.specs.Reading.{Gives};
ghost use Rattle.mrc_wiring_text.specs.Texts.{IsWiring};
ghost use Rattle.mrc_wiring_text.specs.Wiring.{task_line, port_named, port_line, births_named};
ghost use Rattle.mrc_wiring_text.specs.Wiring.{plain_births, kind_births, births_line, held_right};
ghost use Rattle.mrc_wiring_text.specs.Wiring.{hold_port_named, held};
ghost use Rattle.mrc_wiring_text.specs.Wiring.{hold_task_named, hold_line, admitted, admit_named};
ghost use Rattle.mrc_wiring_text.specs.Wiring.{admit_line, wiring_says, wiring_edition, wiring_of};
ghost use Rattle.mrc_wiring_text.specs.Wiring.{trust_named, trust_line, fit_line, third_says};

use crate::faults::TextFault;
use crate::items::{Items, items_of};
use crate::kinds::{Kind, kind_of};
use crate::lexis::{around_dot, is_word};
use crate::names::Name;
use crate::policy::{ClassName, class_of};
use crate::reading::{Edition, Line, Statement, TextKind, text_edition, text_of};
use crate::trust::{TrustVerb, TrustedRight, trusted, verb_of};
use mrc_base::OrMemory;
use std::alloc::{AllocError, Global};

/// The rights that a wiring can give on a port.
#[derive(Clone, Copy, Debug, PartialEq, Eq)]
pub enum HeldRight {
    /// `send`.
    Send,
    /// `once`: send-once.
    SendOnce,
}

/// What a line of a wiring says.
#[derive(Debug, Drop)]
pub enum WiringSays {
    /// `task T`: there is a task of this name.
    Task(Name),
    /// `port P receiver T accepts ITEMS`: there is a wired port P, T holds its receive right, and
    /// its class accepts the items.
    Port {
        /// P.
        port: Name,
        /// T, which holds the receive right.
        receiver: Name,
        /// What the port's class accepts.
        accepts: Items,
    },
    /// `births T K accepts ITEMS`: the ports of kind K that T's space, or that of a task that is
    /// made like T, is the first to hold accept the items. In version 1 it is
    /// `births T accepts ITEMS`, which are those of kind 0.
    Births {
        /// T.
        task: Name,
        /// K.
        kind: Kind,
        /// What the class of T's births of this kind accepts.
        accepts: Items,
    },
    /// `hold T send port P` or `hold T once port P`: T holds the right on P.
    HoldPort {
        /// T, which holds the right.
        holder: Name,
        /// The right.
        right: HeldRight,
        /// P.
        port: Name,
    },
    /// `hold T send task U`: T holds a send right to the kernel port of U.
    HoldTask {
        /// T, which holds the right.
        holder: Name,
        /// U, whose kernel port it is.
        task: Name,
    },
    /// `admit S.type CLASS` or `admit S.type none`: slots of the type admit ports of the class.
    Admit {
        /// S, the subsystem.
        subsystem: Name,
        /// The name of the type in S.
        type_name: Name,
        /// The class, or none of this line.
        class: Option<ClassName>,
    },
    /// `trust T VERB RIGHT CLASS`, `trust T replies CLASS` or `trust T VERB none`: by the verb,
    /// tasks of T's class may do only what such lines name. In version 3 alone.
    Trust {
        /// T.
        task: Name,
        /// The verb.
        verb: TrustVerb,
        /// The right on a class, or none of this line.
        right: Option<TrustedRight>,
    },
    /// `replies fit`: a request's reply port has to accept the replies of the request's interface.
    /// In version 3 alone.
    RepliesFit,
}

/// A line of a wiring that says something.
pub type WiringLine = Line<WiringSays>;

/// `task T`, after its first word.
#[tactic(auto, unfolding(crate::specs::Wiring::task_line))]
fn task_line(alloc: Global, words: &[&[u8]]) -> Result<Option<WiringSays>, AllocError>
    ensures { IfOk result (λ says. says ≡ task_line (map (λ word. word.now) words.now)) }
{
    match *words {
        [task] => Ok(Name::new(alloc, task)?.map(|task| WiringSays::Task(task))),
        _ => Ok(None),
    }
}

fn port_named(
    port: Option<Name>,
    receiver: Option<Name>,
    accepts: Option<Items>,
) -> Option<WiringSays>
    ensures { result ≡ port_named port receiver accepts }
{
    match (port, receiver, accepts) {
        (Some(port), Some(receiver), Some(accepts)) => {
            Some(WiringSays::Port {
                port,
                receiver,
                accepts,
            })
        }
        _ => None,
    }
}

/// `port P receiver T accepts ITEMS`, after its first word.
#[tactic(auto, unfolding(crate::specs::Wiring::port_line))]
fn port_line(alloc: Global, words: &[&[u8]]) -> Result<Option<WiringSays>, AllocError>
    ensures { IfOk result (λ says. says ≡ port_line (map (λ word. word.now) words.now)) }
{
    match words {
        [port, receiver, task, accepts, items @ ..]
            if is_word(receiver, "receiver") && is_word(accepts, "accepts") => {
            let port = Name::new(alloc, port)?;
            let receiver = Name::new(alloc, task)?;
            let accepts = items_of(alloc, items)?;
            Ok(port_named(port, receiver, accepts))
        }
        _ => Ok(None),
    }
}

fn births_named(
    task: Option<Name>,
    kind: Option<Kind>,
    accepts: Option<Items>,
) -> Option<WiringSays>
    ensures { result ≡ births_named task kind accepts }
{
    match (task, kind, accepts) {
        (Some(task), Some(kind), Some(accepts)) => {
            Some(WiringSays::Births {
                task,
                kind,
                accepts,
            })
        }
        _ => None,
    }
}

/// `births T accepts ITEMS`, after its first word.
#[tactic(auto, unfolding(crate::specs::Wiring::plain_births))]
fn plain_births(alloc: Global, words: &[&[u8]]) -> Result<Option<WiringSays>, AllocError>
    ensures { IfOk result (λ says. says ≡ plain_births (map (λ word. word.now) words.now)) }
{
    match words {
        [task, accepts, items @ ..] if is_word(accepts, "accepts") => {
            let task = Name::new(alloc, task)?;
            let accepts = items_of(alloc, items)?;
            Ok(births_named(task, Kind::new(0), accepts))
        }
        _ => Ok(None),
    }
}

/// `births T K accepts ITEMS`, after its first word.
#[tactic(auto, unfolding(crate::specs::Wiring::kind_births))]
fn kind_births(alloc: Global, words: &[&[u8]]) -> Result<Option<WiringSays>, AllocError>
    ensures { IfOk result (λ says. says ≡ kind_births (map (λ word. word.now) words.now)) }
{
    match words {
        [task, kind, accepts, items @ ..] if is_word(accepts, "accepts") => {
            let task = Name::new(alloc, task)?;
            let kind = kind_of(kind);
            let accepts = items_of(alloc, items)?;
            Ok(births_named(task, kind, accepts))
        }
        _ => Ok(None),
    }
}

/// What the births of a task accept, after the first word.
fn births_line(
    alloc: Global,
    edition: Edition,
    words: &[&[u8]],
) -> Result<Option<WiringSays>, AllocError>
    ensures { IfOk result (λ says. says ≡ births_line edition
        (map (λ word. word.now) words.now)) }
{
    match edition {
        Edition::First => plain_births(alloc, words),
        Edition::Second | Edition::Third => kind_births(alloc, words),
    }
}

#[tactic(auto, unfolding(crate::specs::Wiring::held_right))]
fn held_right(word: &[u8]) -> Option<HeldRight>
    ensures { result ≡ held_right word.now }
{
    if is_word(word, "send") {
        Some(HeldRight::Send)
    } else if is_word(word, "once") {
        Some(HeldRight::SendOnce)
    } else {
        None
    }
}

fn hold_port_named(
    holder: Option<Name>,
    right: Option<HeldRight>,
    port: Option<Name>,
) -> Option<WiringSays>
    ensures { result ≡ hold_port_named holder right port }
{
    match (holder, right, port) {
        (Some(holder), Some(right), Some(port)) => {
            Some(WiringSays::HoldPort {
                holder,
                right,
                port,
            })
        }
        _ => None,
    }
}

fn hold_task_named(holder: Option<Name>, task: Option<Name>) -> Option<WiringSays>
    ensures { result ≡ hold_task_named holder task }
{
    match (holder, task) {
        (Some(holder), Some(task)) => Some(WiringSays::HoldTask { holder, task }),
        _ => None,
    }
}

/// What a task holds: `T send port P`, `T once port P` or `T send task U`.
#[tactic(auto, unfolding(crate::specs::Wiring::held))]
fn held(
    alloc: Global,
    holder: &[u8],
    right: &[u8],
    kind: &[u8],
    name: &[u8],
) -> Result<Option<WiringSays>, AllocError>
    ensures { IfOk result (λ says. says ≡ held holder.now right.now kind.now name.now) }
{
    let holder = Name::new(alloc, holder)?;
    let name = Name::new(alloc, name)?;
    if is_word(kind, "port") {
        Ok(hold_port_named(holder, held_right(right), name))
    } else if is_word(kind, "task") && is_word(right, "send") {
        Ok(hold_task_named(holder, name))
    } else {
        Ok(None)
    }
}

/// `hold T send port P`, `hold T once port P` and `hold T send task U`, after the first word.
#[tactic(auto, unfolding(crate::specs::Wiring::hold_line))]
fn hold_line(alloc: Global, words: &[&[u8]]) -> Result<Option<WiringSays>, AllocError>
    ensures { IfOk result (λ says. says ≡ hold_line (map (λ word. word.now) words.now)) }
{
    match *words {
        [holder, right, kind, name] => held(alloc, holder, right, kind, name),
        _ => Ok(None),
    }
}

/// What words say that a slot admits.
#[tactic(auto, unfolding(crate::specs::Wiring::admitted))]
pub(crate) fn admitted(
    alloc: Global,
    edition: Edition,
    words: &[&[u8]],
) -> Result<Option<Option<ClassName>>, AllocError>
    ensures { IfOk result (λ class. class ≡ admitted edition
        (map (λ word. word.now) words.now)) }
{
    match *words {
        [word] => {
            if is_word(word, "none") {
                Ok(Some(None))
            } else {
                Ok(None)
            }
        }
        _ => Ok(class_of(alloc, edition, words)?.map(|class| Some(class))),
    }
}

fn admit_named(
    subsystem: Option<Name>,
    type_name: Option<Name>,
    class: Option<Option<ClassName>>,
) -> Option<WiringSays>
    ensures { result ≡ admit_named subsystem type_name class }
{
    match (subsystem, type_name, class) {
        (Some(subsystem), Some(type_name), Some(class)) => {
            Some(WiringSays::Admit {
                subsystem,
                type_name,
                class,
            })
        }
        _ => None,
    }
}

/// `admit S.type CLASS` and `admit S.type none`, after the first word.
#[tactic(auto, unfolding(crate::specs::Wiring::admit_line))]
fn admit_line(
    alloc: Global,
    edition: Edition,
    words: &[&[u8]],
) -> Result<Option<WiringSays>, AllocError>
    ensures { IfOk result (λ says. says ≡ admit_line edition
        (map (λ word. word.now) words.now)) }
{
    match words {
        [slot, class @ ..] => {
            let (subsystem, type_name) = around_dot(slot);
            let subsystem = Name::new(alloc, subsystem)?;
            let type_name = Name::new(alloc, type_name)?;
            let class = admitted(alloc, edition, class)?;
            Ok(admit_named(subsystem, type_name, class))
        }
        _ => Ok(None),
    }
}

fn trust_named(
    task: Option<Name>,
    verb: TrustVerb,
    right: Option<Option<TrustedRight>>,
) -> Option<WiringSays>
    ensures { result ≡ trust_named task verb right }
{
    match (task, right) {
        (Some(task), Some(right)) => Some(WiringSays::Trust { task, verb, right }),
        _ => None,
    }
}

/// What a trusted task may do by a verb: `trust T VERB RIGHT CLASS`, `trust T replies CLASS` or
/// `trust T VERB none`, after the first word.
#[tactic(auto, unfolding(crate::specs::Wiring::trust_line))]
fn trust_line(
    alloc: Global,
    edition: Edition,
    words: &[&[u8]],
) -> Result<Option<WiringSays>, AllocError>
    ensures { IfOk result (λ says. says ≡ trust_line edition
        (map (λ word. word.now) words.now)) }
{
    match words {
        [task, verb, words @ ..] => match verb_of(verb) {
            Some(verb) => {
                let task = Name::new(alloc, task)?;
                let right = trusted(alloc, edition, verb, words)?;
                Ok(trust_named(task, verb, right))
            }
            None => Ok(None),
        },
        _ => Ok(None),
    }
}

/// `replies fit`, after the first word.
#[tactic(auto, unfolding(crate::specs::Wiring::fit_line))]
fn fit_line(words: &[&[u8]]) -> Option<WiringSays>
    ensures { result ≡ fit_line (map (λ word. word.now) words.now) }
{
    match *words {
        [word] if is_word(word, "fit") => Some(WiringSays::RepliesFit),
        _ => None,
    }
}

/// What words of version 3 alone say, by the first of them.
fn third_says(
    alloc: Global,
    edition: Edition,
    key: &[u8],
    words: &[&[u8]],
) -> Result<Option<WiringSays>, AllocError>
    ensures { IfOk result (λ says. says ≡ third_says edition key.now
        (map (λ word. word.now) words.now)) }
{
    match edition {
        Edition::First | Edition::Second => Ok(None),
        Edition::Third => {
            if is_word(key, "trust") {
                trust_line(alloc, edition, words)
            } else if is_word(key, "replies") {
                Ok(fit_line(words))
            } else {
                Ok(None)
            }
        }
    }
}

impl Statement for WiringSays {
    ghost meaning = { wiring_says };

    #[tactic(auto, unfolding(crate::specs::Wiring::wiring_says))]
    fn read(
        alloc: Global,
        edition: Edition,
        words: &[&[u8]],
    ) -> Result<Option<WiringSays>, AllocError> {
        match words {
            [key, words @ ..] if is_word(key, "task") => task_line(alloc, words),
            [key, words @ ..] if is_word(key, "port") => port_line(alloc, words),
            [key, words @ ..] if is_word(key, "births") => births_line(alloc, edition, words),
            [key, words @ ..] if is_word(key, "hold") => hold_line(alloc, words),
            [key, words @ ..] if is_word(key, "admit") => admit_line(alloc, edition, words),
            [key, words @ ..] => third_says(alloc, edition, key, words),
            _ => Ok(None),
        }
    }
}

fn wiring_of(alloc: Global, bytes: &[u8]) -> Result<Vec<WiringLine>, OrMemory<TextFault>>
    ensures fault { Gives (λ lines. lines.items) result (wiring_of bytes.now) }
    ensures no_text { ¬ (IsUtf8 bytes.now) → result ≡ Err (OrMemory.Fault TextFault.NotUtf8) }
{
    text_of(alloc, TextKind::Wiring, bytes)
}

fn edition_of(alloc: Global, bytes: &[u8]) -> Result<Edition, OrMemory<TextFault>>
    ensures fault { Gives (λ edition. edition) result (wiring_edition bytes.now) }
{
    text_edition(alloc, TextKind::Wiring, bytes)
}

/// The edition of a wiring, by the version that its first line names; or the fault of what stands
/// up to that line.
pub fn wiring_edition(alloc: Global, bytes: &[u8]) -> Result<Edition, OrMemory<TextFault>>
    // It is the edition by which a wiring is read, unless memory runs out.
    ensures only { (says : List (Line WiringSays)) (is : IsWiring bytes.now says) →
        Gives (λ edition. edition) result (Ok is.edition) }
    // Which fault it is: the first.
    ensures fault { Gives (λ edition. edition) result (wiring_edition bytes.now) }
{
    edition_of(alloc, bytes)
}

/// Reads a wiring: its lines that say something, in order, or the first fault.
pub fn read_wiring(alloc: Global, bytes: &[u8]) -> Result<Vec<WiringLine>, OrMemory<TextFault>>
    // What is read is said by a text of this grammar.
    ensures found { IfOk result (λ lines. IsWiring bytes.now lines.items) }
    // What a text of this grammar says is read, unless memory runs out.
    ensures only { (says : List (Line WiringSays)) → IsWiring bytes.now says →
        Gives (λ lines. lines.items) result (Ok says) }
    // `NotUtf8` is told of bytes that are no text, and of no others.
    ensures no_text { ¬ (IsUtf8 bytes.now) → result ≡ Err (OrMemory.Fault TextFault.NotUtf8) }
    ensures text { IsUtf8 bytes.now → result ≢ Err (OrMemory.Fault TextFault.NotUtf8) }
    // Which fault it is: the first.
    ensures fault { Gives (λ lines. lines.items) result (wiring_of bytes.now) }
{
    wiring_of(alloc, bytes)
}
