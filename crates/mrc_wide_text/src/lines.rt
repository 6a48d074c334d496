//! The lines of a wiring of version 4.

ghost use Rattle.std.specs.Prelude.{◌≡◌, ◌+◌, nat_le, map, IfOk};
ghost use Rattle.mrc_base.specs.Limits.{limit_of_kinds};
ghost use Rattle.mrc_wide_text.specs.WideLines.{task_line, group_named, group_line, set_named};
ghost use Rattle.mrc_wide_text.specs.WideLines.{set_line, port_named, received_port};
ghost use Rattle.mrc_wide_text.specs.WideLines.{port_of_named, born_port, port_line, births_named};
ghost use Rattle.mrc_wide_text.specs.WideLines.{counted_replies, replies_named, births_say};
ghost use Rattle.mrc_wide_text.specs.WideLines.{births_by, births_line, sends_named, onces_named};
ghost use Rattle.mrc_wide_text.specs.WideLines.{hold_says, hold_line, admit_named, admitted};
ghost use Rattle.mrc_wide_text.specs.WideLines.{admit_line, trust_named, trust_replies_named};
ghost use Rattle.mrc_wide_text.specs.WideLines.{trust_none_named, trust_by, trust_rights};
ghost use Rattle.mrc_wide_text.specs.WideLines.{trust_line, fit_line, limits_say, wide_says};
ghost use Rattle.mrc_wide_text.specs.WideWords.{rights_of};

use crate::items::items_of;
use crate::lists::{list_and_rest, names_of, separated, tasks_and_rest, tasks_of};
use crate::parts::{
    AnyName, FixedClass, HeldClass, PortName, RightVerbWord, RightWord, SendPlace, SlotWord,
    VerbWord,
};
use crate::words::{free_name, is_alone};
use mrc_base::PortRight;
use mrc_base::limits::KINDS;
use mrc_stand_for::{Place, RightVerb, Several, SlotName, Tasks, WideClass, WideSays};
use mrc_wiring_text::{Items, Kind, Name, TrustVerb, is_word, kind_of};
use std::alloc::{AllocError, Global};

/// `task T, T ..`, after its first word.
fn task_line(alloc: Global, words: &[&[u8]]) -> Result<Option<WideSays>, AllocError>
    ensures { IfOk result (λ says. says ≡ task_line (map (λ word. word.now) words.now)) }
{
    Ok(names_of(alloc, words)?.map(|names| WideSays::Task(names)))
}

fn group_named(group: Option<Name>, tasks: Option<Tasks>) -> Option<WideSays>
    ensures { result ≡ group_named group tasks }
{
    match (group, tasks) {
        (Some(group), Some(tasks)) => Some(WideSays::Group { group, tasks }),
        _ => None,
    }
}

/// `group G TASKS`, after its first word.
#[tactic(auto, unfolding(crate::specs::WideLines::group_line))]
fn group_line(alloc: Global, words: &[&[u8]]) -> Result<Option<WideSays>, AllocError>
    ensures { IfOk result (λ says. says ≡ group_line (map (λ word. word.now) words.now)) }
{
    match words {
        [group, tasks @ ..] => {
            let group = free_name(alloc, *group)?;
            let tasks = tasks_of(alloc, tasks)?;
            Ok(group_named(group, tasks))
        }
        [] => Ok(None),
    }
}

fn set_named(set: Option<Name>, classes: Option<Several<WideClass>>) -> Option<WideSays>
    ensures { result ≡ set_named set classes }
{
    match (set, classes) {
        (Some(set), Some(classes)) => Some(WideSays::Set { set, classes }),
        _ => None,
    }
}

/// `set S CLASSES`, after its first word.
#[tactic(auto, unfolding(crate::specs::WideLines::set_line))]
fn set_line(alloc: Global, words: &[&[u8]]) -> Result<Option<WideSays>, AllocError>
    ensures { IfOk result (λ says. says ≡ set_line (map (λ word. word.now) words.now)) }
{
    match words {
        [set, classes @ ..] => {
            let set = free_name(alloc, *set)?;
            let classes = separated::<FixedClass>(alloc, classes)?;
            Ok(set_named(set, classes))
        }
        [] => Ok(None),
    }
}

fn port_named(
    port: Option<Name>,
    receiver: Option<Name>,
    accepts: Option<Items>,
) -> Option<WideSays>
    ensures { result ≡ port_named port receiver accepts }
{
    match (port, receiver, accepts) {
        (Some(port), Some(receiver), Some(accepts)) => {
            Some(WideSays::Port {
                port,
                receiver,
                accepts,
            })
        }
        _ => None,
    }
}

/// `port P receiver T accepts ITEMS`, after its third word.
#[tactic(auto, unfolding(crate::specs::WideLines::received_port))]
fn received_port(
    alloc: Global,
    port: &[u8],
    words: &[&[u8]],
) -> Result<Option<WideSays>, AllocError>
    ensures { IfOk result (λ says. says ≡ received_port port.now
        (map (λ word. word.now) words.now)) }
{
    match words {
        [task, accepts, items @ ..] if is_word(*accepts, "accepts") => {
            let port = Name::new(alloc, port)?;
            let receiver = free_name(alloc, *task)?;
            let accepts = items_of(alloc, items)?;
            Ok(port_named(port, receiver, accepts))
        }
        _ => Ok(None),
    }
}

fn port_of_named(port: Option<Name>, task: Option<Name>, kind: Option<Kind>) -> Option<WideSays>
    ensures { result ≡ port_of_named port task kind }
{
    match (port, task, kind) {
        (Some(port), Some(task), Some(kind)) => Some(WideSays::PortOf { port, task, kind }),
        _ => None,
    }
}

/// `port P of births T K`, after its third word.
#[tactic(auto, unfolding(crate::specs::WideLines::born_port))]
fn born_port(alloc: Global, port: &[u8], words: &[&[u8]]) -> Result<Option<WideSays>, AllocError>
    ensures { IfOk result (λ says. says ≡ born_port port.now (map (λ word. word.now) words.now)) }
{
    match *words {
        [births, task, kind] if is_word(births, "births") => {
            let port = Name::new(alloc, port)?;
            let task = free_name(alloc, task)?;
            Ok(port_of_named(port, task, kind_of(kind)))
        }
        _ => Ok(None),
    }
}

/// A port, after the first word.
#[tactic(auto, unfolding(crate::specs::WideLines::port_line))]
fn port_line(alloc: Global, words: &[&[u8]]) -> Result<Option<WideSays>, AllocError>
    ensures { IfOk result (λ says. says ≡ port_line (map (λ word. word.now) words.now)) }
{
    match words {
        [port, key, words @ ..] if is_word(*key, "receiver") => received_port(alloc, *port, words),
        [port, key, words @ ..] if is_word(*key, "of") => born_port(alloc, *port, words),
        _ => Ok(None),
    }
}

#[tactic(auto, unfolding(crate::specs::WideLines::births_named))]
fn births_named(
    tasks: Option<Tasks>,
    kind: Option<Kind>,
    accepts: Option<Items>,
) -> Option<WideSays>
    ensures { result ≡ births_named tasks kind accepts }
{
    match (tasks, kind, accepts) {
        (Some(tasks), Some(kind), Some(accepts)) => {
            Some(WideSays::Births {
                tasks,
                kind,
                accepts,
            })
        }
        _ => None,
    }
}

/// Whether there are kinds for so many, the first of which is this one.
fn are_kinds(kind: &Kind, count: usize) -> bool
    ensures { result ≡ nat_le (kind.now + count) limit_of_kinds }
{
    count <= usize::from(KINDS - kind.number())
}

fn counted_replies(tasks: Tasks, kind: Kind, subsystems: Several<Name>) -> Option<WideSays>
    ensures { result ≡ counted_replies tasks kind subsystems }
{
    if are_kinds(&kind, subsystems.as_slice().len()) {
        Some(WideSays::Replies {
            tasks,
            kind,
            subsystems,
        })
    } else {
        drop(tasks);
        drop(kind);
        drop(subsystems);
        None
    }
}

#[tactic(auto, unfolding(crate::specs::WideLines::replies_named))]
fn replies_named(
    tasks: Option<Tasks>,
    kind: Option<Kind>,
    subsystems: Option<Several<Name>>,
) -> Option<WideSays>
    ensures { result ≡ replies_named tasks kind subsystems }
{
    match (tasks, kind, subsystems) {
        (Some(tasks), Some(kind), Some(subsystems)) => counted_replies(tasks, kind, subsystems),
        _ => None,
    }
}

/// What births of the tasks say, by the word after their kind.
#[tactic(auto, unfolding(crate::specs::WideLines::births_by))]
fn births_by(
    alloc: Global,
    tasks: Option<Tasks>,
    kind: Option<Kind>,
    verb: &[u8],
    words: &[&[u8]],
) -> Result<Option<WideSays>, AllocError>
    ensures { IfOk result (λ says. says ≡ births_by tasks kind verb.now
        (map (λ word. word.now) words.now)) }
{
    if is_word(verb, "accepts") {
        let accepts = items_of(alloc, words)?;
        Ok(births_named(tasks, kind, accepts))
    } else if is_word(verb, "replies") {
        let subsystems = separated::<AnyName>(alloc, words)?;
        Ok(replies_named(tasks, kind, subsystems))
    } else {
        Ok(None)
    }
}

/// What births of the tasks say, after TASKS.
#[tactic(auto, unfolding(crate::specs::WideLines::births_say))]
fn births_say(
    alloc: Global,
    tasks: Option<Tasks>,
    words: &[&[u8]],
) -> Result<Option<WideSays>, AllocError>
    ensures { IfOk result (λ says. says ≡ births_say tasks (map (λ word. word.now) words.now)) }
{
    match words {
        [kind, verb, words @ ..] => births_by(alloc, tasks, kind_of(*kind), *verb, words),
        _ => Ok(None),
    }
}

/// Births, after the first word.
fn births_line(alloc: Global, words: &[&[u8]]) -> Result<Option<WideSays>, AllocError>
    ensures { IfOk result (λ says. says ≡ births_line (map (λ word. word.now) words.now)) }
{
    let (tasks, rest) = tasks_and_rest(words);
    let tasks = tasks_of(alloc, tasks)?;
    births_say(alloc, tasks, rest)
}

fn sends_named(tasks: Option<Tasks>, places: Option<Several<Place>>) -> Option<WideSays>
    ensures { result ≡ sends_named tasks places }
{
    match (tasks, places) {
        (Some(tasks), Some(places)) => Some(WideSays::HoldSend { tasks, places }),
        _ => None,
    }
}

fn onces_named(tasks: Option<Tasks>, ports: Option<Several<Name>>) -> Option<WideSays>
    ensures { result ≡ onces_named tasks ports }
{
    match (tasks, ports) {
        (Some(tasks), Some(ports)) => Some(WideSays::HoldOnce { tasks, ports }),
        _ => None,
    }
}

/// What tasks hold, after TASKS.
#[tactic(auto, unfolding(crate::specs::WideLines::hold_says))]
fn hold_says(
    alloc: Global,
    tasks: Option<Tasks>,
    words: &[&[u8]],
) -> Result<Option<WideSays>, AllocError>
    ensures { IfOk result (λ says. says ≡ hold_says tasks (map (λ word. word.now) words.now)) }
{
    match words {
        [right, places @ ..] if is_word(*right, "send") => {
            let places = separated::<SendPlace>(alloc, places)?;
            Ok(sends_named(tasks, places))
        }
        [right, ports @ ..] if is_word(*right, "once") => {
            let ports = separated::<PortName>(alloc, ports)?;
            Ok(onces_named(tasks, ports))
        }
        _ => Ok(None),
    }
}

/// What tasks hold, after the first word.
fn hold_line(alloc: Global, words: &[&[u8]]) -> Result<Option<WideSays>, AllocError>
    ensures { IfOk result (λ says. says ≡ hold_line (map (λ word. word.now) words.now)) }
{
    let (tasks, rest) = tasks_and_rest(words);
    let tasks = tasks_of(alloc, tasks)?;
    hold_says(alloc, tasks, rest)
}

fn admit_named(
    slots: Option<Several<SlotName>>,
    classes: Option<Option<Several<WideClass>>>,
) -> Option<WideSays>
    ensures { result ≡ admit_named slots classes }
{
    match (slots, classes) {
        (Some(slots), Some(classes)) => Some(WideSays::Admit { slots, classes }),
        _ => None,
    }
}

/// CLASSES or `none`, in a line without a holder.
#[tactic(auto, unfolding(crate::specs::WideLines::admitted))]
fn admitted(
    alloc: Global,
    words: &[&[u8]],
) -> Result<Option<Option<Several<WideClass>>>, AllocError>
    ensures { IfOk result (λ classes. classes ≡ admitted (map (λ word. word.now) words.now)) }
{
    if is_alone(words, "none") {
        return Ok(Some(None));
    }
    Ok(separated::<FixedClass>(alloc, words)?.map(|classes| Some(classes)))
}

/// What slots admit, after the first word.
fn admit_line(alloc: Global, words: &[&[u8]]) -> Result<Option<WideSays>, AllocError>
    ensures { IfOk result (λ says. says ≡ admit_line (map (λ word. word.now) words.now)) }
{
    let (slots, rest) = list_and_rest(words);
    let slots = separated::<SlotWord>(alloc, slots)?;
    let classes = admitted(alloc, rest)?;
    Ok(admit_named(slots, classes))
}

/// RIGHTS.
#[tactic(auto, unfolding(crate::specs::WideWords::rights_of))]
pub fn rights_of(alloc: Global, words: &[&[u8]]) -> Result<Option<Several<PortRight>>, AllocError>
    ensures { IfOk result (λ rights. rights ≡ rights_of (map (λ word. word.now) words.now)) }
{
    if is_alone(words, "any") {
        let mut rights = Several::empty(alloc);
        rights.push(PortRight::Send)?;
        rights.push(PortRight::Receive)?;
        rights.push(PortRight::SendOnce)?;
        return Ok(Some(rights));
    }
    separated::<RightWord>(alloc, words)
}

fn trust_named(
    tasks: Option<Tasks>,
    verbs: Option<Several<RightVerb>>,
    rights: Option<Several<PortRight>>,
    classes: Option<Several<WideClass>>,
) -> Option<WideSays>
    ensures { result ≡ trust_named tasks verbs rights classes }
{
    match (tasks, verbs, rights, classes) {
        (Some(tasks), Some(verbs), Some(rights), Some(classes)) => {
            Some(WideSays::Trust {
                tasks,
                verbs,
                rights,
                classes,
            })
        }
        _ => None,
    }
}

fn trust_replies_named(
    tasks: Option<Tasks>,
    classes: Option<Several<WideClass>>,
) -> Option<WideSays>
    ensures { result ≡ trust_replies_named tasks classes }
{
    match (tasks, classes) {
        (Some(tasks), Some(classes)) => Some(WideSays::TrustReplies { tasks, classes }),
        _ => None,
    }
}

fn trust_none_named(tasks: Option<Tasks>, verbs: Option<Several<TrustVerb>>) -> Option<WideSays>
    ensures { result ≡ trust_none_named tasks verbs }
{
    match (tasks, verbs) {
        (Some(tasks), Some(verbs)) => Some(WideSays::TrustNone { tasks, verbs }),
        _ => None,
    }
}

/// What tasks may do with rights, after VERB, VERB ..
fn trust_rights(
    alloc: Global,
    tasks: Option<Tasks>,
    verbs: &[&[u8]],
    words: &[&[u8]],
) -> Result<Option<WideSays>, AllocError>
    ensures { IfOk result (λ says. says ≡ trust_rights tasks (map (λ word. word.now) verbs.now)
        (map (λ word. word.now) words.now)) }
{
    let (rights, rest) = list_and_rest(words);
    let verbs = separated::<RightVerbWord>(alloc, verbs)?;
    let rights = rights_of(alloc, rights)?;
    let classes = separated::<HeldClass>(alloc, rest)?;
    Ok(trust_named(tasks, verbs, rights, classes))
}

/// What tasks may do, after VERB, VERB ..
#[tactic(auto, unfolding(crate::specs::WideLines::trust_by))]
fn trust_by(
    alloc: Global,
    tasks: Option<Tasks>,
    verbs: &[&[u8]],
    words: &[&[u8]],
) -> Result<Option<WideSays>, AllocError>
    ensures { IfOk result (λ says. says ≡ trust_by tasks (map (λ word. word.now) verbs.now)
        (map (λ word. word.now) words.now)) }
{
    if is_alone(words, "none") {
        let verbs = separated::<VerbWord>(alloc, verbs)?;
        Ok(trust_none_named(tasks, verbs))
    } else if is_alone(verbs, "replies") {
        let classes = separated::<HeldClass>(alloc, words)?;
        Ok(trust_replies_named(tasks, classes))
    } else {
        trust_rights(alloc, tasks, verbs, words)
    }
}

/// What tasks may do, after the first word.
fn trust_line(alloc: Global, words: &[&[u8]]) -> Result<Option<WideSays>, AllocError>
    ensures { IfOk result (λ says. says ≡ trust_line (map (λ word. word.now) words.now)) }
{
    let (tasks, rest) = tasks_and_rest(words);
    let tasks = tasks_of(alloc, tasks)?;
    let (verbs, rest) = list_and_rest(rest);
    trust_by(alloc, tasks, verbs, rest)
}

/// `replies fit`, after the first word.
fn fit_line(words: &[&[u8]]) -> Option<WideSays>
    ensures { result ≡ fit_line (map (λ word. word.now) words.now) }
{
    if is_alone(words, "fit") {
        Some(WideSays::RepliesFit)
    } else {
        None
    }
}

/// What words say about what tasks hold, what slots admit and what trusted tasks may do, by the
/// first of them.
#[tactic(auto, unfolding(crate::specs::WideLines::limits_say))]
fn limits_say(alloc: Global, key: &[u8], words: &[&[u8]]) -> Result<Option<WideSays>, AllocError>
    ensures { IfOk result (λ says. says ≡ limits_say key.now (map (λ word. word.now) words.now)) }
{
    if is_word(key, "hold") {
        hold_line(alloc, words)
    } else if is_word(key, "admit") {
        admit_line(alloc, words)
    } else if is_word(key, "trust") {
        trust_line(alloc, words)
    } else if is_word(key, "replies") {
        Ok(fit_line(words))
    } else {
        Ok(None)
    }
}

/// What the words of a line say, by the first of them.
#[tactic(auto, unfolding(crate::specs::WideLines::wide_says))]
pub(crate) fn wide_says(alloc: Global, words: &[&[u8]]) -> Result<Option<WideSays>, AllocError>
    ensures { IfOk result (λ says. says ≡ wide_says (map (λ word. word.now) words.now)) }
{
    match words {
        [key, words @ ..] if is_word(*key, "task") => task_line(alloc, words),
        [key, words @ ..] if is_word(*key, "group") => group_line(alloc, words),
        [key, words @ ..] if is_word(*key, "set") => set_line(alloc, words),
        [key, words @ ..] if is_word(*key, "port") => port_line(alloc, words),
        [key, words @ ..] if is_word(*key, "births") => births_line(alloc, words),
        [key, words @ ..] => limits_say(alloc, *key, words),
        [] => Ok(None),
    }
}
