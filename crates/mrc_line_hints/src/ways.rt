//! Which words may come next in a line.

ghost use Rattle.std.specs.Prelude.{◌≡◌, IfOk};
ghost use Rattle.std.specs.Prelude.{◌∷◌, []};
ghost use Rattle.mrc_line_hints.specs.declared.parts.Keyword.TheVariants as key;
ghost use Rattle.mrc_line_hints.specs.declared.ways.Place.TheVariants as at;
ghost use Rattle.mrc_line_hints.specs.Ways.{way, fixed, right_ways, class_ways, item_ways};
ghost use Rattle.mrc_line_hints.specs.Ways.{line_ways, wiring_ways, verb_ways};
ghost use Rattle.mrc_line_hints.specs.Ways.{behind_task, behind_class, ways, may_end, step};

use crate::parts::{Keyword, Part};
use mrc_wiring_text::Edition;
use std::alloc::{AllocError, Global};

/// A place in a line: what the words before it leave to come.
#[derive(Clone, Copy, Debug, PartialEq, Eq)]
pub(crate) enum Place {
    /// The beginning of the first line of a wiring.
    WiringHead,
    /// The beginning of the first line of a policy.
    PolicyHead,
    /// The version in the first line of a wiring.
    WiringVersion,
    /// The version in the first line of a policy.
    PolicyVersion,
    /// The beginning of a line of a wiring.
    WiringLine,
    /// The beginning of a line of a policy.
    PolicyLine,
    /// A task as the last word.
    LastTask,
    /// A port as the last word.
    LastPort,
    /// P in `port P receiver T accepts ITEMS`.
    NewPort,
    /// The word `receiver`.
    Receiver,
    /// T in `port P receiver T accepts ITEMS`.
    ReceiverTask,
    /// T in `births T K accepts ITEMS`.
    BirthsTask,
    /// K in `births T K accepts ITEMS`.
    BirthsKind,
    /// The word `accepts`.
    Accepts,
    /// ITEMS.
    Items,
    /// An item behind a comma.
    Item,
    /// The subsystem of an item.
    Subsystem,
    /// A comma, or the end of the line.
    BehindItem,
    /// T in `hold T RIGHT ..`.
    Holder,
    /// `send` or `once` in a `hold` line.
    HeldRight,
    /// `port` or `task` behind `send`.
    SendTo,
    /// `port` behind `once`.
    OnceTo,
    /// The type in an `admit` line.
    Slot,
    /// CLASS, or `none`.
    Admitted,
    /// CLASS.
    Class,
    /// U in `births U K` as a class.
    ClassBirths,
    /// K in `births U K` as a class, or the end of the line.
    ClassKind,
    /// T in `trust T VERB ..`.
    Trusted,
    /// The verb.
    Verb,
    /// RIGHT CLASS, or `none`.
    NamedRight,
    /// The word `fit`.
    Fit,
    /// T in `forbid T RIGHT CLASS`.
    Forbidden,
    /// The right in a `forbid` line.
    ForbiddenRight,
    /// The end of the line.
    End,
}

/// A part that may be next, and the place behind it.
#[derive(Clone, Copy, Debug, PartialEq, Eq)]
pub(crate) struct Way {
    /// The part.
    pub part: Part,
    /// The place behind a word of the part.
    pub next: Place,
}

fn make_way(part: Part, next: Place) -> Way
    ensures { result ≡ way part next }
{
    Way { part, next }
}

fn fixed(keyword: Keyword, next: Place) -> Way
    ensures { result ≡ fixed keyword next }
{
    make_way(Part::Fixed(keyword), next)
}

/// A way alone.
fn only(alloc: Global, part: Part, next: Place) -> Result<Vec<Way>, AllocError>
    ensures { IfOk result (λ ways. ways.items ≡ way part next ∷ []) }
{
    Vec::from_slice(alloc, &[make_way(part, next)])
}

/// The way of a word that is written as it is, alone.
fn word(alloc: Global, keyword: Keyword, next: Place) -> Result<Vec<Way>, AllocError>
    ensures { IfOk result (λ ways. ways.items ≡ fixed keyword next ∷ []) }
{
    only(alloc, Part::Fixed(keyword), next)
}

/// The words that name a right.
fn right_ways(alloc: Global, next: Place) -> Result<Vec<Way>, AllocError>
    ensures { IfOk result (λ ways. ways.items ≡ right_ways next) }
{
    let send = fixed(Keyword::Send, next);
    let receive = fixed(Keyword::Receive, next);
    let once = fixed(Keyword::Once, next);
    Vec::from_slice(alloc, &[send, receive, once])
}

/// The first words of CLASS.
fn class_ways(alloc: Global) -> Result<Vec<Way>, AllocError>
    ensures { IfOk result (λ ways. ways.items ≡ class_ways) }
{
    let port = fixed(Keyword::Port, Place::LastPort);
    let task = fixed(Keyword::Task, Place::LastTask);
    let births = fixed(Keyword::Births, Place::ClassBirths);
    Vec::from_slice(alloc, &[port, task, births])
}

/// The first words of an item.
fn item_ways(alloc: Global) -> Result<Vec<Way>, AllocError>
    ensures { IfOk result (λ ways. ways.items ≡ item_ways) }
{
    let request = fixed(Keyword::Request, Place::Subsystem);
    let reply = fixed(Keyword::Reply, Place::Subsystem);
    let destroyed = fixed(Keyword::Destroyed, Place::BehindItem);
    Vec::from_slice(alloc, &[request, reply, destroyed])
}

/// The word `none`, which ends the line, before other ways.
fn or_none(alloc: Global, others: &[Way]) -> Result<Vec<Way>, AllocError>
    ensures { IfOk result (λ ways. ways.items ≡ fixed key.NoOther at.End ∷ others.now) }
{
    let mut ways = word(alloc, Keyword::NoOther, Place::End)?;
    ways.extend_from_slice(others)?;
    Ok(ways)
}

/// The first words of lines of a wiring that each version has.
fn line_ways(alloc: Global) -> Result<Vec<Way>, AllocError>
    ensures { IfOk result (λ ways. ways.items ≡ line_ways []) }
{
    let task = fixed(Keyword::Task, Place::LastTask);
    let port = fixed(Keyword::Port, Place::NewPort);
    let births = fixed(Keyword::Births, Place::BirthsTask);
    let hold = fixed(Keyword::Hold, Place::Holder);
    let admit = fixed(Keyword::Admit, Place::Slot);
    Vec::from_slice(alloc, &[task, port, births, hold, admit])
}

/// The first words of lines of a wiring.
fn wiring_ways(alloc: Global, edition: Edition) -> Result<Vec<Way>, AllocError>
    ensures { IfOk result (λ ways. ways.items ≡ wiring_ways edition) }
{
    let mut ways = line_ways(alloc)?;
    if matches!(edition, Edition::Third) {
        let trust = fixed(Keyword::Trust, Place::Trusted);
        let replies = fixed(Keyword::Replies, Place::Fit);
        ways.extend_from_slice(&[trust, replies])?;
    }
    Ok(ways)
}

/// The verbs of trusted tasks.
fn verb_ways(alloc: Global) -> Result<Vec<Way>, AllocError>
    ensures { IfOk result (λ ways. ways.items ≡ verb_ways) }
{
    let takes = fixed(Keyword::Takes, Place::NamedRight);
    let gives = fixed(Keyword::Gives, Place::NamedRight);
    let sends = fixed(Keyword::Sends, Place::NamedRight);
    let replies = fixed(Keyword::Replies, Place::Admitted);
    Vec::from_slice(alloc, &[takes, gives, sends, replies])
}

/// What a right on a port can be, in a `hold` line.
fn held_ways(alloc: Global) -> Result<Vec<Way>, AllocError>
    ensures { IfOk result (λ ways. ways.items ≡
        fixed key.Send at.SendTo ∷ fixed key.Once at.OnceTo ∷ []) }
{
    let send = fixed(Keyword::Send, Place::SendTo);
    let once = fixed(Keyword::Once, Place::OnceTo);
    Vec::from_slice(alloc, &[send, once])
}

/// What a send right can be to, in a `hold` line.
fn target_ways(alloc: Global) -> Result<Vec<Way>, AllocError>
    ensures { IfOk result (λ ways. ways.items ≡
        fixed key.Port at.LastPort ∷ fixed key.Task at.LastTask ∷ []) }
{
    let port = fixed(Keyword::Port, Place::LastPort);
    let task = fixed(Keyword::Task, Place::LastTask);
    Vec::from_slice(alloc, &[port, task])
}

/// Behind `births T` at the beginning of a line.
fn behind_task(edition: Edition) -> Place
    ensures { result ≡ behind_task edition }
{
    match edition {
        Edition::First => Place::Accepts,
        Edition::Second | Edition::Third => Place::BirthsKind,
    }
}

/// Behind `births U` in CLASS.
fn behind_class(edition: Edition) -> Place
    ensures { result ≡ behind_class edition }
{
    match edition {
        Edition::First => Place::End,
        Edition::Second | Edition::Third => Place::ClassKind,
    }
}

/// The words that may come next, and where each leads.
pub(crate) fn ways(alloc: Global, edition: Edition, place: Place) -> Result<Vec<Way>, AllocError>
    ensures { IfOk result (λ found. found.items ≡ ways edition place) }
{
    match place {
        Place::WiringHead => word(alloc, Keyword::Wiring, Place::WiringVersion),
        Place::PolicyHead => word(alloc, Keyword::Policy, Place::PolicyVersion),
        Place::WiringVersion | Place::PolicyVersion => only(alloc, Part::Version, Place::End),
        Place::WiringLine => wiring_ways(alloc, edition),
        Place::PolicyLine => word(alloc, Keyword::Forbid, Place::Forbidden),
        Place::LastTask => only(alloc, Part::TaskName, Place::End),
        Place::LastPort => only(alloc, Part::PortName, Place::End),
        Place::NewPort => only(alloc, Part::PortName, Place::Receiver),
        Place::Receiver => word(alloc, Keyword::Receiver, Place::ReceiverTask),
        Place::ReceiverTask => only(alloc, Part::TaskName, Place::Accepts),
        Place::BirthsTask => only(alloc, Part::TaskName, behind_task(edition)),
        Place::BirthsKind => only(alloc, Part::KindNumber, Place::Accepts),
        Place::Accepts => word(alloc, Keyword::Accepts, Place::Items),
        Place::Items => or_none(alloc, &item_ways(alloc)?),
        Place::Item => item_ways(alloc),
        Place::Subsystem => only(alloc, Part::SubsystemName, Place::BehindItem),
        Place::BehindItem => word(alloc, Keyword::Comma, Place::Item),
        Place::Holder => only(alloc, Part::TaskName, Place::HeldRight),
        Place::HeldRight => held_ways(alloc),
        Place::SendTo => target_ways(alloc),
        Place::OnceTo => word(alloc, Keyword::Port, Place::LastPort),
        Place::Slot => only(alloc, Part::SlotType, Place::Admitted),
        Place::Admitted => or_none(alloc, &class_ways(alloc)?),
        Place::Class => class_ways(alloc),
        Place::ClassBirths => only(alloc, Part::TaskName, behind_class(edition)),
        Place::ClassKind => only(alloc, Part::KindNumber, Place::End),
        Place::Trusted => only(alloc, Part::TaskName, Place::Verb),
        Place::Verb => verb_ways(alloc),
        Place::NamedRight => or_none(alloc, &right_ways(alloc, Place::Class)?),
        Place::Fit => word(alloc, Keyword::Fit, Place::End),
        Place::Forbidden => only(alloc, Part::TaskName, Place::ForbiddenRight),
        Place::ForbiddenRight => right_ways(alloc, Place::Class),
        Place::End => Ok(Vec::new(alloc)),
    }
}

/// Whether the line may end here.
pub(crate) fn may_end(place: Place) -> bool
    ensures { result ≡ may_end place }
{
    matches!(place, Place::End | Place::BehindItem | Place::ClassKind)
}

/// The place behind a word.
#[tactic(auto, unfolding(crate::specs::Ways::step))]
pub(crate) fn step(
    alloc: Global,
    edition: Edition,
    place: Place,
    word: &[u8],
) -> Result<Option<Place>, AllocError>
    ensures { IfOk result (λ next. next ≡ step edition place word.now) }
{
    let ways = ways(alloc, edition, place)?;
    for way in &ways {
        if way.part.fits(alloc, word)? {
            return Ok(Some(way.next));
        }
    }
    Ok(None)
}
